//! Threads that serve streams.

ghost use Rattle.std.specs.Prelude.{◌≡◌, ◌<◌, ◌≤◌, [], IfOk, length, map};
ghost use Rattle.std.specs.List.{All};
ghost use Rattle.ll_session.specs.Rooms.{IsRoomFor};
ghost use Rattle.ll_session.specs.Visit.{WasServed};

use crate::host::Host;
use crate::stream::{Served, Stream};
use crate::visits::serve_stream;
use crate::watcher::Watches;
use crate::{Gate, Keeps};
use crossbeam_channel::Receiver;
use ll_client::Shape;
use std::alloc::{AllocError, Global};
use std::io::{Read, Write};
use std::sync::Wait;
use std::thread::{self, Threads};

/// Where workers take streams from.
pub(crate) trait Takes<R, W> {
    /// Waits for the next stream. None if no more come.
    fn take<H: Wait>(&self, rt: &H) -> Option<Stream<R, W>>;
}

// Takes the streams that are sent, until the channel is closed.
impl<R: Drop, W: Drop> Takes<R, W> for Receiver<Stream<R, W>> {
    fn take<H: Wait>(&self, rt: &H) -> Option<Stream<R, W>> {
        self.recv(rt).ok()
    }
}

// Frees rooms that nothing is in.
fn free<N: Shape, R, W>(rooms: Vec<Vec<Served<N, R, W>>>)
    requires { All (λ room. room.items ≡ []) rooms.items }
{
    let mut rest = rooms.into_iter();
    while let Some(room) = rest.next() {
        room.destroy_empty();
    }
    rest.destroy_empty();
}

// Reserves room for what is left of the streams, for each worker.
fn rooms<N: Shape, R, W>(
    alloc: Global,
    workers: usize,
    most: usize,
) -> Result<Vec<Vec<Served<N, R, W>>>, AllocError>
    ensures workers { IfOk result (λ rooms. length rooms.items ≡ workers) }
    ensures room { IfOk result (λ rooms. All (IsRoomFor most) rooms.items) }
{
    let mut rooms = Vec::with_capacity(alloc, workers)?;
    for _ in 0..workers {
        match Vec::with_capacity(alloc, most) {
            Ok(room) => rooms.push_reserved(room),
            Err(wanted) => {
                free(rooms);
                return Err(wanted);
            }
        }
    }
    Ok(rooms)
}

// Serves streams until no more come, or the limit is reached. Adds what is left of each to the room.
fn work<
    N: Shape,
    G: Gate<N>,
    H: Wait,
    R: Read + Drop,
    W: Write + Drop,
    S: Takes<R, W>,
    V: Watches<R, W>,
    K: Keeps,
>(
    rt: &H,
    alloc: Global,
    host: &Host<N, G, K>,
    streams: &S,
    watch: &V,
    room: &mut Vec<Served<N, R, W>>,
    most: usize,
)
    requires { IsRoomFor most room.old }
    ensures most { length room.new.items ≤ most }
    ensures served { All (λ it. WasServed N.limit host.now.profile.now R.remaining W.contents it.outcome it.came.value
        it.went.value (map (λ c. c.rider) it.clients.items)) room.new.items }
{
    for _ in 0..most {
        let Some(mut stream) = streams.take(rt) else {
            return;
        };
        watch.came(&stream);
        let (served, refusal) = serve_stream(rt, alloc, host, &mut stream);
        watch.went(&stream, &served, refusal);
        room.push_reserved(served);
    }
}

/// Serves streams with several threads, each up to a limit, by `serve_stream`. If some of the threads can't be started,
/// the others serve.
pub(crate) fn serve_from<
    N: Shape + Send + Sync,
    G: Gate<N> + Sync,
    H: Threads + Wait + Sync,
    R: Read + Send + Drop,
    W: Write + Send + Drop,
    S: Takes<R, W> + Sync,
    V: Watches<R, W> + Sync,
    K: Keeps + Sync,
>(
    rt: &H,
    alloc: Global,
    host: &Host<N, G, K>,
    streams: &S,
    watch: &V,
    workers: usize,
    most: usize,
) -> Result<Vec<Vec<Served<N, R, W>>>, AllocError>
    requires { 0 < workers }
    ensures workers { IfOk result (λ rooms. length rooms.items ≡ workers) }
    ensures most { IfOk result (λ rooms. All (λ room. length room.items ≤ most) rooms.items) }
    // Each of these streams was served as `serve_stream` promises.
    ensures served { IfOk result (λ rooms. All (λ room. All (λ it. WasServed N.limit host.now.profile.now
        R.remaining W.contents it.outcome it.came.value it.went.value (map (λ c. c.rider) it.clients.items))
        room.items) rooms.items) }
{
    let mut all = rooms(alloc, workers, most)?;
    thread::for_each_mut(
        rt,
        all.as_mut_slice(),
        workers,
        &|_, room|
            requires { IsRoomFor most room.now }
            ensures most { length room.exit.now.items ≤ most }
            ensures served { All (λ it. WasServed N.limit host.entry.now.profile.now R.remaining W.contents it.outcome
                it.came.value it.went.value (map (λ c. c.rider) it.clients.items)) room.exit.now.items }
        { work(rt, alloc, host, streams, watch, room, most) },
    );
    Ok(all)
}

/// Serves the streams of the channel with several threads, until it is closed, each up to a limit, by `serve_stream`.
/// If some of the threads can't be started, the others serve. Returns what is left of each stream, worker by worker, in
/// the order in which each took them. Errors: memory for that list ran out; no stream is taken then.
pub fn serve_streams<
    N: Shape + Send + Sync,
    G: Gate<N> + Sync,
    H: Threads + Wait + Sync,
    R: Read + Send + Drop,
    W: Write + Send + Drop,
    V: Watches<R, W> + Sync,
    K: Keeps + Sync,
>(
    rt: &H,
    alloc: Global,
    host: &Host<N, G, K>,
    streams: Receiver<Stream<R, W>>,
    watch: &V,
    workers: usize,
    most: usize,
) -> Result<Vec<Vec<Served<N, R, W>>>, AllocError>
    requires { 0 < workers }
    ensures workers { IfOk result (λ rooms. length rooms.items ≡ workers) }
    ensures most { IfOk result (λ rooms. All (λ room. length room.items ≤ most) rooms.items) }
    // Each of these streams was served as `serve_stream` promises.
    ensures served { IfOk result (λ rooms. All (λ room. All (λ it. WasServed N.limit host.now.profile.now
        R.remaining W.contents it.outcome it.came.value it.went.value (map (λ c. c.rider) it.clients.items))
        room.items) rooms.items) }
{
    serve_from(rt, alloc, host, &streams, watch, workers, most)
}
