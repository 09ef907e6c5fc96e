//! Streams as they come.

ghost use Rattle.std.specs.Prelude.{◌≡◌, ◌<◌, ◌≤◌, IfOk, length, map};
ghost use Rattle.std.specs.List.{All};
ghost use Rattle.ll_session.specs.Visit.{WasServed};

use crate::handover::hand_over;
use crate::host::Host;
use crate::stream::{Served, Stream};
use crate::watcher::Watches;
use crate::workers::{Takes, serve_from};
use crate::{Gate, Keeps};
use crossbeam_channel::{Receiver, Sender, unbounded};
use ll_client::Shape;
use std::alloc::{AllocError, Global};
use std::io::{Read, Write};
use std::sync::Wait;
use std::sync::atomic::{AtomicU64, Ordering};
use std::thread::Threads;

/// Where streams come from.
pub trait Accepts {
    type In: Read + Send + Drop;

    type Out: Write + Send + Drop;

    /// Waits for the next stream and returns its two ends. None if it failed.
    fn accept(&self) -> Option<(Self::In, Self::Out)>;
}

// The streams of a listener, a limited number in all. A worker that takes a stream first accepts the next one and sends
// it over the channel, and then takes one out of the channel. So no worker waits for another one to accept, and each
// stream that was sent is taken. A stream gets its number after it came.
#[derive(Drop)]
struct Coming<'a, L: Accepts> {
    listener: &'a L,
    sender: Sender<Stream<L::In, L::Out>>,
    streams: Receiver<Stream<L::In, L::Out>>,
    // How many streams the workers have begun to accept.
    awaited: AtomicU64,
    come: AtomicU64,
    connections: usize,
}

impl<'a, L: Accepts> Takes<L::In, L::Out> for Coming<'a, L> {
    // Takes the next stream. A failed one counts, and one that can't be handed over is closed.
    fn take<H: Wait>(&self, rt: &H) -> Option<Stream<L::In, L::Out>> {
        for _ in 0..self.connections {
            let before = self.awaited.fetch_add(1, Ordering::SeqCst);
            if before >= self.connections as u64 {
                return None;
            }
            if let Some((reader, writer)) = self.listener.accept() {
                let number = self.come.fetch_add(1, Ordering::SeqCst);
                let stream = Stream {
                    number: number.saturating_add(1),
                    reader,
                    writer,
                };
                match hand_over(rt, &self.sender, stream) {
                    Ok(()) => return self.streams.recv(rt).ok(),
                    Err(refused) => drop(refused),
                }
            }
        }
        None
    }
}

/// Accepts streams with several threads, a limited number in all, and serves each. If some of the threads can't be
/// started, the others accept and serve. Returns what is left of each served stream, as `serve_streams` does. Errors:
/// memory for that ran out.
pub fn serve_on<
    N: Shape + Send + Sync,
    G: Gate<N> + Sync,
    H: Threads + Wait + Sync,
    L: Accepts + Sync,
    V: Watches<L::In, L::Out> + Sync,
    K: Keeps + Sync,
>(
    rt: &H,
    alloc: Global,
    host: &Host<N, G, K>,
    listener: &L,
    watch: &V,
    workers: usize,
    connections: usize,
) -> Result<Vec<Vec<Served<N, L::In, L::Out>>>, AllocError>
    requires { 0 < workers }
    ensures workers { IfOk result (λ rooms. length rooms.items ≡ workers) }
    ensures most { IfOk result (λ rooms. All (λ room. length room.items ≤ connections) rooms.items) }
    ensures served { IfOk result (λ rooms. All (λ room. All (λ it. WasServed N.limit host.now.profile.now
        L.In.remaining L.Out.contents it.outcome it.came.value it.went.value (map (λ c. c.rider) it.clients.items))
        room.items) rooms.items) }
{
    let (sender, streams) = unbounded(alloc)?;
    let coming = Coming {
        listener,
        sender,
        streams,
        awaited: AtomicU64::new(0),
        come: AtomicU64::new(0),
        connections,
    };
    serve_from(rt, alloc, host, &coming, watch, workers, connections)
}
