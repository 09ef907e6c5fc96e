//! Serves all streams on one tree.

ghost use Rattle.std.specs.Prelude.{◌≡◌, ◌≤◌, ◌+◌, ◌++◌, ℕ, List, IfErr, IfOk, OnOk, length, map};
ghost use Rattle.std.specs.Io.KnownBytes.{Appends};
ghost use Rattle.std.specs.List.{All};
ghost use Rattle.ll_client.specs.Closed.{IsClosed};
ghost use Rattle.ll_client.specs.Entries.{Knows};
ghost use Rattle.ll_program.specs.declared.failure.Failure.{Failure};
ghost use Rattle.ll_rights.specs.declared.limits.TheConstants.{TREE_CLIENTS};
ghost use Rattle.ll_session.specs.Session.{AreOthers};
ghost use Rattle.ll_wire.specs.Entries.{IsEntry};
ghost use Rattle.ll_commands.specs.Service.{IsServed, MayStop, listening};

use crate::bounded::{Heard, Told};
use crate::closed_tree::close;
use crate::door::Door;
use crate::listener::listen;
use crate::loader::{entry_count, knows_only};
use crate::log::Log;
use crate::port::{Binds, Listens};
use ll_calls::Tree;
use ll_client::{Account, Blank, Client, Shape};
use ll_program::{Failure, ServeOptions};
use ll_seq::{Call, History};
use ll_session::{Host, Keeps, Served, Setup, Shared, gather, serve_on};
use ll_walk::NoGate;
use std::alloc::{AllocError, Global};
use std::io::Write;
use std::marker::Brand;
use std::sync::Wait;
use std::thread::Threads;

// Serves the streams of the door: as many workers, and as many streams, as the options ask for.
fn serve_door<
    N: Shape + Send + Sync,
    H: Threads + Wait + Sync,
    L: Listens + Send + Sync + Drop,
    K: Keeps + Sync,
    E: Write + Send,
>(
    rt: &H,
    alloc: Global,
    host: &Host<N, NoGate, K>,
    door: &Door<'_, H, L, E>,
    options: &ServeOptions,
    log: &Log<'_, H, E>,
) -> Result<Vec<Vec<Served<N, Heard<L::In>, Told<L::Out>>>>, AllocError>
    ensures workers { IfOk result (λ rooms. length rooms.items ≡ options.now.workers) }
    ensures most { IfOk result (λ rooms. All (λ room. length room.items ≤ options.now.connections) rooms.items) }
{
    serve_on(
        rt,
        alloc,
        host,
        door,
        log,
        options.workers,
        options.connections,
    )
}

// Serves the listener's streams, and closes the tree. Returns its history. Errors: NoMemory.
fn serve_all<
    N: Shape + Send + Sync,
    H: Threads + Wait + Sync,
    L: Listens + Send + Sync + Drop,
    K: Keeps + Sync,
    E: Write + Send,
>(
    rt: &H,
    alloc: Global,
    tree: Tree<N, NoGate>,
    clients: Vec<Client<N>>,
    profile: &[Call],
    listener: L,
    keeper: &K,
    options: &ServeOptions,
    log: &Log<'_, H, E>,
) -> Result<History, Failure>
    requires limit { N.limit ≡ options.now.tree.history }
    requires slots { TREE_CLIENTS ≤ N.slots }
    requires calls { AreOthers profile.now }
    ensures closed { IfOk result (λ history. (nodes : ℕ) → N.slots ≡ nodes + TREE_CLIENTS → (others : List Knows)
        × IsClosed N.rules nodes N.limit history.entries (map (λ c. c.rider) clients.items ++ others)) }
    ensures entries { IfOk result (λ history. All IsEntry history.entries) }
    ensures err { IfErr result (λ failure. failure ≡ Failure.NoMemory) }
{
    let host = Host {
        tree: &tree,
        limit: options.tree.history as u64,
        keeper,
        profile,
    };
    let door = Door::new(rt, alloc, listener, options, log);
    let served = serve_door(rt, alloc, &host, &door, options, log);
    log.end();
    let Ok(rooms) = served else {
        drop(close(rt, tree, clients));
        return Err(Failure::NoMemory);
    };
    let mut clients = clients;
    gather(rt, &mut clients, rooms);
    Ok(close(rt, tree, clients))
}

// Does what `host_on` does, over a tree with this blank.
fn host_in<
    N: Shape + Send + Sync,
    H: Threads + Wait + Sync,
    B: Binds,
    K: Keeps + Sync,
    W: Write,
    E: Write + Send,
>(
    rt: &H,
    alloc: Global,
    blank: Blank<Account>,
    setup: Setup,
    options: &ServeOptions,
    net: &B,
    keeper: &K,
    out: &mut W,
    log: &Log<'_, H, E>,
) -> Result<History, Failure>
    requires named { blank ≡ N.table }
    requires slots { N.slots ≡ setup.nodes + TREE_CLIENTS }
    requires limit { N.limit ≡ setup.history }
    requires rules { N.rules ≡ setup.rules }
    requires same { setup.history ≡ options.now.tree.history }
    ensures served { IfOk result (λ history. IsServed setup history.entries) }
    ensures told { OnOk result (Appends (W.contents out.old) (W.contents out.new) (listening options.now.port)) }
    ensures entries { IfOk result (λ history. All IsEntry history.entries) }
    ensures failure { IfErr result
        (MayStop setup options.now.port (W.contents out.old) (W.contents out.new)) }
{
    let Some(shared) = Shared::<N>::new(alloc, blank, &setup) else {
        return Err(Failure::NoMemory);
    };
    let Shared { tree, mut party } = shared;
    let Setup {
        loader,
        profile,
        ..
    } = setup;
    let entries = entry_count(&loader);
    match listen(rt, alloc, &tree, &mut party, loader, options, net, out) {
        Ok(listener) => {
            let clients = party.into_clients();
            knows_only(rt, clients.as_slice(), entries);
            let profile = profile.as_slice();
            serve_all(
                rt, alloc, tree, clients, profile, listener, keeper, options, log,
            )
        }
        Err(failure) => {
            drop(close(rt, tree, party.into_clients()));
            Err(failure)
        }
    }
}

/// Opens a tree, serves the streams of the port in the options, and returns the tree's history.
pub(crate) fn host_on<
    H: Threads + Wait + Sync,
    B: Binds,
    K: Keeps + Sync,
    W: Write,
    E: Write + Send,
>(
    rt: &H,
    alloc: Global,
    setup: Setup,
    options: &ServeOptions,
    net: &B,
    keeper: &K,
    out: &mut W,
    log: &Log<'_, H, E>,
) -> Result<History, Failure>
    requires { setup.history ≡ options.now.tree.history }
    ensures served { IfOk result (λ history. IsServed setup history.entries) }
    ensures told { OnOk result (Appends (W.contents out.old) (W.contents out.new) (listening options.now.port)) }
    ensures entries { IfOk result (λ history. All IsEntry history.entries) }
    ensures failure { IfErr result
        (MayStop setup options.now.port (W.contents out.old) (W.contents out.new)) }
{
    match Blank::new(alloc) {
        Ok(blank) => host_in::<Brand, H, B, K, W, E>(
            rt, alloc, blank, setup, options, net, keeper, out, log,
        ),
        Err(_) => Err(Failure::NoMemory),
    }
}
