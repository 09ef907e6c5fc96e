//! Four threads that share a table, move, link and create in the same two directories, and finish.

ghost use Rattle.std.specs.Prelude.{◌≡◌, ◌<◌, ◌+◌, length, true};
ghost use Rattle.std.specs.Thread.{IsSync};
ghost use Rattle.ll_rights.specs.declared.limits.TheConstants.{TREE_CLIENTS};

use crate::calls::target;
use crate::watched::{TrialEnd, end_of_trial};
use ll_audit::audit;
use ll_client::{Account, Blank, Client, Shape};
use ll_journal::Made;
use ll_rights::{Abi, Kind};
use ll_seq::{Call, Creation, History, Reply, Rules};
use ll_session::dead_end;
use ll_walk::{Gate, NoGate, Table};
use std::alloc::{AllocError, Global};
use std::marker::Brand;
use std::sync::Wait;
use std::sync::atomic::{AtomicU64, Ordering};
use std::test::*;
use std::thread::{self, Threads};

const RULES: Rules = Rules {
    abi: Abi::NEWEST,
    copies: true,
};

const NODES: usize = 64;

const ROUNDS: u64 = 100_000;

/// Returns this many new clients, or fewer if one can't come.
fn bring<N: Shape, G: Gate<N>>(
    rt: &impl Wait,
    alloc: Global,
    table: &Table<N, G>,
    count: usize,
) -> Vec<Client<N>> {
    let mut clients = Vec::new(alloc);
    for _ in 0..count {
        if clients.reserve(1).is_err() {
            return clients;
        }
        match table.connect(rt) {
            Ok(client) => clients.push_reserved(client),
            Err(_) => return clients,
        }
    }
    clients
}

/// Closes the table with all its clients, and returns its history. Waits forever if one is missing.
fn close<N: Shape, G: Gate<N>>(
    rt: &impl Wait,
    table: Table<N, G>,
    clients: Vec<Client<N>>,
) -> History {
    match table.close(clients) {
        Ok(history) => history,
        Err(_back) => {
            dead_end(rt);
            unreachable!()
        }
    }
}

fn make(alloc: Global, kind: Kind, path: &str) -> Option<Call> {
    Some(Call::Make(kind, target(alloc, path)?))
}

/// Whether the call succeeds.
fn does<N: Shape, G: Gate<N>>(
    rt: &impl Wait,
    table: &Table<N, G>,
    me: &mut Client<N>,
    call: Option<Call>,
) -> bool {
    let Some(call) = call else {
        return false;
    };
    let made = table.call(rt, me, call);
    let is_done = matches!(&made, Ok(Made::Replied(Reply::Done)));
    drop(made);
    is_done
}

/// The call of one of four threads in a round. Two move a directory there and back; one links a file and removes the
/// link; one creates a file and removes it.
fn call_of(alloc: Global, thread: usize, is_even: bool) -> Option<Call> {
    let path = |text| target(alloc, text);
    match (thread, is_even) {
        (0, true) => Some(Call::Rename(path("/a/d")?, path("/b/d")?)),
        (0, false) => Some(Call::Rename(path("/b/d")?, path("/a/d")?)),
        (1, true) => Some(Call::Rename(path("/b/e")?, path("/a/d/e")?)),
        (1, false) => Some(Call::Rename(path("/a/d/e")?, path("/b/e")?)),
        (2, true) => Some(Call::Link(path("/a/f")?, path("/b/f")?)),
        (2, false) => Some(Call::Unlink(path("/b/f")?)),
        (_, true) => Some(Call::Make(Kind::Reg, path("/b/e/g")?)),
        (_, false) => Some(Call::Unlink(path("/b/e/g")?)),
    }
}

/// Whether all calls of a thread got their replies.
fn answered<N: Shape>(
    rt: &impl Wait,
    alloc: Global,
    table: &Table<N, NoGate>,
    me: &mut Client<N>,
    thread: usize,
) -> bool {
    for round in 0..ROUNDS {
        let Some(call) = call_of(alloc, thread, round % 2 == 0) else {
            return false;
        };
        let made = table.call(rt, me, call);
        let is_answered = matches!(&made, Ok(Made::Replied(_)));
        drop(made);
        if !is_answered {
            return false;
        }
    }
    true
}

/// Whether the client creates the directories `/a`, `/b`, `/a/d` and `/b/e`, and the file `/a/f`.
fn furnishes<N: Shape>(
    rt: &impl Wait,
    alloc: Global,
    table: &Table<N, NoGate>,
    me: &mut Client<N>,
) -> bool {
    for path in ["/a", "/b", "/a/d", "/b/e"] {
        if !does(rt, table, me, make(alloc, Kind::Dir, path)) {
            return false;
        }
    }
    does(rt, table, me, make(alloc, Kind::Reg, "/a/f"))
}

/// Whether all calls of the first client and of a thread for each other one get their replies.
fn all_move<N: Shape + Send + Sync, R: Threads + Wait + Sync>(
    rt: &R,
    alloc: Global,
    table: &Table<N, NoGate>,
    maker: &mut Client<N>,
    others: &mut [Client<N>],
) -> bool {
    if !furnishes(rt, alloc, table, maker) {
        return false;
    }
    let ended = AtomicU64::new(0);
    thread::for_each_mut(
        rt,
        others,
        4,
        &|i, me| {
            if answered(rt, alloc, table, me, i) {
                ended.fetch_add(1, Ordering::SeqCst);
            }
        },
    );
    ended.load(Ordering::SeqCst) == 4
}

/// Whether all calls of the four threads get their replies, in a legal history.
fn come_to_ends<N: Shape + Send + Sync, R: Threads + Wait + Sync>(
    rt: &R,
    alloc: Global,
    blank: Blank<Account>,
) -> Result<bool, AllocError>
    requires named { blank ≡ N.table }
    requires slots { N.slots ≡ 64 + TREE_CLIENTS }
    requires limit { N.limit ≡ 1000000 }
    requires rules { N.rules ≡ record { abi = 3; copies = true } }
{
    let table = Table::<N, NoGate>::open(alloc, blank, RULES, NODES, 1_000_000, NoGate)?;
    let mut clients = bring(rt, alloc, &table, 5);
    let are_moved = match clients.split_first_mut() {
        Some((maker, others)) => all_move(rt, alloc, &table, maker, others),
        None => false,
    };
    // No walk is under way, so the journal's lock is free.
    let section = table.section(rt);
    section.by_law();
    drop(section.root_slot());
    let history = close(rt, table, clients);
    let is_whole = history.entries().len() == 400_010;
    Ok(are_moved && is_whole && audit(alloc, RULES, NODES, &history).is_ok())
}

fn four_move<R: Threads + Wait + Sync>(rt: &R, alloc: Global) -> bool {
    match Blank::new(alloc) {
        Ok(blank) => matches!(come_to_ends::<Brand, _>(rt, alloc, blank), Ok(true)),
        Err(_) => false,
    }
}

#[test]
fn four_threads_that_move(rt: HostRuntime) {
    let alloc = rt.alloc();
    let ended = end_of_trial(&rt, alloc, move || four_move(&rt, alloc));
    assert_eq!(rt; ended, TrialEnd::Right);
}
