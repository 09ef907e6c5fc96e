//! The storm: clients in threads of their own, then the audit of the history.

ghost use Rattle.std.specs.Prelude.{◌≡◌, ◌+◌, true};
ghost use Rattle.ll_rights.specs.declared.limits.TheConstants.{TREE_CLIENTS};

use crate::aims::TOP;
use crate::clients::{add, close, come};
use crate::orders::Orders;
use crate::random::Random;
use crate::random_calls::{makes_any, makes_top};
use crate::tally::tell;
use crate::watch::Watch;
use ll_audit::audit;
use ll_calls::Tree;
use ll_client::{Account, Blank, Client, Shape};
use ll_rights::Abi;
use ll_rights::limits::HISTORY_ENTRIES;
use ll_seq::{History, Rules};
use ll_session::add_all;
use ll_walk::NoGate;
use std::alloc::{AllocError, Global};
use std::marker::Brand;
use std::sync::Wait;
use std::sync::atomic::{AtomicU64, Ordering};
use std::thread::{self, Threads};

const RULES: Rules = Rules {
    abi: Abi::NEWEST,
    copies: true,
};

const NODES: usize = 1_024;

/// One call in this many is a spawn, while the thread has one client. Clients meet as often.
const SPAWNS: u64 = 500;

/// The end of a storm.
#[derive(Clone, Copy, Debug, PartialEq, Eq)]
pub enum Ended {
    /// All calls got their replies and are in a legal history.
    Legal,
    /// The history isn't legal.
    Illegal,
    /// The history is legal, but its entries aren't as many as the replies.
    Miscounted,
    NoMemory,
}

/// The first client spawns a child, for which the list has room. Returns whether the spawn has an entry.
fn spawns<N: Shape>(rt: &impl Wait, tree: &Tree<N, NoGate>, clients: &mut Vec<Client<N>>) -> bool {
    let Some(me) = clients.get_mut(0) else {
        return false;
    };
    match tree.spawn(rt, me) {
        Ok(child) => {
            add(rt, clients, child);
            true
        }
        Err(_) => false,
    }
}

/// Lets the first and the last client of the thread meet.
fn meet<N: Shape>(rt: &impl Wait, tree: &Tree<N, NoGate>, clients: &mut Vec<Client<N>>) {
    if let [first, .., last] = clients.as_mut_slice() {
        tree.meet(rt, first, last);
    }
}

/// Makes a call of one of the clients.
fn makes_one<N: Shape>(
    rt: &impl Wait,
    alloc: Global,
    tree: &Tree<N, NoGate>,
    clients: &mut Vec<Client<N>>,
    random: &mut Random,
) -> bool {
    if random.below(SPAWNS) == 0 {
        if clients.len() < 2 {
            return spawns(rt, tree, clients);
        }
        meet(rt, tree, clients);
    }
    let chosen = random.below(2) as usize;
    let index = if chosen < clients.len() { chosen } else { 0 };
    match clients.get_mut(index) {
        Some(me) => makes_any(rt, alloc, tree, me, random),
        None => false,
    }
}

/// Makes the calls of one thread with a client of its own. Returns whether all have entries.
fn makes_all<N: Shape>(
    rt: &impl Wait,
    tree: &Tree<N, NoGate>,
    orders: Orders,
    watch: &Watch,
    thread: usize,
    clients: &mut Vec<Client<N>>,
) -> bool {
    let alloc = *clients.allocator();
    let mut random = Random::new(orders.seed, thread as u64);
    if clients.reserve(2).is_err() || !come(rt, tree, clients) {
        return false;
    }
    let is_ready = match clients.get_mut(0) {
        Some(me) => makes_top(rt, alloc, tree, me),
        None => false,
    };
    if !is_ready {
        return false;
    }
    for _ in 0..orders.calls {
        if !makes_one(rt, alloc, tree, clients, &mut random) {
            return false;
        }
        watch.count();
    }
    true
}

/// Returns an empty list for each thread.
fn lists<N: Shape>(alloc: Global, threads: usize) -> Result<Vec<Vec<Client<N>>>, AllocError> {
    let mut lists = Vec::with_capacity(alloc, threads)?;
    for _ in 0..threads {
        lists.push_reserved(Vec::new(alloc));
    }
    Ok(lists)
}

/// Puts all clients into one list.
fn gather<N: Shape>(rt: &impl Wait, alloc: Global, lists: Vec<Vec<Client<N>>>) -> Vec<Client<N>> {
    let mut all = Vec::new(alloc);
    let mut rest = lists.into_iter();
    while let Some(clients) = rest.next() {
        add_all(rt, &mut all, clients);
    }
    rest.destroy_empty();
    all
}

fn judged(alloc: Global, orders: Orders, history: &History) -> Ended {
    let of_one = orders.calls.saturating_add(TOP.len() as u64 + 1);
    let wanted = (orders.threads as u64).saturating_mul(of_one);
    if audit(alloc, RULES, NODES, history).is_err() {
        Ended::Illegal
    } else if history.entries().len() as u64 != wanted {
        Ended::Miscounted
    } else {
        Ended::Legal
    }
}

fn storm<N: Shape + Send + Sync, R: Threads + Wait + Print + Sync>(
    rt: &R,
    alloc: Global,
    blank: Blank<Account>,
    orders: Orders,
    watch: &Watch,
) -> Ended
    requires named { blank ≡ N.table }
    requires slots { N.slots ≡ 1024 + TREE_CLIENTS }
    requires limit { N.limit ≡ 1000000 }
    requires rules { N.rules ≡ record { abi = 3; copies = true } }
{
    let opened = Tree::<N, NoGate>::open(alloc, blank, RULES, NODES, HISTORY_ENTRIES, NoGate);
    let Ok(tree) = opened else {
        return Ended::NoMemory;
    };
    let Ok(mut lists) = lists(alloc, orders.threads) else {
        return Ended::NoMemory;
    };
    let starved = AtomicU64::new(0);
    thread::for_each_mut(
        rt,
        lists.as_mut_slice(),
        orders.threads.max(1),
        &|i, clients| {
            if !makes_all(rt, &tree, orders, watch, i, clients) {
                starved.store(1, Ordering::SeqCst);
            }
        },
    );
    let clients = gather(rt, alloc, lists);
    let history = close(rt, tree, clients);
    watch.end_calls();
    if starved.load(Ordering::SeqCst) != 0 {
        return Ended::NoMemory;
    }
    if orders.tells {
        tell(rt, &history);
    }
    judged(alloc, orders, &history)
}

/// Runs a storm. Returns how it ends.
pub fn storm_of<R: Threads + Wait + Print + Sync>(
    rt: &R,
    alloc: Global,
    orders: Orders,
    watch: &Watch,
) -> Ended {
    match Blank::new(alloc) {
        Ok(blank) => storm::<Brand, _>(rt, alloc, blank, orders, watch),
        Err(_) => Ended::NoMemory,
    }
}
