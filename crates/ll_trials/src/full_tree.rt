//! A full tree, in which the walks of all clients but one are under way.

ghost use Rattle.std.specs.Prelude.{◌≡◌, ◌+◌, true};
ghost use Rattle.ll_rights.specs.declared.limits.TheConstants.{TREE_CLIENTS};

use crate::calls::target;
use crate::clients::{bring, close};
use crate::watched::{TrialEnd, end_of_trial, waits_for};
use ll_audit::audit;
use ll_calls::{Refused, Tree};
use ll_client::{Account, Blank, Client, Locked, Shape};
use ll_path::Target;
use ll_rights::{Abi, Errno, Kind};
use ll_seq::{History, Rules};
use ll_walk::Gate;
use std::alloc::{AllocError, Global};
use std::marker::Brand;
use std::sync::atomic::{AtomicU64, Ordering};
use std::sync::{Arc, Wait};
use std::test::*;
use std::thread::{self, Threads, join};

const RULES: Rules = Rules {
    abi: Abi::NEWEST,
    copies: true,
};

/// The root, a directory for each walk, and the file `/f`.
const NODES: usize = 65;

const WALKS: usize = 63;

/// The maker's connect, its 63 directories and its file, 63 connects, a refused make, an unlink, a make, and 63 walks.
const ENTRIES: usize = 194;

const ROOT: u64 = 1;

/// The number of walks held in their directories, and whether they may go on.
#[derive(Drop)]
struct Flags {
    held: AtomicU64,
    goes_on: AtomicU64,
}

/// Holds the walks of all clients but the first in their directories.
#[derive(Drop)]
struct Standing {
    flags: Arc<Flags, Global>,
}

impl<N: Shape> Gate<N> for Standing {
    fn held(&self, client: u64, inode: u64, slot: &Locked<N>) {
        let _ = slot;
        if client != 1 && inode != ROOT {
            let _ = self.flags.held.fetch_add(1, Ordering::SeqCst);
            let _ = waits_for(&self.flags.goes_on, 1);
        }
    }
}

/// The path of the walk's directory, or of a missing name in it.
fn path_of(alloc: Global, walk: usize, tail: &str) -> Option<Target> {
    let mut text = String::from_str(alloc, "/").ok()?;
    let number = (walk % 100) as u8;
    let name = [
        b'a'.wrapping_add(number / 10),
        b'0'.wrapping_add(number % 10),
    ];
    for byte in name {
        text.push(byte as char).ok()?;
    }
    text.push_str(tail).ok()?;
    target(alloc, text.as_str())
}

/// Creates a node of this kind.
fn makes<N: Shape>(
    rt: &impl Wait,
    tree: &Tree<N, Standing>,
    me: &mut Client<N>,
    kind: Kind,
    path: Option<Target>,
) -> Result<(), Refused> {
    match path {
        Some(path) => tree.make(rt, me, kind, path),
        None => Err(Refused::Errno(Errno::NoMemory)),
    }
}

fn furnishes<N: Shape>(
    rt: &impl Wait,
    alloc: Global,
    tree: &Tree<N, Standing>,
    me: &mut Client<N>,
) -> bool {
    for walk in 0..WALKS {
        if makes(rt, tree, me, Kind::Dir, path_of(alloc, walk, "")).is_err() {
            return false;
        }
    }
    makes(rt, tree, me, Kind::Reg, target(alloc, "/f")).is_ok()
}

/// Whether, while all walks are held, the maker finds no room for a node, and finds room after it removed a file.
fn finds_no_room<N: Shape>(
    rt: &impl Wait,
    alloc: Global,
    tree: &Tree<N, Standing>,
    me: &mut Client<N>,
    flags: &Flags,
) -> bool {
    let are_held = waits_for(&flags.held, WALKS as u64);
    let first = makes(rt, tree, me, Kind::Reg, target(alloc, "/new"));
    let is_gone = match target(alloc, "/f") {
        Some(path) => tree.unlink(rt, me, path).is_ok(),
        None => false,
    };
    let second = makes(rt, tree, me, Kind::Reg, target(alloc, "/new"));
    flags.goes_on.store(1, Ordering::SeqCst);
    are_held && first == Err(Refused::Errno(Errno::ENOSPC)) && is_gone && second.is_ok()
}

/// Whether the client's walk was held in its directory, and then found nothing under the name.
fn walks<N: Shape>(
    rt: &impl Wait,
    alloc: Global,
    tree: &Tree<N, Standing>,
    me: &mut Client<N>,
    walk: usize,
) -> bool {
    match path_of(alloc, walk, "/none") {
        Some(path) => tree.stat(rt, me, path) == Err(Refused::Errno(Errno::ENOENT)),
        None => false,
    }
}

/// Whether the history is legal and complete.
fn is_whole(alloc: Global, history: &History) -> bool {
    history.entries().len() == ENTRIES && audit(alloc, RULES, NODES, history).is_ok()
}

/// Whether the maker finds the tree full while the walks of all others are held in it, and these end.
fn stands<N: Shape + Send + Sync, R: Threads + Wait + Sync>(
    rt: &R,
    alloc: Global,
    tree: &Tree<N, Standing>,
    maker: &mut Client<N>,
    others: &mut [Client<N>],
    flags: &Flags,
) -> bool {
    if !furnishes(rt, alloc, tree, maker) {
        return false;
    }
    let ended = AtomicU64::new(0);
    let (is_right, ()) = join(
        rt,
        || finds_no_room(rt, alloc, tree, maker, flags),
        || thread::for_each_mut(
            rt,
            others,
            WALKS,
            &|walk, me| {
                if walks(rt, alloc, tree, me, walk) {
                    ended.fetch_add(1, Ordering::SeqCst);
                }
            },
        ),
    );
    is_right && ended.load(Ordering::SeqCst) == WALKS as u64
}

fn is_full<N: Shape + Send + Sync, R: Threads + Wait + Sync>(
    rt: &R,
    alloc: Global,
    tree: Tree<N, Standing>,
    flags: &Flags,
) -> bool {
    let mut clients = bring(rt, alloc, &tree, WALKS + 1);
    let is_right = match clients.split_first_mut() {
        Some((maker, others)) => stands(rt, alloc, &tree, maker, others, flags),
        None => false,
    };
    let history = close(rt, tree, clients);
    is_right && is_whole(alloc, &history)
}

fn opens<N: Shape + Send + Sync, R: Threads + Wait + Sync>(
    rt: &R,
    alloc: Global,
    blank: Blank<Account>,
) -> Result<bool, AllocError>
    requires named { blank ≡ N.table }
    requires slots { N.slots ≡ 65 + TREE_CLIENTS }
    requires limit { N.limit ≡ 1000 }
    requires rules { N.rules ≡ record { abi = 3; copies = true } }
{
    let flags = Arc::new(
        alloc,
        Flags {
            held: AtomicU64::new(0),
            goes_on: AtomicU64::new(0),
        },
    )?;
    let gate = Standing {
        flags: Arc::try_clone(&flags)?,
    };
    match Tree::<N, Standing>::open(alloc, blank, RULES, NODES, 1000, gate) {
        Ok(tree) => Ok(is_full(rt, alloc, tree, &flags)),
        Err(_) => Ok(false),
    }
}

fn stays_full<R: Threads + Wait + Sync>(rt: &R, alloc: Global) -> bool {
    match Blank::new(alloc) {
        Ok(blank) => matches!(opens::<Brand, _>(rt, alloc, blank), Ok(true)),
        Err(_) => false,
    }
}

#[test]
fn full_tree_with_63_walks_in_it(rt: HostRuntime) {
    let alloc = rt.alloc();
    let ended = end_of_trial(&rt, alloc, move || stays_full(&rt, alloc));
    assert_eq!(rt; ended, TrialEnd::Right);
}
