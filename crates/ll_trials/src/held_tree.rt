//! A tree in which a gate holds one walk, and what another client does meanwhile.

ghost use Rattle.std.specs.Prelude.{◌≡◌, ◌+◌, true};
ghost use Rattle.ll_rights.specs.declared.limits.TheConstants.{TREE_CLIENTS};

use crate::calls::{makes, target};
use crate::clients::{bring, close};
use crate::watched::{TrialEnd, end_of_trial, waits_for};
use ll_audit::audit;
use ll_calls::{Refused, Tree};
use ll_client::{Account, Blank, Client, Locked, Shape};
use ll_rights::{Abi, Access, Errno, Kind};
use ll_seq::Rules;
use ll_walk::Gate;
use std::alloc::{AllocError, Global};
use std::marker::Brand;
use std::sync::atomic::{AtomicU64, Ordering};
use std::sync::{Arc, Wait};
use std::test::*;
use std::thread::{Threads, join};

const RULES: Rules = Rules {
    abi: Abi::NEWEST,
    copies: true,
};

const NODES: usize = 8;

const ROOT: u64 = 1;

/// The inode of `/a`, the first directory that is made.
const FIRST: u64 = 2;

/// The client whose walk is held.
const HELD: u64 = 2;

/// Where the gate holds the walk; whether it holds it, the walk may go on, and waited for that in vain.
#[derive(Drop)]
struct Hold {
    inode: u64,
    is_held: AtomicU64,
    goes_on: AtomicU64,
    is_late: AtomicU64,
}

/// Holds the second client's walk in one directory.
#[derive(Drop)]
struct Holding {
    hold: Arc<Hold, Global>,
}

impl<N: Shape> Gate<N> for Holding {
    fn held(&self, client: u64, inode: u64, slot: &Locked<N>) {
        let _ = slot;
        if client == HELD && inode == self.hold.inode {
            self.hold.is_held.store(1, Ordering::SeqCst);
            if !waits_for(&self.hold.goes_on, 1) {
                self.hold.is_late.store(1, Ordering::SeqCst);
            }
        }
    }
}

/// Creates and removes a file in `/b`, where no walk is held.
fn changes<N: Shape>(
    rt: &impl Wait,
    alloc: Global,
    tree: &Tree<N, Holding>,
    me: &mut Client<N>,
) -> bool {
    if !makes(rt, alloc, tree, me, Kind::Reg, "/b/f") {
        return false;
    }
    match target(alloc, "/b/f") {
        Some(path) => tree.unlink(rt, me, path).is_ok(),
        None => false,
    }
}

/// Makes a call that walks nowhere. It needs the journal's lock.
fn stays<N: Shape>(rt: &impl Wait, tree: &Tree<N, Holding>, me: &mut Client<N>) -> bool {
    tree.catch_up(rt, me);
    tree.ruleset(rt, me, Access::READ_FILE).is_ok()
}

/// Whether this client's calls succeed while the other's walk is held.
fn goes_past<N: Shape>(
    rt: &impl Wait,
    alloc: Global,
    tree: &Tree<N, Holding>,
    me: &mut Client<N>,
    hold: &Hold,
) -> bool {
    let is_held = waits_for(&hold.is_held, 1);
    let is_made = stays(rt, tree, me) && (hold.inode == ROOT || changes(rt, alloc, tree, me));
    hold.goes_on.store(1, Ordering::SeqCst);
    is_held && is_made
}

/// Whether the client's walk finds nothing under a name in `/a`.
fn finds_nothing<N: Shape>(
    rt: &impl Wait,
    alloc: Global,
    tree: &Tree<N, Holding>,
    me: &mut Client<N>,
) -> bool {
    match target(alloc, "/a/none") {
        Some(path) => tree.stat(rt, me, path) == Err(Refused::Errno(Errno::ENOENT)),
        None => false,
    }
}

/// Whether the one client isn't kept from its calls while the other's walk is held.
fn stands<N: Shape + Send + Sync, R: Threads + Wait + Sync>(
    rt: &R,
    alloc: Global,
    tree: &Tree<N, Holding>,
    one: &mut Client<N>,
    others: &mut [Client<N>],
    hold: &Hold,
) -> bool {
    let Some(other) = others.first_mut() else {
        return false;
    };
    if !makes(rt, alloc, tree, one, Kind::Dir, "/a")
        || !makes(rt, alloc, tree, one, Kind::Dir, "/b")
    {
        return false;
    }
    let (is_past, is_found) = join(
        rt,
        || goes_past(rt, alloc, tree, one, hold),
        || finds_nothing(rt, alloc, tree, other),
    );
    is_past && is_found && hold.is_late.load(Ordering::SeqCst) == 0
}

fn two_call<N: Shape + Send + Sync, R: Threads + Wait + Sync>(
    rt: &R,
    alloc: Global,
    tree: Tree<N, Holding>,
    hold: &Hold,
) -> bool {
    let mut clients = bring(rt, alloc, &tree, 2);
    let is_right = match clients.split_first_mut() {
        Some((one, others)) => stands(rt, alloc, &tree, one, others, hold),
        None => false,
    };
    let history = close(rt, tree, clients);
    is_right && audit(alloc, RULES, NODES, &history).is_ok()
}

fn opens<N: Shape + Send + Sync, R: Threads + Wait + Sync>(
    rt: &R,
    alloc: Global,
    blank: Blank<Account>,
    inode: u64,
) -> Result<bool, AllocError>
    requires named { blank ≡ N.table }
    requires slots { N.slots ≡ 8 + TREE_CLIENTS }
    requires limit { N.limit ≡ 100 }
    requires rules { N.rules ≡ record { abi = 3; copies = true } }
{
    let hold = Arc::new(
        alloc,
        Hold {
            inode,
            is_held: AtomicU64::new(0),
            goes_on: AtomicU64::new(0),
            is_late: AtomicU64::new(0),
        },
    )?;
    let gate = Holding {
        hold: Arc::try_clone(&hold)?,
    };
    match Tree::<N, Holding>::open(alloc, blank, RULES, NODES, 100, gate) {
        Ok(tree) => Ok(two_call(rt, alloc, tree, &hold)),
        Err(_) => Ok(false),
    }
}

fn holds_at<R: Threads + Wait + Sync>(rt: &R, alloc: Global, inode: u64) -> bool {
    match Blank::new(alloc) {
        Ok(blank) => matches!(opens::<Brand, _>(rt, alloc, blank, inode), Ok(true)),
        Err(_) => false,
    }
}

#[test]
fn walk_held_in_a_directory_and_a_call_beside_it(rt: HostRuntime) {
    let alloc = rt.alloc();
    let ended = end_of_trial(&rt, alloc, move || holds_at(&rt, alloc, FIRST));
    assert_eq!(rt; ended, TrialEnd::Right);
}

#[test]
fn walk_held_at_the_root_until_another_client_has_called(rt: HostRuntime) {
    let alloc = rt.alloc();
    let ended = end_of_trial(&rt, alloc, move || holds_at(&rt, alloc, ROOT));
    assert_eq!(rt; ended, TrialEnd::Right);
}
