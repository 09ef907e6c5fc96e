//! What a walk finds at its ends.

ghost use Rattle.std.specs.Prelude.{◌≡◌, ℕ, List, [], None, false, nat_le};
ghost use Rattle.ll_rights.specs.Map.{len};
ghost use Rattle.ll_seq.specs.Call.{first_path, path_of, second_path};
ghost use Rattle.ll_seq.specs.State.{State};
ghost use Rattle.ll_node.specs.InodeTable.{IsTable};
ghost use Rattle.ll_laws.specs.Walk.{has_two_paths};
ghost use Rattle.ll_journal.specs.Checks.{blocked_at, found_at, last_in, spot_at};

use ll_node::{Held, Inodes};
use ll_path::Target;
use ll_rights::Errno;
use ll_seq::{Call, Found, ROOT, Spot, Targets, no_directory, targets_of};

/// The inode of the path's last name in the directory.
#[inline(always)]
fn last_in(here: &Held, target: &Target) -> Option<u64>
    ensures { result ≡ last_in here.now (path_of target.now) }
{
    match target {
        Target::Bad(_) => Some(ROOT),
        Target::Good(path) => match path.split_last() {
            None => Some(ROOT),
            Some((_, name)) => here.node.look_up(name),
        },
    }
}

/// The spot of the path's last name in the directory.
#[inline(always)]
fn spot(table: &Inodes, here: &Held, target: &Target) -> Spot
    ensures { result ≡ spot_at table.now.facts here.now (path_of target.now) }
{
    Spot::of(table.facts(), None, here.inode, last_in(here, target))
}

/// The spot for a call without a path.
fn nowhere(table: &Inodes, here: &Held) -> Spot
    ensures { result ≡ spot_at table.now.facts here.now [] }
{
    Spot::of(table.facts(), None, here.inode, Some(ROOT))
}

/// The spots of both paths, which end in these directories.
pub(crate) fn spots(table: &Inodes, first: &Held, second: &Held, call: &Call) -> (Spot, Spot)
    ensures first { result.0 ≡ spot_at table.now.facts first.now (first_path call.now) }
    ensures second { result.1 ≡ spot_at table.now.facts second.now (second_path call.now) }
{
    match targets_of(call) {
        Targets::No => (nowhere(table, first), nowhere(table, second)),
        Targets::One(target) => (spot(table, first, target), spot(table, second, target)),
        Targets::Two(old, new) => (spot(table, first, old), spot(table, second, new)),
    }
}

/// The spots of a call of at most one path, which ends in this directory.
fn spots_alone(table: &Inodes, here: &Held, call: &Call) -> (Spot, Spot)
    requires { has_two_paths call.now ≡ false }
    ensures first { result.0 ≡ spot_at table.now.facts here.now (first_path call.now) }
    ensures second { result.1 ≡ spot_at table.now.facts here.now (second_path call.now) }
{
    let found = match targets_of(call) {
        Targets::No => nowhere(table, here),
        Targets::One(target) => spot(table, here, target),
        Targets::Two(..) => unreachable!(),
    };
    (found, found)
}

/// The spot of the call's one path, or of its second, in the directory.
pub(crate) fn last_spot(table: &Inodes, here: &Held, call: &Call) -> Spot
    ensures { result ≡ spot_at table.now.facts here.now (second_path call.now) }
{
    match targets_of(call) {
        Targets::No => nowhere(table, here),
        Targets::One(target) => spot(table, here, target),
        Targets::Two(_, new) => spot(table, here, new),
    }
}

/// What is found for a call whose paths end in these directories. `room` is the limit of live nodes.
pub(crate) fn find_ends(
    table: &Inodes,
    room: usize,
    first: &Held,
    second: &Held,
    call: &Call,
) -> Found
    ensures { (s : State) (spares : List ℕ) → IsTable s spares table.now
        → result ≡ found_at table.now.facts (nat_le room (len s.nodes)) first.now second.now call.now }
{
    let (first, second) = spots(table, first, second, call);
    Found {
        first,
        second,
        is_full: room <= table.living(),
    }
}

/// What is found for a call of at most one path, which ends in this directory. `room` is the limit of live nodes.
pub(crate) fn find_end(table: &Inodes, room: usize, here: &Held, call: &Call) -> Found
    requires { has_two_paths call.now ≡ false }
    ensures { (s : State) (spares : List ℕ) → IsTable s spares table.now
        → result ≡ found_at table.now.facts (nat_le room (len s.nodes)) here.now here.now call.now }
{
    let (first, second) = spots_alone(table, here, call);
    Found {
        first,
        second,
        is_full: room <= table.living(),
    }
}

/// Why the walk can't descend to this inode (None: the name is missing), or None if it can.
pub(crate) fn blocked(table: &Inodes, next: Option<u64>) -> Option<Errno>
    ensures { result ≡ blocked_at table.now.facts next }
{
    let Some(inode) = next else {
        return no_directory(None);
    };
    match table.fact(inode) {
        None => no_directory(None),
        Some(fact) => no_directory(Some(fact.kind)),
    }
}
