//! Checks whether a walk may be answered, and with what, given the lent slots.

ghost use Rattle.std.specs.Prelude.{◌≡◌, ◌==◌, ◌||◌, ◌&&◌, ℕ, Bool, List, true, not, nat_le, slice_index_or};
ghost use Rattle.std.specs.List.{list_all};
ghost use Rattle.ll_seq.specs.Near as near;
ghost use Rattle.ll_seq.specs.declared.found.Found.{Found};
ghost use Rattle.ll_node.specs.InodeTable.{IsTable};
ghost use Rattle.ll_path.specs.Path as paths;
ghost use Rattle.ll_path.specs.Path.{Path};
ghost use Rattle.ll_rights.specs.Map.{len};
ghost use Rattle.ll_seq.specs.Call.{first_path, second_path};
ghost use Rattle.ll_seq.specs.State.{State};
ghost use Rattle.ll_laws.specs.Walk.{is_in};
ghost use Rattle.ll_laws.specs.World as world;
ghost use Rattle.ll_journal.specs.Kept.{walks_from};
ghost use Rattle.ll_journal.specs.Checks as checks;
ghost use Rattle.ll_journal.specs.CommitCheck.{check_of};

use crate::aftermath::is_marked_by_other;
use crate::find_ends::{blocked, find_end, find_ends};
use crate::seat::Seat;
use crate::way::has_two_paths;
use crate::whereabouts::{is_in, is_lent};
use ll_node::{Held, Inodes, find};
use ll_rights::Errno;
use ll_seq::{Call, Found, Spot, Targets, names_root, targets_of};

/// The result of checking a commit.
#[derive(Clone, Copy)]
pub(crate) enum Stop {
    NotNow,
    /// Other slots are lent than the commit may need.
    Astray,
    /// The walk can't go on: its call is refused with this errno.
    Blocked(Errno),
    /// Each leg is at its end. What was found there has been written to the caller's place.
    Reached,
}

/// A placeholder for what is found.
pub(crate) const NOTHING: Found = Found {
    first: NOWHERE,
    second: NOWHERE,
    is_full: false,
};

const NOWHERE: Spot = Spot {
    way: None,
    directory: 0,
    is_crowded: false,
    there: None,
};

/// Checks a walk whose current leg is in `here` with this name ahead.
fn check_before(table: &Inodes, lent: &[Held], here: u64, name: &str) -> Stop
    ensures { (found : Found) → checks.StopsBefore table.now.facts lent.now here name.now (check_of result found) }
{
    let Some(place) = find(lent, here) else {
        return Stop::Astray;
    };
    match blocked(table, lent[place].node.look_up(name)) {
        None => Stop::NotNow,
        Some(errno) => Stop::Blocked(errno),
    }
}

/// The node that the call may change or report, other than the directories of its paths; 0 if none. `last` is the spot
/// of its one path, or of its second.
pub(crate) fn node_at(call: &Call, last: &Spot) -> u64
    ensures first { result ≡ slice_index_or (near.nodes_of call.now (checks.found_last last.now)) 0 0 }
    ensures alone { (p : ℕ → Bool) → p 0 ≡ true
        → list_all p (near.nodes_of call.now (checks.found_last last.now)) ≡ p result }
{
    match call {
        Call::Open(..) | Call::Truncate(..) | Call::ReadDir(_) => {}
        Call::Stat(_) | Call::Unlink(_) | Call::Rmdir(_) => {}
        Call::Rename(..) | Call::RenameNoreplace(..) => {}
        Call::Make(..) | Call::Exec(_) | Call::Exchange(..) | Call::Link(..) | Call::Allow(..) => {
            return 0;
        }
        Call::Read(..) | Call::Write(..) | Call::Ftruncate(..) | Call::Close(_) => return 0,
        Call::Ruleset(_) | Call::Confine(_) | Call::Spawn | Call::Connect => return 0,
    }
    match last.there {
        None => 0,
        Some(there) => there.inode,
    }
}

/// Whether the call may create a node. `last` is the spot of its one path, or of its second.
pub(crate) fn may_make_at(call: &Call, last: &Spot) -> bool
    ensures { result ≡ near.may_make call.now (checks.found_last last.now) }
{
    match call {
        Call::Make(..) => true,
        Call::Open(..) => last.there.is_none(),
        Call::Truncate(..) | Call::ReadDir(_) | Call::Stat(_) | Call::Exec(_) => false,
        Call::Unlink(_) | Call::Rmdir(_) | Call::Rename(..) | Call::RenameNoreplace(..) => false,
        Call::Exchange(..) | Call::Link(..) | Call::Allow(..) => false,
        Call::Read(..) | Call::Write(..) | Call::Ftruncate(..) | Call::Close(_) => false,
        Call::Ruleset(_) | Call::Confine(_) | Call::Spawn | Call::Connect => false,
    }
}

/// The spot of the call's one path, or of its second.
fn last_of<'a>(call: &Call, found: &'a Found) -> &'a Spot
    ensures { result.now ≡ checks.last_found call.now found.now }
{
    if has_two_paths(call) {
        &found.second
    } else {
        &found.first
    }
}

/// The node that the call may change or report, other than the directories of its paths; 0 if none.
pub(crate) fn other_node(call: &Call, found: &Found) -> u64
    ensures first { result ≡ slice_index_or (near.nodes_of call.now found.now) 0 0 }
    ensures alone { (p : ℕ → Bool) → p 0 ≡ true → list_all p (near.nodes_of call.now found.now) ≡ p result }
{
    node_at(call, last_of(call, found))
}

/// Whether the call may create a node.
fn may_make(call: &Call, found: &Found) -> bool
    ensures { result ≡ near.may_make call.now found.now }
{
    may_make_at(call, last_of(call, found))
}

fn is_other_lent(lent: &[Held], call: &Call, found: &Found) -> bool
    ensures { result ≡ list_all (λ inode. (inode == 0) || checks.lends lent.now inode)
        (near.nodes_of call.now found.now) }
{
    let other = other_node(call, found);
    other == 0 || is_lent(lent, other)
}

fn is_spare_lent(slots: &[u64], spare: u64, call: &Call, found: &Found) -> bool
    ensures { result ≡ (not (near.may_make call.now found.now) || is_in slots.now spare) }
{
    !may_make(call, found) || is_in(slots, spare)
}

/// Whether the slots that the call may need, other than those of directories, are lent.
#[inline(always)]
fn is_enough(slots: &[u64], lent: &[Held], spare: u64, call: &Call, found: &Found) -> bool
    ensures { result ≡ checks.is_enough slots.now lent.now spare call.now found.now }
{
    is_other_lent(lent, call, found) && is_spare_lent(slots, spare, call, found)
}

/// The parts of a journal that a commit looks at: all seats, the table of inodes, the limit of live nodes, and the lent
/// slots.
#[derive(Clone, Copy)]
pub(crate) struct Sight<'a> {
    pub seats: &'a [Seat],
    pub table: &'a Inodes,
    pub room: usize,
    pub slots: &'a [u64],
    pub lent: &'a [Held],
}

/// Whether the first path is the root, and whether the second is.
pub(crate) fn are_roots(call: &Call) -> (bool, bool)
    ensures first { result.0 ≡ paths.is_root (first_path call.now) }
    ensures second { result.1 ≡ paths.is_root (second_path call.now) }
{
    match targets_of(call) {
        Targets::No => (true, true),
        Targets::One(target) => (names_root(target), names_root(target)),
        Targets::Two(old, new) => (names_root(old), names_root(new)),
    }
}

/// Whether another client's walk has marked the node under the last name.
pub(crate) fn is_marked_at(seats: &[Seat], client: u64, is_root: bool, spot: &Spot) -> bool
    ensures { (w : world.World) (path : Path) → w.walks ≡ walks_from 1 seats.now → is_root ≡ paths.is_root path
        → result ≡ checks.is_marked_at (world.is_marked_by_other w client) path spot.now }
{
    if is_root {
        return false;
    }
    match spot.there {
        None => false,
        Some(there) => is_marked_by_other(seats, client, there.inode),
    }
}

#[inline(always)]
fn is_marked_there(seats: &[Seat], client: u64, call: &Call, found: &Found) -> bool
    ensures { (w : world.World) → w.walks ≡ walks_from 1 seats.now
        → result ≡ checks.is_marked_there (world.is_marked_by_other w client) call.now found.now }
{
    let (first, second) = are_roots(call);
    is_marked_at(seats, client, first, &found.first)
        || is_marked_at(seats, client, second, &found.second)
}

/// Checks a walk at its ends, given what was found there.
#[inline(always)]
fn check_there(sight: &Sight<'_>, client: u64, spare: u64, call: &Call, found: &Found) -> Stop
    ensures { (w : world.World) → w.walks ≡ walks_from 1 sight.now.seats.now
        → check_of result found.now ≡ checks.check_there (world.is_marked_by_other w client) sight.now.slots.now
        sight.now.lent.now spare call.now found.now }
{
    if is_marked_there(sight.seats, client, call, found) {
        Stop::NotNow
    } else if is_enough(sight.slots, sight.lent, spare, call, found) {
        Stop::Reached
    } else {
        Stop::Astray
    }
}

/// Checks a walk whose two legs are at their ends in these directories. Writes what is found there into `into`.
fn check_between(
    sight: &Sight<'_>,
    client: u64,
    spare: u64,
    call: &Call,
    first: u64,
    second: u64,
    into: &mut Found,
) -> Stop
    ensures { (w : world.World) (s : State) (spares : List ℕ) → w.walks ≡ walks_from 1 sight.now.seats.now
        → IsTable s spares sight.now.table.now
        → checks.StopsBetween sight.now.table.now.facts (nat_le sight.now.room (len s.nodes))
        (world.is_marked_by_other w client) sight.now.slots.now sight.now.lent.now spare call.now first second
        (check_of result into.new) }
{
    let Some(old) = find(sight.lent, first) else {
        return Stop::Astray;
    };
    if first == second && !has_two_paths(call) {
        *into = find_end(sight.table, sight.room, &sight.lent[old], call);
        return check_there(sight, client, spare, call, into);
    }
    let Some(new) = find(sight.lent, second) else {
        return Stop::Astray;
    };
    *into = find_ends(
        sight.table,
        sight.room,
        &sight.lent[old],
        &sight.lent[new],
        call,
    );
    check_there(sight, client, spare, call, into)
}

/// Checks a walk with no name ahead. Writes what is found at its ends into `into`.
fn check_at_ends(sight: &Sight<'_>, client: u64, seat: &Seat, into: &mut Found) -> Stop
    ensures { (w : world.World) (s : State) (spares : List ℕ) → w.walks ≡ walks_from 1 sight.now.seats.now
        → IsTable s spares sight.now.table.now
        → checks.StopsAtEnds sight.now.table.now.facts (nat_le sight.now.room (len s.nodes))
        (world.is_marked_by_other w client) sight.now.slots.now sight.now.lent.now seat.now
        (check_of result into.new) }
{
    if !seat.is_at_ends() {
        return Stop::NotNow;
    }
    let (Some(first), Some(second)) = (seat.first_here(), seat.second_here()) else {
        unreachable!()
    };
    let Some(call) = seat.call() else {
        unreachable!()
    };
    check_between(sight, client, seat.spare(), call, first, second, into)
}

/// Checks whether the client's walk may be answered. Writes what is found at its ends into `into`.
pub(crate) fn check_commit(sight: &Sight<'_>, client: u64, seat: &Seat, into: &mut Found) -> Stop
    ensures { (w : world.World) (s : State) (spares : List ℕ) → w.walks ≡ walks_from 1 sight.now.seats.now
        → IsTable s spares sight.now.table.now
        → checks.Stops sight.now.table.now.facts (nat_le sight.now.room (len s.nodes))
        (world.is_marked_by_other w client) sight.now.slots.now sight.now.lent.now seat.now
        (check_of result into.new) }
{
    if !seat.goes_on() {
        return Stop::NotNow;
    }
    if !seat.is_all_lent(sight.lent) {
        return Stop::Astray;
    }
    match seat.next_name() {
        None => check_at_ends(sight, client, seat, into),
        Some(name) => match seat.here() {
            None => unreachable!(),
            Some(here) => check_before(sight.table, sight.lent, here, name),
        },
    }
}
