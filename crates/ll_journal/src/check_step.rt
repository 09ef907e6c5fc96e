//! Checks whether a step may be made, given the lent slots.

ghost use Rattle.std.specs.Prelude.{◌≡◌, ◌==◌, true, Some, IfSome};
ghost use Rattle.std.specs.Option.{option_map_or};
ghost use Rattle.ll_rights.specs.Map.{get};
ghost use Rattle.ll_seq.specs.State.{Name};
ghost use Rattle.ll_journal.specs.Checks as checks;
ghost use Rattle.ll_journal.specs.Stations.{Names};
ghost use Rattle.ll_journal.specs.Seated.{call_in, next_in};

use crate::onward::Onward;
use crate::seat::Seat;
use ll_node::{Held, Inodes};
use ll_seq::{Call, ROOT};

/// The result of a check: the step may be made; it isn't enabled; or other slots are lent than it names.
#[derive(Clone, Copy)]
pub(crate) enum StepCheck {
    NotNow,
    Astray,
    Go,
}

/// Whether the client may take the gate, given its holder.
fn may_hold(gate: Option<u64>, client: u64) -> bool
    ensures { result ≡ option_map_or (λ holder. holder == client) gate true }
{
    match gate {
        None => true,
        Some(holder) => holder == client,
    }
}

/// Checks the first descent, to the root.
pub(crate) fn check_enter(seat: &Seat, gate: Option<u64>, client: u64, root: &Held) -> StepCheck
    ensures { result ≡ checks.check_enter seat.now gate client root.now }
{
    if !seat.goes_on() {
        return StepCheck::NotNow;
    }
    if !(seat.is_above() && root.inode == ROOT) {
        return StepCheck::Astray;
    }
    if root.node.mark().is_none() && (!seat.starts_last() || may_hold(gate, client)) {
        StepCheck::Go
    } else {
        StepCheck::NotNow
    }
}

fn is_directory(table: &Inodes, inode: u64) -> bool
    ensures { result ≡ checks.is_directory table.now.facts inode }
{
    match table.fact(inode) {
        None => false,
        Some(fact) => fact.kind.is_dir(),
    }
}

/// Checks a descent to the inode found under the name.
fn check_into(table: &Inodes, found: Option<u64>, to: &Held) -> StepCheck
    ensures { result ≡ checks.check_into table.now.facts found to.now }
{
    let Some(inode) = found else {
        return StepCheck::NotNow;
    };
    if !is_directory(table, inode) {
        return StepCheck::NotNow;
    }
    if to.inode != inode {
        return StepCheck::Astray;
    }
    if to.node.mark().is_none() {
        StepCheck::Go
    } else {
        StepCheck::NotNow
    }
}

fn check_next(table: &Inodes, seat: &Seat, from: &Held, to: &Held) -> StepCheck
    ensures { result ≡ checks.check_next table.now.facts (next_in seat.now) from.now to.now }
{
    match seat.next_name() {
        None => StepCheck::NotNow,
        Some(name) => check_into(table, from.node.look_up(name), to),
    }
}

/// Checks a descent from one directory to the next.
pub(crate) fn check_descend(table: &Inodes, seat: &Seat, from: &Held, to: &Held) -> StepCheck
    ensures { result ≡ checks.check_descend table.now.facts seat.now from.now to.now }
{
    if !seat.goes_on() {
        return StepCheck::NotNow;
    }
    match seat.here() {
        Some(here) if here == from.inode => check_next(table, seat, from, to),
        _ => StepCheck::Astray,
    }
}

/// Checks a descent whose next name is known to name this inode.
fn check_known(table: &Inodes, seat: &Seat, from: &Held, to: &Held, inode: u64) -> StepCheck
    requires { (name : Name) × (next_in seat.now ≡ Some name) × (get from.now.node.names name ≡ Some inode) }
    ensures { result ≡ checks.check_descend table.now.facts seat.now from.now to.now }
{
    if !seat.goes_on() {
        return StepCheck::NotNow;
    }
    match seat.here() {
        Some(here) if here == from.inode => check_into(table, Some(inode), to),
        _ => StepCheck::Astray,
    }
}

/// Checks a descent with a hint, if there is one: its name names its inode. If that is the next name, it isn't looked
/// up.
pub(crate) fn check_by_hint(
    table: &Inodes,
    seat: &Seat,
    from: &Held,
    to: &Held,
    hint: Option<Onward>,
) -> StepCheck
    requires { IfSome hint (λ on. (call : Call) → call_in seat.now ≡ Some call
        → Names call from.now on.name on.inode) }
    ensures { result ≡ checks.check_descend table.now.facts seat.now from.now to.now }
{
    let Some(on) = hint else {
        return check_descend(table, seat, from, to);
    };
    match seat.name_ahead() {
        Some(name) if name == on.name => check_known(table, seat, from, to, on.inode),
        _ => check_descend(table, seat, from, to),
    }
}

/// Checks a restart, given the lent slots.
pub(crate) fn check_restart(seat: &Seat, lent: &[Held]) -> StepCheck
    ensures { result ≡ checks.check_restart lent.now seat.now }
{
    if !seat.is_stale() {
        return StepCheck::NotNow;
    }
    if seat.is_all_lent(lent) {
        StepCheck::Go
    } else {
        StepCheck::Astray
    }
}

fn directory_at(table: &Inodes, found: Option<u64>) -> Option<u64>
    ensures { result ≡ checks.directory_at table.now.facts found }
{
    match found {
        Some(inode) if is_directory(table, inode) => Some(inode),
        _ => None,
    }
}

fn directory_for(table: &Inodes, seat: &Seat, from: &Held) -> Option<u64>
    ensures { result ≡ checks.directory_for table.now.facts (next_in seat.now) from.now }
{
    match seat.next_name() {
        None => None,
        Some(name) => directory_at(table, from.node.look_up(name)),
    }
}

/// The directory to which the walk would descend from here, if its current leg is here.
#[inline(always)]
pub(crate) fn directory_below(table: &Inodes, seat: &Seat, from: &Held) -> Option<u64>
    ensures { result ≡ checks.directory_below table.now.facts seat.now from.now }
{
    if !seat.goes_on() {
        return None;
    }
    match seat.here() {
        Some(here) if here == from.inode => directory_for(table, seat, from),
        _ => None,
    }
}
