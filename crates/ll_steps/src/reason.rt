//! Finds why steps aren't enabled.

ghost use Rattle.std.specs.Prelude.{◌≡◌, ◌<◌, ℕ, Bool, length, true, Some, IfErr, IfNone, IfOk, IfSome};
ghost use Rattle.std.specs.List.{AllByRecursion};
ghost use Rattle.std.specs.Option.{option_map_or};
ghost use Rattle.ll_rights.specs.Map.{get};
ghost use Rattle.ll_seq.specs.declared.call.Call.{Call};
ghost use Rattle.ll_seq.specs.History as history;
ghost use Rattle.ll_laws.specs.Sound.{IsSound};
ghost use Rattle.ll_laws.specs.Walk.{Walk};
ghost use Rattle.ll_laws.specs.Walk as walk;
ghost use Rattle.ll_laws.specs.World as world;
ghost use Rattle.ll_laws.specs.declared.step.Step.TheVariants as steps;
ghost use Rattle.ll_journal.specs.InWay.{IsFreeFrom, IsInWay};
ghost use Rattle.ll_journal.specs.Stations.{station_in};
ghost use Rattle.ll_journal.specs.Steps.{IsNext};
ghost use Rattle.ll_steps.specs.Contents.{IsKept};
ghost use Rattle.ll_steps.specs.Unmet.{IsFree, IsIdle, IsKind, IsNowhere, IsUnmetCall, IsWhyNot, has_names};

use crate::unmet::Unmet;
use crate::world::World;
use ll_journal::{Journal, Station, walks};
use ll_laws::Step;
use ll_node::Held;
use ll_seq::{Call, ClientRecord, ROOT, Targets, targets_of};

fn is_connect(call: &Call) -> bool
    ensures { result ≡ history.is_connect call.now }
{
    matches!(call, Call::Connect)
}

/// Whether the call is on a descriptor that the client has.
fn is_on_descriptor(caller: &ClientRecord, call: &Call) -> bool
    ensures { result ≡ world.is_on_descriptor caller.now call.now }
{
    match call.descriptor() {
        Some(number) => caller.descriptors.has(number),
        None => false,
    }
}

/// Whether the call is for the client alone.
fn is_alone(caller: &ClientRecord, call: &Call) -> bool
    ensures { result ≡ world.is_alone caller.now call.now }
{
    !is_connect(call) && !walks(caller, call) && !is_on_descriptor(caller, call)
}

/// The kind of the call, by the step that makes it.
fn kind_of(caller: &ClientRecord, call: &Call) -> Unmet
    ensures { IsKind caller.now call.now result }
{
    if is_connect(call) {
        return Unmet::Connects;
    }
    if walks(caller, call) {
        return Unmet::Walks;
    }
    if is_on_descriptor(caller, call) {
        return Unmet::OnDescriptor;
    }
    Unmet::Alone
}

/// The client, if it may make a call. Errors: why it can't make any.
fn idle(journal: &Journal, client: u64) -> Result<&ClientRecord, Unmet>
    ensures ok { IfOk result (λ caller. IsIdle journal.now.world client caller.now) }
    ensures err { IfErr result (λ unmet. (call : Call) (suits : Bool)
        → IsUnmetCall journal.now.world client call suits unmet) }
{
    if journal.call(client).is_some() {
        return Err(Unmet::UnderWay);
    }
    match journal.client(client) {
        Some(caller) => Ok(caller),
        None => Err(Unmet::Nobody),
    }
}

/// Why the walk of the client's call can't begin.
fn of_begin(journal: &Journal, client: u64, call: &Call) -> Option<Unmet>
    ensures { IsWhyNot journal.now.world (steps.Begin client call.now) result }
{
    let caller = match idle(journal, client) {
        Ok(caller) => caller,
        Err(unmet) => return Some(unmet),
    };
    if !walks(caller, call) {
        return Some(kind_of(caller, call));
    }
    if !call.takes_gate() {
        return None;
    }
    match journal.gate() {
        Some(holder) => Some(Unmet::Gate(holder)),
        None => None,
    }
}

/// Why the client can't make the call on a descriptor.
fn of_fd_commit(journal: &Journal, client: u64, call: &Call) -> Option<Unmet>
    ensures { IsWhyNot journal.now.world (steps.FdCommit client call.now) result }
{
    let caller = match idle(journal, client) {
        Ok(caller) => caller,
        Err(unmet) => return Some(unmet),
    };
    if is_on_descriptor(caller, call) {
        None
    } else {
        Some(kind_of(caller, call))
    }
}

/// Why the client can't make the call for itself alone.
fn of_client_step(journal: &Journal, client: u64, call: &Call) -> Option<Unmet>
    ensures { IsWhyNot journal.now.world (steps.ClientStep client call.now) result }
{
    let caller = match idle(journal, client) {
        Ok(caller) => caller,
        Err(unmet) => return Some(unmet),
    };
    if is_alone(caller, call) {
        None
    } else {
        Some(kind_of(caller, call))
    }
}

/// Whether the client's walk is that of a call with two paths.
fn has_two_paths(journal: &Journal, client: u64) -> bool
    ensures { (w : Walk) → get journal.now.world.walks client ≡ Some w → result ≡ walk.has_two_paths w.call }
{
    match journal.call(client) {
        Some(call) => matches!(targets_of(call), Targets::Two(..)),
        None => false,
    }
}

/// The slot of the directory to which the client's walk would descend from that of its current leg.
fn slot_below(journal: &Journal, slots: &[Held], client: u64) -> Option<u64>
    requires { IsKept journal.now slots.now }
    ensures some { IfSome result (λ to. (from : ℕ) × IsNext journal.now client from to) }
    ensures within { IfSome result (λ to. to < length slots.now) }
    ensures none { IfNone result (IsNowhere journal.now.world client) }
{
    let Some(from) = journal.turn_slot(client) else {
        return None;
    };
    journal.next_slot(client, from, &slots[from as usize])
}

/// Why the client's walk, which is above the root, can't descend to it.
fn of_entry(journal: &Journal, client: u64) -> Option<Unmet>
    requires sound { IsSound journal.now.world }
    requires top { station_in journal.now.world client ≡ Station.Above }
    ensures { IsWhyNot journal.now.world (steps.Descend client) result }
{
    if let Some(other) = journal.marker(ROOT) {
        return Some(Unmet::Marked(ROOT, other));
    }
    if journal.starts(client) != 4 {
        return None;
    }
    match journal.gate() {
        None => None,
        Some(holder) => {
            if holder == client {
                return None;
            }
            Some(Unmet::Gate(holder))
        }
    }
}

/// Why the client's walk, which has names ahead, can't descend by the next one.
fn of_next(journal: &Journal, slots: &[Held], client: u64) -> Option<Unmet>
    requires kept { IsKept journal.now slots.now }
    requires more { has_names (station_in journal.now.world client) ≡ true }
    ensures { IsWhyNot journal.now.world (steps.Descend client) result }
{
    let Some(to) = slot_below(journal, slots, client) else {
        return Some(Unmet::Blocked);
    };
    let inode = slots[to as usize].inode;
    match journal.marker(inode) {
        Some(other) => Some(Unmet::Marked(inode, other)),
        None => None,
    }
}

/// Why the client's walk can't descend.
fn of_descend(journal: &Journal, slots: &[Held], client: u64) -> Option<Unmet>
    requires { IsKept journal.now slots.now }
    ensures { IsWhyNot journal.now.world (steps.Descend client) result }
{
    match journal.station(client) {
        Station::Idle => Some(Unmet::NoWalk),
        Station::Stale => Some(Unmet::Stale),
        Station::Above => of_entry(journal, client),
        Station::Fork => Some(Unmet::AtFork),
        Station::End => Some(Unmet::AtEnd),
        Station::Trunk | Station::First | Station::Second => of_next(journal, slots, client),
    }
}

/// Why the client's walk, which is on the way that its two paths share, can't fork.
fn of_trunk(journal: &Journal, slots: &[Held], client: u64) -> Unmet
    requires kept { IsKept journal.now slots.now }
    requires trunk { station_in journal.now.world client ≡ Station.Trunk }
    ensures { IsWhyNot journal.now.world (steps.Fork client) (Some result) }
{
    if !has_two_paths(journal, client) {
        return Unmet::OnePath;
    }
    match slot_below(journal, slots, client) {
        Some(_) => Unmet::Ahead,
        None => Unmet::Blocked,
    }
}

/// Why the client's walk, which is above the root, can't fork.
fn of_top(journal: &Journal, client: u64) -> Unmet
    requires { station_in journal.now.world client ≡ Station.Above }
    ensures { IsWhyNot journal.now.world (steps.Fork client) (Some result) }
{
    if has_two_paths(journal, client) {
        Unmet::Above
    } else {
        Unmet::OnePath
    }
}

/// Why the client's walk, which is at its ends, can't fork.
fn of_ended(journal: &Journal, client: u64) -> Unmet
    requires { station_in journal.now.world client ≡ Station.End }
    ensures { IsWhyNot journal.now.world (steps.Fork client) (Some result) }
{
    if has_two_paths(journal, client) {
        Unmet::Forked
    } else {
        Unmet::OnePath
    }
}

/// Why the client's walk can't fork.
fn of_fork(journal: &Journal, slots: &[Held], client: u64) -> Option<Unmet>
    requires { IsKept journal.now slots.now }
    ensures { IsWhyNot journal.now.world (steps.Fork client) result }
{
    match journal.station(client) {
        Station::Idle => Some(Unmet::NoWalk),
        Station::Stale => Some(Unmet::Stale),
        Station::Above => Some(of_top(journal, client)),
        Station::Trunk => Some(of_trunk(journal, slots, client)),
        Station::Fork => None,
        Station::First | Station::Second => Some(Unmet::Forked),
        Station::End => Some(of_ended(journal, client)),
    }
}

/// The first slot in the way of the client's walk, which is at its ends, as seen from these slots.
fn first_in_way(journal: &Journal, slots: &[Held], client: u64, numbers: &[u64]) -> Option<u64>
    requires kept { IsKept journal.now slots.now }
    requires there { AllByRecursion (λ number. number < length slots.now) numbers.now }
    ensures some { IfSome result (IsInWay journal.now client) }
    ensures within { IfSome result (λ way. way < length slots.now) }
    ensures none { IfNone result (AllByRecursion (IsFreeFrom journal.now client) numbers.now) }
{
    let Some((number, numbers)) = numbers.split_first() else {
        return None;
    };
    match journal.slot_in_way(client, *number, &slots[*number as usize]) {
        Some(way) => Some(way),
        None => first_in_way(journal, slots, client, numbers),
    }
}

/// The slot in the way of the client's walk, which is at its ends.
fn way_of(journal: &Journal, slots: &[Held], client: u64) -> Option<u64>
    requires { IsKept journal.now slots.now }
    ensures some { IfSome result (IsInWay journal.now client) }
    ensures within { IfSome result (λ way. way < length slots.now) }
    ensures none { IfNone result (IsFree journal.now.world client) }
{
    let stands = journal.stands_in(client);
    first_in_way(journal, slots, client, stands.as_slice())
}

/// Why the client's walk, which is at its ends, isn't answered.
fn of_end(journal: &Journal, slots: &[Held], client: u64) -> Option<Unmet>
    requires kept { IsKept journal.now slots.now }
    requires ended { station_in journal.now.world client ≡ Station.End }
    ensures { IsWhyNot journal.now.world (steps.Commit client) result }
{
    let Some(way) = way_of(journal, slots, client) else {
        return None;
    };
    let inode = slots[way as usize].inode;
    match journal.marker(inode) {
        Some(other) => Some(Unmet::Marked(inode, other)),
        None => unreachable!(),
    }
}

/// Why the client's walk, which has names ahead, isn't answered.
fn of_way(journal: &Journal, slots: &[Held], client: u64) -> Option<Unmet>
    requires kept { IsKept journal.now slots.now }
    requires more { has_names (station_in journal.now.world client) ≡ true }
    ensures { IsWhyNot journal.now.world (steps.Commit client) result }
{
    match slot_below(journal, slots, client) {
        Some(_) => Some(Unmet::Ahead),
        None => None,
    }
}

/// Why the client's walk isn't answered.
fn of_commit(journal: &Journal, slots: &[Held], client: u64) -> Option<Unmet>
    requires { IsKept journal.now slots.now }
    ensures { IsWhyNot journal.now.world (steps.Commit client) result }
{
    match journal.station(client) {
        Station::Idle => Some(Unmet::NoWalk),
        Station::Stale => Some(Unmet::Stale),
        Station::Above => Some(Unmet::Above),
        Station::Fork => Some(Unmet::AtFork),
        Station::End => of_end(journal, slots, client),
        Station::Trunk | Station::First | Station::Second => of_way(journal, slots, client),
    }
}

/// Why the client's walk can't restart.
fn of_restart(journal: &Journal, client: u64) -> Option<Unmet>
    ensures { IsWhyNot journal.now.world (steps.Restart client) result }
{
    match journal.station(client) {
        Station::Idle => Some(Unmet::NoWalk),
        Station::Stale => None,
        _ => Some(Unmet::NotStale),
    }
}

impl World {
    /// Returns why the walk of the client's call can't begin, or None if it can.
    pub fn unmet_begin(&self, client: u64, call: &Call) -> Option<Unmet>
        ensures { IsWhyNot self.now (steps.Begin client call.now) result }
    {
        of_begin(&self.journal, client, call)
    }

    /// Returns why the step isn't enabled, or None if it is.
    pub fn unmet(&self, step: &Step) -> Option<Unmet>
        ensures { IsWhyNot self.now step.now result }
    {
        let (journal, slots) = (&self.journal, self.slots.as_slice());
        match step {
            Step::Join => None,
            Step::Begin(client, call) => of_begin(journal, *client, call),
            Step::Descend(client) => of_descend(journal, slots, *client),
            Step::Fork(client) => of_fork(journal, slots, *client),
            Step::Commit(client) => of_commit(journal, slots, *client),
            Step::Restart(client) => of_restart(journal, *client),
            Step::FdCommit(client, call) => of_fd_commit(journal, *client, call),
            Step::ClientStep(client, call) => of_client_step(journal, *client, call),
        }
    }
}
