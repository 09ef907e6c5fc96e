//! The journal.

ghost use Rattle.std.specs.Prelude.{◌≡◌, ◌<◌, ◌≤◌, ℕ, suc, [], ◌∷◌, length, None, IfOk, IfErr, IfSome, IfNone, OnOk};
ghost use Rattle.std.specs.Prelude.{OnErr, ◌≢◌, map, ◌==◌, ◌&&◌, is_none, is_some, false, if◌then◌else◌, Some};
ghost use Rattle.ll_rights.specs.declared.limits.TheConstants.{HISTORY_ENTRIES, TREE_CLIENTS, TREE_NODES};
ghost use Rattle.std.specs.Option.{option_map_or};
ghost use Rattle.ll_seq.specs.Call.{targets};
ghost use Rattle.ll_seq.specs.State.{root};
ghost use Rattle.ll_laws.specs.Walk.{Walk, forked, marks};
ghost use Rattle.ll_laws.specs.World.{has_any};
ghost use Rattle.ll_journal.specs.Checks.{goes_on};
ghost use Rattle.ll_journal.specs.Kept.{seat_at};

use crate::check_step::{StepCheck, check_enter, check_restart};
use crate::progress::Progress;
use crate::seat::Seat;
use crate::station::Station;
use crate::walked::{is_free, names_path, next_gate};
use ll_node::{Held, Inodes, unmark};
use ll_rights::limits::TREE_CLIENTS;
use ll_seq::{Call, History, ROOT, Rules};
use std::alloc::{AllocError, Global};
use std::marker::Model;

/// The history of all calls, and the walks under way. Contracts see it as a book: the world, the inode in each slot,
/// and the vacant slots.
#[derive(Drop)]
pub struct Journal {
    pub(crate) alloc: Global,
    pub(crate) rules: Rules,
    pub(crate) room: usize,
    pub(crate) history: History,
    pub(crate) seats: Vec<Seat>,
    pub(crate) gate: Option<u64>,
    pub(crate) table: Inodes,
}

impl Model for Journal {
    ghost use Rattle.ll_journal.specs.Book.{Book};
    ghost use Rattle.ll_journal.specs.SeatCodes.{coded_book};

    ghost Value = { Book };

    ghost coded = { coded_book };

    ghost use Rattle.ll_journal.specs.Kept.{book_of, IsKept};

    ghost view = { book_of };

    ghost invariant = { IsKept };
}

/// The index of the client's seat.
pub(crate) fn place_of(seats: &[Seat], client: u64) -> Option<usize>
    ensures some { IfSome result (λ place. (client ≡ suc place) × (place < length seats.now)) }
    ensures none { IfNone result (seat_at seats.now client ≡ None) }
{
    if client == 0 {
        return None;
    }
    let place = client as usize - 1;
    if place < seats.len() {
        Some(place)
    } else {
        None
    }
}

/// The holder of the gate after the client's walk has reached the root.
fn gate_at_root(seat: &Seat, gate: Option<u64>, client: u64) -> Option<u64>
    ensures { result ≡ (if option_map_or (λ (walk : Walk). walk.starts == 4) seat.now.walk false then Some client else
        gate) }
{
    if seat.starts_last() {
        Some(client)
    } else {
        gate
    }
}

/// The client's mark on the directory, if its walk marks it.
fn mark_in(seat: &Seat, client: u64, inode: u64) -> Option<u64>
    ensures { result ≡ (if option_map_or (λ (walk : Walk). marks walk inode) seat.now.walk false then Some client else
        None) }
{
    if seat.stands_in(inode) {
        Some(client)
    } else {
        None
    }
}

/// Whether the seat's walk is at its fork and isn't stale.
fn may_fork(seat: &Seat) -> bool
    ensures { result ≡ (goes_on seat.now
        && option_map_or (λ (walk : Walk). is_some (forked walk.call walk.at)) seat.now.walk false) }
{
    seat.goes_on() && seat.may_fork()
}

/// Whether the client is idle and the call names a path.
fn may_set_out(seat: &Seat, call: &Call) -> bool
    ensures { result ≡ (is_none seat.now.walk && has_any (targets call.now)) }
{
    seat.call().is_none() && names_path(call)
}

impl Journal {
    ghost use Rattle.ll_journal.specs.Book.{Spares, new_book, slot_of};
    ghost use Rattle.ll_journal.specs.Stations.{station_in};
    ghost use Rattle.ll_journal.specs.Steps.{Does, GoesDown, IsAstrayAt, IsAstrayAtTop, IsNext};
    ghost use Rattle.ll_laws.specs.World.{Begun, NotNow, Stands, advance};
    ghost use Rattle.ll_laws.specs.declared.step.Step.TheVariants.{Begin, ClientStep, Descend, Fork, Restart};

    /// Returns a tree with only the root and no clients, for at most `nodes` nodes. Reserves room for `history`
    /// entries. Errors: memory ran out.
    pub fn new(
        alloc: Global,
        rules: Rules,
        nodes: usize,
        history: usize,
    ) -> Result<Journal, AllocError>
        requires some { 1 ≤ nodes }
        requires most { nodes ≤ TREE_NODES }
        requires entry { 1 ≤ history }
        requires entries { history ≤ HISTORY_ENTRIES }
        ensures { IfOk result (λ journal. journal ≡ new_book rules nodes history) }
    {
        Ok(Journal {
            alloc,
            rules,
            room: nodes,
            history: History::new(alloc, history)?,
            seats: Vec::with_capacity(alloc, TREE_CLIENTS)?,
            gate: None,
            table: Inodes::new(alloc, nodes)?,
        })
    }

    /// Begins the walk of the client's call. Errors: the call, if it may not begin. Takes no memory.
    pub fn begin(&mut self, client: u64, call: Call) -> Result<(), Call>
        ensures begun { OnOk result (advance self.old.world (Begin client call) ≡ (Begun, self.new.world)) }
        ensures not_now { OnErr result (advance self.old.world (Begin client call) ≡ (NotNow, self.old.world)) }
        ensures back { IfErr result (λ back. back ≡ call) }
        ensures same { OnErr result (self.new ≡ self.old) }
        ensures spares { Spares self.old self.new [] }
        ensures rest { self.new ≡ record self.old { world = self.new.world } }
    {
        let Some(place) = place_of(&self.seats, client) else {
            return Err(call);
        };
        if !self.seats[place].may_begin(&call) {
            return Err(call);
        }
        self.set_out(client, call)
    }

    /// Begins the walk of a call that isn't for the client alone. Errors: the call, if it may not begin.
    pub(crate) fn set_out(&mut self, client: u64, call: Call) -> Result<(), Call>
        requires { advance self.old.world (ClientStep client call) ≡ (NotNow, self.old.world) }
        ensures begun { OnOk result (advance self.old.world (Begin client call) ≡ (Begun, self.new.world)) }
        ensures not_now { OnErr result (advance self.old.world (Begin client call) ≡ (NotNow, self.old.world)) }
        ensures back { IfErr result (λ back. back ≡ call) }
        ensures same { OnErr result (self.new ≡ self.old) }
        ensures spares { Spares self.old self.new [] }
        ensures rest { self.new ≡ record self.old { world = self.new.world } }
    {
        let Some(place) = place_of(&self.seats, client) else {
            return Err(call);
        };
        if !may_set_out(&self.seats[place], &call) {
            return Err(call);
        }
        if !is_free(self.gate, &call) {
            return Err(call);
        }
        self.gate = next_gate(self.gate, client, &call);
        let seat = &mut self.seats[place];
        seat.begin(call);
        Ok(())
    }

    /// Makes the walk's first descent, to the root. The root's slot must be lent. Takes no memory.
    pub fn enter(&mut self, client: u64, slot: u64, root: &mut Held) -> Progress
        requires { root.old ≡ slot_of self.old slot }
        ensures does { Does self.old (Descend client) result self.new }
        ensures stands { (inode : ℕ) → result ≡ Progress.Stands inode
            → (root.new.inode ≡ inode) × (root.new.node.mark ≡ Some client) }
        ensures lent { root.new ≡ slot_of self.new slot }
        ensures spares { Spares self.old self.new (slot ∷ []) }
        ensures rest { self.new ≡ record self.old { world = self.new.world } }
        ensures astray { result ≡ Progress.Astray → IsAstrayAtTop self.old client slot }
    {
        let Some(place) = place_of(&self.seats, client) else {
            return Progress::NotNow;
        };
        match check_enter(&self.seats[place], self.gate, client, root) {
            StepCheck::NotNow => return Progress::NotNow,
            StepCheck::Astray => return Progress::Astray,
            StepCheck::Go => {}
        }
        self.gate = gate_at_root(&self.seats[place], self.gate, client);
        let alloc = self.alloc;
        let seat = &mut self.seats[place];
        seat.enter(alloc);
        root.node.set_mark(Some(client));
        Progress::Stands(ROOT)
    }

    /// The client at this index descends from the directory in the one slot to the one in the other.
    #[inline(always)]
    pub(crate) fn go_down(
        &mut self,
        place: usize,
        client: u64,
        from_slot: u64,
        from: &mut Held,
        to_slot: u64,
        to: &mut Held,
    )
        requires numbered { client ≡ suc place }
        requires place { place < length self.old.spares }
        requires from { from.old ≡ slot_of self.old from_slot }
        requires to { to.old ≡ slot_of self.old to_slot }
        requires next { IsNext self.old client from_slot to_slot }
        requires free { to.old.node.mark ≡ None }
        ensures does { advance self.old.world (Descend client) ≡ (Stands to.old.inode, self.new.world) }
        ensures stands { (to.new.inode ≡ to.old.inode) × (to.new.node.mark ≡ Some client) }
        ensures from { from.new ≡ slot_of self.new from_slot }
        ensures to { to.new ≡ slot_of self.new to_slot }
        ensures spares { Spares self.old self.new (from_slot ∷ to_slot ∷ []) }
        ensures rest { self.new ≡ record self.old { world = self.new.world } }
    {
        let seat = &mut self.seats[place];
        seat.descend(to.inode);
        from.node.set_mark(mark_in(seat, client, from.inode));
        to.node.set_mark(Some(client));
    }

    /// Returns where the client's walk is.
    pub fn station(&self, client: u64) -> Station
        ensures { result ≡ station_in self.now.world client }
    {
        match place_of(&self.seats, client) {
            None => Station::Idle,
            Some(place) => self.seats[place].station(),
        }
    }

    /// Returns the slot of the directory to which the client's walk would descend from this one, or None if it wouldn't
    /// or isn't here.
    pub fn next_slot(&self, client: u64, slot: u64, here: &Held) -> Option<u64>
        requires { here.now ≡ slot_of self.now slot }
        ensures some { IfSome result (λ next. IsNext self.now client slot next) }
        ensures within { IfSome result (λ next. next < length self.now.inodes) }
        ensures none { IfNone result (¬ GoesDown self.now client slot) }
    {
        let on = self.onward(client, slot, here)?;
        Some(on.slot)
    }

    /// Splits the client's walk into one leg for each of its two paths. Takes no memory and no slot.
    pub fn fork(&mut self, client: u64) -> Progress
        ensures does { Does self.old (Fork client) result self.new }
        ensures spares { Spares self.old self.new [] }
        ensures rest { self.new ≡ record self.old { world = self.new.world } }
        ensures not_astray { result ≢ Progress.Astray }
    {
        let Some(place) = place_of(&self.seats, client) else {
            return Progress::NotNow;
        };
        if !may_fork(&self.seats[place]) {
            return Progress::NotNow;
        }
        let seat = &mut self.seats[place];
        seat.fork();
        Progress::Forked
    }

    /// Restarts the client's stale walk, above the root. `lent` holds the contents of `slots`: those of the directories
    /// that the walk has marked. Takes no memory.
    pub fn restart(&mut self, client: u64, slots: &[u64], lent: &mut [Held]) -> Progress
        requires { lent.old ≡ map (slot_of self.old) slots.now }
        ensures does { Does self.old (Restart client) result self.new }
        ensures lent { lent.new ≡ map (slot_of self.new) slots.now }
        ensures spares { Spares self.old self.new slots.now }
        ensures rest { self.new ≡ record self.old { world = self.new.world } }
        ensures astray { result ≡ Progress.Astray → IsAstrayAt self.old client slots.now }
    {
        let Some(place) = place_of(&self.seats, client) else {
            return Progress::NotNow;
        };
        match check_restart(&self.seats[place], lent) {
            StepCheck::NotNow => return Progress::NotNow,
            StepCheck::Astray => return Progress::Astray,
            StepCheck::Go => {}
        }
        let seat = &mut self.seats[place];
        seat.restart();
        unmark(lent, client);
        Progress::Restarted
    }
}
