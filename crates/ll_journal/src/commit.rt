//! The commit of a walk, which answers its call.

ghost use Rattle.std.specs.Prelude.{◌≡◌, ◌≢◌, ◌<◌, ℕ, List, suc, true, length, map, Some};
ghost use Rattle.ll_rights.specs.Map.{get};
ghost use Rattle.ll_laws.specs.Walk as walks;

use crate::aftermath::released;
use crate::check_commit::{NOTHING, Sight, Stop, check_commit};
use crate::decide_end::{moved_by, overtake_moved};
use crate::journal::{Journal, place_of};
use crate::progress::Ending;
use crate::seat::Ended;
use ll_node::{Held, unmark};
use ll_rights::Errno;
use ll_seq::{Entry, Found, Reply};

impl Journal {
    ghost use Rattle.ll_laws.specs.World.{domain_of, without_walk};
    ghost use Rattle.ll_journal.specs.Book.{Spares, slot_of};
    ghost use Rattle.ll_journal.specs.Performed.{EndsAs};
    ghost use Rattle.ll_node.specs.InodeTable.{AreDistinct};
    ghost use Rattle.ll_journal.specs.WalkEnds.{Ends, IsAstrayAtEnd, LeavesFree, MayTakeMemory, is_lent};
    ghost use Rattle.ll_journal.specs.CommitCheck.{check_of};
    ghost use Rattle.ll_journal.specs.Stopped.{IsBlockedEnd, IsReachedEnd, IsStop};

    /// Ends the walk of the client at this index, and removes its marks.
    #[inline(always)]
    pub(crate) fn end_walk(&mut self, place: usize, client: u64, lent: &mut [Held]) -> Ended
        requires numbered { client ≡ suc place }
        requires place { place < length self.old.spares }
        requires walk { (walk : walks.Walk) × (get self.old.world.walks client ≡ Some walk) }
        ensures world { self.new.world ≡ without_walk self.old.world client }
        ensures rest { self.new ≡ record self.old { world = self.new.world } }
        ensures ended { (walk : walks.Walk) → get self.old.world.walks client ≡ Some walk
            → EndsAs (domain_of self.old.world client) walk result }
        ensures lent { (slots : List ℕ) → lent.old ≡ map (slot_of self.old) slots
            → lent.new ≡ map (slot_of self.new) slots }
        ensures spares { (slots : List ℕ) (walk : walks.Walk) → get self.old.world.walks client ≡ Some walk
            → ((inode : ℕ) → walks.marks walk inode ≡ true → is_lent self.old slots inode ≡ true)
            → Spares self.old self.new slots }
    {
        self.gate = released(self.gate, client);
        unmark(lent, client);
        let seat = &mut self.seats[place];
        seat.end()
    }

    /// Checks whether the walk of the client at this index may be answered. Writes what is found at its ends into
    /// `into`.
    fn check_end(
        &self,
        place: usize,
        client: u64,
        slots: &[u64],
        lent: &[Held],
        into: &mut Found,
    ) -> Stop
        requires numbered { client ≡ suc place }
        requires place { place < length self.now.spares }
        requires lent { lent.now ≡ map (slot_of self.now) slots.now }
        ensures { IsStop self.now client slots.now (check_of result into.new) }
    {
        let sight = Sight {
            seats: &self.seats,
            table: &self.table,
            room: self.room,
            slots,
            lent,
        };
        check_commit(&sight, client, &self.seats[place], into)
    }

    /// Refuses the call of a walk that can't go on.
    fn refuse(
        &mut self,
        place: usize,
        client: u64,
        slots: &[u64],
        lent: &mut [Held],
        errno: Errno,
    ) -> Ending
        requires numbered { client ≡ suc place }
        requires place { place < length self.old.spares }
        requires lent { lent.old ≡ map (slot_of self.old) slots.now }
        requires blocked { IsBlockedEnd self.old client slots.now errno }
        ensures does { Ends self.old client result self.new }
        ensures lent { lent.new ≡ map (slot_of self.new) slots.now }
        ensures spares { Spares self.old self.new slots.now }
        ensures rest { self.new ≡ record self.old { world = self.new.world } }
        ensures calm { result ≢ Ending.NoMemory }
        ensures not_astray { result ≢ Ending.Astray }
    {
        let is_full = self.history.is_full();
        let walk = self.end_walk(place, client, lent);
        if is_full {
            drop(walk);
            return Ending::HistoryFull;
        }
        self.history.push(Entry {
            client,
            call: walk.call,
            reply: Reply::Refused(errno),
        });
        Ending::Replied(Reply::Refused(errno))
    }

    /// Decides and makes the call of a walk whose legs are at their ends.
    fn answer(
        &mut self,
        place: usize,
        client: u64,
        slots: &[u64],
        lent: &mut [Held],
        found: &Found,
    ) -> Ending
        requires numbered { client ≡ suc place }
        requires place { place < length self.old.spares }
        requires distinct { AreDistinct slots.now }
        requires lent { lent.old ≡ map (slot_of self.old) slots.now }
        requires reached { IsReachedEnd self.old client slots.now found.now }
        ensures does { Ends self.old client result self.new }
        ensures lent { lent.new ≡ map (slot_of self.new) slots.now }
        ensures spares { Spares self.old self.new slots.now }
        ensures rest { LeavesFree self.old client slots.now self.new }
        ensures calm { result ≡ Ending.NoMemory → MayTakeMemory self.old.world client }
        ensures not_astray { result ≢ Ending.Astray }
    {
        let is_full = self.history.is_full();
        let walk = self.end_walk(place, client, lent);
        if is_full {
            drop(walk);
            return Ending::HistoryFull;
        }
        let alloc = self.alloc;
        let seat = &mut self.seats[place];
        let Ok(told) = seat.perform(alloc, &mut self.table, slots, lent, &walk, found) else {
            drop(walk);
            return Ending::NoMemory;
        };
        let (reply, copy) = told.split();
        overtake_moved(&mut self.seats, moved_by(&walk.call, found, &reply));
        self.history.push(Entry {
            client,
            call: walk.call,
            reply,
        });
        Ending::Replied(copy)
    }

    /// Answers the client's walk. `lent` holds the contents of `slots`: of the directories that the walk has marked,
    /// and of the node which the call may change or report. If the call would create a node, they include the client's
    /// spare slot. The walk ends unless the result is NotNow or Astray. Only calls that add something take memory.
    pub fn commit(&mut self, client: u64, slots: &[u64], lent: &mut [Held]) -> Ending
        requires distinct { AreDistinct slots.now }
        requires lent { lent.old ≡ map (slot_of self.old) slots.now }
        ensures does { Ends self.old client result self.new }
        ensures lent { lent.new ≡ map (slot_of self.new) slots.now }
        ensures spares { Spares self.old self.new slots.now }
        ensures rest { LeavesFree self.old client slots.now self.new }
        ensures astray { result ≡ Ending.Astray → IsAstrayAtEnd self.old client slots.now }
        ensures calm { result ≡ Ending.NoMemory → MayTakeMemory self.old.world client }
    {
        let Some(place) = place_of(&self.seats, client) else {
            return Ending::NotNow;
        };
        let mut found = NOTHING;
        match self.check_end(place, client, slots, lent, &mut found) {
            Stop::NotNow => Ending::NotNow,
            Stop::Astray => Ending::Astray,
            Stop::Blocked(errno) => self.refuse(place, client, slots, lent, errno),
            Stop::Reached => self.answer(place, client, slots, lent, &found),
        }
    }
}
