//! The slots that a walk's next step needs, so that its driver can lend them.

ghost use Rattle.std.specs.Prelude.{◌≡◌, ◌<◌, ◌≤◌, ℕ, length, false, true, Some, None, IfSome, IfNone};
ghost use Rattle.std.specs.List.{AllByRecursion};
ghost use Rattle.ll_rights.specs.Map.{get};
ghost use Rattle.ll_seq.specs.State.{root};
ghost use Rattle.ll_laws.specs.Walk.{Leg, Walk};
ghost use Rattle.ll_journal.specs.Checks.{found_last};
ghost use Rattle.ll_journal.specs.Needs as needs;

use crate::check_commit::{may_make_at, node_at};
use crate::find_ends::last_spot;
use crate::journal::{Journal, place_of};
use crate::slots::Slots;
use ll_node::{Held, Inodes};
use ll_seq::{Call, ROOT, Spot};

/// The slot, other than those of directories, that the call may need at its end. `last` is the spot of its one path, or
/// of its second.
fn slot_besides(table: &Inodes, spare: u64, call: &Call, last: &Spot) -> Option<u64>
    ensures { result ≡ needs.slot_besides table.now.places spare call.now (found_last last.now) }
{
    if may_make_at(call, last) {
        return Some(spare);
    }
    table.slot(node_at(call, last))
}

impl Journal {
    ghost use Rattle.ll_node.specs.InodeTable.{AreDistinct};
    ghost use Rattle.ll_journal.specs.Book.{has_mark, inode_in, slot_of};
    ghost use Rattle.ll_journal.specs.Needs.{IsBesides};
    ghost use Rattle.ll_journal.specs.Steps.{IsInTurn, leg_in_turn};
    ghost use Rattle.ll_journal.specs.WalkEnds.{AreEnough, IsNeeded, is_lent};

    /// Returns the slot of the root, the target of a walk's first descent.
    pub fn root_slot(&self) -> u64
        ensures root { inode_in self.now result ≡ root }
        ensures within { result < length self.now.inodes }
    {
        let Some(slot) = self.table.slot(ROOT) else {
            unreachable!()
        };
        slot
    }

    /// Whether the walk's current leg, if it has one, is in this slot's directory.
    pub(crate) fn is_in_turn(&self, client: u64, slot: u64, here: &Held) -> bool
        requires { here.now ≡ slot_of self.now slot }
        ensures yes { result ≡ true → IsInTurn self.now client slot }
        ensures no { result ≡ false → ¬ IsInTurn self.now client slot }
    {
        let Some(place) = place_of(&self.seats, client) else {
            return true;
        };
        let Some(inode) = self.seats[place].here() else {
            return true;
        };
        inode == here.inode
    }

    /// Returns the slot of the directory of the walk's current leg.
    pub fn turn_slot(&self, client: u64) -> Option<u64>
        ensures some { IfSome result (λ slot. (leg : Leg) × (leg_in_turn self.now.world client ≡ Some leg)
            × (inode_in self.now slot ≡ leg.here)) }
        ensures within { IfSome result (λ slot. slot < length self.now.inodes) }
        ensures none { IfNone result (leg_in_turn self.now.world client ≡ None) }
    {
        let Some(place) = place_of(&self.seats, client) else {
            return None;
        };
        let Some(here) = self.seats[place].here() else {
            return None;
        };
        self.table.slot(here)
    }

    /// Returns the slots of the directories that the client's walk has marked, stale or not.
    #[inline(always)]
    pub fn stands_in(&self, client: u64) -> Slots
        ensures marked { (inode : ℕ) → is_lent self.now result inode ≡ has_mark self.now.world inode client }
        ensures distinct { AreDistinct result }
        ensures within { AllByRecursion (λ slot. slot < length self.now.inodes) result }
        ensures few { length result ≤ 3 }
    {
        match place_of(&self.seats, client) {
            None => Slots::new(),
            Some(place) => self.seats[place].slots(&self.table),
        }
    }

    /// For a walk at its ends: the one further slot that its commit needs, if any. Its current leg is here.
    fn slot_at_ends(&self, client: u64, here: &Held) -> Option<u64>
        ensures within { IfSome result (λ slot. slot < length self.now.inodes) }
        ensures needed { (slot : ℕ) → here.now ≡ slot_of self.now slot → IsInTurn self.now client slot
            → (walk : Walk) → get self.now.world.walks client ≡ Some walk → walk.stale ≡ false
            → IsBesides self.now client walk result }
    {
        let Some(place) = place_of(&self.seats, client) else {
            return None;
        };
        let seat = &self.seats[place];
        if !seat.is_at_ends() {
            return None;
        }
        let Some(call) = seat.call() else {
            unreachable!()
        };
        let last = last_spot(&self.table, here, call);
        slot_besides(&self.table, seat.spare(), call, &last)
    }

    /// Returns all the slots that a commit of the client's walk may need, given that of the directory of its current
    /// leg.
    pub fn end_slots(&self, client: u64, slot: u64, here: &Held) -> Slots
        requires { here.now ≡ slot_of self.now slot }
        ensures enough { IsInTurn self.now client slot → (walk : Walk) → get self.now.world.walks client ≡ Some walk
            → walk.stale ≡ false
            → AreEnough self.now client walk result }
        ensures only { IsInTurn self.now client slot → (walk : Walk) → get self.now.world.walks client ≡ Some walk
            → walk.stale ≡ false
            → AllByRecursion (IsNeeded self.now client walk) result }
        ensures distinct { AreDistinct result }
        ensures within { AllByRecursion (λ slot. slot < length self.now.inodes) result }
        ensures few { length result ≤ 4 }
    {
        let mut slots = self.stands_in(client);
        let Some(other) = self.slot_at_ends(client, here) else {
            return slots;
        };
        slots.add(other);
        slots
    }
}
