//! The slots that a step needs.

ghost use Rattle.std.specs.Prelude.{◌≡◌, ℕ, ◌+◌, ◌<◌, ◌≤◌, List, [], length, take};
ghost use Rattle.ll_journal.specs.Needs.{with_slot, with_slot_of};

use crate::whereabouts::is_in;
use ll_node::Inodes;
use std::marker::Model;

/// The most slots that a step needs: three directories and one more.
const MOST: usize = 4;

/// A set of slots to lend to a step. Contracts see their numbers. Takes no memory.
#[derive(Drop)]
pub struct Slots {
    numbers: [u64; MOST],
    count: usize,
}

impl Model for Slots {
    ghost Value = { List ℕ };

    ghost view = { λ slots. take slots.count slots.numbers };

    ghost invariant = { λ slots. slots.count ≤ 4 };
}

impl Slots {
    /// Returns no slots.
    pub(crate) fn new() -> Slots
        ensures { result ≡ [] }
    {
        Slots {
            numbers: [0; MOST],
            count: 0,
        }
    }

    /// Returns the slots' numbers.
    pub fn as_slice(&self) -> &[u64]
        ensures { result.now ≡ self.now }
    {
        &self.numbers[..self.count]
    }

    /// Adds the slot, unless it is there.
    pub(crate) fn add(&mut self, slot: u64)
        requires { length self.old < 4 }
        ensures slots { self.new ≡ with_slot self.old slot }
        ensures few { length self.new ≤ length self.old + 1 }
    {
        if !is_in(self.as_slice(), slot) {
            self.numbers[self.count] = slot;
            self.count += 1;
        }
    }

    /// Adds the inode's slot, if it has one.
    pub(crate) fn add_of(&mut self, table: &Inodes, inode: u64)
        requires { length self.old < 4 }
        ensures slots { self.new ≡ with_slot_of table.now.places self.old inode }
        ensures few { length self.new ≤ length self.old + 1 }
    {
        if let Some(slot) = table.slot(inode) {
            self.add(slot);
        }
    }
}
