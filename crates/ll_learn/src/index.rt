//! Finds paths by their last inodes.

ghost use Rattle.std.specs.Prelude.{◌≡◌, ◌<◌, ◌++◌, [], ◌∷◌, OnOk};

use std::alloc::{AllocError, Global};

/// Inodes are hashed by their remainders modulo this.
const SLOTS: usize = 1_024;

/// Indexes of a list of paths, by the last inodes of the paths. It only saves time: what it finds is compared again.
#[derive(Drop)]
pub struct PathIndex {
    slots: Vec<Vec<usize>>,
}

fn slot_of(inodes: &[u64]) -> usize
    ensures { result < SLOTS }
{
    match inodes.last() {
        Some(inode) => (*inode % SLOTS as u64) as usize,
        None => 0,
    }
}

// Appends the slot.
fn push_slot(slots: &mut Vec<Vec<usize>>, one: Vec<usize>) -> Result<(), AllocError>
    ensures { OnOk result (slots.new.items ≡ slots.old.items ++ one ∷ []) }
{
    match slots.push(one) {
        Ok(()) => Ok(()),
        Err(refused) => {
            drop(refused);
            Err(AllocError)
        }
    }
}

impl PathIndex {
    /// Returns the index of no paths.
    pub fn new(alloc: Global) -> PathIndex {
        PathIndex {
            slots: Vec::new(alloc),
        }
    }

    /// Returns the places of the paths that may end like this one.
    pub fn places(&self, inodes: &[u64]) -> &[usize] {
        match self.slots.get(slot_of(inodes)) {
            Some(places) => places.as_slice(),
            None => &[],
        }
    }

    /// Adds a path at this place. Errors: memory ran out.
    pub fn note(&mut self, alloc: Global, inodes: &[u64], place: usize) -> Result<(), AllocError> {
        let slot = slot_of(inodes);
        while self.slots.len() <= slot {
            push_slot(&mut self.slots, Vec::new(alloc))?;
        }
        self.slots[slot].push(place)?;
        Ok(())
    }
}
