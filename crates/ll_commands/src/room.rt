//! Limits how much of a connection's lines and replies the history may keep.

ghost use Rattle.std.specs.Prelude.{◌≤◌, length};

use std::alloc::{AllocError, Global};
use std::sync::Arc;
use std::sync::atomic::{AtomicU64, Ordering};

/// The bytes in a megabyte.
const MEGABYTE: u64 = 1_048_576;

/// What a space and a line feed count in addition, in bytes: a word or an entry takes about that much memory.
const PARTING: u64 = 32;

fn weight_of(byte: u8) -> u64
    ensures { result ≤ 33 }
{
    match byte {
        b' ' | b'\n' => 1 + PARTING,
        _ => 1,
    }
}

fn weight(bytes: &[u8]) -> u64 {
    let mut weight: u64 = 0;
    for byte in bytes {
        weight = weight.saturating_add(weight_of(*byte));
    }
    weight
}

/// The room that is left to a connection, shared by its two ends.
#[derive(Drop)]
pub struct Room {
    left: Arc<AtomicU64, Global>,
}

impl Room {
    /// Returns a room of this many megabytes. Errors: memory ran out.
    pub(crate) fn new(alloc: Global, megabytes: u64) -> Result<Room, AllocError> {
        let left = AtomicU64::new(megabytes.saturating_mul(MEGABYTE));
        Ok(Room {
            left: Arc::new(alloc, left)?,
        })
    }

    /// Shares the room with the other end. Errors: memory ran out.
    pub(crate) fn share(&self) -> Result<Room, AllocError> {
        Ok(Room {
            left: Arc::try_clone(&self.left)?,
        })
    }

    fn left(&self) -> u64 {
        self.left.load(Ordering::SeqCst)
    }

    /// Reports whether nothing is left.
    pub(crate) fn is_used_up(&self) -> bool {
        self.left() == 0
    }

    /// Takes the room of these bytes, or what is left.
    pub(crate) fn take(&self, bytes: &[u8]) {
        let left = self.left().saturating_sub(weight(bytes));
        self.left.store(left, Ordering::SeqCst);
    }

    /// Returns how many of these bytes fit: all, or as many whole lines as fit.
    pub(crate) fn fitting(&self, bytes: &[u8]) -> usize
        ensures { result ≤ length bytes.now }
    {
        let left = self.left();
        let mut used: u64 = 0;
        let mut place: usize = 0;
        let mut end: usize = 0;
        for byte in bytes {
            used = used.saturating_add(weight_of(*byte));
            place = place.saturating_add(1);
            if left < used {
                return end.min(bytes.len());
            }
            if *byte == b'\n' {
                end = place;
            }
        }
        bytes.len()
    }
}
