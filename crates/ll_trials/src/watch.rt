//! The progress of a storm, for its watcher.

use std::sync::atomic::{AtomicU64, Ordering};

/// The number of replies so far, and whether that is all.
#[derive(Drop)]
pub struct Watch {
    answered: AtomicU64,
    has_ended: AtomicU64,
}

impl Watch {
    pub fn new() -> Watch {
        Watch {
            answered: AtomicU64::new(0),
            has_ended: AtomicU64::new(0),
        }
    }

    /// Counts one reply.
    pub fn count(&self) {
        self.answered.fetch_add(1, Ordering::SeqCst);
    }

    /// Returns the number of replies so far.
    pub fn answered(&self) -> u64 {
        self.answered.load(Ordering::SeqCst)
    }

    /// Records that there are no more calls.
    pub fn end_calls(&self) {
        self.has_ended.store(1, Ordering::SeqCst);
    }

    pub fn has_ended(&self) -> bool {
        self.has_ended.load(Ordering::SeqCst) != 0
    }
}
