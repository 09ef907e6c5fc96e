//! Threads that wait for locks.

use std::hint::spin_loop;
use std::sync::atomic::{AtomicU64, Ordering};
use std::sync::{Mutex, MutexGuard, Wait};
use std::thread;

/// How often a thread tries a lock that another holds before it sleeps until the lock is released.
const TRIES: u32 = 20;

/// How many pauses the processor makes before the first try. Their number doubles before each further one, up to the
/// most.
const PAUSES: u32 = 16;

const MOST_PAUSES: u32 = 512;

/// The most threads that wait awake. More would take the processors from the threads that hold the locks.
const MOST_AWAKE: u64 = 3;

/// Takes the lock if it is released within a while.
fn tried<T>(lock: &Mutex<T>) -> Option<MutexGuard<'_, T>> {
    let mut pauses = PAUSES;
    for _ in 0..TRIES {
        for _ in 0..pauses {
            spin_loop();
        }
        if let Some(guard) = lock.try_lock() {
            return Some(guard);
        }
        if pauses < MOST_PAUSES {
            pauses *= 2;
        } else {
            thread::yield_now();
        }
    }
    None
}

/// The number of threads that wait for one of a tree's locks.
#[derive(Drop)]
pub(crate) struct Queue {
    waiting: AtomicU64,
}

impl Queue {
    pub(crate) fn new() -> Queue {
        Queue {
            waiting: AtomicU64::new(0),
        }
    }

    /// Takes a lock that another thread holds. Locks are held briefly, and waking a thread is slow: if few threads
    /// wait, this one tries for a while before it sleeps.
    fn late<'a, T, R: Wait>(&self, rt: &R, lock: &'a Mutex<T>) -> MutexGuard<'a, T> {
        let others = self.waiting.fetch_add(1, Ordering::Relaxed);
        let found = if others < MOST_AWAKE {
            tried(lock)
        } else {
            None
        };
        let guard = match found {
            Some(guard) => guard,
            None => lock.lock(rt),
        };
        let _ = self.waiting.fetch_sub(1, Ordering::Relaxed);
        guard
    }

    /// Takes the lock.
    #[inline(always)]
    pub(crate) fn soon<'a, T, R: Wait>(&self, rt: &R, lock: &'a Mutex<T>) -> MutexGuard<'a, T> {
        match lock.try_lock() {
            Some(guard) => guard,
            None => self.late(rt, lock),
        }
    }
}
