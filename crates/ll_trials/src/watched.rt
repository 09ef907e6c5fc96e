//! Trials in threads that may hang. A watcher makes the test fail then, before the kit stops it.

use std::alloc::Global;
use std::rt::Clock;
use std::sync::Arc;
use std::sync::atomic::{AtomicU64, Ordering};
use std::thread::{self, Threads};
use std::time::Duration;

/// The sleep between two looks, in milliseconds.
const LOOK: u64 = 100;

/// The number of looks: 40 seconds. (The kit stops a test after 60.)
const LOOKS: u64 = 400;

/// The most times that a thread looks whether others have come so far.
const TURNS: u64 = 10_000_000;

/// Waits until the number is as great. Returns whether it is.
pub fn waits_for(number: &AtomicU64, wanted: u64) -> bool {
    for _ in 0..TURNS {
        if number.load(Ordering::SeqCst) >= wanted {
            return true;
        }
        thread::yield_now();
    }
    false
}

/// The end of a trial.
#[derive(Clone, Copy, Debug, PartialEq, Eq)]
pub enum TrialEnd {
    Right,
    Wrong,
    /// It hadn't ended after 40 seconds.
    Hangs,
    /// No thread could be started for it.
    Untried,
}

/// Runs the trial in a thread of its own, and stops waiting for it if it hangs.
pub fn end_of_trial<R: Clock + Threads, F: FnOnce() -> bool + Send + 'static>(
    rt: &R,
    alloc: Global,
    trial: F,
) -> TrialEnd
    requires { F.pre trial }
{
    let Ok(ended) = Arc::new(alloc, AtomicU64::new(0)) else {
        return TrialEnd::Untried;
    };
    let Ok(theirs) = Arc::try_clone(&ended) else {
        return TrialEnd::Untried;
    };
    let spawned = thread::spawn(
        rt,
        move || -> bool
            requires { F.pre trial }
        {
            let is_right = trial();
            theirs.store(1, Ordering::SeqCst);
            is_right
        },
    );
    let Ok(thread) = spawned else {
        return TrialEnd::Untried;
    };
    for _ in 0..LOOKS {
        if ended.load(Ordering::SeqCst) != 0 {
            return if thread.join(rt) {
                TrialEnd::Right
            } else {
                TrialEnd::Wrong
            };
        }
        let _ = thread::sleep(rt, Duration::from_millis(LOOK));
    }
    TrialEnd::Hangs
}
