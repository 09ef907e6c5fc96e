//! Tests of what no contract of the libraries covers: that calls find memory, and values from outside the repository.
//!
//! A crate with tests is proved twice, so the libraries have none of their own. The tests are tables of plain data with
//! small functions, since that is quick to prove: dropping a call costs the prover 16 s at each place where its scope
//! ends, and 1.5 s in all by an explicit `drop`.
//!
//! Each public function that takes memory is run once with enough of it, by the built program (worked/) or here:
//!
//! | library | by worked/ | here |
//! |---|---|---|
//! | ll_rights | | `Access::text`: `wire` |
//! | ll_path | `Name::from_text`, `Word` and `Data` of lines | `Path::common`, which takes none: `path` |
//! | ll_rules | `Ruleset::create`, `allow`, `Domain::stack`, `copy` | `Ruleset::copy`: `seq` |
//! | ll_seq | all but the counts of nodes | these: `seq` |
//! | ll_node | | all of `Slot`: `node` |
//! | ll_plain | `Plain::new`, each call of `Plain::apply` | `Plain::reach`, which takes none: `plain` |
//! | ll_wire | `read_command`, `reply_text` | `command_text`, `read_reply`: `wire` |
//! | | `Line::new`, `Line::push`, entries and headers | |
//! | ll_policy | | all of `Policy`: `policy` |
//! | ll_audit | all but `audit`, `run_audit` | `audit`: the storm; `run_audit`: `script` |
//! | ll_client | | `Blank`, `Tie`, `Keeper`, `Pass`: `tie` |
//! | | | `open`, `connect`, `spawn`; `begin`, `enter`, `next_step`, `leave`: `desk` |
//! | ll_journal | | `Journal::new`, `connect`, `client_step`; `begin`, which takes none: `journal` |
//! | ll_walk | | `Table::open`, `connect`, `call`: `threads` |
//! | ll_calls | | `Tree::open`, `connect`, `meet`, `close` and calls: `clients`, `shared_tree` |
//! | ll_session | sessions | `run_script`: `script` |
//! | ll_steps | `World::new`, `step`, `make` | `World::run`: `steps` |
//! | | | `read`, `list`, whose replies are copied: `replies` |
//!
//! ll_decide takes no memory that may be missing.
//!
//! The program is a storm: random calls on forty paths from many threads, whose history is audited.
//!
//!     ll_trials [THREADS [CALLS [SEED]]]
//!
//! Each of up to 32 threads makes this many calls, at most 900,000 in all. With arguments the program also prints how
//! many calls of each kind succeeded. If no call gets its reply for 40 seconds, it exits with 70.
#![tactic(auto)]

mod aims;
#[cfg(test)]
mod calls;
mod clients;
#[cfg(test)]
mod desk;
#[cfg(test)]
mod full_tree;
#[cfg(test)]
mod fuse;
#[cfg(test)]
mod held_tree;
#[cfg(test)]
mod journal;
#[cfg(test)]
mod node;
mod orders;
#[cfg(test)]
mod path;
#[cfg(test)]
mod plain;
#[cfg(test)]
mod policy;
mod random;
mod random_calls;
#[cfg(test)]
mod replies;
#[cfg(test)]
mod rights;
#[cfg(test)]
mod script;
#[cfg(test)]
mod seq;
#[cfg(test)]
mod shared_tree;
#[cfg(test)]
mod steps;
mod storm;
mod tally;
#[cfg(test)]
mod threads;
#[cfg(test)]
mod tie;
#[cfg(test)]
mod two_streams;
#[cfg(test)]
mod two_threads;
mod watch;
#[cfg(test)]
mod watched;
#[cfg(test)]
mod wire;

use orders::{Orders, orders_by};
use std::alloc::Global;
use std::env;
use std::process::ExitCode;
use std::rt::{Clock, Runtime};
use std::sync::{Arc, Wait};
use std::thread::{self, Threads};
use std::time::Duration;
use storm::{Ended, storm_of};
use watch::Watch;

/// How long the program sleeps between two looks, in milliseconds.
const LOOK: u64 = 20;
/// After this many looks without a reply, a call hangs: 40 seconds.
const LOOKS: u64 = 2_000;

/// Watches until all calls have their replies. Returns false if none got one for 40 seconds.
fn looks_on(rt: &impl Clock, watch: &Watch) -> bool {
    let (mut answered, mut looks) = (0u64, 0u64);
    for _ in 0..u64::MAX {
        if watch.has_ended() {
            return true;
        }
        let _ = thread::sleep(rt, Duration::from_millis(LOOK));
        let now = watch.answered();
        if now != answered {
            answered = now;
            looks = 0;
        } else if looks < LOOKS {
            looks += 1;
        } else {
            return false;
        }
    }
    false
}

fn orders_of(rt: &HostRuntime) -> Option<Orders> {
    let words = env::args(rt).ok()?.collect::<Vec<String>>(rt.alloc()).ok()?;
    orders_by(words.get(1..)?)
}

/// Prints how the storm ended. Returns the exit status.
fn told(rt: &impl Print, ended: Ended) -> u8 {
    let (line, status) = match ended {
        Ended::Legal => ("history legal", 0),
        Ended::Illegal => ("history illegal", 1),
        Ended::Miscounted => ("history legal, but not of all calls", 1),
        Ended::NoMemory => ("out of memory", 70),
    };
    match println!(rt; "{line}") {
        Ok(()) => status,
        Err(_) => 70,
    }
}

/// Starts the storm in a thread of its own, and doesn't wait for it if a call hangs.
fn run<R: Runtime + Threads + Wait + Send + Sync + 'static>(
    rt: &R,
    alloc: Global,
    orders: Orders,
) -> Option<u8> {
    let watch = Arc::new(alloc, Watch::new()).ok()?;
    let (theirs, runtime) = (Arc::try_clone(&watch).ok()?, rt.clone().ok()?);
    let thread = thread::spawn(rt, move || storm_of(&runtime, alloc, orders, &theirs)).ok()?;
    if looks_on(rt, &watch) {
        Some(told(rt, thread.join(rt)))
    } else {
        let _ = eprintln!(rt; "ll_trials: no call was answered for 40 seconds");
        Some(70)
    }
}

fn main(rt: HostRuntime) -> ExitCode {
    let status = match orders_of(&rt) {
        Some(orders) => run(&rt, rt.alloc(), orders),
        None => {
            let _ = eprintln!(rt;
                "ll_trials: wanted: [THREADS [CALLS [SEED]]], at most 900000 calls in all"
            );
            Some(64)
        }
    };
    ExitCode::from(status.unwrap_or(70))
}
