//! What a run leaves, and what ends a strict one.

ghost use Rattle.std.specs.Prelude.{◌≡◌, cond, Some, None};
ghost use Rattle.ll_session.specs.declared.stop.Stop.{Stop};

use crate::refusal::Refusal;
use ll_seq::{History, Reply};

/// What ends a strict run before its input does.
#[derive(Drop)]
pub enum Stop {
    /// The opening is refused like this.
    AtOpening(Refusal),
    /// The line with this number, counted from 1, got this reply.
    AtLine(u64, Reply),
}

/// A run without a fault: its history, what ended it before its input, which only a strict run has, and how its opening
/// was refused, which only another one has. The line of the refused call's reply is all that such a run writes.
#[derive(Drop)]
pub struct Run {
    pub history: History,
    pub stop: Option<Stop>,
    pub refusal: Option<Refusal>,
}

impl Run {
    /// Returns a run whose opening is refused like this. That ends a strict run.
    pub fn refused(history: History, is_strict: bool, refusal: Refusal) -> Run
        ensures history { result.history ≡ history }
        ensures stop { result.stop ≡ cond is_strict (Some (Stop.AtOpening refusal)) None }
        ensures refusal { result.refusal ≡ cond is_strict None (Some refusal) }
    {
        if is_strict {
            return Run {
                history,
                stop: Some(Stop::AtOpening(refusal)),
                refusal: None,
            };
        }
        Run {
            history,
            stop: None,
            refusal: Some(refusal),
        }
    }
}
