//! What ends a strict schedule, and how far a schedule is.

ghost use Rattle.std.specs.Prelude.{◌≡◌, ◌<◌, ◌^◌};
ghost use Rattle.ll_steps.specs.Tells.{is_made};

use crate::Report;
use ll_rights::Errno;

/// The line that ended a strict schedule.
#[derive(Clone, Copy, Debug)]
pub struct Halt {
    /// The line's number, from 1.
    pub line: u64,
    /// Its outcome, or why it wasn't read.
    pub answer: Result<Report, Errno>,
}

// Reports whether a line with this outcome was a step that was enabled and made.
fn is_made(answer: Result<Report, Errno>) -> bool
    ensures { result ≡ is_made answer }
{
    match answer {
        Ok(Report::NotNow | Report::Refused(_)) => false,
        Ok(_) => true,
        Err(_) => false,
    }
}

/// Whether a schedule is strict, how many of its lines were answered, and which one ended it.
#[derive(Clone, Copy, Debug)]
pub struct Pace {
    pub is_strict: bool,
    pub lines: u64,
    pub halt: Option<Halt>,
}

impl Pace {
    ghost use Rattle.ll_steps.specs.Pace.{first_pace, noted};

    /// Returns the pace before the first line.
    pub fn new(is_strict: bool) -> Pace
        ensures { result ≡ first_pace is_strict }
    {
        Pace {
            is_strict,
            lines: 0,
            halt: None,
        }
    }

    /// Counts a line with this outcome. It ends a strict schedule if it isn't a step that was made.
    pub fn note(&mut self, answer: Result<Report, Errno>)
        requires { self.old.lines < 2 ^ 63 }
        ensures { self.new ≡ noted self.old answer }
    {
        self.lines += 1;
        if self.is_strict && !is_made(answer) {
            self.halt = Some(Halt {
                line: self.lines,
                answer,
            });
        }
    }
}
