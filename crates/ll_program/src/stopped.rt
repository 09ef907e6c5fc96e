//! What the program prints if a strict run or schedule ends early.

ghost use Rattle.std.specs.Prelude.{◌≡◌, ◌++◌, IfOk, None, Some, decimal, codes, if◌then◌else◌, string_bytes};
ghost use Rattle.ll_wire.specs.Grammar.{reply_line};
ghost use Rattle.ll_program.specs.Failure.{place_line, stop_line};
ghost use Rattle.ll_program.specs.Stopped.{bad_line};

use ll_rights::Errno;
use ll_seq::Reply;
use ll_session::Stop;
use ll_wire::reply_line;
use std::alloc::{AllocError, Global};
use std::fmt;
use std::fmt::Display;

/// What is known of a strict run, or of a strict schedule, that ended early.
#[derive(Debug, Drop)]
pub struct Stopped {
    /// The line to print: where in the script or the schedule it ended, and with which answer.
    pub line: String,
    /// The number, from 1, of the line that ended it and spells no command or step.
    pub bad_line: Option<u64>,
}

impl Display for Stopped {
    ghost output = { λ stopped. Some (string_bytes stopped.line) };

    fn fmt<W: fmt::Write>(&self, f: &mut fmt::Formatter<W>) -> fmt::Result {
        f.write_str(self.line.as_str())
    }
}

// Concatenates the file's name, the place and the line that answers the one at that place.
fn placed(alloc: Global, file: &str, place: &str, answer: &str) -> Result<String, AllocError>
    ensures { IfOk result (λ text. string_bytes text ≡ file.now ++ place.now ++ answer.now) }
{
    let mut text = String::from_str(alloc, file)?;
    text.push_str(place)?;
    text.push_str(answer)?;
    Ok(text)
}

// Concatenates the script's name, the place and the reply.
fn told(alloc: Global, script: &str, place: &str, reply: &Reply) -> Result<String, AllocError>
    ensures { IfOk result (λ text. string_bytes text ≡ script.now ++ place.now ++ reply_line reply.now) }
{
    let reply = reply_line(alloc, reply)?;
    placed(alloc, script, place, reply.as_str())
}

// Returns the number of a line, between colons.
fn place_of(alloc: Global, line: u64) -> Result<String, AllocError>
    ensures { IfOk result (λ text. string_bytes text ≡ codes ":" ++ decimal line ++ codes ": ") }
{
    let mut text = String::from_str(alloc, ":")?;
    text.push_str(line.to_string(alloc)?.as_str())?;
    text.push_str(": ")?;
    Ok(text)
}

// Returns the number of the line that spells no command.
fn bad_line(stop: &Stop) -> Option<u64>
    ensures { result ≡ bad_line stop.now }
{
    match stop {
        Stop::AtLine(line, Reply::Refused(Errno::BadLine)) => Some(*line),
        _ => None,
    }
}

impl Stopped {
    /// Returns what is known of a run of this script that ended like this. Errors: memory ran out.
    pub fn of(alloc: Global, script: &str, stop: &Stop) -> Result<Stopped, AllocError>
        ensures line { IfOk result (λ stopped. string_bytes stopped.line ≡ stop_line script.now stop.now) }
        ensures bad { IfOk result (λ stopped. stopped.bad_line ≡ bad_line stop.now) }
    {
        let line = match stop {
            Stop::AtOpening(refusal) => told(alloc, script, ": before line 1: ", &refusal.reply)?,
            Stop::AtLine(line, reply) => {
                let place = place_of(alloc, *line)?;
                told(alloc, script, place.as_str(), reply)?
            }
        };
        Ok(Stopped {
            line,
            bad_line: bad_line(stop),
        })
    }

    /// Returns what is known of a schedule in this file that the line with this number, from 1, ended. `answer` is the
    /// line that answers it; `is_bad` is whether it spells no step. Errors: memory ran out.
    pub fn at(
        alloc: Global,
        file: &str,
        line: u64,
        answer: &str,
        is_bad: bool,
    ) -> Result<Stopped, AllocError>
        ensures line { IfOk result (λ stopped. string_bytes stopped.line ≡ place_line file.now line answer.now) }
        ensures bad { IfOk result (λ stopped. stopped.bad_line ≡ (if is_bad then Some line else None)) }
    {
        let place = place_of(alloc, line)?;
        let text = placed(alloc, file, place.as_str(), answer)?;
        let bad_line = if is_bad { Some(line) } else { None };
        Ok(Stopped {
            line: text,
            bad_line,
        })
    }
}
