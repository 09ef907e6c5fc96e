//! Lines of outcomes.

ghost use Rattle.std.specs.Prelude.{◌≡◌, [], ◌∷◌, IfErr, IfOk, decimal, string_bytes};
ghost use Rattle.ll_seq.specs.declared.reply.Reply.{Reply};
ghost use Rattle.ll_steps.specs.declared.report.Report.{Report};
ghost use Rattle.ll_wire.specs.Grammar.{IsReply, line_of};
ghost use Rattle.ll_steps.specs.Tells.{answer_line, outcome_line};

use crate::Report;
use ll_rights::Errno;
use ll_seq::{Entry, Reply};
use ll_wire::{line_text, reply_text, reply_text_behind};
use std::alloc::{AllocError, Global};

fn number_line(alloc: Global, word: &str, number: u64) -> Result<String, AllocError>
    ensures { IfOk result (λ line. string_bytes line ≡ line_of (word.now ∷ decimal number ∷ [])) }
{
    let number = number.to_string(alloc)?;
    line_text(alloc, word, &[number.as_str()])
}

// The line of a reply, read from the history's entry of this number.
fn entry_line(alloc: Global, history: &[Entry], number: u64) -> Result<String, AllocError>
    ensures { IfOk result (λ line. string_bytes line ≡ outcome_line history.now (Report.Replied number)) }
{
    match history.get(number as usize) {
        Some(entry) => reply_text_behind(alloc, "reply", &entry.reply),
        None => line_text(alloc, "reply", &[]),
    }
}

// The line of a report, given the history after it.
fn outcome_text(alloc: Global, history: &[Entry], outcome: Report) -> Result<String, AllocError>
    ensures { IfOk result (λ line. string_bytes line ≡ outcome_line history.now outcome) }
{
    match outcome {
        Report::NotNow => line_text(alloc, "NotNow", &[]),
        Report::Begun => line_text(alloc, "begun", &[]),
        Report::Stands(inode) => number_line(alloc, "at", inode),
        Report::Forked => line_text(alloc, "forked", &[]),
        Report::Restarted => line_text(alloc, "restarted", &[]),
        Report::Joined(client) => number_line(alloc, "client", client),
        Report::Replied(number) => entry_line(alloc, history, number),
        Report::Refused(errno) => reply_text_behind(alloc, "reply", &Reply::Refused(errno)),
    }
}

/// Returns the line for the result of a line: its report, given the history after it, or why the line wasn't read.
/// Errors: memory ran out.
pub fn answer_text(
    alloc: Global,
    history: &[Entry],
    answer: Result<Report, Errno>,
) -> Result<String, AllocError>
    requires { IfErr answer (λ errno. IsReply (Reply.Refused errno)) }
    ensures { IfOk result (λ line. string_bytes line ≡ answer_line history.now answer) }
{
    match answer {
        Ok(outcome) => outcome_text(alloc, history, outcome),
        Err(errno) => reply_text(alloc, &Reply::Refused(errno)),
    }
}
