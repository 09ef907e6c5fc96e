//! Answers lines one by one.

ghost use Rattle.std.specs.Prelude.{◌≡◌, ◌<◌, ◌≤◌, ◌+◌, ◌^◌, ℕ, Bool, true, false, List, Some, Err, IfErr, IfOk};
ghost use Rattle.std.specs.Prelude.{OnErr, OnOk, length, string_bytes};
ghost use Rattle.ll_wire.specs.Devices.{IsWhole, line_feeds};
ghost use Rattle.ll_wire.specs.LineCuts.{Holds};
ghost use Rattle.ll_wire.specs.Reached.{AnswersAll, AnswersFirst, Blames, StartsAll};
ghost use Rattle.ll_wire.specs.Transcript.{most_reads};
ghost use Rattle.ll_wire.specs.declared.fault.SessionFault.{SessionFault};

use crate::Ends;
use crate::exchange::Exchange;
use crate::fault::SessionFault;
use crate::line::Line;
use std::alloc::{AllocError, Global};

/// Answers lines, one after the other, until it is over.
pub trait Answers {
    /// The relation of the state before, a line's bytes, the line that answers it, and the state after.
    ghost tells: { Self → List ℕ → List ℕ → Self → Type 0 };

    /// The relation of the state before any number of answers, and after.
    ghost goes: { Self → Self → Type 0 };

    /// How many line numbers it has used.
    ghost used: { Self → ℕ };

    /// Whether it answers no further line.
    ghost over: { Self → Bool };

    /// All its answers so far have been kept, if they are kept at all: the replies may be written.
    ghost kept: { Self → Type 0 };

    /// Returns the line that answers this one, with its line feed. Errors: memory for the answer ran out; the line
    /// counts as answered.
    fn answer(&mut self, line: &Line) -> Result<String, AllocError>
        requires room { used self.old < 2 ^ 63 }
        requires going { over self.old ≡ false }
        ensures ok { IfOk result (λ text. (piece : List ℕ) → Holds line.now piece
            → tells self.old piece (string_bytes text) self.new) }
        ensures feed { IfOk result (λ text. 1 ≤ line_feeds (string_bytes text)) }
        ensures err { OnErr result ((piece : List ℕ) → Holds line.now piece
            → (text : List ℕ) × tells self.old piece text self.new) }
        ensures goes { goes self.old self.new }
        ensures used { used self.new ≤ used self.old + 2 };

    /// Keeps all its answers so far.
    fn settle(&mut self)
        ensures kept { kept self.new }
        ensures tells { (a : Self) (piece line : List ℕ) → tells a piece line self.old → tells a piece line self.new }
        ensures goes { goes self.old self.new }
        ensures used { used self.new ≡ used self.old }
        ensures over { over self.new ≡ over self.old };

    /// Reports whether the last answered line was the final one.
    fn is_over(&self) -> bool
        ensures { result ≡ over self.now };

    ghost goes_nowhere: { (a : Self) → goes a a };

    ghost goes_on: { (a b c : Self) → goes a b → goes b c → goes a c };
}

/// Reads lines and answers each, to the end of the input or to the final line. Writes the answers to everything read so
/// far before each further read, and the rest at the end. Doesn't answer lines after the final one, even if one read
/// returned them together. Errors: the first fault; what was written is then a prefix of the answers.
pub fn answer_lines<E: Ends, A: Answers>(
    alloc: Global,
    ends: &mut E,
    answers: &mut A,
) -> Result<(), SessionFault>
    requires whole { IsWhole (E.devices ends.old) }
    requires answered { (E.devices ends.old).owed ≡ 0 }
    requires reads { (E.devices ends.old).reads ≤ 2 ^ 62 }
    requires room { A.used answers.old ≤ 2 ^ 62 }
    requires going { A.over answers.old ≡ false }
    ensures ok { OnOk result (A.over answers.new ≡ false
        → AnswersAll A.tells answers.old answers.new (E.devices ends.old) (E.devices ends.new)) }
    // If it is over, the lines up to the final one are answered, and all their answers are written.
    ensures over { OnOk result (A.over answers.new ≡ true
        → AnswersFirst A.tells answers.old answers.new (E.devices ends.old) (E.devices ends.new)) }
    ensures whole { OnOk result (IsWhole (E.devices ends.new)) }
    // After a fault, what was written is a prefix of the transcript of the first lines, and these are answered.
    ensures err { OnErr result
        (StartsAll A.tells answers.old answers.new (E.devices ends.old) (E.devices ends.new)) }
    ensures fault { IfErr result (λ fault. Blames fault (E.devices ends.old) (E.devices ends.new)) }
    // Each read returns at least one byte.
    ensures long { result ≡ Err SessionFault.TooLong
        → (input : List ℕ) → (E.devices ends.old).remaining ≡ Some input → most_reads ≤ length input }
    ensures goes { A.goes answers.old answers.new }
    ensures same { E.names ends.new ≡ E.names ends.old }
{
    let (Ok(mut exchange), Ok(mut line)) = (Exchange::new(alloc), Line::new(alloc)) else {
        return Err(SessionFault::NoMemory);
    };
    while exchange.read_line(ends, answers, &mut line)? {
        match answers.answer(&line) {
            Ok(text) => exchange.reply(ends, answers, text.as_str())?,
            Err(_) => return Err(exchange.starve(ends, answers)),
        }
        if answers.is_over() {
            return exchange.end(ends, answers);
        }
    }
    exchange.end(ends, answers)
}
