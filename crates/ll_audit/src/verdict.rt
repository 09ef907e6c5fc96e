//! The verdict of an audit.

ghost use Rattle.std.specs.Prelude.{◌≡◌, IfOk, string_bytes};
ghost use Rattle.ll_audit.specs.Saved.{verdict_line};

use std::alloc::{AllocError, Global};

/// The verdict of an audit of a file. Entries and lines are counted from 1.
#[derive(Clone, Copy, Debug, PartialEq, Eq)]
pub enum Verdict {
    /// The number of entries, all legal.
    Legal(usize),
    /// The first entry whose reply isn't the tree's.
    Illegal(usize),
    /// The first malformed line.
    BadLine(usize),
}

impl Verdict {
    /// Returns the verdict's line. Errors: memory ran out.
    pub fn text(self, alloc: Global) -> Result<String, AllocError>
        ensures { IfOk result (λ text. string_bytes text ≡ verdict_line self) }
    {
        let (words, number) = match self {
            Verdict::Legal(count) => ("legal ", count),
            Verdict::Illegal(entry) => ("illegal at ", entry),
            Verdict::BadLine(line) => ("bad line ", line),
        };
        let mut text = String::from_str(alloc, words)?;
        text.push_str(number.to_string(alloc)?.as_str())?;
        text.push_str("\n")?;
        Ok(text)
    }
}
