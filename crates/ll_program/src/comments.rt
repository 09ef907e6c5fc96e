//! Scripts with comments.

ghost use Rattle.std.specs.Prelude.{◌≡◌, ◌==◌, ◌∷◌, ◌++◌, [], map, IfOk, OnOk};
ghost use Rattle.std.specs.List.{flat_map, list_all};
ghost use Rattle.ll_program.specs.Comments.{body_of, is_comment, is_silent, line_there, number_in, spoken};
ghost use Rattle.ll_program.specs.Comments.{spoken_numbers, spoken_text, stop_there, with_feed};

use ll_session::Stop;
use ll_wire::split_line;
use std::alloc::{AllocError, Global};

/// Returns a line without its line feed, if it has one.
#[tactic(auto, using(crate::proofs::Bodies::if_ended, crate::proofs::Bodies::if_open, crate::proofs::Bodies::if_empty))]
pub fn body_of(line: &[u8]) -> &[u8]
    ensures { result.now ≡ body_of line.now }
{
    let Some((last, body)) = line.split_last() else {
        return line;
    };
    if *last == b'\n' { body } else { line }
}

fn is_blank(body: &[u8]) -> bool
    ensures { result ≡ list_all (λ b. b == 32) body.now }
{
    body.iter().all(|b| *b == b' ')
}

fn is_comment(body: &[u8]) -> bool
    ensures { result ≡ is_comment body.now }
{
    match body.first() {
        Some(b) => *b == b'#',
        None => false,
    }
}

/// Reports whether a line, without its line feed, is of spaces alone, or a comment.
pub fn is_silent(body: &[u8]) -> bool
    ensures { result ≡ is_silent body.now }
{
    is_blank(body) || is_comment(body)
}

/// The lines of a script with comments that are run.
#[derive(Drop)]
pub(crate) struct SpokenLines {
    /// The lines, each with a line feed.
    pub text: Vec<u8>,
    /// Their numbers in the script, from 1.
    numbers: Vec<u64>,
}

impl SpokenLines {
    // Adds the line with this number, unless it is silent.
    fn take(&mut self, line: &[u8], number: u64) -> Result<(), AllocError>
        ensures text { OnOk result (self.new.text.items
            ≡ self.old.text.items ++ flat_map with_feed (spoken number (line.now ∷ []))) }
        ensures numbers { OnOk result (self.new.numbers.items
            ≡ self.old.numbers.items ++ map number_in (spoken number (line.now ∷ []))) }
    {
        let body = body_of(line);
        if is_silent(body) {
            return Ok(());
        }
        self.text.extend_from_slice(body)?;
        self.text.push(b'\n')?;
        self.numbers.push(number)?;
        Ok(())
    }

    /// Returns those lines of the script. Errors: memory ran out.
    pub fn of(alloc: Global, script: &[u8]) -> Result<SpokenLines, AllocError>
        ensures text { IfOk result (λ lines. lines.text.items ≡ spoken_text script.now) }
        ensures numbers { IfOk result (λ lines. lines.numbers.items ≡ spoken_numbers script.now) }
    {
        let mut lines = SpokenLines {
            text: Vec::new(alloc),
            numbers: Vec::new(alloc),
        };
        let mut rest = script;
        let mut number = 0;
        while !rest.is_empty() {
            let (line, more) = split_line(rest);
            number += 1;
            lines.take(line, number)?;
            rest = more;
        }
        Ok(lines)
    }

    // Returns the number in the script of the line with this number, from 1, among these.
    fn line_there(&self, line: u64) -> u64
        ensures { result ≡ line_there self.now.numbers.items line }
    {
        match self.numbers.get(line.saturating_sub(1) as usize) {
            Some(number) => *number,
            None => line,
        }
    }

    /// Returns what ended the run of these lines, as it is told of the script.
    pub fn stop_there(&self, stop: Stop) -> Stop
        ensures { result ≡ stop_there self.now.numbers.items stop }
    {
        match stop {
            Stop::AtLine(line, reply) => Stop::AtLine(self.line_there(line), reply),
            Stop::AtOpening(refusal) => Stop::AtOpening(refusal),
        }
    }
}
