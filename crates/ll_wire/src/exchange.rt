//! Reads lines and gathers their replies.

ghost use Rattle.std.specs.Prelude.{◌≡◌, ◌≢◌, ◌<◌, ◌≤◌, ◌-◌, ◌++◌, [], ℕ, List, true, false, Ok, IfOk, IfErr, OnOk};
ghost use Rattle.std.specs.Prelude.{OnErr};
ghost use Rattle.std.specs.Prelude.{MatchOption, Err, IsTrue};
ghost use Rattle.std.specs.Prelude.{Option, ◌+◌};
ghost use Rattle.std.specs.Io.KnownBytes.{Appends};
ghost use Rattle.ll_wire.specs.Devices.{IsWhole, Took, TookNone, line_feeds};
ghost use Rattle.ll_wire.specs.WriterGains.{AppendsFront};
ghost use Rattle.ll_wire.specs.LineCuts.{Calls, CanGoOn, Counts, Cuts, Faults, Gives, IsLeft, TellsFront, TellsFrontOf};
ghost use Rattle.ll_wire.specs.LineCuts.{IsSilent, IsTold, TellsMore, TellsOn, feeds_of, most_left, unread};
ghost use Rattle.ll_wire.specs.SettledAnswers.{Settles};
ghost use Rattle.ll_wire.specs.Transcript.{most_reads};
ghost use Rattle.ll_wire.specs.declared.fault.SessionFault.{SessionFault};

use crate::answers::Answers;
use crate::fault::SessionFault;
use crate::line::Line;
use crate::line_out::write_line;
use crate::{Ends, write_out};
use std::alloc::{AllocError, Global};
use std::marker::Model;

/// The most reads of one input that return bytes.
const MOST_READS: u64 = 1_000_000_000;

/// The size in bytes of a read, and the most bytes of replies that wait.
const BLOCK: usize = 65_536;

/// Splits the input at line feeds, and gathers the replies. Holds the bytes that were read but not yet returned, and
/// the replies that wait. Writes the waiting replies before it reads on.
#[derive(Drop)]
pub struct Exchange {
    chunk: Vec<u8>,
    start: usize,
    end: usize,
    waiting: Vec<u8>,
    reads: u64,
    is_ended: bool,
}

impl Model for Exchange {
    ghost use Rattle.std.specs.Prelude.{◌≡◌, ◌≤◌, drop, take, length};
    ghost use Rattle.ll_wire.specs.LineCuts.{Reading};
    ghost use Rattle.ll_wire.specs.Transcript.{most_reads};

    ghost Value = { Reading };

    ghost view = { λ r. record {
      bytes = drop r.start (take r.end r.chunk.items);
      waiting = r.waiting.items;
      reads = r.reads;
      is_ended = r.is_ended;
    } };

    ghost invariant = { λ r. (r.start ≤ r.end) × (r.end ≤ length r.chunk.items) × (length r.chunk.items ≡ 65536)
        × (r.reads ≤ most_reads) };
}

// Writes one line directly. What it answers has been kept.
fn write_through<E: Ends, A: Answers>(
    ends: &mut E,
    answers: &A,
    line: &str,
) -> Result<(), SessionFault>
    requires whole { IsWhole (E.devices ends.old) }
    requires kept { A.kept answers.now }
    ensures ok { OnOk result (Appends (E.devices ends.old).contents (E.devices ends.new).contents line.now) }
    ensures took { OnOk result (Took (E.devices ends.old) (E.devices ends.new) line.now) }
    ensures err { OnErr result
        (AppendsFront (E.devices ends.old).contents (E.devices ends.new).contents line.now) }
    ensures broken { OnErr result (TookNone (E.devices ends.old) (E.devices ends.new)) }
    ensures fault { IfErr result (λ fault. fault ≡ SessionFault.Write) }
    ensures same { E.names ends.new ≡ E.names ends.old }
{
    let _ = answers;
    write_line(ends, line)
}

impl Exchange {
    /// Returns an exchange that has read nothing. Errors: memory ran out.
    pub fn new(alloc: Global) -> Result<Exchange, AllocError>
        ensures { IfOk result (λ exchange. exchange ≡ unread) }
    {
        Ok(Exchange {
            chunk: Vec::from_elem(alloc, 0, BLOCK)?,
            start: 0,
            end: 0,
            waiting: Vec::with_capacity(alloc, BLOCK)?,
            reads: 0,
            is_ended: false,
        })
    }

    // Writes the waiting replies. What they answer has been kept.
    fn write_waiting<E: Ends, A: Answers>(
        &mut self,
        ends: &mut E,
        answers: &A,
    ) -> Result<(), SessionFault>
        requires whole { IsWhole (E.devices ends.old) }
        requires kept { A.kept answers.now }
        ensures ready { OnOk result ((more : ℕ) → CanGoOn more self.old (E.devices ends.old)
            → CanGoOn more self.new (E.devices ends.new)) }
        ensures none { OnOk result (self.new ≡ record self.old { waiting = [] }) }
        ensures whole { OnOk result (IsWhole (E.devices ends.new)) }
        ensures tells { OnOk result (TellsOn self.old self.new (E.devices ends.old) (E.devices ends.new)) }
        ensures front { OnErr result (TellsFront self.old (E.devices ends.old) (E.devices ends.new)) }
        ensures remaining { (E.devices ends.new).remaining ≡ (E.devices ends.old).remaining }
        ensures calls { Calls self.old self.new (E.devices ends.old) (E.devices ends.new) }
        ensures reads { self.new.reads ≡ self.old.reads }
        ensures broken { IfErr result (λ fault. fault ≡ SessionFault.Write) }
        ensures fault { IfErr result (λ fault. Faults fault self.new (E.devices ends.new)) }
        ensures same { E.names ends.new ≡ E.names ends.old }
    {
        let _ = answers;
        match write_out(ends, &self.waiting) {
            Ok(()) => {
                self.waiting.clear();
                Ok(())
            }
            Err(_) => Err(SessionFault::Write),
        }
    }

    // Keeps what was answered, and then writes the waiting replies.
    fn write_kept<E: Ends, A: Answers>(
        &mut self,
        ends: &mut E,
        answers: &mut A,
    ) -> Result<(), SessionFault>
        requires { IsWhole (E.devices ends.old) }
        ensures settled { Settles A.tells A.goes A.used A.over answers.old answers.new }
        ensures kept { A.kept answers.new }
        ensures ready { OnOk result ((more : ℕ) → CanGoOn more self.old (E.devices ends.old)
            → CanGoOn more self.new (E.devices ends.new)) }
        ensures none { OnOk result (self.new ≡ record self.old { waiting = [] }) }
        ensures whole { OnOk result (IsWhole (E.devices ends.new)) }
        ensures tells { OnOk result (TellsOn self.old self.new (E.devices ends.old) (E.devices ends.new)) }
        ensures front { OnErr result (TellsFront self.old (E.devices ends.old) (E.devices ends.new)) }
        ensures remaining { (E.devices ends.new).remaining ≡ (E.devices ends.old).remaining }
        ensures calls { Calls self.old self.new (E.devices ends.old) (E.devices ends.new) }
        ensures reads { self.new.reads ≡ self.old.reads }
        ensures broken { IfErr result (λ fault. fault ≡ SessionFault.Write) }
        ensures fault { IfErr result (λ fault. Faults fault self.new (E.devices ends.new)) }
        ensures same { E.names ends.new ≡ E.names ends.old }
    {
        answers.settle();
        self.write_waiting(ends, answers)
    }

    // If any reply waits, keeps what was answered and writes the waiting replies.
    fn flush<E: Ends, A: Answers>(
        &mut self,
        ends: &mut E,
        answers: &mut A,
    ) -> Result<(), SessionFault>
        requires { IsWhole (E.devices ends.old) }
        ensures settled { Settles A.tells A.goes A.used A.over answers.old answers.new }
        ensures quiet { self.old.waiting ≡ [] → answers.new ≡ answers.old }
        ensures ready { OnOk result ((more : ℕ) → CanGoOn more self.old (E.devices ends.old)
            → CanGoOn more self.new (E.devices ends.new)) }
        ensures none { OnOk result (self.new ≡ record self.old { waiting = [] }) }
        ensures whole { OnOk result (IsWhole (E.devices ends.new)) }
        ensures tells { OnOk result (TellsOn self.old self.new (E.devices ends.old) (E.devices ends.new)) }
        ensures front { OnErr result (TellsFront self.old (E.devices ends.old) (E.devices ends.new)) }
        ensures remaining { (E.devices ends.new).remaining ≡ (E.devices ends.old).remaining }
        ensures calls { Calls self.old self.new (E.devices ends.old) (E.devices ends.new) }
        ensures reads { self.new.reads ≡ self.old.reads }
        ensures broken { IfErr result (λ fault. fault ≡ SessionFault.Write) }
        ensures fault { IfErr result (λ fault. Faults fault self.new (E.devices ends.new)) }
        ensures same { E.names ends.new ≡ E.names ends.old }
    {
        if self.waiting.is_empty() {
            return Ok(());
        }
        self.write_kept(ends, answers)
    }

    // Reads on if no bytes are held, unless the input has ended. No reply may wait.
    fn fill<E: Ends>(&mut self, ends: &mut E) -> Result<(), SessionFault>
        requires ready { CanGoOn 0 self.old (E.devices ends.old) }
        requires silent { IsSilent 0 self.old }
        ensures ready { OnOk result (CanGoOn 0 self.new (E.devices ends.new)) }
        ensures silent { OnOk result (IsSilent 0 self.new) }
        ensures left { OnOk result ((left : List ℕ) → IsLeft self.old (E.devices ends.old).remaining left
            → IsLeft self.new (E.devices ends.new).remaining left) }
        ensures some { OnOk result (self.new.bytes ≡ [] → self.new.is_ended ≡ true) }
        ensures fewer { OnOk result (most_left self.new ≤ most_left self.old) }
        ensures contents { (E.devices ends.new).contents ≡ (E.devices ends.old).contents }
        ensures waiting { self.new.waiting ≡ self.old.waiting }
        ensures counted { Counts self.old self.new (E.devices ends.old).remaining (E.devices ends.new).remaining }
        ensures calls { Calls self.old self.new (E.devices ends.old) (E.devices ends.new) }
        ensures fault { IfErr result (λ fault. Faults fault self.new (E.devices ends.new)) }
        ensures same { E.names ends.new ≡ E.names ends.old }
    {
        if self.start < self.end || self.is_ended {
            return Ok(());
        }
        self.read_chunk(ends)
    }

    // Reads on. No bytes may be held and no reply may wait.
    fn read_chunk<E: Ends>(&mut self, ends: &mut E) -> Result<(), SessionFault>
        requires ready { CanGoOn 0 self.old (E.devices ends.old) }
        requires empty { self.old.bytes ≡ [] }
        requires silent { self.old.waiting ≡ [] }
        ensures ready { OnOk result (CanGoOn 0 self.new (E.devices ends.new)) }
        ensures left { OnOk result ((left : List ℕ) → IsLeft self.old (E.devices ends.old).remaining left
            → IsLeft self.new (E.devices ends.new).remaining left) }
        ensures some { OnOk result (self.new.bytes ≡ [] → self.new.is_ended ≡ true) }
        ensures fewer { OnOk result (most_left self.new ≤ most_left self.old) }
        ensures contents { (E.devices ends.new).contents ≡ (E.devices ends.old).contents }
        ensures waiting { self.new.waiting ≡ self.old.waiting }
        ensures counted { Counts self.old self.new (E.devices ends.old).remaining (E.devices ends.new).remaining }
        ensures calls { Calls self.old self.new (E.devices ends.old) (E.devices ends.new) }
        ensures fault { IfErr result (λ fault. Faults fault self.new (E.devices ends.new)) }
        ensures same { E.names ends.new ≡ E.names ends.old }
    {
        if self.reads == MOST_READS {
            return Err(SessionFault::TooLong);
        }
        match ends.read(&mut self.chunk) {
            Ok(0) => self.is_ended = true,
            Ok(count) => {
                self.start = 0;
                self.end = count;
                self.reads += 1;
            }
            Err(_) => return Err(SessionFault::Read),
        }
        Ok(())
    }

    // The next byte, or None at the end.
    fn next_byte<E: Ends>(&mut self, ends: &mut E) -> Result<Option<u8>, SessionFault>
        requires ready { CanGoOn 0 self.old (E.devices ends.old) }
        requires silent { IsSilent 0 self.old }
        ensures ready { IfOk result (λ byte. CanGoOn (feeds_of byte) self.new (E.devices ends.new)) }
        ensures silent { IfOk result (λ byte. IsSilent (feeds_of byte) self.new) }
        ensures byte { IfOk result (λ byte. (left : List ℕ) → IsLeft self.old (E.devices ends.old).remaining left
            → Gives left byte (IsLeft self.new (E.devices ends.new).remaining)) }
        ensures fewer { IfOk result (λ byte. MatchOption byte (most_left self.new ≤ most_left self.old)
            (λ _. most_left self.new < most_left self.old)) }
        ensures contents { (E.devices ends.new).contents ≡ (E.devices ends.old).contents }
        ensures waiting { self.new.waiting ≡ self.old.waiting }
        ensures counted { Counts self.old self.new (E.devices ends.old).remaining (E.devices ends.new).remaining }
        ensures calls { Calls self.old self.new (E.devices ends.old) (E.devices ends.new) }
        ensures fault { IfErr result (λ fault. Faults fault self.new (E.devices ends.new)) }
        ensures same { E.names ends.new ≡ E.names ends.old }
    {
        self.fill(ends)?;
        match self.chunk[..self.end].get(self.start) {
            Some(byte) => {
                let byte = *byte;
                self.start += 1;
                Ok(Some(byte))
            }
            None => Ok(None),
        }
    }

    // Whether a complete line is held, so that it needs no read.
    fn holds_line(&self) -> bool
        ensures { IsTrue result → 1 ≤ line_feeds self.now.bytes }
    {
        self.chunk[self.start..self.end].contains(&b'\n')
    }

    // Takes the next line. If that needs a read, no reply may wait.
    fn cut_line<E: Ends>(&mut self, ends: &mut E, line: &mut Line) -> Result<bool, SessionFault>
        requires ready { CanGoOn 0 self.old (E.devices ends.old) }
        requires silent { IsSilent 0 self.old }
        ensures ready { OnOk result (CanGoOn 1 self.new (E.devices ends.new)) }
        ensures line { IfOk result (λ is_there. (left : List ℕ) → IsLeft self.old (E.devices ends.old).remaining left
            → Cuts left is_there line.new (IsLeft self.new (E.devices ends.new).remaining)) }
        ensures fewer { result ≡ Ok true → most_left self.new < most_left self.old }
        ensures contents { (E.devices ends.new).contents ≡ (E.devices ends.old).contents }
        ensures waiting { self.new.waiting ≡ self.old.waiting }
        ensures counted { Counts self.old self.new (E.devices ends.old).remaining (E.devices ends.new).remaining }
        ensures calls { Calls self.old self.new (E.devices ends.old) (E.devices ends.new) }
        ensures fault { IfErr result (λ fault. Faults fault self.new (E.devices ends.new)) }
        ensures same { E.names ends.new ≡ E.names ends.old }
    {
        line.clear();
        while let Some(byte) = self.next_byte(ends)? {
            line.push(byte);
            if byte == b'\n' {
                return Ok(true);
            }
        }
        Ok(!line.is_empty())
    }

    // Writes the waiting replies, unless a complete line is held.
    fn fall_silent<E: Ends, A: Answers>(
        &mut self,
        ends: &mut E,
        answers: &mut A,
    ) -> Result<(), SessionFault>
        requires { CanGoOn 0 self.old (E.devices ends.old) }
        ensures settled { Settles A.tells A.goes A.used A.over answers.old answers.new }
        ensures quiet { self.old.waiting ≡ [] → answers.new ≡ answers.old }
        ensures ready { OnOk result (CanGoOn 0 self.new (E.devices ends.new)) }
        ensures silent { OnOk result (IsSilent 0 self.new) }
        ensures left { OnOk result ((self.new.bytes ≡ self.old.bytes) × (self.new.is_ended ≡ self.old.is_ended)) }
        ensures tells { OnOk result (TellsOn self.old self.new (E.devices ends.old) (E.devices ends.new)) }
        ensures front { OnErr result (TellsFront self.old (E.devices ends.old) (E.devices ends.new)) }
        ensures remaining { (E.devices ends.new).remaining ≡ (E.devices ends.old).remaining }
        ensures calls { Calls self.old self.new (E.devices ends.old) (E.devices ends.new) }
        ensures reads { self.new.reads ≡ self.old.reads }
        ensures fault { IfErr result (λ fault. Faults fault self.new (E.devices ends.new)) }
        ensures same { E.names ends.new ≡ E.names ends.old }
    {
        if self.holds_line() {
            return Ok(());
        }
        self.flush(ends, answers)
    }

    /// Reads the next line into `line`. Only the last may lack its line feed. Returns whether there was one. Before
    /// each read it keeps what was answered and writes the waiting replies. Errors: the first fault.
    pub fn read_line<E: Ends, A: Answers>(
        &mut self,
        ends: &mut E,
        answers: &mut A,
        line: &mut Line,
    ) -> Result<bool, SessionFault>
        requires { CanGoOn 0 self.old (E.devices ends.old) }
        ensures settled { Settles A.tells A.goes A.used A.over answers.old answers.new }
        ensures quiet { self.old.waiting ≡ [] → answers.new ≡ answers.old }
        ensures ready { OnOk result (CanGoOn 1 self.new (E.devices ends.new)) }
        ensures line { IfOk result (λ is_there. (left : List ℕ) → IsLeft self.old (E.devices ends.old).remaining left
            → Cuts left is_there line.new (IsLeft self.new (E.devices ends.new).remaining)) }
        ensures fewer { result ≡ Ok true → most_left self.new < most_left self.old }
        ensures tells { OnOk result (TellsOn self.old self.new (E.devices ends.old) (E.devices ends.new)) }
        ensures front { OnErr result (TellsFront self.old (E.devices ends.old) (E.devices ends.new)) }
        ensures counted { Counts self.old self.new (E.devices ends.old).remaining (E.devices ends.new).remaining }
        ensures calls { Calls self.old self.new (E.devices ends.old) (E.devices ends.new) }
        ensures fault { IfErr result (λ fault. Faults fault self.new (E.devices ends.new)) }
        ensures same { E.names ends.new ≡ E.names ends.old }
    {
        self.fall_silent(ends, answers)?;
        self.cut_line(ends, line)
    }

    /// Handles NoMemory for a reply: keeps what was answered, and writes the waiting replies if possible. Returns the
    /// fault.
    pub fn starve<E: Ends, A: Answers>(&mut self, ends: &mut E, answers: &mut A) -> SessionFault
        requires { IsWhole (E.devices ends.old) }
        ensures settled { Settles A.tells A.goes A.used A.over answers.old answers.new }
        ensures front { TellsFront self.old (E.devices ends.old) (E.devices ends.new) }
        ensures remaining { (E.devices ends.new).remaining ≡ (E.devices ends.old).remaining }
        ensures calls { Calls self.old self.new (E.devices ends.old) (E.devices ends.new) }
        ensures reads { self.new.reads ≡ self.old.reads }
        ensures fault { Faults result self.new (E.devices ends.new) }
        ensures few { result ≢ SessionFault.TooLong }
        ensures same { E.names ends.new ≡ E.names ends.old }
    {
        match self.write_kept(ends, answers) {
            Ok(()) => SessionFault::NoMemory,
            Err(fault) => fault,
        }
    }

    // Adds the line to the waiting replies if it fits. Returns whether it did.
    fn gather(&mut self, line: &str) -> bool
        ensures yes { IsTrue result → self.new ≡ record self.old { waiting = self.old.waiting ++ line.now } }
        ensures no { result ≡ false → self.new ≡ self.old }
    {
        if line.len() > BLOCK || self.waiting.len() > BLOCK - line.len() {
            return false;
        }
        match self.waiting.extend_from_slice(line.as_bytes()) {
            Ok(()) => true,
            Err(_) => false,
        }
    }

    /// Answers a line. The answer is written before the next read, after what it answers is kept. Errors: the first
    /// fault.
    pub fn reply<E: Ends, A: Answers>(
        &mut self,
        ends: &mut E,
        answers: &mut A,
        line: &str,
    ) -> Result<(), SessionFault>
        requires ready { CanGoOn 1 self.old (E.devices ends.old) }
        requires line { 1 ≤ line_feeds line.now }
        ensures settled { Settles A.tells A.goes A.used A.over answers.old answers.new }
        ensures ready { OnOk result (CanGoOn 0 self.new (E.devices ends.new)) }
        ensures kept { OnOk result ((self.new.bytes ≡ self.old.bytes) × (self.new.is_ended ≡ self.old.is_ended)) }
        ensures reads { self.new.reads ≡ self.old.reads }
        ensures tells { OnOk result
            (TellsMore self.old self.new (E.devices ends.old) (E.devices ends.new) line.now) }
        ensures front { OnErr result (TellsFrontOf self.old (E.devices ends.old) (E.devices ends.new) line.now) }
        ensures remaining { (E.devices ends.new).remaining ≡ (E.devices ends.old).remaining }
        ensures calls { Calls self.old self.new (E.devices ends.old) (E.devices ends.new) }
        ensures fault { IfErr result (λ fault. Faults fault self.new (E.devices ends.new)) }
        ensures same { E.names ends.new ≡ E.names ends.old }
    {
        if self.gather(line) {
            return Ok(());
        }
        self.write_kept(ends, answers)?;
        write_through(ends, answers, line)
    }

    /// Ends the exchange after the last line: keeps what was answered, and writes the waiting replies. Errors: the
    /// output failed.
    pub fn end<E: Ends, A: Answers>(
        &mut self,
        ends: &mut E,
        answers: &mut A,
    ) -> Result<(), SessionFault>
        requires { IsWhole (E.devices ends.old) }
        ensures settled { Settles A.tells A.goes A.used A.over answers.old answers.new }
        ensures quiet { self.old.waiting ≡ [] → answers.new ≡ answers.old }
        ensures tells { OnOk result ((first : Option (List ℕ)) (text : List ℕ)
            → IsTold first self.old (E.devices ends.old) text → Appends first (E.devices ends.new).contents text) }
        ensures whole { OnOk result (IsWhole (E.devices ends.new)) }
        ensures front { OnErr result (TellsFront self.old (E.devices ends.old) (E.devices ends.new)) }
        ensures remaining { (E.devices ends.new).remaining ≡ (E.devices ends.old).remaining }
        ensures calls { Calls self.old self.new (E.devices ends.old) (E.devices ends.new) }
        ensures broken { IfErr result (λ fault. fault ≡ SessionFault.Write) }
        ensures fault { IfErr result (λ fault. Faults fault self.new (E.devices ends.new)) }
        ensures same { E.names ends.new ≡ E.names ends.old }
    {
        self.flush(ends, answers)
    }
}
