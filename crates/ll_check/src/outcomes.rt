//! The expected outcome of a step.

ghost use Rattle.std.specs.Prelude.{◌≡◌, ◌↔◌, IfOk, IsTrue};
ghost use Rattle.ll_wire.specs.Parts.{SpellsNumber};
ghost use Rattle.ll_wire.specs.Reads.{Finds};
ghost use Rattle.ll_check.specs.Outcomes.{Meets, MeetsReply, SpellsNumbered, SpellsOutcome, SpellsReplied, SpellsWord};
ghost use Rattle.ll_check.specs.Outcomes.{is_made};

use crate::lines::strip_front;
use crate::wanted::{Wanted, is_success, read_wanted};
use ll_seq::{Entry, Reply};
use ll_steps::Report;
use ll_wire::number_of;
use std::alloc::{AllocError, Global};

/// The expected outcome of a step, or of all steps of a call.
#[derive(Drop)]
pub enum WantedOutcome {
    /// The step is made, and its reply, if it has one, is neither a refusal nor a denial.
    Made,
    /// The step isn't enabled.
    NotNow,
    Begun,
    /// The walk is in the directory of this inode.
    Stands(u64),
    Forked,
    Restarted,
    /// A client with this number has connected.
    Joined(u64),
    /// The call is answered like this.
    Reply(Wanted),
}

// Reports whether the step was made, with no refusal or denial as its reply.
fn is_made(history: &[Entry], got: Report) -> bool
    ensures { result ≡ is_made history.now got }
{
    match got {
        Report::NotNow | Report::Refused(_) => false,
        Report::Replied(number) => match history.get(number as usize) {
            Some(entry) => is_success(&entry.reply),
            None => false,
        },
        _ => true,
    }
}

// Reports whether the outcome is a reply as expected.
fn is_replied(history: &[Entry], wanted: &Wanted, got: Report) -> bool
    ensures { IsTrue result ↔ MeetsReply history.now wanted.now got }
{
    match got {
        Report::Replied(number) => match history.get(number as usize) {
            Some(entry) => wanted.is_met(&entry.reply),
            None => false,
        },
        Report::Refused(errno) => wanted.is_met(&Reply::Refused(errno)),
        _ => false,
    }
}

impl WantedOutcome {
    /// Reports whether a step's outcome, in the history after it, is as expected.
    pub fn is_met(&self, history: &[Entry], got: Report) -> bool
        ensures { IsTrue result ↔ Meets history.now self.now got }
    {
        match (self, got) {
            (WantedOutcome::Made, got) => is_made(history, got),
            (WantedOutcome::NotNow, Report::NotNow) => true,
            (WantedOutcome::Begun, Report::Begun) => true,
            (WantedOutcome::Stands(inode), Report::Stands(here)) => *inode == here,
            (WantedOutcome::Forked, Report::Forked) => true,
            (WantedOutcome::Restarted, Report::Restarted) => true,
            (WantedOutcome::Joined(number), Report::Joined(came)) => *number == came,
            (WantedOutcome::Reply(wanted), got) => is_replied(history, wanted, got),
            _ => false,
        }
    }
}

// Returns the outcome that the text spells as a word alone.
fn word_outcome(text: &[u8]) -> Option<WantedOutcome>
    ensures { Finds (SpellsWord text.now) result }
{
    if text == b"NotNow".as_slice() {
        return Some(WantedOutcome::NotNow);
    }
    if text == b"begun".as_slice() {
        return Some(WantedOutcome::Begun);
    }
    if text == b"forked".as_slice() {
        return Some(WantedOutcome::Forked);
    }
    if text == b"restarted".as_slice() {
        return Some(WantedOutcome::Restarted);
    }
    None
}

fn number_in(text: &[u8]) -> Option<u64>
    ensures { Finds (SpellsNumber text.now) result }
{
    match str::from_utf8(text) {
        Ok(text) => number_of(text),
        Err(_) => None,
    }
}

// Returns the outcome that the text spells as a word and a number.
fn numbered_outcome(text: &[u8]) -> Option<WantedOutcome>
    ensures { Finds (SpellsNumbered text.now) result }
{
    if let Some(digits) = strip_front(text, b"at ") {
        return match number_in(digits) {
            Some(inode) => Some(WantedOutcome::Stands(inode)),
            None => None,
        };
    }
    let digits = strip_front(text, b"client ")?;
    match number_in(digits) {
        Some(number) => Some(WantedOutcome::Joined(number)),
        None => None,
    }
}

// Returns the outcome that the text spells as a reply. Errors: memory ran out.
fn reply_outcome(alloc: Global, text: &[u8]) -> Result<Option<WantedOutcome>, AllocError>
    ensures { IfOk result (Finds (SpellsReplied text.now)) }
{
    let Some(reply) = strip_front(text, b"reply ") else {
        return Ok(None);
    };
    let wanted = read_wanted(alloc, reply)?;
    match wanted {
        Some(wanted) => Ok(Some(WantedOutcome::Reply(wanted))),
        None => Ok(None),
    }
}

/// Returns the expected outcome that the text after the sign `=` spells. Errors: memory ran out.
pub(crate) fn read_outcome(alloc: Global, text: &[u8]) -> Result<Option<WantedOutcome>, AllocError>
    ensures { IfOk result (Finds (SpellsOutcome text.now)) }
{
    if let Some(wanted) = word_outcome(text) {
        return Ok(Some(wanted));
    }
    if let Some(wanted) = numbered_outcome(text) {
        return Ok(Some(wanted));
    }
    let wanted = reply_outcome(alloc, text)?;
    match wanted {
        Some(wanted) => Ok(Some(wanted)),
        None => Ok(None),
    }
}
