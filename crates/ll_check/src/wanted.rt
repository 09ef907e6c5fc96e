//! The expected reply to a test's command.

ghost use Rattle.std.specs.Prelude.{◌≡◌, ◌↔◌, ◌++◌, ◌<◌, IfOk, IsTrue, OnOk, codes, List, ℕ};
ghost use Rattle.std.specs.List.{join_with_byte};
ghost use Rattle.ll_rights.specs.Right.{right_text};
ghost use Rattle.ll_decide.specs.Denial.{place_text};
ghost use Rattle.ll_wire.specs.FirstWords.{SpellsFirst};
ghost use Rattle.ll_wire.specs.Grammar.{reply_tokens, IsReply};
ghost use Rattle.ll_wire.specs.Reads.{Finds};
ghost use Rattle.ll_check.specs.Wanted.{Satisfies, SpellsVerdict, SpellsWanted, is_allowed, is_success, wanted_text};
ghost use Rattle.ll_check.specs.Wanted.{wants_denial};

use crate::lines::{ended, strip_back, strip_front};
use ll_decide::Place;
use ll_rights::{Errno, Right};
use ll_seq::Reply;
use ll_wire::{FirstWords, first_words_text, read_first_words, read_reply, reply_line};
use std::alloc::{AllocError, Global};

/// The expected reply to a command.
#[derive(Drop)]
pub enum Wanted {
    /// Any reply but a refusal or a denial.
    Success,
    /// Any reply of the tree but a denial, including refusals.
    Allowed,
    /// A denial.
    Denied,
    /// A denial of this right.
    DeniedRight(Right),
    /// A denial of this right at this place.
    DeniedAt(Right, Place),
    /// Exactly this one.
    Whole(Reply),
    /// One that begins with these words.
    First(FirstWords),
}

/// Reports whether the reply is neither a refusal nor a denial.
pub(crate) fn is_success(reply: &Reply) -> bool
    ensures { result ≡ is_success reply.now }
{
    !matches!(reply, Reply::Refused(_) | Reply::Denied(_))
}

/// Reports whether the reply is the tree's own, and no layer denies the call.
pub(crate) fn is_allowed(reply: &Reply) -> bool
    ensures { result ≡ is_allowed reply.now }
{
    match reply {
        Reply::Denied(_) => false,
        Reply::Refused(Errno::HistoryFull | Errno::NoMemory | Errno::BadLine) => false,
        _ => true,
    }
}

impl Wanted {
    /// Reports whether a denial is expected, or the first words of one.
    pub fn is_denial(&self) -> bool
        ensures { result ≡ wants_denial self.now }
    {
        match self {
            Wanted::Denied | Wanted::DeniedRight(_) | Wanted::DeniedAt(_, _) => true,
            Wanted::Whole(reply) => matches!(reply, Reply::Denied(_)),
            Wanted::First(words) => matches!(words, FirstWords::Denied(_)),
            Wanted::Success | Wanted::Allowed => false,
        }
    }

    /// Reports whether the reply is as expected.
    pub fn is_met(&self, reply: &Reply) -> bool
        ensures { IsTrue result ↔ Satisfies self.now reply.now }
    {
        match (self, reply) {
            (Wanted::Success, reply) => is_success(reply),
            (Wanted::Allowed, reply) => is_allowed(reply),
            (Wanted::Denied, reply) => reply.is_denial(),
            (Wanted::DeniedRight(right), Reply::Denied(denial)) => denial.right == *right,
            (Wanted::DeniedAt(right, place), Reply::Denied(denial)) => {
                denial.right == *right && denial.place == *place
            }
            (Wanted::DeniedRight(_) | Wanted::DeniedAt(_, _), _) => false,
            (Wanted::Whole(given), reply) => reply.is(given),
            (Wanted::First(words), reply) => words.begin(reply),
        }
    }
}

fn right_of(text: &[u8]) -> Option<Right>
    ensures { Finds (λ right. (right < 15) × (text.now ≡ right_text right)) result }
{
    match str::from_utf8(text) {
        Ok(text) => Right::parse(text),
        Err(_) => None,
    }
}

fn right_before(text: &[u8], back: &[u8]) -> Option<Right>
    ensures { Finds (λ right. (right < 15) × (text.now ≡ right_text right ++ back.now)) result }
{
    right_of(strip_back(text, back)?)
}

fn denied_at(text: &[u8]) -> Option<(Right, Place)>
    ensures { Finds (λ v. (v.0 < 15) × (text.now ≡ right_text v.0 ++ (codes " " ++ place_text v.1))) result }
{
    if let Some(right) = right_before(text, b" at") {
        return Some((right, Place::At));
    }
    if let Some(right) = right_before(text, b" old") {
        return Some((right, Place::Old));
    }
    match right_before(text, b" new") {
        Some(right) => Some((right, Place::New)),
        None => None,
    }
}

/// Returns the verdict of the layers that the text expects, if it spells one.
pub fn verdict_of(text: &[u8]) -> Option<Wanted>
    ensures { Finds (SpellsVerdict text.now) result }
{
    if text == b"allowed".as_slice() {
        return Some(Wanted::Allowed);
    }
    if text == b"denied".as_slice() {
        return Some(Wanted::Denied);
    }
    let denied = strip_front(text, b"denied ")?;
    if let Some(right) = right_of(denied) {
        return Some(Wanted::DeniedRight(right));
    }
    match denied_at(denied) {
        Some((right, place)) => Some(Wanted::DeniedAt(right, place)),
        None => None,
    }
}

// Returns the first words, if the text has them, followed by ` ..`.
fn first_words_of(alloc: Global, text: &[u8]) -> Result<Option<FirstWords>, AllocError>
    ensures { IfOk result (Finds (λ words. (front : List ℕ) × (text.now ≡ front ++ codes " ..")
        × SpellsFirst front words)) }
{
    let Some(front) = strip_back(text, b" ..") else {
        return Ok(None);
    };
    match read_first_words(alloc, front) {
        Ok(words) => Ok(Some(words)),
        Err(Errno::BadLine) => Ok(None),
        Err(_) => Err(AllocError),
    }
}

fn reply_of(alloc: Global, text: &[u8]) -> Result<Option<Reply>, AllocError>
    ensures { IfOk result (Finds (λ reply. IsReply reply × (text.now ≡ join_with_byte 32 (reply_tokens reply)))) }
{
    let line = ended(alloc, text)?;
    match read_reply(alloc, line.as_slice()) {
        Ok(reply) => Ok(Some(reply)),
        Err(Errno::BadLine) => Ok(None),
        Err(_) => Err(AllocError),
    }
}

/// Returns the expected reply that the text after the sign `=` spells. Errors: memory ran out.
pub fn read_wanted(alloc: Global, text: &[u8]) -> Result<Option<Wanted>, AllocError>
    ensures { IfOk result (Finds (SpellsWanted text.now)) }
{
    if let Some(wanted) = verdict_of(text) {
        return Ok(Some(wanted));
    }
    let words = first_words_of(alloc, text)?;
    if let Some(words) = words {
        return Ok(Some(Wanted::First(words)));
    }
    let reply = reply_of(alloc, text)?;
    match reply {
        Some(reply) => Ok(Some(Wanted::Whole(reply))),
        None => Ok(None),
    }
}

fn push_denied(out: &mut Vec<u8>, right: Right, place: &[u8]) -> Result<(), AllocError>
    ensures { OnOk result (out.new.items ≡ out.old.items ++ (codes "denied " ++ (right_text right ++ place.now))) }
{
    out.extend_from_slice(b"denied ")?;
    out.extend_from_slice(right.text().as_bytes())?;
    out.extend_from_slice(place)
}

/// Appends the line of what is expected. Errors: memory ran out.
pub fn push_wanted(out: &mut Vec<u8>, alloc: Global, wanted: &Wanted) -> Result<(), AllocError>
    ensures { OnOk result (out.new.items ≡ out.old.items ++ (wanted_text wanted.now ++ codes "\n")) }
{
    match wanted {
        Wanted::Success => out.extend_from_slice(b"neither refused nor denied\n"),
        Wanted::Allowed => out.extend_from_slice(b"allowed\n"),
        Wanted::Denied => out.extend_from_slice(b"denied\n"),
        Wanted::DeniedRight(right) => push_denied(out, *right, b"\n"),
        Wanted::DeniedAt(right, Place::At) => push_denied(out, *right, b" at\n"),
        Wanted::DeniedAt(right, Place::Old) => push_denied(out, *right, b" old\n"),
        Wanted::DeniedAt(right, Place::New) => push_denied(out, *right, b" new\n"),
        Wanted::Whole(reply) => {
            let line = reply_line(alloc, reply)?;
            out.extend_from_slice(line.as_bytes())
        }
        Wanted::First(words) => {
            let text = first_words_text(alloc, words)?;
            out.extend_from_slice(text.as_bytes())?;
            out.extend_from_slice(b" ..\n")
        }
    }
}
