//! What a saved history teaches: the text of a profile, or why there is none.

ghost use Rattle.std.specs.Prelude.{◌≡◌, ℕ, List, IfOk, string_bytes};
ghost use Rattle.ll_wire.specs.Pieces.{pieces};
ghost use Rattle.ll_audit.specs.Saved.{Tell};
ghost use Rattle.ll_learn.specs.SavedLesson.{IsLearnedBy, IsTold, Teaches, client_among, connected, entry_in};
ghost use Rattle.ll_learn.specs.SavedLesson.{entry_note, line_in, reason, stray_line, words_on};

use crate::fault::Unlearned;
use crate::learned::{Aim, learn};
use crate::needs::Origin;
use crate::preface::cut_of;
use crate::profile::{LearnedProfile, Notes};
use ll_audit::{ReadFault, Saved};
use ll_path::Path;
use ll_rights::Access;
use ll_seq::Entry;
use ll_why::{call_line, concat};
use std::alloc::{AllocError, Global};

/// What is to be learned from a saved history.
#[derive(Drop)]
pub struct SavedLesson<'a> {
    /// The client that the layer is for. By default it is the second that connects, or the only one.
    pub client: Option<u64>,
    /// The rights that no rule may have.
    pub never: Access,
    /// Nodes whose rules take what is needed below them.
    pub beneath: &'a [Path],
    /// The most rules.
    pub most: usize,
    /// The profile's name.
    pub name: &'a str,
}

/// The result of learning from a history.
#[derive(Drop)]
pub enum Learned {
    /// The profile's text.
    Profile(String),
    /// The first malformed line of the history, counted from 1.
    BadLine(usize),
    Nothing(Unlearned),
    /// The profile would have this many rules, which is too many.
    Many(usize),
}

// The comments on the entries of a history after a cut.
#[derive(Drop)]
struct EntryNotes<'a> {
    entries: &'a [Entry],
    cut: usize,
}

impl Notes for EntryNotes<'_> {
    ghost note = { λ notes origin. entry_note notes.cut notes.entries.now origin };

    fn line(&self, alloc: Global, entry: Origin) -> Result<String, AllocError> {
        let number = self.cut.saturating_add(entry.entry);
        let Some(told) = self.entries.get(number.saturating_sub(1)) else {
            return String::from_str(alloc, "\n");
        };
        let number = number.to_string(alloc)?;
        let call = call_line(alloc, &told.call)?;
        concat(alloc, &["entry ", number.as_str(), ": ", call.as_str()])
    }
}

// Returns the client that is learned for by default: the second that connects, or else the first.
fn client_of(entries: &[Entry]) -> u64
    ensures { result ≡ client_among (connected entries.now) }
{
    let mut first = None;
    for entry in entries {
        if entry.call.is_connect() {
            if first.is_some() {
                return entry.client;
            }
            first = Some(entry.client);
        }
    }
    first.unwrap_or(1)
}

impl SavedLesson<'_> {
    // Returns the result for the profile that is learned after this many entries.
    fn told(
        &self,
        alloc: Global,
        entries: &[Entry],
        cut: usize,
        profile: &LearnedProfile,
    ) -> Result<Learned, AllocError>
        ensures { IfOk result (IsTold self.now entries.now cut profile.now) }
    {
        let rules = profile.rules.len();
        if rules > self.most {
            return Ok(Learned::Many(rules));
        }
        let notes = EntryNotes { entries, cut };
        let text = profile.text(alloc, &notes, self.name)?;
        Ok(Learned::Profile(text))
    }

    // Returns what the history teaches with this aim.
    fn learned_for(&self, alloc: Global, saved: &Saved, aim: &Aim) -> Result<Learned, AllocError>
        ensures { IfOk result (λ learned. (text : List ℕ)
            → Teaches self.now text saved.now.header saved.now.entries.items aim.now
            → IsLearnedBy self.now text learned) }
    {
        let entries = saved.entries.as_slice();
        let Some(cut) = cut_of(entries, aim.client) else {
            return Ok(Learned::Nothing(Unlearned::NoClient(0)));
        };
        match learn(alloc, &saved.header, &[entries], aim) {
            Ok(profile) => self.told(alloc, entries, cut, &profile),
            Err(Unlearned::NoMemory) => Err(AllocError),
            Err(fault) => Ok(Learned::Nothing(fault)),
        }
    }

    // Returns what the history teaches.
    fn learned_of(&self, alloc: Global, saved: &Saved) -> Result<Learned, AllocError>
        ensures { IfOk result (λ learned. (text : List ℕ)
            → Tell (pieces text) saved.now.header saved.now.entries.items → IsLearnedBy self.now text learned) }
    {
        let second = client_of(saved.entries.as_slice());
        let aim = Aim {
            client: self.client.unwrap_or(second),
            handled: Access::known(saved.header.version.rules().abi),
            never: self.never,
            beneath: self.beneath,
        };
        self.learned_for(alloc, saved, &aim)
    }

    /// Returns what the text of a saved history teaches. Errors: memory ran out.
    pub fn learned(&self, alloc: Global, history: &[u8]) -> Result<Learned, AllocError>
        ensures { IfOk result (IsLearnedBy self.now history.now) }
    {
        match Saved::read(alloc, history) {
            Ok(saved) => self.learned_of(alloc, &saved),
            Err(ReadFault::BadLine(line)) => Ok(Learned::BadLine(line)),
            Err(ReadFault::NoMemory) => Err(AllocError),
        }
    }
}

/// Returns the line on a path of the words that leads to no node. Errors: memory ran out.
pub fn stray_line(alloc: Global, path: &str) -> Result<String, AllocError>
    ensures { IfOk result (λ line. string_bytes line ≡ stray_line path.now) }
{
    concat(alloc, &["--beneath ", path, ": no such node\n"])
}

impl Unlearned {
    // Returns the number of the entry at fault, if there is one.
    fn entry(self) -> Option<usize>
        ensures { result ≡ entry_in self }
    {
        match self {
            Unlearned::Illegal(at)
            | Unlearned::Denied(at)
            | Unlearned::Full(at)
            | Unlearned::Unmet(at) => Some(at.entry),
            Unlearned::NoClient(_)
            | Unlearned::Unlike(_)
            | Unlearned::NoNode(_)
            | Unlearned::NoMemory => None,
        }
    }

    fn words(self) -> &'static str
        ensures { result.now ≡ words_on self }
    {
        match self {
            Unlearned::NoClient(_) => "no such client connects",
            Unlearned::Unlike(_) => "it begins in another way",
            Unlearned::Illegal(_) => "the entry isn't legal",
            Unlearned::Denied(_) => "the call is denied already",
            Unlearned::Full(_) => "behind it the client has no room for a layer",
            Unlearned::Unmet(_) => "no layer that may be learned lets the call pass",
            Unlearned::NoNode(_) => "a path leads to no node",
            Unlearned::NoMemory => "no memory",
        }
    }

    /// Returns the number of the saved history's line at fault, if there is one. The header is line 1.
    pub fn line(self) -> Option<usize>
        ensures { result ≡ line_in self }
    {
        self.entry().map(|entry| entry.saturating_add(1))
    }

    /// Returns what is wrong with the saved history, in words. Errors: memory ran out.
    pub fn text(self, alloc: Global) -> Result<String, AllocError>
        ensures { IfOk result (λ text. string_bytes text ≡ reason self) }
    {
        let Some(entry) = self.entry() else {
            return String::from_str(alloc, self.words());
        };
        let number = entry.to_string(alloc)?;
        concat(alloc, &["entry ", number.as_str(), ": ", self.words()])
    }
}
