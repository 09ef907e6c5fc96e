//! Explains one entry of a saved history.

ghost use Rattle.std.specs.Prelude.{◌≡◌, ◌<◌, ◌≤◌, ◌-◌, ◌+◌, ◌^◌, ◌⊎◌, ℕ, true, false, IfOk, MatchOption, length};
ghost use Rattle.std.specs.Prelude.{string_bytes, take};
ghost use Rattle.ll_rights.specs.declared.limits.TheConstants.{TREE_NODES};
ghost use Rattle.ll_seq.specs.History.{IsLegal, MayStand};
ghost use Rattle.ll_wire.specs.Pieces.{pieces};
ghost use Rattle.ll_audit.specs.Saved.{opened};
ghost use Rattle.ll_why.specs.Entries.{IsEntryWhy, IsHistoryWhy, IsStanding, IsTextOf, IsToldOf, IsWhyNot};

use crate::WhyStyle;
use crate::entry::{EntryTold, Standing, answer_at, entry_text, explain_at, standing_line};
use crate::opener::opening_of;
use crate::tree::{open, tree_after};
use ll_audit::{AuditFault, ReadFault, Saved, follow};
use ll_plain::Plain;
use ll_seq::Entry;
use ll_wire::Header;
use std::alloc::{AllocError, Global};

/// The explanation of an entry of a saved history.
#[derive(Drop)]
pub enum HistoryWhy {
    /// Lines for people, or an object of JSON.
    Told(String),
    /// The first malformed line, counted from 1.
    BadLine(usize),
    /// There is no such entry.
    NoEntry,
}

// Returns the number of the entry to explain, and whether it is legal. The tree can't be used afterwards.
fn number_told(
    mut tree: Plain,
    entries: &[Entry],
    wanted: usize,
) -> Result<(usize, bool), AllocError>
    requires next { tree.next + length entries.now < 2 ^ 64 }
    requires first { 1 ≤ wanted }
    requires last { wanted ≤ length entries.now }
    ensures of { IfOk result (λ told. IsToldOf tree entries.now wanted told.0) }
    ensures stands { IfOk result (λ told. told.1 ≡ true → IsLegal tree (take told.0 entries.now)) }
    ensures not { IfOk result (λ told. told.1 ≡ false → IsLegal tree (take told.0 entries.now) → ⊥) }
{
    match follow(&mut tree, &entries[..wanted]) {
        Ok(()) => Ok((wanted, true)),
        Err(AuditFault::Illegal(number)) => Ok((number, false)),
        Err(AuditFault::NoMemory) => Err(AllocError),
    }
}

// Returns whether the entry is legal in the tree's state, and if it isn't, the tree's reply. Changes the tree.
fn standing_at(tree: &mut Plain, entry: &Entry, stands: bool) -> Result<Standing, AllocError>
    requires next { tree.old.next < 2 ^ 64 - 1 }
    requires yes { stands ≡ true → MayStand tree.old entry.now }
    requires no { stands ≡ false → MayStand tree.old entry.now → ⊥ }
    ensures { IfOk result (IsStanding tree.old entry.now) }
{
    if stands {
        Ok(Standing::Stands)
    } else {
        answer_at(tree, entry)
    }
}

// Returns the text on the entry with this number, which is legal or not, as `stands` says.
fn text_of(
    alloc: Global,
    style: WhyStyle,
    header: &Header,
    entries: &[Entry],
    number: usize,
    stands: bool,
) -> Result<String, AllocError>
    requires some { 1 ≤ header.now.nodes }
    requires most { header.now.nodes ≤ TREE_NODES }
    requires first { 1 ≤ number }
    requires last { number ≤ length entries.now }
    requires legal { IsLegal (opened header.now) (take (number - 1) entries.now) }
    requires yes { stands ≡ true → IsLegal (opened header.now) (take number entries.now) }
    requires no { stands ≡ false → IsLegal (opened header.now) (take number entries.now) → ⊥ }
    ensures { IfOk result (λ text. IsTextOf style (opened header.now) entries.now number (string_bytes text)) }
{
    let before = &entries[..number - 1];
    let mut tree = tree_after(alloc, header, before)?;
    let entry = &entries[number - 1];
    let level = header.version.rules().abi;
    let told = explain_at(alloc, &tree, level, entry.client, &entry.call)?;
    let standing = standing_at(&mut tree, entry, stands)?;
    let opening = opening_of(alloc, style, header, before, entry, &told)?;
    let it = EntryTold {
        number,
        entry,
        standing: &standing,
        told: &told,
    };
    entry_text(alloc, style, &it, opening.as_str())
}

/// Explains the entry with this number, counted from 1, in the history of a tree created with this header. Gives its
/// client, its call and its reply, and why policy allows or denies the call, with the least change that would allow it.
/// For a call that a descriptor decides, also explains the descriptor's opening. For an entry that isn't legal, also
/// gives the tree's reply. If an earlier entry isn't legal, explains the first such one. None if there is no entry with
/// this number. Errors: memory ran out.
pub fn explain_entry(
    alloc: Global,
    style: WhyStyle,
    header: &Header,
    entries: &[Entry],
    wanted: usize,
) -> Result<Option<String>, AllocError>
    requires some { 1 ≤ header.now.nodes }
    requires most { header.now.nodes ≤ TREE_NODES }
    ensures { IfOk result (λ told. MatchOption told ((wanted ≡ 0) ⊎ (length entries.now < wanted))
        (λ text. IsEntryWhy style (opened header.now) entries.now wanted (string_bytes text))) }
{
    if wanted == 0 || wanted > entries.len() {
        return Ok(None);
    }
    let tree = open(alloc, header)?;
    let (number, stands) = number_told(tree, entries, wanted)?;
    let text = text_of(alloc, style, header, entries, number, stands)?;
    Ok(Some(text))
}

// Returns the line on why the entry with this number isn't legal.
fn line_of(
    alloc: Global,
    header: &Header,
    entries: &[Entry],
    number: usize,
) -> Result<String, AllocError>
    requires some { 1 ≤ header.now.nodes }
    requires most { header.now.nodes ≤ TREE_NODES }
    requires first { 1 ≤ number }
    requires last { number ≤ length entries.now }
    requires legal { IsLegal (opened header.now) (take (number - 1) entries.now) }
    requires no { IsLegal (opened header.now) (take number entries.now) → ⊥ }
    ensures { IfOk result (λ line. IsWhyNot (opened header.now) entries.now number (string_bytes line)) }
{
    let mut tree = tree_after(alloc, header, &entries[..number - 1])?;
    let wrong = &entries[number - 1];
    let standing = answer_at(&mut tree, wrong)?;
    standing_line(alloc, wrong, &standing)
}

/// Returns the line on why the first illegal entry isn't legal: its client doesn't exist, or exists already, or the
/// tree's reply is another. Checks the entries of a tree created with this header, up to the one with this number,
/// counted from 1. None if all of them are legal, or there is no entry with this number. Errors: memory ran out.
pub fn why_not(
    alloc: Global,
    header: &Header,
    entries: &[Entry],
    wanted: usize,
) -> Result<Option<String>, AllocError>
    requires some { 1 ≤ header.now.nodes }
    requires most { header.now.nodes ≤ TREE_NODES }
    ensures { IfOk result (λ told. MatchOption told
        ((wanted ≡ 0) ⊎ (length entries.now < wanted) ⊎ IsLegal (opened header.now) (take wanted entries.now))
        (λ line. (number : ℕ) × IsToldOf (opened header.now) entries.now wanted number
        × IsWhyNot (opened header.now) entries.now number (string_bytes line))) }
{
    if wanted == 0 || wanted > entries.len() {
        return Ok(None);
    }
    let tree = open(alloc, header)?;
    let (number, stands) = number_told(tree, entries, wanted)?;
    if stands {
        return Ok(None);
    }
    let line = line_of(alloc, header, entries, number)?;
    Ok(Some(line))
}

/// Explains the entry with this number, counted from 1, of the saved history in these bytes, as `explain_entry` does.
/// Errors: memory ran out.
pub fn why_entry(
    alloc: Global,
    style: WhyStyle,
    bytes: &[u8],
    wanted: usize,
) -> Result<HistoryWhy, AllocError>
    ensures { IfOk result (IsHistoryWhy style (pieces bytes.now) wanted) }
{
    let saved = match Saved::read(alloc, bytes) {
        Ok(saved) => saved,
        Err(ReadFault::BadLine(line)) => return Ok(HistoryWhy::BadLine(line)),
        Err(ReadFault::NoMemory) => return Err(AllocError),
    };
    match explain_entry(
        alloc,
        style,
        &saved.header,
        saved.entries.as_slice(),
        wanted,
    )? {
        Some(text) => Ok(HistoryWhy::Told(text)),
        None => Ok(HistoryWhy::NoEntry),
    }
}
