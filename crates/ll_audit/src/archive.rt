//! Saves histories.

ghost use Rattle.std.specs.Prelude.{◌≡◌, ◌<◌, ◌≤◌, ◌++◌, ℕ, List, true, false, length, IfErr, OnOk, OnErr};
ghost use Rattle.std.specs.Prelude.{string_bytes, IfSome};
ghost use Rattle.std.specs.List.{All};
ghost use Rattle.std.specs.Io.KnownBytes.{Appends};
ghost use Rattle.ll_rights.specs.declared.limits.TheConstants.{TREE_NODES};
ghost use Rattle.ll_wire.specs.Entries.{IsEntry, entry_line, header_tokens};
ghost use Rattle.ll_wire.specs.Grammar.{line_of};
ghost use Rattle.ll_audit.specs.Faults.{BlamesSave};
ghost use Rattle.ll_audit.specs.Saved.{saved_text};
ghost use Rattle.ll_wire.specs.WriterGains.{AppendsFront};

use ll_seq::Entry;
use ll_wire::{Broken, Destination, Ends, Header, Pair, entry_text, header_text, write_out};
use std::alloc::{AllocError, Global};
use std::io;
use std::io::{Write, empty};
use thiserror::Error;

/// The waiting text is written when it has this many bytes or more.
const BLOCK: usize = 65_536;

/// Why a history isn't saved.
#[derive(Clone, Copy, Debug, PartialEq, Eq, Error)]
pub enum SaveFault {
    #[error("the history can't be written")]
    Write,
    #[error("no memory for the history's text")]
    NoMemory,
}

impl SaveFault {
    // Classifies the error of creating a draft, or of replacing the file with it.
    fn of(error: &io::Error) -> SaveFault {
        match error.kind() {
            io::ErrorKind::OutOfMemory => SaveFault::NoMemory,
            _ => SaveFault::Write,
        }
    }
}

// Appends the entry's line to the text.
fn push_entry(alloc: Global, entry: &Entry, text: &mut String) -> Result<(), AllocError>
    requires { IsEntry entry.now }
    ensures { OnOk result (string_bytes text.new ≡ string_bytes text.old ++ entry_line entry.now) }
{
    let line = entry_text(alloc, entry)?;
    text.push_str(line.as_str())
}

// Writes and empties the text if it is long.
fn write_block<E: Ends>(text: &mut String, ends: &mut E) -> Result<(), Broken>
    requires { (E.devices ends.old).is_output_broken ≡ false }
    ensures ok { OnOk result ((front : List ℕ) × (string_bytes text.old ≡ front ++ string_bytes text.new)
        × Appends (E.devices ends.old).contents (E.devices ends.new).contents front) }
    ensures short { OnOk result (length (string_bytes text.new) < 65536) }
    ensures whole { OnOk result ((E.devices ends.new).is_output_broken ≡ false) }
    ensures err { OnErr result (AppendsFront (E.devices ends.old).contents (E.devices ends.new).contents
        (string_bytes text.old)) }
    ensures broken { OnErr result ((E.devices ends.new).is_output_broken ≡ true) }
    ensures same { E.names ends.new ≡ E.names ends.old }
{
    if text.len() < BLOCK {
        return Ok(());
    }
    write_out(ends, text.as_str().as_bytes())?;
    text.clear();
    Ok(())
}

/// Writes a history file. Doesn't use the device again after it failed. Errors: the device failed, or memory ran out; a
/// prefix of the text may be written.
pub fn save_over<E: Ends>(
    alloc: Global,
    header: Header,
    entries: &[Entry],
    ends: &mut E,
) -> Result<(), SaveFault>
    requires some { 1 ≤ header.nodes }
    requires most { header.nodes ≤ TREE_NODES }
    requires entries { All IsEntry entries.now }
    requires whole { (E.devices ends.old).is_output_broken ≡ false }
    ensures ok { OnOk result (Appends (E.devices ends.old).contents (E.devices ends.new).contents
        (saved_text header entries.now)) }
    // After a fault, what was written is a prefix of that text.
    ensures err { OnErr result (AppendsFront (E.devices ends.old).contents (E.devices ends.new).contents
        (saved_text header entries.now)) }
    // A fault names the device only if it failed in this call.
    ensures fault { IfErr result (λ fault. BlamesSave fault (E.devices ends.new)) }
    ensures same { E.names ends.new ≡ E.names ends.old }
{
    let Ok(mut text) = header_text(alloc, header) else {
        return Err(SaveFault::NoMemory);
    };
    for entry in entries {
        let Ok(()) = push_entry(alloc, entry, &mut text) else {
            return Err(SaveFault::NoMemory);
        };
        let Ok(()) = write_block(&mut text, ends) else {
            return Err(SaveFault::Write);
        };
    }
    match write_out(ends, text.as_str().as_bytes()) {
        Ok(()) => Ok(()),
        Err(_) => Err(SaveFault::Write),
    }
}

/// Writes a history file: its header, and a line for each entry. Errors: the writer failed, or memory ran out; a prefix
/// of the text may be written.
pub fn save<W: Write>(
    alloc: Global,
    header: Header,
    entries: &[Entry],
    writer: &mut W,
) -> Result<(), SaveFault>
    requires some { 1 ≤ header.nodes }
    requires most { header.nodes ≤ TREE_NODES }
    requires entries { All IsEntry entries.now }
    ensures ok { OnOk result
        (Appends (W.contents writer.old) (W.contents writer.new) (saved_text header entries.now)) }
    // After a fault, what was written is a prefix of that text.
    ensures err { OnErr result
        (AppendsFront (W.contents writer.old) (W.contents writer.new) (saved_text header entries.now)) }
{
    let mut nothing = empty();
    let mut ends = Pair::new(&mut nothing, writer, false);
    save_over(alloc, header, entries, &mut ends)
}

/// Replaces the destination with the history: its header, and a line for each entry. Errors: the destination is
/// unchanged.
pub fn save_in<D: Destination>(
    alloc: Global,
    header: Header,
    entries: &[Entry],
    destination: &mut D,
) -> Result<(), SaveFault>
    requires some { 1 ≤ header.nodes }
    requires most { header.nodes ≤ TREE_NODES }
    requires entries { All IsEntry entries.now }
    ensures ok { OnOk result
        (Appends (D.blank destination.old) (D.contents destination.new) (saved_text header entries.now)) }
    ensures err { OnErr result (D.contents destination.new ≡ D.contents destination.old) }
{
    let mut draft = match destination.draft() {
        Ok(draft) => draft,
        Err(error) => return Err(SaveFault::of(&error)),
    };
    if let Err(fault) = save(alloc, header, entries, &mut draft) {
        destination.remove(draft);
        return Err(fault);
    }
    match destination.put(draft) {
        Ok(()) => Ok(()),
        Err(error) => Err(SaveFault::of(&error)),
    }
}

/// Creates the draft of a history that grows with every call, and writes its header. None if there is no draft.
pub fn record_in<D: Destination>(
    alloc: Global,
    header: Header,
    destination: &mut D,
) -> Option<D::Draft>
    requires some { 1 ≤ header.nodes }
    requires most { header.nodes ≤ TREE_NODES }
    ensures begun { IfSome result (λ draft.
        Appends (D.blank destination.old) (D.Draft.contents draft) (line_of (header_tokens header))) }
    ensures same { D.contents destination.new ≡ D.contents destination.old }
    ensures again { D.blank destination.new ≡ D.blank destination.old }
{
    match header_text(alloc, header) {
        Ok(head) => destination.record(head.as_str().as_bytes()),
        Err(_) => None,
    }
}
