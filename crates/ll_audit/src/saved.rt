//! Reads history files.

ghost use Rattle.std.specs.Prelude.{◌≡◌, ◌≤◌, ◌+◌, ◌++◌, ◌∷◌, [], ℕ, List, length, IfOk, IfErr, OnOk};
ghost use Rattle.ll_rights.specs.declared.limits.TheConstants.{TREE_NODES};
ghost use Rattle.ll_seq.specs.declared.reply.Entry as entries;
ghost use Rattle.ll_wire.specs.Entries.{SpellsEntry};
ghost use Rattle.ll_wire.specs.Pieces.{pieces};
ghost use Rattle.ll_wire.specs.declared.header.Header as headers;
ghost use Rattle.ll_audit.specs.Saved.{IsFirstBad, Tell};
ghost use Rattle.ll_audit.specs.declared.saved.ReadFault.{ReadFault};

use ll_rights::Errno;
use ll_seq::Entry;
use ll_wire::{Header, read_entry, read_header, split_line};
use std::alloc::Global;
use thiserror::Error;

/// The contents of a history file.
#[derive(Drop)]
pub struct Saved {
    pub header: Header,
    pub entries: Vec<Entry>,
    ghost some: { 1 ≤ header.nodes },
    ghost most: { header.nodes ≤ TREE_NODES },
}

/// Why a file holds no history.
#[derive(Clone, Copy, Debug, PartialEq, Eq, Error)]
pub enum ReadFault {
    /// The first malformed line, counted from 1.
    #[error("bad line {0}")]
    BadLine(usize),
    #[error("no memory for the entries")]
    NoMemory,
}

// Parses the entry in the line of this number.
fn entry_of(alloc: Global, line: &[u8], number: usize) -> Result<Entry, ReadFault>
    ensures ok { IfOk result (λ e. SpellsEntry line.now e) }
    ensures bad { IfErr result (λ fault. (k : ℕ) → fault ≡ ReadFault.BadLine k
        → (k ≡ number) × ((e : entries.Entry) → SpellsEntry line.now e → ⊥)) }
    ensures starved { IfErr result (λ fault. fault ≡ ReadFault.NoMemory → (e : entries.Entry)
        × SpellsEntry line.now e) }
{
    match read_entry(alloc, line) {
        Ok(entry) => Ok(entry),
        Err(Errno::BadLine) => Err(ReadFault::BadLine(number)),
        Err(_) => Err(ReadFault::NoMemory),
    }
}

// Parses a line and appends its entry.
fn take(told: &mut Vec<Entry>, alloc: Global, line: &[u8]) -> Result<(), ReadFault>
    ensures ok { OnOk result ((e : entries.Entry) × SpellsEntry line.now e
        × (told.new.items ≡ told.old.items ++ e ∷ [])) }
    ensures bad { IfErr result (λ fault. (k : ℕ) → fault ≡ ReadFault.BadLine k
        → (k ≡ length told.old.items + 2) × ((e : entries.Entry) → SpellsEntry line.now e → ⊥)) }
    ensures starved { IfErr result (λ fault. fault ≡ ReadFault.NoMemory → (e : entries.Entry)
        × SpellsEntry line.now e) }
{
    let entry = entry_of(alloc, line, told.len() + 2)?;
    match told.push(entry) {
        Ok(()) => Ok(()),
        Err(refused) => {
            drop(refused);
            Err(ReadFault::NoMemory)
        }
    }
}

impl Saved {
    /// Parses a file's bytes. Errors: the first malformed line, or memory ran out.
    pub fn read(alloc: Global, bytes: &[u8]) -> Result<Saved, ReadFault>
        ensures told { IfOk result (λ saved. Tell (pieces bytes.now) saved.header saved.entries.items) }
        ensures bad { IfErr result (λ fault. (k : ℕ) → fault ≡ ReadFault.BadLine k → IsFirstBad (pieces bytes.now) k) }
        // Memory runs out only for entries.
        ensures starved { IfErr result (λ fault. fault ≡ ReadFault.NoMemory
            → (h : headers.Header) × (es : List entries.Entry) × (front back : List (List ℕ))
            × (pieces bytes.now ≡ front ++ back) × Tell front h es × (1 ≤ length es)) }
    {
        if bytes.is_empty() {
            return Err(ReadFault::BadLine(1));
        }
        let (first, mut rest) = split_line(bytes);
        let Some(header) = read_header(first) else {
            return Err(ReadFault::BadLine(1));
        };
        let mut entries = Vec::new(alloc);
        while !rest.is_empty() {
            let (line, more) = split_line(rest);
            if let Err(fault) = take(&mut entries, alloc, line) {
                return Err(fault);
            }
            rest = more;
        }
        Ok(Saved { header, entries })
    }
}
