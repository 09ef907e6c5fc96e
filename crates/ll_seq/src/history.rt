//! Histories.

ghost use Rattle.std.specs.Prelude.{◌≡◌, ◌<◌, ◌≤◌, [], ◌∷◌, ◌++◌, length, nat_le, IfOk};

use crate::reply::Entry;
use ll_rights::limits::HISTORY_ENTRIES;
use std::alloc::{AllocError, Global};
use std::marker::Model;

/// Entries in order, and how many there may be. All room is reserved at the start, so adding an entry takes no memory.
/// Contracts see the list of entries, and the limit.
#[derive(Drop)]
pub struct History {
    entries: Vec<Entry>,
    limit: usize,
}

impl Model for History {
    ghost use Rattle.std.specs.Prelude.{◌≤◌, length};
    ghost use Rattle.std.specs.Vec.{vec_capacity};
    ghost use Rattle.ll_rights.specs.declared.limits.TheConstants.{HISTORY_ENTRIES};
    ghost use Rattle.ll_seq.specs.History.{Log};

    ghost Value = { Log };

    ghost view = { λ history. record { entries = history.entries.items; limit = history.limit } };

    ghost invariant = { λ history. (length history.entries.items ≤ history.limit)
        × (history.limit ≤ vec_capacity history.entries) × (history.limit ≤ HISTORY_ENTRIES) };
}

impl History {
    /// Returns an empty history with room for `limit` entries. Errors: memory ran out.
    pub fn new(alloc: Global, limit: usize) -> Result<History, AllocError>
        requires some { 1 ≤ limit }
        requires most { limit ≤ HISTORY_ENTRIES }
        ensures { IfOk result (λ history. history ≡ record { entries = []; limit = limit }) }
    {
        let entries = Vec::with_capacity(alloc, limit)?;
        Ok(History { entries, limit })
    }

    /// Reports whether the history is full.
    pub fn is_full(&self) -> bool
        ensures { result ≡ nat_le self.now.limit (length self.now.entries) }
    {
        self.limit <= self.entries.len()
    }

    pub fn entries(&self) -> &[Entry]
        ensures entries { result.now ≡ self.now.entries }
        ensures within { length self.now.entries ≤ self.now.limit }
        ensures most { self.now.limit ≤ HISTORY_ENTRIES }
    {
        &self.entries
    }

    /// Appends an entry. Takes no memory.
    pub fn push(&mut self, entry: Entry)
        requires { length self.old.entries < self.old.limit }
        ensures { self.new ≡ record self.old { entries = self.old.entries ++ entry ∷ [] } }
    {
        self.entries.push_reserved(entry);
    }
}
