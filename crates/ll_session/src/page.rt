//! The next entries of a history, as text.

ghost use Rattle.std.specs.Prelude.{◌≡◌, ◌++◌, OnOk, string_bytes};
ghost use Rattle.ll_wire.specs.Entries.{IsEntry, entry_line};

use crate::ReadsHistory;
use crate::entries::is_entry;
use ll_seq::Entry;
use ll_wire::entry_text;
use std::alloc::{AllocError, Global};

/// A page with this many bytes or more is full.
const BLOCK: usize = 65_536;

/// The lines of some entries of a history: from the first that isn't written yet to the one with which the page is
/// full.
#[derive(Drop)]
pub struct Page {
    pub alloc: Global,
    pub text: String,
    /// The number of entries before the page.
    pub first: usize,
    /// The number of entries up to the page's end.
    pub next: usize,
    /// The number of the history's entries when it was read.
    pub total: usize,
    /// Whether memory ran out for a line.
    pub is_starved: bool,
}

// Appends the line of an entry to the text.
fn push_entry(alloc: Global, entry: &Entry, text: &mut String) -> Result<(), AllocError>
    requires { IsEntry entry.now }
    ensures { OnOk result (string_bytes text.new ≡ string_bytes text.old ++ entry_line entry.now) }
{
    let line = entry_text(alloc, entry)?;
    text.push_str(line.as_str())
}

impl Page {
    ghost use Rattle.std.specs.Prelude.{List, Some, ◌+◌, false, length, slice_get};
    ghost use Rattle.ll_seq.specs.declared.reply.Entry.{Entry};
    ghost use Rattle.ll_session.specs.KeptHistory.{Fills};
    ghost use Rattle.ll_session.specs.declared.page.Page.{Page};

    /// Returns an empty page, before the first entry.
    pub fn new(alloc: Global) -> Page
        ensures { result.first ≡ 0 }
    {
        Page {
            alloc,
            text: String::new(alloc),
            first: 0,
            next: 0,
            total: 0,
            is_starved: false,
        }
    }

    // Empties the page, for a history with this many entries.
    fn begin(&mut self, total: usize)
        ensures fills { (history : List Entry) → length history ≡ total → Fills self.old history self.new }
        ensures next { self.new.next ≡ self.new.first }
        ensures fine { self.new.is_starved ≡ false }
    {
        self.text.clear();
        self.next = self.first;
        self.total = total;
        self.is_starved = false;
    }

    // Adds the line of the next entry, with which there are `next` entries. Errors: memory ran out.
    fn add(&mut self, entry: &Entry, next: usize) -> Result<(), AllocError>
        requires entry { IsEntry entry.now }
        requires next { next ≡ self.old.next + 1 }
        requires fine { self.old.is_starved ≡ false }
        ensures fills { (old : Page) (history : List Entry) → Fills old history self.old
            → slice_get history self.old.next ≡ Some entry.now → Fills old history self.new }
        ensures next { OnOk result (self.new.next ≡ next) }
        ensures fine { OnOk result (self.new.is_starved ≡ false) }
    {
        match push_entry(self.alloc, entry, &mut self.text) {
            Ok(()) => {
                self.next = next;
                Ok(())
            }
            Err(wanted) => {
                self.is_starved = true;
                Err(wanted)
            }
        }
    }
}

impl ReadsHistory for Page {
    ghost use Rattle.ll_session.specs.KeptHistory.{Fills};

    ghost reads = { λ before entries after. Fills before entries after };

    fn read(&mut self, entries: &[Entry]) {
        self.begin(entries.len());
        for index in self.first..entries.len() {
            let Some(entry) = entries.get(index) else {
                return;
            };
            if self.text.len() >= BLOCK {
                return;
            }
            is_entry(entry);
            let Ok(()) = self.add(entry, index + 1) else {
                return;
            };
        }
    }
}
