//! A history's file, written while the history grows.

ghost use Rattle.std.specs.Prelude.{◌≡◌, OnErr, OnOk, false, true, string_bytes};
ghost use Rattle.std.specs.Io.KnownBytes.{Appends};
ghost use Rattle.ll_wire.specs.WriterGains.{AppendsFront};
ghost use Rattle.ll_session.specs.KeptHistory.{AreKept, kept_of};

use crate::keeper::{Keeps, Kept};
use crate::page::Page;
use crate::{Gate, Party, Tree};
use ll_client::Shape;
use ll_wire::{Broken, Pair, write_out};
use std::alloc::Global;
use std::io::{Write, empty};
use std::sync::{Mutex, Wait};

/// A device that the lines of entries are written to, page after page.
#[derive(Drop)]
pub struct Pages<W> {
    pub writer: W,
    pub page: Page,
    pub is_broken: bool,
}

/// A device that the entries of a history are written to as they are made, a line each. Everybody who makes entries
/// shares it. It isn't called again after it failed, nor after memory ran out for a line.
#[derive(Drop)]
pub struct Chronicle<W> {
    pages: Mutex<Pages<W>>,
}

// Writes the whole text. Doesn't retry after a failure.
fn write_text<W: Write>(writer: &mut W, text: &str) -> Result<(), Broken>
    ensures ok { OnOk result (Appends (W.contents writer.old) (W.contents writer.new) text.now) }
    ensures err { OnErr result (AppendsFront (W.contents writer.old) (W.contents writer.new) text.now) }
{
    let mut nothing = empty();
    let mut ends = Pair::new(&mut nothing, writer, false);
    write_out(&mut ends, text.as_bytes())
}

impl<W: Write> Pages<W> {
    ghost use Rattle.std.specs.Prelude.{List, ℕ, IsTrue, ◌<◌, ◌≤◌, length};
    ghost use Rattle.ll_seq.specs.declared.reply.Entry.{Entry};
    ghost use Rattle.ll_session.specs.Talk.{seen_by};
    ghost use Rattle.ll_session.specs.KeptHistory.{Turns};

    // Returns how much of the history is kept.
    fn kept(&self) -> Kept
        ensures { result ≡ kept_of self.now }
    {
        if self.is_broken {
            return Kept::Nowhere;
        }
        Kept::UpTo(self.page.first)
    }

    // Writes the page. The count of written entries grows only if all of it was written.
    fn write_page(&mut self)
        requires { self.old.is_broken ≡ false }
        ensures ok { self.new.is_broken ≡ false → Appends (W.contents self.old.writer) (W.contents self.new.writer)
            (string_bytes self.old.page.text) }
        ensures first { self.new.is_broken ≡ false → self.new.page.first ≡ self.old.page.next }
        ensures err { self.new.is_broken ≡ true → AppendsFront (W.contents self.old.writer)
            (W.contents self.new.writer) (string_bytes self.old.page.text) }
        ensures stays { self.new.is_broken ≡ true → self.new.page.first ≡ self.old.page.first }
        ensures total { self.new.page.total ≡ self.old.page.total }
    {
        match write_text(&mut self.writer, self.page.text.as_str()) {
            Ok(()) => self.page.first = self.page.next,
            Err(_) => self.is_broken = true,
        }
    }

    // Reads the next page of the tree's history, and writes it. Returns whether it was the last, or can't be written.
    fn turn<N: Shape, R: Wait, G: Gate<N>>(
        &mut self,
        rt: &R,
        tree: &Tree<N, G>,
        party: &mut Party<N>,
    ) -> bool
        requires whole { self.old.is_broken ≡ false }
        requires some { 0 < length party.old }
        ensures turns { (history : List Entry) × (seen_by party.old ≤ length history)
            × Turns W.contents self.old history self.new }
        ensures kept { IsTrue result → AreKept (kept_of self.new) party.old }
        ensures whole { result ≡ false → self.new.is_broken ≡ false }
        ensures same { party.new ≡ party.old }
    {
        party.read_history(rt, tree, &mut self.page);
        if self.page.is_starved {
            self.is_broken = true;
            return true;
        }
        self.write_page();
        if self.page.first < self.page.total {
            return self.is_broken;
        }
        true
    }

    // Writes all entries that any of these clients knows of, page after page.
    fn write_up<N: Shape, R: Wait, G: Gate<N>>(
        &mut self,
        rt: &R,
        tree: &Tree<N, G>,
        party: &mut Party<N>,
    )
        ensures kept { AreKept (kept_of self.new) party.old }
        ensures same { party.new ≡ party.old }
    {
        if self.is_broken {
            return;
        }
        if party.len() == 0 {
            return;
        }
        for _ in rt.forever() {
            if self.turn(rt, tree, party) {
                return;
            }
        }
        unreachable!()
    }

    // Writes those entries too. Returns how much of the history is kept then.
    fn keep<N: Shape, R: Wait, G: Gate<N>>(
        &mut self,
        rt: &R,
        tree: &Tree<N, G>,
        party: &mut Party<N>,
    ) -> Kept
        ensures kept { AreKept result party.old }
        ensures is { result ≡ kept_of self.new }
        ensures same { party.new ≡ party.old }
    {
        self.write_up(rt, tree, party);
        self.kept()
    }
}

impl<W: Write> Chronicle<W> {
    /// Returns a chronicle without entries. Its header must be written already.
    pub fn new(alloc: Global, writer: W) -> Chronicle<W> {
        Chronicle {
            pages: Mutex::new(Pages {
                writer,
                page: Page::new(alloc),
                is_broken: false,
            }),
        }
    }

    /// Returns the device, and whether it failed or memory ran out.
    pub fn into_parts(self) -> (W, bool) {
        let Chronicle { pages } = self;
        let Pages {
            writer,
            is_broken,
            ..
        } = pages.into_inner();
        (writer, is_broken)
    }
}

impl<W: Write> Keeps for Chronicle<W> {
    fn keep<N: Shape, R: Wait, G: Gate<N>>(
        &self,
        rt: &R,
        tree: &Tree<N, G>,
        party: &mut Party<N>,
    ) -> Kept {
        let mut guard = self.pages.lock(rt);
        let pages = &mut *guard;
        pages.keep(rt, tree, party)
    }
}
