//! Prints why nothing is learned from lessons. No contract says how.

use crate::check_text::Test;
use crate::lessons::{FileLessons, lesson_line};
use ll_learn::{Aim, Origin, Unlearned, cut_of, stray_line};
use ll_rights::Right;
use ll_seq::Entry;
use std::alloc::{AllocError, Global};
use std::io::Write;

/// What lessons have taught: those of each file, and the histories of their trees.
#[derive(Clone, Copy)]
pub(crate) struct Taught<'a, 'w> {
    pub lessons: &'a [FileLessons<'w>],
    pub histories: &'a [&'a [Entry]],
}

// Returns what is wrong, and where: in which history, and at which of its entries.
fn words_of(fault: Unlearned, aim: &Aim) -> (usize, Option<usize>, &'static str) {
    match fault {
        Unlearned::NoClient(history) => (history, None, "no client connects"),
        Unlearned::Unlike(history) => (history, None, "its tree isn't as the first file's"),
        Unlearned::Illegal(at) => (at.history, Some(at.entry), "the reply isn't legal"),
        Unlearned::Denied(at) => (at.history, Some(at.entry), "this is denied already"),
        Unlearned::Full(at) => (
            at.history,
            Some(at.entry),
            "behind this there is no room for a layer",
        ),
        Unlearned::Unmet(at) if aim.handled.holds(Right::REFER) => (
            at.history,
            Some(at.entry),
            "no layer that may be learned lets this pass",
        ),
        Unlearned::Unmet(at) => (
            at.history,
            Some(at.entry),
            "no layer of level 1 lets this pass",
        ),
        Unlearned::NoNode(_) => (0, None, "a path of --beneath leads to no node"),
        Unlearned::NoMemory => (0, None, "no memory"),
    }
}

impl<'a> Taught<'a, '_> {
    // Returns the lesson whose call is this entry of this history, and its file's name.
    fn lesson(&self, client: u64, history: usize, entry: usize) -> Option<(&'a str, &'a Test)> {
        let cut = cut_of(self.histories.get(history)?, client)?;
        let number = entry.checked_sub(cut)?.checked_sub(1)?;
        let file = self.lessons.get(history)?;
        let lesson = file.tests.get(number)?;
        Some((file.name, lesson))
    }

    // Returns the line on why nothing is learned.
    fn line(&self, alloc: Global, fault: Unlearned, aim: &Aim) -> Result<String, AllocError> {
        if let Unlearned::NoNode(index) = fault
            && let Some(path) = aim.beneath.get(index)
        {
            return stray_line(alloc, path.as_str());
        }
        let (history, entry, words) = words_of(fault, aim);
        if let Some(entry) = entry
            && let Some((file, lesson)) = self.lesson(aim.client, history, entry)
        {
            let place = lesson_line(alloc, file, lesson)?;
            let place = place.as_str().trim_end();
            return format!(in alloc; "{place}: {words}\n");
        }
        match self.lessons.get(history) {
            Some(file) => {
                let name = file.name;
                format!(in alloc; "{name}: {words}\n")
            }
            None => format!(in alloc; "{words}\n"),
        }
    }

    /// Prints why nothing is learned.
    pub fn tell<E: Write>(&self, alloc: Global, fault: Unlearned, aim: &Aim, err: &mut E) {
        if let Ok(line) = self.line(alloc, fault, aim) {
            let _ = err.write_all(line.as_bytes());
        }
    }
}
