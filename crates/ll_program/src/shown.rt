//! Progress, for people.

use ll_audit::Progress;
use std::io::Write;

/// Progress is shown for at least this many entries.
const MANY: usize = 100_000;

/// Shows the progress of an audit of many entries, if somebody watches: a line for each tenth.
#[derive(Drop)]
pub struct Shown<W> {
    out: W,
    is_watched: bool,
    // The number of tenths shown.
    shown: usize,
}

impl<W: Write> Shown<W> {
    pub fn new(out: W, is_watched: bool) -> Self {
        Shown {
            out,
            is_watched,
            shown: 0,
        }
    }
}

impl<W: Write> Progress for Shown<W> {
    fn tell(&mut self, done: usize, entries: usize) {
        if !self.is_watched || entries < MANY {
            return;
        }
        let tenths = done / (entries / 10);
        if tenths != self.shown {
            self.shown = tenths;
            let _ = writeln!(self.out, "{done} of {entries} entries");
        }
    }
}
