//! The progress of an audit.

/// Receives the progress of an audit.
pub trait Progress {
    /// Called when `done` of `entries` entries are found legal.
    fn tell(&mut self, done: usize, entries: usize);
}

/// Ignores all progress.
#[derive(Clone, Copy, Debug)]
pub struct Untold;

impl Progress for Untold {
    fn tell(&mut self, _done: usize, _entries: usize) {}
}
