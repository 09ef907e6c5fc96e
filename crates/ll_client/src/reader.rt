//! Readers of the history.

ghost use Rattle.std.specs.Prelude.{List};
ghost use Rattle.ll_seq.specs.History.{IsLegal};
ghost use Rattle.ll_seq.specs.State.{State};
ghost use Rattle.ll_seq.specs.declared.reply.Entry.{Entry};

use ll_seq::Entry;

/// Reads the history while the journal's lock is held. It can make no step.
pub trait ReadsHistory {
    /// The relation of the reader before, the entries (all of the history), and the reader after.
    ghost reads: { Self → List Entry → Self → Type 0 };

    /// Reads the entries.
    fn read(&mut self, entries: &[Entry])
        requires legal { (empty : State) × IsLegal empty entries.now }
        ensures read { reads self.old entries.now self.new };
}
