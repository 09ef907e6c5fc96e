//! The entries of a history that a tree has made.

ghost use Rattle.std.specs.Prelude.{◌≡◌, All};
ghost use Rattle.ll_seq.specs.History.{IsLegal, outcome_of};
ghost use Rattle.ll_seq.specs.State.{State};
ghost use Rattle.ll_wire.specs.Entries.{IsEntry};

use ll_seq::{Entry, History};
use ll_wire::{is_entered, is_spelled};

/// Does nothing when it runs. Its contract: an entry with these types, made by a step, has a spelling.
pub(crate) fn is_entry(entry: &Entry)
    requires { (state : State) × ((outcome_of state entry.now).0 ≡ entry.now.reply) }
    ensures { IsEntry entry.now }
{
    let _client = entry.client;
    entry.reply.by_type();
    is_spelled(&entry.call);
    is_entered(&entry.reply);
}

/// Does nothing when it runs. Its contract: each entry of a legal history has a spelling.
pub fn are_entries(history: &History)
    requires { (empty : State) × IsLegal empty history.now.entries }
    ensures { All IsEntry history.now.entries }
{
    for entry in history.entries() {
        is_entry(entry);
    }
}
