//! A client that may have a walk under way.

ghost use Rattle.std.specs.Prelude.{◌≡◌};

use crate::Pass;
use crate::account::Account;
use crate::shape::Shape;
use std::marker::Model;

/// A client: its number, its last known entry, and the passes of its account and of its wants. Contracts also see its
/// part of the history, its calls that got NoMemory, and the call of its walk. It can't be dropped.
pub struct Rider<N: Shape> {
    pub(crate) number: u64,
    pub(crate) seen: u64,
    pub(crate) pass: Pass<N, Account>,
    pub(crate) wants: Pass<N, Account>,
}

impl<N: Shape> Model for Rider<N> {
    ghost use Rattle.ll_client.specs.Entries.{Knows, client_entry, coded_knows, doing_in, knows, part_in, starved_in};
    ghost use Rattle.ll_client.specs.Entries.{wants_entry};

    ghost Value = { Knows };

    ghost coded = { coded_knows };

    ghost use Rattle.std.specs.Prelude.{◌≡◌, Some};

    ghost view = { λ me. knows me.number (part_in me.pass) (starved_in me.wants) me.seen (doing_in me.pass) };

    ghost invariant = { λ me. (me.pass ≡ Some (client_entry me.number (part_in me.pass) me.seen (doing_in me.pass)))
        × (me.wants ≡ Some (wants_entry me.number (starved_in me.wants))) };
}

impl<N: Shape> Rider<N> {
    /// Returns the client's number.
    pub fn number(&self) -> u64
        ensures { result ≡ self.now.number }
    {
        self.number
    }

    /// Returns the number of the last entry that the client knows of.
    pub fn seen(&self) -> u64
        ensures { result ≡ self.now.seen }
    {
        self.seen
    }
}
