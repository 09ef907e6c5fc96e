//! What the journal's lock guards.

use crate::Keeper;
use crate::account::Account;
use crate::lent::Lent;
use crate::shape::Shape;
use ll_journal::Journal;
use std::marker::Model;

/// The journal, and the keeper of the passes that are out. Contracts see it as the journal.
#[derive(Drop)]
pub struct Desk<N: Shape> {
    pub(crate) journal: Journal,
    pub(crate) keeper: Keeper<N, Account>,
    pub(crate) lent: Lent,
}

impl<N: Shape> Model for Desk<N> {
    ghost use Rattle.ll_journal.specs.Book.{Book};
    ghost use Rattle.ll_journal.specs.SeatCodes.{coded_book};

    ghost Value = { Book };

    ghost coded = { coded_book };

    ghost use Rattle.ll_client.specs.Entries.{IsDesk};

    ghost view = { λ desk. desk.journal };

    ghost invariant = { λ desk. IsDesk N.slots N.limit N.rules desk.journal desk.keeper };
}

impl<N: Shape> Desk<N> {
    ghost use Rattle.std.specs.Prelude.{◌≡◌, ◌≤◌, ◌+◌, length};
    ghost use Rattle.ll_rights.specs.declared.limits.TheConstants.{TREE_CLIENTS};
    ghost use Rattle.ll_seq.specs.History.{IsLegal};
    ghost use Rattle.ll_seq.specs.State.{start};
    ghost use Rattle.ll_laws.specs.Walks.{AreApart, AreFew, AreValid, GateIsHeld};
    ghost use Rattle.ll_client.specs.Entries.{AreInOrder};
    ghost use Rattle.ll_journal.specs.SlotTree.{HoldTree, accounts_of};

    /// Does nothing when it runs. Its contract: what holds of every desk, after any steps.
    pub fn by_law(&self)
        ensures legal { IsLegal (start self.now.world.rules self.now.world.room) self.now.world.history }
        ensures numbered { AreInOrder self.now.world.rules self.now.world.room self.now.world.history }
        ensures within { length self.now.world.history ≤ self.now.world.limit }
        ensures valid { AreValid self.now.world }
        ensures apart { AreApart self.now.world }
        ensures few { AreFew self.now.world }
        ensures gate { GateIsHeld self.now.world }
        ensures slots { length self.now.inodes ≡ N.slots }
        ensures rules { self.now.world.rules ≡ N.rules }
        ensures room { self.now.world.room + TREE_CLIENTS ≡ N.slots }
        ensures limit { self.now.world.limit ≡ N.limit }
        ensures tree { HoldTree (accounts_of self.now) self.now.world }
    {
        self.journal.by_law();
    }
}
