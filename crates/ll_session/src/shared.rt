//! The tree of a run, and its clients.

ghost use Rattle.std.specs.Prelude.{◌≡◌, ℕ, ◌+◌, ◌≤◌, All, [], length, IfSome};
ghost use Rattle.ll_rights.specs.declared.limits.TheConstants.{TREE_CLIENTS};

use crate::entries::are_entries;
use crate::keeper::Keeps;
use crate::setup::Setup;
use crate::{NoGate, Party, Tree};
use ll_client::{Account, Blank, Shape};
use ll_seq::History;
use std::alloc::Global;
use std::sync::Wait;

/// A tree that threads share, and all its clients. They are numbered from 1, in the order in which they came.
pub struct Shared<N: Shape> {
    pub tree: Tree<N, NoGate>,
    pub party: Party<N>,
    ghost slots: { TREE_CLIENTS ≤ N.slots },
}

impl<N: Shape> Shared<N> {
    ghost use Rattle.ll_client.specs.Closed.{IsClosed};
    ghost use Rattle.ll_wire.specs.Entries.{IsEntry};

    /// Returns a new tree without clients. None if memory runs out.
    pub fn new(alloc: Global, blank: Blank<Account>, setup: &Setup) -> Option<Shared<N>>
        requires named { blank ≡ N.table }
        requires slots { N.slots ≡ setup.now.nodes + TREE_CLIENTS }
        requires limit { N.limit ≡ setup.now.history }
        requires rules { N.rules ≡ setup.now.rules }
        ensures { IfSome result (λ shared. shared.party ≡ []) }
    {
        let tree = Tree::<N, NoGate>::open(
            alloc,
            blank,
            setup.rules,
            setup.nodes,
            setup.history,
            NoGate,
        )
        .ok()?;
        let party = Party::<N>::new(alloc, setup.history as u64).ok()?;
        Some(Shared { tree, party })
    }

    /// Returns the number of clients.
    pub fn len(&self) -> u64
        ensures { result ≡ length self.now.party }
    {
        self.party.len()
    }

    /// Returns the history of the tree. Each entry has a spelling.
    pub fn close<R: Wait>(self, rt: &R) -> History
        ensures closed { (nodes : ℕ) → N.slots ≡ nodes + TREE_CLIENTS
            → IsClosed N.rules nodes N.limit result.entries self.party }
        ensures entries { All IsEntry result.entries }
    {
        let Shared { tree, party } = self;
        let history = party.close(rt, tree);
        are_entries(&history);
        history
    }

    /// Returns the history of the tree after the keeper has kept it.
    pub fn close_kept<R: Wait, K: Keeps>(self, rt: &R, keeper: &K) -> History
        ensures closed { (nodes : ℕ) → N.slots ≡ nodes + TREE_CLIENTS
            → IsClosed N.rules nodes N.limit result.entries self.party }
        ensures entries { All IsEntry result.entries }
    {
        let Shared { tree, mut party } = self;
        let _ = keeper.keep(rt, &tree, &mut party);
        Shared { tree, party }.close(rt)
    }
}
