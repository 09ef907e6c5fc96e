//! Who keeps a history while it grows.

ghost use Rattle.std.specs.Prelude.{◌≡◌};
ghost use Rattle.ll_session.specs.KeptHistory.{AreKept};

use crate::{Gate, Party, Tree};
use ll_client::Shape;
use std::sync::Wait;

/// How much of a history is kept.
#[derive(Clone, Copy, Drop)]
pub enum Kept {
    /// This many entries from the start are kept.
    UpTo(usize),
    /// Nobody keeps it, or nobody does any longer.
    Nowhere,
}

/// Keeps a tree's history while it grows.
pub trait Keeps {
    /// Keeps all entries that any of these clients knows of. Returns how much of the history is kept then.
    fn keep<N: Shape, R: Wait, G: Gate<N>>(
        &self,
        rt: &R,
        tree: &Tree<N, G>,
        party: &mut Party<N>,
    ) -> Kept
        ensures kept { AreKept result party.old }
        ensures same { party.new ≡ party.old };
}

/// Keeps nothing: only the tree's history has the entries.
#[derive(Clone, Copy, Drop)]
pub struct NoKeeper;

impl Keeps for NoKeeper {
    fn keep<N: Shape, R: Wait, G: Gate<N>>(
        &self,
        rt: &R,
        tree: &Tree<N, G>,
        party: &mut Party<N>,
    ) -> Kept {
        let _ = rt;
        let _ = tree;
        let _ = party;
        Kept::Nowhere
    }
}
