//! What all streams are served by.

ghost use Rattle.std.specs.Prelude.{◌≡◌};
ghost use Rattle.ll_session.specs.Session.{AreOthers};

use crate::{Gate, Keeps, Tree};
use ll_client::Shape;
use ll_seq::Call;

/// A tree, the limit of its history's entries, who keeps these, and the calls that each stream's client makes before
/// its lines.
#[derive(Drop)]
pub struct Host<'a, N: Shape, G: Gate<N>, K: Keeps> {
    pub tree: &'a Tree<N, G>,
    pub limit: u64,
    pub keeper: &'a K,
    pub profile: &'a [Call],
    ghost limit_is: { limit ≡ N.limit },
    ghost others: { AreOthers profile.now },
}
