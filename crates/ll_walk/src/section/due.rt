//! The call of the gate that a descent owes.

ghost use Rattle.std.specs.Prelude.{◌≡◌, Some};

use crate::gate::Gate;
use ll_client::{Locked, Shape};
use std::marker::PhantomData;

/// A descent of this client's walk, to this inode, of which the gate isn't told yet. It can't be let go. Until the gate
/// is told, the walk takes no lock.
pub struct Due<'a> {
    pub(super) client: u64,
    pub(super) inode: u64,
    waiter: PhantomData<&'a ()>,
}

/// A gate that is only told of what is due.
#[derive(Drop)]
pub(crate) struct DueGate<G> {
    gate: G,
}

impl<G> DueGate<G> {
    pub(crate) fn new(gate: G) -> DueGate<G> {
        DueGate { gate }
    }
}

impl<'a> Due<'a> {
    pub(super) fn new(client: u64, inode: u64) -> Due<'a>
        ensures client { result.client ≡ client }
        ensures inode { result.inode ≡ inode }
    {
        Due {
            client,
            inode,
            waiter: PhantomData,
        }
    }

    /// Tells the gate of it, which may hold the walk up. `slot` is that of the directory.
    pub(crate) fn tell<N: Shape, G: Gate<N>>(self, to: &DueGate<G>, slot: &Locked<N>)
        requires inode { slot.now.held.inode ≡ self.inode }
        requires marked { slot.now.held.node.mark ≡ Some self.client }
    {
        let Due {
            client,
            inode,
            waiter: _,
        } = self;
        to.gate.held(client, inode, slot);
    }
}
