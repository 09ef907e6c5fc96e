//! A callback during walks.

ghost use Rattle.std.specs.Prelude.{◌≡◌, Some};

use ll_client::{Locked, Shape};

/// Called after each descent of a walk, while the journal's lock is released. The walk waits for it.
pub trait Gate<N: Shape>: Drop {
    /// The client's walk is in the directory of this inode, and holds the lock of its slot.
    fn held(&self, client: u64, inode: u64, slot: &Locked<N>)
        requires inode { slot.now.held.inode ≡ inode }
        requires marked { slot.now.held.node.mark ≡ Some client };
}

/// A gate that does nothing.
#[derive(Clone, Copy, Drop)]
pub struct NoGate;

impl<N: Shape> Gate<N> for NoGate {
    fn held(&self, client: u64, inode: u64, slot: &Locked<N>) {
        let _ = client;
        let _ = inode;
        let _ = slot;
    }
}
