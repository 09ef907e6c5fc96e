//! The steps of a shared tree.

use ll_seq::Call;

/// A step of a shared tree. Each variant but the first carries the number of the client that makes it.
#[derive(Drop)]
pub enum Step {
    /// A new client connects.
    Join,
    /// The client's call begins its walk.
    Begin(u64, Call),
    /// The walk descends by one name.
    Descend(u64),
    /// The walk of a call with two paths splits into a branch for each.
    Fork(u64),
    /// The walk ends and its call is answered.
    Commit(u64),
    /// The stale walk starts again.
    Restart(u64),
    /// A call on a descriptor is made and answered.
    FdCommit(u64, Call),
    /// Any other call that doesn't walk is made and answered.
    ClientStep(u64, Call),
}
