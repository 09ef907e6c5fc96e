//! Why nothing can be learned from histories.

ghost use Rattle.std.specs.Prelude.{◌≡◌};
ghost use Rattle.ll_learn.specs.declared.fault.LearnFault.TheVariants as late;

use crate::needs::Origin;
use std::alloc::AllocError;

/// Why no layer can be learned from the entries after a cut. Entries are counted from 1.
#[derive(Clone, Copy, Debug, PartialEq, Eq)]
pub enum LearnFault {
    /// The client doesn't exist at the cut.
    NoClient,
    /// The entry with this number is the first illegal one.
    Illegal(usize),
    /// The entry's call is denied, and its client is to have the layer.
    Denied(usize),
    /// After the entry (or at the cut, if the number is 0), a client that is to have the layer has no room for it.
    Full(usize),
    NoMemory,
}

impl From<AllocError> for LearnFault {
    ghost from_gives = { λ _ fault. fault ≡ late.NoMemory };

    fn from(_error: AllocError) -> LearnFault {
        LearnFault::NoMemory
    }
}

/// Why nothing is learned from histories. Histories and paths are counted from 0, and entries from 1, in the whole
/// history.
#[derive(Clone, Copy, Debug, PartialEq, Eq)]
pub enum Unlearned {
    /// No such client connects in the history with this number.
    NoClient(usize),
    /// Up to the client's connect, this history differs from the first one.
    Unlike(usize),
    /// The entry with this number is the first illegal one.
    Illegal(Origin),
    /// The entry's call is denied already, and its client is to have the layer.
    Denied(Origin),
    /// After the entry, a client that is to have the layer has no room for it.
    Full(Origin),
    /// Under no layer within the aim do all calls pass. The entry needs what none of them grants.
    Unmet(Origin),
    /// The path with this index leads to no node whose rule could take what is needed below it.
    NoNode(usize),
    NoMemory,
}

impl From<AllocError> for Unlearned {
    ghost use Rattle.std.specs.Prelude.{◌≡◌};
    ghost use Rattle.ll_learn.specs.declared.fault.Unlearned.TheVariants as whole;

    ghost from_gives = { λ _ fault. fault ≡ whole.NoMemory };

    fn from(_error: AllocError) -> Unlearned {
        Unlearned::NoMemory
    }
}
