//! The faults of a policy.

ghost use Rattle.std.specs.Prelude.{◌≡◌};
ghost use Rattle.ll_policy.specs.declared.fault.PolicyFault.TheVariants.{NoMemory};

use std::alloc::{AllocError, AllocFailed};
use thiserror::Error;

/// Why a text is no policy: its first fault. Shown by the variant's name.
#[derive(Clone, Copy, Debug, PartialEq, Eq, Error)]
#[error("{:?}", self)]
pub enum PolicyFault {
    /// The text isn't a TOML document.
    NotToml,
    /// A table has an unknown key.
    UnknownKey,
    /// A table lacks a required key.
    MissingKey,
    /// A value has the wrong type for its key.
    WrongType,
    /// The version is neither 1 nor 2.
    BadVersion,
    /// The ABI level isn't 1, 2 or 3.
    BadAbi,
    /// A profile's name isn't 1 to 32 characters out of `a` to `z`, `0` to `9` and `-`.
    BadName,
    /// A text is no valid path.
    BadPath,
    /// A text is no kind of node.
    BadKind,
    /// A text is no set of rights.
    BadRights,
    /// A text spells no bytes or too many, or its node isn't a regular file.
    BadData,
    /// Memory ran out. The text may be a policy.
    NoMemory,
}

impl From<AllocError> for PolicyFault {
    ghost from_gives = { λ _ fault. fault ≡ NoMemory };

    fn from(_error: AllocError) -> PolicyFault {
        PolicyFault::NoMemory
    }
}

impl<T: Drop> From<AllocFailed<T>> for PolicyFault {
    ghost from_gives = { λ _ fault. fault ≡ NoMemory };

    fn from(_failed: AllocFailed<T>) -> PolicyFault {
        PolicyFault::NoMemory
    }
}
