//! Why a history isn't legal.

use thiserror::Error;

/// Why a history isn't found legal.
#[derive(Clone, Copy, Debug, PartialEq, Eq, Error)]
pub enum AuditFault {
    /// The entry of this number, counted from 1, is the first illegal one.
    #[error("illegal at {0}")]
    Illegal(usize),
    /// Memory for the tree ran out. The history may be legal.
    #[error("no memory for the audit")]
    NoMemory,
}
