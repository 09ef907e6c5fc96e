//! File system rights and sets of them, kinds of nodes, and the refusals of calls. All crates' definitions use the
//! finite map of `specs/Map.antt`.
#![tactic(auto)]

mod abi;
mod access;
mod errno;
mod kind;
pub mod limits;
mod right;

pub use abi::Abi;
pub use access::Access;
pub use errno::Errno;
pub use kind::Kind;
pub use right::Right;
