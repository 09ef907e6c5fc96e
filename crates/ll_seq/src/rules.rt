//! The options that a tree is opened with.

use ll_rights::Abi;

/// The ABI level, which determines the rights that a ruleset may handle; and whether a spawned client gets copies of
/// its parent's descriptors.
#[derive(Clone, Copy, Debug, PartialEq, Eq)]
pub struct Rules {
    pub abi: Abi,
    pub copies: bool,
}
