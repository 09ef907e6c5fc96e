//! The API of the shared tree, for programs that embed it.
#![tactic(auto)]

mod calls;
mod files;
mod layers;
mod made;
mod refused;
mod tree;

// Types of lower crates that a caller also needs.
pub use ll_client::{Account, Blank, Client, ReadsHistory, Shape};
pub use ll_walk::{Gate, NoGate};
pub use refused::Refused;
pub use tree::Tree;
