//! Policies: TOML documents that list the nodes to create first, and the layers of each profile's clients.
#![tactic(auto)]

mod blame;
mod document;
mod fault;
mod lines;
mod meant_rights;
mod node;
mod path_text;
mod place;
mod policy;
mod profile;
mod table;
mod values;

pub use blame::toml_trouble;
pub use document::{policy_faults, read_document};
pub use fault::PolicyFault;
pub use meant_rights::{right_meant, rights_meant};
pub use path_text::PathText;
pub use place::{Place, PlacedFault};
pub use policy::Policy;
pub use profile::{Layer, Rule};
pub use values::is_name;
