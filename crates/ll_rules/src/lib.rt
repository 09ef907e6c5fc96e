//! Rulesets, the layers that they become when they are enforced, and domains of layers.
#![tactic(auto)]

mod domain;
mod layer;
mod ruleset;

pub use domain::Domain;
pub use layer::Layer;
pub use ruleset::Ruleset;
