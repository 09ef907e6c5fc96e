//! A tree shared by threads: one lock for each slot, and walks that lock hand over hand on their way down.
#![tactic(auto)]

mod call;
mod descents;
mod gate;
mod held;
mod lead;
mod queue;
mod section;
mod start;
mod table;
mod waiter;

pub use gate::{Gate, NoGate};
pub use section::{Due, Landing, Section, Spent};
pub use table::Table;
