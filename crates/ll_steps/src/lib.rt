//! A shared tree whose steps are made one after the other, in any order.
#![tactic(auto)]

mod answers;
mod direct;
mod halt;
mod make;
mod outcome;
mod reason;
mod report;
mod run;
mod schedule;
mod setup;
mod slots;
mod step;
mod unmet;
mod walk;
mod witness;
mod world;

pub use halt::Halt;
pub use outcome::answer_text;
pub use report::Report;
pub use run::run_schedule;
pub use schedule::ScheduleRun;
pub use setup::WorldSetup;
pub use unmet::Unmet;
pub use witness::Witness;
pub use world::World;
