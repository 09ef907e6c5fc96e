//! The journal of a shared tree: each step of a walk is a method.
#![tactic(auto)]

mod aftermath;
mod alone;
mod check_commit;
mod check_step;
mod commit;
mod decide_end;
mod direct;
mod files;
mod find_ends;
mod in_way;
mod journal;
mod laws;
mod leg;
mod needs;
mod next;
mod onward;
mod open_file;
mod pair;
mod position;
mod progress;
mod seat;
mod slots;
mod stage;
mod start;
mod station;
mod view;
mod walked;
mod way;
mod whereabouts;

pub use direct::Made;
pub use journal::Journal;
pub use next::Next;
pub use onward::{NextName, Onward};
pub use open_file::Unmade;
pub use position::{Position, Stand};
pub use progress::{Ending, Progress};
pub use slots::Slots;
pub use stage::Turn;
pub use start::Start;
pub use station::Station;
pub use walked::walks;
