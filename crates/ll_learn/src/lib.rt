//! A layer under which a program does what it did, with no right to spare.
#![tactic(auto)]

mod alike;
mod demand;
mod draft;
mod fault;
mod index;
mod laws;
mod learned;
mod lesson;
mod made;
mod needs;
mod preface;
mod profile;
mod right_column;
mod rules;
mod saved_lesson;
mod site;
mod site_chains;
mod solution;
mod span;
mod undenied;
mod watch;

pub use draft::{Draft, Need, Scope};
pub use fault::{LearnFault, Unlearned};
pub use laws::{
    asks_are_required, charged_is_least, draft_is_least, mended_is_least, moves_are_theirs,
    need_is_reached, same_replies, truncate_is_required,
};
pub use learned::{Aim, learn};
pub use made::{Made, made_rights};
pub use needs::{Asked, Moved, Needs, Origin};
pub use preface::cut_of;
pub use profile::{LearnedProfile, LearnedRule, Notes};
pub use saved_lesson::{Learned, SavedLesson, stray_line};
pub use site::{Site, Sites};
pub use solution::{DraftFault, least_draft, need_of};
pub use undenied::{Basis, Grant, Trial, Undenied, why_undenied};
