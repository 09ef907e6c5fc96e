//! Ties the journal's lock, the slots' locks and the clients together: passes show what each of them holds.
#![tactic(auto)]

mod account;
mod client;
mod desk;
mod direct;
mod hand;
mod join;
mod leave;
mod left;
mod lent;
mod locked;
mod look;
mod meet;
mod opened;
mod pass;
mod reader;
mod rider;
mod rule;
mod settlement;
mod shape;
mod spawn;
mod start;
mod tie;
mod view;
mod walk;
mod want;

pub use account::{Account, Numbered, Starved};
pub use client::Client;
pub use desk::Desk;
pub use left::{Leaving, Left};
pub use lent::LENT_SLOTS;
pub use locked::{Locked, Place, Places};
pub use opened::{Opened, open};
pub use pass::Pass;
pub use reader::ReadsHistory;
pub use rider::Rider;
pub use settlement::close;
pub use shape::Shape;
pub use tie::{Blank, Keeper, Naming, Tie};
pub use walk::Descent;
