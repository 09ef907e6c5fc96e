//! The sequential tree: calls and replies, the definition of each call (in `specs/`), and the tables that hold a tree.
#![tactic(auto)]

mod before;
mod call;
mod call_demands;
mod changes;
mod client;
mod clients;
mod decision;
mod dentries;
mod effects;
mod facts;
mod found;
mod history;
mod later;
mod listing;
mod node;
mod nodes;
mod number_map;
mod refusals;
mod reply;
mod rules;
mod targets;

pub use before::{refused_early, refused_found};
pub use call::{AccessMode, Call, Creation, Mode};
pub use call_demands::demands_of;
pub use changes::{Answer, At, Change, Effect, Opening, Rule};
pub use client::{ClientRecord, Descriptor, Rulesets};
pub use decision::{decide, decide_passed};
pub use dentries::{Dentries, Dentry};
pub use effects::effect_of;
pub use facts::{Fact, MOST_OPENS, ROOT};
pub use found::{Found, Spot, There, granted_at, status_of};
pub use history::History;
pub use later::refused_after;
pub use listing::Listing;
pub use node::{Content, Node};
pub use number_map::NumberMap;
pub use refusals::{first, no_directory};
pub use reply::{Entry, Reply, Status};
pub use rules::Rules;
pub use targets::{Targets, first_path, names_root, second_path, target_path, targets_of};
