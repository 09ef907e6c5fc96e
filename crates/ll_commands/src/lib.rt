//! The commands except run, check and audit: serve, rights, why, learn, schedule, export, as the program's words ask
//! for them.
#![tactic(auto)]

mod bounded;
mod c_program;
mod closed_tree;
mod commands;
mod confinement;
mod counts;
mod difference;
mod door;
mod escape;
mod exports;
mod fixed;
mod json;
mod learn;
mod listener;
mod loader;
mod log;
mod opened_tree;
mod port;
mod profiles;
mod rights;
mod room;
mod schedules;
mod served;
mod service;
mod trouble;
mod why;

pub use c_program::c_text;
pub use commands::{call_of, calls_of, told_of_setup};
pub use confinement::{Confinement, Flaw, FlawedProfile, LayerFlaw, RuleFlaw};
pub use difference::{rights_difference, tell_difference};
pub use escape::EscapedRule;
pub use exports::{escape_of, export, export_checked, exported, flaw_of};
pub use json::json_text;
pub use learn::{learn_history, tell_learned};
pub use ll_learn::Learned;
pub use ll_picture::Film;
pub use log::Log;
pub use opened_tree::{Opened, open_tree};
pub use port::{Binds, Listens, Loopback, Missed, Port};
pub use profiles::{ProfileNotes, all_tables, tell_all_rights};
pub use rights::{rights_table, rows_told, tell_rights};
pub use schedules::{
    Drawn, conclude_schedule, draw_in, draw_over, draw_schedule, film_by, perform_over,
    perform_schedule, schedule, schedule_drawn, setup_by,
};
pub use served::serve;
pub use why::{Answer, answer_of, tell_why};
