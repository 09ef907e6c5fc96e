//! Draws what clients did, line by line: one row for each client, time to the right.
#![tactic(auto)]

mod canvas;
mod film;
mod front;
mod head;
mod legend;
mod picture;
mod reason;
mod scene;
mod sheet;
mod stage;
mod style;
mod track;
mod window;

pub use film::Film;
pub use window::Window;
