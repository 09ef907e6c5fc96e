//! Laws of the sequential tree's definitions, which hold for all its legal histories.
#![tactic(auto)]

mod alone;
mod shared;
mod step;

pub use alone::{bytes_stay_withheld, reach_never_grows};
pub use shared::{
    blocked_are_refused, ends_are_reached, gate_holder_is_never_stale, history_grows,
    history_is_legal, marks_are_apart, sound_worlds_are_legal, starts_are_few,
    steps_keep_worlds_sound, steps_lead_on, walks_are_valid, worlds_never_gain, worlds_withhold,
};
pub use step::Step;
