//! How far a walk has come, and which leg is its current one.

ghost use Rattle.std.specs.Prelude.{◌≡◌};
ghost use Rattle.ll_journal.specs.Seated.{none_left, turn_at};

use crate::leg::Leg;

/// How far a walk has come: above the root, on its common leg, or past the fork.
#[derive(Clone, Copy)]
pub(crate) enum Stage {
    Above,
    Down,
    Split,
}

/// The current leg of a walk: none above the root, and after the fork the first path's until that is at its end.
#[derive(Clone, Copy, PartialEq, Eq)]
pub enum Turn {
    No,
    Trunk,
    First,
    Second,
}

/// The current leg.
pub(crate) fn turn_of(stage: Stage, first: &Leg) -> Turn
    ensures { result ≡ turn_at stage (none_left first.now.ahead) }
{
    match stage {
        Stage::Above => Turn::No,
        Stage::Down => Turn::Trunk,
        Stage::Split => {
            if first.is_at_end() {
                Turn::Second
            } else {
                Turn::First
            }
        }
    }
}
