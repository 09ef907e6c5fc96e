//! How a walk is left, and the result.

ghost use Rattle.std.specs.Prelude.{◌≡◌};
ghost use Rattle.ll_client.specs.Hands.{ended_as, restarted_as};

use ll_journal::{Ending, Progress};
use ll_seq::Reply;

/// Whether to commit or to restart a walk.
#[derive(Clone, Copy, PartialEq, Eq)]
pub enum Leaving {
    Commit,
    Restart,
}

/// The result of leaving a walk.
#[derive(Drop)]
pub enum Left {
    /// The step isn't enabled.
    NotNow,
    /// Other slots were lent than the step needs. Nothing has changed.
    Astray,
    /// The walk has ended. The reply is in the history's last entry.
    Answered(Reply),
    /// The walk has restarted, above the root.
    Again,
    /// The walk has ended. The history is full, and nothing else has changed.
    HistoryFull,
    /// The walk has ended. Memory ran out, and nothing else has changed.
    NoMemory,
}

/// The result of a commit, as a result of leaving.
pub(crate) fn ended(ending: Ending) -> Left
    ensures { result ≡ ended_as ending }
{
    match ending {
        Ending::NotNow => Left::NotNow,
        Ending::Astray => Left::Astray,
        Ending::Replied(reply) => Left::Answered(reply),
        Ending::HistoryFull => Left::HistoryFull,
        Ending::NoMemory => Left::NoMemory,
    }
}

/// The result of a restart, as a result of leaving.
pub(crate) fn restarted(outcome: Progress) -> Left
    ensures { result ≡ restarted_as outcome }
{
    match outcome {
        Progress::Astray => Left::Astray,
        Progress::Restarted => Left::Again,
        Progress::NotNow | Progress::Stands(_) | Progress::Forked => Left::NotNow,
    }
}
