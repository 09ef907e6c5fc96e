//! The results of steps.

use ll_seq::Reply;

/// The result of a step of a client's walk.
#[derive(Clone, Copy, PartialEq, Eq)]
pub enum Progress {
    /// The step isn't enabled.
    NotNow,
    /// Other slots were lent than the step names. Nothing has changed.
    Astray,
    /// The walk is in the directory of this inode.
    Stands(u64),
    Forked,
    Restarted,
}

/// The result of a commit.
#[derive(Drop)]
pub enum Ending {
    /// The step isn't enabled.
    NotNow,
    /// Other slots were lent than the commit may need. Nothing has changed.
    Astray,
    /// The walk has ended. The reply is in the history's last entry.
    Replied(Reply),
    /// The walk has ended. The history is full, and nothing else has changed.
    HistoryFull,
    /// The walk has ended. Memory ran out, and nothing else has changed.
    NoMemory,
}
