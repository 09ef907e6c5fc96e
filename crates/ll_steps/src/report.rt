//! What is reported of a step.

ghost use Rattle.std.specs.Prelude.{◌≡◌, ◌≢◌, true, false};

use ll_rights::Errno;

/// The report of a step, or of all steps of a call: its outcome, with the number of the history's entry in place of the
/// reply.
#[derive(Clone, Copy, Debug, PartialEq, Eq)]
pub enum Report {
    /// The step isn't enabled.
    NotNow,
    /// The walk has begun, above the root.
    Begun,
    /// The walk is in the directory of this inode.
    Stands(u64),
    Forked,
    Restarted,
    /// A client with this number has connected.
    Joined(u64),
    /// The reply is in the history's entry of this number, counted from 0.
    Replied(u64),
    /// A refusal without an entry: HistoryFull, NoMemory, or EMFILE if no more clients may connect.
    Refused(Errno),
}

impl Report {
    /// Reports whether the step was enabled.
    pub fn was_enabled(self) -> bool
        ensures yes { result ≡ true → self ≢ Report.NotNow }
        ensures no { result ≡ false → self ≡ Report.NotNow }
    {
        match self {
            Report::NotNow => false,
            _ => true,
        }
    }
}
