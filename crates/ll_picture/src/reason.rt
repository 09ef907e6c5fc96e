//! The words for why a step isn't enabled.

use crate::front::{Front, Way};
use crate::stage::branch_at;
use ll_laws::Step;
use ll_steps::{Unmet, World};
use std::fmt;
use std::fmt::Display;

/// What a client tries.
#[derive(Clone, Copy, PartialEq, Eq)]
pub enum Trial {
    /// Make a call at once, by one step.
    Make,
    /// Make all steps of a call.
    Call,
    Begin,
    Descend,
    Fork,
    Commit,
    Restart,
}

impl Trial {
    /// Returns what the step tries.
    pub fn of(step: &Step) -> Trial {
        match step {
            Step::Join | Step::FdCommit(..) | Step::ClientStep(..) => Trial::Make,
            Step::Begin(..) => Trial::Begin,
            Step::Descend(_) => Trial::Descend,
            Step::Fork(_) => Trial::Fork,
            Step::Commit(_) => Trial::Commit,
            Step::Restart(_) => Trial::Restart,
        }
    }

    fn words(self) -> &'static str {
        match self {
            Trial::Make | Trial::Call => "make the call",
            Trial::Begin => "begin the call",
            Trial::Descend => "go down",
            Trial::Fork => "fork",
            Trial::Commit => "commit",
            Trial::Restart => "restart",
        }
    }
}

/// Why a client can't make a step: what it tries, the unmet condition, and who moved a directory on its walk's way. Of
/// its walk, if one is under way, what its next name names, and the path of its call that names a marked node.
#[derive(Clone, Copy)]
pub struct Reason<'a> {
    client: u64,
    trial: Trial,
    unmet: Unmet,
    mover: Option<u64>,
    next: Front<'a>,
    last: Front<'a>,
}

impl<'a> Reason<'a> {
    /// Returns the reason in this world, where the step isn't enabled.
    pub fn new(
        world: &'a World,
        client: u64,
        trial: Trial,
        unmet: Unmet,
        mover: Option<u64>,
    ) -> Reason<'a> {
        let mut reason = Reason {
            client,
            trial,
            unmet,
            mover,
            next: Front::ROOT,
            last: Front::ROOT,
        };
        if let Some(way) = Way::of(world, client) {
            reason.next = way.next(branch_at(world.station(client)));
            if let Unmet::Marked(inode, _) = unmet {
                reason.last = way.path_to(world, inode);
            }
        }
        reason
    }
}

// The words for an unmet condition that names no directory and nobody else.
fn words_of(unmet: Unmet) -> &'static str {
    match unmet {
        Unmet::Nobody => "nobody has this number",
        Unmet::UnderWay => "its walk is under way, and a client has one at a time",
        Unmet::Walks => "`begin` makes a call that walks",
        Unmet::OnDescriptor => "`fd` makes a call on a descriptor that the client has",
        Unmet::Alone => {
            "`step` makes a call that doesn't walk, nor is on a descriptor that the client has"
        }
        Unmet::Connects => "`connect` brings a new client",
        Unmet::NoWalk => "no walk of it is under way",
        Unmet::NotStale => "no directory on its way was moved",
        Unmet::AtFork => "its two paths part here, so it has to fork before",
        Unmet::Forked => "it has forked already",
        Unmet::OnePath => "its call has one path",
        Unmet::AtEnd => "its way ends here, so it can only commit",
        _ => "a directory on its way was moved, so it can only restart",
    }
}

impl Display for Reason<'_> {
    fn fmt<W: fmt::Write>(&self, f: &mut fmt::Formatter<W>) -> fmt::Result {
        let (client, trial, next, last) = (self.client, self.trial.words(), self.next, self.last);
        let descends = self.trial == Trial::Descend;
        write!(f, "client {client} can't {trial}")?;
        if descends && matches!(self.unmet, Unmet::Marked(..) | Unmet::Gate(_)) {
            write!(f, " to {next}")?;
        }
        f.write_str(": ")?;
        match (self.unmet, self.mover) {
            (Unmet::Gate(holder), _) => {
                write!(f, "client {holder}'s walk holds the move gate")?;
                f.write_str(if descends {
                    ", which it takes on its fourth start"
                } else {
                    ""
                })
            }
            (Unmet::Marked(_, other), _) if descends => {
                write!(f, "client {other}'s walk stands there")
            }
            (Unmet::Marked(_, other), _) => {
                write!(
                    f,
                    "client {other}'s walk stands in {last}, which the call names"
                )
            }
            (Unmet::Stale, Some(mover)) => {
                write!(
                    f,
                    "client {mover} moved a directory on its way, so it can only restart"
                )
            }
            (Unmet::Above | Unmet::Ahead, _) => write!(f, "it has to go down to {next} before"),
            (Unmet::Blocked, _) => {
                write!(f, "there is no directory {next}, so it can only commit")
            }
            (unmet, _) => f.write_str(words_of(unmet)),
        }
    }
}
