//! How far a session is.

ghost use Rattle.std.specs.Prelude.{◌≡◌, ◌<◌, ◌^◌};

use crate::stop::Stop;
use crate::tally::Tally;
use ll_seq::Reply;

/// Whether a session is strict, what it has counted, and the reply that ended it, if any.
#[derive(Drop)]
pub struct Score {
    pub is_strict: bool,
    pub tally: Tally,
    pub end: Option<Reply>,
}

impl Score {
    ghost use Rattle.ll_session.specs.Counts.{first_score, noted, stop_of};

    /// Returns the score of a session that has answered nothing.
    pub fn new(is_strict: bool) -> Score
        ensures { result ≡ first_score is_strict }
    {
        Score {
            is_strict,
            tally: Tally::nothing(),
            end: None,
        }
    }

    /// Counts a line that got this reply. With `is_end`, the reply ends a strict session.
    pub fn note(&mut self, reply: Reply, is_end: bool)
        requires lines { self.old.tally.lines < 2 ^ 63 }
        requires denials { self.old.tally.denials < 2 ^ 63 }
        ensures { self.new ≡ noted self.old reply is_end }
    {
        self.tally.count(&reply);
        if self.is_strict && is_end {
            self.end = Some(reply);
        } else {
            drop(reply);
        }
    }

    /// Returns what ended the session before its input, if anything did.
    pub fn into_stop(self) -> Option<Stop>
        ensures { result ≡ stop_of self }
    {
        let Score { tally, end, .. } = self;
        match end {
            Some(reply) => Some(Stop::AtLine(tally.lines, reply)),
            None => None,
        }
    }
}
