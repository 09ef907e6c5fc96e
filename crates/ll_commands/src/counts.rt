//! What is counted of connections.

ghost use Rattle.std.specs.Prelude.{◌≡◌, length};
ghost use Rattle.ll_commands.specs.Counts.{plus};

use ll_client::Shape;
use ll_session::{Served, Tally};
use std::fmt;
use std::fmt::Display;

/// The number of clients, and what their sessions have counted.
#[derive(Clone, Copy, Debug, PartialEq, Eq)]
pub(crate) struct Counts {
    pub(crate) clients: u64,
    pub(crate) tally: Tally,
}

impl Counts {
    ghost use Rattle.ll_commands.specs.Counts.{none};

    pub(crate) fn none() -> Counts
        ensures { result ≡ none }
    {
        Counts {
            clients: 0,
            tally: Tally::nothing(),
        }
    }

    /// Returns what the session of this stream has counted.
    pub(crate) fn of<N: Shape, R, W>(served: &Served<N, R, W>) -> Counts
        ensures { result ≡ record { clients = length served.now.clients.items; tally = served.now.outcome.tally } }
    {
        Counts {
            clients: served.clients.len() as u64,
            tally: served.outcome.tally,
        }
    }

    /// Returns the sum of both.
    pub(crate) fn plus(self, other: Counts) -> Counts
        ensures { result ≡ plus self other }
    {
        Counts {
            clients: self.clients.saturating_add(other.clients),
            tally: Tally {
                lines: self.tally.lines.saturating_add(other.tally.lines),
                denials: self.tally.denials.saturating_add(other.tally.denials),
            },
        }
    }
}

impl Display for Counts {
    ghost use Rattle.std.specs.Prelude.{Some};
    ghost use Rattle.ll_commands.specs.Counts.{counts_text};

    ghost output = { λ counts. Some (counts_text counts) };

    fn fmt<W: fmt::Write>(&self, f: &mut fmt::Formatter<W>) -> fmt::Result {
        let Counts { clients, tally } = *self;
        let Tally { lines, denials } = tally;
        write!(f, "{clients} clients, {lines} lines, {denials} denied")
    }
}
