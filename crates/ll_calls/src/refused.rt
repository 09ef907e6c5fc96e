//! Why a call did nothing.

ghost use Rattle.std.specs.Prelude.{◌≡◌};

use ll_decide::{Denial, Place};
use ll_rights::Errno;
use std::fmt::{Display, Error, Formatter, Write};

/// Why a call did nothing. HistoryFull and NoMemory have no entry in the history; any other has one.
#[derive(Clone, Copy, Debug, PartialEq, Eq)]
pub enum Refused {
    Errno(Errno),
    /// A layer of the client denies it.
    Denied(Denial),
}

/// The words for a call's path in a message.
fn path_words(place: Place) -> &'static str {
    match place {
        Place::At => "the path",
        Place::Old => "the old path",
        Place::New => "the new path",
    }
}

impl Display for Refused {
    fn fmt<W: Write>(&self, f: &mut Formatter<W>) -> Result<(), Error> {
        match self {
            Refused::Errno(errno) => write!(f, "refused with {}", errno.text()),
            Refused::Denied(denial) => write!(
                f,
                "layer {} denies {} on {}",
                denial.layer,
                denial.right.text(),
                path_words(denial.place),
            ),
        }
    }
}

impl From<Errno> for Refused {
    fn from(errno: Errno) -> Refused
        ensures { result ≡ Refused.Errno errno }
    {
        Refused::Errno(errno)
    }
}
