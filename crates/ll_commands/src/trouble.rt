//! Why a connection ends before its peer ends it.

use std::fmt::Display;
use std::io::ErrorKind;
use std::{fmt, io};

/// What keeps a connection from being read or written.
#[derive(Clone, Copy, Debug, PartialEq, Eq)]
pub(crate) enum Trouble {
    /// It waited for its peer as long as it may.
    Idle,
    Gone,
    RoomUsedUp,
    Other,
}

impl Trouble {
    /// Returns what an error of a connection means.
    pub(crate) fn of(error: &io::Error) -> Trouble {
        match error.kind() {
            ErrorKind::WouldBlock | ErrorKind::TimedOut => Trouble::Idle,
            ErrorKind::ConnectionReset | ErrorKind::ConnectionAborted | ErrorKind::BrokenPipe => {
                Trouble::Gone
            }
            _ => Trouble::Other,
        }
    }
}

/// The trouble of a connection, which may be idle for this many seconds, as the log prints it.
#[derive(Clone, Copy, Debug)]
pub(crate) struct Troubled {
    pub(crate) trouble: Trouble,
    pub(crate) idle: u64,
}

impl Display for Troubled {
    fn fmt<W: fmt::Write>(&self, f: &mut fmt::Formatter<W>) -> fmt::Result {
        let idle = self.idle;
        match self.trouble {
            Trouble::Idle => write!(f, "idle for {idle} seconds"),
            Trouble::Gone => f.write_str("the peer has gone"),
            Trouble::RoomUsedUp => f.write_str("its room is used up"),
            Trouble::Other => f.write_str("the connection fails"),
        }
    }
}
