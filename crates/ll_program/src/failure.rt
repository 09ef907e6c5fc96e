//! The program's failures, and their lines.

ghost use Rattle.std.specs.Prelude.{◌≡◌};
ghost use Rattle.clap.specs.Words.{kind_of};
ghost use Rattle.ll_program.specs.Failure.{failure_at, failure_by, failure_by_saving, failure_in, failure_in_session};
ghost use Rattle.ll_program.specs.Failure.{failure_of, line_of, status_of};

use clap::error::ErrorKind;
use ll_audit::{FileAuditFault, SaveFault};
use ll_policy::PolicyFault;
use ll_session::{Refusal, RunFault};
use ll_wire::SessionFault;
use std::fmt;
use std::fmt::Display;

/// Why the program ends with a status other than 0.
#[derive(Debug, Drop)]
pub enum Failure {
    CommandLine,
    Policy(PolicyFault),
    /// A call that the policy asks for is refused like this.
    Opening(Refusal),
    File,
    Output,
    /// The listener of `serve` failed.
    Socket,
    NoMemory,
}

impl Display for Failure {
    // The line on standard error.
    ghost output = { line_of };

    fn fmt<W: fmt::Write>(&self, f: &mut fmt::Formatter<W>) -> fmt::Result {
        match self {
            Failure::CommandLine => f.write_str("landtree: command line"),
            Failure::Policy(fault) => write!(f, "landtree: policy {fault}"),
            Failure::Opening(_) => f.write_str("landtree: opening call refused"),
            Failure::File => f.write_str("landtree: file"),
            Failure::Output => f.write_str("landtree: output"),
            Failure::Socket => f.write_str("landtree: socket"),
            Failure::NoMemory => f.write_str("landtree: no memory"),
        }
    }
}

impl Failure {
    /// Returns the program's failure for a run's fault: its input is a file.
    pub fn of_run(fault: RunFault) -> Failure
        ensures { result ≡ failure_of fault }
    {
        match fault {
            RunFault::Opening(refusal) => Failure::Opening(refusal),
            RunFault::Session(fault) => Failure::of_session(fault),
        }
    }

    /// Returns the program's failure for the fault of a session or of a schedule: its input is a file.
    pub fn of_session(fault: SessionFault) -> Failure
        ensures { result ≡ failure_in_session fault }
    {
        match fault {
            SessionFault::Read => Failure::File,
            SessionFault::Write => Failure::Output,
            SessionFault::NoMemory => Failure::NoMemory,
            SessionFault::TooLong => Failure::File,
        }
    }

    /// Returns the program's failure for a fault of a policy.
    pub fn of_policy(fault: PolicyFault) -> Failure
        ensures { result ≡ failure_in fault }
    {
        match fault {
            PolicyFault::NoMemory => Failure::NoMemory,
            fault => Failure::Policy(fault),
        }
    }

    /// Returns the program's failure if a history can't be saved.
    pub fn of_saving(fault: SaveFault) -> Failure
        ensures { result ≡ failure_by_saving fault }
    {
        match fault {
            SaveFault::Write => Failure::File,
            SaveFault::NoMemory => Failure::NoMemory,
        }
    }

    /// Returns the program's failure for an audit's: its input is a file.
    pub fn of_audit(failure: FileAuditFault) -> Failure
        ensures { result ≡ failure_at failure }
    {
        match failure {
            FileAuditFault::Read => Failure::File,
            FileAuditFault::Write => Failure::Output,
            FileAuditFault::NoMemory => Failure::NoMemory,
        }
    }

    /// Returns the program's failure for clap's error. None if it is a text to print, as help and the version are.
    pub fn of_words(error: &clap::Error) -> Option<Failure>
        ensures { result ≡ failure_by (kind_of error.now) }
    {
        match error.kind() {
            ErrorKind::DisplayHelp | ErrorKind::DisplayVersion => None,
            ErrorKind::OutOfMemory => Some(Failure::NoMemory),
            _ => Some(Failure::CommandLine),
        }
    }

    /// Returns the program's exit status.
    pub fn status(&self) -> u8
        ensures { result ≡ status_of self.now }
    {
        match self {
            Failure::CommandLine => 2,
            Failure::Policy(_) => 2,
            Failure::Opening(_) => 2,
            Failure::File => 1,
            Failure::Output => 1,
            Failure::Socket => 1,
            Failure::NoMemory => 4,
        }
    }
}
