//! Why there is no answer.

ghost use Rattle.std.specs.Prelude.{◌≡◌};
ghost use Rattle.ll_embed.specs.Answers.{fault_at, fault_in, status_of};

use ll_policy::PolicyFault;
use ll_program::Failure;
use ll_session::RunFault;
use ll_wire::SessionFault;

/// Why a call has no answer.
#[derive(Clone, Copy, Drop)]
pub enum Fault {
    /// A number is out of its bounds, or the numbers and texts don't go together.
    Misfit,
    Policy(PolicyFault),
    /// The policy doesn't have the profile.
    NoProfile,
    /// A call of the policy is refused.
    Opening,
    /// The history doesn't have the entry.
    NoEntry,
    /// A section of a file of checks names its own policy, and no file is opened here.
    OwnPolicy,
    /// The script is too long.
    TooLong,
    NoMemory,
}

impl Fault {
    /// Returns the status that the program would have.
    pub fn status(self) -> u32
        ensures { result ≡ status_of self }
    {
        match self {
            Fault::Misfit | Fault::Policy(_) | Fault::NoProfile | Fault::Opening => 2,
            Fault::NoEntry | Fault::OwnPolicy => 2,
            Fault::TooLong => 1,
            Fault::NoMemory => 4,
        }
    }

    /// Returns the reason for people, without a policy's place.
    pub fn words(self) -> &'static str {
        match self {
            Fault::Misfit => "landtree: command line\n",
            Fault::Policy(_) => "landtree: policy\n",
            Fault::NoProfile => "landtree: no such profile\n",
            Fault::Opening => "landtree: opening call refused\n",
            Fault::NoEntry => "landtree: no such entry\n",
            Fault::OwnPolicy => "landtree: a section names its own policy, and no file is opened\n",
            Fault::TooLong => "landtree: too long\n",
            Fault::NoMemory => "landtree: no memory\n",
        }
    }
}

/// Returns the fault of a run's. A text can't be written only if memory runs out.
pub fn fault_of(fault: RunFault) -> Fault
    ensures { result ≡ fault_in fault }
{
    match fault {
        RunFault::Opening(_) => Fault::Opening,
        RunFault::Session(SessionFault::TooLong) => Fault::TooLong,
        RunFault::Session(_) => Fault::NoMemory,
    }
}

/// Returns what the program's failure is here: texts of memory can't be read or written only if memory runs out.
pub fn fault_at(failure: Failure) -> Fault
    ensures { result ≡ fault_at failure }
{
    match failure {
        Failure::CommandLine => Fault::NoProfile,
        Failure::Policy(fault) => Fault::Policy(fault),
        Failure::Opening(_) => Fault::Opening,
        Failure::File | Failure::Output | Failure::Socket | Failure::NoMemory => Fault::NoMemory,
    }
}
