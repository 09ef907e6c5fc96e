//! Why a question about a profile has no answer.

ghost use Rattle.std.specs.Prelude.{◌≡◌};
ghost use Rattle.ll_embed.specs.Questions.{ask_status, fault_of_lines};

use crate::answer::Answer;
use crate::fault::{Fault, fault_at};
use ll_program::Failure;
use std::alloc::Global;

/// Why a question about a profile has no answer.
#[derive(Clone, Copy, Drop)]
pub enum AskFault {
    /// The form is none of those there are.
    WrongForm,
    /// A line names no path.
    WrongPath,
    /// A line spells no command, or there is no line.
    WrongCommand,
    /// There is no policy.
    PolicyMissing,
    /// There is no profile.
    ProfileMissing,
    /// No tree is set up.
    Tree(Fault),
}

impl AskFault {
    /// Returns what the program's failure at a text's lines is here, which are wrong like this.
    pub fn of_lines(failure: Failure, wrong: AskFault) -> AskFault
        ensures { result ≡ fault_of_lines failure wrong }
    {
        match failure {
            Failure::CommandLine => wrong,
            failure => AskFault::Tree(fault_at(failure)),
        }
    }

    // Returns the status.
    fn status(self) -> u32
        ensures { result ≡ ask_status self }
    {
        match self {
            AskFault::Tree(fault) => fault.status(),
            _ => 2,
        }
    }

    // Returns the reason for people, without a policy's place.
    fn words(self) -> &'static str {
        match self {
            AskFault::WrongForm => "landtree: no such form\n",
            AskFault::WrongPath => "landtree: not a path\n",
            AskFault::WrongCommand => "landtree: not a command\n",
            AskFault::PolicyMissing => "landtree: no policy\n",
            AskFault::ProfileMissing => "landtree: no profile\n",
            AskFault::Tree(fault) => fault.words(),
        }
    }

    // Returns the reason as an answer's text, as long as there is memory.
    fn text(self, alloc: Global) -> Vec<u8> {
        match Vec::from_slice(alloc, self.words().as_bytes()) {
            Ok(text) => text,
            Err(_) => Vec::new(alloc),
        }
    }

    /// Returns the answer of this fault: its status, and a line for people.
    pub fn answer(self, alloc: Global, policy: &[u8]) -> Answer
        ensures { result.status ≡ ask_status self }
    {
        match self {
            AskFault::Tree(fault) => Answer::of_fault(alloc, fault, policy),
            fault => Answer {
                status: fault.status(),
                text: fault.text(alloc),
            },
        }
    }
}
