//! Why a command of a policy's profile is answered as it is.

ghost use Rattle.std.specs.Prelude.{◌≡◌, ◌∷◌, ◌++◌, [], ℕ, List, IfErr, IfOk, string_bytes};
ghost use Rattle.std.specs.List.{AllZip};
ghost use Rattle.std.specs.Str.Lines.{lines};
ghost use Rattle.ll_program.specs.Paths.{IsOfWords};
ghost use Rattle.ll_program.specs.declared.failure.Failure as failures;
ghost use Rattle.ll_why.specs.CallWhy.{IsCommand};
ghost use Rattle.ll_embed.specs.Lines.{LacksCommand};
ghost use Rattle.ll_embed.specs.Questions.{IsWhyTold, LacksWhy, WhyAnswers, profile_order_in};

use crate::answer::Answer;
use crate::ask_fault::AskFault;
use crate::asked::ProfileGiven;
use crate::fault::fault_at;
use crate::lines::lines_in;
use ll_commands::{call_of, calls_of, told_of_setup};
use ll_program::Failure;
use ll_seq::Call;
use ll_why::WhyStyle;
use std::alloc::Global;

/// The calls of a text's lines: those before the last one, and that one.
#[derive(Drop)]
struct CallsTold {
    before: Vec<Call>,
    last: Call,
}

// Returns the calls that the lines spell, the last of which is explained. Errors: the text isn't UTF-8, there is no
// line, or one spells no call (a wrong command line); memory ran out.
fn calls_in(alloc: Global, commands: &[u8]) -> Result<CallsTold, Failure>
    ensures calls { IfOk result (λ calls. (before : List (List ℕ)) × (last : List ℕ)
        × (lines commands.now ≡ before ++ last ∷ []) × AllZip IsCommand before calls.before.items
        × IsCommand last calls.last) }
    ensures bad { IfErr result (λ failure. failure ≡ failures.Failure.CommandLine → LacksCommand commands.now) }
    ensures failure { IfErr result IsOfWords }
{
    let lines = lines_in(alloc, commands)?;
    let Some((last, before)) = lines.as_slice().split_last() else {
        return Err(Failure::CommandLine);
    };
    let before = calls_of(alloc, before)?;
    match call_of(alloc, last) {
        Ok(last) => Ok(CallsTold { before, last }),
        Err(failure) => {
            drop(before);
            Err(failure)
        }
    }
}

// Returns the text on the last command.
fn why_of(alloc: Global, given: &ProfileGiven<'_>, commands: &[u8]) -> Result<String, AskFault>
    ensures told { IfOk result (λ text. IsWhyTold (profile_order_in given.now) commands.now 0 (string_bytes text)) }
    ensures fault { IfErr result (LacksWhy (profile_order_in given.now) commands.now) }
{
    let setup = given.setup(alloc)?;
    let calls = match calls_in(alloc, commands) {
        Ok(calls) => calls,
        Err(failure) => {
            drop(setup);
            return Err(AskFault::of_lines(failure, AskFault::WrongCommand));
        }
    };
    let told = told_of_setup(
        alloc,
        WhyStyle::Lines,
        &setup,
        calls.before.as_slice(),
        &calls.last,
    );
    drop(setup);
    drop(calls);
    match told {
        Ok(text) => Ok(text),
        Err(failure) => Err(AskFault::Tree(fault_at(failure))),
    }
}

/// Returns why the last command of the profile's client is answered as it is, after those before it.
pub fn why(alloc: Global, given: &ProfileGiven<'_>, commands: &[u8]) -> Answer
    ensures { WhyAnswers (profile_order_in given.now) commands.now result.status result.text.items }
{
    match why_of(alloc, given, commands) {
        Ok(text) => Answer {
            status: 0,
            text: text.into_bytes(),
        },
        Err(fault) => fault.answer(alloc, given.policy),
    }
}
