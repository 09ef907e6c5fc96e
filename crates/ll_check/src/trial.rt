//! Tries a profile: makes all tests of files under it.

ghost use Rattle.std.specs.Prelude.{◌≡◌, ◌&&◌, map, IfErr, IfOk};
ghost use Rattle.ll_program.specs.Options.{learn_in};
ghost use Rattle.ll_check.specs.Checks.{tests_of};
ghost use Rattle.ll_check.specs.Lessons.{AreTried, FailsToMake, HasTrial};

use crate::check_text::ReadFile;
use crate::denied::{Notes, tell_denied};
use crate::reporter::{Reporter, Style};
use crate::runner::Runner;
use crate::section_check::check_file;
use crate::test_run::{failure_of, ran_out};
use crate::trees::Trees;
use crate::undenied::Candidate;
use ll_learn::Basis;
use ll_program::{Failure, header_of};
use ll_session::CallReplies;
use std::io::Write;

// Reports whether all tests of a file pass if its first client has the profile's layer. Prints those that don't.
fn passes_under<R: Runner, E: Write, N: Notes>(
    runner: &R,
    trees: &Trees<'_, '_>,
    candidate: &mut Candidate<'_, '_>,
    file: &ReadFile<'_>,
    err: &mut E,
    notes: &mut N,
) -> Result<bool, Failure>
    ensures tried { IfOk result (HasTrial (learn_in trees.now.options.now) trees.now.policy.now
        candidate.old.profile.now (tests_of file.now)) }
    ensures same { candidate.new.profile ≡ candidate.old.profile }
    ensures failure { IfErr result (FailsToMake (learn_in trees.now.options.now) trees.now.policy.now) }
{
    let tests = file.checks.tests.as_slice();
    let Ok(calls) = candidate.profile.calls(trees.alloc) else {
        return Err(Failure::NoMemory);
    };
    let setup = trees.tree(calls, tests.len())?;
    let header = header_of(&setup);
    let reporter = Reporter {
        alloc: trees.alloc,
        style: Style::Usual,
        file: file.name.as_bytes(),
        section: file.section.as_slice(),
    };
    let mut report = Vec::new(trees.alloc);
    let checked = match check_file(runner, &mut report, &reporter, setup, tests) {
        Ok(checked) => checked,
        Err(fault) => return Err(failure_of(fault)),
    };
    if ran_out(&checked.made) {
        return Err(Failure::NoMemory);
    }
    let _ = err.write_all(report.as_slice());
    let basis = Basis {
        header: &header,
        histories: candidate.taught.histories,
        client: candidate.client,
    };
    if let CallReplies::Answered(replies) = &checked.made {
        candidate.tell(trees.alloc, &basis, tests, replies.as_slice(), err);
    }
    if notes.are_wanted() {
        tell_denied(notes, &reporter, &header, tests, &checked);
    }
    Ok(checked.tally.failed == 0)
}

// Reports whether both passed.
fn both(pass: bool, passes: bool) -> bool
    ensures { result ≡ (pass && passes) }
{
    pass && passes
}

/// Reports whether all tests of all files pass under the candidate's profile. Prints those that don't.
pub(crate) fn pass_under<R: Runner, E: Write, N: Notes>(
    runner: &R,
    trees: &Trees<'_, '_>,
    candidate: &Candidate<'_, '_>,
    files: &[ReadFile<'_>],
    err: &mut E,
    notes: &mut N,
) -> Result<bool, Failure>
    ensures tried { IfOk result (AreTried (learn_in trees.now.options.now) trees.now.policy.now
        candidate.now.profile.now (map tests_of files.now)) }
    ensures failure { IfErr result (FailsToMake (learn_in trees.now.options.now) trees.now.policy.now) }
{
    let mut pass = true;
    let mut tried = *candidate;
    for file in files {
        match passes_under(runner, trees, &mut tried, file, err, notes) {
            Ok(passes) => pass = both(pass, passes),
            Err(failure) => return Err(failure),
        }
        tried = tried.next();
    }
    Ok(pass)
}
