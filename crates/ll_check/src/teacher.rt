//! Makes lessons.

ghost use Rattle.std.specs.Prelude.{◌≡◌, ◌↔◌, true, false, length, map, IfErr, IfNone, IfOk, IfSome, IsTrue};
ghost use Rattle.std.specs.List.{AllZip};
ghost use Rattle.ll_program.specs.Options.{learn_in};
ghost use Rattle.ll_check.specs.Lessons.{AreMet, AreTaught, AreUnmet, FailsToMake, HasUnmet, HasUnmetFile};
ghost use Rattle.ll_check.specs.Lessons.{IsLearnedFrom, IsUnmet, picked};
ghost use Rattle.ll_check.specs.Replied.{HasReplies};

use crate::check_text::Test;
use crate::lessons::FileLessons;
use crate::refused_profile::{push_refusal, refusal_text};
use crate::reporter::{Reporter, Style};
use crate::runner::Runner;
use crate::test_run::{failure_of, make_lessons, ran_out};
use crate::trees::Trees;
use crate::wanted::is_allowed;
use ll_program::Failure;
use ll_seq::{History, Reply};
use ll_session::CallReplies;
use std::alloc::AllocError;
use std::io::Write;

// Reports whether the reply is as the lesson says, and the call has an entry in the history.
fn is_learned_from(lesson: &Test, reply: &Reply) -> bool
    ensures { IsTrue result ↔ IsLearnedFrom lesson.now reply.now }
{
    lesson.wanted.is_met(reply) && is_allowed(reply)
}

// Appends a lesson from which nothing is learned: it doesn't get the reply that it says, or its call isn't made.
fn push_unmet(
    report: &mut Vec<u8>,
    reporter: &Reporter<'_>,
    lesson: &Test,
    reply: &Reply,
) -> Result<(), AllocError> {
    reporter.push_shown(report, lesson, false, reply)?;
    if lesson.wanted.is_met(reply) {
        report.extend_from_slice(b"a call that isn't made teaches nothing\n")?;
    }
    Ok(())
}

// Prints the same.
fn tell_unmet<E: Write>(reporter: &Reporter<'_>, lesson: &Test, reply: &Reply, err: &mut E) {
    let mut report = Vec::new(reporter.alloc);
    if push_unmet(&mut report, reporter, lesson, reply).is_ok() {
        let _ = err.write_all(report.as_slice());
    }
}

// Prints that a file's tree isn't opened.
fn tell_refusal<E: Write>(reporter: &Reporter<'_>, history: &History, reply: &Reply, err: &mut E) {
    let mut report = Vec::new(reporter.alloc);
    let Ok(line) = refusal_text(reporter.alloc, history.entries(), reply) else {
        return;
    };
    let pushed = push_refusal(
        &mut report,
        reporter.file,
        reporter.section,
        line.as_bytes(),
    );
    if pushed.is_ok() {
        let _ = err.write_all(report.as_slice());
    }
}

// Reports whether each reply is as its lesson says. Prints the first that isn't.
fn are_met<E: Write>(
    reporter: &Reporter<'_>,
    lessons: &[&Test],
    replies: &[Reply],
    err: &mut E,
) -> bool
    requires { length lessons.now ≡ length replies.now }
    ensures met { result ≡ true → AllZip IsLearnedFrom (map (λ t. t.now) lessons.now) replies.now }
    ensures unmet { result ≡ false → HasUnmet (map (λ t. t.now) lessons.now) replies.now }
{
    for i in 0..lessons.len() {
        let lesson = lessons[i];
        let reply = &replies[i];
        if !is_learned_from(lesson, reply) {
            tell_unmet(reporter, lesson, reply, err);
            return false;
        }
    }
    true
}

// Reports whether all lessons were made, and each reply is as its lesson says. Prints it if not.
fn are_answered<E: Write>(
    reporter: &Reporter<'_>,
    lessons: &[&Test],
    made: &CallReplies,
    history: &History,
    err: &mut E,
) -> bool
    requires { HasReplies (length lessons.now) made.now }
    ensures met { result ≡ true → AreMet (map (λ t. t.now) lessons.now) made.now }
    ensures unmet { result ≡ false → AreUnmet (map (λ t. t.now) lessons.now) made.now }
{
    match made {
        CallReplies::Answered(replies) => are_met(reporter, lessons, replies.as_slice(), err),
        CallReplies::Refused(refusal) => {
            tell_refusal(reporter, history, &refusal.reply, err);
            false
        }
    }
}

// Returns the history of a file's lessons, which are made in a tree of its own. None if one doesn't get the reply that
// it says, which is printed.
fn teach<R: Runner, E: Write>(
    runner: &R,
    trees: &Trees<'_, '_>,
    file: &FileLessons<'_>,
    err: &mut E,
) -> Result<Option<History>, Failure>
    ensures taught { IfOk result (λ found. IfSome found (λ history.
        AreTaught (learn_in trees.now.options.now) trees.now.policy.now (picked file.now) history.entries)) }
    ensures unmet { IfOk result (λ found. IfNone found
        (IsUnmet (learn_in trees.now.options.now) trees.now.policy.now (picked file.now))) }
    ensures failure { IfErr result (FailsToMake (learn_in trees.now.options.now) trees.now.policy.now) }
{
    let lessons = file.tests.as_slice();
    let setup = trees.tree(Vec::new(trees.alloc), lessons.len())?;
    let (made, history) = match make_lessons(runner, trees.alloc, setup, lessons) {
        Ok(done) => done,
        Err(fault) => return Err(failure_of(fault)),
    };
    if ran_out(&made) {
        return Err(Failure::NoMemory);
    }
    let reporter = Reporter {
        alloc: trees.alloc,
        style: Style::Usual,
        file: file.name.as_bytes(),
        section: file.section,
    };
    if are_answered(&reporter, lessons, &made, &history, err) {
        Ok(Some(history))
    } else {
        Ok(None)
    }
}

/// Returns the histories of all files' lessons, each of a tree of its own. None if a lesson doesn't get the reply that
/// it says, which is printed.
pub(crate) fn teach_all<R: Runner, E: Write>(
    runner: &R,
    trees: &Trees<'_, '_>,
    files: &[FileLessons<'_>],
    err: &mut E,
) -> Result<Option<Vec<History>>, Failure>
    ensures taught { IfOk result (λ found. IfSome found (λ histories.
        AllZip (AreTaught (learn_in trees.now.options.now) trees.now.policy.now)
        (map picked files.now) (map (λ history. history.entries) histories.items))) }
    ensures unmet { IfOk result (λ found. IfNone found
        (HasUnmetFile (learn_in trees.now.options.now) trees.now.policy.now (map picked files.now))) }
    ensures failure { IfErr result (FailsToMake (learn_in trees.now.options.now) trees.now.policy.now) }
{
    let mut histories = Vec::new(trees.alloc);
    for file in files {
        let history = match teach(runner, trees, file, err) {
            Ok(Some(history)) => history,
            Ok(None) => return Ok(None),
            Err(failure) => return Err(failure),
        };
        if let Err(refused) = histories.push(history) {
            drop(refused);
            return Err(Failure::NoMemory);
        }
    }
    Ok(Some(histories))
}
