//! The check of one section.

ghost use Rattle.std.specs.Prelude.{◌≡◌, ◌++◌, length, All, IfOk, IfErr, OnOk};
ghost use Rattle.ll_session.specs.Run.{MayEnd};
ghost use Rattle.ll_check.specs.Report.{IsChecked, Tells, refused_texts, shown_refused};
ghost use Rattle.ll_check.specs.Replied.{HasReplies};
ghost use Rattle.ll_check.specs.Styles.{test_in};
ghost use Rattle.ll_wire.specs.Entries.{IsEntry};

use crate::check_text::Test;
use crate::refused_profile::{push_refusal, refusal_text};
use crate::reporter::{Reporter, Style, Tally};
use crate::runner::Runner;
use crate::styles::Syntax;
use crate::test_run::make;
use ll_program::body_of;
use ll_seq::History;
use ll_session::{CallReplies, RunFault, Setup};
use ll_wire::SessionFault;
use std::alloc::AllocError;

impl Reporter<'_> {
    // Appends in this syntax that the profile is refused, as a test that fails.
    fn push_refused_in(
        &self,
        out: &mut Vec<u8>,
        syntax: Syntax,
        line: &[u8],
    ) -> Result<(), AllocError>
        ensures { OnOk result (out.new.items ≡ out.old.items
            ++ test_in syntax (refused_texts self.now.file.now self.now.section.now line.now)) }
    {
        self.push_unspelled(out, syntax, b"profile", b"accepted", body_of(line))
    }

    // Appends that the profile is refused, which this line tells, unless no test is shown.
    fn push_refused(&self, out: &mut Vec<u8>, line: &[u8]) -> Result<(), AllocError>
        ensures { OnOk result (out.new.items ≡ out.old.items
            ++ shown_refused self.now.style self.now.file.now self.now.section.now line.now) }
    {
        match self.style {
            Style::Quiet => Ok(()),
            Style::Usual | Style::Verbose => push_refusal(out, self.file, self.section, line),
            Style::Tap => self.push_refused_in(out, Syntax::Tap, line),
            Style::Junit => self.push_refused_in(out, Syntax::Xml, line),
            Style::Json => self.push_refused_in(out, Syntax::Json, line),
        }
    }

    // Appends the report on the tests.
    fn report(
        &self,
        out: &mut Vec<u8>,
        tests: &[Test],
        made: &CallReplies,
        history: &History,
    ) -> Result<Tally, AllocError>
        requires entries { All IsEntry history.now.entries }
        requires replies { HasReplies (length tests.now) made.now }
        ensures { IfOk result (Tells self.now.style self.now.file.now self.now.section.now tests.now made.now
            out.old.items out.new.items) }
    {
        match made {
            CallReplies::Answered(replies) => self.judge(out, tests, replies.as_slice()),
            CallReplies::Refused(refusal) => {
                let line = refusal_text(self.alloc, history.entries(), &refusal.reply)?;
                self.push_refused(out, line.as_bytes())?;
                Ok(Tally {
                    passed: 0,
                    failed: 1,
                })
            }
        }
    }
}

/// The result of a section's check.
#[derive(Drop)]
pub struct CheckedFile {
    pub tally: Tally,
    pub made: CallReplies,
    /// The history of the section's tree.
    pub history: History,
}

/// Makes a section's tests in a tree of its own, judges the replies, and appends the report. Errors: a fault of the
/// run, or memory ran out.
pub fn check_file<R: Runner>(
    runner: &R,
    out: &mut Vec<u8>,
    reporter: &Reporter<'_>,
    setup: Setup,
    tests: &[Test],
) -> Result<CheckedFile, RunFault>
    ensures checked { IfOk result (λ checked. IsChecked reporter.now.style setup reporter.now.file.now
        reporter.now.section.now tests.now checked.made checked.history.entries out.old.items out.new.items
        checked.tally) }
    ensures fault { IfErr result (λ fault. MayEnd setup fault) }
{
    let (made, history) = make(runner, reporter.alloc, setup, tests)?;
    match reporter.report(out, tests, &made, &history) {
        Ok(tally) => Ok(CheckedFile {
            tally,
            made,
            history,
        }),
        Err(_) => Err(RunFault::Session(SessionFault::NoMemory)),
    }
}
