//! Judges replies.

ghost use Rattle.std.specs.Prelude.{◌≡◌, ◌+◌, ◌-◌, ◌++◌, ◌<◌, ◌^◌, codes, length, string_bytes, IfOk, OnOk};
ghost use Rattle.std.specs.Prelude.{if◌then◌else◌};
ghost use Rattle.ll_wire.specs.Grammar.{reply_line};
ghost use Rattle.ll_session.specs.CallsRun.{call_line};
ghost use Rattle.ll_check.specs.Report.{Judges, expected, judged, label, plain, shown, texts, titled};
ghost use Rattle.ll_check.specs.Styles.{test_in};

use crate::check_text::Test;
use crate::styles::{Syntax, TestTexts};
use crate::wanted::{Wanted, push_wanted};
use ll_program::body_of;
use ll_seq::Reply;
use ll_wire::{command_text, escaped, is_spelled, reply_line};
use std::alloc::{AllocError, Global};

/// The style of a report: lines of text on fewer or more of the tests, or all tests for other programs.
#[derive(Clone, Copy, Debug, PartialEq, Eq)]
pub enum Style {
    /// No test.
    Quiet,
    /// Those that fail.
    Usual,
    Verbose,
    /// TAP, version 14.
    Tap,
    /// JUnit's XML.
    Junit,
    /// An object of JSON for each test, on a line of its own.
    Json,
}

/// The number of tests that pass, and of those that fail.
#[derive(Clone, Copy, Debug, PartialEq, Eq)]
pub struct Tally {
    pub passed: u64,
    pub failed: u64,
}

// Appends what is expected.
fn push_expected(out: &mut Vec<u8>, alloc: Global, wanted: &Wanted) -> Result<(), AllocError>
    ensures { OnOk result (out.new.items ≡ out.old.items ++ expected wanted.now) }
{
    out.extend_from_slice(b"expected ")?;
    push_wanted(out, alloc, wanted)
}

/// Returns the line of the test's command.
pub fn command_of(alloc: Global, test: &Test) -> Result<String, AllocError>
    ensures { IfOk result (λ line. string_bytes line ≡ call_line test.now.call) }
{
    is_spelled(&test.call.call);
    command_text(alloc, test.call.client, &test.call.call)
}

/// Appends the name of a section, if it has one. Errors: memory ran out.
pub(crate) fn push_label(out: &mut Vec<u8>, section: &[u8]) -> Result<(), AllocError>
    ensures { OnOk result (out.new.items ≡ out.old.items ++ label section.now) }
{
    if section.is_empty() {
        return Ok(());
    }
    out.extend_from_slice(b"[")?;
    out.extend_from_slice(section)?;
    out.extend_from_slice(b"] ")
}

// Appends the place, the section's name and the command.
fn push_title(
    out: &mut Vec<u8>,
    alloc: Global,
    file: &[u8],
    section: &[u8],
    test: &Test,
) -> Result<(), AllocError>
    ensures { OnOk result (out.new.items ≡ out.old.items ++ titled file.now section.now test.now) }
{
    let number = test.line.to_string(alloc)?;
    let command = command_of(alloc, test)?;
    out.extend_from_slice(file)?;
    out.extend_from_slice(b":")?;
    out.extend_from_slice(number.as_bytes())?;
    out.extend_from_slice(b": ")?;
    push_label(out, section)?;
    out.extend_from_slice(command.as_bytes())
}

// Appends the reply.
fn push_got(out: &mut Vec<u8>, alloc: Global, reply: &Reply) -> Result<(), AllocError>
    ensures { OnOk result (out.new.items ≡ out.old.items ++ (codes "got " ++ reply_line reply.now)) }
{
    let line = reply_line(alloc, reply)?;
    out.extend_from_slice(b"got ")?;
    out.extend_from_slice(line.as_bytes())
}

impl Tally {
    /// Counts one more test.
    pub(crate) fn count(&mut self, passes: bool)
        requires passed { self.old.passed < 2 ^ 64 - 1 }
        requires failed { self.old.failed < 2 ^ 64 - 1 }
        ensures passed { self.new.passed ≡ self.old.passed + (if passes then 1 else 0) }
        ensures failed { self.new.failed ≡ self.old.failed + (if passes then 0 else 1) }
    {
        if passes {
            self.passed += 1;
        } else {
            self.failed += 1;
        }
    }
}

/// Reports on the tests of this section of this file, in this style.
#[derive(Clone, Copy)]
pub struct Reporter<'a> {
    pub alloc: Global,
    pub style: Style,
    pub file: &'a [u8],
    /// The section's name, or nothing.
    pub section: &'a [u8],
}

impl Reporter<'_> {
    // Appends what is shown of a test as lines of text.
    fn push_plain(
        &self,
        out: &mut Vec<u8>,
        test: &Test,
        passes: bool,
        reply: &Reply,
    ) -> Result<(), AllocError>
        ensures { OnOk result (out.new.items ≡ out.old.items
            ++ plain self.now.file.now self.now.section.now (judged test.now reply.now passes)) }
    {
        push_title(out, self.alloc, self.file, self.section, test)?;
        if !passes {
            push_expected(out, self.alloc, &test.wanted)?;
        }
        push_got(out, self.alloc, reply)
    }

    // Appends a test in this syntax.
    fn push_in(
        &self,
        out: &mut Vec<u8>,
        syntax: Syntax,
        test: &Test,
        passes: bool,
        reply: &Reply,
    ) -> Result<(), AllocError>
        ensures { OnOk result (out.new.items ≡ out.old.items
            ++ test_in syntax (texts self.now.file.now self.now.section.now (judged test.now reply.now passes))) }
    {
        let file = escaped(self.alloc, self.file)?;
        let line = test.line.to_string(self.alloc)?;
        let command = command_of(self.alloc, test)?;
        let got = reply_line(self.alloc, reply)?;
        let mut wanted = Vec::new(self.alloc);
        push_wanted(&mut wanted, self.alloc, &test.wanted)?;
        let texts = TestTexts {
            file: file.as_bytes(),
            section: self.section,
            line: line.as_bytes(),
            command: body_of(command.as_bytes()),
            wanted: body_of(wanted.as_slice()),
            got: body_of(got.as_bytes()),
            passes,
        };
        texts.push_in(out, syntax)
    }

    /// Appends what is shown of a test, if it is shown.
    pub(crate) fn push_shown(
        &self,
        out: &mut Vec<u8>,
        test: &Test,
        passes: bool,
        reply: &Reply,
    ) -> Result<(), AllocError>
        ensures { OnOk result (out.new.items ≡ out.old.items
            ++ shown self.now.style self.now.file.now self.now.section.now (judged test.now reply.now passes)) }
    {
        match self.style {
            Style::Quiet => Ok(()),
            Style::Usual if passes => Ok(()),
            Style::Usual | Style::Verbose => self.push_plain(out, test, passes, reply),
            Style::Tap => self.push_in(out, Syntax::Tap, test, passes, reply),
            Style::Junit => self.push_in(out, Syntax::Xml, test, passes, reply),
            Style::Json => self.push_in(out, Syntax::Json, test, passes, reply),
        }
    }

    /// Judges a section's tests by their replies, and appends the report on them.
    pub fn judge(
        &self,
        out: &mut Vec<u8>,
        tests: &[Test],
        replies: &[Reply],
    ) -> Result<Tally, AllocError>
        requires { length tests.now ≡ length replies.now }
        ensures { IfOk result (Judges self.now.style self.now.file.now self.now.section.now tests.now replies.now
            out.old.items out.new.items) }
    {
        let mut tally = Tally {
            passed: 0,
            failed: 0,
        };
        for i in 0..tests.len() {
            let test = &tests[i];
            let reply = &replies[i];
            let passes = test.wanted.is_met(reply);
            tally.count(passes);
            self.push_shown(out, test, passes, reply)?;
        }
        Ok(tally)
    }
}
