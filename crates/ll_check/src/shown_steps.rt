//! The reports on tests of schedules.

ghost use Rattle.std.specs.Prelude.{◌≡◌, ◌++◌, OnOk, codes};
ghost use Rattle.ll_check.specs.Races.{judged_step, plain_step, shown_step, step_texts, titled_step};
ghost use Rattle.ll_check.specs.Styles.{test_in};

use crate::reporter::{Reporter, Style};
use crate::steps::StepTest;
use crate::styles::{Syntax, TestTexts};
use ll_program::body_of;
use ll_wire::escaped;
use std::alloc::{AllocError, Global};

// Appends the place and the step.
fn push_step_title(
    out: &mut Vec<u8>,
    alloc: Global,
    file: &[u8],
    test: &StepTest,
) -> Result<(), AllocError>
    ensures { OnOk result (out.new.items ≡ out.old.items ++ titled_step file.now test.now) }
{
    let number = test.line.to_string(alloc)?;
    out.extend_from_slice(file)?;
    out.extend_from_slice(b":")?;
    out.extend_from_slice(number.as_bytes())?;
    out.extend_from_slice(b": ")?;
    out.extend_from_slice(test.text.as_slice())?;
    out.extend_from_slice(b"\n")
}

// Appends what is expected.
fn push_step_expected(out: &mut Vec<u8>, told: &[u8]) -> Result<(), AllocError>
    ensures { OnOk result (out.new.items ≡ out.old.items ++ (codes "expected " ++ (told.now ++ codes "\n"))) }
{
    out.extend_from_slice(b"expected ")?;
    out.extend_from_slice(told)?;
    out.extend_from_slice(b"\n")
}

// Appends the outcome that came, which is a line.
fn push_step_got(out: &mut Vec<u8>, got: &[u8]) -> Result<(), AllocError>
    ensures { OnOk result (out.new.items ≡ out.old.items ++ (codes "got " ++ got.now)) }
{
    out.extend_from_slice(b"got ")?;
    out.extend_from_slice(got)
}

impl Reporter<'_> {
    // Appends what is shown of a test as lines of text. The outcome is a line.
    fn push_step_plain(
        &self,
        out: &mut Vec<u8>,
        test: &StepTest,
        passes: bool,
        got: &[u8],
    ) -> Result<(), AllocError>
        ensures { OnOk result (out.new.items ≡ out.old.items
            ++ plain_step self.now.file.now (judged_step test.now got.now passes)) }
    {
        push_step_title(out, self.alloc, self.file, test)?;
        if !passes {
            push_step_expected(out, test.told.as_slice())?;
        }
        push_step_got(out, got)
    }

    // Appends a test in this syntax.
    fn push_step_in(
        &self,
        out: &mut Vec<u8>,
        syntax: Syntax,
        test: &StepTest,
        passes: bool,
        got: &[u8],
    ) -> Result<(), AllocError>
        ensures { OnOk result (out.new.items ≡ out.old.items
            ++ test_in syntax (step_texts self.now.file.now (judged_step test.now got.now passes))) }
    {
        let file = escaped(self.alloc, self.file)?;
        let line = test.line.to_string(self.alloc)?;
        let texts = TestTexts {
            file: file.as_bytes(),
            section: b"",
            line: line.as_bytes(),
            command: test.text.as_slice(),
            wanted: test.told.as_slice(),
            got: body_of(got),
            passes,
        };
        texts.push_in(out, syntax)
    }

    /// Appends what is shown of a test of a schedule, if it is shown. The outcome that came is a line.
    pub(crate) fn push_step(
        &self,
        out: &mut Vec<u8>,
        test: &StepTest,
        passes: bool,
        got: &[u8],
    ) -> Result<(), AllocError>
        ensures { OnOk result (out.new.items ≡ out.old.items
            ++ shown_step self.now.style self.now.file.now (judged_step test.now got.now passes)) }
    {
        match self.style {
            Style::Quiet => Ok(()),
            Style::Usual if passes => Ok(()),
            Style::Usual | Style::Verbose => self.push_step_plain(out, test, passes, got),
            Style::Tap => self.push_step_in(out, Syntax::Tap, test, passes, got),
            Style::Junit => self.push_step_in(out, Syntax::Xml, test, passes, got),
            Style::Json => self.push_step_in(out, Syntax::Json, test, passes, got),
        }
    }
}
