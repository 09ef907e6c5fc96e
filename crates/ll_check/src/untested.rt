//! Reports on sections that have no test.

ghost use Rattle.std.specs.Prelude.{◌≡◌, ◌++◌, IfOk, OnOk};
ghost use Rattle.ll_check.specs.Report.{CountsUntested, shown_untested, unspelled, untested_texts};
ghost use Rattle.ll_check.specs.Styles.{test_in};

use crate::reporter::{Reporter, Style, Tally};
use crate::styles::{Syntax, TestTexts};
use ll_wire::escaped;
use std::alloc::AllocError;

impl Reporter<'_> {
    /// Appends in this syntax a failed test of this name that no line spells.
    pub(crate) fn push_unspelled(
        &self,
        out: &mut Vec<u8>,
        syntax: Syntax,
        name: &[u8],
        wanted: &[u8],
        got: &[u8],
    ) -> Result<(), AllocError>
        ensures { OnOk result (out.new.items ≡ out.old.items ++ test_in syntax
            (unspelled self.now.file.now self.now.section.now name.now wanted.now got.now)) }
    {
        let file = escaped(self.alloc, self.file)?;
        let texts = TestTexts {
            file: file.as_bytes(),
            section: self.section,
            line: b"0",
            command: name,
            wanted,
            got,
            passes: false,
        };
        texts.push_in(out, syntax)
    }

    // Appends in this syntax that the section has no test.
    fn push_untested_in(&self, out: &mut Vec<u8>, syntax: Syntax) -> Result<(), AllocError>
        ensures { OnOk result (out.new.items ≡ out.old.items
            ++ test_in syntax (untested_texts self.now.file.now self.now.section.now)) }
    {
        self.push_unspelled(out, syntax, b"tests", b"some", b"none")
    }

    // Appends that the section has no test, if that is shown.
    fn push_untested(&self, out: &mut Vec<u8>) -> Result<(), AllocError>
        ensures { OnOk result (out.new.items ≡ out.old.items
            ++ shown_untested self.now.style self.now.file.now self.now.section.now) }
    {
        match self.style {
            Style::Quiet | Style::Usual | Style::Verbose => Ok(()),
            Style::Tap => self.push_untested_in(out, Syntax::Tap),
            Style::Junit => self.push_untested_in(out, Syntax::Xml),
            Style::Json => self.push_untested_in(out, Syntax::Json),
        }
    }

    /// Counts a section without a test as a failed test more, and appends that if it is shown. Errors: memory ran out.
    pub(crate) fn count_untested(
        &self,
        out: &mut Vec<u8>,
        is_tested: bool,
        tested: Tally,
    ) -> Result<Tally, AllocError>
        ensures { IfOk result (CountsUntested self.now.style self.now.file.now self.now.section.now is_tested
            out.old.items out.new.items tested) }
    {
        if is_tested {
            return Ok(tested);
        }
        self.push_untested(out)?;
        let Some(failed) = tested.failed.checked_add(1) else {
            return Err(AllocError);
        };
        Ok(Tally {
            passed: tested.passed,
            failed,
        })
    }
}
