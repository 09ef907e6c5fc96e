//! Writes tests for other programs: as TAP, as JUnit's XML, and as JSON.

ghost use Rattle.std.specs.Prelude.{◌≡◌, ◌++◌, OnOk, decimal};
ghost use Rattle.ll_check.specs.Styles.{byte_in, head, json_end, json_section, json_sums, json_test, json_verdict};
ghost use Rattle.ll_check.specs.Styles.{junit_end, junit_got, junit_head, junit_section, junit_test, sum_line, tail};
ghost use Rattle.ll_check.specs.Styles.{tap_end, tap_got, tap_head, tap_reason, tap_section, tap_test, tap_verdict};
ghost use Rattle.ll_check.specs.Styles.{test_in, text_in, texts_of};

use crate::reporter::{Style, Tally};
use std::alloc::{AllocError, Global};

// Appends these bytes.
fn push_bytes(out: &mut Vec<u8>, bytes: &[u8]) -> Result<(), AllocError>
    ensures { OnOk result (out.new.items ≡ out.old.items ++ bytes.now) }
{
    out.extend_from_slice(bytes)
}

/// The syntax of a report: what must be escaped in its texts.
#[derive(Clone, Copy)]
pub(crate) enum Syntax {
    Tap,
    Json,
    Xml,
}

impl Syntax {
    // Appends a character, or what stands for it.
    fn push_byte(self, out: &mut Vec<u8>, byte: u8) -> Result<(), AllocError>
        ensures { OnOk result (out.new.items ≡ out.old.items ++ byte_in self byte) }
    {
        match (self, byte) {
            (Syntax::Tap | Syntax::Json, b'\\') => push_bytes(out, b"\\\\"),
            (Syntax::Tap, b'#') => push_bytes(out, b"\\#"),
            (Syntax::Json, b'"') => push_bytes(out, b"\\\""),
            (Syntax::Xml, b'&') => push_bytes(out, b"&amp;"),
            (Syntax::Xml, b'"') => push_bytes(out, b"&quot;"),
            (Syntax::Xml, b'<') => push_bytes(out, b"&lt;"),
            (Syntax::Xml, b'>') => push_bytes(out, b"&gt;"),
            _ => {
                out.push(byte)?;
                Ok(())
            }
        }
    }

    // Appends a text.
    fn push(self, out: &mut Vec<u8>, text: &[u8]) -> Result<(), AllocError>
        ensures { OnOk result (out.new.items ≡ out.old.items ++ text_in self text.now) }
    {
        for byte in text {
            self.push_byte(out, *byte)?;
        }
        Ok(())
    }
}

/// A test that was made, as texts of printed characters.
#[derive(Clone, Copy)]
pub(crate) struct TestTexts<'a> {
    pub file: &'a [u8],
    /// The name of its section, or nothing.
    pub section: &'a [u8],
    /// The number of its line.
    pub line: &'a [u8],
    pub command: &'a [u8],
    pub wanted: &'a [u8],
    pub got: &'a [u8],
    pub passes: bool,
}

impl TestTexts<'_> {
    // Appends the reply that came, as YAML.
    fn push_tap_got(&self, out: &mut Vec<u8>) -> Result<(), AllocError>
        ensures { OnOk result (out.new.items ≡ out.old.items ++ tap_got (texts_of self.now)) }
    {
        Syntax::Json.push(out, self.got)?;
        push_bytes(out, b"\"\n  ...\n")
    }

    // Appends why it fails, if it does.
    fn push_tap_reason(&self, out: &mut Vec<u8>) -> Result<(), AllocError>
        ensures { OnOk result (out.new.items ≡ out.old.items ++ tap_reason (texts_of self.now)) }
    {
        if self.passes {
            return Ok(());
        }
        push_bytes(out, b"  ---\n  expected: \"")?;
        Syntax::Json.push(out, self.wanted)?;
        push_bytes(out, b"\"\n  got: \"")?;
        self.push_tap_got(out)?;
        Ok(())
    }

    fn push_tap_verdict(&self, out: &mut Vec<u8>) -> Result<(), AllocError>
        ensures { OnOk result (out.new.items ≡ out.old.items ++ tap_verdict self.now.passes) }
    {
        if self.passes {
            push_bytes(out, b"ok - ")
        } else {
            push_bytes(out, b"not ok - ")
        }
    }

    // Appends the name of its section, if it has one.
    fn push_tap_section(&self, out: &mut Vec<u8>) -> Result<(), AllocError>
        ensures { OnOk result (out.new.items ≡ out.old.items ++ tap_section self.now.section.now) }
    {
        if self.section.is_empty() {
            return Ok(());
        }
        push_bytes(out, b"[")?;
        Syntax::Tap.push(out, self.section)?;
        push_bytes(out, b"] ")
    }

    // Appends its command, and why it fails, if it does.
    fn push_tap_end(&self, out: &mut Vec<u8>) -> Result<(), AllocError>
        ensures { OnOk result (out.new.items ≡ out.old.items ++ tap_end (texts_of self.now)) }
    {
        Syntax::Tap.push(out, self.command)?;
        push_bytes(out, b"\n")?;
        self.push_tap_reason(out)?;
        Ok(())
    }

    fn push_tap(&self, out: &mut Vec<u8>) -> Result<(), AllocError>
        ensures { OnOk result (out.new.items ≡ out.old.items ++ tap_test (texts_of self.now)) }
    {
        self.push_tap_verdict(out)?;
        Syntax::Tap.push(out, self.file)?;
        push_bytes(out, b":")?;
        push_bytes(out, self.line)?;
        push_bytes(out, b": ")?;
        self.push_tap_section(out)?;
        self.push_tap_end(out)?;
        Ok(())
    }

    // Appends the reply that came, and the end of a test that fails.
    fn push_junit_got(&self, out: &mut Vec<u8>) -> Result<(), AllocError>
        ensures { OnOk result (out.new.items ≡ out.old.items ++ junit_got (texts_of self.now)) }
    {
        Syntax::Xml.push(out, self.got)?;
        push_bytes(out, b"\"/></testcase>\n")
    }

    fn push_junit_end(&self, out: &mut Vec<u8>) -> Result<(), AllocError>
        ensures { OnOk result (out.new.items ≡ out.old.items ++ junit_end (texts_of self.now)) }
    {
        if self.passes {
            return push_bytes(out, b"\"/>\n");
        }
        push_bytes(out, b"\"><failure message=\"expected ")?;
        Syntax::Xml.push(out, self.wanted)?;
        push_bytes(out, b", got ")?;
        self.push_junit_got(out)?;
        Ok(())
    }

    // Appends the name of its section, if it has one.
    fn push_junit_section(&self, out: &mut Vec<u8>) -> Result<(), AllocError>
        ensures { OnOk result (out.new.items ≡ out.old.items ++ junit_section self.now.section.now) }
    {
        if self.section.is_empty() {
            return Ok(());
        }
        push_bytes(out, b" [")?;
        Syntax::Xml.push(out, self.section)?;
        push_bytes(out, b"]")
    }

    fn push_junit(&self, out: &mut Vec<u8>) -> Result<(), AllocError>
        ensures { OnOk result (out.new.items ≡ out.old.items ++ junit_test (texts_of self.now)) }
    {
        push_bytes(out, b"<testcase classname=\"")?;
        Syntax::Xml.push(out, self.file)?;
        self.push_junit_section(out)?;
        push_bytes(out, b"\" name=\"")?;
        push_bytes(out, self.line)?;
        push_bytes(out, b": ")?;
        Syntax::Xml.push(out, self.command)?;
        self.push_junit_end(out)?;
        Ok(())
    }

    // Appends whether it passes.
    fn push_passes(&self, out: &mut Vec<u8>) -> Result<(), AllocError>
        ensures { OnOk result (out.new.items ≡ out.old.items ++ json_verdict self.now.passes) }
    {
        if self.passes {
            push_bytes(out, b"\", \"passes\": true}\n")
        } else {
            push_bytes(out, b"\", \"passes\": false}\n")
        }
    }

    fn push_json_end(&self, out: &mut Vec<u8>) -> Result<(), AllocError>
        ensures { OnOk result (out.new.items ≡ out.old.items ++ json_end (texts_of self.now)) }
    {
        push_bytes(out, b"\", \"expected\": \"")?;
        Syntax::Json.push(out, self.wanted)?;
        push_bytes(out, b"\", \"got\": \"")?;
        Syntax::Json.push(out, self.got)?;
        self.push_passes(out)
    }

    // Appends the name of its section, if it has one.
    fn push_json_section(&self, out: &mut Vec<u8>) -> Result<(), AllocError>
        ensures { OnOk result (out.new.items ≡ out.old.items ++ json_section self.now.section.now) }
    {
        if self.section.is_empty() {
            return Ok(());
        }
        push_bytes(out, b"\", \"section\": \"")?;
        Syntax::Json.push(out, self.section)?;
        Ok(())
    }

    fn push_json(&self, out: &mut Vec<u8>) -> Result<(), AllocError>
        ensures { OnOk result (out.new.items ≡ out.old.items ++ json_test (texts_of self.now)) }
    {
        push_bytes(out, b"{\"file\": \"")?;
        Syntax::Json.push(out, self.file)?;
        self.push_json_section(out)?;
        push_bytes(out, b"\", \"line\": ")?;
        push_bytes(out, self.line)?;
        push_bytes(out, b", \"command\": \"")?;
        Syntax::Json.push(out, self.command)?;
        self.push_json_end(out)?;
        Ok(())
    }

    /// Appends the test in this syntax.
    pub(crate) fn push_in(&self, out: &mut Vec<u8>, syntax: Syntax) -> Result<(), AllocError>
        ensures { OnOk result (out.new.items ≡ out.old.items ++ test_in syntax (texts_of self.now)) }
    {
        match syntax {
            Syntax::Tap => self.push_tap(out),
            Syntax::Json => self.push_json(out),
            Syntax::Xml => self.push_junit(out),
        }
    }
}

// Appends this number.
fn push_number(out: &mut Vec<u8>, alloc: Global, number: u64) -> Result<(), AllocError>
    ensures { OnOk result (out.new.items ≡ out.old.items ++ decimal number) }
{
    let digits = number.to_string(alloc)?;
    push_bytes(out, digits.as_bytes())
}

// Appends the line with how many tests pass and fail.
fn push_sum(out: &mut Vec<u8>, alloc: Global, sum: Tally) -> Result<(), AllocError>
    ensures { OnOk result (out.new.items ≡ out.old.items ++ sum_line sum) }
{
    push_number(out, alloc, sum.passed)?;
    push_bytes(out, b" passed, ")?;
    push_number(out, alloc, sum.failed)?;
    push_bytes(out, b" failed\n")
}

// Appends this number and what follows it.
fn push_ended(out: &mut Vec<u8>, alloc: Global, number: u64, end: &[u8]) -> Result<(), AllocError>
    ensures { OnOk result (out.new.items ≡ out.old.items ++ (decimal number ++ end.now)) }
{
    push_number(out, alloc, number)?;
    push_bytes(out, end)
}

// Appends how many tests there are, as TAP begins.
fn push_plan(out: &mut Vec<u8>, alloc: Global, all: u64) -> Result<(), AllocError>
    ensures { OnOk result (out.new.items ≡ out.old.items ++ tap_head all) }
{
    push_bytes(out, b"TAP version 14\n1..")?;
    push_ended(out, alloc, all, b"\n")
}

// Appends how many tests there are and fail, as JUnit's XML begins.
fn push_suite(out: &mut Vec<u8>, alloc: Global, all: u64, failed: u64) -> Result<(), AllocError>
    ensures { OnOk result (out.new.items ≡ out.old.items ++ junit_head all failed) }
{
    push_bytes(
        out,
        b"<?xml version=\"1.0\" encoding=\"UTF-8\"?>\n<testsuites>\n",
    )?;
    push_bytes(out, b"<testsuite name=\"check\" tests=\"")?;
    push_number(out, alloc, all)?;
    push_bytes(out, b"\" failures=\"")?;
    push_ended(out, alloc, failed, b"\">\n")?;
    Ok(())
}

// Appends an object with how many tests pass and fail.
fn push_sums(out: &mut Vec<u8>, alloc: Global, sum: Tally) -> Result<(), AllocError>
    ensures { OnOk result (out.new.items ≡ out.old.items ++ json_sums sum) }
{
    push_bytes(out, b"{\"passed\": ")?;
    push_number(out, alloc, sum.passed)?;
    push_bytes(out, b", \"failed\": ")?;
    push_ended(out, alloc, sum.failed, b"}\n")?;
    Ok(())
}

impl Style {
    /// Appends what stands before the tests of a report in this style, of which so many pass and fail. Errors: memory
    /// ran out, or there are more tests than a number counts, which no memory holds.
    pub(crate) fn push_head(
        self,
        out: &mut Vec<u8>,
        alloc: Global,
        sum: Tally,
    ) -> Result<(), AllocError>
        ensures { OnOk result (out.new.items ≡ out.old.items ++ head self sum) }
    {
        let Some(all) = sum.passed.checked_add(sum.failed) else {
            return Err(AllocError);
        };
        match self {
            Style::Tap => push_plan(out, alloc, all),
            Style::Junit => push_suite(out, alloc, all, sum.failed),
            Style::Quiet | Style::Usual | Style::Verbose | Style::Json => Ok(()),
        }
    }

    /// Appends what stands after the tests of a report in this style. Errors: memory ran out.
    pub(crate) fn push_tail(
        self,
        out: &mut Vec<u8>,
        alloc: Global,
        sum: Tally,
    ) -> Result<(), AllocError>
        ensures { OnOk result (out.new.items ≡ out.old.items ++ tail self sum) }
    {
        match self {
            Style::Tap => Ok(()),
            Style::Junit => push_bytes(out, b"</testsuite>\n</testsuites>\n"),
            Style::Json => push_sums(out, alloc, sum),
            Style::Quiet | Style::Usual | Style::Verbose => push_sum(out, alloc, sum),
        }
    }
}
