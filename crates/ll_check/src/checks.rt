//! Checks of files, as the program makes them.

ghost use Rattle.std.specs.Prelude.{◌≡◌, ◌≤◌, ◌+◌, ◌++◌, ℕ, IfErr, IfOk, length, map};
ghost use Rattle.std.specs.Option.{option_map_or};
ghost use Rattle.ll_rights.specs.declared.limits.TheConstants.{HISTORY_ENTRIES};
ghost use Rattle.std.specs.List.{list_all};
ghost use Rattle.ll_wire.specs.Transcript.{Writes};
ghost use Rattle.ll_program.specs.Options.{checked_in};
ghost use Rattle.ll_program.specs.declared.checked.Checked as checked;
ghost use Rattle.ll_check.specs.Checks.{has_test, tests_of};
ghost use Rattle.ll_check.specs.Files.{AreChecked, AreTestsChecked, AreTestsIn, Concludes, HasBadLine, IsCheck};
ghost use Rattle.ll_check.specs.Files.{IsFileChecked, IsSetFor};
ghost use Rattle.ll_check.specs.Files.{HasBegun, IsStopped, MayFail, MayStop};
ghost use Rattle.ll_check.specs.Files.{end_of, room_for, source_of, style_of};
ghost use Rattle.ll_check.specs.Styles.{head, tail};

use crate::check_text::{ReadFile, read_sections};
use crate::missteps::blame_step;
use crate::policies::{tell_own, tree_for};
use crate::runner::Runner;
use crate::trees::in_memory;
use crate::{CheckFault, LinesOf, Notes, Reporter, Style, Tally, check_file, explain, tell_denied};
use ll_program::{CheckOptions, Checked, Failure, ReportForm, header_of, setup_of, write_bytes};
use ll_rights::limits::HISTORY_ENTRIES;
use ll_session::Setup;
use std::alloc::{AllocError, Global};
use std::io::Write;

/// A file of checks, or a policy's: its name, and its whole text.
#[derive(Drop)]
pub struct NamedText<'a> {
    pub name: &'a str,
    pub text: Vec<u8>,
}

/// What is to be checked: the options, the text of the policy that they name, if any, the policies that sections of the
/// files name for themselves, by their paths, and the files.
#[derive(Clone, Copy)]
pub struct CheckInput<'a, 'w, 'p> {
    pub options: &'a CheckOptions<'w>,
    pub policy: &'a [u8],
    pub policies: &'a [NamedText<'p>],
    pub files: &'a [NamedText<'w>],
}

/// What a file's tests try: a command of a client, or a step of a schedule.
#[derive(Clone, Copy)]
pub(crate) enum TestKind {
    Command,
    Step,
}

impl TestKind {
    fn name(self) -> &'static str {
        match self {
            TestKind::Command => "command",
            TestKind::Step => "step",
        }
    }
}

/// Why a file can't be read, and its index, from 0.
#[derive(Clone, Copy)]
pub(crate) struct BadFile {
    pub file: usize,
    pub fault: CheckFault,
}

/// Why sections aren't checked to the end, and the index of the one at which, from 0, if it is one.
#[derive(Drop)]
struct Stopped {
    section: Option<usize>,
    failure: Failure,
}

/// Reads all files, up to the first that can't be read. Returns the sections of all.
pub(crate) fn read_all<'w>(
    alloc: Global,
    texts: &[NamedText<'w>],
) -> Result<Vec<ReadFile<'w>>, BadFile>
    ensures read { IfOk result (λ files. AreTestsIn (map source_of texts.now) (map tests_of files.items)) }
    ensures bad { IfErr result (λ bad. (line : ℕ) → bad.fault ≡ CheckFault.BadLine line
        → HasBadLine (map source_of texts.now)) }
{
    let mut files = Vec::new(alloc);
    for (file, text) in texts.iter().enumerate() {
        let mut sections = match read_sections(alloc, text.name, text.text.as_slice()) {
            Ok(sections) => sections,
            Err(fault) => return Err(BadFile { file, fault }),
        };
        if let Err(_) = files.append(&mut sections) {
            let fault = CheckFault::NoMemory;
            return Err(BadFile { file, fault });
        }
    }
    Ok(files)
}

// Returns the number of calls that a tree's loader makes.
fn loader_calls(setup: &Setup) -> usize
    ensures { result ≡ option_map_or (λ calls. length calls.items) setup.now.loader 0 }
{
    match &setup.loader {
        Some(calls) => calls.len(),
        None => 0,
    }
}

// Returns the room that the history needs for all calls of a check.
fn room_of(setup: &Setup, tests: usize) -> usize
    ensures room { result ≡ room_for setup.now tests }
    ensures some { 1 ≤ result }
    ensures most { result ≤ HISTORY_ENTRIES }
{
    loader_calls(setup)
        .saturating_add(setup.profile.len())
        .saturating_add(tests)
        .saturating_add(2)
        .min(HISTORY_ENTRIES)
}

/// Returns the setup with room in its history for this many tests.
pub(crate) fn with_room(mut setup: Setup, tests: usize) -> Setup
    ensures rules { result.rules ≡ setup.rules }
    ensures nodes { result.nodes ≡ setup.nodes }
    ensures history { result.history ≡ room_for setup tests }
    ensures loader { result.loader ≡ setup.loader }
    ensures profile { result.profile ≡ setup.profile }
{
    setup.history = room_of(&setup, tests);
    setup
}

// Returns the setup of a section's tree.
fn setup_for(
    alloc: Global,
    input: &CheckInput<'_, '_, '_>,
    file: &ReadFile<'_>,
    tests: usize,
) -> Result<Setup, Failure>
    ensures setup { IfOk result (IsSetFor (checked_in input.now.options.now) input.now.policy.now
        (map source_of input.now.policies.now) (tests_of file.now).own tests) }
    ensures failure { IfErr result (IsStopped (checked_in input.now.options.now) input.now.policy.now
        (map source_of input.now.policies.now) (tests_of file.now)) }
{
    let Some(mut text) = input.policy_for(file) else {
        return Err(Failure::File);
    };
    match setup_of(alloc, &tree_for(input.options, file), &mut text) {
        Ok(setup) => Ok(with_room(setup, tests)),
        Err(failure) => Err(in_memory(failure)),
    }
}

/// Returns the style of the report that the options ask for.
pub(crate) fn style_of(options: &CheckOptions) -> Style
    ensures { result ≡ style_of (checked_in options.now) }
{
    match options.form {
        Some(ReportForm::Tap) => Style::Tap,
        Some(ReportForm::Junit) => Style::Junit,
        Some(ReportForm::Json) => Style::Json,
        Some(ReportForm::Text) | None if options.quiet => Style::Quiet,
        Some(ReportForm::Text) | None if options.verbose => Style::Verbose,
        Some(ReportForm::Text) | None => Style::Usual,
    }
}

impl ReadFile<'_> {
    // Returns what reports on the section.
    fn reporter(&self, alloc: Global, options: &CheckOptions) -> Reporter<'_>
        ensures style { result.style ≡ style_of (checked_in options.now) }
        ensures file { result.file.now ≡ (tests_of self.now).name }
        ensures section { result.section.now ≡ (tests_of self.now).section }
    {
        Reporter {
            alloc,
            style: style_of(options),
            file: self.name.as_bytes(),
            section: self.section.as_slice(),
        }
    }
}

// Makes the tests of a section, and appends the report on them.
fn check_tests<R: Runner, N: Notes>(
    runner: &R,
    alloc: Global,
    input: &CheckInput<'_, '_, '_>,
    file: &ReadFile<'_>,
    report: &mut Vec<u8>,
    notes: &mut N,
) -> Result<Tally, Failure>
    ensures checked { IfOk result (AreTestsChecked (checked_in input.now.options.now) input.now.policy.now
        (map source_of input.now.policies.now) (tests_of file.now) report.old.items report.new.items) }
    ensures failure { IfErr result (IsStopped (checked_in input.now.options.now) input.now.policy.now
        (map source_of input.now.policies.now) (tests_of file.now)) }
{
    let tests = file.checks.tests.as_slice();
    let setup = setup_for(alloc, input, file, tests.len())?;
    let header = header_of(&setup);
    let reporter = file.reporter(alloc, input.options);
    let checked = match check_file(runner, report, &reporter, setup, tests) {
        Ok(checked) => checked,
        Err(fault) => return Err(in_memory(Failure::of_run(fault))),
    };
    if reporter.style != Style::Quiet && notes.are_wanted() {
        tell_denied(notes, &reporter, &header, tests, &checked);
    }
    Ok(checked.tally)
}

// Checks a section, and appends its report.
fn check_one<R: Runner, N: Notes>(
    runner: &R,
    alloc: Global,
    input: &CheckInput<'_, '_, '_>,
    file: &ReadFile<'_>,
    report: &mut Vec<u8>,
    notes: &mut N,
) -> Result<Tally, Failure>
    ensures checked { IfOk result (IsFileChecked (checked_in input.now.options.now) input.now.policy.now
        (map source_of input.now.policies.now) (tests_of file.now) report.old.items report.new.items) }
    ensures failure { IfErr result (IsStopped (checked_in input.now.options.now) input.now.policy.now
        (map source_of input.now.policies.now) (tests_of file.now)) }
{
    let tested = check_tests(runner, alloc, input, file, report, notes)?;
    let reporter = file.reporter(alloc, input.options);
    match reporter.count_untested(report, file.has_test(), tested) {
        Ok(tally) => Ok(tally),
        Err(_) => Err(Failure::NoMemory),
    }
}

impl Tally {
    /// Returns a tally of no tests.
    pub(crate) fn empty() -> Tally
        ensures passed { result.passed ≡ 0 }
        ensures failed { result.failed ≡ 0 }
    {
        Tally {
            passed: 0,
            failed: 0,
        }
    }

    /// Returns the sum of both. Errors: more tests than a number counts, which no memory holds.
    pub(crate) fn plus(self, other: Tally) -> Result<Tally, Failure>
        ensures passed { IfOk result (λ sum. sum.passed ≡ self.passed + other.passed) }
        ensures failed { IfOk result (λ sum. sum.failed ≡ self.failed + other.failed) }
        ensures failure { IfErr result (λ failure. failure ≡ Failure.NoMemory) }
    {
        let Some(passed) = self.passed.checked_add(other.passed) else {
            return Err(Failure::NoMemory);
        };
        let Some(failed) = self.failed.checked_add(other.failed) else {
            return Err(Failure::NoMemory);
        };
        Ok(Tally { passed, failed })
    }

    /// Returns how a check ends whose tests these are.
    pub(crate) fn end(self) -> Checked
        ensures { result ≡ end_of self }
    {
        if self.failed == 0 {
            Checked::Passed
        } else {
            Checked::Failed
        }
    }
}

// Checks all sections, one after the other.
fn check_all<R: Runner, N: Notes>(
    runner: &R,
    alloc: Global,
    input: &CheckInput<'_, '_, '_>,
    files: &[ReadFile<'_>],
    report: &mut Vec<u8>,
    notes: &mut N,
) -> Result<Tally, Stopped>
    ensures checked { IfOk result (AreChecked (checked_in input.now.options.now) input.now.policy.now
        (map source_of input.now.policies.now) (map tests_of files.now) report.old.items report.new.items) }
    ensures failure { IfErr result (λ stopped. MayStop (checked_in input.now.options.now) input.now.policy.now
        (map source_of input.now.policies.now) (map tests_of files.now) stopped.failure) }
{
    let mut sum = Tally::empty();
    for (section, file) in files.iter().enumerate() {
        let tally = match check_one(runner, alloc, input, file, report, notes) {
            Ok(tally) => tally,
            Err(failure) => {
                return Err(Stopped {
                    section: Some(section),
                    failure,
                });
            }
        };
        sum = match sum.plus(tally) {
            Ok(sum) => sum,
            Err(failure) => {
                return Err(Stopped {
                    section: None,
                    failure,
                });
            }
        };
    }
    Ok(sum)
}

fn are_tested(files: &[ReadFile<'_>]) -> bool
    ensures { result ≡ list_all (λ file. has_test (tests_of file)) files.now }
{
    files.iter().all(|file| file.has_test())
}

/// Reports whether each section has a test.
pub(crate) fn have_tests(files: &[ReadFile<'_>]) -> bool
    ensures { result ≡ list_all has_test (map tests_of files.now) }
{
    are_tested(files)
}

/// Prints which sections have no test.
pub(crate) fn tell_untested<E: Write>(files: &[ReadFile<'_>], err: &mut E) {
    for file in files {
        if !file.has_test() {
            let _ = match str::from_utf8(file.section.as_slice()) {
                Ok("") | Err(_) => writeln!(err, "no test in {}", file.name),
                Ok(section) => writeln!(err, "no test in [{section}] of {}", file.name),
            };
        }
    }
}

// Prints that a policy is given and none of its profiles.
fn tell_no_profile<E: Write>(options: &CheckOptions, err: &mut E) {
    if options.policy.is_some() && options.profile.is_none() {
        let _ = writeln!(
            err,
            "landtree: no profile is chosen, so no layer denies anything"
        );
    }
}

/// Returns the whole of a report on tests, of which so many pass and fail.
pub(crate) fn report_around(
    alloc: Global,
    style: Style,
    tests: &[u8],
    sum: Tally,
) -> Result<Vec<u8>, AllocError>
    ensures { IfOk result (λ report. report.items ≡ head style sum ++ tests.now ++ tail style sum) }
{
    let mut report = Vec::new(alloc);
    style.push_head(&mut report, alloc, sum)?;
    report.extend_from_slice(tests)?;
    style.push_tail(&mut report, alloc, sum)?;
    Ok(report)
}

// Checks the sections that were read, and writes the report.
fn conclude<R: Runner, W: Write, N: Notes>(
    runner: &R,
    alloc: Global,
    input: &CheckInput<'_, '_, '_>,
    files: &[ReadFile<'_>],
    out: &mut W,
    notes: &mut N,
) -> Result<Checked, Stopped>
    ensures checked { IfOk result (λ end. Writes (W.contents out.old) (W.contents out.new)
        (Concludes (checked_in input.now.options.now) input.now.policy.now (map source_of input.now.policies.now)
        (map tests_of files.now) end)) }
    ensures failure { IfErr result (λ stopped. MayStop (checked_in input.now.options.now) input.now.policy.now
        (map source_of input.now.policies.now) (map tests_of files.now) stopped.failure) }
    ensures begun { IfErr result (λ stopped. HasBegun
        (Concludes (checked_in input.now.options.now) input.now.policy.now (map source_of input.now.policies.now)
        (map tests_of files.now)) (W.contents out.old) (W.contents out.new) stopped.failure) }
{
    let mut tests = Vec::new(alloc);
    let sum = check_all(runner, alloc, input, files, &mut tests, notes)?;
    let section = None;
    let Ok(report) = report_around(alloc, style_of(input.options), tests.as_slice(), sum) else {
        let failure = Failure::NoMemory;
        return Err(Stopped { section, failure });
    };
    match write_bytes(report.as_slice(), out) {
        Ok(()) => Ok(sum.end()),
        Err(failure) => Err(Stopped { section, failure }),
    }
}

// Prints where the section at which the check stopped names its own policy, if it does, and notes it.
fn tell_stopped<E: Write, N: Notes>(
    alloc: Global,
    input: &CheckInput<'_, '_, '_>,
    files: &[ReadFile<'_>],
    stopped: &Stopped,
    err: &mut E,
    notes: &mut N,
) {
    if let Some(section) = stopped.section
        && let Some(file) = files.get(section)
    {
        tell_own(alloc, input, file, &stopped.failure, err, notes);
    }
}

// Prints where a file's line is neither silent nor a test, and what is expected there.
fn tell_line<E: Write>(
    alloc: Global,
    file: &NamedText<'_>,
    kind: TestKind,
    line: usize,
    err: &mut E,
) {
    let (name, text) = (file.name, file.text.as_slice());
    let found = match kind {
        TestKind::Command => explain(alloc, LinesOf::Checks, text, line),
        TestKind::Step => blame_step(alloc, text, line),
    };
    let Ok(Some(blame)) = found else {
        let wanted = kind.name();
        let _ = writeln!(err, "{name}:{line}:1: a {wanted} is expected, or a comment");
        return;
    };
    blame.tell(name, line, err);
}

/// Prints where a line is neither silent nor a test of this kind, if that is why files can't be read.
pub(crate) fn tell_bad<E: Write>(
    alloc: Global,
    files: &[NamedText<'_>],
    kind: TestKind,
    bad: BadFile,
    err: &mut E,
) -> Result<Checked, Failure>
    ensures line { IfOk result (λ end. (end ≡ checked.Checked.BadLine)
        × (line : ℕ) × (bad.fault ≡ CheckFault.BadLine line)) }
    ensures failure { IfErr result (λ failure. failure ≡ Failure.NoMemory) }
{
    match bad.fault {
        CheckFault::BadLine(line) => {
            if let Some(file) = files.get(bad.file) {
                tell_line(alloc, file, kind, line, err);
            }
            Ok(Checked::BadLine)
        }
        CheckFault::NoMemory => Err(Failure::NoMemory),
    }
}

/// Checks files, each section of each on a tree of its own, and writes the report. All files are read before anything
/// is run. If a line says nothing, that is printed to `err`, and nothing else is done. A section without a test is
/// printed there too, a policy without a chosen profile, and where a section names its own policy if that gives no
/// tree, which is noted. If notes are wanted, they get each test that is shown and fails by a denial, or because none
/// came. Errors: a section's own policy isn't given; a policy's text gives no setup; a call of its loader is refused;
/// `out` fails; or memory ran out.
pub fn check<R: Runner, W: Write, E: Write, N: Notes>(
    runner: &R,
    alloc: Global,
    input: &CheckInput<'_, '_, '_>,
    out: &mut W,
    err: &mut E,
    notes: &mut N,
) -> Result<Checked, Failure>
    ensures checked { IfOk result (λ end. Writes (W.contents out.old) (W.contents out.new)
        (IsCheck (checked_in input.now.options.now) input.now.policy.now (map source_of input.now.policies.now)
        (map source_of input.now.files.now) end)) }
    ensures failure { IfErr result (MayFail (checked_in input.now.options.now) input.now.policy.now
        (map source_of input.now.policies.now) (map source_of input.now.files.now)) }
    ensures begun { IfErr result (HasBegun
        (IsCheck (checked_in input.now.options.now) input.now.policy.now (map source_of input.now.policies.now)
        (map source_of input.now.files.now)) (W.contents out.old) (W.contents out.new)) }
{
    let files = match read_all(alloc, input.files) {
        Ok(files) => files,
        Err(bad) => return tell_bad(alloc, input.files, TestKind::Command, bad, err),
    };
    tell_no_profile(input.options, err);
    tell_untested(files.as_slice(), err);
    match conclude(runner, alloc, input, files.as_slice(), out, notes) {
        Ok(end) => Ok(end),
        Err(stopped) => {
            tell_stopped(alloc, input, files.as_slice(), &stopped, err, notes);
            Err(stopped.failure)
        }
    }
}
