//! Checks of schedules, as the program makes them.

ghost use Rattle.std.specs.Prelude.{◌≡◌, ◌⊎◌, ◌++◌, [], IfErr, IfOk, map};
ghost use Rattle.ll_steps.specs.Tells.{Does};
ghost use Rattle.ll_wire.specs.Transcript.{Writes};
ghost use Rattle.ll_program.specs.Options.{checked_in};
ghost use Rattle.ll_check.specs.Files.{HasBegun, source_of, style_of};
ghost use Rattle.ll_check.specs.Races.{AreRun, AreStepsRun, ConcludesRaces, IsRaceCheck, IsRaceSetup, IsRun};
ghost use Rattle.ll_check.specs.Races.{IsStepMade, JudgedStep, RunsSteps, shown_step};
ghost use Rattle.ll_check.specs.Steps.{has_step, steps_of};

use crate::checks::{NamedText, TestKind, report_around, style_of, tell_bad};
use crate::reporter::{Reporter, Tally};
use crate::steps::{StepFile, StepTest, read_all_steps};
use ll_laws::Step;
use ll_program::{CheckOptions, Checked, Failure, write_bytes};
use ll_rights::Abi;
use ll_rights::limits::HISTORY_ENTRIES;
use ll_seq::Rules;
use ll_steps::{Report, World, WorldSetup, answer_text};
use ll_wire::ScheduleLine;
use std::alloc::{AllocError, Global};
use std::io::Write;

// Returns the tree of a schedule with this many tests, each of which may have an entry in the history.
fn setup_by(options: &CheckOptions, tests: usize) -> WorldSetup
    ensures { IsRaceSetup (checked_in options.now) tests result }
{
    WorldSetup {
        rules: Rules {
            abi: options.level.unwrap_or(Abi::NEWEST),
            copies: true,
        },
        nodes: options.nodes,
        history: tests.max(1).min(HISTORY_ENTRIES),
    }
}

fn copy_step(alloc: Global, step: &Step) -> Result<Step, AllocError>
    ensures { IfOk result (λ copy. copy ≡ step.now) }
{
    Ok(match step {
        Step::Join => Step::Join,
        Step::Begin(client, call) => Step::Begin(*client, call.copy(alloc)?),
        Step::Descend(client) => Step::Descend(*client),
        Step::Fork(client) => Step::Fork(*client),
        Step::Commit(client) => Step::Commit(*client),
        Step::Restart(client) => Step::Restart(*client),
        Step::FdCommit(client, call) => Step::FdCommit(*client, call.copy(alloc)?),
        Step::ClientStep(client, call) => Step::ClientStep(*client, call.copy(alloc)?),
    })
}

// Makes the step, or all steps of the call. Errors: memory for a copy of it ran out.
fn make_line(alloc: Global, world: &mut World, line: &ScheduleLine) -> Result<Report, AllocError>
    ensures { IfOk result (λ report. Does world.old line.now report world.new) }
{
    match line {
        ScheduleLine::Step(step) => {
            let step = copy_step(alloc, step)?;
            Ok(world.step(step))
        }
        ScheduleLine::Do(client, call) => {
            let call = call.copy(alloc)?;
            Ok(world.make(*client, call))
        }
    }
}

// Makes a test's step, and appends the report on it. Returns whether it passes. Errors: memory ran out.
fn judge_step(
    reporter: &Reporter<'_>,
    world: &mut World,
    test: &StepTest,
    out: &mut Vec<u8>,
) -> Result<bool, AllocError>
    ensures { IfOk result (λ passes. (it : JudgedStep) × (it.test ≡ test.now) × (it.passes ≡ passes)
        × IsStepMade world.old it world.new
        × (out.new.items ≡ out.old.items ++ shown_step reporter.now.style reporter.now.file.now it)) }
{
    let report = make_line(reporter.alloc, world, &test.step)?;
    let history = world.history().entries();
    let passes = test.wanted.is_met(history, report);
    let got = answer_text(reporter.alloc, history, Ok(report))?;
    reporter.push_step(out, test, passes, got.as_bytes())?;
    Ok(passes)
}

// Makes the tests of a schedule one after the other, and appends the report on them. Errors: memory ran out.
fn judge_steps(
    reporter: &Reporter<'_>,
    world: &mut World,
    tests: &[StepTest],
    out: &mut Vec<u8>,
) -> Result<Tally, AllocError>
    ensures { IfOk result (λ tally. RunsSteps reporter.now.style reporter.now.file.now world.old tests.now
        out.old.items out.new.items tally world.new) }
{
    let mut tally = Tally::empty();
    for i in 0..tests.len() {
        let passes = judge_step(reporter, world, &tests[i], out)?;
        tally.count(passes);
    }
    Ok(tally)
}

impl StepFile<'_> {
    // Reports whether the schedule has a test.
    fn has_step(&self) -> bool
        ensures { result ≡ has_step (steps_of self.now) }
    {
        !self.tests.is_empty()
    }

    // Returns what reports on the schedule.
    fn reporter(&self, alloc: Global, options: &CheckOptions) -> Reporter<'_>
        ensures style { result.style ≡ style_of (checked_in options.now) }
        ensures file { result.file.now ≡ (steps_of self.now).name }
        ensures section { result.section.now ≡ [] }
    {
        Reporter {
            alloc,
            style: style_of(options),
            file: self.name.as_bytes(),
            section: b"",
        }
    }
}

// Makes the tests of a schedule in a tree of its own, and appends the report on them.
fn run_steps(
    alloc: Global,
    options: &CheckOptions,
    file: &StepFile<'_>,
    report: &mut Vec<u8>,
) -> Result<Tally, Failure>
    ensures run { IfOk result (AreStepsRun (checked_in options.now) (steps_of file.now)
        report.old.items report.new.items) }
    ensures failure { IfErr result (λ failure. failure ≡ Failure.NoMemory) }
{
    let tests = file.tests.as_slice();
    let setup = setup_by(options, tests.len());
    let reporter = file.reporter(alloc, options);
    let Ok(mut world) = World::new(alloc, setup.rules, setup.nodes, setup.history) else {
        return Err(Failure::NoMemory);
    };
    match judge_steps(&reporter, &mut world, tests, report) {
        Ok(tally) => Ok(tally),
        Err(_) => Err(Failure::NoMemory),
    }
}

// Checks a schedule, and appends its report.
fn run_file(
    alloc: Global,
    options: &CheckOptions,
    file: &StepFile<'_>,
    report: &mut Vec<u8>,
) -> Result<Tally, Failure>
    ensures run { IfOk result (IsRun (checked_in options.now) (steps_of file.now) report.old.items report.new.items) }
    ensures failure { IfErr result (λ failure. failure ≡ Failure.NoMemory) }
{
    let tested = run_steps(alloc, options, file, report)?;
    let reporter = file.reporter(alloc, options);
    match reporter.count_untested(report, file.has_step(), tested) {
        Ok(tally) => Ok(tally),
        Err(_) => Err(Failure::NoMemory),
    }
}

// Runs all schedules, one after the other.
fn run_all(
    alloc: Global,
    options: &CheckOptions,
    files: &[StepFile<'_>],
    report: &mut Vec<u8>,
) -> Result<Tally, Failure>
    ensures run { IfOk result (AreRun (checked_in options.now) (map steps_of files.now)
        report.old.items report.new.items) }
    ensures failure { IfErr result (λ failure. failure ≡ Failure.NoMemory) }
{
    let mut sum = Tally::empty();
    for file in files {
        let tally = run_file(alloc, options, file, report)?;
        sum = sum.plus(tally)?;
    }
    Ok(sum)
}

// Prints which schedules have no test.
fn tell_untested<E: Write>(files: &[StepFile<'_>], err: &mut E) {
    for file in files {
        if !file.has_step() {
            let _ = writeln!(err, "no test in {}", file.name);
        }
    }
}

// Runs the schedules that were read, and writes the report.
fn conclude<W: Write>(
    alloc: Global,
    options: &CheckOptions,
    files: &[StepFile<'_>],
    out: &mut W,
) -> Result<Checked, Failure>
    ensures checked { IfOk result (λ end. Writes (W.contents out.old) (W.contents out.new)
        (ConcludesRaces (checked_in options.now) (map steps_of files.now) end)) }
    ensures failure { IfErr result (λ failure. (failure ≡ Failure.Output) ⊎ (failure ≡ Failure.NoMemory)) }
    ensures begun { IfErr result (HasBegun (ConcludesRaces (checked_in options.now) (map steps_of files.now))
        (W.contents out.old) (W.contents out.new)) }
{
    let mut tests = Vec::new(alloc);
    let sum = run_all(alloc, options, files, &mut tests)?;
    let Ok(report) = report_around(alloc, style_of(options), tests.as_slice(), sum) else {
        return Err(Failure::NoMemory);
    };
    match write_bytes(report.as_slice(), out) {
        Ok(()) => Ok(sum.end()),
        Err(failure) => Err(failure),
    }
}

/// Checks schedules, each in a tree of its own, and writes the report. All are read before anything is run. If a line
/// says nothing, that is printed to `err`, and nothing else is done. A schedule without a test is printed there too.
/// Errors: `out` fails, or memory ran out.
pub fn check_schedules<W: Write, E: Write>(
    alloc: Global,
    options: &CheckOptions,
    files: &[NamedText<'_>],
    out: &mut W,
    err: &mut E,
) -> Result<Checked, Failure>
    ensures checked { IfOk result (λ end. Writes (W.contents out.old) (W.contents out.new)
        (IsRaceCheck (checked_in options.now) (map source_of files.now) end)) }
    ensures failure { IfErr result (λ failure. (failure ≡ Failure.Output) ⊎ (failure ≡ Failure.NoMemory)) }
    ensures begun { IfErr result (HasBegun (IsRaceCheck (checked_in options.now) (map source_of files.now))
        (W.contents out.old) (W.contents out.new)) }
{
    let read = match read_all_steps(alloc, files) {
        Ok(read) => read,
        Err(bad) => return tell_bad(alloc, files, TestKind::Step, bad, err),
    };
    tell_untested(read.as_slice(), err);
    conclude(alloc, options, read.as_slice(), out)
}
