//! Reads schedules whose lines say what must come out.

ghost use Rattle.std.specs.Prelude.{◌≡◌, ◌++◌, ◌<◌, ◌≤◌, ℕ, List, length, map, IfErr, IfNone, IfOk, IfSome, OnOk};
ghost use Rattle.std.specs.List.{AllZip};
ghost use Rattle.ll_wire.specs.Pieces.{pieces};
ghost use Rattle.ll_wire.specs.Reads.{Finds};
ghost use Rattle.ll_check.specs.Files.{source_of};
ghost use Rattle.ll_check.specs.Steps.{AreSteps, GivesSteps, HasBadStep, IsFirstBadStep, IsStepsOf, SaysNoStep};
ghost use Rattle.ll_check.specs.Outcomes.{SpellsOutcome};
ghost use Rattle.ll_check.specs.Steps.{IsToldTest, SpellsStep, SpellsStepAt, SpellsStepTest, steps_of};
ghost use Rattle.ll_check.specs.declared.check_text.CheckFault.{CheckFault};
ghost use Rattle.ll_check.specs.declared.outcomes.WantedOutcome.{WantedOutcome};
ghost use Rattle.ll_check.specs.declared.steps.StepTest.{StepTest};
ghost use Rattle.ll_wire.specs.declared.schedule.ScheduleLine.{ScheduleLine};

use crate::check_text::CheckFault;
use crate::checks::{BadFile, NamedText};
use crate::lines::{ended, strip_front};
use crate::outcomes::{WantedOutcome, read_outcome};
use ll_program::{body_of, is_silent};
use ll_rights::Errno;
use ll_rights::limits::TREE_CLIENTS;
use ll_wire::{ScheduleLine, read_schedule_line, split_line};
use std::alloc::{AllocError, Global};

/// What is expected of a step with nothing behind it.
const MADE: &[u8] = b"a step that is made";

/// A test of a schedule: its line, from 1, the text of its step there, the step, its expected outcome, and the text of
/// that.
#[derive(Drop)]
pub struct StepTest {
    pub line: usize,
    pub text: Vec<u8>,
    pub step: ScheduleLine,
    pub wanted: WantedOutcome,
    pub told: Vec<u8>,
}

/// A schedule after it was read: its file's name, and its tests.
#[derive(Drop)]
pub(crate) struct StepFile<'w> {
    pub name: &'w str,
    pub tests: Vec<StepTest>,
}

/// Returns the step that the text spells, of any client that a tree may have. Errors: memory ran out.
pub(crate) fn step_of(alloc: Global, text: &[u8]) -> Result<Option<ScheduleLine>, AllocError>
    ensures { IfOk result (Finds (SpellsStep text.now)) }
{
    let line = ended(alloc, text)?;
    match read_schedule_line(alloc, line.as_slice(), TREE_CLIENTS as u64) {
        Ok(step) => Ok(Some(step)),
        Err(Errno::BadLine) => Ok(None),
        Err(_) => Err(AllocError),
    }
}

// Returns copies of a test's texts.
fn copied(alloc: Global, text: &[u8], told: &[u8]) -> Result<(Vec<u8>, Vec<u8>), AllocError>
    ensures { IfOk result (λ both. (both.0.items ≡ text.now) × (both.1.items ≡ told.now)) }
{
    let text = Vec::from_slice(alloc, text)?;
    let told = Vec::from_slice(alloc, told)?;
    Ok((text, told))
}

// Returns the test of this step, with copies of these texts.
fn told_test(
    alloc: Global,
    line: usize,
    text: &[u8],
    told: &[u8],
    step: ScheduleLine,
    wanted: WantedOutcome,
) -> Result<StepTest, AllocError>
    ensures line { IfOk result (λ test. test.line ≡ line) }
    ensures step { IfOk result (λ test. test.step ≡ step) }
    ensures wanted { IfOk result (λ test. test.wanted ≡ wanted) }
    ensures text { IfOk result (λ test. test.text.items ≡ text.now) }
    ensures told { IfOk result (λ test. test.told.items ≡ told.now) }
{
    match copied(alloc, text, told) {
        Ok((text, told)) => Ok(StepTest {
            line,
            text,
            step,
            wanted,
            told,
        }),
        Err(_) => {
            drop(step);
            drop(wanted);
            Err(AllocError)
        }
    }
}

// Returns the test of this step, if the other text spells an expected outcome.
fn outcome_test(
    alloc: Global,
    line: usize,
    text: &[u8],
    told: &[u8],
    step: ScheduleLine,
) -> Result<Option<StepTest>, AllocError>
    ensures some { IfOk result (λ found. IfSome found (λ test.
        SpellsStep text.now step → IsToldTest line text.now told.now test)) }
    ensures none { IfOk result (λ found. IfNone found ((wanted : WantedOutcome)
        → SpellsOutcome told.now wanted → ⊥)) }
{
    match read_outcome(alloc, told) {
        Ok(Some(wanted)) => match told_test(alloc, line, text, told, step, wanted) {
            Ok(test) => Ok(Some(test)),
            Err(_) => Err(AllocError),
        },
        Ok(None) => {
            drop(step);
            Ok(None)
        }
        Err(_) => {
            drop(step);
            Err(AllocError)
        }
    }
}

// Returns the test with these texts, if they spell a step and an expected outcome.
fn test_by(
    alloc: Global,
    line: usize,
    text: &[u8],
    told: &[u8],
) -> Result<Option<StepTest>, AllocError>
    ensures some { IfOk result (λ found. IfSome found (IsToldTest line text.now told.now)) }
    ensures none { IfOk result (λ found. IfNone found ((step' : ScheduleLine) (wanted : WantedOutcome)
        → SpellsStep text.now step' → SpellsOutcome told.now wanted → ⊥)) }
{
    match step_of(alloc, text) {
        Ok(Some(step)) => outcome_test(alloc, line, text, told, step),
        Ok(None) => Ok(None),
        Err(_) => Err(AllocError),
    }
}

// Returns the test whose step ends here, if the sign `=` follows it.
fn step_test_at(
    alloc: Global,
    body: &[u8],
    line: usize,
    place: usize,
) -> Result<Option<StepTest>, AllocError>
    requires { place ≤ length body.now }
    ensures some { IfOk result (λ found. IfSome found (λ test. SpellsStepTest body.now test × (test.line ≡ line))) }
    ensures none { IfOk result (λ found. IfNone found ((test : StepTest) → SpellsStepAt body.now place test → ⊥)) }
{
    let (text, rest) = body.split_at(place);
    let Some(told) = strip_front(rest, b" = ") else {
        return Ok(None);
    };
    test_by(alloc, line, text, told)
}

// Returns the test whose step has something after it.
fn followed_step(alloc: Global, body: &[u8], line: usize) -> Result<Option<StepTest>, AllocError>
    ensures some { IfOk result (λ found. IfSome found (λ test. SpellsStepTest body.now test × (test.line ≡ line))) }
    ensures none { IfOk result (λ found. IfNone found ((place : ℕ) (test : StepTest) → place < length body.now
        → SpellsStepAt body.now place test → ⊥)) }
{
    for place in 0..body.len() {
        let found = step_test_at(alloc, body, line, place)?;
        if let Some(test) = found {
            return Ok(Some(test));
        }
    }
    Ok(None)
}

// Returns the test that a line spells.
fn step_test_of(alloc: Global, body: &[u8], line: usize) -> Result<Option<StepTest>, AllocError>
    ensures some { IfOk result (λ found. IfSome found (λ test. SpellsStepTest body.now test × (test.line ≡ line))) }
    ensures none { IfOk result (λ found. IfNone found ((test : StepTest) → SpellsStepTest body.now test → ⊥)) }
{
    let followed = followed_step(alloc, body, line)?;
    if let Some(test) = followed {
        return Ok(Some(test));
    }
    let step = step_of(alloc, body)?;
    match step {
        Some(step) => {
            let test = told_test(alloc, line, body, MADE, step, WantedOutcome::Made)?;
            Ok(Some(test))
        }
        None => Ok(None),
    }
}

// Reads the line with this number, and adds its test, if it has one.
fn take_step(
    alloc: Global,
    tests: &mut Vec<StepTest>,
    line: &[u8],
    number: usize,
) -> Result<(), CheckFault>
    ensures ok { OnOk result ((own : List StepTest) × (tests.new.items ≡ tests.old.items ++ own)
        × GivesSteps line.now number own) }
    ensures bad { IfErr result (λ fault. (k : ℕ) → fault ≡ CheckFault.BadLine k
        → (k ≡ number) × SaysNoStep line.now) }
{
    let body = body_of(line);
    if is_silent(body) {
        return Ok(());
    }
    let test = match step_test_of(alloc, body, number) {
        Ok(Some(test)) => test,
        Ok(None) => return Err(CheckFault::BadLine(number)),
        Err(_) => return Err(CheckFault::NoMemory),
    };
    if let Err(refused) = tests.push(test) {
        drop(refused);
        return Err(CheckFault::NoMemory);
    }
    Ok(())
}

// Returns the tests that the bytes of a schedule spell. Runs nothing. Errors: the first line that says nothing, or
// memory ran out.
fn read_steps(alloc: Global, bytes: &[u8]) -> Result<Vec<StepTest>, CheckFault>
    ensures tests { IfOk result (λ tests. AreSteps 1 (pieces bytes.now) tests.items) }
    ensures bad { IfErr result (λ fault. (k : ℕ) → fault ≡ CheckFault.BadLine k
        → IsFirstBadStep (pieces bytes.now) k) }
{
    let mut tests = Vec::new(alloc);
    let mut rest = bytes;
    let mut number = 0;
    while !rest.is_empty() {
        let (line, more) = split_line(rest);
        number += 1;
        if let Err(fault) = take_step(alloc, &mut tests, line, number) {
            drop(tests);
            return Err(fault);
        }
        rest = more;
    }
    Ok(tests)
}

/// Reads all schedules, up to the first that can't be read.
pub(crate) fn read_all_steps<'w>(
    alloc: Global,
    texts: &[NamedText<'w>],
) -> Result<Vec<StepFile<'w>>, BadFile>
    ensures read { IfOk result (λ files. AllZip IsStepsOf (map source_of texts.now) (map steps_of files.items)) }
    ensures bad { IfErr result (λ bad. (line : ℕ) → bad.fault ≡ CheckFault.BadLine line
        → HasBadStep (map source_of texts.now)) }
{
    let mut files = Vec::new(alloc);
    for (file, text) in texts.iter().enumerate() {
        let tests = match read_steps(alloc, text.text.as_slice()) {
            Ok(tests) => tests,
            Err(fault) => return Err(BadFile { file, fault }),
        };
        let read = StepFile {
            name: text.name,
            tests,
        };
        if let Err(refused) = files.push(read) {
            drop(refused);
            let fault = CheckFault::NoMemory;
            return Err(BadFile { file, fault });
        }
    }
    Ok(files)
}
