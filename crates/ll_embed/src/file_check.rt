//! Checks: a file of commands, each with its expected reply, in a text.

ghost use Rattle.std.specs.Prelude.{◌≡◌, ◌≢◌, ◌≤◌, option_map, IfErr, IfOk, OnOk};
ghost use Rattle.std.specs.Str.{IsUtf8};
ghost use Rattle.ll_program.specs.Failure.{status_by};
ghost use Rattle.ll_program.specs.Options.{checked_in};
ghost use Rattle.ll_program.specs.declared.conclusion.Conclusion.{Conclusion};
ghost use Rattle.ll_check.specs.Files.{source_of};
ghost use Rattle.ll_embed.specs.CheckAnswers.{CheckAnswers, CheckFits, IsCheckTold, MayFailCheck, asked_in};
ghost use Rattle.ll_embed.specs.CheckAnswers.{check_fault, form_by, level_given, order_of, policy_given};
ghost use Rattle.ll_embed.specs.CheckAnswers.{source_in, text_given};

use crate::answer::Answer;
use crate::fault::{Fault, fault_at};
use crate::own_runner::OwnRunner;
use ll_check::{CheckInput, DeniedTest, FaultyPolicy, NamedText, Notes, check};
use ll_program::{CheckOptions, Checked, Failure, ReportForm};
use ll_rights::Abi;
use ll_rights::limits::TREE_NODES;
use ll_wire::Header;
use std::alloc::Global;
use std::slice::from_ref;

/// The numbers and texts of a check: those that set its trees up, the form of its report, and a file of checks with its
/// name. The level 0 and an empty policy or profile aren't given.
#[derive(Clone, Copy)]
pub struct CheckGiven<'a> {
    pub level: u64,
    pub nodes: usize,
    pub form: u32,
    pub policy: &'a [u8],
    pub profile: &'a [u8],
    pub name: &'a [u8],
    pub checks: &'a [u8],
}

// Wants no notes.
#[derive(Drop)]
struct Unnoted;

impl Notes for Unnoted {
    fn are_wanted(&self) -> bool {
        false
    }

    fn of_denied(&mut self, _header: &Header, _test: &DeniedTest<'_>) {}

    fn of_own_policy(&mut self, _policy: &FaultyPolicy<'_>, _failure: &Failure) {}
}

fn form_of(form: u32) -> ReportForm
    ensures { result ≡ form_by form }
{
    match form {
        3 => ReportForm::Tap,
        4 => ReportForm::Junit,
        5 => ReportForm::Json,
        _ => ReportForm::Text,
    }
}

// Returns the level, or none for 0. Errors: there is no such level.
fn level_of(level: u64) -> Result<Option<Abi>, Fault>
    ensures level { IfOk result (λ given. given ≡ level_given level) }
    ensures fits { OnOk result (level ≤ 3) }
    ensures misfit { IfErr result (λ fault. (fault ≡ Fault.Misfit) × (level ≤ 3 → ⊥)) }
{
    if level == 0 {
        return Ok(None);
    }
    match Abi::new(level) {
        Some(abi) => Ok(Some(abi)),
        None => Err(Fault::Misfit),
    }
}

// Returns the text. Errors: it isn't UTF-8.
fn text_of(bytes: &[u8]) -> Result<&str, Fault>
    ensures text { IfOk result (λ text. text.now ≡ bytes.entry.now) }
    ensures utf8 { OnOk result (IsUtf8 bytes.entry.now) }
    ensures misfit { IfErr result (λ fault. (fault ≡ Fault.Misfit) × (IsUtf8 bytes.entry.now → ⊥)) }
{
    match str::from_utf8(bytes) {
        Ok(text) => Ok(text),
        Err(_) => Err(Fault::Misfit),
    }
}

// Returns the text, or none if it is empty.
fn given_text(text: &str) -> Option<&str>
    ensures { option_map (λ t. t.now) result ≡ text_given text.entry.now }
{
    if text.is_empty() { None } else { Some(text) }
}

// Returns a name for the policy, or none without one.
fn policy_name(policy: &[u8]) -> Option<&'static str>
    ensures { option_map (λ t. t.now) result ≡ policy_given policy.now }
{
    if policy.is_empty() {
        None
    } else {
        Some("policy")
    }
}

// Returns the program's status after a check with this result.
fn status_of(end: Checked) -> u32
    ensures { result ≡ status_by (Conclusion.Checked end) }
{
    match end {
        Checked::Passed => 0,
        Checked::Failed => 3,
        Checked::BadLine => 2,
    }
}

// Returns what the program's failure is here, where no file is opened.
fn check_fault(failure: Failure) -> Fault
    ensures { result ≡ check_fault failure }
{
    match failure {
        Failure::File => Fault::OwnPolicy,
        other => fault_at(other),
    }
}

// Returns the report, or what is printed of a wrong line.
fn told_of(end: Checked, report: Vec<u8>, printed: Vec<u8>) -> Vec<u8>
    ensures { end ≢ Checked.BadLine → result ≡ report }
{
    match end {
        Checked::BadLine => {
            drop(report);
            printed
        }
        Checked::Passed | Checked::Failed => {
            drop(printed);
            report
        }
    }
}

impl<'a> CheckGiven<'a> {
    // Returns the options of the program's words that ask for the same. Errors: the words are wrong, or memory ran out.
    fn options(&self, alloc: Global) -> Result<CheckOptions<'a>, Fault>
        ensures options { IfOk result (λ options. checked_in options ≡ order_of (asked_in self.now)) }
        ensures fits { OnOk result (CheckFits (asked_in self.now)) }
        ensures fault { IfErr result (MayFailCheck (asked_in self.now)) }
    {
        if self.nodes < 1 || self.nodes > TREE_NODES || self.form > 5 {
            return Err(Fault::Misfit);
        }
        let level = level_of(self.level)?;
        let profile = text_of(self.profile)?;
        let name = text_of(self.name)?;
        let mut options = CheckOptions {
            files: Vec::new(alloc),
            nodes: self.nodes,
            level,
            policy: policy_name(self.policy),
            profile: given_text(profile),
            quiet: self.form == 1,
            verbose: self.form == 2,
            form: Some(form_of(self.form)),
            schedule: false,
        };
        if !options.fit() {
            return Err(Fault::Misfit);
        }
        match options.files.push(name) {
            Ok(()) => Ok(options),
            Err(_) => Err(Fault::NoMemory),
        }
    }

    // Returns the file of checks.
    fn file(&self, alloc: Global) -> Result<NamedText<'a>, Fault>
        requires { IsUtf8 self.now.name.now }
        ensures file { IfOk result (λ file. source_of file ≡ source_in (asked_in self.now)) }
        ensures fault { IfErr result (λ fault. fault ≡ Fault.NoMemory) }
    {
        let Ok(name) = str::from_utf8(self.name) else {
            unreachable!()
        };
        match Vec::from_slice(alloc, self.checks) {
            Ok(text) => Ok(NamedText { name, text }),
            Err(_) => Err(Fault::NoMemory),
        }
    }

    // Checks the file in trees without locks. Errors: why nothing is checked to the end.
    fn checked(&self, alloc: Global) -> Result<Answer, Fault>
        ensures told { IfOk result (λ answer. IsCheckTold (asked_in self.now) answer.status answer.text.items) }
        ensures fault { IfErr result (MayFailCheck (asked_in self.now)) }
    {
        let options = self.options(alloc)?;
        let file = self.file(alloc)?;
        let input = CheckInput {
            options: &options,
            policy: self.policy,
            policies: &[],
            files: from_ref(&file),
        };
        let (mut report, mut printed) = (Vec::new(alloc), Vec::new(alloc));
        let mut notes = Unnoted;
        match check(
            &OwnRunner,
            alloc,
            &input,
            &mut report,
            &mut printed,
            &mut notes,
        ) {
            Ok(end) => Ok(Answer {
                status: status_of(end),
                text: told_of(end, report, printed),
            }),
            Err(failure) => Err(check_fault(failure)),
        }
    }

    /// Returns the report on the file.
    pub fn answer(&self, alloc: Global) -> Answer
        ensures { CheckAnswers (asked_in self.now) result.status result.text.items }
    {
        match self.checked(alloc) {
            Ok(answer) => answer,
            Err(fault) => Answer::of_fault(alloc, fault, self.policy),
        }
    }
}
