//! What is learned from files of checks.

ghost use Rattle.std.specs.Prelude.{◌≡◌, ◌≤◌, ◌<◌, ◌⊎◌, ℕ, true, false, Some, length, map, string_bytes, IfErr, IfOk};
ghost use Rattle.std.specs.Prelude.{IfNone, IfSome};
ghost use Rattle.std.specs.List.{AllZip, list_all, list_any};
ghost use Rattle.ll_audit.specs.Saved.{opened};
ghost use Rattle.ll_learn.specs.Learned.{IsLearned, IsUnlearned};
ghost use Rattle.ll_learn.specs.declared.fault.Unlearned as fault;
ghost use Rattle.ll_learn.specs.declared.fault.Unlearned.TheVariants as faults;
ghost use Rattle.ll_rights.specs.declared.limits.TheConstants.{TREE_NODES};
ghost use Rattle.ll_path.specs.Path.{path_of_text};
ghost use Rattle.ll_program.specs.Learn.{HasWrongWord, IsWithheld, most_rules, profile_name};
ghost use Rattle.ll_program.specs.Options.{learn_in};
ghost use Rattle.ll_check.specs.Checks.{has_own, has_test, tests_of};
ghost use Rattle.ll_check.specs.Files.{source_of};
ghost use Rattle.ll_check.specs.Lessons.{AreTaught, AreTried, EndsLessons, FailsToLearn, FailsToMake};
ghost use Rattle.ll_check.specs.Lessons.{IsBlank, IsHindered, IsProfile, IsTaughtBy, TeachNothing, is_of_lessons};
ghost use Rattle.ll_check.specs.Lessons.{learner, lessons_of, picked};

use crate::check_text::ReadFile;
use crate::checks::{NamedText, TestKind, have_tests, read_all, tell_bad, tell_untested};
use crate::crowd::{Crowd, crowd_of};
use crate::denied::Notes;
use crate::lessons::{FileLessons, LessonNotes, lessons_in};
use crate::runner::Runner;
use crate::teacher::teach_all;
use crate::trees::Trees;
use crate::trial::pass_under;
use crate::undenied::{Candidate, TOLD_TESTS};
use crate::untaught::Taught;
use ll_learn::{Aim, Basis, LearnedProfile, Made, Unlearned, learn, made_rights};
use ll_path::Path;
use ll_program::{Checked, Failure, LearnOptions, header_of, paths_of};
use ll_rights::Access;
use ll_rights::limits::RULESET_INODES;
use ll_seq::{Entry, History};
use ll_session::Setup;
use ll_wire::{Header, write_whole};
use std::alloc::Global;
use std::io::Write;

/// What is to be learned from: the options, the text of the policy that they name, and the files.
#[derive(Clone, Copy)]
pub struct LearnInput<'a, 'w> {
    pub options: &'a LearnOptions<'w>,
    pub policy: &'a [u8],
    pub files: &'a [NamedText<'w>],
}

// What the words ask of the profile.
#[derive(Drop)]
struct Request<'a> {
    name: &'a str,
    most: usize,
    never: Access,
    beneath: Vec<Path>,
}

impl<'a> Request<'a> {
    // Returns what the words ask for.
    fn of_options(alloc: Global, options: &LearnOptions<'a>) -> Result<Request<'a>, Failure>
        ensures name { IfOk result (λ request. profile_name (learn_in options.now) ≡ Some request.name.now) }
        ensures most { IfOk result (λ request. request.most ≡ most_rules (learn_in options.now)) }
        ensures never { IfOk result (λ request. IsWithheld (learn_in options.now).never (Some request.never)) }
        ensures beneath { IfOk result (λ request.
            request.beneath.items ≡ map path_of_text (learn_in options.now).beneath) }
        ensures failure { IfErr result (λ failure.
            ((failure ≡ Failure.CommandLine) × HasWrongWord (learn_in options.now)) ⊎ (failure ≡ Failure.NoMemory)) }
    {
        let Some(name) = options.profile_name() else {
            return Err(Failure::CommandLine);
        };
        let Some(never) = options.withheld() else {
            return Err(Failure::CommandLine);
        };
        let beneath = paths_of(alloc, options.beneath.as_slice())?;
        Ok(Request {
            name,
            most: options.most_rules(),
            never,
            beneath,
        })
    }
}

/// Returns the client that makes the lessons.
pub(crate) fn learner(blank: &Setup) -> u64
    ensures { result ≡ learner blank.now }
{
    if blank.loader.is_some() { 2 } else { 1 }
}

// Returns the entries of the histories.
fn entries_of<'a>(alloc: Global, histories: &'a [History]) -> Result<Vec<&'a [Entry]>, Failure>
    ensures entries { IfOk result (λ entries. map (λ es. es.now) entries.items
        ≡ map (λ history. history.entries) histories.entry.now) }
    ensures failure { IfErr result (λ failure. failure ≡ Failure.NoMemory) }
{
    let mut entries = Vec::new(alloc);
    for history in histories {
        if entries.push(history.entries()).is_err() {
            return Err(Failure::NoMemory);
        }
    }
    Ok(entries)
}

// Reports whether the fault is neither a path of the words nor missing memory.
fn is_of_lessons(fault: Unlearned) -> bool
    ensures { result ≡ is_of_lessons fault }
{
    !matches!(fault, Unlearned::NoNode(_) | Unlearned::NoMemory)
}

// Learns from the histories of lessons. None if nothing is learned, which is printed.
fn learned_from<E: Write>(
    alloc: Global,
    header: &Header,
    taught: &Taught<'_, '_>,
    aim: &Aim,
    err: &mut E,
) -> Result<Option<LearnedProfile>, Failure>
    requires some { 1 ≤ header.now.nodes }
    requires most { header.now.nodes ≤ TREE_NODES }
    ensures learned { IfOk result (λ found. IfSome found
        (IsLearned (opened header.now) (map (λ h. h.now) taught.now.histories.now) aim.now)) }
    ensures nothing { IfOk result (λ found. IfNone found ((why : fault.Unlearned) × (is_of_lessons why ≡ true)
        × IsUnlearned (opened header.now) (map (λ h. h.now) taught.now.histories.now) aim.now why)) }
    ensures failure { IfErr result (λ failure. ((failure ≡ Failure.CommandLine) × (path : ℕ)
        × IsUnlearned (opened header.now) (map (λ h. h.now) taught.now.histories.now) aim.now (faults.NoNode path))
        ⊎ (failure ≡ Failure.NoMemory)) }
{
    let fault = match learn(alloc, header, taught.histories, aim) {
        Ok(profile) => return Ok(Some(profile)),
        Err(fault) => fault,
    };
    if is_of_lessons(fault) {
        taught.tell(alloc, fault, aim, err);
        return Ok(None);
    }
    match fault {
        Unlearned::NoNode(_) => {
            taught.tell(alloc, fault, aim, err);
            Err(Failure::CommandLine)
        }
        _ => Err(Failure::NoMemory),
    }
}

// What lessons teach: a profile for this client, from these histories of their trees.
#[derive(Drop)]
struct Lesson {
    profile: LearnedProfile,
    client: u64,
    histories: Vec<History>,
}

// Learns from the histories of all lessons. None if nothing is learned, which is printed.
fn profile_by<E: Write>(
    trees: &Trees<'_, '_>,
    request: &Request<'_>,
    blank: &Setup,
    lessons: &[FileLessons<'_>],
    histories: &[History],
    err: &mut E,
) -> Result<Option<LearnedProfile>, Failure>
    requires never { IsWithheld (learn_in trees.now.options.now).never (Some request.now.never) }
    requires beneath { request.now.beneath.items ≡ map path_of_text (learn_in trees.now.options.now).beneath }
    requires blank { IsBlank (learn_in trees.now.options.now) trees.now.policy.now blank.now }
    requires taught { AllZip (AreTaught (learn_in trees.now.options.now) trees.now.policy.now)
        (map picked lessons.now) (map (λ history. history.entries) histories.now) }
    ensures taught { IfOk result (λ found. IfSome found
        (IsTaughtBy (learn_in trees.now.options.now) trees.now.policy.now (map picked lessons.now))) }
    ensures nothing { IfOk result (λ found. IfNone found
        (TeachNothing (learn_in trees.now.options.now) trees.now.policy.now (map picked lessons.now))) }
    ensures failure { IfErr result
        (FailsToLearn (learn_in trees.now.options.now) trees.now.policy.now (map picked lessons.now)) }
{
    let header = header_of(blank);
    let entries = entries_of(trees.alloc, histories)?;
    let taught = Taught {
        lessons,
        histories: entries.as_slice(),
    };
    let aim = Aim {
        client: learner(blank),
        handled: Access::known(blank.rules.abi),
        never: request.never,
        beneath: request.beneath.as_slice(),
    };
    learned_from(trees.alloc, &header, &taught, &aim, err)
}

// Learns from all lessons. None if one doesn't get the reply that it says, or nothing is learned, which is printed.
fn taught_by<R: Runner, E: Write>(
    runner: &R,
    trees: &Trees<'_, '_>,
    request: &Request<'_>,
    lessons: &[FileLessons<'_>],
    err: &mut E,
) -> Result<Option<Lesson>, Failure>
    requires never { IsWithheld (learn_in trees.now.options.now).never (Some request.now.never) }
    requires beneath { request.now.beneath.items ≡ map path_of_text (learn_in trees.now.options.now).beneath }
    ensures taught { IfOk result (λ found. IfSome found (λ lesson.
        IsTaughtBy (learn_in trees.now.options.now) trees.now.policy.now (map picked lessons.now) lesson.profile)) }
    ensures nothing { IfOk result (λ found. IfNone found
        (TeachNothing (learn_in trees.now.options.now) trees.now.policy.now (map picked lessons.now))) }
    ensures failure { IfErr result
        (FailsToLearn (learn_in trees.now.options.now) trees.now.policy.now (map picked lessons.now)) }
{
    let blank = trees.blank()?;
    let histories = match teach_all(runner, trees, lessons, err) {
        Ok(Some(histories)) => histories,
        Ok(None) => return Ok(None),
        Err(failure) => return Err(failure),
    };
    match profile_by(trees, request, &blank, lessons, histories.as_slice(), err) {
        Ok(Some(profile)) => Ok(Some(Lesson {
            profile,
            client: learner(&blank),
            histories,
        })),
        Ok(None) => Ok(None),
        Err(failure) => Err(failure),
    }
}

// Prints that there are too many rules, and where most of them are. No contract says how.
fn tell_many<E: Write>(profile: &LearnedProfile, most: usize, err: &mut E) {
    let rules = profile.rules.len();
    let _ = write!(err, "{rules} rules, {most} may be: ");
    if most < RULESET_INODES {
        let _ = write!(err, "--most {RULESET_INODES}, or ");
    }
    let _ = match crowd_of(profile.rules.as_slice()) {
        Some(Crowd { directory, rules }) if rules > 1 => {
            writeln!(err, "--beneath {directory}, which has {rules}")
        }
        _ => writeln!(err, "--beneath DIR"),
    };
}

// Reports whether there are no more rules than allowed. Prints it if there are.
fn are_few<E: Write>(request: &Request<'_>, profile: &LearnedProfile, err: &mut E) -> bool
    ensures few { result ≡ true → length profile.now.rules.items ≤ request.now.most }
    ensures many { result ≡ false → request.now.most < length profile.now.rules.items }
{
    if profile.rules.len() <= request.most {
        return true;
    }
    tell_many(profile, request.most, err);
    false
}

impl Lesson {
    // Reports whether all tests of all files pass under the profile. Prints those that don't.
    fn passes<R: Runner, E: Write, N: Notes>(
        &self,
        runner: &R,
        trees: &Trees<'_, '_>,
        lessons: &[FileLessons<'_>],
        files: &[ReadFile<'_>],
        err: &mut E,
        notes: &mut N,
    ) -> Result<bool, Failure>
        ensures tried { IfOk result (AreTried (learn_in trees.now.options.now) trees.now.policy.now
            self.now.profile (map tests_of files.now)) }
        ensures failure { IfErr result (FailsToMake (learn_in trees.now.options.now) trees.now.policy.now) }
    {
        let entries = entries_of(trees.alloc, self.histories.as_slice())?;
        let candidate = Candidate {
            profile: &self.profile,
            taught: Taught {
                lessons,
                histories: entries.as_slice(),
            },
            client: self.client,
            file: 0,
            left: TOLD_TESTS,
        };
        pass_under(runner, trees, &candidate, files, err, notes)
    }

    // Returns the rights that rules on directories have only for what is made there. None if that isn't known.
    fn made(&self, trees: &Trees<'_, '_>) -> Option<Vec<Made>> {
        let blank = trees.blank().ok()?;
        let header = header_of(&blank);
        let entries = entries_of(trees.alloc, self.histories.as_slice()).ok()?;
        let basis = Basis {
            header: &header,
            histories: entries.as_slice(),
            client: self.client,
        };
        made_rights(trees.alloc, &basis, &self.profile)
    }

    // Prints these rights, if that is wanted. No contract says how.
    fn tell_made<E: Write>(&self, trees: &Trees<'_, '_>, is_wanted: bool, err: &mut E) {
        if !is_wanted {
            return;
        }
        let Some(made) = self.made(trees) else {
            return;
        };
        for one in &made {
            if let Some(rule) = self.profile.rules.get(one.rule)
                && let Ok(rights) = one.rights.text(trees.alloc)
            {
                let (path, rights) = (rule.path.as_str(), rights.as_str());
                let _ = writeln!(
                    err,
                    "  {path}: {rights} only for what is made there: make a directory for it first"
                );
            }
        }
    }
}

// Returns the text of the profile that the files teach, and under which their tests pass. None if there is none, which
// is printed.
fn text_of<R: Runner, E: Write, N: Notes>(
    runner: &R,
    trees: &Trees<'_, '_>,
    request: &Request<'_>,
    files: &[ReadFile<'_>],
    err: &mut E,
    notes: &mut N,
) -> Result<Option<String>, Failure>
    requires name { profile_name (learn_in trees.now.options.now) ≡ Some request.now.name.now }
    requires most { request.now.most ≡ most_rules (learn_in trees.now.options.now) }
    requires never { IsWithheld (learn_in trees.now.options.now).never (Some request.now.never) }
    requires beneath { request.now.beneath.items ≡ map path_of_text (learn_in trees.now.options.now).beneath }
    requires tested { list_all has_test (map tests_of files.now) ≡ true }
    ensures profile { IfOk result (λ found. IfSome found (λ text. IsProfile (learn_in trees.now.options.now)
        trees.now.policy.now (map tests_of files.now) (string_bytes text))) }
    ensures hindered { IfOk result (λ found. IfNone found
        (IsHindered (learn_in trees.now.options.now) trees.now.policy.now (map tests_of files.now))) }
    ensures failure { IfErr result (FailsToLearn (learn_in trees.now.options.now) trees.now.policy.now
        (map lessons_of (map tests_of files.now))) }
{
    let lessons = lessons_in(trees.alloc, files)?;
    let lesson = match taught_by(runner, trees, request, lessons.as_slice(), err) {
        Ok(Some(lesson)) => lesson,
        Ok(None) => return Ok(None),
        Err(failure) => return Err(failure),
    };
    if !are_few(request, &lesson.profile, err) {
        return Err(Failure::CommandLine);
    }
    match lesson.passes(runner, trees, lessons.as_slice(), files, err, notes) {
        Ok(true) => {}
        Ok(false) => return Ok(None),
        Err(failure) => return Err(failure),
    }
    lesson.tell_made(trees, notes.are_wanted(), err);
    let lines = LessonNotes {
        files: lessons.as_slice(),
    };
    match lesson.profile.text(trees.alloc, &lines, request.name) {
        Ok(text) => Ok(Some(text)),
        Err(_) => Err(Failure::NoMemory),
    }
}

fn are_own(files: &[ReadFile<'_>]) -> bool
    ensures { result ≡ list_any (λ file. has_own (tests_of file)) files.now }
{
    files.iter().any(|file| file.has_own())
}

// Reports whether a section names its own policy.
fn have_own(files: &[ReadFile<'_>]) -> bool
    ensures { result ≡ list_any has_own (map tests_of files.now) }
{
    are_own(files)
}

// Prints where a section first names its own policy, which `learn` has no use for.
fn tell_own<E: Write>(files: &[ReadFile<'_>], err: &mut E) {
    for file in files {
        if let Some(own) = &file.own {
            let (name, line) = (file.name, own.line);
            let _ = writeln!(err, "{name}:{line}:1: learn takes its policy by --policy");
            return;
        }
    }
}

/// Learns one layer from the tests that expect no denial, made with nobody under a layer. Writes it as a profile if all
/// tests pass under it. All files are read before anything is run. Whatever keeps a profile from being written is
/// printed to `err`: a bad line, or one that names a policy; a file without a test; a test that isn't met; nothing that
/// can be learned. Errors: a word is wrong, a path of the words leads to no node, or there are more rules than they
/// allow; the policy's text gives no setup; a call of its loader is refused; `out` fails; memory ran out.
pub fn learn_files<R: Runner, W: Write, E: Write, N: Notes>(
    runner: &R,
    alloc: Global,
    input: &LearnInput<'_, '_>,
    out: &mut W,
    err: &mut E,
    notes: &mut N,
) -> Result<Checked, Failure>
    ensures { EndsLessons (learn_in input.now.options.now) input.now.policy.now (map source_of input.now.files.now)
        (W.contents out.old) (W.contents out.new) result }
{
    let request = Request::of_options(alloc, input.options)?;
    let read = match read_all(alloc, input.files) {
        Ok(read) => read,
        Err(bad) => return tell_bad(alloc, input.files, TestKind::Command, bad, err),
    };
    let files = read.as_slice();
    if have_own(files) {
        tell_own(files, err);
        return Ok(Checked::BadLine);
    }
    if !have_tests(files) {
        tell_untested(files, err);
        return Ok(Checked::Failed);
    }
    let trees = Trees {
        alloc,
        options: input.options,
        policy: input.policy,
    };
    let text = match text_of(runner, &trees, &request, files, err, notes) {
        Ok(Some(text)) => text,
        Ok(None) => return Ok(Checked::Failed),
        Err(failure) => return Err(failure),
    };
    match write_whole(out, text.as_str()) {
        Ok(()) => Ok(Checked::Passed),
        Err(_) => Err(Failure::Output),
    }
}
