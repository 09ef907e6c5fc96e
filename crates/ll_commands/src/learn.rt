//! Learns from a saved history.

ghost use Rattle.std.specs.Prelude.{◌≡◌, ◌⊎◌, ℕ, Err, IfErr, IfOk, IfSome, List, Some};
ghost use Rattle.ll_program.specs.Learn.{profile_name};
ghost use Rattle.ll_program.specs.Options.{learn_in};
ghost use Rattle.ll_commands.specs.Learn.{IsLearnedOf, IsLearning, LacksLesson, end_without, is_of_history};

use ll_audit::Verdict;
use ll_learn::{Learned, SavedLesson, Unlearned, stray_line};
use ll_program::{Checked, Conclusion, Failure, LearnOptions, paths_of, read_text, write_text};
use ll_rights::limits::RULESET_INODES;
use std::alloc::{AllocError, Global};
use std::io::{Read, Write};

// Returns what the history teaches, in a profile with this name, which the options give.
fn learned_by(
    alloc: Global,
    options: &LearnOptions,
    name: &str,
    history: &[u8],
) -> Result<Learned, Failure>
    requires name { profile_name (learn_in options.now) ≡ Some name.now }
    ensures learned { IfOk result (IsLearnedOf (learn_in options.now) history.now) }
    ensures failure { IfErr result (LacksLesson (learn_in options.now)) }
{
    let Some(never) = options.withheld() else {
        return Err(Failure::CommandLine);
    };
    let beneath = paths_of(alloc, options.beneath.as_slice())?;
    let lesson = SavedLesson {
        client: options.client,
        never,
        beneath: beneath.as_slice(),
        most: options.most_rules(),
        name,
    };
    let Ok(learned) = lesson.learned(alloc, history) else {
        return Err(Failure::NoMemory);
    };
    Ok(learned)
}

/// Learns from the saved history in this file. Errors: a word is wrong, the file can't be read, or memory ran out.
pub fn learn_history<R: Read>(
    alloc: Global,
    options: &LearnOptions,
    file: &mut R,
) -> Result<Learned, Failure>
    ensures learned { IfOk result (λ learned. (text : List ℕ) × IfSome (R.remaining file.old) (λ told. text ≡ told)
        × IsLearnedOf (learn_in options.now) text learned) }
    ensures failure { IfErr result (LacksLesson (learn_in options.now)) }
{
    let Some(name) = options.profile_name() else {
        return Err(Failure::CommandLine);
    };
    let bytes = read_text(alloc, file)?;
    learned_by(alloc, options, name, bytes.as_slice())
}

// Returns what is wrong with the history of this name: in this line, or as a whole.
fn line_on(
    alloc: Global,
    name: &str,
    line: Option<usize>,
    words: &str,
) -> Result<String, AllocError> {
    match line {
        Some(line) => format!(in alloc; "{name}:{line}: {words}\n"),
        None => format!(in alloc; "{name}: {words}\n"),
    }
}

// Returns the line on why nothing is learned from the history with this name: on the path that leads to no node, or on
// the history.
fn fault_line(
    alloc: Global,
    options: &LearnOptions,
    name: &str,
    fault: Unlearned,
) -> Result<String, AllocError> {
    if let Unlearned::NoNode(index) = fault
        && let Some(path) = options.beneath.get(index)
    {
        return stray_line(alloc, path);
    }
    let words = fault.text(alloc)?;
    line_on(alloc, name, fault.line(), words.as_str())
}

// Reports whether the fault is in the history, and not a path of the words.
fn is_of_history(fault: Unlearned) -> bool
    ensures { result ≡ is_of_history fault }
{
    !matches!(fault, Unlearned::NoNode(_))
}

// Returns how it ends if nothing is learned.
fn end_without(fault: Unlearned) -> Result<Conclusion, Failure>
    ensures { result ≡ end_without (is_of_history fault) }
{
    if is_of_history(fault) {
        Ok(Conclusion::Checked(Checked::Failed))
    } else {
        Err(Failure::CommandLine)
    }
}

// Returns the line on too many rules.
fn many_line(alloc: Global, options: &LearnOptions, rules: usize) -> Result<String, AllocError> {
    let most = options.most_rules();
    if most < RULESET_INODES {
        format!(in alloc;
            "{rules} rules, {most} may be: --most {RULESET_INODES}, or --beneath DIR\n"
        )
    } else {
        format!(in alloc; "{rules} rules, {most} may be: --beneath DIR\n")
    }
}

// Prints why nothing is written to the output. Returns how the command ends.
fn refused<E: Write>(
    err: &mut E,
    line: Result<String, AllocError>,
    end: Result<Conclusion, Failure>,
) -> Result<Conclusion, Failure>
    ensures { (result ≡ end) ⊎ (result ≡ Err Failure.NoMemory) }
{
    let Ok(line) = line else {
        return Err(Failure::NoMemory);
    };
    let _ = write_text(line.as_str(), err);
    end
}

/// Writes the profile to the output; or, if there is none, prints one line on why to `err`. Errors: the output failed,
/// or memory ran out.
pub fn tell_learned<W: Write, E: Write>(
    alloc: Global,
    options: &LearnOptions,
    name: &str,
    learned: &Learned,
    out: &mut W,
    err: &mut E,
) -> Result<Conclusion, Failure>
    ensures told { (text : List ℕ) → IsLearnedOf (learn_in options.now) text learned.now
        → IsLearning (learn_in options.now) text (W.contents out.old) (W.contents out.new) result }
    ensures file { result ≡ Err Failure.File → ⊥ }
{
    match learned {
        Learned::Profile(text) => match write_text(text.as_str(), out) {
            Ok(()) => Ok(Conclusion::Done),
            Err(failure) => Err(failure),
        },
        Learned::BadLine(line) => {
            let end = Ok(Conclusion::Judged(Verdict::BadLine(*line)));
            refused(err, line_on(alloc, name, Some(*line), "bad line"), end)
        }
        Learned::Nothing(fault) => {
            let line = fault_line(alloc, options, name, *fault);
            refused(err, line, end_without(*fault))
        }
        Learned::Many(rules) => {
            let line = many_line(alloc, options, *rules);
            refused(err, line, Err(Failure::CommandLine))
        }
    }
}
