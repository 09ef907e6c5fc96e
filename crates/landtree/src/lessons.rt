//! Runs `learn`: a profile of what files of checks need, or of what a saved history did.

ghost use Rattle.std.specs.Prelude.{◌≡◌, ℕ, Err, List, IfSome, None, map};
ghost use Rattle.std.specs.List.{list_all};
ghost use Rattle.ll_program.specs.Options.{learn_in};
ghost use Rattle.ll_program.specs.Learn.{lessons_by};
ghost use Rattle.ll_check.specs.Files.{source_of};
ghost use Rattle.ll_check.specs.Lessons.{EndsLessons};
ghost use Rattle.ll_commands.specs.Export.{ended_by};
ghost use Rattle.ll_commands.specs.Learn.{IsLearning};
ghost use Rattle.landtree.specs.Learned.{EndsByChecks, EndsByHistory, EndsLearned, is_of_line};

use crate::checks::{policy_text, texts_of};
use crate::hints::Hints;
use crate::misfits::Misfit;
use ll_check::{LearnInput, Notes, SharedRunner, learn_files};
use ll_commands::{learn_history, tell_learned};
use ll_program::{Checked, Conclusion, Failure, LearnOptions, Lessons, Sources, named};
use std::alloc::Global;
use std::io::{Read, Write};
use std::sync::Wait;

// Reports whether the byte is in a character of a line.
fn is_of_line(byte: u8) -> bool
    ensures { result ≡ is_of_line byte }
{
    byte >= 32 && byte != 127
}

// Reports whether the name, which comments contain, is one line.
fn is_line(name: &str) -> bool
    ensures { result ≡ list_all is_of_line name.now }
{
    name.as_bytes().iter().all(|byte| is_of_line(*byte))
}

// Reports whether each name is one line.
fn are_lines(names: &[&str]) -> bool
    ensures { result ≡ list_all (λ name. list_all is_of_line name.now) names.now }
{
    names.iter().all(|name| is_line(name))
}

// Returns the conclusion from lessons with this result.
fn ended_by(end: Checked) -> Conclusion
    ensures { result ≡ ended_by end }
{
    match end {
        Checked::Passed => Conclusion::Done,
        Checked::Failed => Conclusion::Checked(Checked::Failed),
        Checked::BadLine => Conclusion::Checked(Checked::BadLine),
    }
}

// Adds which word is the reason of this failure, if one is.
fn hint_at_words(alloc: Global, options: &LearnOptions, failure: &Failure, hints: &mut Hints) {
    if let Failure::CommandLine = failure {
        hints.of_misfit(Misfit::of_learn(alloc, options));
    }
}

// Learns from files of checks, over devices of any kind.
fn learn_over<R: Wait, W: Write, E: Write, N: Notes>(
    rt: &R,
    alloc: Global,
    input: &LearnInput<'_, '_>,
    out: &mut W,
    err: &mut E,
    notes: &mut N,
) -> Result<Checked, Failure>
    ensures { EndsLessons (learn_in input.now.options.now) input.now.policy.now (map source_of input.now.files.now)
        (W.contents out.old) (W.contents out.new) result }
{
    learn_files(&SharedRunner { rt }, alloc, input, out, err, notes)
}

// Learns from the saved history with this name, over devices of any kind.
fn learn_from<R: Read, W: Write, E: Write>(
    alloc: Global,
    options: &LearnOptions,
    name: &str,
    file: &mut R,
    out: &mut W,
    err: &mut E,
) -> Result<Conclusion, Failure>
    ensures { (text : List ℕ) × IfSome (R.remaining file.old) (λ told. text ≡ told)
        × IsLearning (learn_in options.now) text (W.contents out.old) (W.contents out.new) result }
{
    let learned = learn_history(alloc, options, file)?;
    tell_learned(alloc, options, name, &learned, out, err)
}

// Learns from the files of checks.
fn learn_checks<S: Sources + Wait, W: Write>(
    rt: &HostRuntime,
    sources: &S,
    options: &LearnOptions,
    out: &mut W,
    hints: &mut Hints,
) -> Result<Conclusion, Failure>
    ensures { EndsByChecks (S.texts sources.now) (learn_in options.now) (W.contents out.old) (W.contents out.new)
        result }
{
    if !are_lines(options.files.as_slice()) {
        hints.of_misfit(Some(Misfit::ControlCharacter));
        return Err(Failure::CommandLine);
    }
    let policy = policy_text(rt, sources, options.policy, hints)?;
    let files = texts_of(rt, sources, options.files.as_slice(), hints)?;
    let input = LearnInput {
        options,
        policy: policy.as_slice(),
        files: files.as_slice(),
    };
    let ended = learn_over(sources, rt.alloc(), &input, out, &mut rt.stderr(), hints);
    match ended {
        Ok(end) => Ok(ended_by(end)),
        Err(failure) => {
            hint_at_words(rt.alloc(), options, &failure, hints);
            hints.of_lessons(options, &failure, policy.as_slice());
            Err(failure)
        }
    }
}

// Learns from the saved history with this name.
fn learn_saved<S: Sources, W: Write>(
    rt: &HostRuntime,
    sources: &S,
    options: &LearnOptions,
    history: &str,
    out: &mut W,
    hints: &mut Hints,
) -> Result<Conclusion, Failure>
    ensures { EndsByHistory (S.texts sources.now) (learn_in options.now) history.now
        (W.contents out.old) (W.contents out.new) result }
{
    let mut file = hints.source(rt.alloc(), sources, named(history));
    let ended = learn_from(
        rt.alloc(),
        options,
        history,
        &mut file,
        out,
        &mut rt.stderr(),
    );
    hints.of_input("history", &file);
    if let Err(failure) = &ended {
        hint_at_words(rt.alloc(), options, failure, hints);
    }
    ended
}

/// Runs `learn`.
pub fn learn_options<S: Sources + Wait, W: Write>(
    rt: &HostRuntime,
    sources: &S,
    options: &LearnOptions,
    out: &mut W,
    hints: &mut Hints,
) -> Result<Conclusion, Failure>
    ensures ends { EndsLearned (S.texts sources.now) (learn_in options.now) (lessons_by (learn_in options.now))
        (W.contents out.old) (W.contents out.new) result }
    ensures none { lessons_by (learn_in options.now) ≡ None → result ≡ Err Failure.CommandLine }
{
    match options.lessons() {
        Some(Lessons::Checks(_)) => learn_checks(rt, sources, options, out, hints),
        Some(Lessons::History(history, _)) => {
            learn_saved(rt, sources, options, history, out, hints)
        }
        None => {
            hints.of_misfit(Some(Misfit::NeitherChecksNorHistory));
            Err(Failure::CommandLine)
        }
    }
}
