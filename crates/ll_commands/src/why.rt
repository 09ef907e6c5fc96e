//! Writes explanations for `why`.

ghost use Rattle.std.specs.Prelude.{◌≡◌, ◌≤◌, ◌⊎◌, ℕ, List, IfErr, IfOk, IfSome, OnOk, map};
ghost use Rattle.std.specs.Io.KnownBytes.{Appends};
ghost use Rattle.ll_rights.specs.declared.limits.TheConstants.{TREE_NODES};
ghost use Rattle.ll_wire.specs.Transcript.{Writes};
ghost use Rattle.ll_program.specs.Options.{tree_in, why_in};
ghost use Rattle.ll_wire.specs.WriterGains.{AppendsFront};
ghost use Rattle.ll_commands.specs.Why.{CommandAnswers, CommandFails, EntryAnswers, EntryFails, IsAnswer};
ghost use Rattle.ll_commands.specs.Why.{IsToldSo, LacksAnswer, MayFail, answer_text, conclusion_of, why_style};

use crate::commands::{call_of, calls_of, told_of_setup};
use ll_audit::Verdict;
use ll_program::{
    AnswerForm, Conclusion, Failure, Question, TreeOptions, WhyOptions, read_text, setup_of,
    write_text,
};
use ll_why::{HistoryWhy, WhyStyle, why_entry};
use std::alloc::Global;
use std::io::{Read, Write};

/// An explanation, or why there is none.
#[derive(Drop)]
pub enum Answer {
    /// Lines for people, or an object of JSON.
    Told(String),
    /// The history's first malformed line, counted from 1.
    BadLine(usize),
}

fn why_style(form: Option<AnswerForm>) -> WhyStyle
    ensures { result ≡ why_style form }
{
    match form {
        Some(AnswerForm::Json) => WhyStyle::Json,
        Some(AnswerForm::Text) | None => WhyStyle::Lines,
    }
}

// Explains the history's entry with this number.
fn answer_of_entry<R: Read>(
    alloc: Global,
    style: WhyStyle,
    file: &mut R,
    number: u64,
) -> Result<Answer, Failure>
    ensures told { IfOk result (λ answer. (text : List ℕ) × IfSome (R.remaining file.old) (λ told. text ≡ told)
        × EntryAnswers style number text answer) }
    ensures failure { IfErr result (λ failure. (text : List ℕ) × IfSome (R.remaining file.old) (λ told. text ≡ told)
        × EntryFails number text failure) }
{
    let bytes = read_text(alloc, file)?;
    match why_entry(alloc, style, bytes.as_slice(), number as usize) {
        Ok(HistoryWhy::Told(text)) => Ok(Answer::Told(text)),
        Ok(HistoryWhy::BadLine(line)) => Ok(Answer::BadLine(line)),
        Ok(HistoryWhy::NoEntry) => Err(Failure::CommandLine),
        Err(_) => Err(Failure::NoMemory),
    }
}

// Explains the command that the word spells, after those before it, by this run's policy.
fn answer_of_command<R: Read>(
    alloc: Global,
    style: WhyStyle,
    tree: &TreeOptions,
    before: &[&str],
    word: &str,
    file: &mut R,
) -> Result<Answer, Failure>
    ensures told { IfOk result (λ answer. (text : List ℕ) × IfSome (R.remaining file.old) (λ told. text ≡ told)
        × CommandAnswers style (tree_in tree.now) (map (λ w. w.now) before.now) word.now text answer) }
    ensures failure { IfErr result (λ failure. (text : List ℕ) × IfSome (R.remaining file.old) (λ told. text ≡ told)
        × CommandFails (tree_in tree.now) (map (λ w. w.now) before.now) word.now text failure) }
{
    let calls = calls_of(alloc, before)?;
    let call = match call_of(alloc, word) {
        Ok(call) => call,
        Err(failure) => {
            drop(calls);
            return Err(failure);
        }
    };
    let setup = match setup_of(alloc, tree, file) {
        Ok(setup) => setup,
        Err(failure) => {
            drop(call);
            drop(calls);
            return Err(failure);
        }
    };
    let told = told_of_setup(alloc, style, &setup, calls.as_slice(), &call);
    drop(setup);
    drop(call);
    drop(calls);
    match told {
        Ok(text) => Ok(Answer::Told(text)),
        Err(failure) => Err(failure),
    }
}

/// Returns the explanation that the options ask for, of the history or by the policy in this file. Errors: the words
/// are wrong, the policy gives no setup, a call of it is refused, the file can't be read, or memory ran out.
pub fn answer_of<R: Read>(
    alloc: Global,
    options: &WhyOptions,
    file: &mut R,
) -> Result<Answer, Failure>
    ensures told { IfOk result (λ answer. (text : List ℕ) × IfSome (R.remaining file.old) (λ told. text ≡ told)
        × IsAnswer (why_in options.now) text answer) }
    ensures failure { IfErr result (λ failure. (text : List ℕ) × IfSome (R.remaining file.old) (λ told. text ≡ told)
        × LacksAnswer (why_in options.now) text failure) }
{
    let style = why_style(options.form);
    match options.question() {
        None => Err(Failure::CommandLine),
        Some(Question::Entry(_, number)) => answer_of_entry(alloc, style, file, number),
        Some(Question::Command(asked)) => {
            let tree = TreeOptions::of_profile(asked.policy, asked.profile, options.nodes);
            answer_of_command(alloc, style, &tree, asked.before, asked.command, file)
        }
    }
}

// Writes the whole explanation.
fn write_answer<W: Write>(alloc: Global, answer: &Answer, out: &mut W) -> Result<(), Failure>
    ensures ok { OnOk result (Appends (W.contents out.old) (W.contents out.new) (answer_text answer.now)) }
    ensures failure { IfErr result (λ failure. ((failure ≡ Failure.NoMemory)
        × (W.contents out.new ≡ W.contents out.old))
        ⊎ ((failure ≡ Failure.Output)
        × AppendsFront (W.contents out.old) (W.contents out.new) (answer_text answer.now))) }
{
    match answer {
        Answer::Told(text) => write_text(text.as_str(), out),
        Answer::BadLine(line) => match Verdict::BadLine(*line).text(alloc) {
            Ok(text) => write_text(text.as_str(), out),
            Err(_) => Err(Failure::NoMemory),
        },
    }
}

fn conclusion_of(answer: &Answer) -> Conclusion
    ensures { result ≡ conclusion_of answer.now }
{
    match answer {
        Answer::Told(_) => Conclusion::Done,
        Answer::BadLine(line) => Conclusion::Judged(Verdict::BadLine(*line)),
    }
}

/// Writes the explanation that the options ask for, of the history or by the policy in this file. Writes nothing before
/// it is complete, and doesn't retry after a failure. Errors: those of `answer_of`; the output failed.
pub fn tell_why<R: Read, W: Write>(
    alloc: Global,
    options: &WhyOptions,
    file: &mut R,
    out: &mut W,
) -> Result<Conclusion, Failure>
    ensures told { IfOk result (λ conclusion. (text : List ℕ) × IfSome (R.remaining file.old) (λ told. text ≡ told)
        × Writes (W.contents out.old) (W.contents out.new) (IsToldSo (why_in options.now) text conclusion)) }
    ensures failure { IfErr result (λ failure. (text : List ℕ) × IfSome (R.remaining file.old) (λ told. text ≡ told)
        × MayFail (why_in options.now) text (W.contents out.old) (W.contents out.new) failure) }
{
    let answer = answer_of(alloc, options, file)?;
    match write_answer(alloc, &answer, out) {
        Ok(()) => Ok(conclusion_of(&answer)),
        Err(failure) => Err(failure),
    }
}
