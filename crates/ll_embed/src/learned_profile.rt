//! The least profile for what a saved history did.

ghost use Rattle.std.specs.Prelude.{◌≡◌, ◌⊎◌, ◌<◌, ◌≤◌, IfErr, IfOk, OnOk, map, option_map, string_bytes, true};
ghost use Rattle.std.specs.Str.{IsUtf8};
ghost use Rattle.std.specs.Str.Lines.{lines};
ghost use Rattle.ll_rights.specs.declared.limits.TheConstants.{RULESET_INODES};
ghost use Rattle.ll_path.specs.Path.{path_of_text};
ghost use Rattle.ll_policy.specs.Value.{is_name};
ghost use Rattle.ll_learn.specs.declared.saved_lesson.Learned.{Learned};
ghost use Rattle.ll_embed.specs.LearnAnswers.{IsLearnTold, IsMisasked, IsNoName, IsWithheld, LacksRights, LearnAnswers};
ghost use Rattle.ll_embed.specs.LearnAnswers.{client_by, learn_order_in, line_at, most_by, name_by, stray_path};
ghost use Rattle.ll_embed.specs.LearnAnswers.{unlearned_line, unlearned_status};
ghost use Rattle.ll_embed.specs.Lines.{LacksPath};
ghost use Rattle.ll_embed.specs.declared.fault.Fault.{Fault};

use crate::answer::Answer;
use crate::fault::Fault;
use crate::lines::paths_in;
use ll_learn::{Learned, SavedLesson, Unlearned, stray_line};
use ll_path::Path;
use ll_policy::is_name;
use ll_program::Failure;
use ll_rights::Access;
use ll_rights::limits::RULESET_INODES;
use std::alloc::{AllocError, Global};

/// The profile's name if none is given.
const NAME: &str = "learned";

/// What is asked of a saved history. The client 0, the number 0 and an empty name aren't given; empty texts withhold no
/// right and have no directory.
#[derive(Clone, Copy)]
pub struct LearnGiven<'a> {
    pub client: u64,
    /// The most rules.
    pub most: usize,
    /// Rights that no rule may have.
    pub never: &'a [u8],
    /// Directories, each in a line.
    pub beneath: &'a [u8],
    pub name: &'a [u8],
}

// Returns the line on what is wrong with a history, in this line of it or as a whole.
fn line_at(alloc: Global, line: Option<usize>, words: &str) -> Result<String, AllocError>
    ensures { IfOk result (λ text. string_bytes text ≡ line_at line words.now) }
{
    let Some(line) = line else {
        let mut text = String::from_str(alloc, words)?;
        text.push_str("\n")?;
        return Ok(text);
    };
    let mut text = line.to_string(alloc)?;
    text.push_str(": ")?;
    text.push_str(words)?;
    text.push_str("\n")?;
    Ok(text)
}

// Returns the rights that the text spells; none, if it is empty. Errors: it spells no rights.
fn rights_of(text: &[u8]) -> Result<Access, Fault>
    ensures rights { IfOk result (IsWithheld text.now) }
    ensures fault { IfErr result (λ fault. (fault ≡ Fault.Misfit) × LacksRights text.now) }
{
    if text.is_empty() {
        return Ok(Access(0));
    }
    let Ok(text) = str::from_utf8(text) else {
        return Err(Fault::Misfit);
    };
    match Access::parse(text) {
        Some(rights) => Ok(rights),
        None => Err(Fault::Misfit),
    }
}

// Returns the directories of the text's lines. Errors: a line spells no path, or memory ran out.
fn directories_of(alloc: Global, text: &[u8]) -> Result<Vec<Path>, Fault>
    ensures paths { IfOk result (λ paths. paths.items ≡ map path_of_text (lines text.now)) }
    ensures fault { IfErr result (λ fault. (fault ≡ Fault.NoMemory)
        ⊎ ((fault ≡ Fault.Misfit) × LacksPath text.now)) }
{
    match paths_in(alloc, text) {
        Ok(paths) => Ok(paths),
        Err(Failure::CommandLine) => Err(Fault::Misfit),
        Err(_) => Err(Fault::NoMemory),
    }
}

// Returns the given name, or else the default. Errors: the text isn't UTF-8.
fn name_told(text: &[u8]) -> Result<&str, Fault>
    ensures name { IfOk result (λ name. name.now ≡ name_by text.now) }
    ensures fault { IfErr result (λ fault. (fault ≡ Fault.Misfit) × (IsUtf8 text.now → ⊥)) }
{
    if text.is_empty() {
        return Ok(NAME);
    }
    match str::from_utf8(text) {
        Ok(name) => Ok(name),
        Err(_) => Err(Fault::Misfit),
    }
}

// Returns the profile's name. Errors: the text is no valid name.
fn name_of(text: &[u8]) -> Result<&str, Fault>
    ensures name { IfOk result (λ name. name.now ≡ name_by text.now) }
    ensures valid { IfOk result (λ name. is_name name.now ≡ true) }
    ensures fault { IfErr result (λ fault. (fault ≡ Fault.Misfit) × IsNoName text.now) }
{
    let name = name_told(text)?;
    if is_name(name) {
        Ok(name)
    } else {
        Err(Fault::Misfit)
    }
}

// Returns the answer on what is wrong with a history, in this line of it or as a whole.
fn answer_at(
    alloc: Global,
    status: u32,
    line: Option<usize>,
    words: &str,
) -> Result<Answer, AllocError>
    ensures status { IfOk result (λ answer. answer.status ≡ status) }
    ensures text { IfOk result (λ answer. answer.text.items ≡ line_at line words.now) }
{
    let text = line_at(alloc, line, words)?;
    Ok(Answer {
        status,
        text: text.into_bytes(),
    })
}

fn status_of_fault(fault: Unlearned) -> u32
    ensures { result ≡ unlearned_status fault }
{
    match fault {
        Unlearned::NoNode(_) => 2,
        Unlearned::NoMemory => 4,
        _ => 3,
    }
}

// Returns the path that leads to no node, if one does.
fn stray_path(beneath: &[Path], fault: Unlearned) -> Option<&Path>
    ensures { option_map (λ path. path.now) result ≡ stray_path beneath.now fault }
{
    match fault {
        Unlearned::NoNode(index) => beneath.get(index),
        _ => None,
    }
}

// Returns the line on why nothing is learned.
fn unlearned_line(alloc: Global, beneath: &[Path], fault: Unlearned) -> Result<String, AllocError>
    ensures { IfOk result (λ line. string_bytes line ≡ unlearned_line fault (stray_path beneath.now fault)) }
{
    match stray_path(beneath, fault) {
        Some(path) => stray_line(alloc, path.as_str()),
        None => {
            let words = fault.text(alloc)?;
            line_at(alloc, fault.line(), words.as_str())
        }
    }
}

// Returns the answer on why nothing is learned.
fn answer_on(alloc: Global, beneath: &[Path], fault: Unlearned) -> Result<Answer, AllocError>
    ensures { IfOk result (λ answer.
        IsLearnTold beneath.now (Learned.Nothing fault) answer.status answer.text.items) }
{
    let text = unlearned_line(alloc, beneath, fault)?;
    Ok(Answer {
        status: status_of_fault(fault),
        text: text.into_bytes(),
    })
}

// Returns the answer on a profile that would have so many rules.
fn many_answer(alloc: Global, rules: usize, most: usize) -> Result<Answer, AllocError>
    ensures { IfOk result (λ answer. answer.status ≡ 2) }
{
    let text = format!(in alloc; "{rules} rules, {most} may be\n")?;
    Ok(Answer {
        status: 2,
        text: text.into_bytes(),
    })
}

// Returns the answer that tells what is learned.
fn answer_of(
    alloc: Global,
    lesson: &SavedLesson<'_>,
    learned: Learned,
) -> Result<Answer, AllocError>
    ensures { IfOk result (λ answer.
        IsLearnTold lesson.now.beneath.now learned answer.status answer.text.items) }
{
    match learned {
        Learned::Profile(text) => Ok(Answer {
            status: 0,
            text: text.into_bytes(),
        }),
        Learned::BadLine(line) => answer_at(alloc, 3, Some(line), "bad line"),
        Learned::Nothing(fault) => answer_on(alloc, lesson.beneath, fault),
        Learned::Many(rules) => many_answer(alloc, rules, lesson.most),
    }
}

impl LearnGiven<'_> {
    // Returns the client, if it is given.
    fn client(&self) -> Option<u64>
        ensures { result ≡ client_by self.now.client }
    {
        if self.client == 0 {
            None
        } else {
            Some(self.client)
        }
    }

    // Returns the most rules. Errors: no ruleset takes so many.
    fn most(&self) -> Result<usize, Fault>
        ensures most { IfOk result (λ most. most ≡ most_by self.now.most) }
        ensures few { OnOk result (self.now.most ≤ RULESET_INODES) }
        ensures fault { IfErr result (λ fault. (fault ≡ Fault.Misfit) × (RULESET_INODES < self.now.most)) }
    {
        if self.most > RULESET_INODES {
            return Err(Fault::Misfit);
        }
        if self.most == 0 {
            Ok(RULESET_INODES)
        } else {
            Ok(self.most)
        }
    }

    // Returns what the history teaches. Errors: what is asked is wrong, or memory ran out.
    fn answer(&self, alloc: Global, history: &[u8]) -> Result<Answer, Fault>
        ensures told { IfOk result (λ answer. LearnAnswers (learn_order_in self.now) history.now answer.status
            answer.text.items) }
        ensures fault { IfErr result (λ fault. (fault ≡ Fault.NoMemory)
            ⊎ ((fault ≡ Fault.Misfit) × IsMisasked (learn_order_in self.now))) }
    {
        let most = self.most()?;
        let never = rights_of(self.never)?;
        let name = name_of(self.name)?;
        let beneath = directories_of(alloc, self.beneath)?;
        let lesson = SavedLesson {
            client: self.client(),
            never,
            beneath: beneath.as_slice(),
            most,
            name,
        };
        let Ok(learned) = lesson.learned(alloc, history) else {
            return Err(Fault::NoMemory);
        };
        match answer_of(alloc, &lesson, learned) {
            Ok(answer) => Ok(answer),
            Err(_) => Err(Fault::NoMemory),
        }
    }
}

/// Returns what the saved history teaches.
pub fn learned_answer(alloc: Global, given: &LearnGiven<'_>, history: &[u8]) -> Answer
    ensures { LearnAnswers (learn_order_in given.now) history.now result.status result.text.items }
{
    match given.answer(alloc, history) {
        Ok(answer) => answer,
        Err(fault) => Answer::of_fault(alloc, fault, &[]),
    }
}
