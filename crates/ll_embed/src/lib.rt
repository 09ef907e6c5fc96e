//! What C, Rust, Python and pages call: from texts in the caller's buffers to a text in the caller's buffer.
#![tactic(auto)]

mod answer;
mod ask_fault;
mod asked;
mod explained;
mod fault;
mod file_check;
mod given;
mod granted;
mod history;
mod learned_profile;
mod lines;
mod own_runner;
mod own_tree;
mod replies;
mod run;
mod text_run;

ghost use Rattle.std.specs.Prelude.{◌≡◌};
ghost use Rattle.ll_embed.specs.Answers.{AuditAnswers, EntryAnswers, HistoryAnswers, PolicyAnswers};
ghost use Rattle.ll_embed.specs.Answers.{RunAnswers, is_set};
ghost use Rattle.ll_embed.specs.Buffer.{Gives};
ghost use Rattle.ll_embed.specs.CheckAnswers.{CheckAnswers};
ghost use Rattle.ll_embed.specs.LearnAnswers.{LearnAnswers};
ghost use Rattle.ll_embed.specs.Questions.{RightsAnswers, WhyAnswers};

use crate::asked::ProfileGiven;
use crate::file_check::CheckGiven;
use crate::given::Given;
use crate::learned_profile::{LearnGiven, learned_answer};
use std::alloc::Global;

/// Returns the version of these functions, which a caller compares with its header's.
#[unsafe(no_mangle)]
pub extern "C" fn landtree_version() -> u32
    ensures { result ≡ 1 }
{
    1
}

/// Runs a script in a new tree. Writes its transcript to `out`, if there is room for all of it. In any case `len` gets
/// the length. With `strict` other than 0, the run ends at the first line that the program's `--strict` would end it
/// at. With a `history` of 0 the history has room for all lines, if a million entries are enough.
#[unsafe(no_mangle)]
pub extern "C" fn landtree_run(
    alloc: Global,
    level: u64,
    nodes: usize,
    history: usize,
    strict: u32,
    policy: &[u8],
    profile: &[u8],
    script: &[u8],
    out: &mut [u8],
    len: &mut usize,
) -> u32
    ensures { Gives (RunAnswers (record {
      level = level;
      nodes = nodes;
      history = history;
      policy = policy.now;
      profile = profile.now;
      script = script.now;
    }) (is_set strict)) out.old out.new len.new result }
{
    let given = Given {
        level,
        nodes,
        history,
        policy,
        profile,
        script,
    };
    let answer = run::transcript(alloc, &given, strict != 0);
    answer.put(out, len)
}

/// Runs a script in a new tree, as `landtree_run` without `strict` does. Writes the run's history, as the program's
/// `--save` does.
#[unsafe(no_mangle)]
pub extern "C" fn landtree_history(
    alloc: Global,
    level: u64,
    nodes: usize,
    history: usize,
    policy: &[u8],
    profile: &[u8],
    script: &[u8],
    out: &mut [u8],
    len: &mut usize,
) -> u32
    ensures { Gives (HistoryAnswers (record {
      level = level;
      nodes = nodes;
      history = history;
      policy = policy.now;
      profile = profile.now;
      script = script.now;
    })) out.old out.new len.new result }
{
    let given = Given {
        level,
        nodes,
        history,
        policy,
        profile,
        script,
    };
    let answer = run::history(alloc, &given);
    answer.put(out, len)
}

/// Reports whether a text is a policy. If it isn't, writes its first fault, for people.
#[unsafe(no_mangle)]
pub extern "C" fn landtree_policy(
    alloc: Global,
    policy: &[u8],
    out: &mut [u8],
    len: &mut usize,
) -> u32
    ensures { Gives (PolicyAnswers policy.now) out.old out.new len.new result }
{
    let answer = given::policy_answer(alloc, policy);
    answer.put(out, len)
}

/// Judges a saved history, as `audit` of the program does.
#[unsafe(no_mangle)]
pub extern "C" fn landtree_audit(
    alloc: Global,
    history: &[u8],
    out: &mut [u8],
    len: &mut usize,
) -> u32
    ensures { Gives (AuditAnswers history.now) out.old out.new len.new result }
{
    let answer = history::verdict_on(alloc, history);
    answer.put(out, len)
}

/// Learns the least profile from a saved history, as `learn --history` of the program does. The client 0, the number 0
/// of rules and an empty name stand for the program's defaults. `never` has rights with commas between, `beneath` a
/// directory in each line; both may be empty.
#[unsafe(no_mangle)]
pub extern "C" fn landtree_learn(
    alloc: Global,
    client: u64,
    most: usize,
    never: &[u8],
    beneath: &[u8],
    name: &[u8],
    history: &[u8],
    out: &mut [u8],
    len: &mut usize,
) -> u32
    ensures { Gives (LearnAnswers (record {
      client = client;
      most = most;
      never = never.now;
      beneath = beneath.now;
      name = name.now;
    }) history.now) out.old out.new len.new result }
{
    let given = LearnGiven {
        client,
        most,
        never,
        beneath,
        name,
    };
    let answer = learned_answer(alloc, &given, history);
    answer.put(out, len)
}

/// Tells why the entry with this number, from 1, of a saved history was answered so, as `why` of the program does.
#[unsafe(no_mangle)]
pub extern "C" fn landtree_why_entry(
    alloc: Global,
    number: usize,
    history: &[u8],
    out: &mut [u8],
    len: &mut usize,
) -> u32
    ensures { Gives (EntryAnswers history.now number) out.old out.new len.new result }
{
    let answer = history::why(alloc, history, number);
    answer.put(out, len)
}

/// Writes the table of the rights that a policy's profile is granted, as the program's `rights` does: a line for each
/// path that a line of `paths` names, or without any for each node of the policy. The form is 0 for a line with the
/// rights that all layers grant, 1 for one with a column for each layer too, and 2 for an object of JSON.
#[unsafe(no_mangle)]
pub extern "C" fn landtree_rights(
    alloc: Global,
    nodes: usize,
    form: u32,
    policy: &[u8],
    profile: &[u8],
    paths: &[u8],
    out: &mut [u8],
    len: &mut usize,
) -> u32
    ensures { Gives (RightsAnswers (record {
      nodes = nodes;
      policy = policy.now;
      profile = profile.now;
    }) form paths.now) out.old out.new len.new result }
{
    let given = ProfileGiven {
        nodes,
        policy,
        profile,
    };
    let answer = granted::table(alloc, &given, form, paths);
    answer.put(out, len)
}

/// Tells why a command of a policy's profile is answered as it is, as the program's `why COMMAND..` does: each line of
/// `commands` is a command, and the last one is explained, after those before it.
#[unsafe(no_mangle)]
pub extern "C" fn landtree_why(
    alloc: Global,
    nodes: usize,
    policy: &[u8],
    profile: &[u8],
    commands: &[u8],
    out: &mut [u8],
    len: &mut usize,
) -> u32
    ensures { Gives (WhyAnswers (record {
      nodes = nodes;
      policy = policy.now;
      profile = profile.now;
    }) commands.now) out.old out.new len.new result }
{
    let given = ProfileGiven {
        nodes,
        policy,
        profile,
    };
    let answer = explained::why(alloc, &given, commands);
    answer.put(out, len)
}

/// Checks a file of checks with this name and this text, as `check` of the program does. The form is 0 for the usual
/// text, 1 for a quiet and 2 for a verbose one, 3 for TAP, 4 for JUnit's XML, and 5 for JSON.
#[unsafe(no_mangle)]
pub extern "C" fn landtree_check(
    alloc: Global,
    level: u64,
    nodes: usize,
    form: u32,
    policy: &[u8],
    profile: &[u8],
    name: &[u8],
    checks: &[u8],
    out: &mut [u8],
    len: &mut usize,
) -> u32
    ensures { Gives (CheckAnswers (record {
      level = level;
      nodes = nodes;
      form = form;
      policy = policy.now;
      profile = profile.now;
      name = name.now;
      checks = checks.now;
    })) out.old out.new len.new result }
{
    let given = CheckGiven {
        level,
        nodes,
        form,
        policy,
        profile,
        name,
        checks,
    };
    let answer = given.answer(alloc);
    answer.put(out, len)
}
