//! Explains a command in a new tree of a policy.

ghost use Rattle.std.specs.Prelude.{◌≡◌, ◌<◌, ◌≤◌, ◌+◌, ◌-◌, ◌^◌, ◌++◌, ◌∷◌, ◌⊎◌, [], ℕ, true, false, IfErr, IfOk};
ghost use Rattle.std.specs.Prelude.{IfSome, OnOk, length, map, string_bytes};
ghost use Rattle.std.specs.List.{AllZip};
ghost use Rattle.ll_rights.specs.Map.{has};
ghost use Rattle.ll_seq.specs.History.{is_connect};
ghost use Rattle.ll_seq.specs.declared.call.Call as calls_of;
ghost use Rattle.ll_seq.specs.State.{State};
ghost use Rattle.ll_commands.specs.OpenedTree.{FailsSo, IsStopped, Opens};
ghost use Rattle.ll_session.specs.Session.{AreOthers};
ghost use Rattle.ll_commands.specs.Why.{Follows, HasNoCommand};
ghost use Rattle.ll_why.specs.CallWhy.{IsCallWhy, IsCommand};

use crate::{Opened, open_tree};
use ll_plain::Plain;
use ll_program::Failure;
use ll_rights::Errno;
use ll_seq::Call;
use ll_session::Setup;
use ll_why::{WhyStyle, call_why};
use ll_wire::read_command;
use std::alloc::{AllocError, Global};

// Returns the line of a command.
fn line_of(alloc: Global, word: &str) -> Result<String, AllocError>
    ensures { IfOk result (λ line. string_bytes line ≡ word.now ++ 10 ∷ []) }
{
    let mut line = String::from_str(alloc, word)?;
    line.push_str("\n")?;
    Ok(line)
}

/// Returns the call that the word spells. Errors: it spells none, or memory ran out.
pub fn call_of(alloc: Global, word: &str) -> Result<Call, Failure>
    ensures call { IfOk result (IsCommand word.now) }
    ensures bad { IfErr result (λ failure. failure ≡ Failure.CommandLine
        → (call : calls_of.Call) → IsCommand word.now call → ⊥) }
    ensures failure { IfErr result (λ failure. (failure ≡ Failure.CommandLine) ⊎ (failure ≡ Failure.NoMemory)) }
{
    let Ok(line) = line_of(alloc, word) else {
        return Err(Failure::NoMemory);
    };
    match read_command(alloc, line.as_str().as_bytes(), 1) {
        Ok((_, call)) => Ok(call),
        Err(Errno::BadLine) => Err(Failure::CommandLine),
        Err(_) => Err(Failure::NoMemory),
    }
}

/// Returns the calls that the words spell. Errors: one spells none, or memory ran out.
pub fn calls_of(alloc: Global, words: &[&str]) -> Result<Vec<Call>, Failure>
    ensures calls { IfOk result (λ calls. AllZip IsCommand (map (λ w. w.now) words.now) calls.items) }
    ensures bad { IfErr result (λ failure. failure ≡ Failure.CommandLine
        → HasNoCommand (map (λ w. w.now) words.now)) }
    ensures failure { IfErr result (λ failure. (failure ≡ Failure.CommandLine) ⊎ (failure ≡ Failure.NoMemory)) }
{
    let mut calls = Vec::new(alloc);
    for word in words {
        let call = call_of(alloc, word)?;
        if let Err(refused) = calls.push(call) {
            drop(refused);
            return Err(Failure::NoMemory);
        }
    }
    Ok(calls)
}

// Makes the client's call, whatever its reply. Errors: memory ran out.
fn make_next(tree: &mut Plain, client: u64, call: &Call) -> Result<(), AllocError>
    requires caller { has tree.old.clients client ≡ true }
    requires call { is_connect call.now ≡ false }
    requires next { tree.old.next < 2 ^ 64 - 1 }
    ensures follows { OnOk result (Follows client tree.old (call.now ∷ []) tree.new) }
    ensures there { has tree.new.clients client ≡ true }
    ensures numbers { tree.new.next ≤ tree.old.next + 1 }
{
    let fresh = tree.free_number();
    let reply = tree.apply(client, call, fresh);
    if reply.wants_memory() {
        return Err(AllocError);
    }
    Ok(())
}

// Makes the client's calls in turn, whatever their replies. Errors: memory ran out.
fn make_in_turn(tree: &mut Plain, client: u64, calls: &[Call]) -> Result<(), AllocError>
    requires caller { has tree.old.clients client ≡ true }
    requires calls { AreOthers calls.now }
    requires next { tree.old.next + length calls.now < 2 ^ 64 - 1 }
    ensures follows { OnOk result (Follows client tree.old calls.now tree.new) }
    ensures there { OnOk result (has tree.new.clients client ≡ true) }
    ensures numbers { OnOk result (tree.new.next ≤ tree.old.next + length calls.now) }
{
    for call in calls {
        make_next(tree, client, call)?;
    }
    Ok(())
}

// Does nothing when it runs. Its contract: no list in memory is longer.
fn fits(calls: &[Call])
    ensures { length calls.now < 2 ^ 62 }
{
    let _calls = calls;
}

// Does nothing when it runs. Its contract: the loader's calls aren't more than a list in memory can have.
fn loader_fits(loader: &Option<Vec<Call>>)
    ensures { IfSome loader.now (λ calls. length calls.items < 2 ^ 62) }
{
    if let Some(calls) = loader {
        fits(calls.as_slice());
    }
}

/// Returns the text on the call in a new tree with this setup, after the calls before it. Errors: a call of the setup
/// is refused, or memory ran out.
pub fn told_of_setup(
    alloc: Global,
    style: WhyStyle,
    setup: &Setup,
    before: &[Call],
    call: &Call,
) -> Result<String, Failure>
    requires before { AreOthers before.now }
    requires call { is_connect call.now ≡ false }
    ensures told { IfOk result (λ text. (client : ℕ) × (opened : State) × (s : State) × Opens setup.now client opened
        × Follows client opened before.now s
        × IsCallWhy style setup.now.rules.abi s client call.now (string_bytes text)) }
    ensures failure { IfErr result (FailsSo (IsStopped setup.now)) }
{
    let opened = open_tree(alloc, setup)?;
    let Opened { mut tree, client } = opened;
    fits(setup.profile.as_slice());
    fits(before);
    loader_fits(&setup.loader);
    match make_in_turn(&mut tree, client, before) {
        Ok(()) => {}
        Err(_) => return Err(Failure::NoMemory),
    }
    match call_why(alloc, style, tree, setup.rules.abi, client, call) {
        Ok(text) => Ok(text),
        Err(_) => Err(Failure::NoMemory),
    }
}
