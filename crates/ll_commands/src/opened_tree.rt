//! A tree that is opened with a policy.

ghost use Rattle.std.specs.Prelude.{◌≡◌, ◌<◌, ◌≤◌, ◌+◌, ◌-◌, ◌^◌, ◌∷◌, ℕ, true, false, not, length, OnOk, IfOk, IfErr};
ghost use Rattle.std.specs.Prelude.{◌≢◌, IfSome};
ghost use Rattle.ll_rights.specs.Map.{has};
ghost use Rattle.ll_rights.specs.declared.errno.Errno.TheVariants as errno;
ghost use Rattle.ll_seq.specs.History.{is_connect};
ghost use Rattle.ll_seq.specs.declared.call.Call.{Call};
ghost use Rattle.ll_seq.specs.declared.reply.Reply.TheVariants as reply;
ghost use Rattle.ll_session.specs.Session.{AreOthers};
ghost use Rattle.ll_session.specs.declared.refusal.Opener.{Opener};
ghost use Rattle.ll_commands.specs.OpenedTree.{Comes, FailsSo, IsLoadStopped, IsRefusedThere, IsStopped, Loads, Makes};
ghost use Rattle.ll_commands.specs.OpenedTree.{MakesOne, Opens, Stops, refused_by};

use ll_plain::Plain;
use ll_program::Failure;
use ll_rights::Errno;
use ll_seq::{Call, Reply};
use ll_session::{Opener, Refusal, Setup, unless_refused};
use std::alloc::Global;

// Returns the failure for the call that got this reply, after which this client has made so many.
fn failure_of(opener: Opener, calls: usize, told: Reply) -> Failure
    ensures { FailsSo (λ refusal. (told ≢ reply.Refused errno.NoMemory)
        × (refusal ≡ refused_by opener calls told)) result }
{
    match told {
        Reply::Refused(Errno::NoMemory) => Failure::NoMemory,
        reply => Failure::Opening(Refusal {
            opener,
            calls,
            reply,
        }),
    }
}

// Makes the client's call. Errors: the reply that refuses it, or NoMemory.
fn make_one(tree: &mut Plain, client: u64, call: &Call) -> Result<(), Reply>
    requires caller { has tree.old.clients client ≡ true }
    requires call { is_connect call.now ≡ false }
    requires next { tree.old.next < 2 ^ 64 - 1 }
    ensures ok { OnOk result (MakesOne client tree.old call.now tree.new) }
    ensures there { has tree.new.clients client ≡ true }
    ensures refused { IfErr result (λ told. told ≢ reply.Refused errno.NoMemory
        → IsRefusedThere client tree.old call.now told) }
    ensures numbers { tree.new.next ≤ tree.old.next + 1 }
{
    let fresh = tree.free_number();
    unless_refused(tree.apply(client, call, fresh))
}

// Connects the client. Errors: the reply that refuses it, or NoMemory.
fn connect(tree: &mut Plain, client: u64) -> Result<(), Reply>
    requires free { has tree.old.clients client ≡ false }
    requires next { tree.old.next < 2 ^ 64 - 1 }
    ensures ok { OnOk result (MakesOne client tree.old Call.Connect tree.new) }
    ensures there { OnOk result (has tree.new.clients client ≡ true) }
    ensures refused { IfErr result (λ told. told ≢ reply.Refused errno.NoMemory
        → IsRefusedThere client tree.old Call.Connect told) }
    ensures numbers { tree.new.next ≤ tree.old.next + 1 }
{
    match tree.apply(client, &Call::Connect, client) {
        Reply::Done => Ok(()),
        Reply::Refused(errno) => Err(Reply::Refused(errno)),
        _ => unreachable!(),
    }
}

// Makes the client's calls in turn, up to the first that is refused.
fn make_all(tree: &mut Plain, opener: Opener, client: u64, calls: &[Call]) -> Result<(), Failure>
    requires caller { has tree.old.clients client ≡ true }
    requires calls { AreOthers calls.now }
    requires next { tree.old.next + length calls.now < 2 ^ 64 - 1 }
    ensures ok { OnOk result (Makes client tree.old calls.now tree.new) }
    ensures there { has tree.new.clients client ≡ true }
    ensures failure { IfErr result (FailsSo (λ refusal. (refusal.opener ≡ opener) × (before : ℕ)
        × (refusal.calls ≡ before + 1) × Stops client tree.old calls.now before refusal.reply)) }
    ensures numbers { tree.new.next ≤ tree.old.next + length calls.now }
{
    let mut made = 0;
    for call in calls {
        made += 1;
        match make_one(tree, client, call) {
            Ok(()) => {}
            Err(reply) => return Err(failure_of(opener, made, reply)),
        }
    }
    Ok(())
}

// Connects a client, and makes its calls.
fn bring(tree: &mut Plain, opener: Opener, calls: &[Call]) -> Result<u64, Failure>
    requires calls { AreOthers calls.now }
    requires next { tree.old.next + length calls.now + 1 < 2 ^ 64 - 1 }
    ensures ok { IfOk result (λ client. Comes client tree.old calls.now tree.new) }
    ensures there { IfOk result (λ client. has tree.new.clients client ≡ true) }
    ensures failure { IfErr result (FailsSo (λ refusal. (refusal.opener ≡ opener) × (client : ℕ)
        × Stops client tree.old (Call.Connect ∷ calls.now) refusal.calls refusal.reply)) }
    ensures numbers { tree.new.next ≤ tree.old.next + length calls.now + 1 }
{
    let client = tree.free_number();
    match connect(tree, client) {
        Ok(()) => {}
        Err(reply) => return Err(failure_of(opener, 0, reply)),
    }
    match make_all(tree, opener, client, calls) {
        Ok(()) => Ok(client),
        Err(failure) => Err(failure),
    }
}

// Adds the loader, if there is one.
fn load(tree: &mut Plain, loader: &Option<Vec<Call>>) -> Result<(), Failure>
    requires calls { IfSome loader.now (λ calls. AreOthers calls.items) }
    requires next { tree.old.next ≤ 2 }
    ensures ok { OnOk result (Loads tree.old loader.now tree.new) }
    ensures failure { IfErr result (FailsSo (λ refusal. (refusal.opener ≡ Opener.Loader)
        × IsLoadStopped tree.old loader.now refusal)) }
    ensures numbers { tree.new.next ≤ 2 ^ 62 }
{
    match loader {
        None => Ok(()),
        Some(calls) => match bring(tree, Opener::Loader, calls.as_slice()) {
            Ok(_) => Ok(()),
            Err(failure) => Err(failure),
        },
    }
}

/// A tree, and a client of it.
#[derive(Drop)]
pub struct Opened {
    pub tree: Plain,
    pub client: u64,
    ghost there: { has tree.clients client ≡ true },
}

/// Opens a tree: adds the loader, if there is one, and then the client of the profile. Errors: a call of one of them is
/// refused, or memory ran out.
pub fn open_tree(alloc: Global, setup: &Setup) -> Result<Opened, Failure>
    ensures ok { IfOk result (λ opened. Opens setup.now opened.client opened.tree) }
    ensures failure { IfErr result (FailsSo (IsStopped setup.now)) }
{
    let Ok(mut tree) = Plain::new(alloc, setup.rules, setup.nodes) else {
        return Err(Failure::NoMemory);
    };
    match load(&mut tree, &setup.loader) {
        Ok(()) => {}
        Err(failure) => return Err(failure),
    }
    match bring(&mut tree, Opener::Profile, setup.profile.as_slice()) {
        Ok(client) => Ok(Opened { tree, client }),
        Err(failure) => Err(failure),
    }
}
