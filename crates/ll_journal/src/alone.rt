//! Calls for the client alone, which need no node: they concern its own record, or are refused early.

ghost use Rattle.std.specs.Prelude.{◌≡◌, ◌≢◌, ◌<◌, None, Some, slice_get, IfOk, OnErr, option_map, if◌then◌else◌};
ghost use Rattle.ll_rights.specs.Map.{has};
ghost use Rattle.ll_laws.specs.World as world;
ghost use Rattle.ll_seq.specs.Stages.{early_refusals};
ghost use Rattle.ll_seq.specs.declared.reply.Reply.TheVariants as replies;
ghost use Rattle.ll_journal.specs.Own.{IsOwn, Comes, IsFreeOwn};

use crate::pair::ReplyPair;
use ll_rights::{Abi, Access, Errno};
use ll_seq::{Call, ClientRecord, Reply, refused_early};
use std::alloc::{AllocError, Global};

/// A call on the client's record.
#[derive(Clone, Copy)]
pub(crate) enum RecordCall {
    /// Create a ruleset that handles these rights.
    Ruleset(Access),
    /// Enforce the ruleset of this number.
    Confine(u64),
    /// Do nothing: an early check refuses the call.
    Refused(Errno),
}

/// A call for the client alone.
#[derive(Clone, Copy)]
pub(crate) enum Own {
    Spawn,
    OnRecord(RecordCall),
}

/// The refusal as a call for the client alone, if there is one.
fn refused(refusal: Option<Errno>) -> Option<Own>
    ensures { result ≡ option_map (λ errno. Own.OnRecord (RecordCall.Refused errno)) refusal }
{
    match refusal {
        None => None,
        Some(errno) => Some(Own::OnRecord(RecordCall::Refused(errno))),
    }
}

/// The early refusal if the client lacks the descriptor; otherwise None.
fn unheld(caller: &ClientRecord, call: &Call, number: u64) -> Option<Own>
    ensures { result ≡ (if has caller.now.descriptors number then None
        else option_map (λ errno. Own.OnRecord (RecordCall.Refused errno))
        (slice_get (early_refusals caller.now call.now) 0)) }
{
    if caller.descriptors.has(number) {
        return None;
    }
    refused(refused_early(caller, call))
}

/// Classifies the call: Some if it is for the client alone.
pub(crate) fn own_call(caller: &ClientRecord, call: &Call) -> Option<Own>
    ensures { IsOwn caller.now call.now result }
{
    match call {
        Call::Ruleset(rights) => Some(Own::OnRecord(RecordCall::Ruleset(*rights))),
        Call::Confine(number) => Some(Own::OnRecord(RecordCall::Confine(*number))),
        Call::Spawn => Some(Own::Spawn),
        Call::Connect => None,
        Call::Read(number, _, _) => unheld(caller, call, *number),
        Call::Write(number, _, _) => unheld(caller, call, *number),
        Call::Ftruncate(number, _) => unheld(caller, call, *number),
        Call::Close(number) => unheld(caller, call, *number),
        Call::Make(..) => refused(refused_early(caller, call)),
        Call::Open(..) => refused(refused_early(caller, call)),
        Call::Truncate(..) => refused(refused_early(caller, call)),
        Call::ReadDir(_) => refused(refused_early(caller, call)),
        Call::Stat(_) => refused(refused_early(caller, call)),
        Call::Exec(_) => refused(refused_early(caller, call)),
        Call::Unlink(_) => refused(refused_early(caller, call)),
        Call::Rmdir(_) => refused(refused_early(caller, call)),
        Call::Rename(..) => refused(refused_early(caller, call)),
        Call::RenameNoreplace(..) => refused(refused_early(caller, call)),
        Call::Exchange(..) => refused(refused_early(caller, call)),
        Call::Link(..) => refused(refused_early(caller, call)),
        Call::Allow(..) => refused(refused_early(caller, call)),
    }
}

/// The refusal as a reply. Errors: it is NoMemory, which gets no entry.
pub(crate) fn refusal(alloc: Global, errno: Errno) -> Result<ReplyPair, AllocError>
    ensures ok { IfOk result (λ reply. (errno ≢ Errno.NoMemory) × (reply ≡ replies.Refused errno)) }
    ensures err { OnErr result (errno ≡ Errno.NoMemory) }
{
    if errno == Errno::NoMemory {
        return Err(AllocError);
    }
    ReplyPair::new(alloc, Reply::Refused(errno))
}

/// Creates a ruleset. Returns its reply or its refusal.
fn create_ruleset(
    client: &mut ClientRecord,
    alloc: Global,
    abi: Abi,
    rights: Access,
) -> Result<ReplyPair, AllocError>
    ensures ok { IfOk result (λ reply. Comes abi client.old (RecordCall.Ruleset rights) reply client.new) }
    ensures descriptors { client.new.descriptors ≡ client.old.descriptors }
    ensures err { OnErr result (client.new ≡ client.old) }
    ensures starved { OnErr result (IsFreeOwn abi client.old (RecordCall.Ruleset rights)) }
{
    match client.create_ruleset(alloc, abi, rights) {
        Ok(number) => ReplyPair::new(alloc, Reply::Created(number)),
        Err(errno) => refusal(alloc, errno),
    }
}

/// Enforces a ruleset. Returns success or its refusal.
fn confine(client: &mut ClientRecord, alloc: Global, number: u64) -> Result<ReplyPair, AllocError>
    ensures ok { IfOk result (λ reply. (abi : Abi)
        → Comes abi client.old (RecordCall.Confine number) reply client.new) }
    ensures descriptors { client.new.descriptors ≡ client.old.descriptors }
    ensures err { OnErr result (client.new ≡ client.old) }
    ensures starved { OnErr result ((abi : Abi) → IsFreeOwn abi client.old (RecordCall.Confine number)) }
{
    if client.rulesets.get(number).is_none() {
        return ReplyPair::new(alloc, Reply::Refused(Errno::EBADF));
    }
    match client.confine(number) {
        Ok(()) => ReplyPair::new(alloc, Reply::Done),
        Err(errno) => refusal(alloc, errno),
    }
}

/// Makes the call and returns its reply. Errors: memory ran out, and nothing has changed.
pub(crate) fn answer(
    client: &mut ClientRecord,
    alloc: Global,
    abi: Abi,
    asked: RecordCall,
) -> Result<ReplyPair, AllocError>
    ensures ok { IfOk result (λ reply. Comes abi client.old asked reply client.new) }
    ensures descriptors { client.new.descriptors ≡ client.old.descriptors }
    ensures err { OnErr result (client.new ≡ client.old) }
    ensures starved { OnErr result (IsFreeOwn abi client.old asked) }
{
    match asked {
        RecordCall::Ruleset(rights) => create_ruleset(client, alloc, abi, rights),
        RecordCall::Confine(number) => confine(client, alloc, number),
        RecordCall::Refused(errno) => ReplyPair::new(alloc, Reply::Refused(errno)),
    }
}
