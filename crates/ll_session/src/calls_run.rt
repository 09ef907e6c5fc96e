//! Runs of calls, as runs of scripts that spell them.

ghost use Rattle.std.specs.Prelude.{◌≡◌, ◌+◌, ◌<◌, ◌≤◌, All, IfErr, IfOk, ℕ, length};
ghost use Rattle.ll_rights.specs.declared.limits.TheConstants.{TREE_CLIENTS};
ghost use Rattle.ll_wire.specs.Entries.{IsEntry};
ghost use Rattle.ll_session.specs.CallsRun.{Makes, RepliesTo, LinesGetTheReplies};
ghost use Rattle.ll_session.specs.Progress.{Closes};
ghost use Rattle.ll_session.specs.Run.{MayEnd};

use crate::client_call::ClientCall;
use crate::fault::RunFault;
use crate::open_session::placed;
use crate::refusal::Refusal;
use crate::setup::Setup;
use crate::shared::Shared;
use ll_client::{Account, Blank, Shape};
use ll_rights::Errno;
use ll_seq::{History, Reply};
use ll_wire::{SessionFault, is_spelled};
use std::alloc::{AllocError, Global};
use std::marker::Brand;
use std::sync::Wait;

/// The result of a run of calls.
#[derive(Drop)]
pub enum CallReplies {
    /// The replies to the calls, in their order.
    Answered(Vec<Reply>),
    /// No call was made: a connect or a profile's call is refused like this.
    Refused(Refusal),
}

impl<N: Shape> Shared<N> {
    ghost use Rattle.ll_session.specs.Beside.{AnswersBeside};
    ghost use Rattle.ll_session.specs.CallsRun.{RepliedBeside, call_line};

    // Makes the call in a session that this many clients came before. If the caller doesn't exist, the reply is
    // `refused 23 BadLine`.
    fn reply_to<R: Wait>(&mut self, rt: &R, before: u64, made: ClientCall) -> Reply
        requires { before < length self.old.party }
        ensures answers { AnswersBeside N.limit before self.old.party (call_line made) result self.new.party }
        ensures count { length self.old.party ≤ length self.new.party }
    {
        let ClientCall { client, call } = made;
        is_spelled(&call);
        if client > self.len() - before {
            drop(call);
            return Reply::Refused(Errno::BadLine);
        }
        let caller = before + client - 1;
        let reply = self.party.ask(rt, &self.tree, caller as usize, call);
        placed(self.len() - before, reply)
    }

    // Makes each call in turn. Returns the replies.
    fn reply_all<R: Wait>(
        &mut self,
        rt: &R,
        alloc: Global,
        before: u64,
        calls: Vec<ClientCall>,
    ) -> Result<Vec<Reply>, AllocError>
        requires { before < length self.old.party }
        ensures { IfOk result (λ replies.
            RepliedBeside N.limit before self.old.party calls.items replies.items self.new.party) }
    {
        let mut replies = Vec::new(alloc);
        for made in calls {
            let reply = self.reply_to(rt, before, made);
            replies.push(reply)?;
        }
        Ok(replies)
    }
}

// Makes each call in turn, and closes the tree. Returns the replies and the history.
fn reply_and_close<N: Shape, R: Wait>(
    rt: &R,
    alloc: Global,
    shared: Shared<N>,
    before: u64,
    calls: Vec<ClientCall>,
) -> Result<(Vec<Reply>, History), AllocError>
    requires { before < length shared.party }
    ensures replies { IfOk result (λ done. (room : ℕ) → N.slots ≡ room + TREE_CLIENTS
        → Closes N.rules room N.limit shared.party done.1.entries (RepliesTo before calls.items done.0.items)) }
    ensures entries { IfOk result (λ done. All IsEntry done.1.entries) }
{
    let mut shared = shared;
    let replies = shared.reply_all(rt, alloc, before, calls);
    let history = shared.close(rt);
    match replies {
        Ok(replies) => Ok((replies, history)),
        Err(wanted) => {
            drop(history);
            Err(wanted)
        }
    }
}

// Runs the calls on a tree with this blank.
fn run_calls_in<N: Shape, R: Wait>(
    rt: &R,
    alloc: Global,
    blank: Blank<Account>,
    setup: Setup,
    calls: Vec<ClientCall>,
) -> Result<(CallReplies, History), RunFault>
    requires named { blank ≡ N.table }
    requires slots { N.slots ≡ setup.nodes + TREE_CLIENTS }
    requires limit { N.limit ≡ setup.history }
    requires rules { N.rules ≡ setup.rules }
    ensures made { IfOk result (λ done. Makes setup calls.items done.0 done.1.entries) }
    ensures entries { IfOk result (λ done. All IsEntry done.1.entries) }
    ensures fault { IfErr result (λ fault. MayEnd setup fault) }
{
    let Some(mut shared) = Shared::<N>::new(alloc, blank, &setup) else {
        return Err(RunFault::Session(SessionFault::NoMemory));
    };
    match shared.open(rt, setup) {
        Ok(before) => match reply_and_close(rt, alloc, shared, before, calls) {
            Ok((replies, history)) => Ok((CallReplies::Answered(replies), history)),
            Err(_) => Err(RunFault::Session(SessionFault::NoMemory)),
        },
        Err(refusal) => {
            let history = shared.close(rt);
            if !refusal.is_told() {
                drop(history);
                return Err(RunFault::Opening(refusal));
            }
            Ok((CallReplies::Refused(refusal), history))
        }
    }
}

/// Makes calls one after the other on a new tree, which is opened as a script's is. Returns the replies and the
/// history, which has an entry for each call that the tree answered. Errors: a loader's call is refused, or memory ran
/// out.
pub fn run_calls<R: Wait>(
    rt: &R,
    alloc: Global,
    setup: Setup,
    calls: Vec<ClientCall>,
) -> Result<(CallReplies, History), RunFault>
    ensures made { IfOk result (λ done. Makes setup calls.items done.0 done.1.entries) }
    ensures entries { IfOk result (λ done. All IsEntry done.1.entries) }
    ensures fault { IfErr result (λ fault. MayEnd setup fault) }
{
    match Blank::new(alloc) {
        Ok(blank) => run_calls_in::<Brand, R>(rt, alloc, blank, setup, calls),
        Err(_) => Err(RunFault::Session(SessionFault::NoMemory)),
    }
}

/// A script with the lines of these calls gets the lines of these replies.
pub fn lines_get_the_replies()
    ensures { LinesGetTheReplies }
{}
