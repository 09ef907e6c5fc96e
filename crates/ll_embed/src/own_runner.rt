//! What makes the calls of tests here: trees without locks, that nobody shares.

ghost use Rattle.std.specs.Prelude.{◌≡◌, ◌≤◌, IfErr, IfOk};
ghost use Rattle.ll_session.specs.CallsRun.{Makes, Replied};
ghost use Rattle.ll_session.specs.Run.{MayEnd};
ghost use Rattle.ll_embed.specs.Alone.{own};

use crate::own_tree::OwnTree;
use ll_check::Runner;
use ll_seq::{History, Reply};
use ll_session::{CallReplies, ClientCall, RunFault, Setup, are_entries};
use ll_wire::SessionFault;
use std::alloc::{AllocError, Global};

// Makes each call in turn. Returns the replies.
fn reply_all(
    alloc: Global,
    tree: &mut OwnTree,
    calls: Vec<ClientCall>,
) -> Result<Vec<Reply>, AllocError>
    requires { 1 ≤ tree.old.clients }
    ensures { IfOk result (λ replies. Replied (own tree.old) calls.items replies.items (own tree.new)) }
{
    let mut replies = Vec::new(alloc);
    for made in calls {
        let reply = tree.reply_to(made)?;
        replies.push(reply)?;
    }
    Ok(replies)
}

// Makes the calls in a new tree.
fn make_alone(
    alloc: Global,
    setup: Setup,
    calls: Vec<ClientCall>,
) -> Result<(CallReplies, History), RunFault>
    ensures made { IfOk result (λ done. Makes setup calls.items done.0 done.1.entries) }
    ensures fault { IfErr result (λ fault. MayEnd setup fault) }
{
    let Ok(mut tree) = OwnTree::new(alloc, &setup) else {
        return Err(RunFault::Session(SessionFault::NoMemory));
    };
    match tree.open(setup) {
        Ok(()) => match reply_all(alloc, &mut tree, calls) {
            Ok(replies) => Ok((CallReplies::Answered(replies), tree.into_history())),
            Err(_) => Err(RunFault::Session(SessionFault::NoMemory)),
        },
        Err(refusal) => {
            if !refusal.is_told() {
                return Err(RunFault::Opening(refusal));
            }
            Ok((CallReplies::Refused(refusal), tree.into_history()))
        }
    }
}

/// Makes calls in trees without locks.
#[derive(Clone, Copy)]
pub struct OwnRunner;

impl Runner for OwnRunner {
    fn run(
        &self,
        alloc: Global,
        setup: Setup,
        calls: Vec<ClientCall>,
    ) -> Result<(CallReplies, History), RunFault> {
        match make_alone(alloc, setup, calls) {
            Ok(done) => {
                are_entries(&done.1);
                Ok(done)
            }
            Err(fault) => Err(fault),
        }
    }
}
