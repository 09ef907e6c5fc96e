//! A reply in two copies: for the history and for the caller.

ghost use Rattle.std.specs.Prelude.{◌≡◌, true, IfOk, OnErr};
ghost use Rattle.ll_seq.specs.Memory.{holds_memory};

use ll_seq::Reply;
use std::alloc::{AllocError, Global};
use std::marker::Model;

/// A reply and its copy. Contracts see the reply.
#[derive(Drop)]
pub(crate) struct ReplyPair {
    entry: Reply,
    caller: Reply,
}

impl Model for ReplyPair {
    ghost use Rattle.std.specs.Prelude.{◌≡◌};
    ghost use Rattle.ll_seq.specs.declared.reply.Reply.{Reply};
    ghost use Rattle.ll_seq.specs.contracts.reply.Reply as reply;

    ghost Value = { Reply };

    ghost coded = { (reply.the_row).coded };

    ghost view = { λ pair. pair.entry };

    ghost invariant = { λ pair. pair.caller ≡ pair.entry };
}

impl ReplyPair {
    /// Copies the reply. Errors: memory ran out, only for a reply that holds bytes or names.
    #[inline(always)]
    pub(crate) fn new(alloc: Global, reply: Reply) -> Result<ReplyPair, AllocError>
        ensures ok { IfOk result (λ pair. pair ≡ reply) }
        ensures err { OnErr result (holds_memory reply ≡ true) }
    {
        let caller = reply.copy(alloc)?;
        Ok(ReplyPair {
            entry: reply,
            caller,
        })
    }

    /// Splits the pair: the first goes into the history's entry, the second to the caller.
    pub(crate) fn split(self) -> (Reply, Reply)
        ensures entry { result.0 ≡ self }
        ensures caller { result.1 ≡ self }
    {
        (self.entry, self.caller)
    }
}
