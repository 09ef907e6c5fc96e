//! Calls of a session's clients.

ghost use Rattle.std.specs.Prelude.{◌≡◌, ◌≤◌, ◌++◌, false, length, IfOk};
ghost use Rattle.ll_rights.specs.declared.limits.TheConstants.{TREE_CLIENTS};
ghost use Rattle.ll_seq.specs.History.{is_connect};
ghost use Rattle.ll_wire.specs.Grammar.{call_tokens, client_tokens, line_of};
ghost use Rattle.ll_wire.specs.declared.read.TheConstants.{LINE_LIMIT};

use ll_seq::Call;
use std::alloc::{AllocError, Global};

/// A call, and which of the session's clients makes it, numbered from 1. A line of a script may spell it.
#[derive(Drop)]
pub struct ClientCall {
    pub client: u64,
    pub call: Call,
    ghost first: { 1 ≤ client },
    ghost last: { client ≤ TREE_CLIENTS },
    ghost other: { is_connect call ≡ false },
    ghost short: { length (line_of (client_tokens client ++ call_tokens call)) ≤ LINE_LIMIT },
}

impl ClientCall {
    /// Returns a copy. Errors: memory ran out.
    pub fn copy(&self, alloc: Global) -> Result<ClientCall, AllocError>
        ensures { IfOk result (λ copy. copy ≡ self.now) }
    {
        let call = self.call.copy(alloc)?;
        Ok(ClientCall {
            client: self.client,
            call,
        })
    }
}
