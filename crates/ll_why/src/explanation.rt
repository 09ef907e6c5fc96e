//! Why a client's call is denied, or isn't, with the least change that would allow it.

ghost use Rattle.std.specs.Prelude.{◌≡◌, ℕ, IfOk, string_bytes};
ghost use Rattle.ll_seq.specs.Step.{client_of};
ghost use Rattle.ll_seq.specs.declared.call.Call as call_of;
ghost use Rattle.ll_seq.specs.declared.client.ClientRecord as record_of;
ghost use Rattle.ll_wire.specs.Grammar.{call_tokens, line_of};
ghost use Rattle.ll_why.specs.Reasons.{IsWhy};
ghost use Rattle.ll_why.specs.Explained.{AreLeastFor, Explains};
ghost use Rattle.ll_why.specs.Told.{told_text};

use crate::layers::reason_lines;
use crate::{LayerChange, Why, change_for, why_of};
use ll_plain::Plain;
use ll_rights::Abi;
use ll_rules::Domain;
use ll_seq::{Call, ClientRecord};
use ll_wire::{command_text, is_spelled};
use std::alloc::{AllocError, Global};

/// Why a client's call is denied, or isn't, and the least change that would allow it.
#[derive(Drop)]
pub struct Explanation {
    pub why: Why,
    /// The additions to each layer, the oldest first. None if no addition that the tree accepts allows the call, or no
    /// layer is asked.
    pub changes: Option<Vec<LayerChange>>,
}

// Returns the least changes that allow the call, if layers are asked.
fn changes_for(
    alloc: Global,
    tree: &Plain,
    level: Abi,
    domain: &Domain,
    why: &Why,
) -> Result<Option<Vec<LayerChange>>, AllocError>
    ensures { IfOk result (λ found. (c : record_of.ClientRecord) (call : call_of.Call)
        → c.domain ≡ domain.now → IsWhy tree.now c call why.now → AreLeastFor level tree.now c call why.now found) }
{
    match why {
        Why::Judged(reason) => change_for(alloc, tree, level, domain.layers(), &reason.asks),
        Why::Refused(_) | Why::Kept(_) => Ok(None),
    }
}

/// Explains why the caller's call would be denied, or not, in the tree, which has this level. Errors: memory ran out.
pub fn explain(
    alloc: Global,
    tree: &Plain,
    level: Abi,
    caller: &ClientRecord,
    call: &Call,
) -> Result<Explanation, AllocError>
    ensures { IfOk result (λ told. (n : ℕ) → client_of tree.now n ≡ caller.now
        → Explains level tree.now n call.now told) }
{
    let why = why_of(alloc, tree, caller, call)?;
    let changes = changes_for(alloc, tree, level, &caller.domain, &why)?;
    Ok(Explanation { why, changes })
}

/// Returns the call's line, without a client. Errors: memory ran out.
pub fn call_line(alloc: Global, call: &Call) -> Result<String, AllocError>
    ensures { IfOk result (λ text. string_bytes text ≡ line_of (call_tokens call.now)) }
{
    if let Call::Connect = call {
        return String::from_str(alloc, "connect\n");
    }
    is_spelled(call);
    command_text(alloc, 1, call)
}

impl Explanation {
    /// Returns the explanation of this call as lines for people. Errors: memory ran out.
    pub fn text(&self, alloc: Global, call: &Call) -> Result<String, AllocError>
        ensures { IfOk result (λ text. string_bytes text ≡ told_text call.now self.now) }
    {
        match &self.why {
            Why::Refused(_) => String::from_str(alloc, "  refused before any layer is asked\n"),
            Why::Kept(_) => String::from_str(
                alloc,
                "  decided by what the descriptor keeps since its opening\n",
            ),
            Why::Judged(reason) => reason_lines(alloc, call, reason, &self.changes),
        }
    }
}
