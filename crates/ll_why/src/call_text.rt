//! Explains a command in a tree.

ghost use Rattle.std.specs.Prelude.{◌≡◌, ◌<◌, ◌-◌, ◌^◌, ◌++◌, true, false, IfOk, string_bytes};
ghost use Rattle.ll_rights.specs.Map.{has};
ghost use Rattle.ll_seq.specs.History.{is_connect};
ghost use Rattle.ll_why.specs.CallWhy.{IsCallWhy, command_lines, command_text};

use crate::why_json::call_json;
use crate::{Explanation, WhyStyle, call_line, explain};
use ll_plain::Plain;
use ll_rights::Abi;
use ll_seq::{Call, Reply};
use ll_wire::reply_text_behind;
use std::alloc::{AllocError, Global};

// Returns the lines with the command, the tree's reply, and what policy says of it.
fn command_lines(
    alloc: Global,
    call: &Call,
    reply: &Reply,
    told: &Explanation,
) -> Result<String, AllocError>
    ensures { IfOk result (λ text. string_bytes text ≡ command_lines call.now reply.now told.now) }
{
    let mut text = call_line(alloc, call)?;
    let answer = reply_text_behind(alloc, "answered", reply)?;
    let why = told.text(alloc, call)?;
    text.push_str(answer.as_str())?;
    text.push_str(why.as_str())?;
    Ok(text)
}

fn command_text(
    alloc: Global,
    style: WhyStyle,
    call: &Call,
    reply: &Reply,
    told: &Explanation,
) -> Result<String, AllocError>
    ensures { IfOk result (λ text. string_bytes text ≡ command_text style call.now reply.now told.now) }
{
    match style {
        WhyStyle::Lines => command_lines(alloc, call, reply, told),
        WhyStyle::Json => call_json(alloc, call, reply, told),
    }
}

/// Returns the text on the client's call in the tree, which has this level and can't be used afterwards. Errors: memory
/// ran out.
pub fn call_why(
    alloc: Global,
    style: WhyStyle,
    mut tree: Plain,
    level: Abi,
    client: u64,
    call: &Call,
) -> Result<String, AllocError>
    requires caller { has tree.clients client ≡ true }
    requires call { is_connect call.now ≡ false }
    requires next { tree.next < 2 ^ 64 - 1 }
    ensures { IfOk result (λ text. IsCallWhy style level tree client call.now (string_bytes text)) }
{
    let Some(caller) = tree.client(client) else {
        unreachable!()
    };
    let told = explain(alloc, &tree, level, caller, call)?;
    let fresh = tree.free_number();
    let reply = tree.apply(client, call, fresh);
    if reply.wants_memory() {
        return Err(AllocError);
    }
    command_text(alloc, style, call, &reply, &told)
}
