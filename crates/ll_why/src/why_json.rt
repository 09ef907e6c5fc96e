//! Writes as JSON why a call is denied, or isn't.

ghost use Rattle.std.specs.Prelude.{◌≡◌, [], Some, codes, IfOk, string_bytes};
ghost use Rattle.ll_why.specs.WhyJson.{call_fields, call_json, decided_fields, denial_json, reason_fields};
ghost use Rattle.ll_why.specs.WhyJson.{told_fields, why_fields};

use crate::additions_json::changes_json;
use crate::layers_json::{all_asked, all_layers};
use crate::text::concat;
use crate::words::{call_words, reply_words};
use crate::{Explanation, LayerChange, Reason, Why};
use ll_decide::Denial;
use ll_seq::{Call, Reply};
use std::alloc::{AllocError, Global};

/// Returns a call and its reply, without braces. Errors: memory ran out.
pub(crate) fn call_fields(alloc: Global, call: &Call, reply: &Reply) -> Result<String, AllocError>
    ensures { IfOk result (λ text. string_bytes text ≡ call_fields call.now reply.now) }
{
    let command = call_words(alloc, call)?;
    let answer = reply_words(alloc, reply)?;
    concat(
        alloc,
        &[
            "\"command\": ",
            command.as_str(),
            ", \"reply\": ",
            answer.as_str(),
        ],
    )
}

// The denial, which names a layer.
fn denied_json(alloc: Global, denial: Denial) -> Result<String, AllocError>
    ensures { IfOk result (λ text. string_bytes text ≡ denial_json (Some denial)) }
{
    let layer = denial.layer.to_string(alloc)?;
    concat(
        alloc,
        &[
            "{\"errno\": \"",
            denial.cause.errno().text(),
            "\", \"layer\": ",
            layer.as_str(),
            ", \"right\": \"",
            denial.right.text(),
            "\", \"place\": \"",
            denial.place.text(),
            "\"}",
        ],
    )
}

fn denial_json(alloc: Global, denial: Option<Denial>) -> Result<String, AllocError>
    ensures { IfOk result (λ text. string_bytes text ≡ denial_json denial) }
{
    match denial {
        Some(denial) => denied_json(alloc, denial),
        None => String::from_str(alloc, "null"),
    }
}

// What decided, with these parts.
fn decided_fields(
    alloc: Global,
    by: &str,
    denial: &str,
    asked: &str,
    layers: &str,
    changes: &str,
) -> Result<String, AllocError>
    ensures { IfOk result (λ text. string_bytes text
        ≡ decided_fields by.now denial.now asked.now layers.now changes.now) }
{
    concat(
        alloc,
        &[
            "\"decided\": ",
            by,
            ", \"denial\": ",
            denial,
            ", \"asked\": [",
            asked,
            "], \"layers\": [",
            layers,
            "], \"changes\": ",
            changes,
        ],
    )
}

fn reason_fields(
    alloc: Global,
    call: &Call,
    reason: &Reason,
    changes: &Option<Vec<LayerChange>>,
) -> Result<String, AllocError>
    ensures { IfOk result (λ text. string_bytes text ≡ reason_fields call.now reason.now changes.now) }
{
    let denial = denial_json(alloc, reason.denial)?;
    let asked = all_asked(alloc, call, &reason.asks)?;
    let layers = all_layers(alloc, call, &reason.asks, reason.layers.as_slice())?;
    let changes = changes_json(alloc, call, &reason.asks, changes)?;
    decided_fields(
        alloc,
        "\"by layers\"",
        denial.as_str(),
        asked.as_str(),
        layers.as_str(),
        changes.as_str(),
    )
}

// A call that the descriptor's opening decided.
fn kept_fields(alloc: Global, denial: Option<Denial>) -> Result<String, AllocError>
    ensures { IfOk result (λ text. string_bytes text
        ≡ decided_fields (codes "\"by the descriptor\"") (denial_json denial) [] [] (codes "null")) }
{
    let denial = denial_json(alloc, denial)?;
    decided_fields(
        alloc,
        "\"by the descriptor\"",
        denial.as_str(),
        "",
        "",
        "null",
    )
}

fn why_fields(alloc: Global, call: &Call, told: &Explanation) -> Result<String, AllocError>
    ensures { IfOk result (λ text. string_bytes text
        ≡ why_fields call.now told.now.why told.now.changes) }
{
    match &told.why {
        Why::Refused(_) => decided_fields(alloc, "\"before layers\"", "null", "", "", "null"),
        Why::Kept(denial) => kept_fields(alloc, *denial),
        Why::Judged(reason) => reason_fields(alloc, call, reason, &told.changes),
    }
}

/// Returns what policy says of a call, if its client exists, without braces. Errors: memory ran out.
pub(crate) fn told_fields(
    alloc: Global,
    call: &Call,
    told: &Option<Explanation>,
) -> Result<String, AllocError>
    ensures { IfOk result (λ text. string_bytes text ≡ told_fields call.now told.now) }
{
    match told {
        Some(told) => why_fields(alloc, call, told),
        None => decided_fields(alloc, "null", "null", "", "", "null"),
    }
}

/// Returns the object on a command, the tree's reply, and what policy says of it. Errors: memory ran out.
pub(crate) fn call_json(
    alloc: Global,
    call: &Call,
    reply: &Reply,
    told: &Explanation,
) -> Result<String, AllocError>
    ensures { IfOk result (λ text. string_bytes text ≡ call_json call.now reply.now told.now) }
{
    let call_and_reply = call_fields(alloc, call, reply)?;
    let why = why_fields(alloc, call, told)?;
    concat(
        alloc,
        &["{", call_and_reply.as_str(), ", ", why.as_str(), "}\n"],
    )
}
