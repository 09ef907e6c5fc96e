//! The lines on what each layer says of the rights that a call needs, and on what would allow the call.

ghost use Rattle.std.specs.Prelude.{◌≡◌, IfOk, string_bytes};
ghost use Rattle.std.specs.List.{enumerate_from, flat_map};
ghost use Rattle.ll_why.specs.Reasons.{grants_in};
ghost use Rattle.ll_why.specs.Told.{added_line, all_change_lines, asked_line, change_lines, each_on, gain_line};
ghost use Rattle.ll_why.specs.Told.{grant_lines};
ghost use Rattle.ll_why.specs.Told.{layer_lines, on_lines, path_on, reason_lines, rule_line, undenied_line};

use crate::paths::{asked_line, node_text, seat_text, upper_text};
use crate::text::{concat, rights_line};
use crate::{Asks, Grants, LayerChange, LayerReason, Reason, Ruled};
use ll_decide::{Denial, On};
use ll_rights::Access;
use ll_seq::Call;
use std::alloc::{AllocError, Global};

// Returns the line on the rights that the rule on the node with this many of the path's names allows.
fn rule_line(
    alloc: Global,
    start: &str,
    call: &Call,
    on: On,
    place: usize,
    rule: Ruled,
) -> Result<String, AllocError>
    ensures { IfOk result (λ text. string_bytes text ≡ rule_line start.now (path_on call.now on) (place, rule)) }
{
    let node = upper_text(alloc, call, on, place)?;
    let words = concat(alloc, &[start, ", by the rule on ", node.as_str()])?;
    rights_line(alloc, words.as_str(), rule.rights)
}

// Returns the lines on the rules on the path's nodes, from the root on.
fn rule_lines(
    alloc: Global,
    start: &str,
    call: &Call,
    on: On,
    rules: &[Ruled],
) -> Result<String, AllocError>
    ensures { IfOk result (λ text. string_bytes text
        ≡ flat_map (rule_line start.now (path_on call.now on)) (enumerate_from 0 rules.now)) }
{
    let mut text = String::new(alloc);
    for place in 0..rules.len() {
        let line = rule_line(alloc, start, call, on, place, rules[place])?;
        text.push_str(line.as_str())?;
    }
    Ok(text)
}

// Returns the lines on what a layer doesn't restrict, what its rules allow, and what it doesn't grant.
fn grant_lines(
    alloc: Global,
    start: &str,
    call: &Call,
    on: On,
    grants: &Grants,
) -> Result<String, AllocError>
    ensures { IfOk result (λ text. string_bytes text ≡ grant_lines start.now (path_on call.now on) grants.now) }
{
    let unrestricted = concat(alloc, &[start, ", not restricted"])?;
    let free = rights_line(alloc, unrestricted.as_str(), grants.free)?;
    let ruled = rule_lines(alloc, start, call, on, grants.ruled.as_slice())?;
    let unruled = concat(alloc, &[start, ", by no rule"])?;
    let missing = rights_line(alloc, unruled.as_str(), grants.missing)?;
    concat(alloc, &[free.as_str(), ruled.as_str(), missing.as_str()])
}

/// Returns what a layer grants of the rights needed here.
pub(crate) fn grants_in(told: &LayerReason, on: On) -> &Grants
    ensures { result.now ≡ grants_in told.now on }
{
    match on {
        On::Itself => &told.itself,
        On::Other => &told.other,
        On::Parent => &told.parent,
        On::Left => &told.left,
        On::Entered => &told.entered,
    }
}

// Returns the lines on the rights needed on one `On`.
fn on_lines(
    alloc: Global,
    call: &Call,
    asks: &Asks,
    layer: &str,
    told: &LayerReason,
    on: On,
) -> Result<String, AllocError>
    ensures { IfOk result (λ text. string_bytes text ≡ on_lines call.now asks.now layer.now told.now on) }
{
    let seat = seat_text(alloc, call, asks, on)?;
    let start = concat(alloc, &[layer, " on ", seat.as_str()])?;
    grant_lines(alloc, start.as_str(), call, on, grants_in(told, on))
}

// Returns the lines on all rights needed.
fn each_lines(
    alloc: Global,
    call: &Call,
    asks: &Asks,
    layer: &str,
    told: &LayerReason,
) -> Result<String, AllocError>
    ensures { IfOk result (λ text. string_bytes text
        ≡ flat_map (on_lines call.now asks.now layer.now told.now) each_on) }
{
    let itself = on_lines(alloc, call, asks, layer, told, On::Itself)?;
    let parent = on_lines(alloc, call, asks, layer, told, On::Parent)?;
    let left = on_lines(alloc, call, asks, layer, told, On::Left)?;
    let entered = on_lines(alloc, call, asks, layer, told, On::Entered)?;
    let other = on_lines(alloc, call, asks, layer, told, On::Other)?;
    let parts = [
        itself.as_str(),
        parent.as_str(),
        left.as_str(),
        entered.as_str(),
        other.as_str(),
    ];
    concat(alloc, &parts)
}

// Returns the line on the rights that a node moved into a directory would gain there.
fn gain_line(
    alloc: Global,
    call: &Call,
    asks: &Asks,
    layer: &str,
    on: On,
    rights: Access,
) -> Result<String, AllocError>
    ensures { IfOk result (λ text. string_bytes text ≡ gain_line call.now asks.now layer.now on rights.0) }
{
    let seat = seat_text(alloc, call, asks, on)?;
    let words = concat(alloc, &[layer, " would let be gained on ", seat.as_str()])?;
    rights_line(alloc, words.as_str(), rights)
}

// Returns the lines on what the layer with this number says of the rights needed.
fn layer_lines(
    alloc: Global,
    call: &Call,
    asks: &Asks,
    number: usize,
    told: &LayerReason,
) -> Result<String, AllocError>
    ensures { IfOk result (λ text. string_bytes text ≡ layer_lines call.now asks.now (number, told.now)) }
{
    let number = number.to_string(alloc)?;
    let layer = concat(alloc, &["layer ", number.as_str()])?;
    let layer = layer.as_str();
    let each = each_lines(alloc, call, asks, layer, told)?;
    let there = gain_line(alloc, call, asks, layer, On::Entered, told.there)?;
    let back = gain_line(alloc, call, asks, layer, On::Left, told.back)?;
    concat(alloc, &[each.as_str(), there.as_str(), back.as_str()])
}

// Returns the line on what must be added to a rule on one `On`.
fn added_line(
    alloc: Global,
    call: &Call,
    asks: &Asks,
    layer: &str,
    on: On,
    rights: Access,
) -> Result<String, AllocError>
    ensures { IfOk result (λ text. string_bytes text ≡ added_line call.now asks.now layer.now on rights.0) }
{
    let node = node_text(alloc, call, asks, on)?;
    let words = concat(alloc, &[layer, " and a rule on ", node.as_str()])?;
    rights_line(alloc, words.as_str(), rights)
}

// Returns the lines on what must be added to the layer with this number.
fn change_lines(
    alloc: Global,
    call: &Call,
    asks: &Asks,
    number: usize,
    change: &LayerChange,
) -> Result<String, AllocError>
    ensures { IfOk result (λ text. string_bytes text ≡ change_lines call.now asks.now (number, change.now)) }
{
    let number = number.to_string(alloc)?;
    let layer = concat(
        alloc,
        &["no layer would deny it with layer ", number.as_str()],
    )?;
    let handling = concat(alloc, &[layer.as_str(), " handling"])?;
    let handled = rights_line(alloc, handling.as_str(), change.handled)?;
    let layer = layer.as_str();
    let itself = added_line(alloc, call, asks, layer, On::Itself, change.itself.rights)?;
    let other = added_line(alloc, call, asks, layer, On::Other, change.other.rights)?;
    let left = added_line(alloc, call, asks, layer, On::Left, change.parent.rights)?;
    let entered = added_line(alloc, call, asks, layer, On::Entered, change.entered.rights)?;
    let parts = [
        handled.as_str(),
        itself.as_str(),
        other.as_str(),
        left.as_str(),
        entered.as_str(),
    ];
    concat(alloc, &parts)
}

// Returns the lines on what each layer says of the rights needed, the oldest first.
fn all_layer_lines(
    alloc: Global,
    call: &Call,
    asks: &Asks,
    layers: &[LayerReason],
) -> Result<String, AllocError>
    ensures { IfOk result (λ text. string_bytes text
        ≡ flat_map (layer_lines call.now asks.now) (enumerate_from 1 layers.now)) }
{
    let mut text = String::new(alloc);
    for index in 0..layers.len() {
        let lines = layer_lines(alloc, call, asks, index + 1, &layers[index])?;
        text.push_str(lines.as_str())?;
    }
    Ok(text)
}

// Returns the lines on what must be added to each layer, the oldest first, or on that no addition allows the call.
fn all_change_lines(
    alloc: Global,
    call: &Call,
    asks: &Asks,
    changes: &Option<Vec<LayerChange>>,
) -> Result<String, AllocError>
    ensures { IfOk result (λ text. string_bytes text ≡ all_change_lines call.now asks.now changes.now) }
{
    match changes {
        Some(changes) => each_change_lines(alloc, call, asks, changes.as_slice()),
        None => String::from_str(alloc, "  no rule of this level lets it pass\n"),
    }
}

// Returns the lines on what must be added to each of the layers, the oldest first.
fn each_change_lines(
    alloc: Global,
    call: &Call,
    asks: &Asks,
    changes: &[LayerChange],
) -> Result<String, AllocError>
    ensures { IfOk result (λ text. string_bytes text
        ≡ flat_map (change_lines call.now asks.now) (enumerate_from 1 changes.now)) }
{
    let mut text = String::new(alloc);
    for index in 0..changes.len() {
        let lines = change_lines(alloc, call, asks, index + 1, &changes[index])?;
        text.push_str(lines.as_str())?;
    }
    Ok(text)
}

// Returns the lines on the rights needed, on each `On`.
fn asked_lines(alloc: Global, call: &Call, asks: &Asks) -> Result<String, AllocError>
    ensures { IfOk result (λ text. string_bytes text ≡ flat_map (asked_line call.now asks.now) each_on) }
{
    let itself = asked_line(alloc, call, asks, On::Itself)?;
    let parent = asked_line(alloc, call, asks, On::Parent)?;
    let left = asked_line(alloc, call, asks, On::Left)?;
    let entered = asked_line(alloc, call, asks, On::Entered)?;
    let other = asked_line(alloc, call, asks, On::Other)?;
    let parts = [
        itself.as_str(),
        parent.as_str(),
        left.as_str(),
        entered.as_str(),
        other.as_str(),
    ];
    concat(alloc, &parts)
}

fn undenied_line(denial: Option<Denial>) -> &'static str
    ensures { result.now ≡ undenied_line denial }
{
    match denial {
        None => "  no layer denies it\n",
        Some(_) => "",
    }
}

/// Returns the lines on the rights needed, what each layer says of them, and what would allow the call.
pub(crate) fn reason_lines(
    alloc: Global,
    call: &Call,
    reason: &Reason,
    changes: &Option<Vec<LayerChange>>,
) -> Result<String, AllocError>
    ensures { IfOk result (λ text. string_bytes text ≡ reason_lines call.now reason.now changes.now) }
{
    let asked = asked_lines(alloc, call, &reason.asks)?;
    let layers = all_layer_lines(alloc, call, &reason.asks, reason.layers.as_slice())?;
    let added = all_change_lines(alloc, call, &reason.asks, changes)?;
    let denied = undenied_line(reason.denial);
    concat(
        alloc,
        &[denied, asked.as_str(), layers.as_str(), added.as_str()],
    )
}
