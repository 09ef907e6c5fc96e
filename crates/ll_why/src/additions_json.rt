//! Writes as JSON what must be added to layers, so that they allow a call.

ghost use Rattle.std.specs.Prelude.{◌≡◌, ◌++◌, [], ◌∷◌, codes, map, IfOk, OnOk, string_bytes};
ghost use Rattle.std.specs.List.{concat, flat_map};
ghost use Rattle.ll_why.specs.Changes.{rule_on};
ghost use Rattle.ll_why.specs.Quoted.{listed};
ghost use Rattle.ll_why.specs.RightsJson.{rule_json};
ghost use Rattle.ll_why.specs.Told.{node_text};
ghost use Rattle.ll_why.specs.WhyJson.{added_json, change_json, changes_json, each_added};

use crate::paths::node_text;
use crate::quoted::{json_names, listed};
use crate::rights_json::rule_json;
use crate::text::concat;
use crate::{Asks, LayerChange, Ruled};
use ll_decide::On;
use ll_rights::Access;
use ll_seq::Call;
use std::alloc::{AllocError, Global};

/// Where a change may add rights, in the order of the objects.
const ADDED: [On; 4] = [On::Itself, On::Other, On::Left, On::Entered];

// The rule on the node of this `On`, with these rights.
fn added_rule(
    alloc: Global,
    call: &Call,
    asks: &Asks,
    on: On,
    rights: Access,
) -> Result<String, AllocError>
    ensures { IfOk result (λ text. string_bytes text ≡ rule_json (node_text call.now asks.now on) rights.0) }
{
    let node = node_text(alloc, call, asks, on)?;
    rule_json(alloc, node.as_str(), rights)
}

// Appends the rights that must be added to a rule, if any.
fn push_added(
    alloc: Global,
    objects: &mut Vec<String>,
    call: &Call,
    asks: &Asks,
    on: On,
    rights: Access,
) -> Result<(), AllocError>
    ensures { OnOk result (map string_bytes objects.new.items
        ≡ map string_bytes objects.old.items ++ added_json call.now asks.now on rights.0) }
{
    if rights.0 == 0 {
        return Ok(());
    }
    let object = added_rule(alloc, call, asks, on, rights)?;
    objects.push(object)?;
    Ok(())
}

// Returns what is added to the rule on the node or directory that this `On` means.
fn rule_on(change: &LayerChange, on: On) -> Ruled
    ensures { result ≡ rule_on change.now on }
{
    match on {
        On::Itself => change.itself,
        On::Other => change.other,
        On::Parent | On::Left => change.parent,
        On::Entered => change.entered,
    }
}

fn added_objects(
    alloc: Global,
    call: &Call,
    asks: &Asks,
    change: &LayerChange,
    each: &[On],
) -> Result<Vec<String>, AllocError>
    ensures { IfOk result (λ objects. map string_bytes objects.items
        ≡ flat_map (λ on. added_json call.now asks.now on (rule_on change.now on).rights.0) each.now) }
{
    let mut objects = Vec::new(alloc);
    for on in each {
        let rule = rule_on(change, *on);
        push_added(alloc, &mut objects, call, asks, *on, rule.rights)?;
    }
    Ok(objects)
}

// What must be added to a layer's rules.
fn all_added(
    alloc: Global,
    call: &Call,
    asks: &Asks,
    change: &LayerChange,
) -> Result<String, AllocError>
    ensures { IfOk result (λ text. string_bytes text ≡ listed (flat_map
        (λ on. added_json call.now asks.now on (rule_on change.now on).rights.0) each_added)) }
{
    let objects = added_objects(alloc, call, asks, change, &ADDED)?;
    listed(alloc, objects.as_slice())
}

fn change_json(
    alloc: Global,
    call: &Call,
    asks: &Asks,
    change: &LayerChange,
) -> Result<String, AllocError>
    ensures { IfOk result (λ text. string_bytes text ≡ change_json call.now asks.now change.now) }
{
    let handled = json_names(alloc, change.handled)?;
    let added = all_added(alloc, call, asks, change)?;
    concat(
        alloc,
        &[
            "{\"handled\": [",
            handled.as_str(),
            "], \"rules\": [",
            added.as_str(),
            "]}",
        ],
    )
}

fn change_objects(
    alloc: Global,
    call: &Call,
    asks: &Asks,
    changes: &[LayerChange],
) -> Result<Vec<String>, AllocError>
    ensures { IfOk result (λ objects. map string_bytes objects.items
        ≡ map (change_json call.now asks.now) changes.now) }
{
    let mut objects = Vec::new(alloc);
    for change in changes {
        objects.push(change_json(alloc, call, asks, change)?)?;
    }
    Ok(objects)
}

// What must be added to each of the layers, the oldest first.
fn all_changes(
    alloc: Global,
    call: &Call,
    asks: &Asks,
    changes: &[LayerChange],
) -> Result<String, AllocError>
    ensures { IfOk result (λ text. string_bytes text
        ≡ concat (codes "[" ∷ listed (map (change_json call.now asks.now) changes.now) ∷ codes "]" ∷ [])) }
{
    let objects = change_objects(alloc, call, asks, changes)?;
    let text = listed(alloc, objects.as_slice())?;
    concat(alloc, &["[", text.as_str(), "]"])
}

/// Returns what must be added to each layer, the oldest first, or null if no addition allows the call. Errors: memory
/// ran out.
pub(crate) fn changes_json(
    alloc: Global,
    call: &Call,
    asks: &Asks,
    changes: &Option<Vec<LayerChange>>,
) -> Result<String, AllocError>
    ensures { IfOk result (λ text. string_bytes text ≡ changes_json call.now asks.now changes.now) }
{
    match changes {
        Some(changes) => all_changes(alloc, call, asks, changes.as_slice()),
        None => String::from_str(alloc, "null"),
    }
}
