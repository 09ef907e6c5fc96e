//! Writes as JSON what each layer does with the rights that a call asks.

ghost use Rattle.std.specs.Prelude.{◌≡◌, ◌++◌, map, IfOk, OnOk, string_bytes};
ghost use Rattle.std.specs.List.{flat_map};
ghost use Rattle.ll_why.specs.Quoted.{listed};
ghost use Rattle.ll_why.specs.RightsJson.{grants_fields};
ghost use Rattle.ll_why.specs.Told.{each_on, path_on};
ghost use Rattle.ll_why.specs.WhyJson.{asked_json, gained_json, grant_json, granted_json, layer_json, seat_fields};
ghost use Rattle.ll_why.specs.WhyJson.{seat_json, seated_json};

use crate::layers::grants_in;
use crate::paths::{node_text, path_on, place_on, set_on};
use crate::quoted::{json_names, json_string, listed};
use crate::rights_json::grants_fields;
use crate::text::concat;
use crate::{Asks, Grants, LayerReason};
use ll_decide::On;
use ll_rights::Access;
use ll_seq::Call;
use std::alloc::{AllocError, Global};

/// Where rights may be asked, in the order of the objects.
const ASKED: [On; 5] = [On::Itself, On::Parent, On::Left, On::Entered, On::Other];

// The node that rights are asked on, and the place that a denial names for it, without braces.
fn seat_fields(alloc: Global, call: &Call, asks: &Asks, on: On) -> Result<String, AllocError>
    ensures { IfOk result (λ text. string_bytes text ≡ seat_fields call.now asks.now on) }
{
    let node = node_text(alloc, call, asks, on)?;
    let node = json_string(alloc, node.as_str())?;
    concat(
        alloc,
        &[
            "\"path\": ",
            node.as_str(),
            ", \"place\": \"",
            place_on(on).text(),
            "\"",
        ],
    )
}

fn seat_json(
    alloc: Global,
    call: &Call,
    asks: &Asks,
    on: On,
    rights: Access,
) -> Result<String, AllocError>
    ensures { IfOk result (λ text. string_bytes text ≡ seat_json call.now asks.now on rights.0) }
{
    let seat = seat_fields(alloc, call, asks, on)?;
    let names = json_names(alloc, rights)?;
    concat(
        alloc,
        &["{", seat.as_str(), ", \"rights\": [", names.as_str(), "]}"],
    )
}

// Appends these rights there, if there are any.
fn push_seat(
    alloc: Global,
    objects: &mut Vec<String>,
    call: &Call,
    asks: &Asks,
    on: On,
    rights: Access,
) -> Result<(), AllocError>
    ensures { OnOk result (map string_bytes objects.new.items
        ≡ map string_bytes objects.old.items ++ seated_json call.now asks.now on rights.0) }
{
    if rights.0 == 0 {
        return Ok(());
    }
    let object = seat_json(alloc, call, asks, on, rights)?;
    objects.push(object)?;
    Ok(())
}

// Appends the rights that are asked there, if any.
fn push_asked(
    alloc: Global,
    objects: &mut Vec<String>,
    call: &Call,
    asks: &Asks,
    on: On,
) -> Result<(), AllocError>
    ensures { OnOk result (map string_bytes objects.new.items
        ≡ map string_bytes objects.old.items ++ asked_json call.now asks.now on) }
{
    push_seat(alloc, objects, call, asks, on, set_on(&asks.demands, on))
}

fn asked_objects(
    alloc: Global,
    call: &Call,
    asks: &Asks,
    each: &[On],
) -> Result<Vec<String>, AllocError>
    ensures { IfOk result (λ objects. map string_bytes objects.items
        ≡ flat_map (asked_json call.now asks.now) each.now) }
{
    let mut objects = Vec::new(alloc);
    for on in each {
        push_asked(alloc, &mut objects, call, asks, *on)?;
    }
    Ok(objects)
}

/// Returns the rights that are asked. Errors: memory ran out.
pub(crate) fn all_asked(alloc: Global, call: &Call, asks: &Asks) -> Result<String, AllocError>
    ensures { IfOk result (λ text. string_bytes text
        ≡ listed (flat_map (asked_json call.now asks.now) each_on)) }
{
    let objects = asked_objects(alloc, call, asks, &ASKED)?;
    listed(alloc, objects.as_slice())
}

// What a layer does on the path of this `On`, without braces.
fn fields_on(alloc: Global, call: &Call, on: On, grants: &Grants) -> Result<String, AllocError>
    ensures { IfOk result (λ text. string_bytes text ≡ grants_fields (path_on call.now on) grants.now) }
{
    grants_fields(alloc, path_on(call, on), grants)
}

fn grant_json(
    alloc: Global,
    call: &Call,
    asks: &Asks,
    told: &LayerReason,
    on: On,
) -> Result<String, AllocError>
    ensures { IfOk result (λ text. string_bytes text ≡ grant_json call.now asks.now told.now on) }
{
    let seat = seat_fields(alloc, call, asks, on)?;
    let grants = fields_on(alloc, call, on, grants_in(told, on))?;
    concat(alloc, &["{", seat.as_str(), ", ", grants.as_str(), "}"])
}

// Appends what a layer does there, if rights are asked.
fn push_grant(
    alloc: Global,
    objects: &mut Vec<String>,
    call: &Call,
    asks: &Asks,
    told: &LayerReason,
    on: On,
) -> Result<(), AllocError>
    ensures { OnOk result (map string_bytes objects.new.items
        ≡ map string_bytes objects.old.items ++ granted_json call.now asks.now told.now on) }
{
    if set_on(&asks.demands, on).0 == 0 {
        return Ok(());
    }
    let object = grant_json(alloc, call, asks, told, on)?;
    objects.push(object)?;
    Ok(())
}

fn granted_objects(
    alloc: Global,
    call: &Call,
    asks: &Asks,
    told: &LayerReason,
    each: &[On],
) -> Result<Vec<String>, AllocError>
    ensures { IfOk result (λ objects. map string_bytes objects.items
        ≡ flat_map (granted_json call.now asks.now told.now) each.now) }
{
    let mut objects = Vec::new(alloc);
    for on in each {
        push_grant(alloc, &mut objects, call, asks, told, *on)?;
    }
    Ok(objects)
}

// What a layer does wherever rights are asked.
fn all_granted(
    alloc: Global,
    call: &Call,
    asks: &Asks,
    told: &LayerReason,
) -> Result<String, AllocError>
    ensures { IfOk result (λ text. string_bytes text
        ≡ listed (flat_map (granted_json call.now asks.now told.now) each_on)) }
{
    let objects = granted_objects(alloc, call, asks, told, &ASKED)?;
    listed(alloc, objects.as_slice())
}

fn gained_objects(
    alloc: Global,
    call: &Call,
    asks: &Asks,
    told: &LayerReason,
) -> Result<Vec<String>, AllocError>
    ensures { IfOk result (λ objects. map string_bytes objects.items
        ≡ gained_json call.now asks.now told.now) }
{
    let mut objects = Vec::new(alloc);
    push_seat(alloc, &mut objects, call, asks, On::Entered, told.there)?;
    push_seat(alloc, &mut objects, call, asks, On::Left, told.back)?;
    Ok(objects)
}

// The rights that a node moved into a directory would gain there.
fn all_gained(
    alloc: Global,
    call: &Call,
    asks: &Asks,
    told: &LayerReason,
) -> Result<String, AllocError>
    ensures { IfOk result (λ text. string_bytes text ≡ listed (gained_json call.now asks.now told.now)) }
{
    let objects = gained_objects(alloc, call, asks, told)?;
    listed(alloc, objects.as_slice())
}

fn layer_json(
    alloc: Global,
    call: &Call,
    asks: &Asks,
    told: &LayerReason,
) -> Result<String, AllocError>
    ensures { IfOk result (λ text. string_bytes text ≡ layer_json call.now asks.now told.now) }
{
    let granted = all_granted(alloc, call, asks, told)?;
    let gained = all_gained(alloc, call, asks, told)?;
    concat(
        alloc,
        &[
            "{\"on\": [",
            granted.as_str(),
            "], \"gained\": [",
            gained.as_str(),
            "]}",
        ],
    )
}

fn layer_objects(
    alloc: Global,
    call: &Call,
    asks: &Asks,
    layers: &[LayerReason],
) -> Result<Vec<String>, AllocError>
    ensures { IfOk result (λ objects. map string_bytes objects.items
        ≡ map (layer_json call.now asks.now) layers.now) }
{
    let mut objects = Vec::new(alloc);
    for told in layers {
        objects.push(layer_json(alloc, call, asks, told)?)?;
    }
    Ok(objects)
}

/// Returns what each layer does, the oldest first. Errors: memory ran out.
pub(crate) fn all_layers(
    alloc: Global,
    call: &Call,
    asks: &Asks,
    layers: &[LayerReason],
) -> Result<String, AllocError>
    ensures { IfOk result (λ text. string_bytes text
        ≡ listed (map (layer_json call.now asks.now) layers.now)) }
{
    let objects = layer_objects(alloc, call, asks, layers)?;
    listed(alloc, objects.as_slice())
}
