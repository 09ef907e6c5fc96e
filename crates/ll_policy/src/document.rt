//! Policies' documents, and all that is wrong in them.

ghost use Rattle.std.specs.Prelude.{◌≡◌, ◌≢◌, ◌⊎◌, ◌++◌, None, Some, flat_map, map, option_to_list};
ghost use Rattle.std.specs.Prelude.{IfErr, IfOk, OnOk, not};
ghost use Rattle.std.specs.List.{enumerate_from};
ghost use Rattle.toml.specs.Parse.{parse_document};
ghost use Rattle.toml.specs.View.{items_view, table_view};
ghost use Rattle.ll_policy.specs.Faults.{fault_if, level_faults, other_keys, policy_faults, top_faults, top_keys};
ghost use Rattle.ll_policy.specs.Places.{at, in_layer, in_node, in_profile, in_rule, placed, placed_faults, site_of};
ghost use Rattle.ll_policy.specs.Table.{named_tables, tables_of};
ghost use Rattle.ll_policy.specs.Value.{is_name};
ghost use Rattle.ll_policy.specs.Places as places;
ghost use Rattle.ll_policy.specs.declared.fault.PolicyFault.TheVariants.{BadName, NoMemory, NotToml};

use crate::fault::PolicyFault;
use crate::place::{Place, PlacedFault};
use crate::table::{array_at, named_at, named_tables, only, tables};
use crate::values::{check_data, is_name, is_two, kind, level, path, rights, version};
use std::alloc::{AllocError, Global};
use toml::{Table, Value};

/// A table, and where it is.
#[derive(Clone, Copy)]
struct Spot<'a> {
    place: Place<'a>,
    table: &'a Table,
}

// Returns the first key of the table that isn't one of these.
fn other_key<'a>(table: &'a Table, known: &[&str]) -> Option<&'a str> {
    for (key, _) in table.iter() {
        if !known.iter().any(|name| key.as_str() == *name) {
            return Some(key.as_str());
        }
    }
    None
}

// Adds what a check of this key has found, if anything. Errors: memory ran out, here or in the check.
fn note<'a>(
    found: &mut Vec<PlacedFault<'a>>,
    spot: Spot<'a>,
    key: Option<&'a str>,
    fault: Option<PolicyFault>,
) -> Result<(), AllocError>
    ensures memory { OnOk result (fault ≢ Some NoMemory) }
    ensures noted { OnOk result (map placed found.new.items
        ≡ map placed found.old.items ++ at (site_of spot.entry.place) (option_to_list fault)) }
{
    match fault {
        None => Ok(()),
        Some(PolicyFault::NoMemory) => Err(AllocError),
        Some(fault) => {
            let Spot { place, table } = spot;
            found.push(PlacedFault {
                place,
                fault,
                table,
                key,
            })?;
            Ok(())
        }
    }
}

// Adds that the table has another key than these, if so.
fn note_others<'a>(
    found: &mut Vec<PlacedFault<'a>>,
    spot: Spot<'a>,
    known: &[&str],
) -> Result<(), AllocError>
    ensures { OnOk result (map placed found.new.items ≡ map placed found.old.items ++ at (site_of spot.entry.place)
        (other_keys (map (λ key. key.now) known.now) (table_view spot.entry.table.now))) }
{
    let other = other_key(spot.table, known);
    note(found, spot, other, only(spot.table, known).err())
}

// Adds the faults of the node with this number.
fn note_node<'a>(
    alloc: Global,
    found: &mut Vec<PlacedFault<'a>>,
    number: usize,
    table: &'a Table,
) -> Result<(), AllocError>
    ensures { OnOk result (map placed found.new.items
        ≡ map placed found.old.items ++ in_node (number, table_view table.now)) }
{
    let spot = Spot {
        place: Place::Node(number),
        table,
    };
    note_others(found, spot, &["path", "kind", "data"])?;
    note(found, spot, Some("path"), path(alloc, table).err())?;
    note(found, spot, Some("kind"), kind(table).err())?;
    note(found, spot, Some("data"), check_data(table).err())
}

fn note_nodes<'a>(
    alloc: Global,
    found: &mut Vec<PlacedFault<'a>>,
    values: &'a [Value],
) -> Result<(), AllocError>
    ensures { OnOk result (map placed found.new.items ≡ map placed found.old.items
        ++ flat_map in_node (enumerate_from 1 (tables_of (items_view values.now)))) }
{
    let mut number = 0;
    for value in values {
        if let Some(table) = value.as_table() {
            number += 1;
            note_node(alloc, found, number, table)?;
        }
    }
    Ok(())
}

/// A layer: its number, and its profile's name.
#[derive(Clone, Copy)]
struct LayerName<'a> {
    profile: &'a str,
    number: usize,
}

// Adds the faults of the rule with this number.
fn note_rule<'a>(
    alloc: Global,
    found: &mut Vec<PlacedFault<'a>>,
    layer: LayerName<'a>,
    number: usize,
    table: &'a Table,
) -> Result<(), AllocError>
    ensures { OnOk result (map placed found.new.items ≡ map placed found.old.items
        ++ in_rule layer.entry.profile.now layer.entry.number (number, table_view table.now)) }
{
    let spot = Spot {
        place: Place::Rule(layer.profile, layer.number, number),
        table,
    };
    note_others(found, spot, &["path", "rights"])?;
    note(found, spot, Some("path"), path(alloc, table).err())?;
    note(found, spot, Some("rights"), rights(table, "rights").err())
}

fn note_rules<'a>(
    alloc: Global,
    found: &mut Vec<PlacedFault<'a>>,
    layer: LayerName<'a>,
    values: &'a [Value],
) -> Result<(), AllocError>
    ensures { OnOk result (map placed found.new.items ≡ map placed found.old.items
        ++ flat_map (in_rule layer.entry.profile.now layer.entry.number)
        (enumerate_from 1 (tables_of (items_view values.now)))) }
{
    let mut number = 0;
    for value in values {
        if let Some(table) = value.as_table() {
            number += 1;
            note_rule(alloc, found, layer, number, table)?;
        }
    }
    Ok(())
}

// Adds the faults of the profile's layer with this number, and of its rules.
fn note_layer<'a>(
    alloc: Global,
    found: &mut Vec<PlacedFault<'a>>,
    profile: &'a str,
    number: usize,
    table: &'a Table,
) -> Result<(), AllocError>
    ensures { OnOk result (map placed found.new.items
        ≡ map placed found.old.items ++ in_layer profile.now (number, table_view table.now)) }
{
    let spot = Spot {
        place: Place::Layer(profile, number),
        table,
    };
    note_others(found, spot, &["handled", "rule"])?;
    note(found, spot, Some("handled"), rights(table, "handled").err())?;
    note(found, spot, Some("rule"), tables(table, "rule").err())?;
    let layer = LayerName { profile, number };
    note_rules(alloc, found, layer, array_at(table, "rule"))
}

fn note_layers<'a>(
    alloc: Global,
    found: &mut Vec<PlacedFault<'a>>,
    profile: &'a str,
    values: &'a [Value],
) -> Result<(), AllocError>
    ensures { OnOk result (map placed found.new.items ≡ map placed found.old.items
        ++ flat_map (in_layer profile.now) (enumerate_from 1 (tables_of (items_view values.now)))) }
{
    let mut number = 0;
    for value in values {
        if let Some(table) = value.as_table() {
            number += 1;
            note_layer(alloc, found, profile, number, table)?;
        }
    }
    Ok(())
}

// Reports what is wrong with a profile's name, if anything.
fn name_fault(name: &str) -> Option<PolicyFault>
    ensures { option_to_list result ≡ fault_if (not (is_name name.now)) BadName }
{
    if is_name(name) {
        return None;
    }
    Some(PolicyFault::BadName)
}

// Adds the faults of the profile with this name, and of its layers.
fn note_profile<'a>(
    alloc: Global,
    found: &mut Vec<PlacedFault<'a>>,
    name: &'a str,
    table: &'a Table,
) -> Result<(), AllocError>
    ensures { OnOk result (map placed found.new.items
        ≡ map placed found.old.items ++ in_profile (name.now, table_view table.now)) }
{
    let spot = Spot {
        place: Place::Profile(name),
        table,
    };
    note(found, spot, None, name_fault(name))?;
    note_others(found, spot, &["layer"])?;
    note(found, spot, Some("layer"), tables(table, "layer").err())?;
    note_layers(alloc, found, name, array_at(table, "layer"))
}

fn note_profiles<'a>(
    alloc: Global,
    found: &mut Vec<PlacedFault<'a>>,
    table: &'a Table,
) -> Result<(), AllocError>
    ensures { OnOk result (map placed found.new.items ≡ map placed found.old.items
        ++ flat_map in_profile (named_tables (table_view table.now))) }
{
    for (name, value) in table.iter() {
        if let Some(table) = value.as_table() {
            note_profile(alloc, found, name.as_str(), table)?;
        }
    }
    Ok(())
}

// Adds other keys than those of the document's version.
fn note_other_tops<'a>(
    found: &mut Vec<PlacedFault<'a>>,
    spot: Spot<'a>,
    two: bool,
) -> Result<(), AllocError>
    ensures { OnOk result (map placed found.new.items ≡ map placed found.old.items
        ++ at (site_of spot.entry.place) (other_keys (top_keys two) (table_view spot.entry.table.now))) }
{
    if two {
        note_others(found, spot, &["version", "abi", "node", "profile"])
    } else {
        note_others(found, spot, &["version", "node", "profile"])
    }
}

// Returns what is wrong with the level, which a document of version 2 states.
fn level_fault(table: &Table, two: bool) -> Option<PolicyFault>
    ensures { option_to_list result ≡ level_faults two (table_view table.now) }
{
    if two { level(table).err() } else { None }
}

// Adds the faults of the top table's keys.
fn note_top<'a>(found: &mut Vec<PlacedFault<'a>>, table: &'a Table) -> Result<(), AllocError>
    ensures { OnOk result (map placed found.new.items
        ≡ map placed found.old.items ++ at places.document (top_faults (table_view table.now))) }
{
    let spot = Spot {
        place: Place::Document,
        table,
    };
    let two = is_two(table);
    note_other_tops(found, spot, two)?;
    note(found, spot, Some("version"), version(table).err())?;
    note(found, spot, Some("abi"), level_fault(table, two))?;
    note(found, spot, Some("node"), tables(table, "node").err())?;
    note(
        found,
        spot,
        Some("profile"),
        named_tables(table, "profile").err(),
    )
}

/// Reads a policy's text as TOML. Errors: it isn't TOML, or memory ran out.
pub fn read_document(alloc: Global, text: &str) -> Result<Table, PolicyFault>
    ensures table { IfOk result (λ table. parse_document text.now ≡ Some (table_view table)) }
    ensures fault { IfErr result (λ fault.
        (fault ≡ NoMemory) ⊎ ((fault ≡ NotToml) × (parse_document text.now ≡ None))) }
{
    match toml::table_from_str(alloc, text) {
        Ok(table) => Ok(table),
        Err(error) if error.is_memory() => Err(PolicyFault::NoMemory),
        Err(_) => Err(PolicyFault::NotToml),
    }
}

/// Returns all faults of a policy that was read as TOML, in their order. The first is the one that `Policy::from_text`
/// returns. Errors: memory ran out.
pub fn policy_faults<'a>(
    alloc: Global,
    table: &'a Table,
) -> Result<Vec<PlacedFault<'a>>, AllocError>
    ensures faults { IfOk result (λ found. map (λ one. one.fault) found.items ≡ policy_faults (table_view table.now)) }
    ensures places { IfOk result (λ found. map placed found.items ≡ placed_faults (table_view table.now)) }
{
    let mut found = Vec::new(alloc);
    note_top(&mut found, table)?;
    note_nodes(alloc, &mut found, array_at(table, "node"))?;
    if let Some(profiles) = named_at(table, "profile") {
        note_profiles(alloc, &mut found, profiles)?;
    }
    Ok(found)
}
