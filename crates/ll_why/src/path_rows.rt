//! The rows of a table of rights, one for each path.

ghost use Rattle.std.specs.Prelude.{◌≡◌, ◌∷◌, [], IfOk, OnOk, option_map, option_to_list, string_bytes};
ghost use Rattle.ll_why.specs.PathRows.{AddsRows, AreRows, made_path, made_paths, paths_or_nodes, row_in};

use crate::rights_json::{path_json, profile_json};
use crate::table::row_text;
use crate::{RightsAt, rights_at};
use ll_path::Path;
use ll_plain::Plain;
use ll_rules::Domain;
use ll_seq::{Call, target_path};
use std::alloc::{AllocError, Global};

/// How the rights at a path are written.
#[derive(Clone, Copy, Debug, PartialEq, Eq)]
pub enum RowStyle<'a> {
    /// A line of text, with a column for each layer or without.
    Line(bool),
    /// An object of JSON on a line.
    Json,
    /// The same, which begins with this profile's name.
    ProfileJson(&'a str),
}

// Returns the line of one path.
fn row_in(
    alloc: Global,
    path: &Path,
    told: &RightsAt,
    style: RowStyle,
) -> Result<String, AllocError>
    ensures { IfOk result (λ text. string_bytes text ≡ row_in style.entry path.now told.now) }
{
    match style {
        RowStyle::Line(layers) => row_text(alloc, path, told, layers),
        RowStyle::Json => path_json(alloc, path, told),
        RowStyle::ProfileJson(profile) => profile_json(alloc, profile, path, told),
    }
}

/// Returns the path of the node that the call creates, if any.
pub(crate) fn made_path(call: &Call) -> Option<&Path>
    ensures { option_map (λ p. p.now) result ≡ made_path call.now }
{
    match call {
        Call::Make(_, target) => target_path(target),
        _ => None,
    }
}

// Appends the line of one path.
fn push_row(
    alloc: Global,
    tree: &Plain,
    domain: &Domain,
    style: RowStyle,
    path: &Path,
    text: &mut String,
) -> Result<(), AllocError>
    ensures { OnOk result
        (AddsRows tree.now domain.now style.entry (path.now ∷ []) (string_bytes text.old) (string_bytes text.new)) }
{
    let told = rights_at(alloc, tree, domain, path)?;
    let row = row_in(alloc, path, &told, style)?;
    text.push_str(row.as_str())?;
    Ok(())
}

// Appends the line of the node that the call creates, if any.
fn push_node(
    alloc: Global,
    tree: &Plain,
    domain: &Domain,
    style: RowStyle,
    call: &Call,
    text: &mut String,
) -> Result<(), AllocError>
    ensures { OnOk result (AddsRows tree.now domain.now style.entry (option_to_list (made_path call.now))
        (string_bytes text.old) (string_bytes text.new)) }
{
    match made_path(call) {
        Some(path) => push_row(alloc, tree, domain, style, path, text),
        None => Ok(()),
    }
}

// Returns the lines of these paths.
fn rows_of_paths(
    alloc: Global,
    tree: &Plain,
    domain: &Domain,
    style: RowStyle,
    paths: &[Path],
) -> Result<String, AllocError>
    ensures { IfOk result (λ text. AreRows tree.now domain.now style.entry paths.now (string_bytes text)) }
{
    let mut text = String::new(alloc);
    for path in paths {
        push_row(alloc, tree, domain, style, path, &mut text)?;
    }
    Ok(text)
}

// Returns the lines of the nodes that these calls create.
fn rows_of_nodes(
    alloc: Global,
    tree: &Plain,
    domain: &Domain,
    style: RowStyle,
    calls: &[Call],
) -> Result<String, AllocError>
    ensures { IfOk result (λ text. AreRows tree.now domain.now style.entry (made_paths calls.now) (string_bytes text)) }
{
    let mut text = String::new(alloc);
    for call in calls {
        push_node(alloc, tree, domain, style, call, &mut text)?;
    }
    Ok(text)
}

/// Returns a line for each of the paths, or without paths for each node that the calls create. Errors: memory ran out.
pub fn rows_text(
    alloc: Global,
    tree: &Plain,
    domain: &Domain,
    style: RowStyle,
    paths: &[Path],
    calls: &[Call],
) -> Result<String, AllocError>
    ensures { IfOk result (λ text. AreRows tree.now domain.now style.entry (paths_or_nodes paths.now calls.now)
        (string_bytes text)) }
{
    if paths.is_empty() {
        rows_of_nodes(alloc, tree, domain, style, calls)
    } else {
        rows_of_paths(alloc, tree, domain, style, paths)
    }
}
