//! The line on what a policy grants more and less at a path than an older one.

ghost use Rattle.std.specs.Prelude.{◌≡◌, ◌++◌, IfOk, OnOk, string_bytes};
ghost use Rattle.ll_why.specs.Difference.{change_of, difference_by, difference_in, difference_json};
ghost use Rattle.ll_why.specs.Difference.{difference_line, difference_tokens, differs, is_changed, is_turned};
ghost use Rattle.ll_why.specs.Difference.{kept_tokens, new_change, node_change, rights_change, same_by_layers};
ghost use Rattle.ll_why.specs.Difference.{same_kind, same_kinds, same_rights, turned_tokens};
ghost use Rattle.ll_why.specs.Table.{behind};

use crate::layer_difference::{are_same_layers, push_layer_differences};
use crate::quoted::json_string;
use crate::rights_json::there_json;
use crate::signed::push_change;
use crate::table::{push_token, push_told};
use crate::text::concat;
use crate::{PathRights, RightsAt};
use ll_path::Path;
use ll_rights::Kind;
use std::alloc::{AllocError, Global};

/// How a difference is written.
#[derive(Clone, Copy, Debug, PartialEq, Eq)]
pub enum DifferenceStyle {
    /// A line of text.
    Line,
    /// An object of JSON on a line.
    Json,
}

fn is_same_kind(old: Kind, new: Kind) -> bool
    ensures { result ≡ same_kind old new }
{
    old == new
}

fn are_same_kinds(old: Option<Kind>, new: Option<Kind>) -> bool
    ensures { result ≡ same_kinds old new }
{
    match (old, new) {
        (None, None) => true,
        (Some(old), Some(new)) => is_same_kind(old, new),
        (None, Some(_)) | (Some(_), None) => false,
    }
}

// Reports whether there is something else than before: a node of another kind, a node or none, or another thing in
// place of a directory.
fn is_turned(old: &RightsAt, new: &RightsAt) -> bool
    ensures { result ≡ is_turned old.now new.now }
{
    match (old, new) {
        (RightsAt::Node(old), RightsAt::Node(new)) => !is_same_kind(old.kind, new.kind),
        (RightsAt::New(_, _), RightsAt::New(_, _)) => false,
        (RightsAt::Nowhere(old), RightsAt::Nowhere(new)) => !are_same_kinds(*old, *new),
        _ => true,
    }
}

// Reports whether the layers grant the same rights, one by one.
fn are_same_by_layers(old: &PathRights, new: &PathRights) -> bool
    ensures { result ≡ same_by_layers old.now new.now }
{
    are_same_layers(old.layers.as_slice(), new.layers.as_slice())
}

// Reports whether some layer grants other rights on the node, or on a new file or directory.
fn is_changed(old: &RightsAt, new: &RightsAt) -> bool
    ensures { result ≡ is_changed old.now new.now }
{
    match (old, new) {
        (RightsAt::Node(old), RightsAt::Node(new)) => !are_same_by_layers(old, new),
        (RightsAt::New(old_file, old_directory), RightsAt::New(file, directory)) => {
            !(are_same_by_layers(old_file, file) && are_same_by_layers(old_directory, directory))
        }
        _ => false,
    }
}

/// Reports whether what is granted differs.
pub(crate) fn differs(old: &RightsAt, new: &RightsAt) -> bool
    ensures { result ≡ differs old.now new.now }
{
    is_turned(old, new) || is_changed(old, new)
}

// Reports whether all layers together grant the same rights.
fn have_same_rights(old: &PathRights, new: &PathRights) -> bool
    ensures { result ≡ same_rights old.now new.now }
{
    old.rights.0 == new.rights.0
}

// Appends what all layers together grant more and less; if they grant the same, what single layers do.
fn push_rights_change(
    alloc: Global,
    text: &mut String,
    old: &PathRights,
    new: &PathRights,
) -> Result<(), AllocError>
    ensures { OnOk result (string_bytes text.new
        ≡ string_bytes text.old ++ behind (rights_change old.now new.now)) }
{
    if have_same_rights(old, new) {
        push_layer_differences(alloc, text, old.layers.as_slice(), new.layers.as_slice())
    } else {
        push_change(alloc, text, old.rights, new.rights)
    }
}

// Appends a word, and what is granted more and less.
fn push_change_of(
    alloc: Global,
    text: &mut String,
    word: &str,
    old: &PathRights,
    new: &PathRights,
) -> Result<(), AllocError>
    ensures { OnOk result (string_bytes text.new
        ≡ string_bytes text.old ++ behind (change_of word.now old.now new.now)) }
{
    push_token(text, word)?;
    push_rights_change(alloc, text, old, new)
}

// Appends the node's kind, and what is granted on it more and less.
fn push_node_change(
    alloc: Global,
    text: &mut String,
    old: &PathRights,
    new: &PathRights,
) -> Result<(), AllocError>
    ensures { OnOk result (string_bytes text.new
        ≡ string_bytes text.old ++ behind (node_change old.now new.now)) }
{
    push_change_of(alloc, text, new.kind.text(), old, new)
}

// Appends what is granted more and less on a new file and on a new directory.
fn push_new_change(
    alloc: Global,
    text: &mut String,
    old_file: &PathRights,
    old_directory: &PathRights,
    file: &PathRights,
    directory: &PathRights,
) -> Result<(), AllocError>
    ensures { OnOk result (string_bytes text.new ≡ string_bytes text.old
        ++ behind (new_change old_file.now old_directory.now file.now directory.now)) }
{
    push_token(text, "missing")?;
    push_change_of(alloc, text, "new-file", old_file, file)?;
    push_change_of(alloc, text, "new-dir", old_directory, directory)
}

// Appends what is granted more and less where nothing else is there than before.
fn push_kept(
    alloc: Global,
    text: &mut String,
    old: &RightsAt,
    new: &RightsAt,
) -> Result<(), AllocError>
    ensures { OnOk result (string_bytes text.new
        ≡ string_bytes text.old ++ behind (kept_tokens old.now new.now)) }
{
    match (old, new) {
        (RightsAt::Node(old), RightsAt::Node(new)) => push_node_change(alloc, text, old, new),
        (RightsAt::New(old_file, old_directory), RightsAt::New(file, directory)) => {
            push_new_change(alloc, text, old_file, old_directory, file, directory)
        }
        _ => Ok(()),
    }
}

// Appends both rows.
fn push_turned(
    alloc: Global,
    text: &mut String,
    path: &Path,
    old: &RightsAt,
    new: &RightsAt,
) -> Result<(), AllocError>
    ensures { OnOk result (string_bytes text.new
        ≡ string_bytes text.old ++ behind (turned_tokens path.now old.now new.now)) }
{
    push_token(text, "was")?;
    push_told(alloc, text, path, old, false)?;
    push_token(text, "is")?;
    push_told(alloc, text, path, new, false)
}

// Appends the difference.
fn push_difference(
    alloc: Global,
    text: &mut String,
    path: &Path,
    old: &RightsAt,
    new: &RightsAt,
) -> Result<(), AllocError>
    ensures { OnOk result (string_bytes text.new
        ≡ string_bytes text.old ++ behind (difference_tokens path.now old.now new.now)) }
{
    if is_turned(old, new) {
        push_turned(alloc, text, path, old, new)
    } else {
        push_kept(alloc, text, old, new)
    }
}

// Returns the path's line of text.
fn difference_line(
    alloc: Global,
    path: &Path,
    old: &RightsAt,
    new: &RightsAt,
) -> Result<String, AllocError>
    ensures { IfOk result (λ text. string_bytes text ≡ difference_line path.now old.now new.now) }
{
    let mut text = String::from_str(alloc, path.as_str())?;
    push_difference(alloc, &mut text, path, old, new)?;
    text.push_str("\n")?;
    Ok(text)
}

// Returns the path's line of JSON: what was granted, and what is.
fn difference_json(
    alloc: Global,
    path: &Path,
    old: &RightsAt,
    new: &RightsAt,
) -> Result<String, AllocError>
    ensures { IfOk result (λ text. string_bytes text ≡ difference_json path.now old.now new.now) }
{
    let name = json_string(alloc, path.as_str())?;
    let was = there_json(alloc, path, old)?;
    let is = there_json(alloc, path, new)?;
    concat(
        alloc,
        &[
            "{\"path\": ",
            name.as_str(),
            ", \"old\": {",
            was.as_str(),
            "}, \"new\": {",
            is.as_str(),
            "}}\n",
        ],
    )
}

// Returns the path's line in this style.
fn difference_by(
    alloc: Global,
    style: DifferenceStyle,
    path: &Path,
    old: &RightsAt,
    new: &RightsAt,
) -> Result<String, AllocError>
    ensures { IfOk result (λ text. string_bytes text ≡ difference_by style path.now old.now new.now) }
{
    match style {
        DifferenceStyle::Line => difference_line(alloc, path, old, new),
        DifferenceStyle::Json => difference_json(alloc, path, old, new),
    }
}

/// Returns the path's line in this style, or the empty text if nothing differs. Errors: memory ran out.
pub fn difference_in(
    alloc: Global,
    style: DifferenceStyle,
    path: &Path,
    old: &RightsAt,
    new: &RightsAt,
) -> Result<String, AllocError>
    ensures { IfOk result (λ text. string_bytes text ≡ difference_in style path.now old.now new.now) }
{
    if differs(old, new) {
        difference_by(alloc, style, path, old, new)
    } else {
        Ok(String::new(alloc))
    }
}
