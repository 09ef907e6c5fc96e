//! The lines of the table of rights.

ghost use Rattle.std.specs.Prelude.{◌≡◌, ◌∷◌, ◌++◌, [], codes, string_bytes, IfOk, OnOk, if◌then◌else◌};
ghost use Rattle.std.specs.List.{enumerate_from, flat_map};
ghost use Rattle.ll_rights.specs.Access.{access_text};
ghost use Rattle.ll_why.specs.Table.{behind, column_tokens, granted_tokens, kind_word, new_tokens, node_tokens};
ghost use Rattle.ll_why.specs.Table.{nowhere_tokens, row_line, row_tokens, ruled_tokens, shown_tokens};

use crate::paths::names_text;
use crate::{Grants, PathRights, RightsAt, Ruled};
use ll_path::Path;
use ll_rights::{Access, Kind};
use std::alloc::{AllocError, Global};

pub(crate) fn push_token(text: &mut String, token: &str) -> Result<(), AllocError>
    ensures { OnOk result (string_bytes text.new ≡ string_bytes text.old ++ behind (token.now ∷ [])) }
{
    text.push_str(" ")?;
    text.push_str(token)
}

fn kind_word(kind: Option<Kind>) -> &'static str
    ensures { result.now ≡ kind_word kind }
{
    match kind {
        None => "missing",
        Some(kind) => kind.text(),
    }
}

// Appends a word, and the rights.
fn push_rights(
    alloc: Global,
    text: &mut String,
    word: &str,
    rights: Access,
) -> Result<(), AllocError>
    ensures { OnOk result (string_bytes text.new
        ≡ string_bytes text.old ++ behind (word.now ∷ access_text rights.0 ∷ [])) }
{
    let names = rights.text(alloc)?;
    push_token(text, word)?;
    push_token(text, names.as_str())
}

// Appends what grants the rights, and the rights, if there are any.
fn push_granted(
    alloc: Global,
    text: &mut String,
    by: &str,
    rights: Access,
) -> Result<(), AllocError>
    ensures { OnOk result (string_bytes text.new
        ≡ string_bytes text.old ++ behind (granted_tokens by.now rights.0)) }
{
    if rights.0 == 0 {
        return Ok(());
    }
    push_rights(alloc, text, by, rights)
}

// Appends what the rule on the node with this many of the path's names allows.
fn push_ruled(
    alloc: Global,
    text: &mut String,
    path: &Path,
    place: usize,
    ruled: Ruled,
) -> Result<(), AllocError>
    ensures { OnOk result (string_bytes text.new
        ≡ string_bytes text.old ++ behind (ruled_tokens path.now (place, ruled))) }
{
    let by = names_text(alloc, path, place)?;
    push_granted(alloc, text, by.as_str(), ruled.rights)
}

// Appends what the rules allow on the nodes of the path, from the root on.
fn push_rules(
    alloc: Global,
    text: &mut String,
    path: &Path,
    rules: &[Ruled],
) -> Result<(), AllocError>
    ensures { OnOk result (string_bytes text.new ≡ string_bytes text.old
        ++ behind (flat_map (ruled_tokens path.now) (enumerate_from 0 rules.now))) }
{
    for place in 0..rules.len() {
        push_ruled(alloc, text, path, place, rules[place])?;
    }
    Ok(())
}

// Appends a layer's column.
fn push_column(
    alloc: Global,
    text: &mut String,
    path: &Path,
    grants: &Grants,
) -> Result<(), AllocError>
    ensures { OnOk result (string_bytes text.new
        ≡ string_bytes text.old ++ behind (column_tokens path.now grants.now)) }
{
    push_token(text, "|")?;
    push_granted(alloc, text, "-", grants.free)?;
    push_rules(alloc, text, path, grants.ruled.as_slice())
}

// Appends the layers' columns.
fn push_columns(
    alloc: Global,
    text: &mut String,
    path: &Path,
    layers: &[Grants],
) -> Result<(), AllocError>
    ensures { OnOk result (string_bytes text.new
        ≡ string_bytes text.old ++ behind (flat_map (column_tokens path.now) layers.now)) }
{
    for grants in layers {
        push_column(alloc, text, path, grants)?;
    }
    Ok(())
}

// Appends the layers' columns, if they are asked for.
fn push_columns_if(
    alloc: Global,
    text: &mut String,
    path: &Path,
    told: &PathRights,
    shown: bool,
) -> Result<(), AllocError>
    ensures { OnOk result (string_bytes text.new
        ≡ string_bytes text.old ++ behind (shown_tokens path.now told.now shown)) }
{
    if shown {
        push_columns(alloc, text, path, told.layers.as_slice())
    } else {
        Ok(())
    }
}

// Appends the kind of the path's node, the rights on it, and the layers' columns.
fn push_node(
    alloc: Global,
    text: &mut String,
    path: &Path,
    told: &PathRights,
    layers: bool,
) -> Result<(), AllocError>
    ensures { OnOk result (string_bytes text.new
        ≡ string_bytes text.old ++ behind (node_tokens path.now told.now layers)) }
{
    push_rights(alloc, text, told.kind.text(), told.rights)?;
    push_columns_if(alloc, text, path, told, layers)
}

// Appends the rights on a new file and on a new directory, and the layers' columns for the directory.
fn push_new(
    alloc: Global,
    text: &mut String,
    path: &Path,
    file: &PathRights,
    directory: &PathRights,
    layers: bool,
) -> Result<(), AllocError>
    ensures { OnOk result (string_bytes text.new
        ≡ string_bytes text.old ++ behind (new_tokens path.now file.now directory.now layers)) }
{
    push_token(text, "missing")?;
    push_rights(alloc, text, "new-file", file.rights)?;
    push_rights(alloc, text, "new-dir", directory.rights)?;
    push_columns_if(alloc, text, path, directory, layers)
}

// Appends that no node can be created there, and what is there in place of its directory.
fn push_nowhere(text: &mut String, kind: Option<Kind>) -> Result<(), AllocError>
    ensures { OnOk result (string_bytes text.new
        ≡ string_bytes text.old ++ behind (nowhere_tokens kind)) }
{
    push_token(text, "missing")?;
    push_token(text, "parent-is")?;
    push_token(text, kind_word(kind))
}

/// Appends what there is at the path.
pub(crate) fn push_told(
    alloc: Global,
    text: &mut String,
    path: &Path,
    told: &RightsAt,
    layers: bool,
) -> Result<(), AllocError>
    ensures { OnOk result (string_bytes text.new
        ≡ string_bytes text.old ++ behind (row_tokens path.now told.now layers)) }
{
    match told {
        RightsAt::Node(told) => push_node(alloc, text, path, told, layers),
        RightsAt::New(file, directory) => push_new(alloc, text, path, file, directory, layers),
        RightsAt::Nowhere(kind) => push_nowhere(text, *kind),
    }
}

/// Returns the path's line of the table: its kind, the rights that all layers grant, and, if asked for, a column for
/// each layer; for a missing node, what new ones would be granted. Errors: memory ran out.
pub fn row_text(
    alloc: Global,
    path: &Path,
    told: &RightsAt,
    layers: bool,
) -> Result<String, AllocError>
    ensures { IfOk result (λ text. string_bytes text ≡ row_line path.now told.now layers) }
{
    let mut text = String::from_str(alloc, path.as_str())?;
    push_told(alloc, &mut text, path, told, layers)?;
    text.push_str("\n")?;
    Ok(text)
}
