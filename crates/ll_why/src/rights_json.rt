//! Writes the rights at paths as JSON.

ghost use Rattle.std.specs.Prelude.{◌≡◌, ◌++◌, codes, map, IfOk, OnOk, string_bytes, take};
ghost use Rattle.std.specs.List.{enumerate_from, flat_map, join_by};
ghost use Rattle.ll_path.specs.Path.{path_text};
ghost use Rattle.ll_seq.specs.Found.{or_root};
ghost use Rattle.ll_why.specs.RightsJson.{grants_fields, grants_json, kind_json, new_json, node_json, nowhere_json};
ghost use Rattle.ll_why.specs.RightsJson.{path_json, profile_json, rule_json, ruled_json, there_json};

use crate::paths::ancestor_text;
use crate::quoted::{json_names, json_string};
use crate::text::{concat, joined};
use crate::{Grants, PathRights, RightsAt, Ruled};
use ll_path::Path;
use ll_rights::{Access, Kind};
use std::alloc::{AllocError, Global};

fn kind_json(alloc: Global, kind: Option<Kind>) -> Result<String, AllocError>
    ensures { IfOk result (λ text. string_bytes text ≡ kind_json kind) }
{
    match kind {
        Some(kind) => concat(alloc, &["\"", kind.text(), "\""]),
        None => String::from_str(alloc, "null"),
    }
}

/// Returns the rule on this node. Errors: memory ran out.
pub(crate) fn rule_json(alloc: Global, node: &str, rights: Access) -> Result<String, AllocError>
    ensures { IfOk result (λ text. string_bytes text ≡ rule_json node.now rights.0) }
{
    let node = json_string(alloc, node)?;
    let names = json_names(alloc, rights)?;
    concat(
        alloc,
        &[
            "{\"path\": ",
            node.as_str(),
            ", \"rights\": [",
            names.as_str(),
            "]}",
        ],
    )
}

// The rule on the node with this many of the path's names. None means the root.
fn placed_rule(
    alloc: Global,
    path: Option<&Path>,
    place: usize,
    rights: Access,
) -> Result<String, AllocError>
    ensures { IfOk result (λ text. string_bytes text
        ≡ rule_json (path_text (take place (or_root path.entry))) rights.0) }
{
    let node = ancestor_text(alloc, path, place)?;
    rule_json(alloc, node.as_str(), rights)
}

// Appends the rule, if it allows anything.
fn push_rule(
    alloc: Global,
    texts: &mut Vec<String>,
    path: Option<&Path>,
    place: usize,
    ruled: Ruled,
) -> Result<(), AllocError>
    ensures { OnOk result (map string_bytes texts.new.items
        ≡ map string_bytes texts.old.items ++ ruled_json (or_root path.entry) (place, ruled)) }
{
    if ruled.rights.0 == 0 {
        return Ok(());
    }
    let text = placed_rule(alloc, path, place, ruled.rights)?;
    texts.push(text)?;
    Ok(())
}

fn rules_of(alloc: Global, path: Option<&Path>, rules: &[Ruled]) -> Result<Vec<String>, AllocError>
    ensures { IfOk result (λ texts. map string_bytes texts.items
        ≡ flat_map (ruled_json (or_root path.entry)) (enumerate_from 0 rules.now)) }
{
    let mut texts = Vec::new(alloc);
    for place in 0..rules.len() {
        push_rule(alloc, &mut texts, path, place, rules[place])?;
    }
    Ok(texts)
}

fn rules_json(alloc: Global, path: Option<&Path>, rules: &[Ruled]) -> Result<String, AllocError>
    ensures { IfOk result (λ text. string_bytes text ≡ join_by (λ t. t) (codes ", ")
        (flat_map (ruled_json (or_root path.entry)) (enumerate_from 0 rules.now))) }
{
    let texts = rules_of(alloc, path, rules)?;
    joined(alloc, ", ", texts.as_slice())
}

/// Returns what a layer does on a path, without braces. None means the root. Errors: memory ran out.
pub(crate) fn grants_fields(
    alloc: Global,
    path: Option<&Path>,
    grants: &Grants,
) -> Result<String, AllocError>
    ensures { IfOk result (λ text. string_bytes text ≡ grants_fields (or_root path.entry) grants.now) }
{
    let free = json_names(alloc, grants.free)?;
    let rules = rules_json(alloc, path, grants.ruled.as_slice())?;
    let missing = json_names(alloc, grants.missing)?;
    concat(
        alloc,
        &[
            "\"unrestricted\": [",
            free.as_str(),
            "], \"rules\": [",
            rules.as_str(),
            "], \"missing\": [",
            missing.as_str(),
            "]",
        ],
    )
}

fn grants_json(alloc: Global, path: &Path, grants: &Grants) -> Result<String, AllocError>
    ensures { IfOk result (λ text. string_bytes text ≡ grants_json path.now grants.now) }
{
    let fields = grants_fields(alloc, Some(path), grants)?;
    concat(alloc, &["{", fields.as_str(), "}"])
}

fn layers_of(alloc: Global, path: &Path, layers: &[Grants]) -> Result<Vec<String>, AllocError>
    ensures { IfOk result (λ texts. map string_bytes texts.items ≡ map (grants_json path.now) layers.now) }
{
    let mut texts = Vec::new(alloc);
    for grants in layers {
        texts.push(grants_json(alloc, path, grants)?)?;
    }
    Ok(texts)
}

fn layers_json(alloc: Global, path: &Path, layers: &[Grants]) -> Result<String, AllocError>
    ensures { IfOk result (λ text. string_bytes text ≡ join_by (grants_json path.now) (codes ", ") layers.now) }
{
    let texts = layers_of(alloc, path, layers)?;
    joined(alloc, ", ", texts.as_slice())
}

fn node_json(alloc: Global, path: &Path, told: &PathRights) -> Result<String, AllocError>
    ensures { IfOk result (λ text. string_bytes text ≡ node_json path.now told.now) }
{
    let names = json_names(alloc, told.rights)?;
    let layers = layers_json(alloc, path, told.layers.as_slice())?;
    concat(
        alloc,
        &[
            "\"kind\": \"",
            told.kind.text(),
            "\", \"rights\": [",
            names.as_str(),
            "], \"layers\": [",
            layers.as_str(),
            "]",
        ],
    )
}

fn new_json(
    alloc: Global,
    path: &Path,
    file: &PathRights,
    directory: &PathRights,
) -> Result<String, AllocError>
    ensures { IfOk result (λ text. string_bytes text ≡ new_json path.now file.now directory.now) }
{
    let file = node_json(alloc, path, file)?;
    let directory = node_json(alloc, path, directory)?;
    concat(
        alloc,
        &[
            "\"kind\": null, \"parent\": \"dir\", \"new\": [{",
            file.as_str(),
            "}, {",
            directory.as_str(),
            "}]",
        ],
    )
}

fn nowhere_json(alloc: Global, kind: Option<Kind>) -> Result<String, AllocError>
    ensures { IfOk result (λ text. string_bytes text ≡ nowhere_json kind) }
{
    let kind = kind_json(alloc, kind)?;
    concat(
        alloc,
        &[
            "\"kind\": null, \"parent\": ",
            kind.as_str(),
            ", \"new\": []",
        ],
    )
}

/// Returns what there is at the path, as members of an object.
pub(crate) fn there_json(alloc: Global, path: &Path, told: &RightsAt) -> Result<String, AllocError>
    ensures { IfOk result (λ text. string_bytes text ≡ there_json path.now told.now) }
{
    match told {
        RightsAt::Node(told) => node_json(alloc, path, told),
        RightsAt::New(file, directory) => new_json(alloc, path, file, directory),
        RightsAt::Nowhere(kind) => nowhere_json(alloc, *kind),
    }
}

/// Returns the path's line of JSON: its kind, the rights that all layers grant, and what each layer does; for a missing
/// node, what new ones would be granted. Errors: memory ran out.
pub fn path_json(alloc: Global, path: &Path, told: &RightsAt) -> Result<String, AllocError>
    ensures { IfOk result (λ text. string_bytes text ≡ path_json path.now told.now) }
{
    let name = json_string(alloc, path.as_str())?;
    let there = there_json(alloc, path, told)?;
    concat(
        alloc,
        &["{\"path\": ", name.as_str(), ", ", there.as_str(), "}\n"],
    )
}

/// Returns the path's line of JSON, which begins with the profile that has the rights. Errors: memory ran out.
pub(crate) fn profile_json(
    alloc: Global,
    profile: &str,
    path: &Path,
    told: &RightsAt,
) -> Result<String, AllocError>
    ensures { IfOk result (λ text. string_bytes text ≡ profile_json profile.now path.now told.now) }
{
    let profile = json_string(alloc, profile)?;
    let name = json_string(alloc, path.as_str())?;
    let there = there_json(alloc, path, told)?;
    concat(
        alloc,
        &[
            "{\"profile\": ",
            profile.as_str(),
            ", \"path\": ",
            name.as_str(),
            ", ",
            there.as_str(),
            "}\n",
        ],
    )
}
