//! Writes layers as JSON.

ghost use Rattle.std.specs.Prelude.{◌≡◌, codes, map, IfOk, string_bytes};
ghost use Rattle.std.specs.List.{join_by};
ghost use Rattle.ll_program.specs.Options.{exported_in};
ghost use Rattle.ll_commands.specs.Json.{json_denied, json_flag, json_head, json_kind, json_layer};
ghost use Rattle.ll_commands.specs.Json.{json_options, json_rule, json_text};
ghost use Rattle.ll_why.specs.Quoted.{json_string};

use crate::c_program::root_of;
use crate::confinement::{Confinement, kind_at};
use ll_policy::{Layer, Rule};
use ll_program::{Denied, ExportOptions};
use ll_rights::{Abi, Kind};
use ll_seq::Call;
use ll_why::{concat, joined, json_names, json_string};
use std::alloc::{AllocError, Global};

fn strings_of(alloc: Global, told: &[&str]) -> Result<Vec<String>, AllocError>
    ensures { IfOk result (λ texts. map string_bytes texts.items ≡ map json_string (map (λ t. t.now) told.now)) }
{
    let mut texts = Vec::new(alloc);
    for text in told {
        texts.push(json_string(alloc, text)?)?;
    }
    Ok(texts)
}

fn json_strings(alloc: Global, told: &[&str]) -> Result<String, AllocError>
    ensures { IfOk result (λ text. string_bytes text ≡ join_by json_string (codes ", ") (map (λ t. t.now) told.now)) }
{
    let texts = strings_of(alloc, told)?;
    joined(alloc, ", ", texts.as_slice())
}

fn json_kind(kind: Option<Kind>) -> &'static str
    ensures { result.now ≡ json_kind kind }
{
    match kind {
        Some(kind) => kind.text(),
        None => "",
    }
}

fn json_rule(alloc: Global, opening: &[Call], rule: &Rule) -> Result<String, AllocError>
    ensures { IfOk result (λ text. string_bytes text ≡ json_rule opening.now rule.now) }
{
    let path = json_string(alloc, rule.path.as_str())?;
    let rights = json_names(alloc, rule.rights)?;
    concat(
        alloc,
        &[
            "      {\"path\": ",
            path.as_str(),
            ", \"kind\": \"",
            json_kind(kind_at(opening, &rule.path)),
            "\", \"rights\": [",
            rights.as_str(),
            "]}",
        ],
    )
}

fn rules_of(alloc: Global, opening: &[Call], rules: &[Rule]) -> Result<Vec<String>, AllocError>
    ensures { IfOk result (λ texts. map string_bytes texts.items ≡ map (json_rule opening.now) rules.now) }
{
    let mut texts = Vec::new(alloc);
    for rule in rules {
        texts.push(json_rule(alloc, opening, rule)?)?;
    }
    Ok(texts)
}

fn json_layer(alloc: Global, opening: &[Call], layer: &Layer) -> Result<String, AllocError>
    ensures { IfOk result (λ text. string_bytes text ≡ json_layer opening.now layer.now) }
{
    let handled = json_names(alloc, layer.handled)?;
    let texts = rules_of(alloc, opening, layer.rules.as_slice())?;
    let rules = joined(alloc, ",\n", texts.as_slice())?;
    concat(
        alloc,
        &[
            "    {\"handled\": [",
            handled.as_str(),
            "], \"rules\": [\n",
            rules.as_str(),
            "\n    ]}",
        ],
    )
}

fn layers_of(alloc: Global, opening: &[Call], layers: &[Layer]) -> Result<Vec<String>, AllocError>
    ensures { IfOk result (λ texts. map string_bytes texts.items ≡ map (json_layer opening.now) layers.now) }
{
    let mut texts = Vec::new(alloc);
    for layer in layers {
        texts.push(json_layer(alloc, opening, layer)?)?;
    }
    Ok(texts)
}

fn json_layers(alloc: Global, opening: &[Call], layers: &[Layer]) -> Result<String, AllocError>
    ensures { IfOk result (λ text. string_bytes text ≡ join_by (json_layer opening.now) (codes ",\n") layers.now) }
{
    let texts = layers_of(alloc, opening, layers)?;
    joined(alloc, ",\n", texts.as_slice())
}

fn json_flag(is_set: bool) -> &'static str
    ensures { result.now ≡ json_flag is_set }
{
    if is_set { "true" } else { "false" }
}

fn json_denied(alloc: Global, denied: Denied) -> Result<String, AllocError>
    ensures { IfOk result (λ text. string_bytes text ≡ json_denied denied) }
{
    concat(
        alloc,
        &[
            "{\"tcp\": ",
            json_flag(denied.tcp),
            ", \"ioctl_dev\": ",
            json_flag(denied.ioctl_dev),
            ", \"signal\": ",
            json_flag(denied.signal),
            ", \"abstract_unix_socket\": ",
            json_flag(denied.abstract_unix_socket),
            "}",
        ],
    )
}

fn json_options(alloc: Global, options: &ExportOptions) -> Result<String, AllocError>
    ensures { IfOk result (λ text. string_bytes text ≡ json_options (exported_in options.now)) }
{
    let denied = json_denied(alloc, options.deny.unwrap_or(Denied::NOTHING))?;
    concat(
        alloc,
        &[
            "  \"follow\": ",
            json_flag(options.follow),
            ",\n  \"best_effort\": ",
            json_flag(options.best_effort),
            ",\n  \"deny\": ",
            denied.as_str(),
            ",\n",
        ],
    )
}

fn json_head(alloc: Global, options: &ExportOptions, abi: Abi) -> Result<String, AllocError>
    ensures { IfOk result (λ text. string_bytes text ≡ json_head (exported_in options.now) abi) }
{
    let level = abi.number().to_string(alloc)?;
    let root = json_string(alloc, root_of(options))?;
    let also = json_strings(alloc, options.also.as_slice())?;
    concat(
        alloc,
        &[
            "{\n  \"version\": 1,\n  \"abi\": ",
            level.as_str(),
            ",\n  \"root\": ",
            root.as_str(),
            ",\n  \"also\": [",
            also.as_str(),
            "],\n",
        ],
    )
}

/// Returns the layers as JSON, the oldest first, after the options' values. Errors: memory ran out.
pub fn json_text(
    alloc: Global,
    options: &ExportOptions,
    confinement: &Confinement,
) -> Result<String, AllocError>
    ensures { IfOk result (λ text. string_bytes text ≡ json_text (exported_in options.now) confinement.now) }
{
    let head = json_head(alloc, options, confinement.abi)?;
    let told = json_options(alloc, options)?;
    let layers = json_layers(alloc, confinement.opening, confinement.layers)?;
    concat(
        alloc,
        &[
            head.as_str(),
            told.as_str(),
            "  \"layers\": [\n",
            layers.as_str(),
            "\n  ]\n}\n",
        ],
    )
}
