//! Where single layers of two policies grant something else.

ghost use Rattle.std.specs.Prelude.{◌≡◌, ◌++◌, OnOk, option_map, string_bytes};
ghost use Rattle.std.specs.List.{list_all, zip};
ghost use Rattle.ll_why.specs.LayerDifference.{layer_difference, layer_differences, layer_tokens, same_grants};
ghost use Rattle.ll_why.specs.LayerDifference.{same_layers};
ghost use Rattle.ll_why.specs.Table.{behind};

use crate::Grants;
use crate::signed::push_change;
use crate::table::push_token;
use ll_rights::Access;
use std::alloc::{AllocError, Global};

// Reports whether each layer that has one of the others in its place grants the same rights.
fn are_same_by_place(old: &[Grants], new: &[Grants]) -> bool
    ensures { result ≡ list_all same_grants (zip old.now new.now) }
{
    old.iter()
        .zip(new)
        .all(|(old, new)| old.missing.0 == new.missing.0)
}

/// Reports whether there are as many layers, and each grants the same rights as the one in its place.
pub(crate) fn are_same_layers(old: &[Grants], new: &[Grants]) -> bool
    ensures { result ≡ same_layers old.now new.now }
{
    old.len() == new.len() && are_same_by_place(old, new)
}

// Appends a layer's word and number, and what it grants more and less.
fn push_layer(
    alloc: Global,
    text: &mut String,
    word: &str,
    number: usize,
    lacked: Access,
    lacks: Access,
) -> Result<(), AllocError>
    ensures { OnOk result (string_bytes text.new
        ≡ string_bytes text.old ++ behind (layer_tokens word.now number lacked.0 lacks.0)) }
{
    let digits = number.to_string(alloc)?;
    push_token(text, word)?;
    push_token(text, digits.as_str())?;
    push_change(alloc, text, lacks, lacked)
}

// Appends what the layer with this number, of both policies or of one, grants more and less.
fn push_layer_difference(
    alloc: Global,
    text: &mut String,
    number: usize,
    old: Option<&Grants>,
    new: Option<&Grants>,
) -> Result<(), AllocError>
    ensures { OnOk result (string_bytes text.new ≡ string_bytes text.old
        ++ behind (layer_difference number (option_map (λ g. g.now) old.entry) (option_map (λ g. g.now) new.entry))) }
{
    match (old, new) {
        (Some(old), Some(new)) if old.missing.0 == new.missing.0 => Ok(()),
        (Some(old), Some(new)) => {
            push_layer(alloc, text, "layer", number, old.missing, new.missing)
        }
        (None, Some(new)) => push_layer(alloc, text, "new-layer", number, Access(0), new.missing),
        (Some(old), None) => push_layer(alloc, text, "old-layer", number, old.missing, Access(0)),
        (None, None) => Ok(()),
    }
}

/// Appends what the layers that differ grant more and less, the oldest first.
pub(crate) fn push_layer_differences(
    alloc: Global,
    text: &mut String,
    old: &[Grants],
    new: &[Grants],
) -> Result<(), AllocError>
    ensures { OnOk result (string_bytes text.new
        ≡ string_bytes text.old ++ behind (layer_differences old.now new.now)) }
{
    for place in 0..old.len().max(new.len()) {
        push_layer_difference(alloc, text, place + 1, old.get(place), new.get(place))?;
    }
    Ok(())
}
