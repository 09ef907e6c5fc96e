//! The least change of a client's layers that would allow a call.

ghost use Rattle.std.specs.Prelude.{◌≡◌, ◌<◌, ◌≤◌, ◌==◌, ℕ, ◌&&◌, ◌||◌, not, [], ◌∷◌, ◌++◌, None, IfOk, OnOk};
ghost use Rattle.std.specs.Prelude.{MatchOption};
ghost use Rattle.ll_rights.specs.Access.{holds};
ghost use Rattle.ll_rights.specs.Right.{refer};
ghost use Rattle.ll_decide.specs.declared.demands.On as asked_on;
ghost use Rattle.ll_seq.specs.declared.call.Call as call_of;
ghost use Rattle.ll_seq.specs.declared.client.ClientRecord as record_of;
ghost use Rattle.ll_why.specs.Changes.{IsLeastFound, end_of, is_added, rule_on};
ghost use Rattle.ll_why.specs.Places.{IsBarred, IsLeastOf, set_in};
ghost use Rattle.ll_why.specs.Reasons.{AreAsked, chain_of, kept_number};

use crate::asks::Asks;
use crate::grants::{Ruled, without};
use crate::places::{Sets, both, end_of, least_sets};
use ll_plain::Plain;
use ll_rights::{Abi, Access};
use ll_rules::Layer;
use std::alloc::{AllocError, Global};

/// The additions to one layer: to rules on the nodes of a call's two paths, and on their directories.
#[derive(Clone, Copy)]
pub struct LayerChange {
    /// The rights that the layer has to handle in addition: refer, if a rule is to have it and the layer doesn't handle
    /// it.
    pub handled: Access,
    pub itself: Ruled,
    pub other: Ruled,
    pub entered: Ruled,
    pub parent: Ruled,
}

// Returns a rule with these rights on the last of these inodes.
fn rule_at(inodes: &[u64], rights: Access) -> Ruled
    ensures inode { result.inode ≡ end_of inodes.now }
    ensures rights { result.rights ≡ rights }
{
    Ruled {
        inode: end_of(inodes),
        rights,
    }
}

// Returns the rights that the layer must handle in addition, so that rules can have these rights.
fn newly_handled(layer: &Layer, sets: Sets) -> Access
    ensures fewer { result.0 ≤ 0x2000 }
    ensures rights { (right : ℕ) → right < 15 → holds result.0 right
        ≡ (((right == refer) && (holds sets.itself.0 right || holds sets.other.0 right || holds sets.entered.0 right
        || holds sets.parent.0 right)) && not (holds layer.now.handled right)) }
{
    let added = sets
        .itself
        .with(sets.other)
        .with(sets.entered)
        .with(sets.parent);
    without(both(Access::REFER, added), layer.handled())
}

impl LayerChange {
    // Returns the change that adds these sets to the layer.
    fn of_sets(layer: &Layer, asks: &Asks, sets: Sets) -> LayerChange
        ensures ends { (on : asked_on.On) → (rule_on result on).inode ≡ end_of (chain_of asks.now on) }
        ensures sets { (on : asked_on.On) → (rule_on result on).rights.0 ≡ set_in sets on }
        ensures few { result.handled.0 ≤ 0x2000 }
        ensures handled { (right : ℕ) → right < 15 → holds result.handled.0 right
            ≡ (((right == refer) && is_added result right) && not (holds layer.now.handled right)) }
    {
        LayerChange {
            handled: newly_handled(layer, sets),
            itself: rule_at(&asks.first.itself, sets.itself),
            other: rule_at(&asks.second.itself, sets.other),
            entered: rule_at(&asks.second.parent, sets.entered),
            parent: rule_at(&asks.first.parent, sets.parent),
        }
    }

    // Returns the change of this level that makes the layer allow the call, or None if there is none.
    fn of_layer(tree: &Plain, level: Abi, layer: &Layer, asks: &Asks) -> Option<LayerChange>
        ensures { MatchOption result (IsBarred level tree.now asks.now layer.now)
            (IsLeastOf level tree.now asks.now layer.now) }
    {
        match least_sets(tree, level, layer, asks) {
            Some(sets) => Some(LayerChange::of_sets(layer, asks, sets)),
            None => None,
        }
    }
}

// Appends the layer's change.
fn push_change(changes: &mut Vec<LayerChange>, change: LayerChange) -> Result<(), AllocError>
    ensures { OnOk result (changes.new.items ≡ changes.old.items ++ change ∷ []) }
{
    changes.push(change)?;
    Ok(())
}

/// Returns the least change of each layer, the oldest first, with which they would allow a call that needs this, in a
/// tree of this level. None if no change that such a tree accepts does. Errors: memory ran out.
pub fn change_for(
    alloc: Global,
    tree: &Plain,
    level: Abi,
    layers: &[Layer],
    asks: &Asks,
) -> Result<Option<Vec<LayerChange>>, AllocError>
    ensures { IfOk result (λ found. (c : record_of.ClientRecord) (call : call_of.Call)
        → c.domain ≡ layers.now → kept_number call ≡ None → AreAsked tree.now call asks.now
        → IsLeastFound level tree.now c call asks.now found) }
{
    let mut changes = Vec::new(alloc);
    for layer in layers {
        match LayerChange::of_layer(tree, level, layer, asks) {
            Some(change) => push_change(&mut changes, change)?,
            None => return Ok(None),
        }
    }
    Ok(Some(changes))
}
