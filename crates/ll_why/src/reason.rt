//! Why a client's layers deny a call, or allow it.

ghost use Rattle.std.specs.Prelude.{◌≡◌, ◌<◌, ◌≤◌, ℕ, ◌&&◌, not, List, [], ◌∷◌, ◌++◌, length, IfOk, OnOk};
ghost use Rattle.std.specs.List.{AllZip};
ghost use Rattle.ll_rights.specs.Access.{holds};
ghost use Rattle.ll_rules.specs.Layer as layer_of;
ghost use Rattle.ll_rules.specs.Layer.{grants_on};
ghost use Rattle.ll_decide.specs.Demands.{AreAsks, AreMoves};
ghost use Rattle.ll_decide.specs.Judge.{grants_along};
ghost use Rattle.ll_decide.specs.Masks.{AreMasks, IsMask};
ghost use Rattle.ll_decide.specs.Verdict.{Ask, Move, verdict};
ghost use Rattle.ll_decide.specs.declared.demands.On as asked_on;
ghost use Rattle.ll_why.specs.Reasons.{IsLayerReason, chain_of};

use crate::asks::Asks;
use crate::grants::{Grants, lacked, without};
use ll_decide::{Denial, Granted, Masks, least_denial};
use ll_rights::Access;
use ll_rights::limits::DOMAIN_LAYERS;
use ll_rules::{Domain, Layer};
use std::alloc::{AllocError, Global};

/// The rights needed by a call that one layer grants, and the rights that a node would gain.
#[derive(Drop)]
pub struct LayerReason {
    pub itself: Grants,
    pub other: Grants,
    pub parent: Grants,
    pub left: Grants,
    pub entered: Grants,
    /// The rights that the first path's node would gain in the second path's directory.
    pub there: Access,
    /// The rights that the second path's node would gain in the first path's directory.
    pub back: Access,
}

/// Why a client's layers deny a call, or allow it.
#[derive(Drop)]
pub struct Reason {
    pub asks: Asks,
    /// The denial, if there is one.
    pub denial: Option<Denial>,
    /// The rights needed that each layer grants, the oldest first.
    pub layers: Vec<LayerReason>,
}

// Returns the rights that the layer grants on path `into` and not on path `from`.
fn gained(layer: &Layer, rights: Access, into: &[u64], from: &[u64]) -> Access
    ensures fewer { result.0 ≤ rights.0 }
    ensures rights { (right : ℕ) → right < 15 → holds result.0 right
        ≡ (holds rights.0 right && grants_on layer.now into.now right && not (grants_on layer.now from.now right)) }
{
    let had = without(rights, lacked(layer, into, rights));
    lacked(layer, from, had)
}

impl LayerReason {
    // Returns this layer's reason, for the rights needed.
    fn of_layer(alloc: Global, layer: &Layer, asks: &Asks) -> Result<LayerReason, AllocError>
        ensures { IfOk result (IsLayerReason asks.now layer.now) }
    {
        let sets = asks.demands;
        let itself = asks.first.itself.as_slice();
        let other = asks.second.itself.as_slice();
        let parent = asks.first.parent.as_slice();
        let entered = asks.second.parent.as_slice();
        let there = gained(layer, sets.there, entered, itself);
        let back = gained(layer, sets.back, parent, other);
        let on_itself = Grants::of_layer(alloc, layer, itself, sets.itself)?;
        let on_other = Grants::of_layer(alloc, layer, other, sets.other)?;
        let on_parent = Grants::of_layer(alloc, layer, parent, sets.parent)?;
        let on_left = Grants::of_layer(alloc, layer, parent, sets.left)?;
        let on_entered = Grants::of_layer(alloc, layer, entered, sets.entered)?;
        Ok(LayerReason {
            itself: on_itself,
            other: on_other,
            parent: on_parent,
            left: on_left,
            entered: on_entered,
            there,
            back,
        })
    }
}

// Returns the rights that the layer grants on a path with these inodes.
fn mask_on(layer: &Layer, inodes: &[u64]) -> Access
    ensures { IsMask result.0 layer.now inodes.now }
{
    without(Access::ALL, lacked(layer, inodes, Access::ALL))
}

// Returns the rights that each layer grants on a path with these inodes.
fn masks_on(alloc: Global, domain: &Domain, inodes: &[u64]) -> Masks
    ensures { AreMasks result domain.now inodes.now }
{
    // The masks have a place for each layer.
    prove!(domain.len() <= DOMAIN_LAYERS);
    let mut masks = Masks::empty(alloc);
    for layer in domain.layers() {
        masks.push(mask_on(layer, inodes));
    }
    masks
}

// Returns the layers' denial of the rights needed: of all denials, the one that is reported.
pub(crate) fn denial_of(alloc: Global, domain: &Domain, asks: &Asks) -> Option<Denial>
    ensures { (a : List (Ask asked_on.On)) (m : List (Move asked_on.On)) → AreAsks asks.now.demands a
        → AreMoves asks.now.demands m → result ≡ verdict (grants_along (chain_of asks.now)) domain.now a m }
{
    let itself = masks_on(alloc, domain, &asks.first.itself);
    let other = masks_on(alloc, domain, &asks.second.itself);
    let parent = masks_on(alloc, domain, &asks.first.parent);
    let entered = masks_on(alloc, domain, &asks.second.parent);
    let granted = Granted {
        itself: &itself,
        other: &other,
        parent: &parent,
        entered: &entered,
    };
    least_denial(&asks.demands, &granted)
}

// Appends the layer's reason.
fn push_reason(told: &mut Vec<LayerReason>, one: LayerReason) -> Result<(), AllocError>
    ensures { OnOk result (told.new.items ≡ told.old.items ++ one ∷ []) }
{
    match told.push(one) {
        Ok(()) => Ok(()),
        Err(refused) => {
            drop(refused);
            Err(AllocError)
        }
    }
}

// Returns each layer's reason for the rights needed.
pub(crate) fn layer_reasons(
    alloc: Global,
    layers: &[Layer],
    asks: &Asks,
) -> Result<Vec<LayerReason>, AllocError>
    ensures { IfOk result (λ told. AllZip (λ one layer. IsLayerReason asks.now layer one) told.items layers.now) }
{
    let mut told = Vec::new(alloc);
    for layer in layers {
        let one = LayerReason::of_layer(alloc, layer, asks)?;
        push_reason(&mut told, one)?;
    }
    Ok(told)
}
