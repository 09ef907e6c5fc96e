//! The table's rule, and what its operations guarantee.

use crate::view::View;
use atomic_table::{Join, Play, Split, TableRule};
use std::marker::Brand;

/// The rule: each shown entry is the keeper's, and no two seats show entries of one number.
pub struct Tied;

impl<D> TableRule<(), View<D>, ()> for Tied {
    ghost use Rattle.ll_rights.specs.Map.{empty};
    ghost use Rattle.ll_client.specs.Views.{keeper};
    ghost use Rattle.ll_client.specs.TieRule.{IsTied};

    ghost holds = { λ about state. IsTied state.views };

    ghost first = { λ about. keeper empty };
}

/// Taking back: the keeper's entry equals the one shown, and is removed from the keeper.
pub struct TakesBack;

impl<D> Play<(), View<D>> for TakesBack {
    ghost use Rattle.ll_client.specs.TieRule.{TakesEntry};

    ghost then = { λ step before found after. TakesEntry before after };
}

/// A play whose contract the caller's proof chooses.
impl<D> Play<(), View<D>> for Brand {
    ghost then = { λ step before found after. Unit {0} };
}

/// Joins and splits views: one seat gets the entry that the other shows.
pub struct OneEntry;

impl<D> Join<View<D>> for OneEntry {
    ghost use Rattle.ll_client.specs.Views.{joined, spent};

    ghost both = { joined };

    ghost spent = { spent };
}

impl<D> Split<View<D>> for OneEntry {
    ghost use Rattle.ll_client.specs.Views.{without_entry, only_entry};

    ghost left = { without_entry };

    ghost right = { only_entry };
}
