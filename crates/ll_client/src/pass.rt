//! A pass.

use crate::tie::Naming;
use crate::view::View;
use atomic_table::Badge;
use std::marker::{Model, PhantomData};

/// A token without bytes that shows one entry of the keeper's map, or none after it was taken back. Contracts see it as
/// the entry.
#[derive(Drop)]
pub struct Pass<N: Naming, D> {
    pub(crate) badge: Badge<View<D>>,
    pub(crate) of: PhantomData<N>,
}

impl<N: Naming, D> Model for Pass<N, D> {
    ghost use Rattle.std.specs.Prelude.{ℕ, Option};

    ghost Value = { Option (ℕ × D) };

    ghost use Rattle.ll_client.specs.PassViews.{shown, IsPass};

    ghost view = { λ pass. shown pass.badge.views };

    ghost invariant = { λ pass. IsPass N.table pass.badge };
}
