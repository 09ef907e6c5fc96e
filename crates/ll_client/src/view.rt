//! The view of a seat at the table.

use std::marker::{Model, PhantomData};

/// What a seat at the table knows. No value of this type is created.
pub struct View<D> {
    of: PhantomData<D>,
}

impl<D> Model for View<D> {
    ghost use Rattle.ll_client.specs.Views.{Known, coded_known, spent};

    ghost Value = { Known D };

    ghost coded = { coded_known D.code };

    ghost view = { λ _. spent };
}
