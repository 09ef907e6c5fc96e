//! What a slot's lock guards.

ghost use Rattle.std.specs.Prelude.{◌≡◌};

use crate::Pass;
use crate::account::Account;
use crate::lent::LENT_SLOTS;
use crate::shape::Shape;
use arrayvec::ArrayVec;
use ll_node::Held;
use std::marker::Model;
use std::sync::MutexGuard;

/// The contents of the slot of this number, and the pass that shows them as the slot's account.
#[derive(Drop)]
pub struct Locked<N: Shape> {
    pub(crate) number: u64,
    pub(crate) held: Held,
    pub(crate) pass: Pass<N, Account>,
}

/// The guard of a slot, if the walk holds its lock.
pub type Place<'a, N> = Option<MutexGuard<'a, Locked<N>>>;

/// The guards of slots, whose last is lent first.
pub type Places<'a, N> = ArrayVec<Place<'a, N>, LENT_SLOTS>;

impl<N: Shape> Model for Locked<N> {
    ghost use Rattle.ll_client.specs.Entries.{Kept, coded_kept, slot_entry};

    ghost Value = { Kept };

    ghost coded = { coded_kept };

    ghost use Rattle.std.specs.Prelude.{◌≡◌, Some};

    ghost view = { λ locked. record { number = locked.number; held = locked.held } };

    ghost invariant = { λ locked. locked.pass ≡ Some (slot_entry locked.number locked.held) };
}

impl<N: Shape> Locked<N> {
    /// Returns the number of the slot.
    pub fn number(&self) -> u64
        ensures { result ≡ self.now.number }
    {
        self.number
    }

    /// Returns the inode in the slot, 0 if it is vacant.
    pub fn inode(&self) -> u64
        ensures { result ≡ self.now.held.inode }
    {
        self.held.inode
    }
}
