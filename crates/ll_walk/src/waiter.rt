//! The right of one call to wait.

ghost use Rattle.std.specs.Prelude.{◌≡◌, ◌<◌, IfSome};
ghost use Rattle.std.specs.Sync.Mutex.{mutex_guard_value};
ghost use Rattle.ll_client.specs.Entries.{Kept};

use crate::gate::Gate;
use crate::section::Section;
use crate::table::Table;
use ll_client::{Locked, Shape};
use std::sync::{Forever, MutexGuard, Wait};
use std::thread;

/// A walk's right to wait. While it has the journal's lock, or owes the gate a call, this is borrowed: so it takes no
/// other lock, and calls no gate with the journal's lock held.
#[derive(Drop)]
pub(crate) struct Waiter<'r, R> {
    rt: &'r R,
}

impl<'r, R: Wait> Waiter<'r, R> {
    pub(crate) fn new(rt: &'r R) -> Waiter<'r, R> {
        Waiter { rt }
    }

    /// Tries for ever.
    pub(crate) fn forever(&self) -> Forever<'r, R> {
        self.rt.forever()
    }

    /// Locks the journal.
    #[inline(always)]
    pub(crate) fn section<'a, N: Shape, G: Gate<N>>(
        &'a mut self,
        table: &'a Table<N, G>,
    ) -> Section<'a, N> {
        table.section(self.rt)
    }

    /// Locks the move gate.
    #[inline(always)]
    pub(crate) fn gate<'a, N: Shape, G: Gate<N>>(
        &mut self,
        table: &'a Table<N, G>,
    ) -> MutexGuard<'a, ()> {
        table.queue.soon(self.rt, &table.moving)
    }

    /// Locks the slot of this number.
    #[inline(always)]
    pub(crate) fn locked<'a, N: Shape, G: Gate<N>>(
        &mut self,
        table: &'a Table<N, G>,
        slot: u64,
    ) -> MutexGuard<'a, Locked<N>>
        requires { slot < N.slots }
        ensures { (mutex_guard_value {X = Kept} result).number ≡ slot }
    {
        table.locked(self.rt, slot)
    }

    /// Waits until the slot of this number is free. Without a number, yields the processor once.
    pub(crate) fn wait_for<N: Shape, G: Gate<N>>(&mut self, table: &Table<N, G>, slot: Option<u64>)
        requires { IfSome slot (λ slot. slot < N.slots) }
    {
        match slot {
            Some(slot) => drop(self.locked(table, slot)),
            None => thread::yield_now(),
        }
    }
}
