//! A walk from its first start to its reply.

ghost use Rattle.std.specs.Prelude.{◌≡◌, Some};
ghost use Rattle.ll_walk.specs.Sections.{Came};

use crate::gate::Gate;
use crate::table::Table;
use crate::waiter::Waiter;
use ll_client::{Rider, Shape};
use ll_journal::Made;
use std::sync::{MutexGuard, Wait};

/// How often a walk starts before it takes the move gate.
const FREE_STARTS: u64 = 3;

impl<N: Shape, G: Gate<N>> Table<N, G> {
    /// Starts the walk until its call is answered.
    fn last_start<R: Wait>(&self, waiter: &mut Waiter<'_, R>, me: &mut Rider<N>) -> Made
        ensures { Came N.limit me.old (Some result) me.new }
    {
        for _ in waiter.forever() {
            if let Some(made) = self.start(waiter, me) {
                return made;
            }
        }
        unreachable!()
    }

    /// Leads the client's walk to its reply. A walk that doesn't hold the move gate yet takes it after three starts.
    pub(crate) fn lead<'a, R: Wait>(
        &'a self,
        waiter: &mut Waiter<'_, R>,
        me: &mut Rider<N>,
        moving: Option<MutexGuard<'a, ()>>,
    ) -> Made
        ensures { Came N.limit me.old (Some result) me.new }
    {
        for _ in 0..FREE_STARTS {
            if let Some(made) = self.start(waiter, me) {
                return made;
            }
        }
        let moving = match moving {
            Some(guard) => guard,
            None => waiter.gate(self),
        };
        let made = self.last_start(waiter, me);
        drop(moving);
        made
    }
}
