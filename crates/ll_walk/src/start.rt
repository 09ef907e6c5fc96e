//! One start of a walk, from the root to its reply.

ghost use Rattle.std.specs.Prelude.{◌≡◌, ◌<◌, IfSome};
ghost use Rattle.std.specs.List.{AllByRecursion};
ghost use Rattle.std.specs.Sync.Mutex.{mutex_guard_value};
ghost use Rattle.ll_walk.specs.Sections.{Came, made_of, IsReady, leg_at};
ghost use Rattle.ll_client.specs.Gains.{Goes};

use crate::gate::Gate;
use crate::held::{Branch, Split, unless_held};
use crate::table::Table;
use crate::waiter::Waiter;
use ll_client::{Leaving, Left, Locked, Rider, Shape};
use ll_journal::{Made, Next, Progress};
use std::sync::Wait;

/// The result of the call, if the walk has ended.
fn made_of(left: Left) -> Option<Made>
    ensures { result ≡ made_of left }
{
    match left {
        Left::Answered(reply) => Some(Made::Replied(reply)),
        Left::HistoryFull => Some(Made::HistoryFull),
        Left::NoMemory => Some(Made::NoMemory),
        Left::NotNow | Left::Astray | Left::Again => None,
    }
}

impl<N: Shape, G: Gate<N>> Table<N, G> {
    /// Looks for the walk's next step in this slot's directory.
    fn look_in<R: Wait>(
        &self,
        waiter: &mut Waiter<'_, R>,
        me: &mut Rider<N>,
        here: &mut Locked<N>,
    ) -> Next
        ensures here { here.new ≡ here.old }
        ensures ready { IsReady N.slots me.new.doing here.new result }
        ensures mine { me.new ≡ me.old }
    {
        let (next, spent) = waiter.section(self).next_here(&self.tie, me, here);
        drop(spent);
        next
    }

    /// Looks for the walk's next step where its branches are, if it has some, and then where it is or forked.
    fn look<R: Wait>(
        &self,
        waiter: &mut Waiter<'_, R>,
        me: &mut Rider<N>,
        split: &mut Split<'_, N>,
    ) -> Next
        ensures ready { IsReady N.slots me.new.doing
            (leg_at split.new.seen split.new.common split.new.first split.new.second) result }
        ensures mine { me.new ≡ me.old }
    {
        if let Some(here) = &mut split.second {
            let next = self.look_in(waiter, me, here);
            if !matches!(next, Next::Elsewhere) {
                split.seen = Some(Branch::Second);
                return next;
            }
        }
        if let Some(here) = &mut split.first {
            let next = self.look_in(waiter, me, here);
            if !matches!(next, Next::Elsewhere) {
                split.seen = Some(Branch::First);
                return next;
            }
        }
        split.seen = None;
        self.look_in(waiter, me, &mut split.common)
    }

    /// Looks in this slot's directory for a node that another walk has marked and that delays this one's answer.
    fn way_in<R: Wait>(
        &self,
        waiter: &mut Waiter<'_, R>,
        me: &Rider<N>,
        here: &mut Locked<N>,
    ) -> Option<u64>
        ensures { IfSome result (λ way. way < N.slots) }
    {
        let (way, spent) = waiter.section(self).slot_in_way(&self.tie, me, here);
        drop(spent);
        way
    }

    /// Waits for a node under a last name that another walk has marked, if there is one that this walk doesn't hold.
    fn wait_for_way<R: Wait>(
        &self,
        waiter: &mut Waiter<'_, R>,
        me: &Rider<N>,
        split: &mut Split<'_, N>,
    ) {
        let mut way = self.way_in(waiter, me, &mut split.common);
        if let Some(here) = &mut split.first
            && way.is_none()
        {
            way = self.way_in(waiter, me, here);
        }
        if let Some(here) = &mut split.second
            && way.is_none()
        {
            way = self.way_in(waiter, me, here);
        }
        waiter.wait_for(self, unless_held(way, &split.numbers()));
    }

    /// Waits for who is in the way, and looks again.
    fn wait<R: Wait>(
        &self,
        waiter: &mut Waiter<'_, R>,
        me: &mut Rider<N>,
        split: &mut Split<'_, N>,
    ) -> Next
        ensures ready { IsReady N.slots me.new.doing
            (leg_at split.new.seen split.new.common split.new.first split.new.second) result }
        ensures mine { me.new ≡ me.old }
    {
        self.wait_for_way(waiter, me, split);
        self.look(waiter, me, split)
    }

    /// Forks the walk. Returns the next step.
    fn fork<R: Wait>(
        &self,
        waiter: &mut Waiter<'_, R>,
        me: &mut Rider<N>,
        split: &mut Split<'_, N>,
    ) -> Next
        ensures ready { IsReady N.slots me.new.doing
            (leg_at split.new.seen split.new.common split.new.first split.new.second) result }
        ensures mine { me.new ≡ me.old }
    {
        let section = waiter.section(self);
        let (progress, next, spent) = section.fork(&self.tie, me, &mut split.common);
        drop(spent);
        if progress == Progress::Forked {
            split.seen = None;
            return next;
        }
        drop(next);
        self.wait(waiter, me, split)
    }

    /// Restarts the walk.
    fn restart<R: Wait>(
        &self,
        waiter: &mut Waiter<'_, R>,
        me: &mut Rider<N>,
        split: &mut Split<'_, N>,
    ) -> Left
        ensures { Goes N.limit me.old result me.new }
    {
        let mut last = None;
        let left = split.leave(
            waiter.section(self),
            &self.tie,
            me,
            &mut last,
            Leaving::Restart,
        );
        drop(last);
        left
    }

    /// Commits the walk, which may need these slots.
    fn commit<'a, R: Wait>(
        &'a self,
        waiter: &mut Waiter<'_, R>,
        me: &mut Rider<N>,
        split: &mut Split<'a, N>,
        slots: &[u64],
    ) -> Left
        requires { AllByRecursion (λ slot. slot < N.slots) slots.now }
        ensures { Goes N.limit me.old result me.new }
    {
        let mut last = match split.other_than(slots) {
            Some(slot) => Some(waiter.locked(self, slot)),
            None => None,
        };
        let left = split.leave(
            waiter.section(self),
            &self.tie,
            me,
            &mut last,
            Leaving::Commit,
        );
        drop(last);
        left
    }

    /// Makes one start of the client's walk. None if it has restarted, above the root.
    #[tactic(auto, using(crate::proofs::Walks::came_as, crate::proofs::Walks::stays, crate::proofs::Walks::again))]
    pub(crate) fn start<R: Wait>(
        &self,
        waiter: &mut Waiter<'_, R>,
        me: &mut Rider<N>,
    ) -> Option<Made>
        ensures { Came N.limit me.old result me.new }
    {
        let (root, mut next) = self.enter(waiter, me);
        let mut split = Split::of(root);
        for _ in waiter.forever() {
            let left = match next {
                Next::Descend(on) => {
                    next = self.descend(waiter, me, &mut split, on);
                    continue;
                }
                Next::Fork => {
                    next = self.fork(waiter, me, &mut split);
                    continue;
                }
                Next::Restart(slots) => {
                    drop(slots);
                    self.restart(waiter, me, &mut split)
                }
                Next::Commit(slots) => {
                    let left = self.commit(waiter, me, &mut split, slots.as_slice());
                    drop(slots);
                    left
                }
                Next::Nothing | Next::Elsewhere | Next::Enter(_) => Left::NotNow,
            };
            if let Left::Again = left {
                return None;
            }
            if let Some(made) = made_of(left) {
                return Some(made);
            }
            next = self.wait(waiter, me, &mut split);
        }
        unreachable!()
    }
}
