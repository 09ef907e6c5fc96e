//! Descents of a walk, each told to the gate.

ghost use Rattle.std.specs.Prelude.{◌≡◌, ◌<◌, Some};
ghost use Rattle.std.specs.Sync.Mutex.{mutex_guard_value};
ghost use Rattle.ll_seq.specs.declared.call.Call.{Call};
ghost use Rattle.ll_journal.specs.Stations.{Names};
ghost use Rattle.ll_walk.specs.Sections.{IsReady, leg_at};
ghost use Rattle.ll_client.specs.Entries.{Kept};

use crate::gate::Gate;
use crate::held::{Branch, Split};
use crate::table::Table;
use crate::waiter::Waiter;
use ll_client::{Locked, Rider, Shape};
use ll_journal::{Next, Onward, Turn};
use std::mem::replace;
use std::sync::{MutexGuard, Wait};
use std::thread;

impl<N: Shape, G: Gate<N>> Table<N, G> {
    /// Moves the walk to the root and locks it. The root stays in the slot where it was when the tree was opened; it is
    /// looked up only if it isn't found there.
    pub(crate) fn enter<R: Wait>(
        &self,
        waiter: &mut Waiter<'_, R>,
        me: &mut Rider<N>,
    ) -> (MutexGuard<'_, Locked<N>>, Next)
        ensures ready { IsReady N.slots me.new.doing (mutex_guard_value {X = Kept} result.0) result.1 }
        ensures mine { me.new ≡ me.old }
    {
        let mut slot = self.root;
        for _ in waiter.forever() {
            let mut root = waiter.locked(self, slot);
            let (landing, next) = waiter.section(self).enter(&self.tie, me, &mut root);
            if let Some(due) = landing.released() {
                due.tell(&self.gate, &root);
                return (root, next);
            }
            drop(root);
            thread::yield_now();
            let (found, spent) = waiter.section(self).root_slot();
            drop(spent);
            slot = found;
        }
        unreachable!()
    }

    /// Descends above the fork: locks the next directory and releases the one above. If there is no descent, keeps the
    /// lock. Returns the next step.
    #[tactic(auto, using(crate::proofs::Looks::ready_there, crate::proofs::Looks::ready_here))]
    fn further<'a, R: Wait>(
        &'a self,
        waiter: &mut Waiter<'_, R>,
        me: &mut Rider<N>,
        split: &mut Split<'a, N>,
        on: Onward,
    ) -> Next
        requires within { on.slot < N.slots }
        requires names { (call : Call) → me.old.doing ≡ Some call
            → Names call (leg_at split.old.seen split.old.common split.old.first split.old.second).held on.name
            on.inode }
        ensures ready { IsReady N.slots me.new.doing
            (leg_at split.new.seen split.new.common split.new.first split.new.second) result }
        ensures mine { me.new ≡ me.old }
    {
        let hint = split.hint(None, on);
        let mut to = waiter.locked(self, on.slot);
        let section = waiter.section(self);
        let (landing, next) = section.descend(&self.tie, me, &mut split.common, &mut to, hint);
        split.seen = None;
        match landing.released() {
            Some(due) => {
                let above = replace(&mut split.common, to);
                drop(above);
                due.tell(&self.gate, &split.common);
            }
            None => {
                drop(to);
                thread::yield_now();
            }
        }
        next
    }

    /// Descends past the fork: locks the branch's next directory and releases the one above, unless that is the fork's.
    /// If there is no descent, keeps what was locked. Returns the next step.
    #[tactic(auto, using(crate::proofs::Looks::ready_there, crate::proofs::Looks::ready_here))]
    fn below<'a, R: Wait>(
        &'a self,
        waiter: &mut Waiter<'_, R>,
        me: &mut Rider<N>,
        split: &mut Split<'a, N>,
        branch: Branch,
        on: Onward,
    ) -> Next
        requires within { on.slot < N.slots }
        requires names { (call : Call) → me.old.doing ≡ Some call
            → Names call (leg_at split.old.seen split.old.common split.old.first split.old.second).held on.name
            on.inode }
        ensures ready { IsReady N.slots me.new.doing
            (leg_at split.new.seen split.new.common split.new.first split.new.second) result }
        ensures mine { me.new ≡ me.old }
    {
        let hint = split.hint(Some(branch), on);
        let mut from = split.take(branch);
        let mut to = waiter.locked(self, on.slot);
        let section = waiter.section(self);
        let (mut landing, mut next) = match &mut from {
            None => section.descend(&self.tie, me, &mut split.common, &mut to, hint),
            Some(from) => section.descend(&self.tie, me, from, &mut to, hint),
        };
        split.seen = Some(branch);
        if let Next::Elsewhere = next {
            next = landing.next_here(&self.tie, me, &mut split.common);
            split.seen = None;
        }
        match landing.released() {
            Some(due) => {
                drop(from);
                due.tell(&self.gate, &to);
                split.put(branch, Some(to));
            }
            None => {
                drop(to);
                thread::yield_now();
                split.put(branch, from);
            }
        }
        next
    }

    /// Descends by the next name of the walk's current leg. Returns the next step.
    pub(crate) fn descend<'a, R: Wait>(
        &'a self,
        waiter: &mut Waiter<'_, R>,
        me: &mut Rider<N>,
        split: &mut Split<'a, N>,
        on: Onward,
    ) -> Next
        requires within { on.slot < N.slots }
        requires names { (call : Call) → me.old.doing ≡ Some call
            → Names call (leg_at split.old.seen split.old.common split.old.first split.old.second).held on.name
            on.inode }
        ensures ready { IsReady N.slots me.new.doing
            (leg_at split.new.seen split.new.common split.new.first split.new.second) result }
        ensures mine { me.new ≡ me.old }
    {
        match on.name.turn {
            Turn::No | Turn::Trunk => self.further(waiter, me, split, on),
            Turn::First => self.below(waiter, me, split, Branch::First, on),
            Turn::Second => self.below(waiter, me, split, Branch::Second, on),
        }
    }
}
