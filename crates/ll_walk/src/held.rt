//! The locks that a walk holds past its fork.

ghost use Rattle.std.specs.Prelude.{◌≡◌, ◌<◌, ◌≤◌, ◌+◌, ℕ, IfSome, None, Some, length};
ghost use Rattle.std.specs.List.{AllByRecursion};
ghost use Rattle.std.specs.Sync.Mutex.{mutex_guard_value};
ghost use Rattle.ll_client.specs.Entries.{Kept};
ghost use Rattle.ll_client.specs.Gains.{Goes};
ghost use Rattle.ll_client.specs.declared.lent.TheConstants.{LENT_SLOTS};
ghost use Rattle.ll_walk.specs.Sections.{leg_at, place_or};

use crate::section::Section;
use ll_client::{Account, Leaving, Left, Locked, Place, Places, Rider, Shape, Tie};
use ll_journal::Onward;
use std::sync::MutexGuard;

/// A leg of a walk past its fork.
#[derive(Clone, Copy, PartialEq, Eq)]
pub(crate) enum Branch {
    First,
    Second,
}

/// The locks that a walk holds: of the directory where it is, or forked; and for each branch of its directory, if that
/// is another one. `seen` says in which one the walk's next step was found: a branch's, or else the fork's.
#[derive(Drop)]
pub(crate) struct Split<'a, N: Shape> {
    pub common: MutexGuard<'a, Locked<N>>,
    pub first: Place<'a, N>,
    pub second: Place<'a, N>,
    pub seen: Option<Branch>,
}

/// Returns the first of these slots whose lock isn't held.
pub(crate) fn other_than(slots: &[u64], held: &[u64]) -> Option<u64>
    ensures { (n : ℕ) → AllByRecursion (λ slot. slot < n) slots.now → IfSome result (λ slot. slot < n) }
{
    for slot in slots {
        if !held.contains(slot) {
            return Some(*slot);
        }
    }
    None
}

/// Returns the slot, if its lock isn't held.
pub(crate) fn unless_held(slot: Option<u64>, held: &[u64]) -> Option<u64>
    ensures { (n : ℕ) → IfSome slot (λ slot. slot < n) → IfSome result (λ slot. slot < n) }
{
    match slot {
        Some(slot) if !held.contains(&slot) => Some(slot),
        _ => None,
    }
}

/// Puts the guard on the stack, if the lock is held. Reports whether it is.
#[inline(always)]
fn stack<'a, N: Shape>(others: &mut Places<'a, N>, place: &mut Place<'a, N>) -> bool
    requires { length others.old.items < LENT_SLOTS }
    ensures { length others.new.items ≤ length others.old.items + 1 }
{
    let is_held = place.is_some();
    if is_held {
        others.push(place.take());
    }
    is_held
}

/// Takes it back from there.
#[inline(always)]
fn unstack<'a, N: Shape>(others: &mut Places<'a, N>, place: &mut Place<'a, N>, is_held: bool) {
    if is_held {
        *place = others.pop().unwrap_or(None);
    }
}

fn number_in<N: Shape>(place: &Place<'_, N>, otherwise: u64) -> u64 {
    match place {
        None => otherwise,
        Some(slot) => slot.number(),
    }
}

impl<'a, N: Shape> Split<'a, N> {
    /// The lock of a walk above its fork, which is in this directory, where its next step was found.
    pub(crate) fn of(here: MutexGuard<'a, Locked<N>>) -> Split<'a, N>
        ensures common { mutex_guard_value {X = Kept} result.common ≡ mutex_guard_value {X = Kept} here.entry }
        ensures seen { result.seen ≡ None }
    {
        Split {
            common: here,
            first: None,
            second: None,
            seen: None,
        }
    }

    /// Returns the descent as a hint, if it was found where it begins.
    pub(crate) fn hint(&self, leg: Option<Branch>, on: Onward) -> Option<Onward>
        ensures { IfSome result (λ hint. (hint ≡ on)
            × (leg_at leg self.now.common self.now.first self.now.second
            ≡ leg_at self.now.seen self.now.common self.now.first self.now.second)) }
    {
        let is_at_fork = match leg {
            None => true,
            Some(Branch::First) => self.first.is_none(),
            Some(Branch::Second) => self.second.is_none(),
        };
        if self.seen == leg || (self.seen.is_none() && is_at_fork) {
            Some(on)
        } else {
            None
        }
    }

    /// Takes the lock of the branch's own directory.
    pub(crate) fn take(&mut self, branch: Branch) -> Place<'a, N>
        ensures place { place_or result self.new.common
            ≡ leg_at (Some branch) self.old.common self.old.first self.old.second }
        ensures common { self.new.common ≡ self.old.common }
    {
        match branch {
            Branch::First => self.first.take(),
            Branch::Second => self.second.take(),
        }
    }

    /// Puts a lock in its place.
    pub(crate) fn put(&mut self, branch: Branch, place: Place<'a, N>)
        ensures place { leg_at (Some branch) self.new.common self.new.first self.new.second
            ≡ place_or place.entry self.new.common }
        ensures common { self.new.common ≡ self.old.common }
        ensures seen { self.new.seen ≡ self.old.seen }
    {
        match branch {
            Branch::First => self.first = place,
            Branch::Second => self.second = place,
        }
    }

    /// The numbers of the locked slots. A leg that is still in the fork's directory counts as that.
    pub(crate) fn numbers(&self) -> [u64; 3] {
        let common = self.common.number();
        let first = number_in(&self.first, common);
        let second = number_in(&self.second, common);
        [common, first, second]
    }

    /// Returns the first of these slots that the walk doesn't hold.
    pub(crate) fn other_than(&self, slots: &[u64]) -> Option<u64>
        ensures { (n : ℕ) → AllByRecursion (λ slot. slot < n) slots.now → IfSome result (λ slot. slot < n) }
    {
        other_than(slots, &self.numbers())
    }

    /// Commits or restarts the walk with all held slots, and with one more if given.
    pub(crate) fn leave(
        &mut self,
        section: Section<'_, N>,
        tie: &Tie<N, Account>,
        me: &mut Rider<N>,
        last: &mut Place<'a, N>,
        leaving: Leaving,
    ) -> Left
        ensures mine { Goes N.limit me.old result me.new }
    {
        let mut others = Places::new();
        let has_last = stack(&mut others, last);
        let has_second = stack(&mut others, &mut self.second);
        let has_first = stack(&mut others, &mut self.first);
        let (left, spent) = section.leave(tie, me, &mut self.common, &mut others, leaving);
        drop(spent);
        unstack(&mut others, &mut self.first, has_first);
        unstack(&mut others, &mut self.second, has_second);
        unstack(&mut others, last, has_last);
        left
    }
}
