//! The journal's lock, and what is done while it is held.

mod direct;
mod due;
mod leave;

ghost use Rattle.std.specs.Prelude.{◌≡◌, ◌≢◌, ◌<◌, ◌≤◌, ◌+◌, ℕ, ◌∷◌, [], Some, IfSome, IfNone, length, max};
ghost use Rattle.ll_rights.specs.declared.limits.TheConstants.{TREE_CLIENTS};
ghost use Rattle.std.specs.Sync.Mutex.{mutex_guard_value};
ghost use Rattle.ll_journal.specs.Book.{inode_in};
ghost use Rattle.ll_journal.specs.InWay.{IsFreeFrom, IsInWay};
ghost use Rattle.ll_journal.specs.NextStep.{CanBeLent, ComesNext};
ghost use Rattle.ll_journal.specs.Stations.{Names};
ghost use Rattle.ll_journal.specs.Steps.{Does};
ghost use Rattle.ll_laws.specs.declared.step.Step.TheVariants.{Descend, Fork};
ghost use Rattle.ll_client.specs.CallStart.{place_after};
ghost use Rattle.ll_walk.specs.Sections.{IsReady, Shows};
ghost use Rattle.ll_seq.specs.declared.call.Call.{Call};
ghost use Rattle.ll_seq.specs.History.{IsLegal};
ghost use Rattle.ll_seq.specs.State.{root, start};
ghost use Rattle.ll_laws.specs.Walks.{AreApart, AreFew, AreValid, GateIsHeld};
ghost use Rattle.ll_journal.specs.SlotTree.{HoldTree, accounts_of};

use crate::queue::Queue;
pub use due::Due;
pub(crate) use due::DueGate;
use ll_client::{Account, Client, Descent, Desk, Locked, ReadsHistory, Rider, Shape, Tie};
use ll_journal::{Next, Onward, Progress};
use std::sync::{Mutex, MutexGuard, Wait};

/// The journal behind its lock.
#[derive(Drop)]
pub(crate) struct DeskLock<N: Shape> {
    desk: Mutex<Desk<N>>,
}

impl<N: Shape> DeskLock<N> {
    /// Puts the journal behind a lock.
    pub(crate) fn new(desk: Desk<N>) -> DeskLock<N> {
        DeskLock {
            desk: Mutex::new(desk),
        }
    }

    /// Returns what the lock guards.
    pub(crate) fn into_desk(self) -> Desk<N> {
        let DeskLock { desk } = self;
        desk.into_inner()
    }

    /// Takes the lock.
    #[inline(always)]
    pub(crate) fn section<R: Wait>(&self, rt: &R, queue: &Queue) -> Section<'_, N> {
        Section {
            desk: queue.soon(rt, &self.desk),
        }
    }
}

/// The locked journal. Each method that consumes it does one thing, and hands the lock back spent. No other lock is
/// waited for while it is held.
pub struct Section<'a, N: Shape> {
    desk: MutexGuard<'a, Desk<N>>,
}

/// The journal's lock after the one thing was done. It can only be released.
#[derive(Drop)]
pub struct Spent<'a, N: Shape> {
    desk: MutexGuard<'a, Desk<N>>,
}

/// A descent of this client's walk, made or not, and the journal's lock, spent.
pub struct Landing<'a, N: Shape> {
    desk: MutexGuard<'a, Desk<N>>,
    client: u64,
    progress: Progress,
}

impl<'a, N: Shape> Landing<'a, N> {
    /// Finds the walk's next step from this slot, if its current leg is there.
    pub fn next_here(
        &mut self,
        tie: &Tie<N, Account>,
        me: &mut Rider<N>,
        here: &mut Locked<N>,
    ) -> Next
        ensures kept { mutex_guard_value self.new.desk ≡ mutex_guard_value self.old.desk }
        ensures client { self.new.client ≡ self.old.client }
        ensures progress { self.new.progress ≡ self.old.progress }
        ensures here { here.new ≡ here.old }
        ensures ready { IsReady N.slots me.new.doing here.new result }
        ensures comes { ComesNext (mutex_guard_value self.old.desk) me.old.number here.old.number result }
        ensures mine { me.new ≡ me.old }
    {
        next_at(&mut self.desk, tie, me, here)
    }

    /// Releases the lock. Returns the call of the gate that a descent owes. None if there was no descent.
    pub fn released(self) -> Option<Due<'a>>
        ensures due { IfSome result (λ due. (self.entry.progress ≡ Progress.Stands due.inode)
            × (due.client ≡ self.entry.client)) }
        ensures none { IfNone result ((inode : ℕ) → self.entry.progress ≢ Progress.Stands inode) }
    {
        let Landing {
            desk,
            client,
            progress,
        } = self;
        drop(desk);
        match progress {
            Progress::Stands(inode) => Some(Due::new(client, inode)),
            _ => None,
        }
    }
}

/// Finds the walk's next step, given its current leg's slot.
#[tactic(auto, using(crate::proofs::Looks::is_ready))]
#[inline(always)]
fn next_at<N: Shape>(
    desk: &mut Desk<N>,
    tie: &Tie<N, Account>,
    me: &mut Rider<N>,
    here: &mut Locked<N>,
) -> Next
    ensures desk { desk.new ≡ desk.old }
    ensures me { me.new ≡ me.old }
    ensures here { here.new ≡ here.old }
    ensures ready { IsReady N.slots me.old.doing here.old result }
    ensures comes { ComesNext desk.old me.old.number here.old.number result }
{
    desk.by_law();
    desk.next_step(tie, me, here)
}

impl<'a, N: Shape> Section<'a, N> {
    /// Makes the walk's first descent, to the root, and finds its next step.
    pub fn enter(
        self,
        tie: &Tie<N, Account>,
        me: &mut Rider<N>,
        root: &mut Locked<N>,
    ) -> (Landing<'a, N>, Next)
        ensures step { Does (mutex_guard_value self.entry.desk) (Descend me.old.number) result.0.progress
            (mutex_guard_value result.0.desk) }
        ensures comes { ComesNext (mutex_guard_value result.0.desk) me.old.number root.old.number result.1 }
        ensures shows { Shows (mutex_guard_value self.entry.desk) (mutex_guard_value result.0.desk) (root.old ∷ [])
            (root.new ∷ []) }
        ensures stands { (inode : ℕ) → result.0.progress ≡ Progress.Stands inode
            → (root.new.held.inode ≡ inode) × (root.new.held.node.mark ≡ Some me.old.number) }
        ensures client { result.0.client ≡ me.old.number }
        ensures ready { IsReady N.slots me.new.doing root.new result.1 }
        ensures mine { me.new ≡ me.old }
    {
        let Section { mut desk } = self;
        let client = me.number();
        let Descent { progress, next } = desk.enter(tie, me, root);
        desk.by_law();
        let landing = Landing {
            desk,
            client,
            progress,
        };
        (landing, next)
    }

    /// Makes a descent, and finds the next step. If there is a hint, its name names its inode.
    pub fn descend(
        self,
        tie: &Tie<N, Account>,
        me: &mut Rider<N>,
        from: &mut Locked<N>,
        to: &mut Locked<N>,
        hint: Option<Onward>,
    ) -> (Landing<'a, N>, Next)
        requires { IfSome hint (λ on. (call : Call) → me.old.doing ≡ Some call
            → Names call from.old.held on.name on.inode) }
        ensures step { Does (mutex_guard_value self.entry.desk) (Descend me.old.number) result.0.progress
            (mutex_guard_value result.0.desk) }
        ensures comes { ComesNext (mutex_guard_value result.0.desk) me.old.number
            (place_after result.0.progress from.old to.old).number result.1 }
        ensures shows { Shows (mutex_guard_value self.entry.desk) (mutex_guard_value result.0.desk)
            (from.old ∷ to.old ∷ []) (from.new ∷ to.new ∷ []) }
        ensures stands { (inode : ℕ) → result.0.progress ≡ Progress.Stands inode
            → (to.new.held.inode ≡ inode) × (to.new.held.node.mark ≡ Some me.old.number) }
        ensures client { result.0.client ≡ me.old.number }
        ensures ready { IsReady N.slots me.new.doing (place_after result.0.progress from.new to.new) result.1 }
        ensures mine { me.new ≡ me.old }
    {
        let Section { mut desk } = self;
        let client = me.number();
        let Descent { progress, next } = desk.descend(tie, me, from, to, hint);
        desk.by_law();
        let landing = Landing {
            desk,
            client,
            progress,
        };
        (landing, next)
    }

    /// Splits the client's walk into one leg for each path, and finds its next step.
    pub fn fork(
        self,
        tie: &Tie<N, Account>,
        me: &mut Rider<N>,
        here: &mut Locked<N>,
    ) -> (Progress, Next, Spent<'a, N>)
        ensures step { Does (mutex_guard_value self.entry.desk) (Fork me.old.number) result.0
            (mutex_guard_value result.2.desk) }
        ensures comes { ComesNext (mutex_guard_value result.2.desk) me.old.number here.old.number result.1 }
        ensures shows { Shows (mutex_guard_value self.entry.desk) (mutex_guard_value result.2.desk) [] [] }
        ensures here { here.new ≡ here.old }
        ensures ready { IsReady N.slots me.new.doing here.new result.1 }
        ensures mine { me.new ≡ me.old }
    {
        let Section { mut desk } = self;
        let progress = desk.fork(tie, me);
        let next = next_at(&mut desk, tie, me, here);
        (progress, next, Spent { desk })
    }

    /// Finds the walk's next step, from the slot where it is.
    pub fn next_here(
        self,
        tie: &Tie<N, Account>,
        me: &mut Rider<N>,
        here: &mut Locked<N>,
    ) -> (Next, Spent<'a, N>)
        ensures kept { mutex_guard_value result.1.desk ≡ mutex_guard_value self.entry.desk }
        ensures here { here.new ≡ here.old }
        ensures ready { IsReady N.slots me.new.doing here.new result.0 }
        ensures comes { ComesNext (mutex_guard_value self.entry.desk) me.old.number here.old.number result.0 }
        ensures mine { me.new ≡ me.old }
    {
        let Section { mut desk } = self;
        let next = next_at(&mut desk, tie, me, here);
        (next, Spent { desk })
    }

    /// For a walk at its ends: returns the slot of a node under a last name that another client's walk has marked,
    /// which delays this one's answer. Looks in the directory of this slot.
    pub fn slot_in_way(
        self,
        tie: &Tie<N, Account>,
        me: &Rider<N>,
        here: &mut Locked<N>,
    ) -> (Option<u64>, Spent<'a, N>)
        ensures kept { mutex_guard_value result.1.desk ≡ mutex_guard_value self.entry.desk }
        ensures here { here.new ≡ here.old }
        ensures way { IfSome result.0 (IsInWay (mutex_guard_value self.entry.desk) me.now.number) }
        ensures there { IfSome result.0 (λ way. way < N.slots) }
        ensures none { IfNone result.0
            (IsFreeFrom (mutex_guard_value self.entry.desk) me.now.number here.old.number) }
    {
        let Section { mut desk } = self;
        desk.by_law();
        let way = desk.slot_in_way(tie, me, here);
        (way, Spent { desk })
    }

    /// Each of the two now knows of every entry that either knew of. Adds no entry.
    pub fn meet(
        self,
        tie: &Tie<N, Account>,
        one: &mut Client<N>,
        other: &mut Client<N>,
    ) -> Spent<'a, N>
        ensures kept { mutex_guard_value result.desk ≡ mutex_guard_value self.entry.desk }
        ensures one { one.new.rider
            ≡ record one.old.rider { seen = max one.old.rider.seen other.old.rider.seen } }
        ensures other { other.new.rider
            ≡ record other.old.rider { seen = max one.old.rider.seen other.old.rider.seen } }
    {
        let Section { mut desk } = self;
        desk.meet(tie, one, other);
        Spent { desk }
    }

    /// The client now knows of all entries made so far. Adds no entry.
    pub fn catch_up(self, tie: &Tie<N, Account>, me: &mut Client<N>) -> Spent<'a, N>
        ensures kept { mutex_guard_value result.desk ≡ mutex_guard_value self.entry.desk }
        ensures low { me.old.rider.seen ≤ me.new.rider.seen }
        ensures mine { me.new.rider
            ≡ record me.old.rider { seen = length (mutex_guard_value self.entry.desk).world.history } }
    {
        let Section { mut desk } = self;
        desk.catch_up(tie, me);
        Spent { desk }
    }

    /// Lets the reader read the history. It holds every entry that the client knows of. Nothing changes.
    pub fn read_history<V: ReadsHistory>(
        self,
        tie: &Tie<N, Account>,
        me: &mut Client<N>,
        reader: &mut V,
    ) -> Spent<'a, N>
        ensures kept { mutex_guard_value result.desk ≡ mutex_guard_value self.entry.desk }
        ensures mine { me.new.rider ≡ me.old.rider }
        ensures known { me.old.rider.seen ≤ length (mutex_guard_value self.entry.desk).world.history }
        ensures read { V.reads reader.old (mutex_guard_value self.entry.desk).world.history reader.new }
        ensures legal { (room : ℕ) → N.slots ≡ room + TREE_CLIENTS
            → IsLegal (start N.rules room) (mutex_guard_value self.entry.desk).world.history }
    {
        let Section { mut desk } = self;
        desk.by_law();
        desk.read_history(tie, me, reader);
        Spent { desk }
    }

    /// Returns the slot of the root.
    pub fn root_slot(self) -> (u64, Spent<'a, N>)
        ensures kept { mutex_guard_value result.1.desk ≡ mutex_guard_value self.entry.desk }
        ensures root { inode_in (mutex_guard_value self.entry.desk) result.0 ≡ root }
        ensures within { result.0 < N.slots }
    {
        let Section { desk } = self;
        desk.by_law();
        let slot = desk.root_slot();
        (slot, Spent { desk })
    }

    /// Does nothing when it runs. Its contract: what holds of the tree behind the locks, after any steps.
    pub fn by_law(&self)
        ensures legal { IsLegal (start (mutex_guard_value self.now.desk).world.rules
            (mutex_guard_value self.now.desk).world.room) (mutex_guard_value self.now.desk).world.history }
        ensures valid { AreValid (mutex_guard_value self.now.desk).world }
        ensures apart { AreApart (mutex_guard_value self.now.desk).world }
        ensures few { AreFew (mutex_guard_value self.now.desk).world }
        ensures gate { GateIsHeld (mutex_guard_value self.now.desk).world }
        ensures tree { HoldTree (accounts_of (mutex_guard_value self.now.desk))
            (mutex_guard_value self.now.desk).world }
    {
        self.desk.by_law();
    }
}
