//! Ends a walk with its answer, or restarts it, with all slots lent whose locks it holds.

ghost use Rattle.std.specs.Prelude.{◌≡◌, ℕ, ◌<◌, ◌≤◌, ◌+◌, ◌++◌, ◌∷◌, [], Some, length, map};
ghost use Rattle.ll_rights.specs.declared.limits.TheConstants.{TREE_CLIENTS};
ghost use Rattle.ll_node.specs.InodeTable.{AreDistinct};
ghost use Rattle.ll_laws.specs.Sound.{IsSound};
ghost use Rattle.ll_journal.specs.Book.{Book, slot_of};
ghost use Rattle.ll_client.specs.CallStart.{kept_at, kept_by, kept_numbers, stacked};
ghost use Rattle.ll_client.specs.Gains.{Goes, IsLeft};
ghost use Rattle.ll_client.specs.Entries.{AreAccounts, starved_in, wants_entry};
ghost use Rattle.ll_client.specs.Hands.{AreLent, OnlyWants, seen_of, starved_after, starves_left};
ghost use Rattle.ll_client.specs.declared.lent.TheConstants.{LENT_SLOTS};

use crate::account::Account;
use crate::desk::Desk;
use crate::hand::{give_client, put_slot, take_client, take_slot};
use crate::left::{Leaving, Left, ended, restarted};
use crate::lent::Lent;
use crate::locked::{Locked, Places};
use crate::rider::Rider;
use crate::shape::Shape;
use crate::want::note_want;
use crate::{Keeper, Pass, Tie};
use ll_journal::Journal;
use ll_node::Held;

/// The client's last known entry after leaving. `entries` is the history's length.
fn seen_after(left: &Left, seen: u64, entries: u64) -> u64
    ensures { result ≡ seen_of left.now seen entries }
{
    match left {
        Left::Answered(_) | Left::HistoryFull | Left::NoMemory => entries,
        Left::NotNow | Left::Astray | Left::Again => seen,
    }
}

/// Whether the call got NoMemory.
fn starves(left: &Left) -> bool
    ensures { result ≡ starves_left left.now }
{
    matches!(left, Left::NoMemory)
}

/// A client's end of its walk, or restart.
#[derive(Clone, Copy)]
struct Exit {
    client: u64,
    leaving: Leaving,
}

/// Commits or restarts the walk in the journal. `lent` holds the contents of `slots`.
fn leave_lent(journal: &mut Journal, exit: Exit, slots: &[u64], lent: &mut [Held]) -> Left
    requires distinct { AreDistinct slots.now }
    requires lent { lent.old ≡ map (slot_of journal.old) slots.now }
    ensures left { IsLeft exit.leaving journal.old exit.client slots.now result journal.new }
    ensures lent { lent.new ≡ map (slot_of journal.new) slots.now }
{
    match exit.leaving {
        Leaving::Commit => ended(journal.commit(exit.client, slots, lent)),
        Leaving::Restart => restarted(journal.restart(exit.client, slots, lent)),
    }
}

/// Commits or restarts the walk with what is lent. If memory runs out, adds the call to the client's wants.
fn leave_with<N: Shape>(
    tie: &Tie<N, Account>,
    keeper: &mut Keeper<N, Account>,
    journal: &mut Journal,
    exit: Exit,
    lent: &mut Lent,
    wants: &mut Pass<N, Account>,
) -> Left
    ghost before: { Book }
    requires before { before ≡ journal.old }
    requires few { exit.client ≤ TREE_CLIENTS }
    requires all { AreAccounts journal.old keeper.old }
    requires wants { wants.old ≡ Some (wants_entry exit.client (starved_in wants.old)) }
    requires distinct { AreDistinct lent.old.numbers.items }
    requires lent { lent.old.held.items ≡ map (slot_of journal.old) lent.old.numbers.items }
    ensures left { IsLeft exit.leaving journal.old exit.client lent.old.numbers.items result journal.new }
    ensures numbers { lent.new.numbers.items ≡ lent.old.numbers.items }
    ensures lent { lent.new.held.items ≡ map (slot_of journal.new) lent.old.numbers.items }
    ensures all { AreAccounts journal.old keeper.new }
    ensures only { OnlyWants keeper.old keeper.new }
    ensures wants { wants.new ≡ Some (wants_entry exit.client (starved_in wants.new)) }
    ensures starved { starved_in wants.new ≡ starved_after result journal.old exit.client (starved_in wants.old) }
{
    let left = leave_lent(
        journal,
        exit,
        lent.numbers.as_slice(),
        lent.held.as_mut_slice(),
    );
    let ran_out = starves(&left);
    note_want(tie, keeper, exit.client, ran_out, wants);
    left
}

/// Leaves the walk with the slots that are lent.
fn leave_last<N: Shape>(
    tie: &Tie<N, Account>,
    keeper: &mut Keeper<N, Account>,
    journal: &mut Journal,
    exit: Exit,
    lent: &mut Lent,
    wants: &mut Pass<N, Account>,
) -> Left
    requires few { exit.client ≤ TREE_CLIENTS }
    requires sound { IsSound journal.old.world }
    requires within { length journal.old.world.history ≤ journal.old.world.limit }
    requires wants { wants.old ≡ Some (wants_entry exit.client (starved_in wants.old)) }
    requires lent { AreLent journal.old keeper.old exit.client lent.old.numbers.items lent.old.held.items }
    ensures left { IsLeft exit.leaving journal.old exit.client lent.old.numbers.items result journal.new }
    ensures numbers { lent.new.numbers.items ≡ lent.old.numbers.items }
    ensures lent { AreLent journal.new keeper.new exit.client lent.new.numbers.items lent.new.held.items }
    ensures wants { wants.new ≡ Some (wants_entry exit.client (starved_in wants.new)) }
    ensures starved { starved_in wants.new ≡ starved_after result journal.old exit.client (starved_in wants.old) }
{
    leave_with(tie, keeper, journal, exit, lent, wants)
}

/// Leaves the walk with the slots that are lent, this one, and the others that are held.
#[cycle(leave)]
fn leave_by<N: Shape>(
    tie: &Tie<N, Account>,
    keeper: &mut Keeper<N, Account>,
    journal: &mut Journal,
    exit: Exit,
    lent: &mut Lent,
    wants: &mut Pass<N, Account>,
    slot: &mut Locked<N>,
    others: &mut Places<'_, N>,
) -> Left
    requires few { exit.client ≤ TREE_CLIENTS }
    requires sound { IsSound journal.old.world }
    requires within { length journal.old.world.history ≤ journal.old.world.limit }
    requires wants { wants.old ≡ Some (wants_entry exit.client (starved_in wants.old)) }
    requires lent { AreLent journal.old keeper.old exit.client lent.old.numbers.items lent.old.held.items }
    requires room { length lent.old.numbers.items + length others.old.items < LENT_SLOTS }
    ensures left { IsLeft exit.leaving journal.old exit.client
        (lent.old.numbers.items ++ slot.old.number ∷ kept_numbers (stacked others.old.items)) result journal.new }
    ensures numbers { lent.new.numbers.items ≡ lent.old.numbers.items }
    ensures lent { AreLent journal.new keeper.new exit.client lent.new.numbers.items lent.new.held.items }
    ensures before { slot.old ≡ kept_at journal.old slot.old.number }
    ensures after { slot.new ≡ kept_at journal.new slot.old.number }
    ensures others_before { stacked others.old.items ≡ kept_by journal.old (stacked others.old.items) }
    ensures others_after { stacked others.new.items ≡ kept_by journal.new (stacked others.old.items) }
    ensures count { length others.new.items ≡ length others.old.items }
    ensures wants { wants.new ≡ Some (wants_entry exit.client (starved_in wants.new)) }
    ensures starved { starved_in wants.new ≡ starved_after result journal.old exit.client (starved_in wants.old) }
{
    let Locked { number, held, pass } = slot;
    let number = *number;
    take_slot(tie, keeper, journal, number, held, pass);
    lent.lend(number, held);
    let left = leave_among(tie, keeper, journal, exit, lent, wants, others);
    lent.give_back(held);
    put_slot(tie, keeper, journal, number, held, pass, exit.client);
    left
}

/// Leaves the walk with the slots that are lent, and the others that are held.
#[cycle(leave)]
fn leave_among<N: Shape>(
    tie: &Tie<N, Account>,
    keeper: &mut Keeper<N, Account>,
    journal: &mut Journal,
    exit: Exit,
    lent: &mut Lent,
    wants: &mut Pass<N, Account>,
    others: &mut Places<'_, N>,
) -> Left
    requires few { exit.client ≤ TREE_CLIENTS }
    requires sound { IsSound journal.old.world }
    requires within { length journal.old.world.history ≤ journal.old.world.limit }
    requires wants { wants.old ≡ Some (wants_entry exit.client (starved_in wants.old)) }
    requires lent { AreLent journal.old keeper.old exit.client lent.old.numbers.items lent.old.held.items }
    requires room { length lent.old.numbers.items + length others.old.items ≤ LENT_SLOTS }
    ensures left { IsLeft exit.leaving journal.old exit.client
        (lent.old.numbers.items ++ kept_numbers (stacked others.old.items)) result journal.new }
    ensures numbers { lent.new.numbers.items ≡ lent.old.numbers.items }
    ensures lent { AreLent journal.new keeper.new exit.client lent.new.numbers.items lent.new.held.items }
    ensures before { stacked others.old.items ≡ kept_by journal.old (stacked others.old.items) }
    ensures after { stacked others.new.items ≡ kept_by journal.new (stacked others.old.items) }
    ensures count { length others.new.items ≡ length others.old.items }
    ensures wants { wants.new ≡ Some (wants_entry exit.client (starved_in wants.new)) }
    ensures starved { starved_in wants.new ≡ starved_after result journal.old exit.client (starved_in wants.old) }
{
    let Some(place) = others.pop() else {
        return leave_last(tie, keeper, journal, exit, lent, wants);
    };
    let Some(mut slot) = place else {
        let left = leave_among(tie, keeper, journal, exit, lent, wants, others);
        others.push(None);
        return left;
    };
    let left = leave_by(tie, keeper, journal, exit, lent, wants, &mut slot, others);
    others.push(Some(slot));
    left
}

impl<N: Shape> Desk<N> {
    /// Commits or restarts the client's walk, with this slot lent, and the others that are held. Only calls that add
    /// something take memory.
    pub fn leave(
        &mut self,
        tie: &Tie<N, Account>,
        me: &mut Rider<N>,
        slot: &mut Locked<N>,
        others: &mut Places<'_, N>,
        leaving: Leaving,
    ) -> Left
        requires few { length others.old.items < LENT_SLOTS }
        ensures left { IsLeft leaving self.old me.old.number
            (slot.old.number ∷ kept_numbers (stacked others.old.items)) result self.new }
        ensures before { slot.old ∷ stacked others.old.items ≡ kept_by self.old (slot.old ∷ stacked others.old.items) }
        ensures after { slot.new ∷ stacked others.new.items ≡ kept_by self.new (slot.old ∷ stacked others.old.items) }
        ensures count { length others.new.items ≡ length others.old.items }
        ensures mine { Goes N.limit me.old result me.new }
    {
        let Desk {
            journal,
            keeper,
            lent,
        } = self;
        let (number, seen) = (me.number, me.seen);
        take_client(tie, keeper, journal, number, seen, &mut me.pass);
        lent.clear();
        let exit = Exit {
            client: number,
            leaving,
        };
        let left = leave_by(
            tie,
            keeper,
            journal,
            exit,
            lent,
            &mut me.wants,
            slot,
            others,
        );
        me.seen = seen_after(&left, seen, journal.entries().len() as u64);
        me.pass = give_client(tie, keeper, journal, number, me.seen);
        left
    }
}
