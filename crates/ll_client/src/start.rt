//! The start of a client's call that is on no descriptor.

ghost use Rattle.std.specs.Prelude.{◌≡◌, ℕ, ◌≤◌, [], Some, length};
ghost use Rattle.ll_rights.specs.declared.limits.TheConstants.{TREE_CLIENTS};
ghost use Rattle.ll_journal.specs.Book.{Book, Spares};
ghost use Rattle.ll_journal.specs.Direct.{LeavesSlots, TakesMemory, Starts};
ghost use Rattle.ll_client.specs.Entries.{AreAccounts, starved_in, wants_entry};
ghost use Rattle.ll_client.specs.Hands.{OnlyWants, seen_started, starved_if, starves_started};

use crate::account::Account;
use crate::desk::Desk;
use crate::hand::{give_client, take_client};
use crate::rider::Rider;
use crate::shape::Shape;
use crate::want::note_want;
use crate::{Keeper, Pass, Tie};
use ll_journal::{Journal, Made, Start};
use ll_seq::Call;

/// The client's last known entry after a start. `entries` is the history's length.
fn seen_after_start(start: &Start, seen: u64, entries: u64) -> u64
    ensures { result ≡ seen_started start.now seen entries }
{
    match start {
        Start::Made(_) => entries,
        Start::Begun | Start::Back(_) => seen,
    }
}

/// Whether the call got NoMemory.
fn starves_at_start(start: &Start) -> bool
    ensures { result ≡ starves_started start.now }
{
    matches!(start, Start::Made(Made::NoMemory))
}

/// Starts the client's call in the journal. If memory runs out, adds the call to the client's wants.
fn start_call<N: Shape>(
    tie: &Tie<N, Account>,
    keeper: &mut Keeper<N, Account>,
    journal: &mut Journal,
    number: u64,
    call: Call,
    wants: &mut Pass<N, Account>,
) -> Start
    ghost asked: { Book × Call }
    requires before { asked.0 ≡ journal.old }
    requires call { asked.1 ≡ call }
    requires few { number ≤ TREE_CLIENTS }
    requires all { AreAccounts journal.old keeper.old }
    requires wants { wants.old ≡ Some (wants_entry number (starved_in wants.old)) }
    ensures starts { Starts journal.old number call result journal.new }
    ensures spares { Spares journal.old journal.new [] }
    ensures calm { result ≡ Start.Made Made.NoMemory → TakesMemory call }
    ensures rest { LeavesSlots call journal.old journal.new }
    ensures all { AreAccounts journal.old keeper.new }
    ensures only { OnlyWants keeper.old keeper.new }
    ensures wants { wants.new ≡ Some (wants_entry number (starved_in wants.new)) }
    ensures starved { starved_in wants.new
        ≡ starved_if (starves_started result) (starved_in wants.old) (length journal.old.world.history)
        (Some call) }
{
    let start = journal.start(number, call);
    let ran_out = starves_at_start(&start);
    note_want(tie, keeper, number, ran_out, wants);
    start
}

impl<N: Shape> Desk<N> {
    ghost use Rattle.ll_client.specs.CallStart.{SetsOut};

    /// Makes and answers the client's call if it is for the client alone; otherwise begins its walk. Gives the call
    /// back if it may not begin, or is on a descriptor that the client has. Only ruleset, confine and spawn take
    /// memory. For a child with a client of its own, use `spawn`.
    pub fn start(&mut self, tie: &Tie<N, Account>, me: &mut Rider<N>, call: Call) -> Start
        ensures starts { Starts self.old me.old.number call result self.new }
        ensures spares { Spares self.old self.new [] }
        ensures calm { result ≡ Start.Made Made.NoMemory → TakesMemory call }
        ensures rest { LeavesSlots call self.old self.new }
        ensures mine { SetsOut N.limit call me.old result me.new }
    {
        let (journal, keeper) = (&mut self.journal, &mut self.keeper);
        let (number, seen) = (me.number, me.seen);
        take_client(tie, keeper, journal, number, seen, &mut me.pass);
        let start = start_call(tie, keeper, journal, number, call, &mut me.wants);
        me.seen = seen_after_start(&start, seen, journal.entries().len() as u64);
        me.pass = give_client(tie, keeper, journal, number, me.seen);
        start
    }
}
