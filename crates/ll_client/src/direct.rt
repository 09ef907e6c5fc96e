//! A client's calls that don't walk.

ghost use Rattle.std.specs.Prelude.{◌≡◌, ◌≢◌, ℕ, ◌≤◌, [], ◌∷◌, Some, Ok, length, IfOk, IfErr, OnErr};
ghost use Rattle.ll_rights.specs.declared.limits.TheConstants.{TREE_CLIENTS};
ghost use Rattle.ll_journal.specs.Book.{Book, Spares, slot_of};
ghost use Rattle.ll_journal.specs.Direct.{Answers, ComesBack, LeavesSlot, LeavesSlots, TakesMemory};
ghost use Rattle.ll_laws.specs.World.{NotNow, advance};
ghost use Rattle.ll_laws.specs.declared.step.Step.TheVariants.{ClientStep, FdCommit};
ghost use Rattle.ll_client.specs.Entries.{AreAccounts, starved_in, wants_entry};
ghost use Rattle.ll_client.specs.Hands.{OnlyWants, seen_made, starved_if, starves_made};

use crate::account::Account;
use crate::desk::Desk;
use crate::hand::{give_client, put_slot, take_client, take_slot};
use crate::locked::Locked;
use crate::rider::Rider;
use crate::shape::Shape;
use crate::want::note_want;
use crate::{Keeper, Pass, Tie};
use ll_journal::{Journal, Made, Unmade};
use ll_node::Held;
use ll_seq::Call;

/// The client's last known entry after a call that doesn't walk. `entries` is the history's length.
pub(crate) fn seen_made<E>(made: &Result<Made, E>, seen: u64, entries: u64) -> u64
    ensures { result ≡ seen_made made.now seen entries }
{
    match made {
        Ok(_) => entries,
        Err(_) => seen,
    }
}

/// Whether the call got NoMemory.
fn starves<E>(made: &Result<Made, E>) -> bool
    ensures { result ≡ starves_made made.now }
{
    matches!(made, Ok(Made::NoMemory))
}

/// Makes the client's call for itself alone in the journal. If memory runs out, adds the call to the client's wants.
pub(crate) fn step_alone<N: Shape>(
    tie: &Tie<N, Account>,
    keeper: &mut Keeper<N, Account>,
    journal: &mut Journal,
    number: u64,
    call: Call,
    wants: &mut Pass<N, Account>,
) -> Result<Made, Call>
    ghost asked: { Book × Call }
    requires before { asked.0 ≡ journal.old }
    requires call { asked.1 ≡ call }
    requires few { number ≤ TREE_CLIENTS }
    requires all { AreAccounts journal.old keeper.old }
    requires wants { wants.old ≡ Some (wants_entry number (starved_in wants.old)) }
    ensures does { IfOk result (λ answer. Answers journal.old (ClientStep number call) answer journal.new) }
    ensures not_now { OnErr result
        (advance journal.old.world (ClientStep number call) ≡ (NotNow, journal.old.world)) }
    ensures back { IfErr result (λ back. back ≡ call) }
    ensures same { OnErr result (journal.new ≡ journal.old) }
    ensures spares { Spares journal.old journal.new [] }
    ensures calm { result ≡ Ok Made.NoMemory → TakesMemory call }
    ensures rest { LeavesSlots call journal.old journal.new }
    ensures all { AreAccounts journal.old keeper.new }
    ensures only { OnlyWants keeper.old keeper.new }
    ensures wants { wants.new ≡ Some (wants_entry number (starved_in wants.new)) }
    ensures starved { starved_in wants.new
        ≡ starved_if (starves_made result) (starved_in wants.old) (length journal.old.world.history)
        (Some call) }
{
    let made = journal.client_step(number, call);
    let ran_out = starves(&made);
    note_want(tie, keeper, number, ran_out, wants);
    made
}

/// Makes the client's call on a descriptor in the journal, given the slot of its file. If memory runs out, adds the
/// call to the client's wants.
fn step_on_file<N: Shape>(
    tie: &Tie<N, Account>,
    keeper: &mut Keeper<N, Account>,
    journal: &mut Journal,
    number: u64,
    call: Call,
    slot: u64,
    held: &mut Held,
    wants: &mut Pass<N, Account>,
) -> Result<Made, Unmade>
    ghost asked: { Book × Call }
    requires before { asked.0 ≡ journal.old }
    requires call { asked.1 ≡ call }
    requires few { number ≤ TREE_CLIENTS }
    requires all { AreAccounts journal.old keeper.old }
    requires wants { wants.old ≡ Some (wants_entry number (starved_in wants.old)) }
    requires held { held.old ≡ slot_of journal.old slot }
    ensures does { IfOk result (λ answer. Answers journal.old (FdCommit number call) answer journal.new) }
    ensures back { IfErr result (ComesBack journal.old number call slot) }
    ensures same { OnErr result ((journal.new ≡ journal.old) × (held.new ≡ held.old)) }
    ensures lent { held.new ≡ slot_of journal.new slot }
    ensures spares { Spares journal.old journal.new (slot ∷ []) }
    ensures calm { result ≡ Ok Made.NoMemory → (number : ℕ) → call ≢ Call.Close number }
    ensures rest { LeavesSlot call slot journal.old journal.new }
    ensures all { AreAccounts journal.old keeper.new }
    ensures only { OnlyWants keeper.old keeper.new }
    ensures wants { wants.new ≡ Some (wants_entry number (starved_in wants.new)) }
    ensures starved { starved_in wants.new
        ≡ starved_if (starves_made result) (starved_in wants.old) (length journal.old.world.history)
        (Some call) }
{
    let made = journal.fd_commit(number, call, slot, held);
    let ran_out = starves(&made);
    note_want(tie, keeper, number, ran_out, wants);
    made
}

impl<N: Shape> Desk<N> {
    ghost use Rattle.ll_client.specs.Gains.{Gains};

    /// Makes and answers a call for the client alone. Errors: the call, if it isn't one, or if the client has a walk
    /// under way. Only ruleset, confine and spawn take memory. For a child with a client of its own, use `spawn`.
    pub fn client_step(
        &mut self,
        tie: &Tie<N, Account>,
        me: &mut Rider<N>,
        call: Call,
    ) -> Result<Made, Call>
        ensures does { IfOk result (λ answer. Answers self.old (ClientStep me.old.number call) answer self.new) }
        ensures not_now { OnErr result
            (advance self.old.world (ClientStep me.old.number call) ≡ (NotNow, self.old.world)) }
        ensures back { IfErr result (λ back. back ≡ call) }
        ensures same { OnErr result (self.new ≡ self.old) }
        ensures spares { Spares self.old self.new [] }
        ensures calm { result ≡ Ok Made.NoMemory → TakesMemory call }
        ensures rest { LeavesSlots call self.old self.new }
        ensures mine { IfOk result (λ answer. Gains N.limit call me.old answer me.new) }
        ensures still { OnErr result (me.new ≡ me.old) }
    {
        let (journal, keeper) = (&mut self.journal, &mut self.keeper);
        let (number, seen) = (me.number, me.seen);
        take_client(tie, keeper, journal, number, seen, &mut me.pass);
        let made = step_alone(tie, keeper, journal, number, call, &mut me.wants);
        me.seen = seen_made(&made, seen, journal.entries().len() as u64);
        me.pass = give_client(tie, keeper, journal, number, me.seen);
        made
    }

    /// Makes and answers the client's call on a descriptor, given the slot of its file. Errors: those of the journal's
    /// `fd_commit`. Reading and growing a file take memory; closing takes none.
    pub fn fd_commit(
        &mut self,
        tie: &Tie<N, Account>,
        me: &mut Rider<N>,
        call: Call,
        file: &mut Locked<N>,
    ) -> Result<Made, Unmade>
        ensures does { IfOk result (λ answer. Answers self.old (FdCommit me.old.number call) answer self.new) }
        ensures back { IfErr result (ComesBack self.old me.old.number call file.old.number) }
        ensures same { OnErr result (self.new ≡ self.old) }
        ensures before { file.old.held ≡ slot_of self.old file.old.number }
        ensures after { file.new ≡ record file.old { held = slot_of self.new file.old.number } }
        ensures spares { Spares self.old self.new (file.old.number ∷ []) }
        ensures calm { result ≡ Ok Made.NoMemory → (number : ℕ) → call ≢ Call.Close number }
        ensures rest { LeavesSlot call file.old.number self.old self.new }
        ensures mine { IfOk result (λ answer. Gains N.limit call me.old answer me.new) }
        ensures still { OnErr result (me.new ≡ me.old) }
    {
        let (journal, keeper) = (&mut self.journal, &mut self.keeper);
        let (client, seen) = (me.number, me.seen);
        let Locked { number, held, pass } = file;
        take_slot(tie, keeper, journal, *number, held, pass);
        take_client(tie, keeper, journal, client, seen, &mut me.pass);
        let wants = &mut me.wants;
        let made = step_on_file(tie, keeper, journal, client, call, *number, held, wants);
        me.seen = seen_made(&made, seen, journal.entries().len() as u64);
        put_slot(tie, keeper, journal, *number, held, pass, client);
        me.pass = give_client(tie, keeper, journal, client, me.seen);
        made
    }
}
