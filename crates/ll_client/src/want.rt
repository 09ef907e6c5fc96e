//! A client's wants: its calls that got NoMemory.

ghost use Rattle.std.specs.Prelude.{◌≡◌, ◌≢◌, ℕ, ◌≤◌, ◌+◌, ◌*◌, [], Some, None, true, if◌then◌else◌, List};
ghost use Rattle.ll_rights.specs.declared.limits.TheConstants.{TREE_CLIENTS};
ghost use Rattle.ll_rights.specs.Map.{get, has, remove};
ghost use Rattle.ll_laws.specs.World.{shown};
ghost use Rattle.ll_journal.specs.Book.{Book};
ghost use Rattle.ll_client.specs.declared.account.Starved.{Starved};
ghost use Rattle.ll_client.specs.Entries.{AreAccounts, AreStarved, starved_in, wants_entry};
ghost use Rattle.ll_client.specs.Hands.{OnlyWants};

use crate::account::Account;
use crate::shape::Shape;
use crate::{Keeper, Pass, Tie};
use ll_journal::Journal;

/// Gives out the first pass of a client's wants, which shows no call.
pub(crate) fn give_wants<N: Shape>(
    tie: &Tie<N, Account>,
    keeper: &mut Keeper<N, Account>,
    journal: &Journal,
    number: u64,
) -> Pass<N, Account>
    requires all { AreAccounts journal.now keeper.old }
    requires free { get keeper.old (3 * number + 2) ≡ None }
    requires there { has (shown journal.now.world).clients number ≡ true }
    requires few { number ≤ TREE_CLIENTS }
    ensures all { AreAccounts journal.now keeper.new }
    ensures pass { result ≡ Some (wants_entry number []) }
    ensures only { OnlyWants keeper.old keeper.new }
{
    let _ = journal;
    tie.give_out(keeper, 3 * number + 2, &())
}

/// Takes back the pass of a client's wants, without any law of the journal about them.
fn take_pass<N: Shape>(
    tie: &Tie<N, Account>,
    keeper: &mut Keeper<N, Account>,
    number: u64,
    wants: &mut Pass<N, Account>,
)
    requires wants { wants.old ≡ Some (wants_entry number (starved_in wants.old)) }
    ensures was { get keeper.old (3 * number + 2) ≡ Some (Account.Wants (starved_in wants.old)) }
    ensures gone { keeper.new ≡ remove keeper.old (3 * number + 2) }
    ensures free { get keeper.new (3 * number + 2) ≡ None }
{
    let _ = number;
    tie.take_back(keeper, wants);
}

/// Takes back the pass of a client's wants.
pub(crate) fn take_wants<N: Shape>(
    tie: &Tie<N, Account>,
    keeper: &mut Keeper<N, Account>,
    journal: &Journal,
    number: u64,
    wants: &mut Pass<N, Account>,
)
    requires all { AreAccounts journal.now keeper.old }
    requires wants { wants.old ≡ Some (wants_entry number (starved_in wants.old)) }
    ensures all { AreAccounts journal.now keeper.new }
    ensures starved { AreStarved journal.now.world number (starved_in wants.old) }
    ensures only { OnlyWants keeper.old keeper.new }
{
    let _ = journal;
    take_pass(tie, keeper, number, wants);
}

/// Sets the client's wants if memory ran out.
pub(crate) fn note_want<N: Shape>(
    tie: &Tie<N, Account>,
    keeper: &mut Keeper<N, Account>,
    number: u64,
    ran_out: bool,
    wants: &mut Pass<N, Account>,
)
    ghost later: { Book × List Starved }
    requires few { number ≤ TREE_CLIENTS }
    requires all { AreAccounts later.0 keeper.old }
    requires wants { wants.old ≡ Some (wants_entry number (starved_in wants.old)) }
    requires are { ran_out ≡ true → AreStarved later.0.world number (starved_in wants.old)
        → AreStarved later.0.world number later.1 }
    ensures all { AreAccounts later.0 keeper.new }
    ensures only { OnlyWants keeper.old keeper.new }
    ensures wants { wants.new ≡ Some (wants_entry number (starved_in wants.new)) }
    ensures starved { starved_in wants.new ≡ (if ran_out then later.1 else starved_in wants.old) }
{
    if ran_out {
        take_pass(tie, keeper, number, wants);
        *wants = tie.give_out(keeper, 3 * number + 2, &());
    }
}
