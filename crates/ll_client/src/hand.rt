//! Takes passes back from slots and clients, and gives them out again.

ghost use Rattle.std.specs.Prelude.{◌≡◌, ◌≢◌, ℕ, ◌<◌, ◌≤◌, ◌+◌, ◌*◌, Some, None, length, true};
ghost use Rattle.ll_rights.specs.declared.limits.TheConstants.{TREE_CLIENTS, TREE_NODES};
ghost use Rattle.ll_rights.specs.Map.{get, has};
ghost use Rattle.ll_laws.specs.World.{shown};
ghost use Rattle.ll_journal.specs.Book.{slot_of};
ghost use Rattle.ll_client.specs.Entries.{AreAccounts, client_entry, doing_in, doing_of, part_in, part_of, slot_entry};
ghost use Rattle.ll_client.specs.Hands.{ClientGoes, SlotComes, SlotGoes};

use crate::account::Account;
use crate::shape::Shape;
use crate::{Keeper, Pass, Tie};
use ll_journal::Journal;
use ll_node::Held;

/// What a client's account is built from.
#[derive(Drop)]
struct Known<'a> {
    number: u64,
    seen: u64,
    journal: &'a Journal,
}

/// Takes back the slot's pass.
pub(crate) fn take_slot<N: Shape>(
    tie: &Tie<N, Account>,
    keeper: &mut Keeper<N, Account>,
    journal: &Journal,
    number: u64,
    held: &Held,
    pass: &mut Pass<N, Account>,
)
    requires all { AreAccounts journal.now keeper.old }
    requires pass { pass.old ≡ Some (slot_entry number held.now) }
    ensures all { AreAccounts journal.now keeper.new }
    ensures there { number < length journal.now.inodes }
    ensures account { held.now ≡ slot_of journal.now number }
    ensures gone { SlotGoes number keeper.old keeper.new }
{
    let _ = journal;
    let _ = number;
    let _ = held;
    tie.take_back(keeper, pass);
}

/// Gives the slot's pass out again. The client's pass isn't out, before and after.
pub(crate) fn put_slot<N: Shape>(
    tie: &Tie<N, Account>,
    keeper: &mut Keeper<N, Account>,
    journal: &Journal,
    number: u64,
    held: &Held,
    pass: &mut Pass<N, Account>,
    client: u64,
)
    requires all { AreAccounts journal.now keeper.old }
    requires free { get keeper.old (3 * number) ≡ None }
    requires there { number < length journal.now.inodes }
    requires few { length journal.now.inodes ≤ TREE_NODES + TREE_CLIENTS }
    requires account { held.now ≡ slot_of journal.now number }
    ensures all { AreAccounts journal.now keeper.new }
    ensures pass { pass.new ≡ Some (slot_entry number held.now) }
    ensures others { SlotComes number client keeper.old keeper.new }
{
    let _ = journal;
    let _ = client;
    *pass = tie.give_out(keeper, 3 * number, held);
}

/// Takes back the client's pass.
pub(crate) fn take_client<N: Shape>(
    tie: &Tie<N, Account>,
    keeper: &mut Keeper<N, Account>,
    journal: &Journal,
    number: u64,
    seen: u64,
    pass: &mut Pass<N, Account>,
)
    requires all { AreAccounts journal.now keeper.old }
    requires pass { pass.old ≡ Some (client_entry number (part_in pass.old) seen (doing_in pass.old)) }
    ensures all { AreAccounts journal.now keeper.new }
    ensures there { has (shown journal.now.world).clients number ≡ true }
    ensures few { number ≤ TREE_CLIENTS }
    ensures part { part_in pass.old ≡ part_of journal.now.world number }
    ensures seen { seen ≤ length journal.now.world.history }
    ensures doing { doing_in pass.old ≡ doing_of journal.now.world number }
    ensures gone { ClientGoes number keeper.old keeper.new }
{
    let _ = journal;
    let _ = number;
    let _ = seen;
    tie.take_back(keeper, pass);
}

/// Gives out the client's pass, which shows its account as it is now.
pub(crate) fn give_client<N: Shape>(
    tie: &Tie<N, Account>,
    keeper: &mut Keeper<N, Account>,
    journal: &Journal,
    number: u64,
    seen: u64,
) -> Pass<N, Account>
    requires all { AreAccounts journal.now keeper.old }
    requires free { get keeper.old (3 * number + 1) ≡ None }
    requires there { has (shown journal.now.world).clients number ≡ true }
    requires few { number ≤ TREE_CLIENTS }
    requires seen { seen ≤ length journal.now.world.history }
    ensures all { AreAccounts journal.now keeper.new }
    ensures pass { result ≡ Some (client_entry number (part_of journal.now.world number) seen
        (doing_of journal.now.world number)) }
    ensures others { (c : ℕ) → c ≢ number → get keeper.new (3 * c + 1) ≡ get keeper.old (3 * c + 1) }
    ensures wants { get keeper.new (3 * number + 2) ≡ get keeper.old (3 * number + 2) }
{
    let known = Known {
        number,
        seen,
        journal,
    };
    tie.give_out(keeper, 3 * number + 1, &known)
}
