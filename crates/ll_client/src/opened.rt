//! Opens a tree.

ghost use Rattle.std.specs.Prelude.{◌≡◌, ℕ, ◌+◌, ◌*◌, ◌<◌, ◌≤◌, None, length, IfOk};
ghost use Rattle.ll_rights.specs.declared.limits.TheConstants.{HISTORY_ENTRIES, TREE_CLIENTS, TREE_NODES};
ghost use Rattle.ll_rights.specs.Map.{empty, get};
ghost use Rattle.ll_journal.specs.Book.{new_book, slot_of};
ghost use Rattle.ll_client.specs.CallStart.{all_kept, kept_at};
ghost use Rattle.ll_client.specs.Entries.{AreAccounts};
ghost use Rattle.ll_client.specs.Hands.{held_first};

use crate::account::Account;
use crate::desk::Desk;
use crate::lent::Lent;
use crate::locked::Locked;
use crate::shape::Shape;
use crate::{Blank, Keeper, Tie};
use ll_journal::Journal;
use ll_node::{Held, Slot};
use ll_rights::Kind;
use ll_rights::limits::TREE_CLIENTS;
use ll_seq::{ROOT, Rules};
use std::alloc::{AllocError, Global};

/// A new tree without clients.
#[derive(Drop)]
pub struct Opened<N: Shape> {
    pub tie: Tie<N, Account>,
    pub desk: Desk<N>,
    /// The contents of each slot, in the order of their numbers.
    pub slots: Vec<Locked<N>>,
}

/// The contents of the slot of this number in a new tree. Takes no memory.
fn first_held(alloc: Global, number: u64) -> Held
    ensures { result ≡ held_first number }
{
    let (inode, kind) = if number == 0 {
        (ROOT, Kind::Dir)
    } else {
        (0, Kind::Reg)
    };
    Held {
        inode,
        node: Slot::new(alloc, kind),
    }
}

/// The slot with the first pass of its number.
fn new_slot<N: Shape>(
    tie: &Tie<N, Account>,
    keeper: &mut Keeper<N, Account>,
    journal: &Journal,
    number: u64,
    held: Held,
) -> Locked<N>
    requires all { AreAccounts journal.now keeper.old }
    requires free { get keeper.old (3 * number) ≡ None }
    requires there { number < length journal.now.inodes }
    requires few { length journal.now.inodes ≤ TREE_NODES + TREE_CLIENTS }
    requires account { held ≡ slot_of journal.now number }
    ensures all { AreAccounts journal.now keeper.new }
    ensures slot { result ≡ kept_at journal.now number }
    ensures others { (k : ℕ) → number < k → get keeper.new (3 * k) ≡ get keeper.old (3 * k) }
{
    let _ = journal;
    let pass = tie.give_out(keeper, 3 * number, &held);
    Locked { number, held, pass }
}

/// All slots of a new tree. Errors: memory ran out.
fn new_slots<N: Shape>(
    alloc: Global,
    tie: &Tie<N, Account>,
    keeper: &mut Keeper<N, Account>,
    journal: &Journal,
    count: usize,
) -> Result<Vec<Locked<N>>, AllocError>
    requires none { keeper.old ≡ empty }
    requires all { length journal.now.inodes ≡ count }
    requires few { length journal.now.inodes ≤ TREE_NODES + TREE_CLIENTS }
    requires first { (k : ℕ) → slot_of journal.now k ≡ held_first k }
    ensures all { AreAccounts journal.now keeper.new }
    ensures slots { IfOk result (λ slots. slots.items ≡ all_kept journal.now) }
{
    let mut slots = Vec::with_capacity(alloc, count)?;
    for place in 0..count {
        let number = place as u64;
        let held = first_held(alloc, number);
        slots.push(new_slot(tie, keeper, journal, number, held))?;
    }
    Ok(slots)
}

/// Opens a tree with only the root and no clients, for at most `nodes` nodes. Reserves room for `history` entries.
/// Errors: memory ran out.
pub fn open<N: Shape>(
    alloc: Global,
    blank: Blank<Account>,
    rules: Rules,
    nodes: usize,
    history: usize,
) -> Result<Opened<N>, AllocError>
    requires named { blank ≡ N.table }
    requires some { 1 ≤ nodes }
    requires most { nodes ≤ TREE_NODES }
    requires entry { 1 ≤ history }
    requires entries { history ≤ HISTORY_ENTRIES }
    requires slots { N.slots ≡ nodes + TREE_CLIENTS }
    requires limit { N.limit ≡ history }
    requires rules { N.rules ≡ rules }
    ensures desk { IfOk result (λ tree. tree.desk ≡ new_book rules nodes history) }
    ensures slots { IfOk result (λ tree. tree.slots.items ≡ all_kept tree.desk) }
    ensures count { IfOk result (λ tree. length tree.slots.items ≡ N.slots) }
{
    let lent = Lent::none(alloc)?;
    let (tie, mut keeper) = blank.named::<N>();
    let journal = Journal::new(alloc, rules, nodes, history)?;
    let slots = new_slots(alloc, &tie, &mut keeper, &journal, nodes + TREE_CLIENTS)?;
    let desk = Desk {
        journal,
        keeper,
        lent,
    };
    Ok(Opened { tie, desk, slots })
}
