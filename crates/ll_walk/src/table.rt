//! The locks of a tree.

ghost use Rattle.std.specs.Prelude.{◌≡◌, ℕ, ◌<◌, ◌≤◌, ◌+◌, IfOk, IfErr, IfSome, length, map, vec_len};
ghost use Rattle.ll_client.specs.Closed.{IsClosed};
ghost use Rattle.std.specs.Sync.Mutex.{mutex_guard_value};
ghost use Rattle.ll_client.specs.Entries.{Kept};
ghost use Rattle.ll_rights.specs.declared.limits.TheConstants.{HISTORY_ENTRIES, TREE_CLIENTS, TREE_NODES};

use crate::gate::Gate;
use crate::queue::Queue;
use crate::section::{DeskLock, DueGate, Section};
use ll_client::{Account, Blank, Client, Locked, Opened, Shape, Tie, close, open};
use ll_seq::{History, Rules};
use std::alloc::{AllocError, Global};
use std::sync::{Mutex, MutexGuard, Wait};

/// A tree shared by threads: one lock for each slot, one for the journal, and the move gate.
#[derive(Drop)]
pub struct Table<N: Shape, G: Gate<N>> {
    pub(crate) tie: Tie<N, Account>,
    pub(crate) slots: Vec<Mutex<Locked<N>>>,
    pub(crate) root: u64,
    pub(crate) desk: DeskLock<N>,
    pub(crate) moving: Mutex<()>,
    pub(crate) gate: DueGate<G>,
    pub(crate) queue: Queue,
    ghost all_slots: { vec_len slots ≡ N.slots },
    ghost root_there: { root < N.slots },
}

/// Puts each slot behind a lock. Errors: memory ran out.
fn locks<N: Shape>(
    alloc: Global,
    slots: Vec<Locked<N>>,
) -> Result<Vec<Mutex<Locked<N>>>, AllocError>
    ensures { IfOk result (λ locks. vec_len locks ≡ length slots.items) }
{
    let mut locks = Vec::with_capacity(alloc, slots.len())?;
    for slot in slots {
        locks.push(Mutex::new(slot))?;
    }
    Ok(locks)
}

impl<N: Shape, G: Gate<N>> Table<N, G> {
    /// Opens a tree with only the root and no clients, for at most `nodes` nodes. Reserves room for `history` entries.
    /// Non-blocking. Errors: memory ran out.
    pub fn open(
        alloc: Global,
        blank: Blank<Account>,
        rules: Rules,
        nodes: usize,
        history: usize,
        gate: G,
    ) -> Result<Table<N, G>, AllocError>
        requires named { blank ≡ N.table }
        requires some { 1 ≤ nodes }
        requires most { nodes ≤ TREE_NODES }
        requires entry { 1 ≤ history }
        requires entries { history ≤ HISTORY_ENTRIES }
        requires slots { N.slots ≡ nodes + TREE_CLIENTS }
        requires limit { N.limit ≡ history }
        requires rules { N.rules ≡ rules }
    {
        let Opened { tie, desk, slots } = open::<N>(alloc, blank, rules, nodes, history)?;
        desk.by_law();
        let root = desk.root_slot();
        Ok(Table {
            tie,
            slots: locks(alloc, slots)?,
            root,
            desk: DeskLock::new(desk),
            moving: Mutex::new(()),
            gate: DueGate::new(gate),
            queue: Queue::new(),
        })
    }

    /// Returns the history if the list holds all clients of the tree. Errors: the tree and the list. Non-blocking, and
    /// takes no memory.
    pub fn close(self, clients: Vec<Client<N>>) -> Result<History, (Table<N, G>, Vec<Client<N>>)>
        ensures closed { IfOk result (λ history. (nodes : ℕ) → N.slots ≡ nodes + TREE_CLIENTS
            → IsClosed N.rules nodes N.limit history.entries (map (λ c. c.rider) clients.items)) }
        ensures limit { IfOk result (λ history. history.limit ≡ N.limit) }
        ensures back { IfErr result (λ back. back.1.items ≡ clients.items) }
    {
        let Table {
            tie,
            slots,
            root,
            desk,
            moving,
            gate,
            queue,
        } = self;
        let desk = desk.into_desk();
        desk.by_law();
        match close(&tie, desk, clients) {
            Ok(history) => Ok(history),
            Err((desk, clients)) => {
                let table = Table {
                    tie,
                    slots,
                    root,
                    desk: DeskLock::new(desk),
                    moving,
                    gate,
                    queue,
                };
                Err((table, clients))
            }
        }
    }

    /// Locks the journal.
    #[inline(always)]
    pub fn section<R: Wait>(&self, rt: &R) -> Section<'_, N> {
        self.desk.section(rt, &self.queue)
    }

    /// Locks the slot of this number.
    #[inline(always)]
    pub fn locked<R: Wait>(&self, rt: &R, slot: u64) -> MutexGuard<'_, Locked<N>>
        requires { slot < N.slots }
        ensures { (mutex_guard_value {X = Kept} result).number ≡ slot }
    {
        // No type says that the lock at this index is that of the slot of this number. The number is checked, and
        // always matches.
        for _ in rt.forever() {
            let guard = self.queue.soon(rt, &self.slots[slot as usize]);
            if guard.number() == slot {
                return guard;
            }
        }
        unreachable!()
    }
}
