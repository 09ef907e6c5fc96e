//! The tree that threads share.

ghost use Rattle.std.specs.Prelude.{◌≡◌, ◌⊎◌, ℕ, ◌+◌, ◌<◌, ◌≤◌, ◌∷◌, [], List, None, false, OnOk, IfOk, IfErr, length};
ghost use Rattle.std.specs.Prelude.{map, max};
ghost use Rattle.ll_rights.specs.declared.limits.TheConstants.{TREE_CLIENTS};
ghost use Rattle.ll_seq.specs.declared.call.Call.TheVariants as calls;
ghost use Rattle.ll_seq.specs.declared.reply.Reply.TheVariants as replies;
ghost use Rattle.ll_seq.specs.History.{IsLegal, is_connect};
ghost use Rattle.ll_seq.specs.State.{start};
ghost use Rattle.ll_seq.specs.declared.reply.Entry.{Entry};
ghost use Rattle.ll_client.specs.Closed.{IsClosed};
ghost use Rattle.ll_client.specs.CallStart.{HasNoPlace, childless, knows_full};
ghost use Rattle.ll_client.specs.Entries.{knows, numbered};
ghost use Rattle.ll_client.specs.Gains.{Gains, Told};
ghost use Rattle.ll_client.specs.Replies.{success};
ghost use Rattle.ll_calls.specs.TreeLimits.{MayOpen};
ghost use Rattle.ll_calls.specs.Typed.{FitsMade};

use ll_client::{Account, Blank, Client, ReadsHistory, Shape};
use ll_journal::Made;
use ll_rights::Errno;
use ll_rights::limits::{HISTORY_ENTRIES, TREE_NODES};
use ll_seq::{Call, History, Rules};
use ll_walk::{Gate, Table};
use std::alloc::Global;
use std::sync::Wait;

/// A tree shared by threads. It is linearizable: each call gets the reply of a sequential tree that makes all clients'
/// calls one after the other, each client's in its own order.
#[derive(Drop)]
pub struct Tree<N: Shape, G: Gate<N>> {
    table: Table<N, G>,
}

impl<N: Shape, G: Gate<N>> Tree<N, G> {
    /// Opens a tree with only the root. `nodes` is the limit of live nodes, 1 to 4,096; `history` the limit of entries,
    /// 1 to 1,000,000, for which room is reserved. Non-blocking. Errors: EINVAL outside these limits; NoMemory.
    pub fn open(
        alloc: Global,
        blank: Blank<Account>,
        rules: Rules,
        nodes: usize,
        history: usize,
        gate: G,
    ) -> Result<Tree<N, G>, Errno>
        requires named { blank ≡ N.table }
        requires slots { N.slots ≡ nodes + TREE_CLIENTS }
        requires limit { N.limit ≡ history }
        requires rules { N.rules ≡ rules }
        ensures ok { OnOk result (MayOpen nodes history) }
        ensures err { IfErr result (λ errno. ((errno ≡ Errno.EINVAL) × ¬ MayOpen nodes history)
            ⊎ ((errno ≡ Errno.NoMemory) × MayOpen nodes history)) }
    {
        if nodes < 1 || nodes > TREE_NODES || history < 1 || history > HISTORY_ENTRIES {
            return Err(Errno::EINVAL);
        }
        match Table::open(alloc, blank, rules, nodes, history, gate) {
            Ok(table) => Ok(Tree { table }),
            Err(_) => Err(Errno::NoMemory),
        }
    }

    /// Adds a client. It knows of all entries up to its own. Errors: EMFILE if as many clients were made as a tree may
    /// have; HistoryFull; NoMemory.
    pub fn connect<R: Wait>(&self, rt: &R) -> Result<Client<N>, Errno>
        ensures client { IfOk result (λ client. client.rider
            ≡ knows client.rider.number (numbered client.rider.seen calls.Connect replies.Done ∷ []) []
            client.rider.seen None) }
        ensures some { IfOk result (λ client. 0 < client.rider.seen) }
        ensures errors { IfErr result HasNoPlace }
    {
        self.table.connect(rt)
    }

    /// Adds a client whose entry comes after every entry that `me` knows of. Errors: those of `connect`. If
    /// the history is full, `me` knows of all of it.
    pub fn connect_after<R: Wait>(&self, rt: &R, me: &mut Client<N>) -> Result<Client<N>, Errno>
        ensures client { IfOk result (λ client. client.rider
            ≡ knows client.rider.number (numbered client.rider.seen calls.Connect replies.Done ∷ []) []
            client.rider.seen None) }
        ensures after { IfOk result (λ client. me.old.rider.seen < client.rider.seen) }
        ensures errors { IfErr result HasNoPlace }
        ensures low { me.old.rider.seen ≤ me.new.rider.seen }
        ensures mine { me.new.rider ≡ knows_full N.limit result me.old.rider }
    {
        self.table.connect_after(rt, me)
    }

    /// Spawns a child of the client, under the same layers. The child has no entry yet, and knows of all entries up to
    /// the spawn. Errors: EMFILE if as many clients were made as a tree may have; HistoryFull; NoMemory.
    pub fn spawn<R: Wait>(&self, rt: &R, me: &mut Client<N>) -> Result<Client<N>, Errno>
        ensures child { IfOk result (λ child.
            Told calls.Spawn (replies.Spawned child.rider.number) me.old.rider me.new.rider
            × (child.rider ≡ knows child.rider.number [] [] me.new.rider.seen None)) }
        ensures alone { IfErr result (λ errno.
            Gains N.limit calls.Spawn me.old.rider (childless errno) me.new.rider) }
        ensures errors { IfErr result HasNoPlace }
    {
        self.table.spawn(rt, me)
    }

    /// Orders later calls of both clients after every entry that either knows of. Adds no entry, and takes no memory.
    pub fn meet<R: Wait>(&self, rt: &R, one: &mut Client<N>, other: &mut Client<N>)
        ensures one { one.new.rider
            ≡ record one.old.rider { seen = max one.old.rider.seen other.old.rider.seen } }
        ensures other { other.new.rider
            ≡ record other.old.rider { seen = max one.old.rider.seen other.old.rider.seen } }
    {
        self.table.meet(rt, one, other);
    }

    /// Orders the client's later calls after every entry made so far. Adds no entry, and takes no memory.
    pub fn catch_up<R: Wait>(&self, rt: &R, me: &mut Client<N>)
        ensures low { me.old.rider.seen ≤ me.new.rider.seen }
        ensures mine { me.new.rider ≡ record me.old.rider { seen = me.new.rider.seen } }
    {
        self.table.catch_up(rt, me);
    }

    /// Lets the reader read the history as it is at one point, with every entry that the client knows of. Adds no
    /// entry.
    pub fn read_history<R: Wait, V: ReadsHistory>(&self, rt: &R, me: &mut Client<N>, reader: &mut V)
        ensures mine { me.new.rider ≡ me.old.rider }
        ensures read { (history : List Entry) × (me.old.rider.seen ≤ length history)
            × V.reads reader.old history reader.new
            × ((room : ℕ) → N.slots ≡ room + TREE_CLIENTS → IsLegal (start N.rules room) history) }
    {
        self.table.read_history(rt, me, reader);
    }

    /// Returns the history if the list holds all clients of the tree. Errors: the tree and the list. Non-blocking, and
    /// takes no memory.
    pub fn close(self, clients: Vec<Client<N>>) -> Result<History, (Tree<N, G>, Vec<Client<N>>)>
        ensures closed { IfOk result (λ history. (nodes : ℕ) → N.slots ≡ nodes + TREE_CLIENTS
            → IsClosed N.rules nodes N.limit history.entries (map (λ c. c.rider) clients.items)) }
        ensures limit { IfOk result (λ history. history.limit ≡ N.limit) }
        ensures back { IfErr result (λ back. back.1.items ≡ clients.items) }
    {
        let Tree { table } = self;
        match table.close(clients) {
            Ok(history) => Ok(history),
            Err((table, clients)) => Err((Tree { table }, clients)),
        }
    }

    /// Makes the client's call and returns its result. Not for connect and spawn, which have functions of their own.
    #[tactic(auto, using(crate::proofs::AnswerTypes::gains_fit))]
    pub fn call<R: Wait>(&self, rt: &R, me: &mut Client<N>, call: Call) -> Made
        requires other { is_connect call ≡ false }
        // Not a spawn, which would succeed with a child.
        requires childless { success call (replies.Spawned 0) ≡ false }
        ensures gains { Gains N.limit call me.old.rider result me.new.rider }
        ensures fits { FitsMade (success call) result }
    {
        match self.table.call(rt, me, call) {
            Ok(made) => made,
            Err(_) => unreachable!(),
        }
    }
}
