//! A plain tree that executes the definition of each call, one call at a time.
#![tactic(auto)]

mod descriptors;
mod enact;
mod numbers;
mod paths;
mod reach;
mod resolve;
mod rulesets;
mod tables;
mod walk;
mod writes;

ghost use Rattle.std.specs.Prelude.{◌≡◌, ◌≢◌, ◌<◌, ◌≤◌, ◌+◌, ◌-◌, ◌^◌, ℕ, true, false, not, IfOk};
ghost use Rattle.ll_rights.specs.Map.{has};
ghost use Rattle.ll_seq.specs.History.{is_connect};
ghost use Rattle.ll_seq.specs.State.{State, start};
ghost use Rattle.ll_seq.specs.Step.{step, IsAnswer};
ghost use Rattle.ll_seq.specs.declared.reply.Reply.{Reply};
ghost use Rattle.ll_seq.specs.Memory.{MayStarve};
ghost use Rattle.ll_plain.specs.Outcomes.{ComesBy};
ghost use Rattle.ll_plain.specs.Refusal.{is_refusal};

use ll_rights::{Errno, Kind};
use ll_seq::{Call, ClientRecord, Content, Dentries, Fact, Node, NumberMap, ROOT, Reply, Rules};
use std::alloc::{AllocError, Global};
use std::marker::Model;

/// The tree as its definition reads: sorted tables, every path walked from the root, and the counts of each node.
/// Contracts see the state.
#[derive(Drop)]
pub struct Plain {
    entries: Dentries,
    nodes: NumberMap<Node>,
    facts: NumberMap<Fact>,
    next: u64,
    room: usize,
    rules: Rules,
    clients: NumberMap<ClientRecord>,
    alloc: Global,
}

impl Model for Plain {
    ghost use Rattle.ll_seq.specs.State.{State};
    ghost use Rattle.ll_seq.specs.StateCodes.{coded_state};
    ghost use Rattle.ll_plain.specs.Tables.{IsTied};

    ghost Value = { State };

    ghost coded = { coded_state };

    ghost view = { λ tree.
        record {
          entries = tree.entries;
          nodes = tree.nodes;
          next = tree.next;
          room = tree.room;
          rules = tree.rules;
          clients = tree.clients;
        } };

    ghost invariant = { λ tree. IsTied
        (record {
          entries = tree.entries;
          nodes = tree.nodes;
          next = tree.next;
          room = tree.room;
          rules = tree.rules;
          clients = tree.clients;
        }) tree.facts };
}

impl Plain {
    /// Returns a tree with only the root and no clients, for at most `nodes` nodes. Errors: memory ran out.
    pub fn new(alloc: Global, rules: Rules, nodes: usize) -> Result<Plain, AllocError>
        requires some { 1 ≤ nodes }
        requires most { nodes ≤ 4096 }
        ensures { IfOk result (λ tree. tree ≡ start rules nodes) }
    {
        let root = Node {
            kind: Kind::Dir,
            bytes: Content::empty(alloc),
        };
        let mut table = NumberMap::new(alloc);
        table.insert(ROOT, root)?;
        Ok(Plain {
            entries: Dentries::new(alloc),
            nodes: table,
            facts: NumberMap::of_root(alloc)?,
            next: ROOT + 1,
            room: nodes,
            rules,
            clients: NumberMap::new(alloc),
            alloc,
        })
    }

    /// Makes the client's call. Either the reply and the new state are those of one step; or the reply is NoMemory, and
    /// nothing has changed. `fresh` is the number for a spawned client. No client may have it.
    pub fn apply(&mut self, client: u64, call: &Call, fresh: u64) -> Reply
        requires caller { has self.old.clients client ≡ not (is_connect call.now) }
        requires fresh { call.now ≡ Call.Spawn → has self.old.clients fresh ≡ false }
        requires next { self.old.next < 2 ^ 64 - 1 }

        ensures step { result ≢ Reply.Refused Errno.NoMemory
            → ◌≡◌ {A = Reply × State} (result, self.new) (step self.old client call.now fresh) }
        ensures no_memory { result ≡ Reply.Refused Errno.NoMemory → self.new ≡ self.old }

        // NoMemory is returned only for a call that takes memory and that nothing else refuses.
        ensures starved { result ≡ Reply.Refused Errno.NoMemory → MayStarve self.old client call.now }

        // This follows from the above for every call.
        ensures answers { IsAnswer result }
        ensures kept { is_refusal result ≡ true → self.new ≡ self.old }
        ensures clients_stay { (other : ℕ) → has self.old.clients other ≡ true → has self.new.clients other ≡ true }
        ensures no_other_client { (other : ℕ) → other ≢ client → result ≢ Reply.Spawned other
            → has self.new.clients other ≡ has self.old.clients other }
        ensures spawned { (number : ℕ) → result ≡ Reply.Spawned number → (number ≡ fresh)
            × (has self.new.clients number ≡ true) }
        ensures numbers { self.new.next ≤ self.old.next + 1 }
    {
        let told = self.reply(client, call, fresh);
        told.by_type();
        told
    }

    fn reply(&mut self, client: u64, call: &Call, fresh: u64) -> Reply
        requires caller { has self.old.clients client ≡ not (is_connect call.now) }
        requires fresh { call.now ≡ Call.Spawn → has self.old.clients fresh ≡ false }
        requires next { self.old.next < 2 ^ 64 - 1 }
        ensures { ComesBy fresh self.old client call.now result self.new }
    {
        match call {
            Call::Make(_, _) => self.perform(client, call),
            Call::Open(_, _) => self.perform(client, call),
            Call::Truncate(_, _) => self.perform(client, call),
            Call::ReadDir(_) => self.perform(client, call),
            Call::Stat(_) => self.perform(client, call),
            Call::Exec(_) => self.perform(client, call),
            Call::Unlink(_) => self.perform(client, call),
            Call::Rmdir(_) => self.perform(client, call),
            Call::Rename(_, _) => self.perform(client, call),
            Call::RenameNoreplace(_, _) => self.perform(client, call),
            Call::Exchange(_, _) => self.perform(client, call),
            Call::Link(_, _) => self.perform(client, call),
            Call::Allow(_, _, _) => self.perform(client, call),
            Call::Read(number, offset, count) => self.read(client, *number, *offset, *count),
            Call::Write(number, offset, bytes) => self.write(client, *number, *offset, bytes),
            Call::Ftruncate(number, size) => self.ftruncate(client, *number, *size),
            Call::Close(number) => self.close(client, *number),
            Call::Ruleset(rights) => self.create_ruleset(client, *rights),
            Call::Confine(number) => self.confine(client, *number),
            Call::Spawn => self.spawn(client, fresh),
            Call::Connect => self.connect(client),
        }
    }
}
