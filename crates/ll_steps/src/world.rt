//! The shared tree with the walks under way.

ghost use Rattle.std.specs.Prelude.{◌≡◌, ◌≤◌, IfOk, option_map};
ghost use Rattle.ll_rights.specs.declared.limits.TheConstants.{HISTORY_ENTRIES, TREE_NODES};

use crate::slots::{Hands, new_hands, new_slots};
use ll_journal::{Journal, Position, Station};
use ll_node::Held;
use ll_seq::{Call, History, Rules};
use std::alloc::{AllocError, Global};
use std::marker::Model;

/// A shared tree with the walks under way. Contracts see it as the world of ll_laws.
#[derive(Drop)]
pub struct World {
    pub(crate) alloc: Global,
    pub(crate) journal: Journal,
    pub(crate) slots: Vec<Held>,
    pub(crate) hands: Hands,
}

impl Model for World {
    ghost use Rattle.ll_laws.specs.World as world;
    ghost use Rattle.ll_journal.specs.SeatCodes.{coded_world};

    ghost Value = { world.World };

    ghost coded = { coded_world };

    ghost use Rattle.ll_steps.specs.Contents.{IsKept};

    ghost view = { λ w. w.journal.world };

    ghost invariant = { λ w. IsKept w.journal w.slots.items };
}

impl World {
    ghost use Rattle.ll_rights.specs.Map.{get, len};
    ghost use Rattle.ll_seq.specs.State.{child};
    ghost use Rattle.ll_laws.specs.Walk.{Walk};
    ghost use Rattle.ll_laws.specs.World.{new_world, shown};
    ghost use Rattle.ll_journal.specs.Stations.{position_in};
    ghost use Rattle.ll_journal.specs.Stations.{station_in};

    /// Returns a tree with only the root and no clients, for at most `nodes` nodes. Reserves room for `history`
    /// entries. Errors: memory ran out.
    pub fn new(
        alloc: Global,
        rules: Rules,
        nodes: usize,
        history: usize,
    ) -> Result<World, AllocError>
        requires some { 1 ≤ nodes }
        requires most { nodes ≤ TREE_NODES }
        requires entry { 1 ≤ history }
        requires entries { history ≤ HISTORY_ENTRIES }
        ensures { IfOk result (λ w. w ≡ new_world rules nodes history) }
    {
        Ok(World {
            alloc,
            journal: Journal::new(alloc, rules, nodes, history)?,
            slots: new_slots(alloc, nodes)?,
            hands: new_hands(alloc),
        })
    }

    /// Returns the history of all calls.
    pub fn history(&self) -> &History
        ensures { result.now ≡ record { entries = self.now.history; limit = self.now.limit } }
    {
        self.journal.history()
    }

    /// Returns the number of clients. They are numbered from 1.
    pub fn clients(&self) -> u64
        ensures { result ≡ len (shown self.now).clients }
    {
        self.journal.clients()
    }

    /// Returns where the client's walk is.
    pub fn station(&self, client: u64) -> Station
        ensures { result ≡ station_in self.now client }
    {
        self.journal.station(client)
    }

    /// Returns the client's call whose walk is under way.
    pub fn call(&self, client: u64) -> Option<&Call>
        ensures { option_map (λ call. call.now) result
            ≡ option_map (λ (walk : Walk). walk.call) (get self.now.walks client) }
    {
        self.journal.call(client)
    }

    /// Returns where the client's walk is, if one is under way.
    pub fn position(&self, client: u64) -> Option<Position>
        ensures { result ≡ position_in self.now client }
    {
        self.journal.position(client)
    }

    /// Returns the client that holds the move gate.
    pub fn gate(&self) -> Option<u64>
        ensures { result ≡ self.now.gate }
    {
        self.journal.gate()
    }

    /// Returns the inode of the name in the directory.
    pub fn child(&self, directory: u64, name: &str) -> Option<u64>
        ensures { result ≡ child (shown self.now) directory name.now }
    {
        let Some(slot) = self.journal.slot(directory) else {
            return None;
        };
        self.slots[slot as usize].node.look_up(name)
    }
}
