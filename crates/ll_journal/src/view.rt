//! What the journal shows of clients and of the walks under way.

ghost use Rattle.std.specs.Prelude.{◌≡◌, ◌≢◌, ◌<◌, length, None, IfNone, IfSome, option_map};
ghost use Rattle.std.specs.Option.{option_map_or};
ghost use Rattle.ll_rights.specs.Map.{get};
ghost use Rattle.ll_seq.specs.State.{kind_of};
ghost use Rattle.ll_laws.specs.Walk.{Walk};
ghost use Rattle.ll_laws.specs.World.{shown};

use crate::aftermath::marker;
use crate::journal::{Journal, place_of};
use crate::position::Position;
use ll_seq::{Call, ClientRecord};

impl Journal {
    ghost use Rattle.ll_journal.specs.Book.{inode_in, mark_of};
    ghost use Rattle.ll_journal.specs.Stations.{position_in};

    /// Returns the client of this number.
    pub fn client(&self, client: u64) -> Option<&ClientRecord>
        ensures { option_map (λ known. known.now) result ≡ get (shown self.now.world).clients client }
    {
        match place_of(&self.seats, client) {
            None => None,
            Some(place) => Some(self.seats[place].client()),
        }
    }

    /// Returns the client's call whose walk is under way.
    pub fn call(&self, client: u64) -> Option<&Call>
        ensures { option_map (λ call. call.now) result
            ≡ option_map (λ (walk : Walk). walk.call) (get self.now.world.walks client) }
    {
        match place_of(&self.seats, client) {
            None => None,
            Some(place) => self.seats[place].call(),
        }
    }

    /// Returns how often the client's walk has started, 0 if none is under way.
    pub fn starts(&self, client: u64) -> u64
        ensures { result ≡ option_map_or (λ (walk : Walk). walk.starts) (get self.now.world.walks client) 0 }
    {
        match place_of(&self.seats, client) {
            None => 0,
            Some(place) => self.seats[place].starts(),
        }
    }

    /// Returns where the client's walk is, if one is under way.
    pub fn position(&self, client: u64) -> Option<Position>
        ensures { result ≡ position_in self.now.world client }
    {
        match place_of(&self.seats, client) {
            None => None,
            Some(place) => self.seats[place].position(),
        }
    }

    /// Returns the slot in which the inode's node lies.
    pub fn slot(&self, inode: u64) -> Option<u64>
        ensures lies { IfSome result (λ slot. (inode ≢ 0) × (inode_in self.now slot ≡ inode)) }
        ensures within { IfSome result (λ slot. slot < length self.now.inodes) }
        ensures none { IfNone result (kind_of (shown self.now.world) inode ≡ None) }
    {
        self.table.slot(inode)
    }

    /// Returns the client that holds the move gate.
    pub fn gate(&self) -> Option<u64>
        ensures { result ≡ self.now.world.gate }
    {
        self.gate
    }

    /// Returns the client whose walk has marked the directory of this inode.
    pub fn marker(&self, inode: u64) -> Option<u64>
        ensures { result ≡ mark_of self.now.world inode }
    {
        marker(&self.seats, inode)
    }
}
