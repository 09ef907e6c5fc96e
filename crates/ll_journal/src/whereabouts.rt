//! Where a seat's walk is.

ghost use Rattle.std.specs.Prelude.{◌≡◌, false, option_map};
ghost use Rattle.std.specs.List.{list_any};
ghost use Rattle.std.specs.Option.{option_map_or};
ghost use Rattle.ll_laws.specs.Walk as walks;
ghost use Rattle.ll_journal.specs.Checks as checks;
ghost use Rattle.ll_journal.specs.Needs.{slots_in};
ghost use Rattle.ll_journal.specs.Stations.{position_at};

use crate::position::Position;
use crate::seat::Seat;
use crate::slots::Slots;
use crate::stage::{Stage, Turn, turn_of};
use ll_node::{Held, Inodes};

pub(crate) fn is_in(inodes: &[u64], inode: u64) -> bool
    ensures { result ≡ walks.is_in inodes.now inode }
{
    inodes.iter().any(|other| *other == inode)
}

/// Whether the inode's slot is lent.
pub(crate) fn is_lent(lent: &[Held], inode: u64) -> bool
    ensures { result ≡ checks.lends lent.now inode }
{
    lent.iter().any(|held| held.inode == inode)
}

impl Seat {
    ghost use Rattle.ll_journal.specs.Seated.{first_here_in, here_in, second_here_in};

    /// The directory of the current leg.
    pub(crate) fn here(&self) -> Option<u64>
        ensures { result ≡ here_in self.now }
    {
        if self.call.is_none() {
            return None;
        }
        match turn_of(self.stage, &self.first) {
            Turn::No => None,
            Turn::Trunk => Some(self.trunk.here()),
            Turn::First => Some(self.first.here()),
            Turn::Second => Some(self.second.here()),
        }
    }

    /// Where the walk is, if one is under way.
    pub(crate) fn position(&self) -> Option<Position>
        ensures { result ≡ option_map (λ (walk : walks.Walk). position_at walk.at) self.now.walk }
    {
        if self.call.is_none() {
            return None;
        }
        match self.stage {
            Stage::Above => Some(Position::Above),
            Stage::Down => Some(Position::Down(self.trunk.stand())),
            Stage::Split => {
                Some(Position::Split(self.trunk.stand(), self.first.stand(), self.second.stand()))
            }
        }
    }

    /// Whether the walk marks the directory.
    pub(crate) fn stands_in(&self, inode: u64) -> bool
        ensures { result ≡ option_map_or (λ (walk : walks.Walk). walks.marks walk inode) self.now.walk false }
    {
        if self.call.is_none() {
            return false;
        }
        match self.stage {
            Stage::Above => false,
            Stage::Down => self.trunk.here() == inode,
            Stage::Split => {
                self.trunk.here() == inode
                    || self.first.here() == inode
                    || self.second.here() == inode
            }
        }
    }

    /// Whether each directory that the walk marks is lent.
    pub(crate) fn is_all_lent(&self, lent: &[Held]) -> bool
        ensures { result ≡ checks.is_all_lent lent.now self.now }
    {
        if self.call.is_none() {
            return true;
        }
        match self.stage {
            Stage::Above => true,
            Stage::Down => is_lent(lent, self.trunk.here()),
            Stage::Split => {
                is_lent(lent, self.trunk.here())
                    && is_lent(lent, self.first.here())
                    && is_lent(lent, self.second.here())
            }
        }
    }

    /// The slots of the directories that the walk marks.
    pub(crate) fn slots(&self, table: &Inodes) -> Slots
        ensures { result ≡ slots_in table.now.places self.now }
    {
        let mut slots = Slots::new();
        if self.call.is_none() {
            return slots;
        }
        match self.stage {
            Stage::Above => {}
            Stage::Down => slots.add_of(table, self.trunk.here()),
            Stage::Split => {
                slots.add_of(table, self.trunk.here());
                slots.add_of(table, self.first.here());
                slots.add_of(table, self.second.here());
            }
        }
        slots
    }

    /// The directory of the first path's leg.
    pub(crate) fn first_here(&self) -> Option<u64>
        ensures { result ≡ first_here_in self.now }
    {
        if self.call.is_none() {
            return None;
        }
        match self.stage {
            Stage::Above => None,
            Stage::Down => Some(self.trunk.here()),
            Stage::Split => Some(self.first.here()),
        }
    }

    /// The directory of the second path's leg.
    pub(crate) fn second_here(&self) -> Option<u64>
        ensures { result ≡ second_here_in self.now }
    {
        if self.call.is_none() {
            return None;
        }
        match self.stage {
            Stage::Above => None,
            Stage::Down => Some(self.trunk.here()),
            Stage::Split => Some(self.second.here()),
        }
    }

    /// Whether the directory is on the walk's chains from the root.
    fn passes(&self, inode: u64) -> bool
        ensures { result ≡ option_map_or (λ (walk : walks.Walk). walks.passes walk inode) self.now.walk false }
    {
        if self.call.is_none() {
            return false;
        }
        match self.stage {
            Stage::Above => false,
            Stage::Down => is_in(&self.trunk.chain, inode),
            Stage::Split => {
                is_in(&self.trunk.chain, inode)
                    || is_in(&self.first.chain, inode)
                    || is_in(&self.second.chain, inode)
            }
        }
    }

    /// Whether one of these directories is on the walk's chains.
    pub(crate) fn passes_any(&self, inodes: &[u64]) -> bool
        ensures { result ≡ list_any (λ inode. option_map_or (λ (walk : walks.Walk). walks.passes walk inode)
            self.now.walk false) inodes.now }
    {
        inodes.iter().any(|inode| self.passes(*inode))
    }
}
