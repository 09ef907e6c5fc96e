//! Finds a walk's next directory with one look, and descends to it without looking the name up again.

ghost use Rattle.std.specs.Prelude.{◌≡◌, ◌<◌, ℕ, [], ◌∷◌, length, Some, IfSome, IfNone};
ghost use Rattle.ll_seq.specs.declared.call.Call.{Call};

use crate::check_step::{StepCheck, check_by_hint, directory_below};
use crate::journal::{Journal, place_of};
use crate::progress::Progress;
use crate::stage::Turn;
use ll_node::Held;

/// The next name of a walk: the leg that takes it, and its index in the path of this leg.
#[derive(Clone, Copy, PartialEq, Eq)]
pub struct NextName {
    pub turn: Turn,
    pub depth: usize,
}

/// The next directory of a walk: its slot and inode, and the name that leads there.
#[derive(Clone, Copy)]
pub struct Onward {
    pub slot: u64,
    pub inode: u64,
    pub name: NextName,
}

impl Journal {
    ghost use Rattle.ll_journal.specs.Book.{Spares, slot_of};
    ghost use Rattle.ll_journal.specs.Stations.{Names, call_of, station_on};
    ghost use Rattle.ll_journal.specs.Stations.{station_in};
    ghost use Rattle.ll_journal.specs.Steps.{Does, GoesDown, IsAstrayBelow, IsNext};
    ghost use Rattle.ll_laws.specs.declared.step.Step.TheVariants.{Descend};

    /// Returns the directory to which the client's walk would descend from this one. None if it wouldn't, or isn't
    /// here.
    pub(crate) fn onward(&self, client: u64, slot: u64, here: &Held) -> Option<Onward>
        requires { here.now ≡ slot_of self.now slot }
        ensures next { IfSome result (λ on. IsNext self.now client slot on.slot) }
        ensures within { IfSome result (λ on. on.slot < length self.now.inodes) }
        ensures names { IfSome result (λ on. (call : Call) → call_of self.now.world client ≡ Some call
            → Names call here.now on.name on.inode) }
        ensures station { IfSome result (λ on. station_in self.now.world client ≡ station_on on.name.turn) }
        ensures none { IfNone result (¬ GoesDown self.now client slot) }
    {
        let Some(place) = place_of(&self.seats, client) else {
            return None;
        };
        let seat = &self.seats[place];
        let Some(name) = seat.name_ahead() else {
            return None;
        };
        let Some(inode) = directory_below(&self.table, seat, here) else {
            return None;
        };
        let Some(next) = self.table.slot(inode) else {
            return None;
        };
        Some(Onward {
            slot: next,
            inode,
            name,
        })
    }

    /// Makes a descent of the client's walk. The slots are those of the current leg's directory, and of the directory
    /// that the next name names. If there is a hint, its name names its inode; if that is the next name, it isn't
    /// looked up. Takes no memory.
    pub fn descend(
        &mut self,
        client: u64,
        from_slot: u64,
        from: &mut Held,
        to_slot: u64,
        to: &mut Held,
        hint: Option<Onward>,
    ) -> Progress
        requires from { from.old ≡ slot_of self.old from_slot }
        requires to { to.old ≡ slot_of self.old to_slot }
        requires names { IfSome hint (λ on. (call : Call) → call_of self.old.world client ≡ Some call
            → Names call from.old on.name on.inode) }
        ensures does { Does self.old (Descend client) result self.new }
        ensures stands { (inode : ℕ) → result ≡ Progress.Stands inode
            → (to.new.inode ≡ inode) × (to.new.node.mark ≡ Some client) }
        ensures from { from.new ≡ slot_of self.new from_slot }
        ensures to { to.new ≡ slot_of self.new to_slot }
        ensures spares { Spares self.old self.new (from_slot ∷ to_slot ∷ []) }
        ensures rest { self.new ≡ record self.old { world = self.new.world } }
        ensures astray { result ≡ Progress.Astray → IsAstrayBelow self.old client from_slot to_slot }
    {
        let Some(place) = place_of(&self.seats, client) else {
            return Progress::NotNow;
        };
        match check_by_hint(&self.table, &self.seats[place], from, to, hint) {
            StepCheck::NotNow => return Progress::NotNow,
            StepCheck::Astray => return Progress::Astray,
            StepCheck::Go => {}
        }
        self.go_down(place, client, from_slot, from, to_slot, to);
        Progress::Stands(to.inode)
    }
}
