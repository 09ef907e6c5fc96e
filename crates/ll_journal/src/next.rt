//! Finds a walk's next step with one look.

ghost use Rattle.std.specs.Prelude.{◌≡◌};

use crate::journal::Journal;
use crate::onward::Onward;
use crate::slots::Slots;
use crate::station::Station;
use ll_node::Held;

/// The next step of a client's walk, with the slots that it needs.
#[derive(Drop)]
pub enum Next {
    /// No walk is under way.
    Nothing,
    /// The walk's current leg isn't in this directory.
    Elsewhere,
    /// Restart the stale walk. The slots are those of the directories that it has marked.
    Restart(Slots),
    /// Enter the root, which is in this slot.
    Enter(u64),
    Descend(Onward),
    /// Fork: split the walk of two paths. It needs no slot.
    Fork,
    /// Commit: the walk can't go on, or each leg is at its end. These are all the slots that it may need.
    Commit(Slots),
}

impl Journal {
    ghost use Rattle.ll_journal.specs.Book.{slot_of};
    ghost use Rattle.ll_journal.specs.NextStep.{CanBeLent, ComesNext, IsNamed};
    ghost use Rattle.ll_journal.specs.Stations.{call_of};

    /// Returns the next step of the client's walk, if its current leg is in this slot's directory. (Above the root any
    /// slot will do. The step may still have to wait for other walks.)
    pub fn next_step(&self, client: u64, slot: u64, here: &Held) -> Next
        requires { here.now ≡ slot_of self.now slot }
        ensures comes { ComesNext self.now client slot result }
        ensures slots { CanBeLent self.now result }
        ensures names { IsNamed (call_of self.now.world client) here.now result }
    {
        if let Some(on) = self.onward(client, slot, here) {
            return Next::Descend(on);
        }
        match self.station(client) {
            Station::Idle => Next::Nothing,
            Station::Stale => Next::Restart(self.stands_in(client)),
            Station::Above => Next::Enter(self.root_slot()),
            Station::Fork => Next::Fork,
            Station::Trunk | Station::First | Station::Second | Station::End => {
                if self.is_in_turn(client, slot, here) {
                    Next::Commit(self.end_slots(client, slot, here))
                } else {
                    Next::Elsewhere
                }
            }
        }
    }
}
