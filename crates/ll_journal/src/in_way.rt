//! Finds what keeps a walk at its ends from being answered, so that its driver can wait for it.

ghost use Rattle.std.specs.Prelude.{◌≡◌, ◌<◌, ◌&&◌, length, IfSome, IfNone};
ghost use Rattle.ll_path.specs.Path as paths;
ghost use Rattle.ll_path.specs.Path.{Path};
ghost use Rattle.ll_laws.specs.World as world;
ghost use Rattle.ll_journal.specs.Checks.{goes_on};
ghost use Rattle.ll_journal.specs.InWay as in_way;
ghost use Rattle.ll_journal.specs.Kept.{walks_from};
ghost use Rattle.ll_journal.specs.Seated.{first_here_in, is_at_ends, second_here_in};

use crate::check_commit::{are_roots, is_marked_at};
use crate::find_ends::spots;
use crate::journal::{Journal, place_of};
use crate::seat::Seat;
use ll_node::{Held, Inodes};
use ll_seq::{Call, Spot};

/// Whether the seat's walk isn't stale and is at its ends.
fn has_come(seat: &Seat) -> bool
    ensures { result ≡ (goes_on seat.now && is_at_ends seat.now) }
{
    seat.goes_on() && seat.is_at_ends()
}

/// The node of a path's last name, if the path's leg ends here and another client's walk has marked the node.
fn node_at_end(
    seats: &[Seat],
    client: u64,
    end: Option<u64>,
    here: &Held,
    is_root: bool,
    spot: &Spot,
) -> Option<u64>
    ensures { (w : world.World) (path : Path) → w.walks ≡ walks_from 1 seats.now → is_root ≡ paths.is_root path
        → result ≡ in_way.node_at_end (world.is_marked_by_other w client) end here.now path spot.now }
{
    match end {
        Some(inode) if inode == here.inode => {}
        _ => return None,
    }
    if !is_marked_at(seats, client, is_root, spot) {
        return None;
    }
    match spot.there {
        None => None,
        Some(there) => Some(there.inode),
    }
}

/// The node of the last name of a path of the call whose leg ends here, if another client's walk has marked it.
fn node_in_way(
    table: &Inodes,
    seats: &[Seat],
    client: u64,
    seat: &Seat,
    call: &Call,
    here: &Held,
) -> Option<u64>
    ensures { (w : world.World) → w.walks ≡ walks_from 1 seats.now
        → result ≡ in_way.node_in_way (world.is_marked_by_other w client) table.now.facts (first_here_in seat.now)
        (second_here_in seat.now) here.now call.now }
{
    let (first, second) = spots(table, here, here, call);
    let (first_is_root, second_is_root) = are_roots(call);
    match node_at_end(
        seats,
        client,
        seat.first_here(),
        here,
        first_is_root,
        &first,
    ) {
        Some(node) => Some(node),
        None => node_at_end(
            seats,
            client,
            seat.second_here(),
            here,
            second_is_root,
            &second,
        ),
    }
}

impl Journal {
    ghost use Rattle.ll_journal.specs.Book.{slot_of};
    ghost use Rattle.ll_journal.specs.InWay.{IsFreeFrom, IsInWay};

    /// For a walk at its ends: returns the slot of a node under a last name that another client's walk has marked,
    /// which delays this one's answer. Looks only in the directory of this slot, for each path that ends there.
    pub fn slot_in_way(&self, client: u64, slot: u64, here: &Held) -> Option<u64>
        requires { here.now ≡ slot_of self.now slot }
        ensures some { IfSome result (IsInWay self.now client) }
        ensures within { IfSome result (λ way. way < length self.now.inodes) }
        ensures none { IfNone result (IsFreeFrom self.now client slot) }
    {
        let Some(place) = place_of(&self.seats, client) else {
            return None;
        };
        let seat = &self.seats[place];
        if !has_come(seat) {
            return None;
        }
        let Some(call) = seat.call() else {
            unreachable!()
        };
        let Some(node) = node_in_way(&self.table, &self.seats, client, seat, call, here) else {
            return None;
        };
        self.table.slot(node)
    }
}
