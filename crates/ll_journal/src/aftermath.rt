//! What a commit does to all clients' walks.

ghost use Rattle.std.specs.Prelude.{◌≡◌, ℕ, true, false, map, option_map, IfNone, IfSome};
ghost use Rattle.ll_laws.specs.World as world;
ghost use Rattle.ll_journal.specs.Book as book;
ghost use Rattle.ll_journal.specs.Kept.{walks_from};

use crate::seat::Seat;

/// Makes every walk through one of these directories stale.
pub(crate) fn overtake(seats: &mut Vec<Seat>, moved: &[u64])
    ensures { seats.new.items ≡ map
        (λ (seat : book.Seat). record seat { walk = option_map (world.overtaken moved.now) seat.walk })
        seats.old.items }
{
    for seat in seats.iter_mut() {
        seat.overtake(moved);
    }
}

/// Whether another client's walk has marked the directory.
pub(crate) fn is_marked_by_other(seats: &[Seat], client: u64, inode: u64) -> bool
    ensures { (w : world.World) → w.walks ≡ walks_from 1 seats.now → result ≡ world.is_marked_by_other w client inode }
{
    for (place, seat) in seats.iter().enumerate() {
        if place as u64 + 1 != client && seat.stands_in(inode) {
            return true;
        }
    }
    false
}

/// The client whose walk has marked the directory.
pub(crate) fn marker(seats: &[Seat], inode: u64) -> Option<u64>
    ensures some { IfSome result (λ client. (w : world.World) → w.walks ≡ walks_from 1 seats.now
        → book.has_mark w inode client ≡ true) }
    ensures none { IfNone result ((w : world.World) → w.walks ≡ walks_from 1 seats.now → (client : ℕ)
        → book.has_mark w inode client ≡ false) }
{
    for (place, seat) in seats.iter().enumerate() {
        if seat.stands_in(inode) {
            return Some(place as u64 + 1);
        }
    }
    None
}

/// The holder of the gate after the client's walk has ended.
pub(crate) fn released(gate: Option<u64>, client: u64) -> Option<u64>
    ensures { result ≡ world.released gate client }
{
    if gate == Some(client) { None } else { gate }
}
