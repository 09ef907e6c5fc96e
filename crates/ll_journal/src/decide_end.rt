//! The decision of a commit: the effect of a call whose walk has ended, its reply, and which walks become stale.

ghost use Rattle.std.specs.Prelude.{◌≡◌, ◌≢◌, ◌==◌, ℕ, true, List, [], ◌∷◌, ◌++◌, None, length, filter, map};
ghost use Rattle.std.specs.Prelude.{option_map, option_to_list, slice_index_or, is_ok, if◌then◌else◌, Option, IfOk};
ghost use Rattle.std.specs.Prelude.{MatchOption, MatchResult};
ghost use Rattle.std.specs.List.{AllByRecursion, list_any};
ghost use Rattle.std.specs.Option.{option_map_or};
ghost use Rattle.ll_decide.specs.Masks.{AreMasks};
ghost use Rattle.ll_path.specs.Path.{Path};
ghost use Rattle.ll_rights.specs.Kind.{is_dir};
ghost use Rattle.ll_rights.specs.Map.{has};
ghost use Rattle.ll_seq.specs.Call.{first_path, path_of, second_path};
ghost use Rattle.ll_seq.specs.Effects.{status_of};
ghost use Rattle.ll_seq.specs.Stages.{early_refusals};
ghost use Rattle.ll_seq.specs.State.{State, bytes_of, kind_of, name_count, names_in};
ghost use Rattle.ll_seq.specs.Step.{client_of};
ghost use Rattle.ll_seq.specs.Tree.{ancestors, inode_of, kind_or_file, named};
ghost use Rattle.ll_seq.specs.Decided.{IsDone, IsRefused};
ghost use Rattle.ll_seq.specs.Effect.{told};
ghost use Rattle.ll_seq.specs.Found.{AreFacts, Stands};
ghost use Rattle.ll_seq.specs.Lean.{is_short};
ghost use Rattle.ll_seq.specs.Near.{IsNear, told_inodes};
ghost use Rattle.ll_seq.specs.Passed.{has_path};
ghost use Rattle.ll_node.specs.Accounts.{accounts};
ghost use Rattle.ll_node.specs.InodeTable.{IsTable};
ghost use Rattle.ll_laws.specs.World as world;
ghost use Rattle.ll_journal.specs.Book as book;
ghost use Rattle.ll_journal.specs.Performed.{HasContent, IsEndAt, Lends, moved_list};

use crate::aftermath::overtake;
use crate::seat::{Ended, Seat};
use ll_decide::{Granted, Masks};
use ll_node::{Held, Inodes, find};
use ll_path::Target;
use ll_rules::Domain;
use ll_seq::{
    Answer, Call, ClientRecord, Effect, Found, Listing, Reply, Spot, Targets, decide_passed,
    granted_at, status_of, targets_of,
};
use std::alloc::{AllocError, Global};

/// What is granted on the path argument, given what is granted on its parent.
#[inline(always)]
fn granted_on(domain: &Domain, target: &Target, spot: &Spot, masks: &Masks) -> Masks
    requires { length masks.now ≡ length domain.now }
    ensures masks { (s : State) → Stands s (path_of target.now) spot.now
        → IsEndAt s domain.now (path_of target.now) spot.now masks.now
        → AreMasks result domain.now (ancestors s (path_of target.now)) }
    ensures len { length result ≡ length domain.now }
{
    match target {
        Target::Good(path) if !path.is_root() => granted_at(domain, masks.copy(), spot.named()),
        _ => masks.copy(),
    }
}

/// What is granted on the call's first path.
fn granted_on_first(domain: &Domain, call: &Call, spot: &Spot, masks: &Masks) -> Masks
    requires { length masks.now ≡ length domain.now }
    ensures masks { (s : State) → Stands s (first_path call.now) spot.now
        → IsEndAt s domain.now (first_path call.now) spot.now masks.now
        → AreMasks result domain.now (ancestors s (first_path call.now)) }
    ensures len { length result ≡ length domain.now }
{
    match targets_of(call) {
        Targets::No => masks.copy(),
        Targets::One(target) => granted_on(domain, target, spot, masks),
        Targets::Two(old, _) => granted_on(domain, old, spot, masks),
    }
}

/// Decides the call of an ended walk, given what was found and the rights granted on its paths.
fn decide_granted<'a>(
    caller: &ClientRecord,
    walk: &'a Ended,
    found: &Found,
    itself: &Masks,
    other: &Masks,
) -> Result<Effect<'a>, Reply>
    requires early { early_refusals caller.now walk.now.call ≡ [] }
    requires first { length walk.now.first ≡ length caller.now.domain }
    requires second { length walk.now.second ≡ length caller.now.domain }
    requires itself { length itself.now ≡ length caller.now.domain }
    requires other { length other.now ≡ length caller.now.domain }
    ensures decided { (s : State) (n : ℕ) → client_of s n ≡ caller.now → has_path walk.now.call ≡ true
        → AreFacts s walk.now.call found.now
        → AreMasks itself.now caller.now.domain (ancestors s (first_path walk.now.call))
        → AreMasks other.now caller.now.domain (ancestors s (second_path walk.now.call))
        → IsEndAt s caller.now.domain (first_path walk.now.call) found.now.first walk.now.first
        → IsEndAt s caller.now.domain (second_path walk.now.call) found.now.second walk.now.second
        → MatchResult result (IsDone s n walk.now.call) (IsRefused s n walk.now.call) }
    ensures near { IfOk result (IsNear walk.now.call found.now) }
{
    let granted = Granted {
        itself,
        other,
        parent: &walk.first,
        entered: &walk.second,
    };
    decide_passed(caller, &walk.call, found, &granted)
}

/// Decides the call of an ended walk, given what was found.
pub(crate) fn decide_end<'a>(
    caller: &ClientRecord,
    walk: &'a Ended,
    found: &Found,
) -> Result<Effect<'a>, Reply>
    requires early { early_refusals caller.now walk.now.call ≡ [] }
    requires first { length walk.now.first ≡ length caller.now.domain }
    requires second { length walk.now.second ≡ length caller.now.domain }
    ensures decided { (s : State) (n : ℕ) → client_of s n ≡ caller.now → has_path walk.now.call ≡ true
        → AreFacts s walk.now.call found.now
        → IsEndAt s caller.now.domain (first_path walk.now.call) found.now.first walk.now.first
        → IsEndAt s caller.now.domain (second_path walk.now.call) found.now.second walk.now.second
        → MatchResult result (IsDone s n walk.now.call) (IsRefused s n walk.now.call) }
    ensures near { IfOk result (IsNear walk.now.call found.now) }
{
    let itself = granted_on_first(&caller.domain, &walk.call, &found.first, &walk.first);
    match targets_of(&walk.call) {
        Targets::No | Targets::One(_) => decide_granted(caller, walk, found, &itself, &itself),
        Targets::Two(_, new) => {
            let other = granted_on(&caller.domain, new, &found.second, &walk.second);
            decide_granted(caller, walk, found, &itself, &other)
        }
    }
}

/// The contents of the slot that holds the inode, if it is lent.
fn held_in(lent: &[Held], inode: u64) -> Option<&Held>
    ensures { (s : State) → Lends s lent.now inode → MatchOption result ⊥ (λ held. HasContent s inode held.now) }
{
    match find(lent, inode) {
        None => None,
        Some(place) => Some(&lent[place]),
    }
}

/// The number of bytes in the node: 0 for a directory.
fn byte_count(held: &Held) -> u64
    ensures { result ≡ length held.now.node.bytes }
{
    if held.node.kind().is_dir() {
        0
    } else {
        held.node.len() as u64
    }
}

/// The number of bytes in the lent node.
fn size_of_lent(lent: &[Held], inode: u64) -> u64
    ensures { (s : State) → Lends s lent.now inode → result ≡ length (bytes_of s inode) }
{
    match held_in(lent, inode) {
        None => 0,
        Some(held) => byte_count(held),
    }
}

/// The names in the lent directory. Errors: memory ran out.
fn names_of_lent(lent: &[Held], inode: u64, alloc: Global) -> Result<Listing, AllocError>
    ensures { (s : State) → Lends s lent.now inode → IfOk result (λ names. names ≡ names_in s inode) }
{
    match held_in(lent, inode) {
        None => Ok(Listing::new(alloc)),
        Some(held) => held.node.names(),
    }
}

/// Builds the reply from the answer and the lent node. Errors: memory ran out, only if the reply holds a list.
pub(crate) fn tell(
    answer: Answer,
    table: &Inodes,
    lent: &[Held],
    alloc: Global,
) -> Result<Reply, AllocError>
    ensures told { IfOk result (λ reply. (s : State) (marks : ℕ → Option ℕ) (spares slots : List ℕ)
        → IsTable s spares table.now → lent.now ≡ accounts s marks table.now.inodes slots
        → AllByRecursion (λ i. list_any (λ k. slice_index_or table.now.inodes k 0 == i) slots ≡ true)
        (told_inodes answer) → AllByRecursion (λ i. i ≢ 0) (told_inodes answer)
        → reply ≡ told s answer) }
    ensures short { is_short answer ≡ true → is_ok result ≡ true }
{
    match answer {
        Answer::Done => Ok(Reply::Done),
        Answer::Opened(number) => Ok(Reply::Opened(number)),
        Answer::Status(inode, kind) => {
            let size = size_of_lent(lent, inode);
            Ok(Reply::Found(status_of(table.facts(), inode, kind, size)))
        }
        Answer::Names(inode) => Ok(Reply::Listed(names_of_lent(lent, inode, alloc)?)),
    }
}

/// The directories that a call moves: at most one for each path.
#[derive(Clone, Copy)]
pub(crate) struct Moved {
    pub(crate) first: Option<u64>,
    pub(crate) second: Option<u64>,
}

const NOTHING_MOVED: Moved = Moved {
    first: None,
    second: None,
};

/// Whether both paths name one node.
fn is_same_node(found: &Found) -> bool
    ensures { (s : State) (old new : Path) → Stands s old found.now.first → Stands s new found.now.second
        → result ≡ world.is_same_node s old new }
{
    match found.second.named() {
        None => false,
        Some(node) => found.first.inode() == node,
    }
}

/// The node under the path's last name, if it is a directory.
fn directory_there(spot: &Spot) -> Option<u64>
    ensures { (s : State) (path : Path) → Stands s path spot.now → kind_of s 0 ≡ None
        → option_to_list result ≡ filter (λ inode. is_dir (kind_or_file s inode)) (inode_of s path ∷ []) }
{
    match spot.there {
        Some(node) if node.kind.is_dir() => Some(node.inode),
        _ => None,
    }
}

/// The directories that the call moves if it succeeds.
fn moved_where_done(call: &Call, found: &Found) -> Moved
    ensures { (s : State) → Stands s (first_path call.now) found.now.first
        → Stands s (second_path call.now) found.now.second → kind_of s 0 ≡ None
        → moved_list result ≡ filter (λ inode. is_dir (kind_or_file s inode))
        (map (inode_of s) (world.moving call.now)) }
{
    match call {
        Call::Rename(..) | Call::RenameNoreplace(..) => Moved {
            first: directory_there(&found.first),
            second: None,
        },
        Call::Exchange(..) => Moved {
            first: directory_there(&found.first),
            second: directory_there(&found.second),
        },
        Call::Make(..) | Call::Open(..) | Call::Link(..) | Call::Unlink(_) => NOTHING_MOVED,
        Call::Rmdir(_) | Call::Truncate(..) | Call::ReadDir(_) | Call::Stat(_) => NOTHING_MOVED,
        Call::Exec(_) | Call::Allow(..) | Call::Read(..) | Call::Write(..) => NOTHING_MOVED,
        Call::Ftruncate(..) | Call::Close(_) | Call::Ruleset(_) => NOTHING_MOVED,
        Call::Confine(_) | Call::Spawn | Call::Connect => NOTHING_MOVED,
    }
}

/// The directories that the call moves, given its reply. No node has inode 0.
pub(crate) fn moved_by(call: &Call, found: &Found, reply: &Reply) -> Moved
    ensures { (s : State) → AreFacts s call.now found.now → found.now.first.way ≡ None → found.now.second.way ≡ None
        → kind_of s 0 ≡ None
        → moved_list result ≡ world.moved_by s call.now reply.now }
{
    match reply {
        Reply::Done if !is_same_node(found) => moved_where_done(call, found),
        _ => NOTHING_MOVED,
    }
}

/// Makes every walk through one of these directories stale.
pub(crate) fn overtake_moved(seats: &mut Vec<Seat>, moved: Moved)
    ensures { seats.new.items ≡ map
        (λ (seat : book.Seat). record seat { walk = option_map (world.overtaken (moved_list moved)) seat.walk })
        seats.old.items }
{
    match (moved.first, moved.second) {
        (None, None) => {}
        (Some(one), None) | (None, Some(one)) => overtake(seats, &[one]),
        (Some(one), Some(other)) => overtake(seats, &[one, other]),
    }
}
