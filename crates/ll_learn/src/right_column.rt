//! The inodes whose rules have one right: as few as its needs allow.

ghost use Rattle.std.specs.Prelude.{◌≡◌, ◌<◌, ◌==◌, ◌||◌, ◌&&◌, ℕ, true, false, length, slice_set, IfOk};
ghost use Rattle.std.specs.List.{list_all, list_any};
ghost use Rattle.ll_learn.specs.Columns.{AreFromRoot, Grows, Shrinks, free_count, held_count, is_at};
ghost use Rattle.ll_learn.specs.Draft.{IsLeast, IsScope, IsSpread, is_asked_at, is_gainless, is_granted, is_mended_at};
ghost use Rattle.ll_learn.specs.Draft.{is_met, is_some_at, may_have, place_of, without};
ghost use Rattle.ll_learn.specs.Needs.{AreRooted};

use crate::draft::Scope;
use crate::needs::{Asked, Moved, Needs};
use ll_rights::Right;
use std::alloc::{AllocError, Global};

// Returns a column in which none of this many inodes has the right.
fn none_held(alloc: Global, count: usize) -> Result<Vec<bool>, AllocError>
    ensures len { IfOk result (λ held. length held.items ≡ count) }
    ensures none { IfOk result (λ held. (inode : ℕ) → is_at held.items inode ≡ false) }
{
    let held = vec![in alloc; false; count]?;
    Ok(held)
}

// Reports whether a rule on the inode has the right.
fn is_held(held: &[bool], inode: u64) -> bool
    ensures { result ≡ is_at held.now inode }
{
    let place = inode as usize;
    place < held.len() && held[place]
}

// Reports whether a rule on one of the inodes has the right.
fn is_on(held: &[bool], inodes: &[u64]) -> bool
    ensures { result ≡ list_any (is_at held.now) inodes.now }
{
    inodes.iter().any(|inode| is_held(held, *inode))
}

// Reports whether a rule on one of the inodes, except `out`, has the right.
fn is_on_without(held: &[bool], out: u64, inodes: &[u64]) -> bool
    ensures { result ≡ list_any (without out (is_at held.now)) inodes.now }
{
    inodes
        .iter()
        .any(|inode| is_held(held, *inode) && *inode != out)
}

/// Reports whether the right is granted where it is asked, without the rule on inode `out`.
pub(crate) fn is_granted_without(held: &[bool], out: u64, right: Right, asked: &Asked) -> bool
    ensures { result ≡ is_granted (without out (is_at held.now)) right asked.now }
{
    !asked.rights.holds(right) || is_on_without(held, out, &asked.inodes)
}

/// Reports whether the move gains nothing of the right, without the rule on inode `out`.
pub(crate) fn is_gainless_without(held: &[bool], out: u64, right: Right, moved: &Moved) -> bool
    ensures { result ≡ is_gainless (without out (is_at held.now)) right moved.now }
{
    !moved.rights.holds(right)
        || (!is_on_without(held, out, &moved.into) || is_on_without(held, out, &moved.from))
}

// Reports whether each ask is granted, without the rule on inode `out`.
fn are_granted_without(held: &[bool], out: u64, right: Right, asks: &[Asked]) -> bool
    ensures { result ≡ list_all (is_granted (without out (is_at held.now)) right) asks.now }
{
    asks.iter()
        .all(|asked| is_granted_without(held, out, right, asked))
}

// Reports whether no move gains the right, without the rule on inode `out`.
fn are_gainless_without(held: &[bool], out: u64, right: Right, moves: &[Moved]) -> bool
    ensures { result ≡ list_all (is_gainless (without out (is_at held.now)) right) moves.now }
{
    moves
        .iter()
        .all(|moved| is_gainless_without(held, out, right, moved))
}

// Reports whether the right's needs are met, without the rule on inode `out`.
fn is_met_without(held: &[bool], out: u64, right: Right, needs: &Needs) -> bool
    ensures { result ≡ is_met (without out (is_at held.now)) right needs.now }
{
    are_granted_without(held, out, right, &needs.asks)
        && are_gainless_without(held, out, right, &needs.moves)
}

// Reports whether the move gains nothing of the right.
fn is_gainless(held: &[bool], right: Right, moved: &Moved) -> bool
    ensures { result ≡ is_gainless (is_at held.now) right moved.now }
{
    !moved.rights.holds(right) || (!is_on(held, &moved.into) || is_on(held, &moved.from))
}

// Sets whether the inode's rule has the right.
fn set_held(held: &mut Vec<bool>, inode: u64, value: bool)
    ensures { held.new.items ≡ slice_set held.old.items inode value }
{
    let place = inode as usize;
    if place < held.len() {
        held[place] = value;
    }
}

// Gives the right to a rule on the path.
fn grow(held: &mut Vec<bool>, right: Right, inodes: &[u64], scope: &Scope)
    requires len { length held.old.items ≡ length scope.now.may.items }
    requires some { list_any (may_have scope.now right) inodes.now ≡ true }
    ensures grows { Grows (is_some_at (place_of scope.now right inodes.now)) held.old.items held.new.items }
    ensures on { list_any (is_at held.new.items) inodes.now ≡ true }
    ensures more { list_any (is_at held.old.items) inodes.now ≡ false
        → free_count held.new.items < free_count held.old.items }
{
    if let Some(inode) = scope.place_of(right, inodes) {
        set_held(held, inode, true);
    }
}

// Gives the right to rules wherever it is asked.
fn charge(held: &mut Vec<bool>, right: Right, asks: &[Asked], scope: &Scope)
    requires len { length held.old.items ≡ length scope.now.may.items }
    requires can { list_all (is_granted (may_have scope.now right) right) asks.now ≡ true }
    ensures grows { Grows (is_asked_at scope.now right asks.now) held.old.items held.new.items }
    ensures met { list_all (is_granted (is_at held.new.items) right) asks.now ≡ true }
{
    for asked in asks {
        if asked.rights.holds(right) {
            grow(held, right, &asked.inodes, scope);
        }
    }
}

// Gives the right to rules on the nodes' own paths wherever moves would gain it. Returns whether any would.
fn close_once(held: &mut Vec<bool>, right: Right, moves: &[Moved], scope: &Scope) -> bool
    requires known { right < 15 }
    requires scope { IsScope scope.now }
    requires rooted { AreFromRoot moves.now }
    requires len { length held.old.items ≡ length scope.now.may.items }
    requires within { (inode : ℕ) → is_at held.old.items inode ≡ true → may_have scope.now right inode ≡ true }
    ensures grows { Grows (is_mended_at scope.now right moves.now) held.old.items held.new.items }
    ensures spread { (inode : ℕ) → is_at held.new.items inode ≡ true
        → IsSpread scope.now right moves.now (is_at held.old.items) inode }
    ensures kept { result ≡ false → held.new.items ≡ held.old.items }
    ensures more { result ≡ true → free_count held.new.items < free_count held.old.items }
    ensures done { result ≡ false → list_all (is_gainless (is_at held.new.items) right) moves.now ≡ true }
{
    let mut changed = false;
    for moved in moves {
        if !is_gainless(held, right, moved) {
            grow(held, right, &moved.from, scope);
            changed = true;
        }
    }
    changed
}

// Repeats that until no move gains the right.
fn close(held: &mut Vec<bool>, right: Right, moves: &[Moved], scope: &Scope)
    requires known { right < 15 }
    requires scope { IsScope scope.now }
    requires rooted { AreFromRoot moves.now }
    requires len { length held.old.items ≡ length scope.now.may.items }
    requires within { (inode : ℕ) → is_at held.old.items inode ≡ true → may_have scope.now right inode ≡ true }
    ensures grows { Grows (is_mended_at scope.now right moves.now) held.old.items held.new.items }
    ensures spread { (inode : ℕ) → is_at held.new.items inode ≡ true
        → IsSpread scope.now right moves.now (is_at held.old.items) inode }
    ensures done { list_all (is_gainless (is_at held.new.items) right) moves.now ≡ true }
{
    let mut changed = true;
    while changed {
        changed = close_once(held, right, moves, scope);
    }
}

// Removes the right from the inode's rule if the needs are still met then. Returns whether they are.
fn leave_out(held: &mut Vec<bool>, inode: u64, right: Right, needs: &Needs) -> bool
    ensures kept { result ≡ false → held.new.items ≡ held.old.items }
    ensures needed { result ≡ false → is_at held.old.items inode ≡ true
        → is_met (without inode (is_at held.old.items)) right needs.now ≡ false }
    ensures out { result ≡ true → is_at held.old.items inode ≡ true }
    ensures less { result ≡ true → held.new.items ≡ slice_set held.old.items inode false }
    ensures met { result ≡ true → is_met (without inode (is_at held.old.items)) right needs.now ≡ true }
{
    if !is_held(held, inode) || !is_met_without(held, inode, right, needs) {
        return false;
    }
    set_held(held, inode, false);
    true
}

// Removes the right from each inode's rule where it can be removed, in this order. Returns whether any could.
fn prune_in(held: &mut Vec<bool>, right: Right, needs: &Needs, order: &[u64]) -> bool
    requires { is_met (is_at held.old.items) right needs.now ≡ true }
    ensures shrinks { Shrinks held.old.items held.new.items }
    ensures met { is_met (is_at held.new.items) right needs.now ≡ true }
    ensures kept { result ≡ false → held.new.items ≡ held.old.items }
    ensures less { result ≡ true → held_count held.new.items < held_count held.old.items }
{
    let mut changed = false;
    for inode in order {
        if leave_out(held, *inode, right, needs) {
            changed = true;
        }
    }
    changed
}

// Does so in the order of the inodes' numbers.
fn prune_all(held: &mut Vec<bool>, right: Right, needs: &Needs) -> bool
    requires { is_met (is_at held.old.items) right needs.now ≡ true }
    ensures shrinks { Shrinks held.old.items held.new.items }
    ensures met { is_met (is_at held.new.items) right needs.now ≡ true }
    ensures kept { result ≡ false → held.new.items ≡ held.old.items }
    ensures less { result ≡ true → held_count held.new.items < held_count held.old.items }
    ensures needed { result ≡ false → (inode : ℕ) → is_at held.new.items inode ≡ true
        → is_met (without inode (is_at held.new.items)) right needs.now ≡ false }
{
    let mut changed = false;
    for inode in 0..held.len() as u64 {
        if leave_out(held, inode, right, needs) {
            changed = true;
        }
    }
    changed
}

// Removes the right wherever it can be removed, until it can't be anywhere.
fn prune(held: &mut Vec<bool>, right: Right, needs: &Needs, order: &[u64])
    requires { is_met (is_at held.old.items) right needs.now ≡ true }
    ensures shrinks { Shrinks held.old.items held.new.items }
    ensures met { is_met (is_at held.new.items) right needs.now ≡ true }
    ensures needed { (inode : ℕ) → is_at held.new.items inode ≡ true
        → is_met (without inode (is_at held.new.items)) right needs.now ≡ false }
{
    let mut again = true;
    while again {
        let early = prune_in(held, right, needs, order);
        again = early || prune_all(held, right, needs);
    }
}

/// Returns the inodes whose rules have the right in a layer of the scope, so that none can be left out.
pub(crate) fn least_column(
    alloc: Global,
    right: Right,
    needs: &Needs,
    scope: &Scope,
) -> Result<Vec<bool>, AllocError>
    requires known { right < 15 }
    requires scope { IsScope scope.now }
    requires rooted { AreRooted needs.now }
    requires can { list_all (is_granted (may_have scope.now right) right) needs.now.asks.items ≡ true }
    ensures len { IfOk result (λ held. length held.items ≡ length scope.now.may.items) }
    ensures least { IfOk result (λ held. IsLeast scope.now needs.now right (is_at held.items)) }
{
    let mut held = none_held(alloc, scope.may.len())?;
    charge(&mut held, right, &needs.asks, scope);
    close(&mut held, right, &needs.moves, scope);
    prune(&mut held, right, needs, &scope.order);
    Ok(held)
}
