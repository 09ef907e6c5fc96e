//! The least layer that meets what histories require.

ghost use Rattle.std.specs.Prelude.{◌≡◌, ◌<◌, ℕ, true, false, [], None, IfOk, IfErr, IfSome, IfNone, length};
ghost use Rattle.std.specs.List.{list_all};
ghost use Rattle.ll_rules.specs.Layer.{Layer, grants_on};
ghost use Rattle.ll_learn.specs.Columns.{is_at};
ghost use Rattle.ll_learn.specs.Draft.{IsDerived, IsInScope, IsLeast, IsOf, IsNeed, IsScope, IsUnmet, has, is_gainless};
ghost use Rattle.ll_learn.specs.Draft.{is_granted, is_met, is_placed, is_restricted, may_have, without};
ghost use Rattle.ll_learn.specs.Least.{AreNeeded};
ghost use Rattle.ll_learn.specs.Needs.{AreRooted, Meets};

use crate::draft::{Draft, Need, Scope};
use crate::needs::{Asked, Moved, Needs};
use crate::right_column::{is_gainless_without, is_granted_without, least_column};
use ll_rights::Right;
use std::alloc::{AllocError, Global};

/// Why no layer was learned.
#[derive(Debug, Drop)]
pub enum DraftFault {
    /// The ask with this number, counted from 0, has a right that no rule on its path may have.
    Unmet(usize),
    NoMemory,
}

impl From<AllocError> for DraftFault {
    ghost use Rattle.std.specs.Prelude.{◌≡◌};
    ghost use Rattle.ll_learn.specs.declared.solution.DraftFault.TheVariants.{NoMemory};

    ghost from_gives = { λ _ fault. fault ≡ NoMemory };

    fn from(_: AllocError) -> DraftFault {
        DraftFault::NoMemory
    }
}

// Reports whether the ask has a right that is restricted and that no rule on the path may have.
fn is_unmet(scope: &Scope, asked: &Asked) -> bool
    ensures unmet { result ≡ true → (right : ℕ) × (right < 15) × (is_restricted scope.now right ≡ true)
        × (is_granted (may_have scope.now right) right asked.now ≡ false) }
    ensures met { result ≡ false → (right : ℕ) → right < 15 → is_restricted scope.now right ≡ true
        → is_granted (may_have scope.now right) right asked.now ≡ true }
{
    for right in Right::ALL {
        if scope.is_restricted(right) && !scope.can_grant(right, asked) {
            return true;
        }
    }
    false
}

// Returns the first ask that no layer of the scope meets.
fn first_unmet(scope: &Scope, asks: &[Asked]) -> Option<usize>
    ensures some { IfSome result (IsUnmet scope.now asks.now) }
    ensures none { IfNone result ((right : ℕ) → right < 15 → is_restricted scope.now right ≡ true
        → list_all (is_granted (may_have scope.now right) right) asks.now ≡ true) }
{
    for (number, asked) in asks.iter().enumerate() {
        if is_unmet(scope, asked) {
            return Some(number);
        }
    }
    None
}

// Returns rules that meet the needs, one right after the other.
fn draft_of(alloc: Global, needs: &Needs, scope: &Scope) -> Result<Draft, AllocError>
    requires scope { IsScope scope.now }
    requires rooted { AreRooted needs.now }
    requires can { (right : ℕ) → right < 15 → is_restricted scope.now right ≡ true
        → list_all (is_granted (may_have scope.now right) right) needs.now.asks.items ≡ true }
    ensures handled { IfOk result (λ draft. draft.handled ≡ scope.now.handled) }
    ensures len { IfOk result (λ draft. length draft.rules.items ≡ length scope.now.may.items) }
    ensures least { IfOk result (λ draft. (right : ℕ) → right < 15
        → IsLeast scope.now needs.now right (has draft right)) }
{
    let mut draft = Draft::without_rules(alloc, scope.handled, scope.may.len())?;
    for right in Right::ALL {
        if scope.is_restricted(right) {
            let held = least_column(alloc, right, needs, scope)?;
            draft.put(right, &held);
        }
    }
    Ok(draft)
}

/// Returns a layer of the scope that meets the needs, but not without any one right of any one rule. Errors: an ask
/// that no layer of the scope meets, or memory ran out.
pub fn least_draft(alloc: Global, needs: &Needs, scope: &Scope) -> Result<Draft, DraftFault>
    requires scope { IsScope scope.now }
    requires rooted { AreRooted needs.now }
    ensures handled { IfOk result (λ draft. draft.handled ≡ scope.now.handled) }
    ensures len { IfOk result (λ draft. length draft.rules.items ≡ length scope.now.may.items) }
    ensures placed { IfOk result (λ draft. (inode right : ℕ) → right < 15 → has draft right inode ≡ true
        → is_placed scope.now needs.now right inode ≡ true) }
    ensures derived { IfOk result (λ draft. (inode right : ℕ) → right < 15 → has draft right inode ≡ true
        → IsDerived scope.now needs.now right inode) }
    ensures within { IfOk result (λ draft. (layer : Layer) → IsOf draft layer → IsInScope scope.now layer) }
    ensures meets { IfOk result (λ draft. (layer : Layer) → IsOf draft layer → Meets (grants_on layer) needs.now) }
    ensures needed { IfOk result (λ draft. (layer : Layer) → IsOf draft layer
        → AreNeeded (λ less. Meets (grants_on less) needs.now) layer) }
    ensures unmet { IfErr result (λ fault. (number : ℕ) → fault ≡ DraftFault.Unmet number
        → IsUnmet scope.now needs.now.asks.items number) }
    ensures none { IfErr result (λ fault. (number : ℕ) → fault ≡ DraftFault.Unmet number → (layer : Layer)
        → IsInScope scope.now layer → Meets (grants_on layer) needs.now → ⊥) }
{
    if let Some(number) = first_unmet(scope, &needs.asks) {
        return Err(DraftFault::Unmet(number));
    }
    let draft = draft_of(alloc, needs, scope)?;
    Ok(draft)
}

// Reports whether no rule could be further down the ask's path than one on inode `out`: no node there is of the cut.
fn is_lowest(held: &[bool], out: u64, asked: &Asked) -> bool {
    let mut lowest = None;
    for inode in &asked.inodes {
        if (*inode as usize) < held.len() {
            lowest = Some(*inode);
        }
    }
    lowest == Some(out)
}

// Reports whether the ask isn't granted without the rule on inode `out`, and no rule further down could grant it.
fn is_forced(held: &[bool], out: u64, right: Right, asked: &Asked) -> bool
    ensures { result ≡ true → is_granted (without out (is_at held.now)) right asked.now ≡ false }
{
    is_lowest(held, out, asked) && !is_granted_without(held, out, right, asked)
}

// Returns the first ask that isn't granted without the rule on inode `out`, and that none further down could grant.
fn first_forced(held: &[bool], out: u64, right: Right, asks: &[Asked]) -> Option<Need>
    ensures { IfSome result (IsNeed (without out (is_at held.now)) right asks.now []) }
{
    for asked in asks {
        if is_forced(held, out, right, asked) {
            return Some(Need::Asks(asked.origin));
        }
    }
    None
}

// Returns the first ask that isn't granted without the rule on inode `out`.
fn first_ungranted(held: &[bool], out: u64, right: Right, asks: &[Asked]) -> Option<Need>
    ensures some { IfSome result (IsNeed (without out (is_at held.now)) right asks.now []) }
    ensures none { result ≡ None → list_all (is_granted (without out (is_at held.now)) right) asks.now ≡ true }
{
    for asked in asks {
        if !is_granted_without(held, out, right, asked) {
            return Some(Need::Asks(asked.origin));
        }
    }
    None
}

// Returns an ask that isn't granted without the rule on inode `out`: of those that no rule further down could grant the
// first, or else the first of all.
fn ungranted(held: &[bool], out: u64, right: Right, asks: &[Asked]) -> Option<Need>
    ensures some { IfSome result (IsNeed (without out (is_at held.now)) right asks.now []) }
    ensures none { result ≡ None → list_all (is_granted (without out (is_at held.now)) right) asks.now ≡ true }
{
    match first_forced(held, out, right, asks) {
        Some(need) => Some(need),
        None => first_ungranted(held, out, right, asks),
    }
}

// Returns the first move that gains the right without the rule on inode `out`.
fn first_gain(held: &[bool], out: u64, right: Right, moves: &[Moved]) -> Option<Need>
    ensures some { IfSome result (IsNeed (without out (is_at held.now)) right [] moves.now) }
    ensures none { result ≡ None → list_all (is_gainless (without out (is_at held.now)) right) moves.now ≡ true }
{
    for moved in moves {
        if !is_gainless_without(held, out, right, moved) {
            return Some(Need::Moves(moved.origin));
        }
    }
    None
}

/// Returns why the rule on the inode must have the right: an ask that isn't granted without it, if possible one that no
/// rule further down could grant, or else the first move that would gain it. None if the needs are met without it.
/// Errors: memory ran out.
pub fn need_of(
    alloc: Global,
    draft: &Draft,
    needs: &Needs,
    right: Right,
    inode: u64,
) -> Result<Option<Need>, AllocError>
    ensures some { IfOk result (λ found. IfSome found
        (IsNeed (without inode (has draft.now right)) right needs.now.asks.items needs.now.moves.items)) }
    ensures none { IfOk result (λ found. found ≡ None
        → is_met (without inode (has draft.now right)) right needs.now ≡ true) }
{
    let held = draft.column(alloc, right)?;
    match ungranted(&held, inode, right, &needs.asks) {
        Some(need) => Ok(Some(need)),
        None => Ok(first_gain(&held, inode, right, &needs.moves)),
    }
}
