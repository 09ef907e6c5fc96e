//! A layer while it is learned, and its bounds.

ghost use Rattle.std.specs.Prelude.{◌≡◌, ◌<◌, ◌==◌, ◌&&◌, ◌||◌, ◌↔◌, ℕ, true, false, find, length, IfOk, IsTrue};
ghost use Rattle.std.specs.List.{list_any};
ghost use Rattle.ll_rights.specs.Access.{holds};
ghost use Rattle.ll_learn.specs.Columns.{is_at};
ghost use Rattle.ll_learn.specs.Draft.{IsCharged, has, is_charge, is_granted, is_restricted, is_some_at, is_upper};
ghost use Rattle.ll_learn.specs.Draft.{last_of, may_have, place_of, right_at};

use crate::needs::{Asked, Needs, Origin};
use ll_rights::{Access, Right};
use std::alloc::{AllocError, Global};

/// Which layers may be learned.
#[derive(Drop)]
pub struct Scope {
    /// The rights that the layer handles.
    pub handled: Access,
    /// For each inode, by its number, the rights that a rule on it may have.
    pub may: Vec<Access>,
    /// Directories whose rules take what is needed below them.
    pub beneath: Vec<u64>,
    /// The inodes, from the root down. If either of two rules could be left out, the earlier one is.
    pub order: Vec<u64>,
}

/// A layer while it is learned.
#[derive(Drop)]
pub struct Draft {
    /// The rights that it handles.
    pub handled: Access,
    /// For each inode, by its number, the rights of its rule; the empty set if it has none.
    pub rules: Vec<Access>,
}

/// Why a rule has a right.
#[derive(Clone, Copy)]
pub enum Need {
    /// This entry needs it, and no other rule grants it.
    Asks(Origin),
    /// This entry moves a node to where it would gain the right.
    Moves(Origin),
}

// Reports whether the inode's set has the right.
fn right_at(sets: &[Access], right: Right, inode: u64) -> bool
    ensures { result ≡ right_at sets.now right inode }
{
    let place = inode as usize;
    place < sets.len() && sets[place].holds(right)
}

/// Reports whether the inode is among these.
pub(crate) fn is_among(inodes: &[u64], inode: u64) -> bool
    ensures { result ≡ list_any (λ i. i == inode) inodes.now }
{
    inodes.iter().any(|i| *i == inode)
}

// Adds the right if the test holds.
fn with_if(rights: Access, right: Right, test: bool) -> Access
    ensures { (other : ℕ) → other < 15 → holds result.0 other ≡ (holds rights.0 other || ((other == right) && test)) }
{
    if test {
        rights.with(right.access())
    } else {
        rights
    }
}

impl Scope {
    /// Reports whether a rule on the inode may have the right.
    pub fn may_have(&self, right: Right, inode: u64) -> bool
        ensures { result ≡ may_have self.now right inode }
    {
        right_at(&self.may, right, inode)
    }

    /// Reports whether a rule on the inode may have any right.
    pub(crate) fn may_have_any(&self, inode: u64) -> bool
        ensures some { result ≡ true → (right : ℕ) × (right < 15) × (may_have self.now right inode ≡ true) }
        ensures all { (right : ℕ) → right < 15 → may_have self.now right inode ≡ true → result ≡ true }
    {
        for right in Right::ALL {
            if self.may_have(right, inode) {
                return true;
            }
        }
        false
    }

    /// Reports whether the layer restricts the right.
    pub(crate) fn is_restricted(&self, right: Right) -> bool
        ensures { result ≡ is_restricted self.now right }
    {
        self.handled.holds(right) || right == Right::REFER
    }

    // Reports whether some rule on the path may have the right.
    fn may_have_on(&self, right: Right, inodes: &[u64]) -> bool
        ensures { result ≡ list_any (may_have self.now right) inodes.now }
    {
        inodes.iter().any(|inode| self.may_have(right, *inode))
    }

    /// Reports whether the right isn't asked, or some rule on the path may have it.
    pub(crate) fn can_grant(&self, right: Right, asked: &Asked) -> bool
        ensures { result ≡ is_granted (may_have self.now right) right asked.now }
    {
        !asked.rights.holds(right) || self.may_have_on(right, &asked.inodes)
    }

    // Returns the last of the inodes whose rule may have the right.
    fn last_of(&self, right: Right, inodes: &[u64]) -> Option<u64>
        ensures { result ≡ last_of (may_have self.now right) inodes.now }
    {
        let mut last = None;
        for inode in inodes {
            if self.may_have(right, *inode) {
                last = Some(*inode);
            }
        }
        last
    }

    // Reports whether the right is asked, and this inode is the last of the path whose rule may have it.
    fn is_charge(&self, right: Right, inode: u64, asked: &Asked) -> bool
        ensures { result ≡ is_charge self.now right inode asked.now }
    {
        asked.rights.holds(right) && self.is_last(right, inode, &asked.inodes)
    }

    // Reports whether this inode is the last of those whose rule may have the right.
    fn is_last(&self, right: Right, inode: u64, inodes: &[u64]) -> bool
        ensures { result ≡ is_some_at (last_of (may_have self.now right) inodes.now) inode }
    {
        match self.last_of(right, inodes) {
            Some(last) => last == inode,
            None => false,
        }
    }

    // Reports whether the inode takes what is needed below it, and its rule may have the right.
    fn is_upper(&self, right: Right, inode: u64) -> bool
        ensures { result ≡ is_upper self.now right inode }
    {
        self.may_have(right, inode) && is_among(&self.beneath, inode)
    }

    // Returns the first such inode.
    fn upper_of(&self, right: Right, inodes: &[u64]) -> Option<u64>
        ensures { result ≡ find (is_upper self.now right) inodes.now }
    {
        inodes
            .iter()
            .copied()
            .find(|inode| self.is_upper(right, *inode))
    }

    /// Returns the inode of the path whose rule is to have the right.
    pub(crate) fn place_of(&self, right: Right, inodes: &[u64]) -> Option<u64>
        ensures { result ≡ place_of self.now right inodes.now }
    {
        match self.upper_of(right, inodes) {
            Some(inode) => Some(inode),
            None => self.last_of(right, inodes),
        }
    }
}

impl Draft {
    /// Returns a draft for this many inodes, without rules.
    pub(crate) fn without_rules(
        alloc: Global,
        handled: Access,
        count: usize,
    ) -> Result<Draft, AllocError>
        ensures handled { IfOk result (λ draft. draft.handled ≡ handled) }
        ensures len { IfOk result (λ draft. length draft.rules.items ≡ count) }
        ensures rules { IfOk result (λ draft. (inode right : ℕ) → has draft right inode ≡ false) }
    {
        let rules = vec![in alloc; Access(0); count]?;
        Ok(Draft { handled, rules })
    }

    /// Reports whether the rule on the inode has the right.
    pub fn has(&self, right: Right, inode: u64) -> bool
        ensures { result ≡ has self.now right inode }
    {
        right_at(&self.rules, right, inode)
    }

    /// Adds the right to the rules on these inodes.
    pub(crate) fn put(&mut self, right: Right, held: &[bool])
        requires { length held.now ≡ length self.old.rules.items }
        ensures handled { self.new.handled ≡ self.old.handled }
        ensures len { length self.new.rules.items ≡ length self.old.rules.items }
        ensures rules { (inode other : ℕ) → other < 15 → has self.new other inode
            ≡ (has self.old other inode || ((other == right) && is_at held.now inode)) }
    {
        for inode in 0..self.rules.len() {
            self.rules[inode] = with_if(self.rules[inode], right, held[inode]);
        }
    }

    /// Returns, for each inode, whether its rule has the right.
    pub(crate) fn column(&self, alloc: Global, right: Right) -> Result<Vec<bool>, AllocError>
        ensures { IfOk result (λ held. (inode : ℕ) → is_at held.items inode ≡ has self.now right inode) }
    {
        self.rules
            .iter()
            .map(|rights| rights.holds(right))
            .collect(alloc)
    }

    // Reports whether the right is asked on a path where this inode is the last whose rule may have it.
    fn is_charged_on(scope: &Scope, needs: &Needs, right: Right, inode: u64) -> bool
        ensures { result ≡ list_any (is_charge scope.now right inode) needs.now.asks.items }
    {
        needs
            .asks
            .iter()
            .any(|asked| scope.is_charge(right, inode, asked))
    }

    // Reports whether that holds for each rule with the right.
    fn is_charged_with(&self, scope: &Scope, needs: &Needs, right: Right) -> bool
        ensures { IsTrue result ↔ ((inode : ℕ) → has self.now right inode ≡ true
            → list_any (is_charge scope.now right inode) needs.now.asks.items ≡ true) }
    {
        for inode in 0..self.rules.len() as u64 {
            if self.has(right, inode) && !Draft::is_charged_on(scope, needs, right, inode) {
                return false;
            }
        }
        true
    }

    /// Reports whether each right of each rule is asked on a path where no rule further down may have it. That holds if
    /// nothing was widened, and no move had to be mended.
    pub fn is_charged(&self, scope: &Scope, needs: &Needs) -> bool
        ensures { IsTrue result ↔ IsCharged scope.now needs.now self.now }
    {
        for right in Right::ALL {
            if !self.is_charged_with(scope, needs, right) {
                return false;
            }
        }
        true
    }
}
