//! Why a call passes that a learned layer should deny.

ghost use Rattle.std.specs.Prelude.{◌≡◌, ◌<◌, ◌≤◌, ◌==◌, ◌&&◌, ℕ, true, IfSome, IsTrue, None, map};
ghost use Rattle.std.specs.List.{list_all, list_any};
ghost use Rattle.ll_rights.specs.Access.{holds};
ghost use Rattle.ll_rights.specs.declared.limits.TheConstants.{TREE_NODES};
ghost use Rattle.ll_rules.specs.Layer.{Layer, grants_on};
ghost use Rattle.ll_audit.specs.Saved.{opened};
ghost use Rattle.ll_why.specs.Reasons.{AreAsked, kept_number};
ghost use Rattle.ll_learn.specs.Asks.{AllowsAsked};
ghost use Rattle.ll_learn.specs.Needs.{GivesNone, GrantsAll, Meets};
ghost use Rattle.ll_learn.specs.Undeniable.{IsUndeniable};

use crate::demand::found_for;
use crate::draft::{Draft, Need, is_among};
use crate::needs::{Asked, Needs, Origin};
use crate::preface::{Opening, cut_of};
use crate::profile::LearnedProfile;
use crate::solution::need_of;
use ll_plain::Plain;
use ll_rights::{Access, Right};
use ll_seq::{Call, Entry};
use ll_why::{Asks, kept_number};
use ll_wire::Header;
use std::alloc::{AllocError, Global};

/// What is learned from: histories of trees created with this header, and the client that the layer is for.
#[derive(Clone, Copy)]
pub struct Basis<'a> {
    pub header: &'a Header,
    pub histories: &'a [&'a [Entry]],
    pub client: u64,
}

/// A call that could follow so many entries of a history, counted from the cut.
#[derive(Clone, Copy)]
pub struct Trial<'a> {
    pub history: usize,
    pub entries: usize,
    pub call: &'a Call,
}

/// A right of a rule that grants something that a call asks.
#[derive(Clone, Copy)]
pub struct Grant {
    /// The rule's index in the profile.
    pub rule: usize,
    pub right: Right,
    /// An entry that isn't allowed without this right of the rule.
    pub needed_by: Option<Origin>,
}

/// Why a call isn't denied.
#[derive(Drop)]
pub struct Undenied {
    pub grants: Vec<Grant>,
    /// Whether each layer under which all histories pass allows the call.
    pub is_by_all: bool,
}

// Reports whether each of the inodes is on the path.
fn are_on(path: &[u64], inodes: &[u64]) -> bool
    ensures { result ≡ list_all (λ inode. list_any (λ i. i == inode) path.now) inodes.now }
{
    inodes.iter().all(|inode| is_among(path, *inode))
}

impl Asked {
    // Reports whether the right is asked on a path with no other inodes than this one: what grants it there grants it
    // here.
    fn implies(&self, right: Right, path: &[u64]) -> bool
        ensures { result ≡ (holds self.now.rights.0 right
            && list_all (λ inode. list_any (λ i. i == inode) path.now) self.now.inodes.items) }
    {
        self.rights.holds(right) && are_on(path, &self.inodes)
    }
}

impl Needs {
    // Reports whether each layer that meets the needs grants the right on the path.
    fn require(&self, right: Right, path: &[u64]) -> bool
        ensures { IsTrue result → right < 15 → (layer : Layer) → Meets (grants_on layer) self.now
            → grants_on layer path.now right ≡ true }
    {
        for asked in &self.asks {
            if asked.implies(right, path) {
                return true;
            }
        }
        false
    }

    // Reports whether that holds for each of the rights.
    fn require_all(&self, rights: Access, path: &[u64]) -> bool
        ensures { IsTrue result → (layer : Layer) → Meets (grants_on layer) self.now
            → GrantsAll (grants_on layer) rights.0 path.now }
    {
        for right in Right::ALL {
            if rights.holds(right) && !self.require(right, path) {
                return false;
            }
        }
        true
    }

    // Reports whether under each layer that meets the needs a move between these paths gains none of the rights.
    fn keep(&self, rights: Access, from: &[u64], into: &[u64]) -> bool
        ensures { IsTrue result → (layer : Layer) → Meets (grants_on layer) self.now
            → GivesNone (grants_on layer) rights.0 from.now into.now }
    {
        if self.has_moved(rights, from, into) {
            return true;
        }
        self.require_all(rights, from)
    }

    // Reports whether each layer that meets the needs allows a call that asks this.
    fn imply(&self, asks: &Asks) -> bool
        ensures { IsTrue result → (layer : Layer) → Meets (grants_on layer) self.now
            → AllowsAsked (grants_on layer) asks.now }
    {
        let sets = asks.demands;
        let itself = asks.first.itself.as_slice();
        let other = asks.second.itself.as_slice();
        let parent = asks.first.parent.as_slice();
        let entered = asks.second.parent.as_slice();
        if !self.require_all(sets.itself, itself) {
            return false;
        }
        if !self.require_all(sets.other, other) {
            return false;
        }
        if !self.require_all(sets.parent.with(sets.left), parent) {
            return false;
        }
        if !self.require_all(sets.entered, entered) {
            return false;
        }
        if !self.keep(sets.there, itself, entered) {
            return false;
        }
        self.keep(sets.back, other, parent)
    }
}

/// Returns the draft with the profile's rules.
pub(crate) fn draft_of(alloc: Global, profile: &LearnedProfile) -> Result<Draft, AllocError> {
    let mut rules = vec![in alloc; Access(0); profile.inodes]?;
    for rule in &profile.rules {
        let place = rule.inode as usize;
        if place < rules.len() {
            rules[place] = rules[place].with(rule.rights);
        }
    }
    Ok(Draft {
        handled: profile.handled,
        rules,
    })
}

// Returns the entry that has the need, if any.
fn origin_of(need: Option<Need>) -> Option<Origin> {
    match need {
        Some(Need::Asks(origin) | Need::Moves(origin)) => Some(origin),
        None => None,
    }
}

// What finds the rights that grant something.
#[derive(Drop)]
struct Grants<'a> {
    profile: &'a LearnedProfile,
    needs: &'a Needs,
    draft: Draft,
    found: Vec<Grant>,
}

impl Grants<'_> {
    // Reports whether this right of the rule was found already.
    fn has(&self, rule: usize, right: Right) -> bool {
        self.found
            .iter()
            .any(|grant| grant.rule == rule && grant.right == right)
    }

    // Adds this right of the rule on the inode, unless it was found already.
    fn add(
        &mut self,
        alloc: Global,
        rule: usize,
        inode: u64,
        right: Right,
    ) -> Result<(), AllocError> {
        if self.has(rule, right) {
            return Ok(());
        }
        let need = need_of(alloc, &self.draft, self.needs, right, inode)?;
        self.found.push(Grant {
            rule,
            right,
            needed_by: origin_of(need),
        })?;
        Ok(())
    }

    // Adds those of the rights that rules grant on the path.
    fn add_all(&mut self, alloc: Global, rights: Access, path: &[u64]) -> Result<(), AllocError> {
        let profile = self.profile;
        for (number, rule) in profile.rules.iter().enumerate() {
            for right in Right::ALL {
                if rights.holds(right) && rule.rights.holds(right) && is_among(path, rule.inode) {
                    self.add(alloc, number, rule.inode, right)?;
                }
            }
        }
        Ok(())
    }
}

// Returns the rights of the profile's rules that grant what is asked.
fn grants_of(
    alloc: Global,
    profile: &LearnedProfile,
    needs: &Needs,
    asks: &Asks,
) -> Result<Vec<Grant>, AllocError> {
    let mut grants = Grants {
        profile,
        needs,
        draft: draft_of(alloc, profile)?,
        found: Vec::new(alloc),
    };
    let sets = asks.demands;
    grants.add_all(alloc, sets.itself, &asks.first.itself)?;
    grants.add_all(alloc, sets.other, &asks.second.itself)?;
    grants.add_all(alloc, sets.parent.with(sets.left), &asks.first.parent)?;
    grants.add_all(alloc, sets.entered, &asks.second.parent)?;
    Ok(grants.found)
}

// Returns what the call asks in the tree. None if something before policy refuses it, a descriptor's opening decides
// it, or memory ran out.
fn asks_of(alloc: Global, tree: &Plain, client: u64, call: &Call) -> Option<Asks>
    ensures asked { IfSome result (AreAsked tree.now call.now) }
    ensures judged { IfSome result (λ asks. kept_number call.now ≡ None) }
{
    if kept_number(call).is_some() {
        return None;
    }
    let caller = tree.client(client)?;
    let found = found_for(tree, caller, call)?;
    Asks::of_call(alloc, tree, call, &found).ok()
}

/// Returns why the profile's layer doesn't deny the call. None if that isn't known: the call is refused before policy,
/// a descriptor's opening decides it, the histories teach nothing, or memory ran out.
pub fn why_undenied(
    alloc: Global,
    basis: &Basis,
    profile: &LearnedProfile,
    trial: &Trial,
) -> Option<Undenied>
    requires some { 1 ≤ basis.now.header.now.nodes }
    requires most { basis.now.header.now.nodes ≤ TREE_NODES }
    ensures { IfSome result (λ undenied. undenied.is_by_all ≡ true
        → IsUndeniable (opened basis.now.header.now) (map (λ h. h.now) basis.now.histories.now) basis.now.client
        trial.now) }
{
    let first = basis.histories.first()?;
    let cut = cut_of(first, basis.client)?;
    let opening = Opening {
        header: basis.header,
        client: basis.client,
        early: &first[..cut],
    };
    let entries = basis.histories.get(trial.history)?;
    let Ok(needs) = opening.needs(alloc, basis.histories) else {
        return None;
    };
    let tree = opening.tree_behind(alloc, entries, trial.entries)?;
    let asks = asks_of(alloc, &tree, basis.client, trial.call)?;
    let grants = grants_of(alloc, profile, &needs, &asks).ok()?;
    Some(Undenied {
        grants,
        is_by_all: needs.imply(&asks),
    })
}
