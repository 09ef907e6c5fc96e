//! The rules of a draft, with paths and reasons.

ghost use Rattle.std.specs.Prelude.{◌≡◌, ◌<◌, ◌≤◌, ◌^◌, ◌⊎◌, ◌==◌, ◌&&◌, ◌||◌, ◌++◌, ◌∷◌, [], ℕ, true, false, IfOk};
ghost use Rattle.std.specs.Prelude.{◌+◌, IfSome, None, Ok, OnOk, Some, if◌then◌else◌};
ghost use Rattle.ll_rights.specs.Access.{holds};
ghost use Rattle.std.specs.List.{count_by, list_any};
ghost use Rattle.ll_seq.specs.State.{State};
ghost use Rattle.ll_seq.specs.Tree.{named};
ghost use Rattle.ll_learn.specs.Draft.{has};
ghost use Rattle.ll_learn.specs.Lesson.{AreNamed, AreOnce, AreRulesOf, CanHold, IsNeededBy, gives, is_on};
ghost use Rattle.ll_learn.specs.Lesson.{origin_of};
ghost use Rattle.ll_learn.specs.Sites.{AreSites, IsSpelt};

use crate::draft::{Draft, Need};
use crate::needs::{Needs, Origin};
use crate::profile::LearnedRule;
use crate::site::{Site, Sites, copy_of};
use crate::solution::need_of;
use ll_rights::{Access, Right};
use std::alloc::{AllocError, Global};

// Returns the rights of the draft's rule on the inode.
fn rights_on(draft: &Draft, inode: u64) -> Access
    ensures known { result.0 < 2 ^ 15 }
    ensures rights { (right : ℕ) → right < 15 → holds result.0 right ≡ has draft.now right inode }
{
    let place = inode as usize;
    if place < draft.rules.len() {
        Access(draft.rules[place].0 & Access::ALL.0)
    } else {
        Access(0)
    }
}

// Returns the entry that has the need.
fn origin_of(need: Need) -> Origin
    ensures { result ≡ origin_of need }
{
    match need {
        Need::Asks(origin) => origin,
        Need::Moves(origin) => origin,
    }
}

// Returns the earlier of two entries. `first` may be missing.
fn earlier(first: Option<Origin>, second: Origin) -> Origin
    ensures { (first ≡ Some result) ⊎ (result ≡ second) }
{
    match first {
        Some(origin) if (origin.history, origin.entry) <= (second.history, second.entry) => origin,
        _ => second,
    }
}

// Returns the earlier of the first entry so far and one, if any, that needs this right on the inode.
fn with_need(
    alloc: Global,
    draft: &Draft,
    needs: &Needs,
    inode: u64,
    right: Right,
    first: Option<Origin>,
) -> Result<Option<Origin>, AllocError>
    ensures { IfSome first (IsNeededBy draft.now needs.now inode)
        → IfOk result (λ after. IfSome after (IsNeededBy draft.now needs.now inode)) }
{
    if !draft.has(right, inode) {
        return Ok(first);
    }
    match need_of(alloc, draft, needs, right, inode)? {
        Some(need) => Ok(Some(earlier(first, origin_of(need)))),
        None => Ok(first),
    }
}

// Returns the first of the entries that the rule's rights on the inode are needed by, one for each right.
fn first_need(
    alloc: Global,
    draft: &Draft,
    needs: &Needs,
    inode: u64,
) -> Result<Option<Origin>, AllocError>
    ensures { IfOk result (λ first. IfSome first (IsNeededBy draft.now needs.now inode)) }
{
    let mut first = None;
    for right in Right::ALL {
        first = with_need(alloc, draft, needs, inode, right, first)?;
    }
    Ok(first)
}

// Returns the draft's rule on the node, if it has one.
fn rule_on(
    alloc: Global,
    draft: &Draft,
    needs: &Needs,
    site: &Site,
) -> Result<Option<LearnedRule>, AllocError>
    ensures none { result ≡ Ok None → (right : ℕ) → right < 15 → has draft.now right site.now.inode ≡ false }
    ensures inode { IfOk result (λ found. IfSome found (λ rule. rule.inode ≡ site.now.inode)) }
    ensures path { IfOk result (λ found. IfSome found (λ rule. rule.path ≡ site.now.path)) }
    ensures rights { IfOk result (λ found. IfSome found (λ rule. (right : ℕ) → right < 15
        → holds rule.rights.0 right ≡ has draft.now right site.now.inode)) }
    ensures known { IfOk result (λ found. IfSome found (λ rule. rule.rights.0 < 2 ^ 15)) }
    ensures some { IfOk result (λ found. IfSome found (λ rule. 1 ≤ rule.rights.0)) }
    ensures reason { IfOk result (λ found. IfSome found (λ rule.
        IfSome rule.needed_by (IsNeededBy draft.now needs.now rule.inode))) }
{
    let inode = site.inode;
    let rights = rights_on(draft, inode);
    if rights.0 == 0 {
        return Ok(None);
    }
    let path = copy_of(alloc, &site.path)?;
    let needed_by = first_need(alloc, draft, needs, inode)?;
    Ok(Some(LearnedRule {
        inode,
        path,
        rights,
        needed_by,
    }))
}

// Appends the rule.
fn push_rule(rules: &mut Vec<LearnedRule>, rule: LearnedRule) -> Result<(), AllocError>
    ensures { OnOk result (rules.new.items ≡ rules.old.items ++ rule ∷ []) }
{
    match rules.push(rule) {
        Ok(()) => Ok(()),
        Err(refused) => {
            drop(refused);
            Err(AllocError)
        }
    }
}

// Appends the draft's rule on the node, if it has one.
fn add_rule(
    alloc: Global,
    draft: &Draft,
    needs: &Needs,
    site: &Site,
    rules: &mut Vec<LearnedRule>,
) -> Result<(), AllocError>
    ensures rules { OnOk result ((inode right : ℕ) → right < 15 → list_any (gives inode right) rules.new.items
        ≡ (list_any (gives inode right) rules.old.items
        || ((site.now.inode == inode) && has draft.now right inode))) }
    ensures named { OnOk result ((s : State) → IsSpelt site.now.path → named s site.now.path ≡ Some site.now.inode
        → AreNamed s rules.old.items → AreNamed s rules.new.items) }
    ensures once { OnOk result ((inode : ℕ) → count_by (is_on inode) rules.new.items
        ≤ count_by (is_on inode) rules.old.items + (if site.now.inode == inode then 1 else 0)) }
{
    match rule_on(alloc, draft, needs, site)? {
        Some(rule) => push_rule(rules, rule),
        None => Ok(()),
    }
}

/// Returns the draft's rules, which are on these nodes, in their order. Errors: memory ran out.
pub(crate) fn rules_of(
    alloc: Global,
    draft: &Draft,
    needs: &Needs,
    sites: &Sites,
) -> Result<Vec<LearnedRule>, AllocError>
    requires { (inode right : ℕ) → right < 15 → has draft.now right inode ≡ true → CanHold sites.now inode right }
    ensures rules { IfOk result (λ rules. AreRulesOf draft.now rules.items) }
    ensures named { IfOk result (λ rules. (s : State) (all : ℕ) → AreSites s all sites.now
        → AreNamed s rules.items) }
    ensures once { IfOk result (λ rules. (s : State) (all : ℕ) → AreSites s all sites.now → AreOnce rules.items) }
{
    let mut rules = Vec::new(alloc);
    for site in &sites.rows {
        add_rule(alloc, draft, needs, site, &mut rules)?;
    }
    Ok(rules)
}
