//! The least profile that meets what calls need.

ghost use Rattle.std.specs.Prelude.{◌≡◌, ◌↔◌, ℕ, IfErr, IfOk, IsTrue};
ghost use Rattle.ll_rules.specs.Layer.{Layer, grants_on};
ghost use Rattle.ll_seq.specs.State.{State};
ghost use Rattle.ll_learn.specs.Draft.{IsInScope, IsScope, IsUnmet};
ghost use Rattle.ll_learn.specs.Framed.{MeetsNeeds};
ghost use Rattle.ll_learn.specs.Lesson.{IsCalledLeast, IsOfSites};
ghost use Rattle.ll_learn.specs.Mended.{AreSiteChains, KnowEach};
ghost use Rattle.ll_learn.specs.Needs.{AreRooted, Meets};

use crate::draft::{Draft, Scope};
use crate::needs::Needs;
use crate::profile::LearnedProfile;
use crate::rules::rules_of;
use crate::site::Sites;
use crate::site_chains::SiteChains;
use crate::solution::{DraftFault, least_draft};
use std::alloc::Global;

// Reports whether the draft is called least. Nobody else moves anything; and each of its rights is asked on a path
// where no rule further down may have it, or nothing is widened and no directory that nodes move into has moved.
fn is_least(draft: &Draft, scope: &Scope, needs: &Needs, chains: &SiteChains) -> bool
    ensures { (s : State) → AreSiteChains s chains.now → KnowEach s scope.now chains.now
        → IsTrue result ↔ IsCalledLeast s scope.now needs.now draft.now }
{
    if needs.outside.is_some() {
        return false;
    }
    draft.is_charged(scope, needs) || (scope.beneath.is_empty() && chains.is_still(scope, needs))
}

/// Returns the profile of a layer of the scope that meets the needs, but not without any one right of any one rule. Its
/// rules are on these nodes. The directories among them have these chains.
pub(crate) fn profile_of(
    alloc: Global,
    needs: &Needs,
    scope: &Scope,
    sites: &Sites,
    chains: &SiteChains,
) -> Result<LearnedProfile, DraftFault>
    requires scope { IsScope scope.now }
    requires rooted { AreRooted needs.now }
    requires sites { IsOfSites sites.now scope.now }
    ensures meets { IfOk result (MeetsNeeds sites.now chains.now scope.now needs.now) }
    ensures unmet { IfErr result (λ fault. (number : ℕ) → fault ≡ DraftFault.Unmet number
        → IsUnmet scope.now needs.now.asks.items number) }
    ensures none { IfErr result (λ fault. (number : ℕ) → fault ≡ DraftFault.Unmet number → (layer : Layer)
        → IsInScope scope.now layer → Meets (grants_on layer) needs.now → ⊥) }
{
    let draft = match least_draft(alloc, needs, scope) {
        Ok(draft) => draft,
        Err(fault) => return Err(fault),
    };
    let Ok(rules) = rules_of(alloc, &draft, needs, sites) else {
        return Err(DraftFault::NoMemory);
    };
    Ok(LearnedProfile {
        is_least: is_least(&draft, scope, needs, chains),
        handled: draft.handled,
        rules,
        inodes: draft.rules.len(),
    })
}
