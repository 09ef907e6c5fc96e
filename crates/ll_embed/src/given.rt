//! The numbers and texts that set a tree up, and the script that is run in it.

ghost use Rattle.std.specs.Prelude.{◌≡◌, ◌⊎◌, ◌≤◌, [], None, Some, IfErr, IfOk, OnOk, true};
ghost use Rattle.std.specs.Str.{IsUtf8};
ghost use Rattle.ll_policy.specs.Plan.{Plan};
ghost use Rattle.ll_rights.specs.declared.limits.TheConstants.{HISTORY_ENTRIES, TREE_NODES};
ghost use Rattle.ll_session.specs.Session.{AreOthers};
ghost use Rattle.ll_wire.specs.Devices.{line_feeds};
ghost use Rattle.ll_embed.specs.Answers.{Fits, IsBare, IsByPlan, IsFaultOf, IsPolicy, IsSetBy, MayFail, PolicyAnswers};
ghost use Rattle.ll_embed.specs.Answers.{level_by, limit_by, order_in, profile_of};
ghost use Rattle.ll_policy.specs.declared.fault.PolicyFault.{PolicyFault};
ghost use Rattle.ll_embed.specs.declared.fault.Fault.{Fault};

use crate::answer::Answer;
use crate::fault::Fault;
use ll_policy::{Policy, PolicyFault};
use ll_rights::Abi;
use ll_rights::limits::{HISTORY_ENTRIES, TREE_NODES};
use ll_seq::{Call, Rules};
use ll_session::Setup;
use std::alloc::Global;

/// The numbers and texts that set a tree up, and the script that is run in it. The level 0, the limit 0 and empty texts
/// aren't given.
#[derive(Clone, Copy)]
pub struct Given<'a> {
    pub level: u64,
    pub nodes: usize,
    pub history: usize,
    pub policy: &'a [u8],
    pub profile: &'a [u8],
    pub script: &'a [u8],
}

// Counts the line feeds of a text.
fn count_feeds(text: &[u8]) -> usize
    ensures { result ≡ line_feeds text.now }
{
    text.iter().filter(|byte| **byte == b'\n').count()
}

// Returns the policy that the text gives. Errors: the text's first fault; memory ran out.
fn policy_of(alloc: Global, text: &[u8]) -> Result<Policy, Fault>
    ensures policy { IfOk result (IsPolicy text.now) }
    ensures fault { IfErr result (λ fault. (fault ≡ Fault.NoMemory)
        ⊎ ((of : PolicyFault) × (fault ≡ Fault.Policy of) × IsFaultOf text.now of)) }
{
    let Ok(text) = str::from_utf8(text) else {
        return Err(Fault::Policy(PolicyFault::NotToml));
    };
    match Policy::from_text(alloc, text) {
        Ok(policy) => Ok(policy),
        Err(PolicyFault::NoMemory) => Err(Fault::NoMemory),
        Err(fault) => Err(Fault::Policy(fault)),
    }
}

/// Returns whether the text is a policy: the status 0 without a text, or its first fault.
pub fn policy_answer(alloc: Global, text: &[u8]) -> Answer
    ensures { PolicyAnswers text.now result.status result.text.items }
{
    match policy_of(alloc, text) {
        Ok(policy) => {
            drop(policy);
            Answer {
                status: 0,
                text: Vec::new(alloc),
            }
        }
        Err(fault) => Answer::of_fault(alloc, fault, text),
    }
}

impl Given<'_> {
    // Returns the level, without a policy. Errors: a number is out of its bounds, or a profile is given.
    fn level_alone(&self) -> Result<Abi, Fault>
        ensures level { IfOk result (λ abi. abi ≡ level_by self.now.level) }
        ensures fits { OnOk result (self.now.level ≤ 3) }
        ensures profile { OnOk result (self.now.profile.now ≡ []) }
        ensures misfit { IfErr result (λ fault. (fault ≡ Fault.Misfit)
            × (self.now.profile.now ≡ [] → self.now.level ≤ 3 → ⊥)) }
    {
        if !self.profile.is_empty() {
            return Err(Fault::Misfit);
        }
        if self.level == 0 {
            return Ok(Abi::NEWEST);
        }
        match Abi::new(self.level) {
            Some(abi) => Ok(abi),
            None => Err(Fault::Misfit),
        }
    }

    // Returns the room in the history beside so many calls of the loader and the profile.
    fn limit(&self, loader: usize, profile: usize) -> usize
        requires most_entries { self.now.history ≤ HISTORY_ENTRIES }
        ensures limit { result ≡ limit_by (order_in self.now) loader profile }
        ensures some { 1 ≤ result }
        ensures most { result ≤ HISTORY_ENTRIES }
    {
        if self.history > 0 {
            return self.history;
        }
        loader
            .saturating_add(profile)
            .saturating_add(count_feeds(self.script))
            .saturating_add(3)
            .min(HISTORY_ENTRIES)
    }

    // Returns the calls of the profile, or none without one.
    fn profile_calls(&self, alloc: Global, policy: &Policy) -> Result<Vec<Call>, Fault>
        ensures calls { IfOk result (λ calls. Some calls.items ≡ profile_of self.now.profile.now policy.now) }
        ensures others { IfOk result (λ calls. AreOthers calls.items) }
        ensures fault { IfErr result (λ fault. (fault ≡ Fault.NoMemory) ⊎ ((fault ≡ Fault.NoProfile)
            × ((IsUtf8 self.now.profile.now → ⊥) ⊎ (profile_of self.now.profile.now policy.now ≡ None)))) }
    {
        if self.profile.is_empty() {
            return Ok(Vec::new(alloc));
        }
        let Ok(name) = str::from_utf8(self.profile) else {
            return Err(Fault::NoProfile);
        };
        match policy.profile(alloc, name) {
            Ok(Some(calls)) => Ok(calls),
            Ok(None) => Err(Fault::NoProfile),
            Err(_) => Err(Fault::NoMemory),
        }
    }

    // Returns the setup by the policy.
    fn by_policy(&self, alloc: Global) -> Result<Setup, Fault>
        requires given { self.now.policy.now ≡ [] → ⊥ }
        requires level { self.now.level ≡ 0 }
        requires some { 1 ≤ self.now.nodes }
        requires most { self.now.nodes ≤ TREE_NODES }
        requires most_entries { self.now.history ≤ HISTORY_ENTRIES }
        ensures setup { IfOk result (λ setup. (plan : Plan) × IsPolicy self.now.policy.now plan
            × IsByPlan (order_in self.now) plan setup) }
        ensures fault { IfErr result (MayFail (order_in self.now)) }
    {
        let policy = policy_of(alloc, self.policy)?;
        let profile = self.profile_calls(alloc, &policy)?;
        let Ok(opening) = policy.opening(alloc) else {
            return Err(Fault::NoMemory);
        };
        Ok(Setup {
            rules: Rules {
                abi: policy.abi(),
                copies: true,
            },
            nodes: self.nodes,
            history: self.limit(opening.len(), profile.len()),
            loader: Some(opening),
            profile,
        })
    }

    // Returns the setup without a policy.
    fn bare(&self, alloc: Global, abi: Abi) -> Setup
        requires some { 1 ≤ self.now.nodes }
        requires most { self.now.nodes ≤ TREE_NODES }
        requires most_entries { self.now.history ≤ HISTORY_ENTRIES }
        requires level { abi ≡ level_by self.now.level }
        ensures { IsBare (order_in self.now) result }
    {
        Setup {
            rules: Rules { abi, copies: true },
            nodes: self.nodes,
            history: self.limit(0, 0),
            loader: None,
            profile: Vec::new(alloc),
        }
    }

    /// Returns the setup of a tree. Errors: why there is none.
    pub fn setup(&self, alloc: Global) -> Result<Setup, Fault>
        ensures copies { IfOk result (λ setup. setup.rules.copies ≡ true) }
        ensures fits { OnOk result (Fits (order_in self.now)) }
        ensures setup { IfOk result (IsSetBy self.now.policy.now (order_in self.now)) }
        ensures fault { IfErr result (MayFail (order_in self.now)) }
    {
        if self.nodes < 1 || self.nodes > TREE_NODES {
            return Err(Fault::Misfit);
        }
        if self.history > HISTORY_ENTRIES {
            return Err(Fault::Misfit);
        }
        if self.policy.is_empty() {
            let abi = self.level_alone()?;
            return Ok(self.bare(alloc, abi));
        }
        if self.level != 0 {
            return Err(Fault::Misfit);
        }
        self.by_policy(alloc)
    }
}
