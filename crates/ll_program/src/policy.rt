//! What the program sets up from its words and a policy.

ghost use Rattle.std.specs.Prelude.{◌≡◌, ◌⊎◌, ℕ, List, [], Some, None, true, is_some, IfOk, IfErr, IfSome, IsOk};
ghost use Rattle.std.specs.Prelude.{OnErr, OnOk};
ghost use Rattle.std.specs.Str.{IsUtf8};
ghost use Rattle.toml.specs.Parse.{parse_document};
ghost use Rattle.ll_policy.specs.declared.fault.PolicyFault.{PolicyFault};
ghost use Rattle.ll_policy.specs.Faults.{document_faults};
ghost use Rattle.ll_policy.specs.Plan.{IsPlanOf};
ghost use Rattle.ll_program.specs.Options.{TreeOrder, tree_in};
ghost use Rattle.ll_session.specs.Session.{AreOthers};
ghost use Rattle.ll_program.specs.Policy.{ByLevel, ByPlan, IsSetup, Lacks, profile_of};

use crate::TreeOptions;
use crate::failure::Failure;
use crate::text::read_text;
use ll_policy::{Policy, PolicyFault};
use ll_rights::Abi;
use ll_seq::{Call, Rules};
use ll_session::Setup;
use std::alloc::Global;
use std::io::Read;

/// Returns the policy that a text gives. Errors: the text's first fault, whatever else is asked for; memory ran out.
pub fn policy_of(alloc: Global, text: &[u8]) -> Result<Policy, Failure>
    ensures utf8 { OnOk result (IsUtf8 text.now) }
    ensures right { OnOk result (document_faults (parse_document text.now) ≡ []) }
    ensures plan { IfOk result (IsPlanOf (parse_document text.now)) }
    ensures failure { IfErr result (λ failure. (order : TreeOrder) → Lacks order text.now failure) }
    ensures alone { IfErr result (λ failure. (failure ≡ Failure.NoMemory)
        ⊎ ((fault : PolicyFault) × (failure ≡ Failure.Policy fault))) }
{
    match str::from_utf8(text) {
        Ok(text) => match Policy::from_text(alloc, text) {
            Ok(policy) => Ok(policy),
            Err(fault) => Err(Failure::of_policy(fault)),
        },
        Err(_) => Err(Failure::Policy(PolicyFault::NotToml)),
    }
}

// Returns the calls of the profile asked for, or none without one.
fn calls_of(alloc: Global, options: &TreeOptions, policy: &Policy) -> Result<Vec<Call>, Failure>
    ensures calls { IfOk result (λ calls. Some calls.items ≡ profile_of (tree_in options.now).profile policy.now) }
    ensures others { IfOk result (λ calls. AreOthers calls.items) }
    ensures failure { IfErr result (λ failure. (failure ≡ Failure.NoMemory)
        ⊎ ((failure ≡ Failure.CommandLine) × (profile_of (tree_in options.now).profile policy.now ≡ None))) }
{
    let Some(name) = options.profile else {
        return Ok(Vec::new(alloc));
    };
    match policy.profile(alloc, name) {
        Ok(Some(calls)) => Ok(calls),
        Ok(None) => Err(Failure::CommandLine),
        Err(_) => Err(Failure::NoMemory),
    }
}

/// Returns the setup that the options ask for, by this policy. Errors: it doesn't have the profile; memory ran out.
pub fn setup_by(alloc: Global, options: &TreeOptions, policy: &Policy) -> Result<Setup, Failure>
    ensures nodes { IfOk result (λ setup. setup.nodes ≡ options.now.nodes) }
    ensures history { IfOk result (λ setup. setup.history ≡ options.now.history) }
    ensures setup { IfOk result (ByPlan (tree_in options.now) policy.now) }
    ensures failure { IfErr result (λ failure. (failure ≡ Failure.NoMemory)
        ⊎ ((failure ≡ Failure.CommandLine) × (profile_of (tree_in options.now).profile policy.now ≡ None))) }
{
    let profile = calls_of(alloc, options, policy)?;
    let Ok(opening) = policy.opening(alloc) else {
        return Err(Failure::NoMemory);
    };
    Ok(Setup {
        rules: Rules {
            abi: policy.abi(),
            copies: true,
        },
        nodes: options.nodes,
        history: options.history,
        loader: Some(opening),
        profile,
    })
}

// Returns the setup without a policy.
fn by_level(alloc: Global, options: &TreeOptions) -> Setup
    ensures nodes { result.nodes ≡ options.now.nodes }
    ensures history { result.history ≡ options.now.history }
    ensures setup { ByLevel (tree_in options.now) result }
{
    Setup {
        rules: Rules {
            abi: options.level.unwrap_or(Abi::NEWEST),
            copies: true,
        },
        nodes: options.nodes,
        history: options.history,
        loader: None,
        profile: Vec::new(alloc),
    }
}

/// Returns the setup that the options ask for, with the policy in this file if they name one. Otherwise the file isn't
/// read. Errors: the policy's first fault; it doesn't have the profile; the file can't be read; memory ran out.
pub fn setup_of<R: Read>(
    alloc: Global,
    options: &TreeOptions,
    file: &mut R,
) -> Result<Setup, Failure>
    ensures setup { IfOk result (λ setup. (text : List ℕ) × IfSome (R.remaining file.old) (λ told. text ≡ told)
        × IsSetup (tree_in options.now) text setup) }
    ensures failure { IfErr result (λ failure. (text : List ℕ) × IfSome (R.remaining file.old) (λ told. text ≡ told)
        × Lacks (tree_in options.now) text failure) }
    ensures alone { options.now.policy ≡ None → IsOk result }
    ensures named { OnErr result (is_some options.now.policy ≡ true) }
{
    if options.policy.is_none() {
        return Ok(by_level(alloc, options));
    }
    let text = read_text(alloc, file)?;
    match policy_of(alloc, text.as_slice()) {
        Ok(policy) => setup_by(alloc, options, &policy),
        Err(failure) => Err(failure),
    }
}
