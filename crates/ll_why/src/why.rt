//! Why a client's call is denied, or isn't.

ghost use Rattle.std.specs.Prelude.{◌≡◌, ℕ, None, IfOk, slice_get};
ghost use Rattle.ll_seq.specs.Passed.{Passed};
ghost use Rattle.ll_seq.specs.Asked.{call_denials};
ghost use Rattle.ll_seq.specs.State.{State};
ghost use Rattle.ll_seq.specs.Step.{client_of};
ghost use Rattle.ll_seq.specs.declared.call.Call as call_of;
ghost use Rattle.ll_why.specs.Reasons.{IsAnswered, IsReason, IsWhy, kept_number};

use crate::asks::Asks;
use crate::reason::{Reason, denial_of, layer_reasons};
use ll_decide::{Cause, Denial, Place};
use ll_plain::Plain;
use ll_rights::{Errno, Right};
use ll_seq::{Call, ClientRecord, Found, refused_early, refused_found};
use std::alloc::{AllocError, Global};

/// Why a client's call is denied, or isn't.
#[derive(Drop)]
pub enum Why {
    /// The refusal that comes before policy.
    Refused(Errno),
    /// No layer is asked: the descriptor's opening decided whether the call is denied.
    Kept(Option<Denial>),
    /// The client's layers are asked.
    Judged(Reason),
}

/// Returns the descriptor whose opening decided the call.
pub fn kept_number(call: &Call) -> Option<u64>
    ensures { result ≡ kept_number call.now }
{
    match call {
        Call::Ftruncate(number, _) => Some(*number),
        _ => None,
    }
}

// Returns the denial of ftruncate that the descriptor keeps.
fn kept_denial(caller: &ClientRecord, number: u64) -> Option<Denial>
    ensures { (s : State) (size : ℕ)
        → result ≡ slice_get (call_denials s caller.now (call_of.Call.Ftruncate number size)) 0 }
{
    let held = caller.descriptors.get(number)?;
    let layer = held.kept?;
    Some(Denial {
        cause: Cause::EACCES,
        layer,
        right: Right::TRUNCATE,
        place: Place::At,
    })
}

// Returns why the caller's layers deny the call, or allow it, given what is found for it.
fn reason_of(
    alloc: Global,
    tree: &Plain,
    caller: &ClientRecord,
    call: &Call,
    found: &Found,
) -> Result<Reason, AllocError>
    requires { kept_number call.now ≡ None }
    ensures { IfOk result (λ told. Passed tree.now caller.now call.now found.now
        → IsReason tree.now caller.now call.now told) }
{
    let asks = Asks::of_call(alloc, tree, call, found)?;
    let layers = layer_reasons(alloc, caller.domain.layers(), &asks)?;
    let denial = denial_of(alloc, &caller.domain, &asks);
    Ok(Reason {
        asks,
        denial,
        layers,
    })
}

/// Returns why the caller's call would be denied, or not, in the tree. Errors: memory ran out.
pub fn why_of(
    alloc: Global,
    tree: &Plain,
    caller: &ClientRecord,
    call: &Call,
) -> Result<Why, AllocError>
    ensures why { IfOk result (IsWhy tree.now caller.now call.now) }
    ensures answered { IfOk result (λ told. (n : ℕ) → client_of tree.now n ≡ caller.now
        → IsAnswered tree.now n call.now told) }
{
    if let Some(errno) = refused_early(caller, call) {
        return Ok(Why::Refused(errno));
    }
    let found = tree.found(&caller.domain, call);
    if let Some(errno) = refused_found(call, &found) {
        return Ok(Why::Refused(errno));
    }
    if let Some(number) = kept_number(call) {
        return Ok(Why::Kept(kept_denial(caller, number)));
    }
    let told = reason_of(alloc, tree, caller, call, &found)?;
    Ok(Why::Judged(told))
}
