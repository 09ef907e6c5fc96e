//! The decision of a call: from what its paths find to its effect or its refusal.

ghost use Rattle.std.specs.Prelude.{◌≡◌, ℕ, true, [], length, slice_get, IfOk, MatchResult};
ghost use Rattle.ll_decide.specs.Judge.{AreGranted};
ghost use Rattle.ll_seq.specs.State.{State};
ghost use Rattle.ll_seq.specs.Step.{client_of};
ghost use Rattle.ll_seq.specs.Decided.{IsRefused, IsDone};
ghost use Rattle.ll_seq.specs.Demanded.{chains};
ghost use Rattle.ll_seq.specs.Found.{AreFacts};
ghost use Rattle.ll_seq.specs.Near.{IsNear};
ghost use Rattle.ll_seq.specs.Passed.{Passed, has_path};
ghost use Rattle.ll_seq.specs.Asked.{call_denials};
ghost use Rattle.ll_seq.specs.declared.client.ClientRecord as record_of;
ghost use Rattle.ll_seq.specs.Stages.{early_refusals};

use crate::before::{refused_early, refused_found};
use crate::call_demands::demands_of;
use crate::changes::Effect;
use crate::effects::effect_of;
use crate::found::Found;
use crate::later::refused_after;
use crate::{Call, ClientRecord, Reply};
use ll_decide::{Denial, Granted, least_denial};

/// The denial of a call on paths that nothing refuses before policy, or None.
fn denial_of(call: &Call, found: &Found, granted: &Granted<'_>) -> Option<Denial>
    requires other { length granted.now.other.now ≡ length granted.now.itself.now }
    requires parent { length granted.now.parent.now ≡ length granted.now.itself.now }
    requires entered { length granted.now.entered.now ≡ length granted.now.itself.now }
    ensures { (s : State) (c : record_of.ClientRecord) → Passed s c call.now found.now → has_path call.now ≡ true
        → AreGranted c.domain (chains s call.now) granted.now → slice_get (call_denials s c call.now) 0 ≡ result }
{
    if granted.itself.len() == 0 {
        return None;
    }
    let demands = demands_of(call, found);
    least_denial(&demands, granted)
}

/// Decides a call that names a path. Returns its effect. Errors: the reply, if the call is refused or denied.
pub fn decide<'a>(
    caller: &ClientRecord,
    call: &'a Call,
    found: &Found,
    granted: &Granted<'_>,
) -> Result<Effect<'a>, Reply>
    requires other { length granted.now.other.now ≡ length granted.now.itself.now }
    requires parent { length granted.now.parent.now ≡ length granted.now.itself.now }
    requires entered { length granted.now.entered.now ≡ length granted.now.itself.now }
    ensures decided { (s : State) (n : ℕ) → client_of s n ≡ caller.now → has_path call.now ≡ true
        → AreFacts s call.now found.now → AreGranted caller.now.domain (chains s call.now) granted.now
        → MatchResult result (IsDone s n call.now) (IsRefused s n call.now) }
    ensures near { IfOk result (IsNear call.now found.now) }
{
    if let Some(errno) = refused_early(caller, call) {
        return Err(Reply::Refused(errno));
    }
    decide_passed(caller, call, found, granted)
}

/// Decides a call that passed the early checks, as every call that walks did. Returns its effect. Errors: the reply, if
/// the call is refused or denied.
pub fn decide_passed<'a>(
    caller: &ClientRecord,
    call: &'a Call,
    found: &Found,
    granted: &Granted<'_>,
) -> Result<Effect<'a>, Reply>
    requires early { early_refusals caller.now call.now ≡ [] }
    requires other { length granted.now.other.now ≡ length granted.now.itself.now }
    requires parent { length granted.now.parent.now ≡ length granted.now.itself.now }
    requires entered { length granted.now.entered.now ≡ length granted.now.itself.now }
    ensures decided { (s : State) (n : ℕ) → client_of s n ≡ caller.now → has_path call.now ≡ true
        → AreFacts s call.now found.now → AreGranted caller.now.domain (chains s call.now) granted.now
        → MatchResult result (IsDone s n call.now) (IsRefused s n call.now) }
    ensures near { IfOk result (IsNear call.now found.now) }
{
    if let Some(errno) = refused_found(call, found) {
        return Err(Reply::Refused(errno));
    }
    if let Some(denial) = denial_of(call, found, granted) {
        return Err(Reply::Denied(denial));
    }
    if let Some(errno) = refused_after(caller, call, found) {
        return Err(Reply::Refused(errno));
    }
    Ok(effect_of(caller, call, found, granted))
}
