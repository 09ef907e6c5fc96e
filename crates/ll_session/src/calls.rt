//! Calls that a client makes before its lines.

ghost use Rattle.std.specs.Prelude.{◌≡◌, ◌<◌, ◌≤◌, true, false, length, IfErr, OnOk};
ghost use Rattle.ll_plain.specs.Refusal.{is_refusal};
ghost use Rattle.ll_session.specs.Beside.{MakesBeside, StopsBeside};
ghost use Rattle.ll_session.specs.Session.{AreOthers};

use crate::refusal::{Opener, Refusal};
use crate::{Gate, Party, Tree};
use ll_client::Shape;
use ll_seq::{Call, Reply};
use std::sync::Wait;

// Reports whether the call is refused or denied.
fn is_refused(reply: &Reply) -> bool
    ensures { result ≡ is_refusal reply.now }
{
    matches!(reply, Reply::Refused(_) | Reply::Denied(_))
}

/// Errors: the reply, if the call is refused or denied.
pub fn unless_refused(reply: Reply) -> Result<(), Reply>
    ensures ok { OnOk result (is_refusal reply ≡ false) }
    ensures err { IfErr result (λ told. (told ≡ reply) × (is_refusal reply ≡ true)) }
{
    if is_refused(&reply) {
        return Err(reply);
    }
    drop(reply);
    Ok(())
}

/// Makes the calls of the client at this place in turn, which come before its lines. Errors: the first that is refused
/// or denied.
pub fn make_calls<N: Shape, R: Wait, G: Gate<N>>(
    rt: &R,
    tree: &Tree<N, G>,
    party: &mut Party<N>,
    place: usize,
    opener: Opener,
    calls: Vec<Call>,
) -> Result<(), Refusal>
    requires caller { place < length party.old }
    requires calls { AreOthers calls.items }
    ensures ok { OnOk result (MakesBeside N.limit party.old place calls.items party.new) }
    ensures err { IfErr result (λ refusal.
        StopsBeside N.limit party.old place calls.items refusal.calls refusal.reply party.new) }
    ensures opener { IfErr result (λ refusal. refusal.opener ≡ opener) }
    ensures some { IfErr result (λ refusal. 1 ≤ refusal.calls) }
    ensures count { length party.old ≤ length party.new }
{
    let mut made = 0;
    for call in calls {
        made += 1;
        match unless_refused(party.ask(rt, tree, place, call)) {
            Ok(()) => {}
            Err(reply) => {
                return Err(Refusal {
                    opener,
                    calls: made,
                    reply,
                });
            }
        }
    }
    Ok(())
}
