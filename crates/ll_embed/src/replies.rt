//! What is asked about replies.

ghost use Rattle.std.specs.Prelude.{◌≡◌, ◌≤◌, length};
ghost use Rattle.ll_plain.specs.Refusal.{is_refusal};
ghost use Rattle.ll_session.specs.PartySession.{brought};

use ll_seq::Reply;

/// Reports whether the call is refused or denied.
pub fn is_refused(reply: &Reply) -> bool
    ensures { result ≡ is_refusal reply.now }
{
    matches!(reply, Reply::Refused(_) | Reply::Denied(_))
}

/// Returns how many clients a call with this reply brings.
pub fn count_brought(reply: &Reply) -> u64
    ensures count { result ≡ length (brought reply.now) }
    ensures most { result ≤ 1 }
{
    match reply {
        Reply::Spawned(_) => 1,
        _ => 0,
    }
}
