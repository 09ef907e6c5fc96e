//! Checks one entry after those before it.

ghost use Rattle.std.specs.Prelude.{◌≡◌, ◌<◌, ◌≤◌, ◌+◌, ◌-◌, ◌^◌, ◌↔◌, ℕ, true, IsTrue, IfOk, OnErr};
ghost use Rattle.ll_rights.specs.Map.{has};
ghost use Rattle.ll_seq.specs.Memory.{MayStarve};
ghost use Rattle.ll_seq.specs.History.{is_connect, MayStand, after};

use ll_plain::Plain;
use ll_rights::Errno;
use ll_seq::{Call, Entry, Reply};
use std::alloc::AllocError;

fn is_done(reply: &Reply) -> bool
    ensures { IsTrue result ↔ (reply.now ≡ Reply.Done) }
{
    matches!(reply, Reply::Done)
}

/// The number for a spawned client: the one in the reply, or else one that no client has.
fn fresh_number(tree: &Plain, reply: &Reply) -> u64
    ensures told { (number : ℕ) → reply.now ≡ Reply.Spawned number → result ≡ number }
    ensures free { has tree.now.clients result ≡ true → reply.now ≡ Reply.Spawned result }
{
    match reply {
        Reply::Spawned(number) => *number,
        _ => tree.free_number(),
    }
}

/// Makes the entry's call. Returns whether the entry is legal here. Errors: memory ran out.
pub(crate) fn may_stand(tree: &mut Plain, entry: &Entry) -> Result<bool, AllocError>
    requires { tree.old.next < 2 ^ 64 - 1 }
    ensures stands { IfOk result (λ stands. IsTrue stands ↔ MayStand tree.old entry.now) }
    ensures after { IfOk result (λ stands. IsTrue stands → tree.new ≡ after tree.old entry.now) }
    ensures numbers { tree.new.next ≤ tree.old.next + 1 }
    ensures starved { OnErr result (MayStarve tree.old entry.now.client entry.now.call) }
{
    let connects = entry.call.is_connect();
    if tree.has_client(entry.client) == connects {
        return Ok(false);
    }
    if connects && !is_done(&entry.reply) {
        return Ok(false);
    }
    let fresh = fresh_number(tree, &entry.reply);
    if tree.has_client(fresh) {
        return Ok(false);
    }
    let told = tree.apply(entry.client, &entry.call, fresh);
    if told.wants_memory() {
        return Err(AllocError);
    }
    Ok(told.is(&entry.reply))
}
