//! Which calls walk, and which need the gate.

ghost use Rattle.std.specs.Prelude.{◌≡◌, ◌||◌, not, Some, is_none, if◌then◌else◌};
ghost use Rattle.ll_seq.specs.Call.{targets};
ghost use Rattle.ll_laws.specs.World as world;

use ll_seq::{Call, ClientRecord, Targets, refused_early, targets_of};

pub(crate) fn names_path(call: &Call) -> bool
    ensures { result ≡ world.has_any (targets call.now) }
{
    match targets_of(call) {
        Targets::No => false,
        Targets::One(_) => true,
        Targets::Two(_, _) => true,
    }
}

/// Reports whether the call walks.
pub fn walks(caller: &ClientRecord, call: &Call) -> bool
    ensures { result ≡ world.is_walked caller.now call.now }
{
    names_path(call) && refused_early(caller, call).is_none()
}

/// Whether the call may begin, given the gate's holder.
pub(crate) fn is_free(gate: Option<u64>, call: &Call) -> bool
    ensures { result ≡ (not (world.takes_gate call.now) || is_none gate) }
{
    !call.takes_gate() || gate.is_none()
}

/// The gate's holder after the client's call has begun.
pub(crate) fn next_gate(gate: Option<u64>, client: u64, call: &Call) -> Option<u64>
    ensures { result ≡ (if world.takes_gate call.now then Some client else gate) }
{
    if call.takes_gate() {
        Some(client)
    } else {
        gate
    }
}
