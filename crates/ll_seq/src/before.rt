//! The refusals that are checked before policy.

ghost use Rattle.std.specs.Prelude.{◌≡◌, [], None, slice_get};
ghost use Rattle.ll_rights.specs.Errno.{refuse};
ghost use Rattle.ll_seq.specs.Call.{path_of, first_path, second_path};
ghost use Rattle.ll_seq.specs.CallParts.{existence_refusals};
ghost use Rattle.ll_seq.specs.Stages as stages;
ghost use Rattle.ll_seq.specs.State.{State};
ghost use Rattle.ll_seq.specs.declared.client.ClientRecord as record_of;
ghost use Rattle.ll_seq.specs.Found.{AreFacts, Stands};
ghost use Rattle.ll_seq.specs.Passed.{Passed, found_refusals};
ghost use Rattle.ll_seq.specs.Stages.{early_refusals};

use crate::found::{Found, Spot};
use crate::refusals::{first, refuse};
use crate::targets::{Targets, names_root, targets_of};
use crate::{Call, ClientRecord};
use ll_path::{Path, Target};
use ll_rights::Errno;
use ll_rights::limits::DATA_BYTES;

const MOST_READ: u64 = DATA_BYTES as u64;

fn bad_text(target: &Target) -> Option<Errno>
    ensures { result ≡ slice_get (stages.bad_text target.now) 0 }
{
    match target {
        Target::Good(_) => None,
        Target::Bad(bad) => Some(bad.errno),
    }
}

fn text_refusal(call: &Call) -> Option<Errno>
    ensures { result ≡ slice_get (stages.text_refusals call.now) 0 }
{
    match targets_of(call) {
        Targets::No => None,
        Targets::One(target) => bad_text(target),
        Targets::Two(old, new) => first(bad_text(old), bad_text(new)),
    }
}

fn no_ruleset(caller: &ClientRecord, number: u64) -> Option<Errno>
    ensures { result ≡ slice_get (stages.no_ruleset caller.now number) 0 }
{
    refuse(caller.rulesets.get(number).is_none(), Errno::EBADF)
}

fn unreadable(caller: &ClientRecord, number: u64) -> Option<Errno>
    ensures { result ≡ slice_get (stages.without caller.now number (λ d. d.reads) Errno.EBADF) 0 }
{
    match caller.descriptors.get(number) {
        None => Some(Errno::EBADF),
        Some(held) => refuse(!held.reads, Errno::EBADF),
    }
}

/// Refuses with `otherwise` if the descriptor exists but isn't open for writing.
fn unwritable(caller: &ClientRecord, number: u64, otherwise: Errno) -> Option<Errno>
    ensures { result ≡ slice_get (stages.without caller.now number (λ d. d.writes) otherwise) 0 }
{
    match caller.descriptors.get(number) {
        None => Some(Errno::EBADF),
        Some(held) => refuse(!held.writes, otherwise),
    }
}

fn number_refusal(caller: &ClientRecord, call: &Call) -> Option<Errno>
    ensures { result ≡ slice_get (stages.number_refusals caller.now call.now) 0 }
{
    match call {
        Call::Read(number, _, count) => {
            let too_much = refuse(MOST_READ < *count, Errno::EINVAL);
            first(too_much, unreadable(caller, *number))
        }
        Call::Write(number, _, _) => unwritable(caller, *number, Errno::EBADF),
        Call::Ftruncate(number, _) => unwritable(caller, *number, Errno::EINVAL),
        Call::Close(number) => refuse(caller.descriptors.get(*number).is_none(), Errno::EBADF),
        Call::Allow(number, _, _) => no_ruleset(caller, *number),
        Call::Confine(number) => no_ruleset(caller, *number),
        Call::Make(..) | Call::Open(..) | Call::Truncate(..) | Call::ReadDir(_) => None,
        Call::Stat(_) | Call::Exec(_) | Call::Unlink(_) | Call::Rmdir(_) => None,
        Call::Rename(..) | Call::RenameNoreplace(..) | Call::Exchange(..) | Call::Link(..) => None,
        Call::Ruleset(_) | Call::Spawn | Call::Connect => None,
    }
}

fn paths_lying(old: &Path, new: &Path, above: Errno) -> Option<Errno>
    ensures { result ≡ slice_get (stages.lying old.now new.now above) 0 }
{
    if old.is_root() || new.is_root() {
        return Some(Errno::EBUSY);
    }
    if new.is_beneath(old) {
        return Some(Errno::EINVAL);
    }
    refuse(old.is_beneath(new), above)
}

fn lying(old: &Target, new: &Target, above: Errno) -> Option<Errno>
    ensures { result ≡ slice_get (stages.lying (path_of old.now) (path_of new.now) above) 0 }
{
    match (old, new) {
        (Target::Good(old), Target::Good(new)) => paths_lying(old, new, above),
        _ => Some(Errno::EBUSY),
    }
}

fn relation_refusal(call: &Call) -> Option<Errno>
    ensures { result ≡ slice_get (stages.relation_refusals call.now (first_path call.now) (second_path call.now)) 0 }
{
    match call {
        Call::Make(_, target) => refuse(names_root(target), Errno::EBUSY),
        Call::Unlink(target) => refuse(names_root(target), Errno::EBUSY),
        Call::Rmdir(target) => refuse(names_root(target), Errno::EBUSY),
        Call::Rename(old, new) => lying(old, new, Errno::ENOTEMPTY),
        Call::RenameNoreplace(old, new) => lying(old, new, Errno::EEXIST),
        Call::Exchange(old, new) => lying(old, new, Errno::EINVAL),
        Call::Link(old, new) => lying(old, new, Errno::EEXIST),
        Call::Open(..) | Call::Truncate(..) | Call::ReadDir(_) | Call::Stat(_) => None,
        Call::Exec(_) | Call::Allow(..) => None,
        Call::Read(..) | Call::Write(..) | Call::Ftruncate(..) | Call::Close(_) => None,
        Call::Ruleset(_) | Call::Confine(_) | Call::Spawn | Call::Connect => None,
    }
}

fn walk_refusal(call: &Call, found: &Found) -> Option<Errno>
    ensures { (s : State) → AreFacts s call.now found.now → result ≡ slice_get (stages.walk_refusals s call.now) 0 }
{
    match targets_of(call) {
        Targets::No => None,
        Targets::One(_) => found.first.way,
        Targets::Two(_, _) => first(found.first.way, found.second.way),
    }
}

fn existence_refusal(call: &Call, old: &Spot, new: &Spot) -> Option<Errno>
    ensures { (s : State) → Stands s (first_path call.now) old.now → Stands s (second_path call.now) new.now
        → result ≡ slice_get (existence_refusals s call.now (first_path call.now) (second_path call.now)) 0 }
{
    let missing = refuse(!old.exists(), Errno::ENOENT);
    let present = refuse(old.exists(), Errno::EEXIST);
    match call {
        Call::Make(_, _) => present,
        Call::Open(mode, _) if mode.creation.is_exclusive() => present,
        Call::Open(mode, _) if mode.creation.creates() => None,
        Call::Open(_, _) => missing,
        Call::Truncate(_, _) => missing,
        Call::ReadDir(_) => missing,
        Call::Stat(_) => missing,
        Call::Exec(_) => missing,
        Call::Unlink(_) => missing,
        Call::Rmdir(_) => missing,
        Call::Rename(_, _) => missing,
        Call::RenameNoreplace(_, _) => first(missing, refuse(new.exists(), Errno::EEXIST)),
        Call::Exchange(_, _) => first(missing, refuse(!new.exists(), Errno::ENOENT)),
        Call::Link(_, _) => first(missing, refuse(new.exists(), Errno::EEXIST)),
        Call::Allow(_, _, _) => missing,
        Call::Read(..) | Call::Write(..) | Call::Ftruncate(..) | Call::Close(_) => None,
        Call::Ruleset(_) | Call::Confine(_) | Call::Spawn | Call::Connect => None,
    }
}

/// Returns the first refusal that doesn't depend on the tree: by the call's words, its numbers, and how its paths lie.
pub fn refused_early(caller: &ClientRecord, call: &Call) -> Option<Errno>
    ensures { result ≡ slice_get (early_refusals caller.now call.now) 0 }
{
    let number = first(number_refusal(caller, call), relation_refusal(call));
    first(text_refusal(call), number)
}

/// Returns the first refusal after the early ones and before policy: by what blocks the paths and what exists at them.
pub fn refused_found(call: &Call, found: &Found) -> Option<Errno>
    ensures refused { (s : State) → AreFacts s call.now found.now
        → result ≡ slice_get (found_refusals s call.now) 0 }
    ensures passed { result ≡ None → (s : State) (c : record_of.ClientRecord) → early_refusals c call.now ≡ []
        → AreFacts s call.now found.now → Passed s c call.now found.now }
{
    let existence = existence_refusal(call, &found.first, &found.second);
    first(walk_refusal(call, found), existence)
}
