//! The names that a call's walk takes.

ghost use Rattle.std.specs.Prelude.{◌≡◌, ◌+◌, ◌<◌, ◌≤◌, ◌==◌, IsSome, length, slice_get, option_map};
ghost use Rattle.ll_path.specs.Path.{common, parent};
ghost use Rattle.ll_path.specs.Place.{IsPlace};
ghost use Rattle.ll_rights.specs.declared.limits.TheConstants.{PATH_NAMES};
ghost use Rattle.ll_seq.specs.Call as calls;
ghost use Rattle.ll_seq.specs.Found.{or_root};
ghost use Rattle.ll_laws.specs.Walk as walks;
ghost use Rattle.ll_journal.specs.Seated.{AreShort, name_on};

use crate::leg::Ahead;
use ll_path::{Path, Place, Target};
use ll_seq::{Call, Targets, target_path, targets_of};

/// The number of names that lead to the path's parent.
pub(crate) fn way_len(path: Option<&Path>) -> usize
    ensures len { result ≡ length (parent (or_root path.entry)) }
    ensures short { result < PATH_NAMES }
{
    match path {
        Some(path) => path.len().saturating_sub(1),
        None => 0,
    }
}

/// The number of names that the ways to both parents share.
fn shared_len(one: Option<&Path>, other: Option<&Path>) -> usize
    ensures { result ≡ length (common (parent (or_root one.entry)) (parent (or_root other.entry))) }
{
    let most = way_len(one).min(way_len(other));
    match (one, other) {
        (Some(one), Some(other)) => one.common(other).count().min(most),
        _ => 0,
    }
}

/// The number of names that both ways of a call share; with one path, the length of its way.
pub(crate) fn trunk_len(call: &Call) -> usize
    ensures { result ≡ length (walks.trunk_path call.now) }
{
    match targets_of(call) {
        Targets::No => 0,
        Targets::One(target) => way_len(target_path(target)),
        Targets::Two(old, new) => shared_len(target_path(old), target_path(new)),
    }
}

/// The next name of a leg along this path.
pub(crate) fn next_name(path: Option<&Path>, ahead: Ahead) -> Option<&str>
    requires { IsPlace (or_root path) ahead.place }
    ensures { option_map (λ name. name.now) result ≡ name_on (or_root path.entry) ahead }
{
    if ahead.is_empty() {
        return None;
    }
    path?.name_at(ahead.place)
}

/// The position after the name at this one.
pub(crate) fn place_after(path: Option<&Path>, place: Place) -> Place
    requires place { IsPlace (or_root path) place }
    requires name { IsSome (slice_get (or_root path) place.depth) }
    ensures place { IsPlace (or_root path.entry) result }
    ensures depth { result.depth ≡ place.depth + 1 }
{
    let Some(path) = path else { unreachable!() };
    let Some(name) = path.name_at(place) else {
        unreachable!()
    };
    path.place_after(place, name.len())
}

pub(crate) fn has_two_paths(call: &Call) -> bool
    ensures { result ≡ walks.has_two_paths call.now }
{
    matches!(targets_of(call), Targets::Two(..))
}

/// Does nothing when it runs. Its contract: a path has few names.
fn know_short(target: &Target)
    ensures { length (calls.path_of target.now) ≤ PATH_NAMES }
{
    if let Target::Good(path) = target {
        let _text = path.as_str();
    }
}

/// Does nothing when it runs. Its contract: the ways of a call fit into its walk's chains.
pub(crate) fn know_ways(call: &Call)
    ensures { AreShort call.now }
{
    match targets_of(call) {
        Targets::No => {}
        Targets::One(target) => know_short(target),
        Targets::Two(old, new) => {
            know_short(old);
            know_short(new);
        }
    }
}
