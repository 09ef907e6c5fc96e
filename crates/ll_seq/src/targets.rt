//! The path arguments of a call.

ghost use Rattle.std.specs.Prelude.{◌≡◌, option_map};
ghost use Rattle.ll_path.specs.Path.{is_root};
ghost use Rattle.ll_seq.specs.Call as calls;
ghost use Rattle.ll_seq.specs.Call.{target_path, targets};
ghost use Rattle.ll_seq.specs.Found.{or_root, words_of};

use crate::Call;
use ll_path::{Path, Target};

/// The path arguments of a call, in order: none, one or two.
#[derive(Clone, Copy)]
pub enum Targets<'a> {
    No,
    One(&'a Target),
    Two(&'a Target, &'a Target),
}

/// Returns the call's path arguments.
pub fn targets_of(call: &Call) -> Targets<'_>
    ensures { words_of result ≡ targets call.now }
{
    match call {
        Call::Make(_, target) => Targets::One(target),
        Call::Open(_, target) => Targets::One(target),
        Call::Read(..) => Targets::No,
        Call::Write(..) => Targets::No,
        Call::Ftruncate(..) => Targets::No,
        Call::Close(_) => Targets::No,
        Call::Truncate(target, _) => Targets::One(target),
        Call::ReadDir(target) => Targets::One(target),
        Call::Stat(target) => Targets::One(target),
        Call::Exec(target) => Targets::One(target),
        Call::Unlink(target) => Targets::One(target),
        Call::Rmdir(target) => Targets::One(target),
        Call::Rename(old, new) => Targets::Two(old, new),
        Call::RenameNoreplace(old, new) => Targets::Two(old, new),
        Call::Exchange(old, new) => Targets::Two(old, new),
        Call::Link(old, new) => Targets::Two(old, new),
        Call::Ruleset(_) => Targets::No,
        Call::Allow(_, target, _) => Targets::One(target),
        Call::Confine(_) => Targets::No,
        Call::Spawn => Targets::No,
        Call::Connect => Targets::No,
    }
}

/// Returns the path that the word spells, or None for a word that is no path: it counts as the root.
pub fn target_path(target: &Target) -> Option<&Path>
    ensures path { option_map (λ p. p.now) result ≡ target_path target.now }
    ensures root { or_root result ≡ calls.path_of target.now }
{
    match target {
        Target::Good(path) => Some(path),
        Target::Bad(_) => None,
    }
}

/// Reports whether the word counts as the root.
pub fn names_root(target: &Target) -> bool
    ensures { result ≡ is_root (calls.path_of target.now) }
{
    match target {
        Target::Good(path) => path.is_root(),
        Target::Bad(_) => true,
    }
}

/// Returns the call's first path. None means the root.
pub fn first_path(call: &Call) -> Option<&Path>
    ensures { or_root result ≡ calls.first_path call.now }
{
    match targets_of(call) {
        Targets::No => None,
        Targets::One(target) => target_path(target),
        Targets::Two(old, _) => target_path(old),
    }
}

/// Returns the call's second path, or its first if it has only one. None means the root.
pub fn second_path(call: &Call) -> Option<&Path>
    ensures { or_root result ≡ calls.second_path call.now }
{
    match targets_of(call) {
        Targets::No => None,
        Targets::One(target) => target_path(target),
        Targets::Two(_, new) => target_path(new),
    }
}
