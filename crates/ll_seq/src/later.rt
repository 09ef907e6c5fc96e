//! The refusals that are checked after policy.

ghost use Rattle.std.specs.Prelude.{◌≡◌, [], slice_get, true, is_some};
ghost use Rattle.std.specs.Option.{option_map_or};
ghost use Rattle.ll_path.specs.Path.{Path};
ghost use Rattle.ll_rules.specs.Rules.{rule_refusals, rule_limit};
ghost use Rattle.ll_seq.specs.Call.{first_path, second_path};
ghost use Rattle.ll_seq.specs.Stages as stages;
ghost use Rattle.ll_seq.specs.CallParts.{kind_refusals, limit_refusals, not_to_open, not_to_truncate};
ghost use Rattle.ll_seq.specs.State.{State};
ghost use Rattle.ll_seq.specs.Tree.{named, inode_of};
ghost use Rattle.ll_seq.specs.Found.{Stands};
ghost use Rattle.ll_seq.specs.Passed.{Passed, after_policy, has_path};

use crate::found::{Found, Spot};
use crate::refusals::{first, refuse};
use crate::{Call, ClientRecord};
use ll_rights::limits::FILE_BYTES;
use ll_rights::{Access, Errno, Kind};

fn not_to_open(kind: Kind) -> Option<Errno>
    ensures { result ≡ slice_get (not_to_open kind) 0 }
{
    match kind {
        Kind::Reg => None,
        Kind::Dir => Some(Errno::EISDIR),
        Kind::Sym => Some(Errno::ELOOP),
        Kind::Fifo | Kind::Sock | Kind::Char | Kind::Block => Some(Errno::ENXIO),
    }
}

fn not_to_truncate(kind: Kind) -> Option<Errno>
    ensures { result ≡ slice_get (not_to_truncate kind) 0 }
{
    match kind {
        Kind::Reg => None,
        Kind::Dir => Some(Errno::EISDIR),
        Kind::Sym => Some(Errno::ELOOP),
        Kind::Fifo | Kind::Sock | Kind::Char | Kind::Block => Some(Errno::EINVAL),
    }
}

/// Why one node can't replace another, or None.
fn not_to_replace(node: &Spot, replaced: &Spot) -> Option<Errno>
    ensures { (s : State) (old new : Path) → Stands s old node.now → Stands s new replaced.now
        → is_some (named s old) ≡ true
        → result ≡ slice_get (option_map_or (stages.replace_refusals s (inode_of s old)) (named s new) []) 0 }
{
    if !replaced.exists() || node.inode() == replaced.inode() {
        return None;
    }
    match (node.kind().is_dir(), replaced.kind().is_dir()) {
        (false, true) => Some(Errno::EISDIR),
        (true, false) => Some(Errno::ENOTDIR),
        (true, true) => refuse(replaced.has_names(), Errno::ENOTEMPTY),
        (false, false) => None,
    }
}

/// Why the existing ruleset of this number gets no rule on a node of this kind, or None.
fn not_to_allow(caller: &ClientRecord, number: u64, kind: Kind, rights: Access) -> Option<Errno>
    ensures { stages.no_ruleset caller.now number ≡ []
        → result ≡ slice_get (rule_refusals (stages.ruleset_at caller.now number) kind rights.0) 0 }
{
    match caller.rulesets.get(number) {
        None => None,
        Some(made) => made.refusal(kind, rights),
    }
}

fn no_rule_more(caller: &ClientRecord, number: u64, inode: u64) -> Option<Errno>
    ensures { stages.no_ruleset caller.now number ≡ []
        → result ≡ slice_get (rule_limit (stages.ruleset_at caller.now number) inode) 0 }
{
    match caller.rulesets.get(number) {
        None => None,
        Some(made) => made.limit(inode),
    }
}

fn kind_refusal(caller: &ClientRecord, call: &Call, found: &Found) -> Option<Errno>
    ensures { (s : State) → has_path call.now ≡ true → Passed s caller.now call.now found.now
        → result ≡ slice_get (kind_refusals s caller.now call.now (first_path call.now) (second_path call.now)) 0 }
{
    let (old, new) = (&found.first, &found.second);
    match call {
        Call::Open(_, _) if old.exists() => not_to_open(old.kind()),
        Call::Open(_, _) => None,
        Call::Truncate(_, _) => not_to_truncate(old.kind()),
        Call::ReadDir(_) => refuse(!old.kind().is_dir(), Errno::ENOTDIR),
        Call::Exec(_) => not_to_open(old.kind()),
        Call::Unlink(_) => refuse(old.kind().is_dir(), Errno::EISDIR),
        Call::Rmdir(_) if !old.kind().is_dir() => Some(Errno::ENOTDIR),
        Call::Rmdir(_) => refuse(old.has_names(), Errno::ENOTEMPTY),
        Call::Rename(_, _) => not_to_replace(old, new),
        Call::Link(_, _) => refuse(old.kind().is_dir(), Errno::EPERM),
        Call::Allow(number, _, rights) => not_to_allow(caller, *number, old.kind(), *rights),
        Call::Make(..) | Call::Stat(_) | Call::RenameNoreplace(..) | Call::Exchange(..) => None,
        Call::Read(..) | Call::Write(..) | Call::Ftruncate(..) | Call::Close(_) => None,
        Call::Ruleset(_) | Call::Confine(_) | Call::Spawn | Call::Connect => None,
    }
}

/// Refuses a rename that replaces nothing if its directory is full.
fn crowds(old: &Spot, new: &Spot) -> Option<Errno>
    ensures { (s : State) (from into : Path) → Stands s from old.now → Stands s into new.now
        → result ≡ slice_get (stages.crowds s from into) 0 }
{
    refuse(
        !new.exists() && old.is_apart(new) && new.is_crowded,
        Errno::ENOSPC,
    )
}

fn limit_refusal(caller: &ClientRecord, call: &Call, found: &Found) -> Option<Errno>
    ensures { (s : State) → has_path call.now ≡ true → Passed s caller.now call.now found.now
        → result ≡ slice_get (limit_refusals s caller.now call.now (first_path call.now) (second_path call.now)) 0 }
{
    let (old, new) = (&found.first, &found.second);
    let no_space = refuse(old.is_crowded || found.is_full, Errno::ENOSPC);
    match call {
        Call::Make(_, _) => no_space,
        Call::Open(_, _) if caller.lowest_free().is_none() => Some(Errno::EMFILE),
        Call::Open(_, _) if old.exists() => None,
        Call::Open(_, _) => no_space,
        Call::Truncate(_, size) => refuse(*size > FILE_BYTES as u64, Errno::EFBIG),
        Call::Rename(_, _) => crowds(old, new),
        Call::RenameNoreplace(_, _) => crowds(old, new),
        Call::Link(_, _) if old.has_many_names() => Some(Errno::EMLINK),
        Call::Link(_, _) => refuse(new.is_crowded, Errno::ENOSPC),
        Call::Allow(number, _, _) => no_rule_more(caller, *number, old.inode()),
        Call::ReadDir(_) | Call::Stat(_) | Call::Exec(_) => None,
        Call::Unlink(_) | Call::Rmdir(_) | Call::Exchange(..) => None,
        Call::Read(..) | Call::Write(..) | Call::Ftruncate(..) | Call::Close(_) => None,
        Call::Ruleset(_) | Call::Confine(_) | Call::Spawn | Call::Connect => None,
    }
}

/// Returns the first refusal of a call that policy allows, or None.
pub fn refused_after(caller: &ClientRecord, call: &Call, found: &Found) -> Option<Errno>
    ensures { (s : State) → has_path call.now ≡ true → Passed s caller.now call.now found.now
        → result ≡ slice_get (after_policy s caller.now call.now) 0 }
{
    let kind = kind_refusal(caller, call, found);
    first(kind, limit_refusal(caller, call, found))
}
