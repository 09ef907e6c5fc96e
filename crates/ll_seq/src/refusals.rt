//! The order of refusals: the first one counts.

ghost use Rattle.std.specs.Prelude.{◌≡◌, List, [], ◌++◌, slice_get};
ghost use Rattle.ll_rights.specs.Errno.{refuse};
ghost use Rattle.ll_rights.specs.declared.errno.Errno.{Errno};
ghost use Rattle.ll_seq.specs.Stages as stages;

use ll_rights::{Errno, Kind};

/// The refusal, if the test holds.
pub(crate) fn refuse(test: bool, errno: Errno) -> Option<Errno>
    ensures { result ≡ slice_get (refuse test errno) 0 }
{
    if test { Some(errno) } else { None }
}

/// Returns the first refusal of two lists, given the first of each.
pub fn first(one: Option<Errno>, other: Option<Errno>) -> Option<Errno>
    ensures { (ones others : List Errno) → one ≡ slice_get ones 0 → (ones ≡ [] → other ≡ slice_get others 0)
        → result ≡ slice_get (ones ++ others) 0 }
{
    match one {
        Some(errno) => Some(errno),
        None => other,
    }
}

/// Returns why a node of this kind can't be used as a directory, or None. Without a kind, the node is missing.
pub fn no_directory(kind: Option<Kind>) -> Option<Errno>
    ensures { result ≡ slice_get (stages.no_directory kind) 0 }
{
    match kind {
        None => Some(Errno::ENOENT),
        Some(Kind::Dir) => None,
        Some(Kind::Sym) => Some(Errno::ELOOP),
        Some(_) => Some(Errno::ENOTDIR),
    }
}
