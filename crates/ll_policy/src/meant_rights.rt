//! The rights that misspelled words mean.

ghost use Rattle.std.specs.Prelude.{◌==◌, ℕ, List, IfNone, IfOk, IfSome};
ghost use Rattle.std.specs.List.{Contains, slice_split};
ghost use Rattle.ll_policy.specs.MeantRights.{IsMeant, IsStrange, Mean};

use ll_rights::{Access, Right};
use std::alloc::{AllocError, Global};
use strsim::levenshtein;

/// The most edits between a word and the name that it means.
const EDITS: usize = 2;

/// Returns the right whose name is nearest to the word. None if no name is near. Errors: memory ran out.
pub fn right_meant(alloc: Global, word: &str) -> Result<Option<Right>, AllocError>
    ensures meant { IfOk result (λ found. IfSome found (IsMeant word.now)) }
    ensures none { IfOk result (λ found. IfNone found (IsStrange word.now)) }
{
    let mut nearest = None;
    let mut least = EDITS + 1;
    for right in Right::ALL {
        let edits = levenshtein(alloc, word, right.text())?;
        if edits < least {
            nearest = Some(right);
            least = edits;
        }
    }
    Ok(nearest)
}

/// Returns the set of the rights that the text's words mean, which commas part. None if a word means none. Errors:
/// memory ran out.
pub fn rights_meant(alloc: Global, text: &str) -> Result<Option<Access>, AllocError>
    ensures meant { IfOk result (λ found. IfSome found (λ set.
        Mean 0 (slice_split (λ b. b == 44) text.now) set.0)) }
    ensures none { IfOk result (λ found. IfNone found ((word : List ℕ)
        × Contains (slice_split (λ b. b == 44) text.now) word × IsStrange word)) }
{
    let mut set = Access(0);
    for word in text.split(',') {
        let Some(right) = right_meant(alloc, word)? else {
            return Ok(None);
        };
        set = set.with(right.access());
    }
    Ok(Some(set))
}
