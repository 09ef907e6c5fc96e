//! What is expected in place of a reply that can't come, whatever the tree.

use crate::wanted::Wanted;
use ll_seq::Reply;
use ll_wire::FirstWords;

/// What is expected in place of a refusal that says nothing of the tree.
const REFUSALS: &str =
    "the tree never refuses so: a number from 3 to 20 is expected, or 23 for a client that isn't there";

// Returns what is expected in place of a reply that a command with this name can't get, whatever the tree.
fn answers_text(name: &str, is_denial: bool) -> &'static str {
    match name {
        "make" | "truncate" | "ftruncate" | "open" | "list" | "exec" | "unlink" | "rmdir"
            if is_denial => { "this command never answers so: it doesn't ask for that right there" }
        "rename" | "rename_noreplace" | "exchange" | "link" if is_denial => {
            "this command never answers so: it doesn't ask for that right there"
        }
        "open" => "this command never answers so, but fd, denied or refused",
        "list" => "this command never answers so, but names, denied or refused",
        "read" => "this command never answers so, but data or refused",
        "write" => "this command never answers so, but wrote or refused",
        "stat" => "this command never answers so, but stat or refused",
        "ruleset" => "this command never answers so, but ruleset or refused",
        "spawn" => "this command never answers so, but client or refused",
        "close" | "allow" | "confine" => "this command never answers so, but ok or refused",
        _ => "this command never answers so, but ok, denied or refused",
    }
}

// Reports whether a refusal is expected, or the first words of one.
fn is_refusal(wanted: &Wanted) -> bool {
    matches!(
        wanted,
        Wanted::Whole(Reply::Refused(_)) | Wanted::First(FirstWords::Refused(_))
    )
}

/// Returns what is expected in place of a reply to a command with this name that can't come.
pub(crate) fn vain_text(name: &str, wanted: &Wanted) -> &'static str {
    if is_refusal(wanted) {
        return REFUSALS;
    }
    answers_text(name, wanted.is_denial())
}
