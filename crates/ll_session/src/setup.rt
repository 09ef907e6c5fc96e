//! What a run begins with.

ghost use Rattle.std.specs.Prelude.{◌≤◌, IfSome};
ghost use Rattle.std.proofs.Props.{props};
ghost use Rattle.ll_rights.specs.declared.limits.TheConstants.{HISTORY_ENTRIES, TREE_NODES};
ghost use Rattle.ll_session.specs.Session.{AreOthers};

use ll_seq::{Call, Rules};

/// The rules of the tree; the limit of live nodes (the root counts); the limit of the history's entries (connects
/// count); the calls of a loader that comes first, if there is one; and the calls that the session's first client makes
/// before its lines.
#[derive(Drop)]
pub struct Setup {
    pub rules: Rules,
    pub nodes: usize,
    pub history: usize,
    pub loader: Option<Vec<Call>>,
    pub profile: Vec<Call>,
    ghost some: { 1 ≤ nodes },
    ghost most: { nodes ≤ TREE_NODES },
    ghost some_entries: { 1 ≤ history },
    ghost most_entries: { history ≤ HISTORY_ENTRIES },
    ghost loads: { IfSome loader (λ calls. AreOthers calls.items) } by { Prim.hlevel props },
    ghost makes: { AreOthers profile.items },
}
