//! What a schedule starts with.

ghost use Rattle.std.specs.Prelude.{◌≤◌};
ghost use Rattle.ll_rights.specs.declared.limits.TheConstants.{HISTORY_ENTRIES, TREE_NODES};

use ll_seq::Rules;

/// The rules of the tree, the limit of live nodes (the root counts), and the limit of entries in its history (connects
/// count).
#[derive(Drop)]
pub struct WorldSetup {
    pub rules: Rules,
    pub nodes: usize,
    pub history: usize,
    ghost some: { 1 ≤ nodes },
    ghost most: { nodes ≤ TREE_NODES },
    ghost some_entries: { 1 ≤ history },
    ghost most_entries: { history ≤ HISTORY_ENTRIES },
}
