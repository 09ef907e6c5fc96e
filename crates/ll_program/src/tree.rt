//! How a tree is set up, as the options of each command ask.

ghost use Rattle.std.specs.Prelude.{◌≡◌, ◌≤◌};
ghost use Rattle.ll_rights.specs.declared.limits.TheConstants.{HISTORY_ENTRIES, TREE_NODES};

use crate::learn::LearnOptions;
use crate::options::CheckOptions;
use ll_rights::Abi;
use ll_rights::limits::{HISTORY_ENTRIES, TREE_NODES};

/// How a tree is set up: the limit of live nodes; the ABI level, or the policy's file and the first client's profile;
/// and the limit of history entries.
#[derive(Clone, Copy)]
pub struct TreeOptions<'a> {
    pub nodes: usize,
    pub level: Option<Abi>,
    pub history: usize,
    pub policy: Option<&'a str>,
    pub profile: Option<&'a str>,
    ghost some: { 1 ≤ nodes },
    ghost most: { nodes ≤ TREE_NODES },
    ghost some_entries: { 1 ≤ history },
    ghost most_entries: { history ≤ HISTORY_ENTRIES },
}

impl<'a> TreeOptions<'a> {
    ghost use Rattle.ll_program.specs.Options.{go_together, profile_tree, tree_in};

    /// Returns the options of a tree whose first client has the profile of a policy, and whose history isn't needed.
    pub fn of_profile(policy: &'a str, profile: &'a str, nodes: usize) -> TreeOptions<'a>
        requires some { 1 ≤ nodes }
        requires most { nodes ≤ TREE_NODES }
        ensures { tree_in result ≡ profile_tree policy.entry.now profile.entry.now nodes }
    {
        TreeOptions {
            nodes,
            level: None,
            history: 1,
            policy: Some(policy),
            profile: Some(profile),
        }
    }

    /// Reports whether no level is given with a policy, and no profile without one.
    pub fn fit(&self) -> bool
        ensures { result ≡ go_together (tree_in self.now).level (tree_in self.now).policy (tree_in self.now).profile }
    {
        if self.policy.is_some() {
            self.level.is_none()
        } else {
            self.profile.is_none()
        }
    }
}

impl<'a> CheckOptions<'a> {
    ghost use Rattle.ll_program.specs.Options.{checked_in, checked_tree, tree_in};

    /// Returns the options of a file's tree, with the most room in its history.
    pub fn tree(&self) -> TreeOptions<'a>
        ensures { tree_in result ≡ checked_tree (checked_in self.now) HISTORY_ENTRIES }
    {
        TreeOptions {
            nodes: self.nodes,
            level: self.level,
            history: HISTORY_ENTRIES,
            policy: self.policy,
            profile: self.profile,
        }
    }
}

impl<'a> LearnOptions<'a> {
    ghost use Rattle.ll_program.specs.Options.{learn_in, lesson_tree, tree_in};

    /// Returns the options of the tree of a file that is learned from: the policy's nodes and no layer, with the most
    /// room in its history.
    pub fn tree(&self) -> TreeOptions<'a>
        ensures { tree_in result ≡ lesson_tree (learn_in self.now) HISTORY_ENTRIES }
    {
        TreeOptions {
            nodes: self.nodes,
            level: None,
            history: HISTORY_ENTRIES,
            policy: self.policy,
            profile: None,
        }
    }
}
