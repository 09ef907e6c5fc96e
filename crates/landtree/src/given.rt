//! Policies, as commands have read them.

use ll_check::FaultyPolicy;
use ll_program::TreeOptions;

/// A policy that a command has read, and the profile asked for, if one is.
#[derive(Clone, Copy)]
pub struct Given<'a> {
    /// The file's name, and what was read of it.
    pub name: &'a str,
    pub text: &'a [u8],
    pub profile: Option<&'a str>,
}

impl<'a> Given<'a> {
    /// Returns the policy with this name and text, if one is named and its text is kept.
    pub fn new(
        name: Option<&'a str>,
        text: Option<&'a [u8]>,
        profile: Option<&'a str>,
    ) -> Option<Given<'a>> {
        Some(Given {
            name: name?,
            text: text?,
            profile,
        })
    }

    /// Returns the policy that a tree's options name, if they name one and its text is kept.
    pub fn of_tree(tree: &TreeOptions<'a>, text: Option<&'a [u8]>) -> Option<Given<'a>> {
        Given::new(tree.policy, text, tree.profile)
    }

    /// Returns a section's own policy.
    pub fn of_own(policy: &FaultyPolicy<'a>) -> Given<'a> {
        Given {
            name: policy.path,
            text: policy.text,
            profile: Some(policy.profile),
        }
    }
}
