//! Which directory has most of a profile's rules. It is a hint, and no contract speaks of it.

use ll_learn::LearnedRule;

/// A directory, and how many of the rules are on nodes right in it.
#[derive(Clone, Copy)]
pub(crate) struct Crowd<'a> {
    pub(crate) directory: &'a str,
    pub(crate) rules: usize,
}

// Returns the directory that the rule's node is right in. None for the root, and what is right in it.
fn directory_of(rule: &LearnedRule) -> Option<&str> {
    match rule.path.as_str().rsplit_once('/') {
        Some((directory, _)) if !directory.is_empty() => Some(directory),
        _ => None,
    }
}

// Returns how many of the rules are on nodes right in the directory.
fn count_in(rules: &[LearnedRule], directory: &str) -> usize {
    rules
        .iter()
        .filter(|rule| directory_of(rule) == Some(directory))
        .count()
}

/// Returns the directory with most of the rules, the first of several with as many. None if all are on the root, or
/// right in it.
pub(crate) fn crowd_of(rules: &[LearnedRule]) -> Option<Crowd<'_>> {
    let mut most: Option<Crowd<'_>> = None;
    for rule in rules {
        if let Some(directory) = directory_of(rule) {
            let rules = count_in(rules, directory);
            match most {
                Some(crowd) if crowd.rules >= rules => {}
                _ => most = Some(Crowd { directory, rules }),
            }
        }
    }
    most
}
