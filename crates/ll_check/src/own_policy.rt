//! Policies that sections of files of checks name for themselves.

ghost use Rattle.std.specs.Prelude.{◌≡◌, ◌≤◌, ◌++◌, ℕ, List, codes, length, option_map, string_bytes, IfNone};
ghost use Rattle.std.specs.Prelude.{IfOk, IfSome};
ghost use Rattle.std.specs.Path.{rsplit_once};
ghost use Rattle.ll_check.specs.Checks.{SpellsPolicy, is_rooted, placed};

use crate::lines::strip_front;
use std::alloc::{AllocError, Global};

/// What a line `@policy FILE PROFILE` names.
#[derive(Clone, Copy)]
pub(crate) struct PolicyWords<'a> {
    pub file: &'a str,
    pub profile: &'a str,
}

/// A section's own policy: the number of the line that names it, from 1; its path, as it is opened; and the profile.
#[derive(Drop)]
pub(crate) struct OwnPolicy {
    pub line: usize,
    pub file: String,
    pub profile: String,
}

// Returns what is before and behind the last space of a text, if it has one.
fn cut_at_space(text: &str) -> Option<(&str, &str)>
    ensures { option_map (λ cut. (cut.0.now, cut.1.now)) result ≡ rsplit_once 32 text.entry.now }
{
    text.rsplit_once(' ')
}

// Returns the two parts of a text around its last space, if neither is empty.
fn words_of(text: &str) -> Option<PolicyWords<'_>>
    ensures found { IfSome result (λ words. (rsplit_once 32 text.entry.now ≡ Some (words.file.now, words.profile.now))
        × (1 ≤ length words.file.now) × (1 ≤ length words.profile.now)) }
    ensures none { IfNone result ((file profile : List ℕ) → rsplit_once 32 text.entry.now ≡ Some (file, profile)
        → 1 ≤ length file → 1 ≤ length profile → ⊥) }
{
    let Some((file, profile)) = cut_at_space(text) else {
        return None;
    };
    if file.is_empty() || profile.is_empty() {
        return None;
    }
    Some(PolicyWords { file, profile })
}

/// Returns what a line, without its line feed, names as a section's own policy, if it does.
pub(crate) fn policy_of(body: &[u8]) -> Option<PolicyWords<'_>>
    ensures found { IfSome result (λ words. SpellsPolicy body.entry.now words.file.now words.profile.now) }
    ensures none { IfNone result ((file profile : List ℕ) → SpellsPolicy body.entry.now file profile → ⊥) }
{
    let Some(rest) = strip_front(body, b"@policy ") else {
        return None;
    };
    let Ok(text) = str::from_utf8(rest) else {
        return None;
    };
    words_of(text)
}

fn is_rooted(name: &str) -> bool
    ensures { result ≡ is_rooted name.now }
{
    match name.as_bytes().first() {
        Some(b) => *b == b'/',
        None => false,
    }
}

// Returns what is before the last slash of a name and behind it, if it has one.
fn cut_at_slash(name: &str) -> Option<(&str, &str)>
    ensures { option_map (λ cut. (cut.0.now, cut.1.now)) result ≡ rsplit_once 47 name.entry.now }
{
    name.rsplit_once('/')
}

// Returns the path of a file in this folder.
fn joined(alloc: Global, folder: &str, file: &str) -> Result<String, AllocError>
    ensures { IfOk result (λ path. string_bytes path ≡ folder.now ++ codes "/" ++ file.now) }
{
    let mut path = String::from_str(alloc, folder)?;
    path.push_str("/")?;
    path.push_str(file)?;
    Ok(path)
}

// Returns the path of a file that a file of checks names.
fn placed(alloc: Global, checks: &str, file: &str) -> Result<String, AllocError>
    ensures { IfOk result (λ path. string_bytes path ≡ placed checks.now file.now) }
{
    if is_rooted(file) {
        return String::from_str(alloc, file);
    }
    match cut_at_slash(checks) {
        Some((folder, _)) => joined(alloc, folder, file),
        None => String::from_str(alloc, file),
    }
}

impl OwnPolicy {
    /// Returns the policy that the line with this number of a file of checks names. Errors: memory ran out.
    pub fn new(
        alloc: Global,
        checks: &str,
        line: usize,
        words: &PolicyWords<'_>,
    ) -> Result<OwnPolicy, AllocError>
        ensures line { IfOk result (λ own. own.line ≡ line) }
        ensures file { IfOk result (λ own. string_bytes own.file ≡ placed checks.now words.now.file.now) }
        ensures profile { IfOk result (λ own. string_bytes own.profile ≡ words.now.profile.now) }
    {
        let file = placed(alloc, checks, words.file)?;
        let Ok(profile) = String::from_str(alloc, words.profile) else {
            drop(file);
            return Err(AllocError);
        };
        Ok(OwnPolicy {
            line,
            file,
            profile,
        })
    }
}
