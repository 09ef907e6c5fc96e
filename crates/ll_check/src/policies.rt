//! The policies that sections of files of checks run under.

ghost use Rattle.std.specs.Prelude.{◌≡◌, ◌⊎◌, [], List, map, option_map, string_bytes, IfErr, IfOk, OnOk};
ghost use Rattle.std.specs.List.{list_any};
ghost use Rattle.std.specs.Str.{bytes_eq};
ghost use Rattle.ll_rights.specs.declared.limits.TheConstants.{HISTORY_ENTRIES};
ghost use Rattle.ll_program.specs.Options.{checked_in, checked_tree, tree_in};
ghost use Rattle.ll_check.specs.Checks.{Tests, tests_of};
ghost use Rattle.ll_check.specs.Files.{AreTestsIn, HasBadLine, order_for, own_paths, policy_for, policy_in, source_of};
ghost use Rattle.ll_check.specs.Files.{with_path};

use crate::check_text::{CheckFault, ReadFile};
use crate::checks::{CheckInput, NamedText, read_all};
use crate::denied::Notes;
use crate::own_policy::OwnPolicy;
use ll_program::{CheckOptions, Failure, TreeOptions};
use ll_wire::escaped;
use std::alloc::{AllocError, Global};
use std::io::Write;

/// A section's own policy by which no tree is opened: its path, its text, and the profile.
#[derive(Clone, Copy)]
pub struct FaultyPolicy<'a> {
    pub path: &'a str,
    pub text: &'a [u8],
    pub profile: &'a str,
}

// Returns the text of the policy with this path.
fn policy_in<'a>(policies: &'a [NamedText<'_>], path: &str) -> Option<&'a [u8]>
    ensures { option_map (λ text. text.now) result ≡ policy_in (map source_of policies.entry.now) path.now }
{
    for policy in policies {
        if policy.name == path {
            return Some(policy.text.as_slice());
        }
    }
    None
}

impl<'a> CheckInput<'a, '_, '_> {
    /// Returns the text of the policy of a section.
    pub(crate) fn policy_for(&self, file: &ReadFile<'_>) -> Option<&'a [u8]>
        ensures { option_map (λ text. text.now) result
            ≡ policy_for self.now.policy.now (map source_of self.now.policies.now) (tests_of file.now).own }
    {
        match &file.own {
            Some(own) => policy_in(self.policies, own.file.as_str()),
            None => Some(self.policy),
        }
    }
}

/// Returns the options of a section's tree, with the most room in its history.
pub(crate) fn tree_for<'a>(options: &CheckOptions<'a>, file: &'a ReadFile<'_>) -> TreeOptions<'a>
    ensures { tree_in result ≡ checked_tree (order_for (checked_in options.now) (tests_of file.entry.now).own)
        HISTORY_ENTRIES }
{
    let tree = options.tree();
    match &file.own {
        Some(own) => TreeOptions {
            nodes: tree.nodes,
            level: tree.level,
            history: tree.history,
            policy: Some(own.file.as_str()),
            profile: Some(own.profile.as_str()),
        },
        None => tree,
    }
}

fn have_path(paths: &[String], path: &str) -> bool
    ensures { result ≡ list_any (λ it. bytes_eq (string_bytes it) path.now) paths.now }
{
    paths.iter().any(|it| it.as_str() == path)
}

// Adds the path of a section's own policy, if it has one, unless it is among these.
fn add_path(alloc: Global, paths: &mut Vec<String>, file: &ReadFile<'_>) -> Result<(), AllocError>
    ensures { OnOk result (map string_bytes paths.new.items
        ≡ with_path (map string_bytes paths.old.items) (tests_of file.now).own) }
{
    let Some(own) = &file.own else {
        return Ok(());
    };
    if have_path(paths.as_slice(), own.file.as_str()) {
        return Ok(());
    }
    let path = String::from_str(alloc, own.file.as_str())?;
    if let Err(refused) = paths.push(path) {
        drop(refused);
        return Err(AllocError);
    }
    Ok(())
}

// Returns the paths of the sections' own policies.
fn own_paths(alloc: Global, files: &[ReadFile<'_>]) -> Result<Vec<String>, AllocError>
    ensures { IfOk result (λ paths. map string_bytes paths.items ≡ own_paths [] (map tests_of files.now)) }
{
    let mut paths = Vec::new(alloc);
    for file in files {
        add_path(alloc, &mut paths, file)?;
    }
    Ok(paths)
}

/// Returns the paths of the policies that sections of these files name for themselves, in their order, each once; or
/// none if a line of the files says nothing. Errors: memory ran out.
pub fn own_policies(alloc: Global, files: &[NamedText<'_>]) -> Result<Vec<String>, Failure>
    ensures paths { IfOk result (λ paths. (HasBadLine (map source_of files.now) × (paths.items ≡ []))
        ⊎ ((sections : List Tests) × AreTestsIn (map source_of files.now) sections
        × (map string_bytes paths.items ≡ own_paths [] sections))) }
    ensures failure { IfErr result (λ failure. failure ≡ Failure.NoMemory) }
{
    let sections = match read_all(alloc, files) {
        Ok(sections) => sections,
        Err(bad) => {
            return match bad.fault {
                CheckFault::BadLine(_) => Ok(Vec::new(alloc)),
                CheckFault::NoMemory => Err(Failure::NoMemory),
            };
        }
    };
    match own_paths(alloc, sections.as_slice()) {
        Ok(paths) => Ok(paths),
        Err(_) => Err(Failure::NoMemory),
    }
}

// Returns the line on where a section names its own policy. It is safe for a terminal.
fn own_line(alloc: Global, file: &str, own: &OwnPolicy) -> Result<String, AllocError> {
    let path = escaped(alloc, own.file.as_bytes())?;
    let profile = escaped(alloc, own.profile.as_bytes())?;
    let (line, path, profile) = (own.line, path.as_str(), profile.as_str());
    format!(in alloc; "{file}:{line}:1: @policy {path} {profile}\n")
}

// Prints the line on where a section of this file names its own policy.
fn tell_line<E: Write>(alloc: Global, file: &str, own: &OwnPolicy, err: &mut E) {
    if let Ok(line) = own_line(alloc, file, own) {
        let _ = err.write_all(line.as_bytes());
    }
}

// Returns the section's own policy, if it has this path.
fn own_at<'a>(file: &'a ReadFile<'_>, path: &str) -> Option<&'a OwnPolicy> {
    match &file.own {
        Some(own) if own.file.as_str() == path => Some(own),
        _ => None,
    }
}

/// Prints where a section of these files first names the policy at this path for itself. It is a hint, and no contract
/// speaks of it.
pub fn tell_own_line<E: Write>(alloc: Global, files: &[NamedText<'_>], path: &str, err: &mut E) {
    let Ok(sections) = read_all(alloc, files) else {
        return;
    };
    for file in sections.as_slice() {
        if let Some(own) = own_at(file, path) {
            tell_line(alloc, file.name, own, err);
            return;
        }
    }
}

/// Prints where the section names its own policy, if it does and this failure is by that policy, and notes it.
pub(crate) fn tell_own<E: Write, N: Notes>(
    alloc: Global,
    input: &CheckInput<'_, '_, '_>,
    file: &ReadFile<'_>,
    failure: &Failure,
    err: &mut E,
    notes: &mut N,
) {
    let Some(own) = &file.own else {
        return;
    };
    if matches!(failure, Failure::NoMemory) {
        return;
    }
    tell_line(alloc, file.name, own, err);
    if let Some(text) = input.policy_for(file) {
        let policy = FaultyPolicy {
            path: own.file.as_str(),
            text,
            profile: own.profile.as_str(),
        };
        notes.of_own_policy(&policy, failure);
    }
}
