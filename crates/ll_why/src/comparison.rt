//! What a policy grants a client more and less than an older one, on several paths.

ghost use Rattle.std.specs.Prelude.{◌≡◌, ◌||◌, ◌∷◌, ◌++◌, [], IfOk, OnOk, option_map, option_to_list, string_bytes};
ghost use Rattle.std.specs.List.{list_any};
ghost use Rattle.ll_why.specs.Difference.{AddsDifferences, AreCompared, creates, only_path, only_paths};
ghost use Rattle.ll_why.specs.Difference.{paths_compared, unless_created};
ghost use Rattle.ll_why.specs.PathRows.{made_path};

use crate::difference::{DifferenceStyle, difference_in, differs};
use crate::path_rows::made_path;
use crate::rights_at;
use ll_path::{Path, Word};
use ll_plain::Plain;
use ll_rules::Domain;
use ll_seq::Call;
use std::alloc::{AllocError, Global};

/// A tree, and the layers of one of its clients.
#[derive(Clone, Copy)]
pub struct View<'a> {
    pub tree: &'a Plain,
    pub domain: &'a Domain,
}

/// Two trees whose clients' rights are compared, and how a difference is written.
#[derive(Clone, Copy)]
pub struct Comparison<'a> {
    pub old: View<'a>,
    pub new: View<'a>,
    pub style: DifferenceStyle,
}

/// The lines of the paths where the rights differ, and whether there is such a path.
#[derive(Drop)]
pub struct Differences {
    pub text: String,
    pub found: bool,
}

impl Differences {
    // Appends lines, which have a difference or not.
    fn push(&mut self, lines: &str, found: bool) -> Result<(), AllocError>
        ensures found { OnOk result (self.new.found ≡ (self.old.found || found)) }
        ensures text { OnOk result (string_bytes self.new.text ≡ string_bytes self.old.text ++ lines.now) }
    {
        self.text.push_str(lines)?;
        self.found = self.found || found;
        Ok(())
    }
}

// Reports whether the call creates a node at the path.
fn creates(path: &Path, call: &Call) -> bool
    ensures { result ≡ creates path.now call.now }
{
    match made_path(call) {
        Some(made) => made.as_str() == path.as_str(),
        None => false,
    }
}

// Reports whether one of the calls creates a node at the path.
fn is_created(path: &Path, calls: &[Call]) -> bool
    ensures { result ≡ list_any (creates path.now) calls.now }
{
    calls.iter().any(|call| creates(path, call))
}

// Returns the path, if none of the calls creates a node there.
fn unless_created<'a>(others: &[Call], path: &'a Path) -> Option<&'a Path>
    ensures { option_map (λ p. p.now) result ≡ unless_created others.now path.entry.now }
{
    if is_created(path, others) {
        None
    } else {
        Some(path)
    }
}

// Returns the path of the node that the call creates, if any, and if none of the others does.
fn only_path<'a>(others: &[Call], call: &'a Call) -> Option<&'a Path>
    ensures { option_map (λ p. p.now) result ≡ only_path others.now (made_path call.now) }
{
    match made_path(call) {
        Some(path) => unless_created(others, path),
        None => None,
    }
}

// Returns the root's path.
fn root_path(alloc: Global) -> Result<Path, AllocError>
    ensures { IfOk result (λ path. path ≡ []) }
{
    let word = Word::from_text(alloc, "/")?;
    let Ok(root) = Path::parse(word) else {
        unreachable!()
    };
    Ok(root)
}

impl Comparison<'_> {
    // Appends the line of one path, if something differs there.
    fn push_path(
        &self,
        alloc: Global,
        path: &Path,
        told: &mut Differences,
    ) -> Result<(), AllocError>
        ensures { OnOk result (AddsDifferences self.now (path.now ∷ []) told.old.found told.new.found
            (string_bytes told.old.text) (string_bytes told.new.text)) }
    {
        let before = rights_at(alloc, self.old.tree, self.old.domain, path)?;
        let after = rights_at(alloc, self.new.tree, self.new.domain, path)?;
        let line = difference_in(alloc, self.style, path, &before, &after)?;
        told.push(line.as_str(), differs(&before, &after))
    }

    // Appends the line of the node that the call creates, if any, and if none of the others does.
    fn push_node(
        &self,
        alloc: Global,
        others: &[Call],
        call: &Call,
        told: &mut Differences,
    ) -> Result<(), AllocError>
        ensures { OnOk result (AddsDifferences self.now (option_to_list (only_path others.now (made_path call.now)))
            told.old.found told.new.found (string_bytes told.old.text) (string_bytes told.new.text)) }
    {
        match only_path(others, call) {
            Some(path) => self.push_path(alloc, path, told),
            None => Ok(()),
        }
    }

    // Returns the lines of these paths.
    fn at_paths(&self, alloc: Global, paths: &[Path]) -> Result<Differences, AllocError>
        ensures { IfOk result (λ told. AreCompared self.now paths.now told.found (string_bytes told.text)) }
    {
        let mut told = Differences {
            text: String::new(alloc),
            found: false,
        };
        for path in paths {
            self.push_path(alloc, path, &mut told)?;
        }
        Ok(told)
    }

    // Returns the lines of the nodes that these calls create and none of the others does.
    fn at_nodes(
        &self,
        alloc: Global,
        others: &[Call],
        calls: &[Call],
    ) -> Result<Differences, AllocError>
        ensures { IfOk result (λ told. AreCompared self.now (only_paths others.now calls.now) told.found
            (string_bytes told.text)) }
    {
        let mut told = Differences {
            text: String::new(alloc),
            found: false,
        };
        for call in calls {
            self.push_node(alloc, others, call, &mut told)?;
        }
        Ok(told)
    }

    // Returns the root's line.
    fn at_root(&self, alloc: Global) -> Result<Differences, AllocError>
        ensures { IfOk result (λ told. AreCompared self.now ([] ∷ []) told.found (string_bytes told.text)) }
    {
        let root = root_path(alloc)?;
        self.at_paths(alloc, &[root])
    }

    // Returns the lines of the root, of the nodes that the new calls create, and of those that only the old ones do.
    fn at_all_nodes(
        &self,
        alloc: Global,
        new: &[Call],
        old: &[Call],
    ) -> Result<Differences, AllocError>
        ensures { IfOk result (λ told. AreCompared self.now (paths_compared [] new.now old.now) told.found
            (string_bytes told.text)) }
    {
        let mut told = self.at_root(alloc)?;
        let nodes = self.at_nodes(alloc, &[], new)?;
        told.push(nodes.text.as_str(), nodes.found)?;
        let others = self.at_nodes(alloc, new, old)?;
        told.push(others.text.as_str(), others.found)?;
        Ok(told)
    }

    /// Returns a line for each of the paths where the rights differ; without paths, of the root, of the nodes that the
    /// new policy's calls create, and then of those that only the old one's do. Errors: memory ran out.
    pub fn differences(
        &self,
        alloc: Global,
        paths: &[Path],
        new: &[Call],
        old: &[Call],
    ) -> Result<Differences, AllocError>
        ensures { IfOk result (λ told. AreCompared self.now (paths_compared paths.now new.now old.now) told.found
            (string_bytes told.text)) }
    {
        if paths.is_empty() {
            self.at_all_nodes(alloc, new, old)
        } else {
            self.at_paths(alloc, paths)
        }
    }
}
