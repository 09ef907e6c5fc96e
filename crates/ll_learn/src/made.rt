//! Rights that directories' rules have only for what is made there, though they reach other nodes too.

ghost use Rattle.std.specs.Prelude.{◌≤◌};
ghost use Rattle.ll_rights.specs.declared.limits.TheConstants.{TREE_NODES};

use crate::draft::Draft;
use crate::needs::{Asked, Needs};
use crate::preface::{Opening, cut_of};
use crate::profile::{LearnedProfile, LearnedRule};
use crate::right_column::is_granted_without;
use crate::site::Sites;
use crate::undenied::{Basis, draft_of};
use ll_path::Path;
use ll_plain::Plain;
use ll_rights::{Access, Kind, Right};
use std::alloc::{AllocError, Global};

/// Rights that a directory's rule has only for what calls make there, and that reach a node that was there before.
#[derive(Clone, Copy)]
pub struct Made {
    /// The rule's index in the profile.
    pub rule: usize,
    pub rights: Access,
}

// What tells what a directory's rule has a right for.
#[derive(Drop)]
struct Uses<'a> {
    /// The tree at the cut, and its nodes.
    tree: &'a Plain,
    sites: &'a Sites,
    needs: &'a Needs,
    draft: &'a Draft,
}

// Reports whether a path is below another.
fn is_below(path: &str, above: &str) -> bool {
    match path.strip_prefix(above) {
        Some(rest) => rest.starts_with('/') || (above == "/" && !rest.is_empty()),
        None => false,
    }
}

impl Uses<'_> {
    // Reports whether the right means something for a node below the path.
    fn reaches(&self, right: Right, above: &Path) -> bool {
        self.sites.rows.iter().any(|site| site.may.holds(right)
            && is_below(site.path.as_str(), above.as_str()))
    }

    // Reports whether the ask for this right is for a node made later. A directory is asked for a file's right if the
    // file is missing.
    fn is_for_made(&self, right: Right, asked: &Asked) -> bool {
        let Some(last) = asked.inodes.last() else {
            return false;
        };
        match self.tree.kind(*last) {
            Some(Kind::Dir) => Access::FILE.holds(right),
            Some(_) => false,
            None => true,
        }
    }

    // Reports whether only such asks need the right of the directory's rule.
    fn is_only_for_made(
        &self,
        alloc: Global,
        right: Right,
        directory: u64,
    ) -> Result<bool, AllocError> {
        let held = self.draft.column(alloc, right)?;
        let mut is_needed = false;
        for asked in &self.needs.asks {
            if !is_granted_without(&held, directory, right, asked) {
                if !self.is_for_made(right, asked) {
                    return Ok(false);
                }
                is_needed = true;
            }
        }
        Ok(is_needed)
    }

    // Returns those of the rule's rights.
    fn rights_of(&self, alloc: Global, rule: &LearnedRule) -> Result<Access, AllocError> {
        let mut rights = Access(0);
        if !matches!(self.tree.kind(rule.inode), Some(Kind::Dir)) {
            return Ok(rights);
        }
        for right in Right::ALL {
            if rule.rights.holds(right)
                && self.reaches(right, &rule.path)
                && self.is_only_for_made(alloc, right, rule.inode)?
            {
                rights = rights.with(right.access());
            }
        }
        Ok(rights)
    }
}

// Returns such rights of the profile's rules.
fn made_of(
    alloc: Global,
    tree: &Plain,
    sites: &Sites,
    needs: &Needs,
    profile: &LearnedProfile,
) -> Result<Vec<Made>, AllocError> {
    let draft = draft_of(alloc, profile)?;
    let uses = Uses {
        tree,
        sites,
        needs,
        draft: &draft,
    };
    let mut found = Vec::new(alloc);
    for (rule, learned) in profile.rules.iter().enumerate() {
        let rights = uses.rights_of(alloc, learned)?;
        if rights.0 != 0 {
            found.push(Made { rule, rights })?;
        }
    }
    Ok(found)
}

/// Returns such rights of the profile's rules. None if that isn't known. No contract says which: it helps whoever reads
/// the profile.
pub fn made_rights(alloc: Global, basis: &Basis, profile: &LearnedProfile) -> Option<Vec<Made>>
    requires some { 1 ≤ basis.now.header.now.nodes }
    requires most { basis.now.header.now.nodes ≤ TREE_NODES }
{
    let first = basis.histories.first()?;
    let cut = cut_of(first, basis.client)?;
    let opening = Opening {
        header: basis.header,
        client: basis.client,
        early: &first[..cut],
    };
    let needs = opening.needs(alloc, basis.histories).ok()?;
    let Ok(mut tree) = opening.tree(alloc, 0) else {
        return None;
    };
    if !tree.has_client(basis.client) {
        return None;
    }
    let sites = Sites::of_tree(alloc, &mut tree, basis.client, Access::ALL).ok()?;
    made_of(alloc, &tree, &sites, &needs, profile).ok()
}
