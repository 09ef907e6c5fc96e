//! Whether directories still have the directories above them that they had.

ghost use Rattle.std.specs.Prelude.{◌≡◌, ◌≢◌, ◌↔◌, ◌<◌, ◌==◌, ◌++◌, ◌∷◌, [], ℕ, false, IfOk, IfSome, IsTrue, None, Ok};
ghost use Rattle.std.specs.Prelude.{OnOk, Some, length, if◌then◌else◌};
ghost use Rattle.ll_rights.specs.declared.kind.Kind.TheVariants.{Dir};
ghost use Rattle.ll_seq.specs.State.{State, kind_of};
ghost use Rattle.ll_seq.specs.Tree.{ancestors, named};
ghost use Rattle.ll_learn.specs.Mended.{ArePathsTo, AreSiteChains, HasEachOf, IsPathTo, IsStill, KnowEach, chain_at};
ghost use Rattle.ll_learn.specs.Mended.{chain_in};

use crate::draft::Scope;
use crate::needs::Needs;
use crate::site::{Sites, end_of};
use ll_path::Path;
use ll_plain::Plain;
use ll_rights::Kind;
use ll_why::PathChains;
use std::alloc::{AllocError, Global};

/// A directory, and the inodes of a path that leads to it, from the root on.
#[derive(Drop)]
struct DirectorySite {
    inode: u64,
    inodes: Vec<u64>,
}

/// The directories of a tree at one time.
#[derive(Drop)]
pub(crate) struct SiteChains {
    /// For each inode, by its number, the inodes of a path that leads to it, from the root on. None if it isn't a
    /// directory's.
    rows: Vec<Vec<u64>>,
}

// Returns the inodes of the path, from the root on.
fn inodes_of(alloc: Global, tree: &Plain, path: &Path) -> Result<Vec<u64>, AllocError>
    ensures { IfOk result (λ inodes. inodes.items ≡ ancestors tree.now path.now) }
{
    let PathChains { itself, parent } = PathChains::of_path(alloc, tree, path)?;
    drop(parent);
    Ok(itself)
}

impl DirectorySite {
    // Returns the directory that the path leads to, if any.
    fn of_path(
        alloc: Global,
        tree: &Plain,
        path: &Path,
    ) -> Result<Option<DirectorySite>, AllocError>
        ensures some { IfOk result (λ found. IfSome found (λ site. IsPathTo tree.now site.inode site.inodes.items)) }
        ensures inode { IfOk result (λ found. IfSome found (λ site. named tree.now path.now ≡ Some site.inode)) }
        ensures none { result ≡ Ok None → (inode : ℕ) → named tree.now path.now ≡ Some inode
            → kind_of tree.now inode ≡ Some Dir → ⊥ }
    {
        let Some(inode) = end_of(tree, path) else {
            return Ok(None);
        };
        match tree.kind(inode) {
            Some(Kind::Dir) => {
                let inodes = inodes_of(alloc, tree, path)?;
                Ok(Some(DirectorySite { inode, inodes }))
            }
            _ => Ok(None),
        }
    }
}

// Appends the row.
fn push_row(rows: &mut Vec<Vec<u64>>, row: Vec<u64>) -> Result<(), AllocError>
    ensures { OnOk result (rows.new.items ≡ rows.old.items ++ row ∷ []) }
{
    match rows.push(row) {
        Ok(()) => Ok(()),
        Err(refused) => {
            drop(refused);
            Err(AllocError)
        }
    }
}

// Appends empty rows until there is one for this inode.
fn reach(alloc: Global, rows: &mut Vec<Vec<u64>>, place: usize) -> Result<(), AllocError>
    ensures len { OnOk result (place < length rows.new.items) }
    ensures same { OnOk result ((inode : ℕ) → chain_in rows.new.items inode ≡ chain_in rows.old.items inode) }
{
    while rows.len() <= place {
        push_row(rows, Vec::new(alloc))?;
    }
    Ok(())
}

impl SiteChains {
    // Adds the directory.
    fn put(&mut self, alloc: Global, row: DirectorySite) -> Result<(), AllocError>
        ensures { OnOk result ((inode : ℕ) → chain_at self.new inode
            ≡ (if inode == row.inode then row.inodes.items else chain_at self.old inode)) }
    {
        let place = row.inode as usize;
        reach(alloc, &mut self.rows, place)?;
        self.rows[place] = row.inodes;
        Ok(())
    }

    // Adds the directory that the path leads to, if any.
    fn add(&mut self, alloc: Global, tree: &Plain, path: &Path) -> Result<(), AllocError>
        ensures chains { OnOk result (AreSiteChains tree.now self.old → AreSiteChains tree.now self.new) }
        ensures stay { OnOk result ((inode : ℕ) → chain_at self.old inode ≢ [] → chain_at self.new inode ≢ []) }
        ensures added { OnOk result ((inode : ℕ) → named tree.now path.now ≡ Some inode
            → kind_of tree.now inode ≡ Some Dir → chain_at self.new inode ≢ []) }
    {
        match DirectorySite::of_path(alloc, tree, path)? {
            Some(row) => self.put(alloc, row),
            None => Ok(()),
        }
    }

    /// Returns the chains of the directories among these nodes, in this tree. Errors: memory ran out.
    pub(crate) fn of_sites(
        alloc: Global,
        tree: &Plain,
        sites: &Sites,
    ) -> Result<SiteChains, AllocError>
        ensures chains { IfOk result (AreSiteChains tree.now) }
        ensures each { IfOk result (HasEachOf tree.now sites.now.rows.items) }
    {
        let mut chains = SiteChains {
            rows: Vec::new(alloc),
        };
        for site in &sites.rows {
            chains.add(alloc, tree, &site.path)?;
        }
        Ok(chains)
    }

    // Reports whether this directory is among them, by a path with these inodes.
    fn has(&self, inode: u64, inodes: &[u64]) -> bool
        ensures { IsTrue result ↔ (chain_at self.now inode ≡ inodes.now) }
    {
        let place = inode as usize;
        if place < self.rows.len() {
            self.rows[place].as_slice() == inodes
        } else {
            inodes.is_empty()
        }
    }

    // Reports whether each directory on the path whose rule may have a right is among them, by the path up to it.
    fn are_on(&self, scope: &Scope, inodes: &[u64]) -> bool
        ensures still { IsTrue result → (s : State) → AreSiteChains s self.now → ArePathsTo s scope.now inodes.now }
        ensures moved { result ≡ false → (s : State) → KnowEach s scope.now self.now
            → ArePathsTo s scope.now inodes.now → ⊥ }
    {
        for i in 0..inodes.len() {
            if scope.may_have_any(inodes[i]) && !self.has(inodes[i], &inodes[..i + 1]) {
                return false;
            }
        }
        true
    }

    /// Reports whether that holds for the path of each directory that a node moves into: none of them has moved.
    pub(crate) fn is_still(&self, scope: &Scope, needs: &Needs) -> bool
        ensures still { IsTrue result → (s : State) → AreSiteChains s self.now → IsStill s needs.now scope.now }
        ensures moved { result ≡ false → (s : State) → KnowEach s scope.now self.now
            → IsStill s needs.now scope.now → ⊥ }
    {
        for moved in &needs.moves {
            if !self.are_on(scope, &moved.into) {
                return false;
            }
        }
        true
    }
}
