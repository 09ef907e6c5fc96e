//! The inodes of a path.

ghost use Rattle.std.specs.Prelude.{◌≡◌, [], ◌∷◌, ◌++◌, IfOk, OnOk};
ghost use Rattle.std.specs.Option.{option_map_or};
ghost use Rattle.ll_path.specs.Path.{Path};
ghost use Rattle.ll_seq.specs.State.{State};
ghost use Rattle.ll_seq.specs.Call.{first_path, path_of, second_path};
ghost use Rattle.ll_why.specs.Chains.{AreChains, IsChain};

use ll_path::{Names, Path, Target};
use ll_plain::Plain;
use ll_seq::{Call, ROOT, Targets, targets_of};
use std::alloc::{AllocError, Global};

/// The inodes of a path from the root on, until a name leads nowhere.
#[derive(Drop)]
pub struct Chain {
    pub inodes: Vec<u64>,
    /// The node that the path leads to, if any.
    pub end: Option<u64>,
}

// Appends the inode.
fn push_inode(inodes: &mut Vec<u64>, inode: u64) -> Result<(), AllocError>
    ensures { OnOk result (inodes.new.items ≡ inodes.old.items ++ inode ∷ []) }
{
    inodes.push(inode)?;
    Ok(())
}

impl Chain {
    // Returns the chain of no names.
    fn start(alloc: Global) -> Result<Chain, AllocError>
        ensures { IfOk result (λ chain. (s : State) → IsChain s [] chain) }
    {
        let mut inodes = Vec::new(alloc);
        inodes.push(ROOT)?;
        Ok(Chain {
            inodes,
            end: Some(ROOT),
        })
    }

    // Extends the chain by one name, which has this node, if any.
    fn with(mut self, end: Option<u64>) -> Result<Chain, AllocError>
        ensures inodes { IfOk result (λ after. after.inodes.items
            ≡ self.inodes.items ++ option_map_or (λ inode. inode ∷ []) end []) }
        ensures end { IfOk result (λ after. after.end ≡ end) }
    {
        if let Some(inode) = end {
            push_inode(&mut self.inodes, inode)?;
        }
        Ok(Chain { end, ..self })
    }

    // Extends the chain by one name.
    fn down(self, tree: &Plain, name: &str) -> Result<Chain, AllocError>
        ensures { IfOk result (λ after. (names : Path) → IsChain tree.now names self
            → IsChain tree.now (names ++ name.now ∷ []) after) }
    {
        match self.end {
            None => Ok(self),
            Some(directory) => self.with(tree.child(directory, name)),
        }
    }

    /// Returns the inodes of the path with these names in the tree. Errors: memory ran out.
    pub fn of_names(alloc: Global, tree: &Plain, names: Names<'_>) -> Result<Chain, AllocError>
        ensures { IfOk result (IsChain tree.now names.entry) }
    {
        let mut chain = Chain::start(alloc)?;
        for name in names {
            chain = chain.down(tree, name)?;
        }
        Ok(chain)
    }
}

/// The inodes of a path and of its directory's path, from the root on.
#[derive(Drop)]
pub struct PathChains {
    pub itself: Vec<u64>,
    pub parent: Vec<u64>,
}

impl PathChains {
    // Returns the chains of the root.
    fn of_root(alloc: Global) -> Result<PathChains, AllocError>
        ensures { IfOk result (λ chains. (s : State) → AreChains s [] chains) }
    {
        let itself = Chain::start(alloc)?;
        let parent = Chain::start(alloc)?;
        Ok(PathChains {
            itself: itself.inodes,
            parent: parent.inodes,
        })
    }

    /// Returns the chains of a path in the tree. Errors: memory ran out.
    pub fn of_path(alloc: Global, tree: &Plain, path: &Path) -> Result<PathChains, AllocError>
        ensures { IfOk result (AreChains tree.now path.now) }
    {
        let itself = Chain::of_names(alloc, tree, path.names())?;
        let parent = Chain::of_names(alloc, tree, path.parent())?;
        Ok(PathChains {
            itself: itself.inodes,
            parent: parent.inodes,
        })
    }

    // Returns the chains of the path that a word spells. For a word that is no path, those of the root.
    fn of_target(alloc: Global, tree: &Plain, target: &Target) -> Result<PathChains, AllocError>
        ensures { IfOk result (AreChains tree.now (path_of target.now)) }
    {
        match target {
            Target::Good(path) => PathChains::of_path(alloc, tree, path),
            Target::Bad(_) => PathChains::of_root(alloc),
        }
    }

    /// Returns the chains of a call's first path in the tree. Errors: memory ran out.
    pub fn of_first(alloc: Global, tree: &Plain, call: &Call) -> Result<PathChains, AllocError>
        ensures { IfOk result (AreChains tree.now (first_path call.now)) }
    {
        match targets_of(call) {
            Targets::No => PathChains::of_root(alloc),
            Targets::One(target) => PathChains::of_target(alloc, tree, target),
            Targets::Two(old, _) => PathChains::of_target(alloc, tree, old),
        }
    }

    /// Returns the chains of a call's second path in the tree, or of its first if it has only one. Errors: memory ran
    /// out.
    pub fn of_second(alloc: Global, tree: &Plain, call: &Call) -> Result<PathChains, AllocError>
        ensures { IfOk result (AreChains tree.now (second_path call.now)) }
    {
        match targets_of(call) {
            Targets::No => PathChains::of_root(alloc),
            Targets::One(target) => PathChains::of_target(alloc, tree, target),
            Targets::Two(_, new) => PathChains::of_target(alloc, tree, new),
        }
    }
}
