//! Walks from the root.

ghost use Rattle.std.specs.Prelude.{◌≡◌, ◌∷◌, ◌++◌, [], length, option_and_then, slice_get};
ghost use Rattle.ll_path.specs.Path.{Path, parent};
ghost use Rattle.ll_seq.specs.Found.{IsSpot};
ghost use Rattle.ll_seq.specs.State.{child, root};
ghost use Rattle.ll_seq.specs.Stages as stages;
ghost use Rattle.ll_seq.specs.Tree.{directory_of, named};
ghost use Rattle.ll_plain.specs.WalkPlace.{IsWalk, IsPathWalk};

use crate::Plain;
use ll_decide::Masks;
use ll_path::{Names, Path};
use ll_rights::Errno;
use ll_rules::Domain;
use ll_seq::{ROOT, Spot, first, granted_at, no_directory};

/// A walk along some names, at its end.
#[derive(Drop)]
pub struct Walk {
    /// The node at the end, if the names lead to one.
    pub end: Option<u64>,
    /// The first thing that blocks the way, if anything does.
    pub way: Option<Errno>,
    /// The rights that each layer grants at the end.
    pub masks: Masks,
}

/// The result of walking a path.
#[derive(Drop)]
pub struct PathWalk {
    pub spot: Spot,
    /// The rights that each layer grants on the path's parent.
    pub parent: Masks,
    /// The rights that each layer grants on the path.
    pub itself: Masks,
}

impl Plain {
    /// The walk along no names.
    fn start(&self, domain: &Domain) -> Walk
        ensures { IsWalk self.now domain.now [] result }
    {
        Walk {
            end: Some(ROOT),
            way: None,
            masks: Masks::root(self.alloc, domain),
        }
    }

    /// Why the node can't be used as a directory, or None.
    fn in_the_way(&self, node: Option<u64>) -> Option<Errno>
        ensures { result ≡ slice_get (stages.no_directory (stages.kind_of_child self.now node)) 0 }
    {
        match node {
            None => no_directory(None),
            Some(inode) => no_directory(self.kind(inode)),
        }
    }

    /// The inode of the name in the directory, if both exist.
    fn beneath(&self, directory: Option<u64>, name: &str) -> Option<u64>
        ensures { result ≡ option_and_then (λ d. child self.now d name.now) directory }
    {
        match directory {
            None => None,
            Some(directory) => self.child(directory, name),
        }
    }

    /// Extends the walk by one name.
    fn step(&self, domain: &Domain, walk: Walk, name: &str) -> Walk
        requires { length walk.masks ≡ length domain.now }
        ensures { (names : Path) → IsWalk self.now domain.now names walk
            → IsWalk self.now domain.now (names ++ name.now ∷ []) result }
    {
        let Some(directory) = walk.end else {
            return walk;
        };
        let end = self.child(directory, name);
        Walk {
            end,
            way: first(walk.way, self.in_the_way(end)),
            masks: granted_at(domain, walk.masks, end),
        }
    }

    /// Walks along the names.
    fn walk(&self, domain: &Domain, names: Names<'_>) -> Walk
        ensures { IsWalk self.now domain.now names.entry result }
    {
        let mut walk = self.start(domain);
        for name in names {
            walk = self.step(domain, walk, name);
        }
        walk
    }

    /// The spot of the path's last name.
    fn spot(&self, way: Option<Errno>, directory: u64, node: Option<u64>) -> Spot
        ensures { (path : Path) → way ≡ slice_get (stages.in_the_way self.now (parent path) root) 0
            → directory ≡ directory_of self.now path → node ≡ named self.now path → IsSpot self.now path result }
    {
        Spot::of(&self.facts, way, directory, node)
    }

    pub(crate) fn walk_root(&self, domain: &Domain) -> PathWalk
        ensures { IsPathWalk self.now domain.now [] result }
    {
        PathWalk {
            spot: self.spot(None, ROOT, Some(ROOT)),
            parent: Masks::root(self.alloc, domain),
            itself: Masks::root(self.alloc, domain),
        }
    }

    /// Walks along the path.
    pub(crate) fn walk_path(&self, domain: &Domain, path: &Path) -> PathWalk
        ensures { IsPathWalk self.now domain.now path.now result }
    {
        let Some((parent, name)) = path.split_last() else {
            return self.walk_root(domain);
        };
        let walk = self.walk(domain, parent);
        let directory = walk.end.unwrap_or(0);
        let node = self.beneath(walk.end, name);
        PathWalk {
            spot: self.spot(walk.way, directory, node),
            itself: granted_at(domain, walk.masks.copy(), node),
            parent: walk.masks,
        }
    }
}
