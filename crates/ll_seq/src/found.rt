//! What a walk finds at a call's paths.

ghost use Rattle.std.specs.Prelude.{◌≡◌, ◌∷◌, ◌++◌, ℕ, List, [], None, true, is_some, length, option_and_then};
ghost use Rattle.std.specs.Prelude.{option_map};
ghost use Rattle.std.specs.Option.{option_map_or};
ghost use Rattle.ll_decide.specs.Masks.{AreMasks};
ghost use Rattle.ll_path.specs.Path.{Path};
ghost use Rattle.ll_rights.specs.Map.{get};
ghost use Rattle.ll_seq.specs.Asked.{parents_differ};
ghost use Rattle.ll_seq.specs.Effects.{status_of};
ghost use Rattle.ll_seq.specs.Facts.{AreKept};
ghost use Rattle.ll_seq.specs.Stages as stages;
ghost use Rattle.ll_seq.specs.State.{State, bytes_of, name_count};
ghost use Rattle.ll_seq.specs.Tree.{named, inode_of, kind_at, kind_or_file};
ghost use Rattle.ll_seq.specs.Found.{Stands, crowded_at, spot_by, there_at};
ghost use Rattle.ll_seq.specs.Near.{inode_at};

use crate::{Fact, NumberMap, Status};
use ll_decide::Masks;
use ll_rights::limits::{DIRECTORY_ENTRIES, NODE_NAMES};
use ll_rights::{Errno, Kind};
use ll_rules::Domain;

/// A node that exists under a name, with its counts.
#[derive(Clone, Copy)]
pub struct There {
    pub inode: u64,
    pub kind: Kind,
    pub has_names: bool,
    pub has_many_names: bool,
}

/// What a walk finds for one path: the obstacle on the way to its last name, if any. Without one: the directory of that
/// name, whether the directory is full, and the node under the name.
#[derive(Clone, Copy)]
pub struct Spot {
    pub way: Option<Errno>,
    pub directory: u64,
    pub is_crowded: bool,
    pub there: Option<There>,
}

/// What is found for a call: the spots of both paths (equal for a call of one path), and whether the tree has no room
/// for another node.
#[derive(Clone, Copy)]
pub struct Found {
    pub first: Spot,
    pub second: Spot,
    pub is_full: bool,
}

/// The node with its counts, if there is one.
fn node_there(facts: &NumberMap<Fact>, node: Option<u64>) -> Option<There>
    ensures { result ≡ option_and_then (there_at facts.now) node }
{
    let inode = node?;
    let fact = facts.get(inode)?;
    Some(There {
        inode,
        kind: fact.kind,
        has_names: 0 < fact.names,
        has_many_names: NODE_NAMES <= fact.links,
    })
}

/// Whether the directory has no room for another entry.
fn is_crowded(facts: &NumberMap<Fact>, directory: u64) -> bool
    ensures { result ≡ crowded_at facts.now directory }
{
    match facts.get(directory) {
        None => false,
        Some(fact) => DIRECTORY_ENTRIES <= fact.names,
    }
}

/// Returns what `stat` reports of the node. `size` is in bytes. A directory has one link.
pub fn status_of(facts: &NumberMap<Fact>, inode: u64, kind: Kind, size: u64) -> Status
    ensures { (s : State) → AreKept s facts.now → size ≡ length (bytes_of s inode)
        → (get s.nodes inode ≡ None → name_count s inode ≡ 0) → result ≡ status_of s inode kind }
{
    let links = match facts.get(inode) {
        _ if kind.is_dir() => 1,
        None => 0,
        Some(fact) => fact.links as u64,
    };
    Status {
        inode,
        kind,
        size,
        links,
    }
}

/// Returns what is granted after one more node on the chain, if there is one.
pub fn granted_at(domain: &Domain, mut masks: Masks, node: Option<u64>) -> Masks
    requires { length masks ≡ length domain.now }
    ensures masks { (inodes : List ℕ) → AreMasks masks domain.now inodes
        → AreMasks result domain.now (inodes ++ option_map_or (λ j. j ∷ []) node []) }
    ensures len { length result ≡ length domain.now }
{
    if let Some(inode) = node {
        masks.down(domain, inode);
    }
    masks
}

impl Spot {
    /// Returns the spot of a name in this directory, given what blocks the way to it and the node under the name.
    #[inline(always)]
    pub fn of(
        facts: &NumberMap<Fact>,
        way: Option<Errno>,
        directory: u64,
        node: Option<u64>,
    ) -> Spot
        ensures { result ≡ spot_by facts.now way directory node }
    {
        Spot {
            way,
            directory,
            is_crowded: is_crowded(facts, directory),
            there: node_there(facts, node),
        }
    }

    /// Whether the path names a node.
    pub(crate) fn exists(&self) -> bool
        ensures { (s : State) (path : Path) → Stands s path self.now → result ≡ is_some (named s path) }
    {
        self.there.is_some()
    }

    /// Returns the node that the path names.
    pub fn named(&self) -> Option<u64>
        ensures stands { (s : State) (path : Path) → Stands s path self.now → result ≡ named s path }
        ensures data { result ≡ option_map (λ there. there.inode) self.now.there }
    {
        match self.there {
            None => None,
            Some(node) => Some(node.inode),
        }
    }

    /// Returns the node that the path names, or 0.
    pub fn inode(&self) -> u64
        ensures stands { (s : State) (path : Path) → Stands s path self.now → result ≡ inode_of s path }
        ensures data { result ≡ inode_at self.now }
    {
        match self.there {
            None => 0,
            Some(node) => node.inode,
        }
    }

    /// The kind of the node, if there is one.
    pub(crate) fn kind_there(&self) -> Option<Kind>
        ensures { (s : State) (path : Path) → Stands s path self.now
            → result ≡ option_map (kind_or_file s) (named s path) }
    {
        match self.there {
            None => None,
            Some(node) => Some(node.kind),
        }
    }

    /// The kind of the node. It must exist.
    pub(crate) fn kind(&self) -> Kind
        ensures { (s : State) (path : Path) → Stands s path self.now → is_some (named s path) ≡ true
            → result ≡ kind_at s path }
    {
        match self.there {
            None => Kind::Reg,
            Some(node) => node.kind,
        }
    }

    /// Whether the node has names in it. It must exist.
    pub(crate) fn has_names(&self) -> bool
        ensures { (s : State) (path : Path) → Stands s path self.now → is_some (named s path) ≡ true
            → result ≡ stages.has_names s (inode_of s path) }
    {
        match self.there {
            None => false,
            Some(node) => node.has_names,
        }
    }

    /// Whether the node has as many names as a node may have. It must exist.
    pub(crate) fn has_many_names(&self) -> bool
        ensures { (s : State) (path : Path) → Stands s path self.now → is_some (named s path) ≡ true
            → result ≡ stages.has_many_names s (inode_of s path) }
    {
        match self.there {
            None => false,
            Some(node) => node.has_many_names,
        }
    }

    /// Whether the last names are in different directories.
    pub(crate) fn is_apart(&self, other: &Spot) -> bool
        ensures { (s : State) (old new : Path) → Stands s old self.now → Stands s new other.now
            → result ≡ parents_differ s old new }
    {
        self.directory != other.directory
    }
}
