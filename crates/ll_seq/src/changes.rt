//! The effect of a call, as data.

ghost use Rattle.std.specs.Prelude.{◌≡◌, [], false};
ghost use Rattle.ll_path.specs.Name.{IsName};
ghost use Rattle.ll_path.specs.Path.{is_root, last_name};
ghost use Rattle.ll_seq.specs.Call.{path_of};
ghost use Rattle.ll_seq.specs.Stages.{way_to};
ghost use Rattle.ll_seq.specs.State.{State};
ghost use Rattle.ll_seq.specs.Effect.{IsPlace, descriptor_of};
ghost use Rattle.ll_seq.specs.Found.{Stands};

use crate::Descriptor;
use crate::found::Spot;
use ll_path::Target;
use ll_rights::{Access, Kind};

/// A directory and a name in it.
#[derive(Clone, Copy)]
pub struct At<'a> {
    pub directory: u64,
    pub name: &'a str,
}

/// A descriptor that the caller gets, for an existing file or for the one that is created.
#[derive(Clone, Copy)]
pub struct Opening<'a> {
    pub number: u64,
    pub at: At<'a>,
    pub there: Option<u64>,
    pub is_emptied: bool,
    pub reads: bool,
    pub writes: bool,
    pub kept: Option<u64>,
}

impl Opening<'_> {
    /// Returns the descriptor for a file of this inode.
    pub fn descriptor(&self, inode: u64) -> Descriptor
        ensures { result ≡ descriptor_of self.now inode }
    {
        Descriptor {
            inode,
            reads: self.reads,
            writes: self.writes,
            kept: self.kept,
        }
    }
}

/// A rule to add to a ruleset of the caller, on the inode of a node of this kind.
#[derive(Clone, Copy)]
pub struct Rule {
    pub number: u64,
    pub inode: u64,
    pub kind: Kind,
    pub rights: Access,
}

/// A change that a call makes to the tree.
#[derive(Clone, Copy)]
pub enum Change<'a> {
    Nothing,
    /// Creates an empty node under the name.
    Make(At<'a>, Kind),
    /// Removes this name of the inode.
    Take(At<'a>, u64),
    /// Adds a further name for the inode.
    Name(At<'a>, u64),
    /// Moves the inode from the first name to the second.
    Move(At<'a>, At<'a>, u64),
    /// Moves the first inode from the first name to the second, which the second inode loses.
    Replace(At<'a>, At<'a>, u64, u64),
    /// Exchanges the names of two inodes: the first inode had the first name.
    Exchange(At<'a>, At<'a>, u64, u64),
    /// Sets the length of the node's bytes. New bytes are zeros.
    Resize(u64, u64),
    Open(Opening<'a>),
    Allow(Rule),
}

/// What a successful call returns.
#[derive(Clone, Copy)]
pub enum Answer {
    Done,
    /// The new descriptor's number.
    Opened(u64),
    /// The node's status.
    Status(u64, Kind),
    /// The names in the directory of this inode.
    Names(u64),
}

/// The answer and the change of a call that nothing refuses.
#[derive(Clone, Copy)]
pub struct Effect<'a> {
    pub answer: Answer,
    pub change: Change<'a>,
}

impl<'a> At<'a> {
    /// The last name of a path, at the spot found for it.
    pub(crate) fn of(spot: &Spot, target: &'a Target) -> At<'a>
        ensures place { (s : State) → Stands s (path_of target.now) spot.now → way_to s target.now ≡ []
            → is_root (path_of target.now) ≡ false → IsPlace s (path_of target.now) result }
        ensures directory { result.directory ≡ spot.now.directory }
    {
        At {
            directory: spot.directory,
            name: last_name(target),
        }
    }
}

fn last_name(target: &Target) -> &str
    ensures last { result.now ≡ last_name (path_of target.now) }
    ensures name { is_root (path_of target.now) ≡ false → IsName result.now }
{
    match target {
        Target::Good(path) => match path.split_last() {
            Some((_, name)) => name,
            None => "",
        },
        Target::Bad(_) => "",
    }
}
