//! The directories on a walk's way, by their paths.

use crate::scene::{Branch, Spot};
use ll_journal::{Position, Stand};
use ll_path::Path;
use ll_seq::{Targets, target_path, targets_of};
use ll_steps::World;
use std::alloc::{AllocError, Global};
use std::fmt;
use std::fmt::Display;

/// The first names of a path; the root if there is no path.
#[derive(Clone, Copy)]
pub struct Front<'a> {
    path: Option<&'a Path>,
    depth: usize,
}

impl Display for Front<'_> {
    fn fmt<W: fmt::Write>(&self, f: &mut fmt::Formatter<W>) -> fmt::Result {
        match self.path {
            Some(path) if self.depth > 0 && !path.is_root() => {
                for name in path.names().take(self.depth) {
                    f.write_str("/")?;
                    f.write_str(name)?;
                }
                Ok(())
            }
            _ => f.write_str("/"),
        }
    }
}

impl<'a> Front<'a> {
    pub const ROOT: Front<'static> = Front {
        path: None,
        depth: 0,
    };

    // The last of the names.
    fn name(self) -> &'a str {
        match self.path {
            Some(path) if self.depth > 0 => path.names().nth(self.depth - 1).unwrap_or("/"),
            _ => "/",
        }
    }
}

/// A directory that a walk marks: on which branch, its inode, its path, and how many bars below the client's line the
/// mark is drawn, which is a step lower than that of the directory from which the walk came there.
#[derive(Clone, Copy)]
pub struct Leg<'a> {
    pub branch: Branch,
    pub inode: u64,
    pub here: Front<'a>,
    pub bar: usize,
}

impl Leg<'_> {
    /// Returns the mark. Errors: memory ran out.
    pub fn spot(self, alloc: Global) -> Result<Spot, AllocError> {
        let here = self.here;
        let name = String::from_str(alloc, here.name())?;
        let path = format!(in alloc; "{here}")?;
        let bar = self.bar;
        Ok(Spot { name, path, bar })
    }
}

/// The paths of a call whose walk is under way, and where the walk is.
#[derive(Clone, Copy)]
pub struct Way<'a> {
    first: Option<&'a Path>,
    second: Option<&'a Path>,
    at: Position,
}

impl<'a> Way<'a> {
    /// Returns the client's walk, if one is under way.
    pub fn of(world: &'a World, client: u64) -> Option<Way<'a>> {
        let (Some(call), Some(at)) = (world.call(client), world.position(client)) else {
            return None;
        };
        let (first, second) = match targets_of(call) {
            Targets::No => (None, None),
            Targets::One(target) => (target_path(target), None),
            Targets::Two(old, new) => (target_path(old), target_path(new)),
        };
        Some(Way { first, second, at })
    }

    // The first names of this branch's path.
    fn front(self, branch: Branch, depth: usize) -> Front<'a> {
        let path = match branch {
            Branch::Second => self.second,
            _ => self.first,
        };
        Front { path, depth }
    }

    // The leg of this branch, with its mark below so many others.
    fn leg(self, branch: Branch, stand: Stand, others: usize) -> Leg<'a> {
        Leg {
            branch,
            inode: stand.inode,
            here: self.front(branch, stand.depth),
            bar: stand.depth.saturating_add(others).saturating_add(1),
        }
    }

    /// Returns the directories that the walk marks, in the order in which it comes to them.
    pub fn legs(self) -> [Option<Leg<'a>>; 3] {
        match self.at {
            Position::Above => [None; 3],
            Position::Down(trunk) => [Some(self.leg(Branch::Trunk, trunk, 0)), None, None],
            Position::Split(trunk, first, second) => {
                let others = first.depth.saturating_sub(trunk.depth);
                let leg = self.leg(Branch::Second, second, others);
                [
                    Some(self.leg(Branch::Trunk, trunk, 0)),
                    Some(self.leg(Branch::First, first, 0)).filter(|_| others > 0),
                    Some(leg).filter(|_| second.depth > trunk.depth),
                ]
            }
        }
    }

    /// Returns what the next name of this branch's leg names; above the root that is the root.
    pub fn next(self, branch: Branch) -> Front<'a> {
        let depth = match (self.at, branch) {
            (Position::Above, _) => 0,
            (Position::Split(_, _, leg), Branch::Second) => leg.depth.saturating_add(1),
            (Position::Split(_, leg, _), _) => leg.depth.saturating_add(1),
            (Position::Down(leg), _) => leg.depth.saturating_add(1),
        };
        self.front(branch, depth)
    }

    /// Returns the path of the call that names this inode.
    pub fn path_to(self, world: &World, inode: u64) -> Front<'a> {
        if let (Position::Down(leg) | Position::Split(_, leg, _), Some(path)) = (
            self.at, self.first,
        )
            && let Some((_, name)) = path.split_last()
            && world.child(leg.inode, name) == Some(inode)
        {
            return self.front(Branch::First, usize::MAX);
        }
        self.front(Branch::Second, usize::MAX)
    }

    /// Reports whether the walk has split at its fork.
    pub fn is_split(self) -> bool {
        matches!(self.at, Position::Split(..))
    }
}

/// The directories that a walk is in, one after the other.
impl Display for Way<'_> {
    fn fmt<W: fmt::Write>(&self, f: &mut fmt::Formatter<W>) -> fmt::Result {
        for leg in self.legs().into_iter().flatten() {
            let here = leg.here;
            f.write_str(if leg.branch == Branch::Trunk {
                ""
            } else {
                " and "
            })?;
            write!(f, "{here}")?;
        }
        Ok(())
    }
}
