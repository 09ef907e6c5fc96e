//! Calls.

ghost use Rattle.std.specs.Prelude.{◌≡◌, IfOk};
ghost use Rattle.ll_seq.specs.Call.{creates, descriptor_of, is_exclusive, reads, takes_gate, writes};
ghost use Rattle.ll_seq.specs.History.{is_connect};

use ll_path::{Data, Target};
use ll_rights::{Access, Kind};
use std::alloc::{AllocError, Global};

/// Whether a descriptor reads, writes, or both. open(2), "The file access modes"
#[derive(Clone, Copy, Debug, PartialEq, Eq)]
pub enum AccessMode {
    Read,
    Write,
    ReadWrite,
}

impl AccessMode {
    pub fn reads(self) -> bool
        ensures { result ≡ reads self }
    {
        self != AccessMode::Write
    }

    pub fn writes(self) -> bool
        ensures { result ≡ writes self }
    {
        self != AccessMode::Read
    }
}

/// What opening does if the name is missing, and if it exists. open(2), O_CREAT and O_EXCL
#[derive(Clone, Copy, Debug, PartialEq, Eq)]
pub enum Creation {
    /// The file must exist.
    Never,
    /// Creates a missing file.
    IfMissing,
    /// Creates the file, which must be missing.
    Exclusive,
}

impl Creation {
    pub fn creates(self) -> bool
        ensures { result ≡ creates self }
    {
        self != Creation::Never
    }

    pub fn is_exclusive(self) -> bool
        ensures { result ≡ is_exclusive self }
    {
        self == Creation::Exclusive
    }
}

/// How a file is opened: its access mode, whether it is truncated, and whether it is created.
#[derive(Clone, Copy, Debug, PartialEq, Eq)]
pub struct Mode {
    pub access: AccessMode,
    pub truncate: bool,
    pub creation: Creation,
}

/// A client's call. A number is a descriptor's or a ruleset's, counted from 0. Offsets and lengths are in bytes.
#[derive(Drop)]
pub enum Call {
    /// Creates an empty node.
    Make(Kind, Target),
    /// Opens a file.
    Open(Mode, Target),
    /// Reads from a descriptor: its number, the offset, the most bytes to return.
    Read(u64, u64, u64),
    /// Writes through a descriptor: its number, the offset, the bytes.
    Write(u64, u64, Data),
    /// Sets the length of the descriptor's file. New bytes are zeros.
    Ftruncate(u64, u64),
    /// Closes the descriptor.
    Close(u64),
    /// Sets the length of the file. New bytes are zeros.
    Truncate(Target, u64),
    /// Lists the names in the directory.
    ReadDir(Target),
    /// Reports the node's inode, kind, links and size.
    Stat(Target),
    /// Checks that the file may be executed.
    Exec(Target),
    /// Removes a name of a node that isn't a directory.
    Unlink(Target),
    /// Removes an empty directory.
    Rmdir(Target),
    /// Moves the node from the first path to the second. A node that had the second path loses that name.
    Rename(Target, Target),
    /// Moves the node from the first path to the second, which must name nothing.
    RenameNoreplace(Target, Target),
    /// Exchanges the nodes at the two paths.
    Exchange(Target, Target),
    /// Gives the node at the first path the second path as a further name (hard link).
    Link(Target, Target),
    /// Creates a ruleset that handles these rights.
    Ruleset(Access),
    /// Adds a rule to the ruleset, on the node that the path names.
    Allow(u64, Target, Access),
    /// Enforces a copy of the ruleset as the client's newest layer.
    Confine(u64),
    /// Creates a client with the caller's layers, and copies of its descriptors if the tree's rules say so.
    Spawn,
    /// Creates a client without layers: the caller itself.
    Connect,
}

// Returns copies of two path arguments.
fn both_copied(alloc: Global, one: &Target, other: &Target) -> Result<(Target, Target), AllocError>
    ensures { IfOk result (λ copies. (copies.0 ≡ one.now) × (copies.1 ≡ other.now)) }
{
    let one = one.copy(alloc)?;
    let other = other.copy(alloc)?;
    Ok((one, other))
}

impl Call {
    /// Returns the descriptor that the call is made on, or None.
    pub fn descriptor(&self) -> Option<u64>
        ensures { result ≡ descriptor_of self.now }
    {
        match self {
            Call::Read(fd, ..) | Call::Write(fd, ..) => Some(*fd),
            Call::Ftruncate(fd, _) | Call::Close(fd) => Some(*fd),
            _ => None,
        }
    }

    /// Reports whether the call may move a directory. If so, its walk holds the move gate.
    pub fn takes_gate(&self) -> bool
        ensures { result ≡ takes_gate self.now }
    {
        matches!(
            self,
            Call::Rename(..) | Call::RenameNoreplace(..) | Call::Exchange(..)
        )
    }

    /// Reports whether the call is a connect.
    pub fn is_connect(&self) -> bool
        ensures { result ≡ is_connect self.now }
    {
        matches!(self, Call::Connect)
    }

    /// Returns a copy. Errors: memory ran out.
    pub fn copy(&self, alloc: Global) -> Result<Call, AllocError>
        ensures { IfOk result (λ copy. copy ≡ self.now) }
    {
        match self {
            Call::Make(kind, path) => Ok(Call::Make(*kind, path.copy(alloc)?)),
            Call::Open(mode, path) => Ok(Call::Open(*mode, path.copy(alloc)?)),
            Call::Read(number, offset, len) => Ok(Call::Read(*number, *offset, *len)),
            Call::Write(number, offset, data) => Ok(Call::Write(*number, *offset, data.copy()?)),
            Call::Ftruncate(number, len) => Ok(Call::Ftruncate(*number, *len)),
            Call::Close(number) => Ok(Call::Close(*number)),
            Call::Truncate(path, len) => Ok(Call::Truncate(path.copy(alloc)?, *len)),
            Call::ReadDir(path) => Ok(Call::ReadDir(path.copy(alloc)?)),
            Call::Stat(path) => Ok(Call::Stat(path.copy(alloc)?)),
            Call::Exec(path) => Ok(Call::Exec(path.copy(alloc)?)),
            Call::Unlink(path) => Ok(Call::Unlink(path.copy(alloc)?)),
            Call::Rmdir(path) => Ok(Call::Rmdir(path.copy(alloc)?)),
            Call::Rename(one, other) => {
                let (one, other) = both_copied(alloc, one, other)?;
                Ok(Call::Rename(one, other))
            }
            Call::RenameNoreplace(one, other) => {
                let (one, other) = both_copied(alloc, one, other)?;
                Ok(Call::RenameNoreplace(one, other))
            }
            Call::Exchange(one, other) => {
                let (one, other) = both_copied(alloc, one, other)?;
                Ok(Call::Exchange(one, other))
            }
            Call::Link(one, other) => {
                let (one, other) = both_copied(alloc, one, other)?;
                Ok(Call::Link(one, other))
            }
            Call::Ruleset(rights) => Ok(Call::Ruleset(*rights)),
            Call::Allow(number, path, rights) => {
                Ok(Call::Allow(*number, path.copy(alloc)?, *rights))
            }
            Call::Confine(number) => Ok(Call::Confine(*number)),
            Call::Spawn => Ok(Call::Spawn),
            Call::Connect => Ok(Call::Connect),
        }
    }
}
