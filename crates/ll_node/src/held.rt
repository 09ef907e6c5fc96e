//! The contents of a slot.

ghost use Rattle.std.specs.Prelude.{◌≡◌, [], true, false, IfErr, IsErr, IsOk, OnOk, OnErr};
ghost use Rattle.ll_rights.specs.declared.errno.Errno.TheVariants.{NoMemory};
ghost use Rattle.ll_rights.specs.Kind.{is_dir};
ghost use Rattle.ll_rights.specs.Map.{insert};
ghost use Rattle.ll_path.specs.Name.{IsName};
ghost use Rattle.ll_seq.specs.Effects.{resized};
ghost use Rattle.ll_node.specs.Slot.{renamed};
ghost use Rattle.ll_node.specs.Refusals.{insert_refusals, missing, rename_refusals, len_refusals};
ghost use Rattle.ll_node.specs.Lent.{unmarked, emptied_in, filled, named_in, unnamed_in, vacant, vacated};

use crate::Slot;
use ll_rights::{Errno, Kind};
use std::alloc::{AllocError, Global};

/// A slot's inode and node. The inode is 0 if the slot is vacant.
#[derive(Drop)]
pub struct Held {
    pub inode: u64,
    pub node: Slot,
}

/// Converts errors that can only be NoMemory.
fn wants_memory(done: Result<(), Errno>) -> Result<(), AllocError>
    requires { IfErr done (λ errno. errno ≡ NoMemory) }
    ensures ok { OnOk result (IsOk done) }
    ensures err { OnErr result (IsErr done) }
{
    match done {
        Ok(()) => Ok(()),
        Err(Errno::NoMemory) => Err(AllocError),
        Err(_) => unreachable!(),
    }
}

impl Held {
    /// Returns the contents of a vacant slot. Takes no memory.
    pub fn vacant(alloc: Global) -> Held
        ensures { result ≡ vacant }
    {
        Held {
            inode: 0,
            node: Slot::new(alloc, Kind::Reg),
        }
    }

    /// Removes the client's mark, if it is here.
    pub(crate) fn unmark(&mut self, client: u64)
        ensures { self.new ≡ unmarked client self.old }
    {
        if self.node.mark() == Some(client) {
            self.node.set_mark(None);
        }
    }

    /// Adds a name that the directory doesn't have. Errors: memory ran out, and nothing has changed.
    pub(crate) fn name(&mut self, name: &str, inode: u64) -> Result<(), AllocError>
        requires directory { is_dir self.old.node.kind ≡ true }
        requires name { IsName name.now }
        requires takes { insert_refusals self.old.node.names name.now ≡ [] }
        ensures ok { OnOk result (self.new
            ≡ record self.old { node = record self.old.node { names = insert self.old.node.names name.now inode } }) }
        ensures err { OnErr result (self.new ≡ self.old) }
    {
        wants_memory(self.node.insert(name, inode))
    }

    /// Sets the inode of a name in the directory, if the directory is in this slot.
    pub(crate) fn replace_name(&mut self, directory: u64, name: &str, inode: u64)
        requires { self.old.inode ≡ directory → missing self.old.node.names name.now ≡ [] }
        ensures { self.new ≡ named_in directory name.now inode self.old }
    {
        if self.inode == directory {
            let _ = self.node.replace(name, inode);
        }
    }

    /// Removes a name from the directory, if the directory is in this slot.
    pub(crate) fn take_name(&mut self, directory: u64, name: &str)
        ensures { self.new ≡ unnamed_in directory name.now self.old }
    {
        if self.inode == directory {
            let _ = self.node.remove(name);
        }
    }

    /// Moves the inode from the old name to the new one. Errors: memory ran out, and nothing has changed.
    pub(crate) fn rename(&mut self, old: &str, new: &str) -> Result<(), AllocError>
        requires name { IsName new.now }
        requires takes { rename_refusals self.old.node.names old.now new.now ≡ [] }
        ensures ok { OnOk result (self.new
            ≡ record self.old { node = record self.old.node { names = renamed self.old.node.names old.now new.now } }) }
        ensures err { OnErr result (self.new ≡ self.old) }
    {
        wants_memory(self.node.rename(old, new))
    }

    /// Sets the length of the node's bytes. New bytes are zeros. Errors: memory ran out, and nothing has changed.
    pub(crate) fn set_len(&mut self, size: u64) -> Result<(), AllocError>
        requires file { is_dir self.old.node.kind ≡ false }
        requires takes { len_refusals size ≡ [] }
        ensures ok { OnOk result (self.new
            ≡ record self.old { node = record self.old.node { bytes = resized self.old.node.bytes size } }) }
        ensures err { OnErr result (self.new ≡ self.old) }
    {
        wants_memory(self.node.set_len(size))
    }

    /// Removes all bytes of the inode's node, if it is in this slot.
    pub(crate) fn clear(&mut self, inode: u64)
        ensures { self.new ≡ emptied_in inode self.old }
    {
        if self.inode == inode {
            self.node.clear();
        }
    }

    /// Makes the slot vacant, if the inode is in it.
    pub fn vacate(&mut self, alloc: Global, inode: u64)
        ensures { self.new ≡ vacated inode self.old }
    {
        if self.inode == inode {
            self.fill(alloc, 0, Kind::Reg);
        }
    }

    /// Puts a new node into the slot.
    pub(crate) fn fill(&mut self, alloc: Global, inode: u64, kind: Kind)
        ensures { self.new ≡ filled inode kind }
    {
        self.inode = inode;
        self.node = Slot::new(alloc, kind);
    }
}
