//! The node behind one lock.

ghost use Rattle.std.specs.Prelude.{◌≡◌, ◌+◌, ◌≤◌, ℕ, List, [], ◌∷◌, Some, false, OnOk, OnErr, IfOk, IfErr, IsTrue};
ghost use Rattle.std.specs.Prelude.{map, take, drop};
ghost use Rattle.ll_rights.specs.Kind.{is_dir};
ghost use Rattle.ll_rights.specs.Map.{empty, get, insert, remove, entries};
ghost use Rattle.ll_path.specs.Name.{IsName};
ghost use Rattle.ll_seq.specs.Effects.{resized};
ghost use Rattle.ll_seq.specs.Fails.{Fails};
ghost use Rattle.ll_seq.specs.Stages.{is_too_long};

use crate::directory::Directory;
use ll_path::Data;
use ll_rights::{Errno, Kind};
use ll_seq::{Content, Listing};
use std::alloc::{AllocError, Global};
use std::marker::Model;

/// The most names in a directory.
const MOST_NAMES: usize = 1_024;

/// The most bytes in any other node.
const MOST_BYTES: u64 = 65_536;

const _: () = prove!(size_of::<Slot>() <= 256);

/// The contents of a node: names for a directory, bytes for any other node.
#[derive(Drop)]
enum Held {
    Names(Directory),
    Bytes(Content),
}

/// A directory's names or another node's bytes, and the mark of at most one walk. Contracts see a map or a list, and
/// the mark.
#[derive(Drop)]
pub struct Slot {
    alloc: Global,
    kind: Kind,
    held: Held,
    mark: Option<u64>,
}

impl Model for Slot {
    ghost use Rattle.std.specs.Prelude.{◌≡◌};
    ghost use Rattle.ll_rights.specs.Kind.{is_dir};
    ghost use Rattle.ll_node.specs.Slot as slots;
    ghost use Rattle.ll_node.specs.SlotCodes.{coded_slot};

    ghost Value = { slots.Slot };

    ghost coded = { coded_slot };

    ghost use Rattle.ll_node.specs.Held.{names_of, bytes_of, has_names};

    ghost view = { λ slot. record {
      kind = slot.kind;
      names = names_of slot.held;
      bytes = bytes_of slot.held;
      mark = slot.mark;
    } };

    ghost invariant = { λ slot. has_names slot.held ≡ is_dir slot.kind };
}

/// Reports whether writing this many bytes at the offset would exceed the longest file.
fn ends_too_late(offset: u64, len: u64) -> bool
    ensures { result ≡ is_too_long (offset + len) }
{
    MOST_BYTES < offset || MOST_BYTES - offset < len
}

impl Slot {
    ghost use Rattle.ll_node.specs.Slot.{new_slot, len_of, renamed, written};
    ghost use Rattle.ll_node.specs.Refusals.{insert_refusals, missing, rename_refusals, write_refusals, len_refusals};

    /// Returns an empty, unmarked node. Takes no memory.
    pub fn new(alloc: Global, kind: Kind) -> Slot
        ensures { result ≡ new_slot kind }
    {
        let held = if kind.is_dir() {
            Held::Names(Directory::new(alloc))
        } else {
            Held::Bytes(Content::empty(alloc))
        };
        Slot {
            alloc,
            kind,
            held,
            mark: None,
        }
    }

    /// Returns the kind that the node was created with.
    pub fn kind(&self) -> Kind
        ensures kind { result ≡ self.now.kind }
        ensures names { IsTrue (is_dir self.now.kind) → self.now.bytes ≡ [] }
        ensures bytes { is_dir self.now.kind ≡ false → self.now.names ≡ empty }
    {
        self.kind
    }

    /// Returns the number of names in a directory, or of bytes in another node.
    pub fn len(&self) -> usize
        ensures { result ≡ len_of self.now }
    {
        match &self.held {
            Held::Names(names) => names.len(),
            Held::Bytes(bytes) => bytes.len(),
        }
    }

    /// Returns the client whose walk has marked the node.
    pub fn mark(&self) -> Option<u64>
        ensures { result ≡ self.now.mark }
    {
        self.mark
    }

    /// Sets the client whose walk has marked the node, or removes the mark.
    pub fn set_mark(&mut self, mark: Option<u64>)
        ensures { self.new ≡ record self.old { mark = mark } }
    {
        self.mark = mark;
    }

    /// Returns the inode of the name. Only a directory has names.
    pub fn look_up(&self, name: &str) -> Option<u64>
        ensures { result ≡ get self.now.names name.now }
    {
        match &self.held {
            Held::Names(names) => names.get(name),
            Held::Bytes(_) => None,
        }
    }

    /// Adds a name that the directory doesn't have. Errors: no room, or memory ran out.
    pub fn insert(&mut self, name: &str, inode: u64) -> Result<(), Errno>
        requires directory { IsTrue (is_dir self.old.kind) }
        requires name { IsName name.now }
        ensures ok { OnOk result (self.new ≡ record self.old { names = insert self.old.names name.now inode }) }
        ensures free { OnOk result (insert_refusals self.old.names name.now ≡ []) }
        ensures refused { IfErr result (Fails (insert_refusals self.old.names name.now)) }
        ensures err { OnErr result (self.new ≡ self.old) }
    {
        let Held::Names(names) = &mut self.held else {
            unreachable!();
        };
        if names.has(name) {
            return Err(Errno::EEXIST);
        }
        if names.len() >= MOST_NAMES {
            return Err(Errno::ENOSPC);
        }
        let Ok(()) = names.insert(self.alloc, name, inode) else {
            return Err(Errno::NoMemory);
        };
        Ok(())
    }

    /// Sets the inode of an existing name. Returns the old inode. Takes no memory. Errors: ENOENT without that name.
    pub fn replace(&mut self, name: &str, inode: u64) -> Result<u64, Errno>
        ensures ok { OnOk result (self.new ≡ record self.old { names = insert self.old.names name.now inode }) }
        ensures had { IfOk result (λ had. get self.old.names name.now ≡ Some had) }
        ensures refused { IfErr result (λ errno. missing self.old.names name.now ≡ errno ∷ []) }
        ensures err { OnErr result (self.new ≡ self.old) }
    {
        let had = match &mut self.held {
            Held::Names(names) => names.replace(name, inode),
            Held::Bytes(_) => return Err(Errno::ENOENT),
        };
        had.ok_or(Errno::ENOENT)
    }

    /// Moves the inode from the old name to the new one. Errors: ENOENT without the old name; EEXIST if the new one
    /// exists; NoMemory. Nothing has changed then.
    pub fn rename(&mut self, old: &str, new: &str) -> Result<(), Errno>
        requires { IsName new.now }
        ensures ok { OnOk result (self.new ≡ record self.old { names = renamed self.old.names old.now new.now }) }
        ensures free { OnOk result (rename_refusals self.old.names old.now new.now ≡ []) }
        ensures refused { IfErr result (Fails (rename_refusals self.old.names old.now new.now)) }
        ensures err { OnErr result (self.new ≡ self.old) }
    {
        let names = match &mut self.held {
            Held::Names(names) => names,
            Held::Bytes(_) => return Err(Errno::ENOENT),
        };
        let Some(inode) = names.get(old) else {
            return Err(Errno::ENOENT);
        };
        if names.has(new) {
            return Err(Errno::EEXIST);
        }
        let Ok(()) = names.insert(self.alloc, new, inode) else {
            return Err(Errno::NoMemory);
        };
        names.remove(old);
        Ok(())
    }

    /// Removes the name. Returns its inode. Takes no memory. Errors: ENOENT without that name.
    pub fn remove(&mut self, name: &str) -> Result<u64, Errno>
        ensures ok { OnOk result (self.new ≡ record self.old { names = remove self.old.names name.now }) }
        ensures had { IfOk result (λ had. get self.old.names name.now ≡ Some had) }
        ensures refused { IfErr result (λ errno. missing self.old.names name.now ≡ errno ∷ []) }
        ensures err { OnErr result (self.new ≡ self.old) }
    {
        let had = match &mut self.held {
            Held::Names(names) => names.remove(name),
            Held::Bytes(_) => return Err(Errno::ENOENT),
        };
        had.ok_or(Errno::ENOENT)
    }

    /// Returns the names, sorted by bytes: none unless it is a directory. Errors: memory ran out.
    pub fn names(&self) -> Result<Listing, AllocError>
        ensures { IfOk result (λ listing. listing ≡ map (λ (e : List ℕ × ℕ). e.0) (entries self.now.names)) }
    {
        match &self.held {
            Held::Names(names) => names.names(self.alloc),
            Held::Bytes(_) => Ok(Listing::new(self.alloc)),
        }
    }

    /// Returns at most `count` bytes from the offset on: fewer or none at the end, none of a directory. Errors: memory
    /// ran out.
    pub fn read_at(&self, offset: u64, count: u64) -> Result<Data, AllocError>
        requires { count ≤ 4096 }
        ensures { IfOk result (λ read. read ≡ take count (drop offset self.now.bytes)) }
    {
        match &self.held {
            Held::Names(_) => Ok(Data::empty(self.alloc)),
            Held::Bytes(bytes) => bytes.read(self.alloc, offset as usize, count as usize),
        }
    }

    /// Overwrites from the offset on, and fills a gap before it with zeros. An empty write changes nothing. Errors:
    /// EFBIG if the bytes would end after the longest file; NoMemory. Nothing has changed then.
    pub fn write_at(&mut self, offset: u64, bytes: &[u8]) -> Result<(), Errno>
        requires { is_dir self.old.kind ≡ false }
        ensures ok { OnOk result (self.new ≡ record self.old { bytes = written self.old.bytes offset bytes.now }) }
        ensures free { OnOk result (write_refusals offset bytes.now ≡ []) }
        ensures refused { IfErr result (Fails (write_refusals offset bytes.now)) }
        ensures err { OnErr result (self.new ≡ self.old) }
    {
        let Held::Bytes(held) = &mut self.held else {
            unreachable!();
        };
        if bytes.is_empty() {
            return Ok(());
        }
        if ends_too_late(offset, bytes.len() as u64) {
            return Err(Errno::EFBIG);
        }
        let Ok(()) = held.write(offset as usize, bytes) else {
            return Err(Errno::NoMemory);
        };
        Ok(())
    }

    /// Sets the length, in bytes. New bytes are zeros. Errors: EFBIG if it exceeds the longest file; NoMemory. Nothing
    /// has changed then.
    pub fn set_len(&mut self, len: u64) -> Result<(), Errno>
        requires { is_dir self.old.kind ≡ false }
        ensures ok { OnOk result (self.new ≡ record self.old { bytes = resized self.old.bytes len }) }
        ensures free { OnOk result (len_refusals len ≡ []) }
        ensures refused { IfErr result (Fails (len_refusals len)) }
        ensures err { OnErr result (self.new ≡ self.old) }
    {
        let Held::Bytes(held) = &mut self.held else {
            unreachable!();
        };
        if MOST_BYTES < len {
            return Err(Errno::EFBIG);
        }
        let Ok(()) = held.set_len(len as usize) else {
            return Err(Errno::NoMemory);
        };
        Ok(())
    }

    /// Removes all bytes. Takes no memory.
    pub fn clear(&mut self)
        ensures { self.new ≡ record self.old { bytes = [] } }
    {
        if let Held::Bytes(bytes) = &mut self.held {
            bytes.clear();
        }
    }
}
