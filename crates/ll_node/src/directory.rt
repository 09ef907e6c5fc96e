//! The names in a directory.

ghost use Rattle.std.specs.Prelude.{◌≡◌, ℕ, List, OnOk, OnErr, IfOk, IfNone, map};
ghost use Rattle.ll_path.specs.Name.{IsName};
ghost use Rattle.ll_rights.specs.Map.{get, has, insert, remove, entries, len};
ghost use Rattle.ll_node.specs.Slot.{replaced};

use ll_path::Name;
use ll_seq::Listing;
use std::alloc::{AllocError, Global};
use std::collections::BTreeMap;
use std::marker::Model;

/// The inode of each name in a directory. Contracts see the map.
#[derive(Drop)]
pub(crate) struct Directory {
    // Each key is a valid name.
    rows: BTreeMap<String, u64>,
}

impl Model for Directory {
    ghost use Rattle.ll_node.specs.Slot.{NameMap};
    ghost use Rattle.ll_node.specs.SlotCodes.{coded_names};

    ghost Value = { NameMap };

    ghost coded = { coded_names };

    ghost use Rattle.ll_node.specs.Rows.{names_kept, AreRows};

    ghost view = { λ directory. names_kept directory.rows };

    ghost invariant = { λ directory. AreRows directory.rows };
}

impl Directory {
    ghost use Rattle.ll_rights.specs.Map.{empty};

    /// Returns an empty directory. Takes no memory.
    pub(crate) fn new(alloc: Global) -> Directory
        ensures { result ≡ empty }
    {
        Directory {
            rows: BTreeMap::new(alloc),
        }
    }

    pub(crate) fn len(&self) -> usize
        ensures { result ≡ len self.now }
    {
        self.rows.len()
    }

    pub(crate) fn has(&self, name: &str) -> bool
        ensures { result ≡ has self.now name.now }
    {
        self.get(name).is_some()
    }

    #[inline(always)]
    pub(crate) fn get(&self, name: &str) -> Option<u64>
        ensures { result ≡ get self.now name.now }
    {
        self.rows.get(name).copied()
    }

    /// Sets the name's inode, whether or not the name exists. Errors: memory ran out.
    #[inline(always)]
    pub(crate) fn insert(&mut self, alloc: Global, name: &str, inode: u64) -> Result<(), AllocError>
        requires { IsName name.now }
        ensures ok { OnOk result (self.new ≡ insert self.old name.now inode) }
        ensures err { OnErr result (self.new ≡ self.old) }
    {
        let text = String::from_str(alloc, name)?;
        self.rows.insert(text, inode)?;
        Ok(())
    }

    /// Sets the inode of an existing name. Returns the old inode, or None if there is no such name. Takes no memory.
    #[inline(always)]
    pub(crate) fn replace(&mut self, name: &str, inode: u64) -> Option<u64>
        ensures found { result ≡ get self.old name.now }
        ensures now { self.new ≡ replaced self.old name.now inode }
    {
        let place = self.rows.get_mut(name)?;
        let old = *place;
        *place = inode;
        Some(old)
    }

    /// Removes the name. Returns its inode, or None if there is no such name. Takes no memory.
    #[inline(always)]
    pub(crate) fn remove(&mut self, name: &str) -> Option<u64>
        ensures found { result ≡ get self.old name.now }
        ensures left { self.new ≡ remove self.old name.now }
        ensures none { IfNone result (self.new ≡ self.old) }
    {
        self.rows.remove(name)
    }

    /// Returns the names, sorted by bytes. Errors: memory ran out.
    pub(crate) fn names(&self, alloc: Global) -> Result<Listing, AllocError>
        ensures { IfOk result (λ listing. listing ≡ map (λ (e : List ℕ × ℕ). e.0) (entries self.now)) }
    {
        let mut listing = Listing::new(alloc);
        for text in self.rows.keys() {
            listing.push(Name::from_text(alloc, text.as_str())?)?;
        }
        Ok(listing)
    }
}
