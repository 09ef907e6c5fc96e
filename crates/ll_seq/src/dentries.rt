//! Directory entries.

ghost use Rattle.std.specs.Prelude.{◌≡◌, ◌^◌, ◌<◌, ◌≤◌, ℕ, Some, None, IsTrue, IfSome, IfNone, IfOk, IfErr, OnOk};
ghost use Rattle.std.specs.Prelude.{OnErr, length, slice_get};
ghost use Rattle.std.specs.FinMap.Entries.{find, is_sorted};
ghost use Rattle.ll_rights.proofs.Places.{place};
ghost use Rattle.ll_seq.specs.State.{dentry, dentry_cmp};

use crate::listing::Listing;
use ll_path::Name;
use std::alloc::{AllocError, Global};
use std::cmp::Ordering;
use std::marker::Model;

/// A directory's inode and a name in it.
#[derive(Drop)]
pub struct Dentry {
    pub directory: u64,
    pub name: Name,
}

/// The inode of each entry, sorted by directory and then by the names' bytes. Contracts see the map.
#[derive(Drop)]
pub struct Dentries {
    rows: Vec<(Dentry, u64)>,
}

impl Model for Dentries {
    ghost use Rattle.std.specs.Prelude.{ℕ, IsTrue};
    ghost use Rattle.std.specs.FinMap.Entries.{is_sorted};
    ghost use Rattle.ll_rights.specs.Map.{Map, from_sorted};
    ghost use Rattle.ll_seq.specs.State.{dentry_cmp};
    ghost use Rattle.ll_seq.specs.StateCodes.{coded_entries};

    ghost Value = { Map dentry_cmp ℕ };

    ghost coded = { coded_entries };

    ghost view = { λ entries. from_sorted entries.rows.items };

    ghost invariant = { λ entries. IsTrue (is_sorted dentry_cmp entries.rows.items) };
}

/// Compares an entry with this directory and name.
fn order(row: &(Dentry, u64), directory: u64, name: &str) -> Ordering
    ensures { result ≡ dentry_cmp row.now.0 (dentry directory name.now) }
{
    row.0
        .directory
        .cmp(&directory)
        .then(row.0.name.as_str().cmp(name))
}

/// The entry's index, or as an error the index where it would be inserted.
fn search(rows: &[(Dentry, u64)], directory: u64, name: &str) -> Result<usize, usize>
    requires { IsTrue (is_sorted dentry_cmp rows.now) }
    ensures within { IfOk result (λ i. i < length rows.now) }
    ensures row { IfOk result (λ i. (inode : ℕ) × (find dentry_cmp (dentry directory name.now) rows.now ≡ Some inode)
        × (slice_get rows.now i ≡ Some (dentry directory name.now, inode))) }
    ensures none { IfErr result (λ i. find dentry_cmp (dentry directory name.now) rows.now ≡ None) }
    ensures place { IfErr result (λ i. i ≡ place dentry_cmp (dentry directory name.now) rows.now) }
    ensures most { IfErr result (λ i. i ≤ length rows.now) }
{
    rows.binary_search_by(|row| order(row, directory, name))
}

/// The entry's index, if it exists.
fn index_of(rows: &[(Dentry, u64)], directory: u64, name: &str) -> Option<usize>
    requires { IsTrue (is_sorted dentry_cmp rows.now) }
    ensures none { IfNone result (find dentry_cmp (dentry directory name.now) rows.now ≡ None) }
    ensures within { IfSome result (λ i. i < length rows.now) }
    ensures row { IfSome result (λ i. (inode : ℕ) × (find dentry_cmp (dentry directory name.now) rows.now ≡ Some inode)
        × (slice_get rows.now i ≡ Some (dentry directory name.now, inode))) }
{
    search(rows, directory, name).ok()
}

impl Dentries {
    ghost use Rattle.std.specs.Prelude.{filter, map, ◌==◌};
    ghost use Rattle.std.specs.Option.{option_map_or};
    ghost use Rattle.ll_rights.specs.Map.{empty, get, insert, remove, entries};
    ghost use Rattle.ll_seq.specs.declared.dentries.Dentry as dentries_of;

    pub fn new(alloc: Global) -> Dentries
        ensures { result ≡ empty }
    {
        Dentries {
            rows: Vec::new(alloc),
        }
    }

    /// Returns the inode of the name in the directory.
    pub fn get(&self, directory: u64, name: &str) -> Option<u64>
        ensures { result ≡ get self.now (dentry directory name.now) }
    {
        let i = index_of(&self.rows, directory, name)?;
        Some(self.rows[i].1)
    }

    /// Returns the number of entries.
    pub fn len(&self) -> usize
        ensures len { result ≡ length (entries self.now) }
        ensures most { result < 2 ^ 63 }
    {
        self.rows.len()
    }

    /// Returns the entries in order.
    pub fn rows(&self) -> &[(Dentry, u64)]
        ensures { result.now ≡ entries self.now }
    {
        self.rows.as_slice()
    }

    /// The directory's entries, which are adjacent.
    fn rows_of(&self, directory: u64) -> &[(Dentry, u64)]
        ensures { result.now ≡ filter (λ (e : dentries_of.Dentry × ℕ). e.0.directory == directory) (entries self.now) }
    {
        let start = self.rows.partition_point(|row| row.0.directory < directory);
        let end = self
            .rows
            .partition_point(|row| row.0.directory <= directory);
        &self.rows[start..end]
    }

    /// Returns the names in the directory, sorted by bytes. Errors: memory ran out.
    pub fn names_in(&self, alloc: Global, directory: u64) -> Result<Listing, AllocError>
        ensures { IfOk result (λ listing. listing
            ≡ map (λ (e : dentries_of.Dentry × ℕ). e.0.name)
            (filter (λ (e : dentries_of.Dentry × ℕ). e.0.directory == directory) (entries self.now))) }
    {
        let mut listing = Listing::new(alloc);
        for row in self.rows_of(directory) {
            listing.push(Name::from_text(alloc, row.0.name.as_str())?)?;
        }
        Ok(listing)
    }

    /// Adds an inode under a name that the directory doesn't have. Errors: memory ran out.
    pub fn insert(&mut self, directory: u64, name: Name, inode: u64) -> Result<(), AllocError>
        requires { get self.old (dentry directory name) ≡ None }
        ensures ok { OnOk result (self.new ≡ insert self.old (dentry directory name) inode) }
        ensures err { OnErr result (self.new ≡ self.old) }
    {
        let Err(place) = search(&self.rows, directory, name.as_str()) else {
            unreachable!();
        };
        self.rows
            .insert(place, (Dentry { directory, name }, inode))?;
        Ok(())
    }

    /// Sets the inode of a name that the directory has. Does nothing without that name.
    pub fn replace(&mut self, directory: u64, name: &str, inode: u64)
        ensures { self.new ≡ option_map_or (λ (old : ℕ). insert self.old (dentry directory name.now) inode)
            (get self.old (dentry directory name.now)) self.old }
    {
        if let Some(i) = index_of(&self.rows, directory, name) {
            let row = &mut self.rows[i];
            row.1 = inode;
        }
    }

    /// Removes the name, if the directory has it.
    pub fn remove(&mut self, directory: u64, name: &str)
        ensures { self.new ≡ remove self.old (dentry directory name.now) }
    {
        if let Some(i) = index_of(&self.rows, directory, name) {
            self.rows.remove(i);
        }
    }
}
