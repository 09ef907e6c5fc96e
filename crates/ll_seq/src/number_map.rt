//! Tables by number.

ghost use Rattle.std.specs.Prelude.{◌≡◌, ◌<◌, ◌≤◌, false, Some, None, IsTrue, IfSome, IfNone, IfOk, IfErr, OnOk, OnErr};
ghost use Rattle.std.specs.Prelude.{length, slice_get};
ghost use Rattle.std.specs.Ordering.{nat_cmp};
ghost use Rattle.std.specs.Option.{option_copied};
ghost use Rattle.std.specs.FinMap.Entries.{find, is_sorted};
ghost use Rattle.ll_rights.proofs.Places.{place};

use std::alloc::{AllocError, Global};
use std::marker::Model;

/// Values by number, sorted. Contracts see the map from numbers to values.
#[derive(Drop)]
pub struct NumberMap<V> {
    pub(crate) rows: Vec<(u64, V)>,
}

impl<V> Model for NumberMap<V> {
    ghost use Rattle.std.specs.Prelude.{IsTrue};
    ghost use Rattle.std.specs.Ordering.{nat_cmp};
    ghost use Rattle.std.specs.Coded.{coded_ℕ};
    ghost use Rattle.std.specs.FinMap.Entries.{is_sorted};
    ghost use Rattle.ll_rights.specs.MapCodes.{code};
    ghost use Rattle.ll_rights.specs.Map.{Map, from_sorted};

    ghost Value = { Map nat_cmp V };

    ghost coded = { code coded_ℕ V.code };

    ghost view = { λ table. from_sorted table.rows.items };

    ghost invariant = { λ table. IsTrue (is_sorted nat_cmp table.rows.items) };
}

/// The index of the number's row, or as an error the index where it would be inserted.
fn search<V>(rows: &[(u64, V)], number: u64) -> Result<usize, usize>
    requires { IsTrue (is_sorted nat_cmp rows.now) }
    ensures within { IfOk result (λ i. i < length rows.now) }
    ensures row { IfOk result (λ i. (v : V) × (find nat_cmp number rows.now ≡ Some v)
        × (slice_get rows.now i ≡ Some (number, v))) }
    ensures none { IfErr result (λ i. find nat_cmp number rows.now ≡ None) }
    ensures place { IfErr result (λ i. i ≡ place nat_cmp number rows.now) }
    ensures most { IfErr result (λ i. i ≤ length rows.now) }
{
    rows.binary_search_by_key(&number, |row| row.0)
}

/// The index of the number's row, if numbers have no gap between the first row and it; otherwise None.
fn numbered<V>(rows: &[(u64, V)], number: u64) -> Option<usize>
    ensures within { IfSome result (λ i. i < length rows.now) }
    ensures row { IfSome result (λ i. (v : V) × (slice_get rows.now i ≡ Some (number, v))) }
{
    if rows.is_empty() || number < rows[0].0 {
        return None;
    }
    let place = (number - rows[0].0) as usize;
    if place < rows.len() && rows[place].0 == number {
        Some(place)
    } else {
        None
    }
}

/// The index of the number's row. Numbers are assigned in order, so one look at the expected row usually finds it.
pub(crate) fn index_of<V>(rows: &[(u64, V)], number: u64) -> Option<usize>
    requires { IsTrue (is_sorted nat_cmp rows.now) }
    ensures none { IfNone result (find nat_cmp number rows.now ≡ None) }
    ensures within { IfSome result (λ i. i < length rows.now) }
    ensures row { IfSome result (λ i. (v : V) × (find nat_cmp number rows.now ≡ Some v)
        × (slice_get rows.now i ≡ Some (number, v))) }
{
    if let Some(place) = numbered(rows, number) {
        return Some(place);
    }
    search(rows, number).ok()
}

/// The first index that isn't its row's number. No row has it as its number.
fn gap<V>(rows: &[(u64, V)]) -> u64
    requires { IsTrue (is_sorted nat_cmp rows.now) }
    ensures { find nat_cmp result rows.now ≡ None }
{
    for (i, row) in rows.iter().enumerate() {
        if row.0 != i as u64 {
            return i as u64;
        }
    }
    rows.len() as u64
}

impl<V> NumberMap<V> {
    ghost use Rattle.ll_rights.specs.Map.{empty, get, has, insert, len, remove};

    pub fn new(alloc: Global) -> NumberMap<V>
        ensures { result ≡ empty }
    {
        NumberMap {
            rows: Vec::new(alloc),
        }
    }

    pub fn len(&self) -> usize
        ensures { result ≡ len self.now }
    {
        self.rows.len()
    }

    pub fn get(&self, number: u64) -> Option<&V>
        ensures { option_copied result ≡ get self.now number }
    {
        let i = index_of(&self.rows, number)?;
        Some(&self.rows[i].1)
    }

    pub fn has(&self, number: u64) -> bool
        ensures { result ≡ has self.now number }
    {
        self.get(number).is_some()
    }

    /// Returns a number that has no value.
    pub fn unused(&self) -> u64
        ensures { has self.now result ≡ false }
    {
        gap(&self.rows)
    }

    /// Returns a copy of the map. Errors: memory ran out.
    pub fn copy(&self, alloc: Global) -> Result<NumberMap<V>, AllocError>
    where
        V: Copy,
        ensures { IfOk result (λ copy. copy ≡ self.now) }
    {
        let mut rows = Vec::with_capacity(alloc, self.rows.len())?;
        rows.extend_from_slice(&self.rows)?;
        Ok(NumberMap { rows })
    }

    /// Adds a value under a number that has none. Errors: memory ran out.
    pub fn insert(&mut self, number: u64, value: V) -> Result<(), AllocError>
    where
        V: Drop,
        requires { get self.old number ≡ None }
        ensures ok { OnOk result (self.new ≡ insert self.old number value) }
        ensures err { OnErr result (self.new ≡ self.old) }
    {
        let Err(place) = search(&self.rows, number) else {
            unreachable!();
        };
        self.rows.insert(place, (number, value))?;
        Ok(())
    }

    /// Removes the number and its value, if it has one.
    pub fn remove(&mut self, number: u64)
    where
        V: Drop,
        ensures { self.new ≡ remove self.old number }
    {
        if let Some(i) = index_of(&self.rows, number) {
            self.rows.remove(i);
        }
    }
}
