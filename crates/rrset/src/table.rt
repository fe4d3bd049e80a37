//! Finite maps from keys to values, as to what is shown of them.

ghost use Rattle.std.specs.Prelude.{◌≡◌, ◌≤◌, ◌+◌, ◌⊎◌, [], Bool, false, length, nat_le, IfOk, IfErr, IsOk, OnOk, OnErr, IsTrue, is_some, Some, None, MatchOption};
ghost use Rattle.std.specs.Fn.{CalledAt, ComputesKey};
ghost use Rattle.rrset.specs.RecordSet.{size_at};
ghost use Rattle.rrset.specs.KeyedRows.{is_rising, row_at, put_row, without_rows, only_rows, rows_of};
ghost use Rattle.rrset.specs.Records.{same_key};
ghost use Rattle.rrset.specs.Tables.{HasLowerOwner, HaveLowerOwners, IsAt, IsGapFor, counted};
ghost use Rattle.rrset.specs.declared.record.Key.{Key};

use crate::copying::Copied;
use crate::matching::size_with;
use crate::order::{compare_keys, compare_owner};
use crate::record::{Key, NoMemory, Shown};
use dnsname::Name;
use std::alloc::Global;
use std::marker::Model;
use std::mem;

/// Rows, each a key and its value, as what is shown of the key: a finite map in key order (by owner, kind, rdata and
/// class). It has room for a number of further keys.
#[derive(Debug, Drop)]
pub struct Table<V = Shown> {
    entries: Vec<(Key, V)>,
}

impl<V> Model for Table<V> {
    ghost use Rattle.std.specs.Prelude.{◌-◌, IsTrue};
    ghost use Rattle.std.specs.Vec.{vec_len, vec_capacity};
    ghost use Rattle.rrset.specs.KeyedRows.{is_rising};
    ghost use Rattle.rrset.specs.Tables.{TableState, HaveLowerOwners};

    ghost Value = { TableState V };

    ghost view = { λ t. record { rows = t.entries.items; spare = vec_capacity t.entries - vec_len t.entries } };

    ghost invariant = { λ t. IsTrue (is_rising t.entries.items) × HaveLowerOwners t.entries.items };
}

impl<V: Drop> Table<V> {
    /// No rows.
    pub fn new(alloc: Global) -> Self
        ensures { result.rows ≡ [] }
    {
        Table {
            entries: Vec::new(alloc),
        }
    }

    /// Rows that are in key order, as a table.
    pub fn from_entries(entries: Vec<(Key, V)>) -> Self
        requires order { IsTrue (is_rising entries.items) }
        requires lower { HaveLowerOwners entries.items }
        ensures { result.rows ≡ entries.items }
    {
        Table { entries }
    }

    /// The value of a key.
    pub fn get(&self, key: &Key) -> Option<&V>
        ensures { MatchOption result (row_at key.now self.now.rows ≡ None) (λ value. row_at key.now self.now.rows ≡ Some value.now) }
    {
        match self.search(key) {
            Ok(index) => Some(&self.entries[index].1),
            Err(_) => None,
        }
    }

    /// Takes a key out, and gives its value.
    pub fn remove(&mut self, key: &Key) -> Option<V>
        ensures value { result ≡ row_at key.now self.old.rows }
        ensures rows { self.new.rows ≡ without_rows (same_key key.now) self.old.rows }
        ensures room { self.old.spare ≤ self.new.spare }
        ensures freed { IsTrue (is_some (row_at key.now self.old.rows)) → self.old.spare + 1 ≤ self.new.spare }
    {
        match self.search(key) {
            Ok(index) => {
                let (_, value) = self.entries.remove(index);
                Some(value)
            }
            Err(_) => None,
        }
    }

    /// How many rows there are.
    pub fn len(&self) -> usize
        ensures { result ≡ length self.now.rows }
    {
        self.entries.len()
    }

    /// The rows of an owner, in key order.
    pub fn at(&self, name: &Name) -> &[(Key, V)]
        ensures { result.now ≡ rows_of name.now self.now.rows }
    {
        let begin = self
            .entries
            .partition_point(|entry| compare_owner(&entry.0, name).is_lt());
        let (_, rest) = self.entries.split_at(begin);
        let count = rest.partition_point(|entry| compare_owner(&entry.0, name).is_le());
        let (found, _) = rest.split_at(count);
        found
    }

    /// All rows, in key order.
    pub fn entries(&self) -> &[(Key, V)]
        ensures rows { result.now ≡ self.now.rows }
        ensures order { IsTrue (is_rising result.now) }
        ensures lower { HaveLowerOwners result.now }
    {
        &self.entries
    }

    /// All rows, in key order.
    pub fn into_entries(self) -> Vec<(Key, V)>
        ensures rows { result.items ≡ self.rows }
        ensures order { IsTrue (is_rising result.items) }
        ensures lower { HaveLowerOwners result.items }
    {
        let Table { entries } = self;
        entries
    }

    /// Makes room for so many further keys, and no more where there was less.
    pub fn reserve(&mut self, keys: usize) -> Result<(), NoMemory>
        ensures rows { self.new.rows ≡ self.old.rows }
        ensures room { OnOk result (keys ≤ self.new.spare) }
        ensures kept { self.old.spare ≤ self.new.spare }
    {
        self.entries.reserve_exact(keys)
    }

    /// Makes room for so many further keys where one of them isn't there. It takes no memory where this one is there,
    /// or there is room for them.
    pub fn reserve_for(&mut self, key: &Key, keys: usize) -> Result<(), NoMemory>
        ensures rows { self.new.rows ≡ self.old.rows }
        ensures room { OnOk result (is_some (row_at key.now self.old.rows) ≡ false → keys ≤ self.new.spare) }
        ensures succeeds { (keys ≤ self.old.spare) ⊎ IsTrue (is_some (row_at key.now self.old.rows)) → IsOk result }
        ensures kept { self.old.spare ≤ self.new.spare }
    {
        // Where there is room, the key isn't looked for.
        if self.has_room(keys) {
            return Ok(());
        }
        if self.has_key(key) {
            return Ok(());
        }
        self.reserve(keys)
    }

    /// Whether a key has a row.
    fn has_key(&self, key: &Key) -> bool
        ensures { result ≡ is_some (row_at key.now self.now.rows) }
    {
        match self.get(key) {
            Some(_) => true,
            None => false,
        }
    }

    /// Whether there is room for so many further keys.
    fn has_room(&self, keys: usize) -> bool
        ensures { result ≡ nat_le keys self.now.spare }
    {
        keys <= self.entries.capacity().saturating_sub(self.entries.len())
    }

    /// Gives a key this value, and gives back the one that it had. It takes no memory where the key is there, or there
    /// is room for one more.
    pub fn put(&mut self, key: Key, value: V) -> Result<Option<V>, NoMemory>
        requires { HasLowerOwner key }
        ensures value { IfOk result (λ before. before ≡ row_at key self.old.rows) }
        ensures rows { OnOk result (self.new.rows ≡ put_row key value self.old.rows) }
        ensures none { OnErr result (self.new.rows ≡ self.old.rows) }
        ensures succeeds { (1 ≤ self.old.spare) ⊎ IsTrue (is_some (row_at key self.old.rows)) → IsOk result }
        ensures room { self.old.spare ≤ self.new.spare + 1 }
        ensures kept { IsTrue (is_some (row_at key self.old.rows)) → self.old.spare ≤ self.new.spare }
    {
        match self.search(&key) {
            Ok(index) => Ok(Some(mem::replace(&mut self.entries[index].1, value))),
            Err(index) => {
                self.entries.insert(index, (key, value))?;
                Ok(None)
            }
        }
    }

    /// Keeps the rows whose keys pass the test.
    pub fn retain<F: FnMut(&Key) -> bool>(&mut self, mut test: F)
        requires { F.IsAlwaysCallable test }
        ensures rows { (p : Key → Bool) → ComputesKey F.FnMut p test → self.new.rows ≡ only_rows p self.old.rows }
        ensures room { self.old.spare ≤ self.new.spare }
    {
        self.entries.retain(
            |entry: &(Key, V)| -> bool
                requires { F.IsAlwaysCallable test }
                ensures called { CalledAt F.FnMut test.entry entry.now.0 result test.exit }
                ensures callable { F.IsAlwaysCallable test.exit }
            { test(&entry.0) },
        );
    }

    /// Where a key is, or where it would go.
    fn search(&self, key: &Key) -> Result<usize, usize>
        ensures found { IfOk result (IsAt key.now self.now.rows) }
        ensures absent { IfErr result (IsGapFor key.now self.now.rows) }
    {
        self.entries
            .binary_search_by(|entry| compare_keys(&entry.0, key))
    }
}

impl<V: Copied + Drop> Table<V> {
    /// The same rows.
    pub fn copy(&self) -> Result<Table<V>, NoMemory>
        ensures { IfOk result (λ table. table.rows ≡ self.now.rows) }
    {
        let mut entries = Vec::with_capacity(*self.entries.allocator(), self.entries.len())?;
        'entries: for entry in &self.entries {
            let key = entry.0.copy()?;
            let value = entry.1.copied()?;
            entries.push((key, value))?;
        }
        Ok(Table { entries })
    }
}

impl Table<Shown> {
    /// The octets of a name's records (RFC 1035, 3.2.1), or the greatest number of 64 bits where they are more.
    pub fn size_at(&self, name: &Name) -> u64
        ensures { result ≡ counted (size_at name.now self.now.rows) }
    {
        let mut size: u64 = 0;
        'entries: for entry in self.at(name) {
            size = size.saturating_add(size_with(&entry.1.owner, &entry.1.rdata));
        }
        size
    }
}
