//! What is shown otherwise in one table than in another.

ghost use Rattle.std.specs.Prelude.{◌≡◌, IfOk, OnOk, OnErr};
ghost use Rattle.rrset.specs.Records.{same_octets, same_key, same_shown};
ghost use Rattle.rrset.specs.RecordSet.{IsUnionWithFront, changes, same_keys, same_rows, shown_at, shown_the_same, union};
ghost use Rattle.rrset.specs.Tables.{HaveLowerOwners};

use crate::record::{Changed, Key, NoMemory, Question, Shown};
use crate::table::Table;
use std::alloc::Global;

/// Whether two runs of octets are one.
fn same_octets(first: &[u8], second: &[u8]) -> bool
    ensures { result ≡ same_octets first.now second.now }
{
    first == second
}

/// Whether two keys are one.
pub fn same_key(first: &Key, second: &Key) -> bool
    ensures { result ≡ same_key first.now second.now }
{
    same_octets(first.owner.octets(), second.owner.octets())
        && first.kind == second.kind
        && same_octets(first.rdata.as_slice(), second.rdata.as_slice())
        && first.class == second.class
}

/// Whether the same is shown, to the letter.
pub fn same_shown(first: &Shown, second: &Shown) -> bool
    ensures { result ≡ same_shown first.now second.now }
{
    same_octets(first.owner.octets(), second.owner.octets())
        && first.ttl == second.ttl
        && same_octets(first.rdata.as_slice(), second.rdata.as_slice())
}

/// Puts copies of entries over those of a table. Where memory runs out, the first of them are put.
pub fn put_all(all: &mut Table, entries: &[(Key, Shown)]) -> Result<(), NoMemory>
    requires { HaveLowerOwners entries.now }
    ensures all { OnOk result (all.new.rows ≡ union all.old.rows entries.now) }
    ensures front { OnErr result (IsUnionWithFront all.old.rows entries.now all.new.rows) }
{
    'entries: for (key, shown) in entries {
        all.put(key.copy()?, shown.copy()?)?;
    }
    Ok(())
}

/// The records of both tables; at a key of both, the second's.
fn union(first: &Table, second: &Table) -> Result<Table, NoMemory>
    ensures { IfOk result (λ all. all.rows ≡ union first.now.rows second.now.rows) }
{
    let mut all = first.copy()?;
    put_all(&mut all, second.entries())?;
    Ok(all)
}

/// What is shown of a key, as a value of its own.
fn shown_in(table: &Table, key: &Key) -> Result<Option<Shown>, NoMemory>
    ensures { IfOk result (λ shown. shown ≡ shown_at key.now table.now.rows) }
{
    match table.get(key) {
        Some(shown) => Ok(Some(shown.copy()?)),
        None => Ok(None),
    }
}

/// Whether the same is shown, or nothing in both.
fn shown_the_same(first: &Option<Shown>, second: &Option<Shown>) -> bool
    ensures { result ≡ shown_the_same first.now second.now }
{
    match (first, second) {
        (Some(first), Some(second)) => same_shown(first, second),
        (None, None) => true,
        _ => false,
    }
}

/// The keys of either table that are shown otherwise, in key order, with both values.
pub fn changes(alloc: Global, old: &Table, new: &Table) -> Result<Vec<Changed>, NoMemory>
    ensures { IfOk result (λ changed. changed.items ≡ changes old.now.rows new.now.rows) }
{
    let all = union(old, new)?;
    let mut changed = Vec::new(alloc);
    'entries: for (key, _) in all.entries() {
        let before = shown_in(old, key)?;
        let after = shown_in(new, key)?;
        if !shown_the_same(&before, &after) {
            changed.push(Changed {
                key: key.copy()?,
                before,
                after,
            })?;
        }
    }
    Ok(changed)
}

/// Whether two lists of records have the same keys.
pub fn same_keys(first: &[(Key, Shown)], second: &[(Key, Shown)]) -> bool
    ensures { result ≡ same_keys first.now second.now }
{
    if first.len() != second.len() {
        return false;
    }
    'rows: for index in 0..first.len() {
        let (key, _) = &first[index];
        let (other, _) = &second[index];
        if !same_key(key, other) {
            return false;
        }
    }
    true
}

/// Whether two lists of records have the same keys, shown the same.
pub fn same_rows(first: &[(Key, Shown)], second: &[(Key, Shown)]) -> bool
    ensures { result ≡ same_rows first.now second.now }
{
    if first.len() != second.len() {
        return false;
    }
    'rows: for index in 0..first.len() {
        let (key, shown) = &first[index];
        let (other, other_shown) = &second[index];
        if !(same_key(key, other) && same_shown(shown, other_shown)) {
            return false;
        }
    }
    true
}

impl Key {
    /// The same key.
    pub fn copy(&self) -> Result<Key, NoMemory>
        ensures { IfOk result (λ key. key ≡ self.now) }
    {
        Ok(Key {
            owner: self.owner.copy()?,
            class: self.class,
            kind: self.kind,
            rdata: self.rdata.copy()?,
        })
    }
}

impl Shown {
    /// The same, to the letter.
    pub fn copy(&self) -> Result<Shown, NoMemory>
        ensures { IfOk result (λ shown. shown ≡ self.now) }
    {
        Ok(Shown {
            owner: self.owner.copy()?,
            ttl: self.ttl,
            rdata: self.rdata.copy()?,
        })
    }
}

impl Question {
    /// The same question, to the letter.
    pub fn copy(&self) -> Result<Question, NoMemory>
        ensures { IfOk result (λ question. question ≡ self.now) }
    {
        Ok(Question {
            name: self.name.copy()?,
            kind: self.kind,
            class: self.class,
        })
    }
}
