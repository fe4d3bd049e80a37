//! The records of a name as they were, made of those that are there and of what changed keys showed.

ghost use Rattle.std.specs.Prelude.{◌≡◌, [], ◌∷◌, ◌&&◌, ◌==◌, true, false, IsTrue, MatchOption};
ghost use Rattle.std.specs.List.{list_any};
ghost use Rattle.rrset.specs.KeyedRows.{is_rising};
ghost use Rattle.rrset.specs.RecordSet.{is_in_order, with_values};
ghost use Rattle.coalesce.specs.Merging.{behind_key, comes_first};
ghost use Rattle.coalesce.specs.Sides.{is_asked};
ghost use Rattle.coalesce.specs.Waiting.{values_of};

use crate::asking::{Asking, is_asked};
use crate::old_record::OldRecord;
use rrset::{Key, Shown, compare_keys, same_key};
use std::marker::Model;

/// Records in key order: those that are there, but at each key that has an old value this one.
#[derive(Drop)]
pub(crate) struct Merged<'a> {
    rows: &'a [(Key, Shown)],
    values: &'a [OldRecord],
}

impl<'a> Model for Merged<'a> {
    ghost use Rattle.std.specs.Prelude.{IsTrue};
    ghost use Rattle.rrset.specs.KeyedRows.{is_rising};
    ghost use Rattle.rrset.specs.RecordSet.{RecordSet, is_in_order, with_values};
    ghost use Rattle.coalesce.specs.Waiting.{values_of};

    ghost Value = { RecordSet };

    ghost view = { λ m. with_values (values_of m.values.now) m.rows.now };

    ghost invariant = { λ m. IsTrue (is_rising m.values.now) × IsTrue (is_in_order m.rows.now) };
}

/// The first row and the others, where the first comes before a key.
fn first_before<'a>(
    rows: &'a [(Key, Shown)],
    key: &Key,
) -> Option<(&'a (Key, Shown), &'a [(Key, Shown)])>
    ensures { MatchOption result (comes_first key.now rows.now ≡ false) (λ found. (rows.now ≡ found.0.now ∷ found.1.now) × (comes_first key.now rows.now ≡ true)) }
{
    let (row, after) = rows.split_first()?;
    if compare_keys(&row.0, key).is_lt() {
        Some((row, after))
    } else {
        None
    }
}

/// The rows without the first one, where that has this key.
fn behind_key<'a>(rows: &'a [(Key, Shown)], key: &Key) -> &'a [(Key, Shown)]
    ensures { result.now ≡ behind_key key.now rows.now }
{
    let Some((row, after)) = rows.split_first() else {
        return rows;
    };
    if same_key(key, &row.0) { after } else { rows }
}

impl<'a> Merged<'a> {
    /// The records that are there, with the old values put in their place.
    pub(crate) fn new(rows: &'a [(Key, Shown)], old: &'a [OldRecord]) -> Self
        requires rows { IsTrue (is_in_order rows.now) }
        requires old { IsTrue (is_rising old.now) }
        ensures { result ≡ with_values (values_of old.now) rows.now }
    {
        Merged { rows, values: old }
    }

    /// Takes the first record off.
    pub(crate) fn next(&mut self) -> Option<&'a (Key, Shown)>
        ensures rest { MatchOption result ((self.old ≡ []) × (self.new ≡ [])) (λ entry. self.old ≡ entry.now ∷ self.new) }
    {
        'values: while let Some((value, others)) = self.values.split_first() {
            if let Some((row, after)) = first_before(self.rows, value.key()) {
                self.rows = after;
                return Some(row);
            }
            self.rows = behind_key(self.rows, value.key());
            self.values = others;
            if let Some(row) = value.row() {
                return Some(row);
            }
        }
        let (row, after) = self.rows.split_first()?;
        self.rows = after;
        Some(row)
    }
}

/// Whether a key is of this kind and asked for.
fn is_of_kind(asking: Asking, key: &Key, kind: u16) -> bool
    ensures { result ≡ (key.now.kind == kind && is_asked asking.entry key.now) }
{
    key.kind == kind && is_asked(asking, key)
}

/// Whether a record of this kind is asked for.
pub(crate) fn any_of_kind(mut rest: Merged, asking: Asking, kind: u16) -> bool
    ensures { result ≡ list_any (λ e. e.0.kind == kind && is_asked asking.entry e.0) rest.entry }
{
    'records: while let Some(entry) = rest.next() {
        if is_of_kind(asking, &entry.0, kind) {
            return true;
        }
    }
    false
}
