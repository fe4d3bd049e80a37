//! What keys showed before they changed, shared by all that keep it.

ghost use Rattle.std.specs.Prelude.{◌≡◌, ℕ, None, Some, IfOk, IsTrue, MatchOption};
ghost use Rattle.rrset.specs.KeyedRows.{is_rising, row_at};
ghost use Rattle.coalesce.specs.Waiting.{old_value};
ghost use Rattle.coalesce.specs.OldRows.{old_row};

use crate::NoMemory;
use crate::before::{Before, Old};
use rrset::{Changed, Key, Shown, compare_keys};
use std::alloc::Global;
use std::marker::Model;
use std::sync::Arc;

/// What a key showed before it changed at a point. All that keep it share it: it takes memory once.
#[derive(Debug, Drop)]
pub struct OldRecord {
    old: Arc<Old>,
}

impl Model for OldRecord {
    ghost use Rattle.std.specs.Arc.{arc_value};
    ghost use Rattle.rrset.specs.declared.record.Key.{Key};
    ghost use Rattle.coalesce.specs.Waiting.{OldValue};
    ghost use Rattle.coalesce.specs.OldRows.{old_row};

    ghost Value = { Key × OldValue };

    ghost view = { λ o. old_row (arc_value o.old).before (arc_value o.old).point };
}

/// What a change finds at its key.
fn before(change: &Changed) -> Result<Before, NoMemory>
    ensures { IfOk result (λ before. (point : ℕ) → old_row before point ≡ (change.now.key, old_value point change.now)) }
{
    let key = change.key.copy()?;
    match &change.before {
        Some(shown) => Ok(Before::Row((key, shown.copy()?))),
        None => Ok(Before::Nothing(key)),
    }
}

impl OldRecord {
    /// What a change at a point finds at its key.
    pub fn new(alloc: Global, change: &Changed, point: u64) -> Result<Self, NoMemory>
        ensures { IfOk result (λ old. old ≡ (change.now.key, old_value point change.now)) }
    {
        let before = before(change)?;
        let old = Arc::new(alloc, Old { before, point })?;
        Ok(OldRecord { old })
    }

    /// The same, shared.
    pub fn share(&self) -> Result<Self, NoMemory>
        ensures { IfOk result (λ shared. shared ≡ self.now) }
    {
        let old = Arc::try_clone(&self.old)?;
        Ok(OldRecord { old })
    }

    /// The key.
    pub(crate) fn key(&self) -> &Key
        ensures { result.now ≡ self.now.0 }
    {
        match &self.old.before {
            Before::Nothing(key) => key,
            Before::Row(row) => &row.0,
        }
    }

    /// The point before the change.
    pub(crate) fn point(&self) -> u64
        ensures { result ≡ self.now.1.point }
    {
        self.old.point
    }

    /// The record that the key showed.
    pub(crate) fn row(&self) -> Option<&(Key, Shown)>
        ensures { MatchOption result (self.now.1.before ≡ None) (λ row. (row.now.0 ≡ self.now.0) × (self.now.1.before ≡ Some row.now.1)) }
    {
        match &self.old.before {
            Before::Nothing(_) => None,
            Before::Row(row) => Some(row),
        }
    }

    /// What the key showed.
    pub(crate) fn shown(&self) -> Option<&Shown>
        ensures { MatchOption result (self.now.1.before ≡ None) (λ shown. self.now.1.before ≡ Some shown.now) }
    {
        match &self.old.before {
            Before::Nothing(_) => None,
            Before::Row(row) => Some(&row.1),
        }
    }
}

/// What is kept of a key.
pub(crate) fn old_at<'a>(old: &'a [OldRecord], key: &Key) -> Option<&'a OldRecord>
    requires { IsTrue (is_rising old.now) }
    ensures { MatchOption result (row_at key.now old.now ≡ None) (λ found. row_at key.now old.now ≡ Some found.now.1) }
{
    match old.binary_search_by(|kept| compare_keys(kept.key(), key)) {
        Ok(index) => Some(&old[index]),
        Err(_) => None,
    }
}
