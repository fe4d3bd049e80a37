//! What a hearing or a moment is planned to change.

ghost use Rattle.std.specs.Prelude.{◌≡◌, false, [], length};

use crate::end_key::EndKey;
use crate::row::HeardRow;
use rrset::{Changed, Key};
use std::alloc::Global;
use std::marker::Model;

/// A row that a step puts, changes or takes out.
#[derive(Debug, Drop)]
pub struct RowChange {
    /// The key.
    pub key: Key,
    /// What is heard of it afterwards, if anything.
    pub after: Option<HeardRow>,
}

/// A change, and its key once more for the moment at which the row ends.
#[derive(Debug, Drop)]
pub(crate) struct PlannedRow {
    /// The change.
    pub(crate) change: RowChange,
    /// The same key.
    pub(crate) again: EndKey,
}

/// What a step changes in a link: its rows, and the keys that are shown otherwise.
#[derive(Debug, Drop)]
pub struct HearPlan {
    pub(crate) usable: bool,
    pub(crate) changed: Vec<Changed>,
    pub(crate) rows: Vec<PlannedRow>,
}

impl Model for HearPlan {
    ghost use Rattle.std.specs.Prelude.{◌≡◌, map};
    ghost use Rattle.std.specs.List.{AllByRecursion};
    ghost use Rattle.linkcache.specs.Plans.{LinkPlan};

    ghost Value = { LinkPlan };

    ghost view = { λ p. record { usable = p.usable; changed = p.changed.items; rows = map (λ r. r.change) p.rows.items } };

    ghost invariant = { λ p. AllByRecursion (λ r. r.again ≡ r.change.key) p.rows.items };
}

impl HearPlan {
    /// Nothing to change.
    pub(crate) fn nothing(alloc: Global) -> Self
        ensures usable { result.usable ≡ false }
        ensures changed { result.changed ≡ [] }
        ensures rows { result.rows ≡ [] }
    {
        HearPlan {
            usable: false,
            changed: Vec::new(alloc),
            rows: Vec::new(alloc),
        }
    }

    /// Whether a record that was heard could be used.
    pub fn is_usable(&self) -> bool
        ensures { result ≡ self.now.usable }
    {
        self.usable
    }

    /// The keys that are shown otherwise, with both values, in key order.
    pub fn changed(&self) -> &[Changed]
        ensures { result.now ≡ self.now.changed }
    {
        &self.changed
    }

    /// How many rows change at most.
    pub(crate) fn rows_at_most(&self) -> usize
        ensures { result ≡ length self.now.rows }
    {
        self.rows.len()
    }
}
