//! All records, found by names, and by the names that their owners end in.

ghost use Rattle.std.specs.Prelude.{◌≡◌, ◌+◌, length, IfOk, OnOk};
ghost use Rattle.std.specs.List.{AllByRecursion, list_any};
ghost use Rattle.dnsname.specs.Names.{ends_in};
ghost use Rattle.rrset.specs.RecordSet.{with_changes};
ghost use Rattle.rrset.specs.Tables.{HasLowerOwner};
ghost use Rattle.nametable.specs.Nodes.{HaveRisingKeys};
ghost use Rattle.recordindex.specs.Owners.{HasRoomForChanges};

use crate::changing::make_all;
use crate::counting::{below_in, count_owners, reserve_owners};
use crate::suffixes::Suffixes;
use dnsname::Name;
use nametable::{Index, by_names};
use push_base::Steps;
use rrset::{Changed, NoMemory, Table};
use std::alloc::Global;
use std::marker::Model;
use std::sync::ledger::Ledger;

/// All records by names, and their owners. Whether one ends in a name two look-ups say at most, however many names
/// there are.
#[derive(Debug, Drop)]
pub struct RecordIndex {
    index: Index,
    suffixes: Suffixes,
}

impl Model for RecordIndex {
    ghost use Rattle.recordindex.specs.Endings.{room_of};
    ghost use Rattle.recordindex.specs.Owners.{AreOwners, RecordsState};

    ghost Value = { RecordsState };

    ghost view = { λ r. record { rows = r.index.rows; nodes = r.index.nodes; places = room_of r.suffixes.kept } };

    ghost invariant = { λ r. AreOwners r.suffixes r.index.rows };
}

impl RecordIndex {
    /// The index of a table's rows.
    pub fn from_table(alloc: Global, table: Table) -> Result<Self, NoMemory>
        ensures { IfOk result (λ records. records.rows ≡ table.rows) }
    {
        let suffixes = count_owners(alloc, table.entries())?;
        let rows = by_names(alloc, table)?;
        Ok(RecordIndex {
            index: Index::from_table(rows),
            suffixes,
        })
    }

    /// The records by names, for look-ups.
    pub fn index(&self) -> &Index
        ensures { result.now.rows ≡ self.now.rows }
    {
        &self.index
    }

    /// Whether the owner of a row ends in a name, by two look-ups at most (RFC 8020, 2).
    pub fn below(&self, name: &Name) -> bool
        ensures { result ≡ list_any (λ e. ends_in e.0.owner name.now) self.now.rows }
    {
        below_in(&self.index, &self.suffixes, name)
    }

    /// Makes room for the keys that changes put and that have no row, and for their owners. It counts a step for each
    /// change.
    pub fn reserve_for<L: Ledger>(
        &mut self,
        changed: &[Changed],
        steps: &mut Steps<L>,
    ) -> Result<(), NoMemory>
        requires lower { AllByRecursion (λ c. HasLowerOwner c.key) changed.now }
        requires order { HaveRisingKeys changed.now }
        ensures rows { self.new.rows ≡ self.old.rows }
        ensures room { OnOk result (HasRoomForChanges changed.now self.new) }
        ensures steps { steps.new ≡ steps.old + length changed.now }
    {
        self.index.reserve_for(changed, steps)?;
        reserve_owners(&mut self.suffixes, changed)
    }

    /// Makes changes, where there is room for all keys that they put. It takes no memory, and room that was made for
    /// other plans may be given back. It counts a step for each.
    pub fn make_changes<L: Ledger>(&mut self, changed: Vec<Changed>, steps: &mut Steps<L>)
        requires lower { AllByRecursion (λ c. HasLowerOwner c.key) changed.items }
        requires room { HasRoomForChanges changed.items self.old }
        ensures rows { self.new.rows ≡ with_changes changed.items self.old.rows }
        ensures steps { steps.new ≡ steps.old + length changed.items }
    {
        make_all(&mut self.index, &mut self.suffixes, changed, steps)
    }
}
