//! An index: rows in tables by name, whose calls count steps.

ghost use Rattle.std.specs.Prelude.{◌≡◌, ◌≤◌, ◌+◌, ◌⊎◌, ◌∷◌, [], List, false, length, IfOk, IsOk, OnOk, OnErr, IsTrue, is_some, Some, None, MatchOption};
ghost use Rattle.std.specs.Ordering.{is_eq};
ghost use Rattle.std.specs.List.{AllByRecursion};
ghost use Rattle.dnsname.specs.Names.{Labels};
ghost use Rattle.rrset.specs.Records.{same_key};
ghost use Rattle.rrset.specs.KeyedRows.{is_rising, row_at, put_row, without_rows, rows_of};
ghost use Rattle.rrset.specs.Tables.{HasLowerOwner};
ghost use Rattle.rrset.specs.declared.record.Key.{Key};
ghost use Rattle.nametable.specs.Nodes.{HasRoomFor, HaveRisingKeys, keys_put, name_cmp, room_at};

use crate::name_table::NameTable;
use dnsname::Name;
use push_base::Steps;
use rrset::{Changed, Key, NoMemory, Shown};
use std::alloc::Global;
use std::marker::Model;
use std::sync::ledger::Ledger;

/// Rows in tables by name, of which each look-up and each change counts a step.
#[derive(Debug, Drop)]
pub struct Index<V = Shown> {
    table: NameTable<V>,
}

impl<V> Model for Index<V> {
    ghost use Rattle.nametable.specs.Nodes.{NodesState};

    ghost Value = { NodesState V };

    ghost view = { λ i. i.table };
}

impl<V: Drop> Index<V> {
    /// No rows.
    pub fn new(alloc: Global) -> Self
        ensures { result.rows ≡ [] }
    {
        Index {
            table: NameTable::new(alloc),
        }
    }

    /// The index of a table's rows.
    pub fn from_table(table: NameTable<V>) -> Self
        ensures { result ≡ table }
    {
        Index { table }
    }

    /// The table, for what counts no steps: copies, and plans before a change.
    pub fn table(&self) -> &NameTable<V>
        ensures { result.now ≡ self.now }
    {
        &self.table
    }

    /// The value of a key.
    pub fn get<L: Ledger>(&self, key: &Key, steps: &mut Steps<L>) -> Option<&V>
        ensures value { MatchOption result (row_at key.now self.now.rows ≡ None) (λ value. row_at key.now self.now.rows ≡ Some value.now) }
        ensures steps { steps.new ≡ steps.old + 1 }
    {
        steps.tick();
        self.table.get(key)
    }

    /// The rows of an owner, in key order.
    pub fn at<L: Ledger>(&self, name: &Name, steps: &mut Steps<L>) -> &[(Key, V)]
        ensures rows { result.now ≡ rows_of name.now self.now.rows }
        ensures order { IsTrue (is_rising result.now) }
        ensures steps { steps.new ≡ steps.old + 1 }
    {
        steps.tick();
        // Its clauses say that all rows are in key order.
        self.table.blocks();
        self.table.at(name)
    }

    /// Makes room, at each name where changes put a key that has no row, for all keys that they put there. It counts a
    /// step for each change.
    pub fn reserve_for<L: Ledger>(
        &mut self,
        changed: &[Changed],
        steps: &mut Steps<L>,
    ) -> Result<(), NoMemory>
        requires lower { AllByRecursion (λ c. HasLowerOwner c.key) changed.now }
        requires order { HaveRisingKeys changed.now }
        ensures rows { self.new.rows ≡ self.old.rows }
        ensures room { OnOk result (HasRoomFor (keys_put changed.now) self.new.nodes) }
        ensures kept { (name : Labels) → room_at self.old.nodes name ≤ room_at self.new.nodes name }
        ensures steps { steps.new ≡ steps.old + length changed.now }
    {
        steps.tick_by(changed.len() as u64);
        self.table.reserve_for(changed)
    }

    /// Gives a key this value, and gives back the one that it had. It takes no memory where the key is there, or there
    /// is room for one more of its name.
    pub fn put<L: Ledger>(
        &mut self,
        key: Key,
        value: V,
        steps: &mut Steps<L>,
    ) -> Result<Option<V>, NoMemory>
        requires { HasLowerOwner key }
        ensures value { IfOk result (λ before. before ≡ row_at key self.old.rows) }
        ensures rows { OnOk result (self.new.rows ≡ put_row key value self.old.rows) }
        ensures none { OnErr result (self.new.rows ≡ self.old.rows) }
        ensures succeeds { (1 ≤ room_at self.old.nodes key.owner) ⊎ IsTrue (is_some (row_at key self.old.rows)) → IsOk result }
        ensures in_room { HasRoomFor (key ∷ []) self.old.nodes → IsOk result }
        ensures here { room_at self.old.nodes key.owner ≤ room_at self.new.nodes key.owner + 1 }
        ensures others { (name : Labels) → is_eq (name_cmp name key.owner) ≡ false → room_at self.old.nodes name ≤ room_at self.new.nodes name }
        ensures left { (keys : List Key) → HasRoomFor (key ∷ keys) self.old.nodes → HasRoomFor keys self.new.nodes }
        ensures steps { steps.new ≡ steps.old + 1 }
    {
        steps.tick();
        self.table.put(key, value)
    }

    /// Takes a key out, and gives its value. It takes no memory.
    pub fn remove<L: Ledger>(&mut self, key: &Key, steps: &mut Steps<L>) -> Option<V>
        ensures value { result ≡ row_at key.now self.old.rows }
        ensures rows { self.new.rows ≡ without_rows (same_key key.now) self.old.rows }
        ensures room { (name : Labels) → room_at self.old.nodes name ≤ room_at self.new.nodes name }
        ensures left { (keys : List Key) → HasRoomFor keys self.old.nodes → HasRoomFor keys self.new.nodes }
        ensures steps { steps.new ≡ steps.old + 1 }
    {
        steps.tick();
        self.table.remove(key)
    }

    /// Gives back the names without rows, and the room in them, as `NameTable::give_back` does.
    pub fn give_back(&mut self)
        ensures { self.new.rows ≡ self.old.rows }
    {
        self.table.give_back()
    }
}
