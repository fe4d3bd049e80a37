//! Rows in tables by name.

ghost use Rattle.std.specs.Prelude.{◌≡◌, ◌≤◌, ◌<◌, ◌+◌, ◌-◌, ◌%◌, ◌^◌, ◌⊎◌, ◌∷◌, [], List, false, cond, length, IfOk, IsOk, OnOk, OnErr, IsTrue, is_some, Some, None, MatchOption};
ghost use Rattle.std.specs.Ordering.{is_eq};
ghost use Rattle.std.specs.List.{AllByRecursion};
ghost use Rattle.dnsname.specs.Names.{Labels};
ghost use Rattle.rrset.specs.Records.{same_key};
ghost use Rattle.rrset.specs.KeyedRows.{row_at, put_row, without_rows, rows_of};
ghost use Rattle.rrset.specs.Tables.{HasLowerOwner};
ghost use Rattle.rrset.specs.declared.record.Key.{Key};
ghost use Rattle.nametable.specs.Blocks.{nodes_in};
ghost use Rattle.nametable.specs.Nodes.{AreNodes, HasRoomFor, HaveRisingKeys, all_rows, keys_of, keys_put, name_cmp, room_at};

use crate::block::Block;
use crate::blocks::{
    copied_blocks, drop_empty_blocks, look_in_blocks, names_in_blocks, put_in_blocks,
    remove_in_blocks, table_for_in_blocks, table_of_in_blocks,
};
use crate::reserving::{reserve_all, reserve_rows};
use dnsname::Name;
use rrset::{Changed, Copied, Key, NoMemory, Shown, Table};
use std::alloc::Global;
use std::marker::Model;

/// Of so many names one may be without rows when they are counted, and one may change before they are counted again.
const NAMES_PER_EMPTY: usize = 8;

/// Rows, each a key and its value, in tables by name: a finite map in key order, in which a change moves nothing of
/// other names but pointers. A name that lost its rows keeps its room until `give_back` counts, which knows how many
/// have none by a count of the names with rows.
#[derive(Debug, Drop)]
pub struct NameTable<V = Shown> {
    blocks: Vec<Block<V>>,
    count: usize,
    names: usize,
    // How many names may have come without rows, or lost theirs, since names were counted last. Contracts don't see it.
    uncounted: usize,
    // The block of the name that was changed, given room or looked for by `look_for` last, where the next is looked for
    // first. Contracts don't see it.
    last: usize,
}

impl<V> Model for NameTable<V> {
    ghost use Rattle.std.specs.Prelude.{◌≡◌, ◌%◌, ◌^◌, length};
    ghost use Rattle.nametable.specs.Nodes.{NodesState, all_rows, names_in};
    ghost use Rattle.nametable.specs.Blocks.{AreBlocks, nodes_in};

    ghost Value = { NodesState V };

    ghost view = { λ t. record { rows = all_rows (nodes_in t.blocks.items); nodes = nodes_in t.blocks.items } };

    ghost invariant = { λ t. AreBlocks t.blocks.items × (t.count ≡ length (all_rows (nodes_in t.blocks.items)) % 2 ^ 64) × (t.names ≡ names_in (nodes_in t.blocks.items) % 2 ^ 64) };
}

/// A count of rows after a put that gave back this, modulo 2^64.
fn count_with<V>(count: usize, before: &Option<V>) -> usize
    ensures { result ≡ cond (is_some before.now) count ((count + 1) % 2 ^ 64) }
{
    match before {
        Some(_) => count,
        None => count.wrapping_add(1),
    }
}

/// A count of rows after this was taken out, modulo 2^64.
fn count_without<V>(count: usize, removed: &Option<V>) -> usize
    ensures { result ≡ cond (is_some removed.now) ((count + (2 ^ 64 - 1)) % 2 ^ 64) count }
{
    match removed {
        Some(_) => count.wrapping_sub(1),
        None => count,
    }
}

impl<V: Drop> NameTable<V> {
    /// No rows.
    pub fn new(alloc: Global) -> Self
        ensures { result.rows ≡ [] }
    {
        NameTable {
            blocks: Vec::new(alloc),
            count: 0,
            names: 0,
            uncounted: 0,
            last: 0,
        }
    }

    /// The value of a key.
    pub fn get(&self, key: &Key) -> Option<&V>
        ensures { MatchOption result (row_at key.now self.now.rows ≡ None) (λ value. row_at key.now self.now.rows ≡ Some value.now) }
    {
        match table_for_in_blocks(&self.blocks, self.last, key) {
            Some(table) => table.get(key),
            None => None,
        }
    }

    /// Looks for a name, and remembers where it is, so that further calls find it sooner. Nothing that contracts see
    /// changes.
    pub fn look_for(&mut self, name: &Name)
        ensures { self.new ≡ self.old }
    {
        look_in_blocks(&mut self.blocks, &mut self.last, name);
    }

    /// The rows of an owner, in key order.
    pub fn at(&self, name: &Name) -> &[(Key, V)]
        ensures { result.now ≡ rows_of name.now self.now.rows }
    {
        match table_of_in_blocks(&self.blocks, self.last, name) {
            Some(table) => table.entries(),
            None => &[],
        }
    }

    /// How many rows there are, where they are fewer than 2^64.
    pub fn len(&self) -> usize
        ensures { length self.now.rows < 2 ^ 64 → result ≡ length self.now.rows }
    {
        self.count
    }

    /// The names with their rows in blocks, in the order of names.
    pub fn blocks(&self) -> &[Block<V>]
        ensures rows { all_rows (nodes_in result.now) ≡ self.now.rows }
        ensures nodes { AreNodes (nodes_in result.now) }
    {
        &self.blocks
    }

    /// Takes a key out, and gives its value. It takes no memory.
    pub fn remove(&mut self, key: &Key) -> Option<V>
        ensures value { result ≡ row_at key.now self.old.rows }
        ensures rows { self.new.rows ≡ without_rows (same_key key.now) self.old.rows }
        ensures room { (name : Labels) → room_at self.old.nodes name ≤ room_at self.new.nodes name }
        ensures left { (keys : List Key) → HasRoomFor keys self.old.nodes → HasRoomFor keys self.new.nodes }
    {
        self.uncounted = self.uncounted.saturating_add(1);
        let removed = remove_in_blocks(&mut self.blocks, &mut self.last, key, &mut self.names);
        let count = count_without(self.count, &removed);
        self.count = count;
        removed
    }

    /// Makes room, at each name where changes put a key that has no row, for all keys that they put there, which are
    /// counted for each of them.
    pub fn reserve_for(&mut self, changed: &[Changed]) -> Result<(), NoMemory>
        requires lower { AllByRecursion (λ c. HasLowerOwner c.key) changed.now }
        requires order { HaveRisingKeys changed.now }
        ensures rows { self.new.rows ≡ self.old.rows }
        ensures room { OnOk result (HasRoomFor (keys_put changed.now) self.new.nodes) }
        ensures kept { (name : Labels) → room_at self.old.nodes name ≤ room_at self.new.nodes name }
    {
        self.uncounted = self.uncounted.saturating_add(changed.len());
        reserve_all(&mut self.blocks, &mut self.last, changed)
    }

    /// Makes room, at each name where a key of a table has no row, for all keys of it there, in time linear in its rows
    /// but for searches.
    pub fn reserve_for_rows(&mut self, rows: &Table<V>) -> Result<(), NoMemory>
        ensures rows { self.new.rows ≡ self.old.rows }
        ensures room { OnOk result (HasRoomFor (keys_of rows.now.rows) self.new.nodes) }
        ensures kept { (name : Labels) → room_at self.old.nodes name ≤ room_at self.new.nodes name }
    {
        self.uncounted = self.uncounted.saturating_add(rows.len());
        reserve_rows(&mut self.blocks, &mut self.last, rows)
    }

    /// Gives a key this value, and gives back the one that it had. It takes no memory where the key is there, or there
    /// is room for one more of its name.
    pub fn put(&mut self, key: Key, value: V) -> Result<Option<V>, NoMemory>
        requires { HasLowerOwner key }
        ensures value { IfOk result (λ before. before ≡ row_at key self.old.rows) }
        ensures rows { OnOk result (self.new.rows ≡ put_row key value self.old.rows) }
        ensures none { OnErr result (self.new.rows ≡ self.old.rows) }
        ensures succeeds { (1 ≤ room_at self.old.nodes key.owner) ⊎ IsTrue (is_some (row_at key self.old.rows)) → IsOk result }
        ensures in_room { HasRoomFor (key ∷ []) self.old.nodes → IsOk result }
        ensures here { room_at self.old.nodes key.owner ≤ room_at self.new.nodes key.owner + 1 }
        ensures others { (name : Labels) → is_eq (name_cmp name key.owner) ≡ false → room_at self.old.nodes name ≤ room_at self.new.nodes name }
        ensures left { (keys : List Key) → HasRoomFor (key ∷ keys) self.old.nodes → HasRoomFor keys self.new.nodes }
    {
        let before = put_in_blocks(
            &mut self.blocks,
            &mut self.last,
            key,
            value,
            &mut self.names,
        )?;
        let count = count_with(self.count, &before);
        self.count = count;
        Ok(before)
    }

    /// Gives back the names without rows, and the room in them, where these are counted and are more than one of eight.
    /// They are counted when more than one change for eight names with rows came since the last time. To be called
    /// where no plan is pending, since room that was made may be lost. It takes no memory.
    pub fn give_back(&mut self)
        ensures { self.new.rows ≡ self.old.rows }
    {
        if self.uncounted <= self.names / NAMES_PER_EMPTY {
            return;
        }
        self.sweep();
        self.uncounted = 0;
    }

    /// Counts the names, and gives back those without rows, and the room in them, where these are more than one of
    /// eight.
    fn sweep(&mut self)
        ensures { self.new.rows ≡ self.old.rows }
    {
        let all = names_in_blocks(&self.blocks);
        let empty = all.saturating_sub(self.names);
        if empty <= all / NAMES_PER_EMPTY {
            return;
        }
        drop_empty_blocks(&mut self.blocks);
    }
}

impl<V: Copied + Drop> NameTable<V> {
    /// The same rows.
    pub fn copy(&self) -> Result<NameTable<V>, NoMemory>
        ensures { IfOk result (λ table. table.rows ≡ self.now.rows) }
    {
        let blocks = copied_blocks(&self.blocks)?;
        Ok(NameTable {
            blocks,
            count: self.count,
            names: self.names,
            uncounted: self.uncounted,
            last: 0,
        })
    }
}
