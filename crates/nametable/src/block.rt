//! Names with their rows in blocks of few.

ghost use Rattle.std.specs.Prelude.{◌≡◌, ℕ, ◌≤◌, ◌<◌, ◌+◌, ◌%◌, ◌^◌, ◌⊎◌, ◌++◌, [], false, length, nat_lt, IfOk, IsOk, OnOk, OnErr, IsTrue, is_some};
ghost use Rattle.std.specs.Ordering.{is_eq};
ghost use Rattle.std.specs.List.{filter};
ghost use Rattle.dnsname.specs.Names.{Labels, lower};
ghost use Rattle.rrset.specs.Records.{same_key};
ghost use Rattle.rrset.specs.KeyedRows.{put_row, without_rows, row_at};
ghost use Rattle.rrset.specs.Tables.{HasLowerOwner};
ghost use Rattle.nametable.specs.FirstOctets.{HasFirst};
ghost use Rattle.nametable.specs.Nodes.{AreAlike, AreNodes, all_rows, has_row, has_rows, name_cmp, names_in, room_at};
ghost use Rattle.nametable.specs.Blocks.{AddsNoOther, begins_by};

use crate::node::{
    Node, add_name, drop_empty, first_in, place_of, put_in, remove_in, reserve_in, search_lower,
};
use dnsname::Name;
use rrset::{Copied, Key, NoMemory};
use std::alloc::Global;
use std::marker::Model;

/// A block of so many names is cut in two.
const MOST_NAMES: usize = 512;

/// Some names with their rows, in the order of names.
#[derive(Debug, Drop)]
pub struct Block<V> {
    nodes: Vec<Node<V>>,
    // The number of the first name's first octets, so that a search for a block looks at few names. Contracts don't see
    // it.
    first: u64,
    // The index of the name that was changed, given room or looked for by `look_for` last, where the next is looked for
    // first. Contracts don't see it.
    last: usize,
}

impl<V> Model for Block<V> {
    ghost use Rattle.nametable.specs.Blocks.{BeginsAt};
    ghost use Rattle.nametable.specs.Nodes.{Nodes};

    ghost Value = { Nodes V };

    ghost view = { λ b. b.nodes.items };

    ghost invariant = { λ b. BeginsAt b.first b.nodes.items };
}

impl<V: Drop> Block<V> {
    /// A block of a name without rows.
    pub(crate) fn of_name(alloc: Global, owner: Name) -> Result<Block<V>, NoMemory>
        requires { lower owner ≡ owner }
        ensures nodes { IfOk result (λ block. AreNodes block) }
        ensures rows { IfOk result (λ block. all_rows block ≡ []) }
        ensures some { IfOk result (λ block. 0 < length block) }
    {
        let mut nodes = Vec::new(alloc);
        let mut first = 0;
        add_name(&mut nodes, &mut first, 0, owner, 0)?;
        Ok(Block {
            nodes,
            first,
            last: 0,
        })
    }

    /// The nodes, in the order of names.
    pub fn nodes(&self) -> &[Node<V>]
        ensures { result.now ≡ self.now }
    {
        &self.nodes
    }

    /// The index of the name that was changed, given room or looked for by `look_for` last.
    pub(crate) fn last(&self) -> usize {
        self.last
    }

    /// Looks for a name in lower case, whose first octets have this number there, and remembers where it is.
    pub(crate) fn look_for(&mut self, first: u64, name: &Name)
        requires nodes { AreNodes self.old }
        requires first { HasFirst first (lower name.now) }
        ensures { self.new ≡ self.old }
    {
        self.last = place_of(search_lower(&self.nodes, first, name));
    }

    /// Whether its first name is at most one whose first octets have this number.
    pub(crate) fn begins_by(&self, first: u64, name: &Name) -> bool
        ensures { HasFirst first name.now → result ≡ begins_by name.now self.now }
    {
        // Two tests with a branch each, as most steps of a search end at one of them.
        if self.first < first {
            return true;
        }
        if first < self.first {
            return false;
        }
        match self.nodes.first() {
            Some(node) => node.compare(first, name).is_le(),
            None => true,
        }
    }

    /// Whether its first name is at most one in lower case, whose first octets have this number there.
    pub(crate) fn begins_by_lower(&self, first: u64, name: &Name) -> bool
        ensures { HasFirst first (lower name.now) → result ≡ begins_by (lower name.now) self.now }
    {
        // Two tests with a branch each, as most steps of a search end at one of them.
        if self.first < first {
            return true;
        }
        if first < self.first {
            return false;
        }
        match self.nodes.first() {
            Some(node) => node.compare_with_lower(first, name).is_le(),
            None => true,
        }
    }

    /// Whether it has names.
    pub(crate) fn is_filled(&self) -> bool
        ensures { result ≡ nat_lt 0 (length self.now) }
    {
        self.nodes.len() > 0
    }

    /// Whether it has as many names as a block has at most.
    pub(crate) fn is_full(&self) -> bool
        ensures { IsTrue result → 2 ≤ length self.now }
    {
        self.nodes.len() >= MOST_NAMES
    }

    /// Keeps the first half of its names, and gives the others.
    pub(crate) fn cut(&mut self) -> Result<Block<V>, NoMemory>
        requires { 2 ≤ length self.old }
        ensures nodes { IfOk result (λ behind. self.new ++ behind ≡ self.old) }
        ensures here { 0 < length self.new }
        ensures behind { IfOk result (λ behind. 0 < length behind) }
        ensures none { OnErr result (self.new ≡ self.old) }
    {
        let half = self.nodes.len() / 2;
        let nodes = self.nodes.split_off(half)?;
        self.nodes.shrink_to_fit();
        self.first = first_in(&self.nodes);
        let first = first_in(&nodes);
        Ok(Block {
            nodes,
            first,
            last: 0,
        })
    }

    /// Gives a key this value, and counts its name where it had no rows.
    pub(crate) fn put(
        &mut self,
        key: Key,
        value: V,
        names: &mut usize,
    ) -> Result<Option<V>, NoMemory>
        requires nodes { AreNodes self.old }
        requires lower { HasLowerOwner key }
        ensures nodes { AreNodes self.new }
        ensures only { AddsNoOther key.owner self.old self.new }
        ensures names { (others : ℕ) → names.old ≡ (others + names_in self.old) % 2 ^ 64 → names.new ≡ (others + names_in self.new) % 2 ^ 64 }
        ensures value { IfOk result (λ before. before ≡ row_at key (all_rows self.old)) }
        ensures rows { OnOk result (all_rows self.new ≡ put_row key value (all_rows self.old)) }
        ensures none { OnErr result (all_rows self.new ≡ all_rows self.old) }
        ensures succeeds { (1 ≤ room_at self.old key.owner) ⊎ IsTrue (is_some (row_at key (all_rows self.old))) → IsOk result }
        ensures here { room_at self.old key.owner ≤ room_at self.new key.owner + 1 }
        ensures others { (name : Labels) → is_eq (name_cmp name key.owner) ≡ false → room_at self.old name ≤ room_at self.new name }
        ensures kept { IsTrue (is_some (row_at key (all_rows self.old))) → room_at self.old key.owner ≤ room_at self.new key.owner }
    {
        put_in(
            &mut self.nodes,
            &mut self.first,
            &mut self.last,
            key,
            value,
            names,
        )
    }

    /// Takes a key out, and counts its name no longer where it has no rows then.
    pub(crate) fn remove(&mut self, key: &Key, names: &mut usize) -> Option<V>
        requires nodes { AreNodes self.old }
        ensures nodes { AreNodes self.new }
        ensures only { AddsNoOther key.now.owner self.old self.new }
        ensures names { (others : ℕ) → names.old ≡ (others + names_in self.old) % 2 ^ 64 → names.new ≡ (others + names_in self.new) % 2 ^ 64 }
        ensures value { result ≡ row_at key.now (all_rows self.old) }
        ensures rows { all_rows self.new ≡ without_rows (same_key key.now) (all_rows self.old) }
        ensures room { (name : Labels) → room_at self.old name ≤ room_at self.new name }
        ensures freed { IsTrue (is_some (row_at key.now (all_rows self.old))) → room_at self.old key.now.owner + 1 ≤ room_at self.new key.now.owner }
    {
        remove_in(&mut self.nodes, &mut self.last, key, names)
    }

    /// Makes room for so many further keys of a name where one of them has no row.
    pub(crate) fn reserve(&mut self, key: &Key, keys: usize) -> Result<(), NoMemory>
        requires nodes { AreNodes self.old }
        requires lower { HasLowerOwner key.now }
        ensures nodes { AreNodes self.new }
        ensures only { AddsNoOther key.now.owner self.old self.new }
        ensures rows { all_rows self.new ≡ all_rows self.old }
        ensures room { OnOk result (has_row self.old key.now ≡ false → keys ≤ room_at self.new key.now.owner) }
        ensures kept { (name : Labels) → room_at self.old name ≤ room_at self.new name }
    {
        reserve_in(&mut self.nodes, &mut self.first, &mut self.last, key, keys)
    }

    /// Gives back the names without rows, and the room in them.
    pub(crate) fn drop_empty(&mut self)
        ensures { self.new ≡ filter has_rows self.old }
    {
        drop_empty(&mut self.nodes);
        self.first = first_in(&self.nodes);
    }
}

/// Nodes with the same names and rows, each with room for no more.
fn copied_nodes<V: Copied + Drop>(nodes: &Vec<Node<V>>) -> Result<Vec<Node<V>>, NoMemory>
    ensures { IfOk result (λ copies. AreAlike copies.items nodes.now.items) }
{
    let alloc = *nodes.allocator();
    let mut copies = Vec::with_capacity(alloc, nodes.len())?;
    'nodes: for node in nodes {
        let copy = node.copy(alloc)?;
        copies.push(copy)?;
    }
    Ok(copies)
}

impl<V: Copied + Drop> Block<V> {
    /// A block with the same names and rows.
    pub(crate) fn copy(&self) -> Result<Block<V>, NoMemory>
        ensures { IfOk result (λ copy. AreAlike copy self.now) }
    {
        let nodes = copied_nodes(&self.nodes)?;
        let first = first_in(&nodes);
        Ok(Block {
            nodes,
            first,
            last: 0,
        })
    }
}
