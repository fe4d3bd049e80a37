//! A name with its rows (RFC 1034, 3.1), and lists of them in the order of names.

ghost use Rattle.std.specs.Prelude.{◌≡◌, ℕ, ◌≤◌, ◌<◌, ◌+◌, ◌-◌, ◌%◌, ◌^◌, ◌⊎◌, [], false, cond, IfOk, IfErr, IsOk, OnOk, OnErr, IsTrue, is_some, Some, None, MatchOption};
ghost use Rattle.std.specs.Ordering.{is_eq};
ghost use Rattle.std.specs.List.{filter};
ghost use Rattle.dnsname.specs.Names.{Labels, lower};
ghost use Rattle.rrset.specs.Records.{same_key};
ghost use Rattle.rrset.specs.KeyedRows.{put_row, without_rows, row_at};
ghost use Rattle.rrset.specs.Tables.{HasLowerOwner};
ghost use Rattle.nametable.specs.Blocks.{AddsNoOther, BeginsAt};
ghost use Rattle.nametable.specs.FirstOctets.{HasFirst};
ghost use Rattle.nametable.specs.Nodes.{AreNodes, IsNameAt, IsNameGap, all_rows, has_row, has_rows, name_cmp, names_in, room_at, table_at};

use crate::order::{compare_names, compare_with_lower_name, first_of};
use dnsname::Name;
use rrset::{Copied, Key, NoMemory, Table};
use std::alloc::Global;
use std::cmp::Ordering;
use std::marker::Model;

/// A name in lower case, and its rows.
#[derive(Debug, Drop)]
struct Named<V> {
    owner: Name,
    table: Table<V>,
}

/// A name in lower case and its rows, behind one pointer, so that few octets move where a name is put between others.
/// The number of its first octets stands beside the pointer, so that most comparisons don't follow it.
#[derive(Debug, Drop)]
pub struct Node<V> {
    first: u64,
    named: Box<Named<V>>,
}

impl<V> Model for Node<V> {
    ghost use Rattle.nametable.specs.FirstOctets.{HasFirst};
    ghost use Rattle.nametable.specs.Nodes.{Node};

    ghost Value = { Node V };

    ghost view = { λ n. (n.named.value.owner, n.named.value.table) };

    ghost invariant = { λ n. HasFirst n.first n.named.value.owner };
}

impl<V: Drop> Node<V> {
    /// A name with these rows.
    fn with_rows(alloc: Global, owner: Name, table: Table<V>) -> Result<Node<V>, NoMemory>
        ensures name { IfOk result (λ node. node.0 ≡ owner) }
        ensures rows { IfOk result (λ node. node.1 ≡ table) }
    {
        let first = first_of(&owner);
        let named = Box::new(alloc, Named { owner, table })?;
        Ok(Node { first, named })
    }

    /// A name without rows, with room for so many keys.
    fn new(alloc: Global, owner: Name, keys: usize) -> Result<Node<V>, NoMemory>
        ensures name { IfOk result (λ node. node.0 ≡ owner) }
        ensures rows { IfOk result (λ node. node.1.rows ≡ []) }
        ensures room { IfOk result (λ node. keys ≤ node.1.spare) }
    {
        let mut node = Node::with_rows(alloc, owner, Table::new(alloc))?;
        node.reserve(keys)?;
        Ok(node)
    }

    /// The name.
    fn owner(&self) -> &Name
        ensures { result.now ≡ self.now.0 }
    {
        &self.named.owner
    }

    /// The number of the first octets of its name.
    fn first(&self) -> u64
        ensures { HasFirst result self.now.0 }
    {
        self.first
    }

    /// The order of its name and of one whose first octets have this number.
    pub(crate) fn compare(&self, first: u64, name: &Name) -> Ordering
        ensures { HasFirst first name.now → result ≡ name_cmp self.now.0 name.now }
    {
        // Two tests with a branch each, as most steps of a search end at one of them.
        if self.first < first {
            return Ordering::Less;
        }
        if first < self.first {
            return Ordering::Greater;
        }
        compare_names(&self.named.owner, name)
    }

    /// The order of its name and of one in lower case, whose first octets have this number there.
    pub(crate) fn compare_with_lower(&self, first: u64, name: &Name) -> Ordering
        ensures { HasFirst first (lower name.now) → result ≡ name_cmp self.now.0 (lower name.now) }
    {
        if self.first < first {
            return Ordering::Less;
        }
        if first < self.first {
            return Ordering::Greater;
        }
        compare_with_lower_name(&self.named.owner, name)
    }

    /// Its rows.
    pub fn table(&self) -> &Table<V>
        ensures { result.now ≡ self.now.1 }
    {
        &self.named.table
    }

    /// Whether it has rows.
    fn has_rows(&self) -> bool
        ensures { result ≡ has_rows self.now }
    {
        self.table().len() > 0
    }

    /// Gives a key this value.
    fn put(&mut self, key: Key, value: V) -> Result<Option<V>, NoMemory>
        requires { HasLowerOwner key }
        ensures name { self.new.0 ≡ self.old.0 }
        ensures value { IfOk result (λ before. before ≡ row_at key self.old.1.rows) }
        ensures rows { OnOk result (self.new.1.rows ≡ put_row key value self.old.1.rows) }
        ensures none { OnErr result (self.new.1.rows ≡ self.old.1.rows) }
        ensures succeeds { (1 ≤ self.old.1.spare) ⊎ IsTrue (is_some (row_at key self.old.1.rows)) → IsOk result }
        ensures room { self.old.1.spare ≤ self.new.1.spare + 1 }
        ensures kept { IsTrue (is_some (row_at key self.old.1.rows)) → self.old.1.spare ≤ self.new.1.spare }
    {
        self.named.table.put(key, value)
    }

    /// Takes a key out.
    fn remove(&mut self, key: &Key) -> Option<V>
        ensures name { self.new.0 ≡ self.old.0 }
        ensures value { result ≡ row_at key.now self.old.1.rows }
        ensures rows { self.new.1.rows ≡ without_rows (same_key key.now) self.old.1.rows }
        ensures room { self.old.1.spare ≤ self.new.1.spare }
        ensures freed { IsTrue (is_some (row_at key.now self.old.1.rows)) → self.old.1.spare + 1 ≤ self.new.1.spare }
    {
        self.named.table.remove(key)
    }

    /// Makes room for so many further keys where one of them isn't there.
    fn reserve_for(&mut self, key: &Key, keys: usize) -> Result<(), NoMemory>
        ensures name { self.new.0 ≡ self.old.0 }
        ensures rows { self.new.1.rows ≡ self.old.1.rows }
        ensures room { OnOk result (is_some (row_at key.now self.old.1.rows) ≡ false → keys ≤ self.new.1.spare) }
        ensures kept { self.old.1.spare ≤ self.new.1.spare }
    {
        self.named.table.reserve_for(key, keys)
    }

    /// Makes room for so many further keys.
    fn reserve(&mut self, keys: usize) -> Result<(), NoMemory>
        ensures name { self.new.0 ≡ self.old.0 }
        ensures rows { self.new.1.rows ≡ self.old.1.rows }
        ensures room { OnOk result (keys ≤ self.new.1.spare) }
        ensures kept { self.old.1.spare ≤ self.new.1.spare }
    {
        self.named.table.reserve(keys)
    }
}

impl<V: Copied + Drop> Node<V> {
    /// The same name with the same rows.
    pub(crate) fn copy(&self, alloc: Global) -> Result<Node<V>, NoMemory>
        ensures name { IfOk result (λ node. node.0 ≡ self.now.0) }
        ensures rows { IfOk result (λ node. node.1.rows ≡ self.now.1.rows) }
    {
        let owner = self.owner().copy()?;
        let table = self.table().copy()?;
        Node::with_rows(alloc, owner, table)
    }
}

/// The number of the first name's first octets, or 0 where there is no name.
pub(crate) fn first_in<V: Drop>(nodes: &Vec<Node<V>>) -> u64
    ensures { BeginsAt result nodes.now.items }
{
    match nodes.first() {
        Some(node) => node.first(),
        None => 0,
    }
}

/// The number of the first name's first octets where there was this one, and a node is put at an index.
fn first_with<V: Drop>(first: u64, index: usize, node: &Node<V>) -> u64
    ensures here { index ≡ 0 → HasFirst result node.now.0 }
    ensures behind { 0 < index → result ≡ first }
{
    if index == 0 { node.first() } else { first }
}

/// Where a name is among nodes, or where it would go.
fn search<V: Drop>(nodes: &[Node<V>], name: &Name) -> Result<usize, usize>
    requires { AreNodes nodes.now }
    ensures found { IfOk result (IsNameAt name.now nodes.now) }
    ensures absent { IfErr result (IsNameGap name.now nodes.now) }
{
    let first = first_of(name);
    nodes.binary_search_by(|node| node.compare(first, name))
}

/// Whether the node at an index is that of a name, whose first octets have this number.
fn is_at<V: Drop>(nodes: &[Node<V>], index: usize, first: u64, name: &Name) -> bool
    ensures { IsTrue result → HasFirst first name.now → IsNameAt name.now nodes.now index }
{
    match nodes.get(index) {
        Some(node) => node.compare(first, name).is_eq(),
        None => false,
    }
}

/// The same for a name in lower case, whose first octets have this number there.
fn is_at_lower<V: Drop>(nodes: &[Node<V>], index: usize, first: u64, name: &Name) -> bool
    ensures { IsTrue result → HasFirst first (lower name.now) → IsNameAt (lower name.now) nodes.now index }
{
    match nodes.get(index) {
        Some(node) => node.compare_with_lower(first, name).is_eq(),
        None => false,
    }
}

/// Where a name is among nodes, or where it would go. It is looked for first where the last one was, as most are that
/// one again.
fn search_near<V: Drop>(nodes: &[Node<V>], last: &mut usize, name: &Name) -> Result<usize, usize>
    requires { AreNodes nodes.now }
    ensures found { IfOk result (IsNameAt name.now nodes.now) }
    ensures absent { IfErr result (IsNameGap name.now nodes.now) }
{
    if is_at(nodes, *last, first_of(name), name) {
        return Ok(*last);
    }
    let found = search(nodes, name);
    *last = place_of(found);
    found
}

/// The index at which a name is or would go.
pub(crate) fn place_of(found: Result<usize, usize>) -> usize {
    match found {
        Ok(index) => index,
        Err(index) => index,
    }
}

/// Where a name in lower case is among nodes, or where it would go.
pub(crate) fn search_lower<V: Drop>(
    nodes: &[Node<V>],
    first: u64,
    name: &Name,
) -> Result<usize, usize>
    requires nodes { AreNodes nodes.now }
    requires first { HasFirst first (lower name.now) }
    ensures found { IfOk result (IsNameAt (lower name.now) nodes.now) }
    ensures absent { IfErr result (IsNameGap (lower name.now) nodes.now) }
{
    nodes.binary_search_by(|node| node.compare_with_lower(first, name))
}

/// The table of a key's owner.
pub(crate) fn table_for<'a, V: Drop>(
    nodes: &'a [Node<V>],
    last: usize,
    key: &Key,
) -> Option<&'a Table<V>>
    requires { AreNodes nodes.now }
    ensures { MatchOption result (table_at key.now.owner nodes.now ≡ None) (λ table. table_at key.now.owner nodes.now ≡ Some table.now) }
{
    if is_at(nodes, last, first_of(&key.owner), &key.owner) {
        return Some(nodes[last].table());
    }
    match search(nodes, &key.owner) {
        Ok(index) => Some(nodes[index].table()),
        Err(_) => None,
    }
}

/// The table of a name, whose first octets have this number in lower case.
pub(crate) fn table_of<'a, V: Drop>(
    nodes: &'a [Node<V>],
    last: usize,
    first: u64,
    name: &Name,
) -> Option<&'a Table<V>>
    requires nodes { AreNodes nodes.now }
    requires first { HasFirst first (lower name.now) }
    ensures { MatchOption result (table_at (lower name.now) nodes.now ≡ None) (λ table. table_at (lower name.now) nodes.now ≡ Some table.now) }
{
    if is_at_lower(nodes, last, first, name) {
        return Some(nodes[last].table());
    }
    match search_lower(nodes, first, name) {
        Ok(place) => Some(nodes[place].table()),
        Err(_) => None,
    }
}

/// How many names have rows, modulo 2^64, where so many had, and one may have got its first or lost its last.
fn names_now(names: usize, had: bool, has: bool) -> usize
    ensures { result ≡ cond had (cond has names ((names + (2 ^ 64 - 1)) % 2 ^ 64)) (cond has ((names + 1) % 2 ^ 64) names) }
{
    match (had, has) {
        (false, true) => names.wrapping_add(1),
        (true, false) => names.wrapping_sub(1),
        _ => names,
    }
}

/// Gives a key whose name has a node this value, and counts the name where it had no rows.
fn put_at<V: Drop>(
    nodes: &mut [Node<V>],
    index: usize,
    key: Key,
    value: V,
    names: &mut usize,
) -> Result<Option<V>, NoMemory>
    requires nodes { AreNodes nodes.old }
    requires lower { HasLowerOwner key }
    requires place { IsNameAt key.owner nodes.old index }
    ensures nodes { AreNodes nodes.new }
    ensures only { AddsNoOther key.owner nodes.old nodes.new }
    ensures first { (first : ℕ) → BeginsAt first nodes.old → BeginsAt first nodes.new }
    ensures names { (others : ℕ) → names.old ≡ (others + names_in nodes.old) % 2 ^ 64 → names.new ≡ (others + names_in nodes.new) % 2 ^ 64 }
    ensures value { IfOk result (λ before. before ≡ row_at key (all_rows nodes.old)) }
    ensures rows { OnOk result (all_rows nodes.new ≡ put_row key value (all_rows nodes.old)) }
    ensures none { OnErr result (all_rows nodes.new ≡ all_rows nodes.old) }
    ensures succeeds { (1 ≤ room_at nodes.old key.owner) ⊎ IsTrue (is_some (row_at key (all_rows nodes.old))) → IsOk result }
    ensures here { room_at nodes.old key.owner ≤ room_at nodes.new key.owner + 1 }
    ensures others { (name : Labels) → is_eq (name_cmp name key.owner) ≡ false → room_at nodes.old name ≤ room_at nodes.new name }
    ensures kept { IsTrue (is_some (row_at key (all_rows nodes.old))) → room_at nodes.old key.owner ≤ room_at nodes.new key.owner }
{
    let had = nodes[index].has_rows();
    let before = nodes[index].put(key, value);
    let has = nodes[index].has_rows();
    *names = names_now(*names, had, has);
    before
}

/// Gives a name that has no node one without rows, with room for so many keys.
pub(crate) fn add_name<V: Drop>(
    nodes: &mut Vec<Node<V>>,
    first: &mut u64,
    index: usize,
    owner: Name,
    keys: usize,
) -> Result<(), NoMemory>
    requires nodes { AreNodes nodes.old.items }
    requires lower { lower owner ≡ owner }
    requires first { BeginsAt first.old nodes.old.items }
    requires place { IsNameGap owner nodes.old.items index }
    ensures nodes { AreNodes nodes.new.items }
    ensures only { AddsNoOther owner nodes.old.items nodes.new.items }
    ensures first { BeginsAt first.new nodes.new.items }
    ensures place { OnOk result (IsNameAt owner nodes.new.items index) }
    ensures rows { all_rows nodes.new.items ≡ all_rows nodes.old.items }
    ensures room { OnOk result (keys ≤ room_at nodes.new.items owner) }
    ensures kept { (name : Labels) → room_at nodes.old.items name ≤ room_at nodes.new.items name }
{
    let node = Node::new(*nodes.allocator(), owner, keys)?;
    let number = first_with(*first, index, &node);
    nodes.insert(index, node)?;
    *first = number;
    Ok(())
}

/// Makes room for so many further keys of a name that has a node, where one of them has no row.
fn reserve_at<V: Drop>(
    nodes: &mut [Node<V>],
    index: usize,
    key: &Key,
    keys: usize,
) -> Result<(), NoMemory>
    requires nodes { AreNodes nodes.old }
    requires place { IsNameAt key.now.owner nodes.old index }
    ensures nodes { AreNodes nodes.new }
    ensures only { AddsNoOther key.now.owner nodes.old nodes.new }
    ensures first { (first : ℕ) → BeginsAt first nodes.old → BeginsAt first nodes.new }
    ensures rows { all_rows nodes.new ≡ all_rows nodes.old }
    ensures room { OnOk result (has_row nodes.old key.now ≡ false → keys ≤ room_at nodes.new key.now.owner) }
    ensures kept { (name : Labels) → room_at nodes.old name ≤ room_at nodes.new name }
{
    nodes[index].reserve_for(key, keys)
}

/// Takes out a key whose name has a node, and counts the name no longer where it has no rows then.
fn remove_at<V: Drop>(
    nodes: &mut [Node<V>],
    index: usize,
    key: &Key,
    names: &mut usize,
) -> Option<V>
    requires nodes { AreNodes nodes.old }
    requires place { IsNameAt key.now.owner nodes.old index }
    ensures nodes { AreNodes nodes.new }
    ensures only { AddsNoOther key.now.owner nodes.old nodes.new }
    ensures first { (first : ℕ) → BeginsAt first nodes.old → BeginsAt first nodes.new }
    ensures names { (others : ℕ) → names.old ≡ (others + names_in nodes.old) % 2 ^ 64 → names.new ≡ (others + names_in nodes.new) % 2 ^ 64 }
    ensures value { result ≡ row_at key.now (all_rows nodes.old) }
    ensures rows { all_rows nodes.new ≡ without_rows (same_key key.now) (all_rows nodes.old) }
    ensures room { (name : Labels) → room_at nodes.old name ≤ room_at nodes.new name }
    ensures freed { IsTrue (is_some (row_at key.now (all_rows nodes.old))) → room_at nodes.old key.now.owner + 1 ≤ room_at nodes.new key.now.owner }
{
    let had = nodes[index].has_rows();
    let removed = nodes[index].remove(key);
    let has = nodes[index].has_rows();
    *names = names_now(*names, had, has);
    removed
}

/// Takes a key out, and counts its name no longer where it has no rows then.
pub(crate) fn remove_in<V: Drop>(
    nodes: &mut Vec<Node<V>>,
    last: &mut usize,
    key: &Key,
    names: &mut usize,
) -> Option<V>
    requires nodes { AreNodes nodes.old.items }
    ensures nodes { AreNodes nodes.new.items }
    ensures only { AddsNoOther key.now.owner nodes.old.items nodes.new.items }
    ensures first { (first : ℕ) → BeginsAt first nodes.old.items → BeginsAt first nodes.new.items }
    ensures names { (others : ℕ) → names.old ≡ (others + names_in nodes.old.items) % 2 ^ 64 → names.new ≡ (others + names_in nodes.new.items) % 2 ^ 64 }
    ensures value { result ≡ row_at key.now (all_rows nodes.old.items) }
    ensures rows { all_rows nodes.new.items ≡ without_rows (same_key key.now) (all_rows nodes.old.items) }
    ensures room { (name : Labels) → room_at nodes.old.items name ≤ room_at nodes.new.items name }
    ensures freed { IsTrue (is_some (row_at key.now (all_rows nodes.old.items))) → room_at nodes.old.items key.now.owner + 1 ≤ room_at nodes.new.items key.now.owner }
{
    match search_near(nodes, last, &key.owner) {
        Ok(index) => remove_at(nodes, index, key, names),
        Err(_) => None,
    }
}

/// Makes room for so many further keys of a name where one of them has no row.
pub(crate) fn reserve_in<V: Drop>(
    nodes: &mut Vec<Node<V>>,
    first: &mut u64,
    last: &mut usize,
    key: &Key,
    keys: usize,
) -> Result<(), NoMemory>
    requires nodes { AreNodes nodes.old.items }
    requires lower { HasLowerOwner key.now }
    requires first { BeginsAt first.old nodes.old.items }
    ensures nodes { AreNodes nodes.new.items }
    ensures only { AddsNoOther key.now.owner nodes.old.items nodes.new.items }
    ensures first { BeginsAt first.new nodes.new.items }
    ensures rows { all_rows nodes.new.items ≡ all_rows nodes.old.items }
    ensures room { OnOk result (has_row nodes.old.items key.now ≡ false → keys ≤ room_at nodes.new.items key.now.owner) }
    ensures kept { (name : Labels) → room_at nodes.old.items name ≤ room_at nodes.new.items name }
{
    match search_near(nodes, last, &key.owner) {
        Ok(index) => reserve_at(nodes, index, key, keys),
        Err(index) => add_name(nodes, first, index, key.owner.copy()?, keys),
    }
}

/// Gives a key this value, and counts its name where it had no rows.
pub(crate) fn put_in<V: Drop>(
    nodes: &mut Vec<Node<V>>,
    first: &mut u64,
    last: &mut usize,
    key: Key,
    value: V,
    names: &mut usize,
) -> Result<Option<V>, NoMemory>
    requires nodes { AreNodes nodes.old.items }
    requires lower { HasLowerOwner key }
    requires first { BeginsAt first.old nodes.old.items }
    ensures nodes { AreNodes nodes.new.items }
    ensures only { AddsNoOther key.owner nodes.old.items nodes.new.items }
    ensures first { BeginsAt first.new nodes.new.items }
    ensures names { (others : ℕ) → names.old ≡ (others + names_in nodes.old.items) % 2 ^ 64 → names.new ≡ (others + names_in nodes.new.items) % 2 ^ 64 }
    ensures value { IfOk result (λ before. before ≡ row_at key (all_rows nodes.old.items)) }
    ensures rows { OnOk result (all_rows nodes.new.items ≡ put_row key value (all_rows nodes.old.items)) }
    ensures none { OnErr result (all_rows nodes.new.items ≡ all_rows nodes.old.items) }
    ensures succeeds { (1 ≤ room_at nodes.old.items key.owner) ⊎ IsTrue (is_some (row_at key (all_rows nodes.old.items))) → IsOk result }
    ensures here { room_at nodes.old.items key.owner ≤ room_at nodes.new.items key.owner + 1 }
    ensures others { (name : Labels) → is_eq (name_cmp name key.owner) ≡ false → room_at nodes.old.items name ≤ room_at nodes.new.items name }
    ensures kept { IsTrue (is_some (row_at key (all_rows nodes.old.items))) → room_at nodes.old.items key.owner ≤ room_at nodes.new.items key.owner }
{
    match search_near(nodes, last, &key.owner) {
        Ok(index) => put_at(nodes, index, key, value, names),
        Err(index) => {
            add_name(nodes, first, index, key.owner.copy()?, 1)?;
            put_at(nodes, index, key, value, names)
        }
    }
}

/// Gives back the nodes without rows, and the room in them.
pub(crate) fn drop_empty<V: Drop>(nodes: &mut Vec<Node<V>>)
    ensures { nodes.new.items ≡ filter has_rows nodes.old.items }
{
    nodes.retain(|node| node.has_rows());
    nodes.shrink_to_fit();
}
