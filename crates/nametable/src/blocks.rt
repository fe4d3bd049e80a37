//! All names with their rows, in blocks one behind the other.

ghost use Rattle.std.specs.Prelude.{◌≡◌, get_or, ◌≤◌, ◌<◌, ◌+◌, ◌%◌, ◌^◌, ◌⊎◌, [], false, length, map, IfOk, IsOk, OnOk, OnErr, IsTrue, is_some, Some, None, MatchOption};
ghost use Rattle.std.specs.Ordering.{is_eq};
ghost use Rattle.std.specs.List.{filter};
ghost use Rattle.dnsname.specs.Names.{Labels, lower};
ghost use Rattle.rrset.specs.Records.{same_key};
ghost use Rattle.rrset.specs.KeyedRows.{put_row, without_rows, row_at};
ghost use Rattle.rrset.specs.Tables.{HasLowerOwner};
ghost use Rattle.nametable.specs.FirstOctets.{HasFirst};
ghost use Rattle.nametable.specs.Nodes.{AreAlike, all_rows, has_row, has_rows, name_cmp, names_in, room_at, table_at};
ghost use Rattle.nametable.specs.Blocks.{AreBlocks, AreFilled, IsBehind, IsBlockOf, nodes_in};

use crate::block::Block;
use crate::node::{table_for, table_of};
use crate::order::{first_of, first_of_lower};
use dnsname::Name;
use rrset::{Copied, Key, NoMemory, Table};

/// Whether there is no block at a place, or one that begins behind a name, whose first octets have this number.
fn is_behind<V: Drop>(blocks: &[Block<V>], place: usize, first: u64, name: &Name) -> bool
    ensures { IsTrue result → HasFirst first name.now → IsBehind name.now blocks.now place }
{
    if place >= blocks.len() {
        return true;
    }
    !blocks[place].begins_by(first, name)
}

/// Whether a name, whose first octets have this number, is known to stand in the block at a place, if anywhere.
fn is_block_of<V: Drop>(blocks: &[Block<V>], place: usize, first: u64, name: &Name) -> bool
    requires { AreBlocks blocks.now }
    ensures { IsTrue result → HasFirst first name.now → IsBlockOf name.now blocks.now place }
{
    if place >= blocks.len() {
        return false;
    }
    if !blocks[place].begins_by(first, name) {
        return false;
    }
    is_behind(blocks, place + 1, first, name)
}

/// The block of a name. It is looked for first where the last one was, as most names are that one again.
fn block_of<V: Drop>(blocks: &[Block<V>], last: usize, name: &Name) -> usize
    requires blocks { AreBlocks blocks.now }
    requires some { 0 < length blocks.now }
    ensures { IsBlockOf name.now blocks.now result }
{
    let first = first_of(name);
    if is_block_of(blocks, last, first, name) {
        return last;
    }
    let count = blocks.partition_point(|block| block.begins_by(first, name));
    count.saturating_sub(1)
}

/// As `is_behind`, of a name in lower case, whose first octets have this number there.
fn is_behind_lower<V: Drop>(blocks: &[Block<V>], place: usize, first: u64, name: &Name) -> bool
    ensures { IsTrue result → HasFirst first (lower name.now) → IsBehind (lower name.now) blocks.now place }
{
    if place >= blocks.len() {
        return true;
    }
    !blocks[place].begins_by_lower(first, name)
}

/// As `is_block_of`, of a name in lower case, whose first octets have this number there.
fn is_block_of_lower<V: Drop>(blocks: &[Block<V>], place: usize, first: u64, name: &Name) -> bool
    requires { AreBlocks blocks.now }
    ensures { IsTrue result → HasFirst first (lower name.now) → IsBlockOf (lower name.now) blocks.now place }
{
    if place >= blocks.len() {
        return false;
    }
    if !blocks[place].begins_by_lower(first, name) {
        return false;
    }
    is_behind_lower(blocks, place + 1, first, name)
}

/// The block of a name in lower case, whose first octets have this number there. It is looked for first where the last
/// one was.
fn block_of_lower<V: Drop>(blocks: &[Block<V>], last: usize, first: u64, name: &Name) -> usize
    requires blocks { AreBlocks blocks.now }
    requires first { HasFirst first (lower name.now) }
    requires some { 0 < length blocks.now }
    ensures { IsBlockOf (lower name.now) blocks.now result }
{
    if is_block_of_lower(blocks, last, first, name) {
        return last;
    }
    let count = blocks.partition_point(|block| block.begins_by_lower(first, name));
    count.saturating_sub(1)
}

/// The table of a key's owner.
pub(crate) fn table_for_in_blocks<'a, V: Drop>(
    blocks: &'a [Block<V>],
    last: usize,
    key: &Key,
) -> Option<&'a Table<V>>
    requires { AreBlocks blocks.now }
    ensures { MatchOption result (table_at key.now.owner (nodes_in blocks.now) ≡ None) (λ table. table_at key.now.owner (nodes_in blocks.now) ≡ Some table.now) }
{
    if blocks.is_empty() {
        return None;
    }
    let place = block_of(blocks, last, &key.owner);
    table_for(blocks[place].nodes(), blocks[place].last(), key)
}

/// The table of a name.
pub(crate) fn table_of_in_blocks<'a, V: Drop>(
    blocks: &'a [Block<V>],
    last: usize,
    name: &Name,
) -> Option<&'a Table<V>>
    requires { AreBlocks blocks.now }
    ensures { MatchOption result (table_at (lower name.now) (nodes_in blocks.now) ≡ None) (λ table. table_at (lower name.now) (nodes_in blocks.now) ≡ Some table.now) }
{
    if blocks.is_empty() {
        return None;
    }
    let first = first_of_lower(name);
    let place = block_of_lower(blocks, last, first, name);
    table_of(blocks[place].nodes(), blocks[place].last(), first, name)
}

/// Looks for a name in lower case, whose first octets have this number there, in its block, which remembers where it
/// is.
fn look_in_block<V: Drop>(blocks: &mut [Block<V>], place: usize, first: u64, name: &Name)
    requires blocks { AreBlocks blocks.old }
    requires first { HasFirst first (lower name.now) }
    requires place { IsBlockOf (lower name.now) blocks.old place }
    ensures { blocks.new ≡ blocks.old }
{
    blocks[place].look_for(first, name)
}

/// Looks for a name in lower case, and remembers its block and where it is there.
pub(crate) fn look_in_blocks<V: Drop>(blocks: &mut [Block<V>], last: &mut usize, name: &Name)
    requires { AreBlocks blocks.old }
    ensures { blocks.new ≡ blocks.old }
{
    if blocks.is_empty() {
        return;
    }
    let first = first_of_lower(name);
    let place = block_of_lower(blocks, *last, first, name);
    *last = place;
    look_in_block(blocks, place, first, name);
}

/// Gives a key this value in the block of its name, and counts the name where it had no rows.
fn put_in_block<V: Drop>(
    blocks: &mut [Block<V>],
    place: usize,
    key: Key,
    value: V,
    names: &mut usize,
) -> Result<Option<V>, NoMemory>
    requires blocks { AreBlocks blocks.old }
    requires lower { HasLowerOwner key }
    requires place { IsBlockOf key.owner blocks.old place }
    requires names { names.old ≡ names_in (nodes_in blocks.old) % 2 ^ 64 }
    ensures blocks { AreBlocks blocks.new }
    ensures place { place < length blocks.new }
    ensures names { names.new ≡ names_in (nodes_in blocks.new) % 2 ^ 64 }
    ensures value { IfOk result (λ before. before ≡ row_at key (all_rows (nodes_in blocks.old))) }
    ensures rows { OnOk result (all_rows (nodes_in blocks.new) ≡ put_row key value (all_rows (nodes_in blocks.old))) }
    ensures none { OnErr result (all_rows (nodes_in blocks.new) ≡ all_rows (nodes_in blocks.old)) }
    ensures succeeds { (1 ≤ room_at (nodes_in blocks.old) key.owner) ⊎ IsTrue (is_some (row_at key (all_rows (nodes_in blocks.old)))) → IsOk result }
    ensures here { room_at (nodes_in blocks.old) key.owner ≤ room_at (nodes_in blocks.new) key.owner + 1 }
    ensures others { (name : Labels) → is_eq (name_cmp name key.owner) ≡ false → room_at (nodes_in blocks.old) name ≤ room_at (nodes_in blocks.new) name }
    ensures kept { IsTrue (is_some (row_at key (all_rows (nodes_in blocks.old)))) → room_at (nodes_in blocks.old) key.owner ≤ room_at (nodes_in blocks.new) key.owner }
{
    blocks[place].put(key, value, names)
}

/// Takes a key out of the block of its name, and counts the name no longer where it has no rows then.
fn remove_in_block<V: Drop>(
    blocks: &mut [Block<V>],
    place: usize,
    key: &Key,
    names: &mut usize,
) -> Option<V>
    requires blocks { AreBlocks blocks.old }
    requires place { IsBlockOf key.now.owner blocks.old place }
    requires names { names.old ≡ names_in (nodes_in blocks.old) % 2 ^ 64 }
    ensures blocks { AreBlocks blocks.new }
    ensures names { names.new ≡ names_in (nodes_in blocks.new) % 2 ^ 64 }
    ensures value { result ≡ row_at key.now (all_rows (nodes_in blocks.old)) }
    ensures rows { all_rows (nodes_in blocks.new) ≡ without_rows (same_key key.now) (all_rows (nodes_in blocks.old)) }
    ensures room { (name : Labels) → room_at (nodes_in blocks.old) name ≤ room_at (nodes_in blocks.new) name }
    ensures freed { IsTrue (is_some (row_at key.now (all_rows (nodes_in blocks.old)))) → room_at (nodes_in blocks.old) key.now.owner + 1 ≤ room_at (nodes_in blocks.new) key.now.owner }
{
    blocks[place].remove(key, names)
}

/// Makes room for so many further keys of a name in its block, where one of them has no row.
fn reserve_in_block<V: Drop>(
    blocks: &mut [Block<V>],
    place: usize,
    key: &Key,
    keys: usize,
) -> Result<(), NoMemory>
    requires blocks { AreBlocks blocks.old }
    requires lower { HasLowerOwner key.now }
    requires place { IsBlockOf key.now.owner blocks.old place }
    ensures blocks { AreBlocks blocks.new }
    ensures place { place < length blocks.new }
    ensures rows { all_rows (nodes_in blocks.new) ≡ all_rows (nodes_in blocks.old) }
    ensures room { OnOk result (has_row (nodes_in blocks.old) key.now ≡ false → keys ≤ room_at (nodes_in blocks.new) key.now.owner) }
    ensures kept { (name : Labels) → room_at (nodes_in blocks.old) name ≤ room_at (nodes_in blocks.new) name }
{
    blocks[place].reserve(key, keys)
}

/// Makes a block of a name where there is no block.
fn begin<V: Drop>(blocks: &mut Vec<Block<V>>, owner: &Name) -> Result<(), NoMemory>
    requires blocks { AreBlocks blocks.old.items }
    requires lower { lower owner.now ≡ owner.now }
    ensures blocks { AreBlocks blocks.new.items }
    ensures rows { all_rows (nodes_in blocks.new.items) ≡ all_rows (nodes_in blocks.old.items) }
    ensures kept { (name : Labels) → room_at (nodes_in blocks.old.items) name ≤ room_at (nodes_in blocks.new.items) name }
    ensures some { OnOk result (0 < length blocks.new.items) }
    ensures none { OnErr result (blocks.old.items ≡ []) }
{
    if !blocks.is_empty() {
        return Ok(());
    }
    let block = Block::of_name(*blocks.allocator(), owner.copy()?)?;
    blocks.push(block)?;
    Ok(())
}

/// Cuts a block in two.
fn cut_block<V: Drop>(blocks: &mut Vec<Block<V>>, place: usize) -> Result<(), NoMemory>
    requires blocks { AreBlocks blocks.old.items }
    requires place { place < length blocks.old.items }
    requires two { 2 ≤ length (get_or blocks.old.items place []) }
    ensures nodes { nodes_in blocks.new.items ≡ nodes_in blocks.old.items }
    ensures filled { AreFilled blocks.new.items }
{
    blocks.reserve(1)?;
    let behind = blocks[place].cut()?;
    match blocks.insert(place + 1, behind) {
        Ok(()) => Ok(()),
        Err(_) => unreachable!(),
    }
}

/// Cuts a block in two where it is full and there is memory for it.
fn keep_small<V: Drop>(blocks: &mut Vec<Block<V>>, place: usize)
    requires blocks { AreBlocks blocks.old.items }
    requires place { place < length blocks.old.items }
    ensures nodes { nodes_in blocks.new.items ≡ nodes_in blocks.old.items }
    ensures filled { AreFilled blocks.new.items }
{
    if !blocks[place].is_full() {
        return;
    }
    let _ = cut_block(blocks, place);
}

/// Gives a key this value, and counts its name where it had no rows.
pub(crate) fn put_in_blocks<V: Drop>(
    blocks: &mut Vec<Block<V>>,
    last: &mut usize,
    key: Key,
    value: V,
    names: &mut usize,
) -> Result<Option<V>, NoMemory>
    requires blocks { AreBlocks blocks.old.items }
    requires lower { HasLowerOwner key }
    requires names { names.old ≡ names_in (nodes_in blocks.old.items) % 2 ^ 64 }
    ensures blocks { AreBlocks blocks.new.items }
    ensures names { names.new ≡ names_in (nodes_in blocks.new.items) % 2 ^ 64 }
    ensures value { IfOk result (λ before. before ≡ row_at key (all_rows (nodes_in blocks.old.items))) }
    ensures rows { OnOk result (all_rows (nodes_in blocks.new.items) ≡ put_row key value (all_rows (nodes_in blocks.old.items))) }
    ensures none { OnErr result (all_rows (nodes_in blocks.new.items) ≡ all_rows (nodes_in blocks.old.items)) }
    ensures succeeds { (1 ≤ room_at (nodes_in blocks.old.items) key.owner) ⊎ IsTrue (is_some (row_at key (all_rows (nodes_in blocks.old.items)))) → IsOk result }
    ensures here { room_at (nodes_in blocks.old.items) key.owner ≤ room_at (nodes_in blocks.new.items) key.owner + 1 }
    ensures others { (name : Labels) → is_eq (name_cmp name key.owner) ≡ false → room_at (nodes_in blocks.old.items) name ≤ room_at (nodes_in blocks.new.items) name }
    ensures kept { IsTrue (is_some (row_at key (all_rows (nodes_in blocks.old.items)))) → room_at (nodes_in blocks.old.items) key.owner ≤ room_at (nodes_in blocks.new.items) key.owner }
{
    begin(blocks, &key.owner)?;
    let place = block_of(blocks, *last, &key.owner);
    *last = place;
    let before = put_in_block(blocks, place, key, value, names);
    keep_small(blocks, place);
    before
}

/// Takes a key out, and counts its name no longer where it has no rows then.
pub(crate) fn remove_in_blocks<V: Drop>(
    blocks: &mut Vec<Block<V>>,
    last: &mut usize,
    key: &Key,
    names: &mut usize,
) -> Option<V>
    requires blocks { AreBlocks blocks.old.items }
    requires names { names.old ≡ names_in (nodes_in blocks.old.items) % 2 ^ 64 }
    ensures blocks { AreBlocks blocks.new.items }
    ensures names { names.new ≡ names_in (nodes_in blocks.new.items) % 2 ^ 64 }
    ensures value { result ≡ row_at key.now (all_rows (nodes_in blocks.old.items)) }
    ensures rows { all_rows (nodes_in blocks.new.items) ≡ without_rows (same_key key.now) (all_rows (nodes_in blocks.old.items)) }
    ensures room { (name : Labels) → room_at (nodes_in blocks.old.items) name ≤ room_at (nodes_in blocks.new.items) name }
    ensures freed { IsTrue (is_some (row_at key.now (all_rows (nodes_in blocks.old.items)))) → room_at (nodes_in blocks.old.items) key.now.owner + 1 ≤ room_at (nodes_in blocks.new.items) key.now.owner }
{
    if blocks.is_empty() {
        return None;
    }
    let place = block_of(blocks, *last, &key.owner);
    *last = place;
    remove_in_block(blocks, place, key, names)
}

/// Makes room for so many further keys of a name where one of them has no row.
pub(crate) fn reserve_in_blocks<V: Drop>(
    blocks: &mut Vec<Block<V>>,
    last: &mut usize,
    key: &Key,
    keys: usize,
) -> Result<(), NoMemory>
    requires blocks { AreBlocks blocks.old.items }
    requires lower { HasLowerOwner key.now }
    ensures blocks { AreBlocks blocks.new.items }
    ensures rows { all_rows (nodes_in blocks.new.items) ≡ all_rows (nodes_in blocks.old.items) }
    ensures room { OnOk result (has_row (nodes_in blocks.old.items) key.now ≡ false → keys ≤ room_at (nodes_in blocks.new.items) key.now.owner) }
    ensures kept { (name : Labels) → room_at (nodes_in blocks.old.items) name ≤ room_at (nodes_in blocks.new.items) name }
{
    begin(blocks, &key.owner)?;
    let place = block_of(blocks, *last, &key.owner);
    *last = place;
    let made = reserve_in_block(blocks, place, key, keys);
    keep_small(blocks, place);
    made
}

/// How many names stand in blocks, modulo 2^64.
pub(crate) fn names_in_blocks<V: Drop>(blocks: &[Block<V>]) -> usize {
    let mut names = 0_usize;
    'blocks: for block in blocks {
        names = names.wrapping_add(block.nodes().len());
    }
    names
}

/// Gives back the names without rows of each block.
fn empty_blocks<V: Drop>(blocks: &mut [Block<V>])
    ensures { blocks.new ≡ map (filter has_rows) blocks.old }
{
    'blocks: for place in 0..blocks.len() {
        blocks[place].drop_empty();
    }
}

/// Gives back the names without rows, and the room in them.
pub(crate) fn drop_empty_blocks<V: Drop>(blocks: &mut Vec<Block<V>>)
    ensures nodes { nodes_in blocks.new.items ≡ filter has_rows (nodes_in blocks.old.items) }
    ensures filled { AreFilled blocks.new.items }
{
    empty_blocks(blocks);
    blocks.retain(|block| block.is_filled());
}

/// Blocks with the same names and rows.
pub(crate) fn copied_blocks<V: Copied + Drop>(
    blocks: &Vec<Block<V>>,
) -> Result<Vec<Block<V>>, NoMemory>
    requires { AreFilled blocks.now.items }
    ensures alike { IfOk result (λ copies. AreAlike (nodes_in copies.items) (nodes_in blocks.now.items)) }
    ensures filled { IfOk result (λ copies. AreFilled copies.items) }
{
    let alloc = *blocks.allocator();
    let mut copies = Vec::with_capacity(alloc, blocks.len())?;
    'blocks: for block in blocks {
        let copy = block.copy()?;
        copies.push(copy)?;
    }
    Ok(copies)
}
