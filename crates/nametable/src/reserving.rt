//! Room for the keys of a plan.

ghost use Rattle.std.specs.Prelude.{◌≡◌, ◌≤◌, ◌<◌, ◌&&◌, false, IsTrue, OnOk, is_some, length};
ghost use Rattle.std.specs.List.{AllByRecursion, filter};
ghost use Rattle.std.specs.Ordering.{is_eq};
ghost use Rattle.dnsname.specs.Names.{Labels, lower};
ghost use Rattle.rrset.specs.Tables.{HasLowerOwner, HaveLowerOwners};
ghost use Rattle.nametable.specs.Blocks.{AreBlocks, nodes_in};
ghost use Rattle.nametable.specs.Nodes.{HasRoomFor, HaveRisingKeys, all_rows, count_at, has_row, keys_of, keys_put, name_cmp, room_at};

use crate::block::Block;
use crate::blocks::reserve_in_blocks;
use crate::order::compare_names;
use dnsname::Name;
use rrset::{Changed, Key, NoMemory, Table};

/// So many changes are few.
const FEW: usize = 4;

/// The changes at keys of an owner, which stand together.
fn changes_of<'a>(changed: &'a [Changed], owner: &Name) -> &'a [Changed]
    requires { HaveRisingKeys changed.now }
    ensures { result.now ≡ filter (λ c. is_eq (name_cmp owner.now c.key.owner)) changed.now }
{
    let begin = changed.partition_point(|change| compare_names(&change.key.owner, owner).is_lt());
    let (_, rest) = changed.split_at(begin);
    let count = rest.partition_point(|change| compare_names(&change.key.owner, owner).is_le());
    let (found, _) = rest.split_at(count);
    found
}

/// How many of some changes put something.
fn puts_among(changed: &[Changed]) -> usize
    ensures { result ≡ length (filter (λ c. is_some c.after) changed.now) }
{
    let mut count = 0;
    'changes: for change in changed {
        if change.after.is_some() {
            count += 1;
        }
    }
    count
}

/// Whether a change puts a key of an owner.
fn puts_at(change: &Changed, owner: &Name) -> bool
    ensures { result ≡ (is_some change.now.after && is_eq (name_cmp owner.now change.now.key.owner)) }
{
    change.after.is_some() && compare_names(owner, &change.key.owner).is_eq()
}

/// How many changes put a key of an owner, each looked at.
fn puts_of(changed: &[Changed], owner: &Name) -> usize
    ensures { result ≡ length (filter (λ c. is_some c.after && is_eq (name_cmp owner.now c.key.owner)) changed.now) }
{
    changed
        .iter()
        .filter(|change| puts_at(change, owner))
        .count()
}

/// How many keys of an owner are put.
fn keys_of(changed: &[Changed], owner: &Name) -> usize
    requires { HaveRisingKeys changed.now }
    ensures { result ≡ count_at owner.now (keys_put changed.now) }
{
    // Few are looked at one by one, which takes less than a search.
    if changed.len() <= FEW {
        return puts_of(changed, owner);
    }
    puts_among(changes_of(changed, owner))
}

/// Makes room for the keys that changes put at the owner of one of them, where this one puts something at a key that
/// has no row.
fn reserve_for_one<V: Drop>(
    blocks: &mut Vec<Block<V>>,
    last: &mut usize,
    changed: &[Changed],
    change: &Changed,
) -> Result<(), NoMemory>
    requires blocks { AreBlocks blocks.old.items }
    requires lower { HasLowerOwner change.now.key }
    requires order { HaveRisingKeys changed.now }
    ensures blocks { AreBlocks blocks.new.items }
    ensures rows { all_rows (nodes_in blocks.new.items) ≡ all_rows (nodes_in blocks.old.items) }
    ensures room { OnOk result (IsTrue (is_some change.now.after) → has_row (nodes_in blocks.old.items) change.now.key ≡ false → count_at change.now.key.owner (keys_put changed.now) ≤ room_at (nodes_in blocks.new.items) change.now.key.owner) }
    ensures kept { (name : Labels) → room_at (nodes_in blocks.old.items) name ≤ room_at (nodes_in blocks.new.items) name }
{
    if change.after.is_none() {
        return Ok(());
    }
    let keys = keys_of(changed, &change.key.owner);
    reserve_in_blocks(blocks, last, &change.key, keys)
}

/// Makes room, at each name where changes put a key that has no row, for all keys that they put there.
pub(crate) fn reserve_all<V: Drop>(
    blocks: &mut Vec<Block<V>>,
    last: &mut usize,
    changed: &[Changed],
) -> Result<(), NoMemory>
    requires blocks { AreBlocks blocks.old.items }
    requires lower { AllByRecursion (λ c. HasLowerOwner c.key) changed.now }
    requires order { HaveRisingKeys changed.now }
    ensures blocks { AreBlocks blocks.new.items }
    ensures rows { all_rows (nodes_in blocks.new.items) ≡ all_rows (nodes_in blocks.old.items) }
    ensures room { OnOk result (HasRoomFor (keys_put changed.now) (nodes_in blocks.new.items)) }
    ensures kept { (name : Labels) → room_at (nodes_in blocks.old.items) name ≤ room_at (nodes_in blocks.new.items) name }
{
    'changes: for change in changed {
        reserve_for_one(blocks, last, changed, change)?;
    }
    Ok(())
}

/// How many rows of a table have this owner.
fn rows_at<V: Drop>(rows: &Table<V>, owner: &Name) -> usize
    requires rows { HaveLowerOwners rows.now.rows }
    requires owner { lower owner.now ≡ owner.now }
    ensures { result ≡ count_at owner.now (keys_of rows.now.rows) }
{
    rows.at(owner).len()
}

/// Makes room for the keys of a table at the owner of one of them, where this one has no row.
fn reserve_for_row<V: Drop>(
    blocks: &mut Vec<Block<V>>,
    last: &mut usize,
    rows: &Table<V>,
    key: &Key,
) -> Result<(), NoMemory>
    requires blocks { AreBlocks blocks.old.items }
    requires rows { HaveLowerOwners rows.now.rows }
    requires lower { HasLowerOwner key.now }
    ensures blocks { AreBlocks blocks.new.items }
    ensures rows { all_rows (nodes_in blocks.new.items) ≡ all_rows (nodes_in blocks.old.items) }
    ensures room { OnOk result (has_row (nodes_in blocks.old.items) key.now ≡ false → count_at key.now.owner (keys_of rows.now.rows) ≤ room_at (nodes_in blocks.new.items) key.now.owner) }
    ensures kept { (name : Labels) → room_at (nodes_in blocks.old.items) name ≤ room_at (nodes_in blocks.new.items) name }
{
    let keys = rows_at(rows, &key.owner);
    reserve_in_blocks(blocks, last, key, keys)
}

/// Makes room, at each name where a key of a table has no row, for all keys of it there.
pub(crate) fn reserve_rows<V: Drop>(
    blocks: &mut Vec<Block<V>>,
    last: &mut usize,
    rows: &Table<V>,
) -> Result<(), NoMemory>
    requires blocks { AreBlocks blocks.old.items }
    ensures blocks { AreBlocks blocks.new.items }
    ensures rows { all_rows (nodes_in blocks.new.items) ≡ all_rows (nodes_in blocks.old.items) }
    ensures room { OnOk result (HasRoomFor (keys_of rows.now.rows) (nodes_in blocks.new.items)) }
    ensures kept { (name : Labels) → room_at (nodes_in blocks.old.items) name ≤ room_at (nodes_in blocks.new.items) name }
{
    'rows: for (key, _) in rows.entries() {
        reserve_for_row(blocks, last, rows, key)?;
    }
    Ok(())
}
