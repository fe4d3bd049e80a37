//! A list in full blocks, in which a change moves one entry a block.

ghost use Rattle.std.specs.Prelude.{◌≡◌, ◌≤◌, ◌<◌, ◌+◌, ◌-◌, ◌*◌, ◌/◌, ◌^◌, [], length, max, nat_lt, OnOk, slice_index_or};
ghost use Rattle.std.specs.List.{insert, remove};
ghost use Rattle.clockqueue.specs.Tiers.{HasHole, IsTier, MovesOne, joined, size_at};

use crate::NoMemory;
use crate::block::{Block, PLACES};
use std::alloc::Global;
use std::marker::Model;

/// No more blocks are made, so that numbers of entries can be added.
const MOST_BLOCKS: usize = 1 << 48;

/// A list in blocks of one size: all are full up to where the list ends, and empty behind it. Where an entry comes or
/// goes, those of its block move, and one of each block behind it.
#[derive(Debug, Drop)]
pub(crate) struct Blocks<T> {
    blocks: Vec<Block<T>>,
    len: usize,
}

impl<T> Model for Blocks<T> {
    ghost use Rattle.std.specs.Prelude.{◌*◌, ◌-◌, ◌^◌, ◌≤◌, length};
    ghost use Rattle.clockqueue.specs.Tiers.{TierState, IsTier, joined};

    ghost Value = { TierState T };

    ghost view = { λ t. record { items = joined t.blocks.items; spare = 1024 * length t.blocks.items - t.len } };

    ghost invariant = { λ t. IsTier t.len t.blocks.items × (length t.blocks.items ≤ 2 ^ 48) };
}

/// The first entry of the block behind this one becomes its last.
fn pull<T: Drop>(blocks: &mut [Block<T>], hole: usize)
    requires within { hole + 1 < length blocks.old }
    requires room { size_at blocks.old hole < 1024 }
    requires some { 0 < size_at blocks.old (hole + 1) }
    ensures { MovesOne (hole + 1) hole blocks.old blocks.new }
{
    let next = hole + 1;
    let entry = blocks[next].take_first();
    blocks[hole].put_last(entry);
}

/// The last entry of this block becomes the first of the one behind it.
fn push<T: Drop>(blocks: &mut [Block<T>], full: usize)
    requires within { full + 1 < length blocks.old }
    requires some { 0 < size_at blocks.old full }
    requires room { size_at blocks.old (full + 1) < 1024 }
    ensures { MovesOne full (full + 1) blocks.old blocks.new }
{
    let next = full + 1;
    let entry = blocks[full].take_last();
    blocks[next].put_first(entry);
}

/// Fills a hole from behind it, so that the last block of `len` entries lacks one.
fn pull_all<T: Drop>(blocks: &mut [Block<T>], hole: usize, len: usize)
    requires hole { HasHole len hole blocks.old }
    ensures items { joined blocks.new ≡ joined blocks.old }
    ensures tier { IsTier (len - 1) blocks.new }
    ensures count { length blocks.new ≡ length blocks.old }
{
    let last = (len - 1) / PLACES;
    'holes: for place in hole..last {
        pull(blocks, place);
    }
}

/// Makes a hole in a block, where there are to be `len` entries.
fn push_all<T: Drop>(blocks: &mut [Block<T>], hole: usize, len: usize)
    requires tier { IsTier (len - 1) blocks.old }
    requires within { len ≤ 1024 * length blocks.old }
    requires below { 1024 * hole < len }
    ensures items { joined blocks.new ≡ joined blocks.old }
    ensures hole { HasHole len hole blocks.new }
    ensures count { length blocks.new ≡ length blocks.old }
{
    let mut full = (len - 1) / PLACES;
    'holes: while full > hole {
        full -= 1;
        push(blocks, full);
    }
}

/// Takes an entry out of its block.
fn take_from<T: Drop>(blocks: &mut [Block<T>], number: usize, len: usize) -> T
    requires tier { IsTier len blocks.old }
    requires within { number < len }
    ensures value { result ≡ slice_index_or (joined blocks.old) number result }
    ensures items { joined blocks.new ≡ remove (joined blocks.old) number }
    ensures hole { HasHole len (number / 1024) blocks.new }
    ensures count { length blocks.new ≡ length blocks.old }
{
    let place = number / PLACES;
    blocks[place].remove(number % PLACES)
}

/// Puts an entry into a block that lacks one.
fn put_into<T: Drop>(blocks: &mut [Block<T>], number: usize, len: usize, entry: T)
    requires hole { HasHole len (number / 1024) blocks.old }
    requires within { number < len }
    ensures items { joined blocks.new ≡ insert (joined blocks.old) number entry }
    ensures tier { IsTier len blocks.new }
    ensures count { length blocks.new ≡ length blocks.old }
{
    let place = number / PLACES;
    blocks[place].insert(number % PLACES, entry);
}

/// Puts an entry before that with a number, where there are to be `len`.
fn insert_into<T: Drop>(blocks: &mut [Block<T>], number: usize, len: usize, entry: T)
    requires tier { IsTier (len - 1) blocks.old }
    requires room { len ≤ 1024 * length blocks.old }
    requires within { number < len }
    ensures items { joined blocks.new ≡ insert (joined blocks.old) number entry }
    ensures tier { IsTier len blocks.new }
    ensures count { length blocks.new ≡ length blocks.old }
{
    push_all(blocks, number / PLACES, len);
    put_into(blocks, number, len, entry);
}

/// Takes out the entry with a number.
fn take_out<T: Drop>(blocks: &mut [Block<T>], number: usize, len: usize) -> T
    requires tier { IsTier len blocks.old }
    requires within { number < len }
    ensures value { result ≡ slice_index_or (joined blocks.old) number result }
    ensures items { joined blocks.new ≡ remove (joined blocks.old) number }
    ensures tier { IsTier (len - 1) blocks.new }
    ensures count { length blocks.new ≡ length blocks.old }
{
    let entry = take_from(blocks, number, len);
    pull_all(blocks, number / PLACES, len);
    entry
}

/// The entry with a number.
fn entry_at<T: Drop>(blocks: &[Block<T>], number: usize, len: usize) -> &T
    requires tier { IsTier len blocks.now }
    requires within { number < len }
    ensures { result.now ≡ slice_index_or (joined blocks.now) number result.now }
{
    let place = number / PLACES;
    blocks[place].at(number % PLACES)
}

/// One more empty block.
fn add_block<T: Drop>(blocks: &mut Vec<Block<T>>, len: usize) -> Result<(), NoMemory>
    requires tier { IsTier len blocks.old.items }
    ensures items { joined blocks.new.items ≡ joined blocks.old.items }
    ensures tier { IsTier len blocks.new.items }
    ensures kept { length blocks.old.items ≤ length blocks.new.items }
    ensures most { length blocks.new.items ≤ length blocks.old.items + 1 }
    ensures one { OnOk result (length blocks.new.items ≡ length blocks.old.items + 1) }
{
    let block = Block::new(*blocks.allocator())?;
    blocks.push(block)?;
    Ok(())
}

/// Empty blocks until there are so many in all.
fn add_blocks<T: Drop>(blocks: &mut Vec<Block<T>>, len: usize, count: usize) -> Result<(), NoMemory>
    requires tier { IsTier len blocks.old.items }
    ensures items { joined blocks.new.items ≡ joined blocks.old.items }
    ensures tier { IsTier len blocks.new.items }
    ensures kept { length blocks.old.items ≤ length blocks.new.items }
    ensures most { length blocks.new.items ≤ max (length blocks.old.items) count }
    ensures enough { OnOk result (count ≤ length blocks.new.items) }
{
    'numbers: while blocks.len() < count {
        add_block(blocks, len)?;
    }
    Ok(())
}

impl<T: Drop> Blocks<T> {
    /// No entries.
    pub(crate) fn new(alloc: Global) -> Self
        ensures { result.items ≡ [] }
    {
        Blocks {
            blocks: Vec::new(alloc),
            len: 0,
        }
    }

    /// How many entries there are.
    pub(crate) fn len(&self) -> usize
        ensures length { result ≡ length self.now.items }
        ensures bound { result ≤ 2 ^ 59 }
    {
        self.len
    }

    /// Whether there is room for one more.
    pub(crate) fn has_room(&self) -> bool
        ensures { result ≡ nat_lt 0 self.now.spare }
    {
        self.len / PLACES < self.blocks.len()
    }

    /// The entry with a number.
    pub(crate) fn at(&self, number: usize) -> &T
        requires { number < length self.now.items }
        ensures { result.now ≡ slice_index_or self.now.items number result.now }
    {
        entry_at(&self.blocks, number, self.len)
    }

    /// Makes room for so many further entries.
    pub(crate) fn reserve(&mut self, entries: usize) -> Result<(), NoMemory>
        ensures items { self.new.items ≡ self.old.items }
        ensures room { OnOk result (entries ≤ self.new.spare) }
        ensures kept { self.old.spare ≤ self.new.spare }
    {
        let rest = self.len % PLACES + entries % PLACES + (PLACES - 1);
        let count = self.len / PLACES + entries / PLACES + rest / PLACES;
        if count > MOST_BLOCKS {
            return Err(NoMemory);
        }
        add_blocks(&mut self.blocks, self.len, count)
    }

    /// Puts an entry before that with a number, or behind all.
    pub(crate) fn insert(&mut self, number: usize, entry: T)
        requires within { number ≤ length self.old.items }
        requires room { 1 ≤ self.old.spare }
        ensures items { self.new.items ≡ insert self.old.items number entry }
        ensures room { self.new.spare + 1 ≡ self.old.spare }
    {
        let len = self.len + 1;
        insert_into(&mut self.blocks, number, len, entry);
        self.len = len;
    }

    /// Takes out the entry with a number.
    pub(crate) fn remove(&mut self, number: usize) -> T
        requires { number < length self.old.items }
        ensures value { result ≡ slice_index_or self.old.items number result }
        ensures items { self.new.items ≡ remove self.old.items number }
        ensures room { self.new.spare ≡ self.old.spare + 1 }
    {
        let entry = take_out(&mut self.blocks, number, self.len);
        self.len -= 1;
        entry
    }
}
