//! A block of a tier: a short queue that has all its room from the start.

ghost use Rattle.std.specs.Prelude.{◌≡◌, ◌≤◌, ◌<◌, ◌+◌, ◌++◌, ◌∷◌, [], length, IfOk, slice_index_or};
ghost use Rattle.std.specs.List.{insert, remove};
ghost use Rattle.std.specs.VecDeque.{deque_len, deque_capacity};

use crate::NoMemory;
use std::alloc::Global;
use std::collections::VecDeque;
use std::marker::Model;

/// How many places a block has. With more, a part of a block takes longer to move; with fewer, more blocks give an
/// entry on.
pub(crate) const PLACES: usize = 1024;

/// Takes out the entry at an index.
pub(crate) fn remove_at<T: Drop>(entries: &mut VecDeque<T>, index: usize) -> T
    requires { index < length entries.old.items }
    ensures value { result ≡ slice_index_or entries.old.items index result }
    ensures items { entries.new.items ≡ remove entries.old.items index }
    ensures len { deque_len entries.new + 1 ≡ deque_len entries.old }
    ensures capacity { deque_capacity entries.new ≡ deque_capacity entries.old }
{
    match entries.remove(index) {
        Some(entry) => entry,
        None => unreachable!(),
    }
}

/// Puts an entry at an index, where there is room.
pub(crate) fn put_at<T: Drop>(entries: &mut VecDeque<T>, index: usize, entry: T)
    requires within { index ≤ length entries.old.items }
    requires room { deque_len entries.old < deque_capacity entries.old }
    ensures items { entries.new.items ≡ insert entries.old.items index entry }
    ensures len { deque_len entries.new ≡ deque_len entries.old + 1 }
    ensures capacity { deque_capacity entries.old ≤ deque_capacity entries.new }
{
    match entries.insert(index, entry) {
        Ok(()) => {}
        Err(_) => unreachable!(),
    }
}

/// At most so many entries. Where one comes or goes, those before it or those behind it move, whichever are fewer.
#[derive(Debug, Drop)]
pub(crate) struct Block<T> {
    entries: VecDeque<T>,
}

impl<T> Model for Block<T> {
    ghost use Rattle.std.specs.Prelude.{◌≤◌, List, length};
    ghost use Rattle.std.specs.VecDeque.{deque_capacity};

    ghost Value = { List T };

    ghost view = { λ b. b.entries.items };

    ghost invariant = { λ b. (length b.entries.items ≤ 1024) × (1024 ≤ deque_capacity b.entries) };
}

impl<T: Drop> Block<T> {
    /// No entries, with room for all.
    pub(crate) fn new(alloc: Global) -> Result<Self, NoMemory>
        ensures { IfOk result (λ block. block ≡ []) }
    {
        Ok(Block {
            entries: VecDeque::with_capacity(alloc, PLACES)?,
        })
    }

    /// How many entries there are.
    pub(crate) fn len(&self) -> usize
        ensures { result ≡ length self.now }
    {
        self.entries.len()
    }

    /// The entry at a place.
    pub(crate) fn at(&self, place: usize) -> &T
        requires { place < length self.now }
        ensures { result.now ≡ slice_index_or self.now place result.now }
    {
        &self.entries[place]
    }

    /// Puts an entry at a place.
    pub(crate) fn insert(&mut self, place: usize, entry: T)
        requires within { place ≤ length self.old }
        requires room { length self.old < 1024 }
        ensures { self.new ≡ insert self.old place entry }
    {
        put_at(&mut self.entries, place, entry);
    }

    /// Takes out the entry at a place.
    pub(crate) fn remove(&mut self, place: usize) -> T
        requires { place < length self.old }
        ensures value { result ≡ slice_index_or self.old place result }
        ensures rest { self.new ≡ remove self.old place }
    {
        remove_at(&mut self.entries, place)
    }

    /// Takes out the first entry.
    pub(crate) fn take_first(&mut self) -> T
        requires { 0 < length self.old }
        ensures { self.old ≡ result ∷ self.new }
    {
        match self.entries.pop_front() {
            Some(entry) => entry,
            None => unreachable!(),
        }
    }

    /// Takes out the last entry.
    pub(crate) fn take_last(&mut self) -> T
        requires { 0 < length self.old }
        ensures { self.old ≡ self.new ++ result ∷ [] }
    {
        match self.entries.pop_back() {
            Some(entry) => entry,
            None => unreachable!(),
        }
    }

    /// Puts an entry before all others.
    pub(crate) fn put_first(&mut self, entry: T)
        requires { length self.old < 1024 }
        ensures { self.new ≡ entry ∷ self.old }
    {
        match self.entries.push_front(entry) {
            Ok(()) => {}
            Err(_) => unreachable!(),
        }
    }

    /// Puts an entry behind all others.
    pub(crate) fn put_last(&mut self, entry: T)
        requires { length self.old < 1024 }
        ensures { self.new ≡ self.old ++ entry ∷ [] }
    {
        match self.entries.push_back(entry) {
            Ok(()) => {}
            Err(_) => unreachable!(),
        }
    }
}
