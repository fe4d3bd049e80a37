//! A list in which a change moves few entries, also where it is long.

ghost use Rattle.std.specs.Prelude.{◌≡◌, ◌≤◌, ◌<◌, ◌+◌, ◌⊎◌, ◌++◌, [], length, OnOk, OnErr, IsOk, slice_index_or};
ghost use Rattle.std.specs.List.{insert, remove};
ghost use Rattle.std.specs.VecDeque.{deque_len, deque_capacity};

use crate::NoMemory;
use crate::block::{put_at, remove_at};
use crate::blocks::Blocks;
use std::alloc::Global;
use std::collections::VecDeque;
use std::marker::Model;

/// A list. What it was made of stays one queue, which needs no memory, and behind it stand blocks. The queue has as many
/// places as it had entries; while one of them is free the blocks are empty.
#[derive(Debug, Drop)]
pub(crate) struct Tier<T> {
    front: VecDeque<T>,
    places: usize,
    back: Blocks<T>,
}

impl<T> Model for Tier<T> {
    ghost use Rattle.std.specs.Prelude.{◌≡◌, ◌⊎◌, ◌+◌, ◌-◌, ◌≤◌, ◌++◌, []};
    ghost use Rattle.std.specs.VecDeque.{deque_len, deque_capacity};
    ghost use Rattle.clockqueue.specs.Tiers.{TierState};

    ghost Value = { TierState T };

    ghost view = { λ t. record { items = t.front.items ++ t.back.items; spare = (t.places - deque_len t.front) + t.back.spare } };

    ghost invariant = { λ t. (deque_len t.front ≤ t.places) × (t.places ≤ deque_capacity t.front) × ((deque_len t.front ≡ t.places) ⊎ (t.back.items ≡ [])) };
}

/// Puts an entry before that with a number, or behind all, where the queue is full and there is room behind it.
fn put_in<T: Drop>(front: &mut VecDeque<T>, back: &mut Blocks<T>, number: usize, entry: T)
    requires within { number ≤ length (front.old.items ++ back.old.items) }
    requires room { 1 ≤ back.old.spare }
    ensures items { front.new.items ++ back.new.items ≡ insert (front.old.items ++ back.old.items) number entry }
    ensures len { deque_len front.new ≡ deque_len front.old }
    ensures capacity { deque_capacity front.old ≤ deque_capacity front.new }
    ensures room { back.new.spare + 1 ≡ back.old.spare }
{
    let count = front.len();
    if number >= count {
        back.insert(number - count, entry);
        return;
    }
    match front.pop_back() {
        Some(last) => {
            put_at(front, number, entry);
            back.insert(0, last);
        }
        None => unreachable!(),
    }
}

/// Takes an entry out of the queue, which the first one behind it fills up again.
fn take_in<T: Drop>(front: &mut VecDeque<T>, back: &mut Blocks<T>, number: usize) -> T
    requires within { number < length front.old.items }
    ensures value { result ≡ slice_index_or front.old.items number result }
    ensures items { front.new.items ++ back.new.items ≡ remove (front.old.items ++ back.old.items) number }
    ensures capacity { deque_capacity front.old ≤ deque_capacity front.new }
    ensures full { ((deque_len front.new ≡ deque_len front.old) × (back.new.spare ≡ back.old.spare + 1) × (0 < length back.old.items)) ⊎ ((deque_len front.new + 1 ≡ deque_len front.old) × (back.new.spare ≡ back.old.spare) × (back.new.items ≡ [])) }
{
    let count = front.len();
    let entry = remove_at(front, number);
    if back.len() == 0 {
        return entry;
    }
    let next = back.remove(0);
    put_at(front, count - 1, next);
    entry
}

impl<T: Drop> Tier<T> {
    /// No entries.
    pub(crate) fn new(alloc: Global) -> Self
        ensures { result.items ≡ [] }
    {
        Tier {
            front: VecDeque::new(alloc),
            places: 0,
            back: Blocks::new(alloc),
        }
    }

    /// These entries.
    pub(crate) fn from_vec(entries: Vec<T>) -> Self
        ensures { result.items ≡ entries.items }
    {
        let back = Blocks::new(*entries.allocator());
        let places = entries.len();
        Tier {
            front: VecDeque::from_vec(entries),
            places,
            back,
        }
    }

    /// How many entries there are.
    pub(crate) fn len(&self) -> usize
        ensures { result ≡ length self.now.items }
    {
        self.front.len() + self.back.len()
    }

    /// The entry with a number.
    pub(crate) fn at(&self, number: usize) -> &T
        requires { number < length self.now.items }
        ensures { result.now ≡ slice_index_or self.now.items number result.now }
    {
        let count = self.front.len();
        if number < count {
            return &self.front[number];
        }
        self.back.at(number - count)
    }

    /// Makes room for so many further entries. Where memory runs out entries and room stay.
    pub(crate) fn reserve(&mut self, entries: usize) -> Result<(), NoMemory>
        ensures items { self.new.items ≡ self.old.items }
        ensures room { OnOk result (entries ≤ self.new.spare) }
        ensures kept { self.old.spare ≤ self.new.spare }
    {
        self.back.reserve(entries)
    }

    /// Puts an entry before that with a number, or behind all. It takes no memory where there is room for one more.
    pub(crate) fn insert(&mut self, number: usize, entry: T) -> Result<(), NoMemory>
        requires { number ≤ length self.old.items }
        ensures items { OnOk result (self.new.items ≡ insert self.old.items number entry) }
        ensures none { OnErr result (self.new.items ≡ self.old.items) }
        ensures succeeds { 1 ≤ self.old.spare → IsOk result }
        ensures room { self.old.spare ≤ self.new.spare + 1 }
    {
        let count = self.front.len();
        if count < self.places {
            put_at(&mut self.front, number, entry);
            return Ok(());
        }
        if !self.back.has_room() {
            self.back.reserve(1)?;
        }
        put_in(&mut self.front, &mut self.back, number, entry);
        Ok(())
    }

    /// Takes out the entry with a number.
    pub(crate) fn remove(&mut self, number: usize) -> T
        requires { number < length self.old.items }
        ensures value { result ≡ slice_index_or self.old.items number result }
        ensures items { self.new.items ≡ remove self.old.items number }
        ensures room { self.new.spare ≡ self.old.spare + 1 }
    {
        let count = self.front.len();
        if number >= count {
            return self.back.remove(number - count);
        }
        take_in(&mut self.front, &mut self.back, number)
    }
}
