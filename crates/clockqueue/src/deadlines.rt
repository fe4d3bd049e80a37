//! A finite map from keys to moments, kept in the order in which the keys fall due.

ghost use Rattle.std.specs.Prelude.{◌≡◌, ◌≤◌, ◌<◌, ◌+◌, ◌⊎◌, [], length, Some, None, MatchOption, IsOk, IsTrue, OnOk, OnErr, is_some, option_map, slice_get, slice_index_or, find, position, drop, if◌then◌else◌};
ghost use Rattle.std.specs.Result.{IfOk, IfErr};
ghost use Rattle.clockqueue.specs.Deadlines.{AreDeadlines, due_cmp, is_of, is_set_to, moment_of, without, with_deadline, due, first_moment};
ghost use Rattle.clockqueue.specs.Places.{IsAt, IsGapFor};

use crate::NoMemory;
use crate::tier::Tier;
use std::alloc::Global;
use std::cmp::Ordering;
use std::marker::Model;

/// Moments in milliseconds, one for each key: a finite map from keys to moments, listed by moment and then by key. It
/// has room for a number of further keys.
///
/// It is kept as a list in blocks, in the order in which the keys fall due. `add` and `take_at`, which know the moment,
/// look at the last and the first, and then find its place by halving; `set` and `drop_key` look at each key. Where a
/// deadline comes or goes, a part of its block moves, and one deadline of each block behind it.
#[derive(Debug, Drop)]
pub struct Deadlines<K: Ord> {
    entries: Tier<(u64, K)>,
}

impl<K: Ord> Model for Deadlines<K> {
    ghost use Rattle.clockqueue.specs.Deadlines.{DeadlinesState, AreDeadlines};

    ghost Value = { DeadlinesState K };

    ghost view = { λ d. record { deadlines = d.entries.items; spare = d.entries.spare } };

    ghost invariant = { λ d. AreDeadlines K.cmp d.entries.items };
}

/// How a deadline stands to a moment and a key: by moment, and then by key.
fn compare<K: Ord>(deadline: &(u64, K), moment: u64, key: &K) -> Ordering
    ensures { result ≡ due_cmp K.cmp deadline.now (moment, key.now) }
{
    match deadline.0.cmp(&moment) {
        Ordering::Equal => deadline.1.cmp(key),
        unequal => unequal,
    }
}

/// Which deadline from `low` up to `high` a search looks at: the last of all first, and then the first of all, as most
/// come to the end, and go from the front.
fn look_at(low: usize, high: usize, len: usize) -> usize
    requires { low < high }
    ensures first { low ≤ result }
    ensures last { result < high }
{
    if high == len {
        return high - 1;
    }
    if low == 0 {
        return low;
    }
    low + (high - low) / 2
}

/// Where a deadline is, or where it would go.
fn search<K: Ord + Drop>(entries: &Tier<(u64, K)>, moment: u64, key: &K) -> Result<usize, usize>
    requires { AreDeadlines K.cmp entries.now.items }
    ensures found { IfOk result (IsAt K.cmp moment key.now entries.now.items) }
    ensures absent { IfErr result (IsGapFor K.cmp moment key.now entries.now.items) }
{
    let mut low = 0;
    let mut high = entries.len();
    'halves: while low < high {
        let middle = look_at(low, high, entries.len());
        match compare(entries.at(middle), moment, key) {
            Ordering::Less => low = middle + 1,
            Ordering::Greater => high = middle,
            Ordering::Equal => return Ok(middle),
        }
    }
    Err(low)
}

/// Where a key's deadline is.
fn position<K: Ord + Drop>(entries: &Tier<(u64, K)>, key: &K) -> Option<usize>
    ensures { result ≡ position (is_of K.cmp key.now) entries.now.items }
{
    'places: for index in 0..entries.len() {
        if entries.at(index).1.cmp(key).is_eq() {
            return Some(index);
        }
    }
    None
}

/// The deadline with a number, counted from 0.
fn nth<K: Drop>(entries: &Tier<(u64, K)>, number: usize) -> Option<&(u64, K)>
    ensures { MatchOption result (slice_get entries.now.items number ≡ None) (λ d. slice_get entries.now.items number ≡ Some d.now) }
{
    if number >= entries.len() {
        return None;
    }
    Some(entries.at(number))
}

impl<K: Ord + Drop> Deadlines<K> {
    /// No deadlines.
    pub fn new(alloc: Global) -> Self
        ensures { result.deadlines ≡ [] }
    {
        Deadlines {
            entries: Tier::new(alloc),
        }
    }

    /// Deadlines that are in the order in which they fall due, each key once.
    pub fn from_entries(entries: Vec<(u64, K)>) -> Self
        requires { AreDeadlines K.cmp entries.items }
        ensures { result.deadlines ≡ entries.items }
    {
        Deadlines {
            entries: Tier::from_vec(entries),
        }
    }

    /// How many deadlines there are.
    pub fn len(&self) -> usize
        ensures length { result ≡ length self.now.deadlines }
        ensures order { AreDeadlines K.cmp self.now.deadlines }
    {
        self.entries.len()
    }

    /// The deadline with a number, counted from 0 in the order in which they fall due.
    pub fn at(&self, number: usize) -> &(u64, K)
        requires { number < length self.now.deadlines }
        ensures { result.now ≡ slice_index_or self.now.deadlines number result.now }
    {
        self.entries.at(number)
    }

    /// Makes room for so many further keys. Where memory runs out the deadlines and the room stay.
    pub fn reserve(&mut self, keys: usize) -> Result<(), NoMemory>
        ensures deadlines { self.new.deadlines ≡ self.old.deadlines }
        ensures room { OnOk result (keys ≤ self.new.spare) }
        ensures kept { self.old.spare ≤ self.new.spare }
    {
        self.entries.reserve(keys)
    }

    /// Gives a key this moment in place of any that it had. It takes no memory where the key is there, or there is room
    /// for one more; where memory runs out the deadlines stay as they were.
    pub fn set(&mut self, key: K, moment: u64) -> Result<(), NoMemory>
        ensures deadlines { OnOk result (self.new.deadlines ≡ with_deadline K.cmp key moment self.old.deadlines) }
        ensures none { OnErr result (self.new.deadlines ≡ self.old.deadlines) }
        ensures succeeds { (1 ≤ self.old.spare) ⊎ IsTrue (is_some (moment_of K.cmp key self.old.deadlines)) → IsOk result }
        ensures room { self.old.spare ≤ self.new.spare + 1 }
        ensures kept { IsTrue (is_some (moment_of K.cmp key self.old.deadlines)) → self.old.spare ≤ self.new.spare }
    {
        self.drop_key(&key);
        self.add(key, moment)
    }

    /// Gives a new key this moment. It takes no memory where there is room for one more; where memory runs out the
    /// deadlines stay as they were.
    pub fn add(&mut self, key: K, moment: u64) -> Result<(), NoMemory>
        requires { moment_of K.cmp key self.old.deadlines ≡ None }
        ensures deadlines { OnOk result (self.new.deadlines ≡ with_deadline K.cmp key moment self.old.deadlines) }
        ensures none { OnErr result (self.new.deadlines ≡ self.old.deadlines) }
        ensures succeeds { 1 ≤ self.old.spare → IsOk result }
        ensures room { self.old.spare ≤ self.new.spare + 1 }
    {
        match search(&self.entries, moment, &key) {
            Err(index) => {
                self.entries.insert(index, (moment, key))?;
                Ok(())
            }
            Ok(_) => unreachable!(),
        }
    }

    /// Takes a key out. False exactly where it isn't there.
    pub fn drop_key(&mut self, key: &K) -> bool
        ensures there { result ≡ is_some (moment_of K.cmp key.now self.old.deadlines) }
        ensures deadlines { self.new.deadlines ≡ without K.cmp key.now self.old.deadlines }
        ensures room { IsTrue result → self.old.spare + 1 ≤ self.new.spare }
        ensures kept { self.old.spare ≤ self.new.spare }
    {
        match position(&self.entries, key) {
            Some(index) => {
                self.entries.remove(index);
                true
            }
            None => false,
        }
    }

    /// Takes a key out that has this moment, and gives it. Nothing, and no change, where it isn't there or has another.
    pub fn take_at(&mut self, key: &K, moment: u64) -> Option<K>
        ensures key { result ≡ option_map (λ d. d.1) (find (is_set_to K.cmp key.now moment) self.old.deadlines) }
        ensures deadlines { self.new.deadlines ≡ (if is_some result then without K.cmp key.now self.old.deadlines else self.old.deadlines) }
        ensures room { IsTrue (is_some result) → self.old.spare + 1 ≤ self.new.spare }
        ensures kept { self.old.spare ≤ self.new.spare }
    {
        match search(&self.entries, moment, key) {
            Ok(index) => {
                let (_, key) = self.entries.remove(index);
                Some(key)
            }
            Err(_) => None,
        }
    }

    /// Takes out the key with the least moment, the least of several keys, where that moment is `moment` or before it,
    /// and gives it. Nothing exactly where no key is due. No crate here calls it; it is kept for users of the library,
    /// who take keys out one by one.
    pub fn take_due(&mut self, moment: u64) -> Option<K>
        ensures key { result ≡ option_map (λ d. d.1) (slice_get (due moment self.old.deadlines) 0) }
        ensures deadlines { self.new.deadlines ≡ (if is_some result then drop 1 self.old.deadlines else self.old.deadlines) }
        ensures room { IsTrue (is_some result) → self.old.spare + 1 ≤ self.new.spare }
        ensures kept { self.old.spare ≤ self.new.spare }
    {
        let first = nth(&self.entries, 0)?;
        if first.0 > moment {
            return None;
        }
        let (_, key) = self.entries.remove(0);
        Some(key)
    }

    /// The key that is due by `moment` with this number, counted from 0 in the order of `take_due`. Nothing exactly
    /// where no more than so many are due.
    pub fn due(&self, moment: u64, number: usize) -> Option<&K>
        ensures { MatchOption result (slice_get (due moment self.now.deadlines) number ≡ None) (λ key. option_map (λ d. d.1) (slice_get (due moment self.now.deadlines) number) ≡ Some key.now) }
    {
        let deadline = nth(&self.entries, number)?;
        if deadline.0 > moment {
            return None;
        }
        Some(&deadline.1)
    }

    /// The least moment; nothing where there is no key.
    pub fn next(&self) -> Option<u64>
        ensures moment { result ≡ first_moment self.now.deadlines }
        ensures order { AreDeadlines K.cmp self.now.deadlines }
    {
        let first = nth(&self.entries, 0)?;
        Some(first.0)
    }
}
