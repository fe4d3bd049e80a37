//! A start state with its number, and the entries since.

ghost use Rattle.std.specs.Prelude.{◌≡◌, ◌≤◌, ◌<◌, ◌+◌, ◌++◌, ◌∷◌, ◌-◌, ◌&&◌, ℕ, [], true, nat_le, nat_lt, drop, length, sum_by, IfOk, IfSome, OnOk, OnErr};
ghost use Rattle.std.specs.List.{AllByRecursion};
ghost use Rattle.push_base.specs.Limits.{max_moment, max_number};
ghost use Rattle.history.specs.States.{State, entry_size, journal_has_room, max_journal_entries, max_journal_octets, state_at};
ghost use Rattle.history.specs.AtHome.{AreAtHome};
ghost use Rattle.history.specs.Forgetting.{CanLead, IsAhead, LeadsTo};
ghost use Rattle.history.specs.HeldPlans.{IsStateOf, IsTimely};
ghost use Rattle.history.specs.Kept.{Appends, at_moment, has_room, point_of, state_now, state_of};
ghost use Rattle.history.specs.Totals.{totals};

use crate::ahead::{Ahead, ahead_later, take_ahead};
use crate::entry::{Entry, Totals};
use crate::homes::Homes;
use crate::journal_replay::replayed;
use crate::planning::{HeldPlan, apply_held, plan_of};
use rrset::NoMemory;
use std::alloc::Global;
use std::collections::VecDeque;
use std::marker::Model;
use std::mem;

/// A start state with its number and its moment, perhaps homes ahead of it, the entries since and their octets, how many
/// entries of each group there ever were, and entries that were forgotten at once and are dropped little by little.
#[derive(Debug, Drop)]
pub(crate) struct Past {
    start: Homes,
    moment: u64,
    number: u64,
    ahead: Option<Ahead>,
    entries: VecDeque<Entry>,
    octets: u64,
    counts: Totals,
    forgotten: VecDeque<Entry>,
}

/// The most entries of a journal.
const MAX_ENTRIES: usize = 65_536;

/// The most octets of a journal.
const MAX_OCTETS: u64 = 67_108_864;

/// The least number of entries with which the journal starts anew.
const MANY_ENTRIES: usize = 1_024;

/// How many forgotten entries are dropped where one is appended: all of a full journal before it can start anew.
const FEW_ENTRIES: usize = 64;

impl Model for Past {
    ghost use Rattle.std.specs.Prelude.{IfSome};
    ghost use Rattle.history.specs.Kept.{Past, at_moment};
    ghost use Rattle.history.specs.Forgetting.{IsAhead};
    ghost use Rattle.history.specs.HeldPlans.{IsSoundPast};

    ghost Value = { Past };

    ghost view = { λ p. record { start = at_moment p.start p.moment; number = p.number; history = p.entries.items; counts = p.counts } };

    ghost invariant = { λ p. IsSoundPast (record { start = at_moment p.start p.moment; number = p.number; history = p.entries.items; counts = p.counts }) p.octets × IfSome p.ahead (IsAhead (at_moment p.start p.moment) p.entries.items) };
}

/// Whether the journal starts anew where none of so many entries is asked to stay, of which so many must go, and there are so
/// many rows, each of which is copied then: with four entries for each, or with one where it is full.
fn starts_anew(entries: usize, over: usize, rows: usize) -> bool {
    let needed = if over > 0 {
        rows
    } else {
        rows.saturating_mul(4)
    };
    entries >= MANY_ENTRIES && entries >= needed
}

/// Whether so many entries, of so many octets, and one more of a size are within the two numbers.
fn has_room(entries: usize, octets: u64, size: u64) -> bool
    requires { octets ≤ max_journal_octets }
    ensures { result ≡ (nat_lt entries max_journal_entries && nat_le (octets + size) max_journal_octets) }
{
    entries < MAX_ENTRIES && size <= MAX_OCTETS - octets
}

/// How many of the oldest entries must go so that the others and one more of a size are within the two numbers.
fn count_over(entries: &VecDeque<Entry>, octets: u64, size: u64) -> usize
    requires sum { octets ≡ sum_by entry_size entries.now.items }
    requires octets { octets ≤ max_journal_octets }
    requires size { size ≤ max_journal_octets }
    ensures within { result ≤ length entries.now.items }
    ensures least { (n : ℕ) → journal_has_room (drop n entries.now.items) size ≡ nat_le result n }
{
    let mut left = octets;
    'oldest: for index in 0..entries.len() {
        if has_room(entries.len() - index, left, size) {
            return index;
        }
        left -= entries[index].size();
    }
    entries.len()
}

/// Forgets so many of the oldest entries, and gives how many octets they had.
fn forget(entries: &mut VecDeque<Entry>, count: usize) -> u64
    requires { sum_by entry_size entries.old.items ≤ max_number }
    ensures items { entries.new.items ≡ drop count entries.old.items }
    ensures octets { result + sum_by entry_size entries.new.items ≡ sum_by entry_size entries.old.items }
{
    let mut octets = 0;
    'oldest: for index in 0..count {
        if let Some(entry) = entries.pop_front() {
            octets += entry.size();
        }
    }
    octets
}

/// Puts an entry behind others, of so many octets, and forgets so many of the oldest of those. It gives how many octets these
/// had. Where all of them go they are handed over as they are: to drop them takes as long as thousands of entries do.
fn put_last(
    alloc: Global,
    entries: &mut VecDeque<Entry>,
    forgotten: &mut VecDeque<Entry>,
    octets: u64,
    entry: Entry,
    count: usize,
) -> Result<u64, NoMemory>
    requires sum { octets ≡ sum_by entry_size entries.old.items }
    requires all { sum_by entry_size (entries.old.items ++ entry ∷ []) ≤ max_number }
    requires within { count ≤ length entries.old.items }
    ensures items { OnOk result (entries.new.items ≡ drop count (entries.old.items ++ entry ∷ [])) }
    ensures octets { IfOk result (λ gone. gone + sum_by entry_size entries.new.items ≡ sum_by entry_size (entries.old.items ++ entry ∷ [])) }
    ensures none { OnErr result (entries.new.items ≡ entries.old.items) }
{
    if count == entries.len() {
        let mut anew = VecDeque::new(alloc);
        anew.push_back(entry)?;
        *forgotten = mem::replace(entries, anew);
        return Ok(octets);
    }
    entries.push_back(entry)?;
    Ok(forget(entries, count))
}

/// Drops a few forgotten entries, and their room behind the last.
fn drop_few(alloc: Global, forgotten: &mut VecDeque<Entry>) {
    'few: for _ in 0..FEW_ENTRIES {
        match forgotten.pop_front() {
            Some(_) => {}
            None => {
                *forgotten = VecDeque::new(alloc);
                return;
            }
        }
    }
}

/// What becomes of the start state where the oldest entries are forgotten.
#[derive(Drop)]
pub(crate) enum Later {
    /// It stays.
    Same,
    /// What the plan of the oldest entry makes of it; where there is none, it stays.
    Planned(Option<HeldPlan>),
    /// These homes, at this moment.
    Homes(Homes, u64),
}

/// What becomes of homes at a moment where so many of the entries that follow them are forgotten; behind all entries they
/// are known. It takes all memory that this takes.
fn start_later(
    start: &mut Homes,
    moment: u64,
    entries: &VecDeque<Entry>,
    count: usize,
    homes: &Homes,
    now: u64,
) -> Result<Later, NoMemory>
    requires home { AreAtHome (at_moment start.old moment) }
    requires moment { moment ≤ max_moment }
    requires timely { AllByRecursion IsTimely entries.now.items }
    requires within { count ≤ length entries.now.items }
    requires homes { at_moment homes.now now ≡ state_at (at_moment start.old moment) entries.now.items (length entries.now.items) }
    ensures later { IfOk result (LeadsTo start.new moment (state_at (at_moment start.old moment) entries.now.items count)) }
    ensures state { state_of start.new ≡ state_of start.old }
{
    if count == 0 {
        return Ok(Later::Same);
    }
    if count == entries.len() {
        return Ok(Later::Homes(homes.copy()?, now));
    }
    let alloc = homes.allocator();
    if count == 1 {
        let (_, held) = plan_of(alloc, start, moment, &entries[0])?;
        return Ok(Later::Planned(held));
    }
    let (homes, now) = replayed(alloc, start, moment, entries, count)?;
    Ok(Later::Homes(homes, now))
}

/// A copy of homes behind all of so many entries, of which `over` must and `most` may go, where the journal starts anew and
/// there is memory.
fn start_anew(homes: &Homes, entries: usize, over: usize, most: usize) -> Option<Homes>
    ensures state { IfSome result (λ copy. state_of copy ≡ state_of homes.now) }
    ensures all { IfSome result (λ copy. most ≡ entries) }
{
    if most == entries {
        if starts_anew(entries, over, homes.rows()) {
            return homes.copy().ok();
        }
    }
    None
}

/// How many entries go by plans, where so many must and may: those that must, but all that may where the start is copied.
fn count_by_plans(over: usize, most: usize) -> usize
    requires { over ≤ most }
    ensures least { over ≤ result }
    ensures most { result ≤ most }
{
    if over > 1 { most } else { over }
}

/// How many of the oldest entries go, and what becomes of the start: where none is asked to stay the journal may start anew;
/// where one must go, those before the homes ahead go if they may; else they go by plans. It takes all memory that this
/// takes, and does without a copy of the homes where there is no memory for it.
fn going(
    start: &mut Homes,
    moment: u64,
    ahead: &mut Option<Ahead>,
    entries: &VecDeque<Entry>,
    over: usize,
    most: usize,
    homes: &Homes,
    now: u64,
) -> Result<(usize, Later), NoMemory>
    requires home { AreAtHome (at_moment start.old moment) }
    requires moment { moment ≤ max_moment }
    requires ahead { IfSome ahead.old (IsAhead (at_moment start.old moment) entries.now.items) }
    requires timely { AllByRecursion IsTimely entries.now.items }
    requires over { over ≤ most }
    requires within { most ≤ length entries.now.items }
    requires homes { at_moment homes.now now ≡ state_at (at_moment start.old moment) entries.now.items (length entries.now.items) }
    ensures least { IfOk result (λ going. over ≤ going.0) }
    ensures most { IfOk result (λ going. going.0 ≤ most) }
    ensures later { IfOk result (λ going. LeadsTo start.new moment (state_at (at_moment start.old moment) entries.now.items going.0) going.1) }
    ensures state { state_of start.new ≡ state_of start.old }
    ensures ahead { IfSome ahead.new (IsAhead (at_moment start.old moment) entries.now.items) }
{
    if let Some(copy) = start_anew(homes, entries.len(), over, most) {
        Ok((most, Later::Homes(copy, now)))
    } else if let Some(taken) = take_ahead(ahead, over, most) {
        Ok((taken.count, Later::Homes(taken.homes, taken.moment)))
    } else {
        let count = count_by_plans(over, most);
        let later = start_later(start, moment, entries, count, homes, now)?;
        Ok((count, later))
    }
}

/// Makes homes what they become, and gives the moment afterwards. It takes no memory.
fn become_later(start: &mut Homes, moment: u64, later: Later) -> u64
    requires { CanLead start.old later }
    ensures { (state : State) → LeadsTo start.old moment state later → at_moment start.new result ≡ state }
{
    match later {
        Later::Same => moment,
        Later::Planned(held) => apply_held(start, moment, held),
        Later::Homes(homes, later) => {
            *start = homes;
            later
        }
    }
}

impl Past {
    /// Homes as a start, with no entry.
    pub(crate) fn new(homes: &Homes) -> Result<Past, NoMemory>
        requires { AreAtHome (state_of homes.now) }
        ensures { IfOk result (λ past. past ≡ record { start = state_of homes.now; number = 0; history = []; counts = totals [] }) }
    {
        Ok(Past {
            start: homes.copy()?,
            moment: 0,
            number: 0,
            ahead: None,
            entries: VecDeque::new(homes.allocator()),
            octets: 0,
            counts: Totals::none(),
            forgotten: VecDeque::new(homes.allocator()),
        })
    }

    /// How many entries there ever were.
    pub(crate) fn point(&self) -> u64
        ensures { result ≡ point_of self.now }
    {
        self.number + self.entries.len() as u64
    }

    /// How many entries of each group there ever were.
    pub(crate) fn counts(&self) -> Totals
        ensures { result ≡ self.now.counts }
    {
        self.counts
    }

    /// How many entries were forgotten.
    pub(crate) fn number(&self) -> u64
        ensures { result ≡ self.now.number }
    {
        self.number
    }

    /// The least point from which on the entries and one more of a size are within the two numbers.
    pub(crate) fn floor(&self, size: u64) -> u64
        requires { size ≤ max_journal_octets }
        ensures from { self.now.number ≤ result }
        ensures within { result ≤ point_of self.now }
        ensures least { (from : ℕ) → self.now.number ≤ from → has_room self.now from size ≡ nat_le result from }
    {
        self.number + count_over(&self.entries, self.octets, size) as u64
    }

    /// Whether the entries from a point on and one more of a size are within the two numbers.
    pub(crate) fn room(&self, from: u64, size: u64) -> bool
        requires { self.now.number ≤ from }
        ensures { result ≡ has_room self.now from size }
    {
        size <= MAX_OCTETS && self.floor(size) <= from
    }

    /// The homes at a point.
    pub(crate) fn homes_at(&self, alloc: Global, point: u64) -> Result<Homes, NoMemory>
        requires from { self.now.number ≤ point }
        requires within { point ≤ point_of self.now }
        ensures { IfOk result (λ homes. (t : ℕ) × IsStateOf homes t (state_at self.now.start self.now.history (point - self.now.number))) }
    {
        let count = (point - self.number) as usize;
        let (homes, _) = replayed(alloc, &self.start, self.moment, &self.entries, count)?;
        Ok(homes)
    }

    /// How many of the oldest entries must go for one more of a size, and how many may where none from a point on may.
    fn going_bounds(&self, size: u64, keep: u64) -> (usize, usize)
        requires size { size ≤ max_journal_octets }
        requires since { self.now.number ≤ keep }
        requires room { has_room self.now keep size ≡ true }
        ensures order { result.0 ≤ result.1 }
        ensures most { self.now.number + result.1 ≡ keep }
        ensures fits { (n : ℕ) → result.0 ≤ n → journal_has_room (drop n self.now.history) size ≡ true }
    {
        let over = count_over(&self.entries, self.octets, size);
        (over, (keep - self.number) as usize)
    }

    /// Appends an entry to those that lead to homes at a moment. It may forget entries from before the point `keep`, but
    /// none from there on. It takes all memory before it changes anything, but for a copy ahead of the start, which it does
    /// without where there is no memory.
    pub(crate) fn append(
        &mut self,
        entry: Entry,
        keep: u64,
        homes: &Homes,
        moment: u64,
    ) -> Result<(), NoMemory>
        requires timely { IsTimely entry }
        requires now { moment ≤ max_moment }
        requires homes { at_moment homes.now moment ≡ state_now self.old }
        requires last { point_of self.old < max_number }
        requires since { self.old.number ≤ keep }
        requires within { keep ≤ point_of self.old }
        requires room { has_room self.old keep (entry_size entry) ≡ true }
        ensures appended { OnOk result (Appends keep self.old entry self.new) }
        ensures none { OnErr result (self.new ≡ self.old) }
    {
        let size = entry.size();
        let counts = self.counts.and_one(&entry);
        let (over, most) = self.going_bounds(size, keep);
        let point = self.point();
        let (count, later) = going(
            &mut self.start,
            self.moment,
            &mut self.ahead,
            &self.entries,
            over,
            most,
            homes,
            moment,
        )?;
        let left = self.entries.len() - count;
        let alloc = homes.allocator();
        drop_few(alloc, &mut self.forgotten);
        let gone = put_last(
            alloc,
            &mut self.entries,
            &mut self.forgotten,
            self.octets,
            entry,
            count,
        )?;
        self.moment = become_later(&mut self.start, self.moment, later);
        self.octets = self.octets + size - gone;
        self.number += count as u64;
        self.counts = counts;
        self.ahead = ahead_later(self.ahead.take(), count, left, homes, moment, keep, point);
        Ok(())
    }
}
