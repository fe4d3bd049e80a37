//! The questions that a link is asked, so that not all are looked at (RFC 6762, 5.2).

ghost use Rattle.std.specs.Prelude.{◌≡◌, ◌<◌, ◌≤◌, [], length, false, true, Some, None, IfOk, OnOk, OnErr, if◌then◌else◌};
ghost use Rattle.push_base.specs.Limits.{max_datagram, max_moment};
ghost use Rattle.linkask.specs.Asking.{next};
ghost use Rattle.linkask.specs.Bounds.{AreBounds, IsFirstDue, IsLeast, IsDueAt, all_heard, all_reasons, asked_at, begun_anew, unbounded, wanted_in, with_reason, without_reason};

use crate::NoMemory;
use crate::asks::{KeptAsks, due_moment};
use crate::entries::{add_reason, begin_anew, drop_reason};
use crate::known::datagram;
use crate::refresh::hear_all;
use linkcache::Cache;
use rrset::{HeardRr, Question};
use std::alloc::Global;
use std::marker::Model;

/// The questions that a link is asked, each with the number of reasons for it. Before the least moment none is due.
#[derive(Debug, Drop)]
pub struct Asker {
    entries: Vec<(Question, KeptAsks)>,
    least: u64,
}

impl Model for Asker {
    ghost use Rattle.std.specs.Prelude.{IsTrue};
    ghost use Rattle.linkask.specs.Bounds.{Kept, IsLeast, are_kept};

    ghost Value = { Kept };

    ghost view = { λ a. a.entries.items };

    ghost invariant = { λ a. IsTrue (are_kept a.entries.items) × IsLeast a.least a.entries.items };
}

/// Whether the question at a place is due. A bound that has come is made exact.
fn is_due_at(entries: &mut [(Question, KeptAsks)], place: usize, cache: &Cache, now: u64) -> bool
    requires within { place < length entries.old }
    requires bounds { AreBounds cache.now.state.rows entries.old }
    requires moment { now ≤ max_moment }
    ensures same { unbounded entries.new ≡ unbounded entries.old }
    ensures bounds { AreBounds cache.now.state.rows entries.new }
    ensures due { IsDueAt cache.now.state.rows now (wanted_in entries.old) place result }
{
    let asks = entries[place].1;
    if asks.due > now {
        return false;
    }
    let question = &entries[place].0;
    let due = due_moment(cache.rows_at(&question.name), question, asks);
    entries[place].1 = KeptAsks { due, ..asks };
    due <= now
}

/// Where the first question stands that is due. Bounds that have come are made exact up to there.
fn first_due(entries: &mut [(Question, KeptAsks)], cache: &Cache, now: u64) -> Option<usize>
    requires bounds { AreBounds cache.now.state.rows entries.old }
    requires moment { now ≤ max_moment }
    ensures same { unbounded entries.new ≡ unbounded entries.old }
    ensures bounds { AreBounds cache.now.state.rows entries.new }
    ensures first { IsFirstDue cache.now.state.rows now (wanted_in entries.old) result }
{
    let mut place = 0;
    'places: while place < entries.len() {
        if is_due_at(entries, place, cache, now) {
            return Some(place);
        }
        place += 1;
    }
    None
}

/// The least bound.
fn least_of(entries: &[(Question, KeptAsks)]) -> u64
    ensures { IsLeast result entries.now }
{
    let mut least = u64::MAX;
    'entries: for (_, asks) in entries {
        least = least.min(asks.due);
    }
    least
}

/// The question at a place is asked now.
fn ask_at(entries: &mut [(Question, KeptAsks)], place: usize, cache: &Cache, now: u64)
    requires within { place < length entries.old }
    requires bounds { AreBounds cache.now.state.rows entries.old }
    ensures asked { unbounded entries.new ≡ unbounded (asked_at place now entries.old) }
    ensures bounds { AreBounds cache.now.state.rows entries.new }
{
    let asks = KeptAsks {
        count: entries[place].1.count.saturating_add(1),
        last: now,
        ..entries[place].1
    };
    let question = &entries[place].0;
    let due = due_moment(cache.rows_at(&question.name), question, asks);
    entries[place].1 = KeptAsks { due, ..asks };
}

impl Asker {
    /// No questions.
    pub fn new(alloc: Global) -> Self
        ensures { result ≡ [] }
    {
        Asker {
            entries: Vec::new(alloc),
            least: 0,
        }
    }

    /// One reason more for a question. One that wasn't wanted was never asked. Where memory runs out nothing changes.
    pub fn want(&mut self, question: Question) -> Result<(), NoMemory>
        ensures ok { OnOk result (self.new ≡ with_reason question self.old) }
        ensures err { OnErr result (self.new ≡ self.old) }
    {
        self.least = 0;
        add_reason(&mut self.entries, question)
    }

    /// One reason less for a question; with the last it goes.
    pub fn unwant(&mut self, question: &Question)
        ensures { self.new ≡ without_reason question.now self.old }
    {
        self.least = 0;
        drop_reason(&mut self.entries, question);
    }

    /// A question that is wanted begins anew: it is due at once, as if it had never been asked.
    pub fn ask_anew(&mut self, question: &Question)
        ensures { self.new ≡ begun_anew question.now self.old }
    {
        self.least = 0;
        begin_anew(&mut self.entries, question);
    }

    /// Lowers the bounds of the questions that ask for what a link has heard.
    pub fn heard(&mut self, hearing: &[HeardRr], now: u64)
        requires { now ≤ max_moment }
        ensures { self.new ≡ all_heard now hearing.now self.old }
    {
        self.least = 0;
        hear_all(&mut self.entries, hearing, now);
    }

    /// What is sent for the first question that is due, which is asked now; false where none is due. Without a datagram the
    /// buffer stays as it was.
    pub fn next(
        &mut self,
        alloc: Global,
        cache: &Cache,
        now: u64,
        out: &mut Vec<u8>,
    ) -> Result<bool, NoMemory>
        requires bounds { AreBounds cache.now.state.rows self.old }
        requires moment { now ≤ max_moment }
        ensures ok { IfOk result (λ found. next cache.now.state.rows now (wanted_in self.old) ≡ (if found then Some out.new.items else None, wanted_in self.new)) }
        ensures err { OnErr result (wanted_in self.new ≡ wanted_in self.old) }
        ensures none { IfOk result (λ found. found ≡ false → out.new.items ≡ out.old.items) }
        ensures nothing { OnErr result (out.new.items ≡ out.old.items) }
        ensures size { IfOk result (λ found. found ≡ true → length out.new.items ≤ max_datagram) }
        ensures reasons { all_reasons self.new ≡ all_reasons self.old }
        ensures bounds { AreBounds cache.now.state.rows self.new }
    {
        if now < self.least {
            return Ok(false);
        }
        let Some(place) = first_due(&mut self.entries, cache, now) else {
            self.least = least_of(&self.entries);
            return Ok(false);
        };
        self.least = 0;
        let question = &self.entries[place].0;
        *out = datagram(alloc, cache.rows_at(&question.name), question, now)?;
        ask_at(&mut self.entries, place, cache, now);
        Ok(true)
    }
}
