//! One history of all homes.

ghost use Rattle.std.specs.Prelude.{◌≡◌, ◌≤◌, ◌<◌, ◌+◌, ◌-◌, ℕ, [], true, None, map, nat_le, IfOk, OnOk, OnErr};
ghost use Rattle.push_base.specs.Limits.{max_number};
ghost use Rattle.rrset.specs.Records.{rr_of};
ghost use Rattle.rrset.specs.RecordSet.{matching};
ghost use Rattle.history.specs.States.{after, records_at, reconfirm_key, entry_size, max_journal_octets};
ghost use Rattle.history.specs.Plans.{IsStart, planned};
ghost use Rattle.history.specs.Totals.{totals};
ghost use Rattle.history.specs.AtHome.{AreAtHome};
ghost use Rattle.history.specs.HeldPlans.{IsTimely};
ghost use Rattle.history.specs.Kept.{Appends, has_room, point_of, state_of, state_now, records_now, held_for, told_plan, IsHeld};

use crate::entry::{Entry, Totals};
use crate::homes::Homes;
use crate::past::Past;
use crate::plan::Planned;
use crate::planning::{HeldPlan, apply_held, plan_of};
use rrset::{Key, NoMemory, Question, Rr, Rrs, Shown, Table};
use std::alloc::Global;
use std::marker::Model;

/// A past, and the homes and the moment after all its entries.
#[derive(Debug, Drop)]
pub struct Points {
    past: Past,
    homes: Homes,
    moment: u64,
    held: Option<HeldPlan>,
}

impl Model for Points {
    ghost use Rattle.std.specs.Prelude.{option_map};
    ghost use Rattle.history.specs.Kept.{PointsKept, at_moment};
    ghost use Rattle.history.specs.HeldPlans.{led_to, IsPresent};

    ghost Value = { PointsKept };

    ghost view = { λ p. record { past = p.past; held = option_map (led_to (at_moment p.homes p.moment)) p.held } };

    ghost invariant = { λ p. IsPresent p.past p.homes p.moment p.held };
}

impl Points {
    /// The history of homes in which nothing has changed yet.
    pub fn new(homes: Homes) -> Result<Points, NoMemory>
        requires { IsStart (state_of homes) }
        ensures points { IfOk result (λ points. points ≡ record { past = record { start = state_of homes; number = 0; history = []; counts = totals [] }; held = None }) }
        ensures home { AreAtHome (state_of homes) }
    {
        homes.tell_names();
        let past = Past::new(&homes)?;
        Ok(Points {
            past,
            homes,
            moment: 0,
            held: None,
        })
    }

    /// The homes after all entries.
    pub fn homes(&self) -> &Homes
        ensures { state_of result.now ≡ record (state_now self.now.past) { now = 0 } }
    {
        &self.homes
    }

    /// The moment after all entries, in milliseconds.
    pub fn now(&self) -> u64
        ensures { result ≡ (state_now self.now.past).now }
    {
        self.moment
    }

    /// The newest point: how many entries there ever were.
    pub fn point(&self) -> u64
        ensures { result ≡ point_of self.now.past }
    {
        self.past.point()
    }

    /// How many entries of each group there ever were.
    pub fn counts(&self) -> Totals
        ensures { result ≡ self.now.past.counts }
    {
        self.past.counts()
    }

    /// The number of the start state: how many entries were forgotten.
    pub fn start(&self) -> u64
        ensures { result ≡ self.now.past.number }
    {
        self.past.number()
    }

    /// The records at the newest point, in key order.
    pub fn all(&self, alloc: Global) -> Result<Vec<(Key, Shown)>, NoMemory>
        ensures { IfOk result (λ records. records.items ≡ records_now self.now.past) }
    {
        self.homes.all(alloc)
    }

    /// The records at the newest point, in a table of their own.
    pub fn table(&self, alloc: Global) -> Result<Table, NoMemory>
        ensures { IfOk result (λ table. table.rows ≡ records_now self.now.past) }
    {
        self.homes.table(alloc)
    }

    /// The link and the key that a reconfirmation of a record is about (RFC 8765, 6.5): the link that is the home of its
    /// owner, and the key of what the link would have heard to show it. Nothing exactly where the home is no link, or no such
    /// record could be heard.
    pub fn reconfirm_key(&self, alloc: Global, rr: &Rr) -> Result<Option<(usize, Key)>, NoMemory>
        ensures { IfOk result (λ found. found ≡ reconfirm_key (state_now self.now.past) rr.now) }
    {
        self.homes.reconfirm_key(alloc, rr)
    }

    /// What becomes of an entry: the RCODE that refuses an update, or exactly the keys that will be shown otherwise. An
    /// accepted plan is held, with the room that it needs, until the entry was appended or the next call of `plan`, also
    /// where memory runs out in that.
    pub fn plan(&mut self, alloc: Global, entry: &Entry) -> Result<Planned, NoMemory>
        requires { IsTimely entry.now }
        ensures planned { IfOk result (λ answer. answer ≡ told_plan (planned (state_now self.old.past) entry.now)) }
        ensures past { self.new.past ≡ self.old.past }
        ensures held { OnOk result (self.new.held ≡ held_for (state_now self.old.past) entry.now) }
        ensures none { OnErr result (self.new.held ≡ None) }
    {
        self.held = None;
        let (planned, held) = plan_of(alloc, &mut self.homes, self.moment, entry)?;
        self.held = held;
        Ok(planned)
    }

    /// Appends the entry whose plan is held. It may forget entries from before the point `keep`, but none from there on. It
    /// takes all memory before it changes anything.
    pub fn append(&mut self, entry: Entry, keep: u64) -> Result<(), NoMemory>
        requires held { IsHeld self.old entry }
        requires last { point_of self.old.past < max_number }
        requires since { self.old.past.number ≤ keep }
        requires within { keep ≤ point_of self.old.past }
        requires room { has_room self.old.past keep (entry_size entry) ≡ true }
        ensures appended { OnOk result (Appends keep self.old.past entry self.new.past) }
        ensures state { OnOk result (state_now self.new.past ≡ after (state_now self.old.past) entry) }
        ensures point { OnOk result (point_of self.new.past ≡ point_of self.old.past + 1) }
        ensures held { OnOk result (self.new.held ≡ None) }
        ensures none { OnErr result (self.new ≡ self.old) }
    {
        self.past.append(entry, keep, &self.homes, self.moment)?;
        self.moment = apply_held(&mut self.homes, self.moment, self.held.take());
        Ok(())
    }

    /// The least point from which on the entries and one more of a size are within the two numbers: at most 65,536 entries,
    /// of at most 67,108,864 octets in all.
    pub fn floor(&self, size: u64) -> u64
        requires { size ≤ max_journal_octets }
        ensures from { self.now.past.number ≤ result }
        ensures within { result ≤ point_of self.now.past }
        ensures least { (from : ℕ) → self.now.past.number ≤ from → has_room self.now.past from size ≡ nat_le result from }
    {
        self.past.floor(size)
    }

    /// Whether the entries from a point on and one more of a size are within the two numbers. No crate here calls it;
    /// it is kept for users of the library, who may ask before they append.
    pub fn room(&self, from: u64, size: u64) -> bool
        requires { self.now.past.number ≤ from }
        ensures { result ≡ has_room self.now.past from size }
    {
        self.past.room(from, size)
    }

    /// The records at a point that a question asks for, in key order, told anew from the start. The past begins at the
    /// start's number. No crate here calls it; it is kept for users of the library, who look back.
    pub fn records_at(
        &self,
        alloc: Global,
        point: u64,
        question: &Question,
    ) -> Result<Rrs, NoMemory>
        requires from { self.now.past.number ≤ point }
        requires within { point ≤ point_of self.now.past }
        ensures { IfOk result (λ rrs. rrs ≡ map (λ e. rr_of e.0 e.1) (matching question.now (records_at self.now.past.start self.now.past.history (point - self.now.past.number)))) }
    {
        let homes = self.past.homes_at(alloc, point)?;
        homes.matching(alloc, question)
    }
}
