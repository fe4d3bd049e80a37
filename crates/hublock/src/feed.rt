//! What was accepted through one thread.

ghost use Rattle.std.specs.Prelude.{◌≡◌, ◌<◌, ◌≤◌, ◌+◌, ◌-◌};
ghost use Rattle.hublock.specs.Feeds.{HasAtLeast, IsBelow, joined, one_part, parts_each, raised, with_one_less};

use crate::books::{Books, Changes, Hearings, Moments};
use history::entry::Totals;
use std::marker::Model;
use std::sync::ledger::{Book, Share};

/// A share of the ledgers of changes, hearings and moments: so many entries were accepted through it. It has at least one
/// part of each.
#[derive(Drop)]
pub struct Feed<B: Books> {
    pub(crate) changes: Share<Changes<B>>,
    pub(crate) heard: Share<Hearings<B>>,
    pub(crate) moments: Share<Moments<B>>,
}

impl<B: Books> Model for Feed<B> {
    ghost use Rattle.hublock.specs.Feeds.{FeedState};

    ghost Value = { FeedState };

    ghost view = { λ f. record {
      parts = record { changes = f.changes.parts; heard = f.heard.parts; moments = f.moments.parts };
      sums = record { changes = f.changes.amount; heard = f.heard.amount; moments = f.moments.amount };
    } };

    ghost use Rattle.hublock.specs.Feeds.{HasAtLeast};

    ghost invariant = { λ f. HasAtLeast 1 (record { changes = f.changes.parts; heard = f.heard.parts; moments = f.moments.parts }) };
}

impl<B: Books> Feed<B> {
    /// A feed of one part of each ledger, through which nothing was accepted yet.
    pub fn split(&mut self) -> Feed<B>
        requires { HasAtLeast 2 self.old.parts }
        ensures one { result ≡ one_part }
        ensures rest { self.new ≡ with_one_less self.old }
    {
        let changes = self.changes.split_off(1, 0);
        let heard = self.heard.split_off(1, 0);
        let moments = self.moments.split_off(1, 0);
        Feed {
            changes,
            heard,
            moments,
        }
    }

    /// What was accepted through another counts as accepted through this one.
    pub fn take_in(&mut self, other: Feed<B>)
        ensures { self.new ≡ joined self.old other }
    {
        let Feed {
            changes,
            heard,
            moments,
        } = other;
        self.changes.merge(changes);
        self.heard.merge(heard);
        self.moments.merge(moments);
    }

    /// All that was accepted through both.
    pub fn join(self, other: Feed<B>) -> Feed<B>
        ensures { result ≡ joined self other }
    {
        let mut both = self;
        both.take_in(other);
        both
    }

    /// As many were accepted as the counts rose.
    pub(crate) fn record(
        &mut self,
        changes: &mut Book<Changes<B>>,
        heard: &mut Book<Hearings<B>>,
        moments: &mut Book<Moments<B>>,
        before: Totals,
        after: Totals,
    )
        requires rise { IsBelow before after }
        ensures feed { self.new ≡ raised before after self.old }
        ensures changes { changes.new.total ≡ changes.old.total + (after.changes - before.changes) }
        ensures heard { heard.new.total ≡ heard.old.total + (after.heard - before.heard) }
        ensures moments { moments.new.total ≡ moments.old.total + (after.moments - before.moments) }
    {
        changes.add(&mut self.changes, after.changes - before.changes);
        heard.add(&mut self.heard, after.heard - before.heard);
        moments.add(&mut self.moments, after.moments - before.moments);
    }

    /// How what was accepted stands to the totals of the books.
    pub(crate) fn audit(
        &mut self,
        changes: &mut Book<Changes<B>>,
        heard: &mut Book<Hearings<B>>,
        moments: &mut Book<Moments<B>>,
    )
        ensures same { self.new ≡ self.old }
        ensures books { (changes.new.total ≡ changes.old.total) × (heard.new.total ≡ heard.old.total) × (moments.new.total ≡ moments.old.total) }
        ensures changes { (self.old.sums.changes ≤ changes.old.total) × (self.old.parts.changes ≡ parts_each → self.old.sums.changes ≡ changes.old.total) }
        ensures heard { (self.old.sums.heard ≤ heard.old.total) × (self.old.parts.heard ≡ parts_each → self.old.sums.heard ≡ heard.old.total) }
        ensures moments { (self.old.sums.moments ≤ moments.old.total) × (self.old.parts.moments ≡ parts_each → self.old.sums.moments ≡ moments.old.total) }
    {
        changes.audit(&mut self.changes);
        heard.audit(&mut self.heard);
        moments.audit(&mut self.moments);
    }
}
