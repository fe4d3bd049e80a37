//! The value under the lock.

ghost use Rattle.std.specs.Prelude.{◌≡◌, ◌≤◌, ◌+◌, length, IfOk, IfSome, OnErr, IsErrOf};
ghost use Rattle.push_base.specs.Limits.{max_datagram, max_moment};
ghost use Rattle.dnswire.specs.Reading.{hearing_of};
ghost use Rattle.history.specs.Totals.{totals};
ghost use Rattle.pushserver.specs.PlainHubs.{Hub as Plain};
ghost use Rattle.pushserver.specs.Hubs.{max_sessions};
ghost use Rattle.pushserver.specs.KeptHubs.{StandsFor};
ghost use Rattle.pushserver.specs.Counting.{octets_of};
ghost use Rattle.pushserver.specs.Observing.{SaysWhy};
ghost use Rattle.hubloops.specs.Calls.{Asked, Connected, Does, Gave, Left, Passed, Received, Took, Went, fault_of};
ghost use Rattle.hublock.specs.Feeds.{IsBelow, each, parts_each};
ghost use Rattle.hublock.specs.Inside.{AcceptsAsGone, AcceptsAsHeard, AcceptsNone, MayAcceptChange, MayAcceptMoment, counted, is_done, signalled, with_hub, without_mark};

use crate::books::{Books, Changes, Hearings, Moments, Sessions};
use crate::marks::Marks;
use crate::wakeups::{Wakes, wakes_at_entry, wakes_at_give, wakes_at_signal, wakes_at_take};
use crate::{Feed, Seats, Signal};
use history::entry::Totals;
use hubasking::Hub;
use push_base::Role;
use pushserver::{ConnectFault, Given, Heard, HubFault};
use std::marker::Model;
use std::sync::ledger::Book;

/// The hub, with the books of what was accepted and of the sessions made, and what ends the loops.
#[derive(Drop)]
pub struct Locked<B: Books> {
    hub: Hub,
    changes: Book<Changes<B>>,
    heard: Book<Hearings<B>>,
    moments: Book<Moments<B>>,
    made: Book<Sessions<B>>,
    over: Marks,
    left: u64,
    quit: bool,
    // Who may wait for what the last call changed. Contracts don't see it.
    wakes: Wakes,
}

impl<B: Books> Model for Locked<B> {
    ghost use Rattle.hublock.specs.Inside.{Holds, LockedState};

    ghost Value = { LockedState };

    ghost view = { λ l. record { hub = l.hub; books = record { changes = l.changes.total; heard = l.heard.total; moments = l.moments.total }; seats = l.made.total; over = l.over; left = l.left; quit = l.quit } };

    ghost invariant = { λ l. Holds l.hub (record { changes = l.changes.total; heard = l.heard.total; moments = l.moments.total }) l.made.total };
}

impl<B: Books> Locked<B> {
    pub(crate) fn new(
        hub: Hub,
        changes: Book<Changes<B>>,
        heard: Book<Hearings<B>>,
        moments: Book<Moments<B>>,
        made: Book<Sessions<B>>,
        over: Marks,
    ) -> Self
        requires changes { changes.total ≡ (counted hub).changes }
        requires heard { heard.total ≡ (counted hub).heard }
        requires moments { moments.total ≡ (counted hub).moments }
        requires made { made.total ≡ hub.hub.numbers_given }
        requires stands { (plain : Plain) × StandsFor hub.hub plain }
        ensures { result.hub ≡ hub }
    {
        Locked {
            hub,
            changes,
            heard,
            moments,
            made,
            over,
            left: 0,
            quit: false,
            wakes: Wakes::Nobody,
        }
    }

    /// The hub stands for a plain one, whose counts are the totals of the books. No crate here calls it: it says what
    /// holds at each moment, for proofs of users of the library.
    pub fn holds(&self)
        ensures { (plain : Plain) × StandsFor self.now.hub.hub plain × (self.now.books ≡ totals plain.history) × (self.now.seats ≡ plain.numbers_given) }
    {
        let _ = &self.hub;
    }

    /// Octets that a session's client sent. Gives how many were taken.
    pub fn take(&mut self, session: u64, piece: &[u8]) -> usize
        ensures call { Does self.old.hub (Took session piece.now result) self.new.hub }
        ensures rest { self.new ≡ with_hub self.old self.new.hub }
        ensures counts { counted self.new.hub ≡ counted self.old.hub }
        ensures bound { result ≤ length piece.now }
    {
        let count = self.hub.take(session, piece);
        self.wakes = wakes_at_take(session, count);
        count
    }

    /// One piece of work for a session.
    pub fn give(
        &mut self,
        session: u64,
        buf: &mut [u8],
        feed: &mut Feed<B>,
    ) -> Result<Given, HubFault>
        ensures call { Does self.old.hub (Gave session buf.old buf.new result) self.new.hub }
        ensures rest { self.new ≡ with_hub self.old self.new.hub }
        ensures bound { IfOk result (λ given. octets_of given ≤ length buf.old) }
        ensures feed { MayAcceptChange self.old.hub self.new.hub feed.old feed.new }
        ensures err { OnErr result (AcceptsNone self.old.hub self.new.hub feed.old feed.new) }
    {
        let before = self.hub.counts();
        let answer = self.hub.give_uncounted(session, buf);
        let after = self.hub.counts();
        feed.record(
            &mut self.changes,
            &mut self.heard,
            &mut self.moments,
            before,
            after,
        );
        let has_entered = after.changes > before.changes;
        self.wakes = wakes_at_give(&self.hub, session, &answer, has_entered);
        answer
    }

    /// A datagram of a link.
    pub fn hear(
        &mut self,
        link: usize,
        datagram: &[u8],
        feed: &mut Feed<B>,
    ) -> Result<Heard, HubFault>
        ensures call { Does self.old.hub (Received link datagram.now result) self.new.hub }
        ensures rest { self.new ≡ with_hub self.old self.new.hub }
        ensures feed { AcceptsAsHeard result self.old.hub self.new.hub feed.old feed.new }
        ensures unread { IfOk result (λ heard. SaysWhy heard (hearing_of datagram.now)) }
    {
        let before = self.hub.counts();
        let answer = self.hub.hear_uncounted(link, datagram);
        let after = self.hub.counts();
        feed.record(
            &mut self.changes,
            &mut self.heard,
            &mut self.moments,
            before,
            after,
        );
        self.wakes = wakes_at_entry(&self.hub, after.heard > before.heard);
        answer
    }

    /// The link is asked what is due first. Gives how many octets its datagram has. Nobody waits for that.
    pub fn ask(&mut self, link: usize, buf: &mut [u8]) -> Result<Option<usize>, HubFault>
        requires { max_datagram ≤ length buf.old }
        ensures call { Does self.old.hub (Asked link buf.old buf.new result) self.new.hub }
        ensures rest { self.new ≡ with_hub self.old self.new.hub }
        ensures counts { counted self.new.hub ≡ counted self.old.hub }
        ensures bound { IfOk result (λ count. IfSome count (λ n. n ≤ length buf.old)) }
    {
        self.wakes = Wakes::Nobody;
        Ok(self.hub.ask(link, buf)?)
    }

    /// A link has gone away, and all its rows with it. Gives whether that was entered.
    pub fn gone(&mut self, link: usize, feed: &mut Feed<B>) -> Result<bool, HubFault>
        ensures call { Does self.old.hub (Went link result) self.new.hub }
        ensures rest { self.new ≡ with_hub self.old self.new.hub }
        ensures feed { AcceptsAsGone result self.old.hub self.new.hub feed.old feed.new }
    {
        let before = self.hub.counts();
        let answer = self.hub.link_gone_uncounted(link);
        let after = self.hub.counts();
        feed.record(
            &mut self.changes,
            &mut self.heard,
            &mut self.moments,
            before,
            after,
        );
        self.wakes = wakes_at_entry(&self.hub, after.heard > before.heard);
        answer
    }

    /// It is a moment.
    pub fn moment(&mut self, at: u64, feed: &mut Feed<B>) -> Result<(), HubFault>
        requires { at ≤ max_moment }
        ensures call { Does self.old.hub (Passed at (fault_of result)) self.new.hub }
        ensures rest { self.new ≡ with_hub self.old self.new.hub }
        ensures feed { MayAcceptMoment self.old.hub self.new.hub feed.old feed.new }
        ensures err { OnErr result (AcceptsNone self.old.hub self.new.hub feed.old feed.new) }
    {
        let before = self.hub.counts();
        let answer = self.hub.moment_uncounted(at);
        let after = self.hub.counts();
        feed.record(
            &mut self.changes,
            &mut self.heard,
            &mut self.moments,
            before,
            after,
        );
        let has_entered = after.moments > before.moments;
        self.wakes = wakes_at_entry(&self.hub, has_entered);
        answer
    }

    /// A session's connection is gone, and its mark with it.
    pub fn end(&mut self, session: u64)
        ensures call { Does self.old.hub (Left session) self.new.hub }
        ensures rest { self.new ≡ record (with_hub self.old self.new.hub) { over = without_mark session self.old.over } }
        ensures counts { counted self.new.hub ≡ counted self.old.hub }
    {
        self.hub.end(session);
        self.over.remove(session);
        self.wakes = Wakes::Session(session);
    }

    /// A new session.
    pub(crate) fn connect(&mut self, seats: &mut Seats<B>) -> Result<u64, ConnectFault>
        requires { seats.old.parts ≡ parts_each }
        ensures call { Does self.old.hub (Connected result) self.new.hub }
        ensures parts { seats.new.parts ≡ seats.old.parts }
        ensures made { seats.old.made ≡ self.old.hub.hub.numbers_given }
        ensures ok { IfOk result (λ number. (number ≡ seats.old.made) × (seats.new.made ≡ seats.old.made + 1)) }
        ensures err { OnErr result (seats.new.made ≡ seats.old.made) }
        ensures no_seat { IsErrOf result ConnectFault.NoSeat → max_sessions ≤ seats.old.made }
    {
        self.made.audit(&mut seats.share);
        let answer = self.hub.connect();
        if answer.is_ok() {
            self.made.add(&mut seats.share, 1);
        }
        answer
    }

    /// The journal's counts, which are the sums of a feed that has every part.
    pub fn totals(&mut self, feed: &mut Feed<B>) -> Totals
        requires { feed.old.parts ≡ each parts_each }
        ensures counts { result ≡ counted self.old.hub }
        ensures sums { result ≡ feed.old.sums }
        ensures same { (self.new ≡ self.old) × (feed.new ≡ feed.old) }
    {
        feed.audit(&mut self.changes, &mut self.heard, &mut self.moments);
        self.hub.counts()
    }

    /// Through a feed never more of a group was accepted than the journal counts. No crate here calls it: it says what
    /// holds at each moment, for proofs of users of the library.
    pub fn finds(&mut self, feed: &mut Feed<B>)
        ensures bound { IsBelow feed.old.sums (counted self.old.hub) }
        ensures same { (self.new ≡ self.old) × (feed.new ≡ feed.old) }
    {
        feed.audit(&mut self.changes, &mut self.heard, &mut self.moments);
    }

    /// Who may wait for what the last call changed.
    pub(crate) fn wakes(&self) -> Wakes {
        self.wakes
    }

    /// Whether nothing is left to do for a role.
    pub fn is_done(&self, role: Role) -> bool
        ensures { result ≡ is_done self.now role }
    {
        if self.quit {
            return true;
        }
        match role {
            Role::Reader(session) => !self.hub.live(session),
            Role::Writer(session) => self.over.has(session),
            Role::Link(_) | Role::Clock => self.left == 0,
        }
    }

    /// What is told to the loops of all.
    pub fn signal(&mut self, signal: Signal)
        ensures { self.new ≡ signalled signal self.old }
    {
        match signal {
            Signal::Begun(sessions) => self.left = sessions,
            Signal::LineOver(session) => self.over.add(session, &self.hub),
            Signal::SessionOver => self.left = self.left.saturating_sub(1),
            Signal::Quit => self.quit = true,
        }
        self.wakes = wakes_at_signal(signal);
    }
}
