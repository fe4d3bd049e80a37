//! A hub behind its lock, as one thread calls it.

ghost use Rattle.std.specs.Prelude.{◌≡◌, ◌==◌, ◌≤◌, ◌⊎◌, None, Some, false, true, length, IfOk, IfSome, OnErr};
ghost use Rattle.push_base.specs.Limits.{max_datagram, max_moment};
ghost use Rattle.dnswire.specs.Reading.{hearing_of};
ghost use Rattle.pushserver.specs.Counting.{octets_of};
ghost use Rattle.pushserver.specs.Observing.{SaysWhy};
ghost use Rattle.hubloops.specs.Calls.{Asked, Gave, Left, Passed, Received, Took, Went, fault_of};
ghost use Rattle.hublock.specs.Feeds.{each, one_change_more, one_moment_more, RisesAsGone, RisesAsHeard};
ghost use Rattle.hubloops.specs.Gates.{DoesApart, DoesTurn, IsIdle, Tells, Waits, has_nothing, with_line, with_session};
ghost use Rattle.hublock.specs.Sharing.{with_feed};

use crate::log_lines::{reason_in, tell_asking, tell_change, tell_end, tell_going, tell_hearing};
use crate::wakeups::LastSeen;
use crate::{Books, Feed, HubLock, Signal};
use dsosession::session::EndReason;
use hubloops::Gate;
use log::Log;
use push_base::{NoMemory, Role};
use pushserver::{Given, Heard, HubFault};
use std::marker::Model;
use std::sync::Wait;

/// A feed of one part of each ledger.
#[derive(Drop)]
pub struct OnePart<B: Books> {
    pub feed: Feed<B>,
    pub ghost one: { feed.parts ≡ each 1 },
}

/// A hold of the hub behind its lock, for one role, with a feed of its own. It tells nothing of the hub.
#[derive(Drop)]
pub struct Shared<R: Wait + Copy, B: Books> {
    rt: R,
    lock: HubLock<B>,
    feed: Feed<B>,
    role: Role,
    // What it knows since it called the hub last, and why the hub ended its session, once that was told. Contracts see neither.
    known: LastSeen,
    why: Option<EndReason>,
}

impl<R: Wait + Copy, B: Books> Model for Shared<R, B> {
    ghost use Rattle.std.specs.Prelude.{◌≡◌};
    ghost use Rattle.hublock.specs.Sharing.{SharedState};
    ghost use Rattle.hublock.specs.Feeds.{each};

    ghost Value = { SharedState };

    ghost view = { λ s. record { feed = s.feed; role = s.role } };

    ghost invariant = { λ s. s.feed.parts ≡ each 1 };
}

impl<R: Wait + Copy, B: Books> Shared<R, B> {
    /// A hold for a role, with a feed of one part of each ledger.
    pub fn new(rt: R, lock: &HubLock<B>, feed: Feed<B>, role: Role) -> Result<Self, NoMemory>
        requires { feed.parts ≡ each 1 }
        ensures { IfOk result (λ shared. shared ≡ record { feed = feed; role = role }) }
    {
        Ok(Shared {
            rt,
            lock: lock.again()?,
            feed,
            role,
            known: LastSeen::nothing(),
            why: None,
        })
    }
}

impl<R: Log + Wait + Copy, B: Books> Gate for Shared<R, B> {
    type Left = OnePart<B>;

    ghost state = { λ _. None };

    ghost left = { λ _. None };

    ghost role = { λ s. Some s.role };

    fn take(&mut self, session: u64, piece: &[u8]) -> usize
        ensures call { DoesTurn (Took session piece.now result) None None }
        ensures idle { IsIdle (result == 0) None }
        ensures bound { result ≤ length piece.now }
        ensures feed { self.new ≡ self.old }
    {
        let mut locked = self.lock.held.locked.lock(&self.rt);
        let count = locked.take(session, piece);
        self.known = self.lock.held.leave(self.role, locked);
        count
    }

    fn give(&mut self, session: u64, buf: &mut [u8]) -> Result<Given, HubFault>
        ensures call { DoesTurn (Gave session buf.old buf.new result) None None }
        ensures idle { IsIdle (has_nothing result) None }
        ensures bound { IfOk result (λ given. octets_of given ≤ length buf.old) }
        ensures feed { (self.new ≡ self.old) ⊎ (self.new ≡ with_feed self.old (one_change_more self.old.feed)) }
        ensures err { OnErr result (self.new ≡ self.old) }
    {
        let mut locked = self.lock.held.locked.lock(&self.rt);
        let answer = locked.give(session, buf, &mut self.feed);
        let wakes = locked.wakes();
        self.known = self.lock.held.leave(self.role, locked);
        self.why = reason_in(&answer, self.why);
        tell_change(&self.rt, session, wakes);
        answer
    }

    fn hear(&mut self, link: usize, datagram: &[u8]) -> Result<Heard, HubFault>
        ensures call { DoesTurn (Received link datagram.now result) None None }
        ensures idle { IsIdle false None }
        ensures unread { IfOk result (λ heard. SaysWhy heard (hearing_of datagram.now)) }
        ensures feed { RisesAsHeard result self.old.feed self.new.feed }
        ensures role { self.new.role ≡ self.old.role }
    {
        let mut locked = self.lock.held.locked.lock(&self.rt);
        let answer = locked.hear(link, datagram, &mut self.feed);
        self.known = self.lock.held.leave(self.role, locked);
        tell_hearing(&self.rt, link, datagram.len(), &answer);
        answer
    }

    fn ask(&mut self, link: usize, buf: &mut [u8]) -> Result<Option<usize>, HubFault>
        requires { max_datagram ≤ length buf.old }
        ensures call { DoesTurn (Asked link buf.old buf.new result) None None }
        ensures idle { IsIdle false None }
        ensures bound { IfOk result (λ count. IfSome count (λ n. n ≤ length buf.old)) }
        ensures feed { self.new ≡ self.old }
    {
        let mut locked = self.lock.held.locked.lock(&self.rt);
        let answer = locked.ask(link, buf);
        self.known = self.lock.held.leave(self.role, locked);
        tell_asking(&self.rt, link, &answer);
        answer
    }

    fn gone(&mut self, link: usize) -> Result<bool, HubFault>
        ensures call { DoesApart (Went link result) None None }
        ensures idle { IsIdle false None }
        ensures feed { RisesAsGone result self.old.feed self.new.feed }
        ensures role { self.new.role ≡ self.old.role }
    {
        let mut locked = self.lock.held.locked.lock(&self.rt);
        let answer = locked.gone(link, &mut self.feed);
        self.known = self.lock.held.leave(self.role, locked);
        tell_going(&self.rt, link, &answer);
        answer
    }

    fn moment(&mut self, at: u64) -> Result<(), HubFault>
        requires { at ≤ max_moment }
        ensures call { DoesTurn (Passed at (fault_of result)) None None }
        ensures idle { IsIdle false None }
        ensures feed { (self.new ≡ self.old) ⊎ (self.new ≡ with_feed self.old (one_moment_more self.old.feed)) }
        ensures err { OnErr result (self.new ≡ self.old) }
    {
        let mut locked = self.lock.held.locked.lock(&self.rt);
        let answer = locked.moment(at, &mut self.feed);
        self.known = self.lock.held.leave(self.role, locked);
        answer
    }

    fn end(&mut self, session: u64)
        ensures call { DoesApart (Left session) None None }
        ensures feed { self.new ≡ self.old }
    {
        let mut locked = self.lock.held.locked.lock(&self.rt);
        locked.end(session);
        self.lock.held.leave_at_end(locked);
        tell_end(&self.rt, session, self.why);
    }

    fn line_over(&mut self, session: u64)
        ensures tells { Tells (with_line session) None None }
        ensures feed { self.new ≡ self.old }
    {
        self.lock.signal(&self.rt, Signal::LineOver(session));
    }

    fn session_over(&mut self)
        ensures tells { Tells with_session None None }
        ensures feed { self.new ≡ self.old }
    {
        self.lock.signal(&self.rt, Signal::SessionOver);
    }

    fn pause(&mut self)
        ensures waits { Waits None None }
        ensures feed { self.new ≡ self.old }
    {
        self.lock.held.wakeups.wait(&self.rt, self.role, self.known);
    }

    fn done(&mut self) -> bool
        ensures feed { self.new ≡ self.old }
    {
        match self.known.is_done(&self.lock.held.wakeups, self.role) {
            Some(is_done) => is_done,
            None => self.lock.held.locked.lock(&self.rt).is_done(self.role),
        }
    }

    fn leave(self) -> OnePart<B>
        ensures feed { result.feed ≡ self.feed }
    {
        let Shared { feed, .. } = self;
        OnePart { feed }
    }
}
