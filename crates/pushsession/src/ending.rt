//! How a session comes to its end (RFC 8490, 6.4 to 6.6).

ghost use Rattle.std.specs.Prelude.{◌≡◌, [], Some, None};
ghost use Rattle.dsosession.specs.Timing.{has_passed};
ghost use Rattle.pushsession.specs.Sessions.{asked_to_stop, cleared, due, ended_with, stopped, timed};
ghost use Rattle.pushsession.specs.Kept.{keeping};
ghost use Rattle.subscr.specs.Watching.{watching_of};
ghost use Rattle.pushsession.specs.Watched.{Rewatches};

use crate::session::PushSession;
use crate::session_status::SessionStatus;
use coalesce::Queue;
use dsosession::session::EndReason;
use dsosession::times::STOP_TIME;
use subscr::{Subscriptions, Watchers};

/// Whether so long has passed since a moment.
fn has_passed(span: u64, since: u64, now: u64) -> bool
    ensures { result ≡ has_passed span since now }
{
    since <= now && span <= now - since
}

impl PushSession {
    /// Lets go of all questions, with the names that they watch, and of all names that wait. The session has this number.
    pub(crate) fn clear(&mut self, standing: SessionStatus, watchers: &mut Watchers, number: u64)
        ensures session { self.new ≡ cleared keeping standing self.old }
        ensures watched { Rewatches number (watching_of watchers.old) (watching_of watchers.new) self.old self.new }
    {
        self.unwatch(watchers, number);
        let alloc = *self.filled.allocator();
        self.subscriptions = Subscriptions::new(alloc);
        self.filled = Vec::new(alloc);
        self.queue = Queue::new(alloc);
        self.standing = standing;
    }

    /// Asks for a stop with an RCODE and a Retry Delay in milliseconds, in place of one asked for before (RFC 8490,
    /// 6.6.1). A session that has stopped or ended stays as it is.
    pub fn stop(&mut self, rcode: u8, delay: u32)
        ensures { self.new ≡ asked_to_stop rcode delay self.old }
    {
        if self.standing.is_open() {
            self.standing = SessionStatus::AskedToStop(rcode, delay);
        }
    }

    /// Ends it: it asks for nothing more and watches no name, and no name waits. Octets that were written stay until they
    /// are handed on.
    pub fn end(&mut self, reason: EndReason, watchers: &mut Watchers, number: u64)
        ensures session { self.new ≡ ended_with keeping reason self.old }
        ensures watched { Rewatches number (watching_of watchers.old) (watching_of watchers.new) self.old self.new }
    {
        self.clear(SessionStatus::Ended(reason), watchers, number);
    }

    /// Does what was asked for by a stop: it writes its Retry Delay, or ends where it isn't established (RFC 8490,
    /// 6.6.1).
    pub fn carry_out_stop(
        &mut self,
        rcode: u8,
        delay: u32,
        now: u64,
        watchers: &mut Watchers,
        number: u64,
    )
        requires { self.old.output ≡ [] }
        ensures session { self.new ≡ stopped keeping rcode delay now self.old }
        ensures watched { Rewatches number (watching_of watchers.old) (watching_of watchers.new) self.old self.new }
    {
        if self.established() {
            self.write_stop(rcode, delay, now, watchers, number);
        } else {
            self.end(EndReason::Stopped, watchers, number);
        }
    }

    /// Why it ends at a moment, if it does.
    fn due(&self, now: u64) -> Option<EndReason>
        ensures { result ≡ due keeping now self.now }
    {
        match self.standing {
            SessionStatus::Ended(_) => None,
            SessionStatus::Stopped(since) => {
                if has_passed(STOP_TIME, since, now) {
                    Some(EndReason::Stopped)
                } else {
                    None
                }
            }
            SessionStatus::Live | SessionStatus::AskedToStop(_, _) => {
                self.state.moment(now, self.subscriptions.len())
            }
        }
    }

    /// It is a moment: a stopped session ends after 5,000 milliseconds (RFC 8490, 6.6.1), and one that goes on by its
    /// timers (RFC 8490, 6.4 and 6.5).
    pub fn moment(&mut self, now: u64, watchers: &mut Watchers, number: u64)
        ensures session { self.new ≡ timed keeping now self.old }
        ensures watched { Rewatches number (watching_of watchers.old) (watching_of watchers.new) self.old self.new }
    {
        if let Some(reason) = self.due(now) {
            self.end(reason, watchers, number);
        }
    }
}
