//! What a session writes, and how that counts (RFC 8490, 6; RFC 8765, 6.3).

ghost use Rattle.std.specs.Prelude.{◌≡◌, ◌+◌, ◌<◌, ◌≤◌, ◌^◌, ◌++◌, [], length};
ghost use Rattle.rrset.specs.Tables.{counted};
ghost use Rattle.coalesce.specs.Sides.{frame_octets};
ghost use Rattle.coalesce.specs.Waiting.{CanBePacked};
ghost use Rattle.dsosession.specs.Timing.{restarted};
ghost use Rattle.pushsession.specs.Sessions.{answers, says_stop};
ghost use Rattle.pushsession.specs.Subscribing.{with_next_push};
ghost use Rattle.pushsession.specs.Kept.{keeping, telling};
ghost use Rattle.subscr.specs.Watching.{watching_of};
ghost use Rattle.pushsession.specs.Watched.{Rewatches};

use crate::session::PushSession;
use crate::session_status::SessionStatus;
use crate::short_messages::{append_message, header, retry_delay};
use dsotlv::LENGTH;
use dsotlv::flags::REQUEST;
use nametable::Index;
use push_base::Steps;
use std::sync::ledger::Ledger;
use subscr::Watchers;

impl PushSession {
    /// A message behind its length was written, so many octets in all: they count, and restart the timers (RFC 8490, 6.3).
    fn wrote(&mut self, size: usize, keepalive: bool, now: u64)
        ensures { self.new ≡ record self.old { made = counted (self.old.made + size); clocks = restarted keepalive now self.old.clocks } }
    {
        self.written = self.written.saturating_add(size as u64);
        self.state.wrote(keepalive, now);
    }

    /// Appends a message to the output: a header, and what stands behind it.
    pub(crate) fn say(&mut self, keepalive: bool, now: u64, header: &[u8], body: &[u8])
        requires size { length header.now + length body.now < 2 ^ 16 }
        requires room { length self.old.output + 2 + length header.now + length body.now ≤ frame_octets }
        ensures { self.new ≡ answers keeping keepalive now (header.now ++ body.now) self.old }
    {
        append_message(&mut self.output, header, body);
        self.wrote(LENGTH + header.len() + body.len(), keepalive, now);
    }

    /// Writes the Retry Delay, an RCODE and milliseconds, and lets go of all questions and names that wait (RFC 8490,
    /// 6.6.1).
    pub(crate) fn write_stop(
        &mut self,
        rcode: u8,
        delay: u32,
        now: u64,
        watchers: &mut Watchers,
        number: u64,
    )
        requires { self.old.output ≡ [] }
        ensures session { self.new ≡ says_stop keeping rcode delay now self.old }
        ensures watched { Rewatches number (watching_of watchers.old) (watching_of watchers.new) self.old self.new }
    {
        let header = header(0, REQUEST + u16::from(rcode));
        self.say(false, now, &header, &retry_delay(delay));
        self.clear(SessionStatus::Stopped(now), watchers, number);
    }

    /// Writes one PUSH of the names that fit, as the questions ask for their records (RFC 8765, 6.3). The names in
    /// front of the first that doesn't fit wait no more, also those with nothing to tell.
    pub fn pack<L: Ledger>(&mut self, index: &Index, now: u64, steps: &mut Steps<L>)
        requires output { self.old.output ≡ [] }
        requires sides { CanBePacked index.now.rows self.old.queue }
        ensures { self.new ≡ with_next_push keeping (telling index.now.rows) now self.old }
    {
        let size = self
            .queue
            .pack(&self.subscriptions, index, &mut self.output, steps);
        if size > 0 {
            self.wrote(size, false, now);
        }
    }
}
