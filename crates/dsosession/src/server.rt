//! The server's end of a session.

ghost use Rattle.std.specs.Prelude.{◌≡◌, true, false, Option};
ghost use Rattle.dsosession.specs.Reactions.{server_reaction, is_keepalive};
ghost use Rattle.dsosession.specs.Timing.{new_clocks, restarted, server_ends};
ghost use Rattle.dsosession.specs.SessionStates.{IsDeadline};

use crate::reaction::{is_keepalive, server_reaction};
use crate::session::{EndReason, Reaction, Timers};
use crate::state::SessionState;
use crate::timing::{earlier, has_come, reason_of};
use dsotlv::DsoHead;
use std::marker::Model;

/// The server's end of a session (RFC 8490, 5.1 and 6). All moments are milliseconds of one clock.
#[derive(Clone, Copy, Debug)]
pub struct ServerSession {
    state: SessionState,
}

impl Model for ServerSession {
    ghost use Rattle.dsosession.specs.SessionStates.{SessionState};

    ghost Value = { SessionState };

    ghost view = { λ s. s.state };

    ghost inverse = { λ s. record { state = s } };
}

impl ServerSession {
    /// A session whose connection was accepted at a moment.
    pub fn new(now: u64) -> Self
        ensures { result ≡ record { clocks = new_clocks now; established = false } }
    {
        ServerSession {
            state: SessionState::new(now),
        }
    }

    /// What the server does with a message, by its head. The message restarts the timers (RFC 8490, 6.3).
    pub fn react(&mut self, head: &DsoHead, now: u64) -> Reaction
        ensures reaction { result ≡ server_reaction head.now self.old.established }
        ensures clocks { self.new ≡ record self.old { clocks = restarted (is_keepalive head.now) now self.old.clocks } }
    {
        let reaction = server_reaction(head, self.established());
        self.wrote(is_keepalive(head), now);
        reaction
    }

    /// Says that the server wrote a message, a Keepalive or another. It restarts the timers (RFC 8490, 6.3).
    pub fn wrote(&mut self, keepalive: bool, now: u64)
        ensures { self.new ≡ record self.old { clocks = restarted keepalive now self.old.clocks } }
    {
        self.state.restart(keepalive, now);
    }

    /// From here on the timers are those of a Keepalive that the server sent (RFC 8490, 7.1).
    pub fn grant(&mut self, timers: Timers)
        ensures { self.new ≡ record self.old { clocks = record self.old.clocks { timers = timers } } }
    {
        self.state.set_timers(timers);
    }

    /// Why the session ends at a moment, where it has so many subscriptions; none where it goes on.
    pub fn moment(&self, now: u64, subscriptions: usize) -> Option<EndReason>
        ensures { result ≡ server_ends self.now.clocks now subscriptions }
    {
        let silent = has_come(self.state.silent_from(), now);
        let idle = has_come(self.state.idle_from(subscriptions), now);
        reason_of(silent, idle)
    }

    /// The moment at which the session ends where no message passes until then and it keeps so many subscriptions;
    /// none where it doesn't end.
    pub fn deadline(&self, subscriptions: usize) -> Option<u64>
        ensures { IsDeadline self.now.clocks subscriptions result }
    {
        earlier(
            self.state.silent_from(),
            self.state.idle_from(subscriptions),
        )
    }

    /// From here on the session is established (RFC 8490, 5.1).
    pub fn establish(&mut self)
        ensures { self.new ≡ record self.old { established = true } }
    {
        self.state.establish();
    }

    /// Whether the session is established (RFC 8490, 5.1).
    pub fn established(&self) -> bool
        ensures { result ≡ self.now.established }
    {
        self.state.established()
    }
}
