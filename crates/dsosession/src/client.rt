//! The client's end of a session.

ghost use Rattle.std.specs.Prelude.{◌≡◌, true, false};
ghost use Rattle.dsosession.specs.Reactions.{client_reaction, may_be_keepalive};
ghost use Rattle.dsosession.specs.Timing.{new_clocks, restarted, client_due};

use crate::reaction::{client_reaction, may_be_keepalive};
use crate::session::{ClientReaction, Due, Timers};
use crate::state::SessionState;
use dsotlv::DsoHead;
use std::marker::Model;

/// The client's end of a session (RFC 8490, 5.1 and 6). All moments are milliseconds of one clock.
#[derive(Clone, Copy, Debug)]
pub struct ClientSession {
    state: SessionState,
}

impl Model for ClientSession {
    ghost use Rattle.dsosession.specs.SessionStates.{SessionState};

    ghost Value = { SessionState };

    ghost view = { λ s. s.state };

    ghost inverse = { λ s. record { state = s } };
}

impl ClientSession {
    /// A session whose connection was made at a moment.
    pub fn new(now: u64) -> Self
        ensures { result ≡ record { clocks = new_clocks now; established = false } }
    {
        ClientSession {
            state: SessionState::new(now),
        }
    }

    /// What the client does with a message, by its head. A Keepalive and each answer restart the keepalive timer, any
    /// other message both timers (RFC 8490, 6.3). The head doesn't say to which request an answer belongs: after one
    /// to another request than a Keepalive call `wrote(false, now)` besides.
    pub fn react(&mut self, head: &DsoHead, now: u64) -> ClientReaction
        ensures reaction { result ≡ client_reaction head.now self.old.established }
        ensures clocks { self.new ≡ record self.old { clocks = restarted (may_be_keepalive head.now) now self.old.clocks } }
    {
        let reaction = client_reaction(head, self.established());
        self.wrote(may_be_keepalive(head), now);
        reaction
    }

    /// Says that the client wrote a message, a Keepalive or another, or took the answer to one. It restarts the timers
    /// (RFC 8490, 6.3).
    pub fn wrote(&mut self, keepalive: bool, now: u64)
        ensures { self.new ≡ record self.old { clocks = restarted keepalive now self.old.clocks } }
    {
        self.state.restart(keepalive, now);
    }

    /// From here on the timers are those of a Keepalive that the server sent (RFC 8490, 7.1). How short they are isn't
    /// tested here.
    pub fn adopt(&mut self, timers: Timers)
        ensures { self.new ≡ record self.old { clocks = record self.old.clocks { timers = timers } } }
    {
        self.state.set_timers(timers);
    }

    /// What is due at a moment, where the client asks something or not, and a Keepalive of its own waits for its
    /// answer or not (RFC 8490, 6.4.1 and 6.5.1).
    pub fn moment(&self, now: u64, active: bool, keepalive_out: bool) -> Due
        ensures { result ≡ client_due self.now.clocks now active keepalive_out }
    {
        if !active && self.state.is_inactive(now) {
            return Due::Idle;
        }
        if !keepalive_out && self.state.is_quiet(now) {
            return Due::Keepalive;
        }
        Due::Nothing
    }

    /// From here on the session is established (RFC 8490, 5.1).
    pub fn establish(&mut self)
        ensures { self.new ≡ record self.old { established = true } }
    {
        self.state.establish();
    }

    /// Whether the session is established (RFC 8490, 5.1).
    pub fn established(&self) -> bool
        ensures { result ≡ self.now.established }
    {
        self.state.established()
    }
}
