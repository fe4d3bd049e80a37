//! What both ends keep of a session.

ghost use Rattle.std.specs.Prelude.{◌≡◌, ◌≤◌, ℕ, true, false};
ghost use Rattle.push_base.specs.Limits.{max_number};
ghost use Rattle.dsosession.specs.Timing.{is_idle, is_inactive, is_quiet, is_silent, new_clocks, restarted};
ghost use Rattle.dsosession.specs.SessionStates.{has_come};

use crate::session::Timers;
use crate::times::LEAST_IDLE;
use crate::timing::{default_timers, end_of, has_run_out};
use std::marker::Model;

/// What either end keeps of a session: its timers, the moments of the last message and of the last one that is no
/// Keepalive, and whether the session is established (RFC 8490, 5.1 and 6). All moments are milliseconds of one clock.
#[derive(Clone, Copy, Debug)]
pub(crate) struct SessionState {
    timers: Timers,
    last_message: u64,
    last_other: u64,
    established: bool,
}

impl Model for SessionState {
    ghost use Rattle.dsosession.specs.SessionStates.{SessionState};

    ghost Value = { SessionState };

    ghost view = { λ s. record { clocks = record { timers = s.timers; last_message = s.last_message; last_other = s.last_other }; established = s.established } };

    ghost inverse = { λ s. record { timers = s.clocks.timers; last_message = s.clocks.last_message; last_other = s.clocks.last_other; established = s.established } };
}

impl SessionState {
    /// A session whose connection was made at a moment.
    pub(crate) fn new(now: u64) -> Self
        ensures { result ≡ record { clocks = new_clocks now; established = false } }
    {
        SessionState {
            timers: default_timers(),
            last_message: now,
            last_other: now,
            established: false,
        }
    }

    /// A message came or was written, a Keepalive or another. It restarts the timers (RFC 8490, 6.3).
    pub(crate) fn restart(&mut self, keepalive: bool, now: u64)
        ensures { self.new ≡ record self.old { clocks = restarted keepalive now self.old.clocks } }
    {
        self.last_message = now;
        if !keepalive {
            self.last_other = now;
        }
    }

    /// From here on the timers are those of a Keepalive that the server sent (RFC 8490, 7.1).
    pub(crate) fn set_timers(&mut self, timers: Timers)
        ensures { self.new ≡ record self.old { clocks = record self.old.clocks { timers = timers } } }
    {
        self.timers = timers;
    }

    /// From here on the session is established (RFC 8490, 5.1).
    pub(crate) fn establish(&mut self)
        ensures { self.new ≡ record self.old { established = true } }
    {
        self.established = true;
    }

    /// Whether the session is established (RFC 8490, 5.1).
    pub(crate) fn established(&self) -> bool
        ensures { result ≡ self.now.established }
    {
        self.established
    }

    /// The moment from which the session is silent (RFC 8490, 6.5.1).
    pub(crate) fn silent_from(&self) -> Option<u64>
        ensures { (now : ℕ) → now ≤ max_number → has_come result now ≡ is_silent self.now.clocks now }
    {
        end_of(
            self.timers.keepalive,
            2 * u64::from(self.timers.keepalive),
            self.last_message,
        )
    }

    /// The moment from which the session is idle, where it has so many subscriptions (RFC 8490, 6.4.1).
    pub(crate) fn idle_from(&self, subscriptions: usize) -> Option<u64>
        ensures { (now : ℕ) → now ≤ max_number → has_come result now ≡ is_idle self.now.clocks now subscriptions }
    {
        if subscriptions != 0 {
            return None;
        }
        let span = (2 * u64::from(self.timers.inactivity)).max(LEAST_IDLE);
        end_of(self.timers.inactivity, span, self.last_other)
    }

    /// Whether the inactivity timeout has passed since the last message that is no Keepalive (RFC 8490, 6.4.1).
    pub(crate) fn is_inactive(&self, now: u64) -> bool
        ensures { result ≡ is_inactive self.now.clocks now }
    {
        has_run_out(self.timers.inactivity, self.last_other, now)
    }

    /// Whether the keepalive interval has passed since the last message (RFC 8490, 6.5.1).
    pub(crate) fn is_quiet(&self, now: u64) -> bool
        ensures { result ≡ is_quiet self.now.clocks now }
    {
        has_run_out(self.timers.keepalive, self.last_message, now)
    }
}
