//! Whether a session goes on.

ghost use Rattle.std.specs.Prelude.{◌≡◌};
ghost use Rattle.pushsession.specs.Sessions.{is_open};

use dsosession::session::EndReason;

/// Whether a session of the server goes on (RFC 8490, 6.6).
#[derive(Clone, Copy, Debug, PartialEq, Eq)]
pub enum SessionStatus {
    /// It does.
    Live,
    /// A stop was asked for, with an RCODE and a Retry Delay in milliseconds, and isn't written yet.
    AskedToStop(u8, u32),
    /// Its Retry Delay was written at a moment.
    Stopped(u64),
    /// It has ended.
    Ended(EndReason),
}

impl SessionStatus {
    /// Whether octets are still taken.
    pub fn is_open(self) -> bool
        ensures { result ≡ is_open self }
    {
        matches!(self, SessionStatus::Live | SessionStatus::AskedToStop(_, _))
    }
}
