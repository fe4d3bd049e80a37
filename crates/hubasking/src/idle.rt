//! Sessions for which nothing waits.

ghost use Rattle.std.specs.Prelude.{◌≡◌};
ghost use Rattle.hubasking.specs.Idle.{StandsForOne, is_idle, session_at};

use pushsession::{PushSession, SessionStatus};

/// Whether a session goes on, and no octets, no whole message and no name wait.
fn is_idle(session: &PushSession) -> bool
    ensures { result ≡ is_idle session.now }
{
    match session.standing() {
        SessionStatus::Live => !session.has_output()
            && session.message().is_empty()
            && session.least().is_none(),
        SessionStatus::AskedToStop(_, _) | SessionStatus::Stopped(_) | SessionStatus::Ended(_) =>
            false,
    }
}

/// The number of the session in a place, and whether nothing waits for it.
pub(crate) fn session_at(hub: &pushserver::Hub, place: usize) -> Option<(u64, bool)>
    requires { StandsForOne hub.now }
    ensures { result ≡ session_at hub.now place }
{
    match hub.session_at(place) {
        Some((number, session)) => Some((number, is_idle(session))),
        None => None,
    }
}
