//! Sessions that would need more of the past than is kept, and the points that the others need (this project's own).

ghost use Rattle.std.specs.Prelude.{◌≡◌};
ghost use Rattle.subscr.specs.Watching.{watching_of};
ghost use Rattle.pushsession.specs.Watched.{Rewatches};
ghost use Rattle.livesessions.specs.Behind.{behind_from, ended_from, needed_by, needed_with};
ghost use Rattle.livesessions.specs.NumberedSessions.{all_sessions, AreApart};
ghost use Rattle.livesessions.specs.Watched.{Watches};

use dsosession::session::EndReason;
use pushsession::PushSession;
use subscr::Watchers;

/// The least point since which a name of an open session waits, where it is before the first that may be kept.
fn behind_from(session: &PushSession, floor: u64) -> Option<u64>
    ensures { result ≡ behind_from floor session.now }
{
    let point = session.least()?;
    if point < floor && session.standing().is_open() {
        Some(point)
    } else {
        None
    }
}

/// A session that is behind ends.
fn end_one(entry: &mut (u64, PushSession), floor: u64, watchers: &mut Watchers)
    ensures ended { entry.new ≡ (entry.old.0, ended_from floor entry.old.1) }
    ensures watched { Rewatches entry.old.0 (watching_of watchers.old) (watching_of watchers.new) entry.old.1 entry.new.1 }
{
    if let Some(point) = behind_from(&entry.1, floor) {
        entry.1.end(EndReason::Behind(point), watchers, entry.0);
    }
}

/// Each session that is behind ends.
pub(crate) fn end_each(numbered: &mut [(u64, PushSession)], floor: u64, watchers: &mut Watchers)
    ensures ended { numbered.new ≡ all_sessions (ended_from floor) numbered.old }
    ensures watched { AreApart numbered.old → Watches (watching_of watchers.old) numbered.old → Watches (watching_of watchers.new) numbered.new }
{
    'sessions: for place in 0..numbered.len() {
        end_one(&mut numbered[place], floor, watchers);
    }
}

/// The least of a point and that since which a name of a session waits, where the session isn't behind.
fn needed_with(session: &PushSession, floor: u64, needed: u64) -> u64
    ensures { result ≡ needed_with floor needed session.now }
{
    match session.least() {
        Some(point) => {
            if floor <= point && point < needed {
                point
            } else {
                needed
            }
        }
        None => needed,
    }
}

/// The least of a point and those since which names of sessions wait that aren't behind.
pub(crate) fn needed_by(numbered: &[(u64, PushSession)], floor: u64, newest: u64) -> u64
    ensures { result ≡ needed_by floor newest numbered.now }
{
    let mut needed = newest;
    'sessions: for entry in numbered {
        needed = needed_with(&entry.1, floor, needed);
    }
    needed
}
