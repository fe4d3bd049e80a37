//! Where the loops of sessions wait, who may wait for a change, and what a loop knows without the lock.

ghost use Rattle.std.specs.Prelude.{◌<◌};
ghost use Rattle.pushserver.specs.Hubs.{max_sessions};

use crate::Signal;
use hubasking::Hub;
use push_base::Role;
use pushserver::{Given, HubFault, MAX_SESSIONS};
use std::array;
use std::sync::atomic::{AtomicU64, Ordering};
use std::sync::{Condvar, Wait};
use std::time::Duration;

/// The longest that a loop waits for a notification, in seconds.
const LONGEST_WAIT: u64 = 10;

/// Who may wait for a change.
#[derive(Clone, Copy)]
pub(crate) enum Wakes {
    /// Nobody: nothing changed for which a loop waits.
    Nobody,
    /// The loops of this session.
    Session(u64),
    /// The loops of the sessions at these places, one bit for each.
    Places(u64),
    /// All loops.
    All,
}

/// Where the loops of sessions wait, and how often something has ended: a line, a session, or all. Sessions share a place
/// where their numbers differ by a multiple of `MAX_SESSIONS`.
#[derive(Drop)]
pub(crate) struct Wakeups {
    places: [Condvar; MAX_SESSIONS],
    endings: AtomicU64,
}

/// What the loop of a role knows since it called the hub last.
#[derive(Clone, Copy)]
pub(crate) struct LastSeen {
    // How often its place was notified by then, for its own call, too.
    notified: u64,
    // How often something had ended by then.
    endings: u64,
    // Whether nothing was left to do then.
    is_done: Option<bool>,
}

/// The place of a session.
fn place_of(session: u64) -> usize
    ensures { result < max_sessions }
{
    (session % MAX_SESSIONS as u64) as usize
}

/// The bit of a session's place.
fn bit_of(session: u64) -> u64 {
    1 << place_of(session)
}

/// The places of the sessions for which something waits.
fn busy_places(hub: &Hub) -> u64 {
    let mut busy = 0;
    'sessions: for place in 0..MAX_SESSIONS {
        if let Some((number, false)) = hub.session(place) {
            busy |= bit_of(number);
        }
    }
    busy
}

/// Who may wait for what is so after an answer for a session, where an entry was made or not.
pub(crate) fn wakes_at_give(
    hub: &Hub,
    session: u64,
    answer: &Result<Given, HubFault>,
    has_entered: bool,
) -> Wakes {
    if has_entered {
        return Wakes::Places(busy_places(hub) | bit_of(session));
    }
    match answer {
        Ok(Given::Bytes(_) | Given::Worked | Given::End(_)) => Wakes::Session(session),
        Ok(Given::Nothing | Given::Ending) | Err(_) => Wakes::Nobody,
    }
}

/// The loops of a session, where it took octets.
pub(crate) fn wakes_at_take(session: u64, count: usize) -> Wakes {
    if count > 0 {
        Wakes::Session(session)
    } else {
        Wakes::Nobody
    }
}

/// The loops of those for whom something waits, where an entry was made.
pub(crate) fn wakes_at_entry(hub: &Hub, has_entered: bool) -> Wakes {
    if has_entered {
        Wakes::Places(busy_places(hub))
    } else {
        Wakes::Nobody
    }
}

/// Those who may wait for what a signal tells. For the others no loop waits: those of links and of the clock ask at each turn.
pub(crate) fn wakes_at_signal(signal: Signal) -> Wakes {
    match signal {
        Signal::LineOver(session) => Wakes::Session(session),
        Signal::Quit => Wakes::All,
        Signal::Begun(_) | Signal::SessionOver => Wakes::Nobody,
    }
}

/// The session at whose place the loop of a role waits. Those of a link and of the clock never do: the first place stands
/// for them.
fn waits_with(role: Role) -> u64 {
    match role {
        Role::Reader(session) | Role::Writer(session) => session,
        Role::Link(_) | Role::Clock => 0,
    }
}

/// How often the place of a role is notified then.
fn notifications_at(role: Role, wakes: Wakes) -> u64 {
    match wakes {
        Wakes::Nobody => 0,
        Wakes::Session(session) => u64::from(place_of(session) == place_of(waits_with(role))),
        Wakes::Places(busy) => u64::from(busy & bit_of(waits_with(role)) != 0),
        Wakes::All => 1,
    }
}

impl LastSeen {
    /// What a loop knows that has called nothing.
    pub(crate) fn nothing() -> LastSeen {
        LastSeen {
            notified: 0,
            endings: 0,
            is_done: None,
        }
    }

    /// Whether nothing is left to do, where that is known without the lock: nothing has ended since. Links and the clock ask
    /// under the lock each time.
    pub(crate) fn is_done(&self, wakeups: &Wakeups, role: Role) -> Option<bool> {
        match role {
            Role::Reader(_) | Role::Writer(_) if self.endings == wakeups.endings() => self.is_done,
            _ => None,
        }
    }
}

impl Wakeups {
    /// Where nobody waits, and nothing has ended.
    pub(crate) fn new() -> Wakeups {
        Wakeups {
            places: array::from_fn(|_| Condvar::new()),
            endings: AtomicU64::new(0),
        }
    }

    /// Where the loop of a role waits.
    fn of(&self, role: Role) -> &Condvar {
        &self.places[place_of(waits_with(role))]
    }

    /// How often the place of a role was notified.
    fn notified(&self, role: Role) -> u64 {
        self.of(role).notifications()
    }

    /// How often something ended.
    fn endings(&self) -> u64 {
        self.endings.load(Ordering::SeqCst)
    }

    /// Something ends. To be called under the lock.
    pub(crate) fn count_ending(&self) {
        self.endings.fetch_add(1, Ordering::SeqCst);
    }

    /// What the loop of a role knows that sees under the lock whether nothing is left to do, and then wakes these.
    pub(crate) fn known(&self, role: Role, is_done: bool, wakes: Wakes) -> LastSeen {
        LastSeen {
            notified: self
                .notified(role)
                .wrapping_add(notifications_at(role, wakes)),
            endings: self.endings(),
            is_done: Some(is_done),
        }
    }

    /// Waits until the place of a role is notified, unless it was since a loop knew this, or nothing was left to do then.
    pub(crate) fn wait<R: Wait>(&self, rt: &R, role: Role, known: LastSeen) {
        if known.is_done != Some(true) {
            let longest = Duration::from_secs(LONGEST_WAIT);
            self.of(role).sleep(rt, known.notified, longest);
        }
    }

    /// Wakes those who may wait for a change.
    pub(crate) fn wake(&self, wakes: Wakes) {
        match wakes {
            Wakes::Nobody => {}
            Wakes::Session(session) => self.places[place_of(session)].notify_all(),
            Wakes::Places(busy) => self.wake_places(busy),
            Wakes::All => self.wake_places(u64::MAX),
        }
    }

    /// Wakes those at these places, one bit for each.
    fn wake_places(&self, places: u64) {
        'places: for place in 0..MAX_SESSIONS {
            if places >> place & 1 != 0 {
                self.places[place].notify_all();
            }
        }
    }
}
