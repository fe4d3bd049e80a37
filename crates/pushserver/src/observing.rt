//! What is seen of a hub.

ghost use Rattle.std.specs.Prelude.{◌≡◌, MatchOption, None, Some, is_some, slice_get, IfOk};
ghost use Rattle.history.specs.Kept.{state_of};
ghost use Rattle.history.specs.States.{reconfirm_key};
ghost use Rattle.history.specs.Totals.{totals};
ghost use Rattle.pushserver.specs.Hubs.{newest, now, session_of, state_now};
ghost use Rattle.pushserver.specs.PlainHubs.{Hub as Plain};
ghost use Rattle.pushserver.specs.Observing.{all_filled_in, filled_in, told_in};
ghost use Rattle.pushserver.specs.KeptHubs.{StandsFor};

use crate::hub::Hub;
use dnsname::Name;
use history::Homes;
use history::entry::Totals;
use pushsession::{NoMemory, PushSession};
use rrset::{Key, Rr};
use std::alloc::Global;

impl Hub {
    /// The homes at the newest point.
    pub fn homes(&self) -> &Homes
        ensures { state_of result.now ≡ record (state_now self.now) { now = 0 } }
    {
        self.keeping.points.homes()
    }

    /// The session of a number, as it is kept.
    pub fn session(&self, session: u64) -> Option<&PushSession>
        ensures { MatchOption result (session_of self.now session ≡ None) (λ found. session_of self.now session ≡ Some found.now) }
    {
        self.keeping.sessions.get(session)
    }

    /// The session in a place, counted from 0 in the order in which they came, with its number.
    pub fn session_at(&self, place: usize) -> Option<(u64, &PushSession)>
        ensures { MatchOption result (slice_get self.now.sessions place ≡ None) (λ e. slice_get self.now.sessions place ≡ Some (e.0, e.1.now)) }
    {
        self.keeping.sessions.at(place)
    }

    /// The link and the key that a reconfirmation of a record is about (RFC 8765, 6.5). Nothing exactly where the home of its
    /// owner is no link, or the link could hear no such record.
    pub fn reconfirm_key(&self, alloc: Global, rr: &Rr) -> Result<Option<(usize, Key)>, NoMemory>
        ensures { IfOk result (λ found. found ≡ reconfirm_key (state_now self.now) rr.now) }
    {
        self.keeping.points.reconfirm_key(alloc, rr)
    }

    /// The newest point: how many entries there are.
    pub fn point(&self) -> u64
        ensures hub { (hub : Plain) → StandsFor self.now hub → result ≡ newest hub }
        ensures kept { result ≡ newest self.now }
    {
        self.keeping.points.point()
    }

    /// The moment, in milliseconds.
    pub fn now(&self) -> u64
        ensures hub { (hub : Plain) → StandsFor self.now hub → result ≡ now hub }
        ensures kept { result ≡ now self.now }
    {
        self.keeping.points.now()
    }

    /// How many entries of each group there are.
    pub fn counts(&self) -> Totals
        ensures hub { (hub : Plain) → StandsFor self.now hub → result ≡ totals hub.history }
        ensures kept { result ≡ self.now.seen.counts }
    {
        self.keeping.points.counts()
    }

    /// How many sessions were ever connected.
    pub fn made(&self) -> u64
        ensures hub { (hub : Plain) → StandsFor self.now hub → result ≡ hub.numbers_given }
        ensures kept { result ≡ self.now.numbers_given }
    {
        self.keeping.numbers_given
    }

    /// Whether there is a session of a number.
    pub fn live(&self, session: u64) -> bool
        ensures hub { (hub : Plain) → StandsFor self.now hub → result ≡ is_some (session_of hub session) }
        ensures kept { result ≡ is_some (session_of self.now session) }
    {
        self.keeping.sessions.get(session).is_some()
    }

    /// The octets of a session's whole output up to the end of the first answer of an ID (RFC 8765, 6.2.2), or the
    /// greatest number of 64 bits where they are more.
    pub fn filled(&self, session: u64, id: u16) -> Option<u64>
        ensures { (hub : Plain) → StandsFor self.now hub → result ≡ filled_in hub session id }
    {
        match self.keeping.sessions.get(session) {
            Some(session) => session.filled(id),
            None => None,
        }
    }

    /// The same of all IDs that a session asks with, each with its number, and none where there is no such session.
    pub fn all_filled(&self, session: u64) -> &[(u16, u64)]
        ensures { (hub : Plain) → StandsFor self.now hub → result.now ≡ all_filled_in hub session }
    {
        match self.keeping.sessions.get(session) {
            Some(session) => session.all_filled(),
            None => &[],
        }
    }

    /// The point up to which a session was told of a name: where the name waits, that before its first change; else, and
    /// where there is no such session, the newest.
    pub fn as_of(&self, session: u64, name: &Name) -> u64
        ensures { (hub : Plain) → StandsFor self.now hub → result ≡ told_in hub session name.now }
    {
        let newest = self.keeping.points.point();
        match self.keeping.sessions.get(session) {
            Some(session) => session.since(name).unwrap_or(newest),
            None => newest,
        }
    }
}
