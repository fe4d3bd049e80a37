//! Sessions with their numbers.

ghost use Rattle.std.specs.Prelude.{◌≡◌, ◌==◌, ◌++◌, ◌∷◌, [], false, None, Some, filter, length, not, position, slice_get, IfOk, MatchOption, OnOk, OnErr};
ghost use Rattle.std.specs.Borrow.{sem};
ghost use Rattle.std.specs.List.{list_any};
ghost use Rattle.subscr.specs.Watching.{watching_of};
ghost use Rattle.pushsession.specs.Sessions.{timed};
ghost use Rattle.pushsession.specs.Kept.{keeping, taken_back};
ghost use Rattle.pushsession.specs.Watched.{Rewatches};
ghost use Rattle.livesessions.specs.Behind.{ended_from, needed_by};
ghost use Rattle.livesessions.specs.NumberedSessions.{all_sessions, session_in, without_session, AreApart};
ghost use Rattle.livesessions.specs.Lending.{LendsSession};
ghost use Rattle.livesessions.specs.Watched.{Watches};

use crate::behind::{end_each, needed_by};
use pushsession::{NoMemory, PushSession};
use std::alloc::Global;
use std::marker::Model;
use subscr::Watchers;

/// The most sessions at a time; this project's own.
pub const MAX_SESSIONS: usize = 64;

/// Sessions with their numbers, in the order in which they were connected. No two have one number.
#[derive(Debug, Drop)]
pub struct Sessions {
    numbered: Vec<(u64, PushSession)>,
}

impl Model for Sessions {
    ghost use Rattle.pushsession.specs.Kept.{KeptSession};
    ghost use Rattle.livesessions.specs.NumberedSessions.{Numbered, AreApart};

    ghost Value = { Numbered KeptSession };

    ghost view = { λ s. s.numbered.items };

    ghost invariant = { λ s. AreApart s.numbered.items };
}

/// Where the session of a number stands.
fn place_of(numbered: &[(u64, PushSession)], number: u64) -> Option<usize>
    ensures { result ≡ position (λ e. e.0 == number) numbered.now }
{
    numbered.iter().position(|entry| entry.0 == number)
}

/// Takes out the names that wait since a point or a later one.
fn take_back_all(numbered: &mut [(u64, PushSession)], point: u64)
    ensures { numbered.new ≡ all_sessions (taken_back point) numbered.old }
{
    'numbered: for place in 0..numbered.len() {
        numbered[place].1.take_back(point);
    }
}

/// It is a moment for one session, in milliseconds.
fn time_one(entry: &mut (u64, PushSession), at: u64, watchers: &mut Watchers)
    ensures timed { entry.new ≡ (entry.old.0, timed keeping at entry.old.1) }
    ensures watched { Rewatches entry.old.0 (watching_of watchers.old) (watching_of watchers.new) entry.old.1 entry.new.1 }
{
    entry.1.moment(at, watchers, entry.0);
}

/// It is a moment for each session, in milliseconds.
fn time_all(numbered: &mut [(u64, PushSession)], at: u64, watchers: &mut Watchers)
    ensures timed { numbered.new ≡ all_sessions (timed keeping at) numbered.old }
    ensures watched { AreApart numbered.old → Watches (watching_of watchers.old) numbered.old → Watches (watching_of watchers.new) numbered.new }
{
    'numbered: for place in 0..numbered.len() {
        time_one(&mut numbered[place], at, watchers);
    }
}

/// The sessions without that of a number.
fn without(numbered: &mut Vec<(u64, PushSession)>, number: u64)
    ensures { numbered.new.items ≡ filter (λ e. not (e.0 == number)) numbered.old.items }
{
    numbered.retain(|entry| entry.0 != number);
}

impl Sessions {
    /// No sessions.
    pub fn new(alloc: Global) -> Sessions
        ensures { result ≡ [] }
    {
        Sessions {
            numbered: Vec::new(alloc),
        }
    }

    /// The allocator of all that is kept.
    pub fn allocator(&self) -> Global {
        *self.numbered.allocator()
    }

    /// How many there are.
    pub fn len(&self) -> usize
        ensures { result ≡ length self.now }
    {
        self.numbered.len()
    }

    /// The session of a number.
    pub fn get(&self, number: u64) -> Option<&PushSession>
        ensures { MatchOption result (session_in number self.now ≡ None) (λ session. session_in number self.now ≡ Some session.now) }
    {
        match place_of(&self.numbered, number) {
            Some(place) => Some(&self.numbered[place].1),
            None => None,
        }
    }

    /// The session in a place, counted from 0, with its number.
    pub fn at(&self, place: usize) -> Option<(u64, &PushSession)>
        ensures { MatchOption result (slice_get self.now place ≡ None) (λ e. slice_get self.now place ≡ Some (e.0, e.1.now)) }
    {
        match self.numbered.get(place) {
            Some(entry) => Some((entry.0, &entry.1)),
            None => None,
        }
    }

    /// The session of a number, which may change: what it becomes stands in its place.
    pub fn get_mut(&mut self, number: u64) -> Option<&mut PushSession>
        ensures* lends { sem 𝓛 (LendsSession self.entry number result) }
        ensures value { MatchOption result (session_in number self.old ≡ None) (λ session. session_in number self.old ≡ Some session.now) }
        ensures apart { AreApart self.old }
    {
        match place_of(&self.numbered, number) {
            Some(place) => Some(&mut self.numbered[place].1),
            None => None,
        }
    }

    /// One more session, with a number that none has.
    pub fn push(&mut self, number: u64, session: PushSession) -> Result<(), NoMemory>
        requires { list_any (λ e. e.0 == number) self.old ≡ false }
        ensures ok { OnOk result (self.new ≡ self.old ++ (number, session) ∷ []) }
        ensures err { OnErr result (self.new ≡ self.old) }
    {
        Ok(self.numbered.push((number, session))?)
    }

    /// The session of a number, which is to go, watches no name any more.
    pub fn unwatch(&self, number: u64, watchers: &mut Watchers)
        ensures { Watches (watching_of watchers.old) self.now → Watches (watching_of watchers.new) (without_session number self.now) }
    {
        match self.get(number) {
            Some(session) => session.unwatch(watchers, number),
            None => {}
        }
    }

    /// The session of a number goes.
    pub fn remove(&mut self, number: u64)
        ensures { self.new ≡ without_session number self.old }
    {
        without(&mut self.numbered, number);
    }

    /// Takes out the names that wait since a point or a later one, where the entry at the point wasn't made.
    pub fn take_back(&mut self, point: u64)
        ensures { self.new ≡ all_sessions (taken_back point) self.old }
    {
        take_back_all(&mut self.numbered, point);
    }

    /// The least point that sessions need which aren't behind: one since which a name waits, or the newest.
    pub fn needed(&self, floor: u64, newest: u64) -> u64
        ensures { result ≡ needed_by floor newest self.now }
    {
        needed_by(&self.numbered, floor, newest)
    }

    /// The sessions end that need a point before the first that may be kept.
    pub fn end_behind(&mut self, floor: u64, watchers: &mut Watchers)
        ensures ended { self.new ≡ all_sessions (ended_from floor) self.old }
        ensures watched { Watches (watching_of watchers.old) self.old → Watches (watching_of watchers.new) self.new }
    {
        end_each(&mut self.numbered, floor, watchers);
    }

    /// It is a moment for each session, in milliseconds (RFC 8490, 6.4 to 6.6).
    pub fn moment(&mut self, at: u64, watchers: &mut Watchers)
        ensures timed { self.new ≡ all_sessions (timed keeping at) self.old }
        ensures watched { Watches (watching_of watchers.old) self.old → Watches (watching_of watchers.new) self.new }
    {
        time_all(&mut self.numbered, at, watchers);
    }
}
