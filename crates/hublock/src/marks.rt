//! The sessions whose lines are over.

ghost use Rattle.std.specs.Prelude.{◌≡◌, [], filter, IfOk, vec_capacity};
ghost use Rattle.pushserver.specs.PlainHubs.{Hub as Plain};
ghost use Rattle.pushserver.specs.KeptHubs.{StandsFor};
ghost use Rattle.hublock.specs.Inside.{has_mark, is_live, marked, without_mark};

use hubasking::Hub;
use push_base::NoMemory;
use pushserver::MAX_SESSIONS;
use std::alloc::Global;
use std::marker::Model;

/// The numbers of the sessions whose lines are over. There is room for as many as may live at once.
#[derive(Drop)]
pub(crate) struct Marks {
    sessions: Vec<u64>,
}

impl Model for Marks {
    ghost use Rattle.std.specs.Prelude.{◌≤◌, ℕ, List, vec_capacity};
    ghost use Rattle.pushserver.specs.Hubs.{max_sessions};
    ghost use Rattle.hublock.specs.Inside.{AreMarks};

    ghost Value = { List ℕ };

    ghost view = { λ m. m.sessions.items };

    ghost invariant = { λ m. AreMarks m.sessions.items × (max_sessions ≤ vec_capacity m.sessions) };
}

/// Keeps those sessions of a list that live.
fn keep_live(sessions: &mut Vec<u64>, hub: &Hub)
    ensures live { sessions.new.items ≡ filter (is_live hub.now) sessions.old.items }
    ensures room { vec_capacity sessions.new ≡ vec_capacity sessions.old }
{
    sessions.retain(|session| hub.live(*session));
}

/// Takes a session out of a list.
fn take_out(sessions: &mut Vec<u64>, number: u64)
    ensures rest { sessions.new.items ≡ without_mark number sessions.old.items }
    ensures room { vec_capacity sessions.new ≡ vec_capacity sessions.old }
{
    sessions.retain(|session| *session != number);
}

impl Marks {
    /// No marks, with room for all that there may be.
    pub(crate) fn new(alloc: Global) -> Result<Marks, NoMemory>
        ensures { IfOk result (λ marks. marks ≡ []) }
    {
        let sessions = Vec::with_capacity(alloc, MAX_SESSIONS)?;
        Ok(Marks { sessions })
    }

    /// Whether a session is marked.
    pub(crate) fn has(&self, session: u64) -> bool
        ensures { result ≡ has_mark session self.now }
    {
        self.sessions.contains(&session)
    }

    /// A session that lives is marked. The marks of those that don't go.
    pub(crate) fn add(&mut self, session: u64, hub: &Hub)
        requires { (plain : Plain) × StandsFor hub.now.hub plain }
        ensures { self.new ≡ marked hub.now session self.old }
    {
        if !hub.live(session) {
            return;
        }
        keep_live(&mut self.sessions, hub);
        if !self.sessions.contains(&session) {
            self.sessions.push_reserved(session);
        }
    }

    /// The mark of a session goes.
    pub(crate) fn remove(&mut self, session: u64)
        ensures { self.new ≡ without_mark session self.old }
    {
        take_out(&mut self.sessions, session);
    }
}
