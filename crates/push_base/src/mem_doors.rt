//! Doors in memory.

ghost use Rattle.std.specs.Prelude.{◌≡◌, ◌⊎◌, ◌↔◌, ◌∷◌, ℕ, [], Some, IsErr, IfOk, OnErr};
ghost use Rattle.push_base.specs.Causes.{HasCause, CountsOne};
ghost use Rattle.push_base.specs.Calls.{NextFails};
ghost use Rattle.push_base.specs.Doors.{CountsSession};
ghost use Rattle.push_base.specs.MemDoors.{after_accepting, after_failing};

use crate::calls::Calls;
use crate::{Doors, Failed, Line, Sink};
use std::collections::VecDeque;
use std::marker::Model;

/// Doors in memory. They hand out their sessions in order, and then they fail.
#[derive(Drop)]
pub struct MemDoors<L, K> {
    items: VecDeque<(L, K)>,
    accepted: u64,
    calls: Calls,
}

impl<L, K> Model for MemDoors<L, K> {
    ghost use Rattle.push_base.specs.MemDoors.{DoorsState};

    ghost Value = { DoorsState L K };

    ghost view = { λ s. record { items = s.items.items; accepted = s.accepted; calls = s.calls } };
}

impl<L, K> MemDoors<L, K> {
    /// The calls of the numbers in `fails`, counted from 1, are to fail.
    pub fn new(items: Vec<(L, K)>, fails: Vec<u64>) -> Self
        ensures { result ≡ record { items = items.items; accepted = 0; calls = record { fails = fails.items; made = 0; faults = 0 } } }
    {
        MemDoors {
            items: VecDeque::from_vec(items),
            accepted: 0,
            calls: Calls::new(fails),
        }
    }

    /// How many sessions were accepted.
    pub fn accepted(&self) -> u64
        ensures { result ≡ self.now.accepted }
    {
        self.accepted
    }

    /// How many of its calls failed.
    pub fn faults(&self) -> u64
        ensures { result ≡ self.now.calls.faults }
    {
        self.calls.faults()
    }
}

impl<L: Line, K: Sink> Doors for MemDoors<L, K> {
    type Line = L;

    type Out = K;

    ghost accepted = { λ s. Some s.accepted };

    ghost calls = { λ s. Some s.calls.made };

    ghost faults = { λ s. s.calls.faults };

    fn accept(&mut self) -> Result<(L, K), Failed>
        ensures accepted { CountsSession (Some self.old.accepted) (Some self.new.accepted) result }
        ensures cause { HasCause self.old.calls.faults self.new.calls.faults result }
        ensures counted { CountsOne (Some self.old.calls.made) (Some self.new.calls.made) }

        // Which calls fail, and which session each other gives.
        ensures fails { IsErr result ↔ (NextFails self.old.calls ⊎ (self.old.items ≡ [])) }
        ensures session { IfOk result (λ session. self.old.items ≡ session ∷ self.new.items) }
        ensures ok { IfOk result (λ _. self.new ≡ after_accepting self.old) }
        ensures err { OnErr result (self.new ≡ after_failing self.old) }
    {
        self.calls.begin()?;
        let Some(session) = self.items.pop_front() else {
            self.calls.fault();
            return Err(Failed);
        };
        self.accepted = self.accepted.saturating_add(1);
        Ok(session)
    }

    fn close(&mut self)
        ensures { self.new ≡ self.old }
    {}
}
