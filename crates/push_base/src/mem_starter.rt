//! A starter in memory.

ghost use Rattle.std.specs.Prelude.{◌≡◌, ◌≤◌, [], Some, false};
ghost use Rattle.push_base.specs.Causes.{Rose};
ghost use Rattle.push_base.specs.Starter.{Admits, CountsRefusal};
ghost use Rattle.push_base.specs.MemStarter.{AdmitsExactly, after_failing};

use crate::calls::Calls;
use crate::{Refusal, Role, Starter};
use std::alloc::Global;
use std::marker::Model;

/// A starter in memory. It keeps each job, and tells the roles and the turns.
#[derive(Drop)]
pub struct MemStarter {
    started: Vec<(Role, u64)>,
    calls: Calls,
}

impl Model for MemStarter {
    ghost use Rattle.push_base.specs.MemStarter.{StarterState};

    ghost Value = { StarterState };

    ghost view = { λ s. record { started = s.started.items; calls = s.calls } };
}

impl MemStarter {
    /// The calls of the numbers in `fails`, counted from 1, are to fail.
    pub fn new(alloc: Global, fails: Vec<u64>) -> Self
        ensures { result ≡ record { started = []; calls = record { fails = fails.items; made = 0; faults = 0 } } }
    {
        MemStarter {
            started: Vec::new(alloc),
            calls: Calls::new(fails),
        }
    }

    /// The role and the turns of each job that was handed to it, in order.
    pub fn started(&self) -> &[(Role, u64)]
        ensures { result.now ≡ self.now.started }
    {
        &self.started
    }

    /// How many of its calls failed.
    pub fn faults(&self) -> u64
        ensures { result ≡ self.now.calls.faults }
    {
        self.calls.faults()
    }
}

impl Starter for MemStarter {
    ghost started = { λ s. Some s.started };

    ghost threads = { λ _. false };

    ghost faults = { λ s. s.calls.faults };

    fn uses_threads(&self) -> bool {
        false
    }

    fn admit(&mut self, role: Role, turns: u64) -> Result<(), Refusal>
        ensures started { Admits (Some self.old.started) (Some self.new.started) role turns result }
        ensures faults { CountsRefusal self.old.calls.faults self.new.calls.faults result }
        ensures threads { false ≡ false }

        // Which calls fail, and what is kept after each. For want of memory nothing changes, and no call is counted.
        ensures exact { AdmitsExactly self.old self.new role turns result }
    {
        if self.started.push((role, turns)).is_err() {
            return Err(Refusal::NoMemory);
        }
        match self.calls.begin() {
            Ok(()) => Ok(()),
            Err(_) => Err(Refusal::Failed),
        }
    }

    fn fail(&mut self)
        ensures started { Some self.new.started ≡ Some self.old.started }
        ensures later { self.old.calls.faults ≤ self.new.calls.faults }
        ensures faults { Rose self.old.calls.faults self.new.calls.faults }
        ensures threads { false ≡ false }
        ensures exact { self.new ≡ after_failing self.old }
    {
        self.calls.fault();
    }
}
