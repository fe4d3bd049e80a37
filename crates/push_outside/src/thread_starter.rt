//! A starter that gives each job a thread.

ghost use Rattle.std.specs.Prelude.{◌≡◌, None, true};

use push_base::{Refusal, Role, Starter};
use std::thread;
use std::thread::Threads;
use std::time::{Clock, Duration};

/// How often a thread is tried to be made before it counts as one that can't be: for ten seconds.
const TRIES: u64 = 100;

/// How long is waited between two tries, in milliseconds.
const PAUSE: u64 = 100;

/// Each job gets a thread of its own. It doesn't tell its jobs, and counts the threads that couldn't be made.
#[derive(Drop)]
pub struct ThreadStarter<R> {
    rt: R,
    faults: u64,
}

/// Whether a thread can be made now. One is, and ends at once.
fn can_start<R: Threads>(rt: &R) -> bool {
    match thread::spawn(rt, || {}) {
        Ok(thread) => {
            thread.join(rt);
            true
        }
        Err(_) => false,
    }
}

/// Whether a thread can be made within ten seconds.
fn can_start_soon<R: Threads + Clock>(rt: &R) -> bool {
    'tries: for _ in 0..TRIES {
        if can_start(rt) {
            return true;
        }
        thread::sleep(rt, Duration::from_millis(PAUSE));
    }
    false
}

impl<R> ThreadStarter<R> {
    /// No thread was refused yet.
    pub fn new(rt: R) -> Self
        ensures { result.faults ≡ 0 }
    {
        ThreadStarter { rt, faults: 0 }
    }

    /// How many threads couldn't be made.
    pub fn faults(&self) -> u64
        ensures { result ≡ self.now.faults }
    {
        self.faults
    }
}

impl<R: Threads + Clock> Starter for ThreadStarter<R> {
    ghost started = { λ _. None };

    ghost threads = { λ _. true };

    ghost faults = { λ s. s.faults };

    fn uses_threads(&self) -> bool {
        true
    }

    /// It waits while no thread can be made, but no longer than ten seconds.
    fn admit(&mut self, _role: Role, _turns: u64) -> Result<(), Refusal> {
        if can_start_soon(&self.rt) {
            return Ok(());
        }
        self.fail();
        Err(Refusal::Failed)
    }

    fn fail(&mut self) {
        self.faults = self.faults.saturating_add(1);
    }
}
