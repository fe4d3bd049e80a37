//! The clock of the machine.

ghost use Rattle.std.specs.Prelude.{◌≡◌, None};

use push_base::Clock;
use std::time::{Duration, Instant};
use std::{thread, time};

/// The time between two ticks, in milliseconds. Each makes an entry of the journal.
const TICK: u64 = 1_000;

/// The milliseconds since a start, by a clock that is never set. It doesn't tell its moments. Where the system can't
/// read the clock, the last moment is answered again.
#[derive(Drop)]
pub struct MachineClock<R> {
    rt: R,
    start: Option<Instant>,
    last: u64,
}

impl<R: time::Clock> MachineClock<R> {
    /// A clock that began at this instant.
    pub fn new(rt: R, start: Option<Instant>) -> Self {
        MachineClock { rt, start, last: 0 }
    }

    /// The milliseconds since the start, where they can be read.
    fn passed(&self) -> Option<u64> {
        let passed = self.start?.elapsed(&self.rt).ok()?;
        u64::try_from(passed.as_millis()).ok()
    }
}

impl<R: time::Clock> Clock for MachineClock<R> {
    ghost moments = { λ _. None };

    ghost calls = { λ _. None };

    ghost faults = { λ _. 0 };

    fn now(&mut self) -> u64 {
        if let Some(moment) = self.passed() {
            self.last = moment.max(self.last);
        }
        self.last
    }

    fn tick(&mut self) -> u64 {
        let rest = TICK - self.now() % TICK;
        thread::sleep(&self.rt, Duration::from_millis(rest));
        self.now()
    }
}
