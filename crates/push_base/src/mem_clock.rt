//! A clock in memory.

ghost use Rattle.std.specs.Prelude.{◌≡◌, ◌-◌, ◌^◌, ◌||◌, ◌==◌, [], ◌∷◌, Some, false};
ghost use Rattle.push_base.specs.Causes.{CountsOne, next_count};
ghost use Rattle.push_base.specs.Told.{TellsMore};
ghost use Rattle.push_base.specs.MemClock.{moment_after, moments_told};

use crate::Clock;
use std::marker::Model;

/// A clock in memory. It answers its values in order, and then the last of them, or 0.
#[derive(Drop)]
pub struct MemClock {
    items: Vec<u64>,
    calls: u64,
    lost: bool,
}

impl Model for MemClock {
    ghost use Rattle.push_base.specs.MemClock.{ClockState};

    ghost Value = { ClockState };

    ghost view = { λ s. record { items = s.items.items; calls = s.calls; lost = s.lost } };
}

impl MemClock {
    /// These moments, of which none was answered yet.
    pub fn new(items: Vec<u64>) -> Self
        ensures { result ≡ record { items = items.items; calls = 0; lost = false } }
    {
        MemClock {
            items,
            calls: 0,
            lost: false,
        }
    }

    // One call.
    fn answer(&mut self) -> u64
        ensures answer { result ≡ moment_after self.old.calls self.old.items }
        ensures moments { TellsMore (moments_told self.old) (moments_told self.new) (result ∷ []) }
        ensures calls { self.new.calls ≡ next_count self.old.calls }
        ensures items { self.new.items ≡ self.old.items }
        // Its moments are told until its calls can no longer be counted.
        ensures lost { self.new.lost ≡ (self.old.lost || self.old.calls == 2 ^ 64 - 1) }
    {
        let moment = moment_of(&self.items, self.calls);
        self.lost |= self.calls == u64::MAX;
        self.calls = self.calls.saturating_add(1);
        moment
    }
}

fn moment_of(items: &[u64], calls: u64) -> u64
    ensures { result ≡ moment_after calls items.now }
{
    let Some(last) = items.len().checked_sub(1) else {
        return 0;
    };
    let at = usize::try_from(calls).unwrap_or(last);
    items[at.min(last)]
}

impl Clock for MemClock {
    ghost moments = { moments_told };

    ghost calls = { λ s. Some s.calls };

    ghost faults = { λ _. 0 };

    fn now(&mut self) -> u64
        ensures moments { TellsMore (moments_told self.old) (moments_told self.new) (result ∷ []) }
        ensures counted { CountsOne (Some self.old.calls) (Some self.new.calls) }
        ensures answer { result ≡ moment_after self.old.calls self.old.items }
        ensures items { self.new.items ≡ self.old.items }
        // Its moments are told until its calls can no longer be counted.
        ensures lost { self.new.lost ≡ (self.old.lost || self.old.calls == 2 ^ 64 - 1) }
    {
        self.answer()
    }

    fn tick(&mut self) -> u64
        ensures moments { TellsMore (moments_told self.old) (moments_told self.new) (result ∷ []) }
        ensures counted { CountsOne (Some self.old.calls) (Some self.new.calls) }
        ensures answer { result ≡ moment_after self.old.calls self.old.items }
        ensures items { self.new.items ≡ self.old.items }
        // Its moments are told until its calls can no longer be counted.
        ensures lost { self.new.lost ≡ (self.old.lost || self.old.calls == 2 ^ 64 - 1) }
    {
        self.answer()
    }
}
