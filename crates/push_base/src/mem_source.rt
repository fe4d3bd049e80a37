//! A source in memory.

ghost use Rattle.std.specs.Prelude.{◌≡◌, ◌↔◌, ◌<◌, ℕ, List, [], Some, length, take, drop, All, IsErr, IfOk, OnErr};
ghost use Rattle.std.specs.List.{concat};
ghost use Rattle.std.specs.Io.{ReadsAtMost};
ghost use Rattle.push_base.specs.Causes.{HasCause, CountsOne};
ghost use Rattle.push_base.specs.Source.{ReadGives, ReadTakes};
ghost use Rattle.push_base.specs.Calls.{NextFails};
ghost use Rattle.push_base.specs.Supply.{first_item};
ghost use Rattle.push_base.specs.MemSource.{count_for, after_reading, after_failing};

use crate::calls::Calls;
use crate::front::copy_front;
use crate::supply::Supply;
use crate::{Failed, Octets, Source};
use std::marker::Model;

/// A source in memory. Each item is given by one call, or by several where it doesn't fit the buffer.
#[derive(Drop)]
pub struct MemSource {
    octets: Supply,
    calls: Calls,
}

impl Model for MemSource {
    ghost use Rattle.push_base.specs.MemSource.{SourceState};

    ghost Value = { SourceState };

    ghost view = { λ s. record { octets = s.octets; calls = s.calls } };
}

impl MemSource {
    /// The calls of the numbers in `fails`, counted from 1, are to fail.
    pub fn new(items: Vec<Octets>, fails: Vec<u64>) -> Self
        requires { All (λ item. 0 < length item) items.items }
        ensures octets { result.octets ≡ record { given = []; items = items.items } }
        ensures calls { result.calls ≡ record { fails = fails.items; made = 0; faults = 0 } }
    {
        MemSource {
            octets: Supply::new(items),
            calls: Calls::new(fails),
        }
    }

    /// How many of its calls failed.
    pub fn faults(&self) -> u64
        ensures { result ≡ self.now.calls.faults }
    {
        self.calls.faults()
    }
}

impl Source for MemSource {
    ghost given = { λ s. Some s.octets.given };

    ghost left = { λ s. Some (concat s.octets.items) };

    ghost calls = { λ s. Some s.calls.made };

    ghost faults = { λ s. s.calls.faults };

    fn read(&mut self, buf: &mut [u8]) -> Result<usize, Failed>
        requires { 0 < length buf.old }
        ensures bound { ReadsAtMost result buf.new }
        ensures left { ReadTakes (Some (concat self.old.octets.items)) (Some (concat self.new.octets.items)) result buf.new }
        ensures given { ReadGives (Some self.old.octets.given) (Some self.new.octets.given) result buf.new }
        ensures cause { HasCause self.old.calls.faults self.new.calls.faults result }
        ensures counted { CountsOne (Some self.old.calls.made) (Some self.new.calls.made) }

        // Which calls fail, and what each other gives.
        ensures fails { IsErr result ↔ NextFails self.old.calls }
        ensures count { IfOk result (λ n. n ≡ count_for (length buf.old) self.old) }
        ensures octets { IfOk result (λ n. take n buf.new ≡ take n (first_item self.old.octets.items)) }
        ensures buffer { IfOk result (λ n. drop n buf.new ≡ drop n buf.old) }
        ensures untouched { OnErr result (buf.new ≡ buf.old) }
        ensures ok { IfOk result (λ n. self.new ≡ after_reading n self.old) }
        ensures err { OnErr result (self.new ≡ after_failing self.old) }
    {
        self.calls.begin()?;
        let count = copy_front(self.octets.first(), buf);
        self.octets.give(count);
        Ok(count)
    }
}
