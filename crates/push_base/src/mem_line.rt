//! A line in memory.

ghost use Rattle.std.specs.Prelude.{◌≡◌, ◌↔◌, ◌<◌, ℕ, List, [], Some, false, length, All, IsErr, IfOk, OnErr};
ghost use Rattle.push_base.specs.Causes.{HasCause, CountsOne};
ghost use Rattle.push_base.specs.Calls.{NextFails};
ghost use Rattle.push_base.specs.Told.{TellsMore};
ghost use Rattle.push_base.specs.Line.{GivesWithin, LineGives, LineTakes, octets_of, reads_of};
ghost use Rattle.push_base.specs.Items.{HasOctets, first_octets, rest_of, got_for};
ghost use Rattle.push_base.specs.LineSupply.{given_octets, left_octets, reads_told};
ghost use Rattle.push_base.specs.MemLine.{after_receiving, after_failing};

use crate::calls::Calls;
use crate::line_supply::LineSupply;
use crate::{Failed, Got, Line, MemItem};
use std::marker::Model;

/// A line in memory. Each item is given by one call, or by several where its octets don't fit the buffer; then the line
/// is at its end.
///
/// It tells what each call gave until an item was given by several calls, or its end was told again.
#[derive(Drop)]
pub struct MemLine {
    items: LineSupply,
    calls: Calls,
}

impl Model for MemLine {
    ghost use Rattle.push_base.specs.MemLine.{LineState};

    ghost Value = { LineState };

    ghost view = { λ s. record { items = s.items; calls = s.calls } };
}

impl MemLine {
    /// The calls of the numbers in `fails`, counted from 1, are to fail.
    pub fn new(items: Vec<MemItem>, fails: Vec<u64>) -> Self
        requires { All HasOctets items.items }
        ensures items { result.items ≡ record { over = []; part = []; left = items.items; ended = false; lost = false } }
        ensures calls { result.calls ≡ record { fails = fails.items; made = 0; faults = 0 } }
    {
        MemLine {
            items: LineSupply::new(items),
            calls: Calls::new(fails),
        }
    }

    /// How many of its calls failed.
    pub fn faults(&self) -> u64
        ensures { result ≡ self.now.calls.faults }
    {
        self.calls.faults()
    }
}

impl Line for MemLine {
    ghost given = { λ s. Some (given_octets s.items) };

    ghost left = { λ s. Some (left_octets s.items) };

    ghost reads = { λ s. reads_told s.items };

    ghost calls = { λ s. Some s.calls.made };

    ghost faults = { λ s. s.calls.faults };

    fn recv(&mut self, buf: &mut [u8]) -> Result<Got, Failed>
        requires { 0 < length buf.old }
        ensures bound { GivesWithin result buf.new }
        ensures given { LineGives (Some (given_octets self.old.items)) (Some (given_octets self.new.items)) result buf.new }
        ensures left { LineTakes (Some (left_octets self.old.items)) (Some (left_octets self.new.items)) result buf.new }
        ensures reads { TellsMore (reads_told self.old.items) (reads_told self.new.items) (reads_of result buf.new) }
        ensures cause { HasCause self.old.calls.faults self.new.calls.faults result }
        ensures counted { CountsOne (Some self.old.calls.made) (Some self.new.calls.made) }

        // Which calls fail, and what each other gives.
        ensures fails { IsErr result ↔ NextFails self.old.calls }
        ensures answer { IfOk result (λ got. got ≡ got_for (length buf.old) self.old.items.left) }
        ensures octets { IfOk result (λ got. octets_of got buf.new ≡ octets_of got (first_octets self.old.items.left)) }
        ensures buffer { IfOk result (λ got. rest_of got buf.new ≡ rest_of got buf.old) }
        ensures untouched { OnErr result (buf.new ≡ buf.old) }
        ensures ok { IfOk result (λ _. self.new ≡ after_receiving (length buf.old) self.old) }
        ensures err { OnErr result (self.new ≡ after_failing self.old) }
    {
        self.calls.begin()?;
        Ok(self.items.receive(buf))
    }
}
