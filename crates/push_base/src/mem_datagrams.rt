//! Datagrams in memory.

ghost use Rattle.std.specs.Prelude.{◌≡◌, ◌⊎◌, ◌↔◌, ◌<◌, ℕ, List, [], ◌∷◌, ◌++◌, Some, false, length, option_copied, IsErr, IfOk, OnOk, OnErr};
ghost use Rattle.std.specs.List.{slice_get};
ghost use Rattle.push_base.specs.Causes.{HasCause, CountsOne};
ghost use Rattle.push_base.specs.Calls.{NextFails};
ghost use Rattle.push_base.specs.Line.{octets_of};
ghost use Rattle.push_base.specs.Datagrams.{FitsWithin, DatagramGives, DatagramTakes, DatagramSent};
ghost use Rattle.push_base.specs.Items.{first_octets, rest_of, got_for};
ghost use Rattle.push_base.specs.DatagramSupply.{given_told, datagrams_in};
ghost use Rattle.push_base.specs.SentLog.{room_taken};
ghost use Rattle.push_base.specs.MemDatagrams.{after_receiving, after_sending, after_failing, after_starving};

use crate::calls::Calls;
use crate::datagram_supply::DatagramSupply;
use crate::sent_log::SentLog;
use crate::{Datagrams, Failed, Got, MemItem, NoMemory};
use std::alloc::Global;
use std::marker::Model;

/// Datagrams in memory. Each item is given by one call, as much of it as fits the buffer; then they are at their end.
///
/// They tell what was given until a datagram didn't fit, and all that was sent.
#[derive(Drop)]
pub struct MemDatagrams {
    items: DatagramSupply,
    sent: SentLog,
    starved: bool,
    calls: Calls,
}

impl Model for MemDatagrams {
    ghost use Rattle.push_base.specs.MemDatagrams.{DatagramsState};

    ghost Value = { DatagramsState };

    ghost view = { λ s. record {
      items = s.items;
      sent = s.sent.datagrams;
      room = s.sent.room;
      starved = s.starved;
      calls = s.calls;
    } };
}

impl MemDatagrams {
    /// Each `Bytes` is one datagram, which may have no octets. The calls of the numbers in `fails`, counted from 1, are
    /// to fail, whether they receive or send. There is room for so many octets of datagrams that are sent, of which
    /// each takes its own and two more: past it a `send` may fail, too, as memory is refused.
    pub fn new(
        alloc: Global,
        items: Vec<MemItem>,
        fails: Vec<u64>,
        room: usize,
    ) -> Result<Self, NoMemory>
        ensures { IfOk result (λ datagrams. datagrams ≡ record {
          items = record { over = []; left = items.items; lost = false };
          sent = [];
          room = room;
          starved = false;
          calls = record { fails = fails.items; made = 0; faults = 0 };
        }) }
    {
        Ok(MemDatagrams {
            items: DatagramSupply::new(items),
            sent: SentLog::new(alloc, room)?,
            starved: false,
            calls: Calls::new(fails),
        })
    }

    /// How many datagrams were sent.
    pub fn sent_count(&self) -> usize
        ensures { result ≡ length self.now.sent }
    {
        self.sent.count()
    }

    /// The datagram that was sent as this one, counted from 0.
    pub fn sent_at(&self, index: usize) -> Option<&[u8]>
        ensures { option_copied result ≡ slice_get self.now.sent index }
    {
        self.sent.at(index)
    }

    /// Whether a send was refused memory.
    pub fn starved(&self) -> bool
        ensures { result ≡ self.now.starved }
    {
        self.starved
    }

    /// How many of its calls failed.
    pub fn faults(&self) -> u64
        ensures { result ≡ self.now.calls.faults }
    {
        self.calls.faults()
    }
}

impl Datagrams for MemDatagrams {
    ghost given = { λ s. given_told s.items };

    ghost left = { λ s. Some (datagrams_in s.items.left) };

    ghost sent = { λ s. Some s.sent };

    ghost calls = { λ s. Some s.calls.made };

    ghost faults = { λ s. s.calls.faults };

    fn recv(&mut self, buf: &mut [u8]) -> Result<Got, Failed>
        requires { 0 < length buf.old }
        ensures bound { FitsWithin result buf.new }
        ensures given { DatagramGives (given_told self.old.items) (given_told self.new.items) result buf.new }
        ensures left { DatagramTakes (Some (datagrams_in self.old.items.left)) (Some (datagrams_in self.new.items.left)) result buf.new }
        ensures sent { Some self.new.sent ≡ Some self.old.sent }
        ensures cause { HasCause self.old.calls.faults self.new.calls.faults result }
        ensures counted { CountsOne (Some self.old.calls.made) (Some self.new.calls.made) }

        // Which calls fail, and what each other gives.
        ensures fails { IsErr result ↔ NextFails self.old.calls }
        ensures answer { IfOk result (λ got. got ≡ got_for (length buf.old) self.old.items.left) }
        ensures octets { IfOk result (λ got. octets_of got buf.new ≡ octets_of got (first_octets self.old.items.left)) }
        ensures buffer { IfOk result (λ got. rest_of got buf.new ≡ rest_of got buf.old) }
        ensures untouched { OnErr result (buf.new ≡ buf.old) }
        ensures ok { IfOk result (λ _. self.new ≡ after_receiving (length buf.old) self.old) }
        ensures err { OnErr result (self.new ≡ after_failing self.old) }
    {
        self.calls.begin()?;
        Ok(self.items.receive(buf))
    }

    fn send(&mut self, piece: &[u8]) -> Result<(), Failed>
        ensures sent { DatagramSent (Some self.old.sent) (Some self.new.sent) result piece.now }
        ensures given { given_told self.new.items ≡ given_told self.old.items }
        ensures left { Some (datagrams_in self.new.items.left) ≡ Some (datagrams_in self.old.items.left) }
        ensures cause { HasCause self.old.calls.faults self.new.calls.faults result }
        ensures counted { CountsOne (Some self.old.calls.made) (Some self.new.calls.made) }

        // A call fails exactly by its number, or for want of memory past the room.
        ensures ok { OnOk result (self.new ≡ after_sending piece.now self.old) }
        ensures fails { NextFails self.old.calls → OnOk result ⊥ × (self.new ≡ after_failing self.old) }
        ensures err { OnErr result ((NextFails self.old.calls × (self.new ≡ after_failing self.old))
            ⊎ ((self.old.room < room_taken (self.old.sent ++ piece.now ∷ []))
            × (self.new ≡ after_starving self.old))) }
    {
        self.calls.begin()?;
        if self.sent.add(piece).is_err() {
            self.starved = true;
            self.calls.fault();
            return Err(Failed);
        }
        Ok(())
    }
}
