//! The items of a line, which are given piece by piece.

ghost use Rattle.std.specs.Prelude.{◌≡◌, ◌<◌, ◌≤◌, [], false, length, All};
ghost use Rattle.push_base.specs.Line.{octets_of};
ghost use Rattle.push_base.specs.Items.{HasOctets, first_octets, is_quiet, rest_of, got_for};
ghost use Rattle.push_base.specs.LineSupply.{Stands, after_giving, after_quiet, after_end, after_receiving};

use crate::front::copy_front;
use crate::{Got, MemItem};
use std::marker::Model;

/// The items of a line, which are given piece by piece, each of its own.
#[derive(Drop)]
pub(crate) struct LineSupply {
    items: Vec<MemItem>,
    // So many items are over, and so many octets of the next were given.
    item: usize,
    place: usize,
    ended: bool,
    // An item was given by several calls, or the end was told again.
    lost: bool,
}

impl Model for LineSupply {
    ghost use Rattle.push_base.specs.LineSupply.{LineSupplied};

    ghost Value = { LineSupplied };

    ghost use Rattle.push_base.specs.LineSupplyInside.{supplied, StandsWithin};

    ghost view = { supplied };

    ghost invariant = { StandsWithin };
}

impl LineSupply {
    pub(crate) fn new(items: Vec<MemItem>) -> Self
        requires { All HasOctets items.items }
        ensures { result ≡ record { over = []; part = []; left = items.items; ended = false; lost = false } }
    {
        LineSupply {
            items,
            item: 0,
            place: 0,
            ended: false,
            lost: false,
        }
    }

    /// What is left of the octets of the first item.
    fn octets(&self) -> &[u8]
        ensures first { result.now ≡ first_octets self.now.left }
        ensures stands { Stands self.now }
    {
        match self.items.get(self.item) {
            Some(MemItem::Bytes(octets)) => &octets.as_slice()[self.place..],
            Some(MemItem::Quiet) => &[],
            None => &[],
        }
    }

    /// So many octets of the first item were given.
    fn give(&mut self, count: usize)
        requires some { 0 < count }
        requires most { count ≤ length (first_octets self.old.left) }
        ensures { self.new ≡ after_giving count self.old }
    {
        let Some(MemItem::Bytes(octets)) = self.items.get(self.item) else {
            return;
        };
        if count == octets.len() - self.place {
            self.item += 1;
            self.place = 0;
        } else {
            self.place += count;
            self.lost = true;
        }
    }

    /// Whether no octets come for a while. If so, that item is over.
    fn skip_quiet(&mut self) -> bool
        ensures quiet { result ≡ is_quiet self.old.left }
        ensures after { self.new ≡ after_quiet self.old }
    {
        let Some(MemItem::Quiet) = self.items.get(self.item) else {
            return false;
        };
        self.item += 1;
        self.place = 0;
        true
    }

    /// The end was told, behind the last item.
    fn end(&mut self)
        requires { self.old.left ≡ [] }
        ensures { self.new ≡ after_end self.old }
    {
        self.lost |= self.ended;
        self.ended = true;
    }

    /// What the next call gives.
    pub(crate) fn receive(&mut self, buf: &mut [u8]) -> Got
        requires { 0 < length buf.old }
        ensures answer { result ≡ got_for (length buf.old) self.old.left }
        ensures octets { octets_of result buf.new ≡ octets_of result (first_octets self.old.left) }
        ensures buffer { rest_of result buf.new ≡ rest_of result buf.old }
        ensures after { self.new ≡ after_receiving (length buf.old) self.old }
        ensures stands { Stands self.old }
    {
        let count = copy_front(self.octets(), buf);
        if count > 0 {
            self.give(count);
            return Got::Bytes(count);
        }
        if self.skip_quiet() {
            return Got::Quiet;
        }
        self.end();
        Got::End
    }
}
