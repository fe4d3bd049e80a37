//! The items of datagrams, which are given one by one.

ghost use Rattle.std.specs.Prelude.{◌≡◌, [], false, length};
ghost use Rattle.push_base.specs.Line.{octets_of};
ghost use Rattle.push_base.specs.Items.{first_octets, rest_of, got_for};
ghost use Rattle.push_base.specs.DatagramSupply.{after_receiving};

use crate::front::copy_front;
use crate::{Got, MemItem};
use std::marker::Model;

/// The items of datagrams, which are given one by one.
#[derive(Drop)]
pub(crate) struct DatagramSupply {
    items: Vec<MemItem>,
    // So many items are over.
    item: usize,
    // Of a datagram not all octets were given.
    lost: bool,
}

impl Model for DatagramSupply {
    ghost use Rattle.push_base.specs.DatagramSupply.{DatagramSupplied};

    ghost Value = { DatagramSupplied };

    ghost use Rattle.push_base.specs.DatagramSupplyInside.{supplied, StandsWithin};

    ghost view = { supplied };

    ghost invariant = { StandsWithin };
}

impl DatagramSupply {
    pub(crate) fn new(items: Vec<MemItem>) -> Self
        ensures { result ≡ record { over = []; left = items.items; lost = false } }
    {
        DatagramSupply {
            items,
            item: 0,
            lost: false,
        }
    }

    /// What the next call gives.
    pub(crate) fn receive(&mut self, buf: &mut [u8]) -> Got
        ensures answer { result ≡ got_for (length buf.old) self.old.left }
        ensures octets { octets_of result buf.new ≡ octets_of result (first_octets self.old.left) }
        ensures buffer { rest_of result buf.new ≡ rest_of result buf.old }
        ensures after { self.new ≡ after_receiving (length buf.old) self.old }
    {
        match self.items.get(self.item) {
            Some(MemItem::Bytes(octets)) => {
                self.lost |= buf.len() < octets.len();
                let count = copy_front(octets.as_slice(), buf);
                self.item += 1;
                Got::Bytes(count)
            }
            Some(MemItem::Quiet) => {
                self.item += 1;
                Got::Quiet
            }
            None => Got::End,
        }
    }
}
