//! The writing end of a TCP connection.

ghost use Rattle.std.specs.Prelude.{◌≡◌, None};

use crate::writing::Writing;
use push_base::{Failed, Sink, Wire};
use std::alloc::Global;
use std::net::{Shutdown, TcpStream};

/// The writing end of a TCP connection, a sink that tells no octets and counts its faults. The first write after a flush
/// goes out at once, unless several came before that flush: so a message that comes alone doesn't wait, and a stream of
/// them goes out together. What follows may be held back until the next flush. Where that can't go out then, the connection
/// is shut down in both directions, as no octet may be left out: its reader comes to its end, and later writes fail.
#[derive(Drop)]
pub struct TcpWire {
    writing: Writing<TcpStream>,
    // The octets that are held back, and how many these may be.
    held: Vec<u8>,
    most: usize,
    // How many writes came since the last flush, and whether several came before it.
    writes: u64,
    is_busy: bool,
}

impl TcpWire {
    /// An end that holds back so many octets at most. With 0 each write goes out at once.
    pub(crate) fn new(alloc: Global, most: usize, stream: TcpStream) -> Self
        ensures { result.writing.faults ≡ 0 }
    {
        TcpWire {
            writing: Writing::new(stream),
            held: Vec::new(alloc),
            most,
            writes: 0,
            is_busy: false,
        }
    }

    /// How often it has failed.
    pub fn faults(&self) -> u64
        ensures { result ≡ self.now.writing.faults }
    {
        self.writing.faults()
    }

    /// Holds back a piece, where it isn't to go out at once and there is room for it. Gives whether it does.
    fn hold(&mut self, piece: &[u8]) -> bool
        ensures { self.new.writing ≡ self.old.writing }
    {
        (self.writes > 0 || self.is_busy)
            && piece.len() <= self.most.saturating_sub(self.held.len())
            && self.held.extend_from_slice(piece).is_ok()
    }

    /// What is held back goes out, or the connection is shut down.
    fn send(&mut self)
        ensures { self.new.writing.faults ≡ self.old.writing.faults }
    {
        if self.writing.write_all(&self.held).is_err() {
            let _ = self.writing.inner().shutdown(Shutdown::Both);
        }
        self.held.clear();
    }
}

impl Sink for TcpWire {
    ghost taken = { λ _. None };

    ghost calls = { λ _. None };

    ghost faults = { λ s. s.writing.faults };

    fn write(&mut self, piece: &[u8]) -> Result<usize, Failed> {
        let is_held = self.hold(piece);
        self.writes = self.writes.saturating_add(1);
        if is_held {
            return Ok(piece.len());
        }
        self.send();
        self.writing.write(piece)
    }
}

impl Wire for TcpWire {
    fn flush(&mut self) {
        self.send();
        self.is_busy = self.writes > 1;
        self.writes = 0;
    }
}
