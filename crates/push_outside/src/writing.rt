//! A writer of std as a sink.

ghost use Rattle.std.specs.Prelude.{◌≡◌, None};
ghost use Rattle.std.specs.Io.{WritesAtMost};
ghost use Rattle.std.specs.Io.KnownBytes.{WriteAppends};
ghost use Rattle.push_base.specs.Causes.{HasCause, CountsOne};
ghost use Rattle.push_base.specs.Sink.{WriteTakes, TakesNoneAtFault};

use push_base::{Failed, Sink};
use std::io::{self, Write};

/// A writer of std as a sink, which tells no octets and counts its faults. A write that waits longer than the writer
/// allows is a fault, too, so that one stalled peer doesn't hold up others.
///
/// Where the writer tells what it holds, `write` is proved to add to that exactly the octets that it answers to have
/// taken, from the front of the piece, and to add none where it fails. To take none of a piece that has octets counts
/// as a fault. That each other fault is one of the writer is not proved.
#[derive(Drop)]
pub struct Writing<W> {
    inner: W,
    faults: u64,
}

impl<W: Write> Writing<W> {
    /// A sink over this writer, without faults so far.
    pub fn new(inner: W) -> Self
        ensures { result ≡ record { inner = inner; faults = 0 } }
    {
        Writing { inner, faults: 0 }
    }

    /// The writer.
    pub(crate) fn inner(&self) -> &W
        ensures { result.now ≡ self.now.inner }
    {
        &self.inner
    }

    /// Writes all octets, beside the calls of the sink: a fault isn't counted.
    pub(crate) fn write_all(&mut self, octets: &[u8]) -> io::Result<()>
        ensures { self.new.faults ≡ self.old.faults }
    {
        self.inner.write_all(octets)
    }

    /// How often it has failed.
    pub fn faults(&self) -> u64
        ensures { result ≡ self.now.faults }
    {
        self.faults
    }
}

impl<W: Write> Sink for Writing<W> {
    ghost taken = { λ _. None };

    ghost calls = { λ _. None };

    ghost faults = { λ s. s.faults };

    fn write(&mut self, piece: &[u8]) -> Result<usize, Failed>
        ensures bound { WritesAtMost result piece.now }
        ensures taken { WriteTakes None None result piece.now }
        ensures nothing { TakesNoneAtFault self.old.faults self.new.faults result piece.now }
        ensures cause { HasCause self.old.faults self.new.faults result }
        ensures counted { CountsOne None None }

        // What was added to the writer inside, where that tells what it holds.
        ensures inner { WriteAppends (W.contents self.old.inner) (W.contents self.new.inner) result piece.now }
    {
        match self.inner.write(piece) {
            Ok(count) if count > 0 || piece.is_empty() => Ok(count),
            Ok(_) | Err(_) => {
                self.faults = self.faults.saturating_add(1);
                Err(Failed)
            }
        }
    }
}
