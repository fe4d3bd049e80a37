//! A reader of std that may find nothing for a while, as a line.

ghost use Rattle.std.specs.Prelude.{◌≡◌, ◌<◌, None, length};
ghost use Rattle.push_base.specs.Causes.{HasCause, CountsOne};
ghost use Rattle.push_base.specs.Line.{GivesWithin, LineGives, LineTakes, reads_of};
ghost use Rattle.push_base.specs.Told.{TellsMore};
ghost use Rattle.push_outside.specs.Origins.{LineConsumes};

use push_base::{Failed, Got, Line};
use std::io::{ErrorKind, Read};

/// Whether an error says only that nothing came in time, or that the call was broken off.
pub(crate) fn is_quiet(kind: ErrorKind) -> bool {
    matches!(
        kind,
        ErrorKind::WouldBlock | ErrorKind::TimedOut | ErrorKind::Interrupted
    )
}

/// A reader of std as a line: the stream of a TCP connection with a timeout. It tells no octets and counts its faults.
///
/// Where the reader tells what it has left, `recv` is proved to take from that exactly the octets that it answers, to
/// answer `End` only at the end, and to take none where it answers `Quiet` or fails. That each fault is one of the
/// reader, and that `Quiet` comes only after the timeout, is not proved.
#[derive(Drop)]
pub struct TcpLine<R> {
    inner: R,
    faults: u64,
}

impl<R: Read> TcpLine<R> {
    /// A line over this reader, without faults so far.
    pub fn new(inner: R) -> Self
        ensures { result ≡ record { inner = inner; faults = 0 } }
    {
        TcpLine { inner, faults: 0 }
    }

    /// How often it has failed.
    pub fn faults(&self) -> u64
        ensures { result ≡ self.now.faults }
    {
        self.faults
    }
}

impl<R: Read> Line for TcpLine<R> {
    ghost given = { λ _. None };

    ghost left = { λ _. None };

    ghost reads = { λ _. None };

    ghost calls = { λ _. None };

    ghost faults = { λ s. s.faults };

    fn recv(&mut self, buf: &mut [u8]) -> Result<Got, Failed>
        requires { 0 < length buf.old }
        ensures bound { GivesWithin result buf.new }
        ensures given { LineGives None None result buf.new }
        ensures left { LineTakes None None result buf.new }
        ensures reads { TellsMore None None (reads_of result buf.new) }
        ensures cause { HasCause self.old.faults self.new.faults result }
        ensures counted { CountsOne None None }

        // What was taken from the reader inside, where that tells what it has left.
        ensures inner { LineConsumes (R.remaining self.old.inner) (R.remaining self.new.inner) result buf.new }
    {
        match self.inner.read(buf) {
            Ok(0) => Ok(Got::End),
            Ok(count) => Ok(Got::Bytes(count)),
            Err(error) if is_quiet(error.kind()) => Ok(Got::Quiet),
            Err(_) => {
                self.faults = self.faults.saturating_add(1);
                Err(Failed)
            }
        }
    }
}
