//! A reader of std as a source.

ghost use Rattle.std.specs.Prelude.{◌≡◌, ◌<◌, None, length};
ghost use Rattle.std.specs.Io.{ReadsAtMost};
ghost use Rattle.std.specs.Io.KnownBytes.{ReadConsumes};
ghost use Rattle.push_base.specs.Causes.{HasCause, CountsOne};
ghost use Rattle.push_base.specs.Source.{ReadGives, ReadTakes};

use push_base::{Failed, Source};
use std::io::Read;

/// A reader of std as a source, which tells no octets and counts its faults.
///
/// Where the reader tells what it has left, `read` is proved to take from that exactly the octets that it answers, to
/// answer 0 only at the end, and to take none where it fails. That each fault is one of the reader is not proved.
#[derive(Drop)]
pub struct Reading<R> {
    inner: R,
    faults: u64,
}

impl<R: Read> Reading<R> {
    /// A source over this reader, without faults so far.
    pub fn new(inner: R) -> Self
        ensures { result ≡ record { inner = inner; faults = 0 } }
    {
        Reading { inner, faults: 0 }
    }

    /// How often it has failed.
    pub fn faults(&self) -> u64
        ensures { result ≡ self.now.faults }
    {
        self.faults
    }
}

impl<R: Read> Source for Reading<R> {
    ghost given = { λ _. None };

    ghost left = { λ _. None };

    ghost calls = { λ _. None };

    ghost faults = { λ s. s.faults };

    fn read(&mut self, buf: &mut [u8]) -> Result<usize, Failed>
        requires { 0 < length buf.old }
        ensures bound { ReadsAtMost result buf.new }
        ensures left { ReadTakes None None result buf.new }
        ensures given { ReadGives None None result buf.new }
        ensures cause { HasCause self.old.faults self.new.faults result }
        ensures counted { CountsOne None None }

        // What was taken from the reader inside, where that tells what it has left.
        ensures inner { ReadConsumes (R.remaining self.old.inner) (R.remaining self.new.inner) result buf.new }
    {
        match self.inner.read(buf) {
            Ok(count) => Ok(count),
            Err(_) => {
                self.faults = self.faults.saturating_add(1);
                Err(Failed)
            }
        }
    }
}
