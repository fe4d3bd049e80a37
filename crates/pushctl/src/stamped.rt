//! A sink that puts the time before each line.

ghost use Rattle.std.specs.Prelude.{◌≡◌, None};
ghost use Rattle.std.specs.Io.{WritesAtMost};
ghost use Rattle.push_base.specs.Causes.{HasCause, CountsOne};
ghost use Rattle.push_base.specs.Sink.{WriteTakes, TakesNoneAtFault};

use jiff::Timestamp;
use jiff::tz::TimeZone;
use push_base::{Failed, Sink};
use std::alloc::{AllocError, Global};
use std::io::Write;
use std::time::Clock;

/// What a line gets.
#[derive(Clone, Copy)]
pub(crate) enum Clothing {
    /// Nothing.
    Bare,
    /// The time of day, and a space; the sign may be coloured.
    People(bool),
    /// The moment, and a tab (RFC 3339).
    Fields,
    /// The moment as the first member of the object (RFC 3339).
    Json,
}

/// A writer of which each write is a line, with the time before it.
#[derive(Drop)]
pub(crate) struct Stamped<'a, R, W> {
    rt: R,
    alloc: Global,
    zone: TimeZone<'a>,
    clothing: Clothing,
    inner: W,
    faults: u64,
    // Whether memory for a line was wanting.
    starved: bool,
}

impl<'a, R: Clock, W: Write> Stamped<'a, R, W> {
    /// A sink over this writer.
    pub(crate) fn new(
        rt: R,
        alloc: Global,
        zone: TimeZone<'a>,
        clothing: Clothing,
        inner: W,
    ) -> Self {
        Stamped {
            rt,
            alloc,
            zone,
            clothing,
            inner,
            faults: 0,
            starved: false,
        }
    }

    // The time now under a format, empty where it can't be had.
    fn time(&self, format: &str) -> Result<String, AllocError> {
        let Ok(now) = Timestamp::now(&self.rt) else {
            return Ok(String::new(self.alloc));
        };
        match now.to_zoned(self.zone).strftime(self.alloc, format) {
            Ok(text) => Ok(text),
            Err(_) => Ok(String::new(self.alloc)),
        }
    }

    // Appends the sign with which a line begins, in its colour (ECMA-48, 8.3.117).
    fn push_sign(&self, out: &mut Vec<u8>, piece: &[u8]) -> Result<(), AllocError> {
        let Some((sign, rest)) = piece.split_first() else {
            return Ok(());
        };
        let color = match *sign {
            b'+' | b'=' => "\u{1b}[32m",
            b'~' => "\u{1b}[33m",
            _ => "\u{1b}[31m",
        };
        out.extend_from_slice(color.as_bytes())?;
        out.push(*sign)?;
        out.extend_from_slice(b"\x1b[0m")?;
        out.extend_from_slice(rest)
    }

    // A line with the time before it.
    fn dressed(&self, piece: &[u8]) -> Result<Vec<u8>, AllocError> {
        let mut out = Vec::new(self.alloc);
        match self.clothing {
            Clothing::Bare => out.extend_from_slice(piece)?,
            Clothing::People(has_color) => {
                out.extend_from_slice(self.time("%H:%M:%S ")?.as_bytes())?;
                if has_color {
                    self.push_sign(&mut out, piece)?;
                } else {
                    out.extend_from_slice(piece)?;
                }
            }
            Clothing::Fields => {
                out.extend_from_slice(self.time("%Y-%m-%dT%H:%M:%S%:z\t")?.as_bytes())?;
                out.extend_from_slice(piece)?;
            }
            Clothing::Json => {
                let time = self.time("\"time\":\"%Y-%m-%dT%H:%M:%S%:z\",")?;
                out.push(b'{')?;
                out.extend_from_slice(time.as_bytes())?;
                match piece.split_first() {
                    Some((_, rest)) => out.extend_from_slice(rest)?,
                    None => {}
                }
            }
        }
        Ok(out)
    }

    // Writes a line with the time before it. Gives whether it went.
    fn put(&mut self, piece: &[u8]) -> bool
        ensures { self.new.faults ≡ self.old.faults }
    {
        match self.dressed(piece) {
            Ok(line) => self.inner.write_all(&line).is_ok(),
            Err(_) => {
                self.starved = true;
                false
            }
        }
    }

    /// Whether memory for a line was wanting.
    pub(crate) fn is_starved(&self) -> bool
        ensures { result ≡ self.now.starved }
    {
        self.starved
    }
}

impl<'a, R: Clock, W: Write> Sink for Stamped<'a, R, W> {
    ghost taken = { λ _. None };

    ghost calls = { λ _. None };

    ghost faults = { λ s. s.faults };

    fn write(&mut self, piece: &[u8]) -> Result<usize, Failed> {
        if self.put(piece) {
            return Ok(piece.len());
        }
        self.faults = self.faults.saturating_add(1);
        Err(Failed)
    }
}
