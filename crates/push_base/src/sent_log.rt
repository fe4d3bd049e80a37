//! The datagrams that were sent in memory.

ghost use Rattle.std.specs.Prelude.{◌≡◌, ◌<◌, ◌≤◌, ◌++◌, ◌∷◌, [], length, option_copied, IfOk, OnOk, OnErr};
ghost use Rattle.std.specs.List.{slice_get};
ghost use Rattle.push_base.specs.SentLog.{room_taken, after_adding};
ghost use Rattle.push_base.specs.SentLogInside.{octets_at};

use crate::NoMemory;
use std::alloc::Global;
use std::marker::Model;

/// Where a datagram stands among the octets.
#[derive(Clone, Copy)]
pub(crate) struct Part {
    start: usize,
    end: usize,
}

/// The datagrams that were sent, one behind the other.
#[derive(Drop)]
pub(crate) struct SentLog {
    octets: Vec<u8>,
    parts: Vec<Part>,
    room: usize,
}

impl Model for SentLog {
    ghost use Rattle.push_base.specs.SentLog.{SentDatagrams};

    ghost Value = { SentDatagrams };

    ghost use Rattle.push_base.specs.SentLogInside.{sent_datagrams, IsLaidOut};

    ghost view = { sent_datagrams };

    ghost invariant = { IsLaidOut };
}

impl SentLog {
    /// Takes memory for so many octets, of which each datagram takes its own and two more.
    pub(crate) fn new(alloc: Global, room: usize) -> Result<Self, NoMemory>
        ensures { IfOk result (λ log. log ≡ record { datagrams = []; room = room }) }
    {
        Ok(SentLog {
            octets: Vec::with_capacity(alloc, room)?,
            parts: Vec::with_capacity(alloc, room / 2)?,
            room,
        })
    }

    /// Adds a datagram. Memory can run out only past the room.
    pub(crate) fn add(&mut self, datagram: &[u8]) -> Result<(), NoMemory>
        ensures ok { OnOk result (self.new ≡ after_adding datagram.now self.old) }
        ensures err { OnErr result (self.new ≡ self.old) }
        ensures full { OnErr result (self.old.room < room_taken (self.old.datagrams ++ datagram.now ∷ [])) }
    {
        self.parts.reserve(1)?;
        let start = self.octets.len();
        self.octets.extend_from_slice(datagram)?;
        let end = self.octets.len();
        if self.parts.push(Part { start, end }).is_err() {
            unreachable!()
        }
        Ok(())
    }

    /// How many there are.
    pub(crate) fn count(&self) -> usize
        ensures { result ≡ length self.now.datagrams }
    {
        self.parts.len()
    }

    /// The datagram of this number, counted from 0.
    pub(crate) fn at(&self, index: usize) -> Option<&[u8]>
        ensures { option_copied result ≡ slice_get self.now.datagrams index }
    {
        let part = self.parts.get(index)?;
        Some(octets_of(&self.octets, part))
    }
}

fn octets_of<'a>(octets: &'a [u8], part: &Part) -> &'a [u8]
    requires begins { part.now.start ≤ part.now.end }
    requires ends { part.now.end ≤ length octets.now }
    ensures { result.now ≡ octets_at octets.now part.now }
{
    &octets[part.start..part.end]
}
