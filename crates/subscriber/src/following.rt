//! A subscriber with its line, its wire, its clock and its output.

ghost use Rattle.std.specs.Prelude.{◌≡◌, ◌⊎◌, ◌≤◌, length, IsErrOf, OnOk, OnErr};
ghost use Rattle.std.specs.Io.KnownBytes.{append_known};
ghost use Rattle.push_base.specs.Causes.{Rose};
ghost use Rattle.push_base.specs.Written.{IsFrontOf, Took};
ghost use Rattle.subscriber.specs.Standing.{most_read};
ghost use Rattle.subscriber.specs.Turning.{Follows, Turns};

use crate::fault::Fault;
use crate::passing::pass;
use crate::reacting::hear;
use push_base::{Clock, Failed, Line, Sink, write_all};
use pushclient::Client;
use std::alloc::Global;

/// A client that is connected, and how many messages may still come, where they are counted.
#[derive(Drop)]
pub(crate) struct Subscriber {
    /// The client.
    pub client: Client,
    /// How many messages may still come.
    pub messages: Option<u64>,
}

impl Subscriber {
    /// Reads until an ending is said: at most so many times.
    pub(crate) fn follow<L: Line, W: Sink, C: Clock, K: Sink>(
        &mut self,
        alloc: Global,
        turns: u64,
        line: &mut L,
        wire: &mut W,
        clock: &mut C,
        out: &mut K,
        buffer: &mut [u8],
    ) -> Result<(), Fault>
        requires some { 1 ≤ length buffer.old }
        requires few { length buffer.old ≤ most_read }
        ensures said { Follows turns self.old.client self.old.messages (L.reads line.old) (L.reads line.new) (C.moments clock.old) (C.moments clock.new)
            (K.taken out.old) (K.taken out.new) (W.taken wire.old) (W.taken wire.new) result }
        ensures read_fault { IsErrOf result Fault.Read → Rose (L.faults line.old) (L.faults line.new) }
        ensures write_fault { IsErrOf result Fault.Write → Rose (W.faults wire.old) (W.faults wire.new) ⊎ Rose (K.faults out.old) (K.faults out.new) }
        ensures line_later { L.faults line.old ≤ L.faults line.new }
        ensures wire_later { W.faults wire.old ≤ W.faults wire.new }
        ensures out_later { K.faults out.old ≤ K.faults out.new }
    {
        let mut left = turns;
        'reads: while left > 0 {
            if self.turn(alloc, line, wire, clock, out, buffer)? {
                return Ok(());
            }
            left -= 1;
        }
        put(out, b"ended turns\n")
    }

    // Reads once, says what the client hears, and then lets it do what is due at the clock's moment.
    fn turn<L: Line, W: Sink, C: Clock, K: Sink>(
        &mut self,
        alloc: Global,
        line: &mut L,
        wire: &mut W,
        clock: &mut C,
        out: &mut K,
        buffer: &mut [u8],
    ) -> Result<bool, Fault>
        requires some { 1 ≤ length buffer.old }
        requires few { length buffer.old ≤ most_read }
        ensures said { Turns self.old.client self.old.messages self.new.client self.new.messages (L.reads line.old) (L.reads line.new) (C.moments clock.old) (C.moments clock.new)
            (K.taken out.old) (K.taken out.new) (W.taken wire.old) (W.taken wire.new) result }
        ensures read_fault { IsErrOf result Fault.Read → Rose (L.faults line.old) (L.faults line.new) }
        ensures write_fault { IsErrOf result Fault.Write → Rose (W.faults wire.old) (W.faults wire.new) ⊎ Rose (K.faults out.old) (K.faults out.new) }
        ensures line_later { L.faults line.old ≤ L.faults line.new }
        ensures wire_later { W.faults wire.old ≤ W.faults wire.new }
        ensures out_later { K.faults out.old ≤ K.faults out.new }
    {
        let got = match line.recv(buffer) {
            Ok(got) => got,
            Err(Failed) => return Err(Fault::Read),
        };
        let said = hear(alloc, &mut self.client, &mut self.messages, got, buffer)?;
        put(out, said.text.as_bytes())?;
        if said.is_over {
            return Ok(true);
        }
        let millis = clock.now();
        let passed = pass(alloc, &mut self.client, millis, buffer)?;
        put(wire, &passed.octets)?;
        put(out, passed.said.text.as_bytes())?;
        Ok(passed.said.is_over)
    }
}

/// Writes all of a text, or as much of it as goes.
pub(crate) fn put<K: Sink>(sink: &mut K, text: &[u8]) -> Result<(), Fault>
    ensures whole { OnOk result (K.taken sink.new ≡ append_known (K.taken sink.old) text.now) }
    ensures front { OnErr result (Took (K.taken sink.old) (K.taken sink.new) (λ wrote. IsFrontOf wrote text.now)) }
    ensures cause { OnErr result (Rose (K.faults sink.old) (K.faults sink.new)) }
    ensures fault { OnErr result (IsErrOf result Fault.Write) }
    ensures later { K.faults sink.old ≤ K.faults sink.new }
{
    match write_all(sink, text) {
        Ok(()) => Ok(()),
        Err(Failed) => Err(Fault::Write),
    }
}
