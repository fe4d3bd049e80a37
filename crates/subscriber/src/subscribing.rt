//! A subscriber from its connection to its end.

ghost use Rattle.std.specs.Prelude.{◌≡◌, ◌⊎◌, ◌≤◌, length, IsErrOf};
ghost use Rattle.push_base.specs.Causes.{Rose};
ghost use Rattle.configurations.specs.Kept.{subscribing_kept};
ghost use Rattle.subscriber.specs.Standing.{most_read};
ghost use Rattle.subscriber.specs.Subscribed.{Conversed, Subscribed};

use crate::fault::Fault;
use crate::following::{Subscriber, put};
use crate::passing::begin;
use crate::reacting::{MOST_READ, is_used_up};
use configurations::SubscribeConfiguration;
use push_base::{Clock, Line, Sink};
use scripts::{NO_MEMORY, Outcome, READ_FAULT, tell};
use std::alloc::Global;

/// Asks a server that was dialled, and says what it answers and pushes, until an ending: it closed, the line is at its end,
/// so many messages came, or so many reads were made. A fault is said behind that.
pub fn subscribe<L: Line, W: Sink, C: Clock, K: Sink>(
    alloc: Global,
    configuration: &SubscribeConfiguration,
    line: &mut L,
    wire: &mut W,
    clock: &mut C,
    out: &mut K,
) -> Outcome
    ensures said { Subscribed (Rose (L.faults line.old) (L.faults line.new)) (subscribing_kept configuration.now) (L.reads line.old) (L.reads line.new)
        (C.moments clock.old) (C.moments clock.new) (K.taken out.old) (K.taken out.new) (W.taken wire.old) (W.taken wire.new) result }
    // Which faults had a cause; the configuration was read before.
    ensures read_fault { result ≡ Outcome.ReadFault → Rose (L.faults line.old) (L.faults line.new) }
    ensures write_fault { result ≡ Outcome.WriteFault → Rose (W.faults wire.old) (W.faults wire.new) ⊎ Rose (K.faults out.old) (K.faults out.new) }
    ensures inside { result ≡ Outcome.Outside → ⊥ }
    ensures line_later { L.faults line.old ≤ L.faults line.new }
    ensures wire_later { W.faults wire.old ≤ W.faults wire.new }
    ensures out_later { K.faults out.old ≤ K.faults out.new }
{
    let mut buffer = [0; MOST_READ];
    match converse(alloc, configuration, line, wire, clock, out, &mut buffer) {
        Ok(()) => Outcome::Done,
        Err(Fault::Read) => tell(out, Outcome::ReadFault, READ_FAULT),
        Err(Fault::Write) => Outcome::WriteFault,
        Err(Fault::NoMemory) => tell(out, Outcome::NoMemory, NO_MEMORY),
    }
}

// The same over a buffer, up to a fault.
fn converse<L: Line, W: Sink, C: Clock, K: Sink>(
    alloc: Global,
    configuration: &SubscribeConfiguration,
    line: &mut L,
    wire: &mut W,
    clock: &mut C,
    out: &mut K,
    buffer: &mut [u8],
) -> Result<(), Fault>
    requires some { 1 ≤ length buffer.old }
    requires few { length buffer.old ≤ most_read }
    ensures said { Conversed (subscribing_kept configuration.now) (L.reads line.old) (L.reads line.new)
        (C.moments clock.old) (C.moments clock.new) (K.taken out.old) (K.taken out.new) (W.taken wire.old) (W.taken wire.new) result }
    ensures read_fault { IsErrOf result Fault.Read → Rose (L.faults line.old) (L.faults line.new) }
    ensures write_fault { IsErrOf result Fault.Write → Rose (W.faults wire.old) (W.faults wire.new) ⊎ Rose (K.faults out.old) (K.faults out.new) }
    ensures line_later { L.faults line.old ≤ L.faults line.new }
    ensures wire_later { W.faults wire.old ≤ W.faults wire.new }
    ensures out_later { K.faults out.old ≤ K.faults out.new }
{
    let millis = clock.now();
    let begun = begin(alloc, configuration, millis, buffer)?;
    put(wire, &begun.octets)?;
    if is_used_up(configuration.messages) {
        return put(out, b"ended messages\n");
    }
    let mut subscriber = Subscriber {
        client: begun.client,
        messages: configuration.messages,
    };
    subscriber.follow(alloc, configuration.turns, line, wire, clock, out, buffer)
}
