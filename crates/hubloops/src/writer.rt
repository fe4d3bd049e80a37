//! The loop of a session's wire.

ghost use Rattle.std.specs.Prelude.{◌≡◌, ◌<◌, ◌≤◌, ◌⊎◌, length, true, Ok, Err, IsErrOf, if◌then◌else◌};
ghost use Rattle.push_base.specs.Causes.{Rose};
ghost use Rattle.hubloops.specs.Gates.{IsIdle, WaitsUnless};
ghost use Rattle.hubloops.specs.Loops.{Starves, observed};
ghost use Rattle.hubloops.specs.Writer.{TakesPiece, WritesOn, WritesUntil};

use crate::{Gate, LoopEnd};
use push_base::{Sink, Wire};
use pushserver::{Given, HubFault};
use std::alloc::Global;

/// The octets that are given at once.
const ROOM: usize = 4096;

/// Writes octets to a sink, until it took them all. Gives the turns that are left.
fn write_piece<K: Sink>(sink: &mut K, piece: &[u8], turns: u64) -> Result<u64, LoopEnd>
    ensures run { TakesPiece piece.now (K.taken sink.old) (K.taken sink.new) (K.calls sink.old) (K.calls sink.new) turns result }
    ensures later { K.faults sink.old ≤ K.faults sink.new }
    ensures cause { IsErrOf result LoopEnd.WriteFault → Rose (K.faults sink.old) (K.faults sink.new) }
{
    let mut rest = piece;
    let mut left = turns;
    'pieces: while !rest.is_empty() {
        if left == 0 {
            return Err(LoopEnd::Turns);
        }
        left -= 1;
        match sink.write(rest) {
            Ok(0) => return Err(LoopEnd::WriteFault),
            Ok(count) => (_, rest) = rest.split_at(count),
            Err(_) => return Err(LoopEnd::WriteFault),
        }
    }
    Ok(left)
}

/// Lets go out what the sink has taken, and waits for a change, unless nothing was left to do before.
fn wait_on<G: Gate, K: Wire>(
    gate: &mut G,
    sink: &mut K,
    idle: bool,
    left: u64,
) -> Result<u64, LoopEnd>
    requires { IsIdle true (G.state gate.old) }
    ensures state { WaitsUnless idle (G.state gate.old) (G.state gate.new) }
    ensures taken { K.taken sink.new ≡ K.taken sink.old }
    ensures calls { K.calls sink.new ≡ K.calls sink.old }
    ensures faults { K.faults sink.new ≡ K.faults sink.old }
    ensures result { result ≡ (if idle then Err LoopEnd.Finished else Ok left) }
{
    sink.flush();
    if idle {
        return Err(LoopEnd::Finished);
    }
    gate.pause();
    Ok(left)
}

/// Asks the hub once, and writes what it gives. Gives the turns that are left.
fn write_on<G: Gate, K: Wire>(
    gate: &mut G,
    session: u64,
    sink: &mut K,
    buf: &mut [u8],
    turns: u64,
) -> Result<u64, LoopEnd>
    requires some { 0 < length buf.old }
    ensures run { WritesOn session (observed (G.state gate.old) (K.taken sink.old) (K.calls sink.old)) (observed (G.state gate.new) (K.taken sink.new) (K.calls sink.new)) turns result }
    ensures later { K.faults sink.old ≤ K.faults sink.new }
    ensures cause { IsErrOf result LoopEnd.WriteFault → Rose (K.faults sink.old) (K.faults sink.new) }
{
    let idle = gate.done();
    if turns == 0 {
        return Err(LoopEnd::Turns);
    }
    match gate.give(session, buf) {
        Ok(Given::Bytes(count)) => write_piece(sink, &buf[..count], turns - 1),
        Ok(Given::Worked) => Ok(turns - 1),
        Ok(Given::Nothing) => wait_on(gate, sink, idle, turns - 1),
        Ok(Given::Ending) => wait_on(gate, sink, idle, turns - 1),
        Ok(Given::End(_)) => Err(LoopEnd::Finished),
        Err(HubFault::NoMemory) => Err(LoopEnd::NoMemory),
    }
}

/// The loop over a buffer.
fn write_all<G: Gate, K: Wire>(
    gate: &mut G,
    session: u64,
    sink: &mut K,
    buf: &mut [u8],
    turns: u64,
) -> LoopEnd
    requires some { 0 < length buf.old }
    ensures run { WritesUntil session (observed (G.state gate.old) (K.taken sink.old) (K.calls sink.old)) (observed (G.state gate.new) (K.taken sink.new) (K.calls sink.new)) turns result }
    ensures later { K.faults sink.old ≤ K.faults sink.new }
    ensures cause { result ≡ LoopEnd.WriteFault → Rose (K.faults sink.old) (K.faults sink.new) }
{
    let mut left = turns;
    'turns: loop {
        match write_on(gate, session, sink, buf, left) {
            Ok(less) => left = less,
            Err(end) => return end,
        }
    }
}

/// Writes what the hub gives for a session, until the session ends, or nothing is left to do, or all turns were used. A turn
/// is one call of the hub or one write.
pub fn write_loop<G: Gate, K: Wire>(
    alloc: Global,
    gate: &mut G,
    session: u64,
    sink: &mut K,
    turns: u64,
) -> LoopEnd
    ensures run { Starves (observed (G.state gate.old) (K.taken sink.old) (K.calls sink.old)) (observed (G.state gate.new) (K.taken sink.new) (K.calls sink.new)) result ⊎ WritesUntil session (observed (G.state gate.old) (K.taken sink.old) (K.calls sink.old)) (observed (G.state gate.new) (K.taken sink.new) (K.calls sink.new)) turns result }
    ensures later { K.faults sink.old ≤ K.faults sink.new }
    ensures cause { result ≡ LoopEnd.WriteFault → Rose (K.faults sink.old) (K.faults sink.new) }
{
    let Ok(mut buf) = vec![in alloc; 0u8; ROOM] else {
        return LoopEnd::NoMemory;
    };
    write_all(gate, session, sink, &mut buf, turns)
}
