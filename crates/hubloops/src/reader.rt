//! The loop of a session's line.

ghost use Rattle.std.specs.Prelude.{◌≡◌, ◌<◌, ◌≤◌, ◌⊎◌, length, IsErrOf};
ghost use Rattle.push_base.specs.Causes.{Rose};
ghost use Rattle.hubloops.specs.Gates.{GoesOn};
ghost use Rattle.hubloops.specs.Loops.{Starves, observed};
ghost use Rattle.hubloops.specs.Reader.{HandsAll, Offers, ReadsOn, ReadsUntil, max_read};

use crate::{Gate, LoopEnd};
use push_base::{Got, Line};
use std::alloc::Global;

/// The octets that are read at once.
pub const MAX_READ: usize = 4096;

/// Offers octets to a session once.
fn offer<G: Gate>(gate: &mut G, session: u64, piece: &[u8], turns: u64) -> Result<usize, LoopEnd>
    requires some { 0 < length piece.now }
    requires goes_on { GoesOn (G.state gate.old) }
    ensures run { Offers (G.state gate.old) (G.state gate.new) session piece.now turns result }
{
    if gate.done() {
        return Err(LoopEnd::Finished);
    }
    if turns == 0 {
        return Err(LoopEnd::Turns);
    }
    let count = gate.take(session, piece);
    if count > 0 {
        return Ok(count);
    }
    if gate.done() {
        return Err(LoopEnd::Finished);
    }
    gate.pause();
    Ok(0)
}

/// Hands octets to a session, each until it was taken. Gives the turns that are left.
fn feed_session<G: Gate>(
    gate: &mut G,
    session: u64,
    octets: &[u8],
    turns: u64,
) -> Result<u64, LoopEnd>
    requires { GoesOn (G.state gate.old) }
    ensures run { HandsAll (G.state gate.old) (G.state gate.new) session octets.now turns result }
{
    let mut rest = octets;
    let mut left = turns;
    'pieces: while !rest.is_empty() {
        match offer(gate, session, rest, left) {
            Ok(count) => {
                left -= 1;
                (_, rest) = rest.split_at(count);
            }
            Err(end) => return Err(end),
        }
    }
    Ok(left)
}

/// Reads a line once, and hands on what came. Gives the turns that are left.
fn read_on<G: Gate, L: Line>(
    gate: &mut G,
    session: u64,
    line: &mut L,
    buf: &mut [u8],
    turns: u64,
) -> Result<u64, LoopEnd>
    requires some { 0 < length buf.old }
    requires few { length buf.old ≤ max_read }
    ensures run { ReadsOn session (observed (G.state gate.old) (L.given line.old) (L.calls line.old)) (observed (G.state gate.new) (L.given line.new) (L.calls line.new)) (L.left line.new) turns result }
    ensures later { L.faults line.old ≤ L.faults line.new }
    ensures cause { IsErrOf result LoopEnd.ReadFault → Rose (L.faults line.old) (L.faults line.new) }
{
    if gate.done() {
        return Err(LoopEnd::Finished);
    }
    if turns == 0 {
        return Err(LoopEnd::Turns);
    }
    match line.recv(buf) {
        Ok(Got::Bytes(count)) => feed_session(gate, session, &buf[..count], turns - 1),
        Ok(Got::Quiet) => Ok(turns - 1),
        Ok(Got::End) => Err(LoopEnd::Finished),
        Err(_) => Err(LoopEnd::ReadFault),
    }
}

/// The loop over a buffer.
fn read_all<G: Gate, L: Line>(
    gate: &mut G,
    session: u64,
    line: &mut L,
    buf: &mut [u8],
    turns: u64,
) -> LoopEnd
    requires some { 0 < length buf.old }
    requires few { length buf.old ≤ max_read }
    ensures run { ReadsUntil session (observed (G.state gate.old) (L.given line.old) (L.calls line.old)) (observed (G.state gate.new) (L.given line.new) (L.calls line.new)) (L.left line.new) turns result }
    ensures later { L.faults line.old ≤ L.faults line.new }
    ensures cause { result ≡ LoopEnd.ReadFault → Rose (L.faults line.old) (L.faults line.new) }
{
    let mut left = turns;
    'turns: loop {
        match read_on(gate, session, line, buf, left) {
            Ok(less) => left = less,
            Err(end) => return end,
        }
    }
}

/// Reads a session's line, and hands each octet to the hub, until the line ends, or nothing is left to do, or all turns were
/// used. A turn is one read or one call of the hub.
pub fn read_loop<G: Gate, L: Line>(
    alloc: Global,
    gate: &mut G,
    session: u64,
    line: &mut L,
    turns: u64,
) -> LoopEnd
    ensures run { Starves (observed (G.state gate.old) (L.given line.old) (L.calls line.old)) (observed (G.state gate.new) (L.given line.new) (L.calls line.new)) result ⊎ ReadsUntil session (observed (G.state gate.old) (L.given line.old) (L.calls line.old)) (observed (G.state gate.new) (L.given line.new) (L.calls line.new)) (L.left line.new) turns result }
    ensures later { L.faults line.old ≤ L.faults line.new }
    ensures cause { result ≡ LoopEnd.ReadFault → Rose (L.faults line.old) (L.faults line.new) }
{
    let Ok(mut buf) = vec![in alloc; 0u8; MAX_READ] else {
        return LoopEnd::NoMemory;
    };
    read_all(gate, session, line, &mut buf, turns)
}
