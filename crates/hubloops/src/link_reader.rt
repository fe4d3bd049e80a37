//! The loop of a link.

ghost use Rattle.std.specs.Prelude.{◌≡◌, ◌≤◌, ◌⊎◌, false, length, true, IsErrOf};
ghost use Rattle.push_base.specs.Causes.{Rose};
ghost use Rattle.push_base.specs.Limits.{max_datagram};
ghost use Rattle.hubloops.specs.LinkReader.{EndsGone, HearsUntil, TurnsOn, seen};
ghost use Rattle.hubloops.specs.Loops.{Starves};

use crate::{Gate, LoopEnd};
use push_base::limits::MAX_DATAGRAM;
use push_base::{Datagrams, Got};
use pushserver::HubFault;
use std::alloc::Global;

/// One octet more than a datagram of a link may have (RFC 6762, 17), so that a longer one is seen to be so.
const ROOM: usize = MAX_DATAGRAM + 1;

/// Tells that a link is gone. Gives how its loop ends then.
fn tell_gone<G: Gate>(gate: &mut G, link: usize) -> LoopEnd
    ensures { EndsGone link (G.state gate.old) (G.state gate.new) result }
{
    match gate.gone(link) {
        Ok(_) => LoopEnd::LinkFault,
        Err(HubFault::NoMemory) => LoopEnd::NoMemory,
    }
}

/// Receives once, and hands the datagram on. Gives that the link is asked next, and the turns that are left.
fn hear_on<G: Gate, D: Datagrams>(
    gate: &mut G,
    link: usize,
    datagrams: &mut D,
    buf: &mut [u8],
    turns: u64,
) -> Result<(bool, u64), LoopEnd>
    requires { max_datagram ≤ length buf.old }
    ensures run { TurnsOn false link (Rose (D.faults datagrams.old) (D.faults datagrams.new)) (seen (G.state gate.old) (D.given datagrams.old) (D.sent datagrams.old) (D.calls datagrams.old)) (seen (G.state gate.new) (D.given datagrams.new) (D.sent datagrams.new) (D.calls datagrams.new)) (D.left datagrams.new) turns result }
    ensures later { D.faults datagrams.old ≤ D.faults datagrams.new }
    ensures cause { IsErrOf result LoopEnd.LinkFault → Rose (D.faults datagrams.old) (D.faults datagrams.new) }
{
    if gate.done() {
        return Err(LoopEnd::Finished);
    }
    if turns == 0 {
        return Err(LoopEnd::Turns);
    }
    let count = match datagrams.recv(buf) {
        Ok(Got::Bytes(count)) => count,
        Ok(Got::Quiet) => return Ok((true, turns - 1)),
        Ok(Got::End) => return Err(LoopEnd::Finished),
        Err(_) => return Err(tell_gone(gate, link)),
    };
    if turns == 1 {
        return Err(LoopEnd::Turns);
    }
    match gate.hear(link, &buf[..count]) {
        Ok(_) => Ok((true, turns - 2)),
        Err(HubFault::NoMemory) => Err(LoopEnd::NoMemory),
    }
}

/// Asks the link once, and sends what it is asked. Gives whether it is asked again, and the turns that are left.
fn ask_on<G: Gate, D: Datagrams>(
    gate: &mut G,
    link: usize,
    datagrams: &mut D,
    buf: &mut [u8],
    turns: u64,
) -> Result<(bool, u64), LoopEnd>
    requires { max_datagram ≤ length buf.old }
    ensures run { TurnsOn true link (Rose (D.faults datagrams.old) (D.faults datagrams.new)) (seen (G.state gate.old) (D.given datagrams.old) (D.sent datagrams.old) (D.calls datagrams.old)) (seen (G.state gate.new) (D.given datagrams.new) (D.sent datagrams.new) (D.calls datagrams.new)) (D.left datagrams.new) turns result }
    ensures later { D.faults datagrams.old ≤ D.faults datagrams.new }
    ensures cause { IsErrOf result LoopEnd.LinkFault → Rose (D.faults datagrams.old) (D.faults datagrams.new) }
{
    if turns == 0 {
        return Err(LoopEnd::Turns);
    }
    let count = match gate.ask(link, buf) {
        Ok(Some(count)) => count,
        Ok(None) => return Ok((false, turns - 1)),
        Err(HubFault::NoMemory) => return Err(LoopEnd::NoMemory),
    };
    if turns == 1 {
        return Err(LoopEnd::Turns);
    }
    match datagrams.send(&buf[..count]) {
        Ok(()) => Ok((true, turns - 2)),
        Err(_) => Err(tell_gone(gate, link)),
    }
}

/// Asks the link or receives. Gives whether the link is asked next, and the turns that are left.
fn turn_on<G: Gate, D: Datagrams>(
    gate: &mut G,
    link: usize,
    datagrams: &mut D,
    buf: &mut [u8],
    asks: bool,
    turns: u64,
) -> Result<(bool, u64), LoopEnd>
    requires { max_datagram ≤ length buf.old }
    ensures run { TurnsOn asks link (Rose (D.faults datagrams.old) (D.faults datagrams.new)) (seen (G.state gate.old) (D.given datagrams.old) (D.sent datagrams.old) (D.calls datagrams.old)) (seen (G.state gate.new) (D.given datagrams.new) (D.sent datagrams.new) (D.calls datagrams.new)) (D.left datagrams.new) turns result }
    ensures later { D.faults datagrams.old ≤ D.faults datagrams.new }
    ensures cause { IsErrOf result LoopEnd.LinkFault → Rose (D.faults datagrams.old) (D.faults datagrams.new) }
{
    if asks {
        ask_on(gate, link, datagrams, buf, turns)
    } else {
        hear_on(gate, link, datagrams, buf, turns)
    }
}

/// The loop over a buffer.
fn hear_all<G: Gate, D: Datagrams>(
    gate: &mut G,
    link: usize,
    datagrams: &mut D,
    buf: &mut [u8],
    turns: u64,
) -> LoopEnd
    requires { max_datagram ≤ length buf.old }
    ensures run { HearsUntil link (Rose (D.faults datagrams.old) (D.faults datagrams.new)) (seen (G.state gate.old) (D.given datagrams.old) (D.sent datagrams.old) (D.calls datagrams.old)) (seen (G.state gate.new) (D.given datagrams.new) (D.sent datagrams.new) (D.calls datagrams.new)) (D.left datagrams.new) turns result }
    ensures later { D.faults datagrams.old ≤ D.faults datagrams.new }
    ensures cause { result ≡ LoopEnd.LinkFault → Rose (D.faults datagrams.old) (D.faults datagrams.new) }
{
    let mut left = turns;
    let mut asks = false;
    'turns: loop {
        match turn_on(gate, link, datagrams, buf, asks, left) {
            Ok((again, less)) => {
                asks = again;
                left = less;
            }
            Err(end) => return end,
        }
    }
}

/// Hands each datagram of a link to the hub, and behind each, and where none came for a while, asks the link what is due, until
/// nothing is, and sends that, each datagram before the next call (RFC 8766, 5.6); until the datagrams end, or nothing is left
/// to do, or all turns were used. A turn is one call of the datagrams or one of the hub. Where a receipt or a send fails, the
/// hub is told that the link is gone, which is no turn, and the loop ends so, or for want of memory where that call had none.
pub fn link_loop<G: Gate, D: Datagrams>(
    alloc: Global,
    gate: &mut G,
    link: usize,
    datagrams: &mut D,
    turns: u64,
) -> LoopEnd
    ensures run { Starves (seen (G.state gate.old) (D.given datagrams.old) (D.sent datagrams.old) (D.calls datagrams.old)) (seen (G.state gate.new) (D.given datagrams.new) (D.sent datagrams.new) (D.calls datagrams.new)) result ⊎ HearsUntil link (Rose (D.faults datagrams.old) (D.faults datagrams.new)) (seen (G.state gate.old) (D.given datagrams.old) (D.sent datagrams.old) (D.calls datagrams.old)) (seen (G.state gate.new) (D.given datagrams.new) (D.sent datagrams.new) (D.calls datagrams.new)) (D.left datagrams.new) turns result }
    ensures later { D.faults datagrams.old ≤ D.faults datagrams.new }
    ensures cause { result ≡ LoopEnd.LinkFault → Rose (D.faults datagrams.old) (D.faults datagrams.new) }
{
    let Ok(mut buf) = vec![in alloc; 0u8; ROOM] else {
        return LoopEnd::NoMemory;
    };
    hear_all(gate, link, datagrams, &mut buf, turns)
}
