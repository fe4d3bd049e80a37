//! Octets between a client and its session in the hub: one way, or each way until nothing moves.

ghost use Rattle.std.specs.Prelude.{[], ◌≡◌, ◌-◌, ◌<◌, ◌≤◌, ◌++◌, ◌==◌, ◌&&◌, ◌||◌, ◌+◌, not, false, true, None, length, min, take, drop, nat_lt, is_some, if◌then◌else◌, IfOk, OnOk};
ghost use Rattle.push_base.specs.Limits.{max_number};
ghost use Rattle.coalesce.specs.Sides.{frame_octets};
ghost use Rattle.hubasking.specs.AskingHubs.{AskingHub};
ghost use Rattle.replay.specs.World.{World as Plain, Seat as PlainSeat};
ghost use Rattle.replay.specs.PassedOctets as passing;
ghost use Rattle.replay.specs.PassedOctets.{max_wire, settled, enough};
ghost use Rattle.replay.specs.LineCalls.{out_calls, settle_calls, up_calls, way_calls};
ghost use Rattle.replay.specs.KeptWorlds.{seat_kept};
ghost use Rattle.replay.specs.KeptPassings.{Moves, Passes, Turns};
ghost use Rattle.replay.specs.Text.{passing_of};

use crate::exchanging::{Emission, emit};
use crate::seats::Seat;
use crate::stepping::deliver;
use dsosession::session::EndReason;
use hubasking::Hub;
use push_base::{NoMemory, front_of};
use pushclient::Client;
use scripts::line::Way;
use scripts::line_words::MAX_WIRE;

/// How many octets passed one way, none where a client settles, and the end of the session, if it was told.
#[derive(Clone, Copy)]
pub struct Passage {
    /// How many octets passed.
    pub count: usize,
    /// Why the session ended, if its end was told.
    pub over: Option<EndReason>,
}

// What one round did: whether it moved an octet or reacted to a message, and the end of the session, if it was told.
#[derive(Clone, Copy)]
struct RoundDone {
    moves: bool,
    over: Option<EndReason>,
}

/// Octets between a client and its session pass one way, or each way until nothing moves.
pub(crate) fn pass(
    hub: &mut Hub,
    session: u64,
    seat: &mut Seat,
    way: Way,
    buffer: &mut [u8],
) -> Result<Passage, NoMemory>
    requires { max_wire ≤ length buffer.old }
    ensures { IfOk result (λ passage. Moves (passing_of way session) (way_calls way session) hub.old (seat_kept seat.old) passage.count passage.over hub.new (seat_kept seat.new)) }
{
    match way {
        Way::Say(most) => {
            let count = say(seat, most, buffer)?;
            Ok(Passage { count, over: None })
        }
        Way::Up(most) => {
            let count = up(hub, session, seat, most);
            Ok(Passage { count, over: None })
        }
        Way::Emit(most) => {
            let (count, emission) = emit_down(hub, session, seat, most, buffer)?;
            let over = emission.over;
            Ok(Passage { count, over })
        }
        Way::Down(most) => {
            let count = down(seat, most)?;
            Ok(Passage { count, over: None })
        }
        Way::Settle => {
            let over = settle(hub, session, seat, buffer)?;
            Ok(Passage { count: 0, over })
        }
    }
}

// Rounds, each from the client to its session and back, until one moves no octet and reacts to no message. Gives the end
// of the session, if it was told.
fn settle(
    hub: &mut Hub,
    session: u64,
    seat: &mut Seat,
    buffer: &mut [u8],
) -> Result<Option<EndReason>, NoMemory>
    requires { max_wire ≤ length buffer.old }
    ensures { IfOk result (λ over. Moves (λ world s. settled enough session world s None) (settle_calls enough session) hub.old (seat_kept seat.old) 0 over hub.new (seat_kept seat.new)) }
{
    let mut over = None;
    let mut left = u64::MAX;
    'rounds: loop {
        let turn = round(hub, session, seat, buffer)?;
        over = first_end(over, turn.over);
        if !turn.moves {
            return Ok(over);
        }
        if left == 0 {
            return Ok(over);
        }
        left -= 1;
    }
}

// The first end that was told.
fn first_end(first: Option<EndReason>, second: Option<EndReason>) -> Option<EndReason>
    ensures { result ≡ (if is_some first then first else second) }
{
    match first {
        Some(_) => first,
        None => second,
    }
}

// Octets from the client onto the wire, into the session, from it onto the other wire, and to the client.
fn round(
    hub: &mut Hub,
    session: u64,
    seat: &mut Seat,
    buffer: &mut [u8],
) -> Result<RoundDone, NoMemory>
    requires { max_wire ≤ length buffer.old }
    ensures { IfOk result (λ turn. Turns session hub.old (seat_kept seat.old) turn.moves turn.over hub.new (seat_kept seat.new)) }
{
    let said = say(seat, MAX_WIRE, buffer)?;
    let taken = up(hub, session, seat, MAX_WIRE);
    let (given, emission) = emit_down(hub, session, seat, MAX_WIRE, buffer)?;
    let came = down(seat, MAX_WIRE)?;
    Ok(RoundDone {
        moves: has_moved(said, taken, given, emission.reacted, came),
        over: emission.over,
    })
}

// Whether octets went from the client, into the session, from it, or to the client, or the session reacted.
fn has_moved(said: usize, taken: usize, given: usize, reacted: bool, came: usize) -> bool
    ensures { result ≡ not (said + taken + given + came == 0 && not reacted) }
{
    said > 0 || taken > 0 || given > 0 || reacted || came > 0
}

// How many octets more go onto a wire that has so many, which are at most a number.
fn room_on(most: usize, wire: usize) -> usize
    ensures { result ≡ min most (max_wire - wire) }
{
    most.min(MAX_WIRE.saturating_sub(wire))
}

// From the client onto the upward wire, as far as that has room.
fn say(seat: &mut Seat, most: usize, buffer: &mut [u8]) -> Result<usize, NoMemory>
    requires { max_wire ≤ length buffer.old }
    ensures { (hub : AskingHub) → IfOk result (λ count. Passes (passing.say most) (λ world s. []) hub (seat_kept seat.old) count false None hub (seat_kept seat.new)) }
{
    let room = room_on(most, seat.up_wire.len());
    say_into(seat, most, &mut buffer[..room])
}

// As many as there is room for.
fn say_into(seat: &mut Seat, most: usize, buffer: &mut [u8]) -> Result<usize, NoMemory>
    requires { length buffer.old ≡ min most (max_wire - length seat.old.up_wire.items) }
    ensures { (hub : AskingHub) → IfOk result (λ count. Passes (passing.say most) (λ world s. []) hub (seat_kept seat.old) count false None hub (seat_kept seat.new)) }
{
    let count = seat.client.give(buffer);
    seat.up_wire.extend_from_slice(front_of(buffer, count))?;
    Ok(count)
}

/// What is behind the first so many stays.
pub(crate) fn drop_front<T: Drop>(list: &mut Vec<T>, count: usize)
    ensures { list.new.items ≡ drop count list.old.items }
{
    if count >= list.len() {
        list.clear();
        return;
    }
    let left = list.len() - count;
    list.rotate_left(count);
    list.truncate(left);
}

// From the upward wire into the session, as far as that has room.
fn up(hub: &mut Hub, session: u64, seat: &mut Seat, most: usize) -> usize
    ensures { Passes (passing.up session most) (up_calls session most) hub.old (seat_kept seat.old) result false None hub.new (seat_kept seat.new) }
{
    let count = hub.take(session, front_of(&seat.up_wire, most));
    drop_front(&mut seat.up_wire, count);
    count
}

// From the session onto the downward wire, as far as that has room: how many octets, and what else was done.
fn emit_down(
    hub: &mut Hub,
    session: u64,
    seat: &mut Seat,
    most: usize,
    buffer: &mut [u8],
) -> Result<(usize, Emission), NoMemory>
    requires { frame_octets ≤ length buffer.old }
    ensures { IfOk result (λ r. Passes (passing.emit session most) (out_calls session most) hub.old (seat_kept seat.old) r.0 (r.1.reacted || nat_lt 0 r.0) r.1.over hub.new (seat_kept seat.new)) }
{
    let before = seat.down_wire.len();
    let room = room_on(most, before) as u64;
    let emission = emit(
        hub,
        session,
        room,
        buffer,
        &mut seat.down_wire,
        true,
        &mut seat.filled,
    )?;
    Ok((seat.down_wire.len().saturating_sub(before), emission))
}

// From the downward wire to the client, as far as it has room, and reacts.
fn down(seat: &mut Seat, most: usize) -> Result<usize, NoMemory>
    ensures { (hub : AskingHub) → IfOk result (λ count. Passes (passing.down most) (λ world s. []) hub (seat_kept seat.old) count (nat_lt 0 count) None hub (seat_kept seat.new)) }
{
    let count = deliver(&mut seat.client, front_of(&seat.down_wire, most))?;
    drop_front(&mut seat.down_wire, count);
    seat.reached = counted(seat.reached, count)?;
    Ok(count)
}

// So many octets more have reached the client; no connection that there is memory for carries as many as are not counted.
fn counted(reached: u64, count: usize) -> Result<u64, NoMemory>
    ensures { IfOk result (λ sum. (sum ≡ reached + count) × (sum < max_number)) }
{
    match reached.checked_add(count as u64) {
        Some(u64::MAX) | None => Err(NoMemory),
        Some(sum) => Ok(sum),
    }
}
