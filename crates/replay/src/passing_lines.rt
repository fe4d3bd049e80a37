//! The lines that are printed where octets of a client pass.

ghost use Rattle.std.specs.Prelude.{◌≡◌, ◌<◌, ◌≤◌, ◌++◌, Some, length, position, IfOk, string_bytes};
ghost use Rattle.replay.specs.Text.{end_lines, passes, passes_way};
ghost use Rattle.replay.specs.LineCalls.{passes_calls, way_calls, with_session};
ghost use Rattle.scripts.specs.Words.{ended_lines};
ghost use Rattle.replay.specs.KeptWorlds.{Does, seat_kept, seated};
ghost use Rattle.replay.specs.KeptSeats.{closing_text, has_word};
ghost use Rattle.replay.specs.KeptPassings.{EndsSo, EndsAt, Moves, way_text};
ghost use Rattle.replay.specs.PassedOctets.{max_wire};

use crate::printed::{closing_line, end_line, way_text};
use crate::seats::{Seat, finish};
use crate::settling::{Passage, pass};
use crate::world::{World, make_room};
use dsosession::session::{CloseReason, EndReason};
use hubasking::Hub;
use push_base::NoMemory;
use scripts::line::Way;
use scripts::line_words::MAX_WIRE;
use std::alloc::Global;

/// How a passing of octets ended: how many passed, why the session ended, if that was told, and why the client has
/// closed, if it has.
#[derive(Clone, Copy)]
pub struct Ending {
    /// How many octets passed one way, none where the client settles.
    pub count: usize,
    /// Why the session ended, if its end was told.
    pub over: Option<EndReason>,
    /// Why the client has closed, if it has.
    pub closing: Option<CloseReason>,
}

/// Octets of the client of a number, which has that word, pass one way, or each way until nothing moves, and where its
/// session ends or it closes its connection is cut.
pub(crate) fn passing_line(
    alloc: Global,
    world: &mut World,
    client: usize,
    word: &str,
    way: Way,
) -> Result<String, NoMemory>
    requires at { position (has_word word.now) (seated world.old.seats.items) ≡ Some client }
    requires within { client < length world.old.seats.items }
    ensures { IfOk result (λ text. Does (passes way word.now) (passes_calls way word.now) world.old (string_bytes text) world.new) }
{
    let ending = pass_at(
        &mut world.hub,
        &mut world.seats,
        client,
        way,
        &mut world.buffer,
    )?;
    passed_text(alloc, word, way, ending)
}

// Octets of the client at a place pass, by a buffer.
fn pass_at(
    hub: &mut Hub,
    seats: &mut [Seat],
    place: usize,
    way: Way,
    buffer: &mut Vec<u8>,
) -> Result<Ending, NoMemory>
    requires { place < length seats.old }
    ensures { IfOk result (λ ending. EndsAt (passes_way way) (with_session (way_calls way)) hub.old (seated seats.old) place ending.count ending.over ending.closing hub.new (seated seats.new)) }
{
    make_room(buffer, MAX_WIRE)?;
    let ending = pass_one(hub, &mut seats[place], way, buffer.as_mut_slice())?;
    Ok(ending)
}

// Octets of a client pass, and its connection is cut where an end or a close is told.
fn pass_one(hub: &mut Hub, seat: &mut Seat, way: Way, buffer: &mut [u8]) -> Result<Ending, NoMemory>
    requires { max_wire ≤ length buffer.old }
    ensures { IfOk result (λ ending. EndsSo (passes_way way) (with_session (way_calls way)) hub.old (seat_kept seat.old) ending.count ending.over ending.closing hub.new (seat_kept seat.new)) }
{
    let passage = pass_by(hub, seat, way, buffer)?;
    let closing = finish(hub, seat, passage.over);
    Ok(Ending {
        count: passage.count,
        over: passage.over,
        closing,
    })
}

// Without a session nothing passes.
fn pass_by(hub: &mut Hub, seat: &mut Seat, way: Way, buffer: &mut [u8]) -> Result<Passage, NoMemory>
    requires { max_wire ≤ length buffer.old }
    ensures { IfOk result (λ passage. Moves (passes_way way) (with_session (way_calls way)) hub.old (seat_kept seat.old) passage.count passage.over hub.new (seat_kept seat.new)) }
{
    match seat.session {
        None => Ok(Passage {
            count: 0,
            over: None,
        }),
        Some(session) => pass(hub, session, seat, way, buffer),
    }
}

// The line of a passing, and those of an end and of a close.
fn passed_text(alloc: Global, word: &str, way: Way, ending: Ending) -> Result<String, NoMemory>
    ensures { IfOk result (λ text. string_bytes text ≡ way_text way word.now ending.count ++ ended_lines (end_lines word.now ending.over) ++ closing_text word.now ending.closing) }
{
    let mut text = way_text(alloc, word, way, ending.count)?;
    let end = end_line(alloc, word, ending.over)?;
    text.push_str(end.as_str())?;
    let closing = closing_line(alloc, word, ending.closing)?;
    text.push_str(closing.as_str())?;
    Ok(text)
}
