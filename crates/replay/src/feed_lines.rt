//! Octets to a client, and the lines that these print.

ghost use Rattle.std.specs.Prelude.{◌≡◌, ◌<◌, Some, length, position, IfOk, string_bytes};
ghost use Rattle.replay.specs.Text.{feeds};
ghost use Rattle.replay.specs.LineCalls.{feed_calls, of_seat};
ghost use Rattle.replay.specs.KeptWorlds.{Does, seat_kept, seated};
ghost use Rattle.replay.specs.KeptSeats.{Calls, Makes, has_word};
ghost use Rattle.replay.specs.KeptFeeds.{HasFed, fed_seat, fed_text};

use crate::printed::{bytes_line, closing_line};
use crate::seats::{Seat, finish, is_connected_at};
use crate::stepping::{deliver, hand_out};
use crate::world::World;
use dsosession::session::CloseReason;
use hubasking::Hub;
use push_base::NoMemory;
use std::alloc::Global;

// What a client had to send once octets had gone in, and why it closed, if it did.
#[derive(Drop)]
struct Fed {
    octets: Vec<u8>,
    closing: Option<CloseReason>,
}

/// Octets go to the client of a number, which has that word, and what it has to send is told; one that closes is told too,
/// and its connection cut. Where it has none, nothing goes in.
pub(crate) fn feed_lines(
    alloc: Global,
    world: &mut World,
    client: usize,
    word: &str,
    octets: &[u8],
) -> Result<String, NoMemory>
    requires at { position (has_word word.now) (seated world.old.seats.items) ≡ Some client }
    requires within { client < length world.old.seats.items }
    ensures { IfOk result (λ text. Does (feeds word.now octets.now) (of_seat (feed_calls octets.now) word.now) world.old (string_bytes text) world.new) }
{
    if !is_connected_at(&world.seats, client) {
        return bytes_line(alloc, word, &[]);
    }
    let fed = feed_at(
        alloc,
        &mut world.hub,
        &mut world.seats,
        client,
        octets,
        &mut world.buffer,
    )?;
    fed_lines(alloc, word, &fed)
}

// The lines of what a client had to send, and of why it closed, if it did.
fn fed_lines(alloc: Global, word: &str, fed: &Fed) -> Result<String, NoMemory>
    ensures { IfOk result (λ text. string_bytes text ≡ fed_text word.now fed.now.octets.items fed.now.closing) }
{
    let mut text = bytes_line(alloc, word, fed.octets.as_slice())?;
    let closed = closing_line(alloc, word, fed.closing)?;
    text.push_str(closed.as_str())?;
    Ok(text)
}

// Octets go to the client at a place.
fn feed_at(
    alloc: Global,
    hub: &mut Hub,
    seats: &mut [Seat],
    place: usize,
    octets: &[u8],
    buffer: &mut Vec<u8>,
) -> Result<Fed, NoMemory>
    requires { place < length seats.old }
    ensures { IfOk result (λ fed. Calls (HasFed octets.now fed.octets.items fed.closing hub.old hub.new) (fed_seat octets.now fed.closing) (seated seats.old) place (seated seats.new)) }
{
    let fed = feed_one(alloc, hub, &mut seats[place], octets, buffer)?;
    Ok(fed)
}

// Octets go to a client, which hands out what it has to send. Where it has closed its connection is cut.
fn feed_one(
    alloc: Global,
    hub: &mut Hub,
    seat: &mut Seat,
    octets: &[u8],
    buffer: &mut Vec<u8>,
) -> Result<Fed, NoMemory>
    ensures { IfOk result (λ fed. Makes (HasFed octets.now fed.octets.items fed.closing hub.old hub.new) (fed_seat octets.now fed.closing) (seat_kept seat.old) (seat_kept seat.new)) }
{
    deliver(&mut seat.client, octets)?;
    let octets = hand_out(alloc, &mut seat.client, buffer)?;
    let closing = finish(hub, seat, None);
    Ok(Fed { octets, closing })
}
