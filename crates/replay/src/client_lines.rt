//! The lines that events of clients print.

ghost use Rattle.std.specs.Prelude.{[], ◌≡◌, ◌<◌, length, map, position, Some, IfOk, string_bytes};
ghost use Rattle.replay.specs.World.{new_seat};
ghost use Rattle.replay.specs.Text.{asks, opens, opens_hub, opens_lone, seated as takes_seat, by_seat};
ghost use Rattle.replay.specs.LineCalls.{connect_calls, of_seat, open_calls};
ghost use Rattle.replay.specs.KeptWorlds.{Does, StandsForSeat, seat_kept, seated};
ghost use Rattle.replay.specs.KeptSeats.{Times, has_word};

use crate::printed::{already_text, call_text, closing_line, noseat_text, open_text};
use crate::seats::{Seat, call_at, is_connected_at, is_lone_at, join_at, moment_at, open_at};
use crate::world::World;
use hubasking::{ConnectFault, Hub};
use push_base::NoMemory;
use pushclient::Client;
use scripts::line::Call;
use std::alloc::Global;

/// There is one client more.
pub(crate) fn joining_line(
    alloc: Global,
    world: &mut World,
    word: &str,
    is_lone: bool,
) -> Result<String, NoMemory>
    ensures { IfOk result (λ text. Does (takes_seat word.now is_lone) (λ plain. []) world.old (string_bytes text) world.new) }
{
    let seat = new_seat(alloc, word, is_lone)?;
    world.seats.push(seat)?;
    Ok(String::new(alloc))
}

// A client without a connection, that wants nothing.
fn new_seat(alloc: Global, word: &str, is_lone: bool) -> Result<Seat, NoMemory>
    ensures { IfOk result (λ seat. StandsForSeat (seat_kept seat) (new_seat word.now is_lone)) }
{
    let word = String::from_str(alloc, word)?;
    Ok(Seat {
        word,
        is_lone,
        client: Client::new(alloc),
        session: None,
        up_wire: Vec::new(alloc),
        down_wire: Vec::new(alloc),
        reached: 0,
        filled: Vec::new(alloc),
    })
}

/// A call of the client of a number, which has that word, and what it answers.
pub(crate) fn call_line(
    alloc: Global,
    world: &mut World,
    client: usize,
    word: &str,
    call: &Call,
) -> Result<String, NoMemory>
    requires at { position (has_word word.now) (seated world.old.seats.items) ≡ Some client }
    requires within { client < length world.old.seats.items }
    ensures { IfOk result (λ text. Does (asks call.now word.now) (λ plain. []) world.old (string_bytes text) world.new) }
{
    let answer = call_at(alloc, &mut world.seats, client, call)?;
    call_text(alloc, call, word, answer.as_str())
}

/// The client of a number, which has that word, opens a connection, unless it has one.
pub(crate) fn open_line(
    alloc: Global,
    world: &mut World,
    client: usize,
    word: &str,
) -> Result<String, NoMemory>
    requires at { position (has_word word.now) (seated world.old.seats.items) ≡ Some client }
    requires within { client < length world.old.seats.items }
    ensures { IfOk result (λ text. Does (opens word.now) (of_seat open_calls word.now) world.old (string_bytes text) world.new) }
{
    if is_connected_at(&world.seats, client) {
        return already_text(alloc, word);
    }
    if is_lone_at(&world.seats, client) {
        return open_lone(alloc, world, client, word);
    }
    open_hub(alloc, world, client, word)
}

// The lone client at a place opens a connection.
fn open_lone(alloc: Global, world: &mut World, place: usize, word: &str) -> Result<String, NoMemory>
    requires { place < length world.old.seats.items }
    ensures { position (has_word word.now) (seated world.old.seats.items) ≡ Some place → IfOk result (λ text. Does (by_seat opens_lone word.now) (λ plain. []) world.old (string_bytes text) world.new) }
{
    let now = world.hub.now();
    open_at(&mut world.seats, place, now)?;
    open_text(alloc, word)
}

// The client at a place opens a connection to the hub, if that has a seat.
fn open_hub(alloc: Global, world: &mut World, place: usize, word: &str) -> Result<String, NoMemory>
    requires { place < length world.old.seats.items }
    ensures { position (has_word word.now) (seated world.old.seats.items) ≡ Some place → IfOk result (λ text. Does (by_seat opens_hub word.now) (λ plain. connect_calls plain.hub) world.old (string_bytes text) world.new) }
{
    let now = world.hub.now();
    match world.hub.connect() {
        Ok(session) => {
            join_at(&mut world.seats, place, now, session)?;
            open_text(alloc, word)
        }
        Err(ConnectFault::NoSeat) => noseat_text(alloc, word),
        Err(ConnectFault::NoMemory) => Err(NoMemory),
    }
}

/// It is a moment for each client, in order: of each the line of its close, if it closes.
pub(crate) fn timed_lines(
    alloc: Global,
    hub: &mut Hub,
    seats: &mut [Seat],
    now: u64,
) -> Result<Vec<String>, NoMemory>
    ensures { IfOk result (λ lines. Times now hub.old (seated seats.old) hub.new (seated seats.new) (map (λ t. string_bytes t) lines.items)) }
{
    let mut lines = Vec::new(alloc);
    'seats: for place in 0..seats.len() {
        let closing = moment_at(hub, seats, place, now)?;
        let line = closing_line(alloc, seats[place].word.as_str(), closing)?;
        lines.push(line)?;
    }
    Ok(lines)
}
