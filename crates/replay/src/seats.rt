//! Clients, each where it stands.

ghost use Rattle.std.specs.Prelude.{◌≡◌, ◌<◌, length, get_or, IfOk, OnOk, string_bytes};
ghost use Rattle.pushserver.specs.PlainHubs.{Hub as PlainHub};
ghost use Rattle.pushclient.specs.Clients.{closed_as, connected};
ghost use Rattle.replay.specs.Text.{called, reconfirming, subscribing, unsubscribing};
ghost use Rattle.replay.specs.World.{cut_if, cut_seat, hub_without, is_over, joined, with_client};
ghost use Rattle.replay.specs.LineCalls.{end_calls};
ghost use Rattle.replay.specs.KeptAskings.{AsksAfter, StandsFor};
ghost use Rattle.replay.specs.KeptWorlds.{KeptSeat, seat_kept, seated};
ghost use Rattle.replay.specs.KeptSeats.{Makes, Calls, Answers, HasCut, HasTimed, HasFinished, TellsConnected, timed_seat};

use crate::printed::{asked_words, yes_or_no};
use dsosession::session::{CloseReason, EndReason};
use hubasking::Hub;
use push_base::NoMemory;
use pushclient::Client;
use rrset::record::{Question, Rr};
use scripts::line::Call;
use std::alloc::Global;

/// A client: its word, whether it is a lone one, and what there is of its connection: the number of its session in the
/// hub, the octets on the wires to it and back, how many have reached the client, and where the first answers of its
/// questions were told to end.
#[derive(Drop)]
pub struct Seat {
    /// Its word in the script.
    pub word: String,
    /// Whether its connections lead to no hub.
    pub is_lone: bool,
    /// What it wants, its connection, and what it holds.
    pub client: Client,
    /// The number of its session, where it has one.
    pub session: Option<u64>,
    /// The octets on their way to the session.
    pub up_wire: Vec<u8>,
    /// The octets on their way to the client.
    pub down_wire: Vec<u8>,
    /// How many octets have reached the client on this connection, fewer than the greatest number of 64 bits.
    pub reached: u64,
    /// By the ID of a question, how many octets there are up to the end of its first answer (RFC 8765, 6.2.2), or the
    /// greatest number of 64 bits where they are more, as it was told last.
    pub filled: Vec<(u16, u64)>,
}

// The same question once more.
fn copied(question: &Question) -> Result<Question, NoMemory>
    ensures { IfOk result (λ copy. copy ≡ question.now) }
{
    Ok(Question {
        name: question.name.copy()?,
        kind: question.kind,
        class: question.class,
    })
}

// A client asks a question, and answers what became of the wish.
fn ask_one(alloc: Global, seat: &mut Seat, question: &Question) -> Result<String, NoMemory>
    ensures { IfOk result (λ answer. Makes (Answers (λ c. string_bytes answer ≡ (subscribing question.now c).0)) (with_client (λ c. (subscribing question.now c).1)) (seat_kept seat.old) (seat_kept seat.new)) }
{
    let question = copied(question)?;
    let asked = seat.client.subscribe(question)?;
    let answer = asked_words(alloc, asked)?;
    Ok(answer)
}

// A client drops a question, and answers whether it was wanted.
fn drop_one(alloc: Global, seat: &mut Seat, question: &Question) -> Result<String, NoMemory>
    ensures { IfOk result (λ answer. Makes (Answers (λ c. string_bytes answer ≡ (unsubscribing question.now c).0)) (with_client (λ c. (unsubscribing question.now c).1)) (seat_kept seat.old) (seat_kept seat.new)) }
{
    let wanted = seat.client.unsubscribe(question)?;
    let answer = yes_or_no(alloc, wanted)?;
    Ok(answer)
}

// A client says that a record may be out of date, and answers whether it did.
fn reconfirm_one(alloc: Global, seat: &mut Seat, rr: &Rr) -> Result<String, NoMemory>
    ensures { IfOk result (λ answer. Makes (Answers (λ c. string_bytes answer ≡ (reconfirming rr.now c).0)) (with_client (λ c. (reconfirming rr.now c).1)) (seat_kept seat.old) (seat_kept seat.new)) }
{
    let said = seat.client.reconfirm(rr)?;
    let answer = yes_or_no(alloc, said)?;
    Ok(answer)
}

// A call of a client, and what it answers.
fn call_one(alloc: Global, seat: &mut Seat, call: &Call) -> Result<String, NoMemory>
    ensures { IfOk result (λ answer. Makes (Answers (λ c. string_bytes answer ≡ (called call.now c).0)) (with_client (λ c. (called call.now c).1)) (seat_kept seat.old) (seat_kept seat.new)) }
{
    match call {
        Call::Ask(question) => ask_one(alloc, seat, question),
        Call::Drop(question) => drop_one(alloc, seat, question),
        Call::Reconfirm(rr) => reconfirm_one(alloc, seat, rr),
    }
}

// A client has a new connection.
fn open_one(seat: &mut Seat, now: u64) -> Result<(), NoMemory>
    ensures { OnOk result (Makes (λ s. Unit {0}) (with_client (connected now)) (seat_kept seat.old) (seat_kept seat.new)) }
{
    seat.client.connected(now)?;
    Ok(())
}

// A client has a new connection, to a session of the hub.
fn join_one(seat: &mut Seat, now: u64, session: u64) -> Result<(), NoMemory>
    ensures { OnOk result (Makes (λ s. Unit {0}) (joined now session) (seat_kept seat.old) (seat_kept seat.new)) }
{
    open_one(seat, now)?;
    seat.session = Some(session);
    Ok(())
}

// A session is gone, if there is one.
fn end_session(hub: &mut Hub, session: Option<u64>)
    ensures { (plain : PlainHub) → StandsFor hub.old plain → StandsFor hub.new (hub_without session plain) × AsksAfter (end_calls session) plain hub.old.askings hub.new.askings }
{
    if let Some(session) = session {
        hub.end(session);
    }
}

// What there was of a connection is gone.
fn clear_one(seat: &mut Seat)
    ensures { Makes (λ s. Unit {0}) cut_seat (seat_kept seat.old) (seat_kept seat.new) }
{
    seat.client.cut();
    seat.session = None;
    seat.up_wire.clear();
    seat.down_wire.clear();
    seat.reached = 0;
    seat.filled.clear();
}

/// The connection of a client is cut at both ends.
pub(crate) fn cut_one(hub: &mut Hub, seat: &mut Seat)
    ensures { Makes (HasCut hub.old hub.new) cut_seat (seat_kept seat.old) (seat_kept seat.new) }
{
    end_session(hub, seat.session);
    clear_one(seat);
}

/// Where an end or a close is told, the connection of a client is cut at both ends; and why the client has closed, if it
/// has.
pub(crate) fn finish(hub: &mut Hub, seat: &mut Seat, over: Option<EndReason>) -> Option<CloseReason>
    ensures { Makes (HasFinished over result hub.old hub.new) (cut_if (is_over over result)) (seat_kept seat.old) (seat_kept seat.new) }
{
    let closing = seat.client.closed();
    if is_over(over, closing) {
        cut_one(hub, seat);
    }
    closing
}

// Whether an end or a close is told.
fn is_over(over: Option<EndReason>, closing: Option<CloseReason>) -> bool
    ensures { result ≡ is_over over closing }
{
    over.is_some() || closing.is_some()
}

// It is a moment for a client, whose connection is cut where it closes, and why it closed.
fn time_one(hub: &mut Hub, seat: &mut Seat, now: u64) -> Result<Option<CloseReason>, NoMemory>
    ensures { IfOk result (λ closing. Makes (HasTimed now closing hub.old hub.new) (timed_seat now closing) (seat_kept seat.old) (seat_kept seat.new)) }
{
    seat.client.moment(now)?;
    Ok(finish(hub, seat, None))
}

/// Whether the client at a place has a connection.
pub(crate) fn is_connected_at(seats: &[Seat], place: usize) -> bool
    requires { place < length seats.now }
    ensures { TellsConnected (seated seats.now) place result }
{
    seats[place].client.is_connected()
}

/// Whether the client at a place is a lone one.
pub(crate) fn is_lone_at(seats: &[Seat], place: usize) -> bool
    requires { place < length seats.now }
    ensures { (seat : KeptSeat) → seat ≡ get_or (seated seats.now) place seat → result ≡ seat.is_lone }
{
    seats[place].is_lone
}

/// The session of the client at a place.
pub(crate) fn session_at(seats: &[Seat], place: usize) -> Option<u64>
    requires { place < length seats.now }
    ensures { (seat : KeptSeat) → seat ≡ get_or (seated seats.now) place seat → result ≡ seat.session }
{
    seats[place].session
}

/// A call of the client at a place, and what it answers.
pub(crate) fn call_at(
    alloc: Global,
    seats: &mut [Seat],
    place: usize,
    call: &Call,
) -> Result<String, NoMemory>
    requires { place < length seats.old }
    ensures { IfOk result (λ answer. Calls (Answers (λ c. string_bytes answer ≡ (called call.now c).0)) (with_client (λ c. (called call.now c).1)) (seated seats.old) place (seated seats.new)) }
{
    let answer = call_one(alloc, &mut seats[place], call)?;
    Ok(answer)
}

/// The client at a place has a new connection.
pub(crate) fn open_at(seats: &mut [Seat], place: usize, now: u64) -> Result<(), NoMemory>
    requires { place < length seats.old }
    ensures { OnOk result (Calls (λ s. Unit {0}) (with_client (connected now)) (seated seats.old) place (seated seats.new)) }
{
    open_one(&mut seats[place], now)?;
    Ok(())
}

/// The client at a place has a new connection, to a session of the hub.
pub(crate) fn join_at(
    seats: &mut [Seat],
    place: usize,
    now: u64,
    session: u64,
) -> Result<(), NoMemory>
    requires { place < length seats.old }
    ensures { OnOk result (Calls (λ s. Unit {0}) (joined now session) (seated seats.old) place (seated seats.new)) }
{
    join_one(&mut seats[place], now, session)?;
    Ok(())
}

/// The connection of the client at a place is cut at both ends.
pub(crate) fn cut_at(hub: &mut Hub, seats: &mut [Seat], place: usize)
    requires { place < length seats.old }
    ensures { Calls (HasCut hub.old hub.new) cut_seat (seated seats.old) place (seated seats.new) }
{
    cut_one(hub, &mut seats[place]);
}

/// It is a moment for the client at a place, whose connection is cut where it closes, and why it closed.
pub(crate) fn moment_at(
    hub: &mut Hub,
    seats: &mut [Seat],
    place: usize,
    now: u64,
) -> Result<Option<CloseReason>, NoMemory>
    requires { place < length seats.old }
    ensures { IfOk result (λ closing. Calls (HasTimed now closing hub.old hub.new) (timed_seat now closing) (seated seats.old) place (seated seats.new)) }
{
    let closing = time_one(hub, &mut seats[place], now)?;
    Ok(closing)
}
