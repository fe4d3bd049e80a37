//! The lines that events print.

ghost use Rattle.push_base.specs.Limits.{max_moment};
ghost use Rattle.std.specs.Prelude.{◌≡◌, ◌≤◌, ◌<◌, ◌++◌, ◌∷◌, [], Some, codes, decimal, flat_map, length, map, position, IfOk, IfSome, string_bytes};
ghost use Rattle.std.specs.Str.{bytes_eq};
ghost use Rattle.replay.specs.TextWords.{by_notices, end_words};
ghost use Rattle.replay.specs.Text.{client_does, cuts, exchanges, hub_does, moments, printing, sends, seated as takes_seat, session_does, session_of_word, stops, updates};
ghost use Rattle.pushserver.specs.Hubs.{newest, now};
ghost use Rattle.pushserver.specs.PlainHubs.{Hub as PlainHub};
ghost use Rattle.scripts.specs.Lines.{Word, link_event};
ghost use Rattle.scripts.specs.KeptLines.{words_of};
ghost use Rattle.scripts.specs.Events.{client_at, event_said, known_clients, party_word, IsNamed, IsNamedParty};
ghost use Rattle.replay.specs.LineCalls.{client_calls, exchanges_calls, hub_calls, send_calls, session_calls, stop_calls};
ghost use Rattle.replay.specs.KeptAskings.{AsksAfter, StandsFor};
ghost use Rattle.replay.specs.KeptWorlds.{Does, IsWorld, RunsLine, parties_of, seated, words_seated};
ghost use Rattle.replay.specs.KeptSeats.{TimesWorld, has_word};
ghost use Rattle.replay.specs.KeptTwoWorlds.{ClosesSo, UpdatesSo};
ghost use Rattle.replay.specs.World.{World as Plain, stopped_hub};

use crate::client_lines::{call_line, joining_line, open_line, timed_lines};
use crate::exchanging::{Exchanged, exchange};
use crate::feed_lines::feed_lines;
use crate::hear_lines::{asks_line, gone_line, hear_line};
use crate::passing_lines::passing_line;
use crate::printed::{
    bytes_line, cut_text, end_text, end_words, noseat_text, point_text, stop_text, update_text,
};
use crate::seats::{cut_at, session_at};
use crate::show_lines::show_lines;
use crate::world::{Peer, World};
use dsosession::session::EndReason;
use hubasking::{ConnectFault, Hub, HubFault};
use push_base::NoMemory;
use scripts::KnownClient;
use scripts::event::{Event, Party};
use scripts::line::{ClientEvent, HubEvent, LinkEvent, SessionEvent};
use std::alloc::Global;

/// What an event prints, each line with its end, where the script has these clients.
pub fn event_line(
    alloc: Global,
    clients: &[KnownClient],
    world: &mut World,
    event: &Event,
) -> Result<String, NoMemory>
    requires { IsNamed (words_of world.old.links.items) (known_clients clients.now) (words_seated (seated world.old.seats.items)) event.now }
    ensures { IfOk result (λ text. RunsLine by_notices (event_said (words_of world.old.links.items) (known_clients clients.now) event.now) world.old (string_bytes text) world.new) }
{
    match event {
        Event::Joining { client } => client_joins(alloc, world, &clients[*client]),
        Event::Hub(event) => hub_line(alloc, world, event),
        Event::Link { link, event } => link_line(alloc, world, *link, event),
        Event::Call { client, call } => {
            call_line(alloc, world, *client, word_of(clients, *client), call)
        }
        Event::Passing { client, way } => {
            passing_line(alloc, world, *client, word_of(clients, *client), *way)
        }
        Event::Client { client, event } => {
            client_line(alloc, world, *client, word_of(clients, *client), event)
        }
        Event::Session { party, event } => party_line(alloc, clients, world, party, event),
    }
}

/// The word of the client of a number.
pub(crate) fn word_of(clients: &[KnownClient], client: usize) -> &str
    requires { client < length clients.now }
    ensures { result.now ≡ (client_at (known_clients clients.now) client).0 }
{
    clients[client].word.as_str()
}

// There is one client more.
fn client_joins(alloc: Global, world: &mut World, client: &KnownClient) -> Result<String, NoMemory>
    ensures { IfOk result (λ text. Does (takes_seat (string_bytes client.now.word) client.now.is_lone) (λ plain. []) world.old (string_bytes text) world.new) }
{
    joining_line(alloc, world, client.word.as_str(), client.is_lone)
}

// What happens at the hub.
fn hub_line(alloc: Global, world: &mut World, event: &HubEvent) -> Result<String, NoMemory>
    ensures { IfOk result (λ text. Does (hub_does event.now) (hub_calls event.now) world.old (string_bytes text) world.new) }
{
    match event {
        HubEvent::At(moment) => moment_lines(alloc, world, moment.millis()),
        HubEvent::Update(message) => update_line(alloc, world, message.as_slice()),
        HubEvent::Point => point_line(alloc, world),
    }
}

// What happens on the link of a number.
fn link_line(
    alloc: Global,
    world: &mut World,
    link: usize,
    event: &LinkEvent,
) -> Result<String, NoMemory>
    requires { link < length world.old.links.items }
    ensures { (w : Word) → position (bytes_eq w) (words_of world.old.links.items) ≡ Some link → IfOk result (λ text. RunsLine by_notices (link_event w event.now) world.old (string_bytes text) world.new) }
{
    match event {
        LinkEvent::Hear(datagram) => hear_line(alloc, world, link, datagram.as_slice()),
        LinkEvent::Gone => gone_line(alloc, world, link),
        LinkEvent::Asks => asks_line(alloc, world, link),
    }
}

// What happens to the client of a number, which has that word.
fn client_line(
    alloc: Global,
    world: &mut World,
    client: usize,
    word: &str,
    event: &ClientEvent,
) -> Result<String, NoMemory>
    requires at { position (has_word word.now) (seated world.old.seats.items) ≡ Some client }
    requires within { client < length world.old.seats.items }
    ensures { IfOk result (λ text. Does (client_does by_notices event.now word.now) (client_calls event.now word.now) world.old (string_bytes text) world.new) }
{
    match event {
        ClientEvent::Open => open_line(alloc, world, client, word),
        ClientEvent::Feed(octets) => feed_lines(alloc, world, client, word, octets.as_slice()),
        ClientEvent::Show { question, written } => {
            show_lines(alloc, world, client, word, question, written.as_str())
        }
    }
}

// What happens to the session of a party.
fn party_line(
    alloc: Global,
    clients: &[KnownClient],
    world: &mut World,
    party: &Party,
    event: &SessionEvent,
) -> Result<String, NoMemory>
    requires { IsNamedParty (known_clients clients.now) (words_seated (seated world.old.seats.items)) party.now }
    ensures { IfOk result (λ text. Does (session_does event.now (party_word (known_clients clients.now) party.now)) (session_calls event.now (party_word (known_clients clients.now) party.now)) world.old (string_bytes text) world.new) }
{
    match party {
        Party::Client(client) => {
            session_line(
                alloc,
                world,
                Some(*client),
                word_of(clients, *client),
                event,
            )
        }
        Party::Peer(word) => session_line(alloc, world, None, word.as_str(), event),
    }
}

// What happens to the session of a word: that of a client, which stands there, or else that of a peer.
fn session_line(
    alloc: Global,
    world: &mut World,
    seat: Option<usize>,
    word: &str,
    event: &SessionEvent,
) -> Result<String, NoMemory>
    requires at { position (has_word word.now) (seated world.old.seats.items) ≡ seat }
    requires within { IfSome seat (λ place. place < length world.old.seats.items) }
    ensures { IfOk result (λ text. Does (session_does event.now word.now) (session_calls event.now word.now) world.old (string_bytes text) world.new) }
{
    match event {
        SessionEvent::Send(octets) => send_lines(alloc, world, word, octets.as_slice()),
        SessionEvent::Stop { rcode, delay } => stop_line(alloc, world, seat, word, *rcode, *delay),
        SessionEvent::Cut => cut_line(alloc, world, seat, word),
    }
}

// An update message comes.
fn update_line(alloc: Global, world: &mut World, message: &[u8]) -> Result<String, NoMemory>
    ensures { IfOk result (λ text. Does (updates message.now) (hub_calls (HubEvent.Update message.now)) world.old (string_bytes text) world.new) }
{
    let code = update_code(world, message)?;
    update_text(alloc, code)
}

/// An update message comes: its RCODE.
pub(crate) fn update_code(world: &mut World, message: &[u8]) -> Result<u8, NoMemory>
    ensures { IfOk result (λ code. UpdatesSo message.now world.old.hub (parties_of world.old) code world.new.hub (parties_of world.new)) }
{
    match world.hub.update_uncounted(message) {
        Ok(code) => Ok(code),
        Err(HubFault::NoMemory) => Err(NoMemory),
    }
}

// The newest point and the moment are asked for.
fn point_line(alloc: Global, world: &mut World) -> Result<String, NoMemory>
    ensures { IfOk result (λ text. Does (λ plain. printing (codes "point" ∷ decimal (newest plain.hub) ∷ decimal (now plain.hub) ∷ []) plain) (λ plain. []) world.old (string_bytes text) world.new) }
{
    point_text(alloc, world.hub.point(), world.hub.now())
}

// A moment comes: for the hub, and then for each client at the hub's moment.
fn moment_lines(alloc: Global, world: &mut World, moment: u64) -> Result<String, NoMemory>
    requires { moment ≤ max_moment }
    ensures { IfOk result (λ text. Does (moments moment) (hub_calls (HubEvent.At moment)) world.old (string_bytes text) world.new) }
{
    let closes = moment_closes(alloc, world, moment)?;
    joined_lines(alloc, &closes)
}

/// A moment comes: for the hub, and then for each client at the hub's moment; of each client the line of its close, if it
/// closes.
pub(crate) fn moment_closes(
    alloc: Global,
    world: &mut World,
    moment: u64,
) -> Result<Vec<String>, NoMemory>
    requires { moment ≤ max_moment }
    ensures { IfOk result (λ closes. ClosesSo moment world.old.hub (parties_of world.old) (map (λ t. string_bytes t) closes.items) world.new.hub (parties_of world.new)) }
{
    match world.hub.moment_uncounted(moment) {
        Ok(()) => clients_timed(alloc, world),
        Err(HubFault::NoMemory) => Err(NoMemory),
    }
}

// It is the hub's moment for each client.
fn clients_timed(alloc: Global, world: &mut World) -> Result<Vec<String>, NoMemory>
    ensures { IfOk result (λ lines. TimesWorld world.old.hub (parties_of world.old) world.new.hub (parties_of world.new) (map (λ t. string_bytes t) lines.items)) }
{
    let now = world.hub.now();
    let lines = timed_lines(alloc, &mut world.hub, &mut world.seats, now)?;
    Ok(lines)
}

/// Texts one behind another.
pub(crate) fn joined_lines(alloc: Global, lines: &[String]) -> Result<String, NoMemory>
    ensures { IfOk result (λ text. string_bytes text ≡ flat_map (λ t. string_bytes t) lines.now) }
{
    let mut text = String::new(alloc);
    'lines: for line in lines {
        text.push_str(line.as_str())?;
    }
    Ok(text)
}

// The session of a client is asked to stop, or else that of a peer.
fn stop_line(
    alloc: Global,
    world: &mut World,
    seat: Option<usize>,
    word: &str,
    rcode: u8,
    delay: u32,
) -> Result<String, NoMemory>
    requires at { position (has_word word.now) (seated world.old.seats.items) ≡ seat }
    requires within { IfSome seat (λ place. place < length world.old.seats.items) }
    ensures { IfOk result (λ text. Does (stops word.now rcode delay) (session_calls (SessionEvent.Stop rcode delay) word.now) world.old (string_bytes text) world.new) }
{
    let session = session_of_word(world, seat, word);
    stop_session(&mut world.hub, session, rcode, delay);
    stop_text(alloc, word)
}

// The session of a client, or else that of a peer.
fn session_of_word(world: &World, seat: Option<usize>, word: &str) -> Option<u64>
    requires at { position (has_word word.now) (seated world.now.seats.items) ≡ seat }
    requires within { IfSome seat (λ place. place < length world.now.seats.items) }
    ensures { (plain : Plain) → IsWorld world.now plain → result ≡ session_of_word plain word.now }
{
    match seat {
        Some(place) => {
            let session = session_at(&world.seats, place);
            session
        }
        None => {
            let session = world.session(word);
            session
        }
    }
}

// A session is asked to stop, if there is one.
fn stop_session(hub: &mut Hub, session: Option<u64>, rcode: u8, delay: u32)
    ensures { (plain : PlainHub) → StandsFor hub.old plain → StandsFor hub.new (stopped_hub session rcode delay plain) × AsksAfter (stop_calls session rcode delay) plain hub.old.askings hub.new.askings }
{
    if let Some(session) = session {
        hub.stop(session, rcode, delay);
    }
}

// The connection of a client is cut, or else that of a peer.
fn cut_line(
    alloc: Global,
    world: &mut World,
    seat: Option<usize>,
    word: &str,
) -> Result<String, NoMemory>
    requires at { position (has_word word.now) (seated world.old.seats.items) ≡ seat }
    requires within { IfSome seat (λ place. place < length world.old.seats.items) }
    ensures { IfOk result (λ text. Does (cuts word.now) (session_calls SessionEvent.Cut word.now) world.old (string_bytes text) world.new) }
{
    match seat {
        Some(place) => {
            cut_at(&mut world.hub, &mut world.seats, place);
            cut_text(alloc, word)
        }
        None => {
            world.cut(word);
            cut_text(alloc, word)
        }
    }
}

// A peer sends octets: to its session, or to a new one where it has none.
fn send_lines(
    alloc: Global,
    world: &mut World,
    word: &str,
    octets: &[u8],
) -> Result<String, NoMemory>
    ensures { IfOk result (λ text. Does (sends word.now octets.now) (send_calls word.now octets.now) world.old (string_bytes text) world.new) }
{
    if let Some(session) = world.session(word) {
        return exchange_lines(alloc, world, word, session, octets);
    }
    match world.hub.connect() {
        Ok(session) => {
            let peer = Peer {
                word: String::from_str(alloc, word)?,
                session,
            };
            world.peers.push(peer)?;
            exchange_lines(alloc, world, word, session, octets)
        }
        Err(ConnectFault::NoSeat) => noseat_text(alloc, word),
        Err(ConnectFault::NoMemory) => Err(NoMemory),
    }
}

// Octets go to the session of a peer, and what comes back is told, and the end of the session, which cuts the peer.
fn exchange_lines(
    alloc: Global,
    world: &mut World,
    word: &str,
    session: u64,
    octets: &[u8],
) -> Result<String, NoMemory>
    ensures { IfOk result (λ text. Does (exchanges word.now session octets.now) (exchanges_calls word.now session octets.now) world.old (string_bytes text) world.new) }
{
    let Exchanged { octets, over } = exchange(
        alloc,
        &mut world.hub,
        session,
        octets,
        &mut world.buffer,
    )?;
    let text = bytes_line(alloc, word, octets.as_slice())?;
    match over {
        None => Ok(text),
        Some(reason) => {
            world.cut(word);
            ended_text(alloc, text, word, reason)
        }
    }
}

// A text, and the line of an end behind it.
fn ended_text(
    alloc: Global,
    mut text: String,
    word: &str,
    reason: EndReason,
) -> Result<String, NoMemory>
    ensures { IfOk result (λ told. string_bytes told ≡ string_bytes text ++ (codes "end " ++ (word.now ++ 32 ∷ (end_words reason ++ 10 ∷ [])))) }
{
    let words = end_words(alloc, reason)?;
    let end = end_text(alloc, word, words.as_str())?;
    text.push_str(end.as_str())?;
    Ok(text)
}
