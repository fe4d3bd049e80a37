//! What happens in a script, and to whom, by numbers.

ghost use Rattle.std.specs.Prelude.{Bool, List, string_bytes};
ghost use Rattle.scripts.specs.Lines.{Word};
ghost use Rattle.scripts.specs.declared.line.EventLine.TheVariants as event_lines;
ghost use Rattle.scripts.specs.KeptLines.{words_of};
ghost use Rattle.scripts.specs.Events.{known_clients};
ghost use Rattle.scripts.specs.Drafts.{IsParty, Numbered};

use crate::all_words::Words;
use crate::client_list::Clients;
use crate::clients::{may_happen_to, may_meet, place_among};
use crate::line::{Call, ClientEvent, EventLine, HubEvent, LinkEvent, SessionEvent, Way};

/// Whose session it is.
#[derive(Debug, Drop)]
pub enum Party {
    /// That of the client of a number.
    Client(usize),
    /// That of the peer of a word.
    Peer(String),
}

/// What happens, and to whom: clients and links have numbers, counted from 0 in the order of their lines.
#[derive(Debug, Drop)]
pub enum Event {
    /// There is one client more.
    Joining { client: usize },
    /// At the hub.
    Hub(HubEvent),
    /// On a link.
    Link { link: usize, event: LinkEvent },
    /// A call of a client.
    Call { client: usize, call: Call },
    /// Octets of a client pass.
    Passing { client: usize, way: Way },
    /// To a client.
    Client { client: usize, event: ClientEvent },
    /// To a session.
    Session { party: Party, event: SessionEvent },
}

/// The event of a line, if its word, where it has one, may stand there: a peer has a word that no client has anywhere,
/// and a client or a link that is spoken of is one that there is.
pub(crate) fn event_of(
    all: &Words,
    links: &[String],
    clients: &Clients,
    line: EventLine,
) -> Option<Event>
    ensures { Numbered all.now (words_of links.now) (known_clients clients.now) line result }
{
    match line {
        EventLine::Hub(event) => Some(Event::Hub(event)),
        EventLine::Link { word, event } => on_link(links, word, event),
        EventLine::Call { word, call } => call_of(clients, word, call),
        EventLine::Passing { word, way } => passing_of(clients, word, way),
        EventLine::Client { word, event } => to_client(clients, word, event),
        EventLine::Session { word, event } => to_session(all, clients, word, event),
    }
}

// What happens on the link of a word.
fn on_link(links: &[String], word: String, event: LinkEvent) -> Option<Event>
    ensures { (all : List Word) (clients : List (Word × Bool)) → Numbered all (words_of links.now) clients (event_lines.Link word event) result }
{
    let link = place_among(links, word.as_bytes())?;
    Some(Event::Link { link, event })
}

// A call of the client of a word.
fn call_of(clients: &Clients, word: String, call: Call) -> Option<Event>
    ensures { (all links : List Word) → Numbered all links (known_clients clients.now) (event_lines.Call word call) result }
{
    let client = clients.place(word.as_bytes())?;
    Some(Event::Call { client, call })
}

// Octets of the client of a word that pass.
fn passing_of(clients: &Clients, word: String, way: Way) -> Option<Event>
    ensures { (all links : List Word) → Numbered all links (known_clients clients.now) (event_lines.Passing word way) result }
{
    let client = clients.place(word.as_bytes())?;
    Some(Event::Passing { client, way })
}

// What happens to the client of a word, if it may.
fn to_client(clients: &Clients, word: String, event: ClientEvent) -> Option<Event>
    ensures { (all links : List Word) → Numbered all links (known_clients clients.now) (event_lines.Client word event) result }
{
    let client = clients.place(word.as_bytes())?;
    if !may_happen_to(clients, word.as_bytes(), &event) {
        return None;
    }
    Some(Event::Client { client, event })
}

// What happens to the session of a word, if it may.
fn to_session(all: &Words, clients: &Clients, word: String, event: SessionEvent) -> Option<Event>
    ensures { (links : List Word) → Numbered all.now links (known_clients clients.now) (event_lines.Session word event) result }
{
    if !may_meet(all, clients, word.as_bytes(), &event) {
        return None;
    }
    let party = party_of(clients, word);
    Some(Event::Session { party, event })
}

// The party of a word: a client, or else a peer.
fn party_of(clients: &Clients, word: String) -> Party
    ensures { IsParty (known_clients clients.now) (string_bytes word) result }
{
    match clients.place(word.as_bytes()) {
        Some(client) => Party::Client(client),
        None => Party::Peer(word),
    }
}
