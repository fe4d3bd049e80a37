//! The words of a script's clients, which its peers do not have, and of its links.

ghost use Rattle.std.specs.Prelude.{◌≡◌, ◌||◌, Some, false, map, option_map, position, IfOk, string_bytes};
ghost use Rattle.std.specs.Str.{bytes_eq};
ghost use Rattle.scripts.specs.Scripts.{is_among, is_peer, is_client_in, is_hub_client_in, is_lone_client_in, may_happen_to, may_meet};
ghost use Rattle.scripts.specs.KeptLines.{words_of};
ghost use Rattle.scripts.specs.Events.{known_clients};
ghost use Rattle.scripts.specs.Drafts.{client_in, is_any_word, is_word};

use crate::all_words::Words;
use crate::client_list::Clients;
use crate::line::{ClientEvent, SessionEvent};
use crate::line_words::plain_word;
use push_base::NoMemory;
use std::alloc::Global;

/// A client that there is: its word, and whether it is a lone one.
#[derive(Debug, Drop)]
pub struct KnownClient {
    /// Its word.
    pub word: String,
    /// Whether its connections lead to no hub.
    pub is_lone: bool,
}

/// The word of the client, or of the lone one, that a line names. It goes by the line's front, so that no line's octets
/// are read here and once more with the line.
pub(crate) fn client_in(alloc: Global, line: &[u8]) -> Result<Option<String>, NoMemory>
    ensures { IfOk result (λ found. option_map (λ w. string_bytes w) found ≡ client_in line.now) }
{
    match line.strip_prefix(b"client ".as_slice()) {
        Some(word) => plain_word(alloc, word),
        None => match line.strip_prefix(b"lone ".as_slice()) {
            Some(word) => plain_word(alloc, word),
            None => Ok(None),
        },
    }
}

/// Whether that may happen to the client of a word: octets come to lone clients alone.
pub(crate) fn may_happen_to(clients: &Clients, word: &[u8], event: &ClientEvent) -> bool
    ensures { result ≡ may_happen_to (known_clients clients.now) word.now event.now }
{
    match event {
        ClientEvent::Open => is_known(clients, word),
        ClientEvent::Feed(_) => is_lone_client(clients, word),
        ClientEvent::Show { .. } => is_known(clients, word),
    }
}

/// Whether that may happen to the session of a word, where these are the words of all clients of the script.
pub(crate) fn may_meet(all: &Words, clients: &Clients, word: &[u8], event: &SessionEvent) -> bool
    ensures { result ≡ may_meet all.now (known_clients clients.now) word.now event.now }
{
    match event {
        SessionEvent::Send(_) => !all.has(word),
        SessionEvent::Stop { .. } => may_be_stopped(all, clients, word),
        SessionEvent::Cut => may_be_cut(all, clients, word),
    }
}

// Whether a word is that of a client that there is, or of a peer.
fn may_be_cut(all: &Words, clients: &Clients, word: &[u8]) -> bool
    ensures { result ≡ (is_client_in (known_clients clients.now) word.now || is_peer all.now word.now) }
{
    is_known(clients, word) || !all.has(word)
}

// Whether a word is that of a client of the hub, or of a peer.
fn may_be_stopped(all: &Words, clients: &Clients, word: &[u8]) -> bool
    ensures { result ≡ (is_hub_client_in (known_clients clients.now) word.now || is_peer all.now word.now) }
{
    is_hub_client(clients, word) || !all.has(word)
}

/// Whether a word is that of a client that there is.
pub(crate) fn is_known(clients: &Clients, word: &[u8]) -> bool
    ensures { result ≡ is_client_in (known_clients clients.now) word.now }
{
    clients.lone(word).is_some()
}

/// Whether a word is that of a client of the hub.
pub(crate) fn is_hub_client(clients: &Clients, word: &[u8]) -> bool
    ensures { result ≡ is_hub_client_in (known_clients clients.now) word.now }
{
    match clients.lone(word) {
        None => false,
        Some(is_lone) => !is_lone,
    }
}

// Whether a word is that of a lone client.
fn is_lone_client(clients: &Clients, word: &[u8]) -> bool
    ensures { result ≡ is_lone_client_in (known_clients clients.now) word.now }
{
    match clients.lone(word) {
        None => false,
        Some(is_lone) => is_lone,
    }
}

/// Whether a word is among others.
#[tactic(auto, using(crate::proofs::lines::ClientLines::any_word))]
pub(crate) fn is_among(words: &[String], word: &[u8]) -> bool
    ensures { result ≡ is_among (map (λ w. string_bytes w) words.now) word.now }
{
    is_any_word(words, word)
}

fn is_any_word(words: &[String], word: &[u8]) -> bool
    ensures { result ≡ is_any_word word.now words.now }
{
    words.iter().any(|other| is_word(other, word))
}

/// The place of a word among others, counted from 0.
#[tactic(auto, using(crate::proofs::lines::ClientLines::place_of))]
pub(crate) fn place_among(words: &[String], word: &[u8]) -> Option<usize>
    ensures { result ≡ position (bytes_eq word.now) (words_of words.now) }
{
    first_place(words, word)
}

fn first_place(words: &[String], word: &[u8]) -> Option<usize>
    ensures { result ≡ position (is_word word.now) words.now }
{
    words.iter().position(|other| is_word(other, word))
}

// Whether a word is another one.
fn is_word(other: &String, word: &[u8]) -> bool
    ensures { result ≡ is_word word.now other.now }
{
    word == other.as_bytes()
}
