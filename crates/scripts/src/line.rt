//! The lines of a script.

ghost use Rattle.std.specs.Prelude.{◌≡◌, false, ◌∷◌, [], IfOk, IfSome, IfNone, None, position, ◌==◌, ◌<◌, option_map, length, string_bytes, List, ℕ};
ghost use Rattle.scripts.specs.Lines.{words_in, Word, ScriptLine, hub_event, link_event, session_event, timers_line, zone_line, link_line, reverse_line, at_line, stop_line, of_word, of_octets, of_word_and_octets, line_of, kind_of, client_kind, line_behind, link_named};
ghost use Rattle.scripts.specs.KeptLines.{said, one_in, two_in, three_in, four_in, five_in, begins_silent};

use crate::client_readers::{
    ask_line, down_line, drop_line, emit_line, feed_line, joining_line, open_line, reconfirm_line,
    say_line, settle_line, show_line, up_line,
};
use crate::line_words::{
    Moment, Written, cap_of_word, moment_of_word, name_of_word, number_of_word, octets_of_word,
    plain_word, rcode_of_word, writable_of_word,
};
use dnsname::name::{Name, Octets};
use dsosession::session::Timers;
use dsosession::times::LEAST_KEEPALIVE;
use history::NO_CAP;
use memchr::memchr;
use push_base::NoMemory;
use rrset::record::{Question, Rr};
use std::alloc::Global;

/// A zone line: the apex, the serial, and whether the zone may be written.
#[derive(Debug, Drop)]
pub struct ZoneLine {
    /// The zone's own name.
    pub apex: Name,
    /// The SOA's serial (RFC 1035, 3.3.13).
    pub serial: u32,
    /// Whether updates may change it.
    pub writable: bool,
}

/// A link line: the link's word, the domain under which it is shown, and the greatest TTL that its records are shown
/// with.
#[derive(Debug, Drop)]
pub struct LinkLine {
    /// The link's word.
    pub word: String,
    /// The domain (RFC 8766, 5.5).
    pub domain: Name,
    /// The cap on the TTLs that it shows: a record heard with a greater one is shown with this.
    pub cap: u32,
}

/// A reverse line: the word of a link that a line before it names, and the domain under which the link maps addresses
/// back to names.
#[derive(Debug, Drop)]
pub struct ReverseLine {
    /// The link's word.
    pub word: String,
    /// The reverse domain (RFC 8766, 5.4; RFC 1035, 3.5).
    pub domain: Name,
}

/// What a line before all events says of the server.
#[derive(Debug, Drop)]
pub enum HeadLine {
    /// What the server grants to a Keepalive (RFC 8490, 7.1).
    Timers(Timers),
    /// A zone.
    Zone(ZoneLine),
    /// A link.
    Link(LinkLine),
    /// A reverse domain of a link.
    Reverse(ReverseLine),
}

/// What happens at the hub.
#[derive(Debug, Drop)]
pub enum HubEvent {
    /// It is a moment, in milliseconds since the start.
    At(Moment),
    /// An update message comes (RFC 2136, 2).
    Update(Octets),
    /// The newest point and the moment are asked for.
    Point,
}

/// What happens on a link.
#[derive(Debug, Drop)]
pub enum LinkEvent {
    /// A datagram comes (RFC 6762, 18).
    Hear(Octets),
    /// It goes away, with all that was heard on it.
    Gone,
    /// What it is asked now is told (RFC 8766, 5.6).
    Asks,
}

/// A call of a client that answers a word.
#[derive(Debug, Drop)]
pub enum Call {
    /// It asks a question (RFC 8765, 6.2).
    Ask(Question),
    /// It drops a question (RFC 8765, 6.4).
    Drop(Question),
    /// It says that a record, which has a TTL of 0, may be out of date (RFC 8765, 6.5).
    Reconfirm(Rr),
}

/// Which way octets of a client pass, and at most how many of them.
#[derive(Debug, Clone, Copy)]
pub enum Way {
    /// From the client onto the wire to its session.
    Say(usize),
    /// From that wire into the session.
    Up(usize),
    /// From the session onto the wire to the client.
    Emit(usize),
    /// From that wire to the client.
    Down(usize),
    /// Each way in turn, until nothing moves.
    Settle,
}

/// What else happens to a client.
#[derive(Debug, Drop)]
pub enum ClientEvent {
    /// It opens a connection.
    Open,
    /// Octets come to it, which is a lone one.
    Feed(Octets),
    /// It is shown what it knows of a question, and how the question's name is written.
    Show {
        question: Question,
        written: Written,
    },
}

/// What happens to the session of a peer, or to a client's.
#[derive(Debug, Drop)]
pub enum SessionEvent {
    /// The peer sends octets: messages behind their lengths, or any part of that (RFC 7766, 8).
    Send(Octets),
    /// The session is asked to stop: the RCODE that it is told, at most 15, and for how long it is to stay away, in
    /// milliseconds (RFC 8490, 6.6.1).
    Stop { rcode: u8, delay: u32 },
    /// The connection is cut.
    Cut,
}

/// What a line says that happens, and to whom, by a word.
#[derive(Debug, Drop)]
pub enum EventLine {
    /// At the hub.
    Hub(HubEvent),
    /// On the link of a word.
    Link { word: String, event: LinkEvent },
    /// A call of the client of a word.
    Call { word: String, call: Call },
    /// Octets of the client of a word pass.
    Passing { word: String, way: Way },
    /// To the client of a word.
    Client { word: String, event: ClientEvent },
    /// To the session of a word: a client's, or else a peer's.
    Session { word: String, event: SessionEvent },
}

/// A line of a script.
#[derive(Debug, Drop)]
pub enum Line {
    /// It says nothing.
    Silent,
    /// It says what the server is.
    Head(HeadLine),
    /// There is one client more; whether its connections lead to no hub.
    Joining { word: String, is_lone: bool },
    /// Something happens.
    Event(EventLine),
}

// The kinds of lines that say something; what begins with no word of the grammar is `Other`.
#[derive(Clone, Copy)]
enum Kind {
    Timers,
    Zone,
    Link,
    Reverse,
    At,
    Update,
    Point,
    Hear,
    Gone,
    Asks,
    Send,
    Stop,
    Cut,
    Client,
    Lone,
    Ask,
    Drop,
    Reconfirm,
    Say,
    Up,
    Emit,
    Down,
    Settle,
    Open,
    Feed,
    Show,
    Other,
}

/// What a line says, if it is in the grammar.
pub fn read_line(alloc: Global, line: &[u8]) -> Result<Option<Line>, NoMemory>
    ensures exact { IfOk result (λ found. option_map (λ l. said l) found ≡ line_of line.now) }
{
    match line {
        [] => Ok(Some(Line::Silent)),
        [b'#', comment @ ..] => Ok(comment_line(comment)),
        _ => speaking_line(alloc, line),
    }
}

// A line that begins with `#`, by what follows: it says nothing, and is UTF-8.
fn comment_line(comment: &[u8]) -> Option<Line>
    ensures exact { option_map (λ l. said l) result ≡ line_of (35 ∷ comment.now) }
{
    match str::from_utf8(comment) {
        Ok(_) => Some(Line::Silent),
        Err(_) => None,
    }
}

// What a line says that neither is empty nor begins with `#`.
fn speaking_line(alloc: Global, line: &[u8]) -> Result<Option<Line>, NoMemory>
    requires { begins_silent line.now ≡ false }
    ensures exact { IfOk result (λ found. option_map (λ l. said l) found ≡ line_of line.now) }
{
    match split_word(line) {
        Some((word, rest)) => longer_line(alloc, kind_of(word), rest),
        None => Ok(single_word(kind_of(line))),
    }
}

// The kind of a line by its first word.
fn kind_of(word: &[u8]) -> Kind
    ensures { result ≡ kind_of word.now }
{
    if word == b"timers".as_slice() {
        Kind::Timers
    } else if word == b"zone".as_slice() {
        Kind::Zone
    } else if word == b"link".as_slice() {
        Kind::Link
    } else if word == b"reverse".as_slice() {
        Kind::Reverse
    } else if word == b"at".as_slice() {
        Kind::At
    } else if word == b"update".as_slice() {
        Kind::Update
    } else if word == b"point".as_slice() {
        Kind::Point
    } else if word == b"hear".as_slice() {
        Kind::Hear
    } else if word == b"gone".as_slice() {
        Kind::Gone
    } else if word == b"asks".as_slice() {
        Kind::Asks
    } else if word == b"send".as_slice() {
        Kind::Send
    } else if word == b"stop".as_slice() {
        Kind::Stop
    } else if word == b"cut".as_slice() {
        Kind::Cut
    } else {
        client_kind(word)
    }
}

// The kind of a line whose first word is none on what the server serves or on its peers.
fn client_kind(word: &[u8]) -> Kind
    ensures { result ≡ client_kind word.now }
{
    if word == b"client".as_slice() {
        Kind::Client
    } else if word == b"lone".as_slice() {
        Kind::Lone
    } else if word == b"ask".as_slice() {
        Kind::Ask
    } else if word == b"drop".as_slice() {
        Kind::Drop
    } else if word == b"reconfirm".as_slice() {
        Kind::Reconfirm
    } else if word == b"say".as_slice() {
        Kind::Say
    } else if word == b"up".as_slice() {
        Kind::Up
    } else if word == b"emit".as_slice() {
        Kind::Emit
    } else if word == b"down".as_slice() {
        Kind::Down
    } else if word == b"settle".as_slice() {
        Kind::Settle
    } else if word == b"open".as_slice() {
        Kind::Open
    } else if word == b"feed".as_slice() {
        Kind::Feed
    } else if word == b"show".as_slice() {
        Kind::Show
    } else {
        Kind::Other
    }
}

// What a line of this kind says with nothing behind its first word, if that is in the grammar.
fn single_word(kind: Kind) -> Option<Line>
    ensures exact { option_map (λ l. said l) result ≡ line_behind kind [] }
{
    match kind {
        Kind::Point => Some(Line::Event(EventLine::Hub(HubEvent::Point))),
        Kind::Timers | Kind::Zone | Kind::Link | Kind::Reverse => None,
        Kind::At | Kind::Update | Kind::Hear | Kind::Gone | Kind::Asks => None,
        Kind::Send | Kind::Stop | Kind::Cut => None,
        Kind::Client | Kind::Lone | Kind::Open | Kind::Ask | Kind::Drop | Kind::Reconfirm => None,
        Kind::Say | Kind::Up | Kind::Emit | Kind::Down | Kind::Settle => None,
        Kind::Feed | Kind::Show | Kind::Other => None,
    }
}

// What a line of this kind says with that text behind its first word, if that is in the grammar.
fn longer_line(alloc: Global, kind: Kind, text: &[u8]) -> Result<Option<Line>, NoMemory>
    ensures exact { IfOk result (λ found. option_map (λ l. said l) found ≡ line_behind kind (words_in text.now)) }
{
    match kind {
        Kind::Timers => Ok(timers_line(text)),
        Kind::Zone => zone_line(alloc, text),
        Kind::Link => link_line(alloc, text),
        Kind::Reverse => reverse_line(alloc, text),
        Kind::At => Ok(at_line(text)),
        Kind::Update => update_line(alloc, text),
        Kind::Hear => hear_line(alloc, text),
        Kind::Gone => gone_line(alloc, text),
        Kind::Asks => asks_line(alloc, text),
        Kind::Send => send_line(alloc, text),
        Kind::Stop => stop_line(alloc, text),
        Kind::Cut => cut_line(alloc, text),
        Kind::Client => joining_line(alloc, false, text),
        Kind::Lone => joining_line(alloc, true, text),
        Kind::Open => open_line(alloc, text),
        Kind::Ask => ask_line(alloc, text),
        Kind::Drop => drop_line(alloc, text),
        Kind::Reconfirm => reconfirm_line(alloc, text),
        Kind::Say => say_line(alloc, text),
        Kind::Up => up_line(alloc, text),
        Kind::Emit => emit_line(alloc, text),
        Kind::Down => down_line(alloc, text),
        Kind::Settle => settle_line(alloc, text),
        Kind::Feed => feed_line(alloc, text),
        Kind::Show => show_line(alloc, text),
        Kind::Point | Kind::Other => Ok(None),
    }
}

// What follows the first word of a line of timers: the time without activity after which a session ends, and the
// interval of Keepalives, in milliseconds (RFC 8490, 6.2), which is 10 seconds or more.
fn timers_line(text: &[u8]) -> Option<Line>
    ensures exact { option_map (λ l. said l) result ≡ timers_line (words_in text.now) }
{
    let (inactivity, keepalive) = two_words(text)?;
    let inactivity = number_of_word(inactivity)?;
    let keepalive = number_of_word(keepalive)?;
    if keepalive < LEAST_KEEPALIVE {
        return None;
    }
    Some(Line::Head(HeadLine::Timers(Timers {
        inactivity,
        keepalive,
    })))
}

// What follows the first word of a zone line: the apex, the serial, and `open` or `shut`.
fn zone_line(alloc: Global, text: &[u8]) -> Result<Option<Line>, NoMemory>
    ensures exact { IfOk result (λ found. option_map (λ l. said l) found ≡ zone_line (words_in text.now)) }
{
    let Some((apex, serial, mode)) = three_words(text) else {
        return Ok(None);
    };
    let Some(apex) = name_of_word(alloc, apex)? else {
        return Ok(None);
    };
    let Some(serial) = number_of_word(serial) else {
        return Ok(None);
    };
    let Some(writable) = writable_of_word(mode) else {
        return Ok(None);
    };
    Ok(Some(Line::Head(HeadLine::Zone(ZoneLine {
        apex,
        serial,
        writable,
    }))))
}

// What follows the first word of a link line: its word, its domain, and the cap, if it has one.
fn link_line(alloc: Global, text: &[u8]) -> Result<Option<Line>, NoMemory>
    ensures exact { IfOk result (λ found. option_map (λ l. said l) found ≡ link_line (words_in text.now)) }
{
    if let Some((word, domain, cap)) = three_words(text) {
        link_named(alloc, word, domain, cap_of_word(cap))
    } else if let Some((word, domain)) = two_words(text) {
        link_named(alloc, word, domain, Some(NO_CAP))
    } else {
        Ok(None)
    }
}

// The link of that word, of that name, and with that cap.
fn link_named(
    alloc: Global,
    word: &[u8],
    domain: &[u8],
    cap: Option<u32>,
) -> Result<Option<Line>, NoMemory>
    ensures exact { IfOk result (λ found. option_map (λ l. said l) found ≡ link_named word.now domain.now cap) }
{
    let Some(word) = plain_word(alloc, word)? else {
        return Ok(None);
    };
    let Some(domain) = name_of_word(alloc, domain)? else {
        return Ok(None);
    };
    let Some(cap) = cap else {
        return Ok(None);
    };
    Ok(Some(Line::Head(HeadLine::Link(LinkLine { word, domain, cap }))))
}

// What follows the first word of a reverse line: a link's word, and the domain.
fn reverse_line(alloc: Global, text: &[u8]) -> Result<Option<Line>, NoMemory>
    ensures exact { IfOk result (λ found. option_map (λ l. said l) found ≡ reverse_line (words_in text.now)) }
{
    let Some((word, domain)) = two_words(text) else {
        return Ok(None);
    };
    let Some(word) = plain_word(alloc, word)? else {
        return Ok(None);
    };
    let Some(domain) = name_of_word(alloc, domain)? else {
        return Ok(None);
    };
    Ok(Some(Line::Head(HeadLine::Reverse(ReverseLine { word, domain }))))
}

// What follows the first word of a line with a moment: the moment, in milliseconds.
fn at_line(text: &[u8]) -> Option<Line>
    ensures exact { option_map (λ l. said l) result ≡ at_line (words_in text.now) }
{
    let moment = moment_of_word(one_word(text)?)?;
    Some(Line::Event(EventLine::Hub(HubEvent::At(moment))))
}

// What follows the first word of an update line: the octets of the message, where a space is no digit.
#[tactic(auto, using(crate::proofs::lines::OneWord::none_alone))]
fn update_line(alloc: Global, text: &[u8]) -> Result<Option<Line>, NoMemory>
    ensures exact { IfOk result (λ found. option_map (λ l. said l) found ≡ of_octets (λ o. hub_event (HubEvent.Update o)) (words_in text.now)) }
{
    match octets_of_word(alloc, text)? {
        Some(octets) => Ok(Some(Line::Event(EventLine::Hub(HubEvent::Update(octets))))),
        None => Ok(None),
    }
}

/// What follows the first word of a line that names one more word alone.
pub(crate) fn word_alone(alloc: Global, text: &[u8]) -> Result<Option<String>, NoMemory>
    ensures { IfOk result (λ found. (line : Word → ScriptLine) → option_map (λ w. line (string_bytes w)) found ≡ of_word line (words_in text.now)) }
{
    let Some(word) = one_word(text) else {
        return Ok(None);
    };
    plain_word(alloc, word)
}

/// What follows the first word of a line that names a word, and then octets.
pub(crate) fn word_and_octets(
    alloc: Global,
    text: &[u8],
) -> Result<Option<(String, Octets)>, NoMemory>
    ensures exact { IfOk result (λ found. (line : Word → List ℕ → ScriptLine) → option_map (λ s. line (string_bytes s.0) s.1) found ≡ of_word_and_octets line (words_in text.now)) }
{
    let Some((word, octets)) = two_words(text) else {
        return Ok(None);
    };
    let Some(word) = plain_word(alloc, word)? else {
        return Ok(None);
    };
    let Some(octets) = octets_of_word(alloc, octets)? else {
        return Ok(None);
    };
    Ok(Some((word, octets)))
}

// What follows the first word of a line with which a link goes away: the link's word.
fn gone_line(alloc: Global, text: &[u8]) -> Result<Option<Line>, NoMemory>
    ensures exact { IfOk result (λ found. option_map (λ l. said l) found ≡ of_word (λ w. link_event w LinkEvent.Gone) (words_in text.now)) }
{
    let Some(word) = word_alone(alloc, text)? else {
        return Ok(None);
    };
    let event = LinkEvent::Gone;
    Ok(Some(Line::Event(EventLine::Link { word, event })))
}

// What follows the first word of a line that tells what a link is asked: the link's word.
fn asks_line(alloc: Global, text: &[u8]) -> Result<Option<Line>, NoMemory>
    ensures exact { IfOk result (λ found. option_map (λ l. said l) found ≡ of_word (λ w. link_event w LinkEvent.Asks) (words_in text.now)) }
{
    let Some(word) = word_alone(alloc, text)? else {
        return Ok(None);
    };
    let event = LinkEvent::Asks;
    Ok(Some(Line::Event(EventLine::Link { word, event })))
}

// What follows the first word of a line that cuts a connection: the word of the peer or of the client.
fn cut_line(alloc: Global, text: &[u8]) -> Result<Option<Line>, NoMemory>
    ensures exact { IfOk result (λ found. option_map (λ l. said l) found ≡ of_word (λ w. session_event w SessionEvent.Cut) (words_in text.now)) }
{
    let Some(word) = word_alone(alloc, text)? else {
        return Ok(None);
    };
    let event = SessionEvent::Cut;
    Ok(Some(Line::Event(EventLine::Session { word, event })))
}

// What follows the first word of a send line: the peer's word, and the octets.
fn send_line(alloc: Global, text: &[u8]) -> Result<Option<Line>, NoMemory>
    ensures exact { IfOk result (λ found. option_map (λ l. said l) found ≡ of_word_and_octets (λ w o. session_event w (SessionEvent.Send o)) (words_in text.now)) }
{
    let Some((word, octets)) = word_and_octets(alloc, text)? else {
        return Ok(None);
    };
    let event = SessionEvent::Send(octets);
    Ok(Some(Line::Event(EventLine::Session { word, event })))
}

// What follows the first word of a line that stops a session: the word of the peer or of the client, the RCODE, and the
// delay.
fn stop_line(alloc: Global, text: &[u8]) -> Result<Option<Line>, NoMemory>
    ensures exact { IfOk result (λ found. option_map (λ l. said l) found ≡ stop_line (words_in text.now)) }
{
    let Some((word, rcode, delay)) = three_words(text) else {
        return Ok(None);
    };
    let Some(word) = plain_word(alloc, word)? else {
        return Ok(None);
    };
    let Some(rcode) = rcode_of_word(rcode) else {
        return Ok(None);
    };
    let Some(delay) = number_of_word(delay) else {
        return Ok(None);
    };
    let event = SessionEvent::Stop { rcode, delay };
    Ok(Some(Line::Event(EventLine::Session { word, event })))
}

// What follows the first word of a line with a datagram: the link's word, and the octets.
fn hear_line(alloc: Global, text: &[u8]) -> Result<Option<Line>, NoMemory>
    ensures exact { IfOk result (λ found. option_map (λ l. said l) found ≡ of_word_and_octets (λ w o. link_event w (LinkEvent.Hear o)) (words_in text.now)) }
{
    let Some((word, octets)) = word_and_octets(alloc, text)? else {
        return Ok(None);
    };
    let event = LinkEvent::Hear(octets);
    Ok(Some(Line::Event(EventLine::Link { word, event })))
}

/// The words of a text that has five.
pub(crate) fn five_words(text: &[u8]) -> Option<(&[u8], &[u8], &[u8], &[u8], &[u8])>
    ensures found { IfSome result (λ words. words_in text.now ≡ words.0.now ∷ words.1.now ∷ words.2.now ∷ words.3.now ∷ words.4.now ∷ []) }
    ensures none { IfNone result (five_in (words_in text.now) ≡ None) }
{
    let (first, rest) = split_word(text)?;
    let (second, rest) = split_word(rest)?;
    let (third, rest) = split_word(rest)?;
    let (fourth, fifth) = split_word(rest)?;
    match space_in(fifth) {
        Some(_) => None,
        None => Some((first, second, third, fourth, fifth)),
    }
}

/// The words of a text that has four.
pub(crate) fn four_words(text: &[u8]) -> Option<(&[u8], &[u8], &[u8], &[u8])>
    ensures found { IfSome result (λ words. words_in text.now ≡ words.0.now ∷ words.1.now ∷ words.2.now ∷ words.3.now ∷ []) }
    ensures none { IfNone result (four_in (words_in text.now) ≡ None) }
{
    let (first, rest) = split_word(text)?;
    let (second, rest) = split_word(rest)?;
    let (third, fourth) = split_word(rest)?;
    match space_in(fourth) {
        Some(_) => None,
        None => Some((first, second, third, fourth)),
    }
}

/// The words of a text that has three.
pub fn three_words(text: &[u8]) -> Option<(&[u8], &[u8], &[u8])>
    ensures found { IfSome result (λ words. words_in text.now ≡ words.0.now ∷ words.1.now ∷ words.2.now ∷ []) }
    ensures none { IfNone result (three_in (words_in text.now) ≡ None) }
{
    let (first, rest) = split_word(text)?;
    let (second, third) = split_word(rest)?;
    match space_in(third) {
        Some(_) => None,
        None => Some((first, second, third)),
    }
}

/// The words of a text that has two.
pub fn two_words(text: &[u8]) -> Option<(&[u8], &[u8])>
    ensures found { IfSome result (λ words. words_in text.now ≡ words.0.now ∷ words.1.now ∷ []) }
    ensures none { IfNone result (two_in (words_in text.now) ≡ None) }
{
    let (first, second) = split_word(text)?;
    match space_in(second) {
        Some(_) => None,
        None => Some((first, second)),
    }
}

/// The word of a text that has one.
pub fn one_word(text: &[u8]) -> Option<&[u8]>
    ensures found { IfSome result (λ word. words_in text.now ≡ word.now ∷ []) }
    ensures none { IfNone result (one_in (words_in text.now) ≡ None) }
{
    match space_in(text) {
        Some(_) => None,
        None => Some(text),
    }
}

/// The first word of a text, and what follows its space, where there is one.
pub fn split_word(text: &[u8]) -> Option<(&[u8], &[u8])>
    ensures found { IfSome result (λ parts. words_in text.now ≡ parts.0.now ∷ words_in parts.1.now) }
    ensures none { IfNone result (words_in text.now ≡ text.now ∷ []) }
{
    match space_in(text) {
        Some(end) => Some((&text[..end], &text[end + 1..])),
        None => None,
    }
}

// The place of the first space.
#[tactic(auto, using(crate::proofs::lines::Octets::first_place, crate::proofs::lines::Octets::within))]
fn space_in(text: &[u8]) -> Option<usize>
    ensures place { result ≡ position (λ octet. octet == 32) text.now }
    ensures within { IfSome result (λ end. end < length text.now) }
{
    memchr(b' ', text)
}
