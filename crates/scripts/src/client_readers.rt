//! What the lines of clients say, by what follows their first word.

ghost use Rattle.std.specs.Prelude.{◌≡◌, IfOk, option_map, string_bytes, ℕ};
ghost use Rattle.scripts.specs.Lines.{words_in, Word, ScriptLine, joining, client_call, client_passing, client_event, reconfirm_line, show_line, of_word, of_word_and_octets, of_word_and_question, of_word_and_number, question};
ghost use Rattle.scripts.specs.KeptLines.{said};

use crate::line::{
    Call, ClientEvent, EventLine, Line, Way, five_words, four_words, two_words, word_alone,
    word_and_octets,
};
use crate::line_words::{
    count_of_word, name_of_word, octets_of_word, plain_word, short_number_of_word, text_of_word,
};
use dnsname::name::Octets;
use push_base::NoMemory;
use rrset::record::{Question, Rr};
use std::alloc::Global;

/// What follows the first word of a line of a client, of the hub or a lone one: its word.
pub(crate) fn joining_line(
    alloc: Global,
    is_lone: bool,
    text: &[u8],
) -> Result<Option<Line>, NoMemory>
    ensures exact { IfOk result (λ found. option_map (λ l. said l) found ≡ of_word (λ w. joining w is_lone) (words_in text.now)) }
{
    let Some(word) = word_alone(alloc, text)? else {
        return Ok(None);
    };
    Ok(Some(Line::Joining { word, is_lone }))
}

/// What follows the first word of a line that opens a connection: the client's word.
pub(crate) fn open_line(alloc: Global, text: &[u8]) -> Result<Option<Line>, NoMemory>
    ensures exact { IfOk result (λ found. option_map (λ l. said l) found ≡ of_word (λ w. client_event w ClientEvent.Open) (words_in text.now)) }
{
    let Some(word) = word_alone(alloc, text)? else {
        return Ok(None);
    };
    let event = ClientEvent::Open;
    Ok(Some(Line::Event(EventLine::Client { word, event })))
}

/// What follows the first word of a line that lets octets go from a client onto the wire: the client's word, and how
/// many.
pub(crate) fn say_line(alloc: Global, text: &[u8]) -> Result<Option<Line>, NoMemory>
    ensures exact { IfOk result (λ found. option_map (λ l. said l) found ≡ of_word_and_number (λ w n. client_passing w (Way.Say n)) (words_in text.now)) }
{
    let Some((word, most)) = word_and_number(alloc, text)? else {
        return Ok(None);
    };
    let way = Way::Say(most);
    Ok(Some(Line::Event(EventLine::Passing { word, way })))
}

/// What follows the first word of a line that lets octets go from the wire into a session: the client's word, and how
/// many.
pub(crate) fn up_line(alloc: Global, text: &[u8]) -> Result<Option<Line>, NoMemory>
    ensures exact { IfOk result (λ found. option_map (λ l. said l) found ≡ of_word_and_number (λ w n. client_passing w (Way.Up n)) (words_in text.now)) }
{
    let Some((word, most)) = word_and_number(alloc, text)? else {
        return Ok(None);
    };
    let way = Way::Up(most);
    Ok(Some(Line::Event(EventLine::Passing { word, way })))
}

/// What follows the first word of a line that lets octets go from a session onto the wire: the client's word, and how
/// many.
pub(crate) fn emit_line(alloc: Global, text: &[u8]) -> Result<Option<Line>, NoMemory>
    ensures exact { IfOk result (λ found. option_map (λ l. said l) found ≡ of_word_and_number (λ w n. client_passing w (Way.Emit n)) (words_in text.now)) }
{
    let Some((word, most)) = word_and_number(alloc, text)? else {
        return Ok(None);
    };
    let way = Way::Emit(most);
    Ok(Some(Line::Event(EventLine::Passing { word, way })))
}

/// What follows the first word of a line that lets octets go from the wire to a client: the client's word, and how
/// many.
pub(crate) fn down_line(alloc: Global, text: &[u8]) -> Result<Option<Line>, NoMemory>
    ensures exact { IfOk result (λ found. option_map (λ l. said l) found ≡ of_word_and_number (λ w n. client_passing w (Way.Down n)) (words_in text.now)) }
{
    let Some((word, most)) = word_and_number(alloc, text)? else {
        return Ok(None);
    };
    let way = Way::Down(most);
    Ok(Some(Line::Event(EventLine::Passing { word, way })))
}

/// What follows the first word of a line that settles: the client's word.
pub(crate) fn settle_line(alloc: Global, text: &[u8]) -> Result<Option<Line>, NoMemory>
    ensures exact { IfOk result (λ found. option_map (λ l. said l) found ≡ of_word (λ w. client_passing w Way.Settle) (words_in text.now)) }
{
    let Some(word) = word_alone(alloc, text)? else {
        return Ok(None);
    };
    let way = Way::Settle;
    Ok(Some(Line::Event(EventLine::Passing { word, way })))
}

/// What follows the first word of a line that asks: the client's word, and the question.
pub(crate) fn ask_line(alloc: Global, text: &[u8]) -> Result<Option<Line>, NoMemory>
    ensures exact { IfOk result (λ found. option_map (λ l. said l) found ≡ of_word_and_question (λ w q. client_call w (Call.Ask q)) (words_in text.now)) }
{
    let Some((word, question)) = word_and_question(alloc, text)? else {
        return Ok(None);
    };
    let call = Call::Ask(question);
    Ok(Some(Line::Event(EventLine::Call { word, call })))
}

/// What follows the first word of a line that drops a question: the client's word, and the question.
pub(crate) fn drop_line(alloc: Global, text: &[u8]) -> Result<Option<Line>, NoMemory>
    ensures exact { IfOk result (λ found. option_map (λ l. said l) found ≡ of_word_and_question (λ w q. client_call w (Call.Drop q)) (words_in text.now)) }
{
    let Some((word, question)) = word_and_question(alloc, text)? else {
        return Ok(None);
    };
    let call = Call::Drop(question);
    Ok(Some(Line::Event(EventLine::Call { word, call })))
}

/// What follows the first word of a feed line: the client's word, and the octets.
pub(crate) fn feed_line(alloc: Global, text: &[u8]) -> Result<Option<Line>, NoMemory>
    ensures exact { IfOk result (λ found. option_map (λ l. said l) found ≡ of_word_and_octets (λ w o. client_event w (ClientEvent.Feed o)) (words_in text.now)) }
{
    let Some((word, octets)) = word_and_octets(alloc, text)? else {
        return Ok(None);
    };
    let event = ClientEvent::Feed(octets);
    Ok(Some(Line::Event(EventLine::Client { word, event })))
}

/// What follows the first word of a line that doubts a record: the client's word, the record's name, TYPE and CLASS,
/// and its RDATA.
pub(crate) fn reconfirm_line(alloc: Global, text: &[u8]) -> Result<Option<Line>, NoMemory>
    ensures exact { IfOk result (λ found. option_map (λ l. said l) found ≡ reconfirm_line (words_in text.now)) }
{
    let Some((word, name, kind, class, rdata)) = five_words(text) else {
        return Ok(None);
    };
    let Some(word) = plain_word(alloc, word)? else {
        return Ok(None);
    };
    let Some(question) = question_of(alloc, name, kind, class)? else {
        return Ok(None);
    };
    let Some(rdata) = octets_of_word(alloc, rdata)? else {
        return Ok(None);
    };
    let call = Call::Reconfirm(record_of(question, rdata));
    Ok(Some(Line::Event(EventLine::Call { word, call })))
}

// The record that a question names, with that RDATA and a TTL of 0.
fn record_of(question: Question, rdata: Octets) -> Rr
    ensures { result ≡ record { owner = question.name; class = question.class; kind = question.kind; ttl = 0; rdata = rdata } }
{
    let Question { name, kind, class } = question;
    Rr {
        owner: name,
        class,
        kind,
        ttl: 0,
        rdata,
    }
}

/// What follows the first word of a line that shows what a client knows: the client's word, and the question.
pub(crate) fn show_line(alloc: Global, text: &[u8]) -> Result<Option<Line>, NoMemory>
    ensures exact { IfOk result (λ found. option_map (λ l. said l) found ≡ show_line (words_in text.now)) }
{
    let Some((word, name, kind, class)) = four_words(text) else {
        return Ok(None);
    };
    let Some(word) = plain_word(alloc, word)? else {
        return Ok(None);
    };
    let Some(question) = question_of(alloc, name, kind, class)? else {
        return Ok(None);
    };
    let Some(written) = text_of_word(alloc, name)? else {
        return Ok(None);
    };
    let event = ClientEvent::Show { question, written };
    Ok(Some(Line::Event(EventLine::Client { word, event })))
}

// What follows the first word of a line that names a word, and then a number of octets.
fn word_and_number(alloc: Global, text: &[u8]) -> Result<Option<(String, usize)>, NoMemory>
    ensures exact { IfOk result (λ found. (line : Word → ℕ → ScriptLine) → option_map (λ p. line (string_bytes p.0) p.1) found ≡ of_word_and_number line (words_in text.now)) }
{
    let Some((word, most)) = two_words(text) else {
        return Ok(None);
    };
    let Some(word) = plain_word(alloc, word)? else {
        return Ok(None);
    };
    let Some(most) = count_of_word(most) else {
        return Ok(None);
    };
    Ok(Some((word, most)))
}

// What follows the first word of a line that names a word, and then a question.
fn word_and_question(alloc: Global, text: &[u8]) -> Result<Option<(String, Question)>, NoMemory>
    ensures exact { IfOk result (λ found. (line : Word → Question → ScriptLine) → option_map (λ a. line (string_bytes a.0) a.1) found ≡ of_word_and_question line (words_in text.now)) }
{
    let Some((word, name, kind, class)) = four_words(text) else {
        return Ok(None);
    };
    let Some(word) = plain_word(alloc, word)? else {
        return Ok(None);
    };
    let Some(question) = question_of(alloc, name, kind, class)? else {
        return Ok(None);
    };
    Ok(Some((word, question)))
}

/// The question that three words are: its name, its TYPE and its CLASS.
pub fn question_of(
    alloc: Global,
    name: &[u8],
    kind: &[u8],
    class: &[u8],
) -> Result<Option<Question>, NoMemory>
    ensures { IfOk result (λ found. found ≡ question name.now kind.now class.now) }
{
    let Some(name) = name_of_word(alloc, name)? else {
        return Ok(None);
    };
    let Some(kind) = short_number_of_word(kind) else {
        return Ok(None);
    };
    let Some(class) = short_number_of_word(class) else {
        return Ok(None);
    };
    Ok(Some(Question { name, kind, class }))
}
