//! The lines that show what a client knows of a question.

ghost use Rattle.std.specs.Prelude.{◌≡◌, ◌<◌, ◌++◌, ◌∷◌, [], Some, None, codes, cond, decimal, length, option_map, position, IfOk, string_bytes};
ghost use Rattle.inflight.specs.Ends.{told_end};
ghost use Rattle.replay.specs.TextWords.{by_notices, with_records};
ghost use Rattle.scripts.specs.Words.{spaced};
ghost use Rattle.replay.specs.Text.{shows};
ghost use Rattle.replay.specs.KeptWorlds.{Does, seat_kept, seated};
ghost use Rattle.replay.specs.KeptSeats.{has_word};
ghost use Rattle.replay.specs.KeptTwoWorlds.{HoldsSet, IsShownHeld};
ghost use Rattle.replay.specs.KeptShows.{IsFilling, ShowsSeat, ShowsSet, record_lines, showing_of, showing_text};

use crate::seats::Seat;
use crate::world::World;
use push_base::NoMemory;
use pushclient::client::Held;
use rrset::Table;
use rrset::record::{Key, Question, Shown};
use scripts::octets_text;
use std::alloc::Global;

/// What the client of a number, which has that word, knows of a question, whose name is written so, and where it holds a
/// set its records, each in a line.
pub(crate) fn show_lines(
    alloc: Global,
    world: &World,
    client: usize,
    word: &str,
    question: &Question,
    written: &str,
) -> Result<String, NoMemory>
    requires at { position (has_word word.now) (seated world.now.seats.items) ≡ Some client }
    requires within { client < length world.now.seats.items }
    ensures { IfOk result (λ text. Does (shows by_notices word.now question.now written.now) (λ plain. []) world.now (string_bytes text) world.now) }
{
    seat_lines(alloc, &world.seats[client], word, question, written)
}

/// The set that the client of a number holds of a question, where it is shown as held: it is no lone one, and the first
/// answer has arrived whole.
pub(crate) fn held_set<'a>(
    world: &'a World,
    client: usize,
    question: &Question,
) -> Option<&'a Table>
    requires { client < length world.now.seats.items }
    ensures { HoldsSet world.now client question.now (option_map (λ t. t.now.rows) result) }
{
    let seat = &world.seats[client];
    match seat.client.mirror(question) {
        Held::Answered(set) => set_where(is_held(seat, question), set),
        Held::Off => None,
        Held::Asked => None,
        Held::Refused(_) => None,
    }
}

// A set, where a test holds.
fn set_where(test: bool, set: &Table) -> Option<&Table>
    ensures { option_map (λ t. t.now) result ≡ cond test (Some set.now) None }
{
    if test { Some(set) } else { None }
}

// Whether a client is no lone one, and the first answer to a question has arrived whole.
fn is_held(seat: &Seat, question: &Question) -> bool
    ensures { IsShownHeld (seat_kept seat.now) question.now result }
{
    if seat.is_lone {
        return false;
    }
    !is_filling(seat, question)
}

// What a client knows of a question.
fn seat_lines(
    alloc: Global,
    seat: &Seat,
    word: &str,
    question: &Question,
    written: &str,
) -> Result<String, NoMemory>
    ensures { IfOk result (λ text. ShowsSeat (seat_kept seat.now) (showing_of word.now question.now written.now) (string_bytes text)) }
{
    match seat.client.mirror(question) {
        Held::Off => state_lines(alloc, word, question, written, "off"),
        Held::Asked => state_lines(alloc, word, question, written, "asked"),
        Held::Refused(rcode) => refused_lines(alloc, word, question, written, rcode),
        Held::Answered(set) => held_lines(alloc, seat, word, question, written, set),
    }
}

// What is told of a set: all of it by a lone client, and by one of the hub once the first answer has arrived whole.
fn held_lines(
    alloc: Global,
    seat: &Seat,
    word: &str,
    question: &Question,
    written: &str,
    set: &Table,
) -> Result<String, NoMemory>
    ensures { IfOk result (λ text. ShowsSet (seat_kept seat.now) (showing_of word.now question.now written.now) set.now.rows (string_bytes text)) }
{
    if seat.is_lone {
        return set_lines(alloc, word, question, written, "answered", set);
    }
    if is_filling(seat, question) {
        return state_lines(alloc, word, question, written, "filling");
    }
    set_lines(alloc, word, question, written, "held", set)
}

// Whether the first answer to a question hasn't arrived whole.
fn is_filling(seat: &Seat, question: &Question) -> bool
    ensures { IsFilling (seat_kept seat.now) question.now result }
{
    match seat.client.id_of(question) {
        None => true,
        Some(id) => match told_end(&seat.filled, id) {
            None => true,
            Some(end) => seat.reached < end,
        },
    }
}

// Where the first answer with an ID was told to end.
fn told_end(filled: &[(u16, u64)], id: u16) -> Option<u64>
    ensures { result ≡ told_end filled.now id }
{
    'ends: for told in filled {
        if told.0 == id {
            return Some(told.1);
        }
    }
    None
}

// The line of a question that was refused.
fn refused_lines(
    alloc: Global,
    word: &str,
    question: &Question,
    written: &str,
    rcode: u8,
) -> Result<String, NoMemory>
    ensures { IfOk result (λ text. string_bytes text ≡ showing_text (showing_of word.now question.now written.now) (spaced (codes "refused" ∷ decimal rcode ∷ []), [])) }
{
    let words = refused_text(alloc, rcode)?;
    state_lines(alloc, word, question, written, words.as_str())
}

fn refused_text(alloc: Global, rcode: u8) -> Result<String, NoMemory>
    ensures { IfOk result (λ text. string_bytes text ≡ codes "refused " ++ decimal rcode) }
{
    format!(in alloc; "refused {rcode}")
}

// The line of a state that has no records.
fn state_lines(
    alloc: Global,
    word: &str,
    question: &Question,
    written: &str,
    state: &str,
) -> Result<String, NoMemory>
    ensures { IfOk result (λ text. string_bytes text ≡ showing_text (showing_of word.now question.now written.now) (state.now, [])) }
{
    state_text(alloc, word, written, question.kind, question.class, state)
}

fn state_text(
    alloc: Global,
    word: &str,
    written: &str,
    kind: u16,
    class: u16,
    state: &str,
) -> Result<String, NoMemory>
    ensures { IfOk result (λ text. string_bytes text ≡ codes "show " ++ (word.now ++ 32 ∷ (written.now ++ 32 ∷ (decimal kind ++ 32 ∷ (decimal class ++ 32 ∷ (state.now ++ 10 ∷ [])))))) }
{
    format!(in alloc; "show {word} {written} {kind} {class} {state}\n")
}

// The line of a state with its records, and a line for each of them.
fn set_lines(
    alloc: Global,
    word: &str,
    question: &Question,
    written: &str,
    state: &str,
    set: &Table,
) -> Result<String, NoMemory>
    ensures { IfOk result (λ text. string_bytes text ≡ showing_text (showing_of word.now question.now written.now) (with_records state.now set.now.rows)) }
{
    let counted = count_text(alloc, state, set.len())?;
    let text = state_lines(alloc, word, question, written, counted.as_str())?;
    with_record_lines(alloc, text, set.entries())
}

fn count_text(alloc: Global, state: &str, count: usize) -> Result<String, NoMemory>
    ensures { IfOk result (λ text. string_bytes text ≡ state.now ++ 32 ∷ decimal count) }
{
    format!(in alloc; "{state} {count}")
}

// A text, and a line for each record behind it.
fn with_record_lines(
    alloc: Global,
    mut text: String,
    records: &[(Key, Shown)],
) -> Result<String, NoMemory>
    ensures { IfOk result (λ told. string_bytes told ≡ string_bytes text ++ record_lines records.now) }
{
    'records: for entry in records {
        let line = record_text(alloc, entry)?;
        text.push_str(line.as_str())?;
    }
    Ok(text)
}

// The line of a record.
fn record_text(alloc: Global, entry: &(Key, Shown)) -> Result<String, NoMemory>
    ensures { IfOk result (λ text. string_bytes text ≡ record_lines (entry.now ∷ [])) }
{
    let (key, shown) = entry;
    let owner = shown.owner.text()?;
    let rdata = octets_text(alloc, shown.rdata.as_slice())?;
    let owner = owner.as_str();
    rr_text(alloc, owner, shown.ttl, key.class, key.kind, rdata.as_str())
}

fn rr_text(
    alloc: Global,
    owner: &str,
    ttl: u32,
    class: u16,
    kind: u16,
    rdata: &str,
) -> Result<String, NoMemory>
    ensures { IfOk result (λ text. string_bytes text ≡ codes "rr " ++ (owner.now ++ 32 ∷ (decimal ttl ++ 32 ∷ (decimal class ++ 32 ∷ (decimal kind ++ 32 ∷ (rdata.now ++ 10 ∷ [])))))) }
{
    format!(in alloc; "rr {owner} {ttl} {class} {kind} {rdata}\n")
}
