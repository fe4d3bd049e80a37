//! The lines that events print, and the words in them.

ghost use Rattle.std.specs.Prelude.{◌≡◌, ◌++◌, ◌∷◌, [], codes, decimal, IfOk, string_bytes};
ghost use Rattle.scripts.specs.Words.{octets_text, ended_lines};
ghost use Rattle.replay.specs.TextWords.{end_words, why_words};
ghost use Rattle.replay.specs.Text.{asked_words, call_word, end_lines, heard_words, yes_or_no};
ghost use Rattle.replay.specs.KeptSeats.{closing_text};
ghost use Rattle.replay.specs.KeptPassings.{way_text};

use dsosession::session::{CloseReason, EndReason};
use push_base::NoMemory;
use pushclient::client::Asked;
use pushserver::given::{Heard, Why};
use scripts::line::{Call, Way};
use scripts::{close_words, octets_text};
use std::alloc::Global;

/// The line of an update, with its RCODE. That of one that was made is no more than copied.
pub(crate) fn update_text(alloc: Global, code: u8) -> Result<String, NoMemory>
    ensures { IfOk result (λ text. string_bytes text ≡ codes "update " ++ (decimal code ++ 10 ∷ [])) }
{
    match code {
        0 => String::from_str(alloc, "update 0\n"),
        _ => refused_text(alloc, code),
    }
}

// The line of an update that was refused, with its RCODE.
fn refused_text(alloc: Global, code: u8) -> Result<String, NoMemory>
    ensures { IfOk result (λ text. string_bytes text ≡ codes "update " ++ (decimal code ++ 10 ∷ [])) }
{
    format!(in alloc; "update {code}\n")
}

/// The line of a carry, with what became of it.
pub(crate) fn carry_text(
    alloc: Global,
    word: &str,
    written: &str,
    what: &str,
) -> Result<String, NoMemory>
    ensures { IfOk result (λ text. string_bytes text ≡ codes "carry " ++ (word.now ++ 32 ∷ (written.now ++ 32 ∷ (what.now ++ 10 ∷ [])))) }
{
    format!(in alloc; "carry {word} {written} {what}\n")
}

/// The line of a carry whose set has a record of a kind that can't be carried.
pub(crate) fn unfit_text(
    alloc: Global,
    word: &str,
    written: &str,
    kind: u16,
) -> Result<String, NoMemory>
    ensures { IfOk result (λ text. string_bytes text ≡ codes "carry " ++ (word.now ++ 32 ∷ (written.now ++ (codes " unfit " ++ (decimal kind ++ 10 ∷ []))))) }
{
    format!(in alloc; "carry {word} {written} unfit {kind}\n")
}

/// The line of a carry that was an update of the second hub, with its RCODE.
pub(crate) fn carried_text(
    alloc: Global,
    word: &str,
    written: &str,
    code: u8,
) -> Result<String, NoMemory>
    ensures { IfOk result (λ text. string_bytes text ≡ codes "carry " ++ (word.now ++ 32 ∷ (written.now ++ 32 ∷ (decimal code ++ 10 ∷ [])))) }
{
    format!(in alloc; "carry {word} {written} {code}\n")
}

/// The line of a point, with the newest one and the moment.
pub(crate) fn point_text(alloc: Global, point: u64, moment: u64) -> Result<String, NoMemory>
    ensures { IfOk result (λ text. string_bytes text ≡ codes "point " ++ (decimal point ++ 32 ∷ (decimal moment ++ 10 ∷ []))) }
{
    format!(in alloc; "point {point} {moment}\n")
}

/// The line of a datagram of a link, with what became of it.
pub(crate) fn heard_text(alloc: Global, heard: Heard) -> Result<String, NoMemory>
    ensures { IfOk result (λ text. string_bytes text ≡ heard_words heard ++ 10 ∷ []) }
{
    match heard {
        Heard::Entered => format!(in alloc; "heard\n"),
        Heard::Ignored(why) => {
            let words = why_words(alloc, why)?;
            ignored_text(alloc, words.as_str())
        }
    }
}

/// The line of a link that goes away, with whether its records went.
pub(crate) fn gone_text(alloc: Global, word: &str, is_gone: bool) -> Result<String, NoMemory>
    ensures { IfOk result (λ text. string_bytes text ≡ codes "gone " ++ (word.now ++ 32 ∷ (yes_or_no is_gone ++ 10 ∷ []))) }
{
    if is_gone {
        format!(in alloc; "gone {word} yes\n")
    } else {
        format!(in alloc; "gone {word} no\n")
    }
}

/// The line of what a link is asked, with the number of its datagrams.
pub(crate) fn asks_text(alloc: Global, word: &str, count: usize) -> Result<String, NoMemory>
    ensures { IfOk result (λ text. string_bytes text ≡ codes "asks " ++ (word.now ++ 32 ∷ (decimal count ++ 10 ∷ []))) }
{
    format!(in alloc; "asks {word} {count}\n")
}

/// The line of a datagram that a link is sent.
pub(crate) fn out_line(alloc: Global, datagram: &[u8]) -> Result<String, NoMemory>
    ensures { IfOk result (λ text. string_bytes text ≡ codes "out " ++ (octets_text datagram.now ++ 10 ∷ [])) }
{
    let digits = octets_text(alloc, datagram)?;
    out_text(alloc, digits.as_str())
}

fn out_text(alloc: Global, digits: &str) -> Result<String, NoMemory>
    ensures { IfOk result (λ text. string_bytes text ≡ codes "out " ++ (digits.now ++ 10 ∷ [])) }
{
    format!(in alloc; "out {digits}\n")
}

fn ignored_text(alloc: Global, words: &str) -> Result<String, NoMemory>
    ensures { IfOk result (λ text. string_bytes text ≡ codes "ignored " ++ (words.now ++ 10 ∷ [])) }
{
    format!(in alloc; "ignored {words}\n")
}

// The words of why a datagram was not entered.
fn why_words(alloc: Global, why: Why) -> Result<String, NoMemory>
    ensures { IfOk result (λ text. string_bytes text ≡ why_words why) }
{
    match why {
        Why::Long => format!(in alloc; "long"),
        Why::Short => format!(in alloc; "short"),
        Why::Query => format!(in alloc; "query"),
        Why::Coded => format!(in alloc; "coded"),
        Why::Unreadable(place) => format!(in alloc; "unreadable {place}"),
        Why::Nothing => format!(in alloc; "nothing"),
        Why::Last => format!(in alloc; "last"),
    }
}

/// The line of a stop.
pub(crate) fn stop_text(alloc: Global, word: &str) -> Result<String, NoMemory>
    ensures { IfOk result (λ text. string_bytes text ≡ codes "stop " ++ (word.now ++ 10 ∷ [])) }
{
    format!(in alloc; "stop {word}\n")
}

/// The line of a cut.
pub(crate) fn cut_text(alloc: Global, word: &str) -> Result<String, NoMemory>
    ensures { IfOk result (λ text. string_bytes text ≡ codes "cut " ++ (word.now ++ 10 ∷ [])) }
{
    format!(in alloc; "cut {word}\n")
}

/// The line of the octets that come back.
pub(crate) fn bytes_line(alloc: Global, word: &str, octets: &[u8]) -> Result<String, NoMemory>
    ensures { IfOk result (λ text. string_bytes text ≡ codes "bytes " ++ (word.now ++ 32 ∷ (octets_text octets.now ++ 10 ∷ []))) }
{
    let digits = octets_text(alloc, octets)?;
    bytes_text(alloc, word, digits.as_str())
}

fn bytes_text(alloc: Global, word: &str, digits: &str) -> Result<String, NoMemory>
    ensures { IfOk result (λ text. string_bytes text ≡ codes "bytes " ++ (word.now ++ 32 ∷ (digits.now ++ 10 ∷ []))) }
{
    format!(in alloc; "bytes {word} {digits}\n")
}

/// The line of a client that has opened a connection.
pub(crate) fn open_text(alloc: Global, word: &str) -> Result<String, NoMemory>
    ensures { IfOk result (λ text. string_bytes text ≡ codes "open " ++ (word.now ++ 10 ∷ [])) }
{
    format!(in alloc; "open {word}\n")
}

/// The line of a client that has a connection already.
pub(crate) fn already_text(alloc: Global, word: &str) -> Result<String, NoMemory>
    ensures { IfOk result (λ text. string_bytes text ≡ codes "already " ++ (word.now ++ 10 ∷ [])) }
{
    format!(in alloc; "already {word}\n")
}

/// The line of a client, or a peer, for which the hub has no seat.
pub(crate) fn noseat_text(alloc: Global, word: &str) -> Result<String, NoMemory>
    ensures { IfOk result (λ text. string_bytes text ≡ codes "noseat " ++ (word.now ++ 10 ∷ [])) }
{
    format!(in alloc; "noseat {word}\n")
}

/// The line of a client's call, with what the client answered.
pub(crate) fn call_text(
    alloc: Global,
    call: &Call,
    word: &str,
    answer: &str,
) -> Result<String, NoMemory>
    ensures { IfOk result (λ text. string_bytes text ≡ (call_word call.now ++ 32 ∷ []) ++ (word.now ++ 32 ∷ (answer.now ++ 10 ∷ []))) }
{
    match call {
        Call::Ask(_) => format!(in alloc; "asked {word} {answer}\n"),
        Call::Drop(_) => format!(in alloc; "dropped {word} {answer}\n"),
        Call::Reconfirm(_) => format!(in alloc; "reconfirm {word} {answer}\n"),
    }
}

/// What became of a wish.
pub(crate) fn asked_words(alloc: Global, asked: Asked) -> Result<String, NoMemory>
    ensures { IfOk result (λ text. string_bytes text ≡ asked_words asked) }
{
    match asked {
        Asked::New => format!(in alloc; "new"),
        Asked::Already => format!(in alloc; "already"),
        Asked::Many => format!(in alloc; "many"),
    }
}

/// Yes or no.
pub(crate) fn yes_or_no(alloc: Global, is_so: bool) -> Result<String, NoMemory>
    ensures { IfOk result (λ text. string_bytes text ≡ yes_or_no is_so) }
{
    if is_so {
        format!(in alloc; "yes")
    } else {
        format!(in alloc; "no")
    }
}

/// The line of octets that passed one way, with their number, or of a settle.
pub(crate) fn way_text(
    alloc: Global,
    word: &str,
    way: Way,
    count: usize,
) -> Result<String, NoMemory>
    ensures { IfOk result (λ text. string_bytes text ≡ way_text way word.now count) }
{
    match way {
        Way::Say(_) => format!(in alloc; "say {word} {count}\n"),
        Way::Up(_) => format!(in alloc; "up {word} {count}\n"),
        Way::Emit(_) => format!(in alloc; "emit {word} {count}\n"),
        Way::Down(_) => format!(in alloc; "down {word} {count}\n"),
        Way::Settle => format!(in alloc; "settle {word}\n"),
    }
}

/// The line of the end of a session, if it was told.
pub(crate) fn end_line(
    alloc: Global,
    word: &str,
    over: Option<EndReason>,
) -> Result<String, NoMemory>
    ensures { IfOk result (λ text. string_bytes text ≡ ended_lines (end_lines word.now over)) }
{
    match over {
        None => Ok(String::new(alloc)),
        Some(reason) => {
            let words = end_words(alloc, reason)?;
            end_text(alloc, word, words.as_str())
        }
    }
}

/// The line of the end of a session.
pub(crate) fn end_text(alloc: Global, word: &str, words: &str) -> Result<String, NoMemory>
    ensures { IfOk result (λ text. string_bytes text ≡ codes "end " ++ (word.now ++ 32 ∷ (words.now ++ 10 ∷ []))) }
{
    format!(in alloc; "end {word} {words}\n")
}

/// The words of the reason of an end.
pub(crate) fn end_words(alloc: Global, reason: EndReason) -> Result<String, NoMemory>
    ensures { IfOk result (λ text. string_bytes text ≡ end_words reason) }
{
    match reason {
        EndReason::Short => format!(in alloc; "short"),
        EndReason::Answer => format!(in alloc; "answer"),
        EndReason::Counts => format!(in alloc; "counts"),
        EndReason::Tlvs => format!(in alloc; "tlvs"),
        EndReason::Early => format!(in alloc; "early"),
        EndReason::Misuse(kind) => format!(in alloc; "misuse {kind}"),
        EndReason::BadData(kind) => format!(in alloc; "data {kind}"),
        EndReason::Unknown(kind) => format!(in alloc; "type {kind}"),
        EndReason::IdInUse(id) => format!(in alloc; "id {id}"),
        EndReason::Twice(id) => format!(in alloc; "twice {id}"),
        EndReason::Silent => format!(in alloc; "silent"),
        EndReason::Idle => format!(in alloc; "idle"),
        EndReason::Stopped => format!(in alloc; "stopped"),
        EndReason::Behind(point) => format!(in alloc; "behind {point}"),
        EndReason::Gone => format!(in alloc; "gone"),
    }
}

/// The line of a client that has closed its connection, if it has.
pub(crate) fn closing_line(
    alloc: Global,
    word: &str,
    closing: Option<CloseReason>,
) -> Result<String, NoMemory>
    ensures { IfOk result (λ text. string_bytes text ≡ closing_text word.now closing) }
{
    match closing {
        None => Ok(String::new(alloc)),
        Some(reason) => {
            let words = close_words(alloc, reason)?;
            closed_text(alloc, word, words.as_str())
        }
    }
}

fn closed_text(alloc: Global, word: &str, words: &str) -> Result<String, NoMemory>
    ensures { IfOk result (λ text. string_bytes text ≡ codes "closed " ++ (word.now ++ 32 ∷ (words.now ++ 10 ∷ []))) }
{
    format!(in alloc; "closed {word} {words}\n")
}
