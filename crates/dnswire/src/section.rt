//! Sections of messages: so many entries, one behind the other (RFC 1035, 4.1).

ghost use Rattle.std.specs.Prelude.{◌≡◌, ◌+◌, ◌-◌, ◌/◌, ◌≤◌, ◌<◌, length, min};
ghost use Rattle.rrset.specs.Header.{two_octets};
ghost use Rattle.dnswire.specs.Reading.{question_at, record_at, sections_of, several};
ghost use Rattle.dnswire.specs.Gives.{GivesWire, shape_test};

use crate::header::{ANCOUNT, ARCOUNT, NSCOUNT, QDCOUNT, header_field};
use crate::message::WireFault;
use crate::record::{Shaped, read_question, read_record};
use rrset::header::HEADER;
use rrset::{Questions, Rrs};
use std::alloc::Global;

/// The sections of a message, and the place after the last. Of an update they are zones, prerequisites, changes, and
/// additional records (RFC 2136, 2).
#[derive(Drop)]
pub struct Sections {
    /// The question section (RFC 1035, 4.1.2).
    pub questions: Questions,
    /// The answer section.
    pub answers: Rrs,
    /// The authority section.
    pub authority: Rrs,
    /// The additional section.
    pub additional: Rrs,
    /// The place after the last entry.
    pub end: usize,
}

/// The octets of the shortest question: the root, a TYPE and a CLASS (RFC 1035, 4.1.2).
const SHORTEST_QUESTION: usize = 5;

/// The octets of the shortest record: the root, a TYPE, a CLASS, a TTL and a length of 0 (RFC 1035, 4.1.3).
const SHORTEST_RECORD: usize = 11;

/// For how many entries there is to be room: for all that are counted, but for no more than the octets from a place on
/// can hold, so that no count takes more memory than the message's own size explains.
fn room_for(count: u16, shortest: usize, message: &[u8], at: usize) -> usize
    requires { 0 < shortest }
    ensures { result ≡ min count ((length message.now - at) / shortest) }
{
    usize::from(count).min(message.len().saturating_sub(at) / shortest)
}

/// So many questions from a place on, and the place after them.
fn read_questions(
    alloc: Global,
    count: u16,
    message: &[u8],
    at: usize,
) -> Result<(Questions, usize), WireFault>
    ensures { GivesWire result (several question_at count message.now at) }
{
    let mut questions = Questions::with_room(
        alloc,
        room_for(count, SHORTEST_QUESTION, message, at),
    )?;
    let mut place = at;
    'questions: for _done in 0..count {
        let (question, after) = read_question(alloc, message, place)?;
        questions.push(question)?;
        place = after;
    }
    Ok((questions, place))
}

/// So many records from a place on, and the place after them.
fn read_records(
    alloc: Global,
    shaped: Shaped,
    count: u16,
    message: &[u8],
    at: usize,
) -> Result<(Rrs, usize), WireFault>
    ensures { GivesWire result (several (record_at (shape_test shaped)) count message.now at) }
{
    let mut rrs = Rrs::with_room(alloc, room_for(count, SHORTEST_RECORD, message, at))?;
    let mut place = at;
    'records: for _done in 0..count {
        let (rr, after) = read_record(alloc, shaped, message, place)?;
        rrs.push(rr)?;
        place = after;
    }
    Ok((rrs, place))
}

/// The questions behind the header, as many as it counts, and the place after them.
fn question_section(alloc: Global, message: &[u8]) -> Result<(Questions, usize), WireFault>
    requires { 12 ≤ length message.now }
    ensures { GivesWire result (several question_at (two_octets message.now 4) message.now 12) }
{
    read_questions(alloc, header_field(message, QDCOUNT), message, HEADER)
}

/// The records from a place on, as many as the number at a place of the header, and the place after them.
fn record_section(
    alloc: Global,
    shaped: Shaped,
    message: &[u8],
    count: usize,
    at: usize,
) -> Result<(Rrs, usize), WireFault>
    requires { count + 2 ≤ length message.now }
    ensures { GivesWire result (several (record_at (shape_test shaped)) (two_octets message.now count) message.now at) }
{
    read_records(alloc, shaped, header_field(message, count), message, at)
}

/// The four sections behind the header, each with as many entries as it counts. The fault is the first one in reading
/// order, with its place.
pub fn read_sections(alloc: Global, shaped: Shaped, message: &[u8]) -> Result<Sections, WireFault>
    requires { 12 ≤ length message.now }
    ensures { GivesWire result (sections_of (shape_test shaped) message.now) }
{
    let (questions, place) = question_section(alloc, message)?;
    let (answers, place) = record_section(alloc, shaped, message, ANCOUNT, place)?;
    let (authority, place) = record_section(alloc, shaped, message, NSCOUNT, place)?;
    let (additional, end) = record_section(alloc, shaped, message, ARCOUNT, place)?;
    Ok(Sections {
        questions,
        answers,
        authority,
        additional,
        end,
    })
}
