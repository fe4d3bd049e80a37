//! Unicast queries (RFC 1035, 4.1).

ghost use Rattle.std.specs.Prelude.{◌≡◌, ◌≤◌, length, slice_get};
ghost use Rattle.dnswire.specs.Gives.{GivesWire};
ghost use Rattle.dnsquery.specs.Gives.{GivesQuery};
ghost use Rattle.dnsquery.specs.Queries.{entries_asked, has_query_counts, query_in, query_of};

use dnswire::{Shaped, WireFault, header_field, read_sections};
use rrset::{Question, Questions};
use std::alloc::Global;

/// A query (RFC 1035, 4.1).
#[derive(Debug, Drop)]
pub struct Query {
    /// The ID.
    pub id: u16,
    /// The flags.
    pub flags: u16,
    /// The question, its name as written.
    pub question: Question,
}

/// Why a message is no query.
#[derive(Clone, Copy, Debug, PartialEq, Eq)]
pub enum QueryFault {
    /// It doesn't have one question, no answer and no authority record.
    Counts,
    /// An entry that its counts tell is outside the grammar, or octets follow the last.
    Wire(WireFault),
    /// Memory ran out.
    NoMemory,
}

/// Whether a message counts one question, no answer and no authority record.
fn has_query_counts(message: &[u8]) -> bool
    requires { 12 ≤ length message.now }
    ensures { result ≡ has_query_counts message.now }
{
    header_field(message, 4) == 1 && header_field(message, 6) == 0 && header_field(message, 8) == 0
}

/// The first of some questions.
fn first_of(questions: Questions) -> Option<Question>
    ensures { result ≡ slice_get questions 0 }
{
    questions.into_vec().into_iter().next()
}

/// The one question of a message's sections, with its ID and flags.
fn query_in(message: &[u8], questions: Questions) -> Result<Query, WireFault>
    requires { 12 ≤ length message.now }
    ensures { GivesWire result (query_in message.now questions) }
{
    match first_of(questions) {
        Some(question) => Ok(Query {
            id: header_field(message, 0),
            flags: header_field(message, 2),
            question,
        }),
        None => Err(WireFault::Short(message.len())),
    }
}

/// What stands behind the header, to the last octet.
fn read_entries(alloc: Global, message: &[u8]) -> Result<Query, WireFault>
    requires { 12 ≤ length message.now }
    ensures { GivesWire result (entries_asked message.now) }
{
    let sections = read_sections(alloc, Shaped::Query, message)?;
    if sections.end != message.len() {
        return Err(WireFault::Trailing(sections.end));
    }
    query_in(message, sections.questions)
}

/// Reads a whole query. Additional records are read and dropped. The fault is the first one in reading order, with its
/// place, but that the counts come before all (RFC 1035, 4.1).
pub fn read_query(alloc: Global, message: &[u8]) -> Result<Query, QueryFault>
    requires { 12 ≤ length message.now }
    ensures { GivesQuery result (query_of message.now) }
{
    if !has_query_counts(message) {
        return Err(QueryFault::Counts);
    }
    match read_entries(alloc, message) {
        Ok(query) => Ok(query),
        Err(WireFault::NoMemory) => Err(QueryFault::NoMemory),
        Err(fault) => Err(QueryFault::Wire(fault)),
    }
}
