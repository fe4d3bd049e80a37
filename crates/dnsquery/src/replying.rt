//! Replies to unicast queries (RFC 1034, 3.6.2 and 4.3.2; RFC 1035, 4.1).

ghost use Rattle.std.specs.Prelude.{◌≡◌, ◌+◌, ◌≤◌, ◌++◌, drop, length, take, IfOk, OnOk, OnErr};
ghost use Rattle.dnswire.specs.Writing.{message_header, question_octets};
ghost use Rattle.rrset.specs.Header.{answer_octets, flags_of, id_of};
ghost use Rattle.dnsquery.specs.Replies.{CanBeReplied, answers_query, is_answerable, is_unserved, malformed_flags, max_reply, own_flags, plain_flags, refuses_query, reply_to, reply_to_query, walk};

use crate::lookup::Lookup;
use crate::query::{Query, QueryFault, read_query};
use crate::walk::walk;
use dnswire::header_field;
use dnswire::writing::{message_header, write_question};
use rrset::classes::{ANY, IN};
use rrset::header::{KEPT_FLAGS, RESPONSE};
use rrset::kinds::{self, is_meta};
use rrset::rcodes::{FORMERR, NOTIMP, REFUSED};
use rrset::{NoMemory, Question};
use std::alloc::Global;

/// RD (RFC 1035, 4.1.1).
pub const RECURSION_DESIRED: u16 = 0x0100;

/// AA (RFC 1035, 4.1.1).
pub const AUTHORITATIVE: u16 = 0x0400;

/// The most octets of a reply: a header, a question, eight CNAMEs, and the records of a name (this project's own).
pub const MAX_REPLY: usize = 64_431;

/// The octets that most replies fit into, so that room for them is made at once: those of a message over UDP (RFC 1035, 4.2.1).
pub const USUAL_REPLY: usize = 512;

/// QR, RD as asked, and an RCODE.
fn plain_flags(flags: u16, rcode: u8) -> u16
    ensures { result ≡ plain_flags flags rcode }
{
    RESPONSE + (flags & RECURSION_DESIRED) + u16::from(rcode)
}

/// QR, AA, RD as asked, and an RCODE.
fn own_flags(flags: u16, rcode: u8) -> u16
    ensures { result ≡ own_flags flags rcode }
{
    RESPONSE + AUTHORITATIVE + (flags & RECURSION_DESIRED) + u16::from(rcode)
}

/// Whether a question's class is served, and its name has a home.
fn is_answerable<R: Lookup>(records: &R, question: &Question) -> bool
    ensures { result ≡ is_answerable (R.known records.now) question.now }
{
    (question.class == IN || question.class == ANY) && records.home(&question.name)
}

/// Whether a kind is a meta kind, and not the one that asks for all.
fn is_unserved(kind: u16) -> bool
    ensures { result ≡ is_unserved kind }
{
    is_meta(kind) && kind != kinds::ANY
}

/// Appends a message with one question, and with so many answers as they are written.
fn write_message(
    id: u16,
    flags: u16,
    count: u16,
    question: &Question,
    answers: &[u8],
    out: &mut Vec<u8>,
) -> Result<(), NoMemory>
    ensures octets { OnOk result (out.new.items ≡ out.old.items ++ message_header id flags 1 count 0 ++ question_octets question.now ++ answers.now) }
    ensures size { OnOk result (length out.new.items ≤ length out.old.items + 271 + length answers.now) }
{
    out.extend_from_slice(&message_header(id, flags, 1, count, 0))?;
    write_question(&question.name, question.kind, question.class, out)?;
    out.extend_from_slice(answers)
}

/// Appends the answer to a message that is no query: its ID, OPCODE and RD, and FORMERR (RFC 1035, 4.1.1).
fn write_malformed(message: &[u8], out: &mut Vec<u8>) -> Result<(), NoMemory>
    requires { 12 ≤ length message.now }
    ensures octets { OnOk result (out.new.items ≡ out.old.items ++ answer_octets (id_of message.now) (malformed_flags (flags_of message.now))) }
    ensures size { OnOk result (length out.new.items ≤ length out.old.items + 12) }
{
    let flags = RESPONSE + (header_field(message, 2) & KEPT_FLAGS) + u16::from(FORMERR);
    out.extend_from_slice(&message_header(header_field(message, 0), flags, 0, 0, 0))
}

/// Appends a reply with an RCODE, without AA and answers.
fn refuse(query: &Query, rcode: u8, out: &mut Vec<u8>) -> Result<(), NoMemory>
    ensures octets { OnOk result (out.new.items ≡ out.old.items ++ refuses_query query.now rcode) }
    ensures size { OnOk result (length out.new.items ≤ length out.old.items + 271) }
{
    let flags = plain_flags(query.flags, rcode);
    write_message(query.id, flags, 0, &query.question, &[], out)
}

/// Appends a reply with the answers along CNAMEs.
fn answer<R: Lookup>(
    alloc: Global,
    query: &Query,
    records: &R,
    out: &mut Vec<u8>,
) -> Result<(), NoMemory>
    requires { CanBeReplied (R.known records.now).records }
    ensures octets { OnOk result (out.new.items ≡ out.old.items ++ answers_query query.now (walk (R.known records.now) query.now.question)) }
    ensures size { OnOk result (length out.new.items ≤ length out.old.items + max_reply) }
{
    let mut answers = Vec::with_capacity(alloc, USUAL_REPLY)?;
    let walked = walk(alloc, records, &query.question, &mut answers)?;
    let flags = own_flags(query.flags, walked.rcode);
    let count = walked.count as u16;
    write_message(query.id, flags, count, &query.question, &answers, out)
}

/// Appends the reply to a query (RFC 1034, 4.3.2). Where memory runs out part of it may have been appended.
pub fn write_reply<R: Lookup>(
    alloc: Global,
    query: &Query,
    records: &R,
    out: &mut Vec<u8>,
) -> Result<(), NoMemory>
    requires { CanBeReplied (R.known records.now).records }
    ensures octets { OnOk result (out.new.items ≡ out.old.items ++ reply_to_query (R.known records.now) query.now) }
    ensures size { OnOk result (length out.new.items ≤ length out.old.items + max_reply) }
{
    if !is_answerable(records, &query.question) {
        return refuse(query, REFUSED, out);
    }
    if is_unserved(query.question.kind) {
        return refuse(query, NOTIMP, out);
    }
    answer(alloc, query, records, out)
}

/// Appends the reply to a message, that of FORMERR where it is no query (RFC 1034, 4.3.2; RFC 1035, 4.1.1). Where memory runs
/// out part of it may have been appended.
pub fn write_reply_to<R: Lookup>(
    alloc: Global,
    message: &[u8],
    records: &R,
    out: &mut Vec<u8>,
) -> Result<(), NoMemory>
    requires header { 12 ≤ length message.now }
    requires records { CanBeReplied (R.known records.now).records }
    ensures octets { OnOk result (out.new.items ≡ out.old.items ++ reply_to (R.known records.now) message.now) }
    ensures size { OnOk result (length out.new.items ≤ length out.old.items + max_reply) }
{
    match read_query(alloc, message) {
        Ok(query) => write_reply(alloc, &query, records, out),
        Err(QueryFault::NoMemory) => Err(NoMemory),
        Err(QueryFault::Counts) => write_malformed(message, out),
        Err(QueryFault::Wire(_)) => write_malformed(message, out),
    }
}

/// Copies octets to the front of a buffer.
fn copy_to_front(octets: &[u8], buf: &mut [u8])
    requires { length octets.now ≤ length buf.old }
    ensures front { take (length octets.now) buf.new ≡ octets.now }
    ensures rest { drop (length octets.now) buf.new ≡ drop (length octets.now) buf.old }
{
    buf[..octets.len()].copy_from_slice(octets);
}

/// Writes the reply to a query to the front of a buffer (RFC 1034, 4.3.2), and gives how many octets it has. Where memory
/// runs out nothing is written.
pub fn reply<R: Lookup>(
    alloc: Global,
    query: &Query,
    records: &R,
    out: &mut [u8],
) -> Result<usize, NoMemory>
    requires records { CanBeReplied (R.known records.now).records }
    requires room { max_reply ≤ length out.old }
    ensures octets { IfOk result (λ count. take count out.new ≡ reply_to_query (R.known records.now) query.now) }
    ensures size { IfOk result (λ count. count ≤ max_reply) }
    ensures rest { IfOk result (λ count. drop count out.new ≡ drop count out.old) }
    ensures err { OnErr result (out.new ≡ out.old) }
{
    let mut octets = Vec::new(alloc);
    write_reply(alloc, query, records, &mut octets)?;
    copy_to_front(&octets, out);
    Ok(octets.len())
}
