//! Writing messages, names without pointers (RFC 1035, 4.1).

ghost use Rattle.std.specs.Prelude.{◌≡◌, ◌+◌, ◌<◌, ◌≤◌, ◌^◌, ◌++◌, flat_map, length, IfOk, OnOk, OnErr};
ghost use Rattle.push_base.specs.Limits.{max_datagram};
ghost use Rattle.rrset.specs.Records.{rr_of};
ghost use Rattle.dnswire.specs.Writing.{message_header, query_answers, query_octets, question_octets, record_octets, with_room};

use dnsname::Name;
use push_base::limits::MAX_DATAGRAM;
use rrset::header::HEADER;
use rrset::{Key, NoMemory, Question, Rr, Shown, rr_size};
use std::alloc::Global;

/// The header of a message, with the counts of its first three sections and without additional records.
pub fn message_header(id: u16, flags: u16, questions: u16, answers: u16, authority: u16) -> [u8; 12]
    ensures { result ≡ message_header id flags questions answers authority }
{
    let [id_high, id_low] = id.to_be_bytes();
    let [flags_high, flags_low] = flags.to_be_bytes();
    let [questions_high, questions_low] = questions.to_be_bytes();
    let [answers_high, answers_low] = answers.to_be_bytes();
    let [authority_high, authority_low] = authority.to_be_bytes();
    [
        id_high,
        id_low,
        flags_high,
        flags_low,
        questions_high,
        questions_low,
        answers_high,
        answers_low,
        authority_high,
        authority_low,
        0,
        0,
    ]
}

/// Appends a question (RFC 1035, 4.1.2). Where memory runs out part of it may have been appended.
pub fn write_question(name: &Name, kind: u16, class: u16, out: &mut Vec<u8>) -> Result<(), NoMemory>
    ensures octets { OnOk result (out.new.items ≡ out.old.items ++ question_octets (record { name = name.now; kind = kind; class = class })) }
    ensures few { length (question_octets (record { name = name.now; kind = kind; class = class })) ≤ 259 }
{
    let name = name.octets();
    out.extend_from_slice(name)?;
    out.extend_from_slice(&kind.to_be_bytes())?;
    out.extend_from_slice(&class.to_be_bytes())
}

/// Appends a record (RFC 1035, 4.1.3). Where memory runs out part of it may have been appended.
pub fn write_record(
    owner: &Name,
    class: u16,
    kind: u16,
    ttl: u32,
    rdata: &[u8],
    out: &mut Vec<u8>,
) -> Result<(), NoMemory>
    requires { length rdata.now < 2 ^ 16 }
    ensures { OnOk result (out.new.items ≡ out.old.items ++ record_octets (record { owner = owner.now; class = class; kind = kind; ttl = ttl; rdata = rdata.now })) }
{
    owner.write_to(out)?;
    out.extend_from_slice(&kind.to_be_bytes())?;
    out.extend_from_slice(&class.to_be_bytes())?;
    out.extend_from_slice(&ttl.to_be_bytes())?;
    out.extend_from_slice(&(rdata.len() as u16).to_be_bytes())?;
    out.extend_from_slice(rdata)
}

/// Appends a record that is kept as a key and what is shown of it. Where memory runs out part of it may have been appended.
pub fn write_shown(key: &Key, shown: &Shown, out: &mut Vec<u8>) -> Result<(), NoMemory>
    requires { length shown.now.rdata < 2 ^ 16 }
    ensures octets { OnOk result (out.new.items ≡ out.old.items ++ record_octets (rr_of key.now shown.now)) }
    ensures size { OnOk result (length out.new.items ≤ length out.old.items + 265 + length shown.now.rdata) }
{
    let _owner = shown.owner.octets();
    write_record(
        &shown.owner,
        key.class,
        key.kind,
        shown.ttl,
        shown.rdata.as_slice(),
        out,
    )
}

/// Appends of some records those that a datagram has room for behind so many octets, in turn; one that doesn't fit is left
/// out (RFC 6762, 17). Gives how many they are. Where memory runs out part of them may have been appended.
fn push_known(size: usize, known: &[Rr], out: &mut Vec<u8>) -> Result<u16, NoMemory>
    requires { size ≤ max_datagram }
    ensures octets { OnOk result (out.new.items ≡ out.old.items ++ flat_map record_octets (with_room size known.now)) }
    ensures count { IfOk result (λ count. count ≡ length (with_room size known.now)) }
{
    let mut size = size as u64;
    let mut count: u16 = 0;
    'known: for rr in known {
        let more = rr_size(rr);
        if more <= MAX_DATAGRAM as u64 - size {
            write_record(
                &rr.owner,
                rr.class,
                rr.kind,
                rr.ttl,
                rr.rdata.as_slice(),
                out,
            )?;
            size += more;
            count += 1;
        }
    }
    Ok(count)
}

/// A datagram that asks a link a question, with those of the known answers that it has room for, and how many they are.
fn query_octets(
    alloc: Global,
    question: &Question,
    known: &[Rr],
) -> Result<(Vec<u8>, u16), NoMemory>
    ensures octets { IfOk result (λ made. made.0.items ≡ query_octets question.now known.now) }
    ensures count { IfOk result (λ made. made.1 ≡ length (query_answers question.now known.now)) }
{
    let mut asked = Vec::new(alloc);
    write_question(&question.name, question.kind, question.class, &mut asked)?;
    let mut answers = Vec::new(alloc);
    let count = push_known(HEADER + asked.len(), known, &mut answers)?;
    let mut octets = Vec::new(alloc);
    octets.extend_from_slice(&message_header(0, 0, 1, count, 0))?;
    octets.extend_from_slice(&asked)?;
    octets.extend_from_slice(&answers)?;
    Ok((octets, count))
}

/// Appends a datagram that asks a link a question (RFC 6762, 5.2 and 18), with the answers that are known (RFC 6762, 7.1)
/// as far as they fit into 9,000 octets, in turn. Gives how many of them fit. Where memory runs out nothing is appended.
pub fn write_query(question: &Question, known: &[Rr], out: &mut Vec<u8>) -> Result<usize, NoMemory>
    ensures ok { OnOk result (out.new.items ≡ out.old.items ++ query_octets question.now known.now) }
    ensures count { IfOk result (λ count. count ≡ length (query_answers question.now known.now)) }
    ensures err { OnErr result (out.new.items ≡ out.old.items) }
{
    let (octets, count) = query_octets(*out.allocator(), question, known)?;
    out.extend_from_slice(&octets)?;
    Ok(usize::from(count))
}
