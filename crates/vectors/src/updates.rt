//! Updates, and the answers to them (RFC 2136, 2; RFC 1035, 4.1.1).

ghost use Rattle.std.specs.Prelude.{◌≤◌, length};

use crate::shown::{holds, is_text, question_text, record_text};
use crate::spaced_octets;
use dnswire::{Update, WireFault, read_update, write_answer};
use push_base::NoMemory;
use rrset::Rr;
use std::alloc::Global;
use std::test::Fail;

/// What a case shows, the message, and what it says: the ID, zones as name, kind and class, prerequisites and
/// changes as owner, TTL, class, kind and rdata, or the fault.
const CASES: &[(&str, &str, &str)] = &[
    (
        "an address is added",
        "0001 2800 0001 0000 0001 0000 076578616d706c6503636f6d00 0006 0001 0161c00c 0001 0001 \
         0000003c 0004 c0000201",
        "1: zone example.com. 6 1; change a.example.com. 60 1 1 [c0000201];",
    ),
    (
        "one record is deleted",
        "0002 2800 0001 0000 0001 0000 076578616d706c6503636f6d00 0006 0001 0161c00c 0001 00fe \
         00000000 0004 c0000201",
        "2: zone example.com. 6 1; change a.example.com. 0 254 1 [c0000201];",
    ),
    (
        "a text is added",
        "0004 2800 0001 0000 0001 0000 076578616d706c6503636f6d00 0006 0001 0161c00c 0010 0001 \
         0000003c 0002 0161",
        "4: zone example.com. 6 1; change a.example.com. 60 1 16 [0161];",
    ),
    (
        "a set is deleted",
        "0002 2800 0001 0000 0001 0000 076578616d706c6503636f6d00 0006 0001 0178c00c 001c 00ff \
         00000000 0000",
        "2: zone example.com. 6 1; change x.example.com. 0 255 28 [];",
    ),
    (
        "all sets of a name are deleted",
        "0001 2800 0001 0000 0001 0000 076578616d706c6503636f6d00 0006 0001 c00c 00ff 00ff \
         00000000 0000",
        "1: zone example.com. 6 1; change example.com. 0 255 255 [];",
    ),
    (
        "a name must be in use",
        "0001 2800 0001 0001 0000 0000 076578616d706c6503636f6d00 0006 0001 0161c00c 00ff 00ff \
         00000000 0000",
        "1: zone example.com. 6 1; prerequisite a.example.com. 0 255 255 [];",
    ),
    (
        "a set must exist",
        "0001 2800 0001 0001 0000 0000 076578616d706c6503636f6d00 0006 0001 c00c 0001 00ff \
         00000000 0000",
        "1: zone example.com. 6 1; prerequisite example.com. 0 255 1 [];",
    ),
    (
        "a name must not be in use",
        "0001 2800 0001 0001 0000 0000 076578616d706c6503636f6d00 0006 0001 c00c 00ff 00fe \
         00000000 0000",
        "1: zone example.com. 6 1; prerequisite example.com. 0 254 255 [];",
    ),
    (
        "a set must not exist",
        "0001 2800 0001 0001 0000 0000 076578616d706c6503636f6d00 0006 0001 c00c 0002 00fe \
         00000000 0000",
        "1: zone example.com. 6 1; prerequisite example.com. 0 254 2 [];",
    ),
    (
        "a set must be equal",
        "0001 2800 0001 0001 0000 0000 076578616d706c6503636f6d00 0006 0001 c00c 0002 0001 \
         00000000 000a 026e73056f7468657200",
        "1: zone example.com. 6 1; prerequisite example.com. 0 1 2 [026e73056f7468657200];",
    ),
    (
        "a name outside the zone",
        "0001 2800 0001 0001 0000 0000 076578616d706c6503636f6d00 0006 0001 056f7468657200 00ff \
         00ff 00000000 0000",
        "1: zone example.com. 6 1; prerequisite other. 0 255 255 [];",
    ),
    (
        "a prerequisite with a TTL",
        "0001 2800 0001 0001 0000 0000 076578616d706c6503636f6d00 0006 0001 c00c 00ff 00ff \
         00000001 0000",
        "1: zone example.com. 6 1; prerequisite example.com. 1 255 255 [];",
    ),
    (
        "a prerequisite of class CH",
        "0001 2800 0001 0001 0000 0000 076578616d706c6503636f6d00 0006 0001 c00c 0001 0003 \
         00000000 0000",
        "1: zone example.com. 6 1; prerequisite example.com. 0 3 1 [];",
    ),
    (
        "another zone",
        "0001 2800 0001 0000 0000 0000 056f7468657200 0006 0001",
        "1: zone other. 6 1;",
    ),
    (
        "two zones",
        "0001 2800 0002 0000 0000 0000 076578616d706c6503636f6d00 0006 0001 c00c 0006 0001",
        "1: zone example.com. 6 1; zone example.com. 6 1;",
    ),
    ("no zone", "0001 2800 0000 0000 0000 0000", "1:"),
    (
        "a server is deleted, its name with a pointer",
        "0001 2800 0001 0000 0001 0000 076578616d706c6503636f6d00 0006 0001 c00c 0002 00fe \
         00000000 0005 026e73c00c",
        "1: zone example.com. 6 1; change example.com. 0 254 2 [026e73076578616d706c6503636f6d00];",
    ),
    (
        "an alias and an address are added",
        "0001 2800 0001 0000 0002 0000 076578616d706c6503636f6d00 0006 0001 0161c00c 0005 0001 \
         0000003c 0004 0162c00c 0161c00c 0001 0001 0000003c 0004 c0000201",
        "1: zone example.com. 6 1; change a.example.com. 60 1 5 [0162076578616d706c6503636f6d00]; \
         change a.example.com. 60 1 1 [c0000201];",
    ),
    (
        "a kind that stands for all is added",
        "0001 2800 0001 0000 0001 0000 076578616d706c6503636f6d00 0006 0001 0161c00c 00ff 0001 \
         0000003c 0000",
        "1: zone example.com. 6 1; change a.example.com. 60 1 255 [];",
    ),
    (
        "a name under another domain",
        "0001 2800 0001 0000 0001 0000 076578616d706c6503636f6d00 0006 0001 0168036c616ec00c 0001 \
         0001 0000003c 0004 c0000201",
        "1: zone example.com. 6 1; change h.lan.example.com. 60 1 1 [c0000201];",
    ),
    (
        "a prerequisite and a change",
        "0001 2800 0001 0001 0001 0000 076578616d706c6503636f6d00 0006 0001 0161c00c 00ff 00fe \
         00000000 0000 c01d 0001 0001 0000003c 0004 c0000201",
        "1: zone example.com. 6 1; prerequisite a.example.com. 0 254 255 []; change a.example.com. \
         60 1 1 [c0000201];",
    ),
    (
        "an additional record is dropped",
        "0001 2800 0001 0000 0001 0001 076578616d706c6503636f6d00 0006 0001 0161c00c 0001 0001 \
         0000003c 0004 c0000201 00 0029 1000 00000000 0000",
        "1: zone example.com. 6 1; change a.example.com. 60 1 1 [c0000201];",
    ),
    (
        "rdata of class ANY as it stands",
        "0001 2800 0001 0000 0001 0000 076578616d706c6503636f6d00 0006 0001 0161c00c 0001 00ff \
         00000000 0003 c00002",
        "1: zone example.com. 6 1; change a.example.com. 0 255 1 [c00002];",
    ),
    (
        "an address without its last octet",
        "0001 2800 0001 0000 0001 0000 076578616d706c6503636f6d00 0006 0001 0161c00c 0001 0001 \
         0000003c 0004 c00002",
        "Short(46)",
    ),
    (
        "a zone without its class",
        "0001 2800 0001 0000 0000 0000 076578616d706c6503636f6d00 0006",
        "Short(27)",
    ),
    (
        "rdata of no fitting size that is cut off",
        "0001 2800 0001 0000 0001 0000 076578616d706c6503636f6d00 0006 0001 0161c00c 0001 0001 \
         0000003c 0005 c0000201",
        "Short(47)",
    ),
    (
        "an octet behind the message",
        "0001 2800 0001 0000 0001 0000 076578616d706c6503636f6d00 0006 0001 0161c00c 0001 0001 \
         0000003c 0004 c0000201 00",
        "Trailing(47)",
    ),
    (
        "an octet behind the header",
        "0001 2800 0000 0000 0000 0000 00",
        "Trailing(12)",
    ),
    (
        "three octets of an address",
        "0001 2800 0001 0000 0001 0000 076578616d706c6503636f6d00 0006 0001 0161c00c 0001 0001 \
         0000003c 0003 c00002",
        "Rdata(46)",
    ),
    (
        "five octets of an address",
        "0001 2800 0001 0000 0001 0000 076578616d706c6503636f6d00 0006 0001 0161c00c 0001 0001 \
         0000003c 0005 c000020105",
        "Rdata(47)",
    ),
    (
        "three octets of an address that is deleted",
        "0001 2800 0001 0000 0001 0000 076578616d706c6503636f6d00 0006 0001 0161c00c 0001 00fe \
         00000000 0003 c00002",
        "Rdata(46)",
    ),
    (
        "a fault in rdata that is dropped",
        "0001 2800 0001 0000 0000 0001 076578616d706c6503636f6d00 0006 0001 c00c 0001 0001 \
         00000000 0000",
        "Rdata(41)",
    ),
    (
        "a zone's name that points to itself",
        "0001 2800 0001 0000 0000 0000 c00c 0006 0001",
        "Name(Pointer(12))",
    ),
    (
        "a length with the top bits 01",
        "0001 2800 0001 0000 0001 0000 076578616d706c6503636f6d00 0006 0001 0161 40",
        "Name(LongLabel(31))",
    ),
    (
        "a counted zone that is not there",
        "0001 2800 0001 0000 0000 0000",
        "Name(Short(12))",
    ),
    (
        "fewer changes than are counted",
        "0001 2800 0001 0000 0002 0000 076578616d706c6503636f6d00 0006 0001 0161c00c 0001 0001 \
         0000003c 0004 c0000201",
        "Name(Short(47))",
    ),
];

/// IDs and flags, and the whole answers with them.
const ANSWERS: &[(u16, u16, &str)] = &[
    (1, 0xa800, "0001 a800 0000 0000 0000 0000"),
    (9, 0x8104, "0009 8104 0000 0000 0000 0000"),
    (65534, 0xa809, "fffe a809 0000 0000 0000 0000"),
];

/// Appends records behind a word.
fn push_records(text: &mut String, word: &str, rrs: &[Rr]) -> Result<(), NoMemory> {
    let alloc = *text.allocator();
    'records: for rr in rrs {
        let record = record_text(alloc, rr)?;
        let part = format!(in alloc; " {word} {record};")?;
        text.push_str(&part)?;
    }
    Ok(())
}

fn update_text(alloc: Global, update: &Update) -> Result<String, NoMemory> {
    let mut text = format!(in alloc; "{}:", update.id)?;
    'zones: for zone in update.zones.as_slice() {
        let question = question_text(alloc, zone)?;
        let part = format!(in alloc; " zone {question};")?;
        text.push_str(&part)?;
    }
    push_records(&mut text, "prerequisite", update.prereqs.as_slice())?;
    push_records(&mut text, "change", update.changes.as_slice())?;
    Ok(text)
}

/// What an update says, or its fault. It has a header.
fn outcome(alloc: Global, message: &[u8]) -> Result<String, NoMemory>
    requires { 12 ≤ length message.now }
{
    match read_update(alloc, message) {
        Ok(update) => update_text(alloc, &update),
        Err(WireFault::NoMemory) => Err(NoMemory),
        Err(fault) => format!(in alloc; "{fault:?}"),
    }
}

/// Whether a message says what it is to say. Each has a whole header.
fn is_read_so(alloc: Global, case: &(&str, &str, &str)) -> Result<(), Fail> {
    let octets = spaced_octets(alloc, case.1)?;
    if octets.len() < 12 {
        return holds("a whole header", false);
    }
    let text = outcome(alloc, octets.as_slice())?;
    is_text(case.0, text.as_str(), case.2)
}

/// Whether the answer with an ID and flags has these octets.
fn is_answered_so(alloc: Global, case: &(u16, u16, &str)) -> Result<(), Fail> {
    let octets = spaced_octets(alloc, case.2)?;
    let answer = write_answer(case.0, case.1);
    holds(case.2, answer.as_slice() == octets.as_slice())
}

#[test]
fn updates_are_read(rt: HostRuntime) -> Result<(), Fail> {
    'cases: for case in CASES {
        is_read_so(rt.alloc(), case)?;
    }
    Ok(())
}

#[test]
fn updates_are_answered(rt: HostRuntime) -> Result<(), Fail> {
    'answers: for case in ANSWERS {
        is_answered_so(rt.alloc(), case)?;
    }
    Ok(())
}
