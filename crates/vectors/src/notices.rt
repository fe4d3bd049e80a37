//! The notices of PUSH, and the records of RECONFIRM (RFC 8765, 6.3 and 6.5).

ghost use Rattle.std.specs.Prelude.{◌≡◌, true};
ghost use Rattle.dsotlv.specs.Giving.{FitsARecord};

use crate::shown::{holds, is_text, record_text};
use crate::spaced_octets;
use dnsname::Name;
use dsotlv::{Notice, PushFault, read_push, read_reconfirm, write_notice};
use push_base::{NoMemory, Octets, hex_text};
use rrset::Rr;
use std::alloc::Global;
use std::test::Fail;

/// What a case shows, the data of a PUSH, and its notices. The notices are written as these octets.
const NOTICES: &[(&str, &str, &str)] = &[
    (
        "an address is added",
        "0161076578616d706c6503636f6d00 0001 0001 0000003c 0004 c0000201",
        "add a.example.com. 60 1 1 [c0000201];",
    ),
    (
        "the start of a zone is added",
        "076578616d706c6503636f6d00 0006 0001 00000e10 003c 026e73076578616d706c6503636f6d00 \
         0a686f73746d6173746572076578616d706c6503636f6d00 00000001 00000e10 00000258 00015180 \
         0000003c",
        "add example.com. 3600 1 6 \
         [026e73076578616d706c6503636f6d000a686f73746d6173746572076578616d706c6503636f6d000000000100000e1000000258000151800000003c];",
    ),
    (
        "a server is added",
        "076578616d706c6503636f6d00 0002 0001 00000e10 0010 026e73076578616d706c6503636f6d00",
        "add example.com. 3600 1 2 [026e73076578616d706c6503636f6d00];",
    ),
    (
        "a record with a TTL of 0 is added",
        "00 0010 0001 00000000 0000",
        "add . 0 1 16 [];",
    ),
    (
        "a record with the greatest TTL is added",
        "00 ff00 0001 7fffffff 0001 00",
        "add . 2147483647 1 65280 [00];",
    ),
    (
        "one record is removed",
        "0161076578616d706c6503636f6d00 0001 0001 ffffffff 0004 c0000201",
        "remove a.example.com. 1 1 [c0000201];",
    ),
    (
        "a set is removed",
        "0178076578616d706c6503636f6d00 001c 0001 fffffffe 0000",
        "remove set x.example.com. 1 28;",
    ),
    (
        "all records of a class are removed",
        "0178076578616d706c6503636f6d00 00ff 0001 fffffffe 0000",
        "remove class x.example.com. 1;",
    ),
    (
        "all records of a name are removed",
        "0178076578616d706c6503636f6d00 0000 00ff fffffffe 0000",
        "remove all x.example.com.;",
    ),
    (
        "the least TTL that says nothing",
        "0178076578616d706c6503636f6d00 0000 0000 80000000 0000",
        "odd x.example.com. 2147483648;",
    ),
    (
        "the greatest TTL that says nothing",
        "0178076578616d706c6503636f6d00 0000 0000 fffffffd 0000",
        "odd x.example.com. 4294967293;",
    ),
    (
        "a name's new records in place of the old ones",
        "0161076578616d706c6503636f6d00 00ff 0001 fffffffe 0000 0161076578616d706c6503636f6d00 \
         0001 0001 0000003c 0004 c0000201 0161076578616d706c6503636f6d00 0010 0001 0000003c 0002 \
         0161",
        "remove class a.example.com. 1; add a.example.com. 60 1 1 [c0000201]; add a.example.com. \
         60 1 16 [0161];",
    ),
];

/// What a case shows, the data of a PUSH, and its notices, which are written otherwise, or the fault.
const DATA: &[(&str, &str, &str)] = &[
    (
        "all records of a name, whatever the kind",
        "00 0001 00ff fffffffe 0000",
        "remove all .;",
    ),
    (
        "all records of a name, whatever kind and class",
        "00 00ff 00ff fffffffe 0000",
        "remove all .;",
    ),
    (
        "a TTL that says nothing, with what else is refused",
        "00 00ff 00ff 80000000 0002 aabb",
        "odd . 2147483648;",
    ),
    ("no record", "", "Data(0)"),
    (
        "a pointer",
        "c000 0001 0001 0000003c 0004 c0000201",
        "Data(0)",
    ),
    (
        "a pointer behind a label",
        "0161 c000 0001 0001 0000003c 0004 c0000201",
        "Data(2)",
    ),
    ("a length with the top bits 01", "0161 40", "Data(2)"),
    ("a name without its end", "0161", "Data(2)"),
    ("a label that is cut off", "0361", "Data(2)"),
    ("half a kind", "00 00", "Data(2)"),
    ("half a class", "00 0001 00", "Data(4)"),
    ("three octets of a TTL", "00 0001 0001 000000", "Data(8)"),
    (
        "a kind that only a removal has, and half a TTL",
        "00 00ff 0001 ffff",
        "Data(7)",
    ),
    ("half a length", "00 0001 0001 0000003c 00", "Data(10)"),
    (
        "an address without its last octet",
        "00 0001 0001 0000003c 0004 c00002",
        "Data(14)",
    ),
    (
        "rdata of no fitting size that is cut off",
        "00 0001 0001 0000003c 0005 c0000201",
        "Data(15)",
    ),
    (
        "a record of every kind is added",
        "00 00ff 0001 0000003c 0000",
        "Data(1)",
    ),
    (
        "a record of every class is added",
        "00 0001 00ff 0000003c 0004 c0000201",
        "Data(3)",
    ),
    (
        "a record of every kind and class is added",
        "00 00ff 00ff 0000003c 0000",
        "Data(1)",
    ),
    (
        "one record of every kind is removed",
        "00 00ff 0001 ffffffff 0000",
        "Data(1)",
    ),
    (
        "one record of every class is removed",
        "00 0001 00ff ffffffff 0004 c0000201",
        "Data(3)",
    ),
    (
        "a set is removed with rdata",
        "00 0001 0001 fffffffe 0004 c0000201",
        "Data(9)",
    ),
    (
        "all records of a name are removed with rdata that is not there",
        "00 0000 00ff fffffffe 0001",
        "Data(9)",
    ),
    (
        "three octets of an address are added",
        "00 0001 0001 0000003c 0003 c00002",
        "Data(11)",
    ),
    (
        "five octets of an address are added",
        "00 0001 0001 0000003c 0005 c000020105",
        "Data(11)",
    ),
    (
        "no octet of an address is removed",
        "00 0001 0001 ffffffff 0000",
        "Data(11)",
    ),
    (
        "rdata with a pointer is added",
        "00 0005 0001 0000003c 0002 c000",
        "Data(11)",
    ),
    (
        "an octet behind a record",
        "00 0010 0001 0000003c 0000 00",
        "Data(12)",
    ),
    (
        "a fault in a second record",
        "00 0010 0001 0000003c 0000 80",
        "Data(11)",
    ),
];

/// What a case shows, the data of a RECONFIRM, and its record.
const RECONFIRMS: &[(&str, &str, &str)] = &[
    (
        "an address",
        "0168 036c616e076578616d706c6503636f6d00 0001 0001 c0000201",
        "h.lan.example.com. 0 1 1 [c0000201]",
    ),
    ("no rdata", "00 0001 0001", ". 0 1 1 []"),
    (
        "rdata of whatever size",
        "00 0001 0001 c00002",
        ". 0 1 1 [c00002]",
    ),
    (
        "every kind and class",
        "00 00ff 00ff 00",
        ". 0 255 255 [00]",
    ),
    ("no octet", "", "none"),
    ("a pointer", "c000 0001 0001 c0000201", "none"),
    ("a pointer behind a label", "0161 c000 0001 0001", "none"),
    ("a length with the top bits 01", "40 0001 0001", "none"),
    ("a name without its end", "0168", "none"),
    ("half a class", "00 0001 00", "none"),
];

/// A word, a name and numbers.
fn words(alloc: Global, word: &str, name: &Name, numbers: &[u32]) -> Result<String, NoMemory> {
    let name = name.text()?;
    let mut text = format!(in alloc; "{word} {name}")?;
    'numbers: for number in numbers {
        let part = format!(in alloc; " {number}")?;
        text.push_str(&part)?;
    }
    Ok(text)
}

/// The record that a notice adds.
fn added_text(alloc: Global, rr: &Rr) -> Result<String, NoMemory> {
    let record = record_text(alloc, rr)?;
    format!(in alloc; "add {record}")
}

/// The record that a notice removes.
fn removed_text(alloc: Global, rr: &Rr) -> Result<String, NoMemory> {
    let key = words(
        alloc,
        "remove",
        &rr.owner,
        &[rr.class.into(), rr.kind.into()],
    )?;
    let rdata = hex_text(alloc, rr.rdata.as_slice())?;
    format!(in alloc; "{key} [{rdata}]")
}

fn notice_text(alloc: Global, notice: &Notice) -> Result<String, NoMemory> {
    match notice {
        Notice::Add(rr) => added_text(alloc, rr),
        Notice::RemoveOne(rr) => removed_text(alloc, rr),
        Notice::RemoveSet(name, class, kind) => {
            words(
                alloc,
                "remove set",
                name,
                &[(*class).into(), (*kind).into()],
            )
        }
        Notice::RemoveClass(name, class) => words(alloc, "remove class", name, &[(*class).into()]),
        Notice::RemoveAll(name) => words(alloc, "remove all", name, &[]),
        Notice::Odd(name, ttl) => words(alloc, "odd", name, &[*ttl]),
    }
}

fn notices_text(alloc: Global, notices: &[Notice]) -> Result<String, NoMemory> {
    let mut text = String::new(alloc);
    'notices: for notice in notices {
        if !text.is_empty() {
            text.push(' ')?;
        }
        text.push_str(&notice_text(alloc, notice)?)?;
        text.push(';')?;
    }
    Ok(text)
}

/// The notices that data is, or its fault.
fn outcome(alloc: Global, data: &[u8]) -> Result<String, NoMemory> {
    match read_push(alloc, data) {
        Ok(notices) => notices_text(alloc, notices.as_slice()),
        Err(PushFault::NoMemory) => Err(NoMemory),
        Err(fault) => format!(in alloc; "{fault:?}"),
    }
}

/// Whether the rdata of a notice has a size that its field holds.
fn fits(notice: &Notice) -> bool
    ensures { result ≡ true → FitsARecord notice.now }
{
    match notice {
        Notice::Add(rr) => rr.rdata.len() < 65_536,
        Notice::RemoveOne(rr) => rr.rdata.len() < 65_536,
        _ => true,
    }
}

/// The octets of the notices that data is, written again.
fn rewritten(alloc: Global, data: &[u8]) -> Result<Octets, PushFault> {
    let notices = read_push(alloc, data)?;
    let mut out = Vec::new(alloc);
    'notices: for notice in notices.as_slice() {
        if fits(notice) {
            write_notice(notice, &mut out)?;
        }
    }
    Ok(Octets::from_vec(out))
}

/// The record that data is.
fn reconfirmed(alloc: Global, data: &[u8]) -> Result<String, NoMemory> {
    match read_reconfirm(alloc, data)? {
        Some(rr) => record_text(alloc, &rr),
        None => "none".to_string(alloc),
    }
}

/// Whether the data of a PUSH says what it is to say.
fn is_read_so(alloc: Global, case: &(&str, &str, &str)) -> Result<(), Fail> {
    let octets = spaced_octets(alloc, case.1)?;
    let text = outcome(alloc, octets.as_slice())?;
    is_text(case.0, text.as_str(), case.2)
}

/// Whether the notices that data is are written as they stand there.
fn is_written_so(alloc: Global, case: &(&str, &str, &str)) -> Result<(), Fail> {
    let octets = spaced_octets(alloc, case.1)?;
    let written = rewritten(alloc, octets.as_slice())?;
    holds(case.0, written.as_slice() == octets.as_slice())
}

#[test]
fn notices_are_read_and_written(rt: HostRuntime) -> Result<(), Fail> {
    'notices: for case in NOTICES {
        is_read_so(rt.alloc(), case)?;
        is_written_so(rt.alloc(), case)?;
    }
    Ok(())
}

#[test]
fn data_of_notices_are_read(rt: HostRuntime) -> Result<(), Fail> {
    'data: for case in DATA {
        is_read_so(rt.alloc(), case)?;
    }
    Ok(())
}

/// Whether the data of a RECONFIRM is the record that it is to be.
fn is_record(alloc: Global, case: &(&str, &str, &str)) -> Result<(), Fail> {
    let octets = spaced_octets(alloc, case.1)?;
    let text = reconfirmed(alloc, octets.as_slice())?;
    is_text(case.0, text.as_str(), case.2)
}

#[test]
fn reconfirmed_records_are_read(rt: HostRuntime) -> Result<(), Fail> {
    'records: for case in RECONFIRMS {
        is_record(rt.alloc(), case)?;
    }
    Ok(())
}
