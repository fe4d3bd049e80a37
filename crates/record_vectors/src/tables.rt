//! Records, the questions that ask for them, and tables of them (RFC 4034, 6; RFC 8765, 6.2).

use crate::made::{holds, put, question, record};
use dnsname::Name;
use rrset::{Rr, Table, changes, kinds, matches, rr_size, same_keys, same_rows};
use std::alloc::Global;
use std::test::Fail;

/// A record with letters of both cases in its owner and in its rdata.
fn exchange(alloc: Global) -> Result<Rr, Fail> {
    record(alloc, "Mail.Example.", kinds::MX, 120, b"\0\x0a\x01A\0")
}

#[test]
fn a_key_is_in_lower_case(rt: HostRuntime) -> Result<(), Fail> {
    let key = exchange(rt.alloc())?.key()?;
    holds(
        "owner",
        key.owner.octets() == b"\x04mail\x07example\0".as_slice(),
    )?;
    holds("rdata", key.rdata.as_slice() == b"\0\x0a\x01a\0".as_slice())
}

#[test]
fn a_question_asks_for_a_record(rt: HostRuntime) -> Result<(), Fail> {
    let question = question(rt.alloc(), "MAIL.example.", kinds::ANY)?;
    let exchange = exchange(rt.alloc())?;
    holds("it asks", matches(&question, &exchange.key()?))?;
    holds("size", rr_size(&exchange) == 14 + 10 + 5)
}

/// Steps of one table: the text of an owner, a TTL to put its record with (none: its key is taken out), the record's
/// text, and what is then told: the TTL that was shown before, the records of the name `b.`, their octets, and how
/// many records there are.
const STEPS: &[(&str, Option<u32>, &[u8], Told)] = &[
    ("C.", Some(1), b"\x01a", (None, 0, 0, 1)),
    ("B.", Some(2), b"\x01b", (None, 1, 15, 2)),
    ("a.", Some(3), b"\x01a", (None, 1, 15, 3)),
    ("b.", Some(4), b"\x02cd", (None, 2, 31, 4)),
    ("b.", Some(5), b"\x01a", (None, 3, 46, 5)),
    // the key is there, in another letter case
    ("b.", Some(6), b"\x01b", (Some(2), 3, 46, 5)),
    ("A.", None, b"\x01a", (Some(3), 3, 46, 4)),
    ("B.", None, b"\x01b", (Some(6), 2, 31, 3)),
    ("b.", None, b"\x01b", (None, 2, 31, 3)),
];

type Told = (Option<u32>, usize, u64, usize);

/// What is told after a step.
fn step(
    alloc: Global,
    table: &mut Table,
    owner: &str,
    ttl: Option<u32>,
    text: &[u8],
) -> Result<Told, Fail> {
    let record = record(alloc, owner, kinds::TXT, ttl.unwrap_or(0), text)?;
    let key = record.key()?;
    let before = table.get(&key).map(|shown| shown.ttl);
    if ttl.is_some() {
        put(table, record)?;
    } else {
        table.remove(&key);
    }
    let name = Name::from_text(alloc, "b.")?;
    let count = table.at(&name).len();
    Ok((before, count, table.size_at(&name), table.len()))
}

#[test]
fn a_table_has_each_key_once(rt: HostRuntime) -> Result<(), Fail> {
    let mut table = Table::new(rt.alloc());
    'steps: for case in STEPS {
        let told = step(rt.alloc(), &mut table, case.0, case.1, case.2)?;
        holds(case.0, told == case.3)?;
    }
    table.retain(|key| key.rdata.as_slice().len() > 2);
    holds("one is left", table.len() == 1)
}

/// A table of one text record.
fn one_text(alloc: Global, owner: &str) -> Result<Table, Fail> {
    let mut table = Table::new(alloc);
    put(&mut table, record(alloc, owner, kinds::TXT, 60, b"\x01a")?)?;
    Ok(table)
}

/// How many changes lead from a table to another.
fn change_count(alloc: Global, old: &Table, new: &Table) -> Result<usize, Fail> {
    Ok(changes(alloc, old, new)?.len())
}

#[test]
fn changes_are_told_to_the_letter(rt: HostRuntime) -> Result<(), Fail> {
    let old = one_text(rt.alloc(), "main.example.")?;
    let new = one_text(rt.alloc(), "Main.example.")?;
    holds("one change", change_count(rt.alloc(), &old, &new)? == 1)?;
    holds("no change", change_count(rt.alloc(), &old, &old)? == 0)?;
    holds("keys", same_keys(old.entries(), new.entries()))?;
    holds("rows", !same_rows(old.entries(), new.entries()))
}
