//! Questions and records of class IN, tables of them, and what fails.

use dnsname::Name;
use push_base::{NoMemory, Octets};
use rrset::{Key, Question, Rr, Shown, Table};
use std::alloc::Global;
use std::test::Fail;

/// A question of class IN.
pub(crate) fn question(alloc: Global, name: &str, kind: u16) -> Result<Question, Fail> {
    Ok(Question {
        name: Name::from_text(alloc, name)?,
        kind,
        class: 1,
    })
}

/// A record of class IN.
pub(crate) fn record(
    alloc: Global,
    owner: &str,
    kind: u16,
    ttl: u32,
    rdata: &[u8],
) -> Result<Rr, Fail> {
    Ok(Rr {
        owner: Name::from_text(alloc, owner)?,
        class: 1,
        kind,
        ttl,
        rdata: Octets::from_slice(alloc, rdata)?,
    })
}

/// Puts a record into a table.
pub(crate) fn put(table: &mut Table, record: Rr) -> Result<(), NoMemory> {
    let key = record.key()?;
    let shown = Shown {
        owner: record.owner,
        ttl: record.ttl,
        rdata: record.rdata,
    };
    table.put(key, shown)?;
    Ok(())
}

/// Fails where a test doesn't hold. An assertion in a test's own loop is dear to prove.
pub(crate) fn holds(shows: &str, test: bool) -> Result<(), Fail> {
    if test {
        return Ok(());
    }
    Err(Fail::new(format_args!("{shows}: not so")))
}
