//! Rows by names: names that come and go leave nothing behind.

use crate::made::{holds, record};
use nametable::NameTable;
use rrset::{NoMemory, Rr, Shown, kinds};
use std::alloc::Global;
use std::test::Fail;

/// Puts a record.
fn put(table: &mut NameTable, record: Rr) -> Result<(), NoMemory> {
    let key = record.key()?;
    let shown = Shown {
        owner: record.owner,
        ttl: record.ttl,
        rdata: record.rdata,
    };
    table.put(key, shown)?;
    Ok(())
}

/// Takes a record out.
fn take(table: &mut NameTable, record: &Rr) -> Result<(), NoMemory> {
    let key = record.key()?;
    table.remove(&key);
    table.give_back();
    Ok(())
}

/// An address of a name of a zone, by its number.
fn address(alloc: Global, number: u32) -> Result<Rr, Fail> {
    let owner = format!(in alloc; "n{number}.example.")?;
    record(alloc, owner.as_str(), kinds::A, 120, b"\xc0\0\x02\x01")
}

/// A table of so many names.
fn filled(alloc: Global, names: u32) -> Result<NameTable, Fail> {
    let mut table = NameTable::new(alloc);
    'names: for number in 0..names {
        put(&mut table, address(alloc, number)?)?;
    }
    Ok(table)
}

/// How many names stand in a table, with rows and without.
fn names_of(table: &NameTable) -> usize {
    let mut names = 0_usize;
    'blocks: for block in table.blocks() {
        names = names.saturating_add(block.nodes().len());
    }
    names
}

/// How many names a table has at most while names of these numbers come and go in turn.
fn most_names(alloc: Global, table: &mut NameTable, first: u32, last: u32) -> Result<usize, Fail> {
    let mut most = 0;
    'names: for number in first..last {
        put(table, address(alloc, number)?)?;
        most = most.max(names_of(table));
        take(table, &address(alloc, number)?)?;
    }
    Ok(most)
}

/// The most names of a block.
fn most_in_a_block(table: &NameTable) -> usize {
    let mut most = 0;
    'blocks: for block in table.blocks() {
        most = most.max(block.nodes().len());
    }
    most
}

/// Whether a table has an address of each of so many names.
fn has_all(alloc: Global, table: &NameTable, names: u32) -> Result<bool, Fail> {
    'names: for number in 0..names {
        let record = address(alloc, number)?;
        if table.at(&record.owner).len() != 1 {
            return Ok(false);
        }
    }
    Ok(true)
}

#[test]
fn many_names_stand_in_small_blocks(rt: HostRuntime) -> Result<(), Fail> {
    let table = filled(rt.alloc(), 2_000)?;
    holds("names", names_of(&table) == 2_000)?;
    holds("small", most_in_a_block(&table) <= 512)?;
    holds("found", has_all(rt.alloc(), &table, 2_000)?)?;
    holds("rows", table.len() == 2_000)
}

#[test]
fn names_that_come_and_go_leave_nothing(rt: HostRuntime) -> Result<(), Fail> {
    let mut table = filled(rt.alloc(), 100)?;
    let most = most_names(rt.alloc(), &mut table, 100, 1_000_000)?;
    holds("names", most <= 128)?;
    holds("rows", table.len() == 100)
}
