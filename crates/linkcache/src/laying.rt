//! Rows that a step puts, laid over those of a link.

ghost use Rattle.std.specs.Prelude.{◌≡◌, ◌++◌, not, is_some, cond, map, IfOk, OnOk, IsTrue};
ghost use Rattle.rrset.specs.KeyedRows.{is_rising, only_rows, put_row, row_at};
ghost use Rattle.rrset.specs.Records.{same_key};
ghost use Rattle.rrset.specs.Tables.{HasLowerOwner};
ghost use Rattle.linkcache.specs.Parts.{laid};
ghost use Rattle.linkcache.specs.Rows.{LinkRows, ending_by, has_key};

use crate::row::{HeardRow, ended_by};
use nametable::NameTable;
use rrset::{Copied, Key, NoMemory, Table};
use std::alloc::Global;

/// Whether a link has a row of a key.
pub(crate) fn has_row(rows: &NameTable<HeardRow>, key: &Key) -> bool
    ensures { result ≡ has_key key.now rows.now.rows }
{
    rows.get(key).is_some()
}

/// Whether rows have a key.
pub(crate) fn is_over(over: &Table<HeardRow>, key: &Key) -> bool
    ensures { result ≡ has_key key.now over.now.rows }
{
    over.get(key).is_some()
}

/// Whether there is a row of a key, over the link's or among them.
pub(crate) fn has(rows: &NameTable<HeardRow>, over: &Table<HeardRow>, key: &Key) -> bool
    ensures { result ≡ has_key key.now (laid over.now.rows rows.now.rows) }
{
    if is_over(over, key) {
        return true;
    }
    has_row(rows, key)
}

/// A copy of a link's row of a key, if there is one.
fn copy_of(rows: &NameTable<HeardRow>, key: &Key) -> Result<Option<HeardRow>, NoMemory>
    ensures { IfOk result (λ row. row ≡ row_at key.now rows.now.rows) }
{
    match rows.get(key) {
        Some(row) => Ok(Some(row.copied()?)),
        None => Ok(None),
    }
}

/// A copy of the row of a key, over the link's or among them, if there is one.
fn row_of(
    rows: &NameTable<HeardRow>,
    over: &Table<HeardRow>,
    key: &Key,
) -> Result<Option<HeardRow>, NoMemory>
    ensures { IfOk result (λ row. row ≡ row_at key.now (laid over.now.rows rows.now.rows)) }
{
    match over.get(key) {
        Some(row) => Ok(Some(row.copied()?)),
        None => copy_of(rows, key),
    }
}

/// Puts a row over those of any link.
pub(crate) fn put_over(over: &mut Table<HeardRow>, key: Key, row: HeardRow) -> Result<(), NoMemory>
    requires { HasLowerOwner key }
    ensures { (rows : LinkRows) → IsTrue (is_rising rows) → OnOk result (laid over.new.rows rows ≡ put_row key row (laid over.old.rows rows)) }
{
    over.put(key, row)?;
    Ok(())
}

/// Lets the row of a key, if there is one, end by a moment.
pub(crate) fn end_row(
    rows: &NameTable<HeardRow>,
    over: &mut Table<HeardRow>,
    key: &Key,
    moment: u64,
) -> Result<(), NoMemory>
    requires order { IsTrue (is_rising rows.now.rows) }
    requires lower { HasLowerOwner key.now }
    ensures { OnOk result (laid over.new.rows rows.now.rows ≡ map (λ row. cond (same_key key.now row.0) (ending_by moment row) row) (laid over.old.rows rows.now.rows)) }
{
    let Some(row) = row_of(rows, over, key)? else {
        return Ok(());
    };
    put_over(over, key.copy()?, ended_by(row, moment))?;
    Ok(())
}

/// A copy of a row with its key.
fn entry_of(key: &Key, row: &HeardRow) -> Result<(Key, HeardRow), NoMemory>
    ensures { IfOk result (λ entry. entry ≡ (key.now, row.now)) }
{
    Ok((key.copy()?, row.copied()?))
}

/// Puts copies of the rows whose keys a link doesn't have behind others.
fn append_new(
    new: &mut Vec<(Key, HeardRow)>,
    rows: &NameTable<HeardRow>,
    entries: &[(Key, HeardRow)],
) -> Result<(), NoMemory>
    ensures { OnOk result (new.new.items ≡ new.old.items ++ only_rows (λ key. not (is_some (row_at key rows.now.rows))) entries.now) }
{
    'entries: for (key, row) in entries {
        if rows.get(key).is_none() {
            new.push(entry_of(key, row)?)?;
        }
    }
    Ok(())
}

/// Copies of the rows whose keys a link doesn't have.
pub(crate) fn new_rows(
    alloc: Global,
    rows: &NameTable<HeardRow>,
    entries: &[(Key, HeardRow)],
) -> Result<Vec<(Key, HeardRow)>, NoMemory>
    ensures { IfOk result (λ new. new.items ≡ only_rows (λ key. not (is_some (row_at key rows.now.rows))) entries.now) }
{
    let mut new = Vec::new(alloc);
    append_new(&mut new, rows, entries)?;
    Ok(new)
}
