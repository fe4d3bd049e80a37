//! The part of a link's rows that a step looks at.

ghost use Rattle.std.specs.Prelude.{◌≡◌, ◌++◌, [], fold, IfOk, OnOk, IsTrue};
ghost use Rattle.nametable.specs.Blocks.{nodes_in};
ghost use Rattle.nametable.specs.Nodes.{all_rows};
ghost use Rattle.rrset.specs.KeyedRows.{is_rising};
ghost use Rattle.rrset.specs.Tables.{HaveLowerOwners};
ghost use Rattle.rrset.specs.declared.record.Key.{Key};
ghost use Rattle.clockqueue.specs.Deadlines.{due};
ghost use Rattle.linkcache.specs.Parts.{copied};

use crate::end_key::EndKey;
use crate::row::HeardRow;
use clockqueue::Deadlines;
use nametable::{Block, NameTable, Node};
use rrset::{Copied, Key, NoMemory, Table};
use std::alloc::Global;

/// Copies what rows have of a key, if anything, into a part of them.
fn copy_row(
    part: &mut Table<HeardRow>,
    rows: &NameTable<HeardRow>,
    key: &Key,
) -> Result<(), NoMemory>
    requires { HaveLowerOwners rows.now.rows }
    ensures { OnOk result (part.new.rows ≡ copied rows.now.rows part.old.rows key.now) }
{
    match rows.get(key) {
        Some(row) => {
            part.put(key.copy()?, row.copied()?)?;
            Ok(())
        }
        None => Ok(()),
    }
}

/// Copies what rows have of the keys of some of them into a part of them.
fn copy_all(
    part: &mut Table<HeardRow>,
    rows: &NameTable<HeardRow>,
    entries: &[(Key, HeardRow)],
) -> Result<(), NoMemory>
    requires { HaveLowerOwners rows.now.rows }
    ensures { OnOk result (part.new.rows ≡ fold (λ part e. copied rows.now.rows part e.0) part.old.rows entries.now) }
{
    'entries: for (key, _) in entries {
        copy_row(part, rows, key)?;
    }
    Ok(())
}

/// What a link has of the keys of some rows.
pub(crate) fn rows_under(
    alloc: Global,
    rows: &NameTable<HeardRow>,
    entries: &[(Key, HeardRow)],
) -> Result<Table<HeardRow>, NoMemory>
    requires { HaveLowerOwners rows.now.rows }
    ensures { IfOk result (λ part. part.rows ≡ fold (λ part e. copied rows.now.rows part e.0) [] entries.now) }
{
    let mut part = Table::new(alloc);
    copy_all(&mut part, rows, entries)?;
    Ok(part)
}

/// The rows whose keys are due, in the order in which they are.
pub(crate) fn due_rows(
    alloc: Global,
    rows: &NameTable<HeardRow>,
    ends: &Deadlines<EndKey>,
    now: u64,
) -> Result<Table<HeardRow>, NoMemory>
    requires { HaveLowerOwners rows.now.rows }
    ensures { IfOk result (λ part. part.rows ≡ fold (λ part d. copied rows.now.rows part d.1) [] (due now ends.now.deadlines)) }
{
    let mut part = Table::new(alloc);
    'ends: for number in 0..ends.len() {
        let end = ends.at(number);
        if end.0 > now {
            return Ok(part);
        }
        copy_row(&mut part, rows, end.1.key())?;
    }
    Ok(part)
}

/// Puts copies of the rows of a name behind those of others.
fn copy_entries(all: &mut Vec<(Key, HeardRow)>, entries: &[(Key, HeardRow)]) -> Result<(), NoMemory>
    ensures { OnOk result (all.new.items ≡ all.old.items ++ entries.now) }
{
    'entries: for (key, row) in entries {
        all.push((key.copy()?, row.copied()?))?;
    }
    Ok(())
}

/// Puts copies of the rows of some names behind those of others.
fn copy_nodes(all: &mut Vec<(Key, HeardRow)>, nodes: &[Node<HeardRow>]) -> Result<(), NoMemory>
    ensures { OnOk result (all.new.items ≡ all.old.items ++ all_rows nodes.now) }
{
    'nodes: for node in nodes {
        copy_entries(all, node.table().entries())?;
    }
    Ok(())
}

/// Puts copies of the rows of names in blocks behind those of others.
fn copy_blocks(all: &mut Vec<(Key, HeardRow)>, blocks: &[Block<HeardRow>]) -> Result<(), NoMemory>
    ensures { OnOk result (all.new.items ≡ all.old.items ++ all_rows (nodes_in blocks.now)) }
{
    'blocks: for block in blocks {
        copy_nodes(all, block.nodes())?;
    }
    Ok(())
}

/// Copies of all rows, in time linear in them.
pub(crate) fn all_rows(
    alloc: Global,
    rows: &NameTable<HeardRow>,
) -> Result<Table<HeardRow>, NoMemory>
    requires order { IsTrue (is_rising rows.now.rows) }
    requires lower { HaveLowerOwners rows.now.rows }
    ensures { IfOk result (λ part. part.rows ≡ rows.now.rows) }
{
    let mut all = Vec::new(alloc);
    copy_blocks(&mut all, rows.blocks())?;
    Ok(Table::from_entries(all))
}
