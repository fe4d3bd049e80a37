//! All rows of a table by names in a table in which they stand together.

ghost use Rattle.std.specs.Prelude.{◌≡◌, IfOk, OnOk};
ghost use Rattle.rrset.specs.RecordSet.{union};
ghost use Rattle.rrset.specs.Tables.{HaveLowerOwners};
ghost use Rattle.nametable.specs.Blocks.{nodes_in};
ghost use Rattle.nametable.specs.Nodes.{all_rows};

use crate::block::Block;
use crate::name_table::NameTable;
use crate::node::Node;
use rrset::{Key, NoMemory, Shown, Table, put_all};
use std::alloc::Global;

/// Puts copies of the records of nodes over those of a table.
fn put_nodes(all: &mut Table, nodes: &[Node<Shown>]) -> Result<(), NoMemory>
    ensures { OnOk result (all.new.rows ≡ union all.old.rows (all_rows nodes.now)) }
{
    'nodes: for node in nodes {
        put_all(all, node.table().entries())?;
    }
    Ok(())
}

/// Puts copies of the records of blocks over those of a table.
fn put_blocks(all: &mut Table, blocks: &[Block<Shown>]) -> Result<(), NoMemory>
    ensures { OnOk result (all.new.rows ≡ union all.old.rows (all_rows (nodes_in blocks.now))) }
{
    'blocks: for block in blocks {
        put_nodes(all, block.nodes())?;
    }
    Ok(())
}

/// Puts copies of records over those of a table. Where memory runs out, some of them are put.
pub fn put_all_names(all: &mut Table, rows: &NameTable) -> Result<(), NoMemory>
    ensures { OnOk result (all.new.rows ≡ union all.old.rows rows.now.rows) }
{
    put_blocks(all, rows.blocks())
}

/// Puts records. Where memory runs out, some of them are put.
fn put_entries(rows: &mut NameTable, entries: Vec<(Key, Shown)>) -> Result<(), NoMemory>
    requires { HaveLowerOwners entries.items }
    ensures { OnOk result (rows.new.rows ≡ union rows.old.rows entries.items) }
{
    'entries: for entry in entries {
        rows.put(entry.0, entry.1)?;
    }
    Ok(())
}

/// The rows of a table in which they stand together, by names.
pub fn by_names(alloc: Global, table: Table) -> Result<NameTable, NoMemory>
    ensures { IfOk result (λ rows. rows.rows ≡ table.rows) }
{
    let entries = table.into_entries();
    let mut rows = NameTable::new(alloc);
    put_entries(&mut rows, entries)?;
    Ok(rows)
}
