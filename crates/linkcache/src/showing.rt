//! What rows of a link show.

ghost use Rattle.std.specs.Prelude.{◌≡◌, fold, IfOk, OnOk};
ghost use Rattle.rrset.specs.RecordSet.{put_rr};
ghost use Rattle.nametable.specs.Nodes.{all_rows};
ghost use Rattle.nametable.specs.Blocks.{nodes_in};
ghost use Rattle.linkcache.specs.Rows.{put_shown, shown_rows};
ghost use Rattle.linkcache.specs.Sound.{IsLinkRow, AreLinkRows};

use crate::kinds::show;
use crate::row::{HeardRow, record_of};
use crate::rules::LinkRules;
use nametable::{Block, Node};
use rrset::{Key, NoMemory, Rr, Shown, Table};
use std::alloc::Global;

/// Puts a record in place of what was shown of its key.
fn put_rr(set: &mut Table, rr: Rr) -> Result<(), NoMemory>
    ensures { OnOk result (set.new.rows ≡ put_rr set.old.rows rr) }
{
    let key = rr.key()?;
    let Rr {
        owner,
        ttl,
        rdata,
        ..
    } = rr;
    set.put(key, Shown { owner, ttl, rdata })?;
    Ok(())
}

/// Puts what a row shows, if anything.
fn put_shown(
    alloc: Global,
    rules: &LinkRules,
    set: &mut Table,
    key: &Key,
    row: &HeardRow,
) -> Result<(), NoMemory>
    requires { IsLinkRow rules.now (key.now, row.now) }
    ensures { OnOk result (set.new.rows ≡ put_shown rules.now set.old.rows (key.now, row.now)) }
{
    let rr = record_of(key, row)?;
    match show(alloc, rules, &rr)? {
        Some(shown) => put_rr(set, shown),
        None => Ok(()),
    }
}

/// Puts what rows show.
fn put_shown_rows(
    alloc: Global,
    rules: &LinkRules,
    set: &mut Table,
    rows: &[(Key, HeardRow)],
) -> Result<(), NoMemory>
    requires { AreLinkRows rules.now rows.now }
    ensures { OnOk result (set.new.rows ≡ fold (put_shown rules.now) set.old.rows rows.now) }
{
    'rows: for (key, row) in rows {
        put_shown(alloc, rules, set, key, row)?;
    }
    Ok(())
}

/// The records that rows of a link show.
pub(crate) fn shown_rows(
    alloc: Global,
    rules: &LinkRules,
    rows: &[(Key, HeardRow)],
) -> Result<Table, NoMemory>
    requires { AreLinkRows rules.now rows.now }
    ensures { IfOk result (λ set. set.rows ≡ shown_rows rules.now rows.now) }
{
    let mut set = Table::new(alloc);
    put_shown_rows(alloc, rules, &mut set, rows)?;
    Ok(set)
}

/// Puts what the rows of some names show.
fn put_shown_nodes(
    alloc: Global,
    rules: &LinkRules,
    set: &mut Table,
    nodes: &[Node<HeardRow>],
) -> Result<(), NoMemory>
    requires { AreLinkRows rules.now (all_rows nodes.now) }
    ensures { OnOk result (set.new.rows ≡ fold (put_shown rules.now) set.old.rows (all_rows nodes.now)) }
{
    'nodes: for node in nodes {
        put_shown_rows(alloc, rules, set, node.table().entries())?;
    }
    Ok(())
}

/// The records that the rows of names in blocks show.
pub(crate) fn shown_blocks(
    alloc: Global,
    rules: &LinkRules,
    blocks: &[Block<HeardRow>],
) -> Result<Table, NoMemory>
    requires { AreLinkRows rules.now (all_rows (nodes_in blocks.now)) }
    ensures { IfOk result (λ set. set.rows ≡ shown_rows rules.now (all_rows (nodes_in blocks.now))) }
{
    let mut set = Table::new(alloc);
    'blocks: for block in blocks {
        put_shown_nodes(alloc, rules, &mut set, block.nodes())?;
    }
    Ok(set)
}
