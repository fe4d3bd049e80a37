//! The changes that make a part of a link's rows another one.

ghost use Rattle.std.specs.Prelude.{◌≡◌, ◌++◌, map, is_some, not, IfOk, OnOk};
ghost use Rattle.std.specs.List.{AllByRecursion};
ghost use Rattle.rrset.specs.KeyedRows.{only_rows, row_at};
ghost use Rattle.rrset.specs.RecordSet.{changes, same_rows};
ghost use Rattle.linkcache.specs.Plans.{change_to, moves, IsPlanBetween};
ghost use Rattle.linkcache.specs.Rows.{keys_and_shown, shown_rows};
ghost use Rattle.linkcache.specs.Sound.{AreLinkRows};

use crate::end_key::EndKey;
use crate::plan::{HearPlan, PlannedRow, RowChange};
use crate::row::HeardRow;
use crate::rules::LinkRules;
use crate::showing::shown_rows;
use rrset::{Changed, Copied, Key, NoMemory, Table, changes, same_key, same_shown};
use std::alloc::Global;

/// The change that gives a key what a part has of it.
fn change_to(work: &Table<HeardRow>, key: &Key, row: &HeardRow) -> Result<RowChange, NoMemory>
    ensures { IfOk result (λ change. change ≡ change_to work.now.rows (key.now, row.now)) }
{
    let after = match work.get(key) {
        Some(row) => Some(row.copied()?),
        None => None,
    };
    Ok(RowChange {
        key: key.copy()?,
        after,
    })
}

/// Appends the changes of the keys of some rows.
fn append_all(
    changes: &mut Vec<RowChange>,
    work: &Table<HeardRow>,
    rows: &[(Key, HeardRow)],
) -> Result<(), NoMemory>
    ensures { OnOk result (changes.new.items ≡ changes.old.items ++ map (change_to work.now.rows) rows.now) }
{
    'rows: for (key, row) in rows {
        changes.push(change_to(work, key, row)?)?;
    }
    Ok(())
}

/// Appends the changes of the keys that go.
fn append_gone(
    changes: &mut Vec<RowChange>,
    work: &Table<HeardRow>,
    rows: &[(Key, HeardRow)],
) -> Result<(), NoMemory>
    ensures { OnOk result (changes.new.items ≡ changes.old.items ++ map (change_to work.now.rows) (only_rows (λ key. not (is_some (row_at key work.now.rows))) rows.now)) }
{
    'rows: for (key, row) in rows {
        if work.get(key).is_none() {
            changes.push(change_to(work, key, row)?)?;
        }
    }
    Ok(())
}

/// The keys that go, and behind them all that are there later.
fn moves(
    alloc: Global,
    part: &Table<HeardRow>,
    work: &Table<HeardRow>,
) -> Result<Vec<RowChange>, NoMemory>
    ensures { IfOk result (λ changes. changes.items ≡ moves part.now.rows work.now.rows) }
{
    let mut changes = Vec::new(alloc);
    append_gone(&mut changes, work, part.entries())?;
    append_all(&mut changes, work, work.entries())?;
    Ok(changes)
}

/// Changes, each with its key once more.
fn planned(alloc: Global, moves: Vec<RowChange>) -> Result<Vec<PlannedRow>, NoMemory>
    ensures rows { IfOk result (λ rows. map (λ r. r.change) rows.items ≡ moves.items) }
    ensures again { IfOk result (λ rows. AllByRecursion (λ r. r.again ≡ r.change.key) rows.items) }
{
    let mut rows = Vec::new(alloc);
    'moves: for change in moves {
        let again = EndKey::copied(alloc, &change.key)?;
        rows.push(PlannedRow { change, again })?;
    }
    Ok(rows)
}

/// Whether rows have the same keys, each with the same owner, TTL and rdata to the letter, so that they show the same.
fn are_alike(first: &[(Key, HeardRow)], second: &[(Key, HeardRow)]) -> bool
    ensures { result ≡ same_rows (keys_and_shown first.now) (keys_and_shown second.now) }
{
    if first.len() != second.len() {
        return false;
    }
    'rows: for index in 0..first.len() {
        let (key, row) = &first[index];
        let (other, other_row) = &second[index];
        if !(same_key(key, other) && same_shown(&row.shown, &other_row.shown)) {
            return false;
        }
    }
    true
}

/// What is shown otherwise of one part of a link's rows than of another. Nothing is translated where both have the same
/// records, as where all that is heard was heard before.
fn changes_between(
    alloc: Global,
    rules: &LinkRules,
    part: &[(Key, HeardRow)],
    work: &[(Key, HeardRow)],
) -> Result<Vec<Changed>, NoMemory>
    requires part { AreLinkRows rules.now part.now }
    requires work { AreLinkRows rules.now work.now }
    ensures { IfOk result (λ changed. changed.items ≡ changes (shown_rows rules.now part.now) (shown_rows rules.now work.now)) }
{
    if are_alike(part, work) {
        return Ok(Vec::new(alloc));
    }
    let before = shown_rows(alloc, rules, part)?;
    let after = shown_rows(alloc, rules, work)?;
    changes(alloc, &before, &after)
}

/// The plan that leads from a part of a link's rows to another one.
pub(crate) fn plan_between(
    alloc: Global,
    rules: &LinkRules,
    usable: bool,
    part: &Table<HeardRow>,
    work: &Table<HeardRow>,
) -> Result<HearPlan, NoMemory>
    requires part { AreLinkRows rules.now part.now.rows }
    requires work { AreLinkRows rules.now work.now.rows }
    ensures usable { IfOk result (λ plan. plan.usable ≡ usable) }
    ensures between { IfOk result (IsPlanBetween rules.now part.now.rows work.now.rows) }
{
    let changed = changes_between(alloc, rules, part.entries(), work.entries())?;
    let rows = planned(alloc, moves(alloc, part, work)?)?;
    Ok(HearPlan {
        usable,
        changed,
        rows,
    })
}
