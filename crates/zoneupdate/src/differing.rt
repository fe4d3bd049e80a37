//! What is shown otherwise in one list of records than in another, where both are gone through side by side.

ghost use Rattle.std.specs.Prelude.{◌≡◌, ◌∷◌, ◌++◌, [], false, true, map, IfOk, OnOk, MatchOption};
ghost use Rattle.zoneupdate.specs.Differing.{at_key, behind_key, came, comes_first, differences, from_key, gone, gone_before, shown_otherwise, starts_with};

use rrset::{Changed, Key, NoMemory, Shown, compare_keys, same_key, same_shown};
use std::alloc::Global;

/// A record that is gone.
fn gone(row: &(Key, Shown)) -> Result<Changed, NoMemory>
    ensures { IfOk result (λ change. change ≡ gone row.now) }
{
    Ok(Changed {
        key: row.0.copy()?,
        before: Some(row.1.copy()?),
        after: None,
    })
}

/// The first record and the others, where the first comes before a key.
fn first_before<'a>(
    rows: &'a [(Key, Shown)],
    key: &Key,
) -> Option<(&'a (Key, Shown), &'a [(Key, Shown)])>
    ensures { MatchOption result (comes_first key.now rows.now ≡ false) (λ found. (rows.now ≡ found.0.now ∷ found.1.now) × (comes_first key.now rows.now ≡ true)) }
{
    let (row, after) = rows.split_first()?;
    if compare_keys(&row.0, key).is_lt() {
        Some((row, after))
    } else {
        None
    }
}

/// Appends that the records which come before a key are gone, and gives those from there on.
fn append_gone<'a>(
    changed: &mut Vec<Changed>,
    old: &'a [(Key, Shown)],
    key: &Key,
) -> Result<&'a [(Key, Shown)], NoMemory>
    ensures { IfOk result (λ rest. (changed.new.items ≡ changed.old.items ++ gone_before key.now old.now) × (rest.now ≡ from_key key.now old.now)) }
{
    let mut rest = old;
    'rows: while let Some((row, after)) = first_before(rest, key) {
        let change = gone(row)?;
        changed.push(change)?;
        rest = after;
    }
    Ok(rest)
}

/// Appends that all records are gone.
fn append_all_gone(changed: &mut Vec<Changed>, old: &[(Key, Shown)]) -> Result<(), NoMemory>
    ensures { OnOk result (changed.new.items ≡ changed.old.items ++ map gone old.now) }
{
    'rows: for row in old {
        changed.push(gone(row)?)?;
    }
    Ok(())
}

/// The first record and the others, where the first has a key.
fn first_at<'a>(
    rows: &'a [(Key, Shown)],
    key: &Key,
) -> Option<(&'a (Key, Shown), &'a [(Key, Shown)])>
    ensures { MatchOption result (starts_with key.now rows.now ≡ false) (λ found. (rows.now ≡ found.0.now ∷ found.1.now) × (starts_with key.now rows.now ≡ true)) }
{
    let (row, after) = rows.split_first()?;
    if same_key(&row.0, key) {
        Some((row, after))
    } else {
        None
    }
}

/// Appends what is shown of a key before and after, where that isn't the same.
fn append_other(
    changed: &mut Vec<Changed>,
    before: &Shown,
    row: (Key, Shown),
) -> Result<(), NoMemory>
    ensures { OnOk result (changed.new.items ≡ changed.old.items ++ shown_otherwise before.now row) }
{
    let (key, shown) = row;
    if same_shown(before, &shown) {
        return Ok(());
    }
    changed.push(Changed {
        key,
        before: Some(before.copy()?),
        after: Some(shown),
    })?;
    Ok(())
}

/// Appends a record that wasn't there.
fn append_new(changed: &mut Vec<Changed>, row: (Key, Shown)) -> Result<(), NoMemory>
    ensures { OnOk result (changed.new.items ≡ changed.old.items ++ came row ∷ []) }
{
    let (key, shown) = row;
    changed.push(Changed {
        key,
        before: None,
        after: Some(shown),
    })?;
    Ok(())
}

/// Appends how a record is shown otherwise than the first of others, where that has its key, and gives the records
/// behind it.
fn append_at<'a>(
    changed: &mut Vec<Changed>,
    old: &'a [(Key, Shown)],
    row: (Key, Shown),
) -> Result<&'a [(Key, Shown)], NoMemory>
    ensures { IfOk result (λ rest. (changed.new.items ≡ changed.old.items ++ at_key row old.now) × (rest.now ≡ behind_key row.0 old.now)) }
{
    match first_at(old, &row.0) {
        Some((before, rest)) => {
            append_other(changed, &before.1, row)?;
            Ok(rest)
        }
        None => {
            append_new(changed, row)?;
            Ok(old)
        }
    }
}

/// Appends the keys of either list that are shown otherwise, in key order, with both values.
pub(crate) fn append_differences(
    changed: &mut Vec<Changed>,
    old: &[(Key, Shown)],
    new: Vec<(Key, Shown)>,
) -> Result<(), NoMemory>
    ensures { OnOk result (changed.new.items ≡ changed.old.items ++ differences old.now new.items) }
{
    let mut rest = old;
    'rows: for row in new {
        let from = append_gone(changed, rest, &row.0)?;
        let behind = append_at(changed, from, row)?;
        rest = behind;
    }
    append_all_gone(changed, rest)
}

/// The keys of either list that are shown otherwise, in key order, with both values.
pub(crate) fn differences(
    alloc: Global,
    old: &[(Key, Shown)],
    new: Vec<(Key, Shown)>,
) -> Result<Vec<Changed>, NoMemory>
    ensures { IfOk result (λ changed. changed.items ≡ differences old.now new.items) }
{
    let mut changed = Vec::new(alloc);
    append_differences(&mut changed, old, new)?;
    Ok(changed)
}
