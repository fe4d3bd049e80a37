//! What a hearing makes of rows (RFC 6762, 10 to 10.2).

ghost use Rattle.std.specs.Prelude.{◌≡◌, ◌≤◌, ◌<◌, ◌+◌, ◌^◌, ◌&&◌, ◌==◌, [], true, not, cond, length, filter, fold, nat_lt, is_some, IfOk, OnOk, IsTrue};
ghost use Rattle.std.specs.List.{list_any};
ghost use Rattle.push_base.specs.Cases.{is_empty};
ghost use Rattle.push_base.specs.Limits.{max_moment};
ghost use Rattle.rrset.specs.KeyedRows.{is_rising, row_at};
ghost use Rattle.rrset.specs.RecordSet.{is_of_rrset};
ghost use Rattle.rrset.specs.Tables.{HasLowerOwner, HaveLowerOwners};
ghost use Rattle.reversemap.specs.BothKinds.{is_used};
ghost use Rattle.linkcache.specs.Flushed.{AreFlushed, set_key};
ghost use Rattle.linkcache.specs.Parts.{laid, with_flushed};
ghost use Rattle.linkcache.specs.Rows.{second, ending_by, flushed_by, has_key, heard, heard_at, is_of_set, put_heard, ttl_of, usable_of};
ghost use Rattle.linkcache.specs.Sound.{AreLinkRows};
ghost use Rattle.linkcache.specs.Taking.{IsTaken};
ghost use Rattle.linkcache.specs.declared.row.HeardRow.{HeardRow};

use crate::kinds::usable;
use crate::laying::{end_row, is_over, put_over};
use crate::room::{Taken, may_stand, taken_by};
use crate::row::{HeardRow, SECOND, ended_by};
use crate::rules::LinkRules;
use nametable::NameTable;
use push_base::Octets;
use rrset::{Copied, HeardRr, Key, NoMemory, Rr, Table, counted_ttl};
use std::alloc::Global;

/// The row of a record that is heard now.
fn heard_at(now: u64, heard: &HeardRr) -> Result<HeardRow, NoMemory>
    requires { now ≤ max_moment }
    ensures { IfOk result (λ row. row ≡ heard_at now heard.now) }
{
    let ttl = u64::from(counted_ttl(heard.rr.ttl));
    Ok(HeardRow {
        shown: heard.rr.shown()?,
        heard: now,
        ends: now + SECOND * ttl,
    })
}

/// Whether a record is taken back (RFC 6762, 10.1).
fn is_goodbye(heard: &HeardRr) -> bool
    ensures { result ≡ (ttl_of heard.now == 0) }
{
    counted_ttl(heard.rr.ttl) == 0
}

/// Puts a record with its TTL, if it may stand, or lets it go after a second where its TTL is 0.
fn put_heard(
    alloc: Global,
    rules: &LinkRules,
    rows: &NameTable<HeardRow>,
    now: u64,
    over: &mut Table<HeardRow>,
    taken: &mut Taken,
    heard: &HeardRr,
) -> Result<(), NoMemory>
    requires moment { now ≤ max_moment }
    requires order { IsTrue (is_rising rows.now.rows) }
    requires rows { AreLinkRows rules.now rows.now.rows }
    requires later { AreLinkRows rules.now (laid over.old.rows rows.now.rows) }
    requires usable { is_used rules.now.domain rules.now.reverses heard.now.rr ≡ true }
    requires taken { IsTaken rules.now (laid over.old.rows rows.now.rows) taken.old.rows taken.old.sizes.rows }
    ensures rows { OnOk result (laid over.new.rows rows.now.rows ≡ put_heard rules.now now 0 (laid over.old.rows rows.now.rows) heard.now) }
    ensures taken { OnOk result (IsTaken rules.now (laid over.new.rows rows.now.rows) taken.new.rows taken.new.sizes.rows) }
{
    let key = heard.rr.key()?;
    if is_goodbye(heard) {
        end_row(rows, over, &key, now + SECOND)?;
        return Ok(());
    }
    let may = may_stand(alloc, rules, rows, over, taken, &key, heard)?;
    if !may {
        return Ok(());
    }
    put_over(over, key, heard_at(now, heard)?)?;
    Ok(())
}

/// The first pass of a hearing: puts each usable record.
fn put_usable(
    alloc: Global,
    rules: &LinkRules,
    rows: &NameTable<HeardRow>,
    now: u64,
    over: &mut Table<HeardRow>,
    hearing: &[HeardRr],
) -> Result<(), NoMemory>
    requires moment { now ≤ max_moment }
    requires count { length rows.now.rows < 2 ^ 64 }
    requires order { IsTrue (is_rising rows.now.rows) }
    requires rows { AreLinkRows rules.now rows.now.rows }
    requires none { over.old.rows ≡ [] }
    ensures { OnOk result (laid over.new.rows rows.now.rows ≡ fold (put_heard rules.now now 0) (laid over.old.rows rows.now.rows) (usable_of rules.now hearing.now)) }
{
    let mut taken = taken_by(alloc, rows);
    'hearing: for heard in hearing {
        if usable(rules, &heard.rr) {
            put_heard(alloc, rules, rows, now, over, &mut taken, heard)?;
        }
    }
    Ok(())
}

/// Whether a key is one of a record's RRset.
fn is_of_set(rr: &Rr, key: &Key) -> bool
    ensures { result ≡ is_of_rrset rr.now.owner rr.now.class rr.now.kind key.now }
{
    rr.owner.same(&key.owner) && rr.class == key.class && rr.kind == key.kind
}

/// Whether more than a second has passed since a moment.
fn is_long_ago(moment: u64, now: u64) -> bool
    ensures { result ≡ nat_lt (moment + second) now }
{
    moment.saturating_add(SECOND) < now
}

/// Whether a row is of a record's RRset and was heard more than a second ago.
fn is_old(now: u64, rr: &Rr, key: &Key, row: &HeardRow) -> bool
    ensures { result ≡ (is_of_set rr.now (key.now, row.now) && nat_lt (row.now.heard + second) now) }
{
    if !is_long_ago(row.heard, now) {
        return false;
    }
    is_of_set(rr, key)
}

/// A row as the cache-flush bit of a record leaves it: one of its RRset that was heard more than a second ago goes after a
/// second.
fn flushed_row(now: u64, heard: &HeardRr, key: Key, row: HeardRow) -> (Key, HeardRow)
    requires { now ≤ max_moment }
    ensures { result ≡ cond (is_of_set heard.now.rr (key, row) && nat_lt (row.heard + second) now) (ending_by (now + second) (key, row)) (key, row) }
{
    if !is_old(now, &heard.rr, &key, &row) {
        return (key, row);
    }
    (key, ended_by(row, now + SECOND))
}

/// Rows as the cache-flush bit of a record leaves them.
fn flushed_rows(
    alloc: Global,
    now: u64,
    rows: Vec<(Key, HeardRow)>,
    heard: &HeardRr,
) -> Result<Vec<(Key, HeardRow)>, NoMemory>
    requires { now ≤ max_moment }
    ensures { IfOk result (λ later. later.items ≡ flushed_by now rows.items heard.now) }
{
    let mut later = Vec::new(alloc);
    'rows: for (key, row) in rows {
        later.push(flushed_row(now, heard, key, row))?;
    }
    Ok(later)
}

/// A table of rows as the cache-flush bit of a record leaves it.
fn flushed_table(
    alloc: Global,
    now: u64,
    over: Table<HeardRow>,
    heard: &HeardRr,
) -> Result<Table<HeardRow>, NoMemory>
    requires { now ≤ max_moment }
    ensures { IfOk result (λ later. later.rows ≡ flushed_by now over.rows heard.now) }
{
    let rows = flushed_rows(alloc, now, over.into_entries(), heard)?;
    Ok(Table::from_entries(rows))
}

/// Whether some row is of a record's RRset and was heard more than a second ago.
fn some_old(now: u64, rr: &Rr, rows: &[(Key, HeardRow)]) -> bool
    ensures { result ≡ list_any (λ row. is_of_set rr.now row && nat_lt (row.1.heard + second) now) rows.now }
{
    'rows: for (key, row) in rows {
        if is_old(now, rr, key, row) {
            return true;
        }
    }
    false
}

/// Rows that a hearing puts as the cache-flush bit of a record leaves them. Nothing is moved where none changes.
fn flushed_over(
    alloc: Global,
    now: u64,
    over: Table<HeardRow>,
    heard: &HeardRr,
) -> Result<Table<HeardRow>, NoMemory>
    requires { now ≤ max_moment }
    ensures { IfOk result (λ later. later.rows ≡ flushed_by now over.rows heard.now) }
{
    if !some_old(now, &heard.rr, over.at(&heard.rr.owner)) {
        return Ok(over);
    }
    flushed_table(alloc, now, over, heard)
}

/// Whether a row changes by the cache-flush bit of a record, and none of its key is over it.
fn is_flushed(now: u64, over: &Table<HeardRow>, heard: &HeardRr, key: &Key, row: &HeardRow) -> bool
    ensures { result ≡ ((is_of_set heard.now.rr (key.now, row.now) && nat_lt (row.now.heard + second) now) && not (has_key key.now over.now.rows)) }
{
    is_old(now, &heard.rr, key, row) && !is_over(over, key)
}

/// Puts a row as the cache-flush bit of a record leaves it over the others, where it changes and none of its key is there.
fn flush_row(
    now: u64,
    over: &mut Table<HeardRow>,
    heard: &HeardRr,
    key: &Key,
    row: &HeardRow,
) -> Result<(), NoMemory>
    requires moment { now ≤ max_moment }
    requires lower { HasLowerOwner key.now }
    ensures { OnOk result (over.new.rows ≡ with_flushed now heard.now over.old.rows (key.now, row.now)) }
{
    if is_flushed(now, over, heard, key, row) {
        over.put(key.copy()?, ended_by(row.copied()?, now + SECOND))?;
    }
    Ok(())
}

/// Puts rows as the cache-flush bit of a record leaves them over the others, of those that change and aren't there.
fn flush_rows(
    now: u64,
    over: &mut Table<HeardRow>,
    heard: &HeardRr,
    rows: &[(Key, HeardRow)],
) -> Result<(), NoMemory>
    requires moment { now ≤ max_moment }
    requires lower { HaveLowerOwners rows.now }
    ensures { OnOk result (over.new.rows ≡ fold (with_flushed now heard.now) over.old.rows rows.now) }
{
    'rows: for (key, row) in rows {
        flush_row(now, over, heard, key, row)?;
    }
    Ok(())
}

/// Rows over those of a link, as the cache-flush bit of a record leaves both.
fn flush(
    alloc: Global,
    rows: &NameTable<HeardRow>,
    now: u64,
    over: Table<HeardRow>,
    heard: &HeardRr,
) -> Result<Table<HeardRow>, NoMemory>
    requires moment { now ≤ max_moment }
    requires order { IsTrue (is_rising rows.now.rows) }
    requires lower { HaveLowerOwners rows.now.rows }
    ensures { IfOk result (λ later. laid later.rows rows.now.rows ≡ flushed_by now (laid over.rows rows.now.rows) heard.now) }
{
    let mut over = flushed_over(alloc, now, over, heard)?;
    flush_rows(now, &mut over, heard, rows.at(&heard.rr.owner))?;
    Ok(over)
}

/// Whether a record is usable and has the cache-flush bit.
fn is_flushing(rules: &LinkRules, heard: &HeardRr) -> bool
    ensures { result ≡ (heard.now.flush && is_used rules.now.domain rules.now.reverses heard.now.rr) }
{
    heard.flush && usable(rules, &heard.rr)
}

/// The key of a record's RRset, which has no rdata.
fn set_key(alloc: Global, rr: &Rr) -> Result<Key, NoMemory>
    ensures { IfOk result (λ key. key ≡ set_key rr.now) }
{
    Ok(Key {
        owner: rr.owner.lower()?,
        class: rr.class,
        kind: rr.kind,
        rdata: Octets::new(alloc),
    })
}

/// Whether an RRset is among some.
fn is_among(sets: &Table<()>, set: &Key) -> bool
    ensures { result ≡ is_some (row_at set.now sets.now.rows) }
{
    match sets.get(set) {
        Some(_) => true,
        None => false,
    }
}

/// Rows over those of a link, as the cache-flush bit of a record leaves both. Once its RRset was flushed nothing changes,
/// so the rows of a set are looked at once, however many records of it are heard.
fn flush_once(
    alloc: Global,
    rows: &NameTable<HeardRow>,
    now: u64,
    over: Table<HeardRow>,
    sets: &mut Table<()>,
    heard: &HeardRr,
) -> Result<Table<HeardRow>, NoMemory>
    requires moment { now ≤ max_moment }
    requires order { IsTrue (is_rising rows.now.rows) }
    requires lower { HaveLowerOwners rows.now.rows }
    requires sets { AreFlushed now sets.old.rows (laid over.rows rows.now.rows) }
    ensures rows { IfOk result (λ later. laid later.rows rows.now.rows ≡ flushed_by now (laid over.rows rows.now.rows) heard.now) }
    ensures sets { IfOk result (λ later. AreFlushed now sets.new.rows (laid later.rows rows.now.rows)) }
{
    let set = set_key(alloc, &heard.rr)?;
    if is_among(sets, &set) {
        return Ok(over);
    }
    sets.put(set, ())?;
    flush(alloc, rows, now, over, heard)
}

/// The second pass of a hearing: the cache-flush bit of each usable record.
fn flush_all(
    alloc: Global,
    rules: &LinkRules,
    rows: &NameTable<HeardRow>,
    now: u64,
    mut over: Table<HeardRow>,
    hearing: &[HeardRr],
) -> Result<Table<HeardRow>, NoMemory>
    requires moment { now ≤ max_moment }
    requires order { IsTrue (is_rising rows.now.rows) }
    requires lower { HaveLowerOwners rows.now.rows }
    ensures { IfOk result (λ later. laid later.rows rows.now.rows ≡ fold (flushed_by now) (laid over.rows rows.now.rows) (filter (λ h. h.flush) (usable_of rules.now hearing.now))) }
{
    let mut sets = Table::new(alloc);
    'hearing: for heard in hearing {
        if is_flushing(rules, heard) {
            over = flush_once(alloc, rows, now, over, &mut sets, heard)?;
        }
    }
    Ok(over)
}

/// The rows that a hearing puts over those of a link, in two passes.
pub(crate) fn heard(
    alloc: Global,
    rules: &LinkRules,
    rows: &NameTable<HeardRow>,
    now: u64,
    hearing: &[HeardRr],
) -> Result<Table<HeardRow>, NoMemory>
    requires moment { now ≤ max_moment }
    requires count { length rows.now.rows < 2 ^ 64 }
    requires order { IsTrue (is_rising rows.now.rows) }
    requires lower { HaveLowerOwners rows.now.rows }
    requires rows { AreLinkRows rules.now rows.now.rows }
    ensures { IfOk result (λ over. laid over.rows rows.now.rows ≡ heard rules.now rows.now.rows now hearing.now) }
{
    let mut over = Table::new(alloc);
    put_usable(alloc, rules, rows, now, &mut over, hearing)?;
    flush_all(alloc, rules, rows, now, over, hearing)
}

/// Whether some record can be used.
pub(crate) fn some_usable(rules: &LinkRules, hearing: &[HeardRr]) -> bool
    ensures { result ≡ not (is_empty (usable_of rules.now hearing.now)) }
{
    'hearing: for heard in hearing {
        if usable(rules, &heard.rr) {
            return true;
        }
    }
    false
}
