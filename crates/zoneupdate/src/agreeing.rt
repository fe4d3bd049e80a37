//! Whether the sets that prerequisites of class IN name are the zone's (RFC 2136, 3.2.3).

ghost use Rattle.std.specs.Prelude.{◌≡◌, ◌∷◌, ◌&&◌, [], map, filter, IfOk, IsTrue, MatchOption};
ghost use Rattle.std.specs.List.{list_all};
ghost use Rattle.rrset.specs.Records.{same_key, same_shown};
ghost use Rattle.rrset.specs.RecordSet.{only, set_of, same_keys, same_rows, is_record_set};
ghost use Rattle.zoneupdate.specs.Zones.{set_at};
ghost use Rattle.zoneupdate.specs.Checking.{is_in, is_of_kind, has_same_set, IsOfSameSet, LastAgrees};
ghost use Rattle.zoneupdate.specs.Updates.{sets_agree, with_counted_ttl};

use crate::changing::shown_of;
use crate::sets::{is_of_rrset, set_among};
use dnsname::Name;
use nametable::NameTable;
use rrset::classes::IN;
use rrset::{Key, NoMemory, Rr, Rrs, Shown, Table, same_key, same_shown};
use std::alloc::Global;

/// Whether a key has class IN and a kind.
pub(crate) fn is_of_kind(kind: u16, key: &Key) -> bool
    ensures { result ≡ is_of_kind kind key.now }
{
    (IN == key.class) & (kind == key.kind)
}

/// The first record of class IN and a kind, and the records after it.
fn next_of_kind(kind: u16, entries: &[(Key, Shown)]) -> Option<(&(Key, Shown), &[(Key, Shown)])>
    ensures { MatchOption result (only (is_of_kind kind) entries.now ≡ []) (λ found. only (is_of_kind kind) entries.now ≡ found.0.now ∷ only (is_of_kind kind) found.1.now) }
{
    let mut rest = entries;
    'entries: while let Some((entry, after)) = rest.split_first() {
        if is_of_kind(kind, &entry.0) {
            return Some((entry, after));
        }
        rest = after;
    }
    None
}

/// Whether the records of class IN and a kind have the same keys in two lists.
fn have_same_kind(kind: u16, first: &[(Key, Shown)], second: &[(Key, Shown)]) -> bool
    ensures { result ≡ same_keys (only (is_of_kind kind) first.now) (only (is_of_kind kind) second.now) }
{
    let mut others = second;
    'entries: for (key, _) in first {
        if is_of_kind(kind, key) {
            match next_of_kind(kind, others) {
                Some((other, rest)) if same_key(key, &other.0) => others = rest,
                _ => return false,
            }
        }
    }
    next_of_kind(kind, others).is_none()
}

/// Whether two records have one key and are shown the same.
fn same_row(first: &(Key, Shown), second: &(Key, Shown)) -> bool
    ensures { result ≡ (same_key first.now.0 second.now.0 && same_shown first.now.1 second.now.1) }
{
    same_key(&first.0, &second.0) && same_shown(&first.1, &second.1)
}

/// The first record of an owner and kind, and the records after it.
fn next_of_rrset<'a>(
    owner: &Name,
    kind: u16,
    entries: &'a [(Key, Shown)],
) -> Option<(&'a (Key, Shown), &'a [(Key, Shown)])>
    ensures { MatchOption result (set_at owner.now kind entries.now ≡ []) (λ found. set_at owner.now kind entries.now ≡ found.0.now ∷ set_at owner.now kind found.1.now) }
{
    let mut rest = entries;
    'entries: while let Some((entry, after)) = rest.split_first() {
        if is_of_rrset(owner, kind, &entry.0) {
            return Some((entry, after));
        }
        rest = after;
    }
    None
}

/// Whether the records of an owner and kind are the same in two lists.
pub(crate) fn have_same_rows(
    owner: &Name,
    kind: u16,
    first: &[(Key, Shown)],
    second: &[(Key, Shown)],
) -> bool
    ensures { result ≡ same_rows (set_at owner.now kind first.now) (set_at owner.now kind second.now) }
{
    let mut others = second;
    'entries: for entry in first {
        if is_of_rrset(owner, kind, &entry.0) {
            match next_of_rrset(owner, kind, others) {
                Some((other, rest)) if same_row(entry, other) => others = rest,
                _ => return false,
            }
        }
    }
    next_of_rrset(owner, kind, others).is_none()
}

/// Whether the set of a key's owner and kind has the same keys in two tables.
fn have_same_set(wanted: &Table, rows: &NameTable, key: &Key) -> bool
    requires { IsTrue (is_record_set rows.now.rows) }
    ensures { result ≡ has_same_set wanted.now.rows rows.now.rows key.now }
{
    let first = set_among(&key.owner, key.kind, wanted.entries());
    let second = set_among(&key.owner, key.kind, rows.at(&key.owner));
    have_same_kind(key.kind, first, second)
}

/// Whether a key is of the owner and kind of the first of some records.
fn is_of_same_set(last: &[(Key, Shown)], key: &Key) -> bool
    ensures { IsTrue result → IsOfSameSet last.now key.now }
{
    match last.split_first() {
        Some((entry, _)) => entry.0.kind == key.kind && entry.0.owner.same(&key.owner),
        None => false,
    }
}

/// Whether the set of a key's owner and kind has the same keys in two tables, where the set of the record before it has.
fn agrees_behind(last: &[(Key, Shown)], wanted: &Table, rows: &NameTable, key: &Key) -> bool
    requires set { IsTrue (is_record_set rows.now.rows) }
    requires last { LastAgrees wanted.now.rows rows.now.rows last.now }
    ensures { result ≡ has_same_set wanted.now.rows rows.now.rows key.now }
{
    if is_of_same_set(last, key) {
        return true;
    }
    have_same_set(wanted, rows, key)
}

/// Whether each set of a table has the same keys in another. Keys of one owner and kind stand together, so each set is
/// compared once.
fn all_have_same_set(wanted: &Table, rows: &NameTable) -> bool
    requires { IsTrue (is_record_set rows.now.rows) }
    ensures { result ≡ list_all (λ e. has_same_set wanted.now.rows rows.now.rows e.0) wanted.now.rows }
{
    let mut last: &[(Key, Shown)] = &[];
    let mut rest = wanted.entries();
    'sets: while let Some((entry, after)) = rest.split_first() {
        if !agrees_behind(last, wanted, rows, &entry.0) {
            return false;
        }
        last = rest;
        rest = after;
    }
    true
}

/// The records that prerequisites of class IN ask for.
fn wanted(alloc: Global, prereqs: &Rrs) -> Result<Table, NoMemory>
    ensures { IfOk result (λ table. table.rows ≡ set_of (filter is_in (map with_counted_ttl prereqs.now))) }
{
    let mut table = Table::new(alloc);
    'prereqs: for rr in prereqs.as_slice() {
        if rr.class == IN {
            table.put(rr.key()?, shown_of(rr)?)?;
        }
    }
    Ok(table)
}

/// Whether each set that prerequisites of class IN name is the zone's.
pub(crate) fn sets_agree(alloc: Global, prereqs: &Rrs, rows: &NameTable) -> Result<bool, NoMemory>
    requires { IsTrue (is_record_set rows.now.rows) }
    ensures { IfOk result (λ agree. agree ≡ sets_agree (map with_counted_ttl prereqs.now) rows.now.rows) }
{
    let wanted = wanted(alloc, prereqs)?;
    Ok(all_have_same_set(&wanted, rows))
}
