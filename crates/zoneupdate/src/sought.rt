//! The records of a name that changes look at, where these are few beside them.

ghost use Rattle.std.specs.Prelude.{◌≡◌, [], List, map, fold, IfOk, OnOk, MatchOption, IsTrue};
ghost use Rattle.std.specs.List.{list_all};
ghost use Rattle.dnsname.specs.Names.{Labels};
ghost use Rattle.rrset.specs.KeyedRows.{is_rising};
ghost use Rattle.rrset.specs.RecordSet.{at_name, is_record_set};
ghost use Rattle.rrset.specs.Tables.{HaveLowerOwners};
ghost use Rattle.rrset.specs.declared.record.Rr.{Rr};
ghost use Rattle.zoneupdate.specs.Updates.{with_counted_ttl};
ghost use Rattle.zoneupdate.specs.Singles.{is_single, is_plain, seeks, with_record_of, IsPartFor};

use crate::changing::key_in_zone;
use crate::prerequisites::has_set;
use dnsname::Name;
use nametable::NameTable;
use rrset::classes::{IN, NONE};
use rrset::kinds::{CNAME, SOA};
use rrset::{Key, NoMemory, Rr, Rrs, Shown, Table};
use std::alloc::Global;

/// Where a name has so many records for each change, those that the changes look at are sought one by one.
const ROWS_PER_CHANGE: usize = 4;

/// Puts the record of a change, where it is there, beside others.
fn put_there(part: &mut Table, rows: &NameTable, rr: &Rr) -> Result<(), NoMemory>
    ensures { OnOk result (part.new.rows ≡ with_record_of rows.now.rows part.old.rows (with_counted_ttl rr.now)) }
{
    let key = key_in_zone(rr)?;
    match rows.get(&key) {
        Some(there) => {
            let shown = there.copy()?;
            part.put(key, shown)?;
            Ok(())
        }
        None => Ok(()),
    }
}

/// The records of changes that are there.
fn sought(alloc: Global, rows: &NameTable, changes: &Rrs) -> Result<Table, NoMemory>
    ensures { IfOk result (λ part. part.rows ≡ fold (with_record_of rows.now.rows) [] (map with_counted_ttl changes.now)) }
{
    let mut part = Table::new(alloc);
    'changes: for rr in changes.as_slice() {
        put_there(&mut part, rows, rr)?;
    }
    Ok(part)
}

/// Whether a change looks at no record but its own and an alias.
fn is_plain(rr: &Rr) -> bool
    ensures { result ≡ is_plain rr.now }
{
    (rr.class == IN || rr.class == NONE) && !(rr.kind == CNAME) && !(rr.kind == SOA)
}

/// Whether all changes do so.
fn are_plain(changes: &[Rr]) -> bool
    ensures { result ≡ list_all is_plain changes.now }
{
    changes.iter().all(|rr| is_plain(rr))
}

/// Whether all changes are plain, and the name is no alias.
fn seeks(rows: &NameTable, name: &Name, changes: &Rrs) -> bool
    requires { IsTrue (is_record_set rows.now.rows) }
    ensures { result ≡ seeks name.now rows.now.rows changes.now }
{
    are_plain(changes.as_slice()) && !has_set(rows, name, CNAME)
}

/// Whether a name has many records for each change.
fn has_many(named: &[(Key, Shown)], changes: &Rrs) -> bool {
    changes.len() <= named.len() / ROWS_PER_CHANGE
}

/// The records that changes of one name look at, where these are few beside all of the name.
pub(crate) fn sought_for(
    alloc: Global,
    rows: &NameTable,
    name: &Name,
    changes: &Rrs,
) -> Result<Option<Table>, NoMemory>
    requires { IsTrue (is_record_set rows.now.rows) }
    ensures { IfOk result (λ sought. MatchOption sought (Unit {0}) (λ part. (apex : Labels) → IsTrue (is_single apex name.now changes.now) → IsPartFor apex (map with_counted_ttl changes.now) (at_name name.now rows.now.rows) part.rows)) }
{
    if !has_many(rows.at(name), changes) {
        return Ok(None);
    }
    if !seeks(rows, name, changes) {
        return Ok(None);
    }
    let part = sought(alloc, rows, changes)?;
    Ok(Some(part))
}

/// The records that were sought, or all of a name.
pub(crate) fn part_of<'a>(
    sought: &'a Option<Table>,
    named: &'a [(Key, Shown)],
) -> &'a [(Key, Shown)]
    requires order { IsTrue (is_rising named.now) }
    requires lower { HaveLowerOwners named.now }
    ensures order { IsTrue (is_rising result.now) }
    ensures lower { HaveLowerOwners result.now }
    ensures part { (apex : Labels) (changes : List Rr) → MatchOption sought.now (Unit {0}) (λ part. IsPartFor apex changes named.now part.rows) → IsPartFor apex changes named.now result.now }
{
    match sought {
        Some(part) => part.entries(),
        None => named,
    }
}
