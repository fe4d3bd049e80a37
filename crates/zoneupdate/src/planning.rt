//! The part of a zone that an update touches, and the limits of a zone.

ghost use Rattle.std.specs.Prelude.{◌≡◌, ◌≤◌, ◌+◌, ℕ, ◌&&◌, not, length, nat_le, IfOk, OnOk, IsTrue};
ghost use Rattle.std.specs.List.{list_all};
ghost use Rattle.push_base.specs.Cases.{is_empty};
ghost use Rattle.push_base.specs.Limits.{max_octets_at_name};
ghost use Rattle.rrset.specs.Records.{rr_of, rr_size};
ghost use Rattle.rrset.specs.RecordSet.{is_record_set, at_name, size_at, size_of, union};
ghost use Rattle.rrset.specs.Tables.{counted};
ghost use Rattle.rrset.specs.declared.record.Key.{Key};
ghost use Rattle.zoneupdate.specs.Updates.{max_zone_records};
ghost use Rattle.zoneupdate.specs.Touched.{part_of};
ghost use Rattle.zoneupdate.specs.Checking.{is_within};

use dnsname::Name;
use nametable::NameTable;
use push_base::limits::MAX_OCTETS_AT_NAME;
use rrset::{FIXED_FIELDS, Key, NoMemory, Rrs, Shown, Table, put_all};
use std::alloc::Global;

/// The most records of a zone.
const MAX_RECORDS: usize = 65_536;

/// Copies the records of a name from one table into another.
fn copy_name(part: &mut Table, rows: &NameTable, name: &Name) -> Result<(), NoMemory>
    requires { IsTrue (is_record_set rows.now.rows) }
    ensures { OnOk result (part.new.rows ≡ union part.old.rows (at_name name.now rows.now.rows)) }
{
    put_all(part, rows.at(name))
}

/// Whether a part has records of a name.
fn has_name(part: &Table, owner: &Name) -> bool
    ensures { result ≡ not (is_empty (at_name owner.now part.now.rows)) }
{
    !part.at(owner).is_empty()
}

/// The records of the apex, and those of each name that a change names.
pub(crate) fn touched(
    alloc: Global,
    rows: &NameTable,
    apex: &Name,
    changes: &Rrs,
) -> Result<Table, NoMemory>
    requires { IsTrue (is_record_set rows.now.rows) }
    ensures { IfOk result (λ part. part.rows ≡ part_of apex.now changes.now rows.now.rows) }
{
    let mut part = Table::new(alloc);
    copy_name(&mut part, rows, apex)?;
    'changes: for rr in changes.as_slice() {
        if !has_name(&part, &rr.owner) {
            copy_name(&mut part, rows, &rr.owner)?;
        }
    }
    Ok(part)
}

/// Whether a zone has few enough records where a part of it has gone from `before` to `after` records.
pub(crate) fn are_few(rows: usize, before: usize, after: usize) -> bool
    requires few { rows ≤ max_zone_records }
    requires part { before ≤ rows }
    ensures { (all : ℕ) → all + before ≡ rows + after → result ≡ nat_le all max_zone_records }
{
    after <= before + (MAX_RECORDS - rows)
}

/// The octets of what is shown, as a record (RFC 1035, 3.2.1).
fn size_of_shown(shown: &Shown) -> u64
    ensures { (key : Key) → result ≡ rr_size (rr_of key shown.now) }
{
    let owner = shown.owner.octets().len() as u64;
    let rdata = shown.rdata.as_slice().len() as u64;
    owner + FIXED_FIELDS + rdata
}

/// The octets of all records, or the greatest number of 64 bits where they are more.
pub(crate) fn size_of(entries: &[(Key, Shown)]) -> u64
    ensures { result ≡ counted (size_of entries.now) }
{
    let mut size: u64 = 0;
    'entries: for entry in entries {
        size = size.saturating_add(size_of_shown(&entry.1));
    }
    size
}

/// Whether all records of a table together have as few octets as those of a name may have.
pub(crate) fn is_light(work: &Table) -> bool
    ensures { result ≡ nat_le (size_of work.now.rows) max_octets_at_name }
{
    size_of(work.entries()) <= MAX_OCTETS_AT_NAME
}

/// Whether the records of a name have few enough octets.
fn fits_at(work: &Table, name: &Name) -> bool
    ensures { result ≡ nat_le (size_at name.now work.now.rows) max_octets_at_name }
{
    work.size_at(name) <= MAX_OCTETS_AT_NAME
}

/// Whether the records of each name that a change names have few enough octets.
fn changes_fit(work: &Table, changes: &Rrs) -> bool
    ensures { result ≡ list_all (λ rr. nat_le (size_at rr.owner work.now.rows) max_octets_at_name) changes.now }
{
    'changes: for rr in changes.as_slice() {
        if !fits_at(work, &rr.owner) {
            return false;
        }
    }
    true
}

/// Whether the records of the apex, and those of each name that a change names, have few enough octets. Where all of
/// them together are as few, no name is looked at.
fn all_fit(work: &Table, apex: &Name, changes: &Rrs) -> bool
    ensures { result ≡ (nat_le (size_at apex.now work.now.rows) max_octets_at_name && list_all (λ rr. nat_le (size_at rr.owner work.now.rows) max_octets_at_name) changes.now) }
{
    if is_light(work) {
        return true;
    }
    fits_at(work, apex) && changes_fit(work, changes)
}

/// Whether a zone with so many records stays within its limits, where the touched part of it has changed.
pub(crate) fn is_within(
    rows: usize,
    before: &Table,
    work: &Table,
    apex: &Name,
    changes: &Rrs,
) -> bool
    requires few { rows ≤ max_zone_records }
    requires part { length before.now.rows ≤ rows }
    ensures { (all : ℕ) → all + length before.now.rows ≡ rows + length work.now.rows → result ≡ is_within all apex.now changes.now work.now.rows }
{
    are_few(rows, before.len(), work.len()) && all_fit(work, apex, changes)
}
