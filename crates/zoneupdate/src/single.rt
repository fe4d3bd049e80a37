//! What an update of one name is planned to change, where that isn't the apex: of the apex's records the SOA alone is
//! copied.

ghost use Rattle.std.specs.Prelude.{◌≡◌, ◌≤◌, ◌+◌, ◌++◌, ℕ, true, map, fold, length, nat_le, IfOk, OnOk, MatchOption, IsTrue};
ghost use Rattle.std.specs.List.{AllByRecursion, list_all};
ghost use Rattle.push_base.specs.Limits.{max_octets_at_name};
ghost use Rattle.dnsname.specs.Names.{same_name};
ghost use Rattle.rrset.specs.KeyedRows.{is_rising};
ghost use Rattle.rrset.specs.RecordSet.{size_of};
ghost use Rattle.rrset.specs.Tables.{HaveLowerOwners};
ghost use Rattle.zoneupdate.specs.Zones.{is_zone, set_at};
ghost use Rattle.zoneupdate.specs.Checking.{Plans};
ghost use Rattle.zoneupdate.specs.Changing.{risen_rdata};
ghost use Rattle.zoneupdate.specs.Singles.{RisesAlike, changes_beside, is_before, is_single, is_within_part};
ghost use Rattle.zoneupdate.specs.Updates.{changed_by, is_within_limits, max_zone_records, with_counted_ttl};

use crate::changing::change_all;
use crate::differing::append_differences;
use crate::plan::ZonePlan;
use crate::planning::{are_few, size_of};
use crate::serial::risen_entries;
use crate::sets::is_of_rrset;
use crate::sought::{part_of, sought_for};
use dnsname::Name;
use nametable::NameTable;
use push_base::limits::MAX_OCTETS_AT_NAME;
use rrset::kinds::SOA;
use rrset::{Changed, Key, NoMemory, Rr, Rrs, Shown, Table, same_rows};
use std::alloc::Global;

/// Whether all records have this owner.
fn all_have_owner(rrs: &[Rr], name: &Name) -> bool
    ensures { result ≡ list_all (λ rr. same_name name.now rr.owner) rrs.now }
{
    rrs.iter().all(|rr| name.same(&rr.owner))
}

/// Whether changes are of this name alone, and it isn't the apex.
fn is_single(apex: &Name, name: &Name, changes: &Rrs) -> bool
    ensures { result ≡ is_single apex.now name.now changes.now }
{
    !name.same(apex) && all_have_owner(changes.as_slice(), name)
}

/// The only name that changes name, where it isn't the apex.
pub(crate) fn single_name<'a>(apex: &Name, changes: &'a Rrs) -> Option<&'a Name>
    ensures { MatchOption result (Unit {0}) (λ name. IsTrue (is_single apex.now name.now changes.now)) }
{
    let rr = changes.as_slice().first()?;
    if is_single(apex, &rr.owner, changes) {
        Some(&rr.owner)
    } else {
        None
    }
}

/// Copies of records, with room for one more.
fn copied(alloc: Global, rows: &[(Key, Shown)]) -> Result<Vec<(Key, Shown)>, NoMemory>
    ensures { IfOk result (λ entries. entries.items ≡ rows.now) }
{
    let mut entries = Vec::with_capacity(alloc, rows.len().saturating_add(1))?;
    'rows: for row in rows {
        let key = row.0.copy()?;
        let shown = row.1.copy()?;
        entries.push((key, shown))?;
    }
    Ok(entries)
}

/// The records of a name after all changes.
fn changed_rows(
    alloc: Global,
    before: &[(Key, Shown)],
    apex: &Name,
    changes: &Rrs,
) -> Result<Table, NoMemory>
    requires order { IsTrue (is_rising before.now) }
    requires lower { HaveLowerOwners before.now }
    ensures { IfOk result (λ work. work.rows ≡ fold (changed_by apex.now) before.now (map with_counted_ttl changes.now)) }
{
    let entries = copied(alloc, before)?;
    let mut work = Table::from_entries(entries);
    change_all(&mut work, apex, changes)?;
    Ok(work)
}

/// The one SOA of a name among its records.
fn soa_among<'a>(name: &Name, rows: &'a [(Key, Shown)]) -> &'a [(Key, Shown)]
    requires { length (set_at name.now 6 rows.now) ≡ 1 }
    ensures { result.now ≡ set_at name.now 6 rows.now }
{
    let mut rest = rows;
    'rows: while let Some((entry, after)) = rest.split_first() {
        if is_of_rrset(name, SOA, &entry.0) {
            let (soa, _) = rest.split_at(1);
            return soa;
        }
        rest = after;
    }
    rest
}

/// Whether the first of some records comes before those of a name, or there is none.
fn comes_before(rows: &[(Key, Shown)], name: &Name) -> bool
    ensures { result ≡ is_before name.now rows.now }
{
    match rows.split_first() {
        Some((row, _)) => row.0.owner.compare_with_lower(name).is_lt(),
        None => true,
    }
}

/// The next serial leaves how long rdata is.
fn rises_alike(rdata: &[u8])
    ensures { length (risen_rdata rdata.now) ≡ length rdata.now }
{}

/// The next serial leaves how long an SOA is.
fn rise_alike(soas: &[(Key, Shown)])
    requires { length soas.now ≡ 1 }
    ensures { AllByRecursion RisesAlike soas.now }
{
    if let Some((soa, _)) = soas.split_first() {
        rises_alike(soa.1.rdata.as_slice());
    }
}

/// What is shown otherwise at a name, and beside it an SOA with the next serial.
fn changed_beside(
    alloc: Global,
    name: &Name,
    soas: &[(Key, Shown)],
    before: &[(Key, Shown)],
    work: Vec<(Key, Shown)>,
) -> Result<Vec<Changed>, NoMemory>
    ensures { IfOk result (λ changed. changed.items ≡ changes_beside name.now soas.now before.now work.items) }
{
    let mut changed = Vec::new(alloc);
    let risen = risen_entries(alloc, soas)?;
    if comes_before(soas, name) {
        append_differences(&mut changed, soas, risen)?;
        append_differences(&mut changed, before, work)?;
    } else {
        append_differences(&mut changed, before, work)?;
        append_differences(&mut changed, soas, risen)?;
    }
    Ok(changed)
}

/// Whether a name's records have few enough octets, where a part of them has changed.
fn is_light_with(named: &[(Key, Shown)], part: &[(Key, Shown)], work: &Table) -> bool
    requires light { size_of named.now ≤ max_octets_at_name }
    requires less { size_of part.now ≤ size_of named.now }
    ensures { result ≡ nat_le (size_of work.now.rows + size_of named.now) (max_octets_at_name + size_of part.now) }
{
    let others = size_of(named) - size_of(part);
    size_of(work.entries()) <= MAX_OCTETS_AT_NAME - others
}

/// Whether a zone stays within its limits, where a part of a name's records has changed.
fn is_within_part(rows: usize, named: &[(Key, Shown)], part: &[(Key, Shown)], work: &Table) -> bool
    requires few { rows ≤ max_zone_records }
    requires part { length part.now ≤ rows }
    requires light { size_of named.now ≤ max_octets_at_name }
    requires less { size_of part.now ≤ size_of named.now }
    ensures { (all : ℕ) → all + length part.now ≡ rows + length work.now.rows → result ≡ is_within_part all named.now part.now work.now.rows }
{
    are_few(rows, part.len(), work.len()) && is_light_with(named, part, work)
}

/// The keys that changes of one name show otherwise, or nothing where the zone would pass its limits.
pub(crate) fn planned_at(
    alloc: Global,
    rows: &NameTable,
    apex: &Name,
    name: &Name,
    changes: &Rrs,
) -> Result<Option<ZonePlan>, NoMemory>
    requires zone { IsTrue (is_zone (record { apex = apex.now; writable = true; rows = rows.now.rows })) }
    requires limits { IsTrue (is_within_limits rows.now.rows) }
    requires single { IsTrue (is_single apex.now name.now changes.now) }
    ensures { IfOk result (λ plan. Plans (record { apex = apex.now; writable = true; rows = rows.now.rows }) (map with_counted_ttl changes.now) plan) }
{
    let named = rows.at(name);
    let sought = sought_for(alloc, rows, name, changes)?;
    let before = part_of(&sought, named);
    let work = changed_rows(alloc, before, apex, changes)?;
    if same_rows(before, work.entries()) {
        return Ok(Some(ZonePlan::of_nothing(alloc)));
    }
    let soas = soa_among(apex, rows.at(apex));
    rise_alike(soas);
    if !is_within_part(rows.len(), named, before, &work) {
        return Ok(None);
    }
    let changed = changed_beside(alloc, name, soas, before, work.into_entries())?;
    Ok(Some(ZonePlan { changed }))
}
