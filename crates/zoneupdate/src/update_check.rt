//! The steps of the check of an update (RFC 2136, 3.2 to 3.4).

ghost use Rattle.std.specs.Prelude.{◌≡◌, List, true, map, fold, IfOk, IsTrue};
ghost use Rattle.dnsname.specs.Names.{Labels};
ghost use Rattle.rrset.specs.RecordSet.{is_record_set};
ghost use Rattle.zoneupdate.specs.Zones.{is_zone};
ghost use Rattle.zoneupdate.specs.Checking.{Plans};
ghost use Rattle.zoneupdate.specs.Updates.{changed_by, refused_first, with_risen_serial, is_within_limits, with_counted_ttl};
ghost use Rattle.zoneupdate.specs.KeptZones.{IsUnder};

use crate::agreeing::sets_agree;
use crate::changing::change_all;
use crate::differing::differences;
use crate::plan::{Under, ZonePlan};
use crate::planning::{is_within, touched};
use crate::prerequisites::prerequisites_refusal;
use crate::prescan::changes_refusal;
use crate::serial::raise_serial;
use crate::single::{planned_at, single_name};
use dnsname::Name;
use dnswire::Update;
use nametable::NameTable;
use rrset::rcodes::{NXRRSET, REFUSED};
use rrset::{NoMemory, Rrs, Table};
use std::alloc::Global;

/// What prerequisites, permission and prescan refuse an update with.
pub(crate) fn refused_first(
    alloc: Global,
    rows: &NameTable,
    apex: &Name,
    writable: bool,
    update: &Update,
    under: &Under,
) -> Result<Option<u8>, NoMemory>
    requires { IsTrue (is_record_set rows.now.rows) }
    ensures { IfOk result (λ code. (homes : List Labels) → IsUnder homes apex.now under.now → code ≡ refused_first homes (record { apex = apex.now; writable = writable; rows = rows.now.rows }) update.now) }
{
    if let Some(code) = prerequisites_refusal(rows, apex, under, &update.prereqs) {
        return Ok(Some(code));
    }
    if !sets_agree(alloc, &update.prereqs, rows)? {
        return Ok(Some(NXRRSET));
    }
    if !writable {
        return Ok(Some(REFUSED));
    }
    Ok(changes_refusal(apex, under, &update.changes))
}

/// The touched part of a zone after all changes.
fn changed_part(
    alloc: Global,
    before: &Table,
    apex: &Name,
    changes: &Rrs,
) -> Result<Table, NoMemory>
    requires { IsTrue (is_record_set before.now.rows) }
    ensures { IfOk result (λ work. work.rows ≡ with_risen_serial apex.now before.now.rows (fold (changed_by apex.now) before.now.rows (map with_counted_ttl changes.now))) }
{
    let mut work = before.copy()?;
    change_all(&mut work, apex, changes)?;
    raise_serial(alloc, apex, before, &mut work)?;
    Ok(work)
}

/// The keys that changes of any names show otherwise, or nothing where the zone would pass its limits.
fn planned_part(
    alloc: Global,
    rows: &NameTable,
    apex: &Name,
    changes: &Rrs,
) -> Result<Option<ZonePlan>, NoMemory>
    requires set { IsTrue (is_record_set rows.now.rows) }
    requires limits { IsTrue (is_within_limits rows.now.rows) }
    ensures { IfOk result (λ plan. Plans (record { apex = apex.now; writable = true; rows = rows.now.rows }) (map with_counted_ttl changes.now) plan) }
{
    let before = touched(alloc, rows, apex, changes)?;
    let work = changed_part(alloc, &before, apex, changes)?;
    if !is_within(rows.len(), &before, &work, apex, changes) {
        return Ok(None);
    }
    let changed = differences(alloc, before.entries(), work.into_entries())?;
    Ok(Some(ZonePlan { changed }))
}

/// The keys that changes show otherwise, or nothing where the zone would pass its limits.
pub(crate) fn planned(
    alloc: Global,
    rows: &NameTable,
    apex: &Name,
    changes: &Rrs,
) -> Result<Option<ZonePlan>, NoMemory>
    requires zone { IsTrue (is_zone (record { apex = apex.now; writable = true; rows = rows.now.rows })) }
    requires limits { IsTrue (is_within_limits rows.now.rows) }
    ensures { IfOk result (λ plan. Plans (record { apex = apex.now; writable = true; rows = rows.now.rows }) (map with_counted_ttl changes.now) plan) }
{
    match single_name(apex, changes) {
        Some(name) => planned_at(alloc, rows, apex, name, changes),
        None => planned_part(alloc, rows, apex, changes),
    }
}
