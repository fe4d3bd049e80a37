//! Zones one behind another, in the order in which they were added.

ghost use Rattle.std.specs.Prelude.{◌≡◌, map, fold, position, IfOk, OnOk, IsTrue, slice_get};
ghost use Rattle.std.specs.List.{AllByRecursion};
ghost use Rattle.push_base.specs.Cases.{changed_at};
ghost use Rattle.dnsname.specs.Names.{is_name, same_name};
ghost use Rattle.rrset.specs.RecordSet.{matching, union};
ghost use Rattle.rrset.specs.Records.{rr_of};
ghost use Rattle.history.specs.Longest.{IsLongest};
ghost use Rattle.history.specs.LinkSteps.{zone_rows};
ghost use Rattle.history.specs.HeldPlans.{IsZoneReady, zone_changed};

use crate::matching::names_matching;
use dnsname::Name;
use nametable::put_all_names;
use rrset::{NoMemory, Question, Rrs, Table};
use std::alloc::Global;
use zoneupdate::{Zone, ZonePlan};

/// The first of some zones that has a name.
pub(crate) fn position_of(zones: &[Zone], name: &Name) -> Option<usize>
    ensures { result ≡ position (λ z. same_name z.state.apex name.now) zones.now }
{
    zones.iter().position(|zone| zone.apex().same(name))
}

/// The zone with the longest name that a name ends in, and how many octets that has; 0 where there is none.
pub(crate) fn longest_zone(zones: &[Zone], name: &Name) -> (Option<usize>, usize)
    ensures { IsLongest (map (λ z. z.state.apex) zones.now) name.now result.0 result.1 }
{
    let mut best = None;
    let mut most = 0;
    'zones: for (index, zone) in zones.iter().enumerate() {
        let octets = zone.apex().octets().len();
        if octets > most && name.ends_in(zone.apex()) {
            best = Some(index);
            most = octets;
        }
    }
    (best, most)
}

/// Tells that the names of zones are names (RFC 1035, 3.1).
pub(crate) fn tell_zones(zones: &[Zone])
    ensures { AllByRecursion (λ z. IsTrue (is_name z.state.apex)) zones.now }
{
    'zones: for zone in zones {
        let _ = zone.apex().octets();
    }
}

/// How many rows some zones have.
pub(crate) fn rows_of_zones(zones: &[Zone]) -> usize {
    let mut rows: usize = 0;
    'zones: for zone in zones {
        rows = rows.saturating_add(zone.rows().len());
    }
    rows
}

/// The same zones.
pub(crate) fn copies_of_zones(alloc: Global, zones: &[Zone]) -> Result<Vec<Zone>, NoMemory>
    ensures { IfOk result (λ copy. map (λ z. z.state) copy.items ≡ map (λ z. z.state) zones.now) }
{
    let mut copy = Vec::with_capacity(alloc, zones.len())?;
    'zones: for zone in zones {
        copy.push(zone.copy()?)?;
    }
    Ok(copy)
}

/// Puts the records of all of some zones into a table.
pub(crate) fn put_all_rows(all: &mut Table, zones: &[Zone]) -> Result<(), NoMemory>
    ensures { OnOk result (all.new.rows ≡ fold union all.old.rows (map (λ z. z.state.rows) zones.now)) }
{
    'zones: for zone in zones {
        put_all_names(all, zone.rows())?;
    }
    Ok(())
}

/// The records of one of some zones that a question asks for. There are none where there is no such zone.
pub(crate) fn zone_matching(
    alloc: Global,
    zones: &[Zone],
    index: usize,
    question: &Question,
) -> Result<Rrs, NoMemory>
    ensures { IfOk result (λ rrs. rrs ≡ map (λ e. rr_of e.0 e.1) (matching question.now (zone_rows (slice_get zones.now index)))) }
{
    match zones.get(index) {
        Some(zone) => names_matching(alloc, zone.rows(), question),
        None => Ok(Rrs::new(alloc)),
    }
}

/// Makes the changes of a plan, which was made of these records, to one of some zones. It takes no memory.
pub(crate) fn apply_zone(zones: &mut [Zone], index: usize, plan: ZonePlan)
    requires { IsZoneReady (slice_get zones.old index) plan }
    ensures { map (λ z. z.state) zones.new ≡ changed_at index (zone_changed plan) (map (λ z. z.state) zones.old) }
{
    let _ = zones[index].rows();
    zones[index].apply(plan)
}
