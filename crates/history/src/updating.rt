//! Updates of zones (RFC 2136, 3.1.1 and 3.1.2).

ghost use Rattle.std.specs.Prelude.{◌≡◌, ◌<◌, ◌++◌, ◌∷◌, [], ℕ, List, map, flat_map, filter, Some, Ok, Err, slice_get, length, IfOk, OnOk, MatchResult};
ghost use Rattle.dnsname.specs.Names.{Labels};
ghost use Rattle.linkcache.specs.Rows.{names_of};
ghost use Rattle.zoneupdate.specs.Updates.{judged};
ghost use Rattle.zoneupdate.specs.KeptZones.{ZoneKept, lies_under, IsUnder, Judges, HasRoom};
ghost use Rattle.history.specs.States.{zone_asked};
ghost use Rattle.history.specs.Kept.{states_at};
ghost use Rattle.history.specs.AtHome.{AreAtHome};
ghost use Rattle.history.specs.HeldPlans.{Checks, IsCheckReady};

use crate::zone_lists::position_of;
use dnsname::Name;
use dnswire::Update;
use linkcache::Cache;
use rrset::classes::IN;
use rrset::rcodes::{FORMERR, NOTAUTH};
use rrset::{NoMemory, Question, kinds};
use std::alloc::Global;
use zoneupdate::{Under, Verdict, Zone, ZonePlan};

/// What an update of zones gets: the RCODE that refuses it, or the zone that it changes, counted from 0, and the plan.
#[derive(Drop)]
pub(crate) enum Checked {
    /// This RCODE refuses it.
    Refuse(u8),
    /// The zone, and the plan.
    Accept(usize, ZonePlan),
}

/// The name of the one entry of the zone section, or the RCODE that refuses it (RFC 2136, 3.1.1).
fn zone_asked(zones: &[Question]) -> Result<&Name, u8>
    ensures { MatchResult result (λ name. zone_asked zones.now ≡ Ok name.now) (λ code. zone_asked zones.now ≡ Err code) }
{
    let [question] = zones else {
        return Err(FORMERR);
    };
    if question.kind != kinds::SOA {
        return Err(FORMERR);
    }
    if question.class != IN {
        return Err(NOTAUTH);
    }
    Ok(&question.name)
}

/// Whether a name lies under an apex, and isn't the same.
fn lies_under(apex: &Name, name: &Name) -> bool
    ensures { result ≡ lies_under apex.now name.now }
{
    // What lies under a name is longer, which is seen first.
    if name.octets().len() <= apex.octets().len() {
        return false;
    }
    name.ends_in(apex) && !name.same(apex)
}

/// Appends the names of the zones that lie under an apex.
fn put_zones_under(names: &mut Vec<Name>, zones: &[Zone], apex: &Name) -> Result<(), NoMemory>
    ensures { OnOk result (names.new.items ≡ names.old.items ++ filter (lies_under apex.now) (map (λ z. z.state.apex) zones.now)) }
{
    'zones: for zone in zones {
        put_under(names, zone.apex(), apex)?;
    }
    Ok(())
}

/// Appends a name if it lies under an apex.
fn put_under(names: &mut Vec<Name>, home: &Name, apex: &Name) -> Result<(), NoMemory>
    ensures { OnOk result (names.new.items ≡ names.old.items ++ filter (lies_under apex.now) (home.now ∷ [])) }
{
    if lies_under(apex, home) {
        names.push(home.copy()?)?;
    }
    Ok(())
}

/// Appends those of some names that lie under an apex.
fn put_all_under(names: &mut Vec<Name>, homes: &[Name], apex: &Name) -> Result<(), NoMemory>
    ensures { OnOk result (names.new.items ≡ names.old.items ++ filter (lies_under apex.now) homes.now) }
{
    'homes: for home in homes {
        put_under(names, home, apex)?;
    }
    Ok(())
}

/// Appends the domains and reverse domains of the links that lie under an apex.
fn put_links_under(names: &mut Vec<Name>, links: &[Cache], apex: &Name) -> Result<(), NoMemory>
    ensures { OnOk result (names.new.items ≡ names.old.items ++ filter (lies_under apex.now) (flat_map (λ l. names_of l.state.rules) links.now)) }
{
    'links: for link in links {
        put_under(names, link.domain(), apex)?;
        put_all_under(names, link.reverses(), apex)?;
    }
    Ok(())
}

/// The names of the homes that lie under an apex.
fn names_under(
    alloc: Global,
    zones: &[Zone],
    links: &[Cache],
    apex: &Name,
) -> Result<Vec<Name>, NoMemory>
    ensures { IfOk result (λ names. names.items ≡ filter (lies_under apex.now) (map (λ z. z.state.apex) zones.now ++ flat_map (λ l. names_of l.state.rules) links.now)) }
{
    let mut names = Vec::new(alloc);
    put_zones_under(&mut names, zones, apex)?;
    put_links_under(&mut names, links, apex)?;
    Ok(names)
}

/// The names of the homes that lie under one of some zones.
fn under_at(alloc: Global, zones: &[Zone], links: &[Cache], index: usize) -> Result<Under, NoMemory>
    requires { index < length zones.now }
    ensures { IfOk result (λ under. (zone : ZoneKept) → slice_get zones.now index ≡ Some zone → under ≡ filter (lies_under zone.state.apex) (map (λ z. z.state.apex) zones.now ++ flat_map (λ l. names_of l.state.rules) links.now)) }
{
    let names = names_under(alloc, zones, links, zones[index].apex())?;
    Ok(Under::from_vec(names))
}

/// What an update gets from a zone in which no plan is pending: names without records are given back, and room is made.
fn check_anew(
    alloc: Global,
    zone: &mut Zone,
    update: &Update,
    under: &Under,
) -> Result<Verdict, NoMemory>
    ensures verdict { IfOk result (λ verdict. (homes : List Labels) → IsUnder homes zone.old.state.apex under.now → Judges zone.old.state verdict (judged homes zone.old.state update.now)) }
    ensures state { zone.new.state ≡ zone.old.state }
    ensures room { IfOk result (HasRoom zone.new.nodes) }
{
    zone.give_back();
    zone.check(alloc, update, under)
}

/// What an update gets from one of some zones, in which no plan is pending.
fn check_at(
    alloc: Global,
    zones: &mut [Zone],
    index: usize,
    update: &Update,
    under: &Under,
) -> Result<Verdict, NoMemory>
    requires { index < length zones.old }
    ensures verdict { IfOk result (λ verdict. (zone : ZoneKept) (homes : List Labels) → slice_get zones.old index ≡ Some zone → IsUnder homes zone.state.apex under.now → Judges zone.state verdict (judged homes zone.state update.now)) }
    ensures states { map (λ z. z.state) zones.new ≡ map (λ z. z.state) zones.old }
    ensures room { IfOk result (λ verdict. (zone : ZoneKept) → slice_get zones.new index ≡ Some zone → HasRoom zone.nodes verdict) }
{
    check_anew(alloc, &mut zones[index], update, under)
}

/// What an update gets of zones beside links: the records stay, and room is made for the plan.
pub(crate) fn check_zones(
    alloc: Global,
    zones: &mut [Zone],
    links: &[Cache],
    update: &Update,
) -> Result<Checked, NoMemory>
    ensures checked { IfOk result (λ checked. (t : ℕ) → AreAtHome (states_at zones.old links.now t) → Checks (states_at zones.old links.now t) update.now checked) }
    ensures states { map (λ z. z.state) zones.new ≡ map (λ z. z.state) zones.old }
    ensures room { IfOk result (IsCheckReady zones.new) }
{
    let apex = match zone_asked(update.zones.as_slice()) {
        Ok(apex) => apex,
        Err(code) => return Ok(Checked::Refuse(code)),
    };
    let Some(index) = position_of(zones, apex) else {
        return Ok(Checked::Refuse(NOTAUTH));
    };
    let under = under_at(alloc, zones, links, index)?;
    match check_at(alloc, zones, index, update, &under)? {
        Verdict::Refuse(code) => Ok(Checked::Refuse(code)),
        Verdict::Accept(plan) => Ok(Checked::Accept(index, plan)),
    }
}
