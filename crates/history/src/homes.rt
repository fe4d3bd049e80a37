//! The homes of names (RFC 1034, 4.2; RFC 8766, 5.4 and 5.5).

ghost use Rattle.std.specs.Prelude.{◌≡◌, ◌≤◌, ◌++◌, ◌∷◌, ℕ, [], map, None, Some, IfOk, IfSome, MatchOption, OnErr, OnOk, IsTrue, slice_get, option_map, option_and_then};
ghost use Rattle.std.specs.List.{AllByRecursion, AllZip};
ghost use Rattle.push_base.specs.Cases.{changed_at};
ghost use Rattle.push_base.specs.Limits.{max_moment};
ghost use Rattle.dnsname.specs.Names.{is_name};
ghost use Rattle.rrset.specs.RecordSet.{matching};
ghost use Rattle.rrset.specs.Records.{key_of, rr_of};
ghost use Rattle.linkcache.specs.Rows.{heard_by};
ghost use Rattle.history.specs.Homes.{home_fault};
ghost use Rattle.history.specs.States.{home_of, records, reconfirm_key, with_reverse};
ghost use Rattle.history.specs.Kept.{GivesFault, HasNoRow, at_moment, state_of, states_at};
ghost use Rattle.history.specs.declared.entry.HomeKind.TheVariants as kinds;
ghost use Rattle.history.specs.AtHome.{AreAtHome, homes_in};
ghost use Rattle.history.specs.LinkSteps.{EndsBy, StepsTo};
ghost use Rattle.history.specs.HeldPlans.{Checks, IsCheckReady, IsLinkReady, IsPlanIn, IsReady, led_to};

use crate::entry::{Entry, Home, HomeFault, HomeKind};
use crate::link_lists::{
    add_reverse_to, apply_link, apply_links, copies_of_links, link_matching, longest_link, moments,
    put_all_shown, rows_of_links, step_of, tell_links,
};
use crate::naming::{NamedHome, copies_of, fault_of, put_behind};
use crate::planning::HeldPlan;
use crate::updating::{Checked, check_zones};
use crate::zone_lists::{
    apply_zone, copies_of_zones, longest_zone, put_all_rows, rows_of_zones, tell_zones,
    zone_matching,
};
use dnsname::Name;
use dnswire::Update;
use linkcache::{Cache, HearPlan};
use rrset::{Key, NoMemory, Question, Rr, Rrs, Shown, Table};
use std::alloc::Global;
use std::marker::Model;
use zoneupdate::Zone;

/// Zones and links that stand apart, each in the order in which they were added, and the names of all in that order.
#[derive(Debug, Drop)]
pub struct Homes {
    pub(crate) zones: Vec<Zone>,
    pub(crate) links: Vec<Cache>,
    pub(crate) names: Vec<NamedHome>,
}

impl Model for Homes {
    ghost use Rattle.history.specs.Kept.{HomesKept};
    ghost use Rattle.history.specs.HeldPlans.{AreKept};

    ghost Value = { HomesKept };

    ghost view = { λ h. record { zones = h.zones.items; links = h.links.items; names = h.names.items } };

    ghost invariant = { λ h. AreKept (record { zones = h.zones.items; links = h.links.items; names = h.names.items }) };
}

/// All records of zones and links, in a table of their own.
fn united(alloc: Global, zones: &[Zone], links: &[Cache]) -> Result<Table, NoMemory>
    ensures { IfOk result (λ all. (t : ℕ) → all.rows ≡ records (states_at zones.now links.now t)) }
{
    let mut all = Table::new(alloc);
    put_all_rows(&mut all, zones)?;
    put_all_shown(alloc, &mut all, links)?;
    Ok(all)
}

/// Makes the changes of a plan, which was made of these zones and links at a moment, and gives the moment afterwards. It
/// takes no memory.
fn apply_plan(zones: &mut [Zone], links: &mut [Cache], moment: u64, plan: HeldPlan) -> u64
    requires { IsReady (record { zones = zones.old; links = links.old; names = [] }) plan }
    ensures { states_at zones.new links.new result ≡ led_to (states_at zones.old links.old moment) plan }
{
    match plan {
        HeldPlan::Zone(index, plan) => {
            apply_zone(zones, index, plan);
            moment
        }
        HeldPlan::Link(index, plan) => {
            apply_link(links, index, plan);
            moment
        }
        HeldPlan::Moment(later, plans) => {
            apply_links(links, plans);
            later
        }
    }
}

/// The key of the record that a link would have heard to show a record.
fn heard_key(alloc: Global, link: &Cache, rr: &Rr) -> Result<Option<Key>, NoMemory>
    ensures { IfOk result (λ key. key ≡ option_map key_of (heard_by link.now.state.rules rr.now)) }
{
    match link.heard_back(alloc, rr)? {
        Some(heard) => Ok(Some(heard.key()?)),
        None => Ok(None),
    }
}

/// The key of the record that one of some links would have heard to show a record, with the link.
fn heard_key_at(
    alloc: Global,
    links: &[Cache],
    index: usize,
    rr: &Rr,
) -> Result<Option<(usize, Key)>, NoMemory>
    ensures { IfOk result (λ found. found ≡ option_and_then (λ l. option_map (λ r. (index, key_of r)) (heard_by l.state.rules rr.now)) (slice_get links.now index)) }
{
    let Some(link) = links.get(index) else {
        return Ok(None);
    };
    match heard_key(alloc, link, rr)? {
        Some(key) => Ok(Some((index, key))),
        None => Ok(None),
    }
}

impl Homes {
    /// No homes.
    pub fn new(alloc: Global) -> Self
        ensures { result ≡ record { zones = []; links = []; names = [] } }
    {
        Homes {
            zones: Vec::new(alloc),
            links: Vec::new(alloc),
            names: Vec::new(alloc),
        }
    }

    /// The allocator of the homes.
    pub fn allocator(&self) -> Global {
        *self.zones.allocator()
    }

    /// Adds a zone behind the others. `Many`: there are 16 zones. `Long`: its name has more than 200 octets. `Clash(i)`:
    /// home i, counted from 0 in the order of adding, has the same name, or is a link's domain or a reverse domain under
    /// which the zone lies. These are tested in this order, before any memory is taken, so that they come always.
    pub fn add_zone(&mut self, zone: Zone) -> Result<(), HomeFault>
        ensures fault { GivesFault result (home_fault self.old.names (zone.state.apex, kinds.Zone)) }
        ensures ok { OnOk result (self.new ≡ record self.old { zones = self.old.zones ++ zone ∷ []; names = self.old.names ++ (zone.state.apex, kinds.Zone) ∷ [] }) }
        ensures none { OnErr result (self.new ≡ self.old) }
    {
        if let Some(fault) = fault_of(&self.names, zone.apex(), HomeKind::Zone) {
            return Err(fault);
        }
        self.zones.reserve(1)?;
        put_behind(&mut self.names, zone.apex(), HomeKind::Zone)?;
        self.zones.push_reserved(zone);
        Ok(())
    }

    /// Adds a link, which has heard nothing, behind the others, to be shown under this domain (RFC 8766, 5.5) with no TTL
    /// beyond the cap. `Many`: there are 16 links. `Long`: the domain has more than 200 octets. `Local`: it ends in
    /// `local.`. `Clash(i)`: home i, counted from 0 in the order of adding, has the same name, lies under the domain, or is
    /// a link's domain or a reverse domain under which the domain lies. These are tested in this order, before any memory
    /// is taken, so that they come always.
    pub fn add_link(&mut self, domain: Name, cap: u32) -> Result<(), HomeFault>
        ensures fault { GivesFault result (home_fault self.old.names (domain, kinds.Link)) }
        ensures ok { OnOk result (state_of self.new ≡ record (state_of self.old) { links = (state_of self.old).links ++ (record { rules = record { domain = domain; reverses = []; cap = cap }; rows = [] }) ∷ [] }) }
        ensures names { OnOk result (self.new.names ≡ self.old.names ++ (domain, kinds.Link) ∷ []) }
        ensures none { OnErr result (self.new ≡ self.old) }
    {
        if let Some(fault) = fault_of(&self.names, &domain, HomeKind::Link) {
            return Err(fault);
        }
        let alloc = self.allocator();
        self.links.reserve(1)?;
        put_behind(&mut self.names, &domain, HomeKind::Link)?;
        self.links.push_reserved(Cache::new(alloc, domain, cap));
        Ok(())
    }

    /// Adds a reverse domain (RFC 8766, 5.4) to a link that has heard nothing, behind its others. `Many`: the links have 16
    /// reverse domains. `Long`: the domain has more than 200 octets. `Form`: it ends neither in `in-addr.arpa.` nor in
    /// `ip6.arpa.`. `Clash(i)`: home i, counted from 0 in the order of adding, has the same name, lies under the domain, or
    /// is a link's domain or a reverse domain under which the domain lies. These are tested in this order, before any
    /// memory is taken, so that they come always.
    pub fn add_reverse(&mut self, link: usize, domain: Name) -> Result<(), HomeFault>
        requires { HasNoRow (slice_get (state_of self.old).links link) }
        ensures fault { GivesFault result (home_fault self.old.names (domain, kinds.Reverse)) }
        ensures ok { OnOk result (state_of self.new ≡ record (state_of self.old) { links = changed_at link (with_reverse domain) (state_of self.old).links }) }
        ensures names { OnOk result (self.new.names ≡ self.old.names ++ (domain, kinds.Reverse) ∷ []) }
        ensures none { OnErr result (self.new ≡ self.old) }
    {
        if let Some(fault) = fault_of(&self.names, &domain, HomeKind::Reverse) {
            return Err(fault);
        }
        let name = domain.copy()?;
        self.names.reserve(1)?;
        add_reverse_to(&mut self.links, link, domain)?;
        self.names.push_reserved((name, HomeKind::Reverse));
        Ok(())
    }

    /// Tells that the names of the homes are names (RFC 1035, 3.1).
    pub fn tell_names(&self)
        ensures { AllByRecursion (λ h. IsTrue (is_name h.0)) (homes_in (state_of self.now)) }
    {
        tell_zones(&self.zones);
        tell_links(&self.links);
    }

    /// The home of a name: the one with the longest name that it ends in. It takes no memory.
    pub fn home(&self, name: &Name) -> Option<Home>
        ensures { result ≡ home_of (state_of self.now) name.now }
    {
        let (zone, octets) = longest_zone(&self.zones, name);
        match longest_link(&self.links, name, octets) {
            Some(index) => Some(Home::Link(index)),
            None => Some(Home::Zone(zone?)),
        }
    }

    /// A zone, counted from 0.
    pub fn zone(&self, index: usize) -> Option<&Zone>
        ensures { MatchOption result (slice_get self.now.zones index ≡ None) (λ zone. slice_get self.now.zones index ≡ Some zone.now) }
    {
        self.zones.get(index)
    }

    /// A link, counted from 0.
    pub fn cache(&self, link: usize) -> Option<&Cache>
        ensures { MatchOption result (slice_get self.now.links link ≡ None) (λ cache. slice_get self.now.links link ≡ Some cache.now) }
    {
        self.links.get(link)
    }

    /// The same homes.
    pub fn copy(&self) -> Result<Homes, NoMemory>
        ensures state { IfOk result (λ homes. state_of homes ≡ state_of self.now) }
        ensures names { IfOk result (λ homes. homes.names ≡ self.now.names) }
    {
        let alloc = self.allocator();
        let zones = copies_of_zones(alloc, &self.zones)?;
        let links = copies_of_links(alloc, &self.links)?;
        let names = copies_of(alloc, &self.names)?;
        Ok(Homes {
            zones,
            links,
            names,
        })
    }

    /// How many rows all homes have.
    pub(crate) fn rows(&self) -> usize {
        rows_of_zones(&self.zones).saturating_add(rows_of_links(&self.links))
    }

    /// The link that is the home of a record's owner, and the key of what it would have heard to show the record.
    pub(crate) fn reconfirm_key(
        &self,
        alloc: Global,
        rr: &Rr,
    ) -> Result<Option<(usize, Key)>, NoMemory>
        ensures { IfOk result (λ found. (t : ℕ) → found ≡ reconfirm_key (at_moment self.now t) rr.now) }
    {
        match self.home(&rr.owner) {
            Some(Home::Link(index)) => heard_key_at(alloc, &self.links, index, rr),
            Some(Home::Zone(_)) => Ok(None),
            None => Ok(None),
        }
    }

    /// What an update gets. The records stay, and room is made for the plan.
    pub(crate) fn check(&mut self, alloc: Global, update: &Update) -> Result<Checked, NoMemory>
        ensures checked { IfOk result (λ checked. (t : ℕ) → AreAtHome (at_moment self.old t) → Checks (at_moment self.old t) update.now checked) }
        ensures state { state_of self.new ≡ state_of self.old }
        ensures names { self.new.names ≡ self.old.names }
        ensures room { IfOk result (IsCheckReady self.new.zones) }
    {
        check_zones(alloc, &mut self.zones, &self.links, update)
    }

    /// What an entry will change in the one link that it concerns; nothing where there is no such link, or it doesn't take
    /// the entry up. The rows stay, and room is made for the plan.
    pub(crate) fn step(
        &mut self,
        alloc: Global,
        moment: u64,
        link: usize,
        entry: &Entry,
    ) -> Result<Option<HearPlan>, NoMemory>
        requires { moment ≤ max_moment }
        ensures plan { IfOk result (λ plan. StepsTo entry.now moment (slice_get (state_of self.old).links link) plan) }
        ensures state { state_of self.new ≡ state_of self.old }
        ensures names { self.new.names ≡ self.old.names }
        ensures room { IfOk result (λ plan. IfSome plan (IsLinkReady (slice_get self.new.links link))) }
    {
        step_of(alloc, &mut self.links, link, moment, entry)
    }

    /// What a moment will change in each link. The rows stay, and room is made for the plans.
    pub(crate) fn moments(&mut self, alloc: Global, later: u64) -> Result<Vec<HearPlan>, NoMemory>
        ensures plans { IfOk result (λ plans. AllZip (EndsBy later) (state_of self.old).links plans.items) }
        ensures state { state_of self.new ≡ state_of self.old }
        ensures names { self.new.names ≡ self.old.names }
        ensures room { IfOk result (λ plans. AllZip IsPlanIn self.new.links plans.items) }
    {
        moments(alloc, &mut self.links, later)
    }

    /// Makes the changes of a plan, which was made of these homes at a moment, and gives the moment afterwards. It takes no
    /// memory.
    pub(crate) fn apply(&mut self, moment: u64, plan: HeldPlan) -> u64
        requires { IsReady self.old plan }
        ensures state { at_moment self.new result ≡ led_to (at_moment self.old moment) plan }
        ensures names { self.new.names ≡ self.old.names }
    {
        apply_plan(&mut self.zones, &mut self.links, moment, plan)
    }

    /// The records that a question asks for, in key order. It looks at the home of the question's name.
    pub(crate) fn matching(&self, alloc: Global, question: &Question) -> Result<Rrs, NoMemory>
        ensures { IfOk result (λ rrs. (t : ℕ) → AreAtHome (at_moment self.now t) → rrs ≡ map (λ e. rr_of e.0 e.1) (matching question.now (records (at_moment self.now t)))) }
    {
        match self.home(&question.name) {
            Some(Home::Zone(index)) => zone_matching(alloc, &self.zones, index, question),
            Some(Home::Link(index)) => link_matching(alloc, &self.links, index, question),
            None => Ok(Rrs::new(alloc)),
        }
    }

    /// All records in a table of their own.
    pub(crate) fn table(&self, alloc: Global) -> Result<Table, NoMemory>
        ensures { IfOk result (λ table. (t : ℕ) → table.rows ≡ records (at_moment self.now t)) }
    {
        united(alloc, &self.zones, &self.links)
    }

    /// All records, in key order.
    pub(crate) fn all(&self, alloc: Global) -> Result<Vec<(Key, Shown)>, NoMemory>
        ensures { IfOk result (λ all. (t : ℕ) → all.items ≡ records (at_moment self.now t)) }
    {
        let all = united(alloc, &self.zones, &self.links)?;
        Ok(all.into_entries())
    }
}
