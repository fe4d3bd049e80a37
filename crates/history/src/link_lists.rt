//! Links one behind another, in the order in which they were added.

ghost use Rattle.std.specs.Prelude.{◌≡◌, ◌≤◌, ◌<◌, ◌+◌, ◌∷◌, [], ℕ, List, Option, Some, map, fold, take, drop, length, IfOk, IfSome, OnErr, OnOk, IsTrue, slice_get};
ghost use Rattle.std.specs.List.{AllByRecursion, AllZip};
ghost use Rattle.push_base.specs.Cases.{changed_at};
ghost use Rattle.push_base.specs.Limits.{max_moment};
ghost use Rattle.dnsname.specs.Names.{Labels, is_name};
ghost use Rattle.rrset.specs.RecordSet.{matching, union};
ghost use Rattle.rrset.specs.Records.{rr_of};
ghost use Rattle.reversemap.specs.BothKinds.{IsApart};
ghost use Rattle.linkcache.specs.Links.{LinkKept, LinkState};
ghost use Rattle.linkcache.specs.Plans.{IsMomentPlan};
ghost use Rattle.linkcache.specs.Rows.{names_of, shown_rows};
ghost use Rattle.history.specs.Kept.{HasNoRow};
ghost use Rattle.history.specs.Longest.{IsHomeBehind, IsLongest, most_octets};
ghost use Rattle.history.specs.States.{with_reverse};
ghost use Rattle.history.specs.LinkSteps.{EndsBy, StepsIn, StepsTo, link_rows};
ghost use Rattle.history.specs.HeldPlans.{IsLinkReady, IsPlanIn, link_changed, links_changed};

use crate::entry::Entry;
use crate::matching::table_matching;
use crate::steps::step;
use dnsname::Name;
use linkcache::{Cache, HearPlan};
use rrset::{NoMemory, Question, Rrs, Table, put_all};
use std::alloc::Global;

/// How many octets a home has, where a name ends in it and they are more than a number; else that number.
fn octets_above(home: &Name, name: &Name, least: usize) -> usize
    ensures { result ≡ most_octets name.now least (home.now ∷ []) }
{
    let octets = home.octets().len();
    if octets > least && name.ends_in(home) {
        octets
    } else {
        least
    }
}

/// How many octets the longest of some homes has that a name ends in, and no fewer than a number.
fn most_octets(homes: &[Name], name: &Name, least: usize) -> usize
    ensures { result ≡ most_octets name.now least homes.now }
{
    let mut most = least;
    'homes: for home in homes {
        most = octets_above(home, name, most);
    }
    most
}

/// The same of the names of a link.
fn most_octets_of(link: &Cache, name: &Name, least: usize) -> usize
    ensures { result ≡ most_octets name.now least (names_of link.now.state.rules) }
{
    let most = octets_above(link.domain(), name, least);
    most_octets(link.reverses(), name, most)
}

/// The link with the longest domain or reverse domain that a name ends in, of those of more octets than a number; nothing
/// where there is none.
pub(crate) fn longest_link(links: &[Cache], name: &Name, more_than: usize) -> Option<usize>
    ensures { (before : List Labels) (best : Option ℕ) → IsLongest before name.now best more_than → IsHomeBehind before links.now name.now best result }
{
    let mut found = None;
    let mut most = more_than;
    'links: for (index, link) in links.iter().enumerate() {
        let octets = most_octets_of(link, name, most);
        if octets > most {
            found = Some(index);
            most = octets;
        }
    }
    found
}

/// Tells that the domains and reverse domains of links are names (RFC 1035, 3.1).
pub(crate) fn tell_links(links: &[Cache])
    ensures { AllByRecursion (λ l. AllByRecursion (λ n. IsTrue (is_name n)) (names_of l.state.rules)) links.now }
{
    'links: for link in links {
        let _ = link.rows();
    }
}

/// Adds a reverse domain to one of some links, which has heard nothing, and from whose domain it stands apart.
pub(crate) fn add_reverse_to(
    links: &mut [Cache],
    index: usize,
    domain: Name,
) -> Result<(), NoMemory>
    requires rows { HasNoRow (slice_get (map (λ l. l.state) links.old) index) }
    requires apart { (link : LinkState) → slice_get (map (λ l. l.state) links.old) index ≡ Some link → IsApart link.rules.domain domain }
    ensures ok { OnOk result (map (λ l. l.state) links.new ≡ changed_at index (with_reverse domain) (map (λ l. l.state) links.old)) }
    ensures err { OnErr result (links.new ≡ links.old) }
{
    links[index].add_reverse(domain)
}

/// How many rows some links have.
pub(crate) fn rows_of_links(links: &[Cache]) -> usize {
    let mut rows: usize = 0;
    'links: for link in links {
        rows = rows.saturating_add(link.rows().len());
    }
    rows
}

/// The same links.
pub(crate) fn copies_of_links(alloc: Global, links: &[Cache]) -> Result<Vec<Cache>, NoMemory>
    ensures { IfOk result (λ copy. map (λ l. l.state) copy.items ≡ map (λ l. l.state) links.now) }
{
    let mut copy = Vec::with_capacity(alloc, links.len())?;
    'links: for link in links {
        copy.push(link.copy(alloc)?)?;
    }
    Ok(copy)
}

/// Puts the records that all of some links show into a table.
pub(crate) fn put_all_shown(alloc: Global, all: &mut Table, links: &[Cache]) -> Result<(), NoMemory>
    ensures { OnOk result (all.new.rows ≡ fold union all.old.rows (map (λ l. shown_rows l.state.rules l.state.rows) links.now)) }
{
    'links: for link in links {
        let shown = link.shown(alloc)?;
        put_all(all, shown.entries())?;
    }
    Ok(())
}

/// The records that one of some links shows and a question asks for. There are none where there is no such link.
pub(crate) fn link_matching(
    alloc: Global,
    links: &[Cache],
    index: usize,
    question: &Question,
) -> Result<Rrs, NoMemory>
    ensures { IfOk result (λ rrs. rrs ≡ map (λ e. rr_of e.0 e.1) (matching question.now (link_rows (slice_get links.now index)))) }
{
    match links.get(index) {
        Some(link) => {
            let shown = link.shown(alloc)?;
            table_matching(alloc, &shown, question)
        }
        None => Ok(Rrs::new(alloc)),
    }
}

/// What an entry will change in one of some links.
fn step_at(
    alloc: Global,
    links: &mut [Cache],
    index: usize,
    now: u64,
    entry: &Entry,
) -> Result<Option<HearPlan>, NoMemory>
    requires within { index < length links.old }
    requires moment { now ≤ max_moment }
    ensures plan { IfOk result (λ plan. (link : LinkKept) → slice_get links.old index ≡ Some link → StepsIn entry.now now link.state plan) }
    ensures states { map (λ l. l.state) links.new ≡ map (λ l. l.state) links.old }
    ensures room { IfOk result (λ plan. IfSome plan (IsLinkReady (slice_get links.new index))) }
{
    step(alloc, &mut links[index], now, entry)
}

/// What an entry will change in one of some links; nothing where there is no such link, or it doesn't take the entry up.
/// The rows stay, and room is made for the plan.
pub(crate) fn step_of(
    alloc: Global,
    links: &mut [Cache],
    index: usize,
    now: u64,
    entry: &Entry,
) -> Result<Option<HearPlan>, NoMemory>
    requires { now ≤ max_moment }
    ensures plan { IfOk result (λ plan. StepsTo entry.now now (slice_get (map (λ l. l.state) links.old) index) plan) }
    ensures states { map (λ l. l.state) links.new ≡ map (λ l. l.state) links.old }
    ensures room { IfOk result (λ plan. IfSome plan (IsLinkReady (slice_get links.new index))) }
{
    if index >= links.len() {
        return Ok(None);
    }
    step_at(alloc, links, index, now, entry)
}

/// What a moment will change in one of some links.
fn moment_at(
    alloc: Global,
    links: &mut [Cache],
    index: usize,
    now: u64,
) -> Result<HearPlan, NoMemory>
    requires { index < length links.old }
    ensures plan { IfOk result (λ plan. (link : LinkKept) → slice_get links.old index ≡ Some link → EndsBy now link.state plan) }
    ensures states { map (λ l. l.state) links.new ≡ map (λ l. l.state) links.old }
    ensures room { IfOk result (IsLinkReady (slice_get links.new index)) }
    ensures front { take index links.new ≡ take index links.old }
{
    links[index].moment(alloc, now)
}

/// What a moment will change in each of some links. The rows stay, and room is made for the plans.
pub(crate) fn moments(
    alloc: Global,
    links: &mut [Cache],
    now: u64,
) -> Result<Vec<HearPlan>, NoMemory>
    ensures plans { IfOk result (λ plans. AllZip (EndsBy now) (map (λ l. l.state) links.old) plans.items) }
    ensures states { map (λ l. l.state) links.new ≡ map (λ l. l.state) links.old }
    ensures room { IfOk result (λ plans. AllZip IsPlanIn links.new plans.items) }
{
    let mut plans = Vec::new(alloc);
    'links: for index in 0..links.len() {
        plans.push(moment_at(alloc, links, index, now)?)?;
    }
    Ok(plans)
}

/// Makes the changes of a plan, which was made of these rows, to one of some links. It takes no memory.
pub(crate) fn apply_link(links: &mut [Cache], index: usize, plan: HearPlan)
    requires { IsLinkReady (slice_get links.old index) plan }
    ensures states { map (λ l. l.state) links.new ≡ changed_at index (link_changed plan) (map (λ l. l.state) links.old) }
    ensures behind { drop (index + 1) links.new ≡ drop (index + 1) links.old }
{
    links[index].apply(plan)
}

/// Makes the changes of plans, each of which was made of the rows of the link at its place. It takes no memory.
pub(crate) fn apply_links(links: &mut [Cache], plans: Vec<HearPlan>)
    requires { AllZip IsPlanIn links.old plans.items }
    ensures { map (λ l. l.state) links.new ≡ links_changed plans.items (map (λ l. l.state) links.old) }
{
    let mut index = 0;
    'plans: for plan in plans {
        apply_link(links, index, plan);
        index += 1;
    }
}
