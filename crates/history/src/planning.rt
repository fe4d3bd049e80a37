//! What an entry will change, and the plan that is held for it.

ghost use Rattle.std.specs.Prelude.{◌≡◌, ◌≤◌, ◌<◌, map, option_map, IfOk, IfSome, OnOk};
ghost use Rattle.std.specs.List.{AllByRecursion};
ghost use Rattle.push_base.specs.Limits.{max_moment};
ghost use Rattle.nametable.specs.Nodes.{HaveRisingKeys};
ghost use Rattle.history.specs.Entries.{a_link, concern};
ghost use Rattle.history.specs.Plans.{planned};
ghost use Rattle.history.specs.declared.entry.Entry.TheVariants as entries;
ghost use Rattle.history.specs.declared.planning.HeldPlan.TheVariants as plans;
ghost use Rattle.history.specs.Kept.{at_moment, held_for, state_of, told_plan};
ghost use Rattle.history.specs.AtHome.{AreAtHome};
ghost use Rattle.history.specs.Laws.{gathered};
ghost use Rattle.history.specs.LinkSteps.{told_of};
ghost use Rattle.history.specs.HeldPlans.{IsReady, IsTimely, led_by, led_to};

use crate::entry::Entry;
use crate::gathering::gathered_changes;
use crate::homes::Homes;
use crate::plan::{ChangedKeys, Planned};
use crate::updating::Checked;
use dnswire::Update;
use linkcache::HearPlan;
use rrset::NoMemory;
use std::alloc::Global;
use zoneupdate::ZonePlan;

/// A plan that was accepted: the home that it changes, counted from 0 among its kind, and how; or a later moment, and how
/// each link changes then.
#[derive(Debug, Drop)]
pub(crate) enum HeldPlan {
    /// The zone, and its keys.
    Zone(usize, ZonePlan),
    /// The link, and its rows.
    Link(usize, HearPlan),
    /// A later moment, and the rows of each link.
    Moment(u64, Vec<HearPlan>),
}

/// What becomes of an update, and the plan that is then held. The records stay, and room is made for the plan.
fn plan_of_update(
    alloc: Global,
    homes: &mut Homes,
    moment: u64,
    update: &Update,
) -> Result<(Planned, Option<HeldPlan>), NoMemory>
    requires { AreAtHome (at_moment homes.old moment) }
    ensures planned { IfOk result (λ plan. plan.0 ≡ told_plan (planned (at_moment homes.old moment) (entries.Update update.now))) }
    ensures held { IfOk result (λ plan. option_map (led_to (at_moment homes.old moment)) plan.1 ≡ held_for (at_moment homes.old moment) (entries.Update update.now)) }
    ensures state { state_of homes.new ≡ state_of homes.old }
    ensures names { homes.new.names ≡ homes.old.names }
    ensures room { IfOk result (λ plan. IfSome plan.1 (IsReady homes.new)) }
{
    match homes.check(alloc, update)? {
        Checked::Refuse(code) => Ok((Planned::Refuse(code), None)),
        Checked::Accept(index, plan) => {
            let changed = ChangedKeys::from_slice(alloc, plan.as_slice())?;
            Ok((Planned::Accept(changed), Some(HeldPlan::Zone(index, plan))))
        }
    }
}

/// What is told and held of a plan of a link, if there is one.
fn told_and_held(
    alloc: Global,
    link: usize,
    plan: Option<HearPlan>,
) -> Result<(Planned, Option<HeldPlan>), NoMemory>
    ensures told { IfOk result (λ both. both.0 ≡ told_of plan) }
    ensures held { IfOk result (λ both. both.1 ≡ option_map (λ p. plans.Link link p) plan) }
{
    match plan {
        Some(plan) => {
            let changed = ChangedKeys::from_slice(alloc, plan.changed())?;
            Ok((Planned::Accept(changed), Some(HeldPlan::Link(link, plan))))
        }
        None => Ok((Planned::Idle, None)),
    }
}

/// What becomes of an entry that concerns one link, and the plan that is then held. The rows stay, and room is made for
/// the plan.
fn plan_of_step(
    alloc: Global,
    homes: &mut Homes,
    moment: u64,
    link: usize,
    entry: &Entry,
) -> Result<(Planned, Option<HeldPlan>), NoMemory>
    requires home { AreAtHome (at_moment homes.old moment) }
    requires moment { moment ≤ max_moment }
    requires concern { concern entry.now ≡ a_link link }
    ensures planned { IfOk result (λ plan. plan.0 ≡ told_plan (planned (at_moment homes.old moment) entry.now)) }
    ensures held { IfOk result (λ plan. option_map (led_to (at_moment homes.old moment)) plan.1 ≡ held_for (at_moment homes.old moment) entry.now) }
    ensures state { state_of homes.new ≡ state_of homes.old }
    ensures names { homes.new.names ≡ homes.old.names }
    ensures room { IfOk result (λ plan. IfSome plan.1 (IsReady homes.new)) }
{
    let plan = homes.step(alloc, moment, link, entry)?;
    told_and_held(alloc, link, plan)
}

/// The changed keys of all of some plans, in key order.
fn gathered(alloc: Global, plans: &[HearPlan]) -> Result<ChangedKeys, NoMemory>
    requires { AllByRecursion (λ p. HaveRisingKeys p.changed) plans.now }
    ensures { IfOk result (λ keys. keys ≡ gathered (map (λ p. p.changed) plans.now)) }
{
    let items = gathered_changes(alloc, plans)?;
    Ok(ChangedKeys { items })
}

/// What becomes of a moment, and the plan that is then held. The rows stay, and room is made for the plan.
fn plan_of_moment(
    alloc: Global,
    homes: &mut Homes,
    moment: u64,
    later: u64,
) -> Result<(Planned, Option<HeldPlan>), NoMemory>
    requires home { AreAtHome (at_moment homes.old moment) }
    requires timely { later ≤ max_moment }
    ensures planned { IfOk result (λ plan. plan.0 ≡ told_plan (planned (at_moment homes.old moment) (entries.Moment later))) }
    ensures held { IfOk result (λ plan. option_map (led_to (at_moment homes.old moment)) plan.1 ≡ held_for (at_moment homes.old moment) (entries.Moment later)) }
    ensures state { state_of homes.new ≡ state_of homes.old }
    ensures names { homes.new.names ≡ homes.old.names }
    ensures room { IfOk result (λ plan. IfSome plan.1 (IsReady homes.new)) }
{
    if later <= moment {
        return Ok((Planned::Idle, None));
    }
    let plans = homes.moments(alloc, later)?;
    let changed = gathered(alloc, &plans)?;
    Ok((
        Planned::Accept(changed),
        Some(HeldPlan::Moment(later, plans)),
    ))
}

/// What becomes of an entry, and the plan that is then held. The records stay, and room is made for the plan.
pub(crate) fn plan_of(
    alloc: Global,
    homes: &mut Homes,
    moment: u64,
    entry: &Entry,
) -> Result<(Planned, Option<HeldPlan>), NoMemory>
    requires home { AreAtHome (at_moment homes.old moment) }
    requires moment { moment ≤ max_moment }
    requires timely { IsTimely entry.now }
    ensures planned { IfOk result (λ plan. plan.0 ≡ told_plan (planned (at_moment homes.old moment) entry.now)) }
    ensures held { IfOk result (λ plan. option_map (led_to (at_moment homes.old moment)) plan.1 ≡ held_for (at_moment homes.old moment) entry.now) }
    ensures state { state_of homes.new ≡ state_of homes.old }
    ensures names { homes.new.names ≡ homes.old.names }
    ensures room { IfOk result (λ plan. IfSome plan.1 (IsReady homes.new)) }
{
    match entry {
        Entry::Update(update) => plan_of_update(alloc, homes, moment, update),
        Entry::Moment(later) => plan_of_moment(alloc, homes, moment, *later),
        Entry::Heard(link, _) | Entry::Reconfirm(link, _) | Entry::LinkGone(link) => {
            plan_of_step(alloc, homes, moment, *link, entry)
        }
    }
}

/// Makes what a plan that is held makes of homes at a moment, and gives the moment afterwards. It takes no memory.
pub(crate) fn apply_held(homes: &mut Homes, moment: u64, held: Option<HeldPlan>) -> u64
    requires { IfSome held (IsReady homes.old) }
    ensures state { at_moment homes.new result ≡ led_by (at_moment homes.old moment) held }
    ensures names { homes.new.names ≡ homes.old.names }
{
    match held {
        Some(plan) => homes.apply(moment, plan),
        None => moment,
    }
}
