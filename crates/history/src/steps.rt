//! What entries will change in the one link that they concern.

ghost use Rattle.std.specs.Prelude.{◌≡◌, ◌≤◌, ℕ, IfOk, IfSome};
ghost use Rattle.push_base.specs.Limits.{max_moment};
ghost use Rattle.history.specs.declared.entry.Entry.TheVariants as entries;
ghost use Rattle.history.specs.HeldPlans.{IsPlanIn};
ghost use Rattle.history.specs.LinkSteps.{StepsIn};

use crate::entry::Entry;
use linkcache::{Cache, HearPlan};
use rrset::{Hearing, Key, NoMemory};
use std::alloc::Global;

/// What a hearing will change in a link; nothing where no record is usable.
fn step_of_hearing(
    alloc: Global,
    link: &mut Cache,
    now: u64,
    hearing: &Hearing,
) -> Result<Option<HearPlan>, NoMemory>
    requires { now ≤ max_moment }
    ensures plan { IfOk result (λ plan. (i : ℕ) → StepsIn (entries.Heard i hearing.now) now link.old.state plan) }
    ensures state { link.new.state ≡ link.old.state }
    ensures room { IfOk result (λ plan. IfSome plan (IsPlanIn link.new)) }
{
    let plan = link.hear(alloc, now, hearing.rrs.as_slice())?;
    if !plan.is_usable() {
        return Ok(None);
    }
    Ok(Some(plan))
}

/// What a reconfirmation of a key will change in a link; nothing where there is no row of the key.
fn step_of_reconfirmation(
    alloc: Global,
    link: &mut Cache,
    now: u64,
    key: &Key,
) -> Result<Option<HearPlan>, NoMemory>
    requires { now ≤ max_moment }
    ensures plan { IfOk result (λ plan. (i : ℕ) → StepsIn (entries.Reconfirm i key.now) now link.old.state plan) }
    ensures state { link.new.state ≡ link.old.state }
    ensures room { IfOk result (λ plan. IfSome plan (IsPlanIn link.new)) }
{
    if !link.has(key) {
        return Ok(None);
    }
    let plan = link.reconfirm(alloc, key, now)?;
    Ok(Some(plan))
}

/// What a link's going will change in it; nothing where it has no row.
fn step_of_going(alloc: Global, link: &mut Cache) -> Result<Option<HearPlan>, NoMemory>
    ensures plan { IfOk result (λ plan. (i now : ℕ) → StepsIn (entries.LinkGone i) now link.old.state plan) }
    ensures state { link.new.state ≡ link.old.state }
    ensures room { IfOk result (λ plan. IfSome plan (IsPlanIn link.new)) }
{
    let plan = link.gone(alloc)?;
    if !plan.is_usable() {
        return Ok(None);
    }
    Ok(Some(plan))
}

/// What an entry will change in a link; nothing where the link doesn't take it up. The rows stay, and room is made for the
/// plan.
pub(crate) fn step(
    alloc: Global,
    link: &mut Cache,
    now: u64,
    entry: &Entry,
) -> Result<Option<HearPlan>, NoMemory>
    requires { now ≤ max_moment }
    ensures plan { IfOk result (λ plan. StepsIn entry.now now link.old.state plan) }
    ensures state { link.new.state ≡ link.old.state }
    ensures room { IfOk result (λ plan. IfSome plan (IsPlanIn link.new)) }
{
    match entry {
        Entry::Heard(_, hearing) => step_of_hearing(alloc, link, now, hearing),
        Entry::Reconfirm(_, key) => step_of_reconfirmation(alloc, link, now, key),
        Entry::LinkGone(_) => step_of_going(alloc, link),
        Entry::Update(_) | Entry::Moment(_) => Ok(None),
    }
}
