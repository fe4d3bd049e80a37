//! A history told anew from its start.

ghost use Rattle.std.specs.Prelude.{◌≡◌, ◌≤◌, length, IfOk};
ghost use Rattle.std.specs.List.{AllByRecursion};
ghost use Rattle.push_base.specs.Limits.{max_moment};
ghost use Rattle.history.specs.States.{after, state_at};
ghost use Rattle.history.specs.Kept.{at_moment};
ghost use Rattle.history.specs.AtHome.{AreAtHome};
ghost use Rattle.history.specs.HeldPlans.{IsStateOf, IsTimely};

use crate::entry::Entry;
use crate::homes::Homes;
use crate::planning::{apply_held, plan_of};
use rrset::NoMemory;
use std::alloc::Global;
use std::collections::VecDeque;

/// Makes what an entry makes of homes at a moment, and gives the moment afterwards.
fn enter(alloc: Global, homes: &mut Homes, moment: u64, entry: &Entry) -> Result<u64, NoMemory>
    requires home { AreAtHome (at_moment homes.old moment) }
    requires moment { moment ≤ max_moment }
    requires timely { IsTimely entry.now }
    ensures state { IfOk result (λ later. IsStateOf homes.new later (after (at_moment homes.old moment) entry.now)) }
    ensures moment { IfOk result (λ later. later ≤ max_moment) }
{
    let (_, held) = plan_of(alloc, homes, moment, entry)?;
    Ok(apply_held(homes, moment, held))
}

/// What homes at a moment are after the first of some entries, and the moment then.
pub(crate) fn replayed(
    alloc: Global,
    start: &Homes,
    moment: u64,
    entries: &VecDeque<Entry>,
    count: usize,
) -> Result<(Homes, u64), NoMemory>
    requires home { AreAtHome (at_moment start.now moment) }
    requires moment { moment ≤ max_moment }
    requires timely { AllByRecursion IsTimely entries.now.items }
    requires within { count ≤ length entries.now.items }
    ensures { IfOk result (λ later. IsStateOf later.0 later.1 (state_at (at_moment start.now moment) entries.now.items count)) }
{
    let mut homes = start.copy()?;
    let mut now = moment;
    'entries: for index in 0..count {
        now = enter(alloc, &mut homes, now, &entries[index])?;
    }
    Ok((homes, now))
}
