//! What several plans change, as one list in key order.

ghost use Rattle.std.specs.Prelude.{◌≡◌, List, map, fold, IfOk};
ghost use Rattle.std.specs.List.{AllByRecursion};
ghost use Rattle.nametable.specs.Nodes.{HaveRisingKeys};
ghost use Rattle.history.specs.Gathering.{changed_rows, gathered_rows};
ghost use Rattle.history.specs.Laws.{gathered, with_change};

use crate::plan::copy_change;
use linkcache::HearPlan;
use rrset::{Changed, NoMemory, compare_keys};
use std::alloc::Global;
use std::cmp::Ordering;

/// Some changes, by reference.
fn all_of(alloc: Global, changed: &[Changed]) -> Result<Vec<&Changed>, NoMemory>
    ensures { IfOk result (λ all. map (λ c. c.now) all.items ≡ changed.now) }
{
    Ok(changed.iter().collect(alloc)?)
}

/// The changes of two lists in key order, as one in key order. Of a key that both have, the second's.
fn merged<'a>(
    alloc: Global,
    first: &[&'a Changed],
    second: &[&'a Changed],
) -> Result<Vec<&'a Changed>, NoMemory>
    requires first { HaveRisingKeys (map (λ c. c.now) first.now) }
    requires second { HaveRisingKeys (map (λ c. c.now) second.now) }
    ensures rows { IfOk result (λ all. changed_rows (map (λ c. c.now) all.items) ≡ fold with_change (changed_rows (map (λ c. c.now) first.now)) (map (λ c. c.now) second.now)) }
{
    let mut all = Vec::with_capacity(alloc, first.len().saturating_add(second.len()))?;
    let mut taken = 0;
    let mut other = 0;
    'both: while taken < first.len() {
        if second.len() <= other {
            all.extend_from_slice(&first[taken..])?;
            return Ok(all);
        }
        let change = first[taken];
        let newer = second[other];
        match compare_keys(&change.key, &newer.key) {
            Ordering::Less => {
                all.push(change)?;
                taken += 1;
            }
            Ordering::Equal => {
                all.push(newer)?;
                taken += 1;
                other += 1;
            }
            Ordering::Greater => {
                all.push(newer)?;
                other += 1;
            }
        }
    }
    all.extend_from_slice(&second[other..])?;
    Ok(all)
}

/// The changes of plans that are each in key order, as one list in key order: merged by halves, so that a change is compared
/// once for each doubling of the plans.
fn merged_plans(alloc: Global, plans: &[HearPlan]) -> Result<Vec<&Changed>, NoMemory>
    requires { AllByRecursion (λ p. HaveRisingKeys p.changed) plans.now }
    ensures { IfOk result (λ all. changed_rows (map (λ c. c.now) all.items) ≡ gathered_rows plans.now) }
{
    if plans.len() == 0 {
        return Ok(Vec::new(alloc));
    }
    if plans.len() == 1 {
        return all_of(alloc, plans[0].changed());
    }
    let (front, back) = plans.split_at(plans.len() / 2);
    let first = merged_plans(alloc, front)?;
    let second = merged_plans(alloc, back)?;
    merged(alloc, &first, &second)
}

/// Copies of changes.
fn copies(alloc: Global, changed: &[&Changed]) -> Result<Vec<Changed>, NoMemory>
    ensures { IfOk result (λ copies. copies.items ≡ map (λ c. c.now) changed.now) }
{
    let mut copies = Vec::with_capacity(alloc, changed.len())?;
    'changed: for change in changed {
        copies.push(copy_change(change)?)?;
    }
    Ok(copies)
}

/// The changes of plans that are each in key order, in key order.
pub(crate) fn gathered_changes(alloc: Global, plans: &[HearPlan]) -> Result<Vec<Changed>, NoMemory>
    requires { AllByRecursion (λ p. HaveRisingKeys p.changed) plans.now }
    ensures { IfOk result (λ changed. changed.items ≡ gathered (map (λ p. p.changed) plans.now)) }
{
    let all = merged_plans(alloc, plans)?;
    copies(alloc, &all)
}
