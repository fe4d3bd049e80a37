//! What hearings, moments, reconfirmations and a link's going will change.

ghost use Rattle.std.specs.Prelude.{◌≡◌, ◌≤◌, is_none, IfOk};
ghost use Rattle.clockqueue.specs.Deadlines.{AreDeadlines, first_moment};
ghost use Rattle.push_base.specs.Limits.{max_moment};
ghost use Rattle.dnsname.specs.Names.{Labels};
ghost use Rattle.rrset.specs.Records.{key_cmp};
ghost use Rattle.nametable.specs.Nodes.{HasRoomFor, room_at};
ghost use Rattle.linkcache.specs.Ends.{AreEnds, has_come};
ghost use Rattle.linkcache.specs.Links.{IsLink};
ghost use Rattle.linkcache.specs.Parts.{laid};
ghost use Rattle.linkcache.specs.Plans.{IsGonePlan, IsHeardPlan, IsMomentPlan, IsReconfirmPlan, Leads, keys_put};
ghost use Rattle.linkcache.specs.Sound.{AreLinkRows};
ghost use Rattle.linkcache.specs.Within.{IsWithin};

use crate::end_key::EndKey;
use crate::heard_rows::{heard, some_usable};
use crate::laying::{end_row, has_row};
use crate::moving::plan_between;
use crate::plan::HearPlan;
use crate::row::{HeardRow, RECONFIRMATION};
use crate::rules::LinkRules;
use crate::touching::{all_rows, due_rows, rows_under};
use clockqueue::Deadlines;
use nametable::NameTable;
use rrset::{HeardRr, Key, NoMemory, Table};
use std::alloc::Global;

/// The plan that lays rows over those of a link, with room for them.
fn plan_over(
    alloc: Global,
    rules: &LinkRules,
    usable: bool,
    rows: &mut NameTable<HeardRow>,
    over: &Table<HeardRow>,
) -> Result<HearPlan, NoMemory>
    requires link { IsLink (record { rules = rules.now; rows = rows.old.rows }) }
    requires sound { AreLinkRows rules.now (laid over.now.rows rows.old.rows) }
    requires within { IsWithin rules.now (laid over.now.rows rows.old.rows) }
    ensures usable { IfOk result (λ plan. plan.usable ≡ usable) }
    ensures plan { IfOk result (λ plan. Leads rules.now rows.old.rows plan (laid over.now.rows rows.old.rows)) }
    ensures rows { rows.new.rows ≡ rows.old.rows }
    ensures room { IfOk result (λ plan. HasRoomFor (keys_put plan.rows) rows.new.nodes) }
    ensures kept { (name : Labels) → room_at rows.old.nodes name ≤ room_at rows.new.nodes name }
{
    let before = rows_under(alloc, rows, over.entries())?;
    rows.reserve_for_rows(over)?;
    plan_between(alloc, rules, usable, &before, over)
}

/// The plan of a hearing, with room for the rows that it puts. It looks at the records heard and the rows of their
/// owners, and plans none but those that are heard or flushed.
fn plan_of_hearing(
    alloc: Global,
    rules: &LinkRules,
    rows: &mut NameTable<HeardRow>,
    now: u64,
    hearing: &[HeardRr],
) -> Result<HearPlan, NoMemory>
    requires moment { now ≤ max_moment }
    requires link { IsLink (record { rules = rules.now; rows = rows.old.rows }) }
    ensures plan { IfOk result (IsHeardPlan rules.now rows.old.rows now hearing.now) }
    ensures rows { rows.new.rows ≡ rows.old.rows }
    ensures room { IfOk result (λ plan. HasRoomFor (keys_put plan.rows) rows.new.nodes) }
    ensures kept { (name : Labels) → room_at rows.old.nodes name ≤ room_at rows.new.nodes name }
{
    if !some_usable(rules, hearing) {
        return Ok(HearPlan::nothing(alloc));
    }
    let over = heard(alloc, rules, rows, now, hearing)?;
    plan_over(alloc, rules, true, rows, &over)
}

/// Looks for the owners of records, so that what follows finds them sooner.
fn look_for_all(rows: &mut NameTable<HeardRow>, hearing: &[HeardRr])
    ensures { rows.new ≡ rows.old }
{
    'hearing: for heard in hearing {
        rows.look_for(&heard.rr.owner);
    }
}

/// The plan of a hearing, with room for the rows that it puts. The owners of the records are looked for once before:
/// each block remembers the last, as most hearings are of one owner.
pub(crate) fn heard_plan(
    alloc: Global,
    rules: &LinkRules,
    rows: &mut NameTable<HeardRow>,
    now: u64,
    hearing: &[HeardRr],
) -> Result<HearPlan, NoMemory>
    requires moment { now ≤ max_moment }
    requires link { IsLink (record { rules = rules.now; rows = rows.old.rows }) }
    ensures plan { IfOk result (IsHeardPlan rules.now rows.old.rows now hearing.now) }
    ensures rows { rows.new.rows ≡ rows.old.rows }
    ensures room { IfOk result (λ plan. HasRoomFor (keys_put plan.rows) rows.new.nodes) }
    ensures kept { (name : Labels) → room_at rows.old.nodes name ≤ room_at rows.new.nodes name }
{
    look_for_all(rows, hearing);
    plan_of_hearing(alloc, rules, rows, now, hearing)
}

/// Whether the least moment has come.
fn some_due(ends: &Deadlines<EndKey>, now: u64) -> bool
    ensures due { result ≡ has_come now (first_moment ends.now.deadlines) }
    ensures order { AreDeadlines key_cmp ends.now.deadlines }
{
    match ends.next() {
        Some(least) => least <= now,
        None => false,
    }
}

/// The plan of a moment, which puts no row. It looks at the rows that have ended, and at none where the least end lies
/// later.
pub(crate) fn moment_plan(
    alloc: Global,
    rules: &LinkRules,
    rows: &NameTable<HeardRow>,
    ends: &Deadlines<EndKey>,
    now: u64,
) -> Result<HearPlan, NoMemory>
    requires link { IsLink (record { rules = rules.now; rows = rows.now.rows }) }
    requires ends { AreEnds ends.now.deadlines rows.now.rows }
    ensures plan { IfOk result (IsMomentPlan rules.now rows.now.rows now) }
    ensures room { IfOk result (λ plan. HasRoomFor (keys_put plan.rows) rows.now.nodes) }
{
    if !some_due(ends, now) {
        return Ok(HearPlan::nothing(alloc));
    }
    let part = due_rows(alloc, rows, ends, now)?;
    let work = Table::new(alloc);
    plan_between(alloc, rules, false, &part, &work)
}

/// The plan of a reconfirmation, with room for the row that it puts. It looks at the row of the key.
pub(crate) fn reconfirm_plan(
    alloc: Global,
    rules: &LinkRules,
    rows: &mut NameTable<HeardRow>,
    key: &Key,
    now: u64,
) -> Result<HearPlan, NoMemory>
    requires moment { now ≤ max_moment }
    requires link { IsLink (record { rules = rules.now; rows = rows.old.rows }) }
    ensures plan { IfOk result (IsReconfirmPlan rules.now rows.old.rows key.now now) }
    ensures rows { rows.new.rows ≡ rows.old.rows }
    ensures room { IfOk result (λ plan. HasRoomFor (keys_put plan.rows) rows.new.nodes) }
    ensures kept { (name : Labels) → room_at rows.old.nodes name ≤ room_at rows.new.nodes name }
{
    if !has_row(rows, key) {
        return Ok(HearPlan::nothing(alloc));
    }
    let mut over = Table::new(alloc);
    end_row(rows, &mut over, key, now + RECONFIRMATION)?;
    plan_over(alloc, rules, false, rows, &over)
}

/// Whether no row ends.
fn none_ends(ends: &Deadlines<EndKey>) -> bool
    ensures { result ≡ is_none (first_moment ends.now.deadlines) }
{
    ends.next().is_none()
}

/// The plan of a link's going, which takes out all rows and puts none.
pub(crate) fn gone_plan(
    alloc: Global,
    rules: &LinkRules,
    rows: &NameTable<HeardRow>,
    ends: &Deadlines<EndKey>,
) -> Result<HearPlan, NoMemory>
    requires link { IsLink (record { rules = rules.now; rows = rows.now.rows }) }
    requires ends { AreEnds ends.now.deadlines rows.now.rows }
    ensures plan { IfOk result (IsGonePlan rules.now rows.now.rows) }
    ensures room { IfOk result (λ plan. HasRoomFor (keys_put plan.rows) rows.now.nodes) }
{
    if none_ends(ends) {
        return Ok(HearPlan::nothing(alloc));
    }
    let part = all_rows(alloc, rows)?;
    let work = Table::new(alloc);
    plan_between(alloc, rules, true, &part, &work)
}
