//! Caches of links: the records that were heard, and when each ends (RFC 6762, 10).

ghost use Rattle.std.specs.Prelude.{◌≡◌, ◌≤◌, ◌++◌, ◌∷◌, [], length, IfOk, OnErr, OnOk};
ghost use Rattle.push_base.specs.Limits.{max_moment};
ghost use Rattle.clockqueue.specs.Deadlines.{AreDeadlines};
ghost use Rattle.dnsname.specs.Names.{Labels};
ghost use Rattle.rrset.specs.KeyedRows.{rows_of};
ghost use Rattle.rrset.specs.Records.{key_cmp};
ghost use Rattle.nametable.specs.Nodes.{room_at};
ghost use Rattle.linkcache.specs.Links.{HasRoom, IsLink};
ghost use Rattle.linkcache.specs.Plans.{IsGonePlan, IsHeardPlan, IsMomentPlan, IsPlanOf, IsReconfirmPlan, with_row_changes};
ghost use Rattle.linkcache.specs.Rows.{has_key, heard_by, next_end, shown_rows};
ghost use Rattle.reversemap.specs.BothKinds.{IsApart};

use crate::apply_plan::make_changes;
use crate::end_key::EndKey;
use crate::kinds::heard_back;
use crate::laying::has_row;
use crate::plan::HearPlan;
use crate::planning::{gone_plan, heard_plan, moment_plan, reconfirm_plan};
use crate::reverses::Reverses;
use crate::row::HeardRow;
use crate::rules::LinkRules;
use crate::showing::shown_blocks;
use clockqueue::Deadlines;
use dnsname::Name;
use nametable::NameTable;
use rrset::{HeardRr, Key, NoMemory, Rr, Table};
use std::alloc::Global;
use std::marker::Model;

/// A link: what it shows by, what it has heard, and the moments at which the rows end.
#[derive(Debug, Drop)]
pub struct Cache {
    rules: LinkRules,
    rows: NameTable<HeardRow>,
    ends: Deadlines<EndKey>,
}

impl Model for Cache {
    ghost use Rattle.linkcache.specs.Links.{LinkKept, IsKept};

    ghost Value = { LinkKept };

    ghost view = { λ c. record { state = record { rules = c.rules; rows = c.rows.rows }; nodes = c.rows.nodes; spare = c.ends.spare } };

    ghost invariant = { λ c. IsKept (record { rules = c.rules; rows = c.rows.rows }) c.ends.deadlines };
}

/// The same moments and keys.
fn copied_ends(alloc: Global, ends: &Deadlines<EndKey>) -> Result<Vec<(u64, EndKey)>, NoMemory>
    ensures same { IfOk result (λ copy. copy.items ≡ ends.now.deadlines) }
    ensures order { IfOk result (λ copy. AreDeadlines key_cmp copy.items) }
{
    let mut copy = Vec::new(alloc);
    'ends: for number in 0..ends.len() {
        let end = ends.at(number);
        copy.push((end.0, EndKey::copied(alloc, end.1.key())?))?;
    }
    Ok(copy)
}

impl Cache {
    /// A link of this domain, without reverse domains, that has heard nothing, and shows no TTL beyond the cap.
    pub fn new(alloc: Global, domain: Name, cap: u32) -> Self
        ensures rules { result.state.rules ≡ record { domain = domain; reverses = []; cap = cap } }
        ensures rows { result.state.rows ≡ [] }
    {
        let _name = domain.octets();
        Cache {
            rules: LinkRules {
                domain,
                reverses: Reverses::new(alloc),
                cap,
            },
            rows: NameTable::new(alloc),
            ends: Deadlines::new(alloc),
        }
    }

    /// Adds a reverse domain, which stands apart from the link's domain, behind the others, while nothing was heard.
    pub fn add_reverse(&mut self, domain: Name) -> Result<(), NoMemory>
        requires rows { self.old.state.rows ≡ [] }
        requires apart { IsApart self.old.state.rules.domain domain }
        ensures ok { OnOk result (self.new ≡ record self.old { state = record self.old.state { rules = record self.old.state.rules { reverses = self.old.state.rules.reverses ++ domain ∷ [] } } }) }
        ensures err { OnErr result (self.new ≡ self.old) }
    {
        let _name = domain.octets();
        self.rules.reverses.add(domain)
    }

    /// The domain under which the link is shown.
    pub fn domain(&self) -> &Name
        ensures { result.now ≡ self.now.state.rules.domain }
    {
        &self.rules.domain
    }

    /// The reverse domains, in the order in which they were added.
    pub fn reverses(&self) -> &[Name]
        ensures { result.now ≡ self.now.state.rules.reverses }
    {
        self.rules.reverses.as_slice()
    }

    /// The record of the link that would be shown with the key of this record. Under a reverse domain its owner is this
    /// record's; elsewhere it is the record of the link's domain heard back. Nothing exactly where there is none.
    pub fn heard_back(&self, alloc: Global, rr: &Rr) -> Result<Option<Rr>, NoMemory>
        ensures { IfOk result (λ heard. heard ≡ heard_by self.now.state.rules rr.now) }
    {
        heard_back(alloc, &self.rules, rr)
    }

    /// What the link has heard, in key order.
    pub fn rows(&self) -> &NameTable<HeardRow>
        ensures rows { result.now.rows ≡ self.now.state.rows }
        ensures link { IsLink self.now.state }
    {
        &self.rows
    }

    /// What the link has heard of a name, in key order. Names are those of the link.
    pub fn rows_at(&self, name: &Name) -> &[(Key, HeardRow)]
        ensures { result.now ≡ rows_of name.now self.now.state.rows }
    {
        self.rows.at(name)
    }

    /// The records that the link shows, under its domain and its reverse domains.
    pub fn shown(&self, alloc: Global) -> Result<Table, NoMemory>
        ensures { IfOk result (λ set. set.rows ≡ shown_rows self.now.state.rules self.now.state.rows) }
    {
        shown_blocks(alloc, &self.rules, self.rows.blocks())
    }

    /// Whether there is a row of a key.
    pub fn has(&self, key: &Key) -> bool
        ensures { result ≡ has_key key.now self.now.state.rows }
    {
        has_row(&self.rows, key)
    }

    /// The least moment at which a row ends; nothing where there is no row.
    pub fn next_end(&self) -> Option<u64>
        ensures { result ≡ next_end self.now.state.rows }
    {
        self.ends.next()
    }

    /// Makes room for the moments at which so many further rows end.
    fn make_room(&mut self, rows: usize) -> Result<(), NoMemory>
        ensures state { self.new.state ≡ self.old.state }
        ensures nodes { self.new.nodes ≡ self.old.nodes }
        ensures room { OnOk result (rows ≤ self.new.spare) }
        ensures kept { self.old.spare ≤ self.new.spare }
    {
        self.ends.reserve(rows)
    }

    /// What a hearing will change. The rows stay, and room is made for the plan; room that was there stays.
    pub fn hear(
        &mut self,
        alloc: Global,
        now: u64,
        hearing: &[HeardRr],
    ) -> Result<HearPlan, NoMemory>
        requires { now ≤ max_moment }
        ensures plan { IfOk result (IsHeardPlan self.old.state.rules self.old.state.rows now hearing.now) }
        ensures state { self.new.state ≡ self.old.state }
        ensures room { IfOk result (λ plan. HasRoom plan.rows self.new) }
        ensures names { (name : Labels) → room_at self.old.nodes name ≤ room_at self.new.nodes name }
        ensures kept { self.old.spare ≤ self.new.spare }
    {
        let plan = heard_plan(alloc, &self.rules, &mut self.rows, now, hearing)?;
        self.make_room(plan.rows_at_most())?;
        Ok(plan)
    }

    /// What a moment will change. The rows stay, and room is made for the plan; room that was there stays.
    pub fn moment(&mut self, alloc: Global, now: u64) -> Result<HearPlan, NoMemory>
        ensures plan { IfOk result (IsMomentPlan self.old.state.rules self.old.state.rows now) }
        ensures state { self.new.state ≡ self.old.state }
        ensures room { IfOk result (λ plan. HasRoom plan.rows self.new) }
        ensures names { (name : Labels) → room_at self.old.nodes name ≤ room_at self.new.nodes name }
        ensures kept { self.old.spare ≤ self.new.spare }
    {
        let plan = moment_plan(alloc, &self.rules, &self.rows, &self.ends, now)?;
        self.make_room(plan.rows_at_most())?;
        Ok(plan)
    }

    /// What a reconfirmation of a key will change (RFC 6762, 10.4). The rows stay, and room is made for the plan; room
    /// that was there stays.
    pub fn reconfirm(&mut self, alloc: Global, key: &Key, now: u64) -> Result<HearPlan, NoMemory>
        requires { now ≤ max_moment }
        ensures plan { IfOk result (IsReconfirmPlan self.old.state.rules self.old.state.rows key.now now) }
        ensures state { self.new.state ≡ self.old.state }
        ensures room { IfOk result (λ plan. HasRoom plan.rows self.new) }
        ensures names { (name : Labels) → room_at self.old.nodes name ≤ room_at self.new.nodes name }
        ensures kept { self.old.spare ≤ self.new.spare }
    {
        let plan = reconfirm_plan(alloc, &self.rules, &mut self.rows, key, now)?;
        self.make_room(plan.rows_at_most())?;
        Ok(plan)
    }

    /// What the link's going will change: all rows go, and the plan is usable where there is one. The rows stay, and room is
    /// made for the plan; room that was there stays.
    pub fn gone(&mut self, alloc: Global) -> Result<HearPlan, NoMemory>
        ensures plan { IfOk result (IsGonePlan self.old.state.rules self.old.state.rows) }
        ensures state { self.new.state ≡ self.old.state }
        ensures room { IfOk result (λ plan. HasRoom plan.rows self.new) }
        ensures names { (name : Labels) → room_at self.old.nodes name ≤ room_at self.new.nodes name }
        ensures kept { self.old.spare ≤ self.new.spare }
    {
        let plan = gone_plan(alloc, &self.rules, &self.rows, &self.ends)?;
        self.make_room(plan.rows_at_most())?;
        Ok(plan)
    }

    /// Makes the changes of a plan that was made of these rows. It takes no memory, and room that was made for other plans
    /// may be given back.
    pub fn apply(&mut self, plan: HearPlan)
        requires planned { IsPlanOf self.old.state.rules self.old.state.rows plan }
        requires room { HasRoom plan.rows self.old }
        ensures { self.new.state ≡ record self.old.state { rows = with_row_changes plan.rows self.old.state.rows } }
    {
        let HearPlan { rows, .. } = plan;
        make_changes(&mut self.rows, &mut self.ends, rows);
    }

    /// The same link.
    pub fn copy(&self, alloc: Global) -> Result<Cache, NoMemory>
        ensures { IfOk result (λ cache. cache.state ≡ self.now.state) }
    {
        let ends = copied_ends(alloc, &self.ends)?;
        Ok(Cache {
            rules: self.rules.copy(alloc)?,
            rows: self.rows.copy()?,
            ends: Deadlines::from_entries(ends),
        })
    }
}
