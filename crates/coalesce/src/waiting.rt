//! What is kept of a name that waits.

ghost use Rattle.std.specs.Prelude.{◌≡◌, ◌+◌, ◌-◌, ◌≤◌, ◌++◌, [], ◌∷◌, nat_lt, flat_map, length, IfOk, IsTrue, OnErr, OnOk};
ghost use Rattle.dsotlv.specs.Notices.{notice_octets};
ghost use Rattle.rrset.specs.KeyedRows.{is_rising};
ghost use Rattle.coalesce.specs.Net.{max_net_frame, max_net_size, push_frame, size_of_notices};
ghost use Rattle.coalesce.specs.Sides.{frame_octets};
ghost use Rattle.coalesce.specs.Touched.{AreSides, IsTouched, new_rows, old_rows};
ghost use Rattle.coalesce.specs.Waiting.{IsPackable, and_value, asked_net, is_changed, new_side, old_side, values_before, waiting_of};

use crate::NoMemory;
use crate::asking::Asking;
use crate::frame::Frame;
use crate::old_record::OldRecord;
use crate::touched::{Touched, is_same};
use crate::waiting_net::{append_net, append_push, net_size};
use dnsname::Name;
use nametable::Index;
use push_base::Steps;
use rrset::compare_keys;
use std::alloc::Global;
use std::marker::Model;
use std::sync::ledger::Ledger;
use subscr::Subscriptions;

/// What is kept of a name that waits: the point before its first change, and of each key that changed since what it showed before.
#[derive(Debug, Drop)]
pub(crate) struct Waiting {
    /// The point before its first change.
    pub point: u64,
    /// What the keys showed, in key order.
    pub values: Vec<OldRecord>,
}

impl Model for Waiting {
    ghost use Rattle.std.specs.Prelude.{IsTrue};
    ghost use Rattle.rrset.specs.KeyedRows.{is_rising};
    ghost use Rattle.coalesce.specs.Waiting.{OldValues};

    ghost Value = { OldValues };

    ghost view = { λ w. record { point = w.point; values = w.values.items } };

    ghost invariant = { λ w. IsTrue (is_rising w.values.items) };
}

/// Keeps what a key showed, where nothing is kept of it yet.
fn keep_value(values: &mut Vec<OldRecord>, old: &OldRecord) -> Result<(), NoMemory>
    requires { IsTrue (is_rising values.old.items) }
    ensures ok { OnOk result (values.new.items ≡ and_value old.now values.old.items) }
    ensures err { OnErr result (values.new.items ≡ values.old.items) }
{
    match values.binary_search_by(|kept| compare_keys(kept.key(), old.key())) {
        Ok(_) => Ok(()),
        Err(place) => {
            let shared = old.share()?;
            values.insert(place, shared)?;
            Ok(())
        }
    }
}

/// Lets go what was kept at a point or a later one.
fn keep_before(values: &mut Vec<OldRecord>, point: u64)
    ensures { values.new.items ≡ values_before point values.old.items }
{
    values.retain(|old| old.point() < point);
}

impl Waiting {
    /// What is kept of a name at its first change.
    pub(crate) fn new(alloc: Global, old: &OldRecord) -> Result<Self, NoMemory>
        ensures { IfOk result (λ w. w ≡ record { point = old.now.1.point; values = old.now ∷ [] }) }
    {
        let mut values = Vec::new(alloc);
        values.push(old.share()?)?;
        Ok(Waiting {
            point: old.point(),
            values,
        })
    }

    /// Keeps what a key showed, where nothing is kept of it yet. Where memory runs out nothing changes.
    pub(crate) fn keep(&mut self, old: &OldRecord) -> Result<(), NoMemory>
        ensures ok { OnOk result (self.new ≡ record { point = self.old.point; values = and_value old.now self.old.values }) }
        ensures err { OnErr result (self.new ≡ self.old) }
    {
        keep_value(&mut self.values, old)
    }

    /// Lets go what was kept at a point or a later one, and says whether the name waits since an earlier one.
    pub(crate) fn keep_before(&mut self, point: u64) -> bool
        ensures earlier { result ≡ nat_lt self.old.point point }
        ensures values { self.new ≡ record { point = self.old.point; values = values_before point self.old.values } }
    {
        keep_before(&mut self.values, point);
        self.point < point
    }

    /// Its records, with what is kept of it.
    fn sides<'a, L: Ledger>(
        &'a self,
        name: &Name,
        questions: &'a Subscriptions,
        index: &'a Index,
        steps: &mut Steps<L>,
    ) -> Touched<'a>
        ensures touched { IsTouched result }
        ensures old { old_rows result ≡ old_side questions.now index.now.rows (waiting_of (name.now, self.now)) }
        ensures new { new_rows result ≡ new_side questions.now index.now.rows (waiting_of (name.now, self.now)) }
        ensures sides { IsPackable index.now.rows (waiting_of (name.now, self.now)) → AreSides result }
        ensures steps { steps.new ≡ steps.old + 1 }
    {
        let rows = index.at(name, steps);
        Touched {
            rows,
            values: &self.values,
            asking: Asking::Questions(questions),
        }
    }

    /// Whether the records of the name differ from what they were, as questions ask for them.
    pub(crate) fn is_changed<'a, L: Ledger>(
        &'a self,
        name: &'a Name,
        questions: &'a Subscriptions,
        index: &'a Index,
        steps: &mut Steps<L>,
    ) -> bool
        ensures changed { result ≡ is_changed questions.now index.now.rows (waiting_of (name.now, self.now)) }
        ensures steps { steps.new ≡ steps.old + 1 }
    {
        let touched = self.sides(name, questions, index, steps);
        !is_same(&touched)
    }

    /// The octets of its net's records, as questions ask for them.
    pub(crate) fn size<'a, L: Ledger>(
        &'a self,
        name: &'a Name,
        questions: &'a Subscriptions,
        index: &'a Index,
        steps: &mut Steps<L>,
    ) -> u64
        requires { IsPackable index.now.rows (waiting_of (name.now, self.now)) }
        ensures size { result ≡ size_of_notices (asked_net questions.now index.now.rows (waiting_of (name.now, self.now))) }
        ensures most { result ≤ max_net_size }
        ensures steps { steps.new ≡ steps.old + 1 }
    {
        let touched = self.sides(name, questions, index, steps);
        net_size(&touched)
    }

    /// Appends its net's records, as questions ask for them.
    pub(crate) fn append_to<'a, L: Ledger>(
        &'a self,
        name: &'a Name,
        out: &mut Frame,
        questions: &'a Subscriptions,
        index: &'a Index,
        steps: &mut Steps<L>,
    )
        requires sides { IsPackable index.now.rows (waiting_of (name.now, self.now)) }
        requires room { length out.old + size_of_notices (asked_net questions.now index.now.rows (waiting_of (name.now, self.now))) ≤ frame_octets }
        ensures written { out.new ≡ out.old ++ flat_map notice_octets (asked_net questions.now index.now.rows (waiting_of (name.now, self.now))) }
        ensures steps { steps.new ≡ steps.old + 1 }
    {
        let touched = self.sides(name, questions, index, steps);
        append_net(out, &touched);
    }

    /// Appends the PUSH of its net, as questions ask for it, and gives its octets; where nothing is to be told, nothing
    /// and 0.
    pub(crate) fn append_push<'a, L: Ledger>(
        &'a self,
        name: &'a Name,
        out: &mut Frame,
        questions: &'a Subscriptions,
        index: &'a Index,
        steps: &mut Steps<L>,
    ) -> usize
        requires sides { IsPackable index.now.rows (waiting_of (name.now, self.now)) }
        requires room { max_net_frame ≤ frame_octets - length out.old }
        ensures written { out.new ≡ out.old ++ push_frame (asked_net questions.now index.now.rows (waiting_of (name.now, self.now))) }
        ensures size { result ≡ length (push_frame (asked_net questions.now index.now.rows (waiting_of (name.now, self.now)))) }
        ensures steps { steps.new ≡ steps.old + 1 }
    {
        let touched = self.sides(name, questions, index, steps);
        append_push(out, &touched)
    }
}
