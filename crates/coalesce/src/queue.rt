//! The queue of names that wait to be told (RFC 8765, 6.3).

ghost use Rattle.std.specs.Prelude.{◌≡◌, ◌+◌, ◌*◌, ◌-◌, ◌≤◌, ◌++◌, [], ℕ, find, fold, length, nat_lt, IsTrue, OnOk, OnErr};
ghost use Rattle.std.specs.List.{AllByRecursion};
ghost use Rattle.push_base.specs.Cases.{is_empty};
ghost use Rattle.push_base.specs.Counted.{CountsUpTo};
ghost use Rattle.rrset.specs.RecordSet.{at_name};
ghost use Rattle.rrset.specs.declared.record.Changed.{Changed};
ghost use Rattle.coalesce.specs.FirstAnswers.{first_notices};
ghost use Rattle.coalesce.specs.Laws.{can_be_sent};
ghost use Rattle.coalesce.specs.Net.{push_frame, max_net_frame};
ghost use Rattle.coalesce.specs.Sides.{IsOneSide, frame_octets};
ghost use Rattle.coalesce.specs.Waiting.{CanBePacked, IsOlder, before_point, differs, first_point, is_named, left_in, names_waiting, old_value, packed_of, since, tells, values_before, with_old, with_old_value, without_name};

use crate::NoMemory;
use crate::first::append_first;
use crate::frame::Frame;
use crate::old_record::OldRecord;
use crate::push_front::{append_lone, append_push, drop_front, front_of};
use crate::waiting::Waiting;
use dnsname::Name;
use indexmap::IndexMap;
use nametable::Index;
use push_base::Steps;
use rrset::{Changed, Question};
use std::alloc::Global;
use std::marker::Model;
use std::sync::ledger::Ledger;
use subscr::Subscriptions;

/// Names that wait, in the order in which they changed, none twice: of each the point before its first change, and of
/// each key that changed since what it showed before its first change.
#[derive(Debug, Drop)]
pub struct Queue {
    names: IndexMap<Name, Waiting>,
}

impl Model for Queue {
    ghost use Rattle.std.specs.Prelude.{List};
    ghost use Rattle.coalesce.specs.Waiting.{WaitingName, names_waiting};

    ghost Value = { List WaitingName };

    ghost view = { λ q. names_waiting q.names.entries };
}

/// Keeps what a key showed: its name waits from its first change on.
fn keep(names: &mut IndexMap<Name, Waiting>, old: &OldRecord) -> Result<(), NoMemory>
    ensures ok { OnOk result (names_waiting names.new.entries ≡ with_old_value (names_waiting names.old.entries) old.now) }
    ensures err { OnErr result (names.new.entries ≡ names.old.entries) }
{
    match names.get_mut(&old.key().owner) {
        Some(waiting) => waiting.keep(old),
        None => {
            let waiting = Waiting::new(*names.allocator(), old)?;
            let name = old.key().owner.copy()?;
            names.insert(name, waiting)?;
            Ok(())
        }
    }
}

/// Keeps what keys showed before they changed at a point. Where memory runs out some are kept, and nothing else changes.
fn keep_each(
    names: &mut IndexMap<Name, Waiting>,
    changed: &[Changed],
    point: u64,
) -> Result<(), NoMemory>
    ensures ok { OnOk result (names_waiting names.new.entries ≡ fold (with_old point) (names_waiting names.old.entries) changed.now) }
    ensures err { OnErr result (before_point point (names_waiting names.new.entries) ≡ before_point point (names_waiting names.old.entries)) }
{
    'changes: for change in changed {
        let old = OldRecord::new(*names.allocator(), change, point)?;
        keep(names, &old)?;
    }
    Ok(())
}

/// Lets go what was kept at a point or a later one.
fn keep_before(names: &mut IndexMap<Name, Waiting>, point: u64)
    ensures { names_waiting names.new.entries ≡ before_point point (names_waiting names.old.entries) }
{
    names.retain(
        |_name: &Name, waiting: &mut Waiting| -> bool
            ensures earlier { result ≡ nat_lt waiting.old.point point }
            ensures values { waiting.new ≡ record { point = waiting.old.point; values = values_before point waiting.old.values } }
        { waiting.keep_before(point) },
    );
}

/// The point of the first of the names.
fn first_point_of(names: &IndexMap<Name, Waiting>) -> Option<u64>
    ensures { result ≡ first_point (names_waiting names.now.entries) }
{
    match names.first() {
        Some((_, waiting)) => Some(waiting.point),
        None => None,
    }
}

impl Queue {
    /// No names.
    pub fn new(alloc: Global) -> Self
        ensures { result ≡ [] }
    {
        Queue {
            names: IndexMap::new(alloc),
        }
    }

    /// Keeps what keys showed before they changed at a point, later than all that is kept: each one's name waits from its
    /// first change on, behind the others, and the key keeps what it showed before its first change. Where memory runs out
    /// nothing changes.
    pub fn note(&mut self, changed: &[Changed], point: u64) -> Result<(), NoMemory>
        requires { AllByRecursion (IsOlder point) self.old }
        ensures ok { OnOk result (self.new ≡ fold (with_old point) self.old changed.now) }
        ensures err { OnErr result (self.new ≡ self.old) }
    {
        match keep_each(&mut self.names, changed, point) {
            Ok(()) => Ok(()),
            Err(fault) => {
                keep_before(&mut self.names, point);
                Err(fault)
            }
        }
    }

    /// Keeps what a key showed before it changed, as `note` does for each. Where memory runs out nothing changes.
    pub fn keep(&mut self, old: &OldRecord) -> Result<(), NoMemory>
        ensures ok { OnOk result ((point : ℕ) (c : Changed) → old.now ≡ (c.key, old_value point c) → self.new ≡ with_old point self.old c) }
        ensures err { OnErr result (self.new ≡ self.old) }
    {
        keep(&mut self.names, old)
    }

    /// The point of a name that waits.
    pub fn since(&self, name: &Name) -> Option<u64>
        ensures { result ≡ since self.now name.now }
    {
        match self.names.get(name) {
            Some(waiting) => Some(waiting.point),
            None => None,
        }
    }

    /// The point of the name that waits first: the least, where points rise.
    pub fn least(&self) -> Option<u64>
        ensures { result ≡ first_point self.now }
    {
        first_point_of(&self.names)
    }

    /// Takes a name out. The others stay in their order.
    pub fn forget(&mut self, name: &Name)
        ensures { self.new ≡ without_name name.now self.old }
    {
        // The length is what says that no name is there twice.
        let _len = self.names.len();
        self.names.shift_remove(name);
    }

    /// Takes out the names that wait since a point or a later one, and of the others what was kept at such a point. They
    /// stay in their order. It takes no memory.
    pub fn take_back(&mut self, point: u64)
        ensures { self.new ≡ before_point point self.old }
    {
        keep_before(&mut self.names, point);
    }

    /// Whether no name waits.
    pub fn is_empty(&self) -> bool
        ensures { result ≡ is_empty self.now }
    {
        self.names.is_empty()
    }

    /// Whether a name waits, and the records of it that the questions ask for differ from what they were. Where nets can
    /// be made of the records, it tells whether the name's net has anything in it.
    pub fn differs<'a, L: Ledger>(
        &'a self,
        name: &Name,
        questions: &'a Subscriptions,
        index: &'a Index,
        steps: &mut Steps<L>,
    ) -> bool
        ensures changed { result ≡ differs questions.now index.now.rows (find (is_named name.now) self.now) }
        ensures net { CanBePacked index.now.rows self.now
            → result ≡ tells questions.now index.now.rows (find (is_named name.now) self.now) }
        ensures steps { CountsUpTo 1 steps.old steps.new }
    {
        match self.names.get_key_value(name) {
            Some((stored, waiting)) => waiting.is_changed(stored, questions, index, steps),
            None => false,
        }
    }

    /// Appends the PUSH that follows the answer to a SUBSCRIBE for a question that is not among the session's
    /// questions, and gives its octets; nothing and 0 where there is nothing to tell (RFC 8765, 6.2.2). It tells the
    /// records of the question; where the name waits and the others' records differ from what they were, it takes all
    /// records of the name away and tells those of all questions anew. It takes no memory.
    pub fn first_answer<L: Ledger>(
        &self,
        question: &Question,
        questions: &Subscriptions,
        index: &Index,
        out: &mut Frame,
        steps: &mut Steps<L>,
    ) -> usize
        requires side { IsOneSide (at_name question.now.name index.now.rows) }
        requires sent { IsTrue (can_be_sent (at_name question.now.name index.now.rows)) }
        requires room { max_net_frame ≤ frame_octets - length out.old }
        ensures written { out.new ≡ out.old ++ push_frame (first_notices question.now questions.now index.now.rows (find (is_named question.now.name) self.now)) }
        ensures size { result ≡ length (push_frame (first_notices question.now questions.now index.now.rows (find (is_named question.now.name) self.now))) }
        ensures steps { CountsUpTo 2 steps.old steps.new }
    {
        let changed = self.differs(&question.name, questions, index, steps);
        let rows = index.at(&question.name, steps);
        append_first(out, rows, question, questions, changed)
    }

    /// Appends one PUSH of the first names, each with its whole net as the questions ask for it, and gives its octets;
    /// where no name has anything to tell, nothing and 0. The first name with a net always goes in, and others as long
    /// as the message has at most 16,382 octets. The names in front of the first that doesn't fit leave the
    /// queue, also those with nothing to tell; the others stay in their order. It takes no memory.
    pub fn pack<L: Ledger>(
        &mut self,
        questions: &Subscriptions,
        index: &Index,
        out: &mut Frame,
        steps: &mut Steps<L>,
    ) -> usize
        requires sides { CanBePacked index.now.rows self.old }
        requires room { max_net_frame ≤ frame_octets - length out.old }
        ensures written { out.new ≡ out.old ++ push_frame (packed_of questions.now index.now.rows self.old).0 }
        ensures size { result ≡ length (push_frame (packed_of questions.now index.now.rows self.old).0) }
        ensures left { self.new ≡ left_in questions.now index.now.rows self.old }
        ensures steps { CountsUpTo (2 * length self.old) steps.old steps.new }
    {
        let count = self.names.len();
        if count == 1 {
            return self.pack_lone(questions, index, out, steps);
        }
        let front = front_of(self.names.as_slice(), questions, index, steps);
        let size = append_push(out, self.names.as_slice(), front, questions, index, steps);
        drop_front(&mut self.names, front.names);
        size
    }

    /// The same of a name that waits alone.
    fn pack_lone<L: Ledger>(
        &mut self,
        questions: &Subscriptions,
        index: &Index,
        out: &mut Frame,
        steps: &mut Steps<L>,
    ) -> usize
        requires sides { CanBePacked index.now.rows self.old }
        requires lone { length self.old ≡ 1 }
        requires room { max_net_frame ≤ frame_octets - length out.old }
        ensures written { out.new ≡ out.old ++ push_frame (packed_of questions.now index.now.rows self.old).0 }
        ensures size { result ≡ length (push_frame (packed_of questions.now index.now.rows self.old).0) }
        ensures left { self.new ≡ left_in questions.now index.now.rows self.old }
        ensures steps { CountsUpTo 1 steps.old steps.new }
    {
        let size = append_lone(out, self.names.as_slice(), questions, index, steps);
        drop_front(&mut self.names, 1);
        size
    }
}
