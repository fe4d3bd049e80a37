//! One side of a net.

ghost use Rattle.std.specs.Prelude.{◌≡◌, [], ◌∷◌, ◌==◌, ◌&&◌, not, filter, IsTrue, MatchOption, None, Some};
ghost use Rattle.push_base.specs.Cases.{is_empty};
ghost use Rattle.rrset.specs.KeyedRows.{is_rising};
ghost use Rattle.rrset.specs.RecordSet.{is_in_order, matching, only, shown_at, with_values};
ghost use Rattle.subscr.specs.Asked.{wants};
ghost use Rattle.coalesce.specs.FirstAnswers.{wanted_with};
ghost use Rattle.coalesce.specs.Net.{of_kind};
ghost use Rattle.coalesce.specs.Sides.{IsOneSide, is_asked};
ghost use Rattle.coalesce.specs.Waiting.{values_of};

use crate::asking::{Asking, is_asked};
use crate::merged::{Merged, any_of_kind};
use crate::old_record::{OldRecord, old_at};
use rrset::{Key, Question, Shown, compare_keys};
use std::marker::Model;
use subscr::Subscriptions;

/// Records that are asked for, in their order.
#[derive(Drop)]
pub(crate) struct Records<'a> {
    merged: Merged<'a>,
    asking: Asking<'a>,
}

impl<'a> Model for Records<'a> {
    ghost use Rattle.rrset.specs.RecordSet.{RecordSet, only};
    ghost use Rattle.coalesce.specs.Sides.{is_asked};

    ghost Value = { RecordSet };

    ghost view = { λ s. only (is_asked s.asking) s.merged };
}

impl<'a> Records<'a> {
    /// The records that are asked for, as they were before the changes of old values.
    pub(crate) fn before(rows: &'a [(Key, Shown)], old: &'a [OldRecord], asking: Asking<'a>) -> Self
        requires rows { IsTrue (is_in_order rows.now) }
        requires old { IsTrue (is_rising old.now) }
        ensures { result ≡ only (is_asked asking.entry) (with_values (values_of old.now) rows.now) }
    {
        Records {
            merged: Merged::new(rows, old),
            asking,
        }
    }

    /// Takes the first record off.
    pub(crate) fn next(&mut self) -> Option<&'a (Key, Shown)>
        ensures rest { MatchOption result ((self.old ≡ []) × (self.new ≡ [])) (λ entry. self.old ≡ entry.now ∷ self.new) }
    {
        'rows: while let Some(entry) = self.merged.next() {
            if is_asked(self.asking, &entry.0) {
                return Some(entry);
            }
        }
        None
    }
}

/// The records of one name that are asked for, in key order.
#[derive(Drop)]
pub(crate) struct Side<'a> {
    rows: &'a [(Key, Shown)],
    values: &'a [OldRecord],
    asking: Asking<'a>,
}

impl<'a> Model for Side<'a> {
    ghost use Rattle.std.specs.Prelude.{IsTrue};
    ghost use Rattle.rrset.specs.KeyedRows.{is_rising};
    ghost use Rattle.rrset.specs.RecordSet.{RecordSet, is_in_order, only, with_values};
    ghost use Rattle.coalesce.specs.Sides.{IsOneSide, is_asked};
    ghost use Rattle.coalesce.specs.Waiting.{values_of};

    ghost Value = { RecordSet };

    ghost view = { λ s. only (is_asked s.asking) (with_values (values_of s.values.now) s.rows.now) };

    ghost invariant = { λ s. IsTrue (is_in_order s.rows.now) × IsTrue (is_rising s.values.now) × IsOneSide (with_values (values_of s.values.now) s.rows.now) };
}

/// What is shown of a key among rows.
pub(crate) fn shown_in<'a>(rows: &'a [(Key, Shown)], key: &Key) -> Option<&'a Shown>
    requires { IsTrue (is_in_order rows.now) }
    ensures { MatchOption result (shown_at key.now rows.now ≡ None) (λ shown. shown_at key.now rows.now ≡ Some shown.now) }
{
    match rows.binary_search_by(|entry| compare_keys(&entry.0, key)) {
        Ok(index) => Some(&rows[index].1),
        Err(_) => None,
    }
}

/// What was shown of a key among rows, before the changes of old values.
fn shown_before<'a>(rows: &'a [(Key, Shown)], old: &'a [OldRecord], key: &Key) -> Option<&'a Shown>
    requires rows { IsTrue (is_in_order rows.now) }
    requires old { IsTrue (is_rising old.now) }
    ensures { MatchOption result (shown_at key.now (with_values (values_of old.now) rows.now) ≡ None) (λ shown. shown_at key.now (with_values (values_of old.now) rows.now) ≡ Some shown.now) }
{
    match old_at(old, key) {
        Some(kept) => kept.shown(),
        None => shown_in(rows, key),
    }
}

impl<'a> Side<'a> {
    /// All records.
    #[tactic(auto, using(crate::proofs::OneSide::one_side_order))]
    pub(crate) fn new(rows: &'a [(Key, Shown)]) -> Self
        requires { IsOneSide rows.now }
        ensures { result ≡ rows.now }
    {
        Side {
            rows,
            values: &[],
            asking: Asking::All,
        }
    }

    /// The records that are asked for, as they were before the changes of old values.
    pub(crate) fn before(rows: &'a [(Key, Shown)], old: &'a [OldRecord], asking: Asking<'a>) -> Self
        requires rows { IsTrue (is_in_order rows.now) }
        requires old { IsTrue (is_rising old.now) }
        requires side { IsOneSide (with_values (values_of old.now) rows.now) }
        ensures { result ≡ only (is_asked asking.entry) (with_values (values_of old.now) rows.now) }
    {
        Side {
            rows,
            values: old,
            asking,
        }
    }

    /// The records that one question asks for.
    #[tactic(auto, using(crate::proofs::OneSide::one_side_order))]
    pub(crate) fn matching(rows: &'a [(Key, Shown)], question: &'a Question) -> Self
        requires { IsOneSide rows.now }
        ensures { result ≡ matching question.now rows.now }
    {
        Side {
            rows,
            values: &[],
            asking: Asking::One(question),
        }
    }

    /// The records that one question or others ask for.
    #[tactic(auto, using(crate::proofs::OneSide::one_side_order))]
    pub(crate) fn matching_or_asked(
        rows: &'a [(Key, Shown)],
        question: &'a Question,
        questions: &'a Subscriptions,
    ) -> Self
        requires { IsOneSide rows.now }
        ensures { result ≡ wanted_with question.now (λ key. wants key questions.now) rows.now }
    {
        Side {
            rows,
            values: &[],
            asking: Asking::OneOr(question, questions),
        }
    }

    /// The records, from the first one on.
    pub(crate) fn records(&self) -> Records<'a>
        ensures rows { result ≡ self.now }
        ensures side { IsOneSide self.now }
    {
        Records {
            merged: Merged::new(self.rows, self.values),
            asking: self.asking,
        }
    }

    /// Whether there are no records.
    pub(crate) fn is_empty(&self) -> bool
        ensures { result ≡ is_empty self.now }
    {
        let mut records = self.records();
        records.next().is_none()
    }

    /// Whether there is a record of this kind.
    pub(crate) fn has_kind(&self, kind: u16) -> bool
        ensures { result ≡ not (is_empty (of_kind kind self.now)) }
    {
        any_of_kind(Merged::new(self.rows, self.values), self.asking, kind)
    }

    /// What is shown of a key.
    pub(crate) fn shown_at(&self, key: &Key) -> Option<&'a Shown>
        ensures { MatchOption result (shown_at key.now self.now ≡ None) (λ shown. shown_at key.now self.now ≡ Some shown.now) }
    {
        if !is_asked(self.asking, key) {
            return None;
        }
        shown_before(self.rows, self.values, key)
    }
}
