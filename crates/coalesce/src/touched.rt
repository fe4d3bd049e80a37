//! Both sides of a name that waits, and what differs between them: only at keys that changed.

ghost use Rattle.std.specs.Prelude.{◌≡◌, ◌+◌, ◌≤◌, ◌++◌, flat_map, length, IsTrue, MatchOption, None, Some};
ghost use Rattle.std.specs.List.{list_all};
ghost use Rattle.rrset.specs.RecordSet.{is_in_order, same_rows, shown_at, shown_the_same};
ghost use Rattle.rrset.specs.Tables.{counted};
ghost use Rattle.dsotlv.specs.Notices.{notice_octets};
ghost use Rattle.coalesce.specs.Net.{size_of_notices};
ghost use Rattle.coalesce.specs.Sides.{IsOneSide, frame_octets};
ghost use Rattle.coalesce.specs.Touched.{AreSides, IsTouched, addition_at, came, came_at, gone, is_unchanged, newly, new_rows, old_rows};

use crate::adding::append_addition;
use crate::asking::{Asking, is_asked};
use crate::frame::Frame;
use crate::old_record::OldRecord;
use crate::push_records::record_size;
use crate::side::{Records, Side, shown_in};
use rrset::{Key, Shown, same_shown};

/// The records of a name, and of each key that changed what it showed before.
#[derive(Clone, Copy)]
pub(crate) struct Touched<'a> {
    /// The records that are there, in key order.
    pub rows: &'a [(Key, Shown)],
    /// What the keys showed, in key order.
    pub values: &'a [OldRecord],
    /// Which records are asked for.
    pub asking: Asking<'a>,
}

/// The records as they were.
pub(crate) fn old_side<'a>(touched: &Touched<'a>) -> Side<'a>
    requires { AreSides touched.now }
    ensures { result ≡ old_rows touched.now }
{
    Side::before(touched.rows, touched.values, touched.asking)
}

/// The records that are there.
pub(crate) fn new_side<'a>(touched: &Touched<'a>) -> Side<'a>
    requires { AreSides touched.now }
    ensures { result ≡ new_rows touched.now }
{
    Side::before(touched.rows, &[], touched.asking)
}

/// What keys showed before they changed.
pub(crate) fn gone_records<'a>(touched: &Touched<'a>) -> Records<'a>
    requires { IsTouched touched.now }
    ensures { result ≡ gone touched.now }
{
    Records::before(&[], touched.values, touched.asking)
}

/// Whether a key showed this before it changed.
fn was_shown(value: &OldRecord, shown: &Shown) -> bool
    ensures { result ≡ shown_the_same value.now.1.before (Some shown.now) }
{
    match value.shown() {
        Some(before) => same_shown(before, shown),
        None => false,
    }
}

/// Whether a key shows what it showed before it changed.
fn shows_the_same(rows: &[(Key, Shown)], value: &OldRecord) -> bool
    requires { IsTrue (is_in_order rows.now) }
    ensures { result ≡ shown_the_same value.now.1.before (shown_at value.now.0 rows.now) }
{
    match shown_in(rows, value.key()) {
        Some(shown) => was_shown(value, shown),
        None => value.shown().is_none(),
    }
}

/// Whether a key shows what it showed before it changed, or isn't asked for.
fn is_unchanged(touched: &Touched, value: &OldRecord) -> bool
    requires { IsTouched touched.now }
    ensures { result ≡ is_unchanged touched.now value.now }
{
    shows_the_same(touched.rows, value) || !is_asked(touched.asking, value.key())
}

/// Whether each key shows what it showed before it changed, or isn't asked for.
fn all_unchanged(touched: &Touched) -> bool
    requires { IsTouched touched.now }
    ensures { result ≡ list_all (is_unchanged touched.now) touched.now.values.now }
{
    let mut rest = touched.values;
    'values: while let Some((value, others)) = rest.split_first() {
        if !is_unchanged(touched, value) {
            return false;
        }
        rest = others;
    }
    true
}

/// Whether both sides have the same keys, shown the same.
pub(crate) fn is_same(touched: &Touched) -> bool
    requires { IsTouched touched.now }
    ensures { result ≡ same_rows (old_rows touched.now) (new_rows touched.now) }
{
    all_unchanged(touched)
}

/// What a key shows that it didn't show before it changed.
fn newly<'a>(rows: &'a [(Key, Shown)], value: &OldRecord) -> Option<&'a Shown>
    requires { IsTrue (is_in_order rows.now) }
    ensures { MatchOption result (newly value.now.1.before (shown_at value.now.0 rows.now) ≡ None) (λ shown. newly value.now.1.before (shown_at value.now.0 rows.now) ≡ Some shown.now) }
{
    let shown = shown_in(rows, value.key())?;
    if was_shown(value, shown) {
        return None;
    }
    Some(shown)
}

/// What a key shows that it didn't show before it changed, where it is asked for.
fn came_at<'a>(touched: &Touched<'a>, value: &OldRecord) -> Option<&'a Shown>
    requires { IsTouched touched.now }
    ensures { MatchOption result (came_at touched.now value.now ≡ None) (λ shown. came_at touched.now value.now ≡ Some shown.now) }
{
    if is_asked(touched.asking, value.key()) {
        newly(touched.rows, value)
    } else {
        None
    }
}

/// The octets of the addition of what a key shows newly.
fn size_at(touched: &Touched, value: &OldRecord) -> u64
    requires { IsTouched touched.now }
    ensures { result ≡ size_of_notices (addition_at value.now.0 (came_at touched.now value.now)) }
{
    match came_at(touched, value) {
        Some(shown) => record_size(&shown.owner, shown.rdata.as_slice()),
        None => 0,
    }
}

/// Appends the addition of what a key shows newly.
fn append_at(out: &mut Frame, touched: &Touched, value: &OldRecord)
    requires touched { IsTouched touched.now }
    requires side { IsOneSide touched.now.rows.now }
    requires room { length out.old + size_of_notices (addition_at value.now.0 (came_at touched.now value.now)) ≤ frame_octets }
    ensures { out.new ≡ out.old ++ flat_map notice_octets (addition_at value.now.0 (came_at touched.now value.now)) }
{
    if let Some(shown) = came_at(touched, value) {
        append_addition(out, value.key(), shown);
    }
}

/// The octets of the additions of what keys show newly, or the greatest number of 64 bits where they are more.
pub(crate) fn came_size(touched: &Touched) -> u64
    requires { IsTouched touched.now }
    ensures { result ≡ counted (size_of_notices (came touched.now)) }
{
    let mut size: u64 = 0;
    let mut rest = touched.values;
    'values: while let Some((value, others)) = rest.split_first() {
        size = size.saturating_add(size_at(touched, value));
        rest = others;
    }
    size
}

/// Appends the additions of what keys show newly.
pub(crate) fn append_came(out: &mut Frame, touched: &Touched)
    requires touched { IsTouched touched.now }
    requires side { IsOneSide touched.now.rows.now }
    requires room { length out.old + size_of_notices (came touched.now) ≤ frame_octets }
    ensures { out.new ≡ out.old ++ flat_map notice_octets (came touched.now) }
{
    let mut rest = touched.values;
    'values: while let Some((value, others)) = rest.split_first() {
        append_at(out, touched, value);
        rest = others;
    }
}
