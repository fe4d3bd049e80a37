//! What is told of the records that are there.

ghost use Rattle.std.specs.Prelude.{◌≡◌, ◌+◌, ◌<◌, ◌≤◌, ◌^◌, ◌++◌, length, flat_map, Some};
ghost use Rattle.rrset.specs.RecordSet.{shown_at, shown_the_same, size_of};
ghost use Rattle.rrset.specs.Records.{rr_of};
ghost use Rattle.rrset.specs.Tables.{counted};
ghost use Rattle.dsotlv.specs.Notices.{notice_octets};
ghost use Rattle.coalesce.specs.Net.{size_of_notices, additions};
ghost use Rattle.coalesce.specs.Sides.{frame_octets};
ghost use Rattle.coalesce.specs.Steps.{added, additions_to};

use crate::frame::Frame;
use crate::push_records::{Fields, append_record, record_size};
use crate::side::Side;
use rrset::{Key, Shown, same_shown};

/// Whether a key is shown so.
fn is_shown(old: &Side, key: &Key, shown: &Shown) -> bool
    ensures { result ≡ shown_the_same (shown_at key.now old.now) (Some shown.now) }
{
    match old.shown_at(key) {
        Some(before) => same_shown(before, shown),
        None => false,
    }
}

/// Appends the addition of a record.
pub(crate) fn append_addition(out: &mut Frame, key: &Key, shown: &Shown)
    requires rdata { length shown.now.rdata < 2 ^ 16 }
    requires room { length out.old + size_of_notices (added (key.now, shown.now)) ≤ frame_octets }
    ensures { out.new ≡ out.old ++ flat_map notice_octets (added (key.now, shown.now)) }
{
    let fields = Fields {
        kind: key.kind,
        class: key.class,
        ttl: shown.ttl,
    };
    append_record(out, &shown.owner, fields, shown.rdata.as_slice());
}

/// The octets of the additions of what wasn't shown so, or the greatest number of 64 bits where they are more.
pub(crate) fn changed_size(old: &Side, new: &Side) -> u64
    ensures { result ≡ counted (size_of_notices (additions_to old.now new.now)) }
{
    let mut size: u64 = 0;
    let mut rest = new.records();
    'records: while let Some((key, shown)) = rest.next() {
        if !is_shown(old, key, shown) {
            size = size.saturating_add(record_size(&shown.owner, shown.rdata.as_slice()));
        }
    }
    size
}

/// Appends the additions of what wasn't shown so.
pub(crate) fn append_changed(out: &mut Frame, old: &Side, new: &Side)
    requires room { length out.old + size_of_notices (additions_to old.now new.now) ≤ frame_octets }
    ensures { out.new ≡ out.old ++ flat_map notice_octets (additions_to old.now new.now) }
{
    let mut rest = new.records();
    'records: while let Some((key, shown)) = rest.next() {
        if !is_shown(old, key, shown) {
            append_addition(out, key, shown);
        }
    }
}

/// The octets of the additions of all records, or the greatest number of 64 bits where they are more.
pub(crate) fn all_size(new: &Side) -> u64
    ensures { result ≡ counted (size_of_notices (additions new.now)) }
{
    let mut size: u64 = 0;
    let mut rest = new.records();
    'records: while let Some((_, shown)) = rest.next() {
        size = size.saturating_add(record_size(&shown.owner, shown.rdata.as_slice()));
    }
    size
}

/// The octets of the additions of all records where they are at most so many, or else a number above that.
pub(crate) fn all_size_up_to(new: &Side, most: u64) -> u64
    ensures within { result ≤ most → result ≡ counted (size_of_notices (additions new.now)) }
    ensures beyond { most < result → most < counted (size_of_notices (additions new.now)) }
{
    let mut size: u64 = 0;
    let mut rest = new.records();
    'records: while let Some((_, shown)) = rest.next() {
        size = size.saturating_add(record_size(&shown.owner, shown.rdata.as_slice()));
        if size > most {
            return size;
        }
    }
    size
}

/// Appends the additions of all records.
pub(crate) fn append_all(out: &mut Frame, new: &Side)
    requires room { length out.old + size_of_notices (additions new.now) ≤ frame_octets }
    ensures { out.new ≡ out.old ++ flat_map notice_octets (additions new.now) }
{
    let mut rest = new.records();
    'records: while let Some((key, shown)) = rest.next() {
        append_addition(out, key, shown);
    }
}
