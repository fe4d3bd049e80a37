//! What is told of the records that were there.

ghost use Rattle.std.specs.Prelude.{◌≡◌, ◌+◌, ◌<◌, ◌≤◌, ◌^◌, ◌++◌, length, flat_map, None};
ghost use Rattle.rrset.specs.Tables.{counted};
ghost use Rattle.dsotlv.specs.Notices.{notice_octets};
ghost use Rattle.coalesce.specs.Net.{size_of_notices};
ghost use Rattle.coalesce.specs.Sides.{IsOneSide, frame_octets};
ghost use Rattle.coalesce.specs.Steps.{removal_of, removal_notices, removals_behind};

use crate::frame::Frame;
use crate::push_records::{Fields, append_record, record_size};
use crate::side::{Records, Side};
use dnsname::Name;
use dsotlv::ttls::{REMOVE_MANY, REMOVE_ONE};
use rrset::classes::IN;
use rrset::{Key, Shown};

/// What is told of a record that was there.
#[derive(Clone, Copy)]
pub(crate) enum Removal {
    /// It is there still, or its kind was told of.
    Nothing,
    /// Its kind is gone.
    Set,
    /// It is gone, and others of its kind are there.
    One,
}

/// What is told of a record behind one of the kind `before`.
fn removal_at(new: &Side, before: Option<u16>, key: &Key) -> Removal
    ensures { result ≡ removal_of new.now before key.now }
{
    if !new.has_kind(key.kind) {
        if before == Some(key.kind) {
            Removal::Nothing
        } else {
            Removal::Set
        }
    } else if new.shown_at(key).is_some() {
        Removal::Nothing
    } else {
        Removal::One
    }
}

/// The octets of what is told of a record.
fn removal_size(name: &Name, key: &Key, shown: &Shown, removal: Removal) -> u64
    ensures { result ≡ size_of_notices (removal_notices name.now (key.now, shown.now) removal) }
{
    match removal {
        Removal::Nothing => 0,
        Removal::Set => record_size(name, &[]),
        Removal::One => record_size(&shown.owner, shown.rdata.as_slice()),
    }
}

/// Appends what is told of a record.
fn append_removal(out: &mut Frame, name: &Name, key: &Key, shown: &Shown, removal: Removal)
    requires rdata { length shown.now.rdata < 2 ^ 16 }
    requires room { length out.old + size_of_notices (removal_notices name.now (key.now, shown.now) removal) ≤ frame_octets }
    ensures { out.new ≡ out.old ++ flat_map notice_octets (removal_notices name.now (key.now, shown.now) removal) }
{
    match removal {
        Removal::Nothing => {}
        Removal::Set => {
            let fields = Fields {
                kind: key.kind,
                class: IN,
                ttl: REMOVE_MANY,
            };
            append_record(out, name, fields, &[]);
        }
        Removal::One => {
            let fields = Fields {
                kind: key.kind,
                class: key.class,
                ttl: REMOVE_ONE,
            };
            append_record(out, &shown.owner, fields, shown.rdata.as_slice());
        }
    }
}

/// The octets of what is told of records that were there, or the greatest number of 64 bits where they are more.
pub(crate) fn removals_size(name: &Name, mut rest: Records, new: &Side) -> u64
    ensures { result ≡ counted (size_of_notices (removals_behind name.now new.now None rest.entry)) }
{
    let mut size: u64 = 0;
    let mut before = None;
    'records: while let Some((key, shown)) = rest.next() {
        let removal = removal_at(new, before, key);
        size = size.saturating_add(removal_size(name, key, shown, removal));
        before = Some(key.kind);
    }
    size
}

/// Appends what is told of records that were there.
pub(crate) fn append_removals(out: &mut Frame, name: &Name, mut rest: Records, new: &Side)
    requires side { IsOneSide rest }
    requires room { length out.old + size_of_notices (removals_behind name.now new.now None rest) ≤ frame_octets }
    ensures { out.new ≡ out.old ++ flat_map notice_octets (removals_behind name.now new.now None rest.entry) }
{
    let mut before = None;
    'records: while let Some((key, shown)) = rest.next() {
        let removal = removal_at(new, before, key);
        append_removal(out, name, key, shown, removal);
        before = Some(key.kind);
    }
}
