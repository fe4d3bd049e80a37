//! A set of one name as an update of a zone (RFC 2136, 2.5).

ghost use Rattle.std.specs.Prelude.{◌≡◌, ◌+◌, ◌++◌, ◌<◌, ◌≤◌, ◌^◌, length, map, nat_le, IfOk, OnOk};
ghost use Rattle.dnsname.specs.Names.{octets};
ghost use Rattle.std.specs.List.{flat_map};
ghost use Rattle.push_base.specs.Limits.{max_octets_at_name};
ghost use Rattle.rrset.specs.RecordSet.{size_of};
ghost use Rattle.rrset.specs.Records.{rr_of};
ghost use Rattle.dnswire.specs.Writing.{record_octets, update_octets};
ghost use Rattle.relay.specs.Relay.{carrying, relayed, unfit_kind};
ghost use Rattle.relay.specs.Laws.{IsShort, IsTaken};

use dnsname::Name;
use dnswire::writing::{message_header, write_question, write_record, write_shown};
use push_base::limits::MAX_OCTETS_AT_NAME;
use push_base::{NoMemory, Octets};
use rrset::classes::{ANY, IN};
use rrset::header::UPDATE_OPCODE;
use rrset::kinds::{self, CNAME, SOA, is_meta};
use rrset::record::{Key, Shown};
use rrset::{FIXED_FIELDS, Table};
use std::alloc::Global;

/// The flags of an update (RFC 2136, 2.2).
const UPDATE_FLAGS: u16 = UPDATE_OPCODE << 11;

/// What becomes of a set that is to be carried into a zone.
#[derive(Debug, Drop)]
pub enum Relayed {
    /// Its name is the zone's.
    Apex,
    /// Its name doesn't end in the zone's.
    Outside,
    /// It has an SOA, a meta kind, or an alias beside another record; the kind of the first such record.
    Unfit(u16),
    /// The message.
    Message(Octets),
}

/// The kind of the first record that can't be carried.
fn unfit_kind(entries: &[(Key, Shown)]) -> Option<u16>
    ensures { result ≡ unfit_kind entries.now }
{
    let several = entries.len() > 1;
    let unfit = entries.iter().find(|e| e.0.kind == SOA
        || is_meta(e.0.kind)
        || (e.0.kind == CNAME && several));
    match unfit {
        Some(e) => Some(e.0.kind),
        None => None,
    }
}

/// Appends the records of a set.
fn write_records(entries: &[(Key, Shown)], out: &mut Vec<u8>) -> Result<(), NoMemory>
    requires { size_of entries.now < 2 ^ 16 }
    ensures { OnOk result (out.new.items ≡ out.old.items ++ flat_map record_octets (map (λ e. rr_of e.0 e.1) entries.now)) }
{
    'entries: for (key, shown) in entries {
        write_shown(key, shown, out)?;
    }
    Ok(())
}

/// The message that gives a zone this set of a name.
fn message(
    alloc: Global,
    zone: &Name,
    name: &Name,
    entries: &[(Key, Shown)],
    id: u16,
) -> Result<Octets, NoMemory>
    requires { size_of entries.now ≤ max_octets_at_name }
    ensures { IfOk result (λ octets. octets ≡ update_octets (carrying zone.now name.now entries.now id)) }
{
    let mut out = Vec::new(alloc);
    let count = entries.len() as u16 + 1;
    out.extend_from_slice(&message_header(id, UPDATE_FLAGS, 1, 0, count))?;
    write_question(zone, SOA, IN, &mut out)?;
    write_record(name, ANY, kinds::ANY, 0, &[], &mut out)?;
    write_records(entries, &mut out)?;
    Ok(Octets::from_vec(out))
}

/// Whether a set fits a message: it has at most 60,000 octets.
pub fn fits_message(set: &Table) -> bool
    ensures { result ≡ nat_le (size_of set.now.rows) max_octets_at_name }
{
    let mut size: u64 = 0;
    'entries: for entry in set.entries() {
        size = size.saturating_add(record_size(&entry.1));
    }
    size <= MAX_OCTETS_AT_NAME
}

// The octets of a record (RFC 1035, 3.2.1).
fn record_size(shown: &Shown) -> u64
    ensures { result ≡ length (octets shown.now.owner) + 10 + length shown.now.rdata }
{
    let owner = shown.owner.octets().len() as u64;
    let rdata = shown.rdata.as_slice().len() as u64;
    owner + FIXED_FIELDS + rdata
}

/// What becomes of a set of a name that is to be carried into a zone: the message that gives the zone this set in place of
/// what it has at the name, or why there is none. Of what a client holds, and under a zone whose name has at most 200 octets, the
/// message has at most 60,481 octets, and such a zone takes it, unless it would have too many records (RFC 2136, 3.4.2).
pub fn relay_update(
    alloc: Global,
    zone: &Name,
    name: &Name,
    set: &Table,
    id: u16,
) -> Result<Relayed, NoMemory>
    requires { size_of set.now.rows ≤ max_octets_at_name }
    ensures exact { IfOk result (λ what. what ≡ relayed zone.now name.now set.now.rows id) }
    ensures short { IfOk result (IsShort zone.now name.now set.now.rows) }
    ensures taken { IfOk result (IsTaken zone.now name.now set.now.rows) }
{
    if name.same(zone) {
        return Ok(Relayed::Apex);
    }
    if !name.ends_in(zone) {
        return Ok(Relayed::Outside);
    }
    if let Some(kind) = unfit_kind(set.entries()) {
        return Ok(Relayed::Unfit(kind));
    }
    Ok(Relayed::Message(message(alloc, zone, name, set.entries(), id)?))
}
