//! The records that a zone begins with.

ghost use Rattle.std.specs.Prelude.{◌≡◌, ◌<◌, ◌≤◌, ◌+◌, ◌++◌, [], ◌∷◌, length, IfOk, OnOk};
ghost use Rattle.std.specs.Int.{w32, to_be_bytes};
ghost use Rattle.dnsname.specs.Names.{octets};
ghost use Rattle.rrset.specs.Records.{key_of, shown_of};
ghost use Rattle.rrset.specs.RecordSet.{put_rr, set_of};
ghost use Rattle.rrset.specs.Tables.{HasLowerOwner};
ghost use Rattle.zoneupdate.specs.Zones.{first_ns, first_soa};

use dnsname::Name;
use dnsname::name::Octets;
use nametable::NameTable;
use rrset::classes::IN;
use rrset::kinds::{NS, SOA};
use rrset::{Key, NoMemory, Rr, Shown};
use std::alloc::Global;

// The times of a zone's first records, in seconds; they are this project's own (RFC 1035, 3.3.13).

/// The TTL of both records.
const TTL: u32 = 3600;

/// After which another server asks whether the zone has changed.
const REFRESH: u32 = 3600;

/// After which it asks again where it got no answer.
const RETRY: u32 = 600;

/// After which it no longer answers for the zone.
const EXPIRE: u32 = 86_400;

/// How long what isn't there counts as not there (RFC 2308, 4).
const MINIMUM: u32 = 60;

/// The octets of the name of one label under another name.
fn octets_under(alloc: Global, label: &[u8], name: &Name) -> Result<Vec<u8>, NoMemory>
    requires { length label.now < 64 }
    ensures name { IfOk result (λ octets'. octets'.items ≡ octets (label.now ∷ name.now)) }
    ensures size { IfOk result (λ octets'. length octets'.items ≤ length label.now + 256) }
{
    let mut octets = Vec::new(alloc);
    octets.push(label.len() as u8)?;
    octets.extend_from_slice(label)?;
    octets.extend_from_slice(name.octets())?;
    Ok(octets)
}

/// The NS, which names `ns.` before the apex (RFC 1035, 3.3.11).
pub(crate) fn first_ns(alloc: Global, apex: &Name) -> Result<Rr, NoMemory>
    ensures record { IfOk result (λ rr. rr ≡ first_ns apex.now) }
    ensures size { IfOk result (λ rr. length rr.rdata ≤ 258) }
{
    let rdata = octets_under(alloc, b"ns", apex)?;
    Ok(Rr {
        owner: apex.copy()?,
        class: IN,
        kind: NS,
        ttl: TTL,
        rdata: Octets::shared(rdata)?,
    })
}

/// The rdata of the SOA.
fn soa_octets(alloc: Global, apex: &Name, serial: u32) -> Result<Vec<u8>, NoMemory>
    ensures octets { IfOk result (λ octets. octets.items ≡ (first_soa apex.now serial).rdata) }
    ensures size { IfOk result (λ octets. length octets.items ≤ 544) }
{
    let mut octets = octets_under(alloc, b"ns", apex)?;
    let rname = octets_under(alloc, b"hostmaster", apex)?;
    octets.extend_from_slice(&rname)?;
    octets.extend_from_slice(&soa_numbers(alloc, serial)?)?;
    Ok(octets)
}

/// The SOA, with its serial and this project's own times (RFC 1035, 3.3.13).
pub(crate) fn first_soa(alloc: Global, apex: &Name, serial: u32) -> Result<Rr, NoMemory>
    ensures record { IfOk result (λ rr. rr ≡ first_soa apex.now serial) }
    ensures size { IfOk result (λ rr. length rr.rdata ≤ 544) }
{
    let rdata = soa_octets(alloc, apex, serial)?;
    Ok(Rr {
        owner: apex.copy()?,
        class: IN,
        kind: SOA,
        ttl: TTL,
        rdata: Octets::shared(rdata)?,
    })
}

/// The serial and the four times of the SOA, each in four octets.
fn soa_numbers(alloc: Global, serial: u32) -> Result<Vec<u8>, NoMemory>
    ensures { IfOk result (λ octets. octets.items ≡ to_be_bytes w32 serial ++ to_be_bytes w32 REFRESH ++ to_be_bytes w32 RETRY ++ to_be_bytes w32 EXPIRE ++ to_be_bytes w32 MINIMUM) }
{
    let mut octets = Vec::new(alloc);
    octets.extend_from_slice(&serial.to_be_bytes())?;
    octets.extend_from_slice(&REFRESH.to_be_bytes())?;
    octets.extend_from_slice(&RETRY.to_be_bytes())?;
    octets.extend_from_slice(&EXPIRE.to_be_bytes())?;
    octets.extend_from_slice(&MINIMUM.to_be_bytes())?;
    Ok(octets)
}

/// The key of a record, and what is shown of it.
fn entry_of(rr: Rr) -> Result<(Key, Shown), NoMemory>
    ensures entry { IfOk result (λ entry. entry ≡ (key_of rr, shown_of rr)) }
    ensures lower { IfOk result (λ entry. HasLowerOwner entry.0) }
{
    let key = rr.key()?;
    let Rr {
        owner,
        ttl,
        rdata,
        ..
    } = rr;
    Ok((key, Shown { owner, ttl, rdata }))
}

/// Puts a record of a new zone.
fn put_first(rows: &mut NameTable, rr: Rr) -> Result<(), NoMemory>
    ensures { OnOk result (rows.new.rows ≡ put_rr rows.old.rows rr) }
{
    let entry = entry_of(rr)?;
    rows.put(entry.0, entry.1)?;
    Ok(())
}

/// The records that a zone begins with.
pub(crate) fn first_records(alloc: Global, apex: &Name, serial: u32) -> Result<NameTable, NoMemory>
    ensures { IfOk result (λ rows. rows.rows ≡ set_of (first_soa apex.now serial ∷ first_ns apex.now ∷ [])) }
{
    let mut rows = NameTable::new(alloc);
    put_first(&mut rows, first_soa(alloc, apex, serial)?)?;
    put_first(&mut rows, first_ns(alloc, apex)?)?;
    Ok(rows)
}
