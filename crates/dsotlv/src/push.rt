//! The notices of a PUSH (RFC 8765, 6.3.1).

ghost use Rattle.std.specs.Prelude.{◌≡◌, ◌+◌, ◌<◌, ◌≤◌, length, IfOk, OnOk};
ghost use Rattle.std.specs.Int.{w32};
ghost use Rattle.dsotlv.specs.Giving.{GivesPush};
ghost use Rattle.dsotlv.specs.Notices.{field_at, is_single, refused_where, notice_of, notice_at, notices_of};

use crate::NoMemory;
use crate::message::{Notice, Notices, PushFault};
use crate::number::long_number_at;
use crate::question::{plain_name, word_at};
use crate::ttls::{LAST_TTL, REMOVE_MANY, REMOVE_ONE};
use dnsname::Name;
use dnsname::name::Octets;
use rrset::record::Rr;
use rrset::{classes, kinds, shape_fits};
use std::alloc::Global;

/// The number of four octets at a place.
fn long_at(octets: &[u8], at: usize) -> Result<u32, PushFault>
    ensures { result ≡ field_at w32 octets.now at }
{
    if octets.len() < 4 || octets.len() - 4 < at {
        return Err(PushFault::Data(octets.len()));
    }
    Ok(long_number_at(octets, at))
}

/// Whether a record with this TTL is added or removed by itself.
fn is_single(ttl: u32) -> bool
    ensures { result ≡ is_single ttl }
{
    ttl <= LAST_TTL || ttl == REMOVE_ONE
}

/// A fault at a place where a test holds.
fn refused_where(test: bool, place: usize) -> Result<usize, PushFault>
    ensures { result ≡ refused_where test place }
{
    if test {
        return Err(PushFault::Data(place));
    }
    Ok(place)
}

/// What a record says whose fields are allowed.
fn notice_of(rr: Rr) -> Notice
    ensures { result ≡ notice_of rr }
{
    let ttl = rr.ttl;
    if ttl <= LAST_TTL {
        return Notice::Add(rr);
    }
    if ttl == REMOVE_ONE {
        return Notice::RemoveOne(rr);
    }
    let Rr {
        owner,
        class,
        kind,
        ..
    } = rr;
    if ttl != REMOVE_MANY {
        return Notice::Odd(owner, ttl);
    }
    match (class, kind) {
        (classes::ANY, _) => Notice::RemoveAll(owner),
        (_, kinds::ANY) => Notice::RemoveClass(owner, class),
        _ => Notice::RemoveSet(owner, class, kind),
    }
}

/// One record of a PUSH, and the place after it.
fn notice_at(alloc: Global, octets: &[u8], at: usize) -> Result<(Notice, usize), PushFault>
    ensures exact { GivesPush result (notice_at octets.now at) }
    ensures onward { IfOk result (λ found. at < found.1) }
    ensures within { IfOk result (λ found. found.1 ≤ length octets.now) }
{
    let (owner, place) = plain_name(alloc, octets, at)?;
    let kind = word_at(octets, place)?;
    let class = word_at(octets, place + 2)?;
    let ttl = long_at(octets, place + 4)?;
    let single = is_single(ttl);
    refused_where(single && kind == kinds::ANY, place)?;
    refused_where(single && class == classes::ANY, place + 2)?;
    let size = word_at(octets, place + 8)?;
    refused_where(ttl == REMOVE_MANY && size > 0, place + 8)?;
    let end = place + 10 + usize::from(size);
    refused_where(octets.len() < end, octets.len())?;
    let rdata = &octets[place + 10..end];
    refused_where(single && !shape_fits(kind, rdata), place + 10)?;
    let rdata = Octets::from_slice(alloc, rdata)?;
    let rr = Rr {
        owner,
        class,
        kind,
        ttl,
        rdata,
    };
    Ok((notice_of(rr), end))
}

/// The notices that the data of a PUSH is: at least one record with a name without pointers, one behind the other,
/// to the last octet. A fault has the place of the field that is not allowed, or the data's end where it is cut
/// off.
pub fn read_push(alloc: Global, octets: &[u8]) -> Result<Notices, PushFault>
    ensures exact { GivesPush result (notices_of octets.now) }
{
    let mut notices = Notices::new(alloc);
    let mut place = 0;
    'notices: loop {
        let (notice, after) = notice_at(alloc, octets, place)?;
        notices.push(notice)?;
        if after == octets.len() {
            return Ok(notices);
        }
        place = after;
    }
}
