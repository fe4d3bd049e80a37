//! What the datagrams of a link say (RFC 6762, 6 and 18).

ghost use Rattle.std.specs.Prelude.{◌≡◌, ◌≤◌, ◌++◌, map, length, IfOk, OnOk};
ghost use Rattle.dnswire.specs.Reading.{heard_rr, entries_heard, hearing_of};
ghost use Rattle.dnswire.specs.Gives.{GivesWire, GivesHearing};

use crate::header::{FLAGS, header_field, rcode};
use crate::message::{HearFault, WireFault};
use crate::record::Shaped;
use crate::section::read_sections;
use push_base::limits::MAX_DATAGRAM;
use rrset::header::{HEADER, is_response, opcode_of};
use rrset::{HeardRr, HeardRrs, Hearing, NoMemory, Rr, Rrs};
use std::alloc::Global;

/// The cache-flush bit of a class (RFC 6762, 10.2).
const CACHE_FLUSH: u16 = 0x8000;

/// A record without the cache-flush bit, which stands beside it.
fn heard_rr(rr: Rr) -> HeardRr
    ensures { result ≡ heard_rr rr }
{
    let Rr {
        owner,
        class,
        kind,
        ttl,
        rdata,
    } = rr;
    HeardRr {
        rr: Rr {
            owner,
            class: class % CACHE_FLUSH,
            kind,
            ttl,
            rdata,
        },
        flush: class >= CACHE_FLUSH,
    }
}

/// Appends records as they are heard.
fn push_heard(heard: &mut HeardRrs, rrs: Rrs) -> Result<(), NoMemory>
    ensures { OnOk result (heard.new ≡ heard.old ++ map heard_rr rrs) }
{
    'records: for rr in rrs.into_vec() {
        heard.push(heard_rr(rr))?;
    }
    Ok(())
}

/// The records of both sections as they are heard.
fn all_heard(alloc: Global, answers: Rrs, additional: Rrs) -> Result<HeardRrs, NoMemory>
    ensures { IfOk result (λ heard. heard ≡ map heard_rr (answers ++ additional)) }
{
    let mut heard = HeardRrs::with_room(alloc, answers.len().saturating_add(additional.len()))?;
    push_heard(&mut heard, answers)?;
    push_heard(&mut heard, additional)?;
    Ok(heard)
}

/// What the counted entries of a datagram say.
fn read_entries(alloc: Global, datagram: &[u8]) -> Result<Hearing, WireFault>
    requires { 12 ≤ length datagram.now }
    ensures { GivesWire result (entries_heard datagram.now) }
{
    let sections = read_sections(alloc, Shaped::Hearing, datagram)?;
    Ok(Hearing {
        rrs: all_heard(alloc, sections.answers, sections.additional)?,
    })
}

/// Reads what a datagram of a link says: the records of its answer and additional sections.
/// Questions and the authority section are skipped, octets after the counted entries ignored.
/// The fault is the first one in reading order, with its place (RFC 6762, 6, 17 and 18).
pub fn read_hearing(alloc: Global, datagram: &[u8]) -> Result<Hearing, HearFault>
    ensures { GivesHearing result (hearing_of datagram.now) }
{
    if datagram.len() > MAX_DATAGRAM {
        return Err(HearFault::Long);
    }
    if datagram.len() < HEADER {
        return Err(HearFault::Short);
    }
    let flags = header_field(datagram, FLAGS);
    if !is_response(flags) {
        return Err(HearFault::Query);
    }
    if opcode_of(flags) != 0 || rcode(flags) != 0 {
        return Err(HearFault::Coded);
    }
    match read_entries(alloc, datagram) {
        Ok(hearing) => Ok(hearing),
        Err(WireFault::NoMemory) => Err(HearFault::NoMemory),
        Err(fault) => Err(HearFault::Wire(fault)),
    }
}
