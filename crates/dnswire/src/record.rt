//! Entries of messages: questions and records (RFC 1035, 4.1.2 and 4.1.3).

ghost use Rattle.std.specs.Prelude.{◌≡◌};
ghost use Rattle.dnswire.specs.Reading.{question_at, record_at, rdata_of};
ghost use Rattle.dnswire.specs.Gives.{GivesWire, shape_test};

use crate::field::{octets_at, read_name, read_u16, read_u32};
use crate::message::WireFault;
use push_base::Octets;
use rrset::classes::{IN, NONE};
use rrset::{Question, RdataFault, Rr, read_rdata};
use std::alloc::Global;

/// Whose records are read: it decides which rdata is read by the shape of its kind.
#[derive(Clone, Copy)]
pub enum Shaped {
    /// An update's: class IN, and class NONE where there is any rdata (RFC 2136, 2.4 and 2.5).
    Update,
    /// A datagram's: class IN with or without the cache-flush bit (RFC 6762, 10.2).
    Hearing,
    /// A query's: class IN.
    Query,
}

/// Whether the rdata of so many octets is read by shape, in a record of this class.
fn by_shape(shaped: Shaped, class: u16, size: u16) -> bool
    ensures { result ≡ shape_test shaped class size }
{
    match shaped {
        Shaped::Update => class == IN || (class == NONE && size > 0),
        Shaped::Hearing => class % 0x8000 == IN,
        Shaped::Query => class == IN,
    }
}

/// The question at a place, and the place after it.
pub(crate) fn read_question(
    alloc: Global,
    message: &[u8],
    at: usize,
) -> Result<(Question, usize), WireFault>
    ensures { GivesWire result (question_at message.now at) }
{
    let (name, place) = read_name(alloc, message, at)?;
    let (kind, place) = read_u16(message, place)?;
    let (class, place) = read_u16(message, place)?;
    Ok((Question { name, kind, class }, place))
}

/// Rdata of so many octets at a place, opaque where it isn't read by shape, and the place after it.
fn read_rdata_of(
    alloc: Global,
    by_shape: bool,
    kind: u16,
    message: &[u8],
    at: usize,
    size: u16,
) -> Result<(Octets, usize), WireFault>
    ensures { GivesWire result (rdata_of by_shape kind message.now at size) }
{
    let size = usize::from(size);
    let whole = octets_at(message, at, size)?;
    if !by_shape {
        return Ok((Octets::from_slice(alloc, whole)?, at + size));
    }
    match read_rdata(alloc, kind, message, at, size) {
        Ok(rdata) => Ok((rdata, at + size)),
        Err(RdataFault::Shape(place)) => Err(WireFault::Rdata(place)),
        Err(RdataFault::NoMemory) => Err(WireFault::NoMemory),
    }
}

/// The record at a place, and the place after it.
pub(crate) fn read_record(
    alloc: Global,
    shaped: Shaped,
    message: &[u8],
    at: usize,
) -> Result<(Rr, usize), WireFault>
    ensures { GivesWire result (record_at (shape_test shaped) message.now at) }
{
    let (owner, place) = read_name(alloc, message, at)?;
    let (kind, place) = read_u16(message, place)?;
    let (class, place) = read_u16(message, place)?;
    let (ttl, place) = read_u32(message, place)?;
    let (size, place) = read_u16(message, place)?;
    let (rdata, place) = read_rdata_of(
        alloc,
        by_shape(shaped, class, size),
        kind,
        message,
        place,
        size,
    )?;
    Ok((
        Rr {
            owner,
            class,
            kind,
            ttl,
            rdata,
        },
        place,
    ))
}
