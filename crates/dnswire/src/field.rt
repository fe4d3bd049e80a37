//! Fields of messages: numbers and names (RFC 1035, 4.1).

ghost use Rattle.std.specs.Prelude.{◌≡◌, ◌+◌, ◌<◌, ◌≤◌, length, slice_range, MatchResult};
ghost use Rattle.std.specs.Int.{w16, w32};
ghost use Rattle.push_base.specs.Cases.{fault_as};
ghost use Rattle.dnsname.specs.Reading.{Gives, name_at};
ghost use Rattle.dnswire.specs.Reading.{number_at};
ghost use Rattle.dnswire.specs.Gives.{GivesWire};

use crate::message::WireFault;
use dnsname::{Name, NameFault};
use push_base::Steps;
use std::alloc::Global;
use std::marker::Brand;
use std::sync::ledger::{Blank, Ledger};

/// So many octets at a place.
pub(crate) fn octets_at(message: &[u8], at: usize, count: usize) -> Result<&[u8], WireFault>
    ensures { MatchResult result
        (λ octets. (at + count ≤ length message.now) × (octets.now ≡ slice_range message.now at (at + count)))
        (λ fault. (length message.now < at + count) × (fault ≡ WireFault.Short (length message.now))) }
{
    if at > message.len() {
        return Err(WireFault::Short(message.len()));
    }
    if message.len() - at < count {
        return Err(WireFault::Short(message.len()));
    }
    Ok(&message[at..at + count])
}

/// The number of two octets at a place, and the place after it.
pub(crate) fn read_u16(message: &[u8], at: usize) -> Result<(u16, usize), WireFault>
    ensures { GivesWire result (number_at w16 message.now at) }
{
    let octets = octets_at(message, at, 2)?;
    Ok((u16::from_be_bytes([octets[0], octets[1]]), at + 2))
}

/// The number of four octets at a place, and the place after it.
pub(crate) fn read_u32(message: &[u8], at: usize) -> Result<(u32, usize), WireFault>
    ensures { GivesWire result (number_at w32 message.now at) }
{
    let octets = octets_at(message, at, 4)?;
    let number = u32::from_be_bytes([octets[0], octets[1], octets[2], octets[3]]);
    Ok((number, at + 4))
}

/// The name at a place, and the place after it, with a counter of its own.
fn name_under<L: Ledger>(
    alloc: Global,
    blank: Blank,
    message: &[u8],
    at: usize,
) -> Result<(Name, usize), NameFault>
    requires name { blank.name ≡ L.name }
    requires parts { blank.parts ≡ L.parts }
    requires some { 0 < blank.parts }
    ensures { Gives result (name_at message.now at) }
{
    let mut steps = Steps::<L>::begin(blank);
    Name::read(alloc, message, at, &mut steps)
}

/// The name at a place, and the place after it.
pub(crate) fn read_name(
    alloc: Global,
    message: &[u8],
    at: usize,
) -> Result<(Name, usize), WireFault>
    ensures { GivesWire result (fault_as WireFault.Name (name_at message.now at)) }
{
    match name_under::<Brand>(alloc, Blank::new(1), message, at) {
        Ok((name, after)) => Ok((name, after)),
        Err(NameFault::NoMemory) => Err(WireFault::NoMemory),
        Err(fault) => Err(WireFault::Name(fault)),
    }
}
