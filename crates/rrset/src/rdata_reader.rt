//! Rdata read from a message (RFC 1035, 3.2.1 and 4.1.4).

ghost use Rattle.std.specs.Prelude.{◌≡◌, ◌+◌, ◌<◌, ◌≤◌, length, take, IfOk};
ghost use Rattle.dnsname.specs.Reading.{Gives, name_up_to};
ghost use Rattle.dnsname.specs.Spelling.{SpellsNameIn};
ghost use Rattle.rrset.specs.Rdata.{rdata_at};
ghost use Rattle.rrset.specs.ReadParts.{GivesRdata, grown, onto, read_at, read_from};
ghost use Rattle.rrset.specs.declared.rdata_reader.RdataFault.TheVariants as faults;

use crate::shape::{ShapePart, are_strings, shape};
use dnsname::{Name, NameFault};
use push_base::{Octets, Steps};
use std::alloc::{AllocError, AllocFailed, Global};
use std::marker::Brand;
use std::sync::ledger::{Blank, Ledger};
use thiserror::Error;

/// Why rdata could not be read.
#[derive(Clone, Copy, Debug, PartialEq, Eq, Error)]
pub enum RdataFault {
    /// It doesn't have the shape of its kind. The place is that of a name's fault, the first octet
    /// after the shape, or the end of the rdata where the shape wants more.
    #[error("malformed RDATA at octet {0}")]
    Shape(usize),
    /// Memory ran out.
    #[error("out of memory")]
    NoMemory,
}

impl From<AllocError> for RdataFault {
    ghost from_gives = { λ _ e. e ≡ faults.NoMemory };

    fn from(_e: AllocError) -> RdataFault {
        RdataFault::NoMemory
    }
}

impl<T: Drop> From<AllocFailed<T>> for RdataFault {
    ghost from_gives = { λ _ e. e ≡ faults.NoMemory };

    fn from(_e: AllocFailed<T>) -> RdataFault {
        RdataFault::NoMemory
    }
}

/// The name at a place of rdata that ends at `end`, and the place after it, with a counter of its own.
fn name_under<L: Ledger>(
    alloc: Global,
    blank: Blank,
    message: &[u8],
    end: usize,
    place: usize,
) -> Result<(Name, usize), NameFault>
    requires name { blank.name ≡ L.name }
    requires parts { blank.parts ≡ L.parts }
    requires some { 0 < blank.parts }
    requires end { end ≤ length message.now }
    ensures name { IfOk result (λ read. SpellsNameIn (take end message.now) message.now place read.0 read.1) }
    ensures exact { Gives result (name_up_to end message.now place) }
{
    let mut steps = Steps::<L>::begin(blank);
    Name::read_up_to(alloc, message, end, place, &mut steps)
}

/// Appends the name at a place of rdata that ends at `end`, and gives the place after it.
fn append_name(
    message: &[u8],
    end: usize,
    place: usize,
    out: &mut Vec<u8>,
) -> Result<usize, RdataFault>
    requires { end ≤ length message.now }
    ensures read { GivesRdata (grown out.new.items result) (onto out.old.items (read_at ShapePart.Name message.now end place)) }
    ensures within { IfOk result (λ after. after ≤ end) }
{
    let alloc = *out.allocator();
    match name_under::<Brand>(alloc, Blank::new(1), message, end, place) {
        Ok((name, after)) => {
            name.write_to(out)?;
            Ok(after)
        }
        Err(NameFault::NoMemory) => Err(RdataFault::NoMemory),
        Err(
            NameFault::Short(fault)
            | NameFault::LongLabel(fault)
            | NameFault::Pointer(fault)
            | NameFault::TooLong(fault),
        ) => Err(RdataFault::Shape(fault)),
    }
}

/// Appends so many octets, and gives the place after them.
fn append_octets(
    count: usize,
    message: &[u8],
    end: usize,
    place: usize,
    out: &mut Vec<u8>,
) -> Result<usize, RdataFault>
    requires end { end ≤ length message.now }
    requires place { place ≤ end }
    ensures read { GivesRdata (grown out.new.items result) (onto out.old.items (read_at (ShapePart.Octets count) message.now end place)) }
    ensures within { IfOk result (λ after. after ≤ end) }
{
    let (front, _) = message.split_at(end);
    if end - place < count {
        return Err(RdataFault::Shape(end));
    }
    out.extend_from_slice(&front[place..place + count])?;
    Ok(place + count)
}

/// Appends the counted strings from a place up to the end, and gives the end.
fn append_strings(
    message: &[u8],
    end: usize,
    place: usize,
    out: &mut Vec<u8>,
) -> Result<usize, RdataFault>
    requires end { end ≤ length message.now }
    requires place { place ≤ end }
    ensures read { GivesRdata (grown out.new.items result) (onto out.old.items (read_at ShapePart.Strings message.now end place)) }
    ensures within { IfOk result (λ after. after ≤ end) }
{
    let (front, _) = message.split_at(end);
    let (_, strings) = front.split_at(place);
    if !are_strings(strings) {
        return Err(RdataFault::Shape(end));
    }
    out.extend_from_slice(strings)?;
    Ok(end)
}

/// Appends a part of rdata that ends at `end`, names without pointers, and gives the place after it.
fn append_part(
    part: ShapePart,
    message: &[u8],
    end: usize,
    place: usize,
    out: &mut Vec<u8>,
) -> Result<usize, RdataFault>
    requires end { end ≤ length message.now }
    requires place { place ≤ end }
    ensures read { GivesRdata (grown out.new.items result) (onto out.old.items (read_at part message.now end place)) }
    ensures within { IfOk result (λ after. after ≤ end) }
{
    match part {
        ShapePart::Octets(count) => append_octets(count, message, end, place, out),
        ShapePart::Name => append_name(message, end, place, out),
        ShapePart::Strings => append_strings(message, end, place, out),
    }
}

/// Rdata of these parts from a place up to another, names without pointers.
fn read_parts(
    alloc: Global,
    parts: &[ShapePart],
    message: &[u8],
    at: usize,
    end: usize,
) -> Result<Octets, RdataFault>
    requires end { end ≤ length message.now }
    requires place { at ≤ end }
    ensures { GivesRdata result (read_from parts.now message.now end at) }
{
    let mut out = Vec::new(alloc);
    let mut place = at;
    'parts: for part in parts {
        place = append_part(*part, message, end, place, &mut out)?;
    }
    if place != end {
        return Err(RdataFault::Shape(place));
    }
    Ok(Octets::shared(out)?)
}

/// Rdata of these parts from a place up to another, as it stands where it is octets alone.
fn read_shaped(
    alloc: Global,
    parts: &[ShapePart],
    message: &[u8],
    at: usize,
    end: usize,
) -> Result<Octets, RdataFault>
    requires end { end ≤ length message.now }
    requires place { at ≤ end }
    ensures { GivesRdata result (read_from parts.now message.now end at) }
{
    match parts {
        [ShapePart::Octets(count)] if *count == end - at => {
            let (front, _) = message.split_at(end);
            let (_, octets) = front.split_at(at);
            Ok(Octets::from_slice(alloc, octets)?)
        }
        _ => read_parts(alloc, parts, message, at, end),
    }
}

/// Reads so many octets of rdata at a place of a message. Its names are written out without
/// pointers (RFC 1035, 4.1.4). Rdata of a kind without a shape is taken as it is.
pub fn read_rdata(
    alloc: Global,
    kind: u16,
    message: &[u8],
    at: usize,
    size: usize,
) -> Result<Octets, RdataFault>
    requires { at + size ≤ length message.now }
    ensures { GivesRdata result (rdata_at kind message.now at (at + size)) }
{
    let end = at + size;
    match shape(kind) {
        Some(parts) => read_shaped(alloc, parts, message, at, end),
        None => Ok(Octets::from_slice(alloc, &message[at..end])?),
    }
}
