//! Reading DSO messages (RFC 8490, 5.4).

ghost use Rattle.std.specs.Prelude.{◌≡◌, ◌≢◌, ◌+◌, ◌<◌, ◌≤◌, length, slice_range, Err, IfOk, IsFalse};
ghost use Rattle.rrset.specs.Header.{header_octets, two_octets, flags_of, opcode_of};
ghost use Rattle.dsotlv.specs.Giving.{GivesDso};
ghost use Rattle.dsotlv.specs.Messages.{tlvs_of, dso_opcode, has_zero_counts, dso_of};

use crate::NoMemory;
use crate::header::{has_zero_counts, tlv_end};
use crate::message::{DsoFault, DsoMessage, Tlv, Tlvs};
use crate::number::number_at;
use dnsname::name::Octets;
use rrset::header::{DSO_OPCODE, HEADER, is_response, opcode_of};
use std::alloc::Global;

/// The TLV that stands from a place to another.
fn tlv_between(alloc: Global, message: &[u8], at: usize, end: usize) -> Result<Tlv, NoMemory>
    requires head { at + 4 ≤ end }
    requires fits { end ≤ length message.now }
    ensures { IfOk result (λ tlv. tlv ≡ record { kind = two_octets message.now at; octets = slice_range message.now (at + 4) end }) }
{
    Ok(Tlv {
        kind: number_at(message, at),
        octets: Octets::from_slice(alloc, &message[at + 4..end])?,
    })
}

/// The TLVs behind the header.
fn tlvs_of(alloc: Global, message: &[u8]) -> Result<Tlvs, DsoFault>
    requires { header_octets ≤ length message.now }
    ensures { GivesDso result (tlvs_of message.now) }
{
    let mut tlvs = Tlvs::new(alloc);
    let mut place = HEADER;
    'tlvs: while place < message.len() {
        let Some(end) = tlv_end(message, place) else {
            return Err(DsoFault::Tlv(place));
        };
        tlvs.push(tlv_between(alloc, message, place, end)?)?;
        place = end;
    }
    Ok(tlvs)
}

/// Reads a DSO message: a header with OPCODE 6 and counts of 0, then whole TLVs, to the last octet. A fault is the
/// first in this order; that of a TLV has the place where the TLV begins. For the header no memory is taken, so that
/// its faults come always.
pub fn read_dso(alloc: Global, message: &[u8]) -> Result<DsoMessage, DsoFault>
    ensures exact { GivesDso result (dso_of message.now) }
    ensures short { length message.now < header_octets → result ≡ Err DsoFault.Short }
    ensures opcode { header_octets ≤ length message.now → opcode_of (flags_of message.now) ≢ dso_opcode → result ≡ Err DsoFault.Opcode }
    ensures counts { header_octets ≤ length message.now → opcode_of (flags_of message.now) ≡ dso_opcode → IsFalse (has_zero_counts message.now) → result ≡ Err DsoFault.Counts }
{
    if message.len() < HEADER {
        return Err(DsoFault::Short);
    }
    let flags = number_at(message, 2);
    if opcode_of(flags) != DSO_OPCODE {
        return Err(DsoFault::Opcode);
    }
    if !has_zero_counts(message) {
        return Err(DsoFault::Counts);
    }
    let tlvs = tlvs_of(alloc, message)?;
    Ok(DsoMessage {
        id: number_at(message, 0),
        response: is_response(flags),
        rcode: (flags % 16) as u8,
        tlvs,
    })
}
