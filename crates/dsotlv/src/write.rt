//! Writing DSO messages behind their length (RFC 8490, 5.4; RFC 7766, 8).

ghost use Rattle.std.specs.Prelude.{◌≡◌, ◌+◌, ◌++◌, ◌<◌, ◌≤◌, length, flat_map, IfOk, IfSome, OnOk, OnErr, None, Err};
ghost use Rattle.std.specs.Int.{w16, to_be_bytes};
ghost use Rattle.rrset.specs.Header.{header_octets, max_message};
ghost use Rattle.dsotlv.specs.Messages.{tlv_octets, dso_octets, frame};

use crate::NoMemory;
use crate::flags::{ANSWER, REQUEST};
use crate::header::TLV_HEAD;
use crate::message::{DsoMessage, Tlv, WriteDsoFault};
use rrset::header::{HEADER, MAX_MESSAGE};
use std::alloc::Global;

/// How many octets a message with these TLVs takes, where a frame holds them.
fn framed_size(tlvs: &[Tlv]) -> Option<usize>
    ensures some { IfSome result (λ size. size ≡ header_octets + length (flat_map tlv_octets tlvs.now)) }
    ensures fits { IfSome result (λ size. size ≤ max_message) }
    ensures none { result ≡ None → max_message < header_octets + length (flat_map tlv_octets tlvs.now) }
{
    let mut size = HEADER;
    'tlvs: for tlv in tlvs {
        let octets = tlv.octets.len();
        if octets > MAX_MESSAGE - TLV_HEAD {
            return None;
        }
        size += TLV_HEAD + octets;
        if size > MAX_MESSAGE {
            return None;
        }
    }
    Some(size)
}

/// Appends a TLV.
fn push_tlv(tlv: &Tlv, out: &mut Vec<u8>) -> Result<(), NoMemory>
    requires { length tlv.now.octets ≤ max_message }
    ensures { OnOk result (out.new.items ≡ out.old.items ++ tlv_octets tlv.now) }
{
    out.extend_from_slice(&tlv.kind.to_be_bytes())?;
    out.extend_from_slice(&(tlv.octets.len() as u16).to_be_bytes())?;
    out.extend_from_slice(tlv.octets.as_slice())
}

/// Appends TLVs.
fn push_tlvs(tlvs: &[Tlv], out: &mut Vec<u8>) -> Result<(), NoMemory>
    requires { length (flat_map tlv_octets tlvs.now) ≤ max_message }
    ensures { OnOk result (out.new.items ≡ out.old.items ++ flat_map tlv_octets tlvs.now) }
{
    'tlvs: for tlv in tlvs {
        push_tlv(tlv, out)?;
    }
    Ok(())
}

/// A message of so many octets behind its length.
fn framed_octets(alloc: Global, message: &DsoMessage, size: u16) -> Result<Vec<u8>, NoMemory>
    requires rcode { message.now.rcode < 16 }
    requires size { size ≡ length (dso_octets message.now) }
    ensures { IfOk result (λ octets. octets.items ≡ frame (dso_octets message.now)) }
{
    let base = if message.response { ANSWER } else { REQUEST };
    let flags = base + u16::from(message.rcode);
    let mut octets = Vec::new(alloc);
    octets.extend_from_slice(&size.to_be_bytes())?;
    octets.extend_from_slice(&message.id.to_be_bytes())?;
    octets.extend_from_slice(&flags.to_be_bytes())?;
    octets.extend_from_slice(&[0; 8])?;
    push_tlvs(message.tlvs.as_slice(), &mut octets)?;
    Ok(octets)
}

/// Appends a DSO message behind its length, with the Z bits 0. `Long` comes exactly where it takes more than
/// 65,535 octets. On a fault nothing is appended.
pub fn write_dso(message: &DsoMessage, out: &mut Vec<u8>) -> Result<(), WriteDsoFault>
    requires { message.now.rcode < 16 }
    ensures ok { OnOk result (out.new.items ≡ out.old.items ++ frame (dso_octets message.now)) }
    ensures fits { OnOk result (length (dso_octets message.now) ≤ max_message) }
    ensures long { result ≡ Err WriteDsoFault.Long → max_message < length (dso_octets message.now) }
    ensures too_long { max_message < length (dso_octets message.now) → result ≡ Err WriteDsoFault.Long }
    ensures err { OnErr result (out.new.items ≡ out.old.items) }
{
    let size = framed_size(message.tlvs.as_slice()).ok_or(WriteDsoFault::Long)?;
    let octets = framed_octets(*out.allocator(), message, size as u16)?;
    out.extend_from_slice(&octets)?;
    Ok(())
}
