//! Records of a PUSH, and what stands in front of them (RFC 8765, 6.3).

ghost use Rattle.std.specs.Prelude.{◌≡◌, ◌+◌, ◌<◌, ◌≤◌, ◌^◌, ◌++◌, length};
ghost use Rattle.dnsname.specs.Names.{octets};
ghost use Rattle.dsotlv.specs.Notices.{push_record};
ghost use Rattle.coalesce.specs.Net.{message_head};
ghost use Rattle.coalesce.specs.Sides.{frame_octets};
ghost use Rattle.coalesce.specs.Steps.{behind_owner, head_of};

use crate::frame::Frame;
use dnsname::Name;
use dsotlv::LENGTH;
use dsotlv::flags::REQUEST;
use dsotlv::kinds::PUSH;
use rrset::FIXED_FIELDS;

/// The octets of a message in front of its records: header, and the TLV's kind and length.
pub(crate) const MESSAGE_HEAD: u64 = 16;

/// The octets of a frame in front of its records: length, and the message's head.
pub(crate) const FRAME_HEAD: usize = LENGTH + MESSAGE_HEAD as usize;

/// The fields of a record behind its owner (RFC 1035, 3.2.1).
#[derive(Clone, Copy)]
pub(crate) struct Fields {
    /// The TYPE.
    pub kind: u16,
    /// The CLASS.
    pub class: u16,
    /// The TTL: in seconds, or what it says in a PUSH (RFC 8765, 6.3.1).
    pub ttl: u32,
}

/// The octets of a record with this owner and rdata.
pub(crate) fn record_size(owner: &Name, rdata: &[u8]) -> u64
    ensures size { result ≡ length (octets owner.now) + 10 + length rdata.now }
    ensures most { result ≤ 265 + length rdata.now }
{
    let owner = owner.octets().len() as u64;
    let rdata = rdata.len() as u64;
    owner + FIXED_FIELDS + rdata
}

/// Appends what stands in a record behind its owner.
pub(crate) fn append_fields(out: &mut Frame, fields: Fields, rdata: &[u8])
    requires rdata { length rdata.now < 2 ^ 16 }
    requires room { length out.old + length (behind_owner fields.kind fields.class fields.ttl rdata.now) ≤ frame_octets }
    ensures { out.new ≡ out.old ++ behind_owner fields.kind fields.class fields.ttl rdata.now }
{
    out.append(&fields.kind.to_be_bytes());
    out.append(&fields.class.to_be_bytes());
    out.append(&fields.ttl.to_be_bytes());
    out.append(&(rdata.len() as u16).to_be_bytes());
    out.append(rdata);
}

/// Appends a record.
pub(crate) fn append_record(out: &mut Frame, owner: &Name, fields: Fields, rdata: &[u8])
    requires rdata { length rdata.now < 2 ^ 16 }
    requires room { length out.old + length (push_record owner.now fields.kind fields.class fields.ttl rdata.now) ≤ frame_octets }
    ensures { out.new ≡ out.old ++ push_record owner.now fields.kind fields.class fields.ttl rdata.now }
{
    out.append(owner.octets());
    append_fields(out, fields, rdata);
}

/// Appends what stands in front of so many octets of records.
pub(crate) fn append_head(out: &mut Frame, size: usize)
    requires size { message_head + size < 2 ^ 16 }
    requires room { length out.old + 18 ≤ frame_octets }
    ensures { out.new ≡ out.old ++ head_of size }
{
    out.append(&((MESSAGE_HEAD as usize + size) as u16).to_be_bytes());
    out.append(&0_u16.to_be_bytes());
    out.append(&REQUEST.to_be_bytes());
    out.append(&[0; 8]);
    out.append(&PUSH.to_be_bytes());
    out.append(&(size as u16).to_be_bytes());
}
