//! Writing the record of a notice (RFC 8765, 6.3.1).

ghost use Rattle.std.specs.Prelude.{◌≡◌, ◌++◌, ◌<◌, ◌^◌, length, IfOk, OnOk, OnErr};
ghost use Rattle.dsotlv.specs.Giving.{FitsARecord};
ghost use Rattle.dsotlv.specs.Notices.{push_record, notice_octets};

use crate::NoMemory;
use crate::message::Notice;
use crate::ttls::{REMOVE_MANY, REMOVE_ONE};
use dnsname::Name;
use rrset::{classes, kinds};
use std::alloc::Global;

/// The octets of a record of a PUSH.
fn record_octets(
    alloc: Global,
    owner: &Name,
    kind: u16,
    class: u16,
    ttl: u32,
    rdata: &[u8],
) -> Result<Vec<u8>, NoMemory>
    requires { length rdata.now < 2 ^ 16 }
    ensures { IfOk result (λ octets. octets.items ≡ push_record owner.now kind class ttl rdata.now) }
{
    let mut octets = Vec::new(alloc);
    owner.write_to(&mut octets)?;
    octets.extend_from_slice(&kind.to_be_bytes())?;
    octets.extend_from_slice(&class.to_be_bytes())?;
    octets.extend_from_slice(&ttl.to_be_bytes())?;
    octets.extend_from_slice(&(rdata.len() as u16).to_be_bytes())?;
    octets.extend_from_slice(rdata)?;
    Ok(octets)
}

/// The record of a notice.
fn notice_record(alloc: Global, notice: &Notice) -> Result<Vec<u8>, NoMemory>
    requires { FitsARecord notice.now }
    ensures { IfOk result (λ octets. octets.items ≡ notice_octets notice.now) }
{
    match notice {
        Notice::Add(rr) => {
            let rdata = rr.rdata.as_slice();
            record_octets(alloc, &rr.owner, rr.kind, rr.class, rr.ttl, rdata)
        }
        Notice::RemoveOne(rr) => {
            let rdata = rr.rdata.as_slice();
            record_octets(alloc, &rr.owner, rr.kind, rr.class, REMOVE_ONE, rdata)
        }
        Notice::RemoveSet(owner, class, kind) => {
            record_octets(alloc, owner, *kind, *class, REMOVE_MANY, &[])
        }
        Notice::RemoveClass(owner, class) => {
            record_octets(alloc, owner, kinds::ANY, *class, REMOVE_MANY, &[])
        }
        Notice::RemoveAll(owner) => {
            record_octets(alloc, owner, 0, classes::ANY, REMOVE_MANY, &[])
        }
        Notice::Odd(owner, ttl) => record_octets(alloc, owner, 0, 0, *ttl, &[]),
    }
}

/// Appends the record of a notice, whose RDATA has fewer than 65,536 octets. Where memory runs out nothing is
/// appended.
pub fn write_notice(notice: &Notice, out: &mut Vec<u8>) -> Result<(), NoMemory>
    requires { FitsARecord notice.now }
    ensures ok { OnOk result (out.new.items ≡ out.old.items ++ notice_octets notice.now) }
    ensures err { OnErr result (out.new.items ≡ out.old.items) }
{
    let record = notice_record(*out.allocator(), notice)?;
    out.extend_from_slice(&record)
}
