//! The record of a RECONFIRM (RFC 8765, 6.5.1).

ghost use Rattle.std.specs.Prelude.{◌≡◌, IfOk};
ghost use Rattle.dsotlv.specs.Notices.{reconfirm_of};

use crate::NoMemory;
use crate::message::PushFault;
use crate::question::question_first;
use dnsname::name::Octets;
use rrset::record::{Question, Rr};
use std::alloc::Global;

/// The record that the data of a RECONFIRM is: a name without pointers, a kind and a class, and then rdata, to
/// the last octet. Its TTL is 0. Nothing where the data is no record.
pub fn read_reconfirm(alloc: Global, octets: &[u8]) -> Result<Option<Rr>, NoMemory>
    ensures exact { IfOk result (λ rr. rr ≡ reconfirm_of octets.now) }
{
    match question_first(alloc, octets) {
        Ok((question, after)) => {
            let Question { name, kind, class } = question;
            let (_, rdata) = octets.split_at(after);
            let rdata = Octets::from_slice(alloc, rdata)?;
            Ok(Some(Rr {
                owner: name,
                class,
                kind,
                ttl: 0,
                rdata,
            }))
        }
        Err(PushFault::Data(_)) => Ok(None),
        Err(PushFault::NoMemory) => Err(NoMemory),
    }
}
