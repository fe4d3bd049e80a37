//! What is shown of a record that is heard or written.

ghost use Rattle.std.specs.Prelude.{◌≡◌, IfOk};
ghost use Rattle.rrset.specs.Records.{counted_ttl, shown_of};

use crate::record::{NoMemory, Rr, Shown};

/// The first TTL with its top bit set (RFC 2181, 8).
const FIRST_TOP_BIT: u32 = 1 << 31;

/// A TTL with its top bit set counts as 0 (RFC 2181, 8).
pub fn counted_ttl(ttl: u32) -> u32
    ensures { result ≡ counted_ttl ttl }
{
    if ttl < FIRST_TOP_BIT { ttl } else { 0 }
}

impl Rr {
    /// What is shown of the record, with the TTL that counts.
    pub fn shown(&self) -> Result<Shown, NoMemory>
        ensures { IfOk result (λ shown. shown ≡ record (shown_of self.now) { ttl = counted_ttl self.now.ttl }) }
    {
        Ok(Shown {
            owner: self.owner.copy()?,
            ttl: counted_ttl(self.ttl),
            rdata: self.rdata.copy()?,
        })
    }
}
