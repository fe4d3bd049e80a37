//! What a link shows by.

ghost use Rattle.std.specs.Prelude.{◌≡◌, IfOk};

use crate::reverses::Reverses;
use dnsname::Name;
use rrset::NoMemory;
use std::alloc::Global;

/// The cap of a link whose TTLs are shown as they were heard: no TTL is greater (RFC 2181, 8).
pub const NO_CAP: u32 = 4_294_967_295;

/// What a link shows by.
#[derive(Debug, Drop)]
pub struct LinkRules {
    /// The domain under which its records are shown (RFC 8766, 5.5).
    pub domain: Name,
    /// Its reverse domains, under which an owner is shown as it was heard (RFC 8766, 5.4).
    pub reverses: Reverses,
    /// The greatest TTL that is shown (this project's own). It is no bound on how long a record stays: that the TTL sets
    /// that was heard.
    pub cap: u32,
}

impl LinkRules {
    /// The same rules.
    pub(crate) fn copy(&self, alloc: Global) -> Result<LinkRules, NoMemory>
        ensures { IfOk result (λ rules. rules ≡ self.now) }
    {
        Ok(LinkRules {
            domain: self.domain.copy()?,
            reverses: self.reverses.copy(alloc)?,
            cap: self.cap,
        })
    }
}
