//! What an update is planned to change.

ghost use Rattle.std.specs.Prelude.{◌≡◌, []};
ghost use Rattle.zoneupdate.specs.declared.plan.ZoneFault.TheVariants as faults;

use dnsname::Name;
use rrset::Changed;
use std::alloc::{AllocError, Global};
use std::marker::Model;
use thiserror::Error;

/// The homes that lie under a zone's apex, whose names the zone is not the home of.
#[derive(Debug, Drop)]
pub struct Under {
    pub(crate) names: Vec<Name>,
}

impl Model for Under {
    ghost use Rattle.std.specs.Prelude.{List};
    ghost use Rattle.dnsname.specs.Names.{Labels};

    ghost Value = { List Labels };

    ghost view = { λ u. u.names.items };
}

impl Under {
    /// These homes.
    pub fn from_vec(names: Vec<Name>) -> Self
        ensures { result ≡ names.items }
    {
        Under { names }
    }
}

/// The keys that an accepted update changes, each with what is shown of it before and after, in key order.
#[derive(Debug, Drop)]
pub struct ZonePlan {
    pub(crate) changed: Vec<Changed>,
}

impl Model for ZonePlan {
    ghost use Rattle.std.specs.Prelude.{List};
    ghost use Rattle.rrset.specs.declared.record.Changed.{Changed};

    ghost Value = { List Changed };

    ghost view = { λ p. p.changed.items };
}

impl ZonePlan {
    /// The plan that changes nothing.
    pub(crate) fn of_nothing(alloc: Global) -> Self
        ensures { result ≡ [] }
    {
        ZonePlan {
            changed: Vec::new(alloc),
        }
    }

    /// The keys, in key order.
    pub fn as_slice(&self) -> &[Changed]
        ensures { result.now ≡ self.now }
    {
        &self.changed
    }
}

/// What an update gets: the RCODE that refuses it, or the keys that it changes (RFC 2136, 3).
#[derive(Debug, Drop)]
pub enum Verdict {
    /// This RCODE refuses it.
    Refuse(u8),
    /// It is accepted, and changes these keys.
    Accept(ZonePlan),
}

/// Why there is no such zone.
#[derive(Clone, Copy, Debug, PartialEq, Eq, Error)]
pub enum ZoneFault {
    /// The apex has more than 200 octets.
    #[error("an apex of more than 200 octets")]
    TooLong,
    /// Memory ran out.
    #[error("out of memory")]
    NoMemory,
}

impl From<AllocError> for ZoneFault {
    ghost from_gives = { λ _ e. e ≡ faults.NoMemory };

    fn from(_e: AllocError) -> ZoneFault {
        ZoneFault::NoMemory
    }
}
