//! What is read of a message, and why octets are none.

ghost use Rattle.std.specs.Prelude.{◌≡◌};
ghost use Rattle.dnswire.specs.declared.message.WireFault.TheVariants as faults;

use dnsname::name::NameFault;
use rrset::record::{Questions, Rrs};
use std::alloc::{AllocError, AllocFailed};
use thiserror::Error;

/// An update (RFC 2136, 2).
#[derive(Debug, Drop)]
pub struct Update {
    /// The ID.
    pub id: u16,
    /// The zone section (RFC 2136, 2.3).
    pub zones: Questions,
    /// The prerequisite section (RFC 2136, 2.4).
    pub prereqs: Rrs,
    /// The update section (RFC 2136, 2.5).
    pub changes: Rrs,
}

/// Why octets are no message, with the place.
#[derive(Clone, Copy, Debug, PartialEq, Eq, Error)]
pub enum WireFault {
    /// The message ends too early.
    #[error("the message ends at octet {0}")]
    Short(usize),
    /// Octets follow the message.
    #[error("octets behind the message at octet {0}")]
    Trailing(usize),
    /// A name is outside the grammar.
    #[error("{0}")]
    Name(NameFault),
    /// Rdata doesn't have the shape of its kind.
    #[error("malformed RDATA at octet {0}")]
    Rdata(usize),
    /// Memory ran out.
    #[error("out of memory")]
    NoMemory,
}

impl From<AllocError> for WireFault {
    ghost from_gives = { λ _ e. e ≡ faults.NoMemory };

    fn from(_e: AllocError) -> WireFault {
        WireFault::NoMemory
    }
}

impl<T: Drop> From<AllocFailed<T>> for WireFault {
    ghost from_gives = { λ _ e. e ≡ faults.NoMemory };

    fn from(_e: AllocFailed<T>) -> WireFault {
        WireFault::NoMemory
    }
}

/// Why a datagram is no hearing.
#[derive(Clone, Copy, Debug, PartialEq, Eq, Error)]
pub enum HearFault {
    /// More than 9,000 octets (RFC 6762, 17).
    #[error("a datagram of more than 9,000 octets")]
    Long,
    /// Fewer octets than a header has.
    #[error("a datagram shorter than a header")]
    Short,
    /// It is no response (RFC 6762, 18.2).
    #[error("no response")]
    Query,
    /// Its OPCODE or its RCODE is not 0 (RFC 6762, 18.3 and 18.11).
    #[error("an OPCODE or an RCODE other than 0")]
    Coded,
    /// An entry that its counts tell is outside the grammar.
    #[error("{0}")]
    Wire(WireFault),
    /// Memory ran out.
    #[error("out of memory")]
    NoMemory,
}
