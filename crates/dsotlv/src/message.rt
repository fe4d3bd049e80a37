//! The types of DSO messages and notices.

ghost use Rattle.std.specs.Prelude.{◌≡◌, ◌++◌, [], ◌∷◌, length, OnOk, OnErr};
ghost use Rattle.dsotlv.specs.declared.message.DsoFault.TheVariants as faults;
ghost use Rattle.dsotlv.specs.declared.message.PushFault.TheVariants as push_faults;
ghost use Rattle.dsotlv.specs.declared.message.WriteDsoFault.TheVariants as write_faults;

use crate::NoMemory;
use dnsname::name::{Name, Octets};
use rrset::record::Rr;
use std::alloc::{AllocError, Global};
use std::marker::Model;
use thiserror::Error;

/// A TLV (RFC 8490, 5.4.4).
#[derive(Debug, Drop)]
pub struct Tlv {
    /// The DSO-TYPE.
    pub kind: u16,
    /// The DSO-DATA.
    pub octets: Octets,
}

/// TLVs, seen as their list.
#[derive(Debug, Drop)]
pub struct Tlvs {
    items: Vec<Tlv>,
}

impl Model for Tlvs {
    ghost use Rattle.std.specs.Prelude.{List};
    ghost use Rattle.dsotlv.specs.declared.message.Tlv.{Tlv};

    ghost Value = { List Tlv };

    ghost view = { λ l. l.items.items };
}

impl Tlvs {
    /// No TLVs.
    pub fn new(alloc: Global) -> Self
        ensures { result ≡ [] }
    {
        Tlvs {
            items: Vec::new(alloc),
        }
    }

    /// These TLVs.
    pub fn from_vec(items: Vec<Tlv>) -> Self
        ensures { result ≡ items.items }
    {
        Tlvs { items }
    }

    /// Appends one. A list that can't grow stays as it was.
    pub fn push(&mut self, tlv: Tlv) -> Result<(), NoMemory>
        ensures ok { OnOk result (self.new ≡ self.old ++ tlv ∷ []) }
        ensures err { OnErr result (self.new ≡ self.old) }
    {
        self.items.push(tlv)?;
        Ok(())
    }

    /// The TLVs, in order.
    pub fn as_slice(&self) -> &[Tlv]
        ensures { result.now ≡ self.now }
    {
        &self.items
    }

    /// How many TLVs there are.
    pub fn len(&self) -> usize
        ensures { result ≡ length self.now }
    {
        self.items.len()
    }
}

/// A DSO message (RFC 8490, 5.4).
#[derive(Debug, Drop)]
pub struct DsoMessage {
    /// The ID; 0 where no answer is wanted (RFC 8490, 5.4.1).
    pub id: u16,
    /// QR: whether it is an answer.
    pub response: bool,
    /// The RCODE, below 16.
    pub rcode: u8,
    /// The TLVs; the first of a request is the primary one (RFC 8490, 5.4.2).
    pub tlvs: Tlvs,
}

/// What a reaction needs to know of a message.
#[derive(Clone, Copy, Debug)]
pub struct DsoHead {
    /// The ID.
    pub id: u16,
    /// The flags: QR, OPCODE, Z bits and RCODE.
    pub flags: u16,
    /// Whether all four counts are 0 (RFC 8490, 5.4.1).
    pub zero_counts: bool,
    /// Whether whole TLVs follow the header, to the last octet.
    pub tlvs_good: bool,
    /// The kind of the primary TLV and the octets of its data, where the TLVs are whole and there is one.
    pub primary: Option<(u16, u16)>,
}

/// A record of a PUSH (RFC 8765, 6.3.1).
#[derive(Debug, Drop)]
pub enum Notice {
    /// The record is there, with this TTL.
    Add(Rr),
    /// The record of this key is gone.
    RemoveOne(Rr),
    /// All records of a name, a class and a TYPE, in this order, are gone.
    RemoveSet(Name, u16, u16),
    /// All records of a name and a class are gone.
    RemoveClass(Name, u16),
    /// All records of a name are gone.
    RemoveAll(Name),
    /// A record with a TTL of which nothing is said, from 0x80000000 to 0xFFFFFFFD. It changes nothing.
    Odd(Name, u32),
}

/// Notices, seen as their list.
#[derive(Debug, Drop)]
pub struct Notices {
    items: Vec<Notice>,
}

impl Model for Notices {
    ghost use Rattle.std.specs.Prelude.{List};
    ghost use Rattle.dsotlv.specs.declared.message.Notice.{Notice};

    ghost Value = { List Notice };

    ghost view = { λ l. l.items.items };
}

impl Notices {
    /// No notices.
    pub fn new(alloc: Global) -> Self
        ensures { result ≡ [] }
    {
        Notices {
            items: Vec::new(alloc),
        }
    }

    /// These notices.
    pub fn from_vec(items: Vec<Notice>) -> Self
        ensures { result ≡ items.items }
    {
        Notices { items }
    }

    /// Appends one. A list that can't grow stays as it was.
    pub fn push(&mut self, notice: Notice) -> Result<(), NoMemory>
        ensures ok { OnOk result (self.new ≡ self.old ++ notice ∷ []) }
        ensures err { OnErr result (self.new ≡ self.old) }
    {
        self.items.push(notice)?;
        Ok(())
    }

    /// The notices, in order.
    pub fn as_slice(&self) -> &[Notice]
        ensures { result.now ≡ self.now }
    {
        &self.items
    }

    /// How many notices there are.
    pub fn len(&self) -> usize
        ensures { result ≡ length self.now }
    {
        self.items.len()
    }
}

/// Why octets are no DSO message (RFC 8490, 5.4).
#[derive(Clone, Copy, Debug, PartialEq, Eq, Error)]
pub enum DsoFault {
    /// Fewer octets than a header has.
    #[error("a message shorter than a header")]
    Short,
    /// Another OPCODE than that of DSO.
    #[error("an OPCODE other than DSO")]
    Opcode,
    /// A count that is not 0.
    #[error("a count that is not 0")]
    Counts,
    /// The TLV that begins there is cut off.
    #[error("the TLV at octet {0} is cut off")]
    Tlv(usize),
    /// Memory ran out.
    #[error("out of memory")]
    NoMemory,
}

impl From<AllocError> for DsoFault {
    ghost from_gives = { λ _ e. e ≡ faults.NoMemory };

    fn from(_e: AllocError) -> DsoFault {
        DsoFault::NoMemory
    }
}

/// Why octets are no data of a PUSH, with the place.
#[derive(Clone, Copy, Debug, PartialEq, Eq, Error)]
pub enum PushFault {
    /// What stands there is no record of a PUSH.
    #[error("no record of a PUSH at octet {0}")]
    Data(usize),
    /// Memory ran out.
    #[error("out of memory")]
    NoMemory,
}

impl From<AllocError> for PushFault {
    ghost from_gives = { λ _ e. e ≡ push_faults.NoMemory };

    fn from(_e: AllocError) -> PushFault {
        PushFault::NoMemory
    }
}

/// Why a DSO message could not be written.
#[derive(Clone, Copy, Debug, PartialEq, Eq, Error)]
pub enum WriteDsoFault {
    /// It takes more than 65,535 octets, which no frame holds.
    #[error("a message of more than 65,535 octets")]
    Long,
    /// Memory ran out.
    #[error("out of memory")]
    NoMemory,
}

impl From<AllocError> for WriteDsoFault {
    ghost from_gives = { λ _ e. e ≡ write_faults.NoMemory };

    fn from(_e: AllocError) -> WriteDsoFault {
        WriteDsoFault::NoMemory
    }
}
