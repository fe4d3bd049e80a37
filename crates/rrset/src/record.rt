//! Records, their keys and questions (RFC 1035, 3.2.1 and 4.1.2), and lists of them.

pub use dnsname::NoMemory;
use dnsname::name::{Name, Octets};
use std::marker::Model;

/// What makes two records one: owner and names inside rdata are in lower case.
#[derive(Debug, Drop)]
pub struct Key {
    /// The owner, in lower case.
    pub owner: Name,
    /// The class (RFC 1035, 3.2.4).
    pub class: u16,
    /// The TYPE (RFC 1035, 3.2.2).
    pub kind: u16,
    /// The rdata, without pointers, the names in it in lower case.
    pub rdata: Octets,
}

/// What is shown of a record, as last written.
#[derive(Debug, Drop)]
pub struct Shown {
    /// The owner, in the letter case that was written.
    pub owner: Name,
    /// The TTL, in seconds.
    pub ttl: u32,
    /// The rdata, without pointers.
    pub rdata: Octets,
}

/// A record (RFC 1035, 3.2.1).
#[derive(Debug, Drop)]
pub struct Rr {
    /// The owner.
    pub owner: Name,
    /// The CLASS.
    pub class: u16,
    /// The TYPE.
    pub kind: u16,
    /// The TTL, in seconds.
    pub ttl: u32,
    /// The RDATA, without pointers.
    pub rdata: Octets,
}

/// A question (RFC 1035, 4.1.2).
#[derive(Debug, Drop)]
pub struct Question {
    /// The QNAME.
    pub name: Name,
    /// The QTYPE; `ANY` asks for every kind.
    pub kind: u16,
    /// The QCLASS; `ANY` asks for every class.
    pub class: u16,
}

/// A record of a link, with the cache-flush bit (RFC 6762, 10.2).
#[derive(Debug, Drop)]
pub struct HeardRr {
    /// The record, its class without the cache-flush bit.
    pub rr: Rr,
    /// Whether the cache-flush bit was set.
    pub flush: bool,
}

/// Records, seen as their list.
#[derive(Debug, Drop)]
pub struct Rrs {
    pub(crate) items: Vec<Rr>,
}

impl Model for Rrs {
    ghost use Rattle.std.specs.Prelude.{List};
    ghost use Rattle.rrset.specs.declared.record.Rr.{Rr};

    ghost Value = { List Rr };

    ghost view = { λ l. l.items.items };
}

/// Questions, seen as their list.
#[derive(Debug, Drop)]
pub struct Questions {
    pub(crate) items: Vec<Question>,
}

impl Model for Questions {
    ghost use Rattle.std.specs.Prelude.{List};
    ghost use Rattle.rrset.specs.declared.record.Question.{Question};

    ghost Value = { List Question };

    ghost view = { λ l. l.items.items };
}

/// Heard records, seen as their list.
#[derive(Debug, Drop)]
pub struct HeardRrs {
    pub(crate) items: Vec<HeardRr>,
}

impl Model for HeardRrs {
    ghost use Rattle.std.specs.Prelude.{List};
    ghost use Rattle.rrset.specs.declared.record.HeardRr.{HeardRr};

    ghost Value = { List HeardRr };

    ghost view = { λ l. l.items.items };
}

/// What one datagram of a link says.
#[derive(Debug, Drop)]
pub struct Hearing {
    /// The records of the answer section, and behind them those of the additional section.
    pub rrs: HeardRrs,
}

/// What is shown of a key before and after a step.
#[derive(Debug, Drop)]
pub struct Changed {
    /// The key.
    pub key: Key,
    /// What was shown of it, if anything.
    pub before: Option<Shown>,
    /// What is shown of it, if anything.
    pub after: Option<Shown>,
}
