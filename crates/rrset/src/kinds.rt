//! Kinds (the TYPE of a record), by their numbers (RFC 1035, 3.2.2 and 3.2.3; RFC 2782; RFC 3596).

ghost use Rattle.std.specs.Prelude.{◌≡◌};
ghost use Rattle.rrset.specs.Kinds.{is_meta};

/// An address (RFC 1035, 3.4.1).
pub const A: u16 = 1;
/// A server of the zone (RFC 1035, 3.3.11).
pub const NS: u16 = 2;
/// The name that this one stands for (RFC 1035, 3.3.1).
pub const CNAME: u16 = 5;
/// The start of a zone (RFC 1035, 3.3.13).
pub const SOA: u16 = 6;
/// A name that this one points to (RFC 1035, 3.3.12).
pub const PTR: u16 = 12;
/// A mail exchange (RFC 1035, 3.3.9).
pub const MX: u16 = 15;
/// Texts (RFC 1035, 3.3.14).
pub const TXT: u16 = 16;
/// An IPv6 address (RFC 3596, 2.1).
pub const AAAA: u16 = 28;
/// The place of a service (RFC 2782).
pub const SRV: u16 = 33;
/// The options of a message (RFC 6891, 6.1.1).
pub const OPT: u16 = 41;
/// The kinds that a name has (RFC 4034, 4).
pub const NSEC: u16 = 47;
/// The first of the meta kinds that end with `ANY`; the list is this project's own (RFC 6895, 3.1).
pub const FIRST_META: u16 = 249;
/// Every kind, in a question (RFC 1035, 3.2.3).
pub const ANY: u16 = 255;

/// Whether a kind is meta: no zone and no link holds records of it (RFC 6895, 3.1; the list is this project's own).
pub fn is_meta(kind: u16) -> bool
    ensures { result ≡ is_meta kind }
{
    kind == 0 || kind == OPT || (FIRST_META <= kind && kind <= ANY)
}
