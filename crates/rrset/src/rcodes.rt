//! RCODEs, by their numbers (RFC 1035, 4.1.1; RFC 2136, 2.2; RFC 8490, 10.2).

/// All is in order.
pub const NOERROR: u8 = 0;
/// What is outside the form of a message.
pub const FORMERR: u8 = 1;
/// The server can't do it now.
pub const SERVFAIL: u8 = 2;
/// A name that isn't there and should be.
pub const NXDOMAIN: u8 = 3;
/// What isn't built.
pub const NOTIMP: u8 = 4;
/// What is not allowed.
pub const REFUSED: u8 = 5;
/// A name that is there and shouldn't be.
pub const YXDOMAIN: u8 = 6;
/// A set that is there and shouldn't be.
pub const YXRRSET: u8 = 7;
/// A set that isn't there and should be.
pub const NXRRSET: u8 = 8;
/// The server isn't authoritative for the zone.
pub const NOTAUTH: u8 = 9;
/// A name outside the zone.
pub const NOTZONE: u8 = 10;
/// A primary TLV that is not known.
pub const DSOTYPENI: u8 = 11;
