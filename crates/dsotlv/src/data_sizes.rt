//! How many octets the data of TLVs have whose form is fixed.

/// Two numbers of 32 bits (RFC 8490, 7.1).
pub const KEEPALIVE: u16 = 8;
/// A number of 32 bits (RFC 8490, 7.2).
pub const RETRY_DELAY: u16 = 4;
/// An ID (RFC 8765, 6.4.1).
pub const UNSUBSCRIBE: u16 = 2;
