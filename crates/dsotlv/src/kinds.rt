//! Kinds of TLVs, by their numbers (RFC 8490, 10.3; RFC 8765, 8).

/// The timers of a session (RFC 8490, 7.1).
pub const KEEPALIVE: u16 = 1;
/// For how long a client is to wait (RFC 8490, 7.2).
pub const RETRY_DELAY: u16 = 2;
/// Octets without meaning (RFC 8490, 7.3).
pub const PADDING: u16 = 3;
/// A question (RFC 8765, 6.2).
pub const SUBSCRIBE: u16 = 0x40;
/// Notices (RFC 8765, 6.3).
pub const PUSH: u16 = 0x41;
/// The end of a question (RFC 8765, 6.4).
pub const UNSUBSCRIBE: u16 = 0x42;
/// A record that may be out of date (RFC 8765, 6.5).
pub const RECONFIRM: u16 = 0x43;
