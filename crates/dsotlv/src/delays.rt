//! Retry Delays, in milliseconds (RFC 8490, 7.2).

/// After which a client may ask again for what was refused: five minutes. The number is this project's own
/// (RFC 8490, 7.2.2; RFC 8765, 6.2.2).
pub const REFUSAL: u32 = 300_000;
