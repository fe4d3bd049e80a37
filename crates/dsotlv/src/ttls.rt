//! What the TTL of a record of a PUSH says (RFC 8765, 6.3.1).

/// The greatest TTL of a record that is added.
pub const LAST_TTL: u32 = 0x7fff_ffff;
/// The TTL of a record that removes many.
pub const REMOVE_MANY: u32 = 0xffff_fffe;
/// The TTL of a record that removes one record.
pub const REMOVE_ONE: u32 = 0xffff_ffff;
