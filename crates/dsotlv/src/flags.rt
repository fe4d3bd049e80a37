//! The flags of DSO messages, with OPCODE 6 and the Z bits 0 (RFC 8490, 5.4).

/// Those of a request.
pub const REQUEST: u16 = 0x3000;
/// Those of an answer, to which its RCODE is added.
pub const ANSWER: u16 = 0xb000;
