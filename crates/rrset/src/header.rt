//! The header of a message, and its flags (RFC 1035, 4.1.1).

ghost use Rattle.std.specs.Prelude.{◌≡◌};
ghost use Rattle.rrset.specs.Header.{is_response, opcode_of};

/// The octets of a header.
pub const HEADER: usize = 12;
/// The most octets of a message behind its length (RFC 1035, 4.2.2; RFC 7766, 8).
pub const MAX_MESSAGE: usize = 65_535;
/// QR of the flags, which a response has.
pub const RESPONSE: u16 = 0x8000;
/// The OPCODE of an update (RFC 2136, 1.3).
pub const UPDATE_OPCODE: u16 = 5;
/// The OPCODE of a DSO message (RFC 8490, 5.4).
pub const DSO_OPCODE: u16 = 6;
/// The flags of the answer to an update, with an RCODE of 0: QR, and the OPCODE of an update (RFC 2136, 3.8).
pub const UPDATE_ANSWER: u16 = 0xa800;
/// The flags of a request that stay in the answer that it isn't built: OPCODE and RD (RFC 1035, 4.1.1).
pub const KEPT_FLAGS: u16 = 0x7900;

/// Whether the flags are those of a response.
pub fn is_response(flags: u16) -> bool
    ensures { result ≡ is_response flags }
{
    flags >= RESPONSE
}

/// The OPCODE of the flags.
pub fn opcode_of(flags: u16) -> u16
    ensures { result ≡ opcode_of flags }
{
    flags / 2048 % 16
}
