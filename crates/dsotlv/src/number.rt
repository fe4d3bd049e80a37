//! Numbers in messages, the high octet first (RFC 1035, 4.1.1).

ghost use Rattle.std.specs.Prelude.{◌≡◌, ◌+◌, ◌≤◌, length, slice_range};
ghost use Rattle.std.specs.Int.{w32, from_be_bytes};
ghost use Rattle.rrset.specs.Header.{two_octets};

/// The number of two octets at a place.
pub(crate) fn number_at(octets: &[u8], at: usize) -> u16
    requires { at + 2 ≤ length octets.now }
    ensures { result ≡ two_octets octets.now at }
{
    u16::from_be_bytes([octets[at], octets[at + 1]])
}

/// The number of four octets at a place.
pub(crate) fn long_number_at(octets: &[u8], at: usize) -> u32
    requires { at + 4 ≤ length octets.now }
    ensures { result ≡ from_be_bytes w32 (slice_range octets.now at (at + 4)) }
{
    u32::from_be_bytes([octets[at], octets[at + 1], octets[at + 2], octets[at + 3]])
}
