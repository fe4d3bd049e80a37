//! The header of a message (RFC 1035, 4.1.1).

ghost use Rattle.std.specs.Prelude.{◌≡◌, ◌+◌, ◌≤◌, length};
ghost use Rattle.rrset.specs.Header.{two_octets, rcode_of, answer_octets};

/// The places of its numbers. Of an update the counts are ZOCOUNT, PRCOUNT, UPCOUNT and ADCOUNT
/// (RFC 2136, 2.2).
pub(crate) const ID: usize = 0;

pub(crate) const FLAGS: usize = 2;

pub(crate) const QDCOUNT: usize = 4;

pub(crate) const ANCOUNT: usize = 6;

pub(crate) const NSCOUNT: usize = 8;

pub(crate) const ARCOUNT: usize = 10;

/// The number of two octets at a place of a header.
pub fn header_field(message: &[u8], at: usize) -> u16
    requires { at + 2 ≤ length message.now }
    ensures { result ≡ two_octets message.now at }
{
    u16::from_be_bytes([message[at], message[at + 1]])
}

/// The RCODE of the flags.
pub(crate) fn rcode(flags: u16) -> u16
    ensures { result ≡ rcode_of flags }
{
    flags % 16
}

/// A header with these flags and with zero counts, which is a whole answer.
pub fn write_answer(id: u16, flags: u16) -> [u8; 12]
    ensures { result ≡ answer_octets id flags }
{
    let [id_high, id_low] = id.to_be_bytes();
    let [flags_high, flags_low] = flags.to_be_bytes();
    [
        id_high, id_low, flags_high, flags_low, 0, 0, 0, 0, 0, 0, 0, 0,
    ]
}
