//! The front of octets, and of a buffer.

ghost use Rattle.std.specs.Prelude.{◌≡◌, length, take, drop, min};

/// Copies as many octets as fit to the front of a buffer, and answers how many.
pub(crate) fn copy_front(octets: &[u8], buf: &mut [u8]) -> usize
    ensures count { result ≡ min (length octets.now) (length buf.old) }
    ensures front { take result buf.new ≡ take result octets.now }
    ensures rest { drop result buf.new ≡ drop result buf.old }
{
    let count = octets.len().min(buf.len());
    buf[..count].copy_from_slice(&octets[..count]);
    count
}

/// The first so many octets, or all.
pub fn front_of(octets: &[u8], count: usize) -> &[u8]
    ensures { result.now ≡ take count octets.now }
{
    &octets[..count.min(octets.len())]
}
