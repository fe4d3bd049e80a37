//! The octets that pairs of hexadecimal digits stand for.

ghost use Rattle.std.specs.Prelude.{◌≡◌, ◌+◌, ◌*◌, ◌%◌, None, Some, IfOk, length, is_some};
ghost use Rattle.std.specs.Result.{result_ok};
ghost use Rattle.push_base.specs.Hexadecimal.{digit_value, first_other, hex_octets, octets_of_digits};

use crate::{NoMemory, Octets};
use std::alloc::Global;

/// Whether an octet is no digit. The loop ends at none, so that many can be tested at a time.
pub(crate) fn has_other(text: &[u8]) -> bool
    ensures { result ≡ is_some (first_other text.now) }
{
    let mut found = false;
    'octets: for index in 0..text.len() {
        found |= !text[index].is_ascii_hexdigit();
    }
    found
}

/// The octets that a text's digits stand for, two in whichever case for each. Nothing where it stands for none.
pub fn octets_in_hex(alloc: Global, text: &[u8]) -> Result<Option<Octets>, NoMemory>
    ensures { IfOk result (λ octets. octets ≡ result_ok (hex_octets text.now)) }
{
    if text.len() % 2 == 1 {
        return Ok(None);
    }
    if has_other(text) {
        return Ok(None);
    }
    Ok(Some(octets_of_pairs(alloc, text)?))
}

/// The octets that pairs of digits stand for.
pub(crate) fn octets_of_pairs(alloc: Global, text: &[u8]) -> Result<Octets, NoMemory>
    requires digits { first_other text.now ≡ None }
    requires pairs { length text.now % 2 ≡ 0 }
    ensures { IfOk result (λ octets. octets_of_digits text.now ≡ Some octets) }
{
    let mut octets = vec![in alloc; 0u8; text.len() / 2]?;
    put_octets(text, octets.as_mut_slice());
    Ok(Octets::from_vec(octets))
}

// Puts down an octet for each two digits.
fn put_octets(text: &[u8], octets: &mut [u8])
    requires digits { first_other text.now ≡ None }
    requires size { length text.now ≡ 2 * length octets.old }
    ensures { octets_of_digits text.now ≡ Some octets.new }
{
    'octets: for index in 0..octets.len() {
        octets[index] = octet_of(text[2 * index], text[2 * index + 1]);
    }
}

// The octet of two digits.
fn octet_of(high: u8, low: u8) -> u8
    ensures { result ≡ (digit_value high * 16 % 256 + digit_value low) % 256 }
{
    value_of(high).wrapping_mul(16).wrapping_add(value_of(low))
}

// The value of a digit: `a` is 97, and stands for 10.
fn value_of(digit: u8) -> u8
    ensures { result ≡ digit_value digit }
{
    if digit <= b'9' {
        digit.saturating_sub(b'0')
    } else {
        digit.to_ascii_lowercase().saturating_sub(87)
    }
}
