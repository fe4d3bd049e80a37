//! Addresses as text.

ghost use Rattle.std.specs.Prelude.{◌≡◌, string_bytes, IfOk};
ghost use Rattle.std.specs.Net.Addr.{segments_of};
ghost use Rattle.std.specs.Net.Text.{ipv4_text, ipv6_text};
ghost use Rattle.readable.specs.Addresses.{address_text};

use push_base::NoMemory;
use std::alloc::Global;
use std::net::{Ipv4Addr, Ipv6Addr};

// The text of four octets.
fn four_text(alloc: Global, octets: [u8; 4]) -> Result<String, NoMemory>
    ensures { IfOk result (λ text. string_bytes text ≡ ipv4_text octets) }
{
    let address = Ipv4Addr::from_octets(octets);
    format!(in alloc; "{address}")
}

// The text of sixteen octets (RFC 5952).
fn sixteen_text(alloc: Global, octets: [u8; 16]) -> Result<String, NoMemory>
    ensures { IfOk result (λ text. string_bytes text ≡ ipv6_text (segments_of octets)) }
{
    let address = Ipv6Addr::from_octets(octets);
    format!(in alloc; "{address}")
}

/// The text of an address of four or of sixteen octets; nothing for other octets.
pub fn address_text(alloc: Global, octets: &[u8]) -> Result<String, NoMemory>
    ensures { IfOk result (λ text. string_bytes text ≡ address_text octets.now) }
{
    if let [a, b, c, d] = *octets {
        return four_text(alloc, [a, b, c, d]);
    }
    match octets.first_chunk::<16>() {
        Some(sixteen) if octets.len() == 16 => sixteen_text(alloc, *sixteen),
        _ => Ok(String::new(alloc)),
    }
}
