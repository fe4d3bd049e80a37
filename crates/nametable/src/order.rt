//! The order of names, and of names and others in lower case.

ghost use Rattle.std.specs.Prelude.{◌≡◌, ◌<◌, get_or, length};
ghost use Rattle.std.specs.Char.{to_ascii_lowercase};
ghost use Rattle.dnsname.specs.Names.{lower};
ghost use Rattle.nametable.specs.FirstOctets.{HasFirst};
ghost use Rattle.nametable.specs.Nodes.{name_cmp};

use dnsname::{Name, compare_octets};
use std::cmp::Ordering;

/// The order of names, to the letter.
pub(crate) fn compare_names(first: &Name, second: &Name) -> Ordering
    ensures { result ≡ name_cmp first.now second.now }
{
    compare_octets(first.octets(), second.octets())
}

/// The order of a name and of another in lower case.
pub(crate) fn compare_with_lower_name(first: &Name, second: &Name) -> Ordering
    ensures { result ≡ name_cmp first.now (lower second.now) }
{
    first.compare_with_lower(second)
}

/// The octet at an index, or 0 where there is none.
fn octet_or_zero(octets: &[u8], index: usize) -> u8
    ensures { result ≡ get_or octets.now index 0 }
{
    match octets.get(index) {
        Some(octet) => *octet,
        None => 0,
    }
}

/// The octet at an index.
fn octet_at(octets: &[u8], index: usize) -> u8
    requires { index < length octets.now }
    ensures { result ≡ get_or octets.now index 0 }
{
    octets[index]
}

/// The number of a name's first octets, by which most names are told apart at once.
pub fn first_of(name: &Name) -> u64
    ensures { HasFirst result name.now }
{
    let octets = name.octets();
    // Most names have eight octets, which are read at once.
    if octets.len() >= 8 {
        return u64::from_be_bytes([
            octet_at(octets, 0),
            octet_at(octets, 1),
            octet_at(octets, 2),
            octet_at(octets, 3),
            octet_at(octets, 4),
            octet_at(octets, 5),
            octet_at(octets, 6),
            octet_at(octets, 7),
        ]);
    }
    u64::from_be_bytes([
        octet_or_zero(octets, 0),
        octet_or_zero(octets, 1),
        octet_or_zero(octets, 2),
        octet_or_zero(octets, 3),
        octet_or_zero(octets, 4),
        octet_or_zero(octets, 5),
        octet_or_zero(octets, 6),
        octet_or_zero(octets, 7),
    ])
}

/// The octet at an index in lower case, or 0 where there is none.
fn lower_or_zero(octets: &[u8], index: usize) -> u8
    ensures { result ≡ to_ascii_lowercase (get_or octets.now index 0) }
{
    octet_or_zero(octets, index).to_ascii_lowercase()
}

/// The octet at an index in lower case.
fn lower_at(octets: &[u8], index: usize) -> u8
    requires { index < length octets.now }
    ensures { result ≡ to_ascii_lowercase (get_or octets.now index 0) }
{
    octets[index].to_ascii_lowercase()
}

/// The number of the first octets of a name in lower case.
pub(crate) fn first_of_lower(name: &Name) -> u64
    ensures { HasFirst result (lower name.now) }
{
    let octets = name.octets();
    // Most names have eight octets, which are read at once.
    if octets.len() >= 8 {
        return u64::from_be_bytes([
            lower_at(octets, 0),
            lower_at(octets, 1),
            lower_at(octets, 2),
            lower_at(octets, 3),
            lower_at(octets, 4),
            lower_at(octets, 5),
            lower_at(octets, 6),
            lower_at(octets, 7),
        ]);
    }
    u64::from_be_bytes([
        lower_or_zero(octets, 0),
        lower_or_zero(octets, 1),
        lower_or_zero(octets, 2),
        lower_or_zero(octets, 3),
        lower_or_zero(octets, 4),
        lower_or_zero(octets, 5),
        lower_or_zero(octets, 6),
        lower_or_zero(octets, 7),
    ])
}
