//! The order of octets.

ghost use Rattle.std.specs.Prelude.{◌≡◌, ◌+◌, ◌<◌, ◌≤◌, drop, length, map, min, take};
ghost use Rattle.std.specs.Char.{to_ascii_lowercase};
ghost use Rattle.std.specs.Cmp.Lexicographic.{slice_cmp};
ghost use Rattle.std.specs.List.{AllByRecursion};
ghost use Rattle.std.specs.Ordering.{nat_cmp};
ghost use Rattle.dnsname.specs.Eights.{spelled};

use std::cmp::Ordering;

/// The number that eight octets spell, the highest first.
fn eight_at(octets: &[u8], place: usize) -> u64
    requires { place + 8 ≤ length octets.now }
    ensures number { result ≡ spelled 0 8 (drop place octets.now) }
    ensures octets { AllByRecursion (λ o. o < 256) (take 8 (drop place octets.now)) }
{
    u64::from_be_bytes([
        octets[place],
        octets[place + 1],
        octets[place + 2],
        octets[place + 3],
        octets[place + 4],
        octets[place + 5],
        octets[place + 6],
        octets[place + 7],
    ])
}

/// The number that four octets spell, the highest first.
fn four_at(octets: &[u8], place: usize) -> u32
    requires { place + 4 ≤ length octets.now }
    ensures number { result ≡ spelled 0 4 (drop place octets.now) }
    ensures octets { AllByRecursion (λ o. o < 256) (take 4 (drop place octets.now)) }
{
    u32::from_be_bytes([
        octets[place],
        octets[place + 1],
        octets[place + 2],
        octets[place + 3],
    ])
}

/// The order of octets that are fewer than four on one side. It stands apart, as it wants its arguments in memory.
#[inline(never)]
fn compare_few(first: &[u8], second: &[u8]) -> Ordering
    ensures { result ≡ slice_cmp nat_cmp first.now second.now }
{
    first.cmp(second)
}

/// The order of octets of which one side has so many, from four to eight, and the other at least as many. They are
/// compared by fours.
fn compare_fours(first: &[u8], second: &[u8], shared: usize) -> Ordering
    requires shared { shared ≡ min (length first.now) (length second.now) }
    requires bounds { (4 ≤ shared) × (shared ≤ 8) }
    ensures { result ≡ slice_cmp nat_cmp first.now second.now }
{
    let order = four_at(first, 0).cmp(&four_at(second, 0));
    if order.is_ne() {
        return order;
    }
    // The last four may begin inside the first.
    let last = shared - 4;
    match four_at(first, last).cmp(&four_at(second, last)) {
        Ordering::Equal => first.len().cmp(&second.len()),
        unequal => unequal,
    }
}

/// The order of octets, which are compared by eights, or where one side has fewer by fours.
pub fn compare_octets(first: &[u8], second: &[u8]) -> Ordering
    ensures { result ≡ slice_cmp nat_cmp first.now second.now }
{
    let shared = first.len().min(second.len());
    if shared < 4 {
        return compare_few(first, second);
    }
    if shared < 8 {
        return compare_fours(first, second, shared);
    }
    // The last eight may begin inside those before.
    let last = shared - 8;
    let mut place = 0;
    'eights: while place < last {
        let order = eight_at(first, place).cmp(&eight_at(second, place));
        if order.is_ne() {
            return order;
        }
        place += 8;
    }
    match eight_at(first, last).cmp(&eight_at(second, last)) {
        Ordering::Equal => first.len().cmp(&second.len()),
        unequal => unequal,
    }
}

/// The order of octets and of others in lower case.
pub fn compare_with_lower(octets: &[u8], other: &[u8]) -> Ordering
    ensures { result ≡ slice_cmp nat_cmp octets.now (map to_ascii_lowercase other.now) }
{
    let shared = octets.len().min(other.len());
    'octets: for index in 0..shared {
        let order = octets[index].cmp(&other[index].to_ascii_lowercase());
        if order.is_ne() {
            return order;
        }
    }
    octets.len().cmp(&other.len())
}
