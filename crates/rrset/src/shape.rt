//! The shapes of rdata (RFC 1035, 3.3 and 3.4; RFC 3596, 2.2; RFC 2782).

ghost use Rattle.std.specs.Prelude.{◌≡◌, ◌≤◌, length, map, Some, None, MatchOption, IfSome, is_ok};
ghost use Rattle.dnsname.specs.Reading.{plain_name_at};
ghost use Rattle.rrset.specs.Rdata.{shape, are_strings, fields_from, shape_fits};
ghost use Rattle.rrset.specs.Parts.{part_of, part_end};

use crate::kinds::{A, AAAA, CNAME, MX, NS, PTR, SOA, SRV, TXT};
use dnsname::plain_name_end;

/// A part of a shape.
#[derive(Clone, Copy)]
pub enum ShapePart {
    /// So many octets.
    Octets(usize),
    /// A name.
    Name,
    /// Counted strings, up to the end (RFC 1035, 3.3).
    Strings,
}

static IPV4_ADDRESS: [ShapePart; 1] = [ShapePart::Octets(4)];

static IPV6_ADDRESS: [ShapePart; 1] = [ShapePart::Octets(16)];

static ONE_NAME: [ShapePart; 1] = [ShapePart::Name];

static EXCHANGE: [ShapePart; 2] = [ShapePart::Octets(2), ShapePart::Name];

static SERVICE: [ShapePart; 2] = [ShapePart::Octets(6), ShapePart::Name];

static AUTHORITY: [ShapePart; 3] = [ShapePart::Name, ShapePart::Name, ShapePart::Octets(20)];

static TEXTS: [ShapePart; 1] = [ShapePart::Strings];

/// The parts of a kind's rdata. A kind without a shape is opaque.
pub fn shape(kind: u16) -> Option<&'static [ShapePart]>
    ensures { MatchOption result (shape kind ≡ None) (λ parts. shape kind ≡ Some (map part_of parts.now)) }
{
    match kind {
        A => Some(&IPV4_ADDRESS),
        AAAA => Some(&IPV6_ADDRESS),
        NS | CNAME | PTR => Some(&ONE_NAME),
        MX => Some(&EXCHANGE),
        SRV => Some(&SERVICE),
        SOA => Some(&AUTHORITY),
        TXT => Some(&TEXTS),
        _ => None,
    }
}

/// Whether octets are whole counted strings (RFC 1035, 3.3).
pub(crate) fn are_strings(octets: &[u8]) -> bool
    ensures { result ≡ are_strings 0 octets.now }
{
    let mut wanted = 0;
    'octets: for octet in octets {
        if wanted == 0 {
            wanted = *octet;
        } else {
            wanted -= 1;
        }
    }
    wanted == 0
}

/// The place after a part that begins at a place of plain rdata.
pub fn part_end(part: ShapePart, rdata: &[u8], place: usize) -> Option<usize>
    requires { place ≤ length rdata.now }
    ensures end { result ≡ part_end part rdata.now place }
    ensures within { IfSome result (λ after. after ≤ length rdata.now) }
{
    match part {
        ShapePart::Octets(count) if rdata.len() - place < count => None,
        ShapePart::Octets(count) => Some(place + count),
        ShapePart::Name => plain_name_end(rdata, place).ok(),
        ShapePart::Strings if are_strings(&rdata[place..]) => Some(rdata.len()),
        ShapePart::Strings => None,
    }
}

/// Whether plain rdata is these parts, one behind the other.
fn fits(parts: &[ShapePart], rdata: &[u8]) -> bool
    ensures { result ≡ is_ok (fields_from plain_name_at (map part_of parts.now) rdata.now 0) }
{
    let mut place = 0;
    'parts: for part in parts {
        let Some(after) = part_end(*part, rdata, place) else {
            return false;
        };
        place = after;
    }
    place == rdata.len()
}

/// Whether plain rdata has the shape of its kind. Rdata of a kind without a shape always has.
pub fn shape_fits(kind: u16, rdata: &[u8]) -> bool
    ensures { result ≡ shape_fits kind rdata.now }
{
    match shape(kind) {
        Some(parts) => fits(parts, rdata),
        None => true,
    }
}
