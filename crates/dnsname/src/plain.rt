//! Names without pointers.

ghost use Rattle.std.specs.Prelude.{◌≡◌, ◌≤◌, ℕ, List, length, Ok, Err, IfOk, IfErr};
ghost use Rattle.dnsname.specs.Names.{Labels};
ghost use Rattle.dnsname.specs.Spelling.{SpellsPlainNameAt, PlainFaultAt};
ghost use Rattle.dnsname.specs.Reading.{plain_name_at};

use crate::name::NameFault;
use crate::part::{Part, part_at};

/// The place after the name that stands at a place.
pub(crate) fn plain_end(octets: &[u8], at: usize) -> Result<usize, NameFault>
    ensures name { IfOk result (λ after. (name : Labels) × SpellsPlainNameAt octets.now at name after) }
    ensures fault { IfErr result (PlainFaultAt octets.now at) }
{
    let mut place = at;
    let mut size = 0;
    'labels: loop {
        match part_at(octets, place, size)? {
            Part::Root => return Ok(place + 1),
            Part::Label(length) => {
                place += 1 + length;
                size += 1 + length;
            }
            Part::Pointer => return Err(NameFault::Pointer(place)),
        }
    }
}

/// The place after the name without pointers that stands at a place, or its fault. Takes no memory.
pub fn plain_name_end(octets: &[u8], at: usize) -> Result<usize, NameFault>
    ensures name { IfOk result (λ after. (name : Labels) × (plain_name_at octets.now at ≡ Ok (name, after))) }
    ensures spelled { IfOk result (λ after. (name : Labels) × SpellsPlainNameAt octets.now at name after) }
    ensures fault { IfErr result (λ fault. plain_name_at octets.now at ≡ Err fault) }
    ensures within { IfOk result (λ after. after ≤ length octets.now) }
{
    plain_end(octets, at)
}
