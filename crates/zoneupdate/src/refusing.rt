//! What the tests of prerequisites and of changes share (RFC 2136, 3.2 and 3.4.1).

ghost use Rattle.std.specs.Prelude.{◌≡◌, List};
ghost use Rattle.push_base.specs.Cases.{first_refusal, is_empty};
ghost use Rattle.dnsname.specs.Names.{Labels};
ghost use Rattle.zoneupdate.specs.Zones.{is_inside};
ghost use Rattle.zoneupdate.specs.Checking.{runs_into};
ghost use Rattle.zoneupdate.specs.KeptZones.{IsUnder};

use crate::plan::Under;
use dnsname::Name;

/// The RCODE beside the first test that is true.
pub(crate) fn first_refusal(tests: &[(bool, u8)]) -> Option<u8>
    ensures { result ≡ first_refusal tests.now }
{
    'tests: for (refused, code) in tests {
        if *refused {
            return Some(*code);
        }
    }
    None
}

/// Whether octets are none.
pub(crate) fn is_empty(octets: &[u8]) -> bool
    ensures { result ≡ is_empty octets.now }
{
    octets.is_empty()
}

/// Whether a name ends in one of these homes.
fn runs_into(under: &Under, name: &Name) -> bool
    ensures { result ≡ runs_into under.now name.now }
{
    under.names.iter().any(|home| name.ends_in(home))
}

/// Whether a zone is the home of a name: it lies in the zone, and in no home under it.
pub(crate) fn is_inside(apex: &Name, under: &Under, name: &Name) -> bool
    ensures { (homes : List Labels) → IsUnder homes apex.now under.now → result ≡ is_inside homes apex.now name.now }
{
    name.ends_in(apex) & !runs_into(under, name)
}
