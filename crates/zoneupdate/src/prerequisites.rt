//! The prerequisites of an update (RFC 2136, 3.2).

ghost use Rattle.std.specs.Prelude.{◌≡◌, List, Bool, not, map, IsTrue};
ghost use Rattle.std.specs.List.{list_any};
ghost use Rattle.push_base.specs.Cases.{first_refused, is_empty};
ghost use Rattle.dnsname.specs.Names.{Labels};
ghost use Rattle.rrset.specs.RecordSet.{at_name, is_record_set};
ghost use Rattle.zoneupdate.specs.Zones.{set_at};
ghost use Rattle.zoneupdate.specs.Checking.{is_of_kind};
ghost use Rattle.zoneupdate.specs.Updates.{prerequisite_refusal, with_counted_ttl};
ghost use Rattle.zoneupdate.specs.KeptZones.{IsUnder};

use crate::agreeing::is_of_kind;
use crate::changing::counted_ttl;
use crate::plan::Under;
use crate::refusing::{first_refusal, is_empty, is_inside};
use crate::sets::set_among;
use dnsname::Name;
use nametable::NameTable;
use rrset::classes::{ANY, IN, NONE};
use rrset::rcodes::{FORMERR, NOTZONE, NXDOMAIN, NXRRSET, YXDOMAIN, YXRRSET};
use rrset::{Key, Rr, Rrs, Shown, kinds};

/// Whether some of the records of a name have a kind.
fn has_kind(named: &[(Key, Shown)], kind: u16) -> bool
    ensures { result ≡ list_any (λ e. is_of_kind kind e.0) named.now }
{
    named.iter().any(|(key, _)| is_of_kind(kind, key))
}

/// Whether the zone has records of a name and kind.
pub(crate) fn has_set(rows: &NameTable, owner: &Name, kind: u16) -> bool
    requires { IsTrue (is_record_set rows.now.rows) }
    ensures { result ≡ not (is_empty (set_at owner.now kind rows.now.rows)) }
{
    has_kind(set_among(owner, kind, rows.at(owner)), kind)
}

/// Whether the zone has records of a name.
fn has_name(rows: &NameTable, owner: &Name) -> bool
    ensures { result ≡ not (is_empty (at_name owner.now rows.now.rows)) }
{
    !rows.at(owner).is_empty()
}

/// The RCODE that a prerequisite is refused with.
fn refusal(rows: &NameTable, apex: &Name, under: &Under, rr: &Rr) -> Option<u8>
    requires { IsTrue (is_record_set rows.now.rows) }
    ensures { (homes : List Labels) (writable : Bool) → IsUnder homes apex.now under.now → result ≡ prerequisite_refusal homes (record { apex = apex.now; writable = writable; rows = rows.now.rows }) (with_counted_ttl rr.now) }
{
    let inside = is_inside(apex, under, &rr.owner);
    let has_data = !is_empty(rr.rdata.as_slice());
    let named = has_name(rows, &rr.owner);
    let set = has_set(rows, &rr.owner, rr.kind);
    let is_in = rr.class == IN;
    let is_any = rr.class == ANY;
    let is_none = rr.class == NONE;
    let all_kinds = rr.kind == kinds::ANY;
    first_refusal(&[
        (counted_ttl(rr.ttl) != 0, FORMERR),
        (!inside, NOTZONE),
        ((is_any | is_none) & has_data, FORMERR),
        (is_any & all_kinds & !named, NXDOMAIN),
        (is_any & !all_kinds & !set, NXRRSET),
        (is_none & all_kinds & named, YXDOMAIN),
        (is_none & !all_kinds & set, YXRRSET),
        (!(is_in | is_any | is_none), FORMERR),
    ])
}

/// The RCODE of the first prerequisite that doesn't hold, where those of class IN are not compared with the zone's
/// sets (RFC 2136, 3.2.1, 3.2.2 and 3.2.4).
pub(crate) fn prerequisites_refusal(
    rows: &NameTable,
    apex: &Name,
    under: &Under,
    prereqs: &Rrs,
) -> Option<u8>
    requires { IsTrue (is_record_set rows.now.rows) }
    ensures { (homes : List Labels) (writable : Bool) → IsUnder homes apex.now under.now → result ≡ first_refused (prerequisite_refusal homes (record { apex = apex.now; writable = writable; rows = rows.now.rows })) (map with_counted_ttl prereqs.now) }
{
    'prereqs: for rr in prereqs.as_slice() {
        if let Some(code) = refusal(rows, apex, under, rr) {
            return Some(code);
        }
    }
    None
}
