//! Which changes may be made (RFC 2136, 3.4.1).

ghost use Rattle.std.specs.Prelude.{◌≡◌, List, Bool, map};
ghost use Rattle.push_base.specs.Cases.{first_refused};
ghost use Rattle.dnsname.specs.Names.{Labels};
ghost use Rattle.rrset.specs.RecordSet.{RecordSet};
ghost use Rattle.zoneupdate.specs.Updates.{change_refusal, with_counted_ttl};
ghost use Rattle.zoneupdate.specs.KeptZones.{IsUnder};

use crate::changing::counted_ttl;
use crate::plan::Under;
use crate::refusing::{first_refusal, is_empty, is_inside};
use dnsname::Name;
use rrset::classes::{ANY, IN, NONE};
use rrset::kinds::is_meta;
use rrset::rcodes::{FORMERR, NOTZONE};
use rrset::{Rr, Rrs, kinds};

/// The RCODE that a change is refused with.
fn refusal(apex: &Name, under: &Under, rr: &Rr) -> Option<u8>
    ensures { (homes : List Labels) (writable : Bool) (rows : RecordSet) → IsUnder homes apex.now under.now → result ≡ change_refusal homes (record { apex = apex.now; writable = writable; rows = rows }) (with_counted_ttl rr.now) }
{
    let inside = is_inside(apex, under, &rr.owner);
    let has_ttl = counted_ttl(rr.ttl) != 0;
    let has_data = !is_empty(rr.rdata.as_slice());
    let meta = is_meta(rr.kind);
    let is_in = rr.class == IN;
    let is_any = rr.class == ANY;
    let is_none = rr.class == NONE;
    let all_kinds = rr.kind == kinds::ANY;
    first_refusal(&[
        (!inside, NOTZONE),
        (is_in & meta, FORMERR),
        (is_any & (has_ttl | has_data | (meta & !all_kinds)), FORMERR),
        (is_none & (has_ttl | meta), FORMERR),
        (!(is_in | is_any | is_none), FORMERR),
    ])
}

/// The RCODE of the first change that may not be made.
pub(crate) fn changes_refusal(apex: &Name, under: &Under, changes: &Rrs) -> Option<u8>
    ensures { (homes : List Labels) (writable : Bool) (rows : RecordSet) → IsUnder homes apex.now under.now → result ≡ first_refused (change_refusal homes (record { apex = apex.now; writable = writable; rows = rows })) (map with_counted_ttl changes.now) }
{
    'changes: for rr in changes.as_slice() {
        if let Some(code) = refusal(apex, under, rr) {
            return Some(code);
        }
    }
    None
}
