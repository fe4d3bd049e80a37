//! The names inside rdata, which are gone through without taking memory.

ghost use Rattle.std.specs.Prelude.{◌≡◌, ◌≤◌, length, map, is_ok, true, Bool, IfSome};
ghost use Rattle.std.specs.List.{list_all};
ghost use Rattle.dnsname.specs.Names.{Labels, SpellsName};
ghost use Rattle.dnsname.specs.Octets.{labels_of};
ghost use Rattle.dnsname.specs.Reading.{plain_name_at};
ghost use Rattle.rrset.specs.Rdata.{fields_from, rdata_names};
ghost use Rattle.rrset.specs.Parts.{part_of};
ghost use Rattle.linkmap.specs.Names.{is_renamable, tested_at, all_pass};

use crate::names::is_renamable;
use dnsname::plain_name_end;
use rrset::shape::{ShapePart, part_end, shape, shape_fits};

/// The place after the name at a place, and whether it may be renamed. Nothing where no name stands there.
fn test_name(rdata: &[u8], place: usize, old: &[u8], new: &[u8]) -> Option<(usize, bool)>
    requires old { SpellsName old.now (labels_of old.now) }
    requires new { SpellsName new.now (labels_of new.now) }
    ensures tested { result ≡ tested_at (is_renamable (labels_of old.now) (labels_of new.now)) ShapePart.Name rdata.now place }
    ensures within { IfSome result (λ tested. tested.0 ≤ length rdata.now) }
{
    match plain_name_end(rdata, place) {
        Ok(after) => Some((after, is_renamable(&rdata[place..after], old, new))),
        Err(_) => None,
    }
}

/// The place after a part that is no name. Nothing where the part doesn't fit.
fn pass_octets(part: ShapePart, rdata: &[u8], place: usize) -> Option<(usize, bool)>
    requires raw { ¬ (part ≡ ShapePart.Name) }
    requires within { place ≤ length rdata.now }
    ensures tested { (p : Labels → Bool) → result ≡ tested_at p part rdata.now place }
    ensures within { IfSome result (λ tested. tested.0 ≤ length rdata.now) }
{
    let after = part_end(part, rdata, place)?;
    Some((after, true))
}

/// The place after a part, and whether the name there, if one is there, may be renamed. Nothing where the part doesn't fit.
fn test_part(
    part: ShapePart,
    rdata: &[u8],
    place: usize,
    old: &[u8],
    new: &[u8],
) -> Option<(usize, bool)>
    requires old { SpellsName old.now (labels_of old.now) }
    requires new { SpellsName new.now (labels_of new.now) }
    requires within { place ≤ length rdata.now }
    ensures tested { result ≡ tested_at (is_renamable (labels_of old.now) (labels_of new.now)) part rdata.now place }
    ensures within { IfSome result (λ tested. tested.0 ≤ length rdata.now) }
{
    match part {
        ShapePart::Name => test_name(rdata, place, old, new),
        _ => pass_octets(part, rdata, place),
    }
}

/// Whether each name in rdata of these parts may be renamed.
fn are_renamable(parts: &[ShapePart], rdata: &[u8], old: &[u8], new: &[u8]) -> bool
    requires old { SpellsName old.now (labels_of old.now) }
    requires new { SpellsName new.now (labels_of new.now) }
    requires fit { is_ok (fields_from plain_name_at (map part_of parts.now) rdata.now 0) ≡ true }
    ensures { result ≡ all_pass (is_renamable (labels_of old.now) (labels_of new.now)) (fields_from plain_name_at (map part_of parts.now) rdata.now 0) }
{
    let mut place = 0;
    'parts: for part in parts {
        let Some((after, passes)) = test_part(*part, rdata, place, old, new) else {
            return false;
        };
        if !passes {
            return false;
        }
        place = after;
    }
    true
}

/// Whether each name inside rdata may be renamed: it doesn't end in `new`, and fits with it in place of its last labels `old`.
pub(crate) fn names_are_renamable(kind: u16, rdata: &[u8], old: &[u8], new: &[u8]) -> bool
    requires old { SpellsName old.now (labels_of old.now) }
    requires new { SpellsName new.now (labels_of new.now) }
    ensures { result ≡ list_all (is_renamable (labels_of old.now) (labels_of new.now)) (rdata_names kind rdata.now) }
{
    let Some(parts) = shape(kind) else {
        return true;
    };
    if !shape_fits(kind, rdata) {
        return true;
    }
    are_renamable(parts, rdata, old, new)
}
