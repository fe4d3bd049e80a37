//! Rdata with the names inside it changed: in lower case, as in keys of records (RFC 2136, 1.1.1), or with other last
//! labels.

ghost use Rattle.std.specs.Prelude.{◌≡◌, ◌≤◌, ◌++◌, length, unwrap_or, IfOk, IfSome};
ghost use Rattle.dnsname.specs.Names.{Labels};
ghost use Rattle.rrset.specs.Rdata.{with_names, with_suffix};
ghost use Rattle.rrset.specs.Parts.{changed_name, changed_at, changed_from, appended, with_octets};
ghost use Rattle.rrset.specs.Records.{key_of};

use crate::record::{Key, NoMemory, Rr};
use crate::shape::{ShapePart, part_end, shape};
use dnsname::{Name, NameFault};
use push_base::Octets;
use std::alloc::Global;

/// What is made of each name inside rdata.
#[derive(Clone, Copy)]
pub enum NameChange<'a> {
    /// It is in lower case.
    Lower,
    /// Its last labels are the second name in place of the first, where they are the first and that makes a name.
    Suffix(&'a Name, &'a Name),
}

/// A name with other last labels, where that makes a name; else the name.
fn with_suffix(name: Name, old: &Name, new: &Name) -> Result<Name, NoMemory>
    ensures { IfOk result (λ changed. changed ≡ with_suffix old.now new.now name) }
{
    if !name.ends_in(old) {
        return Ok(name);
    }
    match name.swap_suffix(old, new)? {
        Some(changed) => Ok(changed),
        None => Ok(name),
    }
}

/// What a change makes of a name.
fn changed_name(change: &NameChange, name: Name) -> Result<Name, NoMemory>
    ensures { IfOk result (λ changed. changed ≡ changed_name change.now name) }
{
    match change {
        NameChange::Lower => name.lower(),
        NameChange::Suffix(old, new) => with_suffix(name, old, new),
    }
}

/// Appends the changed name that stands at a place, and gives the place after it. Nothing where no name stands there.
fn append_changed_name(
    change: &NameChange,
    rdata: &[u8],
    place: usize,
    out: &mut Vec<u8>,
) -> Result<Option<usize>, NoMemory>
    ensures appended { IfOk result (λ after. with_octets out.new.items after ≡ appended out.old.items (changed_at (changed_name change.now) ShapePart.Name rdata.now place)) }
    ensures within { IfOk result (λ after. IfSome after (λ place. place ≤ length rdata.now)) }
{
    let alloc = *out.allocator();
    match Name::read_plain(alloc, rdata, place) {
        Ok((name, after)) => {
            changed_name(change, name)?.write_to(out)?;
            Ok(Some(after))
        }
        Err(NameFault::NoMemory) => Err(NoMemory),
        Err(_) => Ok(None),
    }
}

/// Appends a part that is no name as it stands, and gives the place after it. Nothing where it
/// doesn't fit.
fn append_raw(
    part: ShapePart,
    rdata: &[u8],
    place: usize,
    out: &mut Vec<u8>,
) -> Result<Option<usize>, NoMemory>
    requires raw { ¬ (part ≡ ShapePart.Name) }
    requires within { place ≤ length rdata.now }
    ensures appended { (f : Labels → Labels) → IfOk result (λ after. with_octets out.new.items after ≡ appended out.old.items (changed_at f part rdata.now place)) }
    ensures within { IfOk result (λ after. IfSome after (λ place. place ≤ length rdata.now)) }
{
    let Some(after) = part_end(part, rdata, place) else {
        return Ok(None);
    };
    out.extend_from_slice(&rdata[place..after])?;
    Ok(Some(after))
}

/// Appends a part of plain rdata, a name changed, and gives the place after it. Nothing where it doesn't fit.
fn append_changed(
    change: &NameChange,
    part: ShapePart,
    rdata: &[u8],
    place: usize,
    out: &mut Vec<u8>,
) -> Result<Option<usize>, NoMemory>
    requires { place ≤ length rdata.now }
    ensures appended { IfOk result (λ after. with_octets out.new.items after ≡ appended out.old.items (changed_at (changed_name change.now) part rdata.now place)) }
    ensures within { IfOk result (λ after. IfSome after (λ place. place ≤ length rdata.now)) }
{
    match part {
        ShapePart::Name => append_changed_name(change, rdata, place, out),
        _ => append_raw(part, rdata, place, out),
    }
}

/// Plain rdata of these parts, its names changed. Nothing where it doesn't fit.
fn changed_parts(
    alloc: Global,
    change: &NameChange,
    parts: &[ShapePart],
    rdata: &[u8],
) -> Result<Option<Octets>, NoMemory>
    ensures { IfOk result (λ changed. changed ≡ changed_from (changed_name change.now) parts.now rdata.now 0) }
{
    let mut out = Vec::new(alloc);
    let mut place = 0;
    'parts: for part in parts {
        let Some(after) = append_changed(change, *part, rdata, place, &mut out)? else {
            return Ok(None);
        };
        place = after;
    }
    if place != rdata.len() {
        return Ok(None);
    }
    Ok(Some(Octets::shared(out)?))
}

/// Rdata of these parts with the names inside changed. Octets alone have none, and what doesn't fit is taken as it is.
fn with_names_of(
    alloc: Global,
    change: &NameChange,
    parts: &[ShapePart],
    rdata: &[u8],
) -> Result<Octets, NoMemory>
    ensures { IfOk result (λ octets. octets ≡ unwrap_or (changed_from (changed_name change.now) parts.now rdata.now 0) rdata.now) }
{
    match parts {
        [ShapePart::Octets(_)] => Octets::from_slice(alloc, rdata),
        _ => match changed_parts(alloc, change, parts, rdata)? {
            Some(changed) => Ok(changed),
            None => Octets::from_slice(alloc, rdata),
        },
    }
}

/// Rdata with the names inside changed. Rdata that doesn't fit its shape is taken as it is.
pub fn with_names(
    alloc: Global,
    change: &NameChange,
    kind: u16,
    rdata: &[u8],
) -> Result<Octets, NoMemory>
    ensures { IfOk result (λ octets. octets ≡ with_names (changed_name change.now) kind rdata.now) }
{
    match shape(kind) {
        Some(parts) => with_names_of(alloc, change, parts, rdata),
        None => Octets::from_slice(alloc, rdata),
    }
}

impl Rr {
    /// What makes records one: the owner and the names inside rdata in lower case (RFC 2136, 1.1.1).
    pub fn key(&self) -> Result<Key, NoMemory>
        ensures { IfOk result (λ key. key ≡ key_of self.now) }
    {
        let owner = self.owner.lower()?;
        let rdata = with_names(
            self.rdata.allocator(),
            &NameChange::Lower,
            self.kind,
            self.rdata.as_slice(),
        )?;
        Ok(Key {
            owner,
            class: self.class,
            kind: self.kind,
            rdata,
        })
    }
}
