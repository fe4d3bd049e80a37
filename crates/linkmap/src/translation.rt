//! Records of a link under its domain, and back (RFC 8766, 5.5).

ghost use Rattle.std.specs.Prelude.{◌≡◌, ◌==◌, ◌/◌, true, slice_index, IfOk};
ghost use Rattle.std.specs.List.{list_all};
ghost use Rattle.rrset.specs.Rdata.{rdata_names, with_names};
ghost use Rattle.linkmap.specs.Names.{is_renamable};
ghost use Rattle.dnsname.specs.Names.{SpellsName, ends_in};
ghost use Rattle.dnsname.specs.Octets.{labels_of};
ghost use Rattle.linkmap.specs.Translation.{local, is_of_link, is_translatable, is_usable, is_link_local, names_fit, fits_a_name, renamed, renamed_rr, shown_as, lessened, heard_as};

use crate::inside::names_are_renamable;
use crate::names::{fits_renamed, local, spelling};
use dnsname::{Name, NameFault, spelled_ends_in};
use push_base::Octets;
use rrset::classes::IN;
use rrset::kinds::{A, AAAA, NSEC, is_meta};
use rrset::{NameChange, NoMemory, Rr, shape_fits, with_names};
use std::alloc::Global;

/// The octet of an address at a place, or 0 where there is none.
fn octet(address: &[u8], place: usize) -> u8
    ensures { result ≡ slice_index address.now place }
{
    match address.get(place) {
        Some(octet) => *octet,
        None => 0,
    }
}

/// Whether the first two bits of an octet are 1 and 0.
fn begins_with_10(octet: u8) -> bool
    ensures { result ≡ (octet / 64 == 0x80 / 64) }
{
    octet & 0xc0 == 0x80
}

/// Whether a record is an address of 169.254.0.0/16 or of fe80::/10, which no other link reaches.
fn is_link_local(rr: &Rr) -> bool
    ensures { result ≡ is_link_local rr.now }
{
    let address = rr.rdata.as_slice();
    let (first, second) = (octet(address, 0), octet(address, 1));
    shape_fits(rr.kind, address)
        && ((rr.kind == A && first == 169 && second == 254)
            || (rr.kind == AAAA && first == 0xfe && begins_with_10(second)))
}

/// Whether a name ends in `local.`, the domain of every link (RFC 6762, 3). It takes no memory.
pub fn ends_in_local(name: &Name) -> bool
    ensures { result ≡ ends_in name.now local }
{
    spelled_ends_in(spelling(name), local())
}

/// Whether a record is in class IN, of no meta kind and no list of kinds, and its owner is a name of a link.
fn is_of_link(rr: &Rr) -> bool
    ensures { result ≡ is_of_link rr.now }
{
    let is_named = ends_in_local(&rr.owner);
    rr.class == IN && rr.kind != NSEC && !is_meta(rr.kind) && is_named
}

/// Whether no name inside a record ends in the new domain, and all its names fit with it in place of the old one.
fn is_translatable(rr: &Rr, old: &[u8], new: &[u8]) -> bool
    requires old { SpellsName old.now (labels_of old.now) }
    requires new { SpellsName new.now (labels_of new.now) }
    ensures { result ≡ is_translatable (labels_of old.now) (labels_of new.now) rr.now }
{
    let owner_fits = fits_renamed(spelling(&rr.owner), old, new);
    owner_fits && names_are_renamable(rr.kind, rr.rdata.as_slice(), old, new)
}

/// Whether a record that a link said is used: class IN, neither NSEC (RFC 8766, 5.5.3) nor a meta kind, an owner under
/// `local.` (RFC 6762, 3), no name inside that ends in the domain already, and names of at most 255 octets under the domain
/// (RFC 1035, 2.3.4). An address that isn't shown is used too. It takes no memory.
pub fn usable(domain: &Name, rr: &Rr) -> bool
    ensures { result ≡ is_usable domain.now rr.now }
{
    is_of_link(rr) && is_translatable(rr, local(), spelling(domain))
}

/// Whether no name inside a record ends in a link's domain, and its owner and these names fit with the domain in place of
/// `local.`. It takes no memory.
pub fn fits_under(domain: &Name, rr: &Rr) -> bool
    ensures { result ≡ is_translatable local domain.now rr.now }
{
    is_translatable(rr, local(), spelling(domain))
}

/// Whether no name inside a record ends in `local.`, and each fits with `local.` in place of a link's domain. It takes no
/// memory.
pub fn fits_back(domain: &Name, rr: &Rr) -> bool
    ensures { result ≡ list_all (is_renamable domain.now local) (rdata_names rr.now.kind rr.now.rdata) }
{
    names_are_renamable(rr.kind, rr.rdata.as_slice(), spelling(domain), local())
}

/// Rdata with the names inside that end in `local.` under a link's domain, with which they fit.
pub fn rdata_under(alloc: Global, domain: &Name, rr: &Rr) -> Result<Octets, NoMemory>
    requires { list_all (λ name. fits_a_name (renamed local domain.now name)) (rdata_names rr.now.kind rr.now.rdata) ≡ true }
    ensures { IfOk result (λ rdata. rdata ≡ with_names (renamed local domain.now) rr.now.kind rr.now.rdata) }
{
    let local = local_name(alloc)?;
    rdata_renamed(alloc, rr, &local, domain)
}

/// Rdata with the names inside that end in a link's domain under `local.`, with which they fit.
pub fn rdata_back(alloc: Global, domain: &Name, rr: &Rr) -> Result<Octets, NoMemory>
    requires { list_all (λ name. fits_a_name (renamed domain.now local name)) (rdata_names rr.now.kind rr.now.rdata) ≡ true }
    ensures { IfOk result (λ rdata. rdata ≡ with_names (renamed domain.now local) rr.now.kind rr.now.rdata) }
{
    let local = local_name(alloc)?;
    rdata_renamed(alloc, rr, domain, &local)
}

/// Rdata with one domain in place of another in its names, which fit with it.
fn rdata_renamed(alloc: Global, rr: &Rr, old: &Name, new: &Name) -> Result<Octets, NoMemory>
    requires { list_all (λ name. fits_a_name (renamed old.now new.now name)) (rdata_names rr.now.kind rr.now.rdata) ≡ true }
    ensures { IfOk result (λ rdata. rdata ≡ with_names (renamed old.now new.now) rr.now.kind rr.now.rdata) }
{
    let change = NameChange::Suffix(old, new);
    with_names(alloc, &change, rr.kind, rr.rdata.as_slice())
}

/// The name of the domain of every link (RFC 6762, 3).
fn local_name(alloc: Global) -> Result<Name, NoMemory>
    ensures { IfOk result (λ name. name ≡ local) }
{
    match Name::read_plain(alloc, local(), 0) {
        Ok((name, _)) => Ok(name),
        Err(NameFault::NoMemory) => Err(NoMemory),
        Err(_) => unreachable!(),
    }
}

/// A name with one domain in place of another, where it ends in that and fits with it.
fn renamed(name: &Name, old: &Name, new: &Name) -> Result<Name, NoMemory>
    requires { fits_a_name (renamed old.now new.now name.now) ≡ true }
    ensures { IfOk result (λ changed. changed ≡ renamed old.now new.now name.now) }
{
    if !name.ends_in(old) {
        return name.copy();
    }
    match name.swap_suffix(old, new)? {
        Some(changed) => Ok(changed),
        None => unreachable!(),
    }
}

/// A record with one domain in place of another in all names, which fit with it.
fn renamed_rr(alloc: Global, rr: &Rr, old: &Name, new: &Name) -> Result<Rr, NoMemory>
    requires { names_fit old.now new.now rr.now ≡ true }
    ensures { IfOk result (λ changed. changed ≡ renamed_rr old.now new.now rr.now) }
{
    let owner = renamed(&rr.owner, old, new)?;
    let change = NameChange::Suffix(old, new);
    let rdata = with_names(alloc, &change, rr.kind, rr.rdata.as_slice())?;
    Ok(Rr {
        owner,
        class: rr.class,
        kind: rr.kind,
        ttl: rr.ttl,
        rdata,
    })
}

/// A usable record of the link as it would stand under the domain, an address that isn't shown too.
pub fn translated(alloc: Global, domain: &Name, rr: &Rr) -> Result<Rr, NoMemory>
    requires { is_usable domain.now rr.now ≡ true }
    ensures { IfOk result (λ later. later ≡ renamed_rr local domain.now rr.now) }
{
    let local = local_name(alloc)?;
    renamed_rr(alloc, rr, &local, domain)
}

/// The record of the link's domain as which a usable record of the link is shown (RFC 8766, 5.5). Nothing exactly where
/// it is an address of its link alone (RFC 8766, 5.5.2). Its TTL is the lesser of the cap and the record's (this project's
/// own).
pub fn show(alloc: Global, domain: &Name, cap: u32, rr: &Rr) -> Result<Option<Rr>, NoMemory>
    requires { is_usable domain.now rr.now ≡ true }
    ensures { IfOk result (λ shown. shown ≡ shown_as domain.now (lessened cap rr.now)) }
{
    if is_link_local(rr) {
        return Ok(None);
    }
    let mut shown = translated(alloc, domain, rr)?;
    shown.ttl = shown.ttl.min(cap);
    Ok(Some(shown))
}

/// The record of the link that would be shown with the key of this record of its domain. Nothing exactly where its owner
/// doesn't end in the domain, a name inside it ends in `local.`, it is an address that isn't shown, or a name would pass
/// 255 octets. Whether a record of its class and kind is ever usable isn't asked.
pub fn back(alloc: Global, domain: &Name, rr: &Rr) -> Result<Option<Rr>, NoMemory>
    ensures { IfOk result (λ heard. heard ≡ heard_as domain.now rr.now) }
{
    if !rr.owner.ends_in(domain) {
        return Ok(None);
    }
    if !is_translatable(rr, spelling(domain), local()) {
        return Ok(None);
    }
    if is_link_local(rr) {
        return Ok(None);
    }
    let local = local_name(alloc)?;
    Ok(Some(renamed_rr(alloc, rr, domain, &local)?))
}
