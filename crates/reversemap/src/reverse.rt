//! Records of a link under its reverse domains: owners stay, names inside are translated (RFC 8766, 5.4 and 5.5; RFC 1035, 3.5).

ghost use Rattle.std.specs.Prelude.{◌≡◌, true, IfOk};
ghost use Rattle.dnsname.specs.Names.{SpellsName};
ghost use Rattle.dnsname.specs.Octets.{labels_of};
ghost use Rattle.linkmap.specs.Translation.{is_translatable, local};
ghost use Rattle.reversemap.specs.Reverse.{is_reverse_domain, is_under, is_of_reverse, is_reverse_usable, reverse_shown_as, can_be_heard, reverse_heard_as};

use dnsname::{Name, spelled_ends_in};
use linkmap::{fits_back, fits_under, rdata_back, rdata_under};
use push_base::Octets;
use rrset::classes::IN;
use rrset::kinds::{NSEC, is_meta};
use rrset::{NoMemory, Rr};
use std::alloc::Global;

/// Whether a name lies under one of some domains. It takes no memory.
pub fn is_under(reverses: &[Name], name: &Name) -> bool
    ensures { result ≡ is_under reverses.now name.now }
{
    reverses.iter().any(|reverse| name.ends_in(reverse))
}

/// Whether a record is in class IN, of no meta kind and no list of kinds, and its owner lies under a reverse domain.
fn is_of_reverse(reverses: &[Name], rr: &Rr) -> bool
    ensures { result ≡ is_of_reverse reverses.now rr.now }
{
    let is_named = is_under(reverses, &rr.owner);
    rr.class == IN && rr.kind != NSEC && !is_meta(rr.kind) && is_named
}

/// Whether a record that a link said is used under its reverse domains: class IN, neither NSEC nor a meta kind, an owner
/// under one of them, no name inside that ends in the link's domain already, and names of at most 255 octets under it. It
/// takes no memory.
pub fn reverse_usable(domain: &Name, reverses: &[Name], rr: &Rr) -> bool
    ensures { result ≡ is_reverse_usable domain.now reverses.now rr.now }
{
    is_of_reverse(reverses, rr) && fits_under(domain, rr)
}

/// A record with another TTL and other rdata.
fn with_rdata(rr: &Rr, ttl: u32, rdata: Octets) -> Result<Rr, NoMemory>
    ensures { IfOk result (λ later. later ≡ record rr.now { ttl = ttl; rdata = rdata }) }
{
    Ok(Rr {
        owner: rr.owner.copy()?,
        class: rr.class,
        kind: rr.kind,
        ttl,
        rdata,
    })
}

/// The record as which a usable record under a reverse domain is shown: the owner stays, names inside that end in `local.`
/// end in the link's domain, the TTL is at most the cap, and no address is left out.
pub fn reverse_show(alloc: Global, domain: &Name, cap: u32, rr: &Rr) -> Result<Rr, NoMemory>
    requires { is_translatable local domain.now rr.now ≡ true }
    ensures { IfOk result (λ shown. shown ≡ reverse_shown_as domain.now cap rr.now) }
{
    let rdata = rdata_under(alloc, domain, rr)?;
    with_rdata(rr, rr.ttl.min(cap), rdata)
}

/// Whether no name inside a record ends in `local.`, and each fits with it in place of the link's domain.
fn can_be_heard(domain: &Name, rr: &Rr) -> bool
    ensures { result ≡ can_be_heard domain.now rr.now }
{
    fits_back(domain, rr)
}

/// The record of the link that would be shown with the key of this record under a reverse domain. Nothing exactly where a
/// name inside it ends in `local.`, or would pass 255 octets.
pub fn reverse_back(alloc: Global, domain: &Name, rr: &Rr) -> Result<Option<Rr>, NoMemory>
    ensures { IfOk result (λ heard. heard ≡ reverse_heard_as domain.now rr.now) }
{
    if !can_be_heard(domain, rr) {
        return Ok(None);
    }
    let rdata = rdata_back(alloc, domain, rr)?;
    Ok(Some(with_rdata(rr, rr.ttl, rdata)?))
}

/// Whether a name that octets spell ends in one of the domains of reverse mapping.
fn is_rooted(name: &[u8]) -> bool
    requires { SpellsName name.now (labels_of name.now) }
    ensures { result ≡ is_reverse_domain (labels_of name.now) }
{
    spelled_ends_in(name, b"\x07in-addr\x04arpa\x00".as_slice())
        || spelled_ends_in(name, b"\x03ip6\x04arpa\x00".as_slice())
}

/// Whether a name can be a reverse domain: it ends in `in-addr.arpa.` or in `ip6.arpa.` (RFC 1035, 3.5; RFC 3596, 2.5). It
/// takes no memory.
pub fn is_reverse_domain(domain: &Name) -> bool
    ensures { result ≡ is_reverse_domain domain.now }
{
    is_rooted(domain.octets())
}
