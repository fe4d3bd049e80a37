//! Records of both kinds: under `local.`, and under the link's reverse domains (RFC 8766, 5.4 and 5.5). Which it is, the
//! owner tells.

ghost use Rattle.std.specs.Prelude.{◌≡◌, true, IfOk};
ghost use Rattle.dnsname.specs.Names.{ends_in};
ghost use Rattle.linkmap.specs.Translation.{local, renamed_rr};
ghost use Rattle.reversemap.specs.BothKinds.{is_used, shown_of};
ghost use Rattle.rrset.specs.Records.{rr_size};
ghost use Rattle.linkcache.specs.Rows.{heard_by};

use crate::rules::LinkRules;
use linkmap::{back, ends_in_local, translated};
use reversemap::{is_under, reverse_back, reverse_show, reverse_usable};
use rrset::{NoMemory, Rr, rr_size};
use std::alloc::Global;

/// Whether a record that a link said is used.
pub(crate) fn usable(rules: &LinkRules, rr: &Rr) -> bool
    ensures { result ≡ is_used rules.now.domain rules.now.reverses rr.now }
{
    linkmap::usable(&rules.domain, rr)
        || reverse_usable(&rules.domain, rules.reverses.as_slice(), rr)
}

/// Whether the owner of a used record is a name of the link. Where there are no reverse domains nothing is compared.
fn is_local(rules: &LinkRules, rr: &Rr) -> bool
    requires { is_used rules.now.domain rules.now.reverses rr.now ≡ true }
    ensures { result ≡ ends_in rr.now.owner local }
{
    rules.reverses.as_slice().is_empty() || ends_in_local(&rr.owner)
}

/// The record as which a used record is shown, if it is.
pub(crate) fn show(alloc: Global, rules: &LinkRules, rr: &Rr) -> Result<Option<Rr>, NoMemory>
    requires { is_used rules.now.domain rules.now.reverses rr.now ≡ true }
    ensures { IfOk result (λ shown. shown ≡ shown_of rules.now.domain rules.now.cap rr.now) }
{
    if is_local(rules, rr) {
        return linkmap::show(alloc, &rules.domain, rules.cap, rr);
    }
    let shown = reverse_show(alloc, &rules.domain, rules.cap, rr)?;
    Ok(Some(shown))
}

/// The octets of a used record under the names of its link, of an address that isn't shown too.
pub(crate) fn translated_size(alloc: Global, rules: &LinkRules, rr: &Rr) -> Result<u64, NoMemory>
    requires { is_used rules.now.domain rules.now.reverses rr.now ≡ true }
    ensures { IfOk result (λ size. size ≡ rr_size (renamed_rr local rules.now.domain rr.now)) }
{
    if is_local(rules, rr) {
        return Ok(rr_size(&translated(alloc, &rules.domain, rr)?));
    }
    Ok(rr_size(&reverse_show(alloc, &rules.domain, rules.cap, rr)?))
}

/// The record of the link that would be shown with the key of this record, if there is one.
pub(crate) fn heard_back(alloc: Global, rules: &LinkRules, rr: &Rr) -> Result<Option<Rr>, NoMemory>
    ensures { IfOk result (λ heard. heard ≡ heard_by rules.now rr.now) }
{
    if is_under(rules.reverses.as_slice(), &rr.owner) {
        return reverse_back(alloc, &rules.domain, rr);
    }
    back(alloc, &rules.domain, rr)
}
