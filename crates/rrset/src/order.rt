//! The order of keys, and of their owners and names.

ghost use Rattle.std.specs.Prelude.{◌≡◌, refl};
ghost use Rattle.std.specs.Cmp.{eq_by_cmp_equiv, partial_equiv_from_equiv, partial_order_from_total};
ghost use Rattle.std.specs.Ordering.{as_partial_cmp, nat_cmp, ordering_then};
ghost use Rattle.dnsname.specs.Names.{octets, lower};
ghost use Rattle.rrset.specs.KeyOrder.{key_cmp_total};
ghost use Rattle.rrset.specs.Records.{key_cmp, octets_cmp, same_key};

use crate::comparing::same_key;
use crate::record::Key;
use dnsname::{Name, compare_octets};
use std::cmp::Ordering;

/// The order of keys: by owner, kind, rdata and class. Rdata are compared only where owner and kind are equal.
pub fn compare_keys(first: &Key, second: &Key) -> Ordering
    ensures { result ≡ key_cmp first.now second.now }
{
    match compare_octets(first.owner.octets(), second.owner.octets()) {
        Ordering::Less => Ordering::Less,
        Ordering::Equal => compare_kinds(first, second),
        Ordering::Greater => Ordering::Greater,
    }
}

/// The order of keys of one owner: by kind, rdata and class.
fn compare_kinds(first: &Key, second: &Key) -> Ordering
    ensures { result ≡ ordering_then (nat_cmp first.now.kind second.now.kind) (ordering_then (octets_cmp first.now.rdata second.now.rdata) (nat_cmp first.now.class second.now.class)) }
{
    match first.kind.cmp(&second.kind) {
        Ordering::Less => Ordering::Less,
        Ordering::Equal => compare_data(first, second),
        Ordering::Greater => Ordering::Greater,
    }
}

/// The order of keys of one owner and kind: by rdata and class.
fn compare_data(first: &Key, second: &Key) -> Ordering
    ensures { result ≡ ordering_then (octets_cmp first.now.rdata second.now.rdata) (nat_cmp first.now.class second.now.class) }
{
    match compare_octets(first.rdata.as_slice(), second.rdata.as_slice()) {
        Ordering::Less => Ordering::Less,
        Ordering::Equal => first.class.cmp(&second.class),
        Ordering::Greater => Ordering::Greater,
    }
}

impl PartialEq for Key {
    ghost eq = { same_key };

    ghost laws = { partial_equiv_from_equiv (eq_by_cmp_equiv key_cmp_total) };

    fn eq(&self, other: &Key) -> bool {
        same_key(self, other)
    }
}

impl Eq for Key {
    ghost laws = { eq_by_cmp_equiv key_cmp_total };
}

impl PartialOrd for Key {
    ghost partial_cmp = { as_partial_cmp key_cmp };

    ghost laws = { partial_order_from_total key_cmp_total };

    fn partial_cmp(&self, other: &Key) -> Option<Ordering> {
        Some(compare_keys(self, other))
    }
}

impl Ord for Key {
    ghost cmp = { key_cmp };

    ghost total = { key_cmp_total };

    ghost matches_partial_cmp = { λ x y. refl };

    ghost matches_eq = { λ x y. refl };

    fn cmp(&self, other: &Key) -> Ordering {
        compare_keys(self, other)
    }
}

/// The order of a key's owner and of a name in lower case.
pub(crate) fn compare_owner(key: &Key, name: &Name) -> Ordering
    ensures { result ≡ octets_cmp (octets key.now.owner) (octets (lower name.now)) }
{
    key.owner.compare_with_lower(name)
}
