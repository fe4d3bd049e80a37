//! Names as keys of maps: equal, ordered and hashed but for upper and lower case.

ghost use Rattle.std.specs.Prelude.{◌≡◌, Some, map, flat_map, refl};
ghost use Rattle.std.specs.Char.{to_ascii_lowercase};
ghost use Rattle.std.specs.Cmp.{on_equiv, on_per, on_po, on_total, partial_equiv_from_equiv};
ghost use Rattle.std.specs.Cmp.Lexicographic.{nat_list_cmp_total, nat_list_eq_equiv, slice_cmp, texts_po, texts_ties};
ghost use Rattle.std.specs.Hash as fed;
ghost use Rattle.std.specs.Ordering.{nat_cmp};
ghost use Rattle.dnsname.specs.Names.{same_name};
ghost use Rattle.dnsname.specs.Caseless.{as_same_key, caseless_octets, name_order};

use crate::name::Name;
use std::cmp::Ordering;
use std::hash::{Hash, Hasher};

/// The order of octets with ASCII letters in lower case.
fn compare_in_lower_case(first: &[u8], second: &[u8]) -> Ordering
    ensures { result ≡ slice_cmp nat_cmp (map to_ascii_lowercase first.now) (map to_ascii_lowercase second.now) }
{
    let shared = first.len().min(second.len());
    'octets: for index in 0..shared {
        let lower = first[index].to_ascii_lowercase();
        let order = lower.cmp(&second[index].to_ascii_lowercase());
        if order.is_ne() {
            return order;
        }
    }
    first.len().cmp(&second.len())
}

impl PartialEq for Name {
    ghost eq = { same_name };

    ghost laws = { on_per caseless_octets (partial_equiv_from_equiv nat_list_eq_equiv) };

    fn eq(&self, other: &Name) -> bool {
        self.same(other)
    }
}

impl Eq for Name {
    ghost laws = { on_equiv caseless_octets nat_list_eq_equiv };
}

impl PartialOrd for Name {
    ghost partial_cmp = { λ a b. Some (name_order a b) };

    ghost laws = { on_po caseless_octets texts_po };

    fn partial_cmp(&self, other: &Name) -> Option<Ordering> {
        Some(self.cmp(other))
    }
}

impl Ord for Name {
    ghost cmp = { name_order };

    ghost total = { on_total caseless_octets nat_list_cmp_total };

    ghost matches_partial_cmp = { λ a b. refl };

    ghost matches_eq = { λ a b. texts_ties (caseless_octets a) (caseless_octets b) };

    fn cmp(&self, other: &Name) -> Ordering {
        if self.is_lower() {
            return self.compare_with_lower(other);
        }
        compare_in_lower_case(self.octets(), other.octets())
    }
}

impl Hash for Name {
    ghost hash_input = { λ name. flat_map fed.u8 (caseless_octets name) };

    ghost respects_eq = { as_same_key (λ os. flat_map fed.u8 os) };

    fn hash<H: Hasher>(&self, state: &mut H) {
        'octets: for octet in self.octets() {
            state.write_u8(octet.to_ascii_lowercase());
        }
    }
}
