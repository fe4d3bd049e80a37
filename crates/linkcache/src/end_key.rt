//! Keys by which the moments at which rows end are kept.

ghost use Rattle.std.specs.Prelude.{◌≡◌, IfOk, refl};
ghost use Rattle.std.specs.Cmp.{eq_by_cmp_equiv, partial_equiv_from_equiv, partial_order_from_total};
ghost use Rattle.std.specs.Ordering.{as_partial_cmp};
ghost use Rattle.rrset.specs.KeyOrder.{key_cmp_total};
ghost use Rattle.rrset.specs.Records.{key_cmp, same_key};

use nametable::first_of;
use rrset::{Key, NoMemory, compare_keys, same_key};
use std::alloc::Global;
use std::cmp::Ordering;
use std::marker::Model;

/// A key behind a pointer, so that few octets move where a moment comes or goes. The number of its owner's first octets
/// stands beside the pointer, so that most comparisons don't follow it. In contracts it is the key.
#[derive(Debug, Drop)]
pub(crate) struct EndKey {
    first: u64,
    key: Box<Key>,
}

impl Model for EndKey {
    ghost use Rattle.nametable.specs.FirstOctets.{HasFirst};
    ghost use Rattle.rrset.specs.declared.record.Key.{Key};

    ghost Value = { Key };

    ghost view = { λ k. k.key.value };

    ghost invariant = { λ k. HasFirst k.first k.key.value.owner };
}

impl EndKey {
    /// A copy of a key.
    pub(crate) fn copied(alloc: Global, key: &Key) -> Result<EndKey, NoMemory>
        ensures { IfOk result (λ copy. copy ≡ key.now) }
    {
        let copy = key.copy()?;
        let first = first_of(&copy.owner);
        let key = Box::new(alloc, copy)?;
        Ok(EndKey { first, key })
    }

    /// The key.
    pub(crate) fn key(&self) -> &Key
        ensures { result.now ≡ self.now }
    {
        &self.key
    }

    /// The order of the two keys.
    fn compare(&self, other: &EndKey) -> Ordering
        ensures { result ≡ key_cmp self.now other.now }
    {
        if self.first < other.first {
            return Ordering::Less;
        }
        if other.first < self.first {
            return Ordering::Greater;
        }
        compare_keys(&self.key, &other.key)
    }
}

impl PartialEq for EndKey {
    ghost eq = { same_key };

    ghost laws = { partial_equiv_from_equiv (eq_by_cmp_equiv key_cmp_total) };

    fn eq(&self, other: &EndKey) -> bool {
        same_key(self.key(), other.key())
    }
}

impl Eq for EndKey {
    ghost laws = { eq_by_cmp_equiv key_cmp_total };
}

impl PartialOrd for EndKey {
    ghost partial_cmp = { as_partial_cmp key_cmp };

    ghost laws = { partial_order_from_total key_cmp_total };

    fn partial_cmp(&self, other: &EndKey) -> Option<Ordering> {
        Some(self.compare(other))
    }
}

impl Ord for EndKey {
    ghost cmp = { key_cmp };

    ghost total = { key_cmp_total };

    ghost matches_partial_cmp = { λ x y. refl };

    ghost matches_eq = { λ x y. refl };

    fn cmp(&self, other: &EndKey) -> Ordering {
        self.compare(other)
    }
}
