//! Room for the octets of a name.

ghost use Rattle.std.specs.Prelude.{◌≡◌, ◌+◌, ◌++◌, ◌≤◌, [], length, take};

use crate::part::MAX_NAME;
use std::marker::Model;

/// Octets, no more than a name has, seen as their list. They take no memory but their own places.
#[derive(Drop)]
pub(crate) struct NameRoom {
    places: [u8; MAX_NAME],
    count: usize,
}

impl Model for NameRoom {
    ghost use Rattle.std.specs.Prelude.{ℕ, List, ◌≤◌, take};

    ghost Value = { List ℕ };

    ghost view = { λ room. take room.count room.places };

    ghost invariant = { λ room. room.count ≤ 255 };
}

impl NameRoom {
    /// No octets.
    pub(crate) fn new() -> Self
        ensures { result ≡ [] }
    {
        NameRoom {
            places: [0; MAX_NAME],
            count: 0,
        }
    }

    /// How many octets there are.
    pub(crate) fn len(&self) -> usize
        ensures { result ≡ length self.now }
    {
        self.count
    }

    /// The octets.
    pub(crate) fn as_slice(&self) -> &[u8]
        ensures { result.now ≡ self.now }
    {
        let (octets, _) = self.places.split_at(self.count);
        octets
    }

    /// Appends octets.
    pub(crate) fn extend(&mut self, octets: &[u8])
        requires { length self.old + length octets.now ≤ 255 }
        ensures { self.new ≡ self.old ++ octets.now }
    {
        put_behind(&mut self.places, self.count, octets);
        self.count += octets.len();
    }
}

// Puts octets down behind the first so many.
fn put_behind(places: &mut [u8], count: usize, octets: &[u8])
    requires { count + length octets.now ≤ length places.old }
    ensures size { length places.new ≡ length places.old }
    ensures octets { take (count + length octets.now) places.new ≡ take count places.old ++ octets.now }
{
    places[count..count + octets.len()].copy_from_slice(octets);
}
