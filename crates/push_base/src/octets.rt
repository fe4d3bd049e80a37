//! Octets, seen as their list.

ghost use Rattle.std.specs.Prelude.{◌≡◌, [], length, IfOk};

use crate::NoMemory;
use crate::kept::{Kept, copied, copied_alone, few, handed_over, kept_octets, same, shared};
use std::alloc::Global;
use std::marker::Model;

/// Octets, seen as their list. Few stand in the value itself, and copies share many.
#[derive(Debug)]
pub struct Octets {
    alloc: Global,
    kept: Kept,
}

// By hand, so that no proof of a crate above sees in how many ways octets are kept.
impl Drop for Octets {
    fn drop(self) {
        let Octets { alloc: _, kept: _ } = self;
    }
}

impl Model for Octets {
    ghost use Rattle.std.specs.Prelude.{ℕ, List};
    ghost use Rattle.push_base.specs.OctetsInside.{FitsIn, kept_octets};

    ghost Value = { List ℕ };

    ghost view = { λ octets. kept_octets octets.kept };

    ghost invariant = { λ octets. FitsIn octets.kept };
}

impl Octets {
    /// No octets.
    pub fn new(alloc: Global) -> Self
        ensures { result ≡ [] }
    {
        Octets {
            alloc,
            kept: few(&[]),
        }
    }

    /// These octets.
    pub fn from_vec(bytes: Vec<u8>) -> Self
        ensures { result ≡ bytes.items }
    {
        Octets {
            alloc: *bytes.allocator(),
            kept: handed_over(bytes),
        }
    }

    /// These octets, which copies share.
    pub fn shared(bytes: Vec<u8>) -> Result<Self, NoMemory>
        ensures { IfOk result (λ octets. octets ≡ bytes.items) }
    {
        let alloc = *bytes.allocator();
        let kept = shared(alloc, bytes)?;
        Ok(Octets { alloc, kept })
    }

    /// A copy of octets, of which further copies would take as much memory again.
    pub fn alone(alloc: Global, octets: &[u8]) -> Result<Self, NoMemory>
        ensures { IfOk result (λ copy. copy ≡ octets.now) }
    {
        let kept = copied_alone(alloc, octets)?;
        Ok(Octets { alloc, kept })
    }

    /// A copy of octets.
    pub fn from_slice(alloc: Global, octets: &[u8]) -> Result<Self, NoMemory>
        ensures { IfOk result (λ copy. copy ≡ octets.now) }
    {
        let kept = copied(alloc, octets)?;
        Ok(Octets { alloc, kept })
    }

    /// The same octets.
    pub fn copy(&self) -> Result<Self, NoMemory>
        ensures { IfOk result (λ copy. copy ≡ self.now) }
    {
        let alloc = self.alloc;
        if let Kept::Few(count, places) = &self.kept {
            let kept = Kept::Few(*count, *places);
            return Ok(Octets { alloc, kept });
        }
        same_of_many(self)
    }

    /// The allocator that the octets came with.
    pub fn allocator(&self) -> Global {
        self.alloc
    }

    /// The octets.
    pub fn as_slice(&self) -> &[u8]
        ensures { result.now ≡ self.now }
    {
        kept_octets(&self.kept)
    }

    /// How many octets there are.
    pub fn len(&self) -> usize
        ensures { result ≡ length self.now }
    {
        self.as_slice().len()
    }
}

// The same octets, wherever they are kept. It stands apart, so that what many take isn't paid for few.
#[inline(never)]
fn same_of_many(octets: &Octets) -> Result<Octets, NoMemory>
    ensures { IfOk result (λ copy. copy ≡ octets.now) }
{
    let alloc = octets.alloc;
    let kept = same(alloc, &octets.kept)?;
    Ok(Octets { alloc, kept })
}
