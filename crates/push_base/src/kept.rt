//! Where octets are kept.

ghost use Rattle.std.specs.Prelude.{◌≡◌, ◌≤◌, length, take, IfOk};
ghost use Rattle.push_base.specs.OctetsInside.{FitsIn, most_few, kept_octets};

use crate::NoMemory;
use crate::front::copy_front;
use std::alloc::Global;
use std::sync::Arc;

/// The most octets that are kept in the value itself.
pub(crate) const FEW: usize = 22;

/// Where octets are kept: with `FEW` places, no more than a vector takes.
#[derive(Debug, Drop)]
pub(crate) enum Kept {
    /// The first so many of these.
    Few(u8, [u8; FEW]),
    /// In a vector that was handed over.
    Own(Vec<u8>),
    /// In a vector that copies share.
    Shared(Arc<Vec<u8>>),
}

/// Few octets, in the value itself.
pub(crate) fn few(octets: &[u8]) -> Kept
    requires { length octets.now ≤ most_few }
    ensures octets { kept_octets result ≡ octets.now }
    ensures fits { FitsIn result }
{
    let mut places = [0; FEW];
    let count = copy_front(octets, &mut places);
    Kept::Few(count as u8, places)
}

/// A copy of octets.
pub(crate) fn copied(alloc: Global, octets: &[u8]) -> Result<Kept, NoMemory>
    ensures octets { IfOk result (λ kept. kept_octets kept ≡ octets.now) }
    ensures fits { IfOk result FitsIn }
{
    if octets.len() <= FEW {
        return Ok(few(octets));
    }
    let octets = octets.to_vec(alloc)?;
    Ok(Kept::Shared(Arc::new(alloc, octets)?))
}

/// A copy of octets that is to have no further ones, in a vector alone where they are many.
pub(crate) fn copied_alone(alloc: Global, octets: &[u8]) -> Result<Kept, NoMemory>
    ensures octets { IfOk result (λ kept. kept_octets kept ≡ octets.now) }
    ensures fits { IfOk result FitsIn }
{
    if octets.len() <= FEW {
        return Ok(few(octets));
    }
    Ok(Kept::Own(octets.to_vec(alloc)?))
}

/// The octets of a vector. No memory is taken.
pub(crate) fn handed_over(octets: Vec<u8>) -> Kept
    ensures octets { kept_octets result ≡ octets.items }
    ensures fits { FitsIn result }
{
    if octets.len() <= FEW {
        return few(&octets);
    }
    Kept::Own(octets)
}

/// The octets of a vector, which copies share.
pub(crate) fn shared(alloc: Global, octets: Vec<u8>) -> Result<Kept, NoMemory>
    ensures octets { IfOk result (λ kept. kept_octets kept ≡ octets.items) }
    ensures fits { IfOk result FitsIn }
{
    if octets.len() <= FEW {
        return Ok(few(&octets));
    }
    Ok(Kept::Shared(Arc::new(alloc, octets)?))
}

/// The octets.
pub(crate) fn kept_octets(kept: &Kept) -> &[u8]
    requires { FitsIn kept.now }
    ensures { result.now ≡ kept_octets kept.now }
{
    match kept {
        Kept::Few(count, places) => {
            let (octets, _) = places.split_at(*count as usize);
            octets
        }
        Kept::Own(octets) => octets,
        Kept::Shared(octets) => octets.as_slice(),
    }
}

/// The same octets.
pub(crate) fn same(alloc: Global, kept: &Kept) -> Result<Kept, NoMemory>
    requires { FitsIn kept.now }
    ensures octets { IfOk result (λ copy. kept_octets copy ≡ kept_octets kept.now) }
    ensures fits { IfOk result FitsIn }
{
    match kept {
        Kept::Few(count, places) => Ok(Kept::Few(*count, *places)),
        Kept::Own(octets) => copied(alloc, octets),
        Kept::Shared(octets) => Ok(Kept::Shared(Arc::try_clone(octets)?)),
    }
}
