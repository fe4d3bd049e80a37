//! The first place of each of several words, so that none is looked for by a walk over all.

ghost use Rattle.std.specs.Prelude.{◌≡◌, ◌∷◌, ◌++◌, [], List, OnErr, OnOk, length, position};
ghost use Rattle.std.specs.Str.{bytes_eq};
ghost use Rattle.scripts.specs.Lines.{Word};
ghost use Rattle.scripts.specs.Places.{ArePlaces, place_in};
ghost use Rattle.scripts.specs.Scripts.{is_among};

use push_base::NoMemory;
use std::alloc::Global;
use std::collections::BTreeMap;

/// The first place of each word.
pub(crate) type Places = BTreeMap<Vec<u8>, usize>;

/// No word has a place.
pub(crate) fn no_places(alloc: Global) -> Places
    ensures { ArePlaces [] result }
{
    BTreeMap::new(alloc)
}

/// The place that is kept for a word.
pub(crate) fn place_of(places: &Places, word: &[u8]) -> Option<usize>
    ensures { result ≡ place_in places.now word.now }
{
    match places.get(word) {
        Some(place) => Some(*place),
        None => None,
    }
}

/// Whether a word has a place.
pub(crate) fn has_place(places: &Places, word: &[u8]) -> bool
    ensures { (words : List Word) → ArePlaces words places.now → result ≡ is_among words word.now }
{
    match place_of(places, word) {
        Some(_) => true,
        None => false,
    }
}

/// One word more, behind as many as its place tells: it has that place if it has none before.
pub(crate) fn add_place(
    alloc: Global,
    places: &mut Places,
    word: &[u8],
    place: usize,
) -> Result<(), NoMemory>
    ensures ok { (words : List Word) → ArePlaces words places.old → place ≡ length words → OnOk result (ArePlaces (words ++ word.now ∷ []) places.new) }
    ensures err { (words : List Word) → ArePlaces words places.old → OnErr result (ArePlaces words places.new) }
{
    match place_of(places, word) {
        Some(_) => return Ok(()),
        None => {}
    }
    let octets = Vec::from_slice(alloc, word)?;
    places.insert(octets, place)?;
    Ok(())
}
