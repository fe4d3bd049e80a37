//! The clients that there are, found by their words.

ghost use Rattle.std.specs.Prelude.{◌≡◌, ◌∷◌, ◌++◌, [], OnErr, OnOk, length, option_map, position, slice_get};
ghost use Rattle.std.specs.Str.{bytes_eq};
ghost use Rattle.scripts.specs.Scripts.{lone_in};
ghost use Rattle.scripts.specs.Events.{known_clients, words_known};

use crate::clients::KnownClient;
use crate::places::{Places, add_place, no_places, place_of};
use push_base::NoMemory;
use std::alloc::Global;
use std::marker::Model;

/// Clients in the order in which they came. The place of each is kept by its word, so that no line walks over them.
#[derive(Drop)]
pub(crate) struct Clients {
    list: Vec<KnownClient>,
    places: Places,
}

impl Model for Clients {
    ghost use Rattle.std.specs.Prelude.{List};
    ghost use Rattle.scripts.specs.declared.clients.KnownClient.{KnownClient};
    ghost use Rattle.scripts.specs.Events.{known_clients, words_known};
    ghost use Rattle.scripts.specs.Places.{ArePlaces};

    ghost Value = { List KnownClient };

    ghost view = { λ c. c.list.items };

    ghost invariant = { λ c. ArePlaces (words_known (known_clients c.list.items)) c.places };
}

// Whether the client at a place is a lone one, if there is one.
fn lone_at(list: &[KnownClient], place: usize) -> Option<bool>
    ensures { result ≡ option_map (λ c. c.is_lone) (slice_get list.now place) }
{
    let client = list.get(place)?;
    Some(client.is_lone)
}

impl Clients {
    /// No client.
    pub(crate) fn new(alloc: Global) -> Self
        ensures { result ≡ [] }
    {
        Clients {
            list: Vec::new(alloc),
            places: no_places(alloc),
        }
    }

    /// How many there are.
    pub(crate) fn len(&self) -> usize
        ensures { result ≡ length self.now }
    {
        self.list.len()
    }

    /// The number of the client of a word, counted from 0.
    pub(crate) fn place(&self, word: &[u8]) -> Option<usize>
        ensures { result ≡ position (bytes_eq word.now) (words_known (known_clients self.now)) }
    {
        place_of(&self.places, word)
    }

    /// Whether the client of a word is a lone one, if there is one.
    pub(crate) fn lone(&self, word: &[u8]) -> Option<bool>
        ensures { result ≡ lone_in (known_clients self.now) word.now }
    {
        match self.place(word) {
            Some(place) => lone_at(&self.list, place),
            None => None,
        }
    }

    /// One client more.
    pub(crate) fn add(&mut self, client: KnownClient) -> Result<(), NoMemory>
        ensures ok { OnOk result (self.new ≡ self.old ++ client ∷ []) }
        ensures err { OnErr result (self.new ≡ self.old) }
    {
        let alloc = *self.list.allocator();
        let place = self.list.len();
        self.list.reserve(1)?;
        add_place(alloc, &mut self.places, client.word.as_bytes(), place)?;
        self.list.push_reserved(client);
        Ok(())
    }

    /// The clients, without their places.
    pub(crate) fn into_list(self) -> Vec<KnownClient>
        ensures { result.items ≡ self }
    {
        let Clients { list, places: _ } = self;
        list
    }
}
