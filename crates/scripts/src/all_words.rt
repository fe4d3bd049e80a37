//! The words of all clients of a script, found without a walk over them.

ghost use Rattle.std.specs.Prelude.{◌≡◌, ◌∷◌, ◌++◌, [], OnOk, IfOk, string_bytes};
ghost use Rattle.scripts.specs.KeptLines.{words_of};
ghost use Rattle.scripts.specs.Scripts.{is_among};

use crate::head_homes::push_word;
use crate::places::{Places, add_place, has_place, no_places};
use push_base::NoMemory;
use std::alloc::Global;
use std::marker::Model;

/// Words in the order in which they came. The first place of each is kept, so that a script of many clients is read
/// without a walk over all of them at each line of a peer.
#[derive(Drop)]
pub(crate) struct Words {
    list: Vec<String>,
    places: Places,
}

impl Model for Words {
    ghost use Rattle.std.specs.Prelude.{List};
    ghost use Rattle.scripts.specs.Lines.{Word};
    ghost use Rattle.scripts.specs.KeptLines.{words_of};
    ghost use Rattle.scripts.specs.Places.{ArePlaces};

    ghost Value = { List Word };

    ghost view = { λ w. words_of w.list.items };

    ghost invariant = { λ w. ArePlaces (words_of w.list.items) w.places };
}

impl Words {
    /// No word.
    pub(crate) fn new(alloc: Global) -> Self
        ensures { result ≡ [] }
    {
        Words {
            list: Vec::new(alloc),
            places: no_places(alloc),
        }
    }

    /// Whether a word is among them.
    pub(crate) fn has(&self, word: &[u8]) -> bool
        ensures { result ≡ is_among self.now word.now }
    {
        has_place(&self.places, word)
    }

    /// One word more.
    pub(crate) fn add(&mut self, word: String) -> Result<(), NoMemory>
        ensures { OnOk result (self.new ≡ self.old ++ string_bytes word ∷ []) }
    {
        let alloc = *self.list.allocator();
        let place = self.list.len();
        self.list.reserve(1)?;
        add_place(alloc, &mut self.places, word.as_bytes(), place)?;
        push_word(&mut self.list, word);
        Ok(())
    }

    /// Copies of words.
    pub(crate) fn copied(alloc: Global, words: &[String]) -> Result<Self, NoMemory>
        ensures { IfOk result (λ copies. copies ≡ words_of words.now) }
    {
        let mut copies = Words::new(alloc);
        'words: for word in words {
            let copy = String::from_str(alloc, word.as_str())?;
            copies.add(copy)?;
        }
        Ok(copies)
    }
}
