//! Objects of one kind that will be handed out.

ghost use Rattle.std.specs.Prelude.{◌≡◌, ◌++◌, ◌∷◌, [], OnOk, OnErr};
ghost use Rattle.push_outside.specs.Shelves.{HandsOut, with_room};

use crate::OpenFault;
use crate::shelf::Shelf;
use push_base::{NoMemory, Octets};
use std::alloc::Global;
use std::collections::VecDeque;
use std::marker::Model;

/// Objects of one kind that will be handed out in order, and the words for which some were.
#[derive(Drop)]
pub(crate) struct Stock<T> {
    items: VecDeque<T>,
    words: Vec<Octets>,
}

impl<T> Model for Stock<T> {
    ghost use Rattle.push_outside.specs.Shelves.{StockState};

    ghost Value = { StockState T };

    ghost use Rattle.push_outside.specs.StockInside.{stock_state};

    ghost view = { stock_state };
}

impl<T> Stock<T> {
    /// These objects, of which none was handed out yet.
    pub(crate) fn new(alloc: Global, items: Vec<T>) -> Self
        ensures { result ≡ record { items = items.items; words = [] } }
    {
        Stock {
            items: VecDeque::from_vec(items),
            words: Vec::new(alloc),
        }
    }

    /// The words that were handed over, the first ones first.
    pub(crate) fn words(&self) -> &[Octets]
        ensures { result.now ≡ self.now.words }
    {
        &self.words
    }

    /// Hands out the first object, and makes room where it is taken back.
    pub(crate) fn hand_out<B>(
        &mut self,
        alloc: Global,
        words: &str,
        back: &mut Shelf<B>,
    ) -> Result<T, OpenFault>
        ensures { HandsOut words.now self.old self.new back.old back.new result }
    {
        if self.keep(alloc, words, back).is_err() {
            return Err(OpenFault::NoMemory);
        }
        match self.items.pop_front() {
            Some(object) => Ok(object),
            None => Err(OpenFault::Failed),
        }
    }

    // Keeps the words, and makes the room.
    fn keep<B>(&mut self, alloc: Global, words: &str, back: &mut Shelf<B>) -> Result<(), NoMemory>
        ensures ok { OnOk result ((self.new ≡ record self.old { words = self.old.words ++ words.now ∷ [] }) × (back.new ≡ with_room back.old)) }
        ensures err { OnErr result ((self.new ≡ self.old) × (back.new ≡ back.old)) }
    {
        let words = Octets::from_slice(alloc, words.as_bytes())?;
        self.words.reserve(1)?;
        back.make_room()?;
        self.words.push_reserved(words);
        Ok(())
    }
}
