//! Objects of one kind that were taken back.

ghost use Rattle.std.specs.Prelude.{◌≡◌, ◌-◌, [], OnOk, OnErr, IfOk, false};
ghost use Rattle.push_outside.specs.Shelves.{with_room, after_taking_back};

use push_base::NoMemory;
use std::alloc::Global;
use std::marker::Model;

/// Objects of one kind that were taken back. To take one back needs no memory, since its room was made before.
#[derive(Drop)]
pub(crate) struct Shelf<T> {
    items: Vec<T>,
    room: usize,
    lost: bool,
}

impl<T> Model for Shelf<T> {
    ghost use Rattle.push_outside.specs.Shelves.{ShelfState};

    ghost Value = { ShelfState T };

    ghost use Rattle.push_outside.specs.ShelfInside.{shelf_state, HasRoom};

    ghost view = { shelf_state };

    ghost invariant = { HasRoom };
}

impl<T> Shelf<T> {
    /// None were taken back, and there is no room.
    pub(crate) fn new(alloc: Global) -> Self
        ensures { result ≡ record { items = []; room = 0; lost = false } }
    {
        Shelf {
            items: Vec::new(alloc),
            room: 0,
            lost: false,
        }
    }

    /// None were taken back, and there is room for so many.
    pub(crate) fn with_room(alloc: Global, room: usize) -> Result<Self, NoMemory>
        ensures { IfOk result (λ shelf. shelf ≡ record { items = []; room = room; lost = false }) }
    {
        Ok(Shelf {
            items: Vec::with_capacity(alloc, room)?,
            room,
            lost: false,
        })
    }

    /// Makes room for one object more.
    pub(crate) fn make_room(&mut self) -> Result<(), NoMemory>
        ensures ok { OnOk result (self.new ≡ with_room self.old) }
        ensures err { OnErr result (self.new ≡ self.old) }
    {
        self.items.reserve(self.room + 1)?;
        self.room += 1;
        Ok(())
    }

    /// The room for one object isn't needed.
    pub(crate) fn leave_room(&mut self)
        ensures { self.new ≡ record self.old { room = self.old.room - 1 } }
    {
        self.room = self.room.saturating_sub(1);
    }

    /// The objects, the first one first.
    pub(crate) fn items(&self) -> &[T]
        ensures { result.now ≡ self.now.items }
    {
        &self.items
    }
}

impl<T: Drop> Shelf<T> {
    /// Takes an object back.
    pub(crate) fn take_back(&mut self, object: T)
        ensures { self.new ≡ after_taking_back object self.old }
    {
        if self.room == 0 {
            self.lost = true;
            return;
        }
        self.room -= 1;
        self.items.push_reserved(object);
    }
}
