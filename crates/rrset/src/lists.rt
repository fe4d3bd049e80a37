//! Lists of records and questions.

ghost use Rattle.std.specs.Prelude.{◌≡◌, [], ◌∷◌, ◌++◌, length, IfOk, OnOk, OnErr};

use crate::record::{HeardRr, HeardRrs, NoMemory, Question, Questions, Rr, Rrs};
use std::alloc::Global;

impl Rrs {
    /// No records.
    pub fn new(alloc: Global) -> Self
        ensures { result ≡ [] }
    {
        Rrs {
            items: Vec::new(alloc),
        }
    }

    /// No records, with room for so many.
    pub fn with_room(alloc: Global, count: usize) -> Result<Self, NoMemory>
        ensures { IfOk result (λ list. list ≡ []) }
    {
        Ok(Rrs {
            items: Vec::with_capacity(alloc, count)?,
        })
    }

    /// These records.
    pub fn from_vec(items: Vec<Rr>) -> Self
        ensures { result ≡ items.items }
    {
        Rrs { items }
    }

    /// The records as a vector. No memory is taken.
    pub fn into_vec(self) -> Vec<Rr>
        ensures { result.items ≡ self }
    {
        let Rrs { items } = self;
        items
    }

    /// Appends one. A list that can't grow stays as it was.
    pub fn push(&mut self, item: Rr) -> Result<(), NoMemory>
        ensures ok { OnOk result (self.new ≡ self.old ++ item ∷ []) }
        ensures err { OnErr result (self.new ≡ self.old) }
    {
        self.items.push(item)?;
        Ok(())
    }

    /// The records, in order.
    pub fn as_slice(&self) -> &[Rr]
        ensures { result.now ≡ self.now }
    {
        &self.items
    }

    /// How many records there are.
    pub fn len(&self) -> usize
        ensures { result ≡ length self.now }
    {
        self.items.len()
    }
}

impl Questions {
    /// No questions.
    pub fn new(alloc: Global) -> Self
        ensures { result ≡ [] }
    {
        Questions {
            items: Vec::new(alloc),
        }
    }

    /// No questions, with room for so many.
    pub fn with_room(alloc: Global, count: usize) -> Result<Self, NoMemory>
        ensures { IfOk result (λ list. list ≡ []) }
    {
        Ok(Questions {
            items: Vec::with_capacity(alloc, count)?,
        })
    }

    /// These questions.
    pub fn from_vec(items: Vec<Question>) -> Self
        ensures { result ≡ items.items }
    {
        Questions { items }
    }

    /// The questions as a vector. No memory is taken.
    pub fn into_vec(self) -> Vec<Question>
        ensures { result.items ≡ self }
    {
        let Questions { items } = self;
        items
    }

    /// Appends one. A list that can't grow stays as it was.
    pub fn push(&mut self, item: Question) -> Result<(), NoMemory>
        ensures ok { OnOk result (self.new ≡ self.old ++ item ∷ []) }
        ensures err { OnErr result (self.new ≡ self.old) }
    {
        self.items.push(item)?;
        Ok(())
    }

    /// The questions, in order.
    pub fn as_slice(&self) -> &[Question]
        ensures { result.now ≡ self.now }
    {
        &self.items
    }

    /// How many questions there are.
    pub fn len(&self) -> usize
        ensures { result ≡ length self.now }
    {
        self.items.len()
    }
}

impl HeardRrs {
    /// No records.
    pub fn new(alloc: Global) -> Self
        ensures { result ≡ [] }
    {
        HeardRrs {
            items: Vec::new(alloc),
        }
    }

    /// No records, with room for so many.
    pub fn with_room(alloc: Global, count: usize) -> Result<Self, NoMemory>
        ensures { IfOk result (λ list. list ≡ []) }
    {
        Ok(HeardRrs {
            items: Vec::with_capacity(alloc, count)?,
        })
    }

    /// These records.
    pub fn from_vec(items: Vec<HeardRr>) -> Self
        ensures { result ≡ items.items }
    {
        HeardRrs { items }
    }

    /// The heard records as a vector. No memory is taken.
    pub fn into_vec(self) -> Vec<HeardRr>
        ensures { result.items ≡ self }
    {
        let HeardRrs { items } = self;
        items
    }

    /// Appends one. A list that can't grow stays as it was.
    pub fn push(&mut self, item: HeardRr) -> Result<(), NoMemory>
        ensures ok { OnOk result (self.new ≡ self.old ++ item ∷ []) }
        ensures err { OnErr result (self.new ≡ self.old) }
    {
        self.items.push(item)?;
        Ok(())
    }

    /// The heard records, in order.
    pub fn as_slice(&self) -> &[HeardRr]
        ensures { result.now ≡ self.now }
    {
        &self.items
    }

    /// How many heard records there are.
    pub fn len(&self) -> usize
        ensures { result ≡ length self.now }
    {
        self.items.len()
    }
}
