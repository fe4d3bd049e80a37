//! Lists of services, of their changes and of rdata, each seen as its list.

ghost use Rattle.std.specs.Prelude.{◌≡◌, ◌++◌, ◌∷◌, [], ◌==◌, length, IfOk, OnOk, OnErr};

use crate::service::{Change, Service};
use push_base::{NoMemory, Octets};
use std::alloc::Global;
use std::marker::Model;

/// The rdata of some records.
#[derive(Debug, Drop)]
pub struct Rdatas {
    items: Vec<Octets>,
}

impl Model for Rdatas {
    ghost use Rattle.std.specs.Prelude.{ℕ, List};

    ghost Value = { List (List ℕ) };

    ghost view = { λ l. l.items.items };
}

/// Services, in order.
#[derive(Debug, Drop)]
pub struct Services {
    items: Vec<Service>,
}

impl Model for Services {
    ghost use Rattle.std.specs.Prelude.{List};
    ghost use Rattle.services.specs.declared.service.Service.{Service};

    ghost Value = { List Service };

    ghost view = { λ l. l.items.items };
}

/// Changes, in order.
#[derive(Debug, Drop)]
pub struct Changes {
    items: Vec<Change>,
}

impl Model for Changes {
    ghost use Rattle.std.specs.Prelude.{List};
    ghost use Rattle.services.specs.declared.service.Change.{Change};

    ghost Value = { List Change };

    ghost view = { λ l. l.items.items };
}

impl Rdatas {
    /// None.
    pub fn new(alloc: Global) -> Self
        ensures { result ≡ [] }
    {
        Rdatas {
            items: Vec::new(alloc),
        }
    }

    /// Appends one. A list that can't grow stays as it was.
    pub fn push(&mut self, item: Octets) -> Result<(), NoMemory>
        ensures ok { OnOk result (self.new ≡ self.old ++ item ∷ []) }
        ensures err { OnErr result (self.new ≡ self.old) }
    {
        self.items.push(item)?;
        Ok(())
    }

    /// All of them, in order.
    pub fn as_slice(&self) -> &[Octets]
        ensures { result.now ≡ self.now }
    {
        &self.items
    }

    /// The same rdata.
    pub fn copy(&self) -> Result<Self, NoMemory>
        ensures { IfOk result (λ copy. copy ≡ self.now) }
    {
        let items = copied(*self.items.allocator(), &self.items)?;
        Ok(Rdatas { items })
    }
}

// The same rdata.
fn copied(alloc: Global, all: &[Octets]) -> Result<Vec<Octets>, NoMemory>
    ensures { IfOk result (λ copy. copy.items ≡ all.now) }
{
    let mut copies = Vec::new(alloc);
    'rdatas: for rdata in all {
        let copy = rdata.copy()?;
        copies.push(copy)?;
    }
    Ok(copies)
}

impl Services {
    /// None.
    pub fn new(alloc: Global) -> Self
        ensures { result ≡ [] }
    {
        Services {
            items: Vec::new(alloc),
        }
    }

    /// Appends one. A list that can't grow stays as it was.
    pub fn push(&mut self, item: Service) -> Result<(), NoMemory>
        ensures ok { OnOk result (self.new ≡ self.old ++ item ∷ []) }
        ensures err { OnErr result (self.new ≡ self.old) }
    {
        self.items.push(item)?;
        Ok(())
    }

    /// All of them, in order.
    pub fn as_slice(&self) -> &[Service]
        ensures { result.now ≡ self.now }
    {
        &self.items
    }
}

impl Changes {
    /// None.
    pub fn new(alloc: Global) -> Self
        ensures { result ≡ [] }
    {
        Changes {
            items: Vec::new(alloc),
        }
    }

    /// Appends one. A list that can't grow stays as it was.
    pub fn push(&mut self, item: Change) -> Result<(), NoMemory>
        ensures ok { OnOk result (self.new ≡ self.old ++ item ∷ []) }
        ensures err { OnErr result (self.new ≡ self.old) }
    {
        self.items.push(item)?;
        Ok(())
    }

    /// All of them, in order.
    pub fn as_slice(&self) -> &[Change]
        ensures { result.now ≡ self.now }
    {
        &self.items
    }

    /// Whether there are none.
    pub fn is_empty(&self) -> bool
        ensures { result ≡ (length self.now == 0) }
    {
        self.items.len() == 0
    }
}
