//! Reverse domains of a link.

ghost use Rattle.std.specs.Prelude.{◌≡◌, ◌∷◌, ◌++◌, [], IfOk, OnOk, OnErr};

use dnsname::Name;
use rrset::NoMemory;
use std::alloc::Global;
use std::marker::Model;

/// A link's reverse domains (RFC 8766, 5.4), in the order in which they were added, seen as their list.
#[derive(Debug, Drop)]
pub struct Reverses {
    domains: Vec<Name>,
}

impl Model for Reverses {
    ghost use Rattle.std.specs.Prelude.{List};
    ghost use Rattle.dnsname.specs.Names.{Labels};

    ghost Value = { List Labels };

    ghost view = { λ r. r.domains.items };
}

/// Copies of names behind others.
fn copy_names(copy: &mut Vec<Name>, names: &[Name]) -> Result<(), NoMemory>
    ensures { OnOk result (copy.new.items ≡ copy.old.items ++ names.now) }
{
    'names: for name in names {
        copy.push(name.copy()?)?;
    }
    Ok(())
}

impl Reverses {
    /// No reverse domains.
    pub(crate) fn new(alloc: Global) -> Self
        ensures { result ≡ [] }
    {
        Reverses {
            domains: Vec::new(alloc),
        }
    }

    /// The reverse domains.
    pub fn as_slice(&self) -> &[Name]
        ensures { result.now ≡ self.now }
    {
        self.domains.as_slice()
    }

    /// Adds a reverse domain behind the others.
    pub(crate) fn add(&mut self, domain: Name) -> Result<(), NoMemory>
        ensures ok { OnOk result (self.new ≡ self.old ++ domain ∷ []) }
        ensures err { OnErr result (self.new ≡ self.old) }
    {
        self.domains.push(domain)?;
        Ok(())
    }

    /// The same reverse domains.
    pub(crate) fn copy(&self, alloc: Global) -> Result<Reverses, NoMemory>
        ensures { IfOk result (λ copy. copy ≡ self.now) }
    {
        let mut domains = Vec::new(alloc);
        copy_names(&mut domains, self.as_slice())?;
        Ok(Reverses { domains })
    }
}
