//! What an entry will change.

ghost use Rattle.std.specs.Prelude.{◌≡◌, IfOk};

use rrset::{Changed, NoMemory, Shown};
use std::alloc::Global;
use std::marker::Model;

/// Keys that will be shown otherwise, each with what is shown of it before and after, in key order.
#[derive(Debug, Drop)]
pub struct ChangedKeys {
    pub(crate) items: Vec<Changed>,
}

impl Model for ChangedKeys {
    ghost use Rattle.std.specs.Prelude.{List};
    ghost use Rattle.rrset.specs.declared.record.Changed.{Changed};

    ghost Value = { List Changed };

    ghost view = { λ c. c.items.items };
}

/// The same, to the letter, or nothing.
fn copy_shown(shown: &Option<Shown>) -> Result<Option<Shown>, NoMemory>
    ensures { IfOk result (λ copy. copy ≡ shown.now) }
{
    match shown {
        Some(shown) => Ok(Some(shown.copy()?)),
        None => Ok(None),
    }
}

/// The same changed key.
pub(crate) fn copy_change(change: &Changed) -> Result<Changed, NoMemory>
    ensures { IfOk result (λ copy. copy ≡ change.now) }
{
    Ok(Changed {
        key: change.key.copy()?,
        before: copy_shown(&change.before)?,
        after: copy_shown(&change.after)?,
    })
}

/// The same changed keys.
fn copy_changed(alloc: Global, changed: &[Changed]) -> Result<Vec<Changed>, NoMemory>
    ensures { IfOk result (λ copy. copy.items ≡ changed.now) }
{
    let mut copy = Vec::with_capacity(alloc, changed.len())?;
    'changed: for change in changed {
        copy.push(copy_change(change)?)?;
    }
    Ok(copy)
}

impl ChangedKeys {
    /// The same keys.
    pub(crate) fn from_slice(alloc: Global, changed: &[Changed]) -> Result<Self, NoMemory>
        ensures { IfOk result (λ keys. keys ≡ changed.now) }
    {
        let items = copy_changed(alloc, changed)?;
        Ok(ChangedKeys { items })
    }

    /// The keys, in key order.
    pub fn as_slice(&self) -> &[Changed]
        ensures { result.now ≡ self.now }
    {
        &self.items
    }

    /// The keys themselves.
    pub fn into_vec(self) -> Vec<Changed>
        ensures { result.items ≡ self }
    {
        let ChangedKeys { items } = self;
        items
    }
}

/// What becomes of an entry.
#[derive(Debug, Drop)]
pub enum Planned {
    /// An update is refused with an RCODE (RFC 2136, 2.2).
    Refuse(u8),
    /// Another entry isn't accepted.
    Idle,
    /// It is accepted, and these keys will be shown otherwise.
    Accept(ChangedKeys),
}
