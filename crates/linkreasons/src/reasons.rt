//! The reasons of one session.

ghost use Rattle.std.specs.Prelude.{◌≡◌, ◌++◌, ◌∷◌, [], OnOk, OnErr, option_to_list};
ghost use Rattle.push_base.specs.Cases.{is_empty};
ghost use Rattle.linkreasons.specs.AllReasons.{but_last, with_reason, with_those};
ghost use Rattle.linkreasons.specs.Changing.{last_of};

use crate::NoMemory;
use crate::reason::Reason;
use std::alloc::Global;
use std::marker::Model;
use subscr::Subscriptions;

/// The reasons of one session, in the order in which they came.
#[derive(Debug, Drop)]
pub(crate) struct Reasons {
    items: Vec<Reason>,
}

impl Model for Reasons {
    ghost use Rattle.std.specs.Prelude.{List};
    ghost use Rattle.linkreasons.specs.declared.reason.Reason.{Reason};

    ghost Value = { List Reason };

    ghost view = { λ r. r.items.items };
}

/// Those stay whose ID is asked with.
fn keep_those(items: &mut Vec<Reason>, asked: &Subscriptions)
    ensures { items.new.items ≡ with_those asked.now items.old.items }
{
    items.retain(|reason| asked.has(reason.id));
}

impl Reasons {
    /// None.
    pub(crate) fn new(alloc: Global) -> Reasons
        ensures { result ≡ [] }
    {
        Reasons {
            items: Vec::new(alloc),
        }
    }

    /// In their order.
    pub(crate) fn as_slice(&self) -> &[Reason]
        ensures { result.now ≡ self.now }
    {
        &self.items
    }

    /// Whether there is none.
    pub(crate) fn is_empty(&self) -> bool
        ensures { result ≡ is_empty self.now }
    {
        self.items.is_empty()
    }

    /// One more behind the others.
    pub(crate) fn push(&mut self, reason: Reason) -> Result<(), NoMemory>
        ensures ok { OnOk result (self.new ≡ with_reason reason self.old) }
        ensures err { OnErr result (self.new ≡ self.old) }
    {
        Ok(self.items.push(reason)?)
    }

    /// Takes out the last.
    pub(crate) fn pop(&mut self) -> Option<Reason>
        ensures left { self.new ≡ but_last self.old }
        ensures last { option_to_list result ≡ last_of self.old }
    {
        self.items.pop()
    }

    /// Those stay whose ID is asked with.
    pub(crate) fn keep(&mut self, asked: &Subscriptions)
        ensures { self.new ≡ with_those asked.now self.old }
    {
        keep_those(&mut self.items, asked);
    }

    /// All go.
    pub(crate) fn clear(&mut self)
        ensures { self.new ≡ [] }
    {
        self.items.clear();
    }
}
