//! What is kept of questions beside their list, so that each is found by its ID and by its name.

ghost use Rattle.std.specs.Prelude.{◌≡◌, ◌||◌, [], false, not, option_map, find, OnOk, OnErr};
ghost use Rattle.std.specs.List.{list_any};
ghost use Rattle.push_base.specs.Cases.{is_empty};
ghost use Rattle.rrset.specs.Kinds.{any_class, any_kind};
ghost use Rattle.subscr.specs.ByName.{noted_at};
ghost use Rattle.subscr.specs.Named.{Adds, AreOrdered, IsSameKept, Removes, asks_for, is_asked, is_of};
ghost use Rattle.subscr.specs.Watching.{is_in};

use crate::NoMemory;
use crate::named::{Ask, Named, compare_to};
use dnsname::Name;
use rrset::classes;
use rrset::kinds::ANY;
use rrset::record::{Key, Question};
use std::alloc::Global;
use std::collections::BTreeSet;
use std::marker::Model;

/// Whether a question has this QTYPE and this QCLASS.
fn has_kinds(asks: &[Ask], kind: u16, class: u16) -> bool
    requires { AreOrdered asks.now }
    ensures { result ≡ list_any (is_of kind class) asks.now }
{
    asks.binary_search_by(|ask| compare_to(ask, kind, class))
        .is_ok()
}

/// Whether a question has this QTYPE, and this QCLASS or ANY.
fn has_kind(asks: &[Ask], kind: u16, class: u16) -> bool
    requires { AreOrdered asks.now }
    ensures { result ≡ (list_any (is_of kind class) asks.now || list_any (is_of kind any_class) asks.now) }
{
    has_kinds(asks, kind, class) || has_kinds(asks, kind, classes::ANY)
}

/// Whether a question has this QTYPE or ANY, and this QCLASS or ANY.
fn has_kind_or_any(asks: &[Ask], kind: u16, class: u16) -> bool
    requires { AreOrdered asks.now }
    ensures { result ≡ ((list_any (is_of kind class) asks.now || list_any (is_of kind any_class) asks.now) || (list_any (is_of any_kind class) asks.now || list_any (is_of any_kind any_class) asks.now)) }
{
    has_kind(asks, kind, class) || has_kind(asks, ANY, class)
}

/// Whether a question at the owner of a key asks for the key.
pub(crate) fn asks_for(asks: &[Ask], key: &Key) -> bool
    requires { AreOrdered asks.now }
    ensures { result ≡ list_any (asks_for key.now) asks.now }
{
    has_kind_or_any(asks, key.kind, key.class)
}

/// The ID of a question among those at its name.
fn id_among(asks: &[Ask], question: &Question) -> Option<u16>
    ensures { result ≡ option_map (λ a. a.id) (find (is_asked question.now) asks.now) }
{
    let ask = asks.iter().find(|ask| ask.kind == question.kind && ask.class == question.class)?;
    Some(ask.id)
}

/// IDs, and questions by name.
#[derive(Debug, Drop)]
pub(crate) struct Keeping {
    ids: BTreeSet<u16>,
    names: Named,
}

impl Model for Keeping {
    ghost use Rattle.subscr.specs.Named.{Kept};

    ghost Value = { Kept };

    ghost view = { λ k. record { ids = k.ids.keys; asks = k.names } };
}

impl Keeping {
    /// Nothing.
    pub fn new(alloc: Global) -> Self
        ensures { result ≡ record { ids = []; asks = [] } }
    {
        Keeping {
            ids: BTreeSet::new(alloc),
            names: Named::new(alloc),
        }
    }

    /// One more question, with an ID that isn't there. Where memory runs out nothing changes.
    pub fn add(&mut self, id: u16, question: &Question) -> Result<(), NoMemory>
        requires { is_in id self.old.ids ≡ false }
        ensures ok { OnOk result (Adds id question.now self.old self.new) }
        ensures err { OnErr result (IsSameKept self.old self.new) }
    {
        let name = question.name.copy()?;
        self.ids.insert(id)?;
        let ask = Ask {
            kind: question.kind,
            class: question.class,
            id,
        };
        let added = self.names.add(name, ask);
        if added.is_err() {
            self.ids.remove(&id);
        }
        added
    }

    /// The question of an ID goes.
    pub fn remove(&mut self, id: u16, name: &Name)
        ensures { Removes id name.now self.old self.new }
    {
        self.ids.remove(&id);
        self.names.remove(name, id);
    }

    /// Whether an ID is there.
    pub fn has(&self, id: u16) -> bool
        ensures { result ≡ is_in id self.now.ids }
    {
        self.ids.contains(&id)
    }

    /// The ID of a question.
    pub fn id_of(&self, question: &Question) -> Option<u16>
        ensures { result ≡ option_map (λ a. a.id) (find (is_asked question.now) (noted_at question.now.name self.now.asks)) }
    {
        id_among(self.names.at(&question.name), question)
    }

    /// Whether a question has this name.
    pub fn watches(&self, name: &Name) -> bool
        ensures { result ≡ not (is_empty (noted_at name.now self.now.asks)) }
    {
        !self.names.at(name).is_empty()
    }

    /// Whether a question asks for this key.
    pub fn wants(&self, key: &Key) -> bool
        ensures { result ≡ list_any (asks_for key.now) (noted_at key.now.owner self.now.asks) }
    {
        asks_for(self.names.at(&key.owner), key)
    }
}
