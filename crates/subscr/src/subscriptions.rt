//! The questions of a session.

ghost use Rattle.std.specs.Prelude.{◌≡◌, ◌<◌, ◌≤◌, ◌++◌, ◌∷◌, [], false, None, length, position, OnOk, OnErr};
ghost use Rattle.push_base.specs.Limits.{max_questions};
ghost use Rattle.subscr.specs.Asked.{AreAsked, has, id_of, is_id, question_of, without, watches, wants};

use crate::NoMemory;
use crate::kept::Keeping;
use dnsname::Name;
use rrset::record::{Key, Question};
use std::alloc::Global;
use std::marker::Model;

/// Where an ID is.
fn place_of(entries: &[(u16, Question)], id: u16) -> Option<usize>
    ensures { result ≡ position (is_id id) entries.now }
{
    entries.iter().position(|entry| entry.0 == id)
}

/// Questions with their IDs, in the order in which they were added: at most `MAX_QUESTIONS`, no ID twice, and no
/// question twice (names but for case).
#[derive(Debug, Drop)]
pub struct Subscriptions {
    entries: Vec<(u16, Question)>,
    keeping: Keeping,
}

impl Model for Subscriptions {
    ghost use Rattle.subscr.specs.Asked.{Asked, AreAsked};
    ghost use Rattle.subscr.specs.Named.{IsKept};

    ghost Value = { Asked };

    ghost view = { λ s. s.entries.items };

    ghost invariant = { λ s. AreAsked s.entries.items × IsKept s.keeping s.entries.items };
}

impl Subscriptions {
    /// No questions.
    pub fn new(alloc: Global) -> Self
        ensures { result ≡ [] }
    {
        Subscriptions {
            entries: Vec::new(alloc),
            keeping: Keeping::new(alloc),
        }
    }

    /// Adds a question behind the others (RFC 8765, 6.2). Questions that can't grow stay as they were.
    pub fn add(&mut self, id: u16, question: Question) -> Result<(), NoMemory>
        requires id { has id self.old ≡ false }
        requires question { id_of question self.old ≡ None }
        requires room { length self.old < max_questions }
        ensures ok { OnOk result (self.new ≡ self.old ++ (id, question) ∷ []) }
        ensures err { OnErr result (self.new ≡ self.old) }
    {
        self.entries.reserve(1)?;
        self.keeping.add(id, &question)?;
        self.entries.push_reserved((id, question));
        Ok(())
    }

    /// Takes out an ID with its question, and gives the question, or nothing where the ID is not there (RFC 8765,
    /// 6.4). The others stay in their order.
    pub fn remove(&mut self, id: u16) -> Option<Question>
        ensures question { result ≡ question_of id self.old }
        ensures others { self.new ≡ without id self.old }
        ensures asked { AreAsked self.old }
    {
        let index = place_of(&self.entries, id)?;
        let (_, question) = self.entries.remove(index);
        self.keeping.remove(id, &question.name);
        Some(question)
    }

    /// The ID of a question, or nothing where it is not there (names but for case).
    pub fn id_of(&self, question: &Question) -> Option<u16>
        ensures { result ≡ id_of question.now self.now }
    {
        self.keeping.id_of(question)
    }

    /// Whether an ID is there.
    pub fn has(&self, id: u16) -> bool
        ensures { result ≡ has id self.now }
    {
        self.keeping.has(id)
    }

    /// How many questions there are.
    pub fn len(&self) -> usize
        ensures { result ≡ length self.now }
    {
        self.entries.len()
    }

    /// Whether a question has this name, but for case.
    pub fn watches(&self, name: &Name) -> bool
        ensures { result ≡ watches name.now self.now }
    {
        self.keeping.watches(name)
    }

    /// Whether a question asks for records of this key.
    pub fn wants(&self, key: &Key) -> bool
        ensures { result ≡ wants key.now self.now }
    {
        self.keeping.wants(key)
    }

    /// The questions with their IDs, in the order in which they were added.
    pub fn entries(&self) -> &[(u16, Question)]
        ensures entries { result.now ≡ self.now }
        ensures asked { AreAsked result.now }
    {
        &self.entries
    }
}
