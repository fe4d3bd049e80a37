//! The questions of a client with their sets.

ghost use Rattle.std.specs.Prelude.{◌≡◌, [], true, None, Some, position, IsOk, MatchOption, OnOk, OnErr};
ghost use Rattle.mirror.specs.Held.{applied_to, begun, ended, has, is_of, set_of};

use crate::NoMemory;
use crate::notices::apply_all;
use dsotlv::Notice;
use rrset::record::Question;
use rrset::{Table, same_question};
use std::alloc::Global;
use std::marker::Model;

/// Questions, each with a record set, in the order in which they began. No question is there twice (names but for
/// case), and a set has keys alone for which its question asks.
#[derive(Debug, Drop)]
pub struct Mirror {
    entries: Vec<(Question, Table)>,
}

impl Model for Mirror {
    ghost use Rattle.mirror.specs.Held.{AreHeld, AreAsked, Held, held_of};

    ghost Value = { Held };

    ghost view = { λ m. held_of m.entries.items };

    ghost invariant = { λ m. AreHeld m.entries.items × AreAsked (held_of m.entries.items) };
}

/// Where a question is.
fn place_of(entries: &[(Question, Table)], question: &Question) -> Option<usize>
    ensures { result ≡ position (is_of question.now) entries.now }
{
    entries
        .iter()
        .position(|entry| same_question(&entry.0, question))
}

impl Mirror {
    /// No questions.
    pub fn new(alloc: Global) -> Self
        ensures { result ≡ [] }
    {
        Mirror {
            entries: Vec::new(alloc),
        }
    }

    /// Begins a question's set empty: in its place where the question is there, and else behind the others. A mirror
    /// that can't grow stays as it was. It takes no memory where the question is there.
    pub fn begin(&mut self, question: Question) -> Result<(), NoMemory>
        ensures ok { OnOk result (self.new ≡ begun question self.old) }
        ensures err { OnErr result (self.new ≡ self.old) }
        ensures there { has question self.old ≡ true → IsOk result }
    {
        let set = Table::new(*self.entries.allocator());
        match place_of(&self.entries, &question) {
            Some(index) => self.entries[index].1 = set,
            None => self.entries.push((question, set))?,
        }
        Ok(())
    }

    /// Takes out a question with its set, and says whether it was there. The others stay in their order.
    pub fn end(&mut self, question: &Question) -> bool
        ensures there { result ≡ has question.now self.old }
        ensures others { self.new ≡ ended question.now self.old }
    {
        match place_of(&self.entries, question) {
            Some(index) => {
                self.entries.remove(index);
                true
            }
            None => false,
        }
    }

    /// Does to each set what all notices of one message say, in order (RFC 8765, 6.3.1). After want of memory all
    /// sets are as they were.
    pub fn apply(&mut self, notices: &[Notice]) -> Result<(), NoMemory>
        ensures ok { OnOk result (self.new ≡ applied_to notices.now self.old) }
        ensures err { OnErr result (self.new ≡ self.old) }
    {
        apply_all(*self.entries.allocator(), &mut self.entries, notices)
    }

    /// The set of a question, or nothing where it is not there.
    pub fn set(&self, question: &Question) -> Option<&Table>
        ensures { MatchOption result (set_of question.now self.now ≡ None) (λ set. set_of question.now self.now ≡ Some set.now.rows) }
    {
        let index = place_of(&self.entries, question)?;
        Some(&self.entries[index].1)
    }
}
