//! Rows that were reconfirmed.

ghost use Rattle.std.specs.Prelude.{◌≡◌, IfOk};
ghost use Rattle.rrset.specs.Records.{same_key};
ghost use Rattle.linkask.specs.Reasons.{is_doubted, question_for, was_heard_at};
ghost use Rattle.rrset.specs.KeyedRows.{row_at};
ghost use Rattle.linkreasons.specs.Changing.{names_owner};

use crate::NoMemory;
use linkcache::Cache;
use rrset::{HeardRr, Key, Question, classes, same_key};
use std::marker::Model;

/// A row that was reconfirmed, with the moment at which it had been heard, and the question for it.
#[derive(Debug, Drop)]
pub(crate) struct DoubtedRow {
    key: Key,
    heard: u64,
    question: Question,
}

impl Model for DoubtedRow {
    ghost use Rattle.std.specs.Prelude.{◌≡◌, ℕ};
    ghost use Rattle.rrset.specs.declared.record.Key.{Key};
    ghost use Rattle.linkask.specs.Reasons.{question_for};

    ghost Value = { Key × ℕ };

    ghost view = { λ r. (r.key, r.heard) };

    ghost invariant = { λ r. r.question ≡ question_for r.key };
}

/// The question for a row.
fn question_for(key: &Key) -> Result<Question, NoMemory>
    ensures { IfOk result (λ question. question ≡ question_for key.now) }
{
    Ok(Question {
        name: key.owner.copy()?,
        kind: key.kind,
        class: classes::IN,
    })
}

impl DoubtedRow {
    /// A row of a key that had been heard at a moment.
    pub(crate) fn new(key: Key, heard: u64) -> Result<DoubtedRow, NoMemory>
        ensures { IfOk result (λ row. row ≡ (key, heard)) }
    {
        let question = question_for(&key)?;
        Ok(DoubtedRow {
            key,
            heard,
            question,
        })
    }

    /// The question for it.
    pub(crate) fn question(&self) -> &Question
        ensures { result.now ≡ question_for self.now.0 }
    {
        &self.question
    }

    /// Whether it has the key of another.
    pub(crate) fn is_of(&self, other: &DoubtedRow) -> bool
        ensures { result ≡ same_key self.now.0 other.now.0 }
    {
        same_key(&self.key, &other.key)
    }

    /// Whether a hearing says something of its name.
    pub(crate) fn is_named(&self, hearing: &[HeardRr]) -> bool
        ensures { result ≡ names_owner self.now.0.owner hearing.now }
    {
        hearing
            .iter()
            .any(|heard| self.key.owner.same(&heard.rr.owner))
    }

    /// When it had been heard.
    pub(crate) fn heard(&self) -> u64
        ensures { result ≡ self.now.1 }
    {
        self.heard
    }

    /// Whether it is there and wasn't heard since.
    pub(crate) fn is_still_doubted(&self, cache: &Cache) -> bool
        ensures { result ≡ was_heard_at self.now.1 (row_at self.now.0 cache.now.state.rows) }
    {
        match cache.rows().get(&self.key) {
            Some(row) => row.heard == self.heard,
            None => false,
        }
    }
}

/// Whether one of several has the key and the moment of a row.
pub(crate) fn is_among(row: &DoubtedRow, rows: &[DoubtedRow]) -> bool
    ensures { result ≡ is_doubted row.now.0 row.now.1 rows.now }
{
    rows.iter()
        .any(|other| row.is_of(other) && other.heard() == row.heard())
}
