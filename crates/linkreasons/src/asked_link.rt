//! What one link is asked, and its rows that were reconfirmed.

ghost use Rattle.std.specs.Prelude.{◌≡◌, ◌<◌, ◌≤◌, ◌++◌, ◌∷◌, [], false, filter, length, not, true, Some, None, IfOk, OnOk, OnErr, if◌then◌else◌};
ghost use Rattle.std.specs.List.{list_any};
ghost use Rattle.std.specs.Vec.{vec_capacity, vec_len};
ghost use Rattle.push_base.specs.Limits.{max_datagram, max_moment};
ghost use Rattle.rrset.specs.Records.{same_key};
ghost use Rattle.linkask.specs.Asking.{next};
ghost use Rattle.linkask.specs.Bounds.{AreBounds, all_reasons, wanted_in};
ghost use Rattle.linkask.specs.Reasons.{still_reconfirmed};
ghost use Rattle.linkreasons.specs.Changing.{begun_if_new, doubted, heard_by, is_over, names_any, one_unwanted, one_wanted, questions_of_rows, refreshed, settled, undoubted, unwanted_all};

use crate::NoMemory;
use crate::doubted_row::{DoubtedRow, is_among};
use linkask::Asker;
use linkcache::Cache;
use rrset::{HeardRr, Question};
use std::alloc::Global;
use std::marker::Model;

/// What a link is asked, and its rows that were reconfirmed, in the order in which they came.
#[derive(Debug, Drop)]
pub(crate) struct AskedLink {
    asker: Asker,
    rows: Vec<DoubtedRow>,
}

impl Model for AskedLink {
    ghost use Rattle.linkreasons.specs.AllReasons.{ReasonsOfLink};

    ghost Value = { ReasonsOfLink };

    ghost view = { λ l. record { kept = l.asker; reconfirmed = l.rows.items } };
}

/// The rows that have gone or were heard since are no reason any more.
fn drop_over(asker: &mut Asker, rows: &[DoubtedRow], cache: &Cache)
    ensures { asker.new ≡ unwanted_all (questions_of_rows (filter (is_over cache.now.state.rows) rows.now)) asker.old }
{
    'rows: for row in rows {
        if !row.is_still_doubted(cache) {
            asker.unwant(row.question());
        }
    }
}

/// The rows with the key of another are no reason any more.
fn drop_same(asker: &mut Asker, rows: &[DoubtedRow], row: &DoubtedRow)
    ensures { asker.new ≡ unwanted_all (questions_of_rows (filter (λ r. same_key row.now.0 r.0) rows.now)) asker.old }
{
    'rows: for other in rows {
        if row.is_of(other) {
            asker.unwant(other.question());
        }
    }
}

/// Whether a row has the key of another.
fn has_key(rows: &[DoubtedRow], row: &DoubtedRow) -> bool
    ensures { result ≡ list_any (λ r. same_key row.now.0 r.0) rows.now }
{
    rows.iter().any(|other| row.is_of(other))
}

/// Where a row isn't among others its question begins anew.
fn begin_if_new(asker: &mut Asker, rows: &[DoubtedRow], row: &DoubtedRow)
    ensures { asker.new ≡ begun_if_new row.now rows.now asker.old }
{
    if !is_among(row, rows) {
        asker.ask_anew(row.question());
    }
}

/// A row stands for others with its key. Where it isn't among them its question begins anew.
fn settle_for(asker: &mut Asker, rows: &[DoubtedRow], row: &DoubtedRow)
    ensures { asker.new ≡ begun_if_new row.now rows.now (unwanted_all (questions_of_rows (filter (λ r. same_key row.now.0 r.0) rows.now)) asker.old) }
{
    drop_same(asker, rows, row);
    begin_if_new(asker, rows, row);
}

/// Those stay that are there and weren't heard since.
fn keep_doubted(rows: &mut Vec<DoubtedRow>, cache: &Cache)
    ensures { rows.new.items ≡ still_reconfirmed cache.now.state.rows rows.old.items }
{
    rows.retain(|row| row.is_still_doubted(cache));
}

/// A row in place of those with its key. Behind the row that was taken out there is room.
fn put_last(rows: &mut Vec<DoubtedRow>, row: DoubtedRow)
    requires { vec_len rows.old < vec_capacity rows.old }
    ensures { rows.new.items ≡ filter (λ r. not (same_key row.0 r.0)) rows.old.items ++ row ∷ [] }
{
    rows.retain(|other| !row.is_of(other));
    rows.push_reserved(row);
}

/// A row that was taken out stands for others with its key, behind the others. Mostly there is none, and then they are
/// looked at once.
fn settle_row(asker: &mut Asker, rows: &mut Vec<DoubtedRow>, row: DoubtedRow)
    requires { vec_len rows.old < vec_capacity rows.old }
    ensures kept { asker.new ≡ begun_if_new row rows.old.items (unwanted_all (questions_of_rows (filter (λ r. same_key row.0 r.0) rows.old.items)) asker.old) }
    ensures rows { rows.new.items ≡ filter (λ r. not (same_key row.0 r.0)) rows.old.items ++ row ∷ [] }
{
    if has_key(rows, &row) {
        settle_for(asker, rows, &row);
        put_last(rows, row);
        return;
    }
    asker.ask_anew(row.question());
    rows.push_reserved(row);
}

impl AskedLink {
    /// Nothing is asked.
    pub(crate) fn new(alloc: Global) -> AskedLink
        ensures { result ≡ record { kept = []; reconfirmed = [] } }
    {
        AskedLink {
            asker: Asker::new(alloc),
            rows: Vec::new(alloc),
        }
    }

    /// One reason more for a question. Where memory runs out nothing changes.
    pub(crate) fn want(&mut self, question: Question) -> Result<(), NoMemory>
        ensures ok { OnOk result (self.new ≡ one_wanted question self.old) }
        ensures err { OnErr result (self.new ≡ self.old) }
    {
        self.asker.want(question)
    }

    /// One reason less for a question.
    pub(crate) fn unwant(&mut self, question: &Question)
        ensures { self.new ≡ one_unwanted question.now self.old }
    {
        self.asker.unwant(question);
    }

    /// One more row that was reconfirmed, behind the others. Where memory runs out nothing changes.
    pub(crate) fn doubt(&mut self, row: DoubtedRow) -> Result<(), NoMemory>
        ensures ok { OnOk result (self.new ≡ doubted row self.old) }
        ensures err { OnErr result (self.new ≡ self.old) }
    {
        let question = row.question().copy()?;
        self.rows.push(row)?;
        match self.asker.want(question) {
            Ok(()) => Ok(()),
            Err(fault) => {
                self.rows.pop();
                Err(fault)
            }
        }
    }

    /// The last row is taken back.
    pub(crate) fn take_back(&mut self)
        ensures { self.new ≡ undoubted self.old }
    {
        if let Some(row) = self.rows.pop() {
            self.asker.unwant(row.question());
        }
    }

    /// The last row stands for all of its key. Where it wasn't doubted already, its question begins anew.
    pub(crate) fn settle(&mut self)
        ensures { self.new ≡ settled self.old }
    {
        let Some(row) = self.rows.pop() else {
            return;
        };
        settle_row(&mut self.asker, &mut self.rows, row);
    }

    /// The rows go that have gone or were heard since.
    pub(crate) fn refresh(&mut self, cache: &Cache)
        ensures { self.new ≡ refreshed cache.now.state.rows self.old }
    {
        drop_over(&mut self.asker, &self.rows, cache);
        keep_doubted(&mut self.rows, cache);
    }

    /// Whether a hearing says something of the name of a row that was reconfirmed.
    pub(crate) fn is_named(&self, hearing: &[HeardRr]) -> bool
        ensures { result ≡ names_any self.now.reconfirmed hearing.now }
    {
        self.rows.iter().any(|row| row.is_named(hearing))
    }

    /// Lowers the bounds of the questions that ask for what was heard.
    pub(crate) fn heard(&mut self, hearing: &[HeardRr], now: u64)
        requires { now ≤ max_moment }
        ensures { self.new ≡ heard_by now hearing.now self.old }
    {
        self.asker.heard(hearing, now);
    }

    /// What is sent for the first question that is due, which is asked now; false where none is due.
    pub(crate) fn next(
        &mut self,
        alloc: Global,
        cache: &Cache,
        now: u64,
        out: &mut Vec<u8>,
    ) -> Result<bool, NoMemory>
        requires bounds { AreBounds cache.now.state.rows self.old.kept }
        requires moment { now ≤ max_moment }
        ensures ok { IfOk result (λ found. next cache.now.state.rows now (wanted_in self.old.kept) ≡ (if found then Some out.new.items else None, wanted_in self.new.kept)) }
        ensures err { OnErr result (wanted_in self.new.kept ≡ wanted_in self.old.kept) }
        ensures none { IfOk result (λ found. found ≡ false → out.new.items ≡ out.old.items) }
        ensures nothing { OnErr result (out.new.items ≡ out.old.items) }
        ensures size { IfOk result (λ found. found ≡ true → length out.new.items ≤ max_datagram) }
        ensures reasons { all_reasons self.new.kept ≡ all_reasons self.old.kept }
        ensures bounds { AreBounds cache.now.state.rows self.new.kept }
        ensures rows { self.new.reconfirmed ≡ self.old.reconfirmed }
    {
        self.asker.next(alloc, cache, now, out)
    }
}
