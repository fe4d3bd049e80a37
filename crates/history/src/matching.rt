//! The records that a question asks for.

ghost use Rattle.std.specs.Prelude.{◌≡◌, map, IfOk};
ghost use Rattle.dnsname.specs.Names.{same_name};
ghost use Rattle.rrset.specs.Records.{rr_of};
ghost use Rattle.rrset.specs.RecordSet.{matching};

use nametable::NameTable;
use rrset::{Key, NoMemory, Question, Rr, Rrs, Shown, Table, matches};
use std::alloc::Global;

/// The record of a key and what is shown of it.
fn rr_of(key: &Key, shown: &Shown) -> Result<Rr, NoMemory>
    ensures { IfOk result (λ rr. rr ≡ rr_of key.now shown.now) }
{
    let Shown { owner, ttl, rdata } = shown.copy()?;
    Ok(Rr {
        owner,
        class: key.class,
        kind: key.kind,
        ttl,
        rdata,
    })
}

/// The records among some that a question asks for.
fn matching_rrs(alloc: Global, rows: &[(Key, Shown)], question: &Question) -> Result<Rrs, NoMemory>
    ensures { IfOk result (λ rrs. rrs ≡ map (λ e. rr_of e.0 e.1) (matching question.now rows.now)) }
{
    let mut rrs = Rrs::new(alloc);
    'rows: for (key, shown) in rows {
        if matches(question, key) {
            rrs.push(rr_of(key, shown)?)?;
        }
    }
    Ok(rrs)
}

/// The records of a table that a question asks for. It looks at those of the question's name.
pub(crate) fn table_matching(
    alloc: Global,
    table: &Table,
    question: &Question,
) -> Result<Rrs, NoMemory>
    ensures { IfOk result (λ rrs. rrs ≡ map (λ e. rr_of e.0 e.1) (matching question.now table.now.rows)) }
{
    matching_rrs(alloc, table.at(&question.name), question)
}

/// The same of records by names.
pub(crate) fn names_matching(
    alloc: Global,
    table: &NameTable,
    question: &Question,
) -> Result<Rrs, NoMemory>
    ensures { IfOk result (λ rrs. rrs ≡ map (λ e. rr_of e.0 e.1) (matching question.now table.now.rows)) }
{
    matching_rrs(alloc, table.at(&question.name), question)
}
