//! Values as the texts that the tables give.

use push_base::{NoMemory, hex_text};
use rrset::{Question, Rr};
use std::alloc::Global;
use std::test::Fail;

/// Name, kind and class of a question.
pub(crate) fn question_text(alloc: Global, question: &Question) -> Result<String, NoMemory> {
    let name = question.name.text()?;
    format!(in alloc; "{name} {} {}", question.kind, question.class)
}

/// Owner, TTL, class, kind and rdata of a record.
pub(crate) fn record_text(alloc: Global, rr: &Rr) -> Result<String, NoMemory> {
    let owner = rr.owner.text()?;
    let rdata = hex_text(alloc, rr.rdata.as_slice())?;
    format!(in alloc; "{owner} {} {} {} [{rdata}]", rr.ttl, rr.class, rr.kind)
}

/// Fails where a test doesn't hold. An assertion in a test's own loop is dear to prove.
pub(crate) fn holds(shows: &str, test: bool) -> Result<(), Fail> {
    if test {
        return Ok(());
    }
    Err(Fail::new(format_args!("{shows}: not so")))
}

/// Fails where a text isn't the one that is wanted.
pub(crate) fn is_text(shows: &str, text: &str, wanted: &str) -> Result<(), Fail> {
    if text == wanted {
        return Ok(());
    }
    Err(Fail::new(format_args!("{shows}: {text}")))
}
