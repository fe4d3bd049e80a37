//! What a session asks, and what a client holds of the answers (RFC 8765, 6.2 to 6.4).

use crate::made::{holds, question, record};
use dnsname::Name;
use dsotlv::Notice;
use mirror::Mirror;
use push_base::NoMemory;
use rrset::{Question, kinds};
use std::alloc::Global;
use std::test::Fail;
use subscr::{MAX_QUESTIONS, Subscriptions};

/// Adds a question where it and its ID are new and there is room, and says whether it did.
fn add_new(asked: &mut Subscriptions, id: u16, question: Question) -> Result<bool, NoMemory> {
    if asked.len() >= MAX_QUESTIONS {
        return Ok(false);
    }
    if asked.has(id) {
        return Ok(false);
    }
    if asked.id_of(&question).is_some() {
        return Ok(false);
    }
    asked.add(id, question)?;
    Ok(true)
}

/// Questions in turn: an ID, a name, a kind, and whether ID and question are new.
const ADDED: &[(u16, &str, u16, bool)] = &[
    (7, "a.example.", kinds::A, true),
    (3, "b.example.", kinds::ANY, true),
    (3, "c.example.", kinds::A, false),
    (4, "A.Example.", kinds::A, false),
];

/// Takes a question out, and says whether it was there.
fn take_out(asked: &mut Subscriptions, id: u16) -> bool {
    asked.remove(id).is_some()
}

#[test]
fn a_question_goes_by_its_id(rt: HostRuntime) -> Result<(), Fail> {
    let alloc = rt.alloc();
    let mut asked = Subscriptions::new(alloc);
    'added: for case in ADDED {
        let question = question(alloc, case.1, case.2)?;
        holds(case.1, add_new(&mut asked, case.0, question)? == case.3)?;
    }
    let second = question(alloc, "B.example.", kinds::ANY)?;
    holds("the second's ID", asked.id_of(&second) == Some(3))?;
    holds("its name", asked.watches(&second.name))?;
    holds("the first", take_out(&mut asked, 7))?;
    holds("the first once more", !take_out(&mut asked, 7))?;
    holds("one is left", asked.len() == 1)
}

/// What is held of two questions, of which nothing is known yet.
fn begun(alloc: Global) -> Result<Mirror, Fail> {
    let mut held = Mirror::new(alloc);
    held.begin(question(alloc, "a.example.", kinds::TXT)?)?;
    held.begin(question(alloc, "b.example.", kinds::ANY)?)?;
    Ok(held)
}

/// Notices of a record that each question asks for.
fn added(alloc: Global) -> Result<[Notice; 2], Fail> {
    let first = record(alloc, "a.example.", kinds::TXT, 60, b"\x01a")?;
    let second = record(alloc, "b.Example.", kinds::TXT, 60, b"\x01a")?;
    Ok([Notice::Add(first), Notice::Add(second)])
}

/// The notice that all records of a name are gone.
fn removed(alloc: Global, name: &str) -> Result<[Notice; 1], Fail> {
    Ok([Notice::RemoveAll(Name::from_text(alloc, name)?)])
}

/// How many records a question's set has.
fn count(alloc: Global, held: &Mirror, name: &str, kind: u16) -> Result<Option<usize>, Fail> {
    let question = question(alloc, name, kind)?;
    Ok(held.set(&question).map(|set| set.len()))
}

/// How many records each set has.
fn counts(alloc: Global, held: &Mirror) -> Result<[Option<usize>; 2], Fail> {
    let first = count(alloc, held, "A.example.", kinds::TXT)?;
    let second = count(alloc, held, "B.example.", kinds::ANY)?;
    Ok([first, second])
}

/// Ends the first question, and says whether it was there.
fn end_first(alloc: Global, held: &mut Mirror) -> Result<bool, Fail> {
    let question = question(alloc, "A.example.", kinds::TXT)?;
    Ok(held.end(&question))
}

/// Fails where the sets have other counts.
fn have(
    alloc: Global,
    held: &Mirror,
    first: Option<usize>,
    second: Option<usize>,
) -> Result<(), Fail> {
    let counts = counts(alloc, held)?;
    holds("the first's count", counts[0] == first)?;
    holds("the second's count", counts[1] == second)
}

#[test]
fn notices_reach_each_set(rt: HostRuntime) -> Result<(), Fail> {
    let alloc = rt.alloc();
    let mut held = begun(alloc)?;
    held.apply(&added(alloc)?)?;
    have(alloc, &held, Some(1), Some(1))?;
    held.apply(&removed(alloc, "B.EXAMPLE.")?)?;
    have(alloc, &held, Some(1), Some(0))?;
    holds("the first", end_first(alloc, &mut held)?)?;
    holds("the first once more", !end_first(alloc, &mut held)?)?;
    have(alloc, &held, None, Some(0))
}
