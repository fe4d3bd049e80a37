//! A client asks for what is needed, and drops what isn't.

ghost use Rattle.std.specs.Prelude.{◌≡◌, IfOk, OnOk};
ghost use Rattle.pushclient.specs.Clients.{Client as Plain, held};
ghost use Rattle.pushclient.specs.Rule.{StandsFor};
ghost use Rattle.browsing.specs.Browsing.{are_awaited, asks_all, asks_one, drops_all, drops_one, is_answered, is_awaited, is_held, is_needed};

use push_base::NoMemory;
use pushclient::Client;
use pushclient::client::{Asked, Held};
use rrset::record::{Question, Questions};
use rrset::same_question;

// Asks one question, and notes it where it wasn't asked before.
fn ask_one(client: &mut Client, asked: &mut Questions, question: &Question) -> Result<(), NoMemory>
    ensures { OnOk result ((plain : Plain) → StandsFor client.old plain →
        StandsFor client.new (asks_one (plain, asked.old) question.now).0 × (asked.new ≡ (asks_one (plain, asked.old) question.now).1)) }
{
    match client.subscribe(question.copy()?)? {
        Asked::New => asked.push(question.copy()?),
        Asked::Already | Asked::Many => Ok(()),
    }
}

/// Asks all questions, and notes those that weren't asked before.
pub(crate) fn ask_all(
    client: &mut Client,
    asked: &mut Questions,
    needed: &[Question],
) -> Result<(), NoMemory>
    ensures { OnOk result ((plain : Plain) → StandsFor client.old plain →
        StandsFor client.new (asks_all needed.now (plain, asked.old)).0 × (asked.new ≡ (asks_all needed.now (plain, asked.old)).1)) }
{
    'questions: for question in needed {
        ask_one(client, asked, question)?;
    }
    Ok(())
}

// Whether a question is among those that are needed.
fn is_needed(needed: &[Question], question: &Question) -> bool
    ensures { result ≡ is_needed needed.now question.now }
{
    needed.iter().any(|other| same_question(other, question))
}

// Drops a question, or notes it where it is needed.
fn drop_one(
    client: &mut Client,
    kept: &mut Questions,
    needed: &[Question],
    question: &Question,
) -> Result<(), NoMemory>
    ensures { OnOk result ((plain : Plain) → StandsFor client.old plain →
        StandsFor client.new (drops_one needed.now (plain, kept.old) question.now).0 × (kept.new ≡ (drops_one needed.now (plain, kept.old) question.now).1)) }
{
    if is_needed(needed, question) {
        return kept.push(question.copy()?);
    }
    let _ = client.unsubscribe(question)?;
    Ok(())
}

/// Drops the questions that aren't needed, and notes the others.
pub(crate) fn drop_all(
    client: &mut Client,
    kept: &mut Questions,
    needed: &[Question],
    asked: &[Question],
) -> Result<(), NoMemory>
    ensures { OnOk result ((plain : Plain) → StandsFor client.old plain →
        StandsFor client.new (drops_all needed.now asked.now (plain, kept.old)).0 × (kept.new ≡ (drops_all needed.now asked.now (plain, kept.old)).1)) }
{
    'questions: for question in asked {
        drop_one(client, kept, needed, question)?;
    }
    Ok(())
}

// Whether a question was asked, and has no answer yet.
fn is_awaited(client: &Client, question: &Question) -> bool
    ensures { (plain : Plain) → StandsFor client.now plain → result ≡ is_awaited (held plain) question.now }
{
    match client.mirror(question) {
        Held::Asked => true,
        Held::Off => false,
        Held::Refused(_) => false,
        Held::Answered(_) => false,
    }
}

// Whether a question is answered, and its set is held.
fn is_held(client: &Client, question: &Question) -> bool
    ensures { (plain : Plain) → StandsFor client.now plain → result ≡ is_held (held plain) question.now }
{
    match client.mirror(question) {
        Held::Answered(_) => true,
        Held::Off => false,
        Held::Refused(_) => false,
        Held::Asked => false,
    }
}

// Whether one of several questions has no answer yet.
fn are_awaited(client: &Client, needed: &[Question]) -> bool
    ensures { (plain : Plain) → StandsFor client.now plain → result ≡ are_awaited (held plain) needed.now }
{
    'questions: for question in needed {
        if is_awaited(client, question) {
            return true;
        }
    }
    false
}

/// Whether the root's set is held, and none of what is needed waits for its answer.
pub(crate) fn is_answered(client: &Client, root: &Question, needed: &[Question]) -> bool
    ensures { (plain : Plain) → StandsFor client.now plain → result ≡ is_answered (held plain) root.now needed.now }
{
    is_held(client, root) && !are_awaited(client, needed)
}
