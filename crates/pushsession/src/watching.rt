//! The names that a session watches.

ghost use Rattle.std.specs.Prelude.{◌≡◌, ◌<◌, ◌++◌, ◌∷◌, [], false, None, length, OnOk, OnErr};
ghost use Rattle.push_base.specs.Limits.{max_questions};
ghost use Rattle.subscr.specs.Asked.{has, id_of, question_of, without};
ghost use Rattle.subscr.specs.Watching.{watching_of};
ghost use Rattle.pushsession.specs.Watched.{MovesWatches};

use crate::NoMemory;
use crate::session::PushSession;
use dnsname::Name;
use rrset::Question;
use subscr::{Subscriptions, Watchers};

/// A session watches the names of these questions, each once less.
fn unwatch_each(watchers: &mut Watchers, questions: &[(u16, Question)], number: u64)
    ensures { MovesWatches number (watching_of watchers.old) (watching_of watchers.new) questions.now [] }
{
    'questions: for entry in questions {
        let _ = watchers.remove(&entry.1.name, number);
    }
}

/// Adds a question behind the others, and watches its name once more. Where memory runs out nothing changes.
pub(crate) fn ask(
    questions: &mut Subscriptions,
    id: u16,
    question: Question,
    name: &Name,
    watchers: &mut Watchers,
    number: u64,
) -> Result<(), NoMemory>
    requires id { has id questions.old ≡ false }
    requires question { id_of question questions.old ≡ None }
    requires room { length questions.old < max_questions }
    requires name { question.name ≡ name.now }
    ensures ok { OnOk result (questions.new ≡ questions.old ++ (id, question) ∷ []) }
    ensures err { OnErr result (questions.new ≡ questions.old) }
    ensures watched { MovesWatches number (watching_of watchers.old) (watching_of watchers.new) questions.old questions.new }
{
    watchers.add(name, number)?;
    match questions.add(id, question) {
        Ok(()) => Ok(()),
        Err(fault) => {
            let _ = watchers.remove(name, number);
            Err(fault)
        }
    }
}

/// Takes out an ID with its question, which it gives back, and watches its name once less. An unknown ID is ignored.
pub(crate) fn unask(
    questions: &mut Subscriptions,
    id: u16,
    watchers: &mut Watchers,
    number: u64,
) -> Option<Question>
    ensures question { result ≡ question_of id questions.old }
    ensures others { questions.new ≡ without id questions.old }
    ensures watched { MovesWatches number (watching_of watchers.old) (watching_of watchers.new) questions.old questions.new }
{
    let question = questions.remove(id)?;
    let _ = watchers.remove(&question.name, number);
    Some(question)
}

impl PushSession {
    /// The session, which has this number, watches no name any more. What it asks stays.
    pub fn unwatch(&self, watchers: &mut Watchers, number: u64)
        ensures { MovesWatches number (watching_of watchers.old) (watching_of watchers.new) self.now.subscriptions.asked [] }
    {
        unwatch_each(watchers, self.subscriptions.entries(), number);
    }
}
