//! Which records are asked for.

ghost use Rattle.std.specs.Prelude.{◌≡◌};
ghost use Rattle.coalesce.specs.Sides.{is_asked};

use rrset::{Key, Question, matches};
use subscr::Subscriptions;

/// Who asks for records.
#[derive(Clone, Copy)]
pub(crate) enum Asking<'a> {
    /// All records are asked for.
    All,
    /// A session's questions.
    Questions(&'a Subscriptions),
    /// One question.
    One(&'a Question),
    /// One question, or a session's questions.
    OneOr(&'a Question, &'a Subscriptions),
}

/// Whether a key is asked for.
pub(crate) fn is_asked(asking: Asking, key: &Key) -> bool
    ensures { result ≡ is_asked asking.entry key.now }
{
    match asking {
        Asking::All => true,
        Asking::Questions(questions) => questions.wants(key),
        Asking::One(question) => matches(question, key),
        Asking::OneOr(question, questions) => matches(question, key) || questions.wants(key),
    }
}
