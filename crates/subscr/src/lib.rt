//! The active subscriptions of DNS Push sessions (RFC 8765, 6.2 and 6.4): what one session asks, by message ID, and
//! which sessions watch a name.
//!
//! **Model.** `Subscriptions` is a list of questions with their IDs, in the order of the SUBSCRIBEs (`Asked`). It has
//! at most `MAX_QUESTIONS`, no ID twice and no question twice (`AreAsked`). `Watchers` tells for each name and session
//! how many of its questions have the name. The promises are in `specs/Asked` and `specs/Watching`.
//!
//! **Flow.** A SUBSCRIBE that is accepted adds to both, an UNSUBSCRIBE takes out of both, and the end of a session
//! takes out all of its names. When a record changes, `Watchers::at` gives the sessions of its name. `subscriptions.rt`
//! holds the list. Beside it `kept.rt` holds an index: the IDs, and in `named.rt` the questions by name. `watchers.rt`
//! maps each name to the numbers of its sessions (`sessions.rt`), which stand there in rising order.
//!
//! **Begin** with `specs/Asked`, then `subscriptions.rt`, then `specs/Watching`.
//!
//! **Change.** The index is private: `kept.rt`, `named.rt` and `sessions.rt` may become something else, and no other
//! crate's proof sees it. `Asked` and `Watching` are words of the session's rules, of nets and of links' questions, so
//! their meaning stays. `Watchers::at` counts one step, and one for each session. The bound on the work of an update
//! rests on that.
//!
//! **Stand on it**: `pushsession` (asks and unasks), `livesessions` (whom a change concerns), `coalesce` (what a
//! session may be told), `linkreasons` (which questions are still a reason to ask a link).
#![tactic(auto)]

mod kept;
mod named;
mod sessions;
mod subscriptions;
mod watchers;

ghost use Rattle.std.specs.Prelude.{◌≡◌, [], ◌∷◌, true, false, codes, None, Some};
ghost use Rattle.dnsname.specs.Text.{name};
ghost use Rattle.subscr.specs.Asked.{id_of, question_of, watches, without};
ghost use Rattle.subscr.specs.Watching.{are_rising, once_less, watching_of};

pub use push_base::NoMemory;
pub use push_base::limits::MAX_QUESTIONS;
pub use subscriptions::Subscriptions;
pub use watchers::Watchers;

/// Examples of what is asked.
pub fn worked_rows()
    ensures letter_case { id_of (record { name = name (codes "A."); kind = 1; class = 1 }) ((7, record { name = name (codes "a."); kind = 1; class = 1 }) ∷ []) ≡ Some 7 }
    ensures other_kind { id_of (record { name = name (codes "a."); kind = 28; class = 1 }) ((7, record { name = name (codes "a."); kind = 1; class = 1 }) ∷ []) ≡ None }
    ensures gone { without 7 ((7, record { name = name (codes "a."); kind = 1; class = 1 }) ∷ []) ≡ [] }
    ensures no_id { question_of 8 ((7, record { name = name (codes "a."); kind = 1; class = 1 }) ∷ []) ≡ None }
    ensures watched { watches (name (codes "B.a.")) ((7, record { name = name (codes "a."); kind = 1; class = 1 }) ∷ (5, record { name = name (codes "b.A."); kind = 255; class = 1 }) ∷ []) ≡ true }
    ensures unwatched { watches (name (codes "b.a.")) ((7, record { name = name (codes "a."); kind = 1; class = 1 }) ∷ []) ≡ false }
    ensures watching { watching_of ((name (codes "a."), 3 ∷ 5 ∷ 3 ∷ []) ∷ []) (name (codes "A.")) 3 ≡ 2 }
    ensures once_less { once_less (name (codes "A.")) 3 (watching_of ((name (codes "a."), 3 ∷ 5 ∷ 3 ∷ []) ∷ [])) (name (codes "a.")) 3 ≡ 1 }
    ensures rising { are_rising (3 ∷ 3 ∷ 5 ∷ []) ≡ false }
{}
