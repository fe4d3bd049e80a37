//! The table of a server's open sessions, by number: who is told of a change before it is made, and which sessions have
//! fallen too far behind the journal (RFC 8765).
//!
//! **Model.** `Sessions` is a list of pairs of a number and a session, in the order in which they were connected, no
//! number twice (`Numbered`, `AreApart`). `specs/NumberedSessions` has the operations on such a list. `specs/Behind`
//! says which sessions need a point that the journal no longer has. `specs/Watched` says that `Watchers` agrees with
//! what the sessions ask.
//!
//! **Flow.** `note` (`noting.rt`) is told the keys that an entry will change. For each it asks `Watchers` who watches
//! the name, and lets only these sessions note the old value. Where memory runs out all notes are taken back.
//! `numbered_sessions.rt` finds, adds, drops and times sessions. `behind.rt` ends those that are behind, and tells
//! which past the others still need.
//!
//! **Begin** with `specs/NumberedSessions`, then `noting.rt`.
//!
//! **Change.** How a session is found by its number is private: it is a walk over at most `MAX_SESSIONS` entries, and a
//! map would serve too. The number of seats stands here once, as `MAX_SESSIONS`; docs/ARCHITECTURE.md says what more
//! seats would take. The steps that `note` counts are promised by `pushserver`, so it may not look at sessions that
//! don't watch.
//!
//! **Stand on it**: `pushserver` alone; `hubasking` and `hublock` name its limit.
#![tactic(auto)]

mod behind;
mod noting;
mod numbered_sessions;

pub use noting::note;
pub use numbered_sessions::{MAX_SESSIONS, Sessions};
pub use pushsession::NoMemory;
