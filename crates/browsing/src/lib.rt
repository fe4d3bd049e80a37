//! A machine that browses: a client, and the list of services that is shown of it (RFC 6763; RFC 8765).
//!
//! **Model.** The plain machine (`Browsing` in `specs/Browsing`) is a client and the question that it browses for. It
//! also has what it asked and hasn't dropped, when octets last came, and what is shown. `turned` says what one read and
//! one moment make of it, and what changed of what is shown. `specs/Showing` says when a list is ripe: a new list is
//! shown only then.
//!
//! **Flow.** `Browser::turn` (`browser.rt`) takes the octets of a read, and the client reacts to them (`hearing.rt`).
//! Where a read gave none, and nothing is due by then (`stage.rt`), only the moment passes: that costs no list.
//! Then `services` makes a list of the records, and `needs` says what it asks for. What wasn't asked is asked, and once
//! all is settled, what isn't needed is dropped (`asking.rt`). `showing.rt` shows the list where it is ripe, and gives
//! the changes. `Browser::output` gives the octets that are to be sent.
//!
//! **Begin** with `specs/Browsing` and `specs/Showing`, then `browser.rt`.
//!
//! **Change.** The machine reaches no socket and no clock: octets and moments are handed to it. That must stay, as its
//! clauses say what each call makes of the plain machine. How long a list waits is set by `QUIET`, `PATIENCE` and
//! `GRACE` in `showing.rt`, which the specs read from there. A list that is shown must outlive its connection, so that
//! no service goes only because a connection did.
//!
//! **Stand on it**: `pushctl_commands` (drives a `Browser` over each connection, and writes what changed).
#![tactic(auto)]

mod asking;
mod browser;
mod hearing;
mod showing;
mod stage;

pub use browser::Browser;
pub use push_base::NoMemory;
