//! The command `dnspush subscribe` over any connection: a DNS Push client that asks the questions of its configuration,
//! and prints each thing that the server says.
//!
//! **Model.** What it prints is a function of its configuration, of the octets that it reads and of the moments at
//! which it reads them (`said` in `specs/Said`). What it sends is defined beside that. `specs/EveryCut` promises that
//! the text depends on the octets alone, however TCP cut them. `specs/Subscribed` says how often it reads and asks the
//! clock, and how it ends at a fault.
//!
//! **Flow.** `subscribe` (`subscribing.rt`) connects a `Client` of `pushclient` and asks (`passing.rt`). Then it turns
//! (`following.rt`): read the line, let the client react to each whole message (`reacting.rt`), ask the clock, do what
//! is due (`passing.rt`), write what was said (`said.rt`, `wording.rt`), send what is to be sent. It ends when the
//! client closes, the line ends, so many messages came, or so many reads were made.
//!
//! **Begin** with `specs/Said`, then `following.rt`.
//!
//! **Change.** The words of a line stand in `wording.rt` and, as a definition, in `specs/Said`; users parse them. How
//! what was said is kept is private (`specs/Standing`, `specs/Turning`). What a client does with a message belongs in
//! `pushclient`.
//!
//! **Stand on it**: `commands` (dials the server and hands it the connection), `subscriber_vectors` (tests).
#![tactic(auto)]

mod fault;
mod following;
mod laws;
mod passing;
mod reacting;
mod said;
mod subscribing;
mod wording;

pub use laws::{text_depends_on_the_octets, worked_texts};
pub use subscribing::subscribe;
