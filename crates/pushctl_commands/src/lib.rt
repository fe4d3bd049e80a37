//! What `pushctl` does: it browses over an outside, and writes lines.
//!
//! **Model.** A `Request` says what is browsed for: a server, the services' name, a style, and whether the list is
//! written once. A `Course` (`converse.rt`) is what is kept from one connection to the next: the machine, its times,
//! the last list. An `Ending` is how a connection ended, and a `Status` is how the command ended. `specs/Lateness` says
//! when a list that is written once has no more time.
//!
//! **Flow.** `browse` (`dialling.rt`) dials over an `Outside`, and dials again after a delay that grows. Over each
//! connection `converse` sends what the `Browser` has to say, reads, and hands it the octets. Each change becomes a
//! line (`wording.rt`, `rows.rt`, `writing.rt`), for people, as fields or as JSON. Where it is written once, the list
//! is a table at the end. What is said beside the list is in `notes.rt`. `ending.rt` says how a conversation ends.
//!
//! **Begin** with `request.rt` and `status.rt`, then `dialling.rt`, then `converse.rt`.
//!
//! **Change.** Little is proved here of lines, so tests have to show that they are right (`pushctl_vectors`).
//! `specs/Statuses` says which status follows which ending, and after which delay the server is dialled again.
//! `specs/Lateness` says that no late dial is made. Both stay. The fields, the members of JSON and the statuses are what
//! scripts of users read. A server that broke a rule isn't dialled again (RFC 8490, 6.6.3). Notes for people may be
//! worded anew.
//!
//! **Stand on it**: `pushctl`, which makes a `Request` of its words and calls `browse`.
#![tactic(auto)]

mod converse;
mod dialling;
mod ending;
mod notes;
mod request;
mod rows;
mod status;
mod wording;
mod writing;

pub use dialling::browse;
pub use request::{Request, Style};
pub use status::Status;
