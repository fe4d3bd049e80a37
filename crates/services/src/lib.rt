//! The services of a domain, as a list made of the records that a client holds (RFC 6763; RFC 2782).
//!
//! **Model.** What is known is a function from each question to what a client holds of it (`Known`). The PTR records of
//! one question, the root, name the instances, and each instance makes one service. A service has a server, the
//! addresses of its host, and its texts, as far as these are known. Of several SRV records the server is that of least
//! priority, then of greatest weight, then the first (RFC 2782).
//!
//! **Flow.** `services` (`listing.rt`) reads the records that a `Client` holds, with `reading.rt` for single ones.
//! `needs` (`needing.rt`) says which questions such a list asks for: the root, each instance and each host. `changes`
//! (`changing.rt`) says who went, came or differs between two lists. `lists.rt` has the lists themselves, and
//! `service.rt` what a service and a change are.
//!
//! **Begin** with `specs/Services`, then `service.rt` and `listing.rt`. `worked_rows` in `laws.rt` has examples.
//!
//! **Change.** The loops in these files are private, and may change below their clauses. All records of a name are one
//! question, so that a host's addresses come whole: that must stay. `specs/Laws` must keep holding: what a list asks
//! for determines the list. It is why other questions can be dropped without a change of the list.
//!
//! **Stand on it**: `browsing` (makes the list, asks for its needs and tells changes), `pushctl_commands` (writes
//! services and changes as lines).
#![tactic(auto)]

mod changing;
mod laws;
mod listing;
mod lists;
mod needing;
mod reading;
mod service;

pub use changing::changes;
pub use laws::{needs_stand, worked_rows};
pub use listing::services;
pub use lists::{Changes, Rdatas, Services};
pub use needing::needs;
pub use push_base::NoMemory;
pub use service::{Change, Server, Service};
