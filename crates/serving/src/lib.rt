//! The server process without its sockets: it accepts connections, starts two jobs for each and one for each link and
//! the clock, and joins them all when nothing is left to do.
//!
//! **Model.** `serve` gets a `Setup` (the hub, the links' sockets, a clock, how many sessions, how many turns) and
//! gives back `Served`: how it ended, the links' sockets, and how each loop ended. Sockets, threads and clocks are
//! types of an outside (`Surroundings` of `push_base`), each of which tells what was done with it. `specs/Serving` says
//! what a server did, `specs/Jobs` which jobs it started, `specs/Ends` how it ends by how its loops did.
//!
//! **Flow.** `sessions.rt` has `serve`: the hub goes behind its lock, and `Server::open` (`server.rt`) starts the jobs
//! of links and clock, then seats each session that the doors let in. `link_job.rt` and `other_job.rt` are the jobs as
//! a starter takes them. `running_jobs.rt` finishes those that are over while others run. `closing.rt` finishes all,
//! joins their feeds and gives the sockets back, and `serve_end.rt` says what the end is.
//!
//! **Begin** with `setup.rt` and `sessions.rt`, then `server.rt`, then `specs/Ends`.
//!
//! **Change.** In which order jobs are finished is private. Which jobs are started, how many sessions are accepted, and
//! the causes of an end are clauses that `commands` hands on to `run`. Each job must give back its feed, or the counts
//! that a server tells can't be proved.
//!
//! **Stand on it**: `commands` (the command `serve`), `lock_vectors` (whole servers in tests).
#![tactic(auto)]

mod closing;
mod link_job;
mod log_lines;
mod other_job;
mod running_jobs;
mod serve_end;
mod server;
mod sessions;
mod setup;

pub use serve_end::ServeEnd;
pub use sessions::serve;
pub use setup::{Fed, Served, Setup};
