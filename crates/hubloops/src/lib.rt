//! The loops of the server's threads: one reads a connection, one writes to it, one serves the mDNS socket of a link,
//! one hands on the clock's time. Each is a loop of plain calls, over any hub and any socket.
//!
//! **Model.** A `Gate` is the hub as a loop sees it; it tells its state, or nothing. `Alone` is the gate of one thread,
//! and tells all (`GateState`). A loop's contract tells what it did as a list of calls with their answers (`HubCall`),
//! and how it ended (`LoopEnd`). `specs/Reader`, `specs/Writer`, `specs/LinkReader` and `specs/Ticker` have one
//! definition for each loop; `specs/Rounds` says in what order a link is heard and asked.
//!
//! **Flow.** `read_loop` (`reader.rt`) reads up to `MAX_READ` octets and offers them by `take` until the hub took all.
//! `write_loop` (`writer.rt`) calls `give`, and writes what came; where nothing is to be said it flushes, then waits by
//! `pause`. `link_loop` (`link_reader.rt`) receives, calls `hear`, then calls `ask` until nothing is due and sends each
//! datagram. `clock_loop` (`ticker.rt`) calls `moment`. A `Job` (`jobs.rt`) is one loop with all that it needs, and
//! `runs.rt` runs it and says that it is over.
//!
//! **Begin** with `gate.rt`, then `writer.rt` beside `specs/Writer`.
//!
//! **Change.** Each loop is proved for every gate, so a lock, a queue or a test may stand behind `Gate` without a
//! change here. A further call of `Gate` is one for `Alone`, for `Shared` of `hublock`, and for the gate of
//! `lock_vectors`. What a loop tells about its run is cited by `serving` only as ends (`specs/Jobs`).
//!
//! **Stand on it**: `hublock` (a gate over a lock), `serving` (starts the jobs).
#![tactic(auto)]

mod alone;
mod gate;
mod jobs;
mod link_reader;
mod loop_end;
mod overs;
mod reader;
mod runs;
mod ticker;
mod worked;
mod writer;

pub use alone::Alone;
pub use gate::Gate;
pub use jobs::{Job, JobEnd};
pub use link_reader::link_loop;
pub use loop_end::LoopEnd;
pub use overs::Overs;
pub use reader::{MAX_READ, read_loop};
pub use runs::Ended;
pub use ticker::clock_loop;
pub use worked::worked_rounds;
pub use writer::write_loop;
