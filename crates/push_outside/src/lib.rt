//! All that a run reaches: what it is, its version in memory, and the adapters of the real one.
//!
//! **Model.** An `Outside` makes objects, most of them from words, and takes them back: sources, doors, connections,
//! datagrams, clocks and starters. An object that was just made has no faults and has told nothing. Three counts of
//! faults never fall, and rise where words name nothing that can be reached, or where an object with faults comes back.
//! What an outside tells is one record, `Telling` (`specs/Outside`): the words handed to it, and what became of its
//! objects.
//!
//! **Flow.** `MemOutside` hands out the objects of a `MemObjects` in order, whatever the words (`stock.rt`). It keeps
//! each one that comes back, in room that was made when it went out (`shelf.rt`). `System` hands out adapters over the
//! files, the network, the clock and the threads of a machine. These are `reading.rt`, `writing.rt`, the files
//! `tcp*.rt`, `udp_links.rt`, `machine_clock.rt` and `thread_starter.rt`. It counts faults and tells nothing
//! (`specs/System`), and why a call failed is logged (`log_lines.rt`).
//!
//! **Begin** with `specs/Outside` and `specs/Opening`, then `outside.rt`, then `system.rt`. `specs/MemOutside` says
//! what the outside in memory does at each call.
//!
//! **Change.** The adapters are where proof ends: which file or address is reached, no clause says. So a change of one
//! needs a test; its timeouts and what it logs are free. The clauses of `Outside` are what the contracts of whole
//! programs speak of, so they stay. Whoever adds a kind of object adds it to `Telling` and to both outsides.
//!
//! **Stand on it**: `commands` and `pushctl_commands` (run over any outside), `dnspush` and `pushctl` (make the real
//! one), `outside_vectors` (tests the adapters), `commands_vectors` (runs commands in memory).
#![tactic(auto)]

mod counts;
mod log_lines;
mod machine_clock;
mod mem_objects;
mod mem_outside;
mod origin;
mod outside;
mod reading;
mod shelf;
mod stock;
mod system;
mod tcp;
mod tcp_line;
mod tcp_wire;
mod thread_starter;
mod udp_links;
mod writing;

pub use machine_clock::MachineClock;
pub use mem_objects::MemObjects;
pub use mem_outside::MemOutside;
pub use origin::Origin;
pub use outside::{OpenFault, Outside};
pub use reading::Reading;
pub use system::System;
pub use tcp::{TcpDoors, TcpEnds};
pub use tcp_line::TcpLine;
pub use tcp_wire::TcpWire;
pub use thread_starter::ThreadStarter;
pub use udp_links::UdpLinks;
pub use writing::Writing;
