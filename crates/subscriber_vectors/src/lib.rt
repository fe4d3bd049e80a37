//! Tests of the command `subscribe` in memory: rows of what a server sends, and what the subscriber prints and sends
//! for it, up to each way to end.
//!
//! Nothing stands on this crate. `runs.rt` has the table; each row is run with the octets cut into pieces of several
//! sizes, and rows have faults of the line and of the output in mid-stream. Words of the text are tested to the letter,
//! since users parse them.
#![tactic(auto)]

#[cfg(test)]
mod runs;
