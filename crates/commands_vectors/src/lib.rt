//! Tests of the whole program in memory: `run` with a command line, over files, sockets, clocks and threads that are
//! lists, and with each call of them failing once.
//!
//! Nothing stands on this crate. `runs.rt` has the rows of commands with their texts and statuses. `faults.rt` lets
//! each kind of call fail at its first time, then at its second, and so on until a run makes no more of them: a run
//! must then end with the right status and text. `objects.rt` makes the objects.
#![tactic(auto)]

#[cfg(test)]
mod faults;
#[cfg(test)]
mod objects;
#[cfg(test)]
mod runs;
