//! Tests of threads: whole servers over a hub behind its lock, with lists in place of sockets, and single loops whose
//! calls are logged.
//!
//! Nothing stands on this crate. It tests what no contract can say of threads: that sessions are served while others
//! wait, that links are heard and asked meanwhile, and in which order a loop makes its calls. `serves.rt` has the rows
//! of whole servers, `threads.rt` starts a thread for each job, `watched.rt` is an outside that waits until something
//! was done elsewhere. `order.rt` is a `Gate` that writes a log; `hubs.rt` makes the hub. A new call of `Gate` needs a
//! method there.
#![tactic(auto)]

#[cfg(test)]
mod hubs;
#[cfg(test)]
mod order;
#[cfg(test)]
mod rows;
#[cfg(test)]
mod serves;
#[cfg(test)]
mod threads;
#[cfg(test)]
mod watched;
