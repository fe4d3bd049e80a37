//! Tests of the DSO state machines: rows of message heads with the reaction of either end, and rows of timers with what
//! is due at a moment (RFC 8490, 5 to 7; RFC 8765, 6).
//!
//! Nothing stands on this crate. `sessions.rt` is the server's table, `client_sessions.rt` the client's, and `rows.rt`
//! says which row failed. A row is the head of a message, whether the session is established, and the reaction; or two
//! timers, two moments, and what is due. Change one only beside its section of the standard.
#![tactic(auto)]

#[cfg(test)]
mod client_sessions;
#[cfg(test)]
mod rows;
#[cfg(test)]
mod sessions;
