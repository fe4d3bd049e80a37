//! Tests of the adapters to the operating system: files, TCP lines, datagram sockets and clocks of `push_outside`, in
//! memory and over the loopback.
//!
//! Nothing stands on this crate. An adapter's contract tells only what the outside is taken to tell, so what a socket
//! really does can only be tested. The tests, all in `adapters.rt`, open wrong addresses, read and write in small
//! pieces, let a link be quiet, and send to addresses where nobody listens.
#![tactic(auto)]

#[cfg(test)]
mod adapters;
