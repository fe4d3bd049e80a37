//! What a line, or datagrams, in memory are made of.

use crate::Octets;

/// What one call of a line, or of datagrams, in memory is to give.
#[derive(Debug, Drop)]
pub enum MemItem {
    /// These octets; of datagrams, one datagram.
    Bytes(Octets),
    /// None for a while.
    Quiet,
}
