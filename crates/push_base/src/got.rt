//! What a call of a line, or of datagrams, gave.

/// What a call of a line, or of datagrams, gave.
#[derive(Clone, Copy, Debug, PartialEq, Eq)]
pub enum Got {
    /// So many octets at the front of the buffer.
    Bytes(usize),
    /// None came for a while.
    Quiet,
    /// There are no more.
    End,
}
