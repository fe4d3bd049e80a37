//! How a loop ends.

/// How a loop ended.
#[derive(Clone, Copy, Debug, PartialEq, Eq)]
pub enum LoopEnd {
    /// The line or the datagrams ended, or the session, or nothing was left to do.
    Finished,
    /// The line failed.
    ReadFault,
    /// The sink failed, or took nothing.
    WriteFault,
    /// The datagrams failed.
    LinkFault,
    /// All turns were used.
    Turns,
    /// Memory ran out.
    NoMemory,
}
