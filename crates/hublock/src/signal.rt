//! What the loops of others are told.

/// What a server or a job tells the loops of all.
#[derive(Clone, Copy)]
pub enum Signal {
    /// So many sessions are still to end.
    Begun(u64),
    /// The line of a session is over. Nothing happens where it doesn't live.
    LineOver(u64),
    /// One session has ended.
    SessionOver,
    /// All is to stop.
    Quit,
}
