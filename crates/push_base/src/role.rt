//! What the jobs of a server do.

/// What a job does.
#[derive(Clone, Copy, Debug, PartialEq, Eq)]
pub enum Role {
    /// It reads the line of the session of this number.
    Reader(u64),
    /// It writes what the session of this number says.
    Writer(u64),
    /// It hears the datagrams of the link at this place.
    Link(usize),
    /// It hands on the moments of a clock.
    Clock,
}
