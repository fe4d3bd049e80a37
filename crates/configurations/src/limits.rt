//! Limits of configurations.

/// The most sessions that a server is told to accept.
pub const MAX_ACCEPTED: u64 = 1_000_000;

/// The most turns of a loop; so many are made where no line says otherwise.
pub const MAX_TURNS: u64 = 1_099_511_627_776;
