//! What a key showed.

use rrset::{Key, Shown};

/// A key, and what it showed before it changed.
#[derive(Debug, Drop)]
pub(crate) enum Before {
    /// It showed nothing.
    Nothing(Key),
    /// It showed this.
    Row((Key, Shown)),
}

/// What a key showed before it changed at a point.
#[derive(Debug, Drop)]
pub(crate) struct Old {
    /// The key, with what it showed.
    pub before: Before,
    /// The point before the change.
    pub point: u64,
}
