//! The objects that an outside in memory will hand out.

ghost use Rattle.std.specs.Prelude.{◌≡◌, []};

use push_base::{MemClock, MemDatagrams, MemDoors, MemLine, MemSink, MemSource, MemStarter};
use std::alloc::Global;

/// The objects that an outside in memory will hand out, of each kind the first one first.
#[derive(Drop)]
pub struct MemObjects {
    /// The sources for `open`.
    pub files: Vec<MemSource>,
    /// The doors for `doors`.
    pub listeners: Vec<MemDoors<MemLine, MemSink>>,
    /// The two ends for `dial`.
    pub connections: Vec<(MemLine, MemSink)>,
    /// The datagrams for `datagrams`.
    pub feeds: Vec<MemDatagrams>,
    /// The clocks for `clock`; behind the last one come clocks without moments.
    pub clocks: Vec<MemClock>,
    /// The starters for `starter`; behind the last one come starters that don't fail.
    pub starters: Vec<MemStarter>,
}

impl MemObjects {
    /// No objects.
    pub fn none(alloc: Global) -> Self
        ensures files { result.files.items ≡ [] }
        ensures listeners { result.listeners.items ≡ [] }
        ensures connections { result.connections.items ≡ [] }
        ensures feeds { result.feeds.items ≡ [] }
        ensures clocks { result.clocks.items ≡ [] }
        ensures starters { result.starters.items ≡ [] }
    {
        MemObjects {
            files: Vec::new(alloc),
            listeners: Vec::new(alloc),
            connections: Vec::new(alloc),
            feeds: Vec::new(alloc),
            clocks: Vec::new(alloc),
            starters: Vec::new(alloc),
        }
    }
}
