//! Where what is said to the other end of a connection goes.

ghost use Rattle.std.specs.Prelude.{◌≡◌};

use crate::{MemSink, Sink};

/// A sink at the other end of a connection. What it has taken may wait with what is written next, so that many short
/// messages go together, until it is flushed.
pub trait Wire: Sink {
    /// Nothing that it has taken waits for more any longer. What it tells stays, and so do its faults.
    fn flush(&mut self)
        ensures taken { Self.taken self.new ≡ Self.taken self.old }
        ensures calls { Self.calls self.new ≡ Self.calls self.old }
        ensures faults { Self.faults self.new ≡ Self.faults self.old };
}

/// In memory nothing waits.
impl Wire for MemSink {
    fn flush(&mut self) {}
}
