//! Where sessions come from.

ghost use Rattle.std.specs.Prelude.{◌≡◌, ℕ, Option};
ghost use Rattle.push_base.specs.Causes.{HasCause, CountsOne};
ghost use Rattle.push_base.specs.Doors.{CountsSession};

use crate::{Failed, Line, Sink};

/// Where sessions come from.
pub trait Doors {
    /// What a session says.
    type Line: Line;

    /// Where what is said to a session goes.
    type Out: Sink;

    /// How many sessions were accepted, where it tells that.
    ghost accepted: { Self → Option ℕ };

    /// The number of calls, where it tells that.
    ghost calls: { Self → Option ℕ };

    /// How often it has failed.
    ghost faults: { Self → ℕ };

    /// The next session. It may wait for one.
    fn accept(&mut self) -> Result<(Self::Line, Self::Out), Failed>
        ensures accepted { CountsSession (accepted self.old) (accepted self.new) result }
        ensures cause { HasCause (faults self.old) (faults self.new) result }
        ensures counted { CountsOne (calls self.old) (calls self.new) };

    /// No further session is wanted: whoever comes from now on is turned away.
    fn close(&mut self)
        ensures accepted { accepted self.new ≡ accepted self.old }
        ensures calls { calls self.new ≡ calls self.old }
        ensures faults { faults self.new ≡ faults self.old };
}
