//! Lines: the octets of connections.

ghost use Rattle.std.specs.Prelude.{◌<◌, ℕ, List, Option, length};
ghost use Rattle.push_base.specs.Causes.{HasCause, CountsOne};
ghost use Rattle.push_base.specs.Line.{GivesWithin, LineGives, LineTakes, Read, reads_of};
ghost use Rattle.push_base.specs.Told.{TellsMore};

use crate::{Failed, Got};

/// The octets of a connection, as they come.
pub trait Line {
    /// The octets that it has given, where it tells them.
    ghost given: { Self → Option (List ℕ) };

    /// The octets that it has left, where it tells them.
    ghost left: { Self → Option (List ℕ) };

    /// What its calls that didn't fail gave, one by one, where it tells that.
    ghost reads: { Self → Option (List Read) };

    /// The number of calls, where it tells that.
    ghost calls: { Self → Option ℕ };

    /// How often it has failed.
    ghost faults: { Self → ℕ };

    /// Puts octets at the front of the buffer, at least one where it answers `Bytes`.
    fn recv(&mut self, buf: &mut [u8]) -> Result<Got, Failed>
        requires { 0 < length buf.old }
        ensures bound { GivesWithin result buf.new }
        ensures given { LineGives (given self.old) (given self.new) result buf.new }
        ensures left { LineTakes (left self.old) (left self.new) result buf.new }
        ensures reads { TellsMore (reads self.old) (reads self.new) (reads_of result buf.new) }
        ensures cause { HasCause (faults self.old) (faults self.new) result }
        ensures counted { CountsOne (calls self.old) (calls self.new) };
}
