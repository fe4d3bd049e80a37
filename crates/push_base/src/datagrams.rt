//! The datagrams of a link.

ghost use Rattle.std.specs.Prelude.{◌≡◌, ◌<◌, ℕ, List, Option, length};
ghost use Rattle.push_base.specs.Causes.{HasCause, CountsOne};
ghost use Rattle.push_base.specs.Datagrams.{FitsWithin, DatagramGives, DatagramTakes, DatagramSent};

use crate::{Failed, Got};

/// The datagrams of a link, as they come and as they go.
pub trait Datagrams {
    /// The datagrams that it has given, where it tells them.
    ghost given: { Self → Option (List (List ℕ)) };

    /// The datagrams that it has left, where it tells them.
    ghost left: { Self → Option (List (List ℕ)) };

    /// The datagrams that were sent, where it tells them.
    ghost sent: { Self → Option (List (List ℕ)) };

    /// The number of calls, where it tells that.
    ghost calls: { Self → Option ℕ };

    /// How often it has failed.
    ghost faults: { Self → ℕ };

    /// Puts one datagram at the front of the buffer, as much of it as fits. It may have no octets.
    fn recv(&mut self, buf: &mut [u8]) -> Result<Got, Failed>
        requires { 0 < length buf.old }
        ensures bound { FitsWithin result buf.new }
        ensures given { DatagramGives (given self.old) (given self.new) result buf.new }
        ensures left { DatagramTakes (left self.old) (left self.new) result buf.new }
        ensures sent { sent self.new ≡ sent self.old }
        ensures cause { HasCause (faults self.old) (faults self.new) result }
        ensures counted { CountsOne (calls self.old) (calls self.new) };

    /// Sends one datagram, which may have no octets. After a fault it wasn't sent.
    fn send(&mut self, piece: &[u8]) -> Result<(), Failed>
        ensures sent { DatagramSent (sent self.old) (sent self.new) result piece.now }
        ensures given { given self.new ≡ given self.old }
        ensures left { left self.new ≡ left self.old }
        ensures cause { HasCause (faults self.old) (faults self.new) result }
        ensures counted { CountsOne (calls self.old) (calls self.new) };
}
