//! What the loops ask of a hub.

ghost use Rattle.std.specs.Prelude.{◌≡◌, ◌==◌, ◌≤◌, false, true, Option, length, IfOk, IfSome};
ghost use Rattle.push_base.specs.Limits.{max_datagram, max_moment};
ghost use Rattle.dnswire.specs.Reading.{hearing_of};
ghost use Rattle.pushserver.specs.Counting.{octets_of};
ghost use Rattle.pushserver.specs.Observing.{SaysWhy};
ghost use Rattle.hubloops.specs.Calls.{Asked, Gave, Left, Passed, Received, Took, Went, fault_of};
ghost use Rattle.push_base.specs.declared.role.Role.{Role};
ghost use Rattle.hubloops.specs.Gates.{Answers, DoesApart, DoesTurn, GateState, IsIdle, Tells, Waits, has_nothing, with_line, with_session};

use pushserver::{Given, Heard, HubFault};

/// A hub, alone or behind a lock.
pub trait Gate: Drop {
    /// What is left of it behind its last call.
    type Left: Drop;

    /// What it holds, where it tells that.
    ghost state: { Self → Option GateState };

    /// What it held when it was left, where that is told.
    ghost left: { Self.Left → Option GateState };

    /// The role that it is for, where it is for one.
    ghost role: { Self → Option Role };

    /// Octets that a session's client sent. Gives how many were taken.
    fn take(&mut self, session: u64, piece: &[u8]) -> usize
        ensures call { DoesTurn (Took session piece.now result) (state self.old) (state self.new) }
        ensures idle { IsIdle (result == 0) (state self.new) }
        ensures bound { result ≤ length piece.now };

    /// One piece of work for a session.
    fn give(&mut self, session: u64, buf: &mut [u8]) -> Result<Given, HubFault>
        ensures call { DoesTurn (Gave session buf.old buf.new result) (state self.old) (state self.new) }
        ensures idle { IsIdle (has_nothing result) (state self.new) }
        ensures bound { IfOk result (λ given. octets_of given ≤ length buf.old) };

    /// A datagram of a link.
    fn hear(&mut self, link: usize, datagram: &[u8]) -> Result<Heard, HubFault>
        ensures call { DoesTurn (Received link datagram.now result) (state self.old) (state self.new) }
        ensures idle { IsIdle false (state self.new) }
        ensures unread { IfOk result (λ heard. SaysWhy heard (hearing_of datagram.now)) };

    /// The link is asked what is due first (RFC 6762, 5.2). Gives how many octets its datagram has, which stands at the front of
    /// the buffer, of which the rest stays, or nothing where nothing is due.
    fn ask(&mut self, link: usize, buf: &mut [u8]) -> Result<Option<usize>, HubFault>
        requires { max_datagram ≤ length buf.old }
        ensures call { DoesTurn (Asked link buf.old buf.new result) (state self.old) (state self.new) }
        ensures idle { IsIdle false (state self.new) }
        ensures bound { IfOk result (λ count. IfSome count (λ n. n ≤ length buf.old)) };

    /// A link has gone away, and all its rows with it. Gives whether that was entered.
    fn gone(&mut self, link: usize) -> Result<bool, HubFault>
        ensures call { DoesApart (Went link result) (state self.old) (state self.new) }
        ensures idle { IsIdle false (state self.new) };

    /// It is a moment.
    fn moment(&mut self, at: u64) -> Result<(), HubFault>
        requires { at ≤ max_moment }
        ensures call { DoesTurn (Passed at (fault_of result)) (state self.old) (state self.new) }
        ensures idle { IsIdle false (state self.new) };

    /// A session's connection is gone.
    fn end(&mut self, session: u64)
        ensures call { DoesApart (Left session) (state self.old) (state self.new) };

    /// The loops of others are told that a session's line is over.
    fn line_over(&mut self, session: u64)
        ensures { Tells (with_line session) (state self.old) (state self.new) };

    /// They are told that one session has ended.
    fn session_over(&mut self)
        ensures { Tells with_session (state self.old) (state self.new) };

    /// Waits for a change, where there may be one. Only the call before may have found that there is nothing to take or to
    /// give, and for each that did it is called no more than once.
    fn pause(&mut self)
        requires { IsIdle true (state self.old) }
        ensures { Waits (state self.old) (state self.new) };

    /// Whether nothing is left to do.
    fn done(&mut self) -> bool
        ensures same { state self.new ≡ state self.old }
        ensures answer { Answers (state self.old) result };

    /// What is left of it.
    fn leave(self) -> Self::Left
        ensures { left result ≡ state self };
}
