//! The loops of jobs, with what others are told when they are over.

ghost use Rattle.std.specs.Prelude.{◌≡◌, ◌≤◌};
ghost use Rattle.push_base.specs.Causes.{Rose};
ghost use Rattle.hubloops.specs.LinkReader.{seen};
ghost use Rattle.hubloops.specs.Loops.{observed};
ghost use Rattle.hubloops.specs.Runs.{HearsLink, ReadsSession, WritesSession};
ghost use Rattle.hubloops.specs.Ticker.{TicksUntil};

use crate::{Gate, LoopEnd, clock_loop, link_loop, read_loop, write_loop};
use push_base::{Clock, Datagrams, Line, Wire};
use std::alloc::Global;
use std::marker::Model;

/// How the loop of a job ended. Nothing but the four functions of this module makes one, and it isn't copied, so each is of a
/// loop of its own.
#[derive(Debug, Drop)]
pub struct Ended {
    end: LoopEnd,
}

impl Model for Ended {
    ghost use Rattle.hubloops.specs.declared.loop_end.LoopEnd.{LoopEnd};

    ghost Value = { LoopEnd };

    ghost view = { λ e. e.end };
}

impl Ended {
    /// How it ended.
    pub fn end(&self) -> LoopEnd
        ensures { result ≡ self.now }
    {
        self.end
    }
}

/// Reads a session's line to the end of its loop, and tells others that the line is over.
pub(crate) fn read_session<G: Gate, L: Line>(
    alloc: Global,
    gate: &mut G,
    session: u64,
    line: &mut L,
    turns: u64,
) -> Ended
    ensures run { ReadsSession session (observed (G.state gate.old) (L.given line.old) (L.calls line.old)) (observed (G.state gate.new) (L.given line.new) (L.calls line.new)) (L.left line.new) turns result }
    ensures linkless { result ≡ LoopEnd.LinkFault → ⊥ }
{
    let end = read_loop(alloc, gate, session, line, turns);
    gate.line_over(session);
    Ended { end }
}

/// Writes to a session's wire to the end of its loop, and lets go out what it has taken. Then the session's connection is gone,
/// and others are told that it has ended.
pub(crate) fn write_session<G: Gate, K: Wire>(
    alloc: Global,
    gate: &mut G,
    session: u64,
    wire: &mut K,
    turns: u64,
) -> Ended
    ensures run { WritesSession session (observed (G.state gate.old) (K.taken wire.old) (K.calls wire.old)) (observed (G.state gate.new) (K.taken wire.new) (K.calls wire.new)) turns result }
    ensures linkless { result ≡ LoopEnd.LinkFault → ⊥ }
{
    let end = write_loop(alloc, gate, session, wire, turns);
    wire.flush();
    gate.end(session);
    gate.session_over();
    Ended { end }
}

/// Hears the datagrams of a link to the end of their loop.
pub(crate) fn hear_link<G: Gate, D: Datagrams>(
    alloc: Global,
    gate: &mut G,
    link: usize,
    datagrams: &mut D,
    turns: u64,
) -> Ended
    ensures run { HearsLink link (Rose (D.faults datagrams.old) (D.faults datagrams.new)) (seen (G.state gate.old) (D.given datagrams.old) (D.sent datagrams.old) (D.calls datagrams.old)) (seen (G.state gate.new) (D.given datagrams.new) (D.sent datagrams.new) (D.calls datagrams.new)) (D.left datagrams.new) turns result }
    ensures later { D.faults datagrams.old ≤ D.faults datagrams.new }
    ensures cause { result ≡ LoopEnd.LinkFault → Rose (D.faults datagrams.old) (D.faults datagrams.new) }
{
    let end = link_loop(alloc, gate, link, datagrams, turns);
    Ended { end }
}

/// Hands on the moments of a clock to the end of its loop.
pub(crate) fn hand_moments<G: Gate, T: Clock>(gate: &mut G, clock: &mut T, turns: u64) -> Ended
    ensures run { TicksUntil (observed (G.state gate.old) (T.moments clock.old) (T.calls clock.old)) (observed (G.state gate.new) (T.moments clock.new) (T.calls clock.new)) turns result }
    ensures linkless { result ≡ LoopEnd.LinkFault → ⊥ }
{
    let end = clock_loop(gate, clock, turns);
    Ended { end }
}
