//! The jobs of the loops.

ghost use Rattle.std.specs.Prelude.{◌≡◌, ◌<◌, ℕ, List, Option, None, IsSomeAnd};
ghost use Rattle.push_base.specs.Causes.{Rose};
ghost use Rattle.push_base.specs.declared.role.Role.TheVariants as roles;
ghost use Rattle.hubloops.specs.declared.loop_end.LoopEnd.TheVariants.{LinkFault};
ghost use Rattle.hubloops.specs.Gates.{IsFor};
ghost use Rattle.hubloops.specs.Jobs.{GivesBack, role_in};
ghost use Rattle.hubloops.specs.LinkReader.{seen};
ghost use Rattle.hubloops.specs.Loops.{observed};
ghost use Rattle.hubloops.specs.Runs.{DoesWork, HearsLink, ReadsSession, WritesSession};
ghost use Rattle.hubloops.specs.Ticker.{TicksUntil};

use crate::runs::{hand_moments, hear_link, read_session, write_session};
use crate::{Ended, Gate};
use push_base::{Clock, Datagrams, Line, Role, Task, Wire};
use std::alloc::Global;

/// What a job answers: how its loop ended, what is left of its gate, and the datagrams of a link's job. After `LinkFault` they
/// are there, with a count of faults above 0.
#[derive(Drop)]
pub struct JobEnd<D: Datagrams + Drop, X: Drop> {
    pub end: Ended,
    pub left: X,
    pub links: Option<D>,
    pub ghost failed: { ∥ (end ≡ LinkFault → IsSomeAnd links (λ d. 0 < D.faults d)) ∥₁ },
}

/// What a job does, with what it does it.
#[derive(Drop)]
pub(crate) enum Work<L: Line + Drop, K: Wire + Drop, D: Datagrams + Drop, T: Clock + Drop> {
    /// Reads the line of a session.
    Read(u64, L),
    /// Writes what a session says to its wire.
    Write(u64, K),
    /// Hears the datagrams of a link.
    Hear(usize, D),
    /// Hands on the moments of a clock.
    Tick(T),
}

/// One loop over a gate, with so many turns.
#[derive(Drop)]
pub struct Job<G: Gate, L: Line + Drop, K: Wire + Drop, D: Datagrams + Drop, T: Clock + Drop> {
    alloc: Global,
    gate: G,
    work: Work<L, K, D, T>,
    turns: u64,
}

impl<G: Gate, L: Line + Drop, K: Wire + Drop, D: Datagrams + Drop, T: Clock + Drop> Job<
    G,
    L,
    K,
    D,
    T,
> {
    /// Reads the line of a session, which is marked as over at the end.
    pub fn reader(alloc: Global, gate: G, session: u64, line: L, turns: u64) -> Self
        requires { IsFor (G.role gate) (roles.Reader session) }
        ensures { (role_in result.work ≡ roles.Reader session) × (result.turns ≡ turns) }
    {
        Job {
            alloc,
            gate,
            work: Work::Read(session, line),
            turns,
        }
    }

    /// Writes what a session says to its wire. At the end the session goes, and is counted as ended, and last the wire is
    /// dropped.
    pub fn writer(alloc: Global, gate: G, session: u64, wire: K, turns: u64) -> Self
        requires { IsFor (G.role gate) (roles.Writer session) }
        ensures { (role_in result.work ≡ roles.Writer session) × (result.turns ≡ turns) }
    {
        Job {
            alloc,
            gate,
            work: Work::Write(session, wire),
            turns,
        }
    }

    /// Hears the datagrams of a link, which are given back.
    pub fn link(alloc: Global, gate: G, link: usize, datagrams: D, turns: u64) -> Self
        requires { IsFor (G.role gate) (roles.Link link) }
        ensures { (role_in result.work ≡ roles.Link link) × (result.turns ≡ turns) }
    {
        Job {
            alloc,
            gate,
            work: Work::Hear(link, datagrams),
            turns,
        }
    }

    /// Hands on the moments of a clock.
    pub fn clock(alloc: Global, gate: G, clock: T, turns: u64) -> Self
        requires { IsFor (G.role gate) roles.Clock }
        ensures { (role_in result.work ≡ roles.Clock) × (result.turns ≡ turns) }
    {
        Job {
            alloc,
            gate,
            work: Work::Tick(clock),
            turns,
        }
    }
}

/// Reads a line.
fn read<G: Gate, L: Line + Drop, D: Datagrams + Drop>(
    alloc: Global,
    mut gate: G,
    session: u64,
    mut line: L,
    turns: u64,
) -> JobEnd<D, G::Left>
    ensures links { result.links ≡ None }
    ensures run { (told : Option (List ℕ)) × (calls : Option ℕ) × (rest : Option (List ℕ)) × ReadsSession session (observed (G.state gate) (L.given line) (L.calls line)) (observed (G.left result.left) told calls) rest turns result.end }
{
    let end = read_session(alloc, &mut gate, session, &mut line, turns);
    let left = gate.leave();
    JobEnd {
        end,
        left,
        links: None,
    }
}

/// Writes to a wire, which is dropped last.
fn write<G: Gate, K: Wire + Drop, D: Datagrams + Drop>(
    alloc: Global,
    mut gate: G,
    session: u64,
    mut wire: K,
    turns: u64,
) -> JobEnd<D, G::Left>
    ensures links { result.links ≡ None }
    ensures run { (told : Option (List ℕ)) × (calls : Option ℕ) × WritesSession session (observed (G.state gate) (K.taken wire) (K.calls wire)) (observed (G.left result.left) told calls) turns result.end }
{
    let end = write_session(alloc, &mut gate, session, &mut wire, turns);
    let left = gate.leave();
    drop(wire);
    JobEnd {
        end,
        left,
        links: None,
    }
}

/// Hears datagrams, which are given back.
fn hear<G: Gate, D: Datagrams + Drop>(
    alloc: Global,
    mut gate: G,
    link: usize,
    mut datagrams: D,
    turns: u64,
) -> JobEnd<D, G::Left>
    ensures run { IsSomeAnd result.links (λ links. HearsLink link (Rose (D.faults datagrams) (D.faults links)) (seen (G.state gate) (D.given datagrams) (D.sent datagrams) (D.calls datagrams)) (seen (G.left result.left) (D.given links) (D.sent links) (D.calls links)) (D.left links) turns result.end) }
{
    let end = hear_link(alloc, &mut gate, link, &mut datagrams, turns);
    let left = gate.leave();
    JobEnd {
        end,
        left,
        links: Some(datagrams),
    }
}

/// Hands on moments.
fn tick<G: Gate, T: Clock + Drop, D: Datagrams + Drop>(
    mut gate: G,
    mut clock: T,
    turns: u64,
) -> JobEnd<D, G::Left>
    ensures links { result.links ≡ None }
    ensures run { (told : Option (List ℕ)) × (calls : Option ℕ) × TicksUntil (observed (G.state gate) (T.moments clock) (T.calls clock)) (observed (G.left result.left) told calls) turns result.end }
{
    let end = hand_moments(&mut gate, &mut clock, turns);
    let left = gate.leave();
    JobEnd {
        end,
        left,
        links: None,
    }
}

impl<
    G: Gate,
    L: Line + Drop,
    K: Wire + Drop,
    D: Datagrams + Drop + Send + 'static,
    T: Clock + Drop,
> Task for Job<G, L, K, D, T>
where
    G::Left: Send + 'static,
{
    type Out = JobEnd<D, G::Left>;

    ghost role_of = { λ j. role_in j.work };

    ghost turns_of = { λ j. j.turns };

    fn role(&self) -> Role {
        match &self.work {
            Work::Read(session, _) => Role::Reader(*session),
            Work::Write(session, _) => Role::Writer(*session),
            Work::Hear(link, _) => Role::Link(*link),
            Work::Tick(_) => Role::Clock,
        }
    }

    fn turns(&self) -> u64 {
        self.turns
    }

    fn run(self) -> JobEnd<D, G::Left>
        ensures links { GivesBack (role_in self.work) result.links }

        // Over any gate that tells: the loop of its work ended so, over its own object, with its turns, and what others are told then.
        ensures run { DoesWork (λ gate line. observed gate (L.given line) (L.calls line)) (λ gate wire. observed gate (K.taken wire) (K.calls wire)) (λ gate links. seen gate (D.given links) (D.sent links) (D.calls links)) D.left D.faults (λ gate clock. observed gate (T.moments clock) (T.calls clock))
            self.work result.links (G.state self.gate) (G.left result.left) self.turns result.end }
    {
        let Job {
            alloc,
            gate,
            work,
            turns,
        } = self;
        match work {
            Work::Read(session, line) => read(alloc, gate, session, line, turns),
            Work::Write(session, wire) => write(alloc, gate, session, wire, turns),
            Work::Hear(link, datagrams) => hear(alloc, gate, link, datagrams, turns),
            Work::Tick(clock) => tick(gate, clock, turns),
        }
    }
}
