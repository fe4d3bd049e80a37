//! The jobs of a server, as they are started.

ghost use Rattle.std.specs.Prelude.{◌≡◌, ◌⊎◌, ◌<◌, ◌≤◌, ◌+◌, ◌*◌, ◌∷◌, ◌++◌, [], drop, length, vec_len, vec_capacity, IfOk, OnOk, OnErr, IsErrOf, is_ok, false};
ghost use Rattle.push_base.specs.Causes.{Rose};
ghost use Rattle.push_base.specs.declared.role.Role.TheVariants as roles;
ghost use Rattle.hublock.specs.Feeds.{all_parts, each, parts_each, whole_seats};
ghost use Rattle.hubloops.specs.Jobs.{role_in};
ghost use Rattle.serving.specs.Jobs.{HandsOver, is_link, link_jobs, pair_of};
ghost use Rattle.serving.specs.Servers.{IsWhole, SeatsAll, SeatsOne, StartsFirst, new_server, with_job, with_jobs, with_part_less};
ghost use Rattle.serving.specs.Serving.{Accepts, Returns, Starts, StartsAll, numbers_of};

use crate::Fed;
use crate::link_job::LinkJob;
use crate::log_lines::{tell_no_seat, tell_session};
use crate::other_job::OtherJob;
use crate::running_jobs::{Running, finish_over, flags};
use crate::serve_end::Fault;
use hublock::{Books, Ended, Feed, HubLock, Job, PARTS, Seats, Shared, Signal};
use log::Log;
use push_base::{Doors, NoMemory, Pending, Role, StartFault, Starter, Surroundings, Task, start};
use pushserver::ConnectFault;
use std::alloc::Global;
use std::marker::Model;
use std::sync::Wait;
use std::thread::Threads;

/// The job of a link that was started.
#[derive(Drop)]
pub(crate) struct RunningLink<R: Log + Wait + Copy + 'static, O: Surroundings, B: Books + 'static> {
    pub(crate) link: usize,
    pub(crate) job: Pending<LinkJob<R, O::Line, O::Wire, O::Links, O::Clock, B>>,
}

/// The jobs that were started, and what is left for those that are still to be: a feed, the seats, the lock and the turns.
#[derive(Drop)]
pub(crate) struct Server<R: Log + Wait + Copy + 'static, O: Surroundings, B: Books + 'static> {
    pub(crate) rt: R,
    pub(crate) alloc: Global,
    pub(crate) lock: HubLock<B>,
    pub(crate) feed: Feed<B>,
    seats: Seats<B>,
    pub(crate) hearings: Vec<RunningLink<R, O, B>>,
    pub(crate) jobs: Vec<Running<R, O, B>>,
    // How the loops ended of those jobs that are over already.
    pub(crate) ends: Vec<Ended>,
    turns: u64,
    left: u64,
}

impl<R: Log + Wait + Copy + 'static, O: Surroundings, B: Books + 'static> Model
    for Server<R, O, B> {
    ghost use Rattle.std.specs.Prelude.{◌≡◌, ◌≤◌, ◌+◌, ◌-◌, map, vec_len, false};
    ghost use Rattle.std.specs.List.{list_any};
    ghost use Rattle.serving.specs.Ends.{is_link_fault};
    ghost use Rattle.hublock.specs.Feeds.{each, parts_each};
    ghost use Rattle.serving.specs.Servers.{ServerState};

    ghost Value = { ServerState };

    ghost view = { λ s. record { parts = s.feed.parts.changes - vec_len s.ends; made = s.seats.made; links = map (λ h. h.link) s.hearings.items; jobs = vec_len s.jobs + vec_len s.ends; turns = s.turns } };

    ghost invariant = { λ s. (s.feed.parts ≡ each s.feed.parts.changes) × (s.seats.parts ≡ parts_each) × (s.left + vec_len s.ends ≤ s.feed.parts.changes) × (list_any is_link_fault s.ends.items ≡ false) };
}

/// Hands a job to the starter. One that couldn't be started is dropped.
fn hand<R: Log + Threads + Wait + Copy + Send + 'static, A: Starter, J: Task + Send + 'static>(
    rt: R,
    alloc: Global,
    starter: &mut A,
    job: J,
) -> Result<Pending<J>, Fault>
    ensures started { HandsOver ((J.role_of job, J.turns_of job) ∷ []) (A.started starter.old) (A.started starter.new) result }
    ensures later { A.faults starter.old ≤ A.faults starter.new }
    ensures cause { IsErrOf result Fault.Outside → Rose (A.faults starter.old) (A.faults starter.new) }
{
    match start(rt, alloc, starter, job) {
        Ok(pending) => Ok(pending),
        Err(StartFault::Failed(_)) => Err(Fault::Outside),
        Err(StartFault::NoMemory(_)) => Err(Fault::NoMemory),
    }
}

/// The number of the first of these links.
fn first_link<G>(links: &[Fed<G>]) -> usize
    requires { 0 < length links.now }
    ensures { numbers_of links.now ≡ result ∷ numbers_of (drop 1 links.now) }
{
    match links.split_first() {
        Some((first, _)) => first.link,
        None => unreachable!(),
    }
}

impl<
    R: Log + Threads + Wait + Copy + Send + 'static,
    O: Surroundings,
    B: Books + Send + Sync + 'static,
> Server<R, O, B> {
    /// A server that has started no job.
    pub(crate) fn new(
        rt: R,
        alloc: Global,
        lock: HubLock<B>,
        feed: Feed<B>,
        seats: Seats<B>,
        turns: u64,
    ) -> Self
        requires feed { feed ≡ all_parts }
        requires seats { seats ≡ whole_seats }
        ensures { result ≡ new_server turns }
    {
        Server {
            rt,
            alloc,
            lock,
            feed,
            seats,
            hearings: Vec::new(alloc),
            jobs: Vec::new(alloc),
            ends: Vec::new(alloc),
            turns,
            left: PARTS,
        }
    }

    /// A hold of the hub for one job, while the feed has a part for it. Where it has none left, there is no room for the job.
    fn hold(&mut self, role: Role) -> Result<Shared<R, B>, NoMemory>
        ensures role { IfOk result (λ shared. shared.role ≡ role) }
        ensures state { OnOk result (self.new ≡ with_part_less self.old) }
        ensures enough { OnOk result (2 ≤ self.old.parts) }
        ensures links { self.new.links ≡ self.old.links }
    {
        if self.left < 2 {
            return Err(NoMemory);
        }
        self.left -= 1;
        let shared = Shared::new(self.rt, &self.lock, self.feed.split(), role)?;
        Ok(shared)
    }

    /// Starts a job of a session, or the clock's.
    fn start(
        &mut self,
        starter: &mut O::Starter,
        job: Job<Shared<R, B>, O::Line, O::Wire, O::Links, O::Clock>,
    ) -> Result<(), Fault>
        requires { is_link (role_in job.work) ≡ false }
        ensures started { HandsOver ((role_in job.work, job.turns) ∷ []) (O.Starter.started starter.old) (O.Starter.started starter.new) result }
        ensures ok { OnOk result (self.new ≡ with_job self.old) }
        ensures err { OnErr result (self.new ≡ self.old) }
        ensures links { self.new.links ≡ self.old.links }
        ensures later { O.Starter.faults starter.old ≤ O.Starter.faults starter.new }
        ensures cause { IsErrOf result Fault.Outside → Rose (O.Starter.faults starter.old) (O.Starter.faults starter.new) }
    {
        let (over, tells) = flags(self.alloc, &mut self.jobs)?;
        let job = hand(
            self.rt,
            self.alloc,
            starter,
            OtherJob::new(self.rt, job, tells),
        )?;
        self.jobs.push_reserved(Running { job, over });
        Ok(())
    }

    /// Starts the job of the first of these links.
    fn start_link(
        &mut self,
        starter: &mut O::Starter,
        links: &mut Vec<Fed<O::Links>>,
    ) -> Result<(), Fault>
        requires some { 0 < vec_len links.old }
        ensures started { StartsFirst (numbers_of links.old.items) (numbers_of links.new.items) (O.Starter.started starter.old) (O.Starter.started starter.new) self.old self.new result }
        ensures len { OnOk result (vec_len links.new + 1 ≡ vec_len links.old) }
        ensures fewer { vec_len links.new ≤ vec_len links.old }
        ensures room { vec_capacity links.new ≡ vec_capacity links.old }
        ensures later { O.Starter.faults starter.old ≤ O.Starter.faults starter.new }
        ensures cause { IsErrOf result Fault.Outside → Rose (O.Starter.faults starter.old) (O.Starter.faults starter.new) }
    {
        let link = first_link(links.as_slice());
        let shared = self.hold(Role::Link(link))?;
        self.hearings.reserve(1)?;
        let Fed { link: _, datagrams } = links.remove(0);
        let job = LinkJob::new(self.rt, self.alloc, shared, link, datagrams, self.turns);
        let job = hand(self.rt, self.alloc, starter, job)?;
        self.hearings.push_reserved(RunningLink { link, job });
        Ok(())
    }

    /// Starts the jobs of all links, in order.
    fn start_links(
        &mut self,
        starter: &mut O::Starter,
        links: &mut Vec<Fed<O::Links>>,
    ) -> Result<(), Fault>
        requires new { self.old ≡ new_server self.old.turns }
        ensures started { HandsOver (link_jobs self.old.turns (numbers_of links.old.items)) (O.Starter.started starter.old) (O.Starter.started starter.new) result }
        ensures ok { OnOk result ((IsWhole self.new) × (self.new.made ≡ 0) × (self.new.jobs ≡ 0) × (self.new.turns ≡ self.old.turns)) }
        ensures all { OnOk result (self.new.links ≡ numbers_of links.old.items) }
        ensures links { Returns (is_ok result) (numbers_of links.old.items) (self.new.links ++ numbers_of links.new.items) }
        ensures room { vec_len links.new + length self.new.links ≤ vec_capacity links.new }
        ensures later { O.Starter.faults starter.old ≤ O.Starter.faults starter.new }
        ensures cause { IsErrOf result Fault.Outside → Rose (O.Starter.faults starter.old) (O.Starter.faults starter.new) }
    {
        'links: while !links.is_empty() {
            self.start_link(starter, links)?;
        }
        Ok(())
    }

    /// Starts the clock's job.
    fn start_clock(&mut self, starter: &mut O::Starter, clock: O::Clock) -> Result<(), Fault>
        ensures started { HandsOver ((roles.Clock, self.old.turns) ∷ []) (O.Starter.started starter.old) (O.Starter.started starter.new) result }
        ensures ok { OnOk result (self.new ≡ with_jobs 1 self.old) }
        ensures enough { OnOk result (2 ≤ self.old.parts) }
        ensures links { self.new.links ≡ self.old.links }
        ensures later { O.Starter.faults starter.old ≤ O.Starter.faults starter.new }
        ensures cause { IsErrOf result Fault.Outside → Rose (O.Starter.faults starter.old) (O.Starter.faults starter.new) }
    {
        let shared = self.hold(Role::Clock)?;
        let job = Job::clock(self.alloc, shared, clock, self.turns);
        self.start(starter, job)
    }

    /// Starts the job that reads a session's line.
    fn start_reader(
        &mut self,
        starter: &mut O::Starter,
        session: u64,
        line: O::Line,
    ) -> Result<(), Fault>
        ensures started { HandsOver ((roles.Reader session, self.old.turns) ∷ []) (O.Starter.started starter.old) (O.Starter.started starter.new) result }
        ensures ok { OnOk result (self.new ≡ with_jobs 1 self.old) }
        ensures enough { OnOk result (2 ≤ self.old.parts) }
        ensures links { self.new.links ≡ self.old.links }
        ensures later { O.Starter.faults starter.old ≤ O.Starter.faults starter.new }
        ensures cause { IsErrOf result Fault.Outside → Rose (O.Starter.faults starter.old) (O.Starter.faults starter.new) }
    {
        let shared = self.hold(Role::Reader(session))?;
        let job = Job::reader(self.alloc, shared, session, line, self.turns);
        self.start(starter, job)
    }

    /// Starts the job that writes to a session's wire.
    fn start_writer(
        &mut self,
        starter: &mut O::Starter,
        session: u64,
        wire: O::Wire,
    ) -> Result<(), Fault>
        ensures started { HandsOver ((roles.Writer session, self.old.turns) ∷ []) (O.Starter.started starter.old) (O.Starter.started starter.new) result }
        ensures ok { OnOk result (self.new ≡ with_jobs 1 self.old) }
        ensures enough { OnOk result (2 ≤ self.old.parts) }
        ensures links { self.new.links ≡ self.old.links }
        ensures later { O.Starter.faults starter.old ≤ O.Starter.faults starter.new }
        ensures cause { IsErrOf result Fault.Outside → Rose (O.Starter.faults starter.old) (O.Starter.faults starter.new) }
    {
        let shared = self.hold(Role::Writer(session))?;
        let job = Job::writer(self.alloc, shared, session, wire, self.turns);
        self.start(starter, job)
    }

    /// Starts the jobs of a session.
    fn start_session(
        &mut self,
        starter: &mut O::Starter,
        session: u64,
        line: O::Line,
        wire: O::Wire,
    ) -> Result<(), Fault>
        ensures started { HandsOver (pair_of self.old.turns session) (O.Starter.started starter.old) (O.Starter.started starter.new) result }
        ensures ok { OnOk result (self.new ≡ with_jobs 2 self.old) }
        ensures enough { OnOk result (3 ≤ self.old.parts) }
        ensures links { self.new.links ≡ self.old.links }
        ensures later { O.Starter.faults starter.old ≤ O.Starter.faults starter.new }
        ensures cause { IsErrOf result Fault.Outside → Rose (O.Starter.faults starter.old) (O.Starter.faults starter.new) }
    {
        self.start_reader(starter, session, line)?;
        self.start_writer(starter, session, wire)
    }

    /// A session takes a seat, and its jobs are started. One that gets none counts as ended at once.
    fn seat(&mut self, starter: &mut O::Starter, line: O::Line, wire: O::Wire) -> Result<(), Fault>
        ensures started { SeatsOne (O.Starter.started starter.old) (O.Starter.started starter.new) self.old self.new result }
        ensures links { self.new.links ≡ self.old.links }
        ensures later { O.Starter.faults starter.old ≤ O.Starter.faults starter.new }
        ensures cause { IsErrOf result Fault.Outside → Rose (O.Starter.faults starter.old) (O.Starter.faults starter.new) }
    {
        match self.lock.connect(&self.rt, &mut self.seats) {
            Ok(session) => {
                tell_session(&self.rt, session);
                self.start_session(starter, session, line, wire)
            }
            Err(ConnectFault::NoSeat) => {
                tell_no_seat(&self.rt);
                drop(line);
                drop(wire);
                self.lock.signal(&self.rt, Signal::SessionOver);
                Ok(())
            }
            Err(ConnectFault::NoMemory) => Err(Fault::NoMemory),
        }
    }

    /// Finishes the jobs that are over, where there is memory for how their loops ended, of which alone more is kept.
    fn finish_over(&mut self)
        ensures { self.new ≡ self.old }
    {
        finish_over::<R, O, B>(self.rt, &mut self.jobs, &mut self.feed, &mut self.ends);
    }

    /// Accepts one session. The jobs that are over then are finished.
    fn open_session(&mut self, starter: &mut O::Starter, doors: &mut O::Doors) -> Result<(), Fault>
        ensures started { SeatsOne (O.Starter.started starter.old) (O.Starter.started starter.new) self.old self.new result }
        ensures accepted { Accepts (is_ok result) 1 (O.Doors.accepted doors.old) (O.Doors.accepted doors.new) }
        ensures links { self.new.links ≡ self.old.links }
        ensures later { (O.Starter.faults starter.old ≤ O.Starter.faults starter.new) × (O.Doors.faults doors.old ≤ O.Doors.faults doors.new) }
        ensures cause { IsErrOf result Fault.Outside → Rose (O.Starter.faults starter.old) (O.Starter.faults starter.new) ⊎ Rose (O.Doors.faults doors.old) (O.Doors.faults doors.new) }
    {
        let Ok((line, wire)) = doors.accept() else {
            return Err(Fault::Outside);
        };
        self.finish_over();
        self.seat(starter, line, wire)
    }

    /// Accepts so many sessions. Behind the last one nobody else is let in.
    fn open_sessions(
        &mut self,
        starter: &mut O::Starter,
        doors: &mut O::Doors,
        sessions: u64,
    ) -> Result<(), Fault>
        requires made { self.old.made ≡ 0 }
        requires whole { IsWhole self.old }
        ensures started { SeatsAll self.old.turns sessions (O.Starter.started starter.old) (O.Starter.started starter.new) self.old self.new result }
        ensures accepted { Accepts (is_ok result) sessions (O.Doors.accepted doors.old) (O.Doors.accepted doors.new) }
        ensures whole { OnOk result (IsWhole self.new) }
        ensures links { self.new.links ≡ self.old.links }
        ensures later { (O.Starter.faults starter.old ≤ O.Starter.faults starter.new) × (O.Doors.faults doors.old ≤ O.Doors.faults doors.new) }
        ensures cause { IsErrOf result Fault.Outside → Rose (O.Starter.faults starter.old) (O.Starter.faults starter.new) ⊎ Rose (O.Doors.faults doors.old) (O.Doors.faults doors.new) }
    {
        'sessions: for session in 0..sessions {
            self.open_session(starter, doors)?;
        }
        doors.close();
        Ok(())
    }

    /// Starts all jobs: those of the links, the clock's, and those of so many sessions that are accepted. Where that fails,
    /// the server is to be given up.
    pub(crate) fn open(
        &mut self,
        starter: &mut O::Starter,
        doors: &mut O::Doors,
        links: &mut Vec<Fed<O::Links>>,
        clock: O::Clock,
        sessions: u64,
    ) -> Result<(), Fault>
        requires new { self.old ≡ new_server self.old.turns }
        ensures started { Starts (is_ok result) self.old.turns (numbers_of links.old.items) sessions (O.Starter.started starter.old) (O.Starter.started starter.new) }
        ensures accepted { Accepts (is_ok result) sessions (O.Doors.accepted doors.old) (O.Doors.accepted doors.new) }
        ensures all { OnOk result (StartsAll self.old.turns (numbers_of links.old.items) sessions (O.Starter.started starter.old) (O.Starter.started starter.new) (length self.new.links + self.new.jobs)) }
        ensures whole { OnOk result (IsWhole self.new) }
        ensures links { Returns (is_ok result) (numbers_of links.old.items) (self.new.links ++ numbers_of links.new.items) }
        ensures room { vec_len links.new + length self.new.links ≤ vec_capacity links.new }
        ensures cause { IsErrOf result Fault.Outside → Rose (O.Starter.faults starter.old) (O.Starter.faults starter.new) ⊎ Rose (O.Doors.faults doors.old) (O.Doors.faults doors.new) }
    {
        self.start_links(starter, links)?;
        self.start_clock(starter, clock)?;
        self.open_sessions(starter, doors, sessions)
    }
}
