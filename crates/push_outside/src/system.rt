//! The real outside: the files, the network, the clock and the threads of a system.
//!
//! It counts faults and tells nothing, since no clause can say what a file, a peer or a terminal has. Which file is
//! opened, which address is reached, and that standard input and output are those of the process, no clause says.

ghost use Rattle.std.specs.Prelude.{◌≡◌, None, IfOk};
ghost use Rattle.push_outside.specs.System.{nothing_told};

use crate::counts::{counted, raised_by};
use crate::log_lines::fault_at;
use crate::machine_clock::MachineClock;
use crate::origin::Origin;
use crate::reading::Reading;
use crate::tcp::{TcpDoors, TcpEnds, dial};
use crate::tcp_line::TcpLine;
use crate::tcp_wire::TcpWire;
use crate::thread_starter::ThreadStarter;
use crate::udp_links::UdpLinks;
use crate::writing::Writing;
use crate::{OpenFault, Outside};
use log::Log;
use push_base::Surroundings;
use std::alloc::Global;
use std::fs::{File, Files};
use std::io::{ErrorKind, Stdin, Stdout};
use std::net::{Net, TcpListener, TcpStream};
use std::sync::Wait;
use std::thread::Threads;
use std::time;
use std::time::Instant;

/// The real outside, as a network and a runtime reach it. It counts how often a file, an address or a thread couldn't be
/// had, or one of its objects failed, and tells neither the words that it was handed nor what came of its objects. The
/// runtime logs why a file or an address couldn't be had.
#[derive(Drop)]
pub struct System<N, R> {
    net: N,
    rt: R,
    alloc: Global,
    start: Option<Instant>,
    reads: u64,
    writes: u64,
    others: u64,
}

impl<N, R: time::Clock> System<N, R> {
    /// The outside that these reach, without faults so far. Its clocks begin now.
    pub fn new(net: N, rt: R, alloc: Global) -> Self {
        let start = Instant::now(&rt).ok();
        System {
            net,
            rt,
            alloc,
            start,
            reads: 0,
            writes: 0,
            others: 0,
        }
    }
}

/// Why an object couldn't be made, by the system's error.
pub(crate) fn fault_of(kind: ErrorKind) -> OpenFault {
    match kind {
        ErrorKind::OutOfMemory => OpenFault::NoMemory,
        _ => OpenFault::Failed,
    }
}

/// The file at a path.
fn file_at<R: Log + Files>(
    files: &R,
    path: &str,
) -> Result<Reading<Origin<Stdin, R::File>>, OpenFault>
    ensures { IfOk result (λ source. source.faults ≡ 0) }
{
    match File::open(files, path) {
        Ok(file) => Ok(Reading::new(Origin::File(file))),
        Err(error) => Err(fault_at(files, "read", path, &error)),
    }
}

impl<N, R> Surroundings for System<N, R>
where
    R: Log + Threads + Wait + time::Clock + Copy + Drop + Send + 'static,
{
    type Line = TcpLine<TcpStream>;

    type Wire = TcpWire;

    type Links = UdpLinks;

    type Doors = TcpDoors<R>;

    type Clock = MachineClock<R>;

    type Starter = ThreadStarter<R>;
}

impl<N, R> Outside for System<N, R>
where
    N: Net<Listener = TcpListener, Stream = TcpStream>,
    R: Log + Files + Threads + Wait + time::Clock + Copy + Drop + Send + 'static,
{
    type In = Reading<Origin<Stdin, R::File>>;

    type Out = Writing<Stdout>;

    ghost told = { λ _. nothing_told };

    ghost reads = { λ s. s.reads };

    ghost writes = { λ s. s.writes };

    ghost others = { λ s. s.others };

    fn open(&mut self, path: &str) -> Result<Self::In, OpenFault> {
        let source = file_at(&self.rt, path);
        self.reads = counted(self.reads, &source);
        source
    }

    fn doors(&mut self, address: &str) -> Result<TcpDoors<R>, OpenFault> {
        let doors = TcpDoors::bind(&self.net, self.rt, self.alloc, address);
        self.others = counted(self.others, &doors);
        doors
    }

    fn dial(&mut self, address: &str) -> Result<TcpEnds, OpenFault> {
        let ends = dial(&self.net, &self.rt, self.alloc, address);
        self.others = counted(self.others, &ends);
        ends
    }

    fn datagrams(&mut self, address: &str) -> Result<UdpLinks, OpenFault> {
        let links = UdpLinks::bind(&self.net, &self.rt, address);
        self.others = counted(self.others, &links);
        links
    }

    fn clock(&mut self) -> MachineClock<R> {
        MachineClock::new(self.rt, self.start)
    }

    fn starter(&mut self) -> ThreadStarter<R> {
        ThreadStarter::new(self.rt)
    }

    fn back_in(&mut self, source: Self::In) {
        self.reads = raised_by(source.faults(), self.reads);
    }

    fn back_line(&mut self, line: TcpLine<TcpStream>) {
        self.reads = raised_by(line.faults(), self.reads);
    }

    fn back_wire(&mut self, wire: TcpWire) {
        self.writes = raised_by(wire.faults(), self.writes);
    }

    fn back_doors(&mut self, doors: TcpDoors<R>) {
        self.others = raised_by(doors.faults(), self.others);
    }

    fn back_links(&mut self, links: UdpLinks) {
        self.others = raised_by(links.faults(), self.others);
    }

    fn back_clock(&mut self, _clock: MachineClock<R>) {}

    fn back_starter(&mut self, starter: ThreadStarter<R>) {
        self.others = raised_by(starter.faults(), self.others);
    }
}
