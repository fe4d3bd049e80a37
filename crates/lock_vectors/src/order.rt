//! Jobs over objects that keep one log, so that it is seen which call came first.

ghost use Rattle.std.specs.Prelude.{None, ◌≤◌};
ghost use Rattle.pushserver.specs.Counting.{octets_of};

use crate::rows::holds;
use dsosession::session::EndReason;
use hublock::{Gate, Job, JobEnd, LoopEnd};
use push_base::{Clock, Datagrams, Failed, Got, Line, NoMemory, Sink, Task, Wire};
use pushserver::{Given, Heard, HubFault, Why};
use std::alloc::Global;
use std::sync::{Arc, Mutex, Wait};
use std::test::Fail;

/// What was done, a letter for each call.
#[derive(Drop)]
struct Log<R: Wait + Copy> {
    rt: R,
    letters: Arc<Mutex<Vec<u8>>>,
}

impl<R: Wait + Copy> Log<R> {
    /// Nothing was done so far.
    fn new(rt: R, alloc: Global) -> Result<Log<R>, NoMemory> {
        let letters = Arc::new(alloc, Mutex::new(Vec::new(alloc)))?;
        Ok(Log { rt, letters })
    }

    /// Another hold.
    fn again(&self) -> Result<Log<R>, NoMemory> {
        let letters = Arc::try_clone(&self.letters)?;
        Ok(Log {
            rt: self.rt,
            letters,
        })
    }

    /// One call more. Where memory ran out its letter is missing.
    fn add(&self, letter: u8) {
        let _ = self.letters.lock(&self.rt).push(letter).is_err();
    }

    /// Whether this was done, and nothing else.
    fn is_so(&self, wanted: &str) -> bool {
        self.letters.lock(&self.rt).as_slice() == wanted.as_bytes()
    }
}

/// What a gate does: it takes so many octets of a session, or asks a link with datagrams of these sizes; it gives this; and it
/// is to stop, or not.
#[derive(Clone, Copy)]
struct Plan {
    numbers: &'static [usize],
    gives: &'static [Given],
    is_over: bool,
}

impl Plan {
    /// The number at a place, and 0 behind the last.
    fn number_at(&self, place: usize) -> usize {
        match self.numbers.get(place) {
            Some(number) => *number,
            None => 0,
        }
    }

    /// What is given at a place, of which so many octets fit, and the end behind the last.
    fn given_at(&self, place: usize, room: usize) -> Given
        ensures { octets_of result ≤ room }
    {
        match self.gives.get(place) {
            Some(Given::Bytes(count)) => Given::Bytes((*count).min(room)),
            Some(Given::Worked) => Given::Worked,
            Some(Given::Nothing) => Given::Nothing,
            Some(Given::Ending) => Given::Ending,
            Some(Given::End(reason)) => Given::End(*reason),
            None => Given::End(EndReason::Short),
        }
    }
}

/// A gate that does what is planned: `t` where it took some octets, `n` none; `g` for each piece of work, `h` for a datagram,
/// which has no octets, `k` where a link is asked, which it isn't where the size is 0; `l` where a link is gone, `m` for a
/// moment, `p` where it is waited for, `x` for a connection that is gone, `o` for a line that is over, `s` for a session that
/// is.
#[derive(Drop)]
struct Told<R: Wait + Copy> {
    log: Log<R>,
    plan: Plan,
    // How many numbers or answers it has used.
    used: usize,
}

impl<R: Wait + Copy> Told<R> {
    /// It has done nothing so far.
    fn new(log: Log<R>, plan: Plan) -> Told<R> {
        Told { log, plan, used: 0 }
    }

    /// One number or answer more is used. Gives how many were before.
    fn use_one(&mut self) -> usize {
        let place = self.used;
        self.used = place.saturating_add(1);
        place
    }
}

impl<R: Wait + Copy> Gate for Told<R> {
    type Left = ();

    ghost state = { λ _. None };

    ghost left = { λ _. None };

    ghost role = { λ _. None };

    fn take(&mut self, _session: u64, piece: &[u8]) -> usize {
        let place = self.use_one();
        let count = self.plan.number_at(place).min(piece.len());
        self.log.add(if count == 0 { b'n' } else { b't' });
        count
    }

    fn give(&mut self, _session: u64, buf: &mut [u8]) -> Result<Given, HubFault> {
        self.log.add(b'g');
        let place = self.use_one();
        Ok(self.plan.given_at(place, buf.len()))
    }

    fn hear(&mut self, _link: usize, datagram: &[u8]) -> Result<Heard, HubFault> {
        self.log.add(b'h');
        if datagram.len() == 0 {
            return Ok(Heard::Ignored(Why::Short));
        }
        Err(HubFault::NoMemory)
    }

    fn ask(&mut self, _link: usize, buf: &mut [u8]) -> Result<Option<usize>, HubFault> {
        self.log.add(b'k');
        let place = self.use_one();
        match self.plan.number_at(place) {
            0 => Ok(None),
            count => Ok(Some(count.min(buf.len()))),
        }
    }

    fn gone(&mut self, _link: usize) -> Result<bool, HubFault> {
        self.log.add(b'l');
        Ok(true)
    }

    fn moment(&mut self, _at: u64) -> Result<(), HubFault> {
        self.log.add(b'm');
        Ok(())
    }

    fn end(&mut self, _session: u64) {
        self.log.add(b'x');
    }

    fn line_over(&mut self, _session: u64) {
        self.log.add(b'o');
    }

    fn session_over(&mut self) {
        self.log.add(b's');
    }

    fn pause(&mut self) {
        self.log.add(b'p');
    }

    fn done(&mut self) -> bool {
        self.plan.is_over
    }

    fn leave(self) {}
}

/// A line that gives pieces of these sizes: `r` for a read, `q` for none, where the size is 0, `e` for the end.
#[derive(Drop)]
struct LoggedLine<R: Wait + Copy> {
    log: Log<R>,
    sizes: &'static [usize],
    used: usize,
}

impl<R: Wait + Copy> Line for LoggedLine<R> {
    ghost given = { λ _. None };

    ghost left = { λ _. None };

    ghost reads = { λ _. None };

    ghost calls = { λ _. None };

    ghost faults = { λ _. 0 };

    fn recv(&mut self, buf: &mut [u8]) -> Result<Got, Failed> {
        let place = self.used;
        self.used = place.saturating_add(1);
        match self.sizes.get(place) {
            None => {
                self.log.add(b'e');
                Ok(Got::End)
            }
            Some(0) => {
                self.log.add(b'q');
                Ok(Got::Quiet)
            }
            Some(size) => {
                let count = (*size).max(1).min(buf.len());
                self.log.add(b'r');
                Ok(Got::Bytes(count))
            }
        }
    }
}

/// Datagrams without octets: `r` for each, and behind them `b` where they break, `e` for the end; `a` for one that is sent, or
/// that wasn't, where sending is broken.
#[derive(Drop)]
struct LoggedLinks<R: Wait + Copy> {
    log: Log<R>,
    links: Links,
    faults: u64,
}

/// How many datagrams of a link come, whether they break behind these, and whether none can be sent.
#[derive(Clone, Copy)]
struct Links {
    left: u64,
    breaks: bool,
    is_mute: bool,
}

impl<R: Wait + Copy> Datagrams for LoggedLinks<R> {
    ghost given = { λ _. None };

    ghost left = { λ _. None };

    ghost sent = { λ _. None };

    ghost calls = { λ _. None };

    ghost faults = { λ l. l.faults };

    fn recv(&mut self, _buf: &mut [u8]) -> Result<Got, Failed> {
        if self.links.left > 0 {
            self.links.left -= 1;
            self.log.add(b'r');
            return Ok(Got::Bytes(0));
        }
        if self.links.breaks {
            self.log.add(b'b');
            self.faults = self.faults.saturating_add(1);
            return Err(Failed);
        }
        self.log.add(b'e');
        Ok(Got::End)
    }

    fn send(&mut self, _piece: &[u8]) -> Result<(), Failed> {
        self.log.add(b'a');
        if self.links.is_mute {
            self.faults = self.faults.saturating_add(1);
            return Err(Failed);
        }
        Ok(())
    }
}

/// A wire that takes so many octets at once, and fails where that is 0: `w` for a write, `0` for one of no octets, `f` where it
/// is flushed, `d` where it is dropped.
struct LoggedWire<R: Wait + Copy> {
    log: Log<R>,
    most: usize,
    faults: u64,
}

impl<R: Wait + Copy> Drop for LoggedWire<R> {
    fn drop(self) {
        let LoggedWire {
            log,
            most: _,
            faults: _,
        } = self;
        log.add(b'd');
    }
}

impl<R: Wait + Copy> Sink for LoggedWire<R> {
    ghost taken = { λ _. None };

    ghost calls = { λ _. None };

    ghost faults = { λ s. s.faults };

    fn write(&mut self, piece: &[u8]) -> Result<usize, Failed> {
        self.log.add(if piece.is_empty() { b'0' } else { b'w' });
        if self.most == 0 {
            self.faults = self.faults.saturating_add(1);
            return Err(Failed);
        }
        Ok(piece.len().min(self.most))
    }
}

impl<R: Wait + Copy> Wire for LoggedWire<R> {
    fn flush(&mut self) {
        self.log.add(b'f');
    }
}

/// A clock that stands still: `c` where it is asked.
#[derive(Drop)]
struct LoggedClock<R: Wait + Copy> {
    log: Log<R>,
}

impl<R: Wait + Copy> Clock for LoggedClock<R> {
    ghost moments = { λ _. None };

    ghost calls = { λ _. None };

    ghost faults = { λ _. 0 };

    fn now(&mut self) -> u64 {
        self.log.add(b'c');
        0
    }

    fn tick(&mut self) -> u64 {
        self.now()
    }
}

/// A job over these.
type LoggedJob<R> = Job<Told<R>, LoggedLine<R>, LoggedWire<R>, LoggedLinks<R>, LoggedClock<R>>;

/// Runs a job. Gives how its loop ended.
fn run<R: Wait + Copy + Send + 'static>(job: LoggedJob<R>) -> LoopEnd {
    let JobEnd { end, .. } = job.run();
    end.end()
}

/// The work of a job.
#[derive(Clone, Copy)]
enum Work {
    /// A session's octets come in pieces of these sizes, of which so many are taken at once.
    Read(&'static [usize], &'static [usize]),
    /// This is given, and the wire takes so many octets at once.
    Write(&'static [Given], usize),
    /// So many datagrams come, and the link is asked with some of these sizes.
    Hear(u64, &'static [usize]),
    /// So many datagrams come, behind which they break.
    Break(u64),
    /// The same, where none can be sent.
    Mute(u64, &'static [usize]),
    /// The clock is asked.
    Tick,
}

/// What a job does with its turns, in order, and how its loop ends.
#[derive(Clone, Copy)]
struct Case {
    work: Work,
    turns: u64,
    log: &'static str,
    end: LoopEnd,
}

/// What jobs do: nothing is read, given or ticked before all was handed on, and none waits but behind what found nothing.
const CASES: &[Case] = &[
    // Each piece that is read is handed on to its end before the next, and others are told last.
    Case {
        work: Work::Read(&[3], &[3]),
        turns: 100,
        log: "rteo",
        end: LoopEnd::Finished,
    },
    Case {
        work: Work::Read(&[2, 2], &[1, 1, 2]),
        turns: 100,
        log: "rttrteo",
        end: LoopEnd::Finished,
    },
    // A wait comes behind a call that took nothing, and a read that gave nothing has none.
    Case {
        work: Work::Read(&[3], &[1, 0, 0, 2]),
        turns: 100,
        log: "rtnpnpteo",
        end: LoopEnd::Finished,
    },
    Case {
        work: Work::Read(&[0, 1], &[1]),
        turns: 100,
        log: "qrteo",
        end: LoopEnd::Finished,
    },
    // With its last turn a loop ends where it is.
    Case {
        work: Work::Read(&[3], &[1, 1, 1]),
        turns: 3,
        log: "rtto",
        end: LoopEnd::Turns,
    },
    // Each piece that is given is written to its end before the next; the wire is flushed before a wait, and behind the loop; then
    // the session goes, others are told, and the wire is dropped.
    Case {
        work: Work::Write(&[], 9),
        turns: 100,
        log: "gfxsd",
        end: LoopEnd::Finished,
    },
    Case {
        work: Work::Write(&[Given::Bytes(2), Given::Bytes(1)], 9),
        turns: 100,
        log: "gwgwgfxsd",
        end: LoopEnd::Finished,
    },
    Case {
        work: Work::Write(&[Given::Bytes(3), Given::Worked], 1),
        turns: 100,
        log: "gwwwggfxsd",
        end: LoopEnd::Finished,
    },
    Case {
        work: Work::Write(&[Given::Nothing, Given::Ending], 9),
        turns: 100,
        log: "gfpgfpgfxsd",
        end: LoopEnd::Finished,
    },
    // A piece without octets isn't written.
    Case {
        work: Work::Write(&[Given::Bytes(0)], 9),
        turns: 100,
        log: "ggfxsd",
        end: LoopEnd::Finished,
    },
    Case {
        work: Work::Write(&[Given::Bytes(2)], 0),
        turns: 100,
        log: "gwfxsd",
        end: LoopEnd::WriteFault,
    },
    // Each datagram and each moment is handed on before the next, and behind each datagram the link is asked until nothing is due,
    // which is sent before it is asked again.
    Case {
        work: Work::Hear(2, &[]),
        turns: 100,
        log: "rhkrhke",
        end: LoopEnd::Finished,
    },
    Case {
        work: Work::Hear(2, &[3, 3, 0, 2]),
        turns: 100,
        log: "rhkakakrhkake",
        end: LoopEnd::Finished,
    },
    Case {
        work: Work::Hear(2, &[3]),
        turns: 3,
        log: "rhk",
        end: LoopEnd::Turns,
    },
    Case {
        work: Work::Hear(2, &[3]),
        turns: 6,
        log: "rhkakr",
        end: LoopEnd::Turns,
    },
    // Where datagrams break, or can't be sent, the link is told gone, also with the last turn, and nothing behind it.
    Case {
        work: Work::Break(1),
        turns: 100,
        log: "rhkbl",
        end: LoopEnd::LinkFault,
    },
    Case {
        work: Work::Break(1),
        turns: 4,
        log: "rhkbl",
        end: LoopEnd::LinkFault,
    },
    Case {
        work: Work::Mute(2, &[3, 3]),
        turns: 4,
        log: "rhkal",
        end: LoopEnd::LinkFault,
    },
    Case {
        work: Work::Tick,
        turns: 4,
        log: "cmcm",
        end: LoopEnd::Turns,
    },
];

/// What they do where all is to stop: a writer gives what its session still has to say, others nothing.
const STOPPED: &[Case] = &[
    Case {
        work: Work::Read(&[3], &[3]),
        turns: 100,
        log: "o",
        end: LoopEnd::Finished,
    },
    Case {
        work: Work::Write(&[Given::Bytes(2), Given::Nothing], 9),
        turns: 100,
        log: "gwgffxsd",
        end: LoopEnd::Finished,
    },
    Case {
        work: Work::Hear(2, &[3]),
        turns: 100,
        log: "",
        end: LoopEnd::Finished,
    },
    Case {
        work: Work::Tick,
        turns: 100,
        log: "",
        end: LoopEnd::Finished,
    },
];

const NO_NUMBERS: &[usize] = &[];

const NO_GIVES: &[Given] = &[];

impl Work {
    /// What its gate takes, or asks with.
    fn numbers(self) -> &'static [usize] {
        match self {
            Work::Read(_, numbers) | Work::Hear(_, numbers) | Work::Mute(_, numbers) => numbers,
            Work::Write(_, _) | Work::Break(_) | Work::Tick => NO_NUMBERS,
        }
    }

    /// What its gate gives.
    fn gives(self) -> &'static [Given] {
        match self {
            Work::Write(gives, _) => gives,
            _ => NO_GIVES,
        }
    }
}

/// So many datagrams, of a link that breaks behind them or not, and is mute or not.
fn links_with(left: u64, breaks: bool, is_mute: bool) -> Links {
    Links {
        left,
        breaks,
        is_mute,
    }
}

/// Hears the datagrams of a link. Gives how the loop ended.
fn hear<R: Wait + Copy + Send + 'static>(
    alloc: Global,
    gate: Told<R>,
    log: Log<R>,
    links: Links,
    turns: u64,
) -> LoopEnd {
    let links = LoggedLinks {
        log,
        links,
        faults: 0,
    };
    run(Job::link(alloc, gate, 0, links, turns))
}

/// Does the work of a job over this gate and another object with this log. Gives how its loop ended.
fn end_of<R: Wait + Copy + Send + 'static>(
    alloc: Global,
    gate: Told<R>,
    log: Log<R>,
    work: Work,
    turns: u64,
) -> LoopEnd {
    match work {
        Work::Read(sizes, _) => {
            let line = LoggedLine {
                log,
                sizes,
                used: 0,
            };
            run(Job::reader(alloc, gate, 0, line, turns))
        }
        Work::Write(_, most) => {
            let wire = LoggedWire {
                log,
                most,
                faults: 0,
            };
            run(Job::writer(alloc, gate, 0, wire, turns))
        }
        Work::Hear(left, _) => hear(alloc, gate, log, links_with(left, false, false), turns),
        Work::Break(left) => hear(alloc, gate, log, links_with(left, true, false), turns),
        Work::Mute(left, _) => hear(alloc, gate, log, links_with(left, false, true), turns),
        Work::Tick => run(Job::clock(alloc, gate, LoggedClock { log }, turns)),
    }
}

/// Fails where a job does something else, or ends otherwise.
fn is_done_so<R: Wait + Copy + Send + 'static>(
    rt: R,
    alloc: Global,
    row: usize,
    case: &Case,
    is_over: bool,
) -> Result<(), Fail> {
    let log = Log::new(rt, alloc)?;
    let of_gate = log.again()?;
    let of_object = log.again()?;
    let plan = Plan {
        numbers: case.work.numbers(),
        gives: case.work.gives(),
        is_over,
    };
    let gate = Told::new(of_gate, plan);
    let end = end_of(alloc, gate, of_object, case.work, case.turns);
    holds(end == case.end, row, "its end")?;
    holds(log.is_so(case.log), row, "its calls")
}

#[test]
fn jobs_do_one_thing_behind_the_other(rt: HostRuntime) -> Result<(), Fail> {
    'rows: for (row, case) in CASES.iter().enumerate() {
        is_done_so(rt, rt.alloc(), row, case, false)?;
    }
    'stopped: for (row, case) in STOPPED.iter().enumerate() {
        is_done_so(rt, rt.alloc(), row, case, true)?;
    }
    Ok(())
}
