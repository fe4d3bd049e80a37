//! An outside that tells what it did, and waits for what was done elsewhere.

ghost use Rattle.std.specs.Prelude.{◌≤◌, None, length};

use crate::threads::{Apart, Listed};
use push_base::{
    Clock, Datagrams, Doors, Failed, Got, Line, MemDatagrams, NoMemory, Sink, Surroundings, Wire,
};
use std::alloc::Global;
use std::collections::VecDeque;
use std::marker::PhantomData;
use std::sync::{Arc, Condvar, Mutex, Wait};

/// What is done.
#[derive(Clone, Copy)]
enum Event {
    /// A wire took so many octets.
    Written(usize),
    /// A wire was dropped.
    Dropped,
    /// Datagrams told their end.
    Heard,
    /// A clock was asked.
    Asked,
}

/// What is waited for.
#[derive(Clone, Copy)]
pub(crate) enum Until {
    /// Nothing.
    Now,
    /// Wires took so many octets, together.
    Written(usize),
    /// So many wires were dropped.
    Dropped(u64),
    /// Datagrams of so many links told their end, and the clock was asked twice.
    HeardAndAsked(u64),
}

impl Until {
    /// Whether it is nothing.
    fn is_now(&self) -> bool {
        matches!(self, Until::Now)
    }
}

/// What was done so far.
#[derive(Clone, Copy)]
struct Done {
    written: usize,
    dropped: u64,
    heard: u64,
    asked: u64,
}

impl Done {
    /// Counts what is done.
    fn add(&mut self, event: Event) {
        match event {
            Event::Written(count) => self.written = self.written.saturating_add(count),
            Event::Dropped => self.dropped = self.dropped.saturating_add(1),
            Event::Heard => self.heard = self.heard.saturating_add(1),
            Event::Asked => self.asked = self.asked.saturating_add(1),
        }
    }

    /// Whether what is waited for was done.
    fn has(&self, until: Until) -> bool {
        match until {
            Until::Now => true,
            Until::Written(count) => count <= self.written,
            Until::Dropped(count) => count <= self.dropped,
            Until::HeardAndAsked(count) => count <= self.heard && 2 <= self.asked,
        }
    }
}

/// What was done so far, behind a lock, and all that links were sent, behind another.
#[derive(Drop)]
struct Board {
    done: Mutex<Done>,
    changed: Condvar,
    sent: Mutex<Vec<u8>>,
}

/// One hold of it.
#[derive(Drop)]
pub(crate) struct Watch<R: Wait + Copy> {
    rt: R,
    board: Arc<Board>,
}

impl<R: Wait + Copy> Watch<R> {
    /// Nothing was done so far.
    pub(crate) fn new(rt: R, alloc: Global) -> Result<Watch<R>, NoMemory> {
        let done = Done {
            written: 0,
            dropped: 0,
            heard: 0,
            asked: 0,
        };
        let board = Board {
            done: Mutex::new(done),
            changed: Condvar::new(),
            sent: Mutex::new(Vec::new(alloc)),
        };
        Ok(Watch {
            rt,
            board: Arc::new(alloc, board)?,
        })
    }

    /// Another hold.
    pub(crate) fn again(&self) -> Result<Watch<R>, NoMemory> {
        Ok(Watch {
            rt: self.rt,
            board: Arc::try_clone(&self.board)?,
        })
    }

    /// Tells what is done.
    fn tell(&self, event: Event) {
        self.board.done.lock(&self.rt).add(event);
        self.board.changed.notify_all();
    }

    /// Whether links were sent this, and nothing else.
    pub(crate) fn has_sent(&self, octets: &[u8]) -> bool {
        self.board.sent.lock(&self.rt).as_slice() == octets
    }

    /// Waits for what is done elsewhere.
    fn wait(&self, until: Until) {
        let done = self.board.done.lock(&self.rt);
        let _done = self
            .board
            .changed
            .wait_while(&self.rt, done, |done| !done.has(until));
    }
}

/// A line that gives its octets in pieces of one size, the last of which may be shorter, and then ends. It tells nothing.
#[derive(Drop)]
pub(crate) struct Drip {
    octets: Vec<u8>,
    next: usize,
    size: usize,
}

impl Drip {
    /// It has given no piece.
    pub(crate) fn new(octets: Vec<u8>, size: usize) -> Drip {
        Drip {
            octets,
            next: 0,
            size,
        }
    }
}

/// Puts the octets from a place on at the front of the buffer, but no more than so many. Gives their number.
fn put_piece(octets: &[u8], place: usize, size: usize, buf: &mut [u8]) -> usize
    ensures { result ≤ length buf.new }
{
    let Some((_, rest)) = octets.split_at_checked(place) else {
        return 0;
    };
    let count = rest.len().min(size).min(buf.len());
    buf[..count].copy_from_slice(&rest[..count]);
    count
}

impl Line for Drip {
    ghost given = { λ _. None };

    ghost left = { λ _. None };

    ghost reads = { λ _. None };

    ghost calls = { λ _. None };

    ghost faults = { λ _. 0 };

    fn recv(&mut self, buf: &mut [u8]) -> Result<Got, Failed> {
        let count = put_piece(&self.octets, self.next, self.size, buf);
        if count == 0 {
            return Ok(Got::End);
        }
        self.next = self.next.saturating_add(count);
        Ok(Got::Bytes(count))
    }
}

/// A line that is quiet until something was done elsewhere, and then gives its octets. Behind them it ends, or stays quiet.
#[derive(Drop)]
pub(crate) struct Late<R: Wait + Copy> {
    watch: Watch<R>,
    until: Until,
    drip: Drip,
    stays: bool,
}

impl<R: Wait + Copy> Line for Late<R> {
    ghost given = { λ _. None };

    ghost left = { λ _. None };

    ghost reads = { λ _. None };

    ghost calls = { λ _. None };

    ghost faults = { λ _. 0 };

    fn recv(&mut self, buf: &mut [u8]) -> Result<Got, Failed> {
        match self.until {
            Until::Now => match self.drip.recv(buf)? {
                Got::End if self.stays => Ok(Got::Quiet),
                got => Ok(got),
            },
            until => {
                self.watch.wait(until);
                self.until = Until::Now;
                Ok(Got::Quiet)
            }
        }
    }
}

/// A wire that takes nothing until something was done elsewhere. It tells what it takes, and that it is dropped.
pub(crate) struct Held<R: Wait + Copy> {
    watch: Watch<R>,
    until: Until,
    wire: Listed<R>,
}

impl<R: Wait + Copy> Sink for Held<R> {
    ghost taken = { λ _. None };

    ghost calls = { λ _. None };

    ghost faults = { λ s. s.wire.faults };

    fn write(&mut self, piece: &[u8]) -> Result<usize, Failed> {
        self.watch.wait(self.until);
        let count = self.wire.write(piece)?;
        self.watch.tell(Event::Written(count));
        Ok(count)
    }
}

impl<R: Wait + Copy> Wire for Held<R> {
    fn flush(&mut self) {}
}

impl<R: Wait + Copy> Drop for Held<R> {
    fn drop(self) {
        let Held {
            watch,
            until: _,
            wire: _,
        } = self;
        watch.tell(Event::Dropped);
    }
}

/// Datagrams that are quiet until something was done elsewhere, and tell their end.
#[derive(Drop)]
pub(crate) struct Hearings<R: Wait + Copy> {
    watch: Watch<R>,
    until: Until,
    datagrams: MemDatagrams,
    faults: u64,
}

impl<R: Wait + Copy> Hearings<R> {
    /// Nothing was received so far.
    pub(crate) fn new(
        watch: &Watch<R>,
        until: Until,
        datagrams: MemDatagrams,
    ) -> Result<Hearings<R>, NoMemory> {
        Ok(Hearings {
            watch: watch.again()?,
            until,
            datagrams,
            faults: 0,
        })
    }
}

impl<R: Wait + Copy> Datagrams for Hearings<R> {
    ghost given = { λ _. None };

    ghost left = { λ _. None };

    ghost sent = { λ _. None };

    ghost calls = { λ _. None };

    ghost faults = { λ d. d.faults };

    fn recv(&mut self, buf: &mut [u8]) -> Result<Got, Failed> {
        let until = self.until;
        if !until.is_now() {
            self.watch.wait(until);
            self.until = Until::Now;
            return Ok(Got::Quiet);
        }
        let Ok(got) = self.datagrams.recv(buf) else {
            self.faults = self.faults.saturating_add(1);
            return Err(Failed);
        };
        if got == Got::End {
            self.watch.tell(Event::Heard);
        }
        Ok(got)
    }

    fn send(&mut self, piece: &[u8]) -> Result<(), Failed> {
        let mut sent = self.watch.board.sent.lock(&self.watch.rt);
        if sent.extend_from_slice(piece).is_err() {
            self.faults = self.faults.saturating_add(1);
            return Err(Failed);
        }
        Ok(())
    }
}

/// A clock that stands still, and tells that it was asked.
#[derive(Drop)]
pub(crate) struct Still<R: Wait + Copy> {
    watch: Watch<R>,
    moment: u64,
}

impl<R: Wait + Copy> Still<R> {
    /// It stands at this moment.
    pub(crate) fn new(watch: &Watch<R>, moment: u64) -> Result<Still<R>, NoMemory> {
        Ok(Still {
            watch: watch.again()?,
            moment,
        })
    }
}

impl<R: Wait + Copy> Clock for Still<R> {
    ghost moments = { λ _. None };

    ghost calls = { λ _. None };

    ghost faults = { λ _. 0 };

    fn now(&mut self) -> u64 {
        self.watch.tell(Event::Asked);
        self.moment
    }

    fn tick(&mut self) -> u64 {
        self.now()
    }
}

/// Doors that hold the last answer back until something was done elsewhere.
#[derive(Drop)]
pub(crate) struct Porter<R: Wait + Copy> {
    watch: Watch<R>,
    until: Until,
    /// The number of that answer.
    last: u64,
    calls: u64,
    lines: VecDeque<Late<R>>,
    wires: VecDeque<Held<R>>,
    faults: u64,
}

impl<R: Wait + Copy> Porter<R> {
    /// There are no sessions so far.
    pub(crate) fn new(alloc: Global, watch: Watch<R>, until: Until, last: u64) -> Porter<R> {
        Porter {
            watch,
            until,
            last,
            calls: 0,
            lines: VecDeque::new(alloc),
            wires: VecDeque::new(alloc),
            faults: 0,
        }
    }

    /// A line is to come behind others.
    pub(crate) fn add_line(
        &mut self,
        drip: Drip,
        until: Until,
        stays: bool,
    ) -> Result<(), NoMemory> {
        let watch = self.watch.again()?;
        self.lines.push_back(Late {
            watch,
            until,
            drip,
            stays,
        })?;
        Ok(())
    }

    /// A wire is to come behind others.
    pub(crate) fn add_wire(&mut self, wire: Listed<R>, until: Until) -> Result<(), NoMemory> {
        let watch = self.watch.again()?;
        self.wires.push_back(Held { watch, until, wire })?;
        Ok(())
    }
}

/// The first of two lists, where there is one of each.
fn first_of_each<L: Drop, K: Drop>(
    lines: &mut VecDeque<L>,
    wires: &mut VecDeque<K>,
) -> Option<(L, K)> {
    let line = lines.pop_front()?;
    let wire = wires.pop_front()?;
    Some((line, wire))
}

impl<R: Wait + Copy> Doors for Porter<R> {
    type Line = Late<R>;

    type Out = Held<R>;

    ghost accepted = { λ _. None };

    ghost calls = { λ _. None };

    ghost faults = { λ s. s.faults };

    fn accept(&mut self) -> Result<(Late<R>, Held<R>), Failed> {
        self.calls = self.calls.saturating_add(1);
        if self.calls == self.last {
            self.watch.wait(self.until);
        }
        match first_of_each(&mut self.lines, &mut self.wires) {
            Some(session) => Ok(session),
            None => {
                self.faults = self.faults.saturating_add(1);
                Err(Failed)
            }
        }
    }

    fn close(&mut self) {}
}

/// The kinds of all these.
pub(crate) struct Watched<R> {
    rt: PhantomData<R>,
}

impl<R: Wait + Copy + Send + 'static> Surroundings for Watched<R> {
    type Line = Late<R>;

    type Wire = Held<R>;

    type Links = Hearings<R>;

    type Doors = Porter<R>;

    type Clock = Still<R>;

    type Starter = Apart;
}
