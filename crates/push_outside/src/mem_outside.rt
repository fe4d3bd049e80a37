//! The outside in memory, for tests.

ghost use Rattle.std.specs.Prelude.{◌≡◌, ℕ, [], Some, false, All, IfOk};
ghost use Rattle.std.specs.List.{concat};
ghost use Rattle.push_base.specs.LineSupply.{given_octets, reads_told};
ghost use Rattle.push_base.specs.DatagramSupply.{given_told};
ghost use Rattle.push_base.specs.MemClock.{moments_told};
ghost use Rattle.push_outside.specs.Opening.{CountsFailure, TellsWords};
ghost use Rattle.push_outside.specs.Outside.{AddsTold, AddsUse, IsFresh, IsUnused, RaisedBy};
ghost use Rattle.push_outside.specs.Shelves.{after_taking_back};
ghost use Rattle.push_outside.specs.MemOutside.{telling_of, IsNewSource, IsNewDoors, IsNewPair, AreNewLinks, IsNewClock, IsNewStarter, Opens, Listens, Dials, Hears, HandsClock, HandsStarter, raised_by as count_raised_by};

use crate::counts::{counted, is_starved, raised_by};
use crate::shelf::Shelf;
use crate::stock::Stock;
use crate::{MemObjects, OpenFault, Outside};
use push_base::{
    MemClock, MemDatagrams, MemDoors, MemLine, MemSink, MemSource, MemStarter, Octets, Surroundings,
};
use std::alloc::Global;
use std::collections::VecDeque;
use std::marker::Model;

/// An outside in memory. Of each kind it hands out its objects in order, whatever the words; behind the last one the
/// call fails, and a clock and a starter are plain ones. It keeps the words, and the objects that it takes back, for
/// which it makes the room when it hands them out.
#[derive(Drop)]
pub struct MemOutside {
    alloc: Global,
    files: Stock<MemSource>,
    listeners: Stock<MemDoors<MemLine, MemSink>>,
    connections: Stock<(MemLine, MemSink)>,
    feeds: Stock<MemDatagrams>,
    clocks: VecDeque<MemClock>,
    starters: VecDeque<MemStarter>,
    sources: Shelf<MemSource>,
    doors: Shelf<MemDoors<MemLine, MemSink>>,
    lines: Shelf<MemLine>,
    wires: Shelf<MemSink>,
    links: Shelf<MemDatagrams>,
    used_clocks: Shelf<MemClock>,
    used_starters: Shelf<MemStarter>,
    reads: u64,
    writes: u64,
    others: u64,
}

impl Model for MemOutside {
    ghost use Rattle.push_outside.specs.MemOutside.{OutsideState};

    ghost Value = { OutsideState };

    ghost use Rattle.push_outside.specs.MemOutsideInside.{outside_state, AreNew};

    ghost view = { outside_state };

    ghost invariant = { AreNew };
}

impl MemOutside {
    /// An outside that will hand out these objects, none of which was used yet.
    pub fn new(alloc: Global, objects: MemObjects) -> Self
        requires files { All IsNewSource objects.files.items }
        requires listeners { All IsNewDoors objects.listeners.items }
        requires connections { All IsNewPair objects.connections.items }
        requires feeds { All AreNewLinks objects.feeds.items }
        requires clocks { All IsNewClock objects.clocks.items }
        requires starters { All IsNewStarter objects.starters.items }
        ensures { result ≡ record {
          files = record { items = objects.files.items; words = [] };
          listeners = record { items = objects.listeners.items; words = [] };
          connections = record { items = objects.connections.items; words = [] };
          feeds = record { items = objects.feeds.items; words = [] };
          clocks = objects.clocks.items;
          starters = objects.starters.items;
          sources = record { items = []; room = 0; lost = false };
          doors = record { items = []; room = 0; lost = false };
          lines = record { items = []; room = 0; lost = false };
          wires = record { items = []; room = 0; lost = false };
          links = record { items = []; room = 0; lost = false };
          used_clocks = record { items = []; room = 0; lost = false };
          used_starters = record { items = []; room = 0; lost = false };
          reads = 0;
          writes = 0;
          others = 0;
        } }
    {
        MemOutside {
            alloc,
            files: Stock::new(alloc, objects.files),
            listeners: Stock::new(alloc, objects.listeners),
            connections: Stock::new(alloc, objects.connections),
            feeds: Stock::new(alloc, objects.feeds),
            clocks: VecDeque::from_vec(objects.clocks),
            starters: VecDeque::from_vec(objects.starters),
            sources: Shelf::new(alloc),
            doors: Shelf::new(alloc),
            lines: Shelf::new(alloc),
            wires: Shelf::new(alloc),
            links: Shelf::new(alloc),
            used_clocks: Shelf::new(alloc),
            used_starters: Shelf::new(alloc),
            reads: 0,
            writes: 0,
            others: 0,
        }
    }

    /// The words that were handed to `open`, the first ones first.
    pub fn opened(&self) -> &[Octets]
        ensures { result.now ≡ self.now.files.words }
    {
        self.files.words()
    }

    /// The words that were handed to `doors`, the first ones first.
    pub fn listened(&self) -> &[Octets]
        ensures { result.now ≡ self.now.listeners.words }
    {
        self.listeners.words()
    }

    /// The words that were handed to `dial`, the first ones first.
    pub fn dialled(&self) -> &[Octets]
        ensures { result.now ≡ self.now.connections.words }
    {
        self.connections.words()
    }

    /// The words that were handed to `datagrams`, the first ones first.
    pub fn heard(&self) -> &[Octets]
        ensures { result.now ≡ self.now.feeds.words }
    {
        self.feeds.words()
    }

    /// The sources that were taken back, the first one first.
    pub fn used(&self) -> &[MemSource]
        ensures { result.now ≡ self.now.sources.items }
    {
        self.sources.items()
    }

    /// The lines that were taken back, the first one first.
    pub fn used_lines(&self) -> &[MemLine]
        ensures { result.now ≡ self.now.lines.items }
    {
        self.lines.items()
    }

    /// The wires that were taken back, the first one first.
    pub fn used_wires(&self) -> &[MemSink]
        ensures { result.now ≡ self.now.wires.items }
    {
        self.wires.items()
    }

    /// The clocks that were taken back, the first one first.
    pub fn used_clocks(&self) -> &[MemClock]
        ensures { result.now ≡ self.now.used_clocks.items }
    {
        self.used_clocks.items()
    }

    /// How often `open` failed, or a source or a line that had failed was taken back.
    pub fn reads(&self) -> u64
        ensures { result ≡ self.now.reads }
    {
        self.reads
    }

    /// How often a wire that had failed was taken back.
    pub fn writes(&self) -> u64
        ensures { result ≡ self.now.writes }
    {
        self.writes
    }

    /// How often `doors`, `dial` or `datagrams` failed, or doors, datagrams or a starter that had failed were taken
    /// back.
    pub fn others(&self) -> u64
        ensures { result ≡ self.now.others }
    {
        self.others
    }
}

impl Surroundings for MemOutside {
    type Line = MemLine;

    type Wire = MemSink;

    type Links = MemDatagrams;

    type Doors = MemDoors<MemLine, MemSink>;

    type Clock = MemClock;

    type Starter = MemStarter;
}

impl Outside for MemOutside {
    type In = MemSource;

    type Out = MemSink;

    ghost told = { telling_of };

    ghost reads = { λ s. s.reads };

    ghost writes = { λ s. s.writes };

    ghost others = { λ s. s.others };

    fn open(&mut self, path: &str) -> Result<MemSource, OpenFault>
        ensures faults { IfOk result (λ source. source.calls.faults ≡ 0) }
        ensures fresh { IfOk result (λ source. IsFresh (Some source.octets.given)) }
        ensures reads { CountsFailure self.old.reads self.new.reads result }
        ensures writes { self.new.writes ≡ self.old.writes }
        ensures others { self.new.others ≡ self.old.others }
        ensures opened { TellsWords (Some self.old.files.words) (Some self.new.files.words) result path.now }
        ensures told { telling_of self.new ≡ record (telling_of self.old) { opened = (telling_of self.new).opened } }

        // Which object it hands out, when it fails, and what is kept afterwards.
        ensures exact { Opens path.now self.old self.new result }
    {
        let made = self.files.hand_out(self.alloc, path, &mut self.sources);
        self.reads = counted(self.reads, &made);
        made
    }

    fn doors(&mut self, address: &str) -> Result<MemDoors<MemLine, MemSink>, OpenFault>
        ensures faults { IfOk result (λ doors. doors.calls.faults ≡ 0) }
        ensures fresh { IfOk result (λ doors. IsUnused (telling_of self.old).accepted (Some doors.accepted)) }
        ensures reads { self.new.reads ≡ self.old.reads }
        ensures writes { self.new.writes ≡ self.old.writes }
        ensures others { CountsFailure self.old.others self.new.others result }
        ensures listened { TellsWords (Some self.old.listeners.words) (Some self.new.listeners.words) result address.now }
        ensures told { telling_of self.new ≡ record (telling_of self.old) { listened = (telling_of self.new).listened } }

        // Which object it hands out, when it fails, and what is kept afterwards.
        ensures exact { Listens address.now self.old self.new result }
    {
        let made = self
            .listeners
            .hand_out(self.alloc, address, &mut self.doors);
        self.others = counted(self.others, &made);
        made
    }

    fn dial(&mut self, address: &str) -> Result<(MemLine, MemSink), OpenFault>
        ensures line_faults { IfOk result (λ ends. ends.0.calls.faults ≡ 0) }
        ensures wire_faults { IfOk result (λ ends. ends.1.calls.faults ≡ 0) }
        ensures fresh_line { IfOk result (λ ends. IsFresh (Some (given_octets ends.0.items)) × IsFresh (reads_told ends.0.items)) }
        ensures fresh_wire { IfOk result (λ ends. IsFresh (Some ends.1.taken)) }
        ensures reads { self.new.reads ≡ self.old.reads }
        ensures writes { self.new.writes ≡ self.old.writes }
        ensures others { CountsFailure self.old.others self.new.others result }
        ensures dialled { TellsWords (Some self.old.connections.words) (Some self.new.connections.words) result address.now }
        ensures told { telling_of self.new ≡ record (telling_of self.old) { dialled = (telling_of self.new).dialled } }

        // Which object it hands out, when it fails, and what is kept afterwards.
        ensures exact { Dials address.now self.old self.new result }
    {
        if self.wires.make_room().is_err() {
            return Err(OpenFault::NoMemory);
        }
        let made = self
            .connections
            .hand_out(self.alloc, address, &mut self.lines);
        if is_starved(&made) {
            self.wires.leave_room();
        }
        self.others = counted(self.others, &made);
        made
    }

    fn datagrams(&mut self, address: &str) -> Result<MemDatagrams, OpenFault>
        ensures faults { IfOk result (λ links. links.calls.faults ≡ 0) }
        ensures fresh { IfOk result (λ links. IsFresh (given_told links.items)) }
        ensures unsent { IfOk result (λ links. IsFresh (Some links.sent)) }
        ensures reads { self.new.reads ≡ self.old.reads }
        ensures writes { self.new.writes ≡ self.old.writes }
        ensures others { CountsFailure self.old.others self.new.others result }
        ensures heard { TellsWords (Some self.old.feeds.words) (Some self.new.feeds.words) result address.now }
        ensures told { telling_of self.new ≡ record (telling_of self.old) { heard = (telling_of self.new).heard } }

        // Which object it hands out, when it fails, and what is kept afterwards.
        ensures exact { Hears address.now self.old self.new result }
    {
        let made = self.feeds.hand_out(self.alloc, address, &mut self.links);
        self.others = counted(self.others, &made);
        made
    }

    fn clock(&mut self) -> MemClock
        ensures faults { ◌≡◌ {A = ℕ} 0 0 }
        ensures fresh { IsFresh (moments_told result) }
        ensures reads { self.new.reads ≡ self.old.reads }
        ensures writes { self.new.writes ≡ self.old.writes }
        ensures others { self.new.others ≡ self.old.others }
        ensures told { telling_of self.new ≡ telling_of self.old }

        // Which clock it hands out, and what is kept afterwards.
        ensures exact { HandsClock self.old self.new result }
    {
        let alloc = self.alloc;
        let _ = self.used_clocks.make_room();
        match self.clocks.pop_front() {
            Some(clock) => clock,
            None => MemClock::new(Vec::new(alloc)),
        }
    }

    fn starter(&mut self) -> MemStarter
        ensures faults { result.calls.faults ≡ 0 }
        ensures fresh { IsFresh (Some result.started) }
        ensures reads { self.new.reads ≡ self.old.reads }
        ensures writes { self.new.writes ≡ self.old.writes }
        ensures others { self.new.others ≡ self.old.others }
        ensures told { telling_of self.new ≡ telling_of self.old }

        // Which starter it hands out, and what is kept afterwards.
        ensures exact { HandsStarter self.old self.new result }
    {
        let alloc = self.alloc;
        let _ = self.used_starters.make_room();
        match self.starters.pop_front() {
            Some(starter) => starter,
            None => MemStarter::new(alloc, Vec::new(alloc)),
        }
    }

    fn back_in(&mut self, source: MemSource)
        ensures reads { RaisedBy source.calls.faults self.old.reads self.new.reads }
        ensures writes { self.new.writes ≡ self.old.writes }
        ensures others { self.new.others ≡ self.old.others }
        ensures used { AddsUse (telling_of self.old).used (telling_of self.new).used (Some source.octets.given) (Some (concat source.octets.items)) }
        ensures told { telling_of self.new ≡ record (telling_of self.old) { used = (telling_of self.new).used } }

        // What is kept afterwards.
        ensures exact { self.new ≡ record self.old { sources = after_taking_back source self.old.sources; reads = count_raised_by source.calls.faults self.old.reads } }
    {
        self.reads = raised_by(source.faults(), self.reads);
        self.sources.take_back(source);
    }

    fn back_line(&mut self, line: MemLine)
        ensures reads { RaisedBy line.calls.faults self.old.reads self.new.reads }
        ensures writes { self.new.writes ≡ self.old.writes }
        ensures others { self.new.others ≡ self.old.others }
        ensures lines { AddsTold (telling_of self.old).lines (telling_of self.new).lines (reads_told line.items) }
        ensures told { telling_of self.new ≡ record (telling_of self.old) { lines = (telling_of self.new).lines } }

        // What is kept afterwards.
        ensures exact { self.new ≡ record self.old { lines = after_taking_back line self.old.lines; reads = count_raised_by line.calls.faults self.old.reads } }
    {
        self.reads = raised_by(line.faults(), self.reads);
        self.lines.take_back(line);
    }

    fn back_wire(&mut self, wire: MemSink)
        ensures reads { self.new.reads ≡ self.old.reads }
        ensures writes { RaisedBy wire.calls.faults self.old.writes self.new.writes }
        ensures others { self.new.others ≡ self.old.others }
        ensures wires { AddsTold (telling_of self.old).wires (telling_of self.new).wires (Some wire.taken) }
        ensures told { telling_of self.new ≡ record (telling_of self.old) { wires = (telling_of self.new).wires } }

        // What is kept afterwards.
        ensures exact { self.new ≡ record self.old { wires = after_taking_back wire self.old.wires; writes = count_raised_by wire.calls.faults self.old.writes } }
    {
        self.writes = raised_by(wire.faults(), self.writes);
        self.wires.take_back(wire);
    }

    fn back_doors(&mut self, doors: MemDoors<MemLine, MemSink>)
        ensures reads { self.new.reads ≡ self.old.reads }
        ensures writes { self.new.writes ≡ self.old.writes }
        ensures others { RaisedBy doors.calls.faults self.old.others self.new.others }
        ensures accepted { AddsTold (telling_of self.old).accepted (telling_of self.new).accepted (Some doors.accepted) }
        ensures told { telling_of self.new ≡ record (telling_of self.old) { accepted = (telling_of self.new).accepted } }

        // What is kept afterwards.
        ensures exact { self.new ≡ record self.old { doors = after_taking_back doors self.old.doors; others = count_raised_by doors.calls.faults self.old.others } }
    {
        self.others = raised_by(doors.faults(), self.others);
        self.doors.take_back(doors);
    }

    fn back_links(&mut self, links: MemDatagrams)
        ensures reads { self.new.reads ≡ self.old.reads }
        ensures writes { self.new.writes ≡ self.old.writes }
        ensures others { RaisedBy links.calls.faults self.old.others self.new.others }
        ensures given { AddsTold (telling_of self.old).links (telling_of self.new).links (given_told links.items) }
        ensures told { telling_of self.new ≡ record (telling_of self.old) { links = (telling_of self.new).links } }

        // What is kept afterwards.
        ensures exact { self.new ≡ record self.old { links = after_taking_back links self.old.links; others = count_raised_by links.calls.faults self.old.others } }
    {
        self.others = raised_by(links.faults(), self.others);
        self.links.take_back(links);
    }

    fn back_clock(&mut self, clock: MemClock)
        ensures reads { self.new.reads ≡ self.old.reads }
        ensures writes { self.new.writes ≡ self.old.writes }
        ensures others { self.new.others ≡ self.old.others }
        ensures moments { AddsTold (telling_of self.old).moments (telling_of self.new).moments (moments_told clock) }
        ensures told { telling_of self.new ≡ record (telling_of self.old) { moments = (telling_of self.new).moments } }

        // What is kept afterwards.
        ensures exact { self.new ≡ record self.old { used_clocks = after_taking_back clock self.old.used_clocks } }
    {
        self.used_clocks.take_back(clock);
    }

    fn back_starter(&mut self, starter: MemStarter)
        ensures reads { self.new.reads ≡ self.old.reads }
        ensures writes { self.new.writes ≡ self.old.writes }
        ensures others { RaisedBy starter.calls.faults self.old.others self.new.others }
        ensures started { AddsTold (telling_of self.old).started (telling_of self.new).started (Some starter.started) }
        ensures told { telling_of self.new ≡ record (telling_of self.old) { started = (telling_of self.new).started } }

        // What is kept afterwards.
        ensures exact { self.new ≡ record self.old { used_starters = after_taking_back starter self.old.used_starters; others = count_raised_by starter.calls.faults self.old.others } }
    {
        self.others = raised_by(starter.faults(), self.others);
        self.used_starters.take_back(starter);
    }
}
