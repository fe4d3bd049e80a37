//! All that a run reaches beside its input and its output.

ghost use Rattle.std.specs.Prelude.{◌≡◌, ℕ, List, Option, IfOk};
ghost use Rattle.push_outside.specs.Outside.{Telling, AddsTold, AddsUse, IsFresh, IsUnused, RaisedBy};

use push_base::{Clock, Datagrams, Doors, Line, Sink, Source, Starter, Surroundings};
use thiserror::Error;

/// Why an object wasn't made.
#[derive(Clone, Copy, Debug, PartialEq, Eq, Error)]
pub enum OpenFault {
    /// The words name nothing that can be reached, and a count of the outside rose.
    #[error("it cannot be reached")]
    Failed,
    /// Memory ran out.
    #[error("out of memory")]
    NoMemory,
}

/// All that a run reaches beside its input and its output. It makes objects, and takes them back.
///
/// An object that was just made has told nothing and has no faults. The outside has three counts of faults, which never
/// fall. A call that takes an object back raises one of them exactly where the count of that object is above 0. What an
/// outside tells is one record, of which each call changes one list.
pub trait Outside: Surroundings {
    /// What it opens; the input of a run is one, too.
    type In: Source;

    /// What a run writes to.
    type Out: Sink;

    ghost use Rattle.push_outside.specs.Opening.{CountsFailure, TellsWords};

    /// What it tells.
    ghost told: { Self → Telling };

    /// How often `open` failed, or a source or a line that had failed was taken back.
    ghost reads: { Self → ℕ };

    /// How often a wire that had failed was taken back.
    ghost writes: { Self → ℕ };

    /// How often `doors`, `dial` or `datagrams` failed, or doors, datagrams or a starter that had failed were taken
    /// back.
    ghost others: { Self → ℕ };

    /// The source at a path.
    fn open(&mut self, path: &str) -> Result<Self::In, OpenFault>
        ensures faults { IfOk result (λ source. Self.In.faults source ≡ 0) }
        ensures fresh { IfOk result (λ source. IsFresh (Self.In.given source)) }
        ensures reads { CountsFailure (reads self.old) (reads self.new) result }
        ensures writes { writes self.new ≡ writes self.old }
        ensures others { others self.new ≡ others self.old }
        ensures opened { TellsWords (told self.old).opened (told self.new).opened result path.now }
        ensures told { told self.new ≡ record (told self.old) { opened = (told self.new).opened } };

    /// Doors at an address.
    fn doors(&mut self, address: &str) -> Result<Self::Doors, OpenFault>
        ensures faults { IfOk result (λ doors. Self.Doors.faults doors ≡ 0) }
        ensures fresh { IfOk result (λ doors. IsUnused (told self.old).accepted (Self.Doors.accepted doors)) }
        ensures reads { reads self.new ≡ reads self.old }
        ensures writes { writes self.new ≡ writes self.old }
        ensures others { CountsFailure (others self.old) (others self.new) result }
        ensures listened { TellsWords (told self.old).listened (told self.new).listened result address.now }
        ensures told { told self.new ≡ record (told self.old) { listened = (told self.new).listened } };

    /// A connection to an address.
    fn dial(&mut self, address: &str) -> Result<(Self::Line, Self::Wire), OpenFault>
        ensures line_faults { IfOk result (λ ends. Self.Line.faults ends.0 ≡ 0) }
        ensures wire_faults { IfOk result (λ ends. Self.Wire.faults ends.1 ≡ 0) }
        ensures fresh_line { IfOk result (λ ends. IsFresh (Self.Line.given ends.0) × IsFresh (Self.Line.reads ends.0)) }
        ensures fresh_wire { IfOk result (λ ends. IsFresh (Self.Wire.taken ends.1)) }
        ensures reads { reads self.new ≡ reads self.old }
        ensures writes { writes self.new ≡ writes self.old }
        ensures others { CountsFailure (others self.old) (others self.new) result }
        ensures dialled { TellsWords (told self.old).dialled (told self.new).dialled result address.now }
        ensures told { told self.new ≡ record (told self.old) { dialled = (told self.new).dialled } };

    /// The datagrams that come to an address, and are sent from it.
    fn datagrams(&mut self, address: &str) -> Result<Self::Links, OpenFault>
        ensures faults { IfOk result (λ links. Self.Links.faults links ≡ 0) }
        ensures fresh { IfOk result (λ links. IsFresh (Self.Links.given links)) }
        ensures unsent { IfOk result (λ links. IsFresh (Self.Links.sent links)) }
        ensures reads { reads self.new ≡ reads self.old }
        ensures writes { writes self.new ≡ writes self.old }
        ensures others { CountsFailure (others self.old) (others self.new) result }
        ensures heard { TellsWords (told self.old).heard (told self.new).heard result address.now }
        ensures told { told self.new ≡ record (told self.old) { heard = (told self.new).heard } };

    /// A clock. It can't fail.
    fn clock(&mut self) -> Self::Clock
        ensures faults { Self.Clock.faults result ≡ 0 }
        ensures fresh { IsFresh (Self.Clock.moments result) }
        ensures reads { reads self.new ≡ reads self.old }
        ensures writes { writes self.new ≡ writes self.old }
        ensures others { others self.new ≡ others self.old }
        ensures told { told self.new ≡ told self.old };

    /// A starter. It can't fail. It is handed out, so that a start leaves all else of the outside as it is.
    fn starter(&mut self) -> Self::Starter
        ensures faults { Self.Starter.faults result ≡ 0 }
        ensures fresh { IsFresh (Self.Starter.started result) }
        ensures reads { reads self.new ≡ reads self.old }
        ensures writes { writes self.new ≡ writes self.old }
        ensures others { others self.new ≡ others self.old }
        ensures told { told self.new ≡ told self.old };

    /// Takes back a source that `open` made, with what it gave, what it has left, and its faults.
    fn back_in(&mut self, source: Self::In)
        ensures reads { RaisedBy (Self.In.faults source) (reads self.old) (reads self.new) }
        ensures writes { writes self.new ≡ writes self.old }
        ensures others { others self.new ≡ others self.old }
        ensures used { AddsUse (told self.old).used (told self.new).used (Self.In.given source) (Self.In.left source) }
        ensures told { told self.new ≡ record (told self.old) { used = (told self.new).used } };

    /// Takes back a line, with its answers and its faults.
    fn back_line(&mut self, line: Self::Line)
        ensures reads { RaisedBy (Self.Line.faults line) (reads self.old) (reads self.new) }
        ensures writes { writes self.new ≡ writes self.old }
        ensures others { others self.new ≡ others self.old }
        ensures lines { AddsTold (told self.old).lines (told self.new).lines (Self.Line.reads line) }
        ensures told { told self.new ≡ record (told self.old) { lines = (told self.new).lines } };

    /// Takes back a wire, with what it took and its faults.
    fn back_wire(&mut self, wire: Self::Wire)
        ensures reads { reads self.new ≡ reads self.old }
        ensures writes { RaisedBy (Self.Wire.faults wire) (writes self.old) (writes self.new) }
        ensures others { others self.new ≡ others self.old }
        ensures wires { AddsTold (told self.old).wires (told self.new).wires (Self.Wire.taken wire) }
        ensures told { told self.new ≡ record (told self.old) { wires = (told self.new).wires } };

    /// Takes back doors, with the number of sessions that they accepted and their faults.
    fn back_doors(&mut self, doors: Self::Doors)
        ensures reads { reads self.new ≡ reads self.old }
        ensures writes { writes self.new ≡ writes self.old }
        ensures others { RaisedBy (Self.Doors.faults doors) (others self.old) (others self.new) }
        ensures accepted { AddsTold (told self.old).accepted (told self.new).accepted (Self.Doors.accepted doors) }
        ensures told { told self.new ≡ record (told self.old) { accepted = (told self.new).accepted } };

    /// Takes back the datagrams of a link, with what they gave and their faults.
    fn back_links(&mut self, links: Self::Links)
        ensures reads { reads self.new ≡ reads self.old }
        ensures writes { writes self.new ≡ writes self.old }
        ensures others { RaisedBy (Self.Links.faults links) (others self.old) (others self.new) }
        ensures given { AddsTold (told self.old).links (told self.new).links (Self.Links.given links) }
        ensures told { told self.new ≡ record (told self.old) { links = (told self.new).links } };

    /// Takes back a clock, with its moments.
    fn back_clock(&mut self, clock: Self::Clock)
        ensures reads { reads self.new ≡ reads self.old }
        ensures writes { writes self.new ≡ writes self.old }
        ensures others { others self.new ≡ others self.old }
        ensures moments { AddsTold (told self.old).moments (told self.new).moments (Self.Clock.moments clock) }
        ensures told { told self.new ≡ record (told self.old) { moments = (told self.new).moments } };

    /// Takes back a starter, with the jobs that it was handed and its faults.
    fn back_starter(&mut self, starter: Self::Starter)
        ensures reads { reads self.new ≡ reads self.old }
        ensures writes { writes self.new ≡ writes self.old }
        ensures others { RaisedBy (Self.Starter.faults starter) (others self.old) (others self.new) }
        ensures started { AddsTold (told self.old).started (told self.new).started (Self.Starter.started starter) }
        ensures told { told self.new ≡ record (told self.old) { started = (told self.new).started } };
}
