//! The command `subscribe`: a configuration is read, its server is dialled, and what it says is told.

ghost use Rattle.std.specs.Prelude.{◌≡◌, ◌⊎◌, ◌≤◌, ℕ, Ok, List, OnOk, IfOk, IsErrOf, string_bytes};
ghost use Rattle.push_base.specs.Causes.{Rose};
ghost use Rattle.push_outside.specs.Outside.{Adds, IsFresh};
ghost use Rattle.configurations.specs.Configurations.{subscribing_of};
ghost use Rattle.configurations.specs.Kept.{subscribing_kept};
ghost use Rattle.scripts.specs.Sources.{front_read};
ghost use Rattle.scripts.specs.Outcomes.{HasRead};
ghost use Rattle.replay.specs.ScriptTexts.{outside_text};
ghost use Rattle.commands.specs.Runs.{GivesSourceBack, MayHaveGiven, UsesAtMost, UsesWhole};
ghost use Rattle.commands.specs.Status.{code_of};
ghost use Rattle.commands.specs.Subscribing.{Conversation, Follows};
ghost use Rattle.commands.specs.declared.status.Status.TheVariants as statuses;

use crate::configured::{read_path, tell_line};
use crate::line_causes::{SUBSCRIBE, tell_cause};
use crate::status::{OUTSIDE_FAULT, Status, tell_status};
use configurations::{ReadSubscribe, SubscribeConfiguration, read_subscribe};
use log::Log;
use push_base::NoMemory;
use push_outside::{OpenFault, Outside};
use scripts::{NO_MEMORY, Outcome, READ_FAULT, ReadError, tell};
use std::alloc::Global;
use subscriber::subscribe;

/// Reads the configuration at a path, hands its source back, and follows what it says.
pub fn subscribe_at<R: Log, O: Outside>(
    rt: &R,
    alloc: Global,
    path: &str,
    out: &mut O::Out,
    outside: &mut O,
) -> Status
    ensures followed { (octets : List ℕ) → MayHaveGiven (O.told outside.old).used (O.told outside.new).used octets →
        Follows
        (record { told = O.told outside.old; printed = O.Out.taken out.old; reads = O.reads outside.old; others = O.others outside.old })
        (record { told = O.told outside.new; printed = O.Out.taken out.new; reads = O.reads outside.new; others = O.others outside.new })
        (subscribing_of (front_read octets)) (code_of result) }
    ensures usage { result ≡ statuses.Usage → ⊥ }
    ensures read_fault { result ≡ statuses.Ended Outcome.ReadFault → Rose (O.reads outside.old) (O.reads outside.new) }
    ensures write_fault { result ≡ statuses.Ended Outcome.WriteFault
        → Rose (O.Out.faults out.old) (O.Out.faults out.new) ⊎ Rose (O.writes outside.old) (O.writes outside.new) }
    ensures outside_fault { result ≡ statuses.OutsideFault → Rose (O.others outside.old) (O.others outside.new) }
    ensures rest { HasRead (code_of result) ⊎ (code_of result ≡ 6) → UsesWhole (O.told outside.old).used (O.told outside.new).used }
    ensures used { UsesAtMost (O.told outside.old).used (O.told outside.new).used }
    ensures returned { GivesSourceBack path.now (O.told outside.old).opened (O.told outside.new).opened (O.told outside.old).used (O.told outside.new).used (O.reads outside.old) (O.reads outside.new) }
    ensures opened { Adds (O.told outside.old).opened (O.told outside.new).opened path.now
        ⊎ (((O.told outside.new).opened ≡ (O.told outside.old).opened) × ((code_of result ≡ 4) ⊎ (code_of result ≡ 5))) }
    ensures told { O.told outside.new ≡ record (O.told outside.old) {
      opened = (O.told outside.new).opened;
      used = (O.told outside.new).used;
      dialled = (O.told outside.new).dialled;
      lines = (O.told outside.new).lines;
      wires = (O.told outside.new).wires;
      moments = (O.told outside.new).moments;
    } }
{
    match read_path(alloc, path, outside) {
        Ok(octets) => follow(rt, alloc, &octets, out, outside),
        Err(ReadError::Failed) => Status::Ended(tell(out, Outcome::ReadFault, READ_FAULT)),
        Err(ReadError::NoMemory) => Status::Ended(tell(out, Outcome::NoMemory, NO_MEMORY)),
    }
}

// Follows a configuration, or tells its first line outside.
fn follow<R: Log, O: Outside>(
    rt: &R,
    alloc: Global,
    octets: &[u8],
    out: &mut O::Out,
    outside: &mut O,
) -> Status
    ensures followed { Follows
        (record { told = O.told outside.old; printed = O.Out.taken out.old; reads = O.reads outside.old; others = O.others outside.old })
        (record { told = O.told outside.new; printed = O.Out.taken out.new; reads = O.reads outside.new; others = O.others outside.new })
        (subscribing_of octets.now) (code_of result) }
    ensures usage { result ≡ statuses.Usage → ⊥ }
    ensures read_fault { result ≡ statuses.Ended Outcome.ReadFault → Rose (O.reads outside.old) (O.reads outside.new) }
    ensures write_fault { result ≡ statuses.Ended Outcome.WriteFault
        → Rose (O.Out.faults out.old) (O.Out.faults out.new) ⊎ Rose (O.writes outside.old) (O.writes outside.new) }
    ensures outside_fault { result ≡ statuses.OutsideFault → Rose (O.others outside.old) (O.others outside.new) }
    ensures told { O.told outside.new ≡ record (O.told outside.old) {
      dialled = (O.told outside.new).dialled;
      lines = (O.told outside.new).lines;
      wires = (O.told outside.new).wires;
      moments = (O.told outside.new).moments;
    } }
{
    match read_subscribe(alloc, octets) {
        Ok(ReadSubscribe::Whole(configuration)) => dial_server(alloc, &configuration, out, outside),
        Ok(ReadSubscribe::Outside(number)) => {
            tell_cause(rt, SUBSCRIBE, octets, number);
            Status::Ended(tell_line(alloc, number, out))
        }
        Err(NoMemory) => Status::Ended(tell(out, Outcome::NoMemory, NO_MEMORY)),
    }
}

// Dials the server, and follows what it says.
fn dial_server<O: Outside>(
    alloc: Global,
    configuration: &SubscribeConfiguration,
    out: &mut O::Out,
    outside: &mut O,
) -> Status
    ensures followed { Follows
        (record { told = O.told outside.old; printed = O.Out.taken out.old; reads = O.reads outside.old; others = O.others outside.old })
        (record { told = O.told outside.new; printed = O.Out.taken out.new; reads = O.reads outside.new; others = O.others outside.new })
        (Ok (subscribing_kept configuration.now)) (code_of result) }
    ensures usage { result ≡ statuses.Usage → ⊥ }
    ensures read_fault { result ≡ statuses.Ended Outcome.ReadFault → Rose (O.reads outside.old) (O.reads outside.new) }
    ensures write_fault { result ≡ statuses.Ended Outcome.WriteFault
        → Rose (O.Out.faults out.old) (O.Out.faults out.new) ⊎ Rose (O.writes outside.old) (O.writes outside.new) }
    ensures outside_fault { result ≡ statuses.OutsideFault → Rose (O.others outside.old) (O.others outside.new) }
    ensures told { O.told outside.new ≡ record (O.told outside.old) {
      dialled = (O.told outside.new).dialled;
      lines = (O.told outside.new).lines;
      wires = (O.told outside.new).wires;
      moments = (O.told outside.new).moments;
    } }
{
    match outside.dial(configuration.server.as_str()) {
        Ok((line, wire)) => {
            Status::Ended(converse(alloc, configuration, line, wire, out, outside))
        }
        Err(OpenFault::Failed) => tell_status(out, Status::OutsideFault, OUTSIDE_FAULT),
        Err(OpenFault::NoMemory) => Status::Ended(tell(out, Outcome::NoMemory, NO_MEMORY)),
    }
}

// What is said over the two ends of a new connection, which are handed back.
fn converse<O: Outside>(
    alloc: Global,
    configuration: &SubscribeConfiguration,
    mut line: O::Line,
    mut wire: O::Wire,
    out: &mut O::Out,
    outside: &mut O,
) -> Outcome
    requires line_faults { O.Line.faults line ≡ 0 }
    requires wire_faults { O.Wire.faults wire ≡ 0 }
    requires fresh_line { IsFresh (O.Line.reads line) }
    requires fresh_wire { IsFresh (O.Wire.taken wire) }
    ensures conversed { Conversation
        (record { told = O.told outside.old; printed = O.Out.taken out.old; reads = O.reads outside.old; others = O.others outside.old })
        (record { told = O.told outside.new; printed = O.Out.taken out.new; reads = O.reads outside.new; others = O.others outside.new })
        (subscribing_kept configuration.now) result }
    ensures read_fault { result ≡ Outcome.ReadFault → Rose (O.reads outside.old) (O.reads outside.new) }
    ensures write_fault { result ≡ Outcome.WriteFault
        → Rose (O.Out.faults out.old) (O.Out.faults out.new) ⊎ Rose (O.writes outside.old) (O.writes outside.new) }
    ensures inside { result ≡ Outcome.Outside → ⊥ }
    ensures later { O.reads outside.old ≤ O.reads outside.new }
    ensures others { O.others outside.new ≡ O.others outside.old }
    ensures told { O.told outside.new ≡ record (O.told outside.old) {
      lines = (O.told outside.new).lines;
      wires = (O.told outside.new).wires;
      moments = (O.told outside.new).moments;
    } }
{
    let mut clock = outside.clock();
    let outcome = subscribe(alloc, configuration, &mut line, &mut wire, &mut clock, out);
    outside.back_line(line);
    outside.back_wire(wire);
    outside.back_clock(clock);
    outcome
}
