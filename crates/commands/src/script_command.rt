//! What is done with a script: it is run, or only read.

ghost use Rattle.std.specs.Prelude.{◌≡◌, ◌+◌, ◌≤◌, ◌⊎◌, ℕ, List, IfSome};
ghost use Rattle.push_base.specs.Causes.{Rose};
ghost use Rattle.scripts.specs.Scripts.{max_script};
ghost use Rattle.scripts.specs.Sources.{front_read, Gave, LeftBehind, LostAtMost};
ghost use Rattle.scripts.specs.Outcomes.{status_of, HasRead};
ghost use Rattle.scripts.specs.Reply.{Answers};
ghost use Rattle.push_base.specs.Written.{Took};
ghost use Rattle.replay.specs.TextWords.{by_notices};
ghost use Rattle.push_outside.specs.Outside.{Adds};
ghost use Rattle.commands.specs.Runs.{GivesSourceBack, MayHaveGiven, UsesAtMost, UsesWhole};
ghost use Rattle.commands.specs.ScriptCommands.{task_reply};

use push_base::{Sink, Source};
use push_outside::{OpenFault, Outside};
use replay::{check, replay};
use scripts::{NO_MEMORY, Outcome, READ_FAULT, tell};
use std::alloc::Global;

/// What is done with a script.
#[derive(Clone, Copy, Debug, PartialEq, Eq)]
pub enum ScriptCommand {
    /// It is run, and what it prints is told.
    Replay,
    /// It is only read, and told is how many lines it has.
    Check,
}

/// Does the task on the script that a source gives.
pub fn on_source<S: Source, K: Sink>(
    alloc: Global,
    task: ScriptCommand,
    source: &mut S,
    sink: &mut K,
) -> Outcome
    ensures replied { IfSome (S.left source.old) (λ octets. Took (K.taken sink.old) (K.taken sink.new)
        (Answers (Rose (S.faults source.old) (S.faults source.new)) (task_reply by_notices task (front_read octets)) (status_of result))) }
    ensures rest { HasRead (status_of result) → LeftBehind (S.left source.old) (S.left source.new) }
    ensures most { LostAtMost (max_script + 1) (S.left source.old) (S.left source.new) }
    ensures read_fault { result ≡ Outcome.ReadFault → Rose (S.faults source.old) (S.faults source.new) }
    ensures write_fault { result ≡ Outcome.WriteFault → Rose (K.faults sink.old) (K.faults sink.new) }
    ensures read_later { S.faults source.old ≤ S.faults source.new }
    ensures gave { Gave (S.left source.old) (S.left source.new) (S.given source.old) (S.given source.new) }
{
    match task {
        ScriptCommand::Replay => replay(alloc, source, sink).outcome,
        ScriptCommand::Check => check(alloc, source, sink),
    }
}

/// Does the task on the script at a path, and hands its source back.
pub fn at_path<O: Outside>(
    alloc: Global,
    task: ScriptCommand,
    path: &str,
    out: &mut O::Out,
    outside: &mut O,
) -> Outcome
    ensures replied { (octets : List ℕ) → MayHaveGiven (O.told outside.old).used (O.told outside.new).used octets →
        Took (O.Out.taken out.old) (O.Out.taken out.new)
        (Answers (Rose (O.reads outside.old) (O.reads outside.new)) (task_reply by_notices task (front_read octets)) (status_of result)) }
    ensures read_fault { result ≡ Outcome.ReadFault → Rose (O.reads outside.old) (O.reads outside.new) }
    ensures write_fault { result ≡ Outcome.WriteFault → Rose (O.Out.faults out.old) (O.Out.faults out.new) }
    ensures rest { HasRead (status_of result) → UsesWhole (O.told outside.old).used (O.told outside.new).used }
    ensures used { UsesAtMost (O.told outside.old).used (O.told outside.new).used }
    ensures returned { GivesSourceBack path.now (O.told outside.old).opened (O.told outside.new).opened (O.told outside.old).used (O.told outside.new).used (O.reads outside.old) (O.reads outside.new) }
    ensures opened { Adds (O.told outside.old).opened (O.told outside.new).opened path.now
        ⊎ (((O.told outside.new).opened ≡ (O.told outside.old).opened) × ((result ≡ Outcome.NoMemory) ⊎ (result ≡ Outcome.WriteFault))) }
    ensures told { O.told outside.new ≡ record (O.told outside.old) { opened = (O.told outside.new).opened; used = (O.told outside.new).used } }
{
    match outside.open(path) {
        Ok(mut source) => {
            let outcome = on_source(alloc, task, &mut source, out);
            outside.back_in(source);
            outcome
        }
        Err(OpenFault::Failed) => tell(out, Outcome::ReadFault, READ_FAULT),
        Err(OpenFault::NoMemory) => tell(out, Outcome::NoMemory, NO_MEMORY),
    }
}
