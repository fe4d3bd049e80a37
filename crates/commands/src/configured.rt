//! Configurations: the text at a path, and what is told where a line of it is outside.

ghost use Rattle.std.specs.Prelude.{◌≡◌, ◌⊎◌, ◌≤◌, ℕ, List, OnOk, IfOk, IsErrOf, string_bytes};
ghost use Rattle.push_base.specs.Causes.{Rose};
ghost use Rattle.push_outside.specs.Outside.{Adds, AddsSome};
ghost use Rattle.scripts.specs.Sources.{front_read};
ghost use Rattle.replay.specs.ScriptTexts.{outside_text};
ghost use Rattle.commands.specs.Runs.{GivesSourceBack, MayHaveGiven, UsesAtMost, UsesWhole};
ghost use Rattle.commands.specs.Observed.{TellsNumber};

use push_base::{NoMemory, Sink};
use push_outside::{OpenFault, Outside};
use scripts::{NO_MEMORY, Outcome, ReadError, read_script, tell};
use std::alloc::Global;

/// The octets at a path, whose source is handed back.
pub fn read_path<O: Outside>(
    alloc: Global,
    path: &str,
    outside: &mut O,
) -> Result<Vec<u8>, ReadError>
    ensures octets { (octets : List ℕ) → MayHaveGiven (O.told outside.old).used (O.told outside.new).used octets →
        IfOk result (λ read. read.items ≡ front_read octets) }
    ensures failed { IsErrOf result ReadError.Failed → Rose (O.reads outside.old) (O.reads outside.new) }
    ensures later { O.reads outside.old ≤ O.reads outside.new }
    ensures writes { O.writes outside.new ≡ O.writes outside.old }
    ensures others { O.others outside.new ≡ O.others outside.old }
    ensures rest { OnOk result (UsesWhole (O.told outside.old).used (O.told outside.new).used) }
    ensures used { UsesAtMost (O.told outside.old).used (O.told outside.new).used }
    ensures back { OnOk result (Adds (O.told outside.old).opened (O.told outside.new).opened path.now × AddsSome (O.told outside.old).used (O.told outside.new).used 1) }
    ensures returned { GivesSourceBack path.now (O.told outside.old).opened (O.told outside.new).opened (O.told outside.old).used (O.told outside.new).used (O.reads outside.old) (O.reads outside.new) }
    ensures opened { Adds (O.told outside.old).opened (O.told outside.new).opened path.now
        ⊎ (((O.told outside.new).opened ≡ (O.told outside.old).opened) × IsErrOf result ReadError.NoMemory) }
    ensures told { O.told outside.new ≡ record (O.told outside.old) { opened = (O.told outside.new).opened; used = (O.told outside.new).used } }
{
    match outside.open(path) {
        Ok(mut source) => {
            let read = read_script(alloc, &mut source);
            outside.back_in(source);
            read
        }
        Err(OpenFault::Failed) => Err(ReadError::Failed),
        Err(OpenFault::NoMemory) => Err(ReadError::NoMemory),
    }
}

/// Tells the first line outside.
pub fn tell_line<K: Sink>(alloc: Global, number: usize, out: &mut K) -> Outcome
    ensures told { TellsNumber (K.taken out.old) (K.taken out.new) number result }
    ensures write_fault { result ≡ Outcome.WriteFault → Rose (K.faults out.old) (K.faults out.new) }
{
    match line_text(alloc, number) {
        Ok(text) => tell(out, Outcome::Outside, text.as_bytes()),
        Err(NoMemory) => tell(out, Outcome::NoMemory, NO_MEMORY),
    }
}

// What is written where that line is the first outside.
fn line_text(alloc: Global, number: usize) -> Result<String, NoMemory>
    ensures { IfOk result (λ text. string_bytes text ≡ outside_text number) }
{
    format!(in alloc; "line {number}\n")
}
