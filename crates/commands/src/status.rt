//! How a run ends, and the number that tells it.

ghost use Rattle.std.specs.Prelude.{◌≡◌, ◌⊎◌};
ghost use Rattle.push_base.specs.Causes.{Rose};
ghost use Rattle.push_base.specs.Written.{IsFrontOf, Took};
ghost use Rattle.commands.specs.declared.status.Status.{Status};

use push_base::{Failed, Sink, write_all};
use scripts::Outcome;

/// What is written where something outside failed.
pub const OUTSIDE_FAULT: &[u8] = b"outside fault\n";

/// How a run ends.
#[derive(Clone, Copy, Debug, PartialEq, Eq)]
pub enum Status {
    /// The words of the command line aren't as they should be: status 1.
    Usage,
    /// Something outside failed, or wasn't reached: status 6.
    OutsideFault,
    /// The command that they name ended so.
    Ended(Outcome),
}

impl Status {
    ghost use Rattle.commands.specs.Status.{code_of};

    /// The exit status of the program.
    pub fn code(self) -> u8
        ensures { result ≡ code_of self }
    {
        match self {
            Status::Usage => 1,
            Status::OutsideFault => 6,
            Status::Ended(Outcome::Done) => 0,
            Status::Ended(Outcome::Outside) => 2,
            Status::Ended(Outcome::ReadFault) => 3,
            Status::Ended(Outcome::NoMemory) => 4,
            Status::Ended(Outcome::WriteFault) => 5,
        }
    }
}

/// Writes the text of a status.
pub fn tell_status<K: Sink>(out: &mut K, status: Status, text: &[u8]) -> Status
    ensures told { Took (K.taken out.old) (K.taken out.new)
        (λ wrote. ((result ≡ status) × (wrote ≡ text.now)) ⊎ ((result ≡ Status.Ended Outcome.WriteFault) × IsFrontOf wrote text.now)) }
    ensures cause { (result ≡ status) ⊎ ((result ≡ Status.Ended Outcome.WriteFault) × Rose (K.faults out.old) (K.faults out.new)) }
{
    match write_all(out, text) {
        Ok(()) => status,
        Err(Failed) => Status::Ended(Outcome::WriteFault),
    }
}
