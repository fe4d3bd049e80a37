//! The last text of a program, and what it writes at a fault.

ghost use Rattle.std.specs.Prelude.{◌≡◌, ◌⊎◌, ◌≤◌};
ghost use Rattle.std.specs.Io.KnownBytes.{append_known};
ghost use Rattle.push_base.specs.Causes.{Rose};
ghost use Rattle.push_base.specs.Written.{IsFrontOf, Took};

use crate::outcome::Outcome;
use push_base::{Failed, Sink, write_all};

/// What is written where a read of the source failed.
pub const READ_FAULT: &[u8] = b"read fault\n";

/// What is written, perhaps behind a front of the text, where memory ran out.
pub const NO_MEMORY: &[u8] = b"no memory\n";

/// Writes the last text of a run, which a failed write changes to a write fault.
pub fn tell<K: Sink>(sink: &mut K, outcome: Outcome, text: &[u8]) -> Outcome
    ensures told { Took (K.taken sink.old) (K.taken sink.new)
        (λ wrote. ((result ≡ outcome) × (wrote ≡ text.now)) ⊎ ((result ≡ Outcome.WriteFault) × IsFrontOf wrote text.now)) }
    ensures cause { (result ≡ outcome) ⊎ ((result ≡ Outcome.WriteFault) × Rose (K.faults sink.old) (K.faults sink.new)) }
    ensures later { K.faults sink.old ≤ K.faults sink.new }
    ensures whole { (K.taken sink.new ≡ append_known (K.taken sink.old) text.now) ⊎ Rose (K.faults sink.old) (K.faults sink.new) }
{
    match write_all(sink, text) {
        Ok(()) => outcome,
        Err(Failed) => Outcome::WriteFault,
    }
}
