//! A whole text is handed to a sink.

ghost use Rattle.std.specs.Prelude.{◌≡◌, OnOk, OnErr};
ghost use Rattle.std.specs.Io.KnownBytes.{append_known};
ghost use Rattle.push_base.specs.Causes.{HasCause};
ghost use Rattle.push_base.specs.Written.{IsFrontOf, Took};

use crate::{Failed, Sink};

/// Hands the whole text to the sink, in as many pieces as it takes.
pub fn write_all<K: Sink>(sink: &mut K, text: &[u8]) -> Result<(), Failed>
    ensures whole { OnOk result (K.taken sink.new ≡ append_known (K.taken sink.old) text.now) }
    ensures front { OnErr result (Took (K.taken sink.old) (K.taken sink.new) (λ wrote. IsFrontOf wrote text.now)) }
    ensures cause { HasCause (K.faults sink.old) (K.faults sink.new) result }
{
    let mut done = 0;
    while done < text.len() {
        let count = sink.write(&text[done..])?;
        if count == 0 {
            return Err(Failed);
        }
        done += count;
    }
    Ok(())
}
