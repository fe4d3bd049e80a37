//! A script is read, run, and its text written.

ghost use Rattle.std.specs.Prelude.{◌≡◌, ◌+◌, ◌≤◌, None, IfSome};
ghost use Rattle.scripts.specs.Scripts.{max_script};
ghost use Rattle.push_base.specs.Causes.{Rose};
ghost use Rattle.scripts.specs.Reply.{Answers};
ghost use Rattle.push_base.specs.Written.{Took};
ghost use Rattle.scripts.specs.Sources.{Gave, LeftBehind, LostAtMost, front_read};
ghost use Rattle.scripts.specs.Outcomes.{HasRead, status_of};
ghost use Rattle.replay.specs.TextWords.{by_notices};
ghost use Rattle.replay.specs.WholeTexts.{whole_reply};
ghost use Rattle.replay.specs.KeptEnds.{AreEnds, EndsWhenDone, ends_with};

use crate::ends::Ends;
use crate::reply::{Reply, reply_to};
use push_base::{NoMemory, Sink, Source};
use scripts::{NO_MEMORY, Outcome, READ_FAULT, ReadError, read_script, tell};
use std::alloc::Global;

/// How a replay ended, and what the script left.
#[derive(Drop)]
pub struct Replayed {
    /// How it ended.
    pub outcome: Outcome,
    /// The hubs and the clients, where the text of the script was written.
    pub ends: Option<Ends>,
}

/// Reads a script and writes what it is answered, and hands back the hubs and the clients that ran it.
pub fn replay<S: Source, K: Sink>(alloc: Global, source: &mut S, sink: &mut K) -> Replayed
    ensures replied { IfSome (S.left source.old) (λ octets. Took (K.taken sink.old) (K.taken sink.new)
        (Answers (Rose (S.faults source.old) (S.faults source.new)) (whole_reply by_notices (front_read octets)) (status_of result.outcome))) }
    // What is left of the run, exactly with status 0.
    ensures there { EndsWhenDone result.outcome result.ends }
    ensures ends { IfSome (S.left source.old) (λ octets. IfSome result.ends (AreEnds (front_read octets))) }

    // Once it was read, only what is behind a script too long is left.
    ensures rest { HasRead (status_of result.outcome) → LeftBehind (S.left source.old) (S.left source.new) }
    ensures most { LostAtMost (max_script + 1) (S.left source.old) (S.left source.new) }

    // Which faults had a cause.
    ensures read_fault { result.outcome ≡ Outcome.ReadFault → Rose (S.faults source.old) (S.faults source.new) }
    ensures write_fault { result.outcome ≡ Outcome.WriteFault → Rose (K.faults sink.old) (K.faults sink.new) }
    ensures read_later { S.faults source.old ≤ S.faults source.new }
    ensures write_later { K.faults sink.old ≤ K.faults sink.new }
    ensures gave { Gave (S.left source.old) (S.left source.new) (S.given source.old) (S.given source.new) }
{
    let script = match read_script(alloc, source) {
        Ok(script) => script,
        Err(ReadError::Failed) => return without_ends(tell(sink, Outcome::ReadFault, READ_FAULT)),
        Err(ReadError::NoMemory) => return without_ends(tell(sink, Outcome::NoMemory, NO_MEMORY)),
    };
    match reply_to(alloc, script) {
        Ok(
            Reply {
                outcome,
                text,
                ends,
            },
        ) => with_ends(tell(sink, outcome, text.as_bytes()), ends),
        Err(NoMemory) => without_ends(tell(sink, Outcome::NoMemory, NO_MEMORY)),
    }
}

// A replay that ended so, with what the script left where its text was written.
fn with_ends(outcome: Outcome, ends: Option<Ends>) -> Replayed
    ensures outcome { result.outcome ≡ outcome }
    ensures ends { result.ends ≡ ends_with outcome ends }
{
    match outcome {
        Outcome::Done => Replayed { outcome, ends },
        _ => without_ends(outcome),
    }
}

// A replay that ended so, and left nothing.
fn without_ends(outcome: Outcome) -> Replayed
    ensures outcome { result.outcome ≡ outcome }
    ensures ends { result.ends ≡ None }
{
    Replayed {
        outcome,
        ends: None,
    }
}
