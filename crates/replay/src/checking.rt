//! A script is read, and told is how many lines it has, or which one is outside.

ghost use Rattle.std.specs.Prelude.{◌≡◌, ◌⊎◌, ◌+◌, ◌≤◌, IfOk, IfSome, string_bytes};
ghost use Rattle.push_base.specs.Causes.{Rose};
ghost use Rattle.scripts.specs.Scripts.{max_script};
ghost use Rattle.scripts.specs.Reply.{Answers};
ghost use Rattle.push_base.specs.Written.{Took};
ghost use Rattle.replay.specs.KeptChecks.{checked_of};
ghost use Rattle.scripts.specs.Sources.{Gave, LeftBehind, LostAtMost, front_read};
ghost use Rattle.scripts.specs.Outcomes.{HasRead, status_of};
ghost use Rattle.replay.specs.Checks.{good_text};
ghost use Rattle.replay.specs.WholeTexts.{whole_checked};

use crate::reply::line_text;
use push_base::{NoMemory, Sink, Source};
use scripts::{
    NO_MEMORY, Outcome, READ_FAULT, ReadError, ReadWhole, read_script, read_whole_script, tell,
};
use std::alloc::Global;

/// Reads a script as `replay` does, runs nothing, and writes how many lines it has, or the number of the first line outside.
pub fn check<S: Source, K: Sink>(alloc: Global, source: &mut S, sink: &mut K) -> Outcome
    ensures replied { IfSome (S.left source.old) (λ octets. Took (K.taken sink.old) (K.taken sink.new)
        (Answers (Rose (S.faults source.old) (S.faults source.new)) (whole_checked (front_read octets)) (status_of result))) }

    // Once it was read, only what is behind a script too long is left.
    ensures rest { HasRead (status_of result) → LeftBehind (S.left source.old) (S.left source.new) }
    ensures most { LostAtMost (max_script + 1) (S.left source.old) (S.left source.new) }

    // Which faults had a cause.
    ensures read_fault { result ≡ Outcome.ReadFault → Rose (S.faults source.old) (S.faults source.new) }
    ensures write_fault { result ≡ Outcome.WriteFault → Rose (K.faults sink.old) (K.faults sink.new) }
    ensures read_later { S.faults source.old ≤ S.faults source.new }
    ensures write_later { K.faults sink.old ≤ K.faults sink.new }
    ensures gave { Gave (S.left source.old) (S.left source.new) (S.given source.old) (S.given source.new) }
{
    let script = match read_script(alloc, source) {
        Ok(script) => script,
        Err(ReadError::Failed) => return tell(sink, Outcome::ReadFault, READ_FAULT),
        Err(ReadError::NoMemory) => return tell(sink, Outcome::NoMemory, NO_MEMORY),
    };
    match check_reply(alloc, &script) {
        Ok(Checked { outcome, text }) => tell(sink, outcome, text.as_bytes()),
        Err(NoMemory) => tell(sink, Outcome::NoMemory, NO_MEMORY),
    }
}

// How a check ends if all goes well, and the text that is then written.
#[derive(Drop)]
struct Checked {
    outcome: Outcome,
    text: String,
}

// How many lines the script has, or the number of the first line outside. Nothing is run.
fn check_reply(alloc: Global, octets: &[u8]) -> Result<Checked, NoMemory>
    ensures exact { IfOk result (λ reply. checked_of reply ≡ whole_checked octets.now) }
    ensures outcome { IfOk result (λ reply. (reply.outcome ≡ Outcome.Done) ⊎ (reply.outcome ≡ Outcome.Outside)) }
{
    match read_whole_script(alloc, octets)? {
        ReadWhole::Whole(script) => {
            let text = count_text(alloc, script.near.lines)?;
            Ok(Checked {
                outcome: Outcome::Done,
                text,
            })
        }
        ReadWhole::Outside(number) => {
            let text = line_text(alloc, number)?;
            Ok(Checked {
                outcome: Outcome::Outside,
                text,
            })
        }
    }
}

// What is written of a script with so many lines.
fn count_text(alloc: Global, lines: usize) -> Result<String, NoMemory>
    ensures { IfOk result (λ text. string_bytes text ≡ good_text lines) }
{
    format!(in alloc; "good {lines}\n")
}
