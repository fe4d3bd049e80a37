//! The scripts of a number are run, and the sums over their texts are told.

ghost use Rattle.std.specs.Prelude.{◌≡◌, ◌≤◌, ◌<◌, ◌^◌, ◌++◌, ◌∷◌, [], codes, decimal, IfOk, string_bytes};
ghost use Rattle.push_base.specs.Causes.{Rose};
ghost use Rattle.scripts.specs.Outcomes.{status_of};
ghost use Rattle.scripts.specs.Reply.{Answers};
ghost use Rattle.push_base.specs.Written.{Took};
ghost use Rattle.scripts.specs.Words.{line};
ghost use Rattle.replay.specs.TextWords.{by_notices};
ghost use Rattle.big_scripts.specs.Scripts.{most_rounds};
ghost use Rattle.big_scripts.specs.Replies.{reply_to_number, sums_of as sums_of_number, sums_of_script, summary_of};

use crate::rounds::{MOST_ROUNDS, script_of};
use crate::sums::{Sums, sums_of};
use push_base::{MemSink, MemSource, NoMemory, Sink};
use replay::replay;
use scripts::{NO_MEMORY, Outcome, tell};
use std::alloc::Global;

// For so many octets of a text there is room from the start.
const TEXT_ROOM: usize = 65_536;

/// Runs the scripts of a number, one behind another, and writes the line with the sums over their texts. Those of 0 are
/// those of 1.
pub fn tell_sums<K: Sink>(alloc: Global, number: u32, sink: &mut K) -> Outcome
    ensures replied { Took (K.taken sink.old) (K.taken sink.new) (Answers ⊥ (reply_to_number by_notices number) (status_of result)) }
    ensures write_fault { result ≡ Outcome.WriteFault → Rose (K.faults sink.old) (K.faults sink.new) }
    ensures later { K.faults sink.old ≤ K.faults sink.new }
{
    match summary(alloc, number) {
        Ok(line) => tell(sink, Outcome::Done, line.as_bytes()),
        Err(NoMemory) => tell(sink, Outcome::NoMemory, NO_MEMORY),
    }
}

// The line with the sums.
fn summary(alloc: Global, number: u32) -> Result<String, NoMemory>
    ensures { IfOk result (λ text. string_bytes text ≡ line (summary_of number (sums_of_number by_notices number))) }
{
    let Sums {
        points,
        held,
        lines,
    } = sums_of_scripts(alloc, number)?;
    line_of(alloc, number, points, held, lines)
}

// The line with these numbers.
fn line_of(
    alloc: Global,
    number: u32,
    points: u128,
    held: u128,
    lines: u128,
) -> Result<String, NoMemory>
    ensures { IfOk result (λ text. string_bytes text ≡
        codes "big " ++ (decimal number ++ (codes " points " ++ (decimal points ++ (codes " held " ++ (decimal held ++ (codes " lines " ++ (decimal lines ++ 10 ∷ [])))))))) }
{
    format!(in alloc; "big {number} points {points} held {held} lines {lines}\n")
}

// The sums over the texts of the scripts of a number.
fn sums_of_scripts(alloc: Global, number: u32) -> Result<Sums, NoMemory>
    ensures { IfOk result (λ sums. sums ≡ sums_of_number by_notices number) }
{
    let before = number.saturating_sub(1);
    let mut sums = Sums {
        points: 0,
        held: 0,
        lines: 0,
    };
    'scripts: for _ in 0..before / MOST_ROUNDS {
        sums = sums.plus(sums_of_rounds(alloc, MOST_ROUNDS)?);
    }
    Ok(sums.plus(sums_of_rounds(alloc, before % MOST_ROUNDS + 1)?))
}

// Runs the script with so many rounds in memory, and sums up its text, whatever that is (`laws::each_is_a_script` says that
// it is a script's). No call of a source or a sink in memory is to fail here, so what fails does for want of memory.
fn sums_of_rounds(alloc: Global, rounds: u32) -> Result<Sums, NoMemory>
    requires { rounds ≤ most_rounds }
    ensures exact { IfOk result (λ sums. sums ≡ sums_of_script by_notices rounds) }
    ensures points { IfOk result (λ sums. sums.points < 2 ^ 32) }
    ensures held { IfOk result (λ sums. sums.held < 2 ^ 96) }
    ensures lines { IfOk result (λ sums. sums.lines < 2 ^ 64) }
{
    let script = script_of(alloc, rounds)?;
    let mut source = MemSource::new(vec![in alloc; script]?, Vec::new(alloc));
    let mut sink = MemSink::new(alloc, Vec::new(alloc), Vec::new(alloc), TEXT_ROOM)?;
    match replay(alloc, &mut source, &mut sink).outcome {
        Outcome::Done | Outcome::Outside => Ok(sums_of(sink.taken())),
        Outcome::ReadFault | Outcome::NoMemory | Outcome::WriteFault => Err(NoMemory),
    }
}
