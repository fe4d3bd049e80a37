//! The lines of a text, and how they are taken one by one.

ghost use Rattle.std.specs.Prelude.{◌≡◌, ℕ, ◌<◌, ◌∷◌, ◌==◌, ◌&&◌, List, Option, length, position, IfOk, IfSome, nat_lt};
ghost use Rattle.push_base.specs.Cases.{is_empty};
ghost use Rattle.scripts.specs.Scripts.{lines_in, max_script};
ghost use Rattle.scripts.specs.TextLines.{TakesHeld, TakesLines, lines_taken};

use crate::read::MOST_OCTETS;
use memchr::memchr;
use push_base::NoMemory;
use std::alloc::Global;

/// What is made of the lines of a text, one by one.
pub trait TakeLines {
    /// What the lines so far have made.
    ghost Made: { Type 0 };

    /// That a draft holds it.
    ghost Holds: { Self → Self.Made → Type 0 };

    /// What a further line makes of it, where it may stand there.
    ghost line: { Self.Made → List ℕ → Option Self.Made };

    /// Takes a further line, where it may stand behind those before it.
    fn take(&mut self, alloc: Global, text: &[u8]) -> Result<bool, NoMemory>
        ensures { IfOk result (λ taken. (made : Self.Made) → Self.Holds self.old made → TakesHeld (Self.line made text.now) (Self.Holds self.new) taken) };
}

/// How far the lines of a text were taken.
#[derive(Clone, Copy)]
pub enum TakenLines {
    /// All of them; the line behind the last would have this number.
    All(usize),
    /// Those before the first line that is outside, which has this number, counted from 1.
    Outside(usize),
}

/// Takes the lines of a text, up to the first one that is outside.
pub fn take_lines<D: TakeLines>(
    alloc: Global,
    octets: &[u8],
    draft: &mut D,
) -> Result<TakenLines, NoMemory>
    ensures { IfOk result (λ taken. (made : D.Made) → D.Holds draft.old made → TakesLines (lines_taken D.line made octets.now) (D.Holds draft.new) taken) }
{
    let too_long = is_too_long(octets);
    let mut number = 1;
    let mut rest = octets;
    'lines: while !rest.is_empty() {
        let (text, after) = split_line(rest);
        if is_outside(after, too_long) {
            return Ok(TakenLines::Outside(number));
        }
        if !draft.take(alloc, text)? {
            return Ok(TakenLines::Outside(number));
        }
        number += 1;
        rest = after;
    }
    Ok(TakenLines::All(number))
}

/// Whether a script is longer than a script may be.
pub fn is_too_long(octets: &[u8]) -> bool
    ensures { result ≡ nat_lt max_script (length octets.now) }
{
    octets.len() > MOST_OCTETS
}

/// Whether the line before that rest is outside: the last one of a script that is too long.
pub fn is_outside(after: &[u8], too_long: bool) -> bool
    ensures { result ≡ (too_long && is_empty after.now) }
{
    too_long && after.is_empty()
}

/// The first line, and what follows its end.
pub fn split_line(text: &[u8]) -> (&[u8], &[u8])
    requires { 0 < length text.now }
    ensures lines { lines_in text.now ≡ result.0.now ∷ lines_in result.1.now }
    ensures shorter { length result.1.now < length text.now }
{
    match line_end(text) {
        Some(end) => (&text[..end], &text[end + 1..]),
        None => (text, &[]),
    }
}

// The place of the first LF.
#[tactic(auto, using(crate::proofs::lines::Octets::first_place, crate::proofs::lines::Octets::within))]
fn line_end(text: &[u8]) -> Option<usize>
    ensures place { result ≡ position (λ octet. octet == 10) text.now }
    ensures within { IfSome result (λ end. end < length text.now) }
{
    memchr(b'\n', text)
}
