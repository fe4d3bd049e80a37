//! The sums over the text of a script.

ghost use Rattle.std.specs.Prelude.{◌≡◌, ◌+◌, ◌<◌, ◌^◌};
ghost use Rattle.scripts.specs.Lines.{words_in};
ghost use Rattle.big_scripts.specs.Sums.{added, first_number as number_first, number_behind as number_in, sums_of_text};

use scripts::{number_of_word, split_line, split_word};

/// What texts of scripts tell, in numbers so wide that no sum overflows.
#[derive(Clone, Copy, Debug)]
pub struct Sums {
    /// The points in the last lines.
    pub points: u128,
    /// How many records were held.
    pub held: u128,
    /// The lines.
    pub lines: u128,
}

impl Sums {
    /// The sums of both.
    pub(crate) fn plus(self, more: Sums) -> Sums
        requires points { self.points + more.points < 2 ^ 128 }
        requires held { self.held + more.held < 2 ^ 128 }
        requires lines { self.lines + more.lines < 2 ^ 128 }
        ensures { result ≡ added self more }
    {
        Sums {
            points: self.points + more.points,
            held: self.held + more.held,
            lines: self.lines + more.lines,
        }
    }
}

/// The sums over a text.
pub(crate) fn sums_of(text: &[u8]) -> Sums
    ensures exact { result ≡ sums_of_text text.now }
    ensures points { result.points < 2 ^ 32 }
    ensures held { result.held < 2 ^ 96 }
    ensures lines { result.lines < 2 ^ 64 }
{
    let mut sums = Sums {
        points: 0,
        held: 0,
        lines: 0,
    };
    let mut rest = text;
    'lines: while !rest.is_empty() {
        let (line, after) = split_line(rest);
        sums = Sums {
            points: u128::from(number_behind(b"point", line)),
            held: sums.held + u128::from(number_behind(b"held", line)),
            lines: sums.lines + 1,
        };
        rest = after;
    }
    sums
}

// The number behind the first word of this name in a line, or 0.
fn number_behind(name: &[u8], line: &[u8]) -> u32
    ensures exact { result ≡ number_in name.now (words_in line.now) }
{
    let mut rest = line;
    'words: while let Some((word, after)) = split_word(rest) {
        if word == name {
            return first_number(after);
        }
        rest = after;
    }
    0
}

// The number that the first word of a text is, or 0.
fn first_number(text: &[u8]) -> u32
    ensures exact { result ≡ number_first (words_in text.now) }
{
    let number = match split_word(text) {
        Some((word, _)) => number_of_word(word),
        None => number_of_word(text),
    };
    number.unwrap_or(0)
}
