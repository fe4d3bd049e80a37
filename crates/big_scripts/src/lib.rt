//! A load that anyone can repeat: large scripts made from a number, run through the simulator, and told as one line of
//! sums. `dnspush big N` is this crate.
//!
//! **Model.** `specs/Scripts` says which scripts belong to a number: rounds of an update and a datagram, at most
//! `MOST_ROUNDS` in one script. `specs/Sums` says what the sums over a text are: the last point, the records held, the
//! lines. `specs/Replies` says which line is written for a number.
//!
//! **Flow.** `tell_sums` (`running.rt`) makes the scripts of a number one after the other (`rounds.rt`), lets `replay`
//! print the text of each into memory, counts in it (`sums.rt`), and writes the sum of all. Each is proved to be a
//! script (`laws.rt`), so none can be refused.
//!
//! **Begin** with `specs/Scripts`, then `running.rt`.
//!
//! **Change.** All but `tell_sums` and the three definitions is private. The line that is written is the same for a
//! number on every machine, so that two builds can be compared by it: whoever changes a round changes that line, and
//! the rows of `scripts/check-program` with it. Nothing here measures time.
//!
//! **Stand on it**: `commands` alone. The scripts `updates`, `hearings` and `turnover` make other loads, as texts.
#![tactic(auto)]

pub mod laws;
mod rounds;
mod running;
mod sums;

ghost use Rattle.std.specs.Prelude.{◌≡◌};
ghost use Rattle.big_scripts.specs.Scripts.{most_rounds};

pub use running::tell_sums;
pub use sums::Sums;

/// The limit of large scripts: their rounds.
pub fn limit_rows()
    ensures rounds { most_rounds ≡ 1000 }
{}
