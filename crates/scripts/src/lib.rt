//! The language of `dnspush replay`: a text of lines that makes zones and links, lets clients and peers connect, and
//! sends updates, datagrams and octets. This crate reads it; `replay` runs it.
//!
//! **Model.** A script is a list of lines. `specs/Lines` says what a line may say (`line_of`), and `specs/Scripts`
//! which list of lines is a script (`may_follow`). `specs/WholeLines` and `specs/WholeScripts` do the same for scripts
//! with a second hub. What the program gets is a `Script`, whose events tell clients and links by numbers, or the
//! number of the first line that is outside.
//!
//! **Flow.** `read.rt` reads a source to its end. `read_whole_script` (`whole_script.rt`) first collects the words of
//! all clients (`named.rt`, `all_words.rt`), since no peer may have such a word. Then it takes line by line
//! (`text_lines.rt`): `whole_line.rt` and `line.rt` parse one, with `line_words.rt` for names and numbers and
//! `client_readers.rt` for lines of clients; `script.rt` judges whether it may stand there. `event.rt` turns words into
//! numbers, `head_homes.rt` makes the zones and links. `outcome.rt`, `last_text.rt` and `words.rt` have what programs
//! print at their end.
//!
//! **Begin** with docs/SCRIPTS.md, then `specs/Lines`, then `line.rt`.
//!
//! **Change.** How words are found is private (`places.rt`, `client_list.rt`). A further line is a list of its own in
//! docs/ARCHITECTURE.md. The head's lines are those of a server's configuration too. `Outcome` and the texts in
//! `last_text.rt` are what users' scripts test.
//!
//! **Stand on it**: `replay`, `configurations` (the same head, the same way to take lines), `subscriber` (words),
//! `commands` (outcomes).
#![tactic(auto)]

mod all_words;
mod client_list;
mod client_readers;
mod clients;
pub mod event;
mod head_homes;
mod last_text;
pub mod line;
pub mod line_words;
mod named;
mod outcome;
mod places;
mod read;
mod script;
mod text_lines;
mod whole_line;
mod whole_script;
mod words;

ghost use Rattle.std.specs.Prelude.{◌≡◌};
ghost use Rattle.scripts.specs.Lines.{longest_word, max_octets_passed, max_rcode, max_u16, max_u32, most_digits};
ghost use Rattle.scripts.specs.Scripts.{max_script};

pub use client_readers::question_of;
pub use clients::KnownClient;
pub use last_text::{NO_MEMORY, READ_FAULT, tell};
pub use line::{Line, one_word, read_line, split_word, three_words, two_words};
pub use line_words::{number_from, number_of_word, number_up_to, plain_word};
pub use outcome::Outcome;
pub use read::{ReadError, read_script};
pub use script::{Draft, Script};
pub use text_lines::{TakeLines, TakenLines, split_line, take_lines};
pub use whole_line::{CarryLine, WholeLine, read_whole_line};
pub use whole_script::{ReadWhole, Turn, WholeScript, read_whole_script};
pub use words::{close_words, octets_text};

/// The limits of scripts: octets of a script and of a piece, letters of a word, digits of hexadecimal, and numbers.
pub fn limit_rows()
    ensures script { max_script ≡ 16777216 }
    ensures passed { max_octets_passed ≡ 1048576 }
    ensures word { longest_word ≡ 32 }
    ensures digits { most_digits ≡ 131074 }
    ensures rcode { max_rcode ≡ 15 }
    ensures sixteen_bits { max_u16 ≡ 65535 }
    ensures thirty_two_bits { max_u32 ≡ 4294967295 }
{}
