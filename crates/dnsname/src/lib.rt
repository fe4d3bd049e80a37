//! Domain names: their octets, their text, and reading them from messages (RFC 1035, 2.3, 3.1, 4.1.4 and 5.1).
//!
//! **Model.** A name is a list of labels, and a label is a list of 1 to 63 octets; spelled, a name takes at most 255
//! octets (`Names.IsName`). A `Name` shows its labels in proofs and holds its octets in memory. Two names are the same
//! but for upper and lower case (`same_name`), and what ends in what is said of whole labels (`ends_in`).
//!
//! **Flow.** `Name::read` reads a name of a message, and follows compression pointers (`message.rt`, `part.rt`).
//! `Name::read_up_to` does so before an end, and `Name::read_plain` reads without pointers (`plain.rt`). Each answers
//! with the name and where it ends, or with the first fault in reading order. `text.rt` reads a name that people
//! typed, and `print.rt` writes one. `comparing.rt` puts octets in order, `as_key.rt` makes names keys of maps, and
//! `suffix.rt` asks for the last labels.
//!
//! **Begin** with `specs/Names`, then `specs/Spelling` for messages and `specs/Text` for what people write; then
//! `name.rt`, which has all public calls of a name.
//!
//! **Change.** `specs/Reading` is a function that reads from left to right; `specs/Spelling` says the same as a
//! relation, and `laws.rt` ties the two. How octets are held and compared is private to this crate. The order of names
//! is what all tables above stand in, so its words stay. A reading counts its steps (`specs/NameSteps`), and what is
//! promised of them must not rise.
//!
//! **Stand on it**: `rrset` (owners and names in rdata), `nametable` (rows by name), `dnswire` (names of messages), and
//! through these all above.
#![tactic(auto)]

mod as_key;
mod comparing;
pub mod laws;
mod message;
pub mod name;
mod part;
mod plain;
mod print;
mod room;
mod suffix;
mod text;

pub use comparing::{compare_octets, compare_with_lower};
pub use name::{Name, NameFault, TextFault};
pub use part::MAX_NAME;
pub use plain::plain_name_end;
pub use push_base::NoMemory;
pub use suffix::spelled_ends_in;
