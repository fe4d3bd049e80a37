//! Names and texts as people write and read them (RFC 6763, 4.1.1 and 4.3).
//!
//! **Model.** Text is a list of octets, and harmless characters of UTF-8 stand as they are. Each other octet stands
//! behind a backslash: a dot or a backslash as it is, another by its three digits. Controls, and characters that turn
//! the direction of a text, aren't harmless, as a server could garble a terminal with them. Nor are those that look
//! like nothing, as one name could be taken for another. `specs/Shown` says what is shown, `specs/Typed` which name was
//! typed, and `specs/Addresses` how an address is written.
//!
//! **Flow.** For output, `push_name` (`naming.rt`) appends a name, label by label, each with a dot behind it. It hands
//! each label to `push_shown` (`characters.rt`), which appends what people read. `Dots` says whether a dot stands
//! behind a backslash. `address_text` (`address.rt`) gives the text of four or sixteen octets. For input, `typed_name`
//! (`typing.rt`) makes a name of what was typed.
//!
//! **Begin** with `specs/Shown`, then `characters.rt`.
//!
//! **Change.** How text is walked through is private, and may change below its clauses. Which characters are harmless
//! is said in `specs/Shown`, and the code follows it. Whoever lets a further one through checks first that it can't
//! break a line. Lines are built of this text, and what writes JSON relies on it having no controls.
//!
//! **Stand on it**: `pushctl_commands` (writes names, texts and addresses into its lines), `pushctl` (reads the names
//! on its command line).
#![tactic(auto)]

mod address;
mod characters;
pub mod laws;
mod naming;
mod typing;

pub use address::address_text;
pub use characters::{Dots, push_shown};
pub use naming::push_name;
pub use push_base::NoMemory;
pub use typing::typed_name;
