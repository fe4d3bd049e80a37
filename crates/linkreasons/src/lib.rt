//! Why a Discovery Proxy queries a link: the question of a subscription, or a record that a client doubted by a
//! RECONFIRM, each counted as a reason to ask (RFC 8766, 5.6; RFC 8765, 6.5).
//!
//! **Model.** `LinkReasons` is, for each link, what it is asked and its doubted rows, and for each session its reasons
//! (`AllReasons`). Crates above `hubasking` see only what each link is asked (`askings_of`). A reason is the ID of a
//! SUBSCRIBE, a link, and the question in the words of the link. `specs/Counting` says that each question of a link
//! counts just its reasons.
//!
//! **Flow.** A SUBSCRIBE whose name belongs to a link brings a `Reason` (`add`), and its end takes that away (`keep`,
//! `clear`, `end`). A RECONFIRM brings a doubted row (`doubt`, then `settle_doubt` or `take_back_doubt`), which goes
//! once the row is heard again or is gone (`refresh`). `link_reasons.rt` has these calls. `asked_links.rt` finds the
//! link, `asked_link.rt` holds its `Asker` (of `linkask`) with its doubted rows (`doubted_row.rt`), and `reasons.rt`
//! the reasons of one session. `ask` writes the question that is due.
//!
//! **Begin** with `specs/AllReasons`, then `link_reasons.rt`.
//!
//! **Change.** How reasons are counted is private: `specs/Counting` and `specs/Tallies` are for these proofs alone.
//! When a question is due is decided in `linkask`, not here. The calls that take reasons back must take no memory,
//! since `hubasking` makes them behind a call that can't be undone.
//!
//! **Stand on it**: `hubasking` alone, which keeps a `LinkReasons` beside the hub.
#![tactic(auto)]

mod asked_link;
mod asked_links;
mod doubted_row;
pub mod laws;
mod leaving;
pub mod link_reasons;
pub mod reason;
mod reasons;

pub use link_reasons::LinkReasons;
pub use reason::Reason;
pub use rrset::NoMemory;
