//! What a link is asked, and when (RFC 6762, 5.2 and 7.1).
//!
//! **Model.** An `Asker` is a list of questions in the order of names and kinds. Of each it keeps the number of
//! reasons, how often it was asked, and when last (`KeptAsks`). It keeps a bound as well: before that moment the
//! question is not due (`specs/Bounds`). `specs/Asking` says without bounds when a question is due, and which datagram
//! asks it. A question is due at once, then after a second, then after twice the pause each time, an hour at most. It
//! is due sooner where a record that answers it grows old.
//!
//! **Flow.** `asker.rt` has the calls. `want`, `unwant` and `ask_anew` change the questions and their reasons
//! (`entries.rt`). `heard` lowers the bounds of questions whose records a link has said (`refresh.rt`). `next` looks
//! for the first question that is due. A bound that has come is made exact from the rows of the name (`asks.rt`). Then
//! `known.rt` writes the datagram, with the known answers that have at least half their TTL left.
//!
//! **Begin** with `specs/Asking` beside RFC 6762, 5.2, then `specs/Bounds`, then `asker.rt`. `specs/Reasons` says why a
//! link is asked; the code for it is in `linkreasons`.
//!
//! **Change.** How entries are searched, and how bounds are made exact, is private. `next` and `is_due` in
//! `specs/Asking` are what users see, so their words stay. `AreBounds` must hold after each step of a link, or a due
//! question could be missed. By `AskedOnce`, asking until none is due sends each due question once.
//!
//! **Stand on it**: `linkreasons` (an `Asker` for each link, and the reasons for its questions), `hubasking` (what a
//! link is asked behind each call), `replay` (cites the laws of the schedule where a script asks), and the crates above
//! these.
#![tactic(auto)]

pub mod asker;
pub mod asks;
mod entries;
mod known;
pub mod laws;
mod refresh;

ghost use Rattle.std.specs.Prelude.{◌≡◌, ◌++◌, [], ◌∷◌, map, codes};
ghost use Rattle.linkask.specs.Asking.{pause_after};
ghost use Rattle.linkask.specs.Worked.{ask, asks_at, confirms, plain, question, says, sent_after, with_known};

pub use asker::Asker;
pub use rrset::NoMemory;

/// Examples of pauses: a second, then twice as long each time, at most an hour.
pub fn worked_pauses()
    ensures { map pause_after (1 ∷ 2 ∷ 3 ∷ 12 ∷ 13 ∷ 100 ∷ []) ≡ 1000 ∷ 2000 ∷ 4000 ∷ 2048000 ∷ 3600000 ∷ 3600000 ∷ [] }
{}

/// Examples of what is sent.
pub fn worked_asks()
    // A question is asked at once, and again after a second, but not before; what is known is told.
    ensures begins { sent_after (ask (question 1 1 ∷ []) ∷ asks_at 0 ∷ asks_at 0 ∷ asks_at 999 ∷ asks_at 1000 ∷ says 1500 120 1 ∷ asks_at 2999 ∷ asks_at 3000 ∷ [])
        ≡ (plain ∷ []) ∷ [] ∷ [] ∷ (plain ∷ []) ∷ [] ∷ (with_known (codes "00000076") ∷ []) ∷ [] }
    // The pauses grow; less than half of the time left is told no more; at 80 hundredths of its TTL a record is asked for anew.
    ensures goes_on { sent_after (ask (question 1 1 ∷ []) ∷ asks_at 0 ∷ asks_at 1000 ∷ says 1500 120 1 ∷ asks_at 3000 ∷ asks_at 7000 ∷ asks_at 15000 ∷ asks_at 31000 ∷ asks_at 63000 ∷ asks_at 97499 ∷ asks_at 97500 ∷ [])
        ≡ (plain ∷ []) ∷ (plain ∷ []) ∷ (with_known (codes "00000076") ∷ []) ∷ (with_known (codes "00000072") ∷ []) ∷ (with_known (codes "0000006a") ∷ []) ∷ (with_known (codes "0000005a") ∷ []) ∷ (plain ∷ []) ∷ [] ∷ (plain ∷ []) ∷ [] }
    // Several questions of sessions are one of the link; it goes with the last, and then begins anew.
    ensures shared { sent_after (ask (question 1 1 ∷ question 1 255 ∷ []) ∷ asks_at 0 ∷ ask (question 1 255 ∷ []) ∷ asks_at 1 ∷ ask [] ∷ ask (question 1 1 ∷ []) ∷ asks_at 2 ∷ [])
        ≡ (plain ∷ []) ∷ [] ∷ (plain ∷ []) ∷ [] }
    // A row that is reconfirmed is asked for until it goes.
    ensures confirmed { sent_after (says 0 120 1 ∷ asks_at 0 ∷ confirms 0 1 ∷ asks_at 0 ∷ asks_at 1000 ∷ asks_at 3000 ∷ asks_at 7000 ∷ asks_at 9999 ∷ asks_at 10000 ∷ [])
        ≡ [] ∷ (plain ∷ []) ∷ (plain ∷ []) ∷ (plain ∷ []) ∷ (plain ∷ []) ∷ [] ∷ [] ∷ [] }
    // Or until it is heard again.
    ensures heard_again { sent_after (says 0 120 1 ∷ confirms 0 1 ∷ asks_at 0 ∷ says 500 120 1 ∷ asks_at 1000 ∷ [])
        ≡ (plain ∷ []) ∷ [] ∷ [] }
    // A question that sessions ask already begins anew by it, but not by doubting the row once more.
    ensures asked_already { sent_after (ask (question 1 1 ∷ []) ∷ says 0 120 1 ∷ asks_at 0 ∷ asks_at 1000 ∷ asks_at 3000 ∷ confirms 3000 1 ∷ asks_at 3000 ∷ confirms 3500 1 ∷ asks_at 3999 ∷ asks_at 4000 ∷ asks_at 6000 ∷ [])
        ≡ (with_known (codes "00000078") ∷ []) ∷ (with_known (codes "00000077") ∷ []) ∷ (with_known (codes "00000075") ∷ []) ∷ (plain ∷ []) ∷ [] ∷ (plain ∷ []) ∷ (plain ∷ []) ∷ [] }
    // Where the row was heard since, doubting it begins the question anew again.
    ensures doubted_twice { sent_after (ask (question 1 1 ∷ []) ∷ says 0 120 1 ∷ asks_at 0 ∷ confirms 500 1 ∷ asks_at 500 ∷ says 600 120 1 ∷ confirms 700 1 ∷ asks_at 700 ∷ [])
        ≡ (with_known (codes "00000078") ∷ []) ∷ (plain ∷ []) ∷ (plain ∷ []) ∷ [] }
{}
