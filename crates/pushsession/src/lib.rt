//! One session of a DNS Push server: it reacts to SUBSCRIBE, UNSUBSCRIBE, RECONFIRM, Keepalive, updates and queries,
//! keeps its subscriptions, and writes its PUSH messages (RFC 8490, 6; RFC 8765, 6).
//!
//! **Model.** A `PushSession` is a `KeptSession`: its questions, the names that wait, its timers, the octets that came
//! and those that wait to go, and how it stands. The rules are in `specs/Sessions`, `specs/Subscribing` and
//! `specs/Reactions`. They hold for any way to keep questions and names: `Keeps` lists the operations that they need,
//! and `keeping` (`specs/Kept`) is the way of this code.
//!
//! **Flow.** `buffers.rt` takes octets into the input. `request` (`taking.rt`) says what the first whole message needs
//! of the server: an update, a query, a record to reconfirm, a question, or nothing. The caller answers with one call:
//! `subscribe` (`subscribe.rt`), `answer_update`, `answer_query`, `reconfirm` or `react` (`reacting.rt`). Each takes
//! the message up and writes what it says (`saying.rt`, `short_messages.rt`). Where no message waits, `pack` writes one
//! PUSH. `note` (`noting.rt`) hears of each change before it is made, `ending.rt` has stops and ends, and `copy` hands
//! the output on.
//!
//! **Begin** with `specs/Sessions` and `specs/Subscribing`, then `session.rt`, then `taking.rt`.
//!
//! **Change.** How a session keeps things may change: give a new `keeping`, and prove that it does what the plain one
//! does (`pushserver/proofs/session_steps`). A rule of `specs/` holds for the plain session too, so its change reaches
//! the laws of `pushtelling` and `flight_laws`. A further message is a case of `Request`.
//!
//! **Stand on it**: `livesessions` (many sessions), `pushserver` (a turn of each), `hubasking` (what the next message
//! is).
#![tactic(auto)]

mod buffers;
mod ending;
pub mod laws;
mod noting;
mod reacting;
pub mod request;
mod saying;
mod session;
pub mod session_status;
mod short_messages;
mod subscribe;
mod taking;
mod watching;

ghost use Rattle.std.specs.Prelude.{◌≡◌, ◌++◌, [], ◌∷◌, true, false, codes, None, Some};
ghost use Rattle.push_base.specs.Hexadecimal.{hex};
ghost use Rattle.coalesce.specs.Waiting.{since};
ghost use Rattle.pushsession.specs.Sessions.{new_session, noted, stopped, with_piece, timed};
ghost use Rattle.pushsession.specs.Subscribing.{with_next_push};
ghost use Rattle.pushsession.specs.Kept.{filled_of, keeping, telling};
ghost use Rattle.pushsession.specs.Requests.{reacted, request_of, subscribed_by};
ghost use Rattle.pushsession.specs.Worked.{asking, gone, keepalive, question, rows, subscribe, timers};

use dsosession::session::EndReason;
pub use request::Request;
pub use rrset::NoMemory;
pub use session::PushSession;
pub use session_status::SessionStatus;

/// Examples of sessions.
pub fn worked_rows()
    ensures cut { request_of (with_piece (hex (codes "0017000130")) (new_session keeping 0)) ≡ None }
    ensures whole { request_of (with_piece (subscribe 1) (new_session keeping 0)) ≡ Some (Request.Subscribe (Some question)) }
    ensures told { (subscribed_by (Some question) true rows 5 (with_piece (subscribe 1) (new_session keeping 0))).output ≡ hex (codes "000c0001b0000000000000000000") ++ hex (codes "00210000300000000000000000000041001101780000010001") ++ hex (codes "0000003c000401020304") }
    ensures filled { filled_of 1 asking.subscriptions.filled ≡ Some 49 }
    ensures refused { (subscribed_by (Some question) false rows 5 (with_piece (subscribe 1) (new_session keeping 0))).output ≡ hex (codes "00140001b009000000000000000000020004000493e0") }
    ensures in_use { (subscribed_by (Some question) true rows 6 (with_piece (subscribe 1) asking)).standing ≡ SessionStatus.Ended (EndReason.IdInUse 1) }
    ensures twice { (subscribed_by (Some question) true rows 6 (with_piece (subscribe 2) asking)).standing ≡ SessionStatus.Ended (EndReason.Twice 1) }
    ensures granted { (reacted timers 7 (with_piece keepalive (new_session keeping 0))).clocks ≡ record { timers = timers; last_message = 7; last_other = 0 } }
    ensures established { (reacted timers 7 (with_piece keepalive (new_session keeping 0))).established ≡ true }
    ensures short { (reacted timers 7 (with_piece (0 ∷ 1 ∷ 0 ∷ []) (new_session keeping 0))).standing ≡ SessionStatus.Ended EndReason.Short }
    ensures waiting { since (noted keeping gone 3 asking).queue question.name ≡ Some 3 }
    ensures removed { (with_next_push keeping (telling []) 8 (noted keeping gone 3 asking)).output ≡ hex (codes "001d000030000000000000000000004100") ++ hex (codes "0d01780000010001fffffffe0000") }
    ensures stop { (stopped keeping 0 7000 9 asking).output ≡ hex (codes "001400003000000000000000000000020004") ++ hex (codes "00001b58") }
    ensures stopped { (timed keeping 5009 (stopped keeping 0 7000 9 asking)).standing ≡ SessionStatus.Ended EndReason.Stopped }
{}
