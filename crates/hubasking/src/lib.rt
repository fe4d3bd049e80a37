//! The whole hub that runs: the DNS Push server's core, and beside it what each link is asked by mDNS because of what
//! its sessions ask (RFC 8766, 5.6; RFC 6762, 5.2).
//!
//! **Model.** A hub is an `AskingHub`: the hub of `pushserver` as it is kept, and for each link its `Askings`. All
//! calls but `ask` do to the former what the calls of the same name do there. `specs/LinkAskings` says, for plain hubs,
//! what a link is asked behind each call; `OneAsking` (`specs/Laws`) says that a kept hub asks the same as the plain
//! one.
//!
//! **Flow.** `hub.rt` has the calls: each is a call of `pushserver::Hub`, and behind it `follow` (`following.rt`),
//! which drops what has lost its reason. Before a session's turn `make_ready` (`giving.rt`) looks at its next message,
//! and takes the memory for a reason or a doubted row. Behind the turn `settle` keeps that or takes it back.
//! `translating.rt` puts a question into a link's words, `hearing.rt` lets a heard record be asked about anew, and
//! `asking.rt` writes the datagram that is due. `seating.rt` makes sessions, `idle.rt` tells for whom nothing waits.
//!
//! **Begin** with `specs/AskingHubs` and `specs/LinkAskings`, then `hub.rt`, then `giving.rt`.
//!
//! **Change.** The reasons are private: crates above know `AskingHub` and the definitions of `specs/LinkAskings` alone.
//! A call that enters something ends with `follow`, or a link goes on being asked for nothing. What a call does to the
//! hub itself belongs in `pushserver`.
//!
//! **Stand on it**: `hubloops` (four loops call it), `hublock` (one behind a lock), `replay` (scripts drive it),
//! `commands` (makes it of a configuration).
#![tactic(auto)]

mod asking;
mod following;
mod giving;
mod hearing;
pub mod hub;
mod idle;
pub mod laws;
mod seating;
mod translating;

ghost use Rattle.std.specs.Prelude.{◌≡◌, [], ◌∷◌, codes};
ghost use Rattle.dnsname.specs.Text.{name};
ghost use Rattle.linkask.specs.Reasons.{question_on};
ghost use Rattle.hubasking.specs.Worked.{asks, at, leaves, plain, reconfirms, says, sends, sent_after, subscribes, unsubscribes};

pub use hub::Hub;
pub use pushserver::{ConnectFault, Given, Heard, HubFault, NoMemory};

/// Examples of what a link is asked, with the session's timers at their defaults.
pub fn worked_rows()
    // It is asked at once, after a second, and two seconds later, and told what is known.
    ensures begins { sent_after (sends subscribes ∷ asks ∷ asks ∷ at 999 ∷ asks ∷ at 1000 ∷ asks ∷ at 1500 ∷ says 120 1 ∷ at 2999 ∷ asks ∷ at 3000 ∷ asks ∷ []) ≡ (plain ∷ []) ∷ [] ∷ [] ∷ (plain ∷ []) ∷ [] ∷ (codes "0000000000010001000000000168056c6f63616c00000100010168056c6f63616c0000010001000000760004c0000201" ∷ []) ∷ [] }
    // A question goes with its subscription, and begins anew with another one.
    ensures unsubscribed { sent_after (sends subscribes ∷ asks ∷ sends unsubscribes ∷ at 1000 ∷ asks ∷ sends subscribes ∷ asks ∷ []) ≡ (plain ∷ []) ∷ [] ∷ (plain ∷ []) ∷ [] }
    // It goes with the session.
    ensures ended { sent_after (sends subscribes ∷ asks ∷ leaves ∷ at 1000 ∷ asks ∷ []) ≡ (plain ∷ []) ∷ [] ∷ [] }
    // Also where that ends as it was silent too long.
    ensures silent { sent_after (sends subscribes ∷ asks ∷ at 29999 ∷ asks ∷ at 30000 ∷ asks ∷ []) ≡ (plain ∷ []) ∷ (plain ∷ []) ∷ [] ∷ [] }
    // A row that is reconfirmed is asked for until it goes.
    ensures confirms_a_row { sent_after (says 120 1 ∷ sends subscribes ∷ sends unsubscribes ∷ asks ∷ sends reconfirms ∷ asks ∷ at 1000 ∷ asks ∷ at 10000 ∷ asks ∷ []) ≡ [] ∷ (plain ∷ []) ∷ (plain ∷ []) ∷ [] ∷ [] }
{}

/// Examples of what a link with the domain `lan.example.com.` is asked for a question.
pub fn worked_questions()
    // A name under its domain is one under `local.`
    ensures translated { question_on (name (codes "lan.example.com.")) (record { name = name (codes "H.LAN.example.com."); kind = 1; class = 255 }) ≡ (record { name = name (codes "h.local."); kind = 1; class = 1 }) ∷ [] }
    // Any other, as one under a reverse domain, stays.
    ensures mapped { question_on (name (codes "lan.example.com.")) (record { name = name (codes "1.2.0.192.IN-ADDR.arpa."); kind = 12; class = 1 }) ≡ (record { name = name (codes "1.2.0.192.in-addr.arpa."); kind = 12; class = 1 }) ∷ [] }
{}
