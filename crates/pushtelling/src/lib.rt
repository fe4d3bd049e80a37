//! Laws, no code: after any calls of the hub each subscriber was sent exactly what the history says, nothing that was
//! made for it is lost, and each message that came in is reacted to once and in order.
//!
//! **Model.** The laws speak of the plain hub of `pushserver`, and of a list of calls (`HubCall`) that led to it.
//! `SessionsTellTheHistory` (`specs/Laws`) says that the notices of each message lead from what was told before to the
//! records at the point in its note. `specs/Runs` says what goes in and out of a session: `MadeGoesOut`,
//! `EachIsReactedToOnce`, `NotesLieBetween`.
//!
//! **Flow.** There is none: this file names each law as a function without a body. Each is proved by a walk over the
//! list of calls, with one case for each constructor of `HubCall`. `proofs/Calls` has what one call does,
//! `proofs/Closed` and `proofs/Running` what all do.
//!
//! **Begin** with `specs/Laws`, and then the worked runs below, which show octets.
//!
//! **Change.** A proof may change at will. A further call of the hub is a case in `proofs/Closed` and `proofs/Running`.
//! The laws rest on the rules of `pushserver/specs` and on nothing of what is kept, so no change of an index or a queue
//! reaches this crate.
//!
//! **Stand on it**: `flight_laws`, `script_laws` and `two_hubs`, which say the same of what a client holds and of whole
//! scripts.
#![tactic(auto)]

ghost use Rattle.std.specs.Prelude.{◌≡◌, [], ◌∷◌};
ghost use Rattle.pushserver.specs.Calls.{gives, takes, moves, ends};
ghost use Rattle.pushtelling.specs.Laws.{SessionsTellTheHistory, MessagesStay, IsStartOfHomes};
ghost use Rattle.pushtelling.specs.Runs.{MadeGoesOut, EachIsReactedToOnce, GiveReacts, ClosedOnesRest, NotesLieBetween, LaterOnesAreNoEarlier};
ghost use Rattle.pushtelling.specs.Worked.{one_zone, one_link, told_by, told_from, octets_by, asks_address, asks_shown, adds_address, hears_address, reconfirms_address, keeps_alive, works};

/// Each session was told what the history says, after any calls.
pub fn sessions_tell_the_history()
    ensures after_calls { SessionsTellTheHistory }
{}

/// What a session was told stays: further calls put messages behind those that were made.
pub fn messages_stay()
    ensures behind { MessagesStay }
{}

/// A start that the law speaks of, and runs: the answer to a SUBSCRIBE is followed by a PUSH once the zone has an address,
/// which stands in the first answer where it was there before; a Keepalive with the ID of the subscription begins nothing
/// anew.
pub fn worked_runs()
    ensures start { IsStartOfHomes one_zone }
    ensures later { told_by (asks_address ∷ works ∷ adds_address ∷ works ∷ []) ≡ ((12, 0, 0) ∷ (45, 1, 1) ∷ [], 1 ∷ []) }
    ensures before { told_by (adds_address ∷ asks_address ∷ works ∷ []) ≡ ((12, 1, 0) ∷ (45, 1, 1) ∷ [], 1 ∷ []) }
    ensures keepalive { told_by (adds_address ∷ asks_address ∷ works ∷ keeps_alive 1 ∷ works ∷ []) ≡ ((12, 1, 0) ∷ (45, 1, 1) ∷ (24, 1, 0) ∷ [], 1 ∷ []) }
{}

/// A start with a link, and runs: what is heard of an asked name follows as a PUSH, and what is said goodbye to is removed a
/// second later (RFC 6762, 10.1); a RECONFIRM makes an entry, by which nothing is told until the ten seconds are over
/// (RFC 8765, 6.5; RFC 6762, 10.4).
pub fn worked_links()
    ensures start { IsStartOfHomes one_link }
    ensures heard { told_from one_link (asks_shown ∷ works ∷ hears_address 120 ∷ works ∷ []) ≡ ((12, 0, 0) ∷ (49, 1, 1) ∷ [], 1 ∷ []) }
    ensures goodbye { told_from one_link (hears_address 120 ∷ asks_shown ∷ works ∷ hears_address 0 ∷ works ∷ moves 1000 ∷ works ∷ []) ≡ ((12, 1, 0) ∷ (49, 1, 1) ∷ (45, 3, 1) ∷ [], 0 ∷ []) }
    ensures reconfirmed { told_from one_link (hears_address 120 ∷ asks_shown ∷ works ∷ reconfirms_address ∷ works ∷ works ∷ moves 10000 ∷ works ∷ []) ≡ ((12, 1, 0) ∷ (49, 1, 1) ∷ (45, 3, 1) ∷ [], 0 ∷ []) }
{}

/// What goes out of a session is what was made for it: the octets that were handed out, and those that wait to be, are the
/// frames of its messages, after any calls.
pub fn made_goes_out()
    ensures goes_out { MadeGoesOut }
{}

/// What goes into a session is reacted to message by message, each once and in its order, after any calls; and what counts
/// as reacted to is what `give` reacts to.
pub fn each_is_reacted_to_once()
    ensures once { EachIsReactedToOnce }
    ensures reacts { GiveReacts }
    ensures closed { ClosedOnesRest }
{}

/// No note of a connection gives a name an earlier point than the newest one when it was made, nor than any note of a
/// connection before it, and none gives one that isn't there yet.
pub fn no_earlier_points()
    ensures between { NotesLieBetween }
    ensures later { LaterOnesAreNoEarlier }
{}

/// Octets of a session: a SUBSCRIBE of 37 waits until it is reacted to; its answer of 14 and a PUSH of 47 go out, as far as
/// there is room; what is brought for another session, or for one that has gone, goes nowhere.
pub fn worked_octets()
    ensures waiting { octets_by (asks_address ∷ []) ≡ (0, 37, 0) }
    ensures slowly { octets_by (asks_address ∷ gives 0 10 ∷ []) ≡ (10, 37, 1) }
    ensures whole { octets_by (asks_address ∷ works ∷ adds_address ∷ works ∷ []) ≡ (61, 37, 1) }
    ensures other { octets_by (takes 1 (1 ∷ []) ∷ gives 1 10 ∷ []) ≡ (0, 0, 0) }
    ensures gone { octets_by (asks_address ∷ ends 0 ∷ asks_address ∷ works ∷ []) ≡ (0, 37, 0) }
{}
