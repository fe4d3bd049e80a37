//! Definitions, no code: the invariant that ties a DNS Push client to its session on the server while messages are on
//! their way in both directions.
//!
//! **Model.** `InFlight` (`specs/Flight`) takes what both ends know (`BothEnds` in `specs/Ends`) and the octets under
//! way, up and down. It says that these octets are whole messages, and that they fit both ends: what the client will
//! hold, once all have come, is what the session counts as sent. `specs/Messages` has the messages of both sides as
//! data, `specs/Holding` what a wish will be held by then.
//!
//! **Flow.** A message is born at one end and stays in the list until the other end has reacted to it. No call is made
//! here. The crate `flight_laws` shows that each step of either end keeps `InFlight`.
//!
//! **Begin** with the rows below: worlds that fit, and worlds that don't. Above each of the latter stands what would go
//! wrong from there. Then read `specs/Flight`, a sentence at a time.
//!
//! **Change.** A sentence may be added where a law needs it: each step must then be shown to keep it (`flight_laws`),
//! and a row below should show a world that it alone refuses. Each of those worlds is refused by one sentence alone, so
//! no such sentence may go. Bounds here are those of `push_base::limits`.
//!
//! **Stand on it**: `flight_laws` (all steps), `replay` (the promise `HoldsAfterEachLine` of a script's text),
//! `script_laws` and `two_hubs`.
#![tactic(auto)]

ghost use Rattle.std.specs.Prelude.{◌≡◌, [], ◌∷◌, true, false, codes, replicate};
ghost use Rattle.pushclient.specs.Clients.{unanswered, answered, refused};
ghost use Rattle.pushclient.specs.ServerMessages.{accepts, refuses, tells, grants};
ghost use Rattle.inflight.specs.Messages.{answer_comes_first, subscribes, unsubscribes};
ghost use Rattle.inflight.specs.RefusedWorlds.{added, addition, address, active, begun, down, elsewhere, holding, idle, refusals, removal, serving, something, took, wish};
ghost use Rattle.inflight.specs.Worked.{unmet_together};

/// Examples of messages that come down before the client is established.
pub fn worked_rows()
    ensures accepted { answer_comes_first (refuses 1 ∷ accepts 2 ∷ tells [] ∷ []) ≡ true }
    ensures granted { answer_comes_first (grants 1 ∷ tells [] ∷ []) ≡ true }
    ensures refused { answer_comes_first (refuses 1 ∷ []) ≡ false }
    ensures told_early { answer_comes_first (tells [] ∷ accepts 2 ∷ []) ≡ false }
{}

/// Worlds that fit together: nothing was asked, or was refused; a question is held, with what was told of it, or was let go.
pub fn fitting_worlds()
    ensures idle { unmet_together idle [] [] [] ≡ [] }
    ensures refused { unmet_together (record idle { wishes = refusals 2 }) [] [] [] ≡ [] }
    ensures holding { unmet_together (holding 7) (took 7 (accepts 7) ∷ []) [] [] ≡ [] }
    ensures told { unmet_together (record (holding 7) { wishes = record (wish address (answered 7)) { notices = addition ∷ [] } ∷ [] }) (took 7 (accepts 7) ∷ took 7 added ∷ []) [] [] ≡ [] }
    ensures let_go { unmet_together (serving 7) (took 7 (accepts 7) ∷ []) [] (unsubscribes 7 ∷ []) ≡ [] }
    ensures readable { unmet_together idle [] (down (tells (replicate 1000 removal)) [] ∷ []) [] ≡ [] }
{}

/// Worlds that don't: each is refused by one sentence and by no other. Above each stands what would go wrong from there.
pub fn refused_worlds()
    // The client asks for a Keepalive, is granted less than ten seconds, and closes with an error (RFC 8490, 6.5.2).
    ensures timers { unmet_together (record idle { timers = record idle.timers { keepalive = 9999 } }) [] [] [] ≡ codes "timers" ∷ [] }
    // On a new connection both are asked; the second SUBSCRIBE is for what is active, and ends the session.
    ensures questions { unmet_together (record idle { goes_on = false; wishes = wish address (unanswered 1) ∷ wish address (unanswered 2) ∷ [] }) [] [] [] ≡ codes "questions" ∷ [] }
    // On a new connection type 0 is asked, as a type has 16 bits (RFC 1035, 4.1.2), so another question is answered.
    ensures fit { unmet_together (record idle { wishes = wish (record elsewhere { kind = 65536 }) (refused 9) ∷ [] }) [] [] [] ≡ codes "fit" ∷ [] }
    // The message is too long for a frame: the first two octets give another length, and what follows is read as messages.
    ensures readable { unmet_together idle [] (down (tells (replicate 3000 removal)) [] ∷ []) [] ≡ codes "readable" ∷ [] }
    // The client doesn't show an address that it was told.
    ensures notices { unmet_together (holding 7) (took 7 (accepts 7) ∷ took 7 added ∷ []) [] [] ≡ codes "notices" ∷ [] }
    // The client writes a RECONFIRM, and the session ends for a message without an ID that comes too early (RFC 8490, 5.1).
    ensures established { unmet_together (record idle { established = false }) [] [] [] ≡ codes "established" ∷ [] }
    // The client takes a PUSH before it is established, and closes (RFC 8490, 5.1).
    ensures first { unmet_together begun [] (down something [] ∷ []) [] ≡ codes "first" ∷ [] }
    // Nothing on its way establishes the client, so it closes with an error if the session is stopped now and says so (RFC 8490, 5.1).
    ensures first_of_none { unmet_together begun [] [] [] ≡ codes "first" ∷ [] }
    // The second UNSUBSCRIBE ends what was accepted since with the same ID.
    ensures let_go_once { unmet_together (record (serving 7) { wishes = wish address (unanswered 7) ∷ [] }) (took 7 (accepts 7) ∷ []) [] (unsubscribes 7 ∷ subscribes 7 address ∷ unsubscribes 7 ∷ []) ≡ codes "let_go_once" ∷ [] }
    // The client holds a question of which no change is told any more.
    ensures held { unmet_together (record (holding 7) { subscriptions = [] }) (took 7 (accepts 7) ∷ []) [] [] ≡ codes "held" ∷ [] }
    // Nothing ends the subscription; if the client asks the question again, that ends the session.
    ensures active { unmet_together (serving 7) (took 7 (accepts 7) ∷ []) [] [] ≡ codes "active" ∷ [] }
{}
