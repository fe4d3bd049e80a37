//! Laws, no code: each step of a client, of its session or of the octets between them keeps both consistent. So no
//! message but a Retry Delay closes the client, and what it holds is what the server's history has.
//!
//! **Model.** The laws speak of plain clients, plain sessions and the octets between them. Each has the form: if
//! `InFlight` (of `inflight`) holds before a step, it holds behind it. `specs/Laws` has octets that pass,
//! `specs/Asking` and `specs/Taking` the client's steps, `specs/Reacting`, `specs/Turns` and `specs/EachGive` the
//! session's, and `specs/OtherCalls` all other calls of the hub. `specs/GoesOn` and `specs/Holding` say what follows:
//! no message ends a connection, and what is held is the history.
//!
//! **Flow.** There is none: this file names each law as a function without a body, from single steps to whole calls.
//! Large ones rest on small ones in the order of this file.
//!
//! **Begin** with `specs/Laws` and `specs/Reacting`; `specs/Holding` is what it is all for.
//!
//! **Change.** Proofs are free. A further message of either end is a case of most laws here (`specs/Meeting` lists how
//! messages are met). A further call of the hub is one of `specs/OtherCalls`, with a case in `proofs/OtherSteps`. What
//! is kept in the code doesn't matter here.
//!
//! **Stand on it**: `script_laws` and `two_hubs`, which walk over the lines of scripts with these laws.
#![tactic(auto)]

ghost use Rattle.flight_laws.specs.GoesOn.{ClientsGiveOctets, ClientsTakeOctets, GivesTakeNothing, NoMessageEndsIt, OtherCallsTakeNothing, SessionsTakeOctets, TakenIsCounted, TakenStays};
ghost use Rattle.flight_laws.specs.EachGive.{GivesLeaveIt, ReactingGivesLeaveIt};
ghost use Rattle.flight_laws.specs.Asking.{DroppedOnesAreWantedAgain, NextIdIsFree, QuestionsAreAsked};
ghost use Rattle.flight_laws.specs.Taking.{ConnectionsOpen, MomentsGoUp, ReconfirmsGoUp, StepsAreTaken, StepsWait, SubscribesGoUp, UnsubscribesGoUp};
ghost use Rattle.flight_laws.specs.Holding.{EndsBeforeNextWhereNoneWaits, HeldIsHistory, HoldsAtLast, HoldsAlong, HoldsAllSent};
ghost use Rattle.flight_laws.specs.Runs.{FirstAnswersEndAfterCalls};
ghost use Rattle.flight_laws.specs.Laws.{AcceptedOnesAreEnded, AcceptedOnesAreHeld, DelaysAreTaken, EntriesLeaveIt, FirstMessagesFit, GrantsAreTaken, HeldOnesAreDropped, KeepalivesFit, NewConnectionsFit, OctetsPass, PushesAreTaken, ReconfirmsFit, RefusalsAreTaken, RefusedOnesAreDropped, SessionsEnd, SoAlongOneMore, StopsAreAskedFor, TakesWithFewer, WaitingOnesAreDropped};
ghost use Rattle.flight_laws.specs.OtherCalls.{OtherCallsLeaveIt};
ghost use Rattle.flight_laws.specs.Meeting.{AfterIs, FirstComesUp, GivesSo, MessagesAreReadAgain, MessagesAreReadBack, ReactsSo, TakenUpIsWithin, VerdictsAreTwo};
ghost use Rattle.flight_laws.specs.Reacting.{EndsAreTold, HomesStay, HubsServeAlike, KeepalivesAreGranted, NamesLeaveUnsent, PushesAreGiven, ReconfirmsAreTaken, SaidComesDown, StopsAreWritten, SubscribesAreAccepted, SubscribesAreRefused, SubscriptionsAreEnded};
ghost use Rattle.flight_laws.specs.Turns.{EndsToldLeaveIt, PacksLeaveIt, PushesCanBeTold, QuietGivesLeaveIt, ReactionsLeaveIt, StopsLeaveIt};

/// A new connection, on which nothing was asked yet, fits together.
pub fn new_connections_fit()
    ensures begins { NewConnectionsFit }
{}

/// What is under way still fits when octets pass.
pub fn octets_pass()
    ensures pass { OctetsPass }
{}

/// What a session takes it takes with fewer subscriptions, too, and once it is established.
pub fn takes_with_fewer()
    ensures takes { TakesWithFewer }
{}

/// What is so along the messages that come down is so with one more, if it is so of that.
pub fn so_along_one_more()
    ensures along { SoAlongOneMore }
{}

/// What is under way fits together with a Keepalive or a RECONFIRM that the client writes.
pub fn writing_fits()
    ensures keepalives { KeepalivesFit }
    ensures reconfirms { ReconfirmsFit }
{}

/// What is under way fits together when the client drops a question whose answer it waits for, or that was refused.
pub fn dropping_fits()
    ensures waiting { WaitingOnesAreDropped }
    ensures refused { RefusedOnesAreDropped }
{}

/// What is under way fits together with the UNSUBSCRIBE for a question that the client held.
pub fn unsubscribing_fits()
    ensures held { HeldOnesAreDropped }
{}

/// The first message that comes down fits the client's state: none but Retry Delay closes it.
pub fn first_messages_fit()
    ensures first { FirstMessagesFit }
{}

/// What is left on its way fits together when the client has taken the refusal of its SUBSCRIBE.
pub fn answers_fit()
    ensures refusals { RefusalsAreTaken }
{}

/// What is left on its way fits together when the client has taken the NOERROR answer to its SUBSCRIBE, and holds the subscription, or
/// ends it; `steps_fit` says which of the two it does.
pub fn accepting_fits()
    ensures held { AcceptedOnesAreHeld }
    ensures ended { AcceptedOnesAreEnded }
{}

/// What is left on its way fits together when the client has taken a Retry Delay, the answer to its Keepalive, or a PUSH.
pub fn taking_fits()
    ensures delays { DelaysAreTaken }
    ensures grants { GrantsAreTaken }
    ensures pushes { PushesAreTaken }
{}

/// What is under way still fits when an entry is made, and when a session is asked to stop, or ends.
pub fn ending_fits()
    ensures entries { EntriesLeaveIt }
    ensures stops { StopsAreAskedFor }
    ensures ends { SessionsEnd }
{}

/// What is under way fits together when the session has answered a Keepalive, or taken a RECONFIRM or an UNSUBSCRIBE.
pub fn reacting_fits()
    ensures keepalives { KeepalivesAreGranted }
    ensures reconfirms { ReconfirmsAreTaken }
    ensures ended { SubscriptionsAreEnded }
{}

/// What is under way fits together when the session has answered a SUBSCRIBE.
pub fn subscribing_fits()
    ensures alike { HubsServeAlike }
    ensures homes { HomesStay }
    ensures accepted { SubscribesAreAccepted }
    ensures refused { SubscribesAreRefused }
{}

/// What is under way fits together when the session has given a PUSH, lets names go unsent, or tells ends of first answers again.
pub fn telling_fits()
    ensures pushes { PushesAreGiven }
    ensures unsent { NamesLeaveUnsent }
    ensures told { EndsAreTold }
{}

/// What is under way fits together when the session has written its Retry Delay.
pub fn stopping_fits()
    ensures stops { StopsAreWritten }
{}

/// Whole messages that the session made come down behind the others.
pub fn said_comes_down()
    ensures down { SaidComesDown }
{}

/// What is under way still fits, as octets, when ends of first answers are told again, a PUSH is packed, or a session stops.
pub fn quiet_turns_fit()
    ensures told { EndsToldLeaveIt }
    ensures packs { PacksLeaveIt }
    ensures stops { StopsLeaveIt }
    ensures readable { PushesCanBeTold }
{}

/// What is under way still fits behind each call of `give` that reacts to no message.
pub fn quiet_gives_fit()
    ensures gives { QuietGivesLeaveIt }
{}

/// What is under way still fits, as octets, when the session has reacted to the first message that came up.
pub fn reactions_leave()
    ensures reactions { ReactionsLeaveIt }
{}

/// What is under way between a session and its client still fits behind each call of the hub but three: octets that are brought to this
/// session, a `give` of it, and the end of its connection. A stop of this very session is among the calls.
pub fn other_calls_leave()
    ensures calls { OtherCallsLeaveIt }
{}

/// A session reads each message of a client of this project, within its bounds, as what it is: its head, its ID, and what the
/// data of its TLV says (RFC 8490, 5.4; RFC 8765, 6.2.1, 6.4.1 and 6.5.1).
pub fn messages_are_read_back()
    ensures read { MessagesAreReadBack }
    ensures again { MessagesAreReadAgain }
{}

/// Of the messages on their way up, the first is the first in a session's input, as soon as it is whole there, and what is taken
/// up is within its bounds.
pub fn first_comes_up()
    ensures first { FirstComesUp }
    ensures within { TakenUpIsWithin }
{}

/// A session takes a message that may be taken up: it grants a Keepalive, accepts a question that is served and refuses any other
/// with NOTAUTH, ends the subscription of an UNSUBSCRIBE, and asks for the reconfirming of a record. The reaction leaves its standing
/// as it was.
pub fn sessions_react_so()
    ensures reacts { ReactsSo }
    ensures verdicts { VerdictsAreTwo }
    ensures fields { AfterIs }
{}

/// `give` takes the first message of a live session that has nothing to hand out, reacts to it, and hands out what fits of the answer.
/// All else of the hub stays, but for the entry that a RECONFIRM asks for (RFC 8765, 6.5), and the sessions that fall behind by it:
/// the session's own end comes behind its reaction.
pub fn gives_react_so()
    ensures gives { GivesSo }
{}

/// What is under way still fits behind each call of `give`, as octets: the first message of the client that is whole in a live
/// session's input is reacted to, and any other call is as `quiet_gives_fit` says.
pub fn each_give_leaves()
    ensures reacting { ReactingGivesLeaveIt }
    ensures gives { GivesLeaveIt }
{}

/// What is under way fits together with the SUBSCRIBE for a question that the client asks, and as before when it wants one
/// again that it had dropped.
pub fn asking_fits()
    ensures asked { QuestionsAreAsked }
    ensures again { DroppedOnesAreWantedAgain }
{}

/// The ID that the client takes is from 1 to 65,535, and none waits or is held with it (RFC 8490, 5.4.1).
pub fn next_ids_are_free()
    ensures free { NextIdIsFree }
{}

/// What is under way fits together behind the client's step on a whole message, and none but a Retry Delay closes it.
pub fn steps_fit()
    ensures taken { StepsAreTaken }
    ensures waits { StepsWait }
{}

/// What is under way fits together with what the client writes when it is asked for something, and at a moment.
pub fn calls_fit()
    ensures subscribes { SubscribesGoUp }
    ensures unsubscribes { UnsubscribesGoUp }
    ensures reconfirms { ReconfirmsGoUp }
    ensures moments { MomentsGoUp }
{}

/// What is under way fits together when a client is connected to a new session, and asks all that it wants.
pub fn openings_fit()
    ensures opens { ConnectionsOpen }
{}

/// Each first answer ends where a message does, after any calls of the hub.
pub fn first_answers_end_where_messages_do()
    ensures after_calls { FirstAnswersEndAfterCalls }
{}

/// Where what is under way fits, what a client holds is the history at the points of the notes that came with it.
pub fn what_is_held()
    ensures reached { EndsBeforeNextWhereNoneWaits }
    ensures last { HoldsAtLast }
    ensures along { HoldsAlong }
    ensures sent { HoldsAllSent }
{}

/// No message ends it: each call of `give` leaves a live session live, whatever of the client's messages came up, or it falls behind
/// by the entry of a RECONFIRM; and the client's step closes the connection at a Retry Delay alone, of a session that doesn't go on
/// (RFC 8490, 6.6.1).
pub fn no_message_ends_it()
    ensures ends { NoMessageEndsIt }
{}

/// Octets pass by the calls of either end, and the messages under way stay the same: a session and a client take as much of what came
/// as they have room for, and a client hands out a front of its output.
pub fn octets_pass_by_calls()
    ensures sessions_take { SessionsTakeOctets }
    ensures clients_take { ClientsTakeOctets }
    ensures clients_give { ClientsGiveOctets }
{}

/// Which messages were taken follows from what was made and how many octets come down: it stays where a call makes no message, or just
/// the octets of what it made come down besides.
pub fn taken_stays()
    ensures counted { TakenIsCounted }
    ensures stays { TakenStays }
{}

/// What a client holds of a session under way is the history: each question that is held, and whose first answer has arrived whole, has
/// by the notices taken exactly the records that the history has at the note of the last message taken, and so it will after each
/// message that comes down. The session was told the history, its first answers end where messages do, and no whole message waits.
pub fn held_is_history()
    ensures held { HeldIsHistory }
{}

/// The client has taken the same messages behind a `give` of its session as before it, and behind each call of the hub that is neither
/// that, nor octets for its session, nor its end.
pub fn calls_take_nothing()
    ensures gives { GivesTakeNothing }
    ensures others { OtherCallsTakeNothing }
{}
