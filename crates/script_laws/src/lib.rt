//! Laws, no code: what is promised of every script that `dnspush replay` runs. Clients never see an older state than
//! before, a settle brings them up to date, and no message ends a connection.
//!
//! **Model.** The laws speak of the plain worlds of `replay/specs/World`. `WorldStands` (`specs/Joined`) is the
//! invariant: between two lines each client and its session are in flight together (`InFlight`), and what the client
//! holds is the history. `specs/Whole` and `specs/Throughout` say it of whole scripts; `specs/Sending` and
//! `specs/EachMessage` say that what a peer sends is answered.
//!
//! **Flow.** There is none: this file names each law as a function without a body. A proof walks over the lines of a
//! script, and over the calls of the hub that a line makes: `proofs/lines` has the kinds of lines, `proofs/calls` the
//! calls, `proofs/hubs` what is so of hubs that were reached, `proofs/ends` what a text tells.
//!
//! **Begin** with `replay/specs/Promises`, which are the sentences, then `specs/Joined`.
//!
//! **Change.** Proofs are free, and no code is concerned. A further line of scripts, or call of the hub, has its cases
//! here; docs/ARCHITECTURE.md lists them. `specs/Lines` says which lines are within bounds, and
//! `proofs/lines/ReadLines` shows that each line that is read is one.
//!
//! **Stand on it**: `two_hubs`, and `commands`, whose `run` cites three of these laws by calling them.
#![tactic(auto)]

ghost use Rattle.std.specs.Prelude.{◌≡◌, [], ◌∷◌, codes};
ghost use Rattle.replay.specs.Promises.{HoldsTheHistory, HoldsAfterEachLine, NoMessageEnds, EveryScriptKeepsPromises, EveryScriptTellsOneText, EverySettleEmptiesBothWays};
ghost use Rattle.script_laws.specs.EachMessage.{ScriptCallsFit, MessagesAreReactedTo, EachHasItsTurn, SubscribesAreAnswered};
ghost use Rattle.script_laws.specs.InTurn.{MadeInTurn};
ghost use Rattle.replay.specs.LineCalls.{LinesAreCalls, ScriptsAreCalls};
ghost use Rattle.script_laws.specs.Replies.{RepliesAreOne};
ghost use Rattle.script_laws.specs.Sending.{SendsAreAnswered, AsksAreAnswered, EachIsBroughtUp, FirstOnesAskAnywhere};
ghost use Rattle.script_laws.specs.Settling.{TurnsSuffice};
ghost use Rattle.script_laws.specs.Throughout.{EveryScriptHolds, ReplaysMirrorHistory};
ghost use Rattle.script_laws.specs.Whole.{OnlyLoneOnesAreFed, ScriptsNeverGoBack};
ghost use Rattle.script_laws.specs.WorkedSends.{second_line};

/// After each line of a script, of each client of the hub, what is under way between it and its session fits, no wire
/// holds more than it may, the octets that have reached the client are counted, and each session is that of one client or peer.
pub fn each_line_holds()
    ensures holds { HoldsAfterEachLine }
{}

/// The text of a script is the same, whether what is held is told from the history at the note's point, or from the
/// notices that the client took.
pub fn scripts_tell_one_text()
    ensures one { EveryScriptTellsOneText }
{}

/// In a script no `held` line shows an earlier point than one before it of the same client and question, over cuts
/// and reconnections too.
pub fn scripts_never_go_back()
    ensures never { ScriptsNeverGoBack }
{}

/// In a script each end that a line prints of a hub's client has a reason that no message makes: a timer, a stop that
/// was asked for, or that the session was too far behind. Each close has its own timer for reason, or a Retry Delay.
pub fn no_message_ends_a_script()
    ensures ends { NoMessageEnds }
{}

/// In a script each client that a line `feed` feeds is a lone one, so that what `replay::laws` says of these is so of all such lines.
pub fn only_lone_clients_are_fed()
    ensures lone { OnlyLoneOnesAreFed }
{}

/// Where what is under way between a client and its session holds, as it does after each line, the client holds the history: each
/// question whose first answer has arrived has by the notices taken exactly the records of the history at the note of the last message
/// taken, so it will after each further message at that message's note, and after all of them with what counts as sent.
pub fn what_is_held_is_the_history()
    ensures held { HoldsTheHistory }
{}

/// In a script each settle comes to a round that moves no octet and reacts to nothing, within 2^64 of them: each round
/// before it leaves less to be done. One that prints its line alone leaves nothing under way, neither between the client and its session,
/// nor in what the session could still say.
pub fn settles_empty_both_ways()
    ensures ends { TurnsSuffice }
    ensures quiet { EverySettleEmptiesBothWays }
{}

/// In a script no `held` line goes back, and after a settle that printed its line alone, and lines that change nothing, a
/// `show` of a question that the client wants prints the records of the newest point.
pub fn scripts_keep_promises()
    ensures promises { EveryScriptKeepsPromises }
{}

/// All that holds throughout a script: its promises; after each line what is under way, what clients hold, and that no message ends
/// anything; each message's turn in its session; and how settles end. The program's `run` says so of each script that it is asked to run.
pub fn scripts_hold_throughout()
    ensures throughout { EveryScriptHolds }
{}

/// The sets of the clients that a replay hands back are the records of the history, at the point of the last message that each has taken.
pub fn mirrors_are_the_history()
    ensures mirrors { ReplaysMirrorHistory }
{}

/// What a script is answered is the same, told from the history or from the notices that its clients took.
pub fn replies_are_one()
    ensures one { RepliesAreOne }
{}

/// Each line of a script does to the hub what certain calls do, one behind the other, which are told as a function of the
/// line and the world; so does each script, and what its calls bring are octets.
pub fn lines_are_calls()
    ensures lines { LinesAreCalls }
    ensures scripts { ScriptsAreCalls }
    ensures fit { ScriptCallsFit }
{}

/// In a script, of each session, a client's or a peer's, behind any of its calls: the messages that were reacted to are the
/// first of the one list of whole messages in the octets that came, whatever pieces they came in; those that wait are the
/// others. Each was reacted to in one call, in which what the server's table tells was done: the messages that were made, the
/// session's end, its questions, and the history (RFC 8490, 5; RFC 8765, 6). What was made went out, or waits to. Beside what the
/// table tells for each message in its turn, only PUSHes of names that wait were made, and the Retry Delay of a stop.
pub fn messages_are_reacted_to()
    ensures reacted { MessagesAreReactedTo }
    ensures each { EachHasItsTurn }
    ensures turns { MadeInTurn }
{}

/// A SUBSCRIBE that none of the tests refuses when its turn comes is answered NOERROR, and then the first answer's PUSH
/// follows, where it has notices: at any line, on any session, after any messages (RFC 8765, 6.2.2 and 6.3).
pub fn subscribes_are_answered()
    ensures answered { SubscribesAreAnswered }
{}

/// A peer's second SUBSCRIBE comes in a later line, behind an update: NOERROR and the SOA follow, with the serial that the
/// update has raised, and then the address that the update added, for which the first SUBSCRIBE asked.
pub fn worked_sends()
    ensures second { second_line ≡ codes "bytes p 000c0002b0000000000000000000006300003000000000000000000000410053076578616d706c6503636f6d000006000100000e10003c026e73076578616d706c6503636f6d000a686f73746d6173746572076578616d706c6503636f6d000000000200000e1000000258000151800000003c002d0000300000000000000000000041001d0161076578616d706c6503636f6d00000100010000003c0004c0000201" ∷ [] }
{}

/// What a peer sends in a line is answered in it: while the session is open, each whole message in what waited and what came
/// is reacted to; the line tells the frames of the messages that were made in it, for these messages, for names that waited
/// and for a stop; nothing waits behind it, and an end is told where the session has come to one. So the text holds NOERROR
/// and the first answer for each SUBSCRIBE among them that none of the tests refuses, be it behind any others or a
/// peer's first octets, whose line tells nothing else.
pub fn sends_are_answered()
    ensures sends { SendsAreAnswered }
    ensures asks { AsksAreAnswered }
    ensures each { EachIsBroughtUp }
    ensures first { FirstOnesAskAnywhere }
{}
