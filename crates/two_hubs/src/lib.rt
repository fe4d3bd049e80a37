//! Laws, no code: what is promised of scripts with a second hub, into which names are carried by DNS UPDATE. A client
//! there sees one of the carried states, never an earlier one than before, and ends with the last.
//!
//! **Model.** A script of two hubs is a list of `WholeLine`; each line is something to the first hub, to the second, or
//! to both. `specs/HalfLaws` says that each half is a script of one hub, so that all laws of `script_laws` hold of it.
//! `specs/Carrying` says what was carried, and at which points. `specs/RelayLaws` says what clients of the second hub
//! show, `specs/Relaying` all of it together.
//!
//! **Flow.** There is none: this file names each law as a function without a body. A carry reads what a client of the
//! first hub holds, and is an update of the second (`relay`), which the laws of `relay` show to be accepted.
//!
//! **Begin** with `specs/Carrying`, then `specs/RelayLaws`.
//!
//! **Change.** Proofs are free, and no code is concerned. These laws know lines only as `near_lines` and
//! `far_lines_after` give them, so a further line of one hub alone changes little here: `proofs/FarHeads` is about
//! lines of the head. A replicator that isn't a script would need the laws of `relay`, not these.
//!
//! **Stand on it**: `commands`, whose `run` cites two of these laws by calling them.
#![tactic(auto)]

ghost use Rattle.std.specs.Prelude.{◌≡◌, ℕ, List, [], Ok};
ghost use Rattle.scripts.specs.WholeLines.{WholeLine};
ghost use Rattle.scripts.specs.WholeScripts.{near_lines, whole_script_of};
ghost use Rattle.replay.specs.Promises.{KeepsPromises};
ghost use Rattle.replay.specs.TextWords.{by_history};
ghost use Rattle.replay.specs.TwoWorlds.{start_worlds, far_lines_after};
ghost use Rattle.script_laws.specs.Lines.{AreLines};
ghost use Rattle.two_hubs.specs.Carrying.{CarriesAreWritten};
ghost use Rattle.two_hubs.specs.RelayLaws.{ShowsCarried, CarriesAnswer, CarriesRise, NeverEarlier, NewestIsCarried};
ghost use Rattle.two_hubs.specs.HalfLaws.{HalvesAreWorlds, NearAreLines, FarHeadsFollow, AreWholeLines};
ghost use Rattle.two_hubs.specs.Relaying.{EveryScriptRelays, WholeReplaysMirror};
ghost use Rattle.two_hubs.specs.WholeReplies.{TellsOneText, WholeRepliesAreOne};

/// A script of two hubs is, to each of them, a script of one.
pub fn halves_are_scripts()
    ensures worlds { HalvesAreWorlds }
    ensures near { NearAreLines }
    ensures far { (script : List WholeLine) → AreWholeLines script → AreLines (far_lines_after by_history script (start_worlds script)) }
    ensures heads { FarHeadsFollow }
{}

/// So what holds of every script of one hub holds of both halves of every script of two.
pub fn halves_keep_promises()
    ensures near { (script : List WholeLine) → AreWholeLines script → KeepsPromises (near_lines script) }
    ensures far { (script : List WholeLine) → AreWholeLines script → KeepsPromises (far_lines_after by_history script (start_worlds script)) }
{}

/// Later carries of a name carry no earlier points.
pub fn carries_rise()
    ensures { CarriesRise }
{}

/// The messages that carries make are octets, and short.
pub fn carries_are_written()
    ensures { (script : List WholeLine) → AreWholeLines script → CarriesAreWritten script (start_worlds script) }
{}

/// A `held` line of a far client shows what the first hub had at the point of the last carry before its own.
pub fn shows_are_carried()
    ensures carried { ShowsCarried }
    ensures newest { NewestIsCarried }
    ensures earlier { NeverEarlier }
{}

/// A carry is answered 0, and the second zone has the set, or refused, just where it would have too many records.
pub fn carries_are_answered()
    ensures { CarriesAnswer }
{}

/// The lines of a text that is a script of two hubs may each stand where it stands, are within bounds, and few.
pub fn whole_scripts_are_lines()
    ensures { (octets : List ℕ) (script : List WholeLine) → whole_script_of octets ≡ Ok script → AreWholeLines script }
{}

/// The text of a script of two hubs, and the reply to its octets, is the same, whether what is held is told from the history or from the
/// notices that clients took.
pub fn whole_replies_are_one()
    ensures text { (script : List WholeLine) → AreWholeLines script → TellsOneText script }
    ensures one { WholeRepliesAreOne }
{}

/// All that holds throughout a script of one hub holds of both halves of a script of two, and the two worlds are those of the halves. What far
/// clients show is what was carried, never an earlier state than before, and right after a settle the one that was carried last.
pub fn scripts_relay_truly()
    ensures relays { EveryScriptRelays }
{}

/// The sets of the clients that a replay hands back are the records of their hub's history, at the point of the last message that each has taken.
pub fn whole_mirrors_are_the_history()
    ensures mirrors { WholeReplaysMirror }
{}
