//! All that the program does, over any outside.

ghost use Rattle.std.specs.Prelude.{◌≡◌, ◌+◌, ◌⊎◌, ℕ, List, IsNone};
ghost use Rattle.push_base.specs.Causes.{Rose};
ghost use Rattle.scripts.specs.Lines.{ScriptLine};
ghost use Rattle.scripts.specs.Scripts.{max_script};
ghost use Rattle.scripts.specs.Sources.{front_read, LostAtMost};
ghost use Rattle.scripts.specs.WholeLines.{WholeLine};
ghost use Rattle.push_base.specs.Written.{IsFrontOf, Took};
ghost use Rattle.script_laws.specs.Throughout.{HoldsThroughout};
ghost use Rattle.two_hubs.specs.Relaying.{RelaysTruly};
ghost use Rattle.commands.specs.Runs.{AsksFor, AsksForWhole, InputStays, IsAnswered, LeavesRest, OpensPath, ReachRose, Reaches, SinkRose, SourceRose, TakesAtMost, TakesBack, WritesReplies};
ghost use Rattle.commands.specs.Serving.{CountsAsTold, IsServed, IsShared};
ghost use Rattle.commands.specs.Status.{code_of};
ghost use Rattle.commands.specs.Subscribing.{IsFollowed};
ghost use Rattle.commands.specs.Words.{request_in, usage};
ghost use Rattle.commands.specs.declared.status.Status.{Status};

use crate::command_line::{Command, read_words};
use crate::script_command::{at_path, on_source};
use crate::serve_command::serve_at;
use crate::status::{Status, tell_status};
use crate::subscribe_command::subscribe_at;
use big_scripts::tell_sums;
use hublock::Register;
use log::Log;
use push_outside::Outside;
use replay::laws::lone_clients_react_to_each_message;
use script_laws::{replies_are_one, scripts_hold_throughout, sends_are_answered};
use std::alloc::Global;
use std::sync::Wait;
use std::thread::Threads;
use two_hubs::{scripts_relay_truly, whole_replies_are_one};

/// What is written where the words aren't as they should be: a line that names all commands.
pub const USAGE: &[u8] =
    b"usage: dnspush replay PATH | serve CONFIG | subscribe CONFIG | check PATH | big N\n";

/// All that the program does: reads the words of the command line, does what they ask, and answers the status. A server
/// may wait without an end; each other command is a call of its own that returns.
pub fn run<R: Log + Threads + Wait + Copy + Send + 'static, O: Outside, W: Register>(
    rt: R,
    alloc: Global,
    words: &[String],
    input: &mut O::In,
    out: &mut O::Out,
    outside: &mut O,
    register: &mut W,
) -> u8
    // What is written, for the octets that the source had, as far as they are told: the reply to these; and in scripts of one hub what is
    // promised of a peer's SUBSCRIBE, of octets that come in pieces, and of a lone client that is fed.
    ensures replied { WritesReplies (request_in words.now)
        (IsAnswered (request_in words.now) (O.In.left input.old) (O.told outside.old).used (O.told outside.new).used (O.Out.taken out.old) (O.Out.taken out.new)
        (O.In.faults input.old) (O.In.faults input.new) (O.reads outside.old) (O.reads outside.new) result) }

    // In every script of one hub no `held` line shows an earlier point than one before it of that client and question, and right after a settle each
    // question that a client wants, and that is served, is held with the newest records. After each line what is under way fits, and what
    // clients hold is the history; no message ends a session, unless it falls behind, or closes its client, but a Retry Delay; and each message
    // that comes to a session has its turn, in which what the server's table tells is done.
    ensures promises { (octets : List ℕ) (script : List ScriptLine) → AsksFor (request_in words.now) (front_read octets) script → HoldsThroughout script }

    // In every script that may have a second hub all of this holds of what the lines are to either hub. A carry is answered 0, and the second
    // zone has its set, or 5, where it would have too many records. What a far client shows of a name, but for the second zone's own, was carried: the
    // records of the first hub at the point of the last carry answered 0 before its own point, or nothing, where there was none. It never goes
    // back, and right after a settle it is what was carried last.
    ensures relays { (octets : List ℕ) (script : List WholeLine) → AsksForWhole (request_in words.now) (front_read octets) script → RelaysTruly script }

    // A subscriber dials the server of its configuration, says what it reads, and sends what is to be sent for that.
    ensures followed { (octets : List ℕ) → IsFollowed (request_in words.now) (record { told = O.told outside.old; printed = O.Out.taken out.old; reads = O.reads outside.old; others = O.others outside.old })
        (record { told = O.told outside.new; printed = O.Out.taken out.new; reads = O.reads outside.new; others = O.others outside.new }) result octets }

    // A server listens and hears where its configuration says, accepts so many sessions, hands the jobs for these to the starter, and tells what
    // was accepted, by the counts of which the register was told when its loops had all ended; or why it ended otherwise.
    ensures serves { (octets : List ℕ) → IsServed (request_in words.now) (record { told = O.told outside.old; printed = O.Out.taken out.old; reads = O.reads outside.old; others = O.others outside.old })
        (record { told = O.told outside.new; printed = O.Out.taken out.new; reads = O.reads outside.new; others = O.others outside.new })
        (CountsAsTold (W.endings register.old) (W.endings register.new)) result octets }

    // The hub that the jobs of a server share is the one with its configuration's homes and timers, in which nothing has changed yet, and no other
    // goes behind a lock.
    ensures shared { (octets : List ℕ) → IsShared (request_in words.now) (O.told outside.old).used (O.told outside.new).used (W.hubs register.old) (W.hubs register.new) result octets }

    // When each status comes.
    ensures statuses { (status : Status) × (result ≡ code_of status) }
    ensures usage { result ≡ 1 → IsNone (request_in words.now) }
    ensures usage_text { IsNone (request_in words.now) → Took (O.Out.taken out.old) (O.Out.taken out.new) (λ wrote. IsFrontOf wrote usage) }
    ensures usage_told { IsNone (request_in words.now) → (result ≡ 1) ⊎ (result ≡ 5) }
    ensures read_fault { result ≡ 3 → SourceRose (request_in words.now)
        (Rose (O.In.faults input.old) (O.In.faults input.new)) (Rose (O.reads outside.old) (O.reads outside.new)) }
    ensures write_fault { result ≡ 5 → SinkRose (request_in words.now)
        (Rose (O.Out.faults out.old) (O.Out.faults out.new)) (Rose (O.writes outside.old) (O.writes outside.new)) }
    ensures outside_fault { result ≡ 6 → ReachRose (request_in words.now) (Rose (O.others outside.old) (O.others outside.new)) }

    // A script is read to its end, or to the octet with which it is too long.
    ensures rest { LeavesRest (request_in words.now) result (O.In.left input.old) (O.In.left input.new) (O.told outside.old).used (O.told outside.new).used }
    ensures most { LostAtMost (max_script + 1) (O.In.left input.old) (O.In.left input.new) }
    ensures used { TakesAtMost (request_in words.now) (O.told outside.old).used (O.told outside.new).used }
    ensures returned { TakesBack (request_in words.now) (O.told outside.old).opened (O.told outside.new).opened (O.told outside.old).used (O.told outside.new).used (O.reads outside.old) (O.reads outside.new) }

    // What is handed to the outside and taken from it, and that the input isn't read unasked.
    ensures opened { OpensPath (request_in words.now) (O.told outside.old).opened (O.told outside.new).opened result }
    ensures reached { Reaches (request_in words.now) (O.told outside.old) (O.told outside.new) }
    ensures input { InputStays (request_in words.now) input.old input.new }
{
    replies_are_one();
    sends_are_answered();
    lone_clients_react_to_each_message();
    scripts_hold_throughout();
    whole_replies_are_one();
    scripts_relay_truly();
    match read_words(words) {
        None => tell_status(out, Status::Usage, USAGE).code(),
        Some(Command::OnInput(task)) => Status::Ended(on_source(alloc, task, input, out)).code(),
        Some(Command::AtPath(task, path)) => {
            let outcome = at_path(alloc, task, path, out, outside);
            Status::Ended(outcome).code()
        }
        Some(Command::Big(number)) => Status::Ended(tell_sums(alloc, number, out)).code(),
        Some(Command::Serve(path)) => serve_at(rt, alloc, path, out, outside, register).code(),
        Some(Command::Subscribe(path)) => subscribe_at(&rt, alloc, path, out, outside).code(),
    }
}
