//! What a script is answered.

ghost use Rattle.std.specs.Prelude.{◌≡◌, ◌⊎◌, IfOk, IfSome, string_bytes};
ghost use Rattle.scripts.specs.KeptWhole.{ReadsWhole};
ghost use Rattle.replay.specs.ScriptTexts.{outside_text};
ghost use Rattle.replay.specs.TextWords.{by_notices};
ghost use Rattle.replay.specs.ScriptReplies.{reply_of};
ghost use Rattle.replay.specs.WholeTexts.{whole_reply};
ghost use Rattle.replay.specs.KeptEnds.{AreEnds, EndsWhenDone};

use crate::ends::{Ends, ends_of};
use crate::script_text::{Played, script_text};
use push_base::NoMemory;
use scripts::{Outcome, ReadWhole, read_whole_script};
use std::alloc::Global;

/// How a replay ends if all goes well, the text that is then written, and what the script leaves.
#[derive(Drop)]
pub struct Reply {
    /// `Done` or `Outside`.
    pub outcome: Outcome,
    /// What is written.
    pub text: String,
    /// The hubs and the clients, where the script was run.
    pub ends: Option<Ends>,
}

/// The script, which stands by itself: its octets are given back.
fn read_once(alloc: Global, octets: Vec<u8>) -> Result<ReadWhole, NoMemory>
    ensures { IfOk result (ReadsWhole octets.items) }
{
    read_whole_script(alloc, &octets)
}

/// The text of the script, or the number of the first line outside.
pub fn reply_to(alloc: Global, octets: Vec<u8>) -> Result<Reply, NoMemory>
    ensures exact { IfOk result (λ reply. reply_of reply ≡ whole_reply by_notices octets.items) }
    ensures outcome { IfOk result (λ reply. (reply.outcome ≡ Outcome.Done) ⊎ (reply.outcome ≡ Outcome.Outside)) }
    ensures there { IfOk result (λ reply. EndsWhenDone reply.outcome reply.ends) }
    ensures ends { IfOk result (λ reply. IfSome reply.ends (AreEnds octets.items)) }
{
    match read_once(alloc, octets)? {
        ReadWhole::Whole(script) => {
            let Played { text, worlds } = script_text(alloc, script)?;
            let ends = ends_of(alloc, worlds)?;
            Ok(Reply {
                outcome: Outcome::Done,
                text,
                ends: Some(ends),
            })
        }
        ReadWhole::Outside(number) => {
            let text = line_text(alloc, number)?;
            Ok(Reply {
                outcome: Outcome::Outside,
                text,
                ends: None,
            })
        }
    }
}

/// What is written where that line is the first outside.
pub(crate) fn line_text(alloc: Global, number: usize) -> Result<String, NoMemory>
    ensures { IfOk result (λ text. string_bytes text ≡ outside_text number) }
{
    format!(in alloc; "line {number}\n")
}
