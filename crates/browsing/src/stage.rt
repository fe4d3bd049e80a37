//! What a turn leaves to be waited for.

ghost use Rattle.std.specs.Prelude.{◌≡◌, ◌==◌, nat_le, length};
ghost use Rattle.browsing.specs.Showing.{later};
ghost use Rattle.browsing.specs.Browsing.{idles, is_due, is_stage_over, stage_after};

use crate::showing::{Progress, QUIET, Showing};

/// What the last turn left to be waited for.
#[derive(Clone, Copy)]
pub enum Stage {
    /// No turn was made on this connection.
    Begun,
    /// Something that is needed has no answer.
    Waiting,
    /// All that is needed is answered; but octets came of late, or questions were dropped.
    Answered,
    /// The list is settled, and only octets can change it.
    Calm,
}

/// What is left to be waited for where so many questions were asked before some were dropped, and so many are kept.
pub(crate) fn stage_after(progress: Progress, asked: usize, kept: usize) -> Stage
    ensures { result ≡ stage_after progress asked kept }
{
    if !progress.answered {
        return Stage::Waiting;
    }
    if progress.settled && asked <= kept {
        return Stage::Calm;
    }
    Stage::Answered
}

// Whether no octet has come for a while.
fn is_quiet(heard: u64, now: u64) -> bool
    ensures { result ≡ nat_le (later heard QUIET) now }
{
    heard.saturating_add(QUIET) <= now
}

// Whether a stage is over, though no octet has come.
fn is_stage_over(stage: Stage, quiet: bool) -> bool
    ensures { result ≡ is_stage_over stage quiet }
{
    match stage {
        Stage::Begun => true,
        Stage::Waiting => false,
        Stage::Answered => quiet,
        Stage::Calm => false,
    }
}

// Whether a turn is due, though no octet has come.
fn is_due(stage: Stage, heard: u64, showing: &Showing, now: u64) -> bool
    ensures { result ≡ is_due stage heard showing.now now }
{
    is_stage_over(stage, is_quiet(heard, now)) || showing.is_overdue(now)
}

/// Whether a read gave no octets, and no turn is due.
pub(crate) fn is_idle(octets: &[u8], stage: Stage, heard: u64, showing: &Showing, now: u64) -> bool
    ensures { result ≡ idles octets.now stage heard showing.now now }
{
    octets.is_empty() && !is_due(stage, heard, showing, now)
}
