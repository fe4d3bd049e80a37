//! Those that watch the names at which an entry changes keys note what it is about to change (RFC 8765, 6.3).

ghost use Rattle.std.specs.Prelude.{◌≡◌, ◌+◌, ◌*◌, ◌∷◌, [], ℕ, fold, length, OnOk, OnErr};
ghost use Rattle.push_base.specs.Counted.{CountsUpTo};
ghost use Rattle.subscr.specs.Watching.{watching_of};
ghost use Rattle.coalesce.specs.Waiting.{old_value};
ghost use Rattle.pushsession.specs.Sessions.{noted};
ghost use Rattle.pushsession.specs.Kept.{keeping, taken_back};
ghost use Rattle.livesessions.specs.NumberedSessions.{all_sessions, in_sessions, AreApart, WaitBefore};
ghost use Rattle.livesessions.specs.Watched.{Watches, noting_steps, watching_in};

use crate::numbered_sessions::Sessions;
use coalesce::OldRecord;
use push_base::Steps;
use pushsession::NoMemory;
use rrset::Changed;
use std::sync::ledger::Ledger;
use subscr::Watchers;

/// The session of a number notes a change, with what its key showed before.
fn note_one<L: Ledger>(
    sessions: &mut Sessions,
    number: u64,
    change: &Changed,
    old: &OldRecord,
    steps: &mut Steps<L>,
) -> Result<(), NoMemory>
    ensures ok { OnOk result ((point : ℕ) → old.now ≡ (change.now.key, old_value point change.now) → sessions.new ≡ in_sessions number (noted keeping (change.now ∷ []) point) sessions.old) }
    ensures err { OnErr result (sessions.new ≡ sessions.old) }
    ensures steps { CountsUpTo 1 steps.old steps.new }
{
    match sessions.get_mut(number) {
        Some(session) => session.note(change, old, steps),
        None => Ok(()),
    }
}

/// The sessions of these numbers note a change, one after the other, as far as there is memory.
fn note_each<L: Ledger>(
    sessions: &mut Sessions,
    numbers: &[u64],
    change: &Changed,
    old: &OldRecord,
    steps: &mut Steps<L>,
) -> Result<(), NoMemory>
    ensures ok { OnOk result ((point : ℕ) → old.now ≡ (change.now.key, old_value point change.now) → sessions.new ≡ fold (λ xs number. in_sessions number (noted keeping (change.now ∷ []) point) xs) sessions.old numbers.now) }
    ensures err { OnErr result ((point : ℕ) → old.now ≡ (change.now.key, old_value point change.now) → all_sessions (taken_back point) sessions.new ≡ all_sessions (taken_back point) sessions.old) }
    ensures steps { CountsUpTo (length numbers.now) steps.old steps.new }
{
    'numbers: for number in numbers {
        note_one(sessions, *number, change, old, steps)?;
    }
    Ok(())
}

/// Each session that watches the name of a change notes it, as far as there is memory.
fn note_change<L: Ledger>(
    sessions: &mut Sessions,
    watchers: &Watchers,
    change: &Changed,
    point: u64,
    steps: &mut Steps<L>,
) -> Result<(), NoMemory>
    requires apart { AreApart sessions.old }
    requires watched { Watches (watching_of watchers.now) sessions.old }
    ensures ok { OnOk result (sessions.new ≡ all_sessions (noted keeping (change.now ∷ []) point) sessions.old) }
    ensures err { OnErr result (all_sessions (taken_back point) sessions.new ≡ all_sessions (taken_back point) sessions.old) }
    ensures steps { CountsUpTo (1 + 2 * watching_in change.now.key.owner sessions.old) steps.old steps.new }
{
    let numbers = watchers.at(&change.key.owner, steps);
    if numbers.is_empty() {
        return Ok(());
    }
    let old = OldRecord::new(sessions.allocator(), change, point)?;
    note_each(sessions, numbers, change, &old, steps)
}

/// Each session notes what an entry is about to change, as far as there is memory.
fn note_all<L: Ledger>(
    sessions: &mut Sessions,
    watchers: &Watchers,
    changed: &[Changed],
    point: u64,
    steps: &mut Steps<L>,
) -> Result<(), NoMemory>
    requires apart { AreApart sessions.old }
    requires watched { Watches (watching_of watchers.now) sessions.old }
    ensures ok { OnOk result (sessions.new ≡ all_sessions (noted keeping changed.now point) sessions.old) }
    ensures err { OnErr result (all_sessions (taken_back point) sessions.new ≡ all_sessions (taken_back point) sessions.old) }
    ensures steps { CountsUpTo (noting_steps changed.now sessions.old) steps.old steps.new }
{
    'changes: for change in changed {
        note_change(sessions, watchers, change, point, steps)?;
    }
    Ok(())
}

/// Each session notes what an entry is about to change at a point, or none does. Only those that watch its names are asked.
pub fn note<L: Ledger>(
    sessions: &mut Sessions,
    watchers: &Watchers,
    changed: &[Changed],
    point: u64,
    steps: &mut Steps<L>,
) -> Result<(), NoMemory>
    requires waiting { WaitBefore point sessions.old }
    requires apart { AreApart sessions.old }
    requires watched { Watches (watching_of watchers.now) sessions.old }
    ensures ok { OnOk result (sessions.new ≡ all_sessions (noted keeping changed.now point) sessions.old) }
    ensures err { OnErr result (sessions.new ≡ sessions.old) }
    ensures steps { CountsUpTo (noting_steps changed.now sessions.old) steps.old steps.new }
{
    match note_all(sessions, watchers, changed, point, steps) {
        Ok(()) => Ok(()),
        Err(_) => {
            sessions.take_back(point);
            Err(NoMemory)
        }
    }
}
