//! What an entry makes wait (RFC 8765, 6.3).

ghost use Rattle.std.specs.Prelude.{◌≡◌, ◌+◌, ◌∷◌, [], ℕ, OnOk, OnErr};
ghost use Rattle.coalesce.specs.Waiting.{first_point, old_value};
ghost use Rattle.pushsession.specs.Sessions.{noted};
ghost use Rattle.pushsession.specs.Kept.{keeping, taken_back};

use crate::NoMemory;
use crate::session::PushSession;
use coalesce::OldRecord;
use push_base::Steps;
use rrset::Changed;
use std::sync::ledger::Ledger;

impl PushSession {
    /// Notes a change that an entry is about to make, with what the key showed before: where a question asks for the key,
    /// its name waits from now on. It counts one step. Where memory runs out nothing changes.
    pub fn note<L: Ledger>(
        &mut self,
        change: &Changed,
        old: &OldRecord,
        steps: &mut Steps<L>,
    ) -> Result<(), NoMemory>
        ensures ok { OnOk result ((point : ℕ) → old.now ≡ (change.now.key, old_value point change.now) → self.new ≡ noted keeping (change.now ∷ []) point self.old) }
        ensures err { OnErr result (self.new ≡ self.old) }
        ensures steps { steps.new ≡ steps.old + 1 }
    {
        steps.tick();
        if self.subscriptions.wants(&change.key) {
            self.queue.keep(old)?;
        }
        Ok(())
    }

    /// The point since which the name waits that waits longest, where points rise: the first one's.
    pub fn least(&self) -> Option<u64>
        ensures { result ≡ first_point self.now.queue }
    {
        self.queue.least()
    }

    /// Takes out what was noted at a point or a later one, where the entry at the point wasn't made.
    pub fn take_back(&mut self, point: u64)
        ensures { self.new ≡ taken_back point self.old }
    {
        self.queue.take_back(point);
    }
}
