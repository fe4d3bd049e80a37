//! `give` over all that is kept.

ghost use Rattle.std.specs.Prelude.{◌≡◌, length, IfOk, OnErr};
ghost use Rattle.pushserver.specs.Hubs.{records_now};
ghost use Rattle.pushserver.specs.Giving.{give};
ghost use Rattle.pushserver.specs.HubState.{Gave, IsSound, IsToJudge, IsToReconfirm, kept_of};
ghost use Rattle.pushserver.specs.Laws.{MayWantMemory};
ghost use Rattle.livesessions.specs.Watched.{Watches};
ghost use Rattle.subscr.specs.Watching.{watching_of};

use crate::given::Given;
use crate::hub_state::HubState;
use crate::turning::{Turn, after_reaction, take_turn};
use dnswire::Update;
use dsosession::session::EndReason;
use push_base::Steps;
use pushsession::NoMemory;
use rrset::Rr;
use std::sync::ledger::Ledger;

impl HubState {
    /// Judges the update that a session's first message is, if it is one, and answers with its RCODE (RFC 2136, 3.8).
    fn answer_update<L: Ledger>(
        &mut self,
        number: u64,
        found: Option<Update>,
        buf: &mut [u8],
        steps: &mut Steps<L>,
    ) -> Result<Given, NoMemory>
        requires sound { IsSound self.old }
        requires ready { IsToJudge number found self.old.sessions }
        ensures ok { IfOk result (λ given. Gave (give (kept_of self.old) number (length buf.old)) given buf.old buf.new (kept_of self.new)) }
        ensures err { OnErr result (kept_of self.new ≡ kept_of self.old) }
        ensures index { self.new.index.rows ≡ records_now (kept_of self.new) }
        ensures watched { Watches (watching_of self.new.watchers) self.new.sessions }
    {
        let code = self.judge(found, steps)?;
        let now = self.points.now();
        match self.sessions.get_mut(number) {
            Some(session) => {
                session.answer_update(code, now);
                Ok(after_reaction(session, buf))
            }
            None => Ok(Given::Worked),
        }
    }

    /// Reconfirms the record of a session's first message, and then the session takes that message up (RFC 8765, 6.5).
    fn take_reconfirm<L: Ledger>(
        &mut self,
        number: u64,
        rr: Rr,
        buf: &mut [u8],
        steps: &mut Steps<L>,
    ) -> Result<Given, NoMemory>
        requires sound { IsSound self.old }
        requires ready { IsToReconfirm number rr self.old.sessions }
        ensures ok { IfOk result (λ given. Gave (give (kept_of self.old) number (length buf.old)) given buf.old buf.new (kept_of self.new)) }
        ensures err { OnErr result (kept_of self.new ≡ kept_of self.old) }
        ensures index { self.new.index.rows ≡ records_now (kept_of self.new) }
        ensures watched { Watches (watching_of self.new.watchers) self.new.sessions }
    {
        let now = self.points.now();
        self.reconfirm(&rr, steps)?;
        match self.sessions.get_mut(number) {
            Some(session) => {
                session.reconfirm(Some(rr), now, &mut self.watchers, number);
                Ok(after_reaction(session, buf))
            }
            None => Ok(Given::Worked),
        }
    }

    /// The longest front of a session's output that fits, or else what is to be done for it.
    pub(crate) fn give<L: Ledger>(
        &mut self,
        number: u64,
        buf: &mut [u8],
        steps: &mut Steps<L>,
    ) -> Result<Given, NoMemory>
        requires { IsSound self.old }
        ensures ok { IfOk result (λ given. Gave (give (kept_of self.old) number (length buf.old)) given buf.old buf.new (kept_of self.new)) }
        ensures err { OnErr result (kept_of self.new ≡ kept_of self.old) }
        ensures memory { OnErr result (MayWantMemory (kept_of self.old) number) }
        ensures index { self.new.index.rows ≡ records_now (kept_of self.new) }
        ensures watched { Watches (watching_of self.new.watchers) self.new.sessions }
    {
        let alloc = self.allocator();
        let Some(session) = self.sessions.get_mut(number) else {
            return Ok(Given::End(EndReason::Gone));
        };
        match take_turn(
            session,
            alloc,
            &self.points,
            &self.index,
            self.timers,
            &mut self.watchers,
            number,
            buf,
            steps,
        )? {
            Turn::Did(given) => Ok(given),
            Turn::Judge(found) => self.answer_update(number, found, buf, steps),
            Turn::Reconfirm(rr) => self.take_reconfirm(number, rr, buf, steps),
        }
    }
}
