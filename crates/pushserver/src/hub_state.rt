//! What the hub keeps, and what its calls do to that.

ghost use Rattle.std.specs.Prelude.{◌≡◌, ◌≤◌, List, ℕ, Ok, Some, length, true, IfOk, IfSome, IsTrue, OnErr, OnOk, ok_or};
ghost use Rattle.std.specs.List.{AllByRecursion};
ghost use Rattle.push_base.specs.Cases.{fault_as};
ghost use Rattle.push_base.specs.Limits.{max_moment};
ghost use Rattle.dnsname.specs.Names.{is_name};
ghost use Rattle.rrset.specs.Rcodes.{formerr};
ghost use Rattle.dnswire.specs.Reading.{hearing_of};
ghost use Rattle.history.specs.Kept.{state_of};
ghost use Rattle.history.specs.Plans.{IsStart};
ghost use Rattle.history.specs.AtHome.{AreAtHome, homes_in};
ghost use Rattle.history.specs.States.{entry_size, max_journal_octets, update_in};
ghost use Rattle.history.specs.declared.entry.Entry.TheVariants as entries;
ghost use Rattle.pushserver.specs.Hubs.{can_enter, connect, disconnect, hear, link_gone, moment, records_now, stop, take_octets, taken_by, update, why_not};
ghost use Rattle.pushserver.specs.Giving.{reconfirm};
ghost use Rattle.pushserver.specs.KeptHubs.{Forgets, new_kept};
ghost use Rattle.pushserver.specs.HubState.{IsSound, kept_of};
ghost use Rattle.livesessions.specs.Watched.{Watches};
ghost use Rattle.pushserver.specs.Watched.{allowed, gone_changes, hear_changes, update_changes};
ghost use Rattle.push_base.specs.Counted.{CountsUpTo};
ghost use Rattle.subscr.specs.Watching.{watching_of};

use crate::decode::read_message;
use crate::entering::{code_of, heard_of, is_made};
use crate::given::{Heard, Why};
use dnswire::Update;
use dsosession::session::Timers;
use history::entry::Entry;
use history::{Homes, Points};
use livesessions::{MAX_SESSIONS, Sessions};
use push_base::Steps;
use push_base::limits::MAX_NUMBER;
use pushsession::{NoMemory, PushSession};
use recordindex::RecordIndex;
use rrset::rcodes::FORMERR;
use rrset::{Hearing, Rr};
use std::alloc::Global;
use std::sync::ledger::Ledger;
use subscr::Watchers;

/// The history, what is granted, all records in one table, the sessions and who of them watches a name, and the number of
/// the next one.
#[derive(Debug, Drop)]
pub(crate) struct HubState {
    pub(crate) points: Points,
    pub(crate) timers: Timers,
    pub(crate) index: RecordIndex,
    pub(crate) sessions: Sessions,
    pub(crate) watchers: Watchers,
    pub(crate) numbers_given: u64,
}

impl HubState {
    /// What is kept of homes in which nothing has changed yet.
    pub(crate) fn new(homes: Homes, timers: Timers) -> Result<HubState, NoMemory>
        requires { IsStart (state_of homes) }
        ensures kept { IfOk result (λ keeping. kept_of keeping ≡ new_kept (state_of homes) timers) }
        ensures index { IfOk result (λ keeping. keeping.index.rows ≡ records_now (kept_of keeping)) }
        ensures watched { IfOk result (λ keeping. Watches (watching_of keeping.watchers) keeping.sessions) }
        ensures home { AreAtHome (state_of homes) }
        ensures names { AllByRecursion (λ h. IsTrue (is_name h.0)) (homes_in (state_of homes)) }
    {
        homes.tell_names();
        let alloc = homes.allocator();
        let points = Points::new(homes)?;
        let index = RecordIndex::from_table(alloc, points.table(alloc)?)?;
        Ok(HubState {
            points,
            timers,
            index,
            sessions: Sessions::new(alloc),
            watchers: Watchers::new(alloc),
            numbers_given: 0,
        })
    }

    /// The allocator of all that is kept.
    pub(crate) fn allocator(&self) -> Global {
        self.sessions.allocator()
    }

    /// Judges the update that a message is, if it is one, and enters it where it is accepted. Gives its RCODE: FORMERR for
    /// what is no update, SERVFAIL at the last point (RFC 2136, 2.2).
    pub(crate) fn judge<L: Ledger>(
        &mut self,
        found: Option<Update>,
        steps: &mut Steps<L>,
    ) -> Result<u8, NoMemory>
        requires sound { IsSound self.old }
        requires fits { IfSome found (λ update. entry_size (entries.Update update) ≤ max_journal_octets) }
        ensures code { IfOk result (λ code. (message : List ℕ) → update_in message ≡ ok_or found formerr → code ≡ (update (kept_of self.old) message).0) }
        ensures hub { IfOk result (λ code. (message : List ℕ) → update_in message ≡ ok_or found formerr → Forgets (update (kept_of self.old) message).1 (kept_of self.new)) }
        ensures err { OnErr result (kept_of self.new ≡ kept_of self.old) }
        ensures index { self.new.index.rows ≡ records_now (kept_of self.new) }
        ensures watched { Watches (watching_of self.new.watchers) self.new.sessions }
        ensures steps { (message : List ℕ) → update_in message ≡ ok_or found formerr → CountsUpTo (allowed (kept_of self.old) (update_changes (kept_of self.old) message)) steps.old steps.new }
    {
        let Some(update) = found else {
            return Ok(FORMERR);
        };
        let offered = self.offer(Entry::Update(update), steps)?;
        Ok(code_of(offered))
    }

    /// Judges an update message.
    pub(crate) fn update<L: Ledger>(
        &mut self,
        message: &[u8],
        steps: &mut Steps<L>,
    ) -> Result<u8, NoMemory>
        requires { IsSound self.old }
        ensures code { IfOk result (λ code. code ≡ (update (kept_of self.old) message.now).0) }
        ensures hub { IfOk result (λ code. Forgets (update (kept_of self.old) message.now).1 (kept_of self.new)) }
        ensures err { OnErr result (kept_of self.new ≡ kept_of self.old) }
        ensures index { self.new.index.rows ≡ records_now (kept_of self.new) }
        ensures watched { Watches (watching_of self.new.watchers) self.new.sessions }
        ensures steps { CountsUpTo (allowed (kept_of self.old) (update_changes (kept_of self.old) message.now)) steps.old steps.new }
    {
        let alloc = self.allocator();
        let found = read_message(alloc, message)?;
        self.judge(found, steps)
    }

    /// Enters what a datagram of a link said where a record of it can be used.
    fn enter_hearing<L: Ledger>(
        &mut self,
        link: usize,
        hearing: Hearing,
        steps: &mut Steps<L>,
    ) -> Result<Heard, NoMemory>
        requires sound { IsSound self.old }
        requires fits { entry_size (entries.Heard link hearing) ≤ max_journal_octets }
        ensures heard { IfOk result (λ heard. (datagram : List ℕ) → hearing_of datagram ≡ Ok hearing → heard ≡ (hear (kept_of self.old) link datagram).0) }
        ensures hub { IfOk result (λ heard. (datagram : List ℕ) → hearing_of datagram ≡ Ok hearing → Forgets (hear (kept_of self.old) link datagram).1 (kept_of self.new)) }
        ensures err { OnErr result (kept_of self.new ≡ kept_of self.old) }
        ensures index { self.new.index.rows ≡ records_now (kept_of self.new) }
        ensures watched { Watches (watching_of self.new.watchers) self.new.sessions }
        ensures steps { (datagram : List ℕ) → hearing_of datagram ≡ Ok hearing → CountsUpTo (allowed (kept_of self.old) (hear_changes (kept_of self.old) link datagram)) steps.old steps.new }
    {
        let entry = Entry::Heard(link, hearing);
        let offered = self.offer(entry, steps)?;
        Ok(heard_of(offered))
    }

    /// Hears a datagram of a link, counted from 0 (RFC 6762, 18), that was read.
    pub(crate) fn hear<L: Ledger>(
        &mut self,
        link: usize,
        datagram: &[u8],
        read: Result<Hearing, Why>,
        steps: &mut Steps<L>,
    ) -> Result<Heard, NoMemory>
        requires sound { IsSound self.old }
        requires read { fault_as why_not (hearing_of datagram.now) ≡ read }
        ensures heard { IfOk result (λ heard. heard ≡ (hear (kept_of self.old) link datagram.now).0) }
        ensures hub { IfOk result (λ heard. Forgets (hear (kept_of self.old) link datagram.now).1 (kept_of self.new)) }
        ensures err { OnErr result (kept_of self.new ≡ kept_of self.old) }
        ensures index { self.new.index.rows ≡ records_now (kept_of self.new) }
        ensures watched { Watches (watching_of self.new.watchers) self.new.sessions }
        ensures steps { CountsUpTo (allowed (kept_of self.old) (hear_changes (kept_of self.old) link datagram.now)) steps.old steps.new }
    {
        match read {
            Ok(hearing) => self.enter_hearing(link, hearing, steps),
            Err(why) => Ok(Heard::Ignored(why)),
        }
    }

    /// Enters that a link has gone away, and all its rows with it. Gives whether that was entered.
    pub(crate) fn link_gone<L: Ledger>(
        &mut self,
        link: usize,
        steps: &mut Steps<L>,
    ) -> Result<bool, NoMemory>
        requires { IsSound self.old }
        ensures gone { IfOk result (λ gone. gone ≡ (link_gone (kept_of self.old) link).0) }
        ensures hub { IfOk result (λ gone. Forgets (link_gone (kept_of self.old) link).1 (kept_of self.new)) }
        ensures err { OnErr result (kept_of self.new ≡ kept_of self.old) }
        ensures index { self.new.index.rows ≡ records_now (kept_of self.new) }
        ensures watched { Watches (watching_of self.new.watchers) self.new.sessions }
        ensures steps { CountsUpTo (allowed (kept_of self.old) (gone_changes (kept_of self.old) link)) steps.old steps.new }
    {
        let offered = self.offer(Entry::LinkGone(link), steps)?;
        Ok(is_made(offered))
    }

    /// Reconfirms a record where a link shows it; else it is ignored (RFC 8765, 6.5).
    pub(crate) fn reconfirm<L: Ledger>(
        &mut self,
        rr: &Rr,
        steps: &mut Steps<L>,
    ) -> Result<(), NoMemory>
        requires { IsSound self.old }
        ensures hub { OnOk result (Forgets (reconfirm (kept_of self.old) rr.now) (kept_of self.new)) }
        ensures err { OnErr result (kept_of self.new ≡ kept_of self.old) }
        ensures index { self.new.index.rows ≡ records_now (kept_of self.new) }
        ensures watched { Watches (watching_of self.new.watchers) self.new.sessions }
    {
        let alloc = self.allocator();
        let Some((link, key)) = self.points.reconfirm_key(alloc, rr)? else {
            return Ok(());
        };
        self.offer(Entry::Reconfirm(link, key), steps)?;
        Ok(())
    }

    /// It is a moment, in milliseconds. At the last point nothing happens.
    pub(crate) fn moment<L: Ledger>(
        &mut self,
        at: u64,
        steps: &mut Steps<L>,
    ) -> Result<(), NoMemory>
        requires sound { IsSound self.old }
        requires timely { at ≤ max_moment }
        ensures hub { OnOk result (Forgets (moment (kept_of self.old) at) (kept_of self.new)) }
        ensures err { OnErr result (kept_of self.new ≡ kept_of self.old) }
        ensures room { OnErr result (can_enter (kept_of self.old) ≡ true) }
        ensures index { self.new.index.rows ≡ records_now (kept_of self.new) }
        ensures watched { Watches (watching_of self.new.watchers) self.new.sessions }
    {
        if at <= self.points.now() {
            return Ok(());
        }
        if !self.can_enter() {
            return Ok(());
        }
        self.offer(Entry::Moment(at), steps)?;
        self.sessions.moment(at, &mut self.watchers);
        Ok(())
    }

    /// A new session. Gives its number, or nothing where no seat is free, which is told before any memory is taken.
    pub(crate) fn connect(&mut self) -> Result<Option<u64>, NoMemory>
        requires { IsSound self.old }
        ensures number { IfOk result (λ number. number ≡ (connect (kept_of self.old)).0) }
        ensures hub { IfOk result (λ number. kept_of self.new ≡ (connect (kept_of self.old)).1) }
        ensures err { OnErr result (kept_of self.new ≡ kept_of self.old) }
        ensures seat { OnErr result ((connect (kept_of self.old)).0 ≡ Some self.old.numbers_given) }
        ensures index { self.new.index.rows ≡ records_now (kept_of self.new) }
        ensures watched { Watches (watching_of self.new.watchers) self.new.sessions }
    {
        if self.sessions.len() >= MAX_SESSIONS || self.numbers_given == MAX_NUMBER {
            return Ok(None);
        }
        let number = self.numbers_given;
        let session = PushSession::new(self.allocator(), self.points.now())?;
        self.sessions.push(number, session)?;
        self.numbers_given = number + 1;
        Ok(Some(number))
    }

    /// The session of a number goes.
    pub(crate) fn end(&mut self, number: u64)
        requires { IsSound self.old }
        ensures hub { kept_of self.new ≡ disconnect (kept_of self.old) number }
        ensures index { self.new.index.rows ≡ records_now (kept_of self.new) }
        ensures watched { Watches (watching_of self.new.watchers) self.new.sessions }
    {
        self.sessions.unwatch(number, &mut self.watchers);
        self.sessions.remove(number);
    }

    /// Octets go into a session's input as far as there is room. Gives how many.
    pub(crate) fn take(&mut self, number: u64, piece: &[u8]) -> usize
        requires { IsSound self.old }
        ensures count { result ≡ taken_by (kept_of self.old) number piece.now }
        ensures hub { kept_of self.new ≡ take_octets (kept_of self.old) number piece.now }
        ensures bound { result ≤ length piece.now }
        ensures index { self.new.index.rows ≡ records_now (kept_of self.new) }
        ensures watched { Watches (watching_of self.new.watchers) self.new.sessions }
    {
        match self.sessions.get_mut(number) {
            Some(session) => session.take(piece),
            None => 0,
        }
    }

    /// A stop of a session is asked for, with an RCODE and a Retry Delay in milliseconds (RFC 8490, 6.6.1).
    pub(crate) fn stop(&mut self, number: u64, rcode: u8, delay: u32)
        requires { IsSound self.old }
        ensures hub { kept_of self.new ≡ stop (kept_of self.old) number rcode delay }
        ensures index { self.new.index.rows ≡ records_now (kept_of self.new) }
        ensures watched { Watches (watching_of self.new.watchers) self.new.sessions }
    {
        if let Some(session) = self.sessions.get_mut(number) {
            session.stop(rcode, delay);
        }
    }
}
