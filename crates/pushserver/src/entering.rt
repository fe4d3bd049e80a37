//! Entries of the history, and what they make of all that is kept.

ghost use Rattle.std.specs.Prelude.{◌≡◌, ◌≤◌, true, IfOk, OnOk, OnErr};
ghost use Rattle.history.specs.HeldPlans.{IsTimely};
ghost use Rattle.history.specs.Kept.{IsHeld};
ghost use Rattle.history.specs.States.{entry_size, max_journal_octets};
ghost use Rattle.pushserver.specs.Hubs.{can_enter, entered_keeping, entry_changes, records_now};
ghost use Rattle.pushserver.specs.HubState.{IsSound, kept_of};
ghost use Rattle.pushserver.specs.KeptHubs.{Forgets};
ghost use Rattle.pushserver.specs.Offering.{code_of, heard_of, is_made, offered, offered_changes};
ghost use Rattle.livesessions.specs.Watched.{Watches};
ghost use Rattle.pushserver.specs.Watched.{allowed};
ghost use Rattle.push_base.specs.Counted.{CountsUpTo};
ghost use Rattle.subscr.specs.Watching.{watching_of};

use crate::given::{Heard, Why};
use crate::hub_state::HubState;
use history::entry::Entry;
use history::{ChangedKeys, Planned};
use livesessions::note;
use push_base::Steps;
use push_base::limits::MAX_NUMBER;
use pushsession::NoMemory;
use rrset::rcodes::{NOERROR, SERVFAIL};
use std::sync::ledger::Ledger;

/// What became of an entry that was offered.
#[derive(Clone, Copy, Debug)]
pub(crate) enum Offered {
    /// It is an update, which this RCODE refuses.
    Refused(u8),
    /// It is another entry, which isn't accepted.
    Idle,
    /// The point is the last one.
    Last,
    /// It was entered.
    Made,
}

/// The RCODE of an update that was offered, which is never idle: SERVFAIL at the last point (RFC 2136, 2.2).
pub(crate) fn code_of(offered: Offered) -> u8
    ensures { result ≡ code_of offered }
{
    match offered {
        Offered::Refused(code) => code,
        Offered::Idle | Offered::Last => SERVFAIL,
        Offered::Made => NOERROR,
    }
}

/// What became of a hearing that was offered, which is never refused.
pub(crate) fn heard_of(offered: Offered) -> Heard
    ensures { result ≡ heard_of offered }
{
    match offered {
        Offered::Refused(_) | Offered::Idle => Heard::Ignored(Why::Nothing),
        Offered::Last => Heard::Ignored(Why::Last),
        Offered::Made => Heard::Entered,
    }
}

/// Whether an entry that was offered was made.
pub(crate) fn is_made(offered: Offered) -> bool
    ensures { result ≡ is_made offered }
{
    match offered {
        Offered::Refused(_) | Offered::Idle | Offered::Last => false,
        Offered::Made => true,
    }
}

impl HubState {
    /// Whether an entry may still be made, as at each point but the last.
    pub(crate) fn can_enter(&self) -> bool
        ensures { result ≡ can_enter (kept_of self.now) }
    {
        self.points.point() < MAX_NUMBER
    }

    /// Enters the entry whose plan is held, which isn't made at the last point: each session that watches its names notes
    /// what it changes, and then the history, and the table of all records, have it. Sessions that would need more of the
    /// past than is kept end as behind, and of the past that no session needs some may be forgotten. Where memory runs out
    /// nothing changes.
    pub(crate) fn enter<L: Ledger>(
        &mut self,
        entry: Entry,
        changed: ChangedKeys,
        steps: &mut Steps<L>,
    ) -> Result<(), NoMemory>
        requires sound { IsSound self.old }
        requires held { IsHeld self.old.points entry }
        requires room { can_enter (kept_of self.old) ≡ true }
        requires fits { entry_size entry ≤ max_journal_octets }
        requires changes { changed ≡ entry_changes entry (kept_of self.old) }
        ensures ok { OnOk result (Forgets (entered_keeping entry (kept_of self.old)) (kept_of self.new)) }
        ensures err { OnErr result (kept_of self.new ≡ kept_of self.old) }
        ensures index { self.new.index.rows ≡ records_now (kept_of self.new) }
        ensures watched { Watches (watching_of self.new.watchers) self.new.sessions }
        ensures steps { CountsUpTo (allowed (kept_of self.old) (entry_changes entry (kept_of self.old))) steps.old steps.new }
    {
        let point = self.points.point();
        let floor = self.points.floor(entry.size());
        let keep = self.sessions.needed(floor, point);
        self.index.reserve_for(changed.as_slice(), steps)?;
        note(
            &mut self.sessions,
            &self.watchers,
            changed.as_slice(),
            point,
            steps,
        )?;
        if self.points.append(entry, keep).is_err() {
            self.sessions.take_back(point);
            return Err(NoMemory);
        }
        self.sessions.end_behind(floor, &mut self.watchers);
        self.index.make_changes(changed.into_vec(), steps);
        Ok(())
    }

    /// Enters an entry where it is accepted, at each point but the last. Where memory runs out nothing changes.
    pub(crate) fn offer<L: Ledger>(
        &mut self,
        entry: Entry,
        steps: &mut Steps<L>,
    ) -> Result<Offered, NoMemory>
        requires sound { IsSound self.old }
        requires timely { IsTimely entry }
        requires fits { entry_size entry ≤ max_journal_octets }
        ensures offered { IfOk result (λ o. o ≡ (offered entry (kept_of self.old)).0) }
        ensures hub { IfOk result (λ o. Forgets (offered entry (kept_of self.old)).1 (kept_of self.new)) }
        ensures err { OnErr result (kept_of self.new ≡ kept_of self.old) }
        ensures index { self.new.index.rows ≡ records_now (kept_of self.new) }
        ensures watched { Watches (watching_of self.new.watchers) self.new.sessions }
        ensures steps { CountsUpTo (allowed (kept_of self.old) (offered_changes entry (kept_of self.old))) steps.old steps.new }
    {
        let alloc = self.allocator();
        match self.points.plan(alloc, &entry)? {
            Planned::Refuse(code) => Ok(Offered::Refused(code)),
            Planned::Idle => Ok(Offered::Idle),
            Planned::Accept(changed) => {
                if !self.can_enter() {
                    return Ok(Offered::Last);
                }
                self.enter(entry, changed, steps)?;
                Ok(Offered::Made)
            }
        }
    }
}
