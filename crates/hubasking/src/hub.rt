//! A hub that asks its links what its sessions ask.

ghost use Rattle.std.specs.Prelude.{◌≡◌, ◌≤◌, ◌<◌, ◌+◌, ◌++◌, None, Some, drop, length, true, is_some, IfOk, IfSome, IsErrOf, OnErr, OnOk};
ghost use Rattle.push_base.specs.Limits.{max_datagram, max_moment};
ghost use Rattle.dnswire.specs.Reading.{hearing_of};
ghost use Rattle.history.specs.Kept.{state_of};
ghost use Rattle.history.specs.Plans.{IsStart};
ghost use Rattle.history.specs.Totals.{totals};
ghost use Rattle.pushserver.specs.Calls.{ends, gives, goes, hears, moves, updates};
ghost use Rattle.pushserver.specs.Counting.{AddsGoing, AddsHearing, MayAddChange, MayAddMoment, octets_of};
ghost use Rattle.pushserver.specs.Giving.{give};
ghost use Rattle.pushserver.specs.Hubs.{can_enter, connect, disconnect, hear, link_gone, max_sessions, moment, newest, now, session_of, state_now, stop, take_octets, taken_by, update};
ghost use Rattle.pushserver.specs.Laws.{MayWantMemory};
ghost use Rattle.pushserver.specs.Observing.{SaysWhy, all_filled_in, filled_in, told_in};
ghost use Rattle.pushserver.specs.KeptHubs.{Forgets, StandsFor, new_kept};
ghost use Rattle.pushserver.specs.PlainHubs.{Hub as Plain, new_hub};
ghost use Rattle.hubasking.specs.AskingHubs.{given_by, new_asking, untouched_by};
ghost use Rattle.hubasking.specs.Idle.{session_at};
ghost use Rattle.hubasking.specs.LinkAskings.{ask, asking_after, kept_questions, plain_questions};

use crate::asking::ask_link;
use crate::following::{Touched, follow, touched_by};
use crate::giving::{count_of, make_ready, settle, undo};
use crate::hearing::{lower, touched_by_hearing};
use crate::idle::session_at;
use crate::seating::seated;
use dnsname::Name;
use dsosession::session::Timers;
use history::Homes;
use history::entry::Totals;
use linkask::laws::bounds;
use linkreasons::LinkReasons;
use linkreasons::laws::reasons_are_followed;
use pushserver::{ConnectFault, Given, Heard, HubFault, NoMemory, read_datagram};
use std::marker::Model;

/// One history of all homes, and the sessions, each told of what it asks for (RFC 8765), and what each link is asked for them
/// (RFC 8766, 5.6). It stands for a plain hub as `pushserver`'s does, and each call but `ask` does to that what the call of the
/// same name does there; beside it stands what is asked. All moments are milliseconds of one clock.
#[derive(Debug)]
pub struct Hub {
    hub: pushserver::Hub,
    reasons: LinkReasons,
}

// By hand, so that crates above needn't prove that each part of a hub can be dropped.
impl Drop for Hub {
    fn drop(self) {
        let Hub { hub: _, reasons: _ } = self;
    }
}

impl Model for Hub {
    ghost use Rattle.linkreasons.specs.AllReasons.{askings_of};
    ghost use Rattle.hubasking.specs.AskingHubs.{AskingHub};
    ghost use Rattle.hubasking.specs.KeptReasons.{AreKept};

    ghost Value = { AskingHub };

    ghost view = { λ h. record { hub = h.hub; askings = askings_of h.reasons } };

    ghost invariant = { λ h. AreKept h.hub h.reasons };
}

/// How many links there are.
fn count_of_links(homes: &Homes) -> Result<usize, NoMemory>
    ensures { IfOk result (λ count. count ≡ length homes.now.links) }
{
    let mut count: usize = 0;
    'links: while homes.cache(count).is_some() {
        let Some(next) = count.checked_add(1) else {
            return Err(NoMemory);
        };
        count = next;
    }
    Ok(count)
}

impl Hub {
    /// A hub of homes in which nothing has changed yet, which grants these timers to sessions that ask for a Keepalive
    /// (RFC 8490, 7.1). Nothing is asked.
    pub fn new(homes: Homes, timers: Timers) -> Result<Hub, NoMemory>
        requires { IsStart (state_of homes) }
        ensures stands { IfOk result (λ made. StandsFor made.hub (new_hub (state_of homes) timers)) }
        ensures kept { IfOk result (λ made. made ≡ new_asking (state_of homes) timers) }
    {
        let alloc = homes.allocator();
        let links = count_of_links(&homes)?;
        let hub = pushserver::Hub::new(homes, timers)?;
        let reasons = LinkReasons::new(alloc, links)?;
        Ok(Hub { hub, reasons })
    }

    /// Judges an update message, and enters it where it is accepted (RFC 2136, 3). Gives its RCODE: FORMERR for what is
    /// no update, SERVFAIL at the last point.
    pub fn update_uncounted(&mut self, message: &[u8]) -> Result<u8, HubFault>
        ensures ok { IfOk result (λ code. (hub : Plain) → StandsFor self.old.hub hub → (code ≡ (update hub message.now).0) × StandsFor self.new.hub (update hub message.now).1) }
        ensures err { OnErr result ((hub : Plain) → StandsFor self.old.hub hub → StandsFor self.new.hub hub) }
        ensures kept { IfOk result (λ code. (code ≡ (update self.old.hub message.now).0) × Forgets (update self.old.hub message.now).1 self.new.hub) }
        ensures same { OnErr result (self.new ≡ self.old) }
        ensures asking { OnOk result (self.new.askings ≡ asking_after kept_questions (updates message.now) self.old.hub self.old.askings) }
        ensures asks { OnOk result ((hub : Plain) → StandsFor self.old.hub hub → self.new.askings ≡ asking_after plain_questions (updates message.now) hub self.old.askings) }
    {
        let code = self.hub.update_uncounted(message)?;
        follow(&self.hub, &mut self.reasons, Touched::Nothing);
        Ok(code)
    }

    /// Hears a datagram of a link, counted from 0 (RFC 6762, 18), and enters it where a record of it is used. `Ignored`: it is
    /// no hearing, none of its records is used, as where there is no such link, or the point is the last one.
    pub fn hear_uncounted(&mut self, link: usize, datagram: &[u8]) -> Result<Heard, HubFault>
        ensures ok { IfOk result (λ heard. (hub : Plain) → StandsFor self.old.hub hub → (heard ≡ (hear hub link datagram.now).0) × StandsFor self.new.hub (hear hub link datagram.now).1) }
        ensures err { OnErr result ((hub : Plain) → StandsFor self.old.hub hub → StandsFor self.new.hub hub) }
        ensures kept { IfOk result (λ heard. (heard ≡ (hear self.old.hub link datagram.now).0) × Forgets (hear self.old.hub link datagram.now).1 self.new.hub) }
        ensures same { OnErr result (self.new ≡ self.old) }
        ensures unread { IfOk result (λ heard. SaysWhy heard (hearing_of datagram.now)) }
        ensures counts { AddsHearing result self.old.hub self.new.hub }
        ensures asking { OnOk result (self.new.askings ≡ asking_after kept_questions (hears link datagram.now) self.old.hub self.old.askings) }
        ensures asks { OnOk result ((hub : Plain) → StandsFor self.old.hub hub → self.new.askings ≡ asking_after plain_questions (hears link datagram.now) hub self.old.askings) }
    {
        let read = read_datagram(self.hub.homes().allocator(), datagram)?;
        let touched = touched_by_hearing(&self.reasons, link, &read);
        let now = self.hub.now();
        lower(&mut self.reasons, link, now, &read);
        let heard = self.hub.hear_uncounted(link, datagram, read)?;
        follow(&self.hub, &mut self.reasons, touched);
        Ok(heard)
    }

    /// A link, counted from 0, has gone away, and all its rows with it, which is entered. Gives whether it was: nothing changes
    /// where there is no such link, it has no row, or the point is the last one.
    pub fn link_gone_uncounted(&mut self, link: usize) -> Result<bool, HubFault>
        ensures ok { IfOk result (λ gone. (hub : Plain) → StandsFor self.old.hub hub → (gone ≡ (link_gone hub link).0) × StandsFor self.new.hub (link_gone hub link).1) }
        ensures err { OnErr result ((hub : Plain) → StandsFor self.old.hub hub → StandsFor self.new.hub hub) }
        ensures kept { IfOk result (λ gone. (gone ≡ (link_gone self.old.hub link).0) × Forgets (link_gone self.old.hub link).1 self.new.hub) }
        ensures same { OnErr result (self.new ≡ self.old) }
        ensures counts { AddsGoing result self.old.hub self.new.hub }
        ensures asking { OnOk result (self.new.askings ≡ asking_after kept_questions (goes link) self.old.hub self.old.askings) }
        ensures asks { OnOk result ((hub : Plain) → StandsFor self.old.hub hub → self.new.askings ≡ asking_after plain_questions (goes link) hub self.old.askings) }
    {
        bounds();
        let gone = self.hub.link_gone_uncounted(link)?;
        follow(&self.hub, &mut self.reasons, Touched::Link(link));
        Ok(gone)
    }

    /// It is a moment: where it is a later one, it is entered, and sessions end by their timers (RFC 8490, 6.4 to 6.6).
    /// At the last point nothing happens.
    pub fn moment_uncounted(&mut self, at: u64) -> Result<(), HubFault>
        requires { at ≤ max_moment }
        ensures ok { OnOk result ((hub : Plain) → StandsFor self.old.hub hub → StandsFor self.new.hub (moment hub at)) }
        ensures err { OnErr result ((hub : Plain) → StandsFor self.old.hub hub → StandsFor self.new.hub hub) }
        ensures kept { OnOk result (Forgets (moment self.old.hub at) self.new.hub) }
        ensures same { OnErr result (self.new ≡ self.old) }
        ensures room { OnErr result (can_enter self.old.hub ≡ true) }
        ensures counts { MayAddMoment self.old.hub self.new.hub }
        ensures asking { OnOk result (self.new.askings ≡ asking_after kept_questions (moves at) self.old.hub self.old.askings) }
        ensures asks { OnOk result ((hub : Plain) → StandsFor self.old.hub hub → self.new.askings ≡ asking_after plain_questions (moves at) hub self.old.askings) }
    {
        bounds();
        let touched = touched_by(&self.hub, &self.reasons, at);
        self.hub.moment_uncounted(at)?;
        follow(&self.hub, &mut self.reasons, touched);
        Ok(())
    }

    /// A new session. Gives its number; no two sessions have one number. `NoSeat`: there are as many sessions as there may
    /// be, or all numbers were given out.
    pub fn connect(&mut self) -> Result<u64, ConnectFault>
        ensures ok { IfOk result (λ number. (hub : Plain) → StandsFor self.old.hub hub → ((connect hub).0 ≡ Some number) × StandsFor self.new.hub (connect hub).1) }
        ensures no_seat { IsErrOf result ConnectFault.NoSeat → (hub : Plain) → StandsFor self.old.hub hub → ((connect hub).0 ≡ None) × StandsFor self.new.hub (connect hub).1 }
        ensures err { OnErr result ((hub : Plain) → StandsFor self.old.hub hub → StandsFor self.new.hub hub) }
        ensures kept { IfOk result (λ number. ((connect self.old.hub).0 ≡ Some number) × (self.new.hub ≡ (connect self.old.hub).1)) }
        ensures same { OnErr result (self.new ≡ self.old) }
        ensures seat { IsErrOf result ConnectFault.NoMemory → (connect self.old.hub).0 ≡ Some self.old.hub.numbers_given }
        ensures seats { IsErrOf result ConnectFault.NoSeat → (connect self.old.hub).0 ≡ None }
        ensures counts { IfOk result (λ number. (number ≡ self.old.hub.numbers_given) × (self.new.hub.numbers_given ≡ self.old.hub.numbers_given + 1) × (self.new.hub.seen ≡ self.old.hub.seen)) }
        ensures many { IsErrOf result ConnectFault.NoSeat → max_sessions ≤ self.old.hub.numbers_given }
        ensures asking { self.new.askings ≡ self.old.askings }
    {
        seated(&mut self.hub, &mut self.reasons)
    }

    /// A session takes octets that its client sent, as far as there is room. Gives how many.
    pub fn take(&mut self, session: u64, piece: &[u8]) -> usize
        ensures count { (hub : Plain) → StandsFor self.old.hub hub → result ≡ taken_by hub session piece.now }
        ensures hub { (hub : Plain) → StandsFor self.old.hub hub → StandsFor self.new.hub (take_octets hub session piece.now) }
        ensures kept { self.new.hub ≡ take_octets self.old.hub session piece.now }
        ensures bound { result ≤ length piece.now }
        ensures asking { self.new.askings ≡ self.old.askings }
    {
        self.hub.take(session, piece)
    }

    /// One piece of work for a session, in its order: octets of its output that wait, its stop, the reaction to one whole
    /// message, or a PUSH of what has changed. Octets are written to the front of `buf`.
    /// Want of memory comes only where a SUBSCRIBE, a RECONFIRM, an update or a query is reacted to.
    pub fn give_uncounted(&mut self, session: u64, buf: &mut [u8]) -> Result<Given, HubFault>
        ensures ok { IfOk result (λ given. (hub : Plain) → StandsFor self.old.hub hub → (given ≡ (give hub session (length buf.old)).given) × (buf.new ≡ (give hub session (length buf.old)).octets ++ drop (length (give hub session (length buf.old)).octets) buf.old) × StandsFor self.new.hub (give hub session (length buf.old)).hub) }
        ensures err { OnErr result ((hub : Plain) → StandsFor self.old.hub hub → StandsFor self.new.hub hub) }
        ensures memory { OnErr result ((hub : Plain) → StandsFor self.old.hub hub → MayWantMemory hub session) }
        ensures kept { OnOk result (Forgets (give self.old.hub session (length buf.old)).hub self.new.hub) }
        ensures same { OnErr result (self.new ≡ self.old) }
        ensures bound { IfOk result (λ given. octets_of given ≤ length buf.old) }
        ensures counts { MayAddChange self.old.hub self.new.hub }
        ensures asking { OnOk result (self.new.askings ≡ asking_after kept_questions (gives session (length buf.old)) self.old.hub self.old.askings) }
        ensures asks { OnOk result ((hub : Plain) → StandsFor self.old.hub hub → self.new.askings ≡ asking_after plain_questions (gives session (length buf.old)) hub self.old.askings) }
    {
        bounds();
        reasons_are_followed();
        self.reasons.tell();
        let count = count_of(&self.hub, session);
        let point = self.hub.point();
        let ready = make_ready(&self.hub, &mut self.reasons, session)?;
        match self.hub.give_uncounted(session, buf) {
            Ok(given) => {
                settle(&self.hub, &mut self.reasons, session, ready, count, point);
                follow(&self.hub, &mut self.reasons, Touched::Nothing);
                Ok(given)
            }
            Err(fault) => {
                undo(&mut self.reasons, session, ready);
                Err(fault)
            }
        }
    }

    /// A session's connection is gone: the session goes with its number.
    pub fn end(&mut self, session: u64)
        ensures hub { (hub : Plain) → StandsFor self.old.hub hub → StandsFor self.new.hub (disconnect hub session) }
        ensures kept { self.new.hub ≡ disconnect self.old.hub session }
        ensures asking { self.new.askings ≡ asking_after kept_questions (ends session) self.old.hub self.old.askings }
        ensures asks { (hub : Plain) → StandsFor self.old.hub hub → self.new.askings ≡ asking_after plain_questions (ends session) hub self.old.askings }
    {
        reasons_are_followed();
        self.reasons.tell();
        self.hub.end(session);
        self.reasons.end(session);
        follow(&self.hub, &mut self.reasons, Touched::Nothing);
    }

    /// Asks for the stop of a session with an RCODE and a Retry Delay in milliseconds (RFC 8490, 6.6.1).
    pub fn stop(&mut self, session: u64, rcode: u8, delay: u32)
        ensures hub { (hub : Plain) → StandsFor self.old.hub hub → StandsFor self.new.hub (stop hub session rcode delay) }
        ensures kept { self.new.hub ≡ stop self.old.hub session rcode delay }
        ensures asking { self.new.askings ≡ self.old.askings }
    {
        self.hub.stop(session, rcode, delay);
    }

    /// The datagram of the first question of a link, counted from 0, that is due, which is asked now (RFC 6762, 5.2); it is put
    /// at the front of `buf`, of which the rest stays. Nothing exactly where no question of it is due, or there is no such link.
    pub fn ask(&mut self, link: usize, buf: &mut [u8]) -> Result<Option<usize>, NoMemory>
        requires { max_datagram ≤ length buf.old }
        ensures asked { IfOk result (λ count. (given_by count buf.new, self.new.askings) ≡ ask (state_now self.old.hub) self.old.askings link) }
        ensures asks { IfOk result (λ count. (hub : Plain) → StandsFor self.old.hub hub → (given_by count buf.new, self.new.askings) ≡ ask (state_now hub) self.old.askings link) }
        ensures bound { IfOk result (λ count. IfSome count (λ n. n ≤ length buf.old)) }
        ensures size { length buf.new ≡ length buf.old }
        ensures rest { IfOk result (λ count. untouched_by count buf.new ≡ untouched_by count buf.old) }
        ensures hub { self.new.hub ≡ self.old.hub }
        ensures err { OnErr result (self.new ≡ self.old) }
        ensures nothing { OnErr result (buf.new ≡ buf.old) }
    {
        ask_link(&self.hub, &mut self.reasons, link, buf)
    }

    /// The newest point: how many entries there are.
    pub fn point(&self) -> u64
        ensures hub { (hub : Plain) → StandsFor self.now.hub hub → result ≡ newest hub }
        ensures kept { result ≡ newest self.now.hub }
    {
        self.hub.point()
    }

    /// The moment, in milliseconds.
    pub fn now(&self) -> u64
        ensures hub { (hub : Plain) → StandsFor self.now.hub hub → result ≡ now hub }
        ensures kept { result ≡ now self.now.hub }
    {
        self.hub.now()
    }

    /// How many entries of each group there are.
    pub fn counts(&self) -> Totals
        ensures hub { (hub : Plain) → StandsFor self.now.hub hub → result ≡ totals hub.history }
        ensures kept { result ≡ self.now.hub.seen.counts }
    {
        self.hub.counts()
    }

    /// How many sessions were ever connected.
    pub fn made(&self) -> u64
        ensures hub { (hub : Plain) → StandsFor self.now.hub hub → result ≡ hub.numbers_given }
        ensures kept { result ≡ self.now.hub.numbers_given }
    {
        self.hub.made()
    }

    /// The number of the session in a place, counted from 0 in the order in which they came, and whether nothing waits for it:
    /// it goes on, and no octets, no whole message and no name wait.
    pub fn session(&self, place: usize) -> Option<(u64, bool)>
        ensures { result ≡ session_at self.now.hub place }
    {
        session_at(&self.hub, place)
    }

    /// Whether there is a session of a number.
    pub fn live(&self, session: u64) -> bool
        ensures hub { (hub : Plain) → StandsFor self.now.hub hub → result ≡ is_some (session_of hub session) }
        ensures kept { result ≡ is_some (session_of self.now.hub session) }
    {
        self.hub.live(session)
    }

    /// The octets of a session's whole output up to the end of the first answer of an ID (RFC 8765, 6.2.2), or the
    /// greatest number of 64 bits where they are more.
    pub fn filled(&self, session: u64, id: u16) -> Option<u64>
        ensures { (hub : Plain) → StandsFor self.now.hub hub → result ≡ filled_in hub session id }
    {
        self.hub.filled(session, id)
    }

    /// The same of all IDs that a session asks with, each with its number, and none where there is no such session.
    pub fn all_filled(&self, session: u64) -> &[(u16, u64)]
        ensures { (hub : Plain) → StandsFor self.now.hub hub → result.now ≡ all_filled_in hub session }
    {
        self.hub.all_filled(session)
    }

    /// The point up to which a session was told of a name: where the name waits, that before its first change; else, and
    /// where there is no such session, the newest.
    pub fn as_of(&self, session: u64, name: &Name) -> u64
        ensures { (hub : Plain) → StandsFor self.now.hub hub → result ≡ told_in hub session name.now }
    {
        self.hub.as_of(session, name)
    }
}
