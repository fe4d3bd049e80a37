//! The server's core: one history, and the sessions that are told of it.

ghost use Rattle.std.specs.Prelude.{◌≡◌, ◌≤◌, ◌<◌, ◌+◌, ◌++◌, None, Some, drop, length, true, IfOk, IsErrOf, OnErr, OnOk};
ghost use Rattle.push_base.specs.Cases.{fault_as};
ghost use Rattle.push_base.specs.Limits.{max_moment};
ghost use Rattle.dnswire.specs.Reading.{hearing_of};
ghost use Rattle.history.specs.Kept.{state_of};
ghost use Rattle.history.specs.Plans.{IsStart};
ghost use Rattle.pushserver.specs.Counting.{AddsGoing, AddsHearing, MayAddChange, MayAddMoment, octets_of};
ghost use Rattle.pushserver.specs.Giving.{give};
ghost use Rattle.pushserver.specs.Hubs.{can_enter, connect, disconnect, hear, link_gone, max_sessions, moment, stop, take_octets, taken_by, update, why_not};
ghost use Rattle.pushserver.specs.Laws.{MayWantMemory};
ghost use Rattle.pushserver.specs.Observing.{SaysWhy};
ghost use Rattle.pushserver.specs.KeptHubs.{Forgets, StandsFor, new_kept};
ghost use Rattle.pushserver.specs.PlainHubs.{Hub as Plain, new_hub};
ghost use Rattle.pushserver.specs.Watched.{allowed, gone_changes, hear_changes, update_changes};
ghost use Rattle.push_base.specs.Counted.{CountsUpTo};

use crate::decode::read_datagram;
use crate::fault::{ConnectFault, HubFault};
use crate::given::{Given, Heard, Why};
use crate::hub_state::HubState;
use dsosession::session::Timers;
use history::Homes;
use push_base::Steps;
use pushsession::NoMemory;
use rrset::Hearing;
use std::marker::{Brand, Model};
use std::sync::ledger::{Blank, Ledger};

/// One history of all homes, and the sessions, each told of what it asks for (RFC 8765). It stands for a plain hub, which
/// keeps nothing that the history tells. Of the history the newest entries are kept, at most 65,536, of at most 67,108,864
/// octets; a session that would need more than these ends as behind. All moments are milliseconds of one clock.
#[derive(Debug)]
pub struct Hub {
    pub(crate) keeping: HubState,
}

// By hand, so that crates above needn't prove that each part of a hub can be dropped.
impl Drop for Hub {
    fn drop(self) {
        let Hub { keeping: _ } = self;
    }
}

impl Model for Hub {
    ghost use Rattle.pushserver.specs.HubState.{IsHub, kept_of};
    ghost use Rattle.pushserver.specs.KeptHubs.{KeptHub};

    ghost Value = { KeptHub };

    ghost view = { λ h. kept_of h.keeping };

    ghost invariant = { λ h. IsHub h.keeping };
}

impl Hub {
    /// A hub of homes in which nothing has changed yet, which grants these timers to sessions that ask for a Keepalive
    /// (RFC 8490, 7.1).
    pub fn new(homes: Homes, timers: Timers) -> Result<Hub, NoMemory>
        requires { IsStart (state_of homes) }
        ensures stands { IfOk result (λ hub. StandsFor hub (new_hub (state_of homes) timers)) }
        ensures kept { IfOk result (λ hub. hub ≡ new_kept (state_of homes) timers) }
    {
        let keeping = HubState::new(homes, timers)?;
        Ok(Hub { keeping })
    }

    /// Judges an update message, and enters it where it is accepted (RFC 2136, 3). Gives its RCODE: FORMERR for what is
    /// no update, SERVFAIL at the last point.
    /// At most 8 steps are counted, and 8 for each key that it changes, and 4 for each session that watches the key's name,
    /// whatever the answer is.
    pub fn update<L: Ledger>(
        &mut self,
        message: &[u8],
        steps: &mut Steps<L>,
    ) -> Result<u8, HubFault>
        ensures ok { IfOk result (λ code. (hub : Plain) → StandsFor self.old hub → (code ≡ (update hub message.now).0) × StandsFor self.new (update hub message.now).1) }
        ensures err { OnErr result ((hub : Plain) → StandsFor self.old hub → StandsFor self.new hub) }
        ensures kept { IfOk result (λ code. (code ≡ (update self.old message.now).0) × Forgets (update self.old message.now).1 self.new) }
        ensures same { OnErr result (self.new ≡ self.old) }
        ensures steps { CountsUpTo (allowed self.old (update_changes self.old message.now)) steps.old steps.new }
    {
        Ok(self.keeping.update(message, steps)?)
    }

    /// The same where nobody counts steps.
    pub fn update_uncounted(&mut self, message: &[u8]) -> Result<u8, HubFault>
        ensures ok { IfOk result (λ code. (hub : Plain) → StandsFor self.old hub → (code ≡ (update hub message.now).0) × StandsFor self.new (update hub message.now).1) }
        ensures err { OnErr result ((hub : Plain) → StandsFor self.old hub → StandsFor self.new hub) }
        ensures kept { IfOk result (λ code. (code ≡ (update self.old message.now).0) × Forgets (update self.old message.now).1 self.new) }
        ensures same { OnErr result (self.new ≡ self.old) }
    {
        self.update_under::<Brand>(Blank::new(1), message)
    }

    /// The same with a counter of its own.
    fn update_under<L: Ledger>(&mut self, blank: Blank, message: &[u8]) -> Result<u8, HubFault>
        requires name { blank.name ≡ L.name }
        requires parts { blank.parts ≡ L.parts }
        requires some { 0 < blank.parts }
        ensures ok { IfOk result (λ code. (hub : Plain) → StandsFor self.old hub → (code ≡ (update hub message.now).0) × StandsFor self.new (update hub message.now).1) }
        ensures err { OnErr result ((hub : Plain) → StandsFor self.old hub → StandsFor self.new hub) }
        ensures kept { IfOk result (λ code. (code ≡ (update self.old message.now).0) × Forgets (update self.old message.now).1 self.new) }
        ensures same { OnErr result (self.new ≡ self.old) }
    {
        let mut steps = Steps::<L>::begin(blank);
        self.update(message, &mut steps)
    }

    /// Hears a datagram of a link, counted from 0 (RFC 6762, 18), and enters it where a record of it is used. `Ignored`: it is
    /// no hearing, none of its records is used, as where there is no such link, or the point is the last one.
    /// At most 8 steps are counted, and 8 for each key that it changes, and 4 for each session that watches the key's name,
    /// whatever the answer is.
    pub fn hear<L: Ledger>(
        &mut self,
        link: usize,
        datagram: &[u8],
        steps: &mut Steps<L>,
    ) -> Result<Heard, HubFault>
        ensures ok { IfOk result (λ heard. (hub : Plain) → StandsFor self.old hub → (heard ≡ (hear hub link datagram.now).0) × StandsFor self.new (hear hub link datagram.now).1) }
        ensures err { OnErr result ((hub : Plain) → StandsFor self.old hub → StandsFor self.new hub) }
        ensures kept { IfOk result (λ heard. (heard ≡ (hear self.old link datagram.now).0) × Forgets (hear self.old link datagram.now).1 self.new) }
        ensures same { OnErr result (self.new ≡ self.old) }
        ensures unread { IfOk result (λ heard. SaysWhy heard (hearing_of datagram.now)) }
        ensures counts { AddsHearing result self.old self.new }
        ensures steps { CountsUpTo (allowed self.old (hear_changes self.old link datagram.now)) steps.old steps.new }
    {
        let read = read_datagram(self.keeping.allocator(), datagram)?;
        self.hear_read(link, datagram, read, steps)
    }

    /// The same of a datagram that was read.
    fn hear_read<L: Ledger>(
        &mut self,
        link: usize,
        datagram: &[u8],
        read: Result<Hearing, Why>,
        steps: &mut Steps<L>,
    ) -> Result<Heard, HubFault>
        requires read { fault_as why_not (hearing_of datagram.now) ≡ read }
        ensures ok { IfOk result (λ heard. (hub : Plain) → StandsFor self.old hub → (heard ≡ (hear hub link datagram.now).0) × StandsFor self.new (hear hub link datagram.now).1) }
        ensures err { OnErr result ((hub : Plain) → StandsFor self.old hub → StandsFor self.new hub) }
        ensures kept { IfOk result (λ heard. (heard ≡ (hear self.old link datagram.now).0) × Forgets (hear self.old link datagram.now).1 self.new) }
        ensures same { OnErr result (self.new ≡ self.old) }
        ensures unread { IfOk result (λ heard. SaysWhy heard (hearing_of datagram.now)) }
        ensures counts { AddsHearing result self.old self.new }
        ensures steps { CountsUpTo (allowed self.old (hear_changes self.old link datagram.now)) steps.old steps.new }
    {
        Ok(self.keeping.hear(link, datagram, read, steps)?)
    }

    /// The same where nobody counts steps.
    pub fn hear_uncounted(
        &mut self,
        link: usize,
        datagram: &[u8],
        read: Result<Hearing, Why>,
    ) -> Result<Heard, HubFault>
        requires read { fault_as why_not (hearing_of datagram.now) ≡ read }
        ensures ok { IfOk result (λ heard. (hub : Plain) → StandsFor self.old hub → (heard ≡ (hear hub link datagram.now).0) × StandsFor self.new (hear hub link datagram.now).1) }
        ensures err { OnErr result ((hub : Plain) → StandsFor self.old hub → StandsFor self.new hub) }
        ensures kept { IfOk result (λ heard. (heard ≡ (hear self.old link datagram.now).0) × Forgets (hear self.old link datagram.now).1 self.new) }
        ensures same { OnErr result (self.new ≡ self.old) }
        ensures unread { IfOk result (λ heard. SaysWhy heard (hearing_of datagram.now)) }
        ensures counts { AddsHearing result self.old self.new }
    {
        self.hear_under::<Brand>(Blank::new(1), link, datagram, read)
    }

    /// The same with a counter of its own.
    fn hear_under<L: Ledger>(
        &mut self,
        blank: Blank,
        link: usize,
        datagram: &[u8],
        read: Result<Hearing, Why>,
    ) -> Result<Heard, HubFault>
        requires name { blank.name ≡ L.name }
        requires parts { blank.parts ≡ L.parts }
        requires some { 0 < blank.parts }
        requires read { fault_as why_not (hearing_of datagram.now) ≡ read }
        ensures ok { IfOk result (λ heard. (hub : Plain) → StandsFor self.old hub → (heard ≡ (hear hub link datagram.now).0) × StandsFor self.new (hear hub link datagram.now).1) }
        ensures err { OnErr result ((hub : Plain) → StandsFor self.old hub → StandsFor self.new hub) }
        ensures kept { IfOk result (λ heard. (heard ≡ (hear self.old link datagram.now).0) × Forgets (hear self.old link datagram.now).1 self.new) }
        ensures same { OnErr result (self.new ≡ self.old) }
        ensures unread { IfOk result (λ heard. SaysWhy heard (hearing_of datagram.now)) }
        ensures counts { AddsHearing result self.old self.new }
    {
        let mut steps = Steps::<L>::begin(blank);
        self.hear_read(link, datagram, read, &mut steps)
    }

    /// A link, counted from 0, has gone away, and all its rows with it, which is entered. Gives whether it was: nothing changes
    /// where there is no such link, it has no row, or the point is the last one.
    /// At most 8 steps are counted, and 8 for each key that it changes, and 4 for each session that watches the key's name,
    /// whatever the answer is.
    pub fn link_gone<L: Ledger>(
        &mut self,
        link: usize,
        steps: &mut Steps<L>,
    ) -> Result<bool, HubFault>
        ensures ok { IfOk result (λ gone. (hub : Plain) → StandsFor self.old hub → (gone ≡ (link_gone hub link).0) × StandsFor self.new (link_gone hub link).1) }
        ensures err { OnErr result ((hub : Plain) → StandsFor self.old hub → StandsFor self.new hub) }
        ensures kept { IfOk result (λ gone. (gone ≡ (link_gone self.old link).0) × Forgets (link_gone self.old link).1 self.new) }
        ensures same { OnErr result (self.new ≡ self.old) }
        ensures counts { AddsGoing result self.old self.new }
        ensures steps { CountsUpTo (allowed self.old (gone_changes self.old link)) steps.old steps.new }
    {
        Ok(self.keeping.link_gone(link, steps)?)
    }

    /// The same where nobody counts steps.
    pub fn link_gone_uncounted(&mut self, link: usize) -> Result<bool, HubFault>
        ensures ok { IfOk result (λ gone. (hub : Plain) → StandsFor self.old hub → (gone ≡ (link_gone hub link).0) × StandsFor self.new (link_gone hub link).1) }
        ensures err { OnErr result ((hub : Plain) → StandsFor self.old hub → StandsFor self.new hub) }
        ensures kept { IfOk result (λ gone. (gone ≡ (link_gone self.old link).0) × Forgets (link_gone self.old link).1 self.new) }
        ensures same { OnErr result (self.new ≡ self.old) }
        ensures counts { AddsGoing result self.old self.new }
    {
        self.link_gone_under::<Brand>(Blank::new(1), link)
    }

    /// The same with a counter of its own.
    fn link_gone_under<L: Ledger>(&mut self, blank: Blank, link: usize) -> Result<bool, HubFault>
        requires name { blank.name ≡ L.name }
        requires parts { blank.parts ≡ L.parts }
        requires some { 0 < blank.parts }
        ensures ok { IfOk result (λ gone. (hub : Plain) → StandsFor self.old hub → (gone ≡ (link_gone hub link).0) × StandsFor self.new (link_gone hub link).1) }
        ensures err { OnErr result ((hub : Plain) → StandsFor self.old hub → StandsFor self.new hub) }
        ensures kept { IfOk result (λ gone. (gone ≡ (link_gone self.old link).0) × Forgets (link_gone self.old link).1 self.new) }
        ensures same { OnErr result (self.new ≡ self.old) }
        ensures counts { AddsGoing result self.old self.new }
    {
        let mut steps = Steps::<L>::begin(blank);
        self.link_gone(link, &mut steps)
    }

    /// It is a moment: where it is a later one, it is entered, and sessions end by their timers (RFC 8490, 6.4 to 6.6).
    /// At the last point nothing happens.
    pub fn moment<L: Ledger>(&mut self, at: u64, steps: &mut Steps<L>) -> Result<(), HubFault>
        requires { at ≤ max_moment }
        ensures ok { OnOk result ((hub : Plain) → StandsFor self.old hub → StandsFor self.new (moment hub at)) }
        ensures err { OnErr result ((hub : Plain) → StandsFor self.old hub → StandsFor self.new hub) }
        ensures kept { OnOk result (Forgets (moment self.old at) self.new) }
        ensures same { OnErr result (self.new ≡ self.old) }
        ensures room { OnErr result (can_enter self.old ≡ true) }
        ensures counts { MayAddMoment self.old self.new }
    {
        Ok(self.keeping.moment(at, steps)?)
    }

    /// The same where nobody counts steps.
    pub fn moment_uncounted(&mut self, at: u64) -> Result<(), HubFault>
        requires { at ≤ max_moment }
        ensures ok { OnOk result ((hub : Plain) → StandsFor self.old hub → StandsFor self.new (moment hub at)) }
        ensures err { OnErr result ((hub : Plain) → StandsFor self.old hub → StandsFor self.new hub) }
        ensures kept { OnOk result (Forgets (moment self.old at) self.new) }
        ensures same { OnErr result (self.new ≡ self.old) }
        ensures room { OnErr result (can_enter self.old ≡ true) }
        ensures counts { MayAddMoment self.old self.new }
    {
        self.moment_under::<Brand>(Blank::new(1), at)
    }

    /// The same with a counter of its own.
    fn moment_under<L: Ledger>(&mut self, blank: Blank, at: u64) -> Result<(), HubFault>
        requires name { blank.name ≡ L.name }
        requires parts { blank.parts ≡ L.parts }
        requires some { 0 < blank.parts }
        requires timely { at ≤ max_moment }
        ensures ok { OnOk result ((hub : Plain) → StandsFor self.old hub → StandsFor self.new (moment hub at)) }
        ensures err { OnErr result ((hub : Plain) → StandsFor self.old hub → StandsFor self.new hub) }
        ensures kept { OnOk result (Forgets (moment self.old at) self.new) }
        ensures same { OnErr result (self.new ≡ self.old) }
        ensures room { OnErr result (can_enter self.old ≡ true) }
        ensures counts { MayAddMoment self.old self.new }
    {
        let mut steps = Steps::<L>::begin(blank);
        self.moment(at, &mut steps)
    }

    /// A new session. Gives its number; no two sessions have one number. `NoSeat`: there are as many sessions as there may
    /// be, or all numbers were given out, which is told before any memory is taken.
    pub fn connect(&mut self) -> Result<u64, ConnectFault>
        ensures ok { IfOk result (λ number. (hub : Plain) → StandsFor self.old hub → ((connect hub).0 ≡ Some number) × StandsFor self.new (connect hub).1) }
        ensures no_seat { IsErrOf result ConnectFault.NoSeat → (hub : Plain) → StandsFor self.old hub → ((connect hub).0 ≡ None) × StandsFor self.new (connect hub).1 }
        ensures err { OnErr result ((hub : Plain) → StandsFor self.old hub → StandsFor self.new hub) }
        ensures kept { IfOk result (λ number. ((connect self.old).0 ≡ Some number) × (self.new ≡ (connect self.old).1)) }
        ensures same { OnErr result (self.new ≡ self.old) }
        ensures seat { IsErrOf result ConnectFault.NoMemory → (connect self.old).0 ≡ Some self.old.numbers_given }
        ensures seats { IsErrOf result ConnectFault.NoSeat → (connect self.old).0 ≡ None }
        ensures counts { IfOk result (λ number. (number ≡ self.old.numbers_given) × (self.new.numbers_given ≡ self.old.numbers_given + 1) × (self.new.seen ≡ self.old.seen)) }
        ensures many { IsErrOf result ConnectFault.NoSeat → max_sessions ≤ self.old.numbers_given }
    {
        let Some(number) = self.keeping.connect()? else {
            return Err(ConnectFault::NoSeat);
        };
        Ok(number)
    }

    /// A session takes octets that its client sent, as far as there is room. Gives how many.
    pub fn take(&mut self, session: u64, piece: &[u8]) -> usize
        ensures count { (hub : Plain) → StandsFor self.old hub → result ≡ taken_by hub session piece.now }
        ensures hub { (hub : Plain) → StandsFor self.old hub → StandsFor self.new (take_octets hub session piece.now) }
        ensures kept { self.new ≡ take_octets self.old session piece.now }
        ensures bound { result ≤ length piece.now }
    {
        self.keeping.take(session, piece)
    }

    /// One piece of work for a session, in its order: octets of its output that wait, its stop, the reaction to one whole
    /// message, or a PUSH of what has changed. Octets are written to the front of `buf`.
    /// Want of memory comes only where a SUBSCRIBE, a RECONFIRM, an update or a query is reacted to.
    pub fn give<L: Ledger>(
        &mut self,
        session: u64,
        buf: &mut [u8],
        steps: &mut Steps<L>,
    ) -> Result<Given, HubFault>
        ensures ok { IfOk result (λ given. (hub : Plain) → StandsFor self.old hub → (given ≡ (give hub session (length buf.old)).given) × (buf.new ≡ (give hub session (length buf.old)).octets ++ drop (length (give hub session (length buf.old)).octets) buf.old) × StandsFor self.new (give hub session (length buf.old)).hub) }
        ensures err { OnErr result ((hub : Plain) → StandsFor self.old hub → StandsFor self.new hub) }
        ensures memory { OnErr result ((hub : Plain) → StandsFor self.old hub → MayWantMemory hub session) }
        ensures kept { OnOk result (Forgets (give self.old session (length buf.old)).hub self.new) }
        ensures same { OnErr result (self.new ≡ self.old) }
        ensures bound { IfOk result (λ given. octets_of given ≤ length buf.old) }
        ensures counts { MayAddChange self.old self.new }
    {
        Ok(self.keeping.give(session, buf, steps)?)
    }

    /// The same where nobody counts steps.
    pub fn give_uncounted(&mut self, session: u64, buf: &mut [u8]) -> Result<Given, HubFault>
        ensures ok { IfOk result (λ given. (hub : Plain) → StandsFor self.old hub → (given ≡ (give hub session (length buf.old)).given) × (buf.new ≡ (give hub session (length buf.old)).octets ++ drop (length (give hub session (length buf.old)).octets) buf.old) × StandsFor self.new (give hub session (length buf.old)).hub) }
        ensures err { OnErr result ((hub : Plain) → StandsFor self.old hub → StandsFor self.new hub) }
        ensures memory { OnErr result ((hub : Plain) → StandsFor self.old hub → MayWantMemory hub session) }
        ensures kept { OnOk result (Forgets (give self.old session (length buf.old)).hub self.new) }
        ensures same { OnErr result (self.new ≡ self.old) }
        ensures bound { IfOk result (λ given. octets_of given ≤ length buf.old) }
        ensures counts { MayAddChange self.old self.new }
    {
        self.give_under::<Brand>(Blank::new(1), session, buf)
    }

    /// The same with a counter of its own.
    fn give_under<L: Ledger>(
        &mut self,
        blank: Blank,
        session: u64,
        buf: &mut [u8],
    ) -> Result<Given, HubFault>
        requires name { blank.name ≡ L.name }
        requires parts { blank.parts ≡ L.parts }
        requires some { 0 < blank.parts }
        ensures ok { IfOk result (λ given. (hub : Plain) → StandsFor self.old hub → (given ≡ (give hub session (length buf.old)).given) × (buf.new ≡ (give hub session (length buf.old)).octets ++ drop (length (give hub session (length buf.old)).octets) buf.old) × StandsFor self.new (give hub session (length buf.old)).hub) }
        ensures err { OnErr result ((hub : Plain) → StandsFor self.old hub → StandsFor self.new hub) }
        ensures memory { OnErr result ((hub : Plain) → StandsFor self.old hub → MayWantMemory hub session) }
        ensures kept { OnOk result (Forgets (give self.old session (length buf.old)).hub self.new) }
        ensures same { OnErr result (self.new ≡ self.old) }
        ensures bound { IfOk result (λ given. octets_of given ≤ length buf.old) }
        ensures counts { MayAddChange self.old self.new }
    {
        let mut steps = Steps::<L>::begin(blank);
        self.give(session, buf, &mut steps)
    }

    /// A session's connection is gone: the session goes with its number.
    pub fn end(&mut self, session: u64)
        ensures hub { (hub : Plain) → StandsFor self.old hub → StandsFor self.new (disconnect hub session) }
        ensures kept { self.new ≡ disconnect self.old session }
    {
        self.keeping.end(session);
    }

    /// Asks for the stop of a session with an RCODE and a Retry Delay in milliseconds (RFC 8490, 6.6.1).
    pub fn stop(&mut self, session: u64, rcode: u8, delay: u32)
        ensures hub { (hub : Plain) → StandsFor self.old hub → StandsFor self.new (stop hub session rcode delay) }
        ensures kept { self.new ≡ stop self.old session rcode delay }
    {
        self.keeping.stop(session, rcode, delay);
    }
}
