//! A hub without a lock.

ghost use Rattle.std.specs.Prelude.{◌≡◌, None, Some, false};
ghost use Rattle.hubloops.specs.Gates.{has_nothing};

use crate::{Gate, Overs};
use hubasking::Hub;
use pushserver::{Given, Heard, HubFault};
use std::marker::Model;

/// A hub of one thread. It tells its hub, the number of its calls that are turns, and what it told others. It never waits.
#[derive(Drop)]
pub struct Alone {
    hub: Hub,
    quit: bool,
    calls: u64,
    idle: bool,
    over: Overs,
}

impl Model for Alone {
    ghost use Rattle.hubloops.specs.Gates.{GateState};

    ghost Value = { GateState };

    ghost view = { λ a. record { hub = a.hub; quit = a.quit; calls = a.calls; idle = a.idle; over = a.over } };
}

impl Alone {
    /// A hub that was not called yet, and whether nothing is left to do.
    pub fn new(hub: Hub, quit: bool) -> Alone
        ensures { result ≡ record { hub = hub; quit = quit; calls = 0; idle = false; over = record { lines = 0; line = None; sessions = 0 } } }
    {
        Alone {
            hub,
            quit,
            calls: 0,
            idle: false,
            over: Overs::none(),
        }
    }

    /// The number of calls that are turns.
    pub fn calls(&self) -> u64
        ensures { result ≡ self.now.calls }
    {
        self.calls
    }

    /// What it told the loops of others.
    pub fn over(&self) -> Overs
        ensures { result ≡ self.now.over }
    {
        self.over
    }
}

/// Whether a session has nothing to say now.
fn has_nothing(answer: &Result<Given, HubFault>) -> bool
    ensures { result ≡ has_nothing answer.now }
{
    match answer {
        Ok(Given::Nothing) => true,
        Ok(Given::Ending) => true,
        Ok(Given::Bytes(_)) => false,
        Ok(Given::Worked) => false,
        Ok(Given::End(_)) => false,
        Err(_) => false,
    }
}

impl Gate for Alone {
    type Left = Alone;

    ghost state = { λ a. Some a };

    ghost left = { λ a. Some a };

    ghost role = { λ _. None };

    fn take(&mut self, session: u64, piece: &[u8]) -> usize {
        self.calls = self.calls.saturating_add(1);
        let count = self.hub.take(session, piece);
        self.idle = count == 0;
        count
    }

    fn give(&mut self, session: u64, buf: &mut [u8]) -> Result<Given, HubFault> {
        self.calls = self.calls.saturating_add(1);
        let answer = self.hub.give_uncounted(session, buf);
        self.idle = has_nothing(&answer);
        answer
    }

    fn hear(&mut self, link: usize, datagram: &[u8]) -> Result<Heard, HubFault> {
        self.calls = self.calls.saturating_add(1);
        self.idle = false;
        self.hub.hear_uncounted(link, datagram)
    }

    fn ask(&mut self, link: usize, buf: &mut [u8]) -> Result<Option<usize>, HubFault> {
        self.calls = self.calls.saturating_add(1);
        self.idle = false;
        Ok(self.hub.ask(link, buf)?)
    }

    fn gone(&mut self, link: usize) -> Result<bool, HubFault> {
        self.idle = false;
        self.hub.link_gone_uncounted(link)
    }

    fn moment(&mut self, at: u64) -> Result<(), HubFault> {
        self.calls = self.calls.saturating_add(1);
        self.idle = false;
        self.hub.moment_uncounted(at)
    }

    fn end(&mut self, session: u64) {
        self.hub.end(session)
    }

    fn line_over(&mut self, session: u64) {
        self.over = self.over.with_line(session);
    }

    fn session_over(&mut self) {
        self.over = self.over.with_session();
    }

    fn pause(&mut self) {
        self.idle = false;
    }

    fn done(&mut self) -> bool {
        self.quit
    }

    fn leave(self) -> Alone {
        self
    }
}
