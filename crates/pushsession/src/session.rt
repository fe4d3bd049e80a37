//! A session, and what is seen of it.

ghost use Rattle.std.specs.Prelude.{◌≡◌, not, IfOk};
ghost use Rattle.push_base.specs.Cases.{is_empty};
ghost use Rattle.coalesce.specs.Waiting.{since};
ghost use Rattle.pushsession.specs.Sessions.{new_session};
ghost use Rattle.pushsession.specs.Kept.{HasEnds, filled_of, keeping};

use crate::NoMemory;
use crate::session_status::SessionStatus;
use coalesce::{Frame, Queue};
use dnsname::Name;
use dsosession::ServerSession;
use dsotlv::Framer;
use std::alloc::Global;
use std::marker::Model;
use subscr::Subscriptions;

/// One session of the server (RFC 8490, 6; RFC 8765, 6): what it asks, with the octets of the whole output up to the end
/// of each first answer; the names that wait to be told; its timers; the octets that came and those that wait; and how
/// many were ever written. All moments are milliseconds of one clock.
#[derive(Debug, Drop)]
pub struct PushSession {
    pub(crate) subscriptions: Subscriptions,
    pub(crate) filled: Vec<(u16, u64)>,
    pub(crate) queue: Queue,
    pub(crate) state: ServerSession,
    pub(crate) standing: SessionStatus,
    pub(crate) input: Framer,
    pub(crate) output: Frame,
    pub(crate) written: u64,
}

impl Model for PushSession {
    ghost use Rattle.pushsession.specs.Kept.{HasEnds, KeptSession};

    ghost Value = { KeptSession };

    ghost view = { λ s. record { subscriptions = record { asked = s.subscriptions; filled = s.filled.items }; queue = s.queue; clocks = s.state.clocks; established = s.state.established; standing = s.standing; input = s.input; output = s.output; made = s.written } };

    ghost invariant = { λ s. HasEnds s.subscriptions s.filled.items };
}

/// The number beside an ID.
fn found(filled: &[(u16, u64)], id: u16) -> Option<u64>
    ensures { result ≡ filled_of id filled.now }
{
    let entry = filled.iter().find(|entry| entry.0 == id)?;
    Some(entry.1)
}

impl PushSession {
    /// A session that has just been connected (RFC 8490, 5.1). It takes the memory of its octets here, once.
    pub fn new(alloc: Global, now: u64) -> Result<Self, NoMemory>
        ensures { IfOk result (λ session. session ≡ new_session keeping now) }
    {
        let input = Framer::new(alloc)?;
        let output = Frame::new(alloc)?;
        Ok(PushSession {
            subscriptions: Subscriptions::new(alloc),
            filled: Vec::new(alloc),
            queue: Queue::new(alloc),
            state: ServerSession::new(now),
            standing: SessionStatus::Live,
            input,
            output,
            written: 0,
        })
    }

    /// Whether it goes on.
    pub fn standing(&self) -> SessionStatus
        ensures { result ≡ self.now.standing }
    {
        self.standing
    }

    /// Whether it is established (RFC 8490, 5.1).
    pub fn established(&self) -> bool
        ensures { result ≡ self.now.established }
    {
        self.state.established()
    }

    /// Whether octets of the output wait.
    pub fn has_output(&self) -> bool
        ensures { result ≡ not (is_empty self.now.output) }
    {
        !self.output.octets().is_empty()
    }

    /// What it asks (RFC 8765, 6.2). Of each ID, in this order, the end of the first answer is known.
    pub fn subscriptions(&self) -> &Subscriptions
        ensures asked { result.now ≡ self.now.subscriptions.asked }
        ensures ends { HasEnds self.now.subscriptions.asked self.now.subscriptions.filled }
    {
        &self.subscriptions
    }

    /// The point since which a name waits.
    pub fn since(&self, name: &Name) -> Option<u64>
        ensures { result ≡ since self.now.queue name.now }
    {
        self.queue.since(name)
    }

    /// The octets of the whole output up to the end of the first answer of an ID (RFC 8765, 6.2.2), or the greatest
    /// number of 64 bits where they are more.
    pub fn filled(&self, id: u16) -> Option<u64>
        ensures { result ≡ filled_of id self.now.subscriptions.filled }
    {
        found(&self.filled, id)
    }

    /// The same of all IDs, each with its number.
    pub fn all_filled(&self) -> &[(u16, u64)]
        ensures { result.now ≡ self.now.subscriptions.filled }
    {
        &self.filled
    }
}
