//! The connection of a client.

ghost use Rattle.std.specs.Prelude.{◌≡◌, ◌-◌, ◌++◌, ◌==◌, ◌&&◌, None, Some, true, false, if◌then◌else◌, IfOk, IsSome, OnOk, OnErr, cond, drop, is_some, length, min, nat_le, option_map, take};
ghost use Rattle.std.specs.List.{list_any};
ghost use Rattle.push_base.specs.Limits.{max_input};
ghost use Rattle.pushclient.specs.Clients.{free_id, id_after, ids_in_use, new_connection, next_id, reconfirm_message, subscribe_message, unsubscribe_message, writes};
ghost use Rattle.rrset.specs.Header.{is_response, max_message};
ghost use Rattle.rrset.specs.Rcodes.{dsotypeni};
ghost use Rattle.dsotlv.specs.Answers.{answer_to};
ghost use Rattle.dsotlv.specs.Messages.{first_message};
ghost use Rattle.dsosession.specs.Reactions.{client_reaction, is_keepalive};
ghost use Rattle.dsosession.specs.Timing.{client_due, restarted};
ghost use Rattle.pushclient.specs.HeardMessages.{adopted_on, closed_by, heard, is_keepalive_of, other_answer_on, taken_up};
ghost use Rattle.pushclient.specs.Kept.{done_on};
ghost use Rattle.pushclient.specs.Steps.{is_active, keepalive_message};

use crate::NoMemory;
use crate::client::Step;
use crate::client_messages::{
    append_keepalive, append_reconfirm, append_subscribe, append_typeless, append_unsubscribe,
};
use crate::told::{Answer, Told, told_of};
use crate::wish::Wish;
use crate::wishes::{are_active, use_id};
use dsosession::ClientSession;
use dsosession::session::{ClientReaction, CloseReason, Due, Timers};
use dsosession::times::LEAST_KEEPALIVE;
use dsotlv::kinds::KEEPALIVE;
use dsotlv::{DsoHead, Framer, copy_front, head};
use rrset::header::is_response;
use rrset::rcodes::NOERROR;
use rrset::record::{Question, Rr};
use std::alloc::Global;
use std::marker::Model;

/// A connection: the last ID that a request had, the session's timers, the ID of a Keepalive without an answer, the octets
/// that came and those that wait, and why it was closed (RFC 8490, 5.1 and 6).
#[derive(Debug, Drop)]
pub(crate) struct Connection {
    pub last_id: u16,
    pub session: ClientSession,
    pub keepalive_out: Option<u16>,
    pub input: Framer,
    pub output: Vec<u8>,
    pub closed: Option<CloseReason>,
}

impl Model for Connection {
    ghost use Rattle.pushclient.specs.Clients.{Connection as PlainConnection};

    ghost Value = { PlainConnection };

    ghost view = { λ c. record { last_id = c.last_id; established = c.session.established; clocks = c.session.clocks; keepalive_out = c.keepalive_out; input = c.input; output = c.output.items; closed = c.closed } };
}

/// The most IDs that are in use: one of each wish, and a Keepalive's.
const MOST_IDS: u16 = 1_025;

/// The ID after another; 65,535 is followed by 1.
fn id_after(id: u16) -> u16
    ensures { result ≡ id_after id }
{
    if id == u16::MAX { 1 } else { id + 1 }
}

/// What the client does with a message, which restarts the timers: the keepalive timer alone, where it is a Keepalive or
/// the answer to the client's own (RFC 8490, 6.3).
fn reacted(session: &mut ClientSession, head: &DsoHead, is_own: bool, now: u64) -> ClientReaction
    ensures reaction { result ≡ client_reaction head.now session.old.established }
    ensures session { session.new ≡ record session.old { clocks = restarted (if is_response head.now.flags then is_own else is_keepalive head.now) now session.old.clocks } }
{
    let reaction = session.react(head, now);
    if is_response(head.flags) && !is_own {
        session.wrote(false, now);
    }
    reaction
}

impl Connection {
    /// A connection that was opened at a moment. It takes the memory of its input here, once.
    pub(crate) fn new(alloc: Global, now: u64) -> Result<Self, NoMemory>
        ensures { IfOk result (λ connection. connection ≡ new_connection now) }
    {
        let input = Framer::new(alloc)?;
        Ok(Connection {
            last_id: 0,
            session: ClientSession::new(now),
            keepalive_out: None,
            input,
            output: Vec::new(alloc),
            closed: None,
        })
    }

    /// Whether a request has this ID: that of a wish, or the Keepalive's.
    fn has_id(&self, wishes: &[Wish], id: u16) -> bool
        ensures { result ≡ list_any (λ u. u == id) (ids_in_use wishes.now self.now) }
    {
        self.keepalive_out == Some(id) || use_id(wishes, id)
    }

    /// The first free ID from one on, after at most so many others.
    fn free_id(&self, wishes: &[Wish], turns: u16, start: u16) -> u16
        ensures { result ≡ free_id turns (ids_in_use wishes.now self.now) start }
    {
        let mut id = start;
        'turns: for _turn in 0..turns {
            if !self.has_id(wishes, id) {
                return id;
            }
            id = id_after(id);
        }
        id
    }

    /// The next ID after the last that isn't in use (RFC 8490, 5.4.1). At most 1,025 are.
    fn next_id(&self, wishes: &[Wish]) -> u16
        ensures { result ≡ next_id wishes.now self.now }
    {
        self.free_id(wishes, MOST_IDS, id_after(self.last_id))
    }

    /// Asks a question with the next ID, and gives it (RFC 8765, 6.2.1).
    pub(crate) fn ask(
        &mut self,
        wishes: &[Wish],
        question: &Question,
        now: u64,
    ) -> Result<u16, NoMemory>
        ensures id { IfOk result (λ id. id ≡ next_id wishes.now self.old) }
        ensures ok { IfOk result (λ id. self.new ≡ writes false now (subscribe_message id question.now) (record self.old { last_id = id })) }
        ensures err { OnErr result (self.new ≡ self.old) }
    {
        let id = self.next_id(wishes);
        append_subscribe(*self.output.allocator(), id, question, &mut self.output)?;
        self.last_id = id;
        self.session.wrote(false, now);
        Ok(id)
    }

    /// Ends the subscription with an ID (RFC 8765, 6.4.1).
    pub(crate) fn unsubscribe(&mut self, id: u16, now: u64) -> Result<(), NoMemory>
        ensures ok { OnOk result (self.new ≡ writes false now (unsubscribe_message id) self.old) }
        ensures err { OnErr result (self.new ≡ self.old) }
    {
        append_unsubscribe(*self.output.allocator(), id, &mut self.output)?;
        self.session.wrote(false, now);
        Ok(())
    }

    /// Says that a record may be out of date, where the session is established and a frame holds the message, and says
    /// whether it did (RFC 8765, 6.5.1).
    pub(crate) fn reconfirm(&mut self, rr: &Rr, now: u64) -> Result<bool, NoMemory>
        ensures said { IfOk result (λ said. said ≡ (self.old.established && nat_le (length (reconfirm_message rr.now)) max_message)) }
        ensures ok { IfOk result (λ said. self.new ≡ cond said (writes false now (reconfirm_message rr.now) self.old) self.old) }
        ensures err { OnErr result (self.new ≡ self.old) }
    {
        if !self.session.established() {
            return Ok(false);
        }
        if !append_reconfirm(*self.output.allocator(), rr, &mut self.output)? {
            return Ok(false);
        }
        self.session.wrote(false, now);
        Ok(true)
    }

    /// Sends a Keepalive with the next ID (RFC 8490, 7.1).
    pub(crate) fn keep_alive(&mut self, wishes: &[Wish], now: u64) -> Result<(), NoMemory>
        ensures ok { OnOk result (self.new ≡ writes true now (keepalive_message (next_id wishes.now self.old)) (record self.old { last_id = next_id wishes.now self.old; keepalive_out = Some (next_id wishes.now self.old) })) }
        ensures err { OnErr result (self.new ≡ self.old) }
    {
        let id = self.next_id(wishes);
        append_keepalive(*self.output.allocator(), id, &mut self.output)?;
        self.last_id = id;
        self.keepalive_out = Some(id);
        self.session.wrote(true, now);
        Ok(())
    }

    /// Does what is due at a moment: a Keepalive goes out, or the connection closes (RFC 8490, 6.4 and 6.5).
    pub(crate) fn moment(&mut self, wishes: &[Wish], now: u64) -> Result<(), NoMemory>
        ensures ok { OnOk result (self.new ≡ done_on (client_due self.old.clocks now (list_any (λ w. is_active w.standing) wishes.now) (is_some self.old.keepalive_out)) wishes.now now self.old) }
        ensures err { OnErr result (self.new ≡ self.old) }
    {
        match self
            .session
            .moment(now, are_active(wishes), self.keepalive_out.is_some())
        {
            Due::Nothing => Ok(()),
            Due::Keepalive => self.keep_alive(wishes, now),
            Due::Idle => {
                self.closed = Some(CloseReason::Idle);
                Ok(())
            }
        }
    }

    /// Takes the longest front of a piece of the input for which there is room, and gives its length (RFC 7766, 8).
    pub(crate) fn take(&mut self, piece: &[u8]) -> usize
        ensures count { result ≡ min (length piece.now) (max_input - length self.old.input) }
        ensures taken { self.new ≡ record self.old { input = self.old.input ++ take (max_input - length self.old.input) piece.now } }
    {
        self.input.push(piece)
    }

    /// Copies the longest front of the output that fits, takes it out, and gives its length.
    pub(crate) fn give(&mut self, buf: &mut [u8]) -> usize
        ensures count { result ≡ min (length buf.old) (length self.old.output) }
        ensures octets { buf.new ≡ take (length buf.old) self.old.output ++ drop (length self.old.output) buf.old }
        ensures rest { self.new ≡ record self.old { output = drop (min (length buf.old) (length self.old.output)) self.old.output } }
    {
        let count = copy_front(&self.output, buf);
        self.output.drain(..count);
        count
    }

    /// Whether this is the ID of the Keepalive that waits for its answer.
    fn is_keepalive_of(&self, id: u16) -> bool
        ensures { result ≡ is_keepalive_of id self.now }
    {
        self.keepalive_out == Some(id)
    }

    /// What a message tells, and the session behind it.
    fn heard(&self, message: &[u8], now: u64) -> Result<(Told, ClientSession), NoMemory>
        ensures { IfOk result (λ h. h ≡ heard now self.now message.now) }
    {
        let mut session = self.session;
        let Some(head) = head(message) else {
            return Ok((Told::Close(CloseReason::Short), session));
        };
        let reaction = reacted(&mut session, &head, self.is_keepalive_of(head.id), now);
        let told = told_of(*self.output.allocator(), &head, reaction, message)?;
        Ok((told, session))
    }

    /// What the first message tells, where it is whole, and the session behind it.
    pub(crate) fn hear(&self, now: u64) -> Result<Option<(Told, ClientSession)>, NoMemory>
        ensures { IfOk result (λ h. h ≡ option_map (λ f. heard now self.now f.0) (first_message self.now.input)) }
    {
        match self.input.next() {
            Some(message) => Ok(Some(self.heard(message, now)?)),
            None => Ok(None),
        }
    }

    /// Takes out the first message, which leaves the session so.
    pub(crate) fn take_up(&mut self, session: ClientSession)
        requires { IsSome (first_message self.old.input) }
        ensures { self.new ≡ taken_up session self.old }
    {
        self.input.drop_first();
        self.session = session;
    }

    /// Closes.
    pub(crate) fn close(&mut self, reason: CloseReason) -> Step
        ensures step { result ≡ (closed_by reason self.old).0 }
        ensures closed { self.new ≡ (closed_by reason self.old).1 }
    {
        self.closed = Some(reason);
        Step::Closed(reason)
    }

    /// Takes up the two timers of a Keepalive, where it has them and the interval isn't under ten seconds (RFC 8490, 6.5.2
    /// and 7.1).
    pub(crate) fn adopt(&mut self, timers: Option<(u32, u32)>) -> Step
        ensures step { result ≡ (adopted_on timers self.old).0 }
        ensures adopted { self.new ≡ (adopted_on timers self.old).1 }
    {
        let Some((inactivity, keepalive)) = timers else {
            return self.close(CloseReason::BadData(KEEPALIVE));
        };
        if keepalive < LEAST_KEEPALIVE {
            return self.close(CloseReason::Interval(keepalive));
        }
        self.session.adopt(Timers {
            inactivity,
            keepalive,
        });
        self.session.establish();
        Step::Kept(inactivity, keepalive)
    }

    /// Takes an answer that is to no wish: it must be to the client's Keepalive (RFC 8490, 5.4.1 and 7.1).
    pub(crate) fn take_other(&mut self, answer: Answer) -> Step
        ensures step { result ≡ (other_answer_on answer self.old).0 }
        ensures taken { self.new ≡ (other_answer_on answer self.old).1 }
    {
        if !self.is_keepalive_of(answer.id) {
            return self.close(CloseReason::Stranger(answer.id));
        }
        if answer.rcode != NOERROR {
            return self.close(CloseReason::Kept(answer.rcode));
        }
        self.keepalive_out = None;
        self.adopt(answer.timers)
    }

    /// Takes up the first message, a request whose kind isn't known, and answers so (RFC 8490, 5.4.5).
    pub(crate) fn answer_typeless(
        &mut self,
        id: u16,
        session: ClientSession,
        now: u64,
    ) -> Result<(), NoMemory>
        requires { IsSome (first_message self.old.input) }
        ensures ok { OnOk result (self.new ≡ writes false now (answer_to id dsotypeni) (taken_up session self.old)) }
        ensures err { OnErr result (self.new ≡ self.old) }
    {
        append_typeless(*self.output.allocator(), id, &mut self.output)?;
        self.take_up(session);
        self.session.wrote(false, now);
        Ok(())
    }

    /// Takes up the first message, which establishes the session (RFC 8765, 6.2.2).
    pub(crate) fn establish(&mut self, session: ClientSession)
        requires { IsSome (first_message self.old.input) }
        ensures { self.new ≡ record (taken_up session self.old) { established = true } }
    {
        self.take_up(session);
        self.session.establish();
    }

    /// Takes up the first message, which says NOERROR to a question that was dropped, and ends its subscription at once
    /// (RFC 8765, 6.4).
    pub(crate) fn end_dropped(
        &mut self,
        id: u16,
        session: ClientSession,
        now: u64,
    ) -> Result<(), NoMemory>
        requires { IsSome (first_message self.old.input) }
        ensures ok { OnOk result (self.new ≡ writes false now (unsubscribe_message id) (record (taken_up session self.old) { established = true })) }
        ensures err { OnErr result (self.new ≡ self.old) }
    {
        append_unsubscribe(*self.output.allocator(), id, &mut self.output)?;
        self.establish(session);
        self.session.wrote(false, now);
        Ok(())
    }
}
