//! How a session reacts to its first whole message (RFC 8490, 5; RFC 8765, 6.4 and 6.5).

ghost use Rattle.std.specs.Prelude.{◌≡◌, ◌<◌, ◌≤◌, ◌^◌, [], length, Some, is_some};
ghost use Rattle.std.specs.Int.{w16, from_be_bytes};
ghost use Rattle.rrset.specs.Header.{header_octets};
ghost use Rattle.dsotlv.specs.Messages.{primary_data};
ghost use Rattle.dsotlv.specs.TlvKinds.{unsubscribe_size};
ghost use Rattle.pushsession.specs.Kept.{keeping, without_filled};
ghost use Rattle.subscr.specs.Watching.{watching_of};
ghost use Rattle.pushsession.specs.Watched.{Rewatches};
ghost use Rattle.pushsession.specs.Reactions.{granted, let_go, unsubscribed};
ghost use Rattle.pushsession.specs.Requests.{reacted, reconfirmed, replied, request_of, updated};
ghost use Rattle.pushsession.specs.declared.request.Request.TheVariants as requests;

use crate::session::PushSession;
use crate::short_messages::{answer, header, keepalive};
use crate::taking::Taken;
use crate::watching::unask;
use coalesce::Queue;
use dsosession::session::{EndReason, Reaction, Timers};
use dsotlv::kinds::RECONFIRM;
use dsotlv::primary_data;
use rrset::header::{HEADER, KEPT_FLAGS, RESPONSE, UPDATE_ANSWER};
use rrset::rcodes::{NOERROR, NOTIMP};
use rrset::{Question, Rr};
use subscr::{Subscriptions, Watchers};

/// The ID in the first TLV of a message, where its data has the size of one (RFC 8765, 6.4.1).
fn first_number(message: &[u8]) -> Option<u16>
    ensures { header_octets ≤ length message.now → length (primary_data message.now) ≡ unsubscribe_size → result ≡ Some (from_be_bytes w16 (primary_data message.now)) }
{
    if message.len() < HEADER {
        return None;
    }
    let [high, low] = *primary_data(message) else {
        return None;
    };
    Some(u16::from_be_bytes([high, low]))
}

/// Takes out the end of a first answer.
fn take_out(filled: &mut Vec<(u16, u64)>, id: u16)
    ensures { filled.new.items ≡ without_filled id filled.old.items }
{
    filled.retain(|entry| entry.0 != id);
}

/// Takes the name of a question that went out of those that wait, where none of these questions has it.
fn let_go(queue: &mut Queue, left: &Subscriptions, question: Option<Question>)
    ensures { queue.new ≡ let_go keeping question (record { asked = left.now; filled = [] }) queue.old }
{
    match question {
        Some(question) => {
            if !left.watches(&question.name) {
                queue.forget(&question.name);
            }
        }
        None => {}
    }
}

impl PushSession {
    /// Grants timers: they hold from now on, and the session is established (RFC 8490, 5.1 and 7.1).
    fn grant(&mut self, timers: Timers)
        ensures { self.new ≡ granted timers self.old }
    {
        self.state.grant(timers);
        self.state.establish();
    }

    /// Takes out an ID with its question (RFC 8765, 6.4); the name waits no longer where no other question has it. An
    /// unknown ID is ignored.
    fn unsubscribe(&mut self, id: u16, watchers: &mut Watchers, number: u64)
        ensures session { self.new ≡ unsubscribed keeping id self.old }
        ensures watched { Rewatches number (watching_of watchers.old) (watching_of watchers.new) self.old self.new }
    {
        let question = unask(&mut self.subscriptions, id, watchers, number);
        take_out(&mut self.filled, id);
        let_go(&mut self.queue, &self.subscriptions, question);
    }

    /// Reacts to a message for which it needs nothing: the server's timers are given where it asks for them. One without a
    /// whole header ends the session.
    pub fn react(&mut self, timers: Timers, now: u64, watchers: &mut Watchers, number: u64)
        requires output { self.old.output ≡ [] }
        requires request { request_of self.old ≡ Some requests.Itself }
        ensures session { self.new ≡ reacted timers now self.old }
        ensures watched { Rewatches number (watching_of watchers.old) (watching_of watchers.new) self.old self.new }
    {
        let unsubscribed = first_number(self.message());
        match self.take_up(now) {
            None => self.end(EndReason::Short, watchers, number),
            Some(Taken { head, reaction }) => match reaction {
                Reaction::Answer(rcode) => {
                    let answer = answer(head.id, rcode);
                    self.say(false, now, &answer, &[]);
                }
                Reaction::Grant => {
                    let answer = answer(head.id, NOERROR);
                    self.say(true, now, &answer, &keepalive(timers));
                    self.grant(timers);
                }
                Reaction::Abort(reason) => self.end(reason, watchers, number),
                Reaction::Unsubscribe => match unsubscribed {
                    Some(id) => self.unsubscribe(id, watchers, number),
                    None => unreachable!(),
                },
                Reaction::NotImplemented => {
                    let flags = RESPONSE + (head.flags & KEPT_FLAGS) + u16::from(NOTIMP);
                    let header = header(head.id, flags);
                    self.say(false, now, &header, &[]);
                }
                Reaction::Subscribe | Reaction::Reconfirm | Reaction::Update | Reaction::Query => {}
            },
        }
    }

    /// Answers an update that got this RCODE (RFC 2136, 3.8).
    pub fn answer_update(&mut self, rcode: u8, now: u64)
        requires output { self.old.output ≡ [] }
        requires request { request_of self.old ≡ Some requests.Update }
        ensures { self.new ≡ updated rcode now self.old }
    {
        let id = self.id();
        let _ = self.take_up(now);
        let header = header(id, UPDATE_ANSWER + u16::from(rcode));
        self.say(false, now, &header, &[]);
    }

    /// Answers a query with this reply (RFC 1035, 4.1).
    pub fn answer_query(&mut self, reply: &[u8], now: u64)
        requires output { self.old.output ≡ [] }
        requires request { request_of self.old ≡ Some requests.Query }
        requires size { length reply.now < 2 ^ 16 }
        ensures { self.new ≡ replied reply.now now self.old }
    {
        let _ = self.take_up(now);
        self.say(false, now, &[], reply);
    }

    /// Takes up a RECONFIRM whose data is a record, or ends where it is none (RFC 8765, 6.5).
    pub fn reconfirm(&mut self, rr: Option<Rr>, now: u64, watchers: &mut Watchers, number: u64)
        requires { request_of self.old ≡ Some (requests.Reconfirm rr) }
        ensures session { self.new ≡ reconfirmed (is_some rr) now self.old }
        ensures watched { Rewatches number (watching_of watchers.old) (watching_of watchers.new) self.old self.new }
    {
        let _ = self.take_up(now);
        if rr.is_none() {
            self.end(EndReason::BadData(RECONFIRM), watchers, number);
        }
    }
}
