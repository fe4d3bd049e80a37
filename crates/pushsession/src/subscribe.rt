//! SUBSCRIBE (RFC 8765, 6.2).

ghost use Rattle.std.specs.Prelude.{◌≡◌, ◌++◌, [], false, true, find, length, OnOk, OnErr, IsTrue, Some};
ghost use Rattle.rrset.specs.Rcodes.{noerror};
ghost use Rattle.rrset.specs.RecordSet.{at_name};
ghost use Rattle.dsotlv.specs.Answers.{answer_to, refusal_to};
ghost use Rattle.coalesce.specs.FirstAnswers.{first_notices};
ghost use Rattle.coalesce.specs.Laws.{can_be_sent};
ghost use Rattle.coalesce.specs.Net.{push_frame};
ghost use Rattle.coalesce.specs.Sides.{IsOneSide};
ghost use Rattle.coalesce.specs.Waiting.{is_named};
ghost use Rattle.pushsession.specs.Sessions.{answers, ended_with};
ghost use Rattle.pushsession.specs.Kept.{keeping, telling};
ghost use Rattle.pushsession.specs.Subscribing.{Accept, with_accepted, first_answer_octets, is_served, verdict_on};
ghost use Rattle.pushsession.specs.Requests.{CanBeTold, request_of, subscribed_by, taken_up};
ghost use Rattle.subscr.specs.Watching.{watching_of};
ghost use Rattle.pushsession.specs.Watched.{Rewatches};
ghost use Rattle.pushsession.specs.declared.request.Request.TheVariants as requests;

use crate::NoMemory;
use crate::session::PushSession;
use crate::short_messages::{answer, append_message, retry_delay};
use crate::watching::ask;
use coalesce::{Frame, Queue};
use dsosession::session::EndReason;
use dsotlv::LENGTH;
use dsotlv::delays::REFUSAL;
use nametable::Index;
use push_base::Steps;
use rrset::Question;
use rrset::classes::{ANY, IN};
use rrset::header::HEADER;
use rrset::rcodes::{FORMERR, NOERROR, NOTAUTH, REFUSED};
use std::sync::ledger::Ledger;
use subscr::{MAX_QUESTIONS, Subscriptions, Watchers};

/// Whether records of a class are served.
fn is_served(class: u16) -> bool
    ensures { result ≡ is_served class }
{
    class == IN || class == ANY
}

/// Appends NOERROR and the PUSH that follows it, if there is one (RFC 8765, 6.2.2), and gives the octets of the PUSH.
fn append_first_answer<L: Ledger>(
    out: &mut Frame,
    id: u16,
    question: &Question,
    queue: &Queue,
    questions: &Subscriptions,
    index: &Index,
    steps: &mut Steps<L>,
) -> usize
    requires empty { out.old ≡ [] }
    requires side { IsOneSide (at_name question.now.name index.now.rows) }
    requires sent { IsTrue (can_be_sent (at_name question.now.name index.now.rows)) }
    ensures written { out.new ≡ out.old ++ first_answer_octets (answer_to id noerror) (first_notices question.now questions.now index.now.rows (find (is_named question.now.name) queue.now)) }
    ensures size { result ≡ length (push_frame (first_notices question.now questions.now index.now.rows (find (is_named question.now.name) queue.now))) }
{
    append_message(out, &answer(id, NOERROR), &[]);
    queue.first_answer(question, questions, index, out, steps)
}

impl PushSession {
    /// Takes up a SUBSCRIBE, and refuses it with an RCODE and a Retry Delay (RFC 8765, 6.2.2).
    fn refuse(&mut self, id: u16, rcode: u8, now: u64)
        requires { self.old.output ≡ [] }
        ensures { self.new ≡ answers keeping false now (refusal_to id rcode) (taken_up now self.old) }
    {
        let _ = self.take_up(now);
        self.say(false, now, &answer(id, rcode), &retry_delay(REFUSAL));
    }

    /// Takes up a SUBSCRIBE, and ends the session.
    fn abort(&mut self, reason: EndReason, now: u64, watchers: &mut Watchers, number: u64)
        ensures session { self.new ≡ ended_with keeping reason (taken_up now self.old) }
        ensures watched { Rewatches number (watching_of watchers.old) (watching_of watchers.new) self.old self.new }
    {
        let _ = self.take_up(now);
        self.end(reason, watchers, number);
    }

    /// What of accepting a SUBSCRIBE can run out of memory: all but that the message is taken up, the timers restart and
    /// the session is established. Where it does, nothing changes.
    fn hold<L: Ledger>(
        &mut self,
        id: u16,
        question: Question,
        index: &Index,
        watchers: &mut Watchers,
        number: u64,
        steps: &mut Steps<L>,
    ) -> Result<(), NoMemory>
        requires output { self.old.output ≡ [] }
        requires accepted { verdict_on keeping id (Some question) true self.old.subscriptions ≡ Accept question }
        requires side { IsOneSide (at_name question.name index.now.rows) }
        requires sent { IsTrue (can_be_sent (at_name question.name index.now.rows)) }
        ensures ok { OnOk result (self.new ≡ record (with_accepted keeping (telling index.now.rows) 0 id question self.old) { clocks = self.old.clocks; established = self.old.established }) }
        ensures err { OnErr result (self.new ≡ self.old) }
        ensures watched { Rewatches number (watching_of watchers.old) (watching_of watchers.new) self.old self.new }
    {
        let name = question.name.copy()?;
        self.filled.reserve(1)?;
        let size = append_first_answer(
            &mut self.output,
            id,
            &question,
            &self.queue,
            &self.subscriptions,
            index,
            steps,
        );
        let questions = &mut self.subscriptions;
        if ask(questions, id, question, &name, watchers, number).is_err() {
            self.output.clear();
            return Err(NoMemory);
        }
        let written = self.written.saturating_add((LENGTH + HEADER) as u64);
        self.written = written.saturating_add(size as u64);
        if self.filled.push((id, self.written)).is_err() {
            unreachable!();
        }
        self.queue.forget(&name);
        Ok(())
    }

    /// Accepts a SUBSCRIBE with NOERROR and the PUSH that follows it. Where memory runs out nothing changes.
    fn accept<L: Ledger>(
        &mut self,
        id: u16,
        question: Question,
        index: &Index,
        now: u64,
        watchers: &mut Watchers,
        number: u64,
        steps: &mut Steps<L>,
    ) -> Result<(), NoMemory>
        requires output { self.old.output ≡ [] }
        requires accepted { verdict_on keeping id (Some question) true self.old.subscriptions ≡ Accept question }
        requires side { IsOneSide (at_name question.name index.now.rows) }
        requires sent { IsTrue (can_be_sent (at_name question.name index.now.rows)) }
        ensures ok { OnOk result (self.new ≡ with_accepted keeping (telling index.now.rows) now id question (taken_up now self.old)) }
        ensures err { OnErr result (self.new ≡ self.old) }
        ensures watched { Rewatches number (watching_of watchers.old) (watching_of watchers.new) self.old self.new }
    {
        self.hold(id, question, index, watchers, number, steps)?;
        let _ = self.take_up(now);
        self.state.wrote(false, now);
        self.state.establish();
        Ok(())
    }

    /// Answers a SUBSCRIBE with this question, or none, where its name has a home or not (RFC 8765, 6.2): an ID in use
    /// and a question asked twice end the session; else it is refused, or accepted. Where memory runs out nothing
    /// changes.
    pub fn subscribe<L: Ledger>(
        &mut self,
        question: Option<Question>,
        has_home: bool,
        index: &Index,
        now: u64,
        watchers: &mut Watchers,
        number: u64,
        steps: &mut Steps<L>,
    ) -> Result<(), NoMemory>
        requires output { self.old.output ≡ [] }
        requires request { request_of self.old ≡ Some (requests.Subscribe question) }
        requires told { CanBeTold question has_home index.now.rows }
        ensures ok { OnOk result (self.new ≡ subscribed_by question has_home index.now.rows now self.old) }
        ensures err { OnErr result (self.new ≡ self.old) }
        ensures watched { Rewatches number (watching_of watchers.old) (watching_of watchers.new) self.old self.new }
    {
        let id = self.id();
        let Some(question) = question else {
            self.refuse(id, FORMERR, now);
            return Ok(());
        };
        if self.subscriptions.has(id) {
            self.abort(EndReason::IdInUse(id), now, watchers, number);
            return Ok(());
        }
        if let Some(active) = self.subscriptions.id_of(&question) {
            self.abort(EndReason::Twice(active), now, watchers, number);
            return Ok(());
        }
        if !(is_served(question.class) && has_home) {
            self.refuse(id, NOTAUTH, now);
            return Ok(());
        }
        if self.subscriptions.len() >= MAX_QUESTIONS {
            self.refuse(id, REFUSED, now);
            return Ok(());
        }
        self.accept(id, question, index, now, watchers, number, steps)
    }
}
