//! The first whole message of a session (RFC 7766, 8).

ghost use Rattle.std.specs.Prelude.{◌≡◌, ◌<◌, ◌≤◌, length, IfOk, OnErr, Some, None, option_map};
ghost use Rattle.rrset.specs.Header.{header_octets, id_of};
ghost use Rattle.dsotlv.specs.Messages.{head_of, max_frame};
ghost use Rattle.dsosession.specs.Reactions.{server_reaction};
ghost use Rattle.pushsession.specs.Reactions.{IsRead, request_for, request_in};
ghost use Rattle.pushsession.specs.Requests.{message_of, request_of, taken_up};

use crate::NoMemory;
use crate::request::Request;
use crate::session::PushSession;
use dsosession::server_reaction;
use dsosession::session::Reaction;
use dsotlv::{DsoHead, head, primary_data, read_question, read_reconfirm};
use std::alloc::Global;

/// What is needed for a message with this reaction.
fn request_for(alloc: Global, reaction: Reaction, message: &[u8]) -> Result<Request, NoMemory>
    requires { header_octets ≤ length message.now }
    ensures request { IfOk result (λ request. request ≡ request_for reaction message.now) }
    ensures memory { OnErr result (IsRead (Some (request_for reaction message.now))) }
{
    match reaction {
        Reaction::Subscribe => {
            let question = read_question(alloc, primary_data(message))?;
            Ok(Request::Subscribe(question))
        }
        Reaction::Reconfirm => {
            let record = read_reconfirm(alloc, primary_data(message))?;
            Ok(Request::Reconfirm(record))
        }
        Reaction::Update => Ok(Request::Update),
        Reaction::Query => Ok(Request::Query),
        Reaction::Answer(_)
        | Reaction::Grant
        | Reaction::Abort(_)
        | Reaction::Unsubscribe
        | Reaction::NotImplemented => Ok(Request::Itself),
    }
}

/// What is needed for a message, where the session is established or not.
fn request_in(alloc: Global, message: &[u8], established: bool) -> Result<Request, NoMemory>
    ensures request { IfOk result (λ request. request ≡ request_in message.now established) }
    ensures memory { OnErr result (IsRead (Some (request_in message.now established))) }
{
    match head(message) {
        Some(head) => request_for(alloc, server_reaction(&head, established), message),
        None => Ok(Request::Itself),
    }
}

/// A message that was taken up.
#[derive(Clone, Copy)]
pub(crate) struct Taken {
    pub head: DsoHead,
    pub reaction: Reaction,
}

impl PushSession {
    /// What it needs of the server to react to the first whole message, if one waits. Only a question and a record take
    /// memory. Where no message waits, less than the longest frame does, so that there is room for more.
    pub fn request(&self, alloc: Global) -> Result<Option<Request>, NoMemory>
        ensures request { IfOk result (λ request. request ≡ request_of self.now) }
        ensures memory { OnErr result (IsRead (request_of self.now)) }
        ensures room { IfOk result (λ request. request ≡ None → length self.now.input < max_frame) }
    {
        match self.input.next() {
            Some(message) => {
                let request = request_in(alloc, message, self.state.established())?;
                Ok(Some(request))
            }
            None => Ok(None),
        }
    }

    /// The first whole message, or nothing.
    pub fn message(&self) -> &[u8]
        ensures { result.now ≡ message_of self.now }
    {
        match self.input.next() {
            Some(message) => message,
            None => &[],
        }
    }

    /// The ID of the first whole message.
    pub(crate) fn id(&self) -> u16
        requires { header_octets ≤ length (message_of self.now) }
        ensures { result ≡ id_of (message_of self.now) }
    {
        let message = self.message();
        u16::from_be_bytes([message[0], message[1]])
    }

    /// Takes up the first message: it leaves the input, and restarts the timers. Gives its head and the reaction to it,
    /// or nothing where it has no whole header.
    pub(crate) fn take_up(&mut self, now: u64) -> Option<Taken>
        ensures taken { result ≡ option_map (λ head. record { head = head; reaction = server_reaction head self.old.established }) (head_of (message_of self.old)) }
        ensures session { self.new ≡ taken_up now self.old }
    {
        let head = head(self.input.next()?);
        self.input.drop_first();
        let head = head?;
        let reaction = self.state.react(&head, now);
        Some(Taken { head, reaction })
    }
}
