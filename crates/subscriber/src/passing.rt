//! What a subscriber does at a moment.

ghost use Rattle.std.specs.Prelude.{◌≡◌, ◌≤◌, ℕ, Option, length, IfOk, string_bytes};
ghost use Rattle.pushclient.specs.Clients.{connected};
ghost use Rattle.pushclient.specs.Rule.{StandsFor};
ghost use Rattle.configurations.specs.Kept.{subscribing_kept};
ghost use Rattle.subscriber.specs.Said.{asking, capped};
ghost use Rattle.subscriber.specs.Standing.{Begins, IsClosing, Passes};

use crate::said::{Passed, Said};
use crate::wording::closed_text;
use configurations::SubscribeConfiguration;
use dsosession::session::CloseReason;
use push_base::NoMemory;
use push_base::limits::MAX_MOMENT;
use pushclient::{Client, hand_out_over};
use rrset::record::Question;
use std::alloc::Global;

/// A client that was connected at a moment, and what it has to send.
#[derive(Drop)]
pub(crate) struct Begun {
    /// The client.
    pub client: Client,
    /// What it asks.
    pub octets: Vec<u8>,
}

/// A client is connected, which asks what it is told to.
pub(crate) fn begin(
    alloc: Global,
    configuration: &SubscribeConfiguration,
    millis: u64,
    buffer: &mut [u8],
) -> Result<Begun, NoMemory>
    requires { 1 ≤ length buffer.old }
    ensures { IfOk result (λ begun. Begins (subscribing_kept configuration.now) millis begun.client begun.octets.items) }
{
    let mut client = connect(alloc, &configuration.questions, capped(millis))?;
    let octets = hand_out_over(alloc, &mut client, buffer)?;
    Ok(Begun { client, octets })
}

// A client that wants these answers, connected at a moment.
fn connect(alloc: Global, questions: &[Question], now: u64) -> Result<Client, NoMemory>
    ensures { IfOk result (λ client. StandsFor client (connected now (asking questions.now))) }
{
    let mut client = ask_all(alloc, questions)?;
    client.connected(now)?;
    Ok(client)
}

// A client that wants these answers, and has no connection.
fn ask_all(alloc: Global, questions: &[Question]) -> Result<Client, NoMemory>
    ensures { IfOk result (λ client. StandsFor client (asking questions.now)) }
{
    let mut client = Client::new(alloc);
    'questions: for question in questions {
        let question = question.copy()?;
        let _ = client.subscribe(question)?;
    }
    Ok(client)
}

/// It is a moment: what is due is done, and all that the client has to send is handed out. Where it closes, that is said.
pub(crate) fn pass(
    alloc: Global,
    client: &mut Client,
    millis: u64,
    buffer: &mut [u8],
) -> Result<Passed, NoMemory>
    requires { 1 ≤ length buffer.old }
    ensures { IfOk result (λ passed. (messages : Option ℕ) → Passes client.old messages millis client.new passed.octets.items (string_bytes passed.said.text) passed.said.is_over) }
{
    client.moment(capped(millis))?;
    let octets = hand_out_over(alloc, client, buffer)?;
    let said = closing(alloc, client.closed())?;
    Ok(Passed { octets, said })
}

// What is said of a client that has closed, if it has.
fn closing(alloc: Global, closed: Option<CloseReason>) -> Result<Said, NoMemory>
    ensures { IfOk result (λ said. IsClosing closed (string_bytes said.text) said.is_over) }
{
    match closed {
        None => Ok(Said {
            text: String::new(alloc),
            is_over: false,
        }),
        Some(reason) => Ok(Said {
            text: closed_text(alloc, reason)?,
            is_over: true,
        }),
    }
}

// A moment over the greatest counts as that.
fn capped(millis: u64) -> u64
    ensures { result ≡ capped millis }
{
    millis.min(MAX_MOMENT)
}
