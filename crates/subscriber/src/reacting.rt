//! What a subscriber says to what it reads.

ghost use Rattle.std.specs.Prelude.{◌≡◌, ◌≤◌, length, IfOk, string_bytes};
ghost use Rattle.push_base.specs.Line.{IsWithin, bytes, read_of};
ghost use Rattle.subscriber.specs.Said.{is_closed, is_used_up, is_waiting, one_less};
ghost use Rattle.subscriber.specs.Standing.{Hears, Reacts, most_read};

use crate::said::Said;
use crate::wording::step_text;
use push_base::{Got, NoMemory};
use pushclient::Client;
use pushclient::client::Step;
use std::alloc::Global;

/// How many octets are asked for at a time. A client that waits has room for more.
pub(crate) const MOST_READ: usize = 4096;

/// The client hears what a read gave, and reacts to the messages that are whole now.
pub(crate) fn hear(
    alloc: Global,
    client: &mut Client,
    messages: &mut Option<u64>,
    got: Got,
    buffer: &[u8],
) -> Result<Said, NoMemory>
    requires within { IsWithin buffer.now got }
    requires small { length buffer.now ≤ most_read }
    ensures { IfOk result (λ said. Hears client.old messages.old (read_of got buffer.now) client.new messages.new (string_bytes said.text) said.is_over) }
{
    match got {
        Got::Bytes(count) => {
            let said = hear_octets(alloc, client, messages, &buffer[..count])?;
            Ok(said)
        }
        Got::Quiet => Ok(Said {
            text: String::new(alloc),
            is_over: false,
        }),
        Got::End => {
            let text = String::from_str(alloc, "closed eof\n")?;
            Ok(Said {
                text,
                is_over: true,
            })
        }
    }
}

// Octets go in, and what is whole now is reacted to. They have room, since the client waits.
fn hear_octets(
    alloc: Global,
    client: &mut Client,
    messages: &mut Option<u64>,
    octets: &[u8],
) -> Result<Said, NoMemory>
    requires { length octets.now ≤ most_read }
    ensures { IfOk result (λ said. Hears client.old messages.old (bytes octets.now) client.new messages.new (string_bytes said.text) said.is_over) }
{
    let _ = client.take(octets);
    let said = react(alloc, client, messages)?;
    Ok(said)
}

// The client reacts to one message after the other, until none is whole, or an ending is said.
fn react(alloc: Global, client: &mut Client, messages: &mut Option<u64>) -> Result<Said, NoMemory>
    ensures { IfOk result (λ said. Reacts client.old messages.old client.new messages.new (string_bytes said.text) said.is_over) }
{
    let mut text = String::new(alloc);
    let mut left = u64::MAX;
    'steps: loop {
        let step = client.step()?;
        if is_waiting(&step) {
            return Ok(Said {
                text,
                is_over: false,
            });
        }
        let lines = step_text(alloc, &step)?;
        text.push_str(lines.as_str())?;
        if is_closed(&step) {
            return Ok(Said {
                text,
                is_over: true,
            });
        }
        *messages = one_less(*messages);
        if is_used_up(*messages) {
            text.push_str("ended messages\n")?;
            return Ok(Said {
                text,
                is_over: true,
            });
        }
        if left == 0 {
            return Ok(Said {
                text,
                is_over: false,
            });
        }
        left -= 1;
    }
}

// Whether no message was whole.
fn is_waiting(step: &Step) -> bool
    ensures { result ≡ is_waiting step.now }
{
    match step {
        Step::Waiting => true,
        Step::Answered(_, _) | Step::Kept(_, _) | Step::Pushed(_) => false,
        Step::Typeless(_) | Step::Closed(_) => false,
    }
}

// Whether the client has closed.
fn is_closed(step: &Step) -> bool
    ensures { result ≡ is_closed step.now }
{
    match step {
        Step::Closed(_) => true,
        Step::Answered(_, _) | Step::Kept(_, _) | Step::Pushed(_) => false,
        Step::Typeless(_) | Step::Waiting => false,
    }
}

// How many messages may come behind one, where they are counted.
fn one_less(messages: Option<u64>) -> Option<u64>
    ensures { result ≡ one_less messages }
{
    match messages {
        None => None,
        Some(count) => Some(count.saturating_sub(1)),
    }
}

/// Whether no further message is counted.
pub(crate) fn is_used_up(messages: Option<u64>) -> bool
    ensures { result ≡ is_used_up messages }
{
    match messages {
        None => false,
        Some(count) => count == 0,
    }
}
