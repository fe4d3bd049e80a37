//! What a message tells a client (RFC 8490, 5.4 and 7; RFC 8765, 6.3).

ghost use Rattle.std.specs.Prelude.{◌≡◌, ◌≤◌, ◌==◌, None, Some, drop, if◌then◌else◌, IfOk, length, take};
ghost use Rattle.std.specs.Int.{w32, from_be_bytes};
ghost use Rattle.rrset.specs.Header.{header_octets, flags_of, id_of, rcode_of};
ghost use Rattle.dsotlv.specs.Messages.{head_of, primary_data};
ghost use Rattle.dsotlv.specs.TlvKinds.{keepalive_size, retry_delay_size};
ghost use Rattle.dsosession.specs.Reactions.{client_reaction};
ghost use Rattle.pushclient.specs.HeardMessages.{pushed, told_of};
ghost use Rattle.pushclient.specs.Steps.{timers_of};

use crate::NoMemory;
use dsosession::session::{ClientReaction, CloseReason};
use dsotlv::kinds::{KEEPALIVE, PUSH};
use dsotlv::{DsoHead, Notices, PushFault, primary_data, read_push};
use std::alloc::Global;

/// The answer to a request.
#[derive(Clone, Copy)]
pub(crate) struct Answer {
    /// The ID of the request (RFC 8490, 5.4.1).
    pub id: u16,
    /// The RCODE.
    pub rcode: u8,
    /// Inactivity timeout and keepalive interval in milliseconds, where the answer has them (RFC 8490, 7.1).
    pub timers: Option<(u32, u32)>,
}

/// What a message tells a client.
#[derive(Drop)]
pub(crate) enum Told {
    /// A request is answered.
    Answered(Answer),
    /// The request with this ID has a kind that isn't known (RFC 8490, 5.4.5).
    Typeless(u16),
    /// A Keepalive, with inactivity timeout and keepalive interval in milliseconds where it has them (RFC 8490, 7.1).
    Keepalive(Option<(u32, u32)>),
    /// A PUSH with these notices (RFC 8765, 6.3).
    Push(Notices),
    /// The client is to close the connection.
    Close(CloseReason),
}

/// The number of a Retry Delay (RFC 8490, 7.2).
fn number(octets: &[u8]) -> Option<u32>
    ensures { result ≡ (if length octets.now == retry_delay_size then Some (from_be_bytes w32 octets.now) else None) }
{
    let [a, b, c, d] = *octets else {
        return None;
    };
    Some(u32::from_be_bytes([a, b, c, d]))
}

/// The two numbers of a Keepalive (RFC 8490, 7.1).
fn two_numbers(octets: &[u8]) -> Option<(u32, u32)>
    ensures { result ≡ (if length octets.now == keepalive_size then Some (from_be_bytes w32 (take 4 octets.now), from_be_bytes w32 (drop 4 octets.now)) else None) }
{
    let [a, b, c, d, e, f, g, h] = *octets else {
        return None;
    };
    Some((
        u32::from_be_bytes([a, b, c, d]),
        u32::from_be_bytes([e, f, g, h]),
    ))
}

/// The two numbers of a Keepalive that stands first (RFC 8490, 7.1).
fn timers(head: &DsoHead, message: &[u8]) -> Option<(u32, u32)>
    requires { head_of message.now ≡ Some head.now }
    ensures { result ≡ timers_of message.now }
{
    match head.primary {
        Some((KEEPALIVE, _)) => two_numbers(primary_data(message)),
        _ => None,
    }
}

/// What the data of a PUSH tell (RFC 8765, 6.3.1).
fn pushed(alloc: Global, octets: &[u8]) -> Result<Told, NoMemory>
    ensures { IfOk result (λ told. told ≡ pushed octets.now) }
{
    match read_push(alloc, octets) {
        Ok(notices) => Ok(Told::Push(notices)),
        Err(PushFault::NoMemory) => Err(NoMemory),
        Err(_) => Ok(Told::Close(CloseReason::BadData(PUSH))),
    }
}

/// What a message tells to which the client reacts so.
pub(crate) fn told_of(
    alloc: Global,
    head: &DsoHead,
    reaction: ClientReaction,
    message: &[u8],
) -> Result<Told, NoMemory>
    requires head { head_of message.now ≡ Some head.now }
    requires reaction { reaction ≡ ClientReaction.Delay → length (primary_data message.now) ≡ retry_delay_size }
    ensures { IfOk result (λ told. told ≡ told_of reaction message.now (id_of message.now) (rcode_of (flags_of message.now))) }
{
    let rcode = (head.flags % 16) as u8;
    Ok(match reaction {
        ClientReaction::Answered => Told::Answered(Answer {
            id: head.id,
            rcode,
            timers: timers(head, message),
        }),
        ClientReaction::Typeless => Told::Typeless(head.id),
        ClientReaction::Keepalive => Told::Keepalive(timers(head, message)),
        ClientReaction::Delay => match number(primary_data(message)) {
            Some(delay) => Told::Close(CloseReason::Delay(delay, rcode)),
            None => unreachable!(),
        },
        ClientReaction::Push => return pushed(alloc, primary_data(message)),
        ClientReaction::Close(reason) => Told::Close(reason),
    })
}
