//! What each end does with a message, by its head (RFC 8490, 5 to 7; RFC 8765, 6).

ghost use Rattle.std.specs.Prelude.{◌≡◌};
ghost use Rattle.dsosession.specs.Reactions.{is_keepalive, may_be_keepalive, answer_or_end, primary_reaction, dso_reaction, server_reaction, is_known, told_reaction, client_reaction};

use crate::session::{ClientReaction, CloseReason, EndReason, Reaction};
use dsotlv::kinds::{KEEPALIVE, PADDING, PUSH, RECONFIRM, RETRY_DELAY, SUBSCRIBE, UNSUBSCRIBE};
use dsotlv::{DsoHead, data_sizes};
use rrset::header::{DSO_OPCODE, UPDATE_OPCODE, is_response, opcode_of};
use rrset::rcodes::{DSOTYPENI, FORMERR};

/// OPCODE of a query (RFC 1035, 4.1.1).
pub const QUERY_OPCODE: u16 = 0;

/// Whether a message is a Keepalive that is no answer (RFC 8490, 7.1).
pub(crate) fn is_keepalive(head: &DsoHead) -> bool
    ensures { result ≡ is_keepalive head.now }
{
    if is_response(head.flags) || opcode_of(head.flags) != DSO_OPCODE {
        return false;
    }
    head.primary.is_some_and(|primary| primary.0 == KEEPALIVE)
}

/// Whether a message is a Keepalive, or an answer, which may be one to a Keepalive (RFC 8490, 7.1).
pub(crate) fn may_be_keepalive(head: &DsoHead) -> bool
    ensures { result ≡ may_be_keepalive head.now }
{
    is_response(head.flags) || is_keepalive(head)
}

/// A request is answered, and what has no ID ends the session.
fn answer_or_end(head: &DsoHead, rcode: u8, reason: EndReason) -> Reaction
    ensures { result ≡ answer_or_end head.now rcode reason }
{
    if head.id == 0 {
        Reaction::Abort(reason)
    } else {
        Reaction::Answer(rcode)
    }
}

/// What the server does with a message whose primary TLV has this kind and length.
fn primary_reaction(head: &DsoHead, kind: u16, size: u16) -> Reaction
    ensures { result ≡ primary_reaction head.now kind size }
{
    let is_request = head.id != 0;
    match kind {
        KEEPALIVE if !is_request => Reaction::Abort(EndReason::Misuse(kind)),
        KEEPALIVE if size == data_sizes::KEEPALIVE => Reaction::Grant,
        KEEPALIVE => Reaction::Answer(FORMERR),
        PADDING => answer_or_end(head, FORMERR, EndReason::Misuse(kind)),
        SUBSCRIBE if is_request => Reaction::Subscribe,
        UNSUBSCRIBE if is_request => Reaction::Abort(EndReason::Misuse(kind)),
        UNSUBSCRIBE if size == data_sizes::UNSUBSCRIBE => Reaction::Unsubscribe,
        UNSUBSCRIBE => Reaction::Abort(EndReason::BadData(kind)),
        RECONFIRM if !is_request => Reaction::Reconfirm,
        RETRY_DELAY | SUBSCRIBE | PUSH | RECONFIRM => Reaction::Abort(EndReason::Misuse(kind)),
        _ => answer_or_end(head, DSOTYPENI, EndReason::Unknown(kind)),
    }
}

/// What the server does with a message of OPCODE 6 that is no response and has zero counts.
fn dso_reaction(head: &DsoHead, established: bool) -> Reaction
    ensures { result ≡ dso_reaction head.now established }
{
    let malformed = answer_or_end(head, FORMERR, EndReason::Tlvs);
    let Some((kind, size)) = head.primary else {
        return malformed;
    };
    if !head.tlvs_good {
        return malformed;
    }
    if head.id == 0 && !established {
        return Reaction::Abort(EndReason::Early);
    }
    primary_reaction(head, kind, size)
}

/// What the server does with a message of at least 12 octets, by its head, where the session is established or not.
pub fn server_reaction(head: &DsoHead, established: bool) -> Reaction
    ensures { result ≡ server_reaction head.now established }
{
    let opcode = opcode_of(head.flags);
    if is_response(head.flags) {
        return Reaction::Abort(EndReason::Answer);
    }
    if opcode == UPDATE_OPCODE {
        return Reaction::Update;
    }
    if opcode == QUERY_OPCODE {
        return Reaction::Query;
    }
    if opcode != DSO_OPCODE {
        return Reaction::NotImplemented;
    }
    if !head.zero_counts {
        return answer_or_end(head, FORMERR, EndReason::Counts);
    }
    dso_reaction(head, established)
}

/// Whether a TLV's kind is one of those that either end may send first (RFC 8490, 7; RFC 8765, 6).
fn is_known(kind: u16) -> bool
    ensures { result ≡ is_known kind }
{
    matches!(
        kind,
        KEEPALIVE | RETRY_DELAY | PADDING | SUBSCRIBE..=RECONFIRM
    )
}

/// What the client does with a message that is no answer and whose primary TLV has this kind and length.
fn told_reaction(head: &DsoHead, established: bool, kind: u16, size: u16) -> ClientReaction
    ensures { result ≡ told_reaction head.now established kind size }
{
    if head.id != 0 && is_known(kind) {
        return ClientReaction::Close(CloseReason::Misuse(kind));
    }
    if head.id != 0 {
        return ClientReaction::Typeless;
    }
    if !established {
        return ClientReaction::Close(CloseReason::Early);
    }
    match kind {
        KEEPALIVE => ClientReaction::Keepalive,
        RETRY_DELAY if size == data_sizes::RETRY_DELAY => ClientReaction::Delay,
        RETRY_DELAY => ClientReaction::Close(CloseReason::BadData(kind)),
        PUSH => ClientReaction::Push,
        _ if is_known(kind) => ClientReaction::Close(CloseReason::Misuse(kind)),
        _ => ClientReaction::Close(CloseReason::Unknown(kind)),
    }
}

/// What the client does with a message of at least 12 octets, by its head, where the session is established or not.
pub(crate) fn client_reaction(head: &DsoHead, established: bool) -> ClientReaction
    ensures { result ≡ client_reaction head.now established }
{
    if opcode_of(head.flags) != DSO_OPCODE {
        return ClientReaction::Close(CloseReason::Opcode);
    }
    if !head.zero_counts {
        return ClientReaction::Close(CloseReason::Counts);
    }
    if !head.tlvs_good {
        return ClientReaction::Close(CloseReason::Tlvs);
    }
    match head.primary {
        _ if is_response(head.flags) => ClientReaction::Answered,
        Some((kind, size)) => told_reaction(head, established, kind, size),
        None => ClientReaction::Close(CloseReason::Tlvs),
    }
}
