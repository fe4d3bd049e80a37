//! The messages that a client sends (RFC 8490, 5.4 and 7.1; RFC 8765, 6.2 to 6.5).

ghost use Rattle.std.specs.Prelude.{◌≡◌, ◌++◌, ◌<◌, ◌≤◌, length, cond, nat_le, IfOk, OnOk, OnErr};
ghost use Rattle.std.specs.Int.{w32, to_be_bytes};
ghost use Rattle.rrset.specs.Header.{max_message};
ghost use Rattle.dsotlv.specs.Answers.{answer_to};
ghost use Rattle.dsotlv.specs.Messages.{dso_octets, frame};
ghost use Rattle.dsosession.specs.Timing.{default_timers};
ghost use Rattle.pushclient.specs.Clients.{question_octets, reconfirm_message, subscribe_message, unsubscribe_message};
ghost use Rattle.pushclient.specs.Kept.{reconfirm_data, told_once};
ghost use Rattle.pushclient.specs.Steps.{keepalive_message};

use crate::NoMemory;
use dsosession::times::DEFAULT_TIMER;
use dsotlv::kinds::{KEEPALIVE, RECONFIRM, SUBSCRIBE, UNSUBSCRIBE};
use dsotlv::{DsoMessage, Tlv, Tlvs, WriteDsoFault, write_dso};
use push_base::Octets;
use rrset::rcodes::DSOTYPENI;
use rrset::record::{Question, Rr};
use std::alloc::Global;

/// A message with one TLV that is no answer.
fn one_tlv(alloc: Global, id: u16, kind: u16, body: &[u8]) -> Result<DsoMessage, NoMemory>
    ensures { IfOk result (λ message. message ≡ told_once id kind body.now) }
{
    let octets = Octets::from_slice(alloc, body)?;
    let mut tlvs = Tlvs::new(alloc);
    tlvs.push(Tlv { kind, octets })?;
    Ok(DsoMessage {
        id,
        response: false,
        rcode: 0,
        tlvs,
    })
}

/// Appends a message behind its length, which a frame holds.
fn append(message: &DsoMessage, out: &mut Vec<u8>) -> Result<(), NoMemory>
    requires rcode { message.now.rcode < 16 }
    requires size { length (dso_octets message.now) ≤ max_message }
    ensures ok { OnOk result (out.new.items ≡ out.old.items ++ frame (dso_octets message.now)) }
    ensures err { OnErr result (out.new.items ≡ out.old.items) }
{
    match write_dso(message, out) {
        Ok(()) => Ok(()),
        Err(WriteDsoFault::NoMemory) => Err(NoMemory),
        Err(WriteDsoFault::Long) => unreachable!(),
    }
}

/// The octets of a question (RFC 8765, 6.2.1).
fn question_octets(alloc: Global, question: &Question) -> Result<Vec<u8>, NoMemory>
    ensures octets { IfOk result (λ octets. octets.items ≡ question_octets question.now) }
    ensures most { IfOk result (λ octets. length octets.items ≤ 259) }
{
    let mut octets = Vec::new(alloc);
    octets.extend_from_slice(question.name.octets())?;
    octets.extend_from_slice(&question.kind.to_be_bytes())?;
    octets.extend_from_slice(&question.class.to_be_bytes())?;
    Ok(octets)
}

/// Appends a SUBSCRIBE behind its length (RFC 8765, 6.2.1).
pub(crate) fn append_subscribe(
    alloc: Global,
    id: u16,
    question: &Question,
    out: &mut Vec<u8>,
) -> Result<(), NoMemory>
    ensures ok { OnOk result (out.new.items ≡ out.old.items ++ frame (subscribe_message id question.now)) }
    ensures err { OnErr result (out.new.items ≡ out.old.items) }
{
    let octets = question_octets(alloc, question)?;
    let message = one_tlv(alloc, id, SUBSCRIBE, &octets)?;
    append(&message, out)
}

/// Appends an UNSUBSCRIBE behind its length (RFC 8765, 6.4.1).
pub(crate) fn append_unsubscribe(alloc: Global, id: u16, out: &mut Vec<u8>) -> Result<(), NoMemory>
    ensures ok { OnOk result (out.new.items ≡ out.old.items ++ frame (unsubscribe_message id)) }
    ensures err { OnErr result (out.new.items ≡ out.old.items) }
{
    let message = one_tlv(alloc, 0, UNSUBSCRIBE, &id.to_be_bytes())?;
    append(&message, out)
}

/// The octets of a record that may be out of date (RFC 8765, 6.5.1).
fn reconfirm_octets(alloc: Global, rr: &Rr) -> Result<Vec<u8>, NoMemory>
    ensures { IfOk result (λ octets. octets.items ≡ reconfirm_data rr.now) }
{
    let mut octets = Vec::new(alloc);
    octets.extend_from_slice(rr.owner.octets())?;
    octets.extend_from_slice(&rr.kind.to_be_bytes())?;
    octets.extend_from_slice(&rr.class.to_be_bytes())?;
    octets.extend_from_slice(rr.rdata.as_slice())?;
    Ok(octets)
}

/// Appends a RECONFIRM behind its length, where a frame holds it, and says whether it does (RFC 8765, 6.5.1).
pub(crate) fn append_reconfirm(alloc: Global, rr: &Rr, out: &mut Vec<u8>) -> Result<bool, NoMemory>
    ensures taken { IfOk result (λ taken. taken ≡ nat_le (length (reconfirm_message rr.now)) max_message) }
    ensures ok { IfOk result (λ taken. out.new.items ≡ cond taken (out.old.items ++ frame (reconfirm_message rr.now)) out.old.items) }
    ensures err { OnErr result (out.new.items ≡ out.old.items) }
{
    let octets = reconfirm_octets(alloc, rr)?;
    let message = one_tlv(alloc, 0, RECONFIRM, &octets)?;
    match write_dso(&message, out) {
        Ok(()) => Ok(true),
        Err(WriteDsoFault::NoMemory) => Err(NoMemory),
        Err(WriteDsoFault::Long) => Ok(false),
    }
}

/// The data of a Keepalive with the default timers (RFC 8490, 6.2 and 7.1).
fn keepalive_data() -> [u8; 8]
    ensures { result ≡ to_be_bytes w32 default_timers.inactivity ++ to_be_bytes w32 default_timers.keepalive }
{
    let [a, b, c, d] = DEFAULT_TIMER.to_be_bytes();
    [a, b, c, d, a, b, c, d]
}

/// Appends a Keepalive behind its length (RFC 8490, 7.1).
pub(crate) fn append_keepalive(alloc: Global, id: u16, out: &mut Vec<u8>) -> Result<(), NoMemory>
    ensures ok { OnOk result (out.new.items ≡ out.old.items ++ frame (keepalive_message id)) }
    ensures err { OnErr result (out.new.items ≡ out.old.items) }
{
    let message = one_tlv(alloc, id, KEEPALIVE, &keepalive_data())?;
    append(&message, out)
}

/// Appends the answer that the kind of a request is not known, behind its length (RFC 8490, 5.4.5).
pub(crate) fn append_typeless(alloc: Global, id: u16, out: &mut Vec<u8>) -> Result<(), NoMemory>
    ensures ok { OnOk result (out.new.items ≡ out.old.items ++ frame (answer_to id 11)) }
    ensures err { OnErr result (out.new.items ≡ out.old.items) }
{
    let message = DsoMessage {
        id,
        response: true,
        rcode: DSOTYPENI,
        tlvs: Tlvs::new(alloc),
    };
    append(&message, out)
}
