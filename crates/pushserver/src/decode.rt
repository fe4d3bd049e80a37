//! The update that a message is (RFC 2136, 2), and the hearing that a datagram is (RFC 6762, 18).

ghost use Rattle.std.specs.Prelude.{◌≡◌, ◌+◌, ◌≤◌, ℕ, not, length, IfOk, IfSome, ok_or};
ghost use Rattle.push_base.specs.Cases.{fault_as};
ghost use Rattle.dnsname.specs.Reading.{place_of};
ghost use Rattle.dnswire.specs.Reading.{hearing_of};
ghost use Rattle.rrset.specs.Rcodes.{formerr};
ghost use Rattle.rrset.specs.Header.{two_octets};
ghost use Rattle.history.specs.States.{entry_size, lacks_update_header, max_journal_octets, update_in};
ghost use Rattle.history.specs.declared.entry.Entry.TheVariants as entries;
ghost use Rattle.pushserver.specs.Hubs.{why_not, wire_place};

use crate::given::Why;
use dnsname::NameFault;
use dnswire::{HearFault, Update, WireFault, read_hearing, read_update};
use pushsession::NoMemory;
use rrset::Hearing;
use rrset::header::{HEADER, MAX_MESSAGE, UPDATE_OPCODE, is_response, opcode_of};
use std::alloc::Global;

/// The number of the two octets at a place.
fn number_at(octets: &[u8], at: usize) -> u16
    requires { at + 2 ≤ length octets.now }
    ensures { result ≡ two_octets octets.now at }
{
    u16::from_be_bytes([octets[at], octets[at + 1]])
}

/// Whether a message has the length of one, and the header of an update (RFC 2136, 2.2).
fn has_update_header(message: &[u8]) -> bool
    ensures { result ≡ not (lacks_update_header message.now) }
{
    if message.len() < HEADER || message.len() > MAX_MESSAGE {
        return false;
    }
    let flags = number_at(message, 2);
    !is_response(flags) && opcode_of(flags) == UPDATE_OPCODE
}

/// The update that a message is, if it is one.
fn find_update(alloc: Global, message: &[u8]) -> Result<Option<Update>, NoMemory>
    ensures { IfOk result (λ found. update_in message.now ≡ ok_or found formerr) }
{
    if !has_update_header(message) {
        return Ok(None);
    }
    match read_update(alloc, message) {
        Ok(update) => Ok(Some(update)),
        Err(WireFault::NoMemory) => Err(NoMemory),
        Err(WireFault::Short(_)) => Ok(None),
        Err(WireFault::Trailing(_)) => Ok(None),
        Err(WireFault::Name(_)) => Ok(None),
        Err(WireFault::Rdata(_)) => Ok(None),
    }
}

/// The update that a message is, if it is one. It fits an empty journal.
pub(crate) fn read_message(alloc: Global, message: &[u8]) -> Result<Option<Update>, NoMemory>
    ensures found { IfOk result (λ found. update_in message.now ≡ ok_or found formerr) }
    ensures fits { IfOk result (λ found. IfSome found (λ update. entry_size (entries.Update update) ≤ max_journal_octets)) }
{
    let found = find_update(alloc, message)?;
    Ok(found)
}

/// The place of a fault in a name; 0 for want of memory.
fn name_place(fault: NameFault) -> usize
    ensures { result ≡ place_of fault }
{
    match fault {
        NameFault::Short(place)
        | NameFault::LongLabel(place)
        | NameFault::Pointer(place)
        | NameFault::TooLong(place) => place,
        NameFault::NoMemory => 0,
    }
}

/// The place of a fault in a message; 0 for want of memory.
fn wire_place(fault: WireFault) -> usize
    ensures { result ≡ wire_place fault }
{
    match fault {
        WireFault::Short(place) | WireFault::Trailing(place) | WireFault::Rdata(place) => place,
        WireFault::Name(fault) => name_place(fault),
        WireFault::NoMemory => 0,
    }
}

/// Why a datagram with this fault is ignored.
fn why_not(fault: HearFault) -> Why
    ensures { result ≡ why_not fault }
{
    match fault {
        HearFault::Long => Why::Long,
        HearFault::Short => Why::Short,
        HearFault::Query => Why::Query,
        HearFault::Coded => Why::Coded,
        HearFault::Wire(fault) => Why::Unreadable(wire_place(fault) as u64),
        HearFault::NoMemory => Why::Nothing,
    }
}

/// What a datagram of a link says, or why it is ignored (RFC 6762, 18).
fn find_hearing(alloc: Global, datagram: &[u8]) -> Result<Result<Hearing, Why>, NoMemory>
    ensures { IfOk result (λ read. fault_as why_not (hearing_of datagram.now) ≡ read) }
{
    match read_hearing(alloc, datagram) {
        Ok(hearing) => Ok(Ok(hearing)),
        Err(HearFault::NoMemory) => Err(NoMemory),
        Err(fault) => Ok(Err(why_not(fault))),
    }
}

/// What a datagram of a link says, or why it is ignored (RFC 6762, 18). It fits an empty journal.
pub fn read_datagram(alloc: Global, datagram: &[u8]) -> Result<Result<Hearing, Why>, NoMemory>
    ensures read { IfOk result (λ read. fault_as why_not (hearing_of datagram.now) ≡ read) }
    ensures fits { IfOk result (λ read. IfOk read (λ hearing. (link : ℕ) → entry_size (entries.Heard link hearing) ≤ max_journal_octets)) }
{
    let read = find_hearing(alloc, datagram)?;
    Ok(read)
}
