//! The question of a SUBSCRIBE (RFC 8765, 6.2.1).

ghost use Rattle.std.specs.Prelude.{◌≡◌, ◌+◌, ◌≤◌, length, IfOk, OnOk};
ghost use Rattle.std.specs.Int.{w16};
ghost use Rattle.push_base.specs.Cases.{fault_as};
ghost use Rattle.dnsname.specs.Reading.{plain_name_at, place_of};
ghost use Rattle.dsotlv.specs.declared.message.PushFault.TheVariants as faults;
ghost use Rattle.dsotlv.specs.Giving.{GivesPush};
ghost use Rattle.dsotlv.specs.Notices.{field_at, question_first, question_of};

use crate::NoMemory;
use crate::message::PushFault;
use crate::number::number_at;
use dnsname::{Name, NameFault};
use rrset::record::Question;
use std::alloc::Global;

/// The name without pointers at a place, and the place after it.
pub(crate) fn plain_name(
    alloc: Global,
    octets: &[u8],
    at: usize,
) -> Result<(Name, usize), PushFault>
    ensures exact { GivesPush result (fault_as (λ f. faults.Data (place_of f)) (plain_name_at octets.now at)) }
    ensures onward { IfOk result (λ read. at ≤ read.1) }
{
    match Name::read_plain(alloc, octets, at) {
        Ok(read) => Ok(read),
        Err(NameFault::Short(place)) => Err(PushFault::Data(place)),
        Err(NameFault::LongLabel(place)) => Err(PushFault::Data(place)),
        Err(NameFault::Pointer(place)) => Err(PushFault::Data(place)),
        Err(NameFault::TooLong(place)) => Err(PushFault::Data(place)),
        Err(NameFault::NoMemory) => Err(PushFault::NoMemory),
    }
}

/// The number of two octets at a place.
pub(crate) fn word_at(octets: &[u8], at: usize) -> Result<u16, PushFault>
    ensures exact { result ≡ field_at w16 octets.now at }
    ensures within { OnOk result (at + 2 ≤ length octets.now) }
{
    if octets.len() < 2 || octets.len() - 2 < at {
        return Err(PushFault::Data(octets.len()));
    }
    Ok(number_at(octets, at))
}

/// A plain name, a kind and a class, and the place after them.
pub(crate) fn question_first(alloc: Global, octets: &[u8]) -> Result<(Question, usize), PushFault>
    ensures exact { GivesPush result (question_first octets.now) }
    ensures within { IfOk result (λ found. found.1 ≤ length octets.now) }
{
    let (name, place) = plain_name(alloc, octets, 0)?;
    let kind = word_at(octets, place)?;
    let class = word_at(octets, place + 2)?;
    Ok((Question { name, kind, class }, place + 4))
}

/// The question that the data of a SUBSCRIBE is: a name without pointers, a kind and a class, to the last octet.
/// Nothing where the data is no question.
pub fn read_question(alloc: Global, octets: &[u8]) -> Result<Option<Question>, NoMemory>
    ensures exact { IfOk result (λ question. question ≡ question_of octets.now) }
{
    match question_first(alloc, octets) {
        Ok((question, after)) if after == octets.len() => Ok(Some(question)),
        Ok(_) | Err(PushFault::Data(_)) => Ok(None),
        Err(PushFault::NoMemory) => Err(NoMemory),
    }
}
