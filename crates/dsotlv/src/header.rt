//! What a reaction needs to know of a DSO message (RFC 8490, 5.4).

ghost use Rattle.std.specs.Prelude.{◌≡◌, ◌≤◌, length, is_ok, None, Ok, Err};
ghost use Rattle.rrset.specs.Header.{header_octets};
ghost use Rattle.dsotlv.specs.Messages.{has_zero_counts, tlvs_of, primary_of, primary_data, head_of, tlv_end};

use crate::message::DsoHead;
use crate::number::number_at;
use rrset::header::HEADER;

/// Octets of a TLV's kind and length (RFC 8490, 5.4.4).
pub(crate) const TLV_HEAD: usize = 4;

/// The place after the TLV at a place, where it is whole.
pub(crate) fn tlv_end(message: &[u8], at: usize) -> Option<usize>
    requires { at ≤ length message.now }
    ensures { result ≡ tlv_end message.now at }
{
    let (_, rest) = message.split_at(at);
    if rest.len() < TLV_HEAD {
        return None;
    }
    let size = usize::from(number_at(message, at + 2));
    if rest.len() - TLV_HEAD < size {
        return None;
    }
    Some(at + TLV_HEAD + size)
}

/// Whether the four counts of a header are 0.
pub(crate) fn has_zero_counts(message: &[u8]) -> bool
    requires { header_octets ≤ length message.now }
    ensures { result ≡ has_zero_counts message.now }
{
    message[4..HEADER].iter().all(|octet| *octet == 0)
}

/// Whether whole TLVs follow the header, to the last octet.
fn tlvs_are_whole(message: &[u8]) -> bool
    requires { header_octets ≤ length message.now }
    ensures { result ≡ is_ok (tlvs_of message.now) }
{
    let mut place = HEADER;
    'tlvs: while place < message.len() {
        match tlv_end(message, place) {
            Some(end) => place = end,
            None => return false,
        }
    }
    true
}

/// Kind and length of the first TLV.
fn primary(message: &[u8], tlvs_good: bool) -> Option<(u16, u16)>
    requires long { header_octets ≤ length message.now }
    requires good { tlvs_good ≡ is_ok (tlvs_of message.now) }
    ensures { result ≡ elim (tlvs_of message.now) [ Err fault ↦ None | Ok tlvs ↦ primary_of tlvs ] }
{
    if !tlvs_good || message.len() == HEADER {
        return None;
    }
    Some((number_at(message, HEADER), number_at(message, HEADER + 2)))
}

/// The data of the first TLV (RFC 8490, 5.4.2), or nothing where no TLV or a broken one follows the header.
pub fn primary_data(message: &[u8]) -> &[u8]
    requires { header_octets ≤ length message.now }
    ensures { result.now ≡ primary_data message.now }
{
    if !tlvs_are_whole(message) {
        return &[];
    }
    match tlv_end(message, HEADER) {
        Some(end) => &message[HEADER + TLV_HEAD..end],
        None => &[],
    }
}

/// The head of a DSO message: the ID and flags of its header, whether its counts are 0 and its TLVs whole, and
/// the kind and length of the first of these. Nothing where it is shorter than a header.
pub fn head(message: &[u8]) -> Option<DsoHead>
    ensures { result ≡ head_of message.now }
{
    if message.len() < HEADER {
        return None;
    }
    let tlvs_good = tlvs_are_whole(message);
    Some(DsoHead {
        id: number_at(message, 0),
        flags: number_at(message, 2),
        zero_counts: has_zero_counts(message),
        tlvs_good,
        primary: primary(message, tlvs_good),
    })
}
