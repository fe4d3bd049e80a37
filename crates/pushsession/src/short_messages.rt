//! The octets of short messages (RFC 1035, 4.1.1; RFC 8490, 5.4, 7.1 and 7.2).

ghost use Rattle.std.specs.Prelude.{◌≡◌, ◌+◌, ◌<◌, ◌≤◌, ◌^◌, ◌++◌, length};
ghost use Rattle.rrset.specs.Header.{answer_octets};
ghost use Rattle.dsotlv.specs.Answers.{answer_to, keepalive_octets, retry_delay_octets};
ghost use Rattle.dsotlv.specs.Messages.{frame};
ghost use Rattle.coalesce.specs.Sides.{frame_octets};

use coalesce::Frame;
use dsosession::session::Timers;
use dsotlv::data_sizes;
use dsotlv::flags::ANSWER;
use dsotlv::kinds::{KEEPALIVE, RETRY_DELAY};

/// A header with zero counts.
pub(crate) fn header(id: u16, flags: u16) -> [u8; 12]
    ensures { result ≡ answer_octets id flags }
{
    let [id_high, id_low] = id.to_be_bytes();
    let [flags_high, flags_low] = flags.to_be_bytes();
    [
        id_high, id_low, flags_high, flags_low, 0, 0, 0, 0, 0, 0, 0, 0,
    ]
}

/// An answer without TLVs (RFC 8490, 5.4).
pub(crate) fn answer(id: u16, rcode: u8) -> [u8; 12]
    ensures { result ≡ answer_to id rcode }
{
    header(id, ANSWER + u16::from(rcode))
}

/// The TLV of a Retry Delay in milliseconds.
pub(crate) fn retry_delay(delay: u32) -> [u8; 8]
    ensures { result ≡ retry_delay_octets delay }
{
    let size = data_sizes::RETRY_DELAY as u8;
    let [a, b, c, d] = delay.to_be_bytes();
    [0, RETRY_DELAY as u8, 0, size, a, b, c, d]
}

/// The TLV of the inactivity timeout and the keepalive interval.
pub(crate) fn keepalive(timers: Timers) -> [u8; 12]
    ensures { result ≡ keepalive_octets timers.inactivity timers.keepalive }
{
    let size = data_sizes::KEEPALIVE as u8;
    let [a, b, c, d] = timers.inactivity.to_be_bytes();
    let [e, f, g, h] = timers.keepalive.to_be_bytes();
    [0, KEEPALIVE as u8, 0, size, a, b, c, d, e, f, g, h]
}

/// Appends a message behind its length (RFC 7766, 8): a header, and what stands behind it.
pub(crate) fn append_message(out: &mut Frame, header: &[u8], body: &[u8])
    requires size { length header.now + length body.now < 2 ^ 16 }
    requires room { length out.old + 2 + length header.now + length body.now ≤ frame_octets }
    ensures { out.new ≡ out.old ++ frame (header.now ++ body.now) }
{
    let size = (header.len() + body.len()) as u16;
    out.append(&size.to_be_bytes());
    out.append(header);
    out.append(body);
}
