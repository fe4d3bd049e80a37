//! Words that several programs print.

ghost use Rattle.std.specs.Prelude.{◌≡◌, IfOk, string_bytes};
ghost use Rattle.scripts.specs.Words.{close_words, octets_text};

use dsosession::session::CloseReason;
use push_base::{NoMemory, hex_text};
use std::alloc::Global;

/// Octets in hexadecimal, and `-` for none.
pub fn octets_text(alloc: Global, octets: &[u8]) -> Result<String, NoMemory>
    ensures { IfOk result (λ text. string_bytes text ≡ octets_text octets.now) }
{
    if octets.is_empty() {
        format!(in alloc; "-")
    } else {
        hex_text(alloc, octets)
    }
}

/// The words of the reason of a close.
pub fn close_words(alloc: Global, reason: CloseReason) -> Result<String, NoMemory>
    ensures { IfOk result (λ text. string_bytes text ≡ close_words reason) }
{
    match reason {
        CloseReason::Short => format!(in alloc; "short"),
        CloseReason::Opcode => format!(in alloc; "opcode"),
        CloseReason::Counts => format!(in alloc; "counts"),
        CloseReason::Tlvs => format!(in alloc; "tlvs"),
        CloseReason::Early => format!(in alloc; "early"),
        CloseReason::Idle => format!(in alloc; "idle"),
        CloseReason::Stranger(id) => format!(in alloc; "stranger {id}"),
        CloseReason::Misuse(kind) => format!(in alloc; "misuse {kind}"),
        CloseReason::BadData(kind) => format!(in alloc; "data {kind}"),
        CloseReason::Unknown(kind) => format!(in alloc; "type {kind}"),
        CloseReason::Interval(interval) => format!(in alloc; "interval {interval}"),
        CloseReason::Kept(rcode) => format!(in alloc; "kept {rcode}"),
        CloseReason::Delay(delay, rcode) => format!(in alloc; "delay {delay} {rcode}"),
    }
}
