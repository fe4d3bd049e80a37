//! Test vectors of the wire format: octets of names, rdata, updates, DSO messages and notices, each beside what they
//! say, or the place of their fault.
//!
//! Nothing stands on this crate, and it proves nothing: it tests the public readers and writers of `dnsname`, `rrset`,
//! `dnswire` and `dsotlv` against octets that stand in tables. Each file is a table and a test that walks it:
//! `names.rt`, `rdata.rt`, `updates.rt`, `session_messages.rt` and `notices.rt`; `shown.rt` prints values. A row is
//! hexadecimal text, and what should come of it as words. Add a row where a definition of `specs/` could be read in two
//! ways, with octets that another program wrote where there are some.
#![tactic(auto)]

#[cfg(test)]
mod names;
#[cfg(test)]
mod notices;
#[cfg(test)]
mod rdata;
#[cfg(test)]
mod session_messages;
#[cfg(test)]
mod shown;
#[cfg(test)]
mod updates;

ghost use Rattle.std.specs.Prelude.{◌≡◌, IfOk, not, ◌==◌, filter};

use push_base::{HexFault, NoMemory, Octets, hex_octets};
use std::alloc::Global;

/// The octets of a text that are no spaces.
fn without_spaces(alloc: Global, text: &[u8]) -> Result<Vec<u8>, NoMemory>
    ensures { IfOk result (λ digits. digits.items ≡ filter (λ c. not (c == 32)) text.now) }
{
    text.iter().copied().filter(|c| *c != b' ').collect(alloc)
}

/// The octets that a hexadecimal text stands for, two digits for each. Spaces are for the reader: the place of
/// a fault counts the other characters alone.
pub(crate) fn spaced_octets(alloc: Global, text: &str) -> Result<Octets, HexFault> {
    let Ok(digits) = without_spaces(alloc, text.as_bytes()) else {
        return Err(HexFault::NoMemory);
    };
    match str::from_utf8(&digits) {
        Ok(digits) => hex_octets(alloc, digits),
        // Never: a text is a text without its spaces, too.
        Err(_) => Err(HexFault::Digit(0)),
    }
}
