//! Pieces of lines.

use dnsname::Name;
use push_base::{Failed, NoMemory, Octets, Sink, write_all};
use readable::{Dots, address_text, push_name, push_shown};
use std::alloc::Global;

/// Why a command stopped before its end.
#[derive(Clone, Copy)]
pub(crate) enum Fault {
    /// Memory ran out.
    NoMemory,
    /// The output can't be written.
    Output,
}

impl From<NoMemory> for Fault {
    ghost use Rattle.std.specs.Prelude.{◌≡◌};
    ghost use Rattle.pushctl_commands.specs.declared.writing.Fault.TheVariants as faults;

    ghost from_gives = { λ _ e. e ≡ faults.NoMemory };

    fn from(_: NoMemory) -> Self {
        Fault::NoMemory
    }
}

/// Writes a line, or as much of it as goes.
pub(crate) fn put<K: Sink>(out: &mut K, line: &[u8]) -> Result<(), Fault> {
    match write_all(out, line) {
        Ok(()) => Ok(()),
        Err(Failed) => Err(Fault::Output),
    }
}

// How many octets of a text stand before a suffix and the dot before that; all where nothing does.
fn count_before(text: usize, suffix: usize) -> usize {
    match text.checked_sub(suffix) {
        Some(count) if count > 1 => count - 1,
        Some(_) | None => text,
    }
}

/// The text of a name without the suffix that it has, or of all of it where it is the suffix or has another one.
pub(crate) fn short_text(alloc: Global, name: &Name, suffix: &Name) -> Result<Octets, NoMemory> {
    let mut text = Vec::new(alloc);
    push_name(&mut text, name)?;
    if name.ends_in(suffix) {
        let mut tail = Vec::new(alloc);
        push_name(&mut tail, suffix)?;
        let count = count_before(text.len(), tail.len());
        text.truncate(count);
    }
    if text.is_empty() {
        text.push(b'.')?;
    }
    Ok(Octets::from_vec(text))
}

/// Appends addresses, with what stands between two.
pub(crate) fn push_addresses(
    alloc: Global,
    out: &mut Vec<u8>,
    addresses: &[Octets],
    between: &[u8],
    quote: &[u8],
) -> Result<(), NoMemory> {
    let mut front: &[u8] = b"";
    'addresses: for address in addresses {
        out.extend_from_slice(front)?;
        out.extend_from_slice(quote)?;
        let text = address_text(alloc, address.as_slice())?;
        out.extend_from_slice(text.as_bytes())?;
        out.extend_from_slice(quote)?;
        front = between;
    }
    Ok(())
}

// The string with which rdata begins, and what is behind it (RFC 1035, 3.3).
fn first_string(rdata: &[u8]) -> Option<(&[u8], &[u8])> {
    let (size, behind) = rdata.split_first()?;
    Some(behind.split_at(usize::from(*size).min(behind.len())))
}

/// The strings of rdata, as a person reads them.
pub(crate) fn strings_of(alloc: Global, rdata: &[u8]) -> Result<Vec<Octets>, NoMemory> {
    let mut strings = Vec::new(alloc);
    let mut rest = rdata;
    let mut left = rdata.len();
    'strings: while left > 0 {
        let Some((string, behind)) = first_string(rest) else {
            return Ok(strings);
        };
        if !string.is_empty() {
            let mut shown = Vec::new(alloc);
            push_shown(&mut shown, Dots::Plain, string)?;
            strings.push(Octets::from_vec(shown))?;
        }
        rest = behind;
        left -= 1;
    }
    Ok(strings)
}

/// Appends a string of JSON: what stands in it has no controls.
pub(crate) fn push_quoted(out: &mut Vec<u8>, text: &[u8]) -> Result<(), NoMemory> {
    out.push(b'"')?;
    'octets: for octet in text {
        if *octet == b'"' || *octet == b'\\' {
            out.push(b'\\')?;
        }
        out.push(*octet)?;
    }
    out.push(b'"')?;
    Ok(())
}
