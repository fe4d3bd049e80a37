//! What is said beside the list.

use crate::request::Style;
use crate::writing::push_quoted;
use dnsname::Name;
use push_base::{NoMemory, Octets};
use readable::push_name;
use std::alloc::Global;

// The line of a note.
fn note(alloc: Global, style: Style, sign: u8, text: &[u8]) -> Result<Octets, NoMemory> {
    let mut out = Vec::new(alloc);
    match style {
        Style::People(_) => {
            out.push(sign)?;
            out.push(b' ')?;
            out.extend_from_slice(text)?;
        }
        Style::Fields => {
            out.push(sign)?;
            out.push(b'\t')?;
            out.extend_from_slice(text)?;
        }
        Style::Json => {
            out.extend_from_slice(b"{\"sign\":\"")?;
            out.push(sign)?;
            out.extend_from_slice(b"\",\"note\":")?;
            push_quoted(&mut out, text)?;
            out.push(b'}')?;
        }
    }
    out.push(b'\n')?;
    Ok(Octets::from_vec(out))
}

// How long it is until the next attempt.
fn again(alloc: Global, delay: u64) -> Result<String, NoMemory> {
    if delay == 0 {
        return String::from_str(alloc, "again at once");
    }
    let seconds = delay / 1_000;
    if delay % 1_000 == 0 {
        return format!(in alloc; "again in {seconds} s");
    }
    format!(in alloc; "again in {delay} ms")
}

/// What happened to a connection, and when the next one is tried.
pub(crate) fn trouble_line(
    alloc: Global,
    style: Style,
    what: &str,
    delay: u64,
) -> Result<Octets, NoMemory> {
    let again = again(alloc, delay)?;
    let again = again.as_str();
    let text = format!(in alloc; "{what}; {again}")?;
    note(alloc, style, b'!', text.as_bytes())
}

/// That something went wrong.
pub(crate) fn fault_line(alloc: Global, style: Style, what: &str) -> Result<Octets, NoMemory> {
    note(alloc, style, b'!', what.as_bytes())
}

/// That a list is whole, for the first time or again.
pub(crate) fn whole_line(
    alloc: Global,
    style: Style,
    count: usize,
    changed: Option<usize>,
) -> Result<Octets, NoMemory> {
    let text = match changed {
        None => format!(in alloc; "connected; {count} there"),
        Some(0) => format!(in alloc; "connected; {count} there, none changed meanwhile"),
        Some(changed) => format!(in alloc; "connected; {count} there, {changed} changed meanwhile"),
    }?;
    note(alloc, style, b'=', text.as_bytes())
}

// The name of an RCODE (RFC 1035, 4.1.1; RFC 2136, 2.2; RFC 8490, 10.2).
fn rcode_word(rcode: u8) -> Option<&'static str> {
    match rcode {
        1 => Some("FORMERR"),
        2 => Some("SERVFAIL"),
        3 => Some("NXDOMAIN"),
        4 => Some("NOTIMP"),
        5 => Some("REFUSED"),
        9 => Some("NOTAUTH"),
        11 => Some("DSOTYPENI"),
        _ => None,
    }
}

/// That the server refuses the question for a name.
pub(crate) fn refused_line(
    alloc: Global,
    style: Style,
    rcode: u8,
    name: &Name,
) -> Result<Octets, NoMemory> {
    let mut text = Vec::new(alloc);
    match rcode_word(rcode) {
        Some(word) => text.extend_from_slice(word.as_bytes())?,
        None => {
            let number = format!(in alloc; "RCODE {rcode}")?;
            text.extend_from_slice(number.as_bytes())?;
        }
    }
    text.extend_from_slice(b": ")?;
    push_name(&mut text, name)?;
    if rcode == 9 {
        text.extend_from_slice(" isn't served there".as_bytes())?;
    } else {
        text.extend_from_slice(" is refused".as_bytes())?;
    }
    note(alloc, style, b'!', &text)
}
