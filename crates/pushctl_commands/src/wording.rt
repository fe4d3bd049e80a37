//! The lines of services.

use crate::request::Style;
use crate::rows::{Row, row_of};
use crate::writing::{push_addresses, push_quoted};
use dnsname::Name;
use push_base::{NoMemory, Octets};
use services::{Change, Rdatas, Server, Service};
use std::alloc::Global;

// So many octets of texts are shown to people, unless all are wanted.
const MOST_TEXT: usize = 60;

// So many columns a name takes at least, and a server.
const COLUMNS: usize = 22;

/// What lines are written with.
#[derive(Drop)]
pub(crate) struct Wording {
    /// The services' name in their domain.
    pub domain: Name,
    /// The domain.
    pub home: Name,
    /// How lines are written.
    pub style: Style,
}

// Fills up with spaces what has fewer columns: octets that continue a character take none.
fn fill(out: &mut Vec<u8>, text: &[u8]) -> Result<(), NoMemory> {
    out.extend_from_slice(text)?;
    let columns = text
        .iter()
        .filter(|octet| !(128 <= **octet && **octet <= 191))
        .count();
    let missing = COLUMNS.saturating_sub(columns);
    'spaces: for _ in 0..missing {
        out.push(b' ')?;
    }
    Ok(())
}

// Appends a text, filled up where something stands behind it.
fn push_column(out: &mut Vec<u8>, text: &[u8], is_followed: bool) -> Result<(), NoMemory> {
    if is_followed {
        return fill(out, text);
    }
    out.extend_from_slice(text)
}

// Appends strings, with what stands before each.
fn push_strings(out: &mut Vec<u8>, before: &[u8], strings: &[Octets]) -> Result<(), NoMemory> {
    'strings: for string in strings {
        out.extend_from_slice(before)?;
        out.extend_from_slice(string.as_slice())?;
    }
    Ok(())
}

// Whether the octet at a place continues a character.
fn continues(text: &[u8], place: usize) -> bool {
    match text.get(place) {
        Some(octet) => 128 <= *octet && *octet <= 191,
        None => false,
    }
}

// Where a character begins, at a place or the last one before it.
fn cut_place(text: &[u8], place: usize) -> usize {
    let mut count = place;
    'octets: while count > 0 && continues(text, count) {
        count -= 1;
    }
    count
}

// Cuts a text for people, between two characters.
fn cut_text(text: &mut Vec<u8>, is_wide: bool) -> Result<(), NoMemory> {
    if is_wide || text.len() <= MOST_TEXT {
        return Ok(());
    }
    let count = cut_place(text, MOST_TEXT);
    text.truncate(count);
    text.extend_from_slice("…".as_bytes())
}

// What of a service a line for people shows.
#[derive(Clone, Copy)]
struct Parts {
    sign: bool,
    server: bool,
    addresses: bool,
    texts: bool,
    // Whether it is said of a part that it isn't there.
    absent: bool,
}

// All parts.
fn all_parts(sign: bool) -> Parts {
    Parts {
        sign,
        server: true,
        addresses: true,
        texts: true,
        absent: false,
    }
}

// The name alone.
fn no_parts() -> Parts {
    Parts {
        sign: true,
        server: false,
        addresses: false,
        texts: false,
        absent: false,
    }
}

// Appends the host and the port.
fn push_server(
    alloc: Global,
    out: &mut Vec<u8>,
    row: &Row,
    is_followed: bool,
) -> Result<(), NoMemory> {
    let mut server = Vec::new(alloc);
    server.extend_from_slice(row.host.as_slice())?;
    server.push(b':')?;
    server.extend_from_slice(row.port.as_slice())?;
    out.push(b' ')?;
    push_column(out, &server, is_followed)
}

// Appends what the texts say, as much as is wanted.
fn push_texts(alloc: Global, out: &mut Vec<u8>, row: &Row, is_wide: bool) -> Result<(), NoMemory> {
    let mut texts = Vec::new(alloc);
    push_strings(&mut texts, b" ", &row.texts)?;
    cut_text(&mut texts, is_wide)?;
    out.push(b' ')?;
    out.extend_from_slice(&texts)
}

// Appends that something isn't there, where that is wanted.
fn push_absent(out: &mut Vec<u8>, parts: Parts, what: &[u8]) -> Result<(), NoMemory> {
    if !parts.absent {
        return Ok(());
    }
    out.extend_from_slice(what)
}

// Appends the parts of a service that people are shown.
fn push_parts(
    alloc: Global,
    out: &mut Vec<u8>,
    service: &Service,
    row: &Row,
    parts: Parts,
    is_wide: bool,
) -> Result<(), NoMemory> {
    if parts.server {
        match &service.server {
            Some(_) => push_server(alloc, out, row, parts.addresses || parts.texts)?,
            None => push_absent(out, parts, b" no server")?,
        }
    }
    if parts.addresses {
        let addresses = service.addresses.as_slice();
        out.push(b' ')?;
        push_addresses(alloc, out, addresses, b", ", b"")?;
        if addresses.is_empty() {
            push_absent(out, parts, b"no address")?;
        }
    }
    if parts.texts {
        push_texts(alloc, out, row, is_wide)?;
        if row.texts.is_empty() {
            push_absent(out, parts, b"no text")?;
        }
    }
    Ok(())
}

// Appends the fields of a service, between tabs.
fn push_fields(
    alloc: Global,
    out: &mut Vec<u8>,
    service: &Service,
    row: &Row,
) -> Result<(), NoMemory> {
    out.extend_from_slice(row.instance.as_slice())?;
    out.push(b'\t')?;
    out.extend_from_slice(row.host.as_slice())?;
    out.push(b'\t')?;
    out.extend_from_slice(row.port.as_slice())?;
    out.push(b'\t')?;
    push_addresses(alloc, out, service.addresses.as_slice(), b",", b"")?;
    push_strings(out, b"\t", &row.texts)
}

// Appends strings of JSON, with commas between them.
fn push_all_quoted(out: &mut Vec<u8>, strings: &[Octets]) -> Result<(), NoMemory> {
    let mut before: &[u8] = b"";
    'strings: for string in strings {
        out.extend_from_slice(before)?;
        push_quoted(out, string.as_slice())?;
        before = b",";
    }
    Ok(())
}

// Appends the members of an object of JSON, behind the sign.
fn push_members(
    alloc: Global,
    out: &mut Vec<u8>,
    service: &Service,
    row: &Row,
) -> Result<(), NoMemory> {
    out.extend_from_slice(b",\"instance\":")?;
    push_quoted(out, row.instance.as_slice())?;
    if service.server.is_some() {
        out.extend_from_slice(b",\"host\":")?;
        push_quoted(out, row.host.as_slice())?;
        out.extend_from_slice(b",\"port\":")?;
        out.extend_from_slice(row.port.as_slice())?;
    }
    out.extend_from_slice(b",\"addresses\":[")?;
    push_addresses(alloc, out, service.addresses.as_slice(), b",", b"\"")?;
    out.extend_from_slice(b"],\"texts\":[")?;
    push_all_quoted(out, &row.texts)?;
    out.push(b']')?;
    Ok(())
}

// The line of a service, behind a sign.
fn line(
    alloc: Global,
    wording: &Wording,
    sign: u8,
    service: &Service,
    parts: Parts,
) -> Result<Octets, NoMemory> {
    let row = row_of(alloc, service, &wording.domain, &wording.home)?;
    let mut out = Vec::new(alloc);
    match wording.style {
        Style::People(is_wide) => {
            if parts.sign {
                out.push(sign)?;
                out.push(b' ')?;
            }
            push_column(
                &mut out,
                row.instance.as_slice(),
                parts.server || parts.addresses || parts.texts,
            )?;
            push_parts(alloc, &mut out, service, &row, parts, is_wide)?;
        }
        Style::Fields => {
            out.push(sign)?;
            out.push(b'\t')?;
            push_fields(alloc, &mut out, service, &row)?;
        }
        Style::Json => {
            out.extend_from_slice(b"{\"sign\":\"")?;
            out.push(sign)?;
            out.push(b'"')?;
            push_members(alloc, &mut out, service, &row)?;
            out.push(b'}')?;
        }
    }
    out.push(b'\n')?;
    Ok(Octets::from_vec(out))
}

// Whether two lists of rdata differ.
fn differ(first: &Rdatas, second: &Rdatas) -> bool {
    let (first, second) = (first.as_slice(), second.as_slice());
    if first.len() != second.len() {
        return true;
    }
    'rdatas: for index in 0..first.len() {
        if first[index].as_slice() != second[index].as_slice() {
            return true;
        }
    }
    false
}

// Whether two servers differ, in whatever it is.
fn is_other_server(before: &Server, now: &Server) -> bool {
    before.port != now.port
        || before.priority != now.priority
        || before.weight != now.weight
        || before.host.octets() != now.host.octets()
}

// What of a service is otherwise than before: nothing of these where its name has other letters alone.
fn other_parts(before: &Service, now: &Service) -> Parts {
    let server = match (&before.server, &now.server) {
        (Some(one), Some(other)) => is_other_server(one, other),
        (None, None) => false,
        (Some(_), None) | (None, Some(_)) => true,
    };
    Parts {
        sign: true,
        server,
        addresses: differ(&before.addresses, &now.addresses),
        texts: differ(&before.texts, &now.texts),
        absent: true,
    }
}

/// The line of a change.
pub(crate) fn change_line(
    alloc: Global,
    wording: &Wording,
    change: &Change,
) -> Result<Octets, NoMemory> {
    match change {
        Change::Went(service) => line(alloc, wording, b'-', service, no_parts()),
        Change::Came(service) => line(alloc, wording, b'+', service, all_parts(true)),
        Change::Differs(before, now) => {
            let parts = other_parts(before, now);
            line(alloc, wording, b'~', now, parts)
        }
    }
}

/// The line of a service in a table: as where it came, without a sign for people.
pub(crate) fn table_line(
    alloc: Global,
    wording: &Wording,
    service: &Service,
) -> Result<Octets, NoMemory> {
    line(alloc, wording, b'+', service, all_parts(false))
}
