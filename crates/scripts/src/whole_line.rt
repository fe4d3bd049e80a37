//! The lines of a script that may have a second hub.

ghost use Rattle.std.specs.Prelude.{◌≡◌, [], IfOk, option_map};
ghost use Rattle.scripts.specs.Lines.{words_in, line_of};
ghost use Rattle.scripts.specs.WholeLines.{one, whole_line_of, whole_kind, whole_behind, far_line, far_client_line, carry_line};
ghost use Rattle.scripts.specs.KeptWhole.{whole_said, carry_said};

use crate::line::{Line, one_word, read_line, split_word, two_words};
use crate::line_words::{Written, name_of_word, number_of_word, plain_word, text_of_word};
use dnsname::name::Name;
use push_base::NoMemory;
use std::alloc::Global;

/// A client of the first hub that carries a name to the second: its word, the name, and the name as it is written.
#[derive(Debug, Drop)]
pub struct CarryLine {
    /// The client's word.
    pub word: String,
    /// The name.
    pub name: Name,
    /// The name as it is written.
    pub written: Written,
}

/// A line of a script that may have a second hub.
#[derive(Debug, Drop)]
pub enum WholeLine {
    /// It says what it says of a script of one hub: of the first hub, of both, or of a client of either.
    One(Line),
    /// The second hub's zone, which may be written: its name, and its SOA's serial (RFC 1035, 3.3.13).
    FarZone { apex: Name, serial: u32 },
    /// There is one client more, of the second hub.
    FarClient { word: String },
    /// What a client holds of a name is carried to the second hub.
    Carry(CarryLine),
}

// The kinds of lines that are about a second hub, and all others.
#[derive(Clone, Copy)]
enum WholeKind {
    FarZone,
    FarClient,
    Carry,
    One,
}

/// What a line says, if it is in the grammar.
pub fn read_whole_line(alloc: Global, line: &[u8]) -> Result<Option<WholeLine>, NoMemory>
    ensures exact { IfOk result (λ found. option_map (λ l. whole_said l) found ≡ whole_line_of line.now) }
{
    match split_word(line) {
        None => single_word(alloc, whole_kind(line), line),
        Some((word, rest)) => longer_line(alloc, whole_kind(word), line, rest),
    }
}

// What a line of this kind says that is one word.
fn single_word(alloc: Global, kind: WholeKind, line: &[u8]) -> Result<Option<WholeLine>, NoMemory>
    ensures exact { IfOk result (λ found. option_map (λ l. whole_said l) found ≡ whole_behind kind line.now []) }
{
    match kind {
        WholeKind::One => one_line(alloc, line),
        WholeKind::FarZone | WholeKind::FarClient | WholeKind::Carry => Ok(None),
    }
}

// What a line of this kind says with that text behind its first word.
fn longer_line(
    alloc: Global,
    kind: WholeKind,
    line: &[u8],
    rest: &[u8],
) -> Result<Option<WholeLine>, NoMemory>
    ensures exact { IfOk result (λ found. option_map (λ l. whole_said l) found ≡ whole_behind kind line.now (words_in rest.now)) }
{
    match kind {
        WholeKind::FarZone => far_line(alloc, rest),
        WholeKind::FarClient => far_client_line(alloc, rest),
        WholeKind::Carry => carry_line(alloc, rest),
        WholeKind::One => one_line(alloc, line),
    }
}

// The kind of a line by its first word.
fn whole_kind(word: &[u8]) -> WholeKind
    ensures { result ≡ whole_kind word.now }
{
    if word == b"far".as_slice() {
        WholeKind::FarZone
    } else if word == b"farclient".as_slice() {
        WholeKind::FarClient
    } else if word == b"carry".as_slice() {
        WholeKind::Carry
    } else {
        WholeKind::One
    }
}

// A line that is none about a second hub.
fn one_line(alloc: Global, line: &[u8]) -> Result<Option<WholeLine>, NoMemory>
    ensures exact { IfOk result (λ found. option_map (λ l. whole_said l) found ≡ option_map (λ l. one l) (line_of line.now)) }
{
    match read_line(alloc, line)? {
        None => Ok(None),
        Some(line) => Ok(Some(WholeLine::One(line))),
    }
}

// What follows the first word of a line with the second hub's zone: its name and its serial.
fn far_line(alloc: Global, text: &[u8]) -> Result<Option<WholeLine>, NoMemory>
    ensures exact { IfOk result (λ found. option_map (λ l. whole_said l) found ≡ far_line (words_in text.now)) }
{
    let Some((apex, serial)) = two_words(text) else {
        return Ok(None);
    };
    let Some(apex) = name_of_word(alloc, apex)? else {
        return Ok(None);
    };
    let Some(serial) = number_of_word(serial) else {
        return Ok(None);
    };
    Ok(Some(WholeLine::FarZone { apex, serial }))
}

// What follows the first word of a line of a client of the second hub: its word.
fn far_client_line(alloc: Global, text: &[u8]) -> Result<Option<WholeLine>, NoMemory>
    ensures exact { IfOk result (λ found. option_map (λ l. whole_said l) found ≡ far_client_line (words_in text.now)) }
{
    let Some(word) = one_word(text) else {
        return Ok(None);
    };
    let Some(word) = plain_word(alloc, word)? else {
        return Ok(None);
    };
    Ok(Some(WholeLine::FarClient { word }))
}

// What follows the first word of a line that carries: the client's word, and the name.
fn carry_line(alloc: Global, text: &[u8]) -> Result<Option<WholeLine>, NoMemory>
    ensures exact { IfOk result (λ found. option_map (λ l. whole_said l) found ≡ carry_line (words_in text.now)) }
{
    match carry_of(alloc, text)? {
        None => Ok(None),
        Some(line) => Ok(Some(WholeLine::Carry(line))),
    }
}

/// What stands behind the first word of a line that carries: the client's word, and the name.
pub(crate) fn carry_of(alloc: Global, text: &[u8]) -> Result<Option<CarryLine>, NoMemory>
    ensures exact { IfOk result (λ found. option_map (λ l. carry_said l) found ≡ carry_line (words_in text.now)) }
{
    let Some((word, written)) = two_words(text) else {
        return Ok(None);
    };
    let Some(word) = plain_word(alloc, word)? else {
        return Ok(None);
    };
    let Some(name) = name_of_word(alloc, written)? else {
        return Ok(None);
    };
    let Some(written) = text_of_word(alloc, written)? else {
        return Ok(None);
    };
    Ok(Some(CarryLine {
        word,
        name,
        written,
    }))
}
