//! The words of a script's lines.

ghost use Rattle.std.specs.Prelude.{◌≡◌, ◌≤◌, None, IfOk, IfNone, IfSome, option_map, string_bytes};
ghost use Rattle.dnsname.specs.Text.{name_of_text};
ghost use Rattle.std.specs.List.{list_all};
ghost use Rattle.push_base.specs.Limits.{max_moment, max_number};
ghost use Rattle.scripts.specs.Lines.{number, number_from, cap_written, max_octets_passed, max_rcode, max_u16, max_u32, word, octets_written, is_digit, has_form, writable_of, is_word_octet};

use dnsname::name::{Name, Octets, TextFault};
use dsotlv::MAX_FRAME;
use dsotlv::ttls::LAST_TTL;
use push_base::limits::MAX_MOMENT;
use push_base::{NoMemory, octets_in_hex};
use std::alloc::Global;
use std::marker::Model;

/// The most digits that a word of hexadecimal digits has: two for each octet of a frame.
pub const MOST_DIGITS: usize = 2 * MAX_FRAME;

/// The most letters and digits that a word has.
pub const LONGEST_WORD: usize = 32;

/// The greatest number that two octets hold.
pub const MAX_U16: u64 = 65_535;

/// The greatest number that four octets hold.
pub const MAX_U32: u64 = 4_294_967_295;

/// The greatest RCODE of a message without EDNS (RFC 1035, 4.1.1).
pub const MAX_RCODE: u64 = 15;

/// A wire between a client and its session holds at most so many octets.
pub const MAX_WIRE: usize = 1_048_576;

/// The name that a word is the text of.
pub(crate) fn name_of_word(alloc: Global, text: &[u8]) -> Result<Option<Name>, NoMemory>
    ensures { IfOk result (λ name. name ≡ name_of_text text.now) }
{
    let Ok(text) = str::from_utf8(text) else {
        return Ok(None);
    };
    match Name::from_text(alloc, text) {
        Ok(name) => Ok(Some(name)),
        Err(TextFault::Form) => Ok(None),
        Err(TextFault::NoMemory) => Err(NoMemory),
    }
}

/// A word as it is written.
#[derive(Debug, Drop)]
pub struct Written {
    text: String,
}

impl Model for Written {
    ghost use Rattle.std.specs.Prelude.{ℕ, List, string_bytes};

    ghost Value = { List ℕ };

    ghost view = { λ w. string_bytes w.text };
}

impl Written {
    /// Its text.
    pub fn as_str(&self) -> &str
        ensures { result.now ≡ self.now }
    {
        self.text.as_str()
    }
}

/// A word as it is written, where it is UTF-8, as each name's is.
pub(crate) fn text_of_word(alloc: Global, text: &[u8]) -> Result<Option<Written>, NoMemory>
    ensures text { IfOk result (λ found. IfSome found (λ copy. copy ≡ text.now)) }
    ensures none { IfOk result (λ found. IfNone found (name_of_text text.now ≡ None)) }
{
    let Ok(text) = str::from_utf8(text) else {
        return Ok(None);
    };
    let text = String::from_str(alloc, text)?;
    Ok(Some(Written { text }))
}

/// The octets that a word stands for: two hexadecimal digits for each, or `-` for none.
pub(crate) fn octets_of_word(alloc: Global, text: &[u8]) -> Result<Option<Octets>, NoMemory>
    ensures { IfOk result (λ octets. octets ≡ octets_written text.now) }
{
    match text {
        b"-" => Ok(Some(Octets::new(alloc))),
        [] => Ok(None),
        _ if text.len() > MOST_DIGITS => Ok(None),
        _ => octets_in_hex(alloc, text),
    }
}

/// The decimal number below 2^32 that a word is, without leading zeros.
pub fn number_of_word(text: &[u8]) -> Option<u32>
    ensures { result ≡ number max_u32 text.now }
{
    let number = number_up_to(MAX_U32, text)?;
    Some(number as u32)
}

/// The decimal number below 2^16 that a word is, without leading zeros.
pub(crate) fn short_number_of_word(text: &[u8]) -> Option<u16>
    ensures { result ≡ number max_u16 text.now }
{
    let number = number_up_to(MAX_U16, text)?;
    Some(number as u16)
}

/// The cap of a link that a word is: from 1 to the greatest TTL (RFC 2181, 8).
pub(crate) fn cap_of_word(text: &[u8]) -> Option<u32>
    ensures { result ≡ cap_written text.now }
{
    let number = number_from(1, LAST_TTL as u64, text)?;
    Some(number as u32)
}

/// The RCODE that a word is, from 0 to 15 (RFC 1035, 4.1.1).
pub(crate) fn rcode_of_word(text: &[u8]) -> Option<u8>
    ensures { result ≡ number max_rcode text.now }
{
    let number = number_up_to(MAX_RCODE, text)?;
    Some(number as u8)
}

/// A moment that a script may say, in milliseconds: no later than the last.
#[derive(Debug, Drop)]
pub struct Moment {
    millis: u64,
}

impl Model for Moment {
    ghost use Rattle.std.specs.Prelude.{ℕ, ◌≤◌};
    ghost use Rattle.push_base.specs.Limits.{max_moment};

    ghost Value = { ℕ };

    ghost view = { λ m. m.millis };

    ghost invariant = { λ m. m.millis ≤ max_moment };
}

impl Moment {
    /// The milliseconds.
    pub fn millis(&self) -> u64
        ensures value { result ≡ self.now }
        ensures few { result ≤ max_moment }
    {
        self.millis
    }

    /// The same moment.
    pub(crate) fn copied(&self) -> Moment
        ensures { result ≡ self.now }
    {
        Moment {
            millis: self.millis,
        }
    }
}

/// The number of octets that a word is, at most as many as a wire holds.
pub(crate) fn count_of_word(text: &[u8]) -> Option<usize>
    ensures { result ≡ number max_octets_passed text.now }
{
    let number = number_up_to(MAX_WIRE as u64, text)?;
    Some(number as usize)
}

/// The moment that a word is, in milliseconds.
pub(crate) fn moment_of_word(text: &[u8]) -> Option<Moment>
    ensures { result ≡ number max_moment text.now }
{
    let millis = number_up_to(MAX_MOMENT, text)?;
    Some(Moment { millis })
}

/// The decimal number that a word is, without leading zeros, if it is no more than the greatest.
pub fn number_up_to(greatest: u64, text: &[u8]) -> Option<u64>
    ensures exact { result ≡ number greatest text.now }
    ensures small { IfSome result (λ number. number ≤ greatest) }
{
    let number = whole_number(text)?;
    if number > greatest {
        return None;
    }
    Some(number)
}

/// The decimal number that a word is, without leading zeros, from one to another.
pub fn number_from(least: u64, greatest: u64, text: &[u8]) -> Option<u64>
    ensures exact { result ≡ number_from least greatest text.now }
    ensures small { IfSome result (λ number. number ≤ greatest) }
{
    let number = number_up_to(greatest, text)?;
    if number < least {
        return None;
    }
    Some(number)
}

// The decimal number below 2^64 that a word is, without leading zeros.
fn whole_number(text: &[u8]) -> Option<u64>
    ensures { result ≡ number max_number text.now }
{
    if !is_number(text) {
        return None;
    }
    let Ok(text) = str::from_utf8(text) else {
        return None;
    };
    text.parse::<u64>().ok()
}

// Whether a word has the form of a number.
fn is_number(text: &[u8]) -> bool
    ensures { result ≡ has_form text.now }
{
    match text {
        [] => false,
        [b'0', _, ..] => false,
        _ => are_digits(text),
    }
}

fn are_digits(text: &[u8]) -> bool
    ensures { result ≡ list_all is_digit text.now }
{
    text.iter().all(|octet| b'0' <= *octet && *octet <= b'9')
}

/// A word of 1 to 32 lower-case letters and digits.
pub fn plain_word(alloc: Global, text: &[u8]) -> Result<Option<String>, NoMemory>
    ensures { IfOk result (λ found. option_map (λ w. string_bytes w) found ≡ word text.now) }
{
    if text.is_empty() || text.len() > LONGEST_WORD {
        return Ok(None);
    }
    if !are_letters_and_digits(text) {
        return Ok(None);
    }
    let Ok(text) = str::from_utf8(text) else {
        return Ok(None);
    };
    Ok(Some(String::from_str(alloc, text)?))
}

fn are_letters_and_digits(text: &[u8]) -> bool
    ensures { result ≡ list_all is_word_octet text.now }
{
    text.iter()
        .all(|octet| matches!(*octet, b'0'..=b'9' | b'a'..=b'z'))
}

/// Whether a zone may be written: `open` or `shut`.
pub(crate) fn writable_of_word(text: &[u8]) -> Option<bool>
    ensures { result ≡ writable_of text.now }
{
    match text {
        b"open" => Some(true),
        b"shut" => Some(false),
        _ => None,
    }
}
