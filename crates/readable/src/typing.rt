//! Names as people type them.

ghost use Rattle.std.specs.Prelude.{◌≡◌, ◌++◌, [], string_bytes, IfOk, OnOk};
ghost use Rattle.dnsname.specs.Text.{decimal, is_visible, name_of_text};
ghost use Rattle.readable.specs.Typed.{quotes, strict, strict_from, strict_octet, strict_piece, typed_name};

use dnsname::{Name, TextFault};
use push_base::NoMemory;
use std::alloc::Global;

// Appends the three digits of an octet.
fn push_digits(text: &mut String, octet: u8) -> Result<(), NoMemory>
    ensures { OnOk result (string_bytes text.new ≡ string_bytes text.old ++ decimal octet) }
{
    text.push(char::from(b'0' + octet / 100))?;
    text.push(char::from(b'0' + octet / 10 % 10))?;
    text.push(char::from(b'0' + octet % 10))
}

// Appends an octet that was typed: as it is where it is visible, else by its three digits.
fn push_octet(text: &mut String, octet: u8) -> Result<(), NoMemory>
    ensures { OnOk result (string_bytes text.new ≡ string_bytes text.old ++ strict_octet octet) }
{
    if is_visible(octet) {
        return text.push(char::from(octet));
    }
    text.push('\\')?;
    push_digits(text, octet)
}

// Whether an octet is from `!` to `~`.
fn is_visible(octet: u8) -> bool
    ensures { result ≡ is_visible octet }
{
    b'!' <= octet && octet <= b'~'
}

// Whether an octet quotes what follows.
fn quotes(quoted: bool, octet: u8) -> bool
    ensures { result ≡ quotes quoted octet }
{
    !quoted && octet == b'\\'
}

// Appends an octet, and the backslash that stands before it where that is so.
fn push_piece(text: &mut String, quoted: bool, octet: u8) -> Result<(), NoMemory>
    ensures { OnOk result (string_bytes text.new ≡ string_bytes text.old ++ strict_piece quoted octet) }
{
    if quotes(quoted, octet) {
        return Ok(());
    }
    if quoted && is_visible(octet) {
        text.push('\\')?;
        return text.push(char::from(octet));
    }
    push_octet(text, octet)
}

// Appends a backslash that quotes nothing.
fn push_last(text: &mut String, quoted: bool) -> Result<(), NoMemory>
    ensures { OnOk result (string_bytes text.new ≡ string_bytes text.old ++ strict_from quoted []) }
{
    if quoted {
        return text.push('\\');
    }
    Ok(())
}

// What was typed, with each octet that isn't visible by its three digits.
fn strict(alloc: Global, typed: &[u8]) -> Result<String, NoMemory>
    ensures { IfOk result (λ text. string_bytes text ≡ strict typed.now) }
{
    let mut text = String::new(alloc);
    let mut quoted = false;
    'octets: for octet in typed {
        push_piece(&mut text, quoted, *octet)?;
        quoted = quotes(quoted, *octet);
    }
    push_last(&mut text, quoted)?;
    Ok(text)
}

// The name that a text is, if it is one.
fn name_of(alloc: Global, text: &str) -> Result<Option<Name>, NoMemory>
    ensures { IfOk result (λ name. name ≡ name_of_text text.now) }
{
    match Name::from_text(alloc, text) {
        Ok(name) => Ok(Some(name)),
        Err(TextFault::Form) => Ok(None),
        Err(TextFault::NoMemory) => Err(NoMemory),
    }
}

/// The name that was typed, if it is one: spaces and UTF-8 as they are, also behind a backslash, `\.` for a dot within a
/// label, and the last dot may be left out.
pub fn typed_name(alloc: Global, typed: &str) -> Result<Option<Name>, NoMemory>
    ensures { IfOk result (λ name. name ≡ typed_name typed.now) }
{
    let mut text = strict(alloc, typed.as_bytes())?;
    match name_of(alloc, text.as_str())? {
        Some(name) => Ok(Some(name)),
        None => {
            text.push('.')?;
            Ok(name_of(alloc, text.as_str())?)
        }
    }
}
