//! Octets as a person reads them: what is UTF-8 and harmless stands as it is (RFC 3629, 4).

ghost use Rattle.std.specs.Prelude.{◌≡◌, ◌++◌, drop, OnOk};
ghost use Rattle.readable.specs.Shown.{character_size, escape, first_piece, first_size, four_point, is_four, is_hidden, is_one, is_tail, is_three, is_two, octet_at, plain_size, shown, three_point, two_point};

use push_base::{NoMemory, front_of};

/// What becomes of a dot.
#[derive(Clone, Copy, Debug, PartialEq, Eq)]
pub enum Dots {
    /// It stands behind a backslash, as within a label.
    Escaped,
    /// It stands as it is, as in a text.
    Plain,
}

// The octet at a place, 0 behind the end.
fn octet_at(place: usize, text: &[u8]) -> u8
    ensures { result ≡ octet_at place text.now }
{
    match text.get(place) {
        Some(octet) => *octet,
        None => 0,
    }
}

// Whether a character of one octet is harmless.
fn is_one(dots: Dots, a: u8) -> bool
    ensures { result ≡ is_one dots a }
{
    32 <= a && a <= 126 && a != b'\\' && (a != b'.' || dots == Dots::Plain)
}

// Whether an octet continues a character.
fn is_tail(octet: u8) -> bool
    ensures { result ≡ is_tail octet }
{
    128 <= octet && octet <= 191
}

// The characters that look like nothing, turn the direction of a text or separate lines: the first and the last of each range.
const HIDDEN: &[(u32, u32)] = &[
    (0xad, 0xad),
    (0x34f, 0x34f),
    (0x61c, 0x61c),
    (0x115f, 0x1160),
    (0x17b4, 0x17b5),
    (0x180e, 0x180e),
    (0x200b, 0x200f),
    (0x2028, 0x202e),
    (0x2060, 0x206f),
    (0x3164, 0x3164),
    (0xfeff, 0xfeff),
    (0xffa0, 0xffa0),
    (0xfff0, 0xfffb),
    (0x1bca0, 0x1bca3),
    (0x1d173, 0x1d17a),
    (0xe0000, 0xe00ff),
    (0xe01f0, 0xe0fff),
];

// Whether a character is hidden.
#[tactic(auto, unfolding(crate::specs::Shown::is_hidden))]
fn is_hidden(point: u32) -> bool
    ensures { result ≡ is_hidden point }
{
    HIDDEN
        .iter()
        .any(|range| range.0 <= point && point <= range.1)
}

// The code point of two octets.
fn two_point(a: u8, b: u8) -> u32
    ensures { result ≡ two_point a b }
{
    u32::from(a % 32) * 64 + u32::from(b % 64)
}

// The code point of three octets.
fn three_point(a: u8, b: u8, c: u8) -> u32
    ensures { result ≡ three_point a b c }
{
    u32::from(a % 16) * 4096 + u32::from(b % 64) * 64 + u32::from(c % 64)
}

// The code point of four octets.
fn four_point(a: u8, b: u8, c: u8, d: u8) -> u32
    ensures { result ≡ four_point a b c d }
{
    u32::from(a % 8) * 262_144
        + u32::from(b % 64) * 4096
        + u32::from(c % 64) * 64
        + u32::from(d % 64)
}

// Whether two octets are a harmless character: no control, and none that is hidden.
fn is_two(a: u8, b: u8) -> bool
    ensures { result ≡ is_two a b }
{
    194 <= a && a <= 223 && is_tail(b) && !(a == 194 && b < 160) && !is_hidden(two_point(a, b))
}

// Whether three octets are a harmless character.
fn is_three(a: u8, b: u8, c: u8) -> bool
    ensures { result ≡ is_three a b c }
{
    224 <= a
        && a <= 239
        && is_tail(b)
        && is_tail(c)
        && !(a == 224 && b < 160)
        && !(a == 237 && 160 <= b)
        && !is_hidden(three_point(a, b, c))
}

// Whether four octets are a harmless character.
fn is_four(a: u8, b: u8, c: u8, d: u8) -> bool
    ensures { result ≡ is_four a b c d }
{
    240 <= a
        && a <= 244
        && is_tail(b)
        && is_tail(c)
        && is_tail(d)
        && !(a == 240 && b < 144)
        && !(a == 244 && 144 <= b)
        && !is_hidden(four_point(a, b, c, d))
}

// How many octets the harmless character has that begins so, 0 where none does.
fn character_size(dots: Dots, a: u8, b: u8, c: u8, d: u8) -> usize
    ensures { result ≡ character_size dots a b c d }
{
    if is_one(dots, a) {
        return 1;
    }
    if is_two(a, b) {
        return 2;
    }
    if is_three(a, b, c) {
        return 3;
    }
    if is_four(a, b, c, d) {
        return 4;
    }
    0
}

// How many octets the harmless character has with which a text begins, 0 where it begins with none.
fn plain_size(dots: Dots, text: &[u8]) -> usize
    ensures { result ≡ plain_size dots text.now }
{
    character_size(
        dots,
        octet_at(0, text),
        octet_at(1, text),
        octet_at(2, text),
        octet_at(3, text),
    )
}

// Appends an octet behind a backslash: a dot or a backslash as it is, another by its three digits.
fn push_escape(out: &mut Vec<u8>, octet: u8) -> Result<(), NoMemory>
    ensures { OnOk result (out.new.items ≡ out.old.items ++ escape octet) }
{
    if octet == b'.' || octet == b'\\' {
        return out.extend_from_slice(&[b'\\', octet]);
    }
    out.extend_from_slice(&[
        b'\\',
        b'0' + octet / 100,
        b'0' + octet / 10 % 10,
        b'0' + octet % 10,
    ])
}

// How many octets are shown together: those of a harmless character, or one.
fn first_size(dots: Dots, text: &[u8]) -> usize
    ensures { result ≡ first_size dots text.now }
{
    plain_size(dots, text).max(1)
}

// Appends how the first character of a text is shown, nothing at its end.
fn push_first(out: &mut Vec<u8>, dots: Dots, text: &[u8]) -> Result<(), NoMemory>
    ensures { OnOk result (out.new.items ≡ out.old.items ++ first_piece dots text.now) }
{
    let Some(first) = text.first() else {
        return Ok(());
    };
    let size = plain_size(dots, text);
    if size == 0 {
        return push_escape(out, *first);
    }
    out.extend_from_slice(front_of(text, size))
}

// What stands behind the first octets of a text.
fn behind(text: &[u8], count: usize) -> &[u8]
    ensures { result.now ≡ drop count text.now }
{
    let (_, rest) = text.split_at(count.min(text.len()));
    rest
}

/// Appends octets as a person reads them: harmless characters of UTF-8 as they are, each other octet behind a backslash.
pub fn push_shown(out: &mut Vec<u8>, dots: Dots, text: &[u8]) -> Result<(), NoMemory>
    ensures { OnOk result (out.new.items ≡ out.old.items ++ shown dots text.now) }
{
    let mut rest = text;
    let mut left = text.len();
    'characters: while left > 0 {
        push_first(out, dots, rest)?;
        rest = behind(rest, first_size(dots, rest));
        left -= 1;
    }
    Ok(())
}
