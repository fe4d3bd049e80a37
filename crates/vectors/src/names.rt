//! Names in messages, names without pointers and texts of names (RFC 1035, 2.3.4, 3.1, 4.1.4 and 5.1).

ghost use Rattle.std.specs.Prelude.{◌≡◌, ◌<◌};

use crate::shown::{holds, is_text};
use crate::spaced_octets;
use dnsname::{Name, NameFault, NoMemory};
use push_base::{Steps, hex_text};
use std::alloc::Global;
use std::marker::Brand;
use std::sync::ledger::{Blank, Ledger};
use std::test::Fail;

/// The names of RFC 1035, 4.1.4: F.ISI.ARPA at 20, FOO.F.ISI.ARPA at 40, ARPA at 64, and the root at 92.
const MESSAGE: &str = "0000000000000000000000000000000000000000 \
     0146 03495349 0441525041 00 0000000000000000 03464f4f c014 000000000000000000000000000000000000 c01a \
     0000000000000000000000000000000000000000000000000000 00";

/// A name of 255 octets at 1, and one of 256 at 0. The pointers at 256, 258 and 260 lead to the first, to
/// the second and to the pointer at 256.
pub(crate) const LONGEST: &str = "02 0161 \
     3f626262626262626262626262626262626262626262626262626262626262626262626262626262626262626262626262626262626262626262626262626262 \
     3f636363636363636363636363636363636363636363636363636363636363636363636363636363636363636363636363636363636363636363636363636363 \
     3f646464646464646464646464646464646464646464646464646464646464646464646464646464646464646464646464646464646464646464646464646464 \
     3b6565656565656565656565656565656565656565656565656565656565656565656565656565656565656565656565656565656565656565656565 \
     00 c001 c000 c100";

const LONGEST_NAME: &str = "a.\
     bbbbbbbbbbbbbbbbbbbbbbbbbbbbbbbbbbbbbbbbbbbbbbbbbbbbbbbbbbbbbbb.\
     ccccccccccccccccccccccccccccccccccccccccccccccccccccccccccccccc.\
     ddddddddddddddddddddddddddddddddddddddddddddddddddddddddddddddd.\
     eeeeeeeeeeeeeeeeeeeeeeeeeeeeeeeeeeeeeeeeeeeeeeeeeeeeeeeeeee.";

/// What a case shows, the message, the place, and what `read` and `read_plain` give: the name's text and
/// the place after it, or the fault and its place.
type Case = (
    &'static str,
    &'static str,
    usize,
    (&'static str, usize),
    (&'static str, usize),
);

const CASES: &[Case] = &[
    (
        "a name as it stands",
        MESSAGE,
        20,
        ("F.ISI.ARPA.", 32),
        ("F.ISI.ARPA.", 32),
    ),
    (
        "a label and a pointer",
        MESSAGE,
        40,
        ("FOO.F.ISI.ARPA.", 46),
        ("Pointer", 44),
    ),
    (
        "a pointer alone",
        MESSAGE,
        64,
        ("ARPA.", 66),
        ("Pointer", 64),
    ),
    ("the root", MESSAGE, 92, (".", 93), (".", 93)),
    ("no octet", MESSAGE, 93, ("Short", 93), ("Short", 93)),
    (
        "a place behind the end",
        MESSAGE,
        200,
        ("Short", 93),
        ("Short", 93),
    ),
    (
        "a name without its end",
        "0161",
        0,
        ("Short", 2),
        ("Short", 2),
    ),
    (
        "a label that is cut off",
        "036162",
        0,
        ("Short", 3),
        ("Short", 3),
    ),
    (
        "a pointer without its second octet",
        "00 c0",
        1,
        ("Short", 2),
        ("Pointer", 1),
    ),
    (
        "a length with the top bits 01",
        "40",
        0,
        ("LongLabel", 0),
        ("LongLabel", 0),
    ),
    (
        "the greatest length with the top bits 01, behind a label",
        "0161 7f",
        0,
        ("LongLabel", 2),
        ("LongLabel", 2),
    ),
    (
        "a length with the top bits 10",
        "80",
        0,
        ("LongLabel", 0),
        ("LongLabel", 0),
    ),
    (
        "the greatest length with the top bits 10, behind a label",
        "0161 bf",
        0,
        ("LongLabel", 2),
        ("LongLabel", 2),
    ),
    (
        "a length of 64 with octets behind it",
        "0161 406262626262626262626262626262626262626262626262626262626262626262626262626262626262626262626262626262626262626262626262626262626200",
        0,
        ("LongLabel", 2),
        ("LongLabel", 2),
    ),
    (
        "a pointer to itself",
        "000000000000000000000000 c00c",
        12,
        ("Pointer", 12),
        ("Pointer", 12),
    ),
    (
        "a pointer to where its piece of the name began",
        "0161 c000",
        0,
        ("Pointer", 2),
        ("Pointer", 2),
    ),
    (
        "a pointer to a later label of its piece",
        "0161 0162 c002",
        0,
        ("Pointer", 4),
        ("Pointer", 4),
    ),
    (
        "a pointer forward",
        "c002 00",
        0,
        ("Pointer", 0),
        ("Pointer", 0),
    ),
    (
        "a pointer to the octet before its piece",
        "00 0161 c000",
        1,
        ("a.", 5),
        ("Pointer", 3),
    ),
    (
        "two pointers to each other",
        "c002 c000",
        2,
        ("Pointer", 0),
        ("Pointer", 2),
    ),
    (
        "a pointer that leads back into a later piece",
        "0161 c004 0162 c000",
        4,
        ("Pointer", 2),
        ("Pointer", 6),
    ),
    (
        "pointers to pointers",
        "00 c000 c001 c003",
        5,
        (".", 7),
        ("Pointer", 5),
    ),
    (
        "a pointer to a label that reaches over the pointer",
        "0361 c000 00",
        2,
        ("a\\192\\000.", 4),
        ("Pointer", 2),
    ),
    (
        "a pointer to a length with the top bits 01",
        "40 c000",
        1,
        ("LongLabel", 0),
        ("Pointer", 1),
    ),
    (
        "a pointer to a label that is cut off",
        "05 c000",
        1,
        ("Short", 3),
        ("Pointer", 1),
    ),
    (
        "a name of 255 octets",
        LONGEST,
        1,
        (LONGEST_NAME, 256),
        (LONGEST_NAME, 256),
    ),
    (
        "a name of 256 octets",
        LONGEST,
        0,
        ("TooLong", 195),
        ("TooLong", 195),
    ),
    (
        "a pointer to a name of 255 octets",
        LONGEST,
        256,
        (LONGEST_NAME, 258),
        ("Pointer", 256),
    ),
    (
        "a pointer to a name of 256 octets",
        LONGEST,
        258,
        ("TooLong", 195),
        ("Pointer", 258),
    ),
    (
        "a pointer past the first 256 octets",
        LONGEST,
        260,
        (LONGEST_NAME, 262),
        ("Pointer", 260),
    ),
];

/// A fault's word and its place.
fn word_and_place(fault: NameFault) -> (&'static str, usize) {
    match fault {
        NameFault::Short(place) => ("Short", place),
        NameFault::LongLabel(place) => ("LongLabel", place),
        NameFault::Pointer(place) => ("Pointer", place),
        NameFault::TooLong(place) => ("TooLong", place),
        NameFault::NoMemory => ("NoMemory", 0),
    }
}

/// The name's text and the place after it, or the fault and its place.
fn outcome(
    alloc: Global,
    read: Result<(Name, usize), NameFault>,
) -> Result<(String, usize), NoMemory> {
    match read {
        Ok((name, after)) => Ok((name.text()?, after)),
        Err(fault) => {
            let (word, place) = word_and_place(fault);
            Ok((word.to_string(alloc)?, place))
        }
    }
}

/// Whether a reading gives a text and a place.
fn is_read_so(
    alloc: Global,
    shows: &str,
    read: Result<(Name, usize), NameFault>,
    gives: (&str, usize),
) -> Result<(), Fail> {
    let (text, place) = outcome(alloc, read)?;
    is_text(shows, text.as_str(), gives.0)?;
    holds(shows, place == gives.1)
}

/// The name with pointers at a place, and the place after it, with a counter of its own.
fn pointed_name<L: Ledger>(
    alloc: Global,
    blank: Blank,
    message: &[u8],
    at: usize,
) -> Result<(Name, usize), NameFault>
    requires name { blank.name ≡ L.name }
    requires parts { blank.parts ≡ L.parts }
    requires some { 0 < blank.parts }
{
    let mut steps = Steps::<L>::begin(blank);
    Name::read(alloc, message, at, &mut steps)
}

/// Whether both readings of a case give what they are to give.
fn are_read_so(alloc: Global, case: &Case) -> Result<(), Fail> {
    let octets = spaced_octets(alloc, case.1)?;
    let message = octets.as_slice();
    is_read_so(
        alloc,
        case.0,
        pointed_name::<Brand>(alloc, Blank::new(1), message, case.2),
        case.3,
    )?;
    is_read_so(
        alloc,
        case.0,
        Name::read_plain(alloc, message, case.2),
        case.4,
    )
}

#[test]
fn names_are_read(rt: HostRuntime) -> Result<(), Fail> {
    'cases: for case in CASES {
        are_read_so(rt.alloc(), case)?;
    }
    Ok(())
}

/// A name's text, its octets in hexadecimal, and the text that it has.
const TEXTS: &[(&str, &str, &str)] = &[
    (
        "a\\.b\\\\\\007\\065.Example.",
        "06612e625c0741074578616d706c6500",
        "a\\.b\\\\\\007A.Example.",
    ),
    (".", "00", "."),
];

/// Whether the name of a text has these octets, and is written so.
fn is_name(alloc: Global, case: &(&str, &str, &str)) -> Result<(), Fail> {
    let name = Name::from_text(alloc, case.0)?;
    is_text(case.0, hex_text(alloc, name.octets())?.as_str(), case.1)?;
    is_text(case.0, name.text()?.as_str(), case.2)
}

#[test]
fn texts_are_read_and_written(rt: HostRuntime) -> Result<(), Fail> {
    'texts: for case in TEXTS {
        is_name(rt.alloc(), case)?;
    }
    Ok(())
}

/// A name, a suffix of it and another one; the name in lower case, and with the other one in place of the suffix.
const SUFFIXES: &[[&str; 5]] = &[[
    "Printer.local.",
    "LOCAL.",
    "example.com.",
    "printer.local.",
    "Printer.example.com.",
]];

/// The text of a name's copy with another suffix, or none where it hasn't the old one or would be too long.
fn with_suffix(alloc: Global, name: &Name, old: &Name, new: &Name) -> Result<String, NoMemory> {
    if !name.ends_in(old) {
        return Ok(String::new(alloc));
    }
    if old.same(new) {
        return Ok(String::new(alloc));
    }
    match name.swap_suffix(old, new)? {
        Some(swapped) => swapped.copy()?.text(),
        None => Ok(String::new(alloc)),
    }
}

/// The same of texts.
fn swapped(alloc: Global, name: &str, old: &str, new: &str) -> Result<String, Fail> {
    let name = Name::from_text(alloc, name)?;
    let old = Name::from_text(alloc, old)?;
    let new = Name::from_text(alloc, new)?;
    Ok(with_suffix(alloc, &name, &old, &new)?)
}

/// The text of a text's name in lower case.
fn lowered(alloc: Global, text: &str) -> Result<String, Fail> {
    let name = Name::from_text(alloc, text)?;
    Ok(name.lower()?.text()?)
}

/// Whether a name is in lower case and with another suffix what it is to be.
fn is_swapped_so(alloc: Global, case: &[&str; 5]) -> Result<(), Fail> {
    is_text(case[0], lowered(alloc, case[0])?.as_str(), case[3])?;
    let text = swapped(alloc, case[0], case[1], case[2])?;
    is_text(case[0], text.as_str(), case[4])
}

#[test]
fn suffixes_are_swapped(rt: HostRuntime) -> Result<(), Fail> {
    'names: for case in SUFFIXES {
        is_swapped_so(rt.alloc(), case)?;
    }
    Ok(())
}
