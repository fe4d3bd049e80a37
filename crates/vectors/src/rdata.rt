//! Rdata of messages and plain rdata by the shape of its kind (RFC 1035, 3.3 and 3.4; RFC 2782; RFC 3596).

use crate::names::LONGEST;
use crate::shown::{holds, is_text};
use crate::spaced_octets;
use push_base::{NoMemory, hex_text};
use rrset::kinds::{A, AAAA, CNAME, MX, NS, PTR, SOA, SRV, TXT};
use rrset::{RdataFault, read_rdata, shape_fits};
use std::alloc::Global;
use std::test::Fail;

/// What a case shows, the kind, the message, the rdata's place and size, what `read_rdata` gives: the rdata,
/// or the fault and its place, and whether the octets as they stand fit the kind's shape.
type Case = (
    &'static str,
    u16,
    &'static str,
    usize,
    usize,
    &'static str,
    bool,
);

const CASES: &[Case] = &[
    ("an address", A, "c0000201", 0, 4, "c0000201", true),
    (
        "three octets of an address",
        A,
        "c0000201",
        0,
        3,
        "Shape(3)",
        false,
    ),
    (
        "five octets of an address",
        A,
        "c000020105",
        0,
        5,
        "Shape(4)",
        false,
    ),
    (
        "no octet of an address",
        A,
        "c0000201",
        2,
        0,
        "Shape(2)",
        false,
    ),
    (
        "five octets of an address, with others before and behind",
        A,
        "00 c000020105 00",
        1,
        5,
        "Shape(5)",
        false,
    ),
    (
        "an IPv6 address",
        AAAA,
        "20010db8000000000000000000000005",
        0,
        16,
        "20010db8000000000000000000000005",
        true,
    ),
    (
        "15 octets of an IPv6 address",
        AAAA,
        "20010db8000000000000000000000005",
        0,
        15,
        "Shape(15)",
        false,
    ),
    (
        "17 octets of an IPv6 address",
        AAAA,
        "20010db800000000000000000000000500",
        0,
        17,
        "Shape(16)",
        false,
    ),
    ("a server's name", NS, "026e7300", 0, 4, "026e7300", true),
    (
        "an octet behind a name",
        NS,
        "026e730000",
        0,
        5,
        "Shape(4)",
        false,
    ),
    (
        "no octet of a name",
        NS,
        "026e7300",
        4,
        0,
        "Shape(4)",
        false,
    ),
    (
        "a name with a pointer",
        NS,
        "0361626300 026e73 c000",
        5,
        5,
        "026e730361626300",
        false,
    ),
    ("the root as a name", CNAME, "00", 0, 1, "00", true),
    (
        "a name that is pointed to",
        PTR,
        "056c6f63616c00",
        0,
        7,
        "056c6f63616c00",
        true,
    ),
    (
        "a length with the top bits 01",
        CNAME,
        "0161 40",
        0,
        3,
        "Shape(2)",
        false,
    ),
    ("a pointer to itself", PTR, "c000", 0, 2, "Shape(0)", false),
    ("a pointer forward", PTR, "c002 00", 0, 2, "Shape(0)", false),
    (
        "a pointer that the end of the rdata cuts",
        PTR,
        "00 c000",
        1,
        1,
        "Shape(2)",
        false,
    ),
    (
        "a label that the end of the rdata cuts",
        PTR,
        "0361626300",
        0,
        3,
        "Shape(3)",
        false,
    ),
    (
        "a name whose end stands behind the rdata",
        PTR,
        "0361626300",
        0,
        4,
        "Shape(4)",
        false,
    ),
    (
        "a name of 256 octets",
        PTR,
        LONGEST,
        258,
        2,
        "Shape(195)",
        false,
    ),
    (
        "a pointer to a name that reaches beyond the rdata",
        PTR,
        "0561 c000 616200",
        2,
        2,
        "0561c000616200",
        false,
    ),
    (
        "a mail exchange",
        MX,
        "000a 014100",
        0,
        5,
        "000a014100",
        true,
    ),
    (
        "a mail exchange with a pointer",
        MX,
        "0361626300 000a c000",
        5,
        4,
        "000a0361626300",
        false,
    ),
    ("half a preference", MX, "00", 0, 1, "Shape(1)", false),
    ("a preference alone", MX, "000a", 0, 2, "Shape(2)", false),
    (
        "an octet behind a mail exchange",
        MX,
        "000a 00 00",
        0,
        4,
        "Shape(3)",
        false,
    ),
    ("two texts", TXT, "0161 026162", 0, 5, "0161026162", true),
    ("no text", TXT, "", 0, 0, "", true),
    ("an empty text", TXT, "00", 0, 1, "00", true),
    (
        "a text that is cut off",
        TXT,
        "0161 0261",
        0,
        4,
        "Shape(4)",
        false,
    ),
    (
        "a service",
        SRV,
        "0000 0000 0277 086c6f6262792d7072 00",
        0,
        16,
        "000000000277086c6f6262792d707200",
        true,
    ),
    (
        "a service with a pointer",
        SRV,
        "056c6f63616c00 0000 0000 0277 086c6f6262792d7072 c000",
        7,
        17,
        "000000000277086c6f6262792d7072056c6f63616c00",
        false,
    ),
    (
        "five octets of a service",
        SRV,
        "0000000002",
        0,
        5,
        "Shape(5)",
        false,
    ),
    (
        "a service without its name",
        SRV,
        "000000000277",
        0,
        6,
        "Shape(6)",
        false,
    ),
    (
        "the start of a zone",
        SOA,
        "00 00 00000001 00000e10 00000258 00015180 0000003c",
        0,
        22,
        "00000000000100000e1000000258000151800000003c",
        true,
    ),
    (
        "the start of a zone with pointers",
        SOA,
        "0378797a00 026e73c000 0161c000 00000001 00000e10 00000258 00015180 0000003c",
        5,
        29,
        "026e730378797a0001610378797a000000000100000e1000000258000151800000003c",
        false,
    ),
    (
        "a start of a zone without its last octet",
        SOA,
        "00 00 00000001 00000e10 00000258 00015180 0000003c",
        0,
        21,
        "Shape(21)",
        false,
    ),
    (
        "an octet behind the start of a zone",
        SOA,
        "00 00 00000001 00000e10 00000258 00015180 0000003c 00",
        0,
        23,
        "Shape(22)",
        false,
    ),
    (
        "a fault in the second name",
        SOA,
        "00 80 00000001 00000e10 00000258 00015180 0000003c",
        0,
        22,
        "Shape(1)",
        false,
    ),
    (
        "a kind without a shape",
        47,
        "00 c041000440000008",
        1,
        8,
        "c041000440000008",
        true,
    ),
    (
        "no octet of a kind without a shape",
        65_280,
        "00",
        1,
        0,
        "",
        true,
    ),
];

/// The rdata in hexadecimal, or its fault, and whether the octets as they stand fit the shape. Nothing where
/// the message is shorter.
fn outcome(
    alloc: Global,
    kind: u16,
    message: &[u8],
    at: usize,
    size: usize,
) -> Result<Option<(String, bool)>, NoMemory> {
    if at > message.len() {
        return Ok(None);
    }
    if size > message.len() - at {
        return Ok(None);
    }
    let fits = shape_fits(kind, &message[at..at + size]);
    let text = match read_rdata(alloc, kind, message, at, size) {
        Ok(rdata) => hex_text(alloc, rdata.as_slice())?,
        Err(RdataFault::Shape(place)) => format!(in alloc; "Shape({place})")?,
        Err(RdataFault::NoMemory) => return Err(NoMemory),
    };
    Ok(Some((text, fits)))
}

/// Whether rdata is read as it is to be read.
fn is_read_so(alloc: Global, case: &Case) -> Result<(), Fail> {
    let octets = spaced_octets(alloc, case.2)?;
    let (text, fits) = outcome(alloc, case.1, octets.as_slice(), case.3, case.4)?.ok_or(case.0)?;
    is_text(case.0, text.as_str(), case.5)?;
    holds(case.0, fits == case.6)
}

#[test]
fn rdata_is_read_by_its_shape(rt: HostRuntime) -> Result<(), Fail> {
    'cases: for case in CASES {
        is_read_so(rt.alloc(), case)?;
    }
    Ok(())
}
