//! Messages of DNS Stateful Operations and the questions of SUBSCRIBE (RFC 8490, 5.4; RFC 8765, 6.2).

use crate::shown::{holds, is_text, question_text};
use crate::spaced_octets;
use dsotlv::{
    DsoFault, DsoMessage, Tlv, Tlvs, WriteDsoFault, head, read_dso, read_question, write_dso,
};
use push_base::{HexFault, NoMemory, Octets, hex_text};
use std::alloc::Global;
use std::test::Fail;

/// What a case shows, the message, its head, and what it says or its fault.
const MESSAGES: &[(&str, &str, &str, &str)] = &[
    (
        "a SUBSCRIBE",
        "0001 3000 0000 0000 0000 0000 0040 0011 076578616d706c6503636f6d00 0006 0001",
        "1 3000 counts true, TLVs true, 64 of 17",
        "request 1 0: 64 [076578616d706c6503636f6d0000060001];",
    ),
    (
        "an answer without a TLV",
        "0001 b000 0000 0000 0000 0000",
        "1 b000 counts true, TLVs true, none",
        "answer 1 0:",
    ),
    (
        "an answer with a Retry Delay",
        "0003 b009 0000 0000 0000 0000 0002 0004 000493e0",
        "3 b009 counts true, TLVs true, 2 of 4",
        "answer 3 9: 2 [000493e0];",
    ),
    (
        "a Keepalive",
        "0001 3000 0000 0000 0000 0000 0001 0008 00003a98 00003a98",
        "1 3000 counts true, TLVs true, 1 of 8",
        "request 1 0: 1 [00003a9800003a98];",
    ),
    (
        "an answer with a Keepalive",
        "0001 b000 0000 0000 0000 0000 0001 0008 00000000 00003a98",
        "1 b000 counts true, TLVs true, 1 of 8",
        "answer 1 0: 1 [0000000000003a98];",
    ),
    (
        "a PUSH",
        "0000 3000 0000 0000 0000 0000 0041 0053 076578616d706c6503636f6d00 0006 0001 00000e10 \
         003c 026e73076578616d706c6503636f6d00 0a686f73746d6173746572076578616d706c6503636f6d00 \
         00000001 00000e10 00000258 00015180 0000003c",
        "0 3000 counts true, TLVs true, 65 of 83",
        "request 0 0: 65 \
         [076578616d706c6503636f6d000006000100000e10003c026e73076578616d706c6503636f6d000a686f73746d6173746572076578616d706c6503636f6d000000000100000e1000000258000151800000003c];",
    ),
    (
        "additional TLVs",
        "0005 3000 0000 0000 0000 0000 0040 0011 076578616d706c6503636f6d00 0006 0001 fff0 0001 aa \
         0003 0002 0000",
        "5 3000 counts true, TLVs true, 64 of 17",
        "request 5 0: 64 [076578616d706c6503636f6d0000060001]; 65520 [aa]; 3 [0000];",
    ),
    (
        "a TLV of an unknown kind without data",
        "0007 3000 0000 0000 0000 0000 1234 0000",
        "7 3000 counts true, TLVs true, 4660 of 0",
        "request 7 0: 4660 [];",
    ),
    (
        "bits that are ignored",
        "0001 37f5 0000 0000 0000 0000",
        "1 37f5 counts true, TLVs true, none",
        "request 1 5:",
    ),
    ("no octet", "", "none", "Short"),
    ("11 octets", "0001 3000 0000 0000 0000 00", "none", "Short"),
    (
        "OPCODE 5",
        "0001 2800 0000 0000 0000 0000",
        "1 2800 counts true, TLVs true, none",
        "Opcode",
    ),
    (
        "OPCODE 14",
        "0001 7000 0000 0000 0000 0000",
        "1 7000 counts true, TLVs true, none",
        "Opcode",
    ),
    (
        "OPCODE 14 in an answer with a count",
        "0001 f000 0001 0000 0000 0000",
        "1 f000 counts false, TLVs true, none",
        "Opcode",
    ),
    (
        "a first count",
        "0004 3000 0001 0000 0000 0000 0040 0011 076578616d706c6503636f6d00 0006 0001",
        "4 3000 counts false, TLVs true, 64 of 17",
        "Counts",
    ),
    (
        "a second count",
        "0004 3000 0000 0100 0000 0000",
        "4 3000 counts false, TLVs true, none",
        "Counts",
    ),
    (
        "a third count",
        "0004 3000 0000 0000 0001 0000",
        "4 3000 counts false, TLVs true, none",
        "Counts",
    ),
    (
        "a last count, and then a TLV that is cut off",
        "0004 3000 0000 0000 0000 0001 00",
        "4 3000 counts false, TLVs false, none",
        "Counts",
    ),
    (
        "one octet of a TLV",
        "0001 3000 0000 0000 0000 0000 00",
        "1 3000 counts true, TLVs false, none",
        "Tlv(12)",
    ),
    (
        "a TLV without its length",
        "0001 3000 0000 0000 0000 0000 0040 00",
        "1 3000 counts true, TLVs false, none",
        "Tlv(12)",
    ),
    (
        "a TLV without its last octet",
        "0001 b000 0000 0000 0000 0000 0001 0008 00000000 003a98",
        "1 b000 counts true, TLVs false, none",
        "Tlv(12)",
    ),
    (
        "a second TLV that is cut off",
        "0001 3000 0000 0000 0000 0000 0040 0011 076578616d706c6503636f6d00 0006 0001 0003 0001",
        "1 3000 counts true, TLVs false, none",
        "Tlv(33)",
    ),
];

/// What a case shows, the data of a SUBSCRIBE, and its name, kind and class.
const QUESTIONS: &[(&str, &str, &str)] = &[
    (
        "a question",
        "076578616d706c6503636f6d00 0006 0001",
        "example.com. 6 1",
    ),
    (
        "upper case stays",
        "074558414d504c4503636f6d00 0006 0001",
        "EXAMPLE.com. 6 1",
    ),
    (
        "every kind and class of the root",
        "00 00ff 00ff",
        ". 255 255",
    ),
    (
        "the greatest class",
        "056f7468657200 0001 ffff",
        "other. 1 65535",
    ),
    ("no octet", "", "none"),
    ("a pointer", "c00c 0001 0001", "none"),
    ("two names", "00 00 0001 0001", "none"),
    ("a pointer behind a label", "0161 c000 0001 0001", "none"),
    (
        "an octet too few",
        "076578616d706c6503636f6d00 0006 00",
        "none",
    ),
    (
        "an octet too many",
        "076578616d706c6503636f6d00 0006 0001 00",
        "none",
    ),
    ("a length with the top bits 01", "40 0006 0001", "none"),
];

/// What a case shows, ID, whether it is an answer, RCODE, TLVs, and the message behind its length.
type Written = (
    &'static str,
    u16,
    bool,
    u8,
    &'static [(u16, &'static str)],
    &'static str,
);

const WRITTEN: &[Written] = &[
    (
        "an answer without a TLV",
        1,
        true,
        0,
        &[],
        "000c 0001 b000 0000 0000 0000 0000",
    ),
    (
        "an answer with a Retry Delay",
        3,
        true,
        9,
        &[(0x2, "000493e0")],
        "0014 0003 b009 0000 0000 0000 0000 0002 0004 000493e0",
    ),
    (
        "a Keepalive",
        1,
        false,
        0,
        &[(0x1, "0000000000003a98")],
        "0018 0001 3000 0000 0000 0000 0000 0001 0008 00000000 00003a98",
    ),
    (
        "an answer with a Keepalive",
        1,
        true,
        0,
        &[(0x1, "0000000000003a98")],
        "0018 0001 b000 0000 0000 0000 0000 0001 0008 00000000 00003a98",
    ),
    (
        "a PUSH that adds the start of a zone",
        0,
        false,
        0,
        &[(
            0x41,
            "076578616d706c6503636f6d00 0006 0001 00000e10 003c 026e73076578616d706c6503636f6d00 \
         0a686f73746d6173746572076578616d706c6503636f6d00 00000001 00000e10 00000258 00015180 \
         0000003c",
        )],
        "0063 0000 3000 0000 0000 0000 0000 0041 0053 076578616d706c6503636f6d00 0006 0001 \
         00000e10 003c 026e73076578616d706c6503636f6d00 \
         0a686f73746d6173746572076578616d706c6503636f6d00 00000001 00000e10 00000258 00015180 \
         0000003c",
    ),
    (
        "additional TLVs",
        5,
        false,
        0,
        &[
            (0x40, "076578616d706c6503636f6d00 0006 0001"),
            (0xfff0, "aa"),
            (0x3, "0000"),
        ],
        "002c 0005 3000 0000 0000 0000 0000 0040 0011 076578616d706c6503636f6d00 0006 0001 fff0 \
         0001 aa 0003 0002 0000",
    ),
];

/// Octets of a TLV's data, and what comes of a message with it.
const SIZES: &[(usize, Result<usize, WriteDsoFault>)] = &[
    (65_519, Ok(65_537)),
    (65_520, Err(WriteDsoFault::Long)),
];

/// ID, flags, counts, TLVs, and kind and length of the first TLV.
fn head_text(alloc: Global, message: &[u8]) -> Result<String, NoMemory> {
    let Some(head) = head(message) else {
        return "none".to_string(alloc);
    };
    let primary = match head.primary {
        Some((kind, size)) => format!(in alloc; "{kind} of {size}")?,
        None => "none".to_string(alloc)?,
    };
    format!(in alloc;
        "{} {:04x} counts {}, TLVs {}, {primary}",
        head.id, head.flags, head.zero_counts, head.tlvs_good
    )
}

/// ID, RCODE and TLVs.
fn message_text(alloc: Global, message: &DsoMessage) -> Result<String, NoMemory> {
    let word = if message.response {
        "answer"
    } else {
        "request"
    };
    let mut text = format!(in alloc; "{word} {} {}:", message.id, message.rcode)?;
    'tlvs: for tlv in message.tlvs.as_slice() {
        let octets = hex_text(alloc, tlv.octets.as_slice())?;
        let part = format!(in alloc; " {} [{octets}];", tlv.kind)?;
        text.push_str(&part)?;
    }
    Ok(text)
}

/// What a message says, or its fault.
fn outcome(alloc: Global, message: &[u8]) -> Result<String, NoMemory> {
    match read_dso(alloc, message) {
        Ok(message) => message_text(alloc, &message),
        Err(DsoFault::NoMemory) => Err(NoMemory),
        Err(fault) => format!(in alloc; "{fault:?}"),
    }
}

/// The question that data is.
fn asked(alloc: Global, data: &[u8]) -> Result<String, NoMemory> {
    match read_question(alloc, data)? {
        Some(question) => question_text(alloc, &question),
        None => "none".to_string(alloc),
    }
}

/// TLVs of these kinds with this data.
fn tlvs_of(alloc: Global, parts: &[(u16, &str)]) -> Result<Tlvs, HexFault> {
    let mut tlvs = Tlvs::new(alloc);
    'parts: for (kind, data) in parts {
        let octets = spaced_octets(alloc, data)?;
        let tlv = Tlv {
            kind: *kind,
            octets,
        };
        tlvs.push(tlv).map_err(|_| HexFault::NoMemory)?;
    }
    Ok(tlvs)
}

/// How many octets a message behind its length takes whose TLV has so many octets.
fn size_written(alloc: Global, size: usize) -> Result<usize, WriteDsoFault> {
    let mut tlvs = Tlvs::new(alloc);
    let octets = Octets::from_vec(vec![in alloc; 0; size]?);
    tlvs.push(Tlv { kind: 3, octets })?;
    let message = DsoMessage {
        id: 0,
        response: false,
        rcode: 0,
        tlvs,
    };
    let mut out = Vec::new(alloc);
    write_dso(&message, &mut out)?;
    Ok(out.len())
}

/// Whether a message's head shows, and the message says, what they are to.
fn is_read_so(alloc: Global, case: &(&str, &str, &str, &str)) -> Result<(), Fail> {
    let octets = spaced_octets(alloc, case.1)?;
    is_text(
        case.0,
        head_text(alloc, octets.as_slice())?.as_str(),
        case.2,
    )?;
    is_text(case.0, outcome(alloc, octets.as_slice())?.as_str(), case.3)
}

/// Whether data asks what it is to ask.
fn is_asked_so(alloc: Global, case: &(&str, &str, &str)) -> Result<(), Fail> {
    let octets = spaced_octets(alloc, case.1)?;
    is_text(case.0, asked(alloc, octets.as_slice())?.as_str(), case.2)
}

#[test]
fn messages_are_read(rt: HostRuntime) -> Result<(), Fail> {
    'messages: for case in MESSAGES {
        is_read_so(rt.alloc(), case)?;
    }
    'questions: for case in QUESTIONS {
        is_asked_so(rt.alloc(), case)?;
    }
    Ok(())
}

/// The octets of a case's message. None has an RCODE above 15.
fn octets_written(alloc: Global, case: &Written) -> Result<Vec<u8>, Fail> {
    let tlvs = tlvs_of(alloc, case.4)?;
    let message = DsoMessage {
        id: case.1,
        response: case.2,
        rcode: case.3.min(15),
        tlvs,
    };
    let mut out = Vec::new(alloc);
    write_dso(&message, &mut out)?;
    Ok(out)
}

/// Whether a case's message is written as it is to be.
fn is_written_so(alloc: Global, case: &Written) -> Result<(), Fail> {
    let octets = spaced_octets(alloc, case.5)?;
    let written = octets_written(alloc, case)?;
    holds(case.0, written.as_slice() == octets.as_slice())
}

#[test]
fn messages_are_written(rt: HostRuntime) -> Result<(), Fail> {
    'written: for case in WRITTEN {
        is_written_so(rt.alloc(), case)?;
    }
    'sizes: for case in SIZES {
        holds("octets of data", size_written(rt.alloc(), case.0) == case.1)?;
    }
    Ok(())
}
