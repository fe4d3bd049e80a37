//! Runs of a subscriber that asks for the SOA record of example.com., of whatever size the pieces are in which octets come.

ghost use Rattle.std.specs.Prelude.{All, IfOk};
ghost use Rattle.push_base.specs.Items.{HasOctets};

use configurations::SubscribeConfiguration;
use dnsname::Name;
use push_base::{MemClock, MemItem, MemLine, MemSink, Octets, hex_octets, hex_text};
use rrset::record::Question;
use scripts::Outcome;
use std::alloc::Global;
use std::test::Fail;
use subscriber::subscribe;

/// The SUBSCRIBE that goes out, and a Keepalive of 15 s each (RFC 8765, 6.2.1; RFC 8490, 7.1).
const ASKS: &str = "002100013000000000000000000000400011076578616d706c6503636f6d0000060001";

const ASKS_AND_KEEPS: &str =
    "002100013000000000000000000000400011076578616d706c6503636f6d000006000100180002300000000000000000000001000800003a9800003a98";

/// The answer NOERROR, and a PUSH with the record (RFC 8765, 6.2.2 and 6.3.1).
const ANSWER: &str = "000c0001b0000000000000000000";

const PUSH: &str =
    "006300003000000000000000000000410053076578616d706c6503636f6d000006000100000e10003c026e73076578616d706c6503636f6d000a686f73746d6173746572076578616d706c6503636f6d000000000100000e1000000258000151800000003c";

const BOTH: &str =
    "000c0001b0000000000000000000006300003000000000000000000000410053076578616d706c6503636f6d000006000100000e10003c026e73076578616d706c6503636f6d000a686f73746d6173746572076578616d706c6503636f6d000000000100000e1000000258000151800000003c";

const BOTH_SAID: &str =
    "answer 1 0\nadd example.com. 3600 1 6 026e73076578616d706c6503636f6d000a686f73746d6173746572076578616d706c6503636f6d000000000100000e1000000258000151800000003c\nclosed eof\n";

/// What comes, in pieces of which size; after how many messages it ends, if they are counted, and after how many reads; the
/// moments; the calls of the line and of the output that fail; and how it ends, what it said, and what it sent.
#[derive(Clone, Copy)]
struct Case {
    comes: &'static str,
    size: usize,
    messages: Option<u64>,
    turns: u64,
    moments: &'static [u64],
    line_fails: &'static [u64],
    out_fails: &'static [u64],
    says: &'static str,
    sends: &'static str,
}

/// Both messages in one piece, and the line's end.
const WHOLE: Case = Case {
    comes: BOTH,
    size: 115,
    messages: None,
    turns: 1000,
    moments: &[7],
    line_fails: &[],
    out_fails: &[],
    says: BOTH_SAID,
    sends: ASKS,
};

const CASES: &[Case] = &[
    // After a message, after none, after reads, after none.
    Case {
        messages: Some(1),
        says: "answer 1 0\nended messages\n",
        ..WHOLE
    },
    Case {
        messages: Some(0),
        says: "ended messages\n",
        ..WHOLE
    },
    Case {
        size: 7,
        turns: 2,
        says: "answer 1 0\nended turns\n",
        ..WHOLE
    },
    Case {
        turns: 0,
        says: "ended turns\n",
        ..WHOLE
    },
    // A PUSH before any answer closes the client; that isn't counted.
    Case {
        comes: PUSH,
        messages: Some(1),
        says: "closed early\n",
        ..WHOLE
    },
    // A Keepalive is due 15 s behind the answer.
    Case {
        comes: ANSWER,
        turns: 1,
        moments: &[0, 15_000],
        says: "answer 1 0\nended turns\n",
        sends: ASKS_AND_KEEPS,
        ..WHOLE
    },
    // A read that fails, and a write.
    Case {
        size: 14,
        line_fails: &[2],
        says: "answer 1 0\nread fault\n",
        ..WHOLE
    },
    Case {
        out_fails: &[1],
        says: "",
        ..WHOLE
    },
];

/// The octets in pieces.
fn items(alloc: Global, octets: &[u8], size: usize) -> Result<Vec<MemItem>, Fail>
    ensures { IfOk result (λ items. All HasOctets items.items) }
{
    let mut items = Vec::new(alloc);
    let mut rest = octets;
    'pieces: for _ in 0..octets.len() {
        let (piece, after) = rest.split_at(size.min(rest.len()));
        if piece.len() > 0 {
            items.push(MemItem::Bytes(Octets::from_slice(alloc, piece)?))?;
        }
        rest = after;
    }
    Ok(items)
}

fn configuration(alloc: Global, case: &Case) -> Result<SubscribeConfiguration, Fail> {
    let name = Name::from_text(alloc, "example.com.")?;
    let question = Question {
        name,
        kind: 6,
        class: 1,
    };
    Ok(SubscribeConfiguration {
        server: String::from_str(alloc, "mem")?,
        questions: vec![in alloc; question]?,
        messages: case.messages,
        turns: case.turns,
    })
}

/// The line of a case.
fn line(alloc: Global, case: &Case) -> Result<MemLine, Fail> {
    let octets = hex_octets(alloc, case.comes)?;
    let items = items(alloc, octets.as_slice(), case.size)?;
    Ok(MemLine::new(items, case.line_fails.to_vec(alloc)?))
}

/// A sink that takes whole pieces, but for the calls that fail.
fn sink(alloc: Global, fails: &[u64]) -> Result<MemSink, Fail> {
    let fails = fails.to_vec(alloc)?;
    Ok(MemSink::new(alloc, Vec::new(alloc), fails, 1000)?)
}

/// How a run over these sinks ended.
fn followed(
    alloc: Global,
    case: &Case,
    wire: &mut MemSink,
    out: &mut MemSink,
) -> Result<Outcome, Fail> {
    let configuration = configuration(alloc, case)?;
    let mut line = line(alloc, case)?;
    let mut clock = MemClock::new(case.moments.to_vec(alloc)?);
    Ok(subscribe(alloc, &configuration, &mut line, wire, &mut clock, out))
}

/// How a run ended, with what was said and what was sent.
fn told(alloc: Global, outcome: Outcome, out: &[u8], wire: &[u8]) -> Result<String, Fail> {
    let said = hex_text(alloc, out)?;
    let sent = hex_text(alloc, wire)?;
    Ok(format!(in alloc; "{outcome:?} {said} {sent}")?)
}

/// How a run ended, what it said, and what it sent.
fn ran(alloc: Global, case: &Case) -> Result<String, Fail> {
    let mut wire = sink(alloc, &[])?;
    let mut out = sink(alloc, case.out_fails)?;
    let outcome = followed(alloc, case, &mut wire, &mut out)?;
    told(alloc, outcome, out.taken(), wire.taken())
}

/// What is wanted of a run.
fn wanted(alloc: Global, case: &Case, ends: &str) -> Result<String, Fail> {
    let said = hex_text(alloc, case.says.as_bytes())?;
    let sent = case.sends;
    Ok(format!(in alloc; "{ends} {said} {sent}")?)
}

fn runs_so(alloc: Global, case: &Case, ends: &str) -> Result<(), Fail> {
    let shows = ran(alloc, case)?;
    let wanted = wanted(alloc, case, ends)?;
    if shows.as_str() == wanted.as_str() {
        return Ok(());
    }
    Err(Fail::new(format_args!("{shows} in place of {wanted}")))
}

/// How a case ends.
fn ending(case: &Case) -> &'static str {
    if case.line_fails.len() > 0 {
        "ReadFault"
    } else if case.out_fails.len() > 0 {
        "WriteFault"
    } else {
        "Done"
    }
}

#[test]
fn runs_end_and_say_what_they_should(rt: HostRuntime) -> Result<(), Fail> {
    'cases: for case in CASES {
        runs_so(rt.alloc(), case, ending(case))?;
    }
    Ok(())
}

#[test]
fn octets_come_in_pieces_of_any_size(rt: HostRuntime) -> Result<(), Fail> {
    'sizes: for size in 1..116 {
        runs_so(rt.alloc(), &Case { size, ..WHOLE }, "Done")?;
    }
    Ok(())
}
