//! Runs of the program in memory.

use crate::objects::{Call, Fault, outside, printed, source};
use commands::run;
use hublock::NoRegister;
use log::Log;
use push_base::{MemSink, MemSource};
use push_outside::MemOutside;
use std::alloc::{AllocError, Global};
use std::sync::Wait;
use std::test::Fail;
use std::thread::Threads;

const TOLD: &[u8] =
    b"open c\nasked c new\nsettle c\nshow c printer.example.com. 1 1 held 0\nupdate 0\nsettle c\nshow c printer.example.com. 1 1 held 1\nrr printer.example.com. 120 1 1 c0000201\n";

// A client is told of the address that it asks for by the first settle behind the update which adds it.
const SETTLED: &[&[u8]] = &[
    b"zone example.com. 1 open\nclient c\nopen c\n",
    b"ask c printer.example.com. 1 1\nsettle c\n",
    b"show c printer.example.com. 1 1\n",
    b"update 000128000001000000010000076578616d706c6503636f6d0000060001077072696e74657",
    b"2076578616d706c6503636f6d0000010001000000780004c0000201\n",
    b"settle c\nshow c printer.example.com. 1 1\n",
];

// Scripts that are checked and run, a script at a path, a configuration without a question, and the sums over the one script of 1.
const RUNS: &[Run] = &[
    Run {
        words: &["check", "-"],
        pieces: &[],
        says: &[],
        status: 0,
        text: b"good 0\n",
    },
    Run {
        words: &["check", "-"],
        pieces: &[b"client c\n#\n", b"\nopen c"],
        says: &[],
        status: 0,
        text: b"good 4\n",
    },
    Run {
        words: &["check", "-"],
        pieces: &[b"client c\nopen c\n", b"ask c example.com. 6"],
        says: &[],
        status: 2,
        text: b"line 3\n",
    },
    Run {
        words: &["replay", "-"],
        pieces: SETTLED,
        says: &[],
        status: 0,
        text: TOLD,
    },
    Run {
        words: &["replay", "a/path"],
        pieces: &[b"#\n", b"x"],
        says: &[],
        status: 2,
        text: b"line 2\n",
    },
    Run {
        words: &["subscribe", "a/path"],
        pieces: &[b"server here\n"],
        says: &[],
        status: 2,
        text: b"line 2\n",
    },
    Run {
        words: &["big", "1"],
        pieces: &[],
        says: &[],
        status: 0,
        text: b"big 1 points 2 held 2 lines 14\n",
    },
];

/// A subscriber, and the answer NOERROR (RFC 8765, 6.2.2).
pub(crate) const SUBSCRIBED: Run = Run {
    words: &["subscribe", "a/path"],
    pieces: &[b"server here\n", b"question example.com. 6 1\n"],
    says: b"\x00\x0c\x00\x01\xb0\x00\x00\x00\x00\x00\x00\x00\x00\x00",
    status: 0,
    text: b"answer 1 0\nclosed eof\n",
};

/// A run: its words, the pieces of its script or configuration, what its peers say, and its status and text where nothing
/// fails.
pub(crate) struct Run {
    pub(crate) words: &'static [&'static str],
    pub(crate) pieces: &'static [&'static [u8]],
    pub(crate) says: &'static [u8],
    pub(crate) status: u8,
    pub(crate) text: &'static [u8],
}

fn words_of(alloc: Global, texts: &[&str]) -> Result<Vec<String>, AllocError> {
    let mut words = Vec::new(alloc);
    'texts: for text in texts {
        words.push(String::from_str(alloc, text)?)?;
    }
    Ok(words)
}

// The status of a run with these words.
fn status_of<R: Log + Threads + Wait + Copy + Send + 'static>(
    rt: R,
    alloc: Global,
    words: &[&str],
    input: &mut MemSource,
    out: &mut MemSink,
    outside: &mut MemOutside,
) -> Result<u8, AllocError> {
    let words = words_of(alloc, words)?;
    let register = &mut NoRegister;
    Ok(run(rt, alloc, &words, input, out, outside, register))
}

/// How a run is to end.
#[derive(Drop)]
pub(crate) struct Wanted {
    /// Whether a call fails, and that is counted.
    pub(crate) is_met: bool,
    pub(crate) status: u8,
    /// What is written behind a front of the run's text, or nothing where the text is whole.
    pub(crate) last: Option<&'static [u8]>,
}

/// How a run is to end where nothing that fails is counted.
pub(crate) fn whole(run: &Run) -> Wanted {
    Wanted {
        is_met: false,
        status: run.status,
        last: None,
    }
}

// Whether an object that had failed was met.
fn is_met(input: &MemSource, out: &MemSink, outside: &MemOutside) -> bool {
    let counts = [
        input.faults(),
        out.faults(),
        outside.reads(),
        outside.writes(),
        outside.others(),
    ];
    counts.iter().any(|count| *count > 0)
}

// Whether the text was written, or a front of it and then the last one.
fn is_written(text: &[u8], last: Option<&'static [u8]>, wrote: &[u8]) -> bool {
    let Some(last) = last else {
        return wrote == text;
    };
    match wrote.strip_suffix(last) {
        Some(front) => text.starts_with(front),
        None => false,
    }
}

// Whether a run ended as is wanted.
fn shows(
    run: &Run,
    time: u64,
    wanted: &Wanted,
    is_met: bool,
    status: u8,
    wrote: &[u8],
) -> Result<(), Fail> {
    let is_written = is_written(run.text, wanted.last, wrote);
    if is_met == wanted.is_met && status == wanted.status && is_written {
        return Ok(());
    }
    Err(Fail::new(format_args!(
        "fault at {time}: {is_met}, status {status}, {} octets",
        wrote.len()
    )))
}

// Nothing fails.
const NONE: Fault<'_> = Fault {
    call: &Call::Open,
    time: 0,
};

// Whether a run over these objects ends as is wanted.
fn runs_over<R: Log + Threads + Wait + Copy + Send + 'static>(
    rt: R,
    alloc: Global,
    run: &Run,
    time: u64,
    wanted: &Wanted,
    input: &mut MemSource,
    out: &mut MemSink,
    outside: &mut MemOutside,
) -> Result<(), Fail> {
    let status = status_of(rt, alloc, run.words, input, out, outside)?;
    let is_met = is_met(input, out, outside);
    shows(run, time, wanted, is_met, status, out.taken())
}

// Whether a run over this outside ends as is wanted.
fn runs_so<R: Log + Threads + Wait + Copy + Send + 'static>(
    rt: R,
    alloc: Global,
    run: &Run,
    fault: &Fault<'_>,
    wanted: &Wanted,
    outside: &mut MemOutside,
) -> Result<(), Fail> {
    let mut input = source(alloc, run, fault)?;
    let mut out = printed(alloc, fault)?;
    let time = fault.time;
    runs_over(rt, alloc, run, time, wanted, &mut input, &mut out, outside)
}

/// Whether a run of which this fails ends as is wanted.
pub(crate) fn is_so<R: Log + Threads + Wait + Copy + Send + 'static>(
    rt: R,
    alloc: Global,
    run: &Run,
    fault: &Fault<'_>,
    wanted: &Wanted,
) -> Result<(), Fail> {
    let mut outside = outside(alloc, run, fault)?;
    runs_so(rt, alloc, run, fault, wanted, &mut outside)
}

#[test]
fn runs_in_memory(rt: HostRuntime) -> Result<(), Fail> {
    'runs: for run in RUNS {
        is_so(rt, rt.alloc(), run, &NONE, &whole(run))?;
    }
    Ok(())
}

// Whether an outside tells that each kind of what a subscriber uses was used once.
fn tells_a_subscriber(outside: &MemOutside) -> Result<(), Fail> {
    let counts = [
        outside.opened().len(),
        outside.used().len(),
        outside.dialled().len(),
        outside.used_lines().len(),
        outside.used_wires().len(),
        outside.used_clocks().len(),
    ];
    if counts.iter().all(|count| *count == 1) {
        return Ok(());
    }
    Err(Fail::new(format_args!("not each once")))
}

#[test]
fn an_outside_tells_its_use(rt: HostRuntime) -> Result<(), Fail> {
    let mut outside = outside(rt.alloc(), &SUBSCRIBED, &NONE)?;
    let wanted = whole(&SUBSCRIBED);
    runs_so(rt, rt.alloc(), &SUBSCRIBED, &NONE, &wanted, &mut outside)?;
    tells_a_subscriber(&outside)
}
