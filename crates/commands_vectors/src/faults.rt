//! Calls of the outside that fail: each at its first time, then at its second and so on, until a run makes no more of them.

use crate::objects::{Call, Fault};
use crate::runs::{Run, SUBSCRIBED, Wanted, is_so, whole};
use log::Log;
use std::alloc::Global;
use std::sync::Wait;
use std::test::Fail;
use std::thread::Threads;

const READ_FAULT: &[u8] = b"read fault\n";

const OUTSIDE_FAULT: &[u8] = b"outside fault\n";

const REPLAYED: Run = Run {
    words: &["replay", "-"],
    pieces: &[b"at 5\n", b"point\n"],
    says: &[],
    status: 0,
    text: b"point 1 5\n",
};

const REPLAYED_FILE: Run = Run {
    words: &["replay", "a/path"],
    ..REPLAYED
};

// A script that prints nothing.
const SILENT: Run = Run {
    pieces: &[b"at 5\n", b"at 6\n"],
    text: &[],
    ..REPLAYED
};

const CHECKED: Run = Run {
    words: &["check", "-"],
    text: b"good 2\n",
    ..REPLAYED
};

const CHECKED_FILE: Run = Run {
    words: &["check", "a/path"],
    ..CHECKED
};

// A server of one zone and one link, whose jobs have so many turns; each of its sessions sends, framed for TCP, a SUBSCRIBE
// for the SOA record of the zone (RFC 8765, 6.2.1) and an update (RFC 2136, 2) that adds the address of a.example.com.
const SERVED: Run = Run {
    words: &["serve", "a/path"],
    pieces: &[
        b"zone example.com. 1 open\nlink lan lan.example.com.\n",
        b"listen here\nsessions 2\nfeed lan there\nturns 50\n",
    ],
    says: b"\x00\x21\x00\x01\x30\x00\x00\x00\x00\x00\x00\x00\x00\x00\x00\x40\x00\x11\x07example\x03com\x00\x00\x06\x00\x01\
        \x00\x2f\x00\x02\x28\x00\x00\x01\x00\x00\x00\x01\x00\x00\x07example\x03com\x00\x00\x06\x00\x01\
        \x01a\xc0\x0c\x00\x01\x00\x01\x00\x00\x00\x3c\x00\x04\xc0\x00\x02\x01",
    status: 0,
    text: b"served 2 changes 2 heard 1 moments 1\n",
};

// The same, where no update is taken: no octets of a session come, or its answer to the SUBSCRIBE, before which it takes
// nothing more, can't be sent.
const UNTAKEN: Run = Run {
    text: b"served 2 changes 0 heard 1 moments 1\n",
    ..SERVED
};

// A run, a call of it, how often it makes that call, the status where that fails, and what is written then behind a front of
// the text.
type Row = (&'static Run, Call, u64, u8, &'static [u8]);

const CASES: &[Row] = &[
    (&REPLAYED_FILE, Call::Open, 1, 3, READ_FAULT),
    (&CHECKED_FILE, Call::Open, 1, 3, READ_FAULT),
    (&SERVED, Call::Open, 1, 3, READ_FAULT),
    (&SUBSCRIBED, Call::Open, 1, 3, READ_FAULT),
    (&REPLAYED, Call::Read, 3, 3, READ_FAULT),
    (&REPLAYED_FILE, Call::Read, 3, 3, READ_FAULT),
    (&CHECKED, Call::Read, 3, 3, READ_FAULT),
    (&CHECKED_FILE, Call::Read, 3, 3, READ_FAULT),
    (&SERVED, Call::Read, 3, 3, READ_FAULT),
    (&SUBSCRIBED, Call::Read, 3, 3, READ_FAULT),
    (&SILENT, Call::ReadAndTell, 3, 5, &[]),
    (&REPLAYED, Call::Write, 10, 5, &[]),
    (&REPLAYED, Call::WriteNone, 10, 5, &[]),
    (&CHECKED, Call::Write, 7, 5, &[]),
    (&SERVED, Call::Write, 37, 5, &[]),
    (&SUBSCRIBED, Call::Write, 22, 5, &[]),
    (&SERVED, Call::Listen, 1, 6, OUTSIDE_FAULT),
    (&SERVED, Call::Bind, 1, 6, OUTSIDE_FAULT),
    (&SERVED, Call::Accept, 2, 6, OUTSIDE_FAULT),
    (&SERVED, Call::Start, 6, 6, OUTSIDE_FAULT),
    (&SERVED, Call::Hear, 2, 6, OUTSIDE_FAULT),
    (&SUBSCRIBED, Call::Dial, 1, 6, OUTSIDE_FAULT),
    (&SUBSCRIBED, Call::Receive, 2, 3, READ_FAULT),
    (&SUBSCRIBED, Call::Send, 1, 5, &[]),
];

// A server whose sessions' own calls fail, each of which ends its session alone. Nobody counts that, as what fails goes with
// its session.
const APART: &[(&Run, Fault<'static>)] = &[
    (
        &UNTAKEN,
        Fault {
            call: &Call::Receive,
            time: 1,
        },
    ),
    (
        &SERVED,
        Fault {
            call: &Call::Receive,
            time: 2,
        },
    ),
    (
        &UNTAKEN,
        Fault {
            call: &Call::Send,
            time: 1,
        },
    ),
];

// How a run ends whose call fails this time.
fn wanted_at(row: &Row, time: u64) -> Wanted {
    let (run, _, calls, status, last) = row;
    if time > *calls {
        return whole(run);
    }
    Wanted {
        is_met: true,
        status: *status,
        last: Some(last),
    }
}

// Whether runs end so, each of whose calls fails in turn, and one of which a further call would.
fn fails_each_time<R: Log + Threads + Wait + Copy + Send + 'static>(
    rt: R,
    alloc: Global,
    row: &Row,
) -> Result<(), Fail> {
    let (run, call, calls, _, _) = row;
    'times: for time in 1..calls.saturating_add(2) {
        let wanted = wanted_at(row, time);
        is_so(rt, alloc, run, &Fault { call, time }, &wanted)?;
    }
    Ok(())
}

#[test]
fn calls_fail(rt: HostRuntime) -> Result<(), Fail> {
    'rows: for row in CASES {
        fails_each_time(rt, rt.alloc(), row)?;
    }
    Ok(())
}

#[test]
fn calls_of_sessions_fail(rt: HostRuntime) -> Result<(), Fail> {
    'runs: for (run, fault) in APART {
        is_so(rt, rt.alloc(), run, fault, &whole(run))?;
    }
    Ok(())
}
