//! What a session of a client does with messages, and what is due at it (RFC 8490, 5 to 7; RFC 8765, 6).

use crate::rows::holds;
use dsosession::ClientSession;
use dsosession::session::ClientReaction::{self as Reaction, Close};
use dsosession::session::Due::{self, Idle, Keepalive, Nothing};
use dsosession::session::{CloseReason as Why, Timers};
use dsotlv::DsoHead;
use std::test::Fail;

/// The flags of a request with OPCODE 6.
const DSO: u16 = 0x3000;

/// The flags of an answer with OPCODE 6.
const ANSWER: u16 = 0xb000;

/// Kind and length of a primary TLV.
type Primary = Option<(u16, u16)>;

const PUSH: Primary = Some((65, 20));

/// ID, flags, whether counts are 0 and TLVs whole, and the primary TLV; and the reaction, in a session that is
/// established or not. Each is decided by what stands in front of the primary TLV.
const HEADERS: &[(u16, u16, bool, bool, Primary, Reaction)] = &[
    (1, 0x0100, true, true, None, Close(Why::Opcode)),
    (1, 0xa800, false, false, None, Close(Why::Opcode)),
    (0, 0x3800, true, true, PUSH, Close(Why::Opcode)),
    (0, DSO, false, true, PUSH, Close(Why::Counts)),
    (1, ANSWER, false, false, None, Close(Why::Counts)),
    (0, DSO, true, false, PUSH, Close(Why::Tlvs)),
    (1, ANSWER, true, false, None, Close(Why::Tlvs)),
    (1, ANSWER, true, true, None, Reaction::Answered),
    (0, ANSWER, true, true, None, Reaction::Answered),
    (1, 0xb7f9, true, true, Some((2, 4)), Reaction::Answered),
    (0, DSO, true, true, None, Close(Why::Tlvs)),
    (7, DSO, true, true, None, Close(Why::Tlvs)),
];

/// ID, kind and length of the primary TLV, in a session that is established; and the reaction.
const PRIMARIES: &[(u16, u16, u16, Reaction)] = &[
    (7, 1, 8, Close(Why::Misuse(1))),
    (7, 2, 4, Close(Why::Misuse(2))),
    (7, 3, 0, Close(Why::Misuse(3))),
    (7, 64, 17, Close(Why::Misuse(64))),
    (7, 65, 20, Close(Why::Misuse(65))),
    (7, 66, 2, Close(Why::Misuse(66))),
    (7, 67, 17, Close(Why::Misuse(67))),
    (7, 0, 0, Reaction::Typeless),
    (7, 4, 4, Reaction::Typeless),
    (7, 63, 0, Reaction::Typeless),
    (7, 68, 0, Reaction::Typeless),
    (0, 1, 8, Reaction::Keepalive),
    (0, 1, 7, Reaction::Keepalive),
    (0, 2, 4, Reaction::Delay),
    (0, 2, 3, Close(Why::BadData(2))),
    (0, 65, 20, Reaction::Push),
    (0, 3, 0, Close(Why::Misuse(3))),
    (0, 64, 17, Close(Why::Misuse(64))),
    (0, 66, 2, Close(Why::Misuse(66))),
    (0, 67, 17, Close(Why::Misuse(67))),
    (0, 0, 0, Close(Why::Unknown(0))),
    (0, 4, 4, Close(Why::Unknown(4))),
    (0, 63, 0, Close(Why::Unknown(63))),
    (0, 68, 0, Close(Why::Unknown(68))),
];

/// The head of a message that is well formed.
fn head_with(id: u16, flags: u16, primary: Primary) -> DsoHead {
    DsoHead {
        id,
        flags,
        zero_counts: true,
        tlvs_good: true,
        primary,
    }
}

/// What a session does with a message.
fn reaction_to(head: &DsoHead, established: bool) -> Reaction {
    let mut session = ClientSession::new(0);
    if established {
        session.establish();
    }
    session.react(head, 1)
}

/// The head of a row of `HEADERS`.
fn head_of(case: &(u16, u16, bool, bool, Primary, Reaction)) -> DsoHead {
    DsoHead {
        id: case.0,
        flags: case.1,
        zero_counts: case.2,
        tlvs_good: case.3,
        primary: case.4,
    }
}

#[test]
fn reactions_of_a_client(rt: HostRuntime) -> Result<(), Fail> {
    'headers: for (row, case) in HEADERS.iter().enumerate() {
        let head = head_of(case);
        holds(row, reaction_to(&head, false) == case.5)?;
        holds(row, reaction_to(&head, true) == case.5)?;
    }
    'primaries: for (row, case) in PRIMARIES.iter().enumerate() {
        let head = head_with(case.0, DSO, Some((case.1, case.2)));
        let early = if case.0 == 0 {
            Close(Why::Early)
        } else {
            case.3
        };
        holds(row, reaction_to(&head, false) == early)?;
        holds(row, reaction_to(&head, true) == case.3)?;
    }
    Ok(())
}

/// The infinite timer.
const NEVER: u32 = 0xffff_ffff;

/// The last moment that can be told.
const LAST: u64 = u64::MAX;

/// Inactivity timeout and keepalive interval, the moments of the last message and of the last one that is no
/// Keepalive, whether the client asks something, and whether a Keepalive is out; a moment, and what is due then and
/// wasn't before.
const DUES: &[(u32, u32, u64, u64, bool, bool, u64, Due)] = &[
    (15_000, 15_000, 0, 0, false, false, 15_000, Idle),
    (15_000, 15_000, 0, 0, true, false, 15_000, Keepalive),
    (15_000, 15_000, 0, 0, true, true, LAST, Nothing),
    (15_000, 15_000, 9, 2, false, true, 15_002, Idle),
    (15_000, 15_000, 9, 2, true, false, 15_009, Keepalive),
    (20_000, 15_000, 0, 0, false, false, 15_000, Keepalive),
    (20_000, 15_000, 0, 0, false, true, 20_000, Idle),
    (NEVER, 15_000, 0, 0, false, false, 15_000, Keepalive),
    (15_000, NEVER, 0, 0, true, false, LAST, Nothing),
    (NEVER, NEVER, 0, 0, false, false, LAST, Nothing),
    (NEVER - 1, NEVER, 0, 0, false, false, 0xffff_fffe, Idle),
    (9, NEVER - 1, 1, 0, true, false, 0xffff_ffff, Keepalive),
    (0, 15_000, 3, 1, false, false, 1, Idle),
    (9, 9, LAST - 9, 0, true, false, LAST, Keepalive),
    (9, 9, LAST - 8, LAST - 8, false, false, LAST, Nothing),
];

/// What is due in a row of `DUES` a moment before its moment, and at it.
fn dues_of(case: &(u32, u32, u64, u64, bool, bool, u64, Due)) -> (Due, Due) {
    let mut session = ClientSession::new(5);
    session.wrote(false, case.3);
    session.wrote(true, case.2);
    session.adopt(Timers {
        inactivity: case.0,
        keepalive: case.1,
    });
    let before = session.moment(case.6.saturating_sub(1), case.4, case.5);
    let due = session.moment(case.6, case.4, case.5);
    (before, due)
}

#[test]
fn what_is_due_at_a_client(rt: HostRuntime) -> Result<(), Fail> {
    'dues: for (row, case) in DUES.iter().enumerate() {
        holds(row, dues_of(case) == (Nothing, case.7))?;
    }
    Ok(())
}

/// Messages one after the other in one session: ID, flags and primary TLV of one that came, none of what counts
/// besides, and its moment; from when on the client is idle, and is to send a Keepalive.
const RESTARTS: &[(Option<(u16, u16, Primary)>, u64, u64, u64)] = &[
    (Some((0, DSO, Some((1, 8)))), 10_000, 15_000, 25_000),
    (Some((7, ANSWER, Some((1, 8)))), 12_000, 15_000, 27_000),
    (None, 12_000, 27_000, 27_000),
    (Some((0, DSO, PUSH)), 13_000, 28_000, 28_000),
];

/// What is due of the inactivity timeout a moment before a row's moment, and at it.
fn idle_at(session: &mut ClientSession, moment: u64) -> (Due, Due) {
    let before = session.moment(moment.saturating_sub(1), false, true);
    (before, session.moment(moment, false, true))
}

/// What is due of the keepalive interval a moment before a row's moment, and at it.
fn silent_at(session: &mut ClientSession, moment: u64) -> (Due, Due) {
    let before = session.moment(moment.saturating_sub(1), true, false);
    (before, session.moment(moment, true, false))
}

#[test]
fn messages_restart_timers_of_a_client(rt: HostRuntime) -> Result<(), Fail> {
    let mut session = ClientSession::new(0);
    holds(0, !session.established())?;
    session.establish();
    'rows: for (row, case) in RESTARTS.iter().enumerate() {
        match case.0 {
            Some((id, flags, primary)) => {
                let _ = session.react(&head_with(id, flags, primary), case.1);
            }
            None => session.wrote(false, case.1),
        }
        holds(row, idle_at(&mut session, case.2) == (Nothing, Idle))?;
        holds(row, silent_at(&mut session, case.3) == (Nothing, Keepalive))?;
    }
    holds(0, session.established())
}
