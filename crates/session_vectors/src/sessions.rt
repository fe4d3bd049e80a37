//! What a session of the server does with messages, and when it ends (RFC 8490, 5 to 7; RFC 8765, 6).

use crate::rows::holds;
use dsosession::ServerSession;
use dsosession::session::Reaction::{Abort, Answer, NotImplemented, Query, Update};
use dsosession::session::{EndReason as End, Reaction, Timers};
use dsotlv::DsoHead;
use std::test::Fail;

/// The flags of a request with OPCODE 6.
const DSO: u16 = 0x3000;

/// Kind and length of a primary TLV.
type Primary = Option<(u16, u16)>;

const SUBSCRIBE: Primary = Some((64, 17));

const RECONFIRM: Primary = Some((67, 17));

/// ID, flags, whether counts are 0 and TLVs whole, and the primary TLV, in a session that is established; and the
/// reaction. Each is decided by what stands in front of the primary TLV.
const HEADERS: &[(u16, u16, bool, bool, Primary, Reaction)] = &[
    (1, 0xb000, true, true, SUBSCRIBE, Abort(End::Answer)),
    (0, 0xb000, false, false, None, Abort(End::Answer)),
    (1, 0xa800, true, true, None, Abort(End::Answer)),
    (0, 0x8100, true, true, None, Abort(End::Answer)),
    (1, 0x2800, false, false, None, Update),
    (0, 0x2800, true, true, SUBSCRIBE, Update),
    (9, 0x0100, false, true, None, Query),
    (0, 0x07ff, true, false, SUBSCRIBE, Query),
    (9, 0x0900, true, true, None, NotImplemented),
    (0, 0x7800, false, true, SUBSCRIBE, NotImplemented),
    (4, DSO, false, true, SUBSCRIBE, Answer(1)),
    (4, DSO, false, false, None, Answer(1)),
    (0, DSO, false, true, RECONFIRM, Abort(End::Counts)),
    (4, DSO, true, false, SUBSCRIBE, Answer(1)),
    (0, DSO, true, false, RECONFIRM, Abort(End::Tlvs)),
    (4, DSO, true, true, None, Answer(1)),
    (0, DSO, true, true, None, Abort(End::Tlvs)),
    (4, 0x37ff, true, true, SUBSCRIBE, Reaction::Subscribe),
];

/// ID, kind and length of the primary TLV, in a session that is established; and the reaction.
const PRIMARIES: &[(u16, u16, u16, Reaction)] = &[
    (7, 1, 8, Reaction::Grant),
    (7, 1, 7, Answer(1)),
    (0, 1, 8, Abort(End::Misuse(1))),
    (7, 2, 4, Abort(End::Misuse(2))),
    (0, 2, 4, Abort(End::Misuse(2))),
    (7, 3, 0, Answer(1)),
    (0, 3, 0, Abort(End::Misuse(3))),
    (7, 64, 0, Reaction::Subscribe),
    (0, 64, 17, Abort(End::Misuse(64))),
    (7, 65, 20, Abort(End::Misuse(65))),
    (0, 65, 20, Abort(End::Misuse(65))),
    (0, 66, 2, Reaction::Unsubscribe),
    (0, 66, 3, Abort(End::BadData(66))),
    (7, 66, 2, Abort(End::Misuse(66))),
    (0, 67, 17, Reaction::Reconfirm),
    (7, 67, 17, Abort(End::Misuse(67))),
    (7, 0x1234, 0, Answer(11)),
    (0, 0x1234, 0, Abort(End::Unknown(0x1234))),
    (7, 68, 0, Answer(11)),
    (0, 0, 0, Abort(End::Unknown(0))),
];

/// The head of a message that is well formed.
fn head_with(id: u16, kind: u16, size: u16) -> DsoHead {
    DsoHead {
        id,
        flags: DSO,
        zero_counts: true,
        tlvs_good: true,
        primary: Some((kind, size)),
    }
}

/// What a session does with a message.
fn reaction_to(head: &DsoHead, established: bool) -> Reaction {
    let mut session = ServerSession::new(0);
    if established {
        session.establish();
    }
    session.react(head, 1)
}

/// The head of a row of `HEADERS`.
fn head_of(case: &(u16, u16, bool, bool, Primary, Reaction)) -> DsoHead {
    DsoHead {
        id: case.0,
        flags: case.1,
        zero_counts: case.2,
        tlvs_good: case.3,
        primary: case.4,
    }
}

#[test]
fn reactions(rt: HostRuntime) -> Result<(), Fail> {
    'headers: for (row, case) in HEADERS.iter().enumerate() {
        holds(row, reaction_to(&head_of(case), true) == case.5)?;
    }
    'primaries: for (row, case) in PRIMARIES.iter().enumerate() {
        let head = head_with(case.0, case.1, case.2);
        holds(row, reaction_to(&head, true) == case.3)?;
    }
    Ok(())
}

#[test]
fn reactions_before_a_session(rt: HostRuntime) -> Result<(), Fail> {
    'primaries: for (row, case) in PRIMARIES.iter().enumerate() {
        let head = head_with(case.0, case.1, case.2);
        let wanted = if case.0 == 0 {
            Abort(End::Early)
        } else {
            case.3
        };
        holds(row, reaction_to(&head, false) == wanted)?;
    }
    Ok(())
}

/// The infinite timer.
const NEVER: u32 = 0xffff_ffff;

/// The last moment that can be told.
const LAST: u64 = u64::MAX;

/// Inactivity timeout and keepalive interval, the moments of the last message and of the last one that is no
/// Keepalive, and how many subscriptions; when the session ends and why.
const ENDS: &[(u32, u32, u64, u64, usize, Option<(u64, End)>)] = &[
    (15_000, 15_000, 0, 0, 1, Some((30_000, End::Silent))),
    (15_000, 15_000, 0, 0, 0, Some((30_000, End::Silent))),
    (15_000, 15_000, 9, 2, 0, Some((30_002, End::Idle))),
    (15_000, 15_000, 9, 2, 2, Some((30_009, End::Silent))),
    (2_500, 15_000, 0, 0, 0, Some((5_000, End::Idle))),
    (2_499, 15_000, 0, 0, 0, Some((5_000, End::Idle))),
    (0, 15_000, 3, 1, 0, Some((5_001, End::Idle))),
    (2_501, 15_000, 0, 0, 0, Some((5_002, End::Idle))),
    (NEVER, 15_000, 0, 0, 0, Some((30_000, End::Silent))),
    (15_000, NEVER, 0, 0, 0, Some((30_000, End::Idle))),
    (15_000, NEVER, 0, 0, 1, None),
    (NEVER, NEVER, 0, 0, 0, None),
    (NEVER - 1, NEVER, 0, 0, 0, Some((0x1_ffff_fffc, End::Idle))),
    (9, NEVER - 1, 1, 0, 1, Some((0x1_ffff_fffd, End::Silent))),
    (15_000, 15_000, LAST, LAST, 0, None),
    (15_000, 15_000, LAST - 29_999, 0, 1, None),
    (9, 15_000, LAST - 30_000, 0, 1, Some((LAST, End::Silent))),
    (15_000, 0, 7, 7, 1, Some((7, End::Silent))),
];

/// Whether a session ends as a row of `ENDS` says, and not a moment before.
fn ends_so(case: &(u32, u32, u64, u64, usize, Option<(u64, End)>)) -> bool {
    let mut session = ServerSession::new(5);
    session.wrote(false, case.3);
    session.wrote(true, case.2);
    session.grant(Timers {
        inactivity: case.0,
        keepalive: case.1,
    });
    let end = session.deadline(case.4);
    let moment = end.unwrap_or(LAST);
    let reason = session.moment(moment, case.4);
    let early = session.moment(moment.saturating_sub(1), case.4);
    end == case.5.map(|end| end.0) && reason == case.5.map(|end| end.1) && early == None
}

#[test]
fn ends(rt: HostRuntime) -> Result<(), Fail> {
    'ends: for (row, case) in ENDS.iter().enumerate() {
        holds(row, ends_so(case))?;
    }
    Ok(())
}

#[test]
fn messages_restart_timers(rt: HostRuntime) -> Result<(), Fail> {
    let mut session = ServerSession::new(0);
    holds(0, !session.established())?;
    let keepalive = head_with(7, 1, 8);
    holds(1, session.react(&keepalive, 20_000) == Reaction::Grant)?;
    holds(2, session.deadline(0) == Some(30_000))?;
    holds(3, session.deadline(1) == Some(50_000))?;
    session.wrote(false, 21_000);
    session.establish();
    holds(4, session.deadline(0) == Some(51_000))?;
    holds(5, session.established())
}
