//! What is logged of sessions and links. Nothing is, while the lock is held.

use crate::wakeups::Wakes;
use dsosession::session::EndReason;
use log::{Level, Log, log};
use pushserver::{Given, Heard, HubFault, Why};
use std::fmt;
use std::fmt::{Display, Formatter};

/// What is told of a session or of a link, in one line.
#[derive(Clone, Copy)]
enum Told {
    /// A session has ended, for the hub's reason, or because its connection is over.
    End {
        session: u64,
        reason: Option<EndReason>,
    },
    /// A message of a session's client made a change.
    Change {
        session: u64,
    },
    /// A datagram of a link has so many octets, and this became of it.
    Hearing {
        link: usize,
        octets: usize,
        words: &'static str,
    },
    /// A link is asked with a datagram of so many octets.
    Asking {
        link: usize,
        octets: usize,
    },
    /// What became of a link's records, or that it couldn't be asked.
    Link {
        link: usize,
        words: &'static str,
    },
}

impl Told {
    // What comes with each message or datagram is for whoever looks for a fault.
    fn level(self) -> Level {
        match self {
            Told::End { .. } | Told::Link { .. } => Level::Info,
            Told::Change { .. } | Told::Hearing { .. } | Told::Asking { .. } => Level::Debug,
        }
    }
}

impl Display for Told {
    fn fmt<W: fmt::Write>(&self, f: &mut Formatter<W>) -> fmt::Result {
        match *self {
            Told::End { session, reason } => {
                write!(f, "session {session} ended: {}", InWords(reason))
            }
            Told::Change { session } => write!(f, "session {session}: a change was entered"),
            Told::Hearing {
                link,
                octets,
                words,
            } => write!(f, "link {link}: {octets} octets, {words}"),
            Told::Asking { link, octets } => write!(f, "link {link}: asked with {octets} octets"),
            Told::Link { link, words } => write!(f, "link {link}: {words}"),
        }
    }
}

fn tell<R: Log>(rt: &R, told: Told) {
    log!(rt; told.level(), "{told}");
}

/// Why the hub ended a session, as this answer tells, or else as was told before.
pub(crate) fn reason_in(
    answer: &Result<Given, HubFault>,
    before: Option<EndReason>,
) -> Option<EndReason> {
    match answer {
        Ok(Given::End(reason)) => Some(*reason),
        _ => before,
    }
}

/// A session's end, for the hub's reason, or because its connection is over.
pub(crate) fn tell_end<R: Log>(rt: &R, session: u64, reason: Option<EndReason>) {
    tell(rt, Told::End { session, reason });
}

/// A change that a message of a session's client made, as whom it wakes tells.
pub(crate) fn tell_change<R: Log>(rt: &R, session: u64, wakes: Wakes) {
    if let Wakes::Places(_) = wakes {
        tell(rt, Told::Change { session });
    }
}

/// A datagram of a link, with so many octets.
pub(crate) fn tell_hearing<R: Log>(
    rt: &R,
    link: usize,
    octets: usize,
    answer: &Result<Heard, HubFault>,
) {
    let words = hearing_words(answer);
    tell(
        rt,
        Told::Hearing {
            link,
            octets,
            words,
        },
    );
}

/// What a link is asked.
pub(crate) fn tell_asking<R: Log>(rt: &R, link: usize, answer: &Result<Option<usize>, HubFault>) {
    match answer {
        Ok(Some(count)) => {
            let octets = *count;
            tell(rt, Told::Asking { link, octets });
        }
        Ok(None) => {}
        Err(HubFault::NoMemory) => {
            let words = "not asked: no memory";
            tell(rt, Told::Link { link, words });
        }
    }
}

/// A link that has gone away.
pub(crate) fn tell_going<R: Log>(rt: &R, link: usize, answer: &Result<bool, HubFault>) {
    let words = going_words(answer);
    tell(rt, Told::Link { link, words });
}

// What became of the records of a link that has gone away.
fn going_words(answer: &Result<bool, HubFault>) -> &'static str {
    match answer {
        Ok(true) => "its records are gone",
        Ok(false) => "no records went",
        Err(HubFault::NoMemory) => "its records stay: no memory",
    }
}

// What became of a datagram.
fn hearing_words(answer: &Result<Heard, HubFault>) -> &'static str {
    match answer {
        Ok(Heard::Entered) => "heard",
        Ok(Heard::Ignored(why)) => ignored_words(*why),
        Err(HubFault::NoMemory) => "lost: no memory",
    }
}

// Why a datagram was ignored.
fn ignored_words(why: Why) -> &'static str {
    match why {
        Why::Long => "ignored: too long",
        Why::Short => "ignored: shorter than a header",
        Why::Query => "ignored: no response",
        Why::Coded => "ignored: its OPCODE or RCODE is not 0",
        Why::Unreadable(_) => "ignored: outside the grammar",
        Why::Nothing => "ignored: none of its records is used",
        Why::Last => "ignored: all points are used up",
    }
}

// Why a session ended, in words.
#[derive(Drop)]
struct InWords(Option<EndReason>);

impl Display for InWords {
    fn fmt<W: fmt::Write>(&self, f: &mut Formatter<W>) -> fmt::Result {
        match self.0 {
            Some(EndReason::Misuse(kind)) => {
                write!(f, "a TLV of type {kind} where it may not be")
            }
            Some(EndReason::BadData(kind)) => {
                write!(f, "a TLV of type {kind} whose data are malformed")
            }
            Some(EndReason::Unknown(kind)) => write!(f, "a TLV of unknown type {kind}"),
            Some(EndReason::IdInUse(id)) => write!(f, "a second SUBSCRIBE with the ID {id}"),
            Some(EndReason::Twice(id)) => write!(f, "a second SUBSCRIBE for what {id} asks"),
            Some(EndReason::Behind(point)) => write!(f, "it fell behind at point {point}"),
            Some(reason) => f.write_str(plain_words(reason)),
            None => f.write_str("its connection is over"),
        }
    }
}

// Those of the reasons without a number.
fn plain_words(reason: EndReason) -> &'static str {
    match reason {
        EndReason::Short => "a message shorter than a header",
        EndReason::Answer => "a response, where nothing was asked",
        EndReason::Counts => "a count that is not 0",
        EndReason::Tlvs => "no TLV, or TLVs that are not whole",
        EndReason::Early => "a message without an ID before it was established",
        EndReason::Silent => "nothing passed for too long",
        EndReason::Idle => "no subscription for too long",
        EndReason::Stopped => "it was asked to stop",
        _ => "there is no such session",
    }
}
