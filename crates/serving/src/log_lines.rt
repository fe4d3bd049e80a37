//! What is logged of a server and of its jobs.

use hublock::LoopEnd;
use log::{Level, Log, log};
use push_base::Role;
use std::fmt;
use std::fmt::{Display, Formatter};

/// What is told of a server or of its jobs, in one line.
#[derive(Clone, Copy)]
enum Told {
    /// A session got a seat.
    Seat { session: u64 },
    /// Something of the whole server.
    Whole { words: &'static str },
    /// How the loop of a job ended.
    End { role: Role, words: &'static str },
}

impl Display for Told {
    fn fmt<W: fmt::Write>(&self, f: &mut Formatter<W>) -> fmt::Result {
        match *self {
            Told::Seat { session } => write!(f, "session {session} accepted"),
            Told::Whole { words } => f.write_str(words),
            Told::End { role, words } => write!(f, "{}: {words}", InWords(role)),
        }
    }
}

// Whose loop it is, in words.
#[derive(Clone, Copy)]
struct InWords(Role);

impl Display for InWords {
    fn fmt<W: fmt::Write>(&self, f: &mut Formatter<W>) -> fmt::Result {
        match self.0 {
            Role::Reader(session) => write!(f, "session {session}, reading"),
            Role::Writer(session) => write!(f, "session {session}, writing"),
            Role::Link(link) => write!(f, "link {link}"),
            Role::Clock => f.write_str("clock"),
        }
    }
}

fn tell<R: Log>(rt: &R, level: Level, told: Told) {
    log!(rt; level, "{told}");
}

/// A session got a seat.
pub(crate) fn tell_session<R: Log>(rt: &R, session: u64) {
    tell(rt, Level::Info, Told::Seat { session });
}

/// A client got none.
pub(crate) fn tell_no_seat<R: Log>(rt: &R) {
    let words = "a client was turned away: all seats are taken";
    tell(rt, Level::Warn, Told::Whole { words });
}

/// The server is given up, and all its jobs are to stop.
pub(crate) fn tell_stop<R: Log>(rt: &R) {
    let words = "the server stops all sessions and links";
    tell(rt, Level::Error, Told::Whole { words });
}

/// How the loop of a job ended.
pub(crate) fn tell_loop_end<R: Log>(rt: &R, role: Role, end: LoopEnd) {
    let words = words_of(end);
    tell(rt, level_of(end), Told::End { role, words });
}

// A loop's end is an error where the server works on without what it did.
fn level_of(end: LoopEnd) -> Level {
    match end {
        LoopEnd::Finished => Level::Debug,
        LoopEnd::ReadFault | LoopEnd::WriteFault | LoopEnd::Turns => Level::Info,
        LoopEnd::LinkFault | LoopEnd::NoMemory => Level::Error,
    }
}

// A loop's end in words.
fn words_of(end: LoopEnd) -> &'static str {
    match end {
        LoopEnd::Finished => "over",
        LoopEnd::ReadFault => "the connection broke",
        LoopEnd::WriteFault => "the connection broke, or its client took nothing",
        LoopEnd::LinkFault => "its socket broke, so it is heard no more",
        LoopEnd::Turns => "its turns are used up",
        LoopEnd::NoMemory => "no memory, so it stops",
    }
}
