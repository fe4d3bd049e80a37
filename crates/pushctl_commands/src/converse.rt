//! A conversation over one connection.

ghost use Rattle.std.specs.Prelude.{◌≡◌, ◌<◌, ◌≤◌, length, IfOk, IfSome};
ghost use Rattle.pushctl_commands.specs.Lateness.{is_late};
ghost use Rattle.pushctl_commands.specs.Statuses.{IsEndingOf};

use crate::ending::{Ending, ending_told};
use crate::notes::{fault_line, whole_line};
use crate::request::{Request, Style};
use crate::wording::{Wording, change_line};
use crate::writing::{Fault, put};
use browsing::Browser;
use push_base::limits::MAX_MOMENT;
use push_base::{Clock, Failed, Got, Line, Sink, Wire, front_of, write_all};
use services::{Change, Services};
use std::alloc::Global;

/// How many octets are asked for at a time. A client that waits has room for more.
const MOST_READ: usize = 4096;

/// What a command keeps from one connection to the next.
#[derive(Drop)]
pub(crate) struct Course {
    /// The machine.
    pub browser: Browser,
    /// How lines are written.
    pub wording: Wording,
    /// When the command began.
    pub begun: u64,
    /// When the list last changed.
    pub changed: u64,
    /// How many changes came since the connection was made.
    pub count: usize,
    /// Whether a list was whole on an earlier connection.
    pub known: bool,
    /// Whether the server ever said a word.
    pub has_heard: bool,
    /// The last list that wasn't empty, as it was when its connection ended.
    pub there: Services,
    /// How long it takes until the next attempt, at least.
    pub delay: u64,
    /// The moment now.
    pub now: u64,
    /// The moment at which the connection was made.
    pub connected: u64,
}

/// Whether the time is over for a list that is written once, or will be after so many milliseconds.
pub(crate) fn is_late(request: &Request<'_>, course: &Course, pause: u64) -> bool
    ensures { result ≡ is_late request.now course.entry.now pause }
{
    request.once && course.begun.saturating_add(request.within) <= course.now.saturating_add(pause)
}

// Writes changes, each as a line, unless the list is written once.
fn put_changes<K: Sink>(
    alloc: Global,
    out: &mut K,
    wording: &Wording,
    changes: &[Change],
) -> Result<(), Fault> {
    'changes: for change in changes {
        let line = change_line(alloc, wording, change)?;
        put(out, line.as_slice())?;
    }
    Ok(())
}

// What a read gave: octets, or that there are no more.
fn read<L: Line>(line: &mut L, buffer: &mut [u8]) -> Option<usize>
    requires { 0 < length buffer.old }
{
    match line.recv(buffer) {
        Ok(Got::Bytes(count)) => Some(count),
        Ok(Got::Quiet) => Some(0),
        Ok(Got::End) | Err(Failed) => None,
    }
}

// The same, or that there are no more where what was to be sent didn't go.
fn read_behind<L: Line>(is_sent: bool, line: &mut L, buffer: &mut [u8]) -> Option<usize>
    requires { 0 < length buffer.old }
{
    if is_sent { read(line, buffer) } else { None }
}

// Sends all that is to be sent. Gives whether it went.
fn send<W: Wire>(
    alloc: Global,
    course: &mut Course,
    wire: &mut W,
    buffer: &mut [u8],
) -> Result<bool, Fault>
    requires { 1 ≤ length buffer.old }
{
    let octets = course.browser.output(alloc, buffer)?;
    if octets.is_empty() {
        return Ok(true);
    }
    let is_sent = write_all(wire, &octets).is_ok();
    wire.flush();
    Ok(is_sent)
}

// What the machine makes of a read, and what is written of that.
fn take<K: Sink, N: Sink>(
    alloc: Global,
    request: &Request<'_>,
    course: &mut Course,
    octets: &[u8],
    out: &mut K,
    notes: &mut N,
) -> Result<(), Fault> {
    let was_whole = course.browser.is_whole();
    let changes = course.browser.turn(alloc, octets, course.now)?;
    if !changes.is_empty() {
        course.changed = course.now;
        course.count = course.count.saturating_add(changes.as_slice().len());
    }
    if request.once {
        return Ok(());
    }
    put_changes(alloc, out, &course.wording, changes.as_slice())?;
    if !was_whole && course.browser.is_whole() {
        put_whole(alloc, request, course, notes)?;
        put_full(alloc, request.style, course, notes)?;
    }
    Ok(())
}

/// Writes that the list may lack something, where no further question can be asked.
pub(crate) fn put_full<N: Sink>(
    alloc: Global,
    style: Style,
    course: &Course,
    notes: &mut N,
) -> Result<(), Fault> {
    if !course.browser.is_full() {
        return Ok(());
    }
    let line = fault_line(
        alloc,
        style,
        "1,024 questions are asked, as many as may be; the list may lack something",
    )?;
    put(notes, line.as_slice())
}

// Writes that the list is whole.
fn put_whole<N: Sink>(
    alloc: Global,
    request: &Request<'_>,
    course: &mut Course,
    notes: &mut N,
) -> Result<(), Fault> {
    let changed = if course.known {
        Some(course.count)
    } else {
        None
    };
    course.known = true;
    let there = course.browser.shown().as_slice().len();
    let line = whole_line(alloc, request.style, there, changed)?;
    put(notes, line.as_slice())
}

// How the conversation ends, if it does.
fn ending(request: &Request<'_>, course: &Course) -> Option<Ending>
    ensures { IfSome result (IsEndingOf request.now) }
{
    let is_whole = request.once && is_quiet(request, course);
    let is_late = is_late(request, course, 0);
    ending_told(
        course.browser.refused(),
        course.browser.closed(),
        is_whole,
        is_late,
    )
}

// Whether the list is whole, and nothing has changed for long enough.
fn is_quiet(request: &Request<'_>, course: &Course) -> bool {
    course.browser.is_whole() && course.changed.saturating_add(request.quiet) <= course.now
}

/// The two ends of a connection.
#[derive(Drop)]
pub(crate) struct Talk<L, W> {
    pub alloc: Global,
    pub line: L,
    pub wire: W,
    /// Whether an octet came.
    pub has_heard: bool,
}

/// What is said and heard over a new connection, until it ends.
pub(crate) fn converse<L: Line, W: Wire, C: Clock, K: Sink, N: Sink>(
    request: &Request<'_>,
    course: &mut Course,
    talk: &mut Talk<L, W>,
    clock: &mut C,
    out: &mut K,
    notes: &mut N,
) -> Result<Ending, Fault>
    ensures { IfOk result (IsEndingOf request.now) }
{
    let mut buffer = vec![in talk.alloc; 0u8; MOST_READ]?;
    let buffer = buffer.as_mut_slice();
    follow(request, course, talk, clock, out, notes, buffer)
}

// Reads until the conversation ends.
fn follow<L: Line, W: Wire, C: Clock, K: Sink, N: Sink>(
    request: &Request<'_>,
    course: &mut Course,
    talk: &mut Talk<L, W>,
    clock: &mut C,
    out: &mut K,
    notes: &mut N,
    buffer: &mut [u8],
) -> Result<Ending, Fault>
    requires { 1 ≤ length buffer.old }
    ensures { IfOk result (IsEndingOf request.now) }
{
    let mut left = u64::MAX;
    'reads: while left > 0 {
        match turn(request, course, talk, clock, out, notes, buffer)? {
            Some(ending) => return Ok(ending),
            None => {}
        }
        left -= 1;
    }
    Ok(Ending::Gone(talk.has_heard))
}

// Sends what is to be sent, and reads once. Gives how many octets came, or nothing where none will.
fn exchange<L: Line, W: Wire, C: Clock>(
    course: &mut Course,
    talk: &mut Talk<L, W>,
    clock: &mut C,
    buffer: &mut [u8],
) -> Result<Option<usize>, Fault>
    requires { 1 ≤ length buffer.old }
{
    let is_sent = send(talk.alloc, course, &mut talk.wire, buffer)?;
    let got = read_behind(is_sent, &mut talk.line, buffer);
    course.now = clock.now().min(MAX_MOMENT);
    Ok(got)
}

// Sends and reads once, and says what comes of it. Gives how the conversation ends, if it does.
fn turn<L: Line, W: Wire, C: Clock, K: Sink, N: Sink>(
    request: &Request<'_>,
    course: &mut Course,
    talk: &mut Talk<L, W>,
    clock: &mut C,
    out: &mut K,
    notes: &mut N,
    buffer: &mut [u8],
) -> Result<Option<Ending>, Fault>
    requires { 1 ≤ length buffer.old }
    ensures { IfOk result (λ ending. IfSome ending (IsEndingOf request.now)) }
{
    let Some(count) = exchange(course, talk, clock, buffer)? else {
        return Ok(Some(Ending::Gone(talk.has_heard)));
    };
    talk.has_heard = talk.has_heard || count > 0;
    course.has_heard = course.has_heard || count > 0;
    let octets = front_of(buffer, count);
    take(talk.alloc, request, course, octets, out, notes)?;
    Ok(ending(request, course))
}
