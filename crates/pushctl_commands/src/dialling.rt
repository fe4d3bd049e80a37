//! The command `browse`: it dials, and dials again, and keeps the list.

ghost use Rattle.std.specs.Prelude.{◌≡◌, ◌⊎◌, max, min, IfOk};
ghost use Rattle.pushctl_commands.specs.Lateness.{GoesOnInTime};
ghost use Rattle.pushctl_commands.specs.Statuses.{FollowsSo, IsEndingOf, IsNextOf, IsStatusOf, delay_renewed, goes_on_after, late_status, next_delay};
ghost use Rattle.pushctl_commands.specs.declared.dialling.Next.TheVariants as nexts;
ghost use Rattle.pushctl_commands.specs.declared.status.Status.TheVariants as statuses;

use crate::converse::{Course, Talk, converse, is_late, put_full};
use crate::ending::Ending;
use crate::notes::{fault_line, refused_line, trouble_line};
use crate::request::Request;
use crate::status::Status;
use crate::wording::{Wording, table_line};
use crate::writing::{Fault, put};
use browsing::Browser;
use dnsname::Name;
use push_base::limits::MAX_MOMENT;
use push_base::{Clock, Line, NoMemory, Octets, Sink, Wire};
use push_outside::{OpenFault, Outside};
use rrset::classes;
use rrset::kinds::PTR;
use rrset::record::Question;
use services::{Service, Services};
use std::alloc::Global;

/// So many milliseconds pass before the second attempt, and as many twice before the third.
pub const FIRST_DELAY: u64 = 1_000;

/// The longest delay.
pub const LAST_DELAY: u64 = 60_000;

/// A connection that lasted so many milliseconds makes the delays begin anew.
pub const LASTING: u64 = 60_000;

// What comes next.
#[derive(Clone, Copy)]
enum Next {
    // The command ends so.
    End(Status),
    // It dials again after so many milliseconds.
    Again(u64),
}

// The list as a table, by names.
fn put_table<K: Sink>(
    alloc: Global,
    out: &mut K,
    wording: &Wording,
    services: &[Service],
) -> Result<(), Fault> {
    let lines = table(alloc, wording, services)?;
    'lines: for line in &lines {
        put(out, line.as_slice())?;
    }
    Ok(())
}

// The lines of a table, in order.
fn table(alloc: Global, wording: &Wording, services: &[Service]) -> Result<Vec<Octets>, NoMemory> {
    let mut lines = Vec::new(alloc);
    'services: for service in services {
        let line = table_line(alloc, wording, service)?;
        lines.push(line)?;
    }
    lines.sort_unstable_by(|one: &Octets, other: &Octets| one.as_slice().cmp(other.as_slice()));
    Ok(lines)
}

// The delay behind this one.
fn next_delay(delay: u64) -> u64
    ensures { result ≡ next_delay delay }
{
    delay.saturating_mul(2).max(FIRST_DELAY).min(LAST_DELAY)
}

// A connection that lasted makes the delays begin anew.
fn renew(course: &mut Course)
    ensures { course.new ≡ record course.old { delay = delay_renewed course.old } }
{
    if course.connected.saturating_add(LASTING) <= course.now {
        course.delay = 0;
    }
}

// The list as it is when the time is over, and that it isn't whole.
fn end_late<K: Sink, N: Sink>(
    alloc: Global,
    request: &Request<'_>,
    course: &Course,
    out: &mut K,
    notes: &mut N,
) -> Result<Status, Fault>
    ensures { IfOk result (λ status. status ≡ late_status course.entry.now) }
{
    if !course.has_heard {
        let line = fault_line(alloc, request.style, "the server can't be reached in time")?;
        put(notes, line.as_slice())?;
        return Ok(Status::Unreached);
    }
    put_table(alloc, out, &course.wording, course.there.as_slice())?;
    let line = fault_line(alloc, request.style, "not whole in time")?;
    put(notes, line.as_slice())?;
    Ok(Status::Partial)
}

// The list, which is whole as far as it could be asked for.
fn end_whole<K: Sink, N: Sink>(
    alloc: Global,
    request: &Request<'_>,
    course: &Course,
    out: &mut K,
    notes: &mut N,
) -> Result<Status, Fault>
    ensures { IfOk result (λ status. (status ≡ statuses.Done) ⊎ (status ≡ statuses.Partial)) }
{
    let list = course.browser.shown();
    put_table(alloc, out, &course.wording, list.as_slice())?;
    put_full(alloc, request.style, course, notes)?;
    if course.browser.is_full() {
        return Ok(Status::Partial);
    }
    Ok(Status::Done)
}

// Writes that the question is refused.
fn end_refused<N: Sink>(
    alloc: Global,
    request: &Request<'_>,
    rcode: u8,
    notes: &mut N,
) -> Result<Status, Fault>
    ensures { IfOk result (λ status. status ≡ statuses.Refused) }
{
    let line = refused_line(alloc, request.style, rcode, &request.domain)?;
    put(notes, line.as_slice())?;
    Ok(Status::Refused)
}

// Writes that the server broke a rule.
fn end_broken<N: Sink>(alloc: Global, request: &Request<'_>, notes: &mut N) -> Result<Status, Fault>
    ensures { IfOk result (λ status. status ≡ statuses.Broken) }
{
    let line = fault_line(alloc, request.style, "the server broke a rule of DSO")?;
    put(notes, line.as_slice())?;
    Ok(Status::Broken)
}

// What is written of a connection's end, and what comes next.
fn behind<K: Sink, N: Sink>(
    alloc: Global,
    request: &Request<'_>,
    course: &mut Course,
    ending: Ending,
    out: &mut K,
    notes: &mut N,
) -> Result<Next, Fault>
    requires { IsEndingOf request.now ending }
    ensures next { IfOk result (FollowsSo request.now course.old course.new ending) }
    ensures status { IfOk result (IsNextOf request.now) }
    ensures time { IfOk result (λ next. GoesOnInTime request.now course.new next) }
{
    renew(course);
    let (least, what) = match ending {
        Ending::Whole => return Ok(Next::End(end_whole(alloc, request, course, out, notes)?)),
        Ending::TimedOut => return Ok(Next::End(end_late(alloc, request, course, out, notes)?)),
        Ending::Refused(rcode) => {
            return Ok(Next::End(end_refused(alloc, request, rcode, notes)?));
        }
        Ending::Broken => return Ok(Next::End(end_broken(alloc, request, notes)?)),
        Ending::Gone(true) => (0, "the server closed the connection; the list is kept"),
        Ending::Gone(false) => (
            FIRST_DELAY,
            "closed before a word, as where no seat is free",
        ),
        Ending::Delayed(told) => (u64::from(told), "the server asks to come back later"),
        Ending::Idle => (0, "the connection was idle"),
    };
    again(alloc, request, course, what, least, out, notes)
}

// Writes what happened, and that the server is dialled again after so many milliseconds at least; or the time is over.
fn again<K: Sink, N: Sink>(
    alloc: Global,
    request: &Request<'_>,
    course: &mut Course,
    what: &str,
    least: u64,
    out: &mut K,
    notes: &mut N,
) -> Result<Next, Fault>
    ensures next { IfOk result (λ next. next ≡ goes_on_after request.now course.new course.old.delay least) }
    ensures status { IfOk result (IsNextOf request.now) }
    ensures time { IfOk result (λ next. GoesOnInTime request.now course.new next) }
    ensures delay { course.new ≡ record course.old { delay = next_delay (max course.old.delay (min least FIRST_DELAY)) } }
{
    let pause = course.delay.max(least);
    course.delay = next_delay(course.delay.max(least.min(FIRST_DELAY)));
    if is_late(request, course, pause) {
        return Ok(Next::End(end_late(alloc, request, course, out, notes)?));
    }
    let line = trouble_line(alloc, request.style, what, pause)?;
    put(notes, line.as_slice())?;
    Ok(Next::Again(pause))
}

// Waits until a moment.
fn wait<C: Clock>(clock: &mut C, course: &mut Course, until: u64) {
    let mut left = u32::MAX;
    course.now = clock.now().min(MAX_MOMENT);
    'ticks: while course.now < until && left > 0 {
        course.now = clock.tick().min(MAX_MOMENT);
        left -= 1;
    }
}

// One connection: it is dialled, and followed until it ends.
fn connect<O: Outside, K: Sink, N: Sink>(
    alloc: Global,
    request: &Request<'_>,
    course: &mut Course,
    clock: &mut O::Clock,
    out: &mut K,
    notes: &mut N,
    outside: &mut O,
) -> Result<Next, Fault>
    ensures status { IfOk result (IsNextOf request.now) }
    ensures time { IfOk result (λ next. GoesOnInTime request.now course.new next) }
{
    match outside.dial(request.server) {
        Err(OpenFault::NoMemory) => Err(Fault::NoMemory),
        Err(OpenFault::Failed) => {
            course.now = clock.now().min(MAX_MOMENT);
            let what = "the server can't be reached";
            again(alloc, request, course, what, FIRST_DELAY, out, notes)
        }
        Ok((line, wire)) => {
            let mut talk = Talk {
                alloc,
                line,
                wire,
                has_heard: false,
            };
            let ending = follow(request, course, &mut talk, clock, out, notes);
            outside.back_line(talk.line);
            outside.back_wire(talk.wire);
            behind(alloc, request, course, ending?, out, notes)
        }
    }
}

// Keeps what is known, which goes when the connection does.
fn keep(alloc: Global, course: &mut Course) -> Result<(), NoMemory> {
    let list = course.browser.known(alloc)?;
    if !list.as_slice().is_empty() {
        course.there = list;
    }
    Ok(())
}

// A connection was made: it is followed until it ends.
fn follow<L: Line, W: Wire, C: Clock, K: Sink, N: Sink>(
    request: &Request<'_>,
    course: &mut Course,
    talk: &mut Talk<L, W>,
    clock: &mut C,
    out: &mut K,
    notes: &mut N,
) -> Result<Ending, Fault>
    ensures { IfOk result (IsEndingOf request.now) }
{
    course.now = clock.now().min(MAX_MOMENT);
    course.connected = course.now;
    course.count = 0;
    course.browser.connected(course.now)?;
    let ending = converse(request, course, talk, clock, out, notes);
    let kept = keep(talk.alloc, course);
    course.browser.cut();
    kept?;
    ending
}

// Dials until the command ends.
fn dial_on<O: Outside, K: Sink, N: Sink>(
    alloc: Global,
    request: &Request<'_>,
    course: &mut Course,
    clock: &mut O::Clock,
    out: &mut K,
    notes: &mut N,
    outside: &mut O,
) -> Result<Status, Fault>
    ensures { IfOk result (IsStatusOf request.now) }
{
    let mut left = u64::MAX;
    'connections: while left > 0 {
        match connect(alloc, request, course, clock, out, notes, outside)? {
            Next::End(status) => return Ok(status),
            Next::Again(pause) => {
                let until = course.now.saturating_add(pause);
                wait(clock, course, until);
            }
        }
        left -= 1;
    }
    Ok(Status::Unreached)
}

// The machine and what is kept beside it.
fn course_of(
    alloc: Global,
    request: &Request<'_>,
    home: Name,
    now: u64,
) -> Result<Course, NoMemory> {
    let root = Question {
        name: request.domain.copy()?,
        kind: PTR,
        class: classes::IN,
    };
    Ok(Course {
        browser: Browser::new(alloc, root)?,
        wording: Wording {
            domain: request.domain.copy()?,
            home,
            style: request.style,
        },
        begun: now,
        changed: now,
        count: 0,
        known: false,
        has_heard: false,
        there: Services::new(alloc),
        delay: 0,
        now,
        connected: now,
    })
}

// Browses with a clock.
fn run<O: Outside, K: Sink, N: Sink>(
    alloc: Global,
    request: &Request<'_>,
    home: Name,
    clock: &mut O::Clock,
    out: &mut K,
    notes: &mut N,
    outside: &mut O,
) -> Result<Status, Fault>
    ensures { IfOk result (IsStatusOf request.now) }
{
    let now = clock.now().min(MAX_MOMENT);
    let mut course = course_of(alloc, request, home, now)?;
    dial_on(alloc, request, &mut course, clock, out, notes, outside)
}

/// Browses for the services of a domain: their list is written once, or each change of it until the server refuses or
/// breaks a rule. `home` is the domain that hosts are written without.
pub fn browse<O: Outside, K: Sink, N: Sink>(
    alloc: Global,
    request: &Request<'_>,
    home: Name,
    out: &mut K,
    notes: &mut N,
    outside: &mut O,
) -> Status
    ensures { IsStatusOf request.now result }
{
    let mut clock = outside.clock();
    let status = run(alloc, request, home, &mut clock, out, notes, outside);
    outside.back_clock(clock);
    match status {
        Ok(status) => status,
        Err(Fault::NoMemory) => Status::NoMemory,
        Err(Fault::Output) => Status::Output,
    }
}
