//! The objects of a run in memory, and which of their calls fail.

ghost use Rattle.std.specs.Prelude.{◌<◌, length, All, IfOk, OnOk};
ghost use Rattle.push_base.specs.Items.{HasOctets};
ghost use Rattle.push_outside.specs.MemOutside.{AreNewLinks, IsNewClock, IsNewDoors, IsNewPair, IsNewSource, IsNewStarter};

use crate::runs::Run;
use push_base::{
    MemClock, MemDatagrams, MemDoors, MemItem, MemLine, MemSink, MemSource, MemStarter, Octets,
};
use push_outside::{MemObjects, MemOutside};
use std::alloc::{AllocError, Global};

/// A call of the outside.
pub(crate) enum Call {
    /// A path is opened.
    Open,
    /// The script or the configuration is read.
    Read,
    /// The same; and then the first write of what is printed.
    ReadAndTell,
    /// What is printed is written, an octet at a time.
    Write,
    /// The same, where the call takes nothing.
    WriteNone,
    /// The server listens.
    Listen,
    /// A session is accepted.
    Accept,
    /// A job is started.
    Start,
    /// A link's socket is opened.
    Bind,
    /// A datagram is received.
    Hear,
    /// The subscriber is connected.
    Dial,
    /// Octets of a session come.
    Receive,
    /// Octets of a session are sent.
    Send,
}

/// The call that fails, and when: the first time, the second time and so on; or never, if that is 0.
#[derive(Clone, Copy)]
pub(crate) struct Fault<'a> {
    pub(crate) call: &'a Call,
    pub(crate) time: u64,
}

// An announcement of the address of h.local. (RFC 6762, 8.3).
const DATAGRAM: &[u8] =
    b"\x00\x00\x84\x00\x00\x00\x00\x01\x00\x00\x00\x00\x01h\x05local\x00\x00\x01\x00\x01\x00\x00\x00\x78\x00\x04\xc0\x00\x02\x01";

// The numbers of the calls that fail, of an object whose calls these are or aren't.
fn times(alloc: Global, fault: &Fault<'_>, its_own: bool) -> Result<Vec<u64>, AllocError> {
    Ok(vec![in alloc; if its_own { fault.time } else { 0 }]?)
}

// Whether there is an object to be handed out by a call.
fn is_there(fault: &Fault<'_>, its_own: bool) -> bool {
    !its_own || fault.time != 1
}

// The pieces that aren't empty, as items of a source.
fn items(alloc: Global, pieces: &[&[u8]]) -> Result<Vec<Octets>, AllocError>
    ensures { IfOk result (λ items. All (λ item. 0 < length item) items.items) }
{
    let mut items = Vec::new(alloc);
    'pieces: for piece in pieces {
        if piece.len() > 0 {
            items.push(Octets::from_slice(alloc, piece)?)?;
        }
    }
    Ok(items)
}

/// The script or the configuration.
pub(crate) fn source(alloc: Global, run: &Run, fault: &Fault<'_>) -> Result<MemSource, AllocError>
    ensures { IfOk result (λ source. IsNewSource source) }
{
    let fails = times(
        alloc,
        fault,
        matches!(fault.call, Call::Read | Call::ReadAndTell),
    )?;
    Ok(MemSource::new(items(alloc, run.pieces)?, fails))
}

// An octet for each call before the one that fails.
fn limits(alloc: Global, fault: &Fault<'_>) -> Result<Vec<usize>, AllocError> {
    let mut limits = Vec::new(alloc);
    'calls: for _ in 1..fault.time {
        limits.push(1)?;
    }
    if matches!(fault.call, Call::WriteNone) {
        limits.push(0)?;
    }
    Ok(limits)
}

/// What takes what is printed.
pub(crate) fn printed(alloc: Global, fault: &Fault<'_>) -> Result<MemSink, AllocError> {
    let limits = limits(alloc, fault)?;
    let mut fails = times(alloc, fault, matches!(fault.call, Call::Write))?;
    if matches!(fault.call, Call::ReadAndTell) {
        fails.push(1)?;
    }
    MemSink::new(alloc, limits, fails, 1024)
}

fn files(alloc: Global, run: &Run, fault: &Fault<'_>) -> Result<Vec<MemSource>, AllocError>
    ensures { IfOk result (λ files. All IsNewSource files.items) }
{
    if !is_there(fault, matches!(fault.call, Call::Open)) {
        return Ok(Vec::new(alloc));
    }
    Ok(vec![in alloc; source(alloc, run, fault)?]?)
}

fn said(alloc: Global, run: &Run) -> Result<Vec<MemItem>, AllocError>
    ensures { IfOk result (λ items. All HasOctets items.items) }
{
    if run.says.len() == 0 {
        return Ok(Vec::new(alloc));
    }
    let message = MemItem::Bytes(Octets::from_slice(alloc, run.says)?);
    Ok(vec![in alloc; message]?)
}

// The two ends of a session.
fn ends(alloc: Global, run: &Run, fault: &Fault<'_>) -> Result<(MemLine, MemSink), AllocError>
    ensures { IfOk result (λ ends. IsNewPair ends) }
{
    let reads = times(alloc, fault, matches!(fault.call, Call::Receive))?;
    let writes = times(alloc, fault, matches!(fault.call, Call::Send))?;
    let line = MemLine::new(said(alloc, run)?, reads);
    let wire = MemSink::new(alloc, Vec::new(alloc), writes, 1024)?;
    Ok((line, wire))
}

// Two sessions.
fn sessions(
    alloc: Global,
    run: &Run,
    fault: &Fault<'_>,
) -> Result<Vec<(MemLine, MemSink)>, AllocError> {
    let mut sessions = Vec::new(alloc);
    'sessions: for _ in 0..2 {
        sessions.push(ends(alloc, run, fault)?)?;
    }
    Ok(sessions)
}

fn listeners(
    alloc: Global,
    run: &Run,
    fault: &Fault<'_>,
) -> Result<Vec<MemDoors<MemLine, MemSink>>, AllocError>
    ensures { IfOk result (λ listeners. All IsNewDoors listeners.items) }
{
    if !is_there(fault, matches!(fault.call, Call::Listen)) {
        return Ok(Vec::new(alloc));
    }
    let fails = times(alloc, fault, matches!(fault.call, Call::Accept))?;
    Ok(vec![in alloc; MemDoors::new(sessions(alloc, run, fault)?, fails)]?)
}

fn connections(
    alloc: Global,
    run: &Run,
    fault: &Fault<'_>,
) -> Result<Vec<(MemLine, MemSink)>, AllocError>
    ensures { IfOk result (λ connections. All IsNewPair connections.items) }
{
    if !is_there(fault, matches!(fault.call, Call::Dial)) {
        return Ok(Vec::new(alloc));
    }
    Ok(vec![in alloc; ends(alloc, run, fault)?]?)
}

fn feeds(alloc: Global, fault: &Fault<'_>) -> Result<Vec<MemDatagrams>, AllocError>
    ensures { IfOk result (λ feeds. All AreNewLinks feeds.items) }
{
    if !is_there(fault, matches!(fault.call, Call::Bind)) {
        return Ok(Vec::new(alloc));
    }
    let fails = times(alloc, fault, matches!(fault.call, Call::Hear))?;
    let announcement = MemItem::Bytes(Octets::from_slice(alloc, DATAGRAM)?);
    let datagrams = MemDatagrams::new(alloc, vec![in alloc; announcement]?, fails, 0)?;
    Ok(vec![in alloc; datagrams]?)
}

fn clocks(alloc: Global) -> Result<Vec<MemClock>, AllocError>
    ensures { IfOk result (λ clocks. All IsNewClock clocks.items) }
{
    Ok(vec![in alloc; MemClock::new(vec![in alloc; 1]?)]?)
}

fn starters(alloc: Global, fault: &Fault<'_>) -> Result<Vec<MemStarter>, AllocError>
    ensures { IfOk result (λ starters. All IsNewStarter starters.items) }
{
    let fails = times(alloc, fault, matches!(fault.call, Call::Start))?;
    Ok(vec![in alloc; MemStarter::new(alloc, fails)]?)
}

// All that any command reaches.
fn fill(
    alloc: Global,
    run: &Run,
    fault: &Fault<'_>,
    objects: &mut MemObjects,
) -> Result<(), AllocError>
    ensures files { OnOk result (All IsNewSource objects.new.files.items) }
    ensures listeners { OnOk result (All IsNewDoors objects.new.listeners.items) }
    ensures connections { OnOk result (All IsNewPair objects.new.connections.items) }
    ensures feeds { OnOk result (All AreNewLinks objects.new.feeds.items) }
    ensures clocks { OnOk result (All IsNewClock objects.new.clocks.items) }
    ensures starters { OnOk result (All IsNewStarter objects.new.starters.items) }
{
    objects.files = files(alloc, run, fault)?;
    objects.listeners = listeners(alloc, run, fault)?;
    objects.connections = connections(alloc, run, fault)?;
    objects.feeds = feeds(alloc, fault)?;
    objects.clocks = clocks(alloc)?;
    objects.starters = starters(alloc, fault)?;
    Ok(())
}

/// An outside with all that any command reaches.
pub(crate) fn outside(
    alloc: Global,
    run: &Run,
    fault: &Fault<'_>,
) -> Result<MemOutside, AllocError> {
    let mut objects = MemObjects::none(alloc);
    fill(alloc, run, fault, &mut objects)?;
    Ok(MemOutside::new(alloc, objects))
}
