//! TCP connections, and a listener as doors.

ghost use Rattle.std.specs.Prelude.{◌≡◌, None, IfOk};

use crate::OpenFault;
use crate::log_lines::{fault_at, tell_deaf, tell_peer};
use crate::tcp_line::TcpLine;
use crate::tcp_wire::TcpWire;
use log::Log;
use push_base::{Doors, Failed};
use std::alloc::Global;
use std::io::{self, Error, ErrorKind};
use std::net::{Net, TcpListener, TcpStream};
use std::sync::Wait;
use std::thread;
use std::time::{Clock, Duration};

/// How long a read waits for octets, in milliseconds.
const READ_WAIT: u64 = 500;

/// How long a write waits for a peer that takes nothing, in milliseconds.
const WRITE_WAIT: u64 = 10_000;

/// How many octets the wire of an accepted connection holds back at most: the answers to 585 updates, or to a hundred queries.
const MOST_HELD: usize = 8192;

/// The same of a connection that was dialled: whoever dials may not flush.
const NONE_HELD: usize = 0;

/// How long doors wait before they try again, in milliseconds.
const PAUSE: u64 = 100;

/// The errors of `accept` for want of what the machine has, beside those that a kind of error names: too many descriptors
/// (of the system, of this process), a machine that isn't on the network, no buffers (Linux, accept(2) and errno(3)).
const WANTING: [i32; 4] = [23, 24, 64, 105];

/// The same of one connection alone, which it then takes out of the queue: a peer that spoke no protocol, an option that
/// isn't there, an operation that isn't supported, a peer that is down.
const OF_ONE: [i32; 4] = [71, 92, 95, 112];

/// The two ends of a connection.
pub type TcpEnds = (TcpLine<TcpStream>, TcpWire);

/// The two handles of a stream, neither of which waits for its peer for ever, and whose writes go out at once.
fn handles_of(stream: TcpStream) -> io::Result<(TcpStream, TcpStream)> {
    stream.set_read_timeout(Some(Duration::from_millis(READ_WAIT)))?;
    stream.set_write_timeout(Some(Duration::from_millis(WRITE_WAIT)))?;
    stream.set_nodelay(true)?;
    let writer = stream.try_clone()?;
    Ok((stream, writer))
}

/// The two ends of a stream, of which the wire holds back so many octets at most.
fn ends_of(alloc: Global, most: usize, stream: TcpStream) -> io::Result<TcpEnds>
    ensures line { IfOk result (λ ends. ends.0.faults ≡ 0) }
    ensures wire { IfOk result (λ ends. ends.1.writing.faults ≡ 0) }
{
    let (reader, writer) = handles_of(stream)?;
    Ok((TcpLine::new(reader), TcpWire::new(alloc, most, writer)))
}

/// A connection to an address.
pub(crate) fn dial<N: Net<Listener = TcpListener, Stream = TcpStream>, R: Log>(
    net: &N,
    rt: &R,
    alloc: Global,
    address: &str,
) -> Result<TcpEnds, OpenFault>
    ensures line { IfOk result (λ ends. ends.0.faults ≡ 0) }
    ensures wire { IfOk result (λ ends. ends.1.writing.faults ≡ 0) }
{
    let stream = match TcpStream::connect(net, address) {
        Ok(stream) => stream,
        Err(error) => return Err(fault_at(rt, "connect to", address, &error)),
    };
    match ends_of(alloc, NONE_HELD, stream) {
        Ok(ends) => Ok(ends),
        Err(error) => Err(fault_at(rt, "connect to", address, &error)),
    }
}

/// A TCP listener as doors. It doesn't tell how many sessions were accepted, and counts its faults.
#[derive(Drop)]
pub struct TcpDoors<R> {
    rt: R,
    alloc: Global,
    // None once the doors are closed.
    listener: Option<TcpListener>,
    faults: u64,
}

impl<R> TcpDoors<R> {
    /// Doors at an address, without faults so far.
    pub fn bind<N>(net: &N, rt: R, alloc: Global, address: &str) -> Result<Self, OpenFault>
    where
        N: Net<Listener = TcpListener, Stream = TcpStream>,
        R: Log + Drop,
        ensures { IfOk result (λ doors. doors.faults ≡ 0) }
    {
        match TcpListener::bind(net, address) {
            Ok(listener) => Ok(TcpDoors {
                rt,
                alloc,
                listener: Some(listener),
                faults: 0,
            }),
            Err(error) => Err(fault_at(&rt, "listen on", address, &error)),
        }
    }

    /// How often they have failed.
    pub fn faults(&self) -> u64
        ensures { result ≡ self.now.faults }
    {
        self.faults
    }
}

/// The next connection, with its two ends.
fn accept_one<R: Log>(rt: &R, alloc: Global, listener: &TcpListener) -> io::Result<TcpEnds> {
    let (stream, peer) = listener.accept()?;
    tell_peer(rt, &peer);
    ends_of(alloc, MOST_HELD, stream)
}

/// Whether the system's number of an error is among these.
pub(crate) fn has_code(error: &Error, codes: &[i32]) -> bool {
    error
        .raw_os_error()
        .is_some_and(|code| codes.contains(&code))
}

/// Whether descriptors, buffers or memory are wanting, or the network is down, which lasts for a while.
fn is_wanting(error: &Error) -> bool {
    let is_kind = matches!(
        error.kind(),
        ErrorKind::NetworkDown | ErrorKind::NetworkUnreachable | ErrorKind::OutOfMemory
    );
    is_kind || has_code(error, &WANTING)
}

/// Whether an error is that of one connection, whose peer has left or can't be reached, or of a call that was interrupted.
fn is_of_one(error: &Error) -> bool {
    let is_kind = matches!(
        error.kind(),
        ErrorKind::ConnectionAborted
            | ErrorKind::ConnectionReset
            | ErrorKind::HostUnreachable
            | ErrorKind::Interrupted
    );
    is_kind || has_code(error, &OF_ONE)
}

/// The next connection. One whose peer has left holds no other up. Where there are no descriptors or buffers, or where the
/// network is down, the next is waited for.
fn accept_next<R: Log + Wait + Clock>(
    rt: &R,
    alloc: Global,
    listener: &TcpListener,
) -> io::Result<TcpEnds> {
    for _ in rt.forever() {
        match accept_one(rt, alloc, listener) {
            Err(error) if is_of_one(&error) => {}
            Err(error) if is_wanting(&error) => {
                thread::sleep(rt, Duration::from_millis(PAUSE));
            }
            accepted => return accepted,
        }
    }
    unreachable!()
}

impl<R: Log + Wait + Clock> TcpDoors<R> {
    /// The next connection, if the doors are open and none of their calls fails.
    fn next(&self) -> Option<TcpEnds> {
        let listener = self.listener.as_ref()?;
        match accept_next(&self.rt, self.alloc, listener) {
            Ok(ends) => Some(ends),
            Err(error) => {
                tell_deaf(&self.rt, &error);
                None
            }
        }
    }
}

impl<R: Log + Wait + Clock> Doors for TcpDoors<R> {
    type Line = TcpLine<TcpStream>;

    type Out = TcpWire;

    ghost accepted = { λ _. None };

    ghost calls = { λ _. None };

    ghost faults = { λ s. s.faults };

    fn accept(&mut self) -> Result<TcpEnds, Failed> {
        match self.next() {
            Some(ends) => Ok(ends),
            None => {
                self.faults = self.faults.saturating_add(1);
                Err(Failed)
            }
        }
    }

    fn close(&mut self) {
        self.listener = None;
    }
}
