//! What the adapters of the real outside do, over readers and writers in memory, and over the loopback.

use push_base::{Clock, Datagrams, Failed, Got, Line, Sink, Source};
use push_outside::{OpenFault, Origin, Outside, Reading, System, TcpLine, Writing};
use std::alloc::Global;
use std::net::{Net, UdpSocket};
use std::test::Fail;
use std::time::Duration;

// A source over two readers, of which the second is there, and a sink with room for two octets.
#[test]
fn streams_in_memory(rt: HostRuntime) -> Result<(), Fail> {
    let mut source = Reading::new(Origin::<&[u8], &[u8]>::File(b"ab"));
    let mut buf = [0; 3];
    assert_eq!(rt; source.read(&mut buf), Ok(2));
    assert_eq!(rt; buf, [b'a', b'b', 0]);
    assert_eq!(rt; source.read(&mut buf), Ok(0));
    let mut octets = [0; 2];
    let mut sink = Writing::new(octets.as_mut_slice());
    assert_eq!(rt; sink.write(b"abc"), Ok(2));
    assert_eq!(rt; sink.write(b"c"), Err(Failed));
    assert_eq!(rt; sink.faults(), 1);
    Ok(())
}

// A line gives the octets of its reader, and then its end.
#[test]
fn a_line_in_memory(rt: HostRuntime) -> Result<(), Fail> {
    let octets: &[u8] = b"abc";
    let mut line = TcpLine::new(octets);
    let mut buf = [0; 2];
    assert_eq!(rt; line.recv(&mut buf), Ok(Got::Bytes(2)));
    assert_eq!(rt; line.recv(&mut buf), Ok(Got::Bytes(1)));
    assert_eq!(rt; line.recv(&mut buf), Ok(Got::End));
    assert_eq!(rt; line.faults(), 0);
    Ok(())
}

fn has_failed<T: Drop>(made: Result<T, OpenFault>) -> bool {
    matches!(made, Err(OpenFault::Failed))
}

// Words that name nothing to be reached.
fn reaches_nothing<O: Outside>(outside: &mut O) -> [bool; 4]
where
    O::In: Drop,
    O::Doors: Drop,
{
    [
        has_failed(outside.open("/no/such/file")),
        has_failed(outside.doors("127.0.0.1")),
        has_failed(outside.dial("127.0.0.1:0")),
        has_failed(outside.datagrams("nowhere")),
    ]
}

#[test]
fn nothing_is_reached(rt: HostRuntime) -> Result<(), Fail> {
    let mut system = System::new(rt, rt, rt.alloc());
    if reaches_nothing(&mut system) == [true; 4] {
        return Ok(());
    }
    Err(Fail::new(format_args!("something was reached")))
}

// Whether the clock goes on while a call waits.
fn goes_on<C: Clock>(clock: &mut C) -> bool {
    let begin = clock.now();
    begin < clock.tick()
}

// Whether no datagram comes to a free port of the loopback.
fn is_quiet<O: Outside>(outside: &mut O) -> bool {
    let Ok(mut links) = outside.datagrams("127.0.0.1:0") else {
        return false;
    };
    let got = links.recv(&mut [0; 4]);
    outside.back_links(links);
    got == Ok(Got::Quiet)
}

#[test]
fn a_quiet_link(rt: HostRuntime) -> Result<(), Fail> {
    let mut system = System::new(rt, rt, rt.alloc());
    let is_quiet = is_quiet(&mut system);
    let mut clock = system.clock();
    let goes_on = goes_on(&mut clock);
    system.back_clock(clock);
    if is_quiet && goes_on {
        return Ok(());
    }
    Err(Fail::new(format_args!("{is_quiet} {goes_on}")))
}

// Fails where a link is made at this address.
fn is_refused<O: Outside>(outside: &mut O, address: &str) -> Result<(), Fail> {
    if has_failed(outside.datagrams(address)) {
        return Ok(());
    }
    Err(Fail::new(format_args!("{address} was reached")))
}

// Addresses of links of which one can't be reached: no text of one, no port, no number as one, an end of the other family, and
// one beyond the loopback from it.
const UNREACHED: &[&str] = &[
    "nowhere,127.0.0.1:9",
    "127.0.0.1:0,",
    "127.0.0.1:0,nowhere",
    "127.0.0.1:0,127.0.0.1:0",
    "127.0.0.1:0,127.0.0.1:9,",
    "127.0.0.1:0,[::1]:9",
    "127.0.0.1:0,192.0.2.1:9",
];

#[test]
fn no_link_with_a_wrong_address(rt: HostRuntime) -> Result<(), Fail> {
    let mut system = System::new(rt, rt, rt.alloc());
    'rows: for address in UNREACHED {
        is_refused(&mut system, address)?;
    }
    Ok(())
}

// The address of a link that sends to a socket.
fn address_of(alloc: Global, receiver: &UdpSocket) -> Result<String, Fail> {
    let peer = receiver.local_addr()?;
    Ok(format!(in alloc; "127.0.0.1:0,{peer}")?)
}

// Whether a datagram that a link sends comes to a socket.
fn comes<O: Outside>(outside: &mut O, address: &str, receiver: &UdpSocket, piece: &[u8]) -> bool {
    let Ok(mut links) = outside.datagrams(address) else {
        return false;
    };
    let sent = links.send(piece);
    outside.back_links(links);
    let mut buf = [0; 4];
    match receiver.recv(&mut buf) {
        Ok(count) => sent == Ok(()) && &buf[..count] == piece,
        Err(_) => false,
    }
}

#[test]
fn datagrams_come_to_the_second_address(rt: HostRuntime) -> Result<(), Fail> {
    let receiver = UdpSocket::bind(&rt, "127.0.0.1:0")?;
    receiver.set_read_timeout(Some(Duration::from_millis(5000)))?;
    let address = address_of(rt.alloc(), &receiver)?;
    let mut system = System::new(rt, rt, rt.alloc());
    let some = comes(&mut system, &address, &receiver, b"abc");
    let none = comes(&mut system, &address, &receiver, b"");
    if some && none {
        return Ok(());
    }
    Err(Fail::new(format_args!("{some} {none}")))
}

// Whether a link is as it was behind a datagram that it sends.
fn goes_on_behind<O: Outside>(outside: &mut O, address: &str, piece: &[u8]) -> bool {
    let Ok(mut links) = outside.datagrams(address) else {
        return false;
    };
    let sent = links.send(piece);
    let got = links.recv(&mut [0; 4]);
    outside.back_links(links);
    sent == Ok(()) && got == Ok(Got::Quiet)
}

// The address of a link that sends to a socket that is closed.
fn closed_address<N: Net>(net: &N, alloc: Global) -> Result<String, Fail> {
    let receiver = UdpSocket::bind(net, "127.0.0.1:0")?;
    address_of(alloc, &receiver)
}

#[test]
fn what_is_not_taken_breaks_no_link(rt: HostRuntime) -> Result<(), Fail> {
    let address = closed_address(&rt, rt.alloc())?;
    let long = vec![in rt.alloc(); 0; 70_000]?;
    let mut system = System::new(rt, rt, rt.alloc());
    let nowhere = goes_on_behind(&mut system, "127.0.0.1:0", b"abc");
    let closed = goes_on_behind(&mut system, &address, b"abc");
    let too_long = goes_on_behind(&mut system, &address, &long);
    if nowhere && closed && too_long {
        return Ok(());
    }
    Err(Fail::new(format_args!("{nowhere} {closed} {too_long}")))
}
