//! A UDP socket as the datagrams of a link.

ghost use Rattle.std.specs.Prelude.{◌≡◌, None, IfOk};

use crate::OpenFault;
use crate::log_lines::{fault_at, warn_of_strangers};
use crate::tcp::has_code;
use crate::tcp_line::is_quiet;
use log::Log;
use push_base::{Datagrams, Failed, Got};
use std::io::{self, Error, ErrorKind};
use std::net::{Net, SocketAddr, ToSocketAddrs, UdpSocket};
use std::time::Duration;

/// How long a call waits for a datagram, or for room for one, in milliseconds.
const DATAGRAM_WAIT: u64 = 100;

/// The errors of `send` that speak of the socket, and not of the datagram or of its way: no descriptor, a broken pipe, no
/// socket, an operation that isn't supported, an end that is shut down (Linux, send(2) and errno(3)).
const OF_SOCKET: [i32; 5] = [9, 32, 88, 95, 108];

/// A UDP socket as the datagrams of a link. It tells no octets and counts its faults. What it sends goes to one address,
/// or nowhere. A datagram that the system doesn't take, as one that is too long or for want of buffers, is lost as one
/// that is lost on its way: that is no fault.
#[derive(Drop)]
pub struct UdpLinks {
    socket: UdpSocket,
    // Where it sends to, if anywhere.
    peer: Option<SocketAddr>,
    faults: u64,
}

/// A socket at an address, on which no call waits for ever.
fn socket_at<R: Net>(net: &R, address: &str) -> io::Result<UdpSocket> {
    let socket = UdpSocket::bind(net, address)?;
    let wait = Some(Duration::from_millis(DATAGRAM_WAIT));
    socket.set_read_timeout(wait)?;
    socket.set_write_timeout(wait)?;
    Ok(socket)
}

/// Whether a socket at its own address can send to a peer. One at a loopback address reaches such addresses alone.
fn reaches(own: &SocketAddr, peer: &SocketAddr) -> bool {
    own.is_ipv4() == peer.is_ipv4()
        && peer.port() != 0
        && (peer.ip().is_loopback() || !own.ip().is_loopback())
}

/// The first address of these words to which a socket can send.
fn peer_at<N: Net>(net: &N, socket: &UdpSocket, address: &str) -> io::Result<SocketAddr> {
    let own = socket.local_addr()?;
    for peer in address.to_socket_addrs(net)? {
        if reaches(&own, &peer) {
            return Ok(peer);
        }
    }
    Err(Error::from(ErrorKind::AddrNotAvailable))
}

/// A socket at an address, and where it sends to, if anywhere.
fn ends_at<N: Net, R: Log>(
    net: &N,
    rt: &R,
    address: &str,
    peer: Option<&str>,
) -> Result<(UdpSocket, Option<SocketAddr>), OpenFault> {
    let socket = match socket_at(net, address) {
        Ok(socket) => socket,
        Err(error) => return Err(fault_at(rt, "hear at", address, &error)),
    };
    warn_of_strangers(rt, address, &socket);
    let Some(words) = peer else {
        return Ok((socket, None));
    };
    match peer_at(net, &socket, words) {
        Ok(peer) => Ok((socket, Some(peer))),
        Err(error) => Err(fault_at(rt, "send to", words, &error)),
    }
}

/// Whether a socket is of no use any more behind an error of `send`.
fn is_spent(error: &Error) -> bool {
    has_code(error, &OF_SOCKET)
}

impl UdpLinks {
    /// The datagrams that come to an address, without faults so far. Behind a comma a second address may stand, to which
    /// datagrams are sent; without it none are.
    pub fn bind<N: Net, R: Log>(net: &N, rt: &R, addresses: &str) -> Result<Self, OpenFault>
        ensures { IfOk result (λ links. links.faults ≡ 0) }
    {
        let (address, peer) = match addresses.split_once(',') {
            Some((address, peer)) => (address, Some(peer)),
            None => (addresses, None),
        };
        let (socket, peer) = ends_at(net, rt, address, peer)?;
        Ok(UdpLinks {
            socket,
            peer,
            faults: 0,
        })
    }

    /// How often it has failed.
    pub fn faults(&self) -> u64
        ensures { result ≡ self.now.faults }
    {
        self.faults
    }
}

impl Datagrams for UdpLinks {
    ghost given = { λ _. None };

    ghost left = { λ _. None };

    ghost sent = { λ _. None };

    ghost calls = { λ _. None };

    ghost faults = { λ s. s.faults };

    fn recv(&mut self, buf: &mut [u8]) -> Result<Got, Failed> {
        match self.socket.recv(buf) {
            Ok(count) => Ok(Got::Bytes(count)),
            Err(error) if is_quiet(error.kind()) => Ok(Got::Quiet),
            Err(_) => {
                self.faults = self.faults.saturating_add(1);
                Err(Failed)
            }
        }
    }

    fn send(&mut self, piece: &[u8]) -> Result<(), Failed> {
        let Some(peer) = self.peer else {
            return Ok(());
        };
        match self.socket.send_to(piece, peer) {
            Err(error) if is_spent(&error) => {
                self.faults = self.faults.saturating_add(1);
                Err(Failed)
            }
            Ok(_) | Err(_) => Ok(()),
        }
    }
}
