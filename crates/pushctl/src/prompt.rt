//! A network that waits for no peer longer than a few seconds.

use std::io;
use std::net::{Net, SocketAddr, UdpSocket};
use std::time::Duration;

/// How long an attempt to connect to an address waits, in milliseconds.
const DIAL_WAIT: u64 = 5_000;

/// A network of which each attempt to connect to an address ends in time.
#[derive(Drop)]
pub(crate) struct Prompt<N> {
    net: N,
}

impl<N> Prompt<N> {
    /// The same network, but for the attempts to connect.
    pub(crate) fn new(net: N) -> Self {
        Prompt { net }
    }
}

impl<N: Net> Net for Prompt<N> {
    type Stream = N::Stream;

    type Listener = N::Listener;

    fn bind(&self, addr: SocketAddr) -> io::Result<N::Listener> {
        self.net.bind(addr)
    }

    fn connect(&self, addr: SocketAddr) -> io::Result<N::Stream> {
        self.net
            .connect_timeout(addr, Duration::from_millis(DIAL_WAIT))
    }

    fn connect_timeout(&self, addr: SocketAddr, timeout: Duration) -> io::Result<N::Stream> {
        self.net.connect_timeout(addr, timeout)
    }

    fn bind_udp(&self, addr: SocketAddr) -> io::Result<UdpSocket> {
        self.net.bind_udp(addr)
    }

    fn lookup_host(&self, host: &str, port: u16, found: &mut [SocketAddr]) -> io::Result<usize> {
        self.net.lookup_host(host, port, found)
    }
}
