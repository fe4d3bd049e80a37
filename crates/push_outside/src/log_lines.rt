//! What is logged of addresses and of files.

use crate::OpenFault;
use crate::system::fault_of;
use log::{Log, error, info, warn};
use std::io::Error;
use std::net::{SocketAddr, UdpSocket};

/// Why something that words name couldn't be reached, of which the system's cause is logged.
pub(crate) fn fault_at<R: Log>(rt: &R, attempt: &str, words: &str, cause: &Error) -> OpenFault {
    error!(rt; "cannot {attempt} {words}: {cause}");
    fault_of(cause.kind())
}

/// Where a connection comes from.
pub(crate) fn tell_peer<R: Log>(rt: &R, peer: &SocketAddr) {
    info!(rt; "a connection from {peer}");
}

/// That no connection is accepted any more.
pub(crate) fn tell_deaf<R: Log>(rt: &R, cause: &Error) {
    error!(rt; "cannot accept connections any more: {cause}");
}

/// A warning where other machines may reach the socket of a link.
pub(crate) fn warn_of_strangers<R: Log>(rt: &R, address: &str, socket: &UdpSocket) {
    if let Ok(bound) = socket.local_addr() {
        if !bound.ip().is_loopback() {
            warn!(rt; "{address} is no loopback address: whoever reaches it speaks for the link");
        }
    }
}
