//! What `pushctl browse` is asked for.

use dnsname::Name;

/// How lines are written.
#[derive(Clone, Copy)]
pub enum Style {
    /// For people; a list of texts that is longer is cut, unless it is to be whole.
    People(bool),
    /// Fields between tabs.
    Fields,
    /// An object of JSON in each line.
    Json,
}

/// What is browsed for, and how.
#[derive(Drop)]
pub struct Request<'a> {
    /// The server's address, with its port.
    pub server: &'a str,
    /// The services' name in their domain (RFC 6763, 4).
    pub domain: Name,
    /// How lines are written.
    pub style: Style,
    /// The list is written once, and that is all.
    pub once: bool,
    /// For so many milliseconds nothing must change before it is.
    pub quiet: u64,
    /// And it takes no longer than so many milliseconds.
    pub within: u64,
}
