//! What is logged of a server as a whole.

use configurations::{FedLink, ServeConfiguration};
use log::{Level, Log, info, log};
use serving::ServeEnd;

/// The links that a server is to hear.
pub(crate) fn tell_links<R: Log>(rt: &R, configuration: &ServeConfiguration) {
    'feeds: for feed in &configuration.feeds {
        tell_link(rt, feed, configuration.links.get(feed.link));
    }
}

// One of them, and its word.
fn tell_link<R: Log>(rt: &R, feed: &FedLink, word: Option<&String>) {
    if let Some(word) = word {
        info!(rt; "link {} is {word}, heard at {}", feed.link, feed.address);
    }
}

/// That a server listens.
pub(crate) fn tell_listening<R: Log>(rt: &R, address: &String) {
    info!(rt; "listening on {address}");
}

/// How a server ended.
pub(crate) fn tell_server_end<R: Log>(rt: &R, end: ServeEnd) {
    let words = words_of(end);
    log!(rt; level_of(end), "{words}");
}

// A server that serves no more is an error.
fn level_of(end: ServeEnd) -> Level {
    match end {
        ServeEnd::Served(_) => Level::Info,
        ServeEnd::OutsideFault | ServeEnd::NoMemory => Level::Error,
    }
}

// A server's end in words.
fn words_of(end: ServeEnd) -> &'static str {
    match end {
        ServeEnd::Served(_) => "all sessions are over",
        ServeEnd::OutsideFault => "the server ends for a fault of the system",
        ServeEnd::NoMemory => "the server ends for want of memory",
    }
}
