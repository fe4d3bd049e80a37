//! What a server is given, and what it gives back.

use crate::ServeEnd;
use hubasking::Hub;
use hublock::{Books, Ended, Feed};

/// The datagrams that a link is fed with, and the link's number.
#[derive(Drop)]
pub struct Fed<G> {
    pub link: usize,
    pub datagrams: G,
}

/// What a server is given: a hub, the links that are fed, a clock, how many sessions it is to serve, and the turns of each
/// job.
#[derive(Drop)]
pub struct Setup<G, T> {
    pub hub: Hub,
    pub links: Vec<Fed<G>>,
    pub clock: T,
    pub sessions: u64,
    pub turns: u64,
}

/// How a server ended, the datagrams that no job holds which couldn't be started, how the loop of each job ended, the links'
/// first, then those of the jobs that were over while others were started, and then the others', and a feed into which those
/// of all jobs were joined. There is none where memory ran out before there was one.
#[derive(Drop)]
pub struct Served<G, B: Books> {
    pub end: ServeEnd,
    pub links: Vec<Fed<G>>,
    pub ends: Vec<Ended>,
    pub feed: Option<Feed<B>>,
}
