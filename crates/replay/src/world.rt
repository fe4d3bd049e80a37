//! What a run keeps: a hub, the words of its links, peers with their sessions, and clients.

ghost use Rattle.std.specs.Prelude.{◌≡◌, ◌≤◌, [], length, IfOk, OnOk};
ghost use Rattle.history.specs.Kept.{state_of};
ghost use Rattle.history.specs.Plans.{IsStart};
ghost use Rattle.replay.specs.World.{World as Plain, world_of, cut_peer, number_in, session_number, without};
ghost use Rattle.hubasking.specs.LinkAskings.{new_askings};
ghost use Rattle.replay.specs.LineCalls.{end_calls};
ghost use Rattle.replay.specs.KeptAskings.{AsksAfter};
ghost use Rattle.replay.specs.KeptWorlds.{IsWorld, named};
ghost use Rattle.scripts.specs.KeptLines.{words_of};

use crate::seats::Seat;
use dsosession::session::Timers;
use history::Homes;
use hubasking::Hub;
use push_base::NoMemory;
use std::alloc::Global;

/// A peer that sends octets as they are: its word, and the number of its session.
#[derive(Drop)]
pub struct Peer {
    /// Its word in the script.
    pub word: String,
    /// The number of its session in the hub.
    pub session: u64,
}

/// The hub, the words of its links, the peers that have a session, and the clients.
#[derive(Drop)]
pub struct World {
    /// The history and the sessions.
    pub hub: Hub,
    /// The words of the links, in their order.
    pub links: Vec<String>,
    /// The peers, in the order in which they were connected.
    pub peers: Vec<Peer>,
    /// The clients, in the order of their lines.
    pub seats: Vec<Seat>,
    /// Room for octets that are handed out, kept from line to line.
    pub buffer: Vec<u8>,
}

/// There is room for so many octets.
pub(crate) fn make_room(buffer: &mut Vec<u8>, size: usize) -> Result<(), NoMemory>
    ensures { OnOk result (size ≤ length buffer.new.items) }
{
    if buffer.len() < size {
        buffer.resize(size, 0)?;
    }
    Ok(())
}

// The number of the session of a word.
fn session_of(peers: &[Peer], word: &str) -> Option<u64>
    ensures { result ≡ number_in (named peers.now) word.now }
{
    'peers: for peer in peers {
        if peer.word.as_str() == word {
            return Some(peer.session);
        }
    }
    None
}

// Takes out the peers with that word.
fn take_out(peers: &mut Vec<Peer>, word: &str)
    ensures { named peers.new.items ≡ without word.now (named peers.old.items) }
{
    peers.retain(|peer| peer.word.as_str() != word);
}

impl World {
    /// The world with which a script starts: these homes and timers, links of these words, no peers and no clients.
    pub fn new(
        alloc: Global,
        homes: Homes,
        links: Vec<String>,
        timers: Timers,
    ) -> Result<World, NoMemory>
        requires { IsStart (state_of homes) }
        ensures { IfOk result (λ kept. IsWorld kept (world_of (record { timers = timers; start = state_of homes; links = words_of links.items })) × (kept.hub.askings ≡ new_askings (state_of homes))) }
    {
        Ok(World {
            hub: Hub::new(homes, timers)?,
            links,
            peers: Vec::new(alloc),
            seats: Vec::new(alloc),
            buffer: Vec::new(alloc),
        })
    }

    /// The number of the session of a peer.
    pub fn session(&self, word: &str) -> Option<u64>
        ensures { result ≡ number_in (named self.now.peers.items) word.now }
    {
        session_of(&self.peers, word)
    }

    /// The connection of a peer is cut: its session goes, and its word has none any more.
    pub fn cut(&mut self, word: &str)
        ensures { (world : Plain) → IsWorld self.old world → IsWorld self.new (cut_peer word.now world) × AsksAfter (end_calls (session_number world word.now)) world.hub self.old.hub.askings self.new.hub.askings }
    {
        if let Some(session) = self.session(word) {
            self.hub.end(session);
        }
        take_out(&mut self.peers, word);
    }
}
