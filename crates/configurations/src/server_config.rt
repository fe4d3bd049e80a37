//! The configuration of a server.

ghost use Rattle.std.specs.Prelude.{◌≡◌, [], IfOk, OnOk, string_bytes, ◌++◌, ◌∷◌};
ghost use Rattle.scripts.specs.Lines.{words_in};
ghost use Rattle.scripts.specs.Scripts.{is_head};
ghost use Rattle.scripts.specs.KeptLines.{said};
ghost use Rattle.scripts.specs.TextLines.{Takes};
ghost use Rattle.configurations.specs.Configurations.{ServingDraft, feed_line, head_line, is_fed, listen_line, no_serving, serving_behind, serving_kind, serving_line};
ghost use Rattle.configurations.specs.Kept.{EndsServing, ReadsServing, fed_links, is_any_fed, serving_drafted};

use crate::limits::{MAX_ACCEPTED, MAX_TURNS};
use crate::words::{address_of_word, take_number};
use dsosession::session::Timers;
use history::Homes;
use push_base::NoMemory;
use scripts::{
    Draft, Line, Script, TakeLines, TakenLines, one_word, read_line, split_word, take_lines,
    two_words,
};
use std::alloc::Global;

/// What a server is told to do.
#[derive(Debug, Drop)]
pub struct ServeConfiguration {
    /// What it grants to a Keepalive (RFC 8490, 7.1).
    pub timers: Timers,
    /// The zones and the links.
    pub homes: Homes,
    /// The words of the links, in their order.
    pub links: Vec<String>,
    /// The address where it listens, as it is written.
    pub listen: String,
    /// How many sessions it accepts.
    pub sessions: u64,
    /// The datagram sockets of its links, at most one for each.
    pub feeds: Vec<FedLink>,
    /// The turns of each loop.
    pub turns: u64,
}

/// The datagram socket of a link.
#[derive(Debug, Drop)]
pub struct FedLink {
    /// The link's number, counted from 0 in the order of the lines.
    pub link: usize,
    /// The socket's address, as it is written.
    pub address: String,
}

/// What was read of a configuration: all of it, or the number of the first line outside.
#[derive(Debug, Drop)]
pub enum ReadServe {
    /// Each line is in the grammar and stands where it may, and none is missing.
    Whole(ServeConfiguration),
    /// The first line that is outside, counted from 1; where a line is missing, the one behind the last.
    Outside(usize),
}

/// The kinds of lines of a server, by their first words; any other line is one of a head, or outside.
#[derive(Clone, Copy)]
enum ServingKind {
    Listen,
    Sessions,
    Feed,
    Turns,
    Head,
}

// What was read so far.
#[derive(Drop)]
struct ServeDraft {
    head: Draft,
    listen: Option<String>,
    sessions: Option<u64>,
    feeds: Vec<FedLink>,
    turns: Option<u64>,
}

/// Reads the configuration of a server: all of it, or the number of the first line outside, counted from 1. Where a line is
/// missing, that is the one behind the last. A hub can begin with the homes and timers.
pub fn read_serve(alloc: Global, octets: &[u8]) -> Result<ReadServe, NoMemory>
    ensures { IfOk result (λ read. ReadsServing octets.now read) }
{
    let mut draft = ServeDraft::new(alloc);
    let taken = take_lines(alloc, octets, &mut draft)?;
    match taken {
        TakenLines::All(behind) => Ok(draft.finish(behind)),
        TakenLines::Outside(number) => Ok(ReadServe::Outside(number)),
    }
}

impl TakeLines for ServeDraft {
    ghost Made = { ServingDraft };

    ghost Holds = { λ draft made. made ≡ serving_drafted draft };

    ghost line = { serving_line };

    fn take(&mut self, alloc: Global, text: &[u8]) -> Result<bool, NoMemory> {
        self.take_text(alloc, text)
    }
}

impl ServeDraft {
    // No line so far.
    fn new(alloc: Global) -> Self
        ensures { serving_drafted result ≡ no_serving }
    {
        ServeDraft {
            head: Draft::new(alloc),
            listen: None,
            sessions: None,
            feeds: Vec::new(alloc),
            turns: None,
        }
    }

    // Takes a further line.
    fn take_text(&mut self, alloc: Global, text: &[u8]) -> Result<bool, NoMemory>
        ensures { IfOk result (λ taken. Takes (serving_line (serving_drafted self.old) text.now) (serving_drafted self.new) taken) }
    {
        match split_word(text) {
            Some((word, rest)) => self.take_words(alloc, kind_of(word), text, rest),
            None => match kind_of(text) {
                ServingKind::Head => self.take_head(alloc, text),
                ServingKind::Listen | ServingKind::Sessions => Ok(false),
                ServingKind::Feed | ServingKind::Turns => Ok(false),
            },
        }
    }

    // Takes a line of this kind, with those words behind its first.
    fn take_words(
        &mut self,
        alloc: Global,
        kind: ServingKind,
        text: &[u8],
        rest: &[u8],
    ) -> Result<bool, NoMemory>
        ensures { IfOk result (λ taken. Takes (serving_behind kind (serving_drafted self.old) text.now (words_in rest.now)) (serving_drafted self.new) taken) }
    {
        match kind {
            ServingKind::Listen => self.take_listen(alloc, rest),
            ServingKind::Sessions => Ok(take_number(&mut self.sessions, 1, MAX_ACCEPTED, rest)),
            ServingKind::Feed => self.take_feed(alloc, rest),
            ServingKind::Turns => Ok(take_number(&mut self.turns, 0, MAX_TURNS, rest)),
            ServingKind::Head => self.take_head(alloc, text),
        }
    }

    // Takes a further line of the head.
    fn take_head(&mut self, alloc: Global, text: &[u8]) -> Result<bool, NoMemory>
        ensures { IfOk result (λ taken. Takes (head_line (serving_drafted self.old) text.now) (serving_drafted self.new) taken) }
    {
        let Some(line) = read_line(alloc, text)? else {
            return Ok(false);
        };
        if !is_head(&line) {
            return Ok(false);
        }
        self.head.take(alloc, line, &[])
    }

    // Takes the address where the server listens, once.
    fn take_listen(&mut self, alloc: Global, words: &[u8]) -> Result<bool, NoMemory>
        ensures { IfOk result (λ taken. Takes (listen_line (serving_drafted self.old) (words_in words.now)) (serving_drafted self.new) taken) }
    {
        let Some(word) = one_word(words) else {
            return Ok(false);
        };
        let Some(address) = address_of_word(alloc, word)? else {
            return Ok(false);
        };
        if self.listen.is_some() {
            return Ok(false);
        }
        self.listen = Some(address);
        Ok(true)
    }

    // Takes the datagram socket of a link that was named before and has none yet.
    fn take_feed(&mut self, alloc: Global, words: &[u8]) -> Result<bool, NoMemory>
        ensures { IfOk result (λ taken. Takes (feed_line (serving_drafted self.old) (words_in words.now)) (serving_drafted self.new) taken) }
    {
        let Some((word, address)) = two_words(words) else {
            return Ok(false);
        };
        let Some(link) = self.head.link_of(word) else {
            return Ok(false);
        };
        let Some(address) = address_of_word(alloc, address)? else {
            return Ok(false);
        };
        if is_fed(&self.feeds, link) {
            return Ok(false);
        }
        add_feed(&mut self.feeds, link, address)?;
        Ok(true)
    }

    // The configuration whose lines were all taken, unless one is missing behind the last.
    fn finish(self, number: usize) -> ReadServe
        ensures { EndsServing (serving_drafted self) number result }
    {
        let ServeDraft {
            head,
            listen,
            sessions,
            feeds,
            turns,
        } = self;
        let Some(listen) = listen else {
            return ReadServe::Outside(number);
        };
        let Some(sessions) = sessions else {
            return ReadServe::Outside(number);
        };
        let Script {
            timers,
            homes,
            links,
            ..
        } = head.finish(number);
        ReadServe::Whole(ServeConfiguration {
            timers,
            homes,
            links,
            listen,
            sessions,
            feeds,
            turns: turns.unwrap_or(MAX_TURNS),
        })
    }
}

// Whether a line may stand in a head.
fn is_head(line: &Line) -> bool
    ensures { result ≡ is_head (said line.now) }
{
    match line {
        Line::Silent | Line::Head(_) => true,
        Line::Joining { .. } | Line::Event(_) => false,
    }
}

// Whether one of those sockets is of this link.
#[tactic(auto, using(crate::proofs::Feeds::any_fed))]
fn is_fed(feeds: &[FedLink], link: usize) -> bool
    ensures { result ≡ is_fed (fed_links feeds.now) link }
{
    is_any_fed(feeds, link)
}

fn is_any_fed(feeds: &[FedLink], link: usize) -> bool
    ensures { result ≡ is_any_fed link feeds.now }
{
    feeds.iter().any(|fed| link == fed.link)
}

// One socket more.
fn add_feed(feeds: &mut Vec<FedLink>, link: usize, address: String) -> Result<(), NoMemory>
    ensures { OnOk result (fed_links feeds.new.items ≡ fed_links feeds.old.items ++ (link, string_bytes address) ∷ []) }
{
    feeds.push(FedLink { link, address })?;
    Ok(())
}

// The kind of a line by its first word.
fn kind_of(word: &[u8]) -> ServingKind
    ensures { result ≡ serving_kind word.now }
{
    if word == b"listen".as_slice() {
        ServingKind::Listen
    } else if word == b"sessions".as_slice() {
        ServingKind::Sessions
    } else if word == b"feed".as_slice() {
        ServingKind::Feed
    } else if word == b"turns".as_slice() {
        ServingKind::Turns
    } else {
        ServingKind::Head
    }
}
