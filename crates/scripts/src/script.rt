//! Scripts, read line by line.

ghost use Rattle.std.specs.Prelude.{◌≡◌, ◌==◌, List, length, ◌++◌, ◌∷◌, [], IfOk, OnOk, map, position, string_bytes, unwrap_or};
ghost use Rattle.std.specs.Str.{bytes_eq};
ghost use Rattle.dsosession.specs.Timing.{default_timers};
ghost use Rattle.scripts.specs.Lines.{Word};
ghost use Rattle.scripts.specs.declared.line.HeadLine.TheVariants as heads;
ghost use Rattle.scripts.specs.declared.line.Line.TheVariants as lines;
ghost use Rattle.scripts.specs.Scripts.{is_client_in, is_hub_client_in};
ghost use Rattle.scripts.specs.KeptLines.{words_of};
ghost use Rattle.scripts.specs.Drafts.{TakesLine, taken_of, nothing_taken};

use crate::all_words::Words;
use crate::client_list::Clients;
use crate::clients::{KnownClient, is_hub_client, is_known, place_among};
use crate::event::{Event, event_of};
use crate::head_homes::HeadHomes;
use crate::line::{EventLine, HeadLine, Line};
use dsosession::session::Timers;
use dsosession::times::DEFAULT_TIMER;
use history::Homes;
use push_base::NoMemory;
use std::alloc::Global;

/// A script: the timers of the server, its zones and links, and then what happens.
#[derive(Debug, Drop)]
pub struct Script {
    /// How many lines it has, those that say nothing too.
    pub lines: usize,
    /// What the server grants to a Keepalive (RFC 8490, 7.1).
    pub timers: Timers,
    /// The zones and the links.
    pub homes: Homes,
    /// The words of the links, in their order.
    pub links: Vec<String>,
    /// The clients, in the order of their lines.
    pub clients: Vec<KnownClient>,
    /// What happens, in order.
    pub events: Vec<Event>,
}

/// What was read of a script so far, with the clients that there are; no timers where no line has said them.
#[derive(Drop)]
pub struct Draft {
    timers: Option<Timers>,
    homes: HeadHomes,
    events: Vec<Event>,
    clients: Clients,
}

impl Draft {
    /// No line so far.
    pub fn new(alloc: Global) -> Self
        ensures { taken_of result ≡ nothing_taken }
    {
        Draft {
            timers: None,
            homes: HeadHomes::new(alloc),
            events: Vec::new(alloc),
            clients: Clients::new(alloc),
        }
    }

    /// Takes a further line, where it may stand behind those before it, in a script that has clients of these words.
    pub fn take(&mut self, alloc: Global, line: Line, clients: &[String]) -> Result<bool, NoMemory>
        ensures { IfOk result (λ taken. TakesLine (map (λ w. string_bytes w) clients.now) self.old line self.new taken) }
    {
        let clients = Words::copied(alloc, clients)?;
        self.take_among(alloc, line, &clients)
    }

    /// Takes a further line, where it may stand behind those before it, in a script that has clients of these words.
    pub(crate) fn take_among(
        &mut self,
        alloc: Global,
        line: Line,
        clients: &Words,
    ) -> Result<bool, NoMemory>
        ensures { IfOk result (λ taken. TakesLine clients.now self.old line self.new taken) }
    {
        match line {
            Line::Silent => Ok(true),
            Line::Head(line) => self.take_head(alloc, line),
            Line::Joining { word, is_lone } => self.take_client(word, is_lone),
            Line::Event(line) => self.take_event(line, clients),
        }
    }

    // Takes a further line of the head: before all events, and where it may stand beside those before it.
    fn take_head(&mut self, alloc: Global, line: HeadLine) -> Result<bool, NoMemory>
        ensures { (all : List Word) → IfOk result (λ taken. TakesLine all self.old (lines.Head line) self.new taken) }
    {
        if !self.is_in_head() {
            return Ok(false);
        }
        match line {
            HeadLine::Timers(timers) => Ok(self.take_timers(timers)),
            HeadLine::Zone(zone) => self.homes.take_zone(alloc, zone),
            HeadLine::Link(link) => self.homes.take_link(link),
            HeadLine::Reverse(reverse) => self.homes.take_reverse(reverse),
        }
    }

    // Takes the timers, once.
    fn take_timers(&mut self, timers: Timers) -> bool
        requires { length self.old.events.items ≡ 0 }
        ensures { (all : List Word) → TakesLine all self.old (lines.Head (heads.Timers timers)) self.new result }
    {
        if self.timers.is_some() {
            return false;
        }
        self.timers = Some(timers);
        true
    }

    // Whether no event came before.
    fn is_in_head(&self) -> bool
        ensures { result ≡ (length self.now.events.items == 0) }
    {
        self.events.is_empty()
    }

    // Takes a further client, if none has its word.
    fn take_client(&mut self, word: String, is_lone: bool) -> Result<bool, NoMemory>
        ensures { (all : List Word) → IfOk result (λ taken. TakesLine all self.old (lines.Joining word is_lone) self.new taken) }
    {
        if is_known(&self.clients, word.as_bytes()) {
            return Ok(false);
        }
        let client = self.clients.len();
        self.clients.add(KnownClient { word, is_lone })?;
        self.events.push(Event::Joining { client })?;
        Ok(true)
    }

    // Takes a further event, if its word, where it has one, may stand there.
    fn take_event(&mut self, line: EventLine, clients: &Words) -> Result<bool, NoMemory>
        ensures { IfOk result (λ taken. TakesLine clients.now self.old (lines.Event line) self.new taken) }
    {
        match event_of(clients, self.homes.words(), &self.clients, line) {
            None => Ok(false),
            Some(event) => {
                self.events.push(event)?;
                Ok(true)
            }
        }
    }

    /// Whether a word is that of a client that there is.
    pub(crate) fn has_client(&self, word: &[u8]) -> bool
        ensures { result ≡ is_client_in (taken_of self.now).clients word.now }
    {
        is_known(&self.clients, word)
    }

    /// Whether a word is that of a client of the hub.
    pub(crate) fn has_hub_client(&self, word: &[u8]) -> bool
        ensures { result ≡ is_hub_client_in (taken_of self.now).clients word.now }
    {
        is_hub_client(&self.clients, word)
    }

    /// The number of the link of a word, counted from 0.
    pub fn link_of(&self, word: &[u8]) -> Option<usize>
        ensures { result ≡ position (bytes_eq word.now) (taken_of self.now).links }
    {
        place_among(self.homes.words(), word)
    }

    /// The script whose lines, so many, were all taken.
    pub fn finish(self, lines: usize) -> Script
        ensures lines { result.lines ≡ lines }
        ensures timers { result.timers ≡ unwrap_or self.timers default_timers }
        ensures homes { result.homes ≡ self.homes.homes }
        ensures links { words_of result.links.items ≡ self.homes.words }
        ensures clients { result.clients.items ≡ self.clients }
        ensures events { result.events.items ≡ self.events.items }
    {
        let Draft {
            timers,
            homes,
            events,
            clients,
        } = self;
        let (homes, links) = homes.into_parts();
        Script {
            lines,
            timers: timers_or_default(timers),
            homes,
            links,
            clients: clients.into_list(),
            events,
        }
    }
}

fn timers_or_default(timers: Option<Timers>) -> Timers
    ensures { result ≡ unwrap_or timers default_timers }
{
    match timers {
        Some(timers) => timers,
        None => Timers {
            inactivity: DEFAULT_TIMER,
            keepalive: DEFAULT_TIMER,
        },
    }
}
