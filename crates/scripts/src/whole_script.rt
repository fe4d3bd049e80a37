//! Scripts that may have a second hub: to each hub such a script is one of one hub, and each line goes to the hub, or
//! to both, that it concerns.

ghost use Rattle.std.specs.Prelude.{◌≡◌, ◌==◌, ◌&&◌, ◌∷◌, [], true, false, not, length, None, is_some, IfOk, IfSome, IfNone, option_to_list, string_bytes, if◌then◌else◌};
ghost use Rattle.scripts.specs.Lines.{head_line, show};
ghost use Rattle.scripts.specs.Scripts.{is_client_in, is_hub_client_in, is_head};
ghost use Rattle.scripts.specs.Carrying.{alone_in};
ghost use Rattle.scripts.specs.Drafts.{taken_of};
ghost use Rattle.scripts.specs.KeptLines.{head_said, happening_said, said};
ghost use Rattle.scripts.specs.KeptWhole.{HoldsWhole, IsOf, ReadsWhole, TakesFit, TakesHalves, TakesWhole, far_zone_line, known_kept, may_follow_kept, whole_said, with_apex};
ghost use Rattle.scripts.specs.WholeLines.{all_at, is_far_in, is_of_both, is_timers, names_far, one};
ghost use Rattle.scripts.specs.WholeScripts.{WholeSoFar, may_follow_one, whole_step};
ghost use Rattle.scripts.specs.declared.line.Line.TheVariants as lines;

use crate::all_words::Words;
use crate::line::{ClientEvent, EventLine, HeadLine, HubEvent, Line, ZoneLine};
use crate::named::{AllNamed, Carriers, all_named};
use crate::script::{Draft, Script};
use crate::text_lines::{TakeLines, TakenLines, take_lines};
use crate::whole_line::{CarryLine, WholeLine, read_whole_line};
use dnsname::name::Name;
use push_base::NoMemory;
use rrset::classes::IN;
use rrset::kinds::ANY;
use rrset::record::Question;
use std::alloc::Global;

/// Which of the hubs an event is for. Each takes the next one of the events of its own script.
#[derive(Clone, Copy, Debug, PartialEq, Eq)]
pub enum Turn {
    /// The first hub.
    Near,
    /// The second hub.
    Far,
    /// Both, as a moment is.
    Both,
    /// What a client of the first hub holds is carried to the second; to the first hub it is shown.
    Carry,
}

/// A script that may have a second hub.
#[derive(Debug, Drop)]
pub struct WholeScript {
    /// What it is to the first hub.
    pub near: Script,
    /// What it is to the second hub, but for what is carried.
    pub far: Script,
    /// The name of the second hub's zone, where there is a second hub.
    pub apex: Option<Name>,
    /// For which hub each event is, in order.
    pub turns: Vec<Turn>,
}

/// What was read of a script: all of it, or the number of the first line outside.
#[derive(Debug, Drop)]
pub enum ReadWhole {
    /// Each line is in the grammar, and stands where it may.
    Whole(WholeScript),
    /// The first line that is outside the grammar, or may not stand where it does, counted from 1.
    Outside(usize),
}

// What was read of a script so far, the words of all clients that it has, and which of them carry names.
#[derive(Drop)]
struct WholeDraft {
    near: Draft,
    far: Draft,
    apex: Option<Name>,
    turns: Vec<Turn>,
    clients: Words,
    carriers: Carriers,
}

/// Reads a script: all of it, or the number of the first line that is outside the grammar, or may not stand where it
/// does, counted from 1.
pub fn read_whole_script(alloc: Global, octets: &[u8]) -> Result<ReadWhole, NoMemory>
    ensures { IfOk result (λ read. ReadsWhole octets.now read) }
{
    let named = all_named(alloc, octets)?;
    let AllNamed { clients, carriers } = named;
    let mut draft = WholeDraft {
        near: Draft::new(alloc),
        far: Draft::new(alloc),
        apex: None,
        turns: Vec::new(alloc),
        clients,
        carriers,
    };
    let taken = take_lines(alloc, octets, &mut draft)?;
    match taken {
        TakenLines::All(behind) => Ok(ReadWhole::Whole(draft.finish(behind - 1))),
        TakenLines::Outside(number) => Ok(ReadWhole::Outside(number)),
    }
}

impl TakeLines for WholeDraft {
    ghost Made = { WholeSoFar };

    ghost Holds = { HoldsWhole };

    ghost line = { whole_step };

    fn take(&mut self, alloc: Global, text: &[u8]) -> Result<bool, NoMemory> {
        let Some(line) = read_whole_line(alloc, text)? else {
            return Ok(false);
        };
        self.take_whole(alloc, line)
    }
}

impl WholeDraft {
    // Takes a further line, where it may stand behind those before it: by itself, and as what it is to each hub.
    fn take_whole(&mut self, alloc: Global, line: WholeLine) -> Result<bool, NoMemory>
        ensures { IfOk result (λ taken. TakesWhole self.old (whole_said line) self.new taken) }
    {
        if !self.may_follow(&line) {
            return Ok(false);
        }
        match line {
            WholeLine::One(line) => self.take_one(alloc, line),
            WholeLine::FarZone { apex, serial } => self.take_far_zone(alloc, apex, serial),
            WholeLine::FarClient { word } => {
                let is_lone = false;
                let line = Line::Joining { word, is_lone };
                self.take_halves(alloc, Line::Silent, line, Some(Turn::Far))
            }
            WholeLine::Carry(line) => {
                let line = shown(line);
                self.take_halves(alloc, line, Line::Silent, Some(Turn::Carry))
            }
        }
    }

    // Takes a line of a script of one hub: it is for the second hub if it names a client there, for both if it says the
    // timers or a moment, and else for the first.
    fn take_one(&mut self, alloc: Global, line: Line) -> Result<bool, NoMemory>
        ensures { IfOk result (λ taken. TakesFit self.old (one (said line)) self.new taken) }
    {
        if self.names_far(&line) {
            let turn = turn_of(&line, Turn::Far);
            return self.take_halves(alloc, Line::Silent, line, turn);
        }
        match for_both(&line) {
            Some(same) => {
                let turn = turn_of(&line, Turn::Both);
                self.take_halves(alloc, line, same, turn)
            }
            None => {
                let turn = turn_of(&line, Turn::Near);
                self.take_halves(alloc, line, Line::Silent, turn)
            }
        }
    }

    // Takes the zone of the second hub.
    fn take_far_zone(&mut self, alloc: Global, apex: Name, serial: u32) -> Result<bool, NoMemory>
        ensures { IfOk result (λ taken. TakesHalves (with_apex self.old apex) lines.Silent (far_zone_line apex serial) None self.new taken) }
    {
        let name = apex.copy()?;
        let zone = ZoneLine {
            apex: name,
            serial,
            writable: true,
        };
        self.apex = Some(apex);
        let line = Line::Head(HeadLine::Zone(zone));
        self.take_halves(alloc, Line::Silent, line, None)
    }

    // Takes what a line is to either hub, and for which of them it is, if it happens.
    fn take_halves(
        &mut self,
        alloc: Global,
        near: Line,
        far: Line,
        turn: Option<Turn>,
    ) -> Result<bool, NoMemory>
        ensures { IfOk result (λ taken. TakesHalves self.old near far turn self.new taken) }
    {
        if !self.near.take_among(alloc, near, &self.clients)? {
            return Ok(false);
        }
        if !self.far.take_among(alloc, far, &self.clients)? {
            return Ok(false);
        }
        if let Some(turn) = turn {
            self.turns.push(turn)?;
        }
        Ok(true)
    }

    // Whether a line may stand behind those before it, whatever it is to each hub.
    fn may_follow(&self, line: &WholeLine) -> bool
        ensures { result ≡ may_follow_kept (alone_in self.now.carriers) (known_kept self.now) (whole_said line.now) }
    {
        match line {
            WholeLine::One(line) => self.may_follow_one(line),
            WholeLine::FarZone { .. } => self.may_have_zone(),
            WholeLine::FarClient { word } => self.may_have_client(word.as_bytes()),
            WholeLine::Carry(line) => self.may_carry(line.word.as_bytes(), &line.name),
        }
    }

    // Whether a line of a script of one hub may: head lines come before all others, and no two clients have one word.
    fn may_follow_one(&self, line: &Line) -> bool
        ensures { result ≡ may_follow_one (known_kept self.now) (said line.now) }
    {
        match line {
            Line::Silent | Line::Event(_) => true,
            Line::Head(_) => self.turns.is_empty(),
            Line::Joining { word, .. } => !self.is_far(word.as_bytes()),
        }
    }

    // Whether the zone of a second hub may: once, before all events.
    fn may_have_zone(&self) -> bool
        ensures { result ≡ (length self.now.turns.items == 0 && not (is_some self.now.apex)) }
    {
        self.turns.is_empty() && self.apex.is_none()
    }

    // Whether a client of the second hub may: where there is one, with a word that no client of the first has.
    fn may_have_client(&self, word: &[u8]) -> bool
        ensures { result ≡ (is_some self.now.apex && not (is_client_in (taken_of self.now.near).clients word.now)) }
    {
        let is_new = !self.near.has_client(word);
        self.apex.is_some() && is_new
    }

    // Whether a client may carry a name: where there is a second hub, a client of the first, if no other client carries
    // the name.
    fn may_carry(&self, word: &[u8], name: &Name) -> bool
        ensures { result ≡ (is_some self.now.apex && is_hub_client_in (taken_of self.now.near).clients word.now && alone_in self.now.carriers word.now name.now) }
    {
        let is_of_near = self.near.has_hub_client(word);
        let is_alone = self.carriers.is_alone(word, name);
        self.apex.is_some() && is_of_near && is_alone
    }

    // Whether a line names a client of the second hub.
    fn names_far(&self, line: &Line) -> bool
        ensures { result ≡ names_far (is_far_in (known_kept self.now).fars) (said line.now) }
    {
        match line {
            Line::Silent | Line::Head(_) | Line::Joining { .. } => false,
            Line::Event(event) => self.is_of_far(event),
        }
    }

    // Whether an event names one.
    fn is_of_far(&self, event: &EventLine) -> bool
        ensures { result ≡ names_far (is_far_in (known_kept self.now).fars) (happening_said event.now) }
    {
        match event {
            EventLine::Hub(_) | EventLine::Link { .. } => false,
            EventLine::Call { word, .. }
            | EventLine::Passing { word, .. }
            | EventLine::Client { word, .. }
            | EventLine::Session { word, .. } => self.is_far(word.as_bytes()),
        }
    }

    // Whether a word is that of a client of the second hub.
    #[tactic(auto, using(crate::proofs::wholes::Growing::among_clients))]
    fn is_far(&self, word: &[u8]) -> bool
        ensures { result ≡ is_far_in (known_kept self.now).fars word.now }
    {
        self.far.has_client(word)
    }

    // The script whose lines, so many, were all taken.
    fn finish(self, lines: usize) -> WholeScript
        ensures near { IsOf lines result.near (taken_of self.near) }
        ensures far { IsOf lines result.far (taken_of self.far) }
        ensures apex { result.apex ≡ self.apex }
        ensures turns { result.turns.items ≡ self.turns.items }
    {
        let WholeDraft {
            near,
            far,
            apex,
            turns,
            clients: _,
            carriers: _,
        } = self;
        WholeScript {
            near: near.finish(lines),
            far: far.finish(lines),
            apex,
            turns,
        }
    }
}

// What a line that carries is to the first hub: its client is shown all that it holds at the name.
fn shown(line: CarryLine) -> Line
    ensures { said result ≡ show (string_bytes line.word) (all_at line.name) line.written }
{
    let CarryLine {
        word,
        name,
        written,
    } = line;
    let question = Question {
        name,
        kind: ANY,
        class: IN,
    };
    let event = ClientEvent::Show { question, written };
    Line::Event(EventLine::Client { word, event })
}

// A line that is for both hubs, once more.
fn for_both(line: &Line) -> Option<Line>
    ensures both { IfSome result (λ same. (said same ≡ said line.now) × (is_of_both (said line.now) ≡ true)) }
    ensures one { IfNone result (is_of_both (said line.now) ≡ false) }
{
    match line {
        Line::Silent | Line::Joining { .. } => None,
        Line::Head(line) => timers_of(line),
        Line::Event(line) => moment_of(line),
    }
}

// The timers once more.
fn timers_of(line: &HeadLine) -> Option<Line>
    ensures both { IfSome result (λ same. (said same ≡ head_line (head_said line.now)) × (is_timers (head_said line.now) ≡ true)) }
    ensures one { IfNone result (is_timers (head_said line.now) ≡ false) }
{
    match line {
        HeadLine::Timers(timers) => Some(Line::Head(HeadLine::Timers(*timers))),
        HeadLine::Zone(_) | HeadLine::Link(_) | HeadLine::Reverse(_) => None,
    }
}

// A moment once more.
fn moment_of(line: &EventLine) -> Option<Line>
    ensures both { IfSome result (λ same. (said same ≡ happening_said line.now) × (is_of_both (happening_said line.now) ≡ true)) }
    ensures one { IfNone result (is_of_both (happening_said line.now) ≡ false) }
{
    match line {
        EventLine::Hub(HubEvent::At(moment)) => {
            let moment = moment.copied();
            Some(Line::Event(EventLine::Hub(HubEvent::At(moment))))
        }
        EventLine::Hub(HubEvent::Update(_) | HubEvent::Point)
        | EventLine::Link { .. }
        | EventLine::Call { .. }
        | EventLine::Passing { .. }
        | EventLine::Client { .. }
        | EventLine::Session { .. } => None,
    }
}

// The turn that a line is, if it happens.
fn turn_of(line: &Line, turn: Turn) -> Option<Turn>
    ensures { option_to_list result ≡ if is_head (said line.now) then [] else turn ∷ [] }
{
    match line {
        Line::Silent | Line::Head(_) => None,
        Line::Joining { .. } | Line::Event(_) => Some(turn),
    }
}
