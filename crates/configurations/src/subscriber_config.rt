//! The configuration of a subscriber.

ghost use Rattle.std.specs.Prelude.{◌≡◌, IfOk, option_map};
ghost use Rattle.std.specs.List.{list_any};
ghost use Rattle.rrset.specs.Records.{same_question};
ghost use Rattle.scripts.specs.KeptLines.{said};
ghost use Rattle.scripts.specs.Lines.{words_in};
ghost use Rattle.scripts.specs.TextLines.{Takes};
ghost use Rattle.configurations.specs.Configurations.{SubscribingDraft, may_ask, no_subscribing, question_line, server_line, subscribing_behind, subscribing_kind, subscribing_line};
ghost use Rattle.configurations.specs.Kept.{EndsSubscribing, ReadsSubscribing, is_silent, says_nothing, subscribing_drafted};

use crate::limits::MAX_TURNS;
use crate::words::{address_of_word, take_number};
use push_base::NoMemory;
use push_base::limits::{MAX_NUMBER, MAX_QUESTIONS};
use rrset::record::Question;
use rrset::same_question;
use scripts::{
    Line, TakeLines, TakenLines, one_word, question_of, read_line, split_word, take_lines,
    three_words,
};
use std::alloc::Global;

/// What a subscriber is told to do.
#[derive(Debug, Drop)]
pub struct SubscribeConfiguration {
    /// The address of the server, as it is written.
    pub server: String,
    /// What is asked, in order; all are different.
    pub questions: Vec<Question>,
    /// After how many messages it ends, if they are counted.
    pub messages: Option<u64>,
    /// After how many reads it ends.
    pub turns: u64,
}

/// What was read of a configuration: all of it, or the number of the first line outside.
#[derive(Debug, Drop)]
pub enum ReadSubscribe {
    /// Each line is in the grammar, and none is missing.
    Whole(SubscribeConfiguration),
    /// The first line that is outside, counted from 1; where a line is missing, the one behind the last.
    Outside(usize),
}

// The kinds of lines of a subscriber, by their first words.
#[derive(Clone, Copy)]
enum SubscribingKind {
    Server,
    Question,
    Messages,
    Turns,
    Other,
}

// What was read so far.
#[derive(Drop)]
struct SubscribeDraft {
    server: Option<String>,
    questions: Vec<Question>,
    messages: Option<u64>,
    turns: Option<u64>,
}

/// Reads the configuration of a subscriber: all of it, or the number of the first line outside, counted from 1. Where a
/// line is missing, that is the one behind the last.
pub fn read_subscribe(alloc: Global, octets: &[u8]) -> Result<ReadSubscribe, NoMemory>
    ensures { IfOk result (λ read. ReadsSubscribing octets.now read) }
{
    let mut draft = SubscribeDraft::new(alloc);
    let taken = take_lines(alloc, octets, &mut draft)?;
    match taken {
        TakenLines::All(behind) => Ok(draft.finish(behind)),
        TakenLines::Outside(number) => Ok(ReadSubscribe::Outside(number)),
    }
}

impl TakeLines for SubscribeDraft {
    ghost Made = { SubscribingDraft };

    ghost Holds = { λ draft made. made ≡ subscribing_drafted draft };

    ghost line = { subscribing_line };

    fn take(&mut self, alloc: Global, text: &[u8]) -> Result<bool, NoMemory> {
        self.take_text(alloc, text)
    }
}

impl SubscribeDraft {
    // No line so far.
    fn new(alloc: Global) -> Self
        ensures { subscribing_drafted result ≡ no_subscribing }
    {
        SubscribeDraft {
            server: None,
            questions: Vec::new(alloc),
            messages: None,
            turns: None,
        }
    }

    // Takes a further line.
    fn take_text(&mut self, alloc: Global, text: &[u8]) -> Result<bool, NoMemory>
        ensures { IfOk result (λ taken. Takes (subscribing_line (subscribing_drafted self.old) text.now) (subscribing_drafted self.new) taken) }
    {
        match split_word(text) {
            Some((word, rest)) => self.take_words(alloc, kind_of(word), text, rest),
            None => match kind_of(text) {
                SubscribingKind::Other => is_silent(alloc, text),
                SubscribingKind::Server | SubscribingKind::Question => Ok(false),
                SubscribingKind::Messages | SubscribingKind::Turns => Ok(false),
            },
        }
    }

    // Takes a line of this kind, with those words behind its first.
    fn take_words(
        &mut self,
        alloc: Global,
        kind: SubscribingKind,
        text: &[u8],
        rest: &[u8],
    ) -> Result<bool, NoMemory>
        ensures { IfOk result (λ taken. Takes (subscribing_behind kind (subscribing_drafted self.old) text.now (words_in rest.now)) (subscribing_drafted self.new) taken) }
    {
        match kind {
            SubscribingKind::Server => self.take_server(alloc, rest),
            SubscribingKind::Question => self.take_question(alloc, rest),
            SubscribingKind::Messages => Ok(take_number(&mut self.messages, 0, MAX_NUMBER, rest)),
            SubscribingKind::Turns => Ok(take_number(&mut self.turns, 0, MAX_TURNS, rest)),
            SubscribingKind::Other => is_silent(alloc, text),
        }
    }

    // Takes the server, once.
    fn take_server(&mut self, alloc: Global, words: &[u8]) -> Result<bool, NoMemory>
        ensures { IfOk result (λ taken. Takes (server_line (subscribing_drafted self.old) (words_in words.now)) (subscribing_drafted self.new) taken) }
    {
        let Some(word) = one_word(words) else {
            return Ok(false);
        };
        let Some(server) = address_of_word(alloc, word)? else {
            return Ok(false);
        };
        if self.server.is_some() {
            return Ok(false);
        }
        self.server = Some(server);
        Ok(true)
    }

    // Takes a further question, where it is another one than those before it, and they aren't too many.
    fn take_question(&mut self, alloc: Global, words: &[u8]) -> Result<bool, NoMemory>
        ensures { IfOk result (λ taken. Takes (question_line (subscribing_drafted self.old) (words_in words.now)) (subscribing_drafted self.new) taken) }
    {
        let Some((name, kind, class)) = three_words(words) else {
            return Ok(false);
        };
        let Some(question) = question_of(alloc, name, kind, class)? else {
            return Ok(false);
        };
        if !self.may_ask(&question) {
            return Ok(false);
        }
        self.questions.push(question)?;
        Ok(true)
    }

    // Whether a question is another one than those before it, and they aren't too many.
    fn may_ask(&self, question: &Question) -> bool
        ensures { result ≡ may_ask (subscribing_drafted self.now) question.now }
    {
        !is_asked(&self.questions, question) && self.questions.len() < MAX_QUESTIONS
    }

    // The configuration whose lines were all taken, unless one is missing behind the last.
    fn finish(self, number: usize) -> ReadSubscribe
        ensures { EndsSubscribing (subscribing_drafted self) number result }
    {
        let SubscribeDraft {
            server,
            questions,
            messages,
            turns,
        } = self;
        let Some(server) = server else {
            return ReadSubscribe::Outside(number);
        };
        if questions.is_empty() {
            return ReadSubscribe::Outside(number);
        }
        ReadSubscribe::Whole(SubscribeConfiguration {
            server,
            questions,
            messages,
            turns: turns.unwrap_or(MAX_TURNS),
        })
    }
}

// Whether a line says nothing.
fn is_silent(alloc: Global, text: &[u8]) -> Result<bool, NoMemory>
    ensures { IfOk result (λ silent. silent ≡ is_silent text.now) }
{
    let line = read_line(alloc, text)?;
    Ok(says_nothing(&line))
}

// Whether a line is in the grammar and says nothing.
fn says_nothing(line: &Option<Line>) -> bool
    ensures { result ≡ says_nothing (option_map (λ l. said l) line.now) }
{
    matches!(line, Some(Line::Silent))
}

// Whether a question is one of those.
fn is_asked(questions: &[Question], question: &Question) -> bool
    ensures { result ≡ list_any (same_question question.now) questions.now }
{
    questions.iter().any(|asked| same_question(question, asked))
}

// The kind of a line by its first word.
fn kind_of(word: &[u8]) -> SubscribingKind
    ensures { result ≡ subscribing_kind word.now }
{
    if word == b"server".as_slice() {
        SubscribingKind::Server
    } else if word == b"question".as_slice() {
        SubscribingKind::Question
    } else if word == b"messages".as_slice() {
        SubscribingKind::Messages
    } else if word == b"turns".as_slice() {
        SubscribingKind::Turns
    } else {
        SubscribingKind::Other
    }
}
