//! What a script names anywhere: its clients, whose words no peer has, and which of them carry which names.

ghost use Rattle.std.specs.Prelude.{◌≡◌, ◌++◌, ◌∷◌, [], List, IfOk, OnOk, option_copied, option_map, option_to_list, string_bytes};
ghost use Rattle.scripts.specs.Lines.{words_in};
ghost use Rattle.scripts.specs.KeptWhole.{carrier_kept, carrier_in, carrier_named, made_in};
ghost use Rattle.scripts.specs.Carrying.{alone_in, carried_too, is_alone};
ghost use Rattle.scripts.specs.WholeScripts.{Carrier as Plain, all_made, all_carried, carries_alone};

use crate::all_words::Words;
use crate::clients::client_in;
use crate::line_words::plain_word;
use crate::text_lines::{is_outside, is_too_long, split_line};
use crate::whole_line::{CarryLine, carry_of};
use dnsname::name::Name;
use push_base::NoMemory;
use std::alloc::Global;
use std::collections::BTreeMap;

/// A client that carries a name to the second hub: its word, and the name.
#[derive(Drop)]
struct Carrier {
    word: String,
    name: Name,
}

/// Who carries a name: the client of this word alone, or several clients.
#[derive(Drop)]
enum Carrying {
    One(String),
    Several,
}

/// Which clients carry which names, names but for case.
#[derive(Drop)]
pub(crate) struct Carriers {
    names: BTreeMap<Name, Carrying>,
}

impl Carriers {
    // No client carries any name.
    fn new(alloc: Global) -> Self
        ensures { alone_in result ≡ carries_alone [] }
    {
        Carriers {
            names: BTreeMap::new(alloc),
        }
    }

    // One more client that carries a name.
    fn add(&mut self, carrier: Carrier) -> Result<(), NoMemory>
        ensures { OnOk result ((carriers : List Plain) → alone_in self.old ≡ carries_alone carriers → alone_in self.new ≡ carries_alone (carriers ++ carrier_kept carrier ∷ [])) }
    {
        let Carrier { word, name } = carrier;
        let carrying = carried_too(self.names.get(&name), word);
        self.names.insert(name, carrying)?;
        Ok(())
    }

    /// Whether no other client carries the name.
    pub(crate) fn is_alone(&self, word: &[u8], name: &Name) -> bool
        ensures { result ≡ alone_in self.now word.now name.now }
    {
        is_carried_alone(self.names.get(name), word)
    }
}

// Who carries a name that a client carries, too.
fn carried_too(carrying: Option<&Carrying>, word: String) -> Carrying
    ensures { result ≡ carried_too (option_copied carrying.entry) word }
{
    match carrying {
        None => Carrying::One(word),
        Some(Carrying::One(other)) => {
            if other.as_bytes() == word.as_bytes() {
                Carrying::One(word)
            } else {
                Carrying::Several
            }
        }
        Some(Carrying::Several) => Carrying::Several,
    }
}

// Whether no other client than that of a word does.
fn is_carried_alone(carrying: Option<&Carrying>, word: &[u8]) -> bool
    ensures { result ≡ is_alone word.now (option_copied carrying.entry) }
{
    match carrying {
        None => true,
        Some(Carrying::One(other)) => other.as_bytes() == word,
        Some(Carrying::Several) => false,
    }
}

/// What a script names anywhere.
#[derive(Drop)]
pub(crate) struct AllNamed {
    /// The words of all its clients, of both hubs and lone ones, in the order of their lines.
    pub clients: Words,
    /// The clients that carry names.
    pub carriers: Carriers,
}

/// What a script names anywhere, each line by itself.
pub(crate) fn all_named(alloc: Global, octets: &[u8]) -> Result<AllNamed, NoMemory>
    ensures clients { IfOk result (λ named. named.clients ≡ all_made octets.now) }
    ensures carriers { IfOk result (λ named. alone_in named.carriers ≡ carries_alone (all_carried octets.now)) }
{
    let too_long = is_too_long(octets);
    let mut clients = Words::new(alloc);
    let mut carriers = Carriers::new(alloc);
    let mut rest = octets;
    'lines: while !rest.is_empty() {
        let (line, after) = split_line(rest);
        if is_outside(after, too_long) {
            return Ok(AllNamed { clients, carriers });
        }
        add_client(alloc, line, &mut clients)?;
        add_carrier(alloc, line, &mut carriers)?;
        rest = after;
    }
    Ok(AllNamed { clients, carriers })
}

// Adds the word of the client that a line names, if it names one.
fn add_client(alloc: Global, line: &[u8], words: &mut Words) -> Result<(), NoMemory>
    ensures { OnOk result (words.new ≡ words.old ++ option_to_list (made_in line.now)) }
{
    match made_in(alloc, line)? {
        Some(word) => words.add(word),
        None => Ok(()),
    }
}

// The word of the client, of either hub or a lone one, that a line names.
fn made_in(alloc: Global, line: &[u8]) -> Result<Option<String>, NoMemory>
    ensures { IfOk result (λ found. option_map (λ w. string_bytes w) found ≡ made_in line.now) }
{
    match line.strip_prefix(b"farclient ".as_slice()) {
        Some(word) => plain_word(alloc, word),
        None => client_in(alloc, line),
    }
}

// Adds the client that a line lets carry a name, if it does.
fn add_carrier(alloc: Global, line: &[u8], carriers: &mut Carriers) -> Result<(), NoMemory>
    ensures { OnOk result ((before : List Plain) → alone_in carriers.old ≡ carries_alone before → alone_in carriers.new ≡ carries_alone (before ++ option_to_list (carrier_in line.now))) }
{
    match carrier_in(alloc, line)? {
        Some(carrier) => carriers.add(carrier),
        None => Ok(()),
    }
}

// The client that a line lets carry a name, and the name.
fn carrier_in(alloc: Global, line: &[u8]) -> Result<Option<Carrier>, NoMemory>
    ensures { IfOk result (λ found. option_map (λ c. carrier_kept c) found ≡ carrier_in line.now) }
{
    match line.strip_prefix(b"carry ".as_slice()) {
        Some(rest) => carrier_behind(alloc, rest),
        None => Ok(None),
    }
}

// The same, by the text behind the line's first word.
fn carrier_behind(alloc: Global, text: &[u8]) -> Result<Option<Carrier>, NoMemory>
    ensures { IfOk result (λ found. option_map (λ c. carrier_kept c) found ≡ carrier_named (words_in text.now)) }
{
    match carry_of(alloc, text)? {
        None => Ok(None),
        Some(line) => Ok(Some(carrier_of(line))),
    }
}

// The client of a line that carries, and the name.
fn carrier_of(line: CarryLine) -> Carrier
    ensures { carrier_kept result ≡ (string_bytes line.word, line.name) }
{
    let CarryLine { word, name, .. } = line;
    Carrier { word, name }
}
