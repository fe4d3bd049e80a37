//! Domain names, and why one could not be read.

ghost use Rattle.std.specs.Prelude.{◌≡◌, ◌+◌, ◌++◌, ◌↔◌, ◌<◌, ◌≤◌, true, take, ℕ, List, length, map, string_bytes, IsNone, IfSome, IsTrue, IfOk, IfErr, OnOk, OnErr, MatchResult, Err};
ghost use Rattle.std.specs.Char.{is_ascii_uppercase, to_ascii_lowercase};
ghost use Rattle.std.specs.List.{list_any};
ghost use Rattle.std.specs.Cmp.Lexicographic.{slice_cmp};
ghost use Rattle.std.specs.Ordering.{nat_cmp};
ghost use Rattle.push_base.specs.Counted.{CountsUpTo};
ghost use Rattle.dnsname.specs.declared.name.NameFault.{NameFault};
ghost use Rattle.dnsname.specs.declared.name.NameFault.TheVariants as names;
ghost use Rattle.dnsname.specs.declared.name.TextFault.TheVariants as texts;
ghost use Rattle.dnsname.specs.Names.{Labels, IsName, SpellsName, IsSame, EndsIn, octets, lower, same_name, ends_in, swapped_suffix};
ghost use Rattle.dnsname.specs.Octets.{labels_of};
ghost use Rattle.dnsname.specs.Spelling.{SpellsNameAt, SpellsNameIn, FaultAt, FaultIn, SpellsPlainNameAt, PlainFaultAt};
ghost use Rattle.dnsname.specs.Reading.{IsMemoryOr, Gives, name_at, name_up_to, plain_name_at};
ghost use Rattle.dnsname.specs.NameSteps.{steps_in, name_steps, steps_up_to, CountsAll};
ghost use Rattle.dnsname.specs.Text.{SpellsText, GivesName, name_text, name_of_text};

use crate::NoMemory;
use crate::comparing::{compare_octets, compare_with_lower};
use crate::message::name_octets;
use crate::part::MAX_NAME;
use crate::plain::plain_end;
use crate::print::octets_text;
use crate::suffix::spelled_ends_in;
use crate::text::text_octets;
pub use push_base::Octets;
use push_base::Steps;
use std::alloc::{AllocError, AllocFailed, Global};
use std::cmp::Ordering;
use std::marker::Model;
use std::sync::Arc;
use std::sync::ledger::Ledger;
use thiserror::Error;

/// The first fault in reading order, with its place: a count of octets from the start of the message.
#[derive(Clone, Copy, Debug, PartialEq, Eq, Error)]
pub enum NameFault {
    /// The message ends there, inside the name.
    #[error("the message ends at octet {0}, inside a name")]
    Short(usize),
    /// A length octet with the top bits 01 or 10.
    #[error("a label length of an unknown type at octet {0}")]
    LongLabel(usize),
    /// A pointer that does not point back before its piece of the name.
    #[error("a compression pointer that does not point back at octet {0}")]
    Pointer(usize),
    /// A label that would make the name pass 255 octets.
    #[error("a name longer than 255 octets at octet {0}")]
    TooLong(usize),
    /// Memory ran out.
    #[error("out of memory")]
    NoMemory,
}

impl From<AllocError> for NameFault {
    ghost from_gives = { λ _ e. e ≡ names.NoMemory };

    fn from(_e: AllocError) -> NameFault {
        NameFault::NoMemory
    }
}

impl<T: Drop> From<AllocFailed<T>> for NameFault {
    ghost from_gives = { λ _ e. e ≡ names.NoMemory };

    fn from(_e: AllocFailed<T>) -> NameFault {
        NameFault::NoMemory
    }
}

/// Why a text is not read as a name.
#[derive(Clone, Copy, Debug, PartialEq, Eq, Error)]
pub enum TextFault {
    /// It is no name's text.
    #[error("no domain name")]
    Form,
    /// Memory ran out.
    #[error("out of memory")]
    NoMemory,
}

impl From<AllocError> for TextFault {
    ghost from_gives = { λ _ e. e ≡ texts.NoMemory };

    fn from(_e: AllocError) -> TextFault {
        TextFault::NoMemory
    }
}

impl<T: Drop> From<AllocFailed<T>> for TextFault {
    ghost from_gives = { λ _ e. e ≡ texts.NoMemory };

    fn from(_e: AllocFailed<T>) -> TextFault {
        TextFault::NoMemory
    }
}

/// The octets of a name, and whether no letter among them is a capital.
#[derive(Debug, Drop)]
struct Spelling {
    octets: Octets,
    is_lower: bool,
}

/// A domain name, as the list of its labels. Copies of a name share its octets.
#[derive(Debug, Drop)]
pub struct Name {
    spelling: Arc<Spelling>,
}

impl Model for Name {
    ghost use Rattle.std.specs.Arc.{arc_value};
    ghost use Rattle.dnsname.specs.Names.{Labels};
    ghost use Rattle.dnsname.specs.Octets.{labels_of, IsSpelling};

    ghost Value = { Labels };

    ghost view = { λ n. labels_of (arc_value n.spelling).octets };

    ghost invariant = { λ n. IsSpelling (arc_value n.spelling).octets (arc_value n.spelling).is_lower };
}

/// Whether a letter among octets is a capital. The loop ends at none, so that many can be tested at a time.
fn has_capital(octets: &[u8]) -> bool
    ensures { result ≡ list_any is_ascii_uppercase octets.now }
{
    let mut found = false;
    'letters: for index in 0..octets.len() {
        found |= octets[index].is_ascii_uppercase();
    }
    found
}

/// The name that octets spell.
fn name_of(octets: Octets) -> Result<Name, NoMemory>
    requires { SpellsName octets (labels_of octets) }
    ensures { IfOk result (λ name. name ≡ labels_of octets) }
{
    let is_lower = !has_capital(octets.as_slice());
    let spelling = Arc::new(octets.allocator(), Spelling { octets, is_lower })?;
    Ok(Name { spelling })
}

/// The name without pointers at a place, and the place after it.
fn plain_name(alloc: Global, octets: &[u8], at: usize) -> Result<(Name, usize), NameFault>
    ensures name { IfOk result (λ read. SpellsPlainNameAt octets.now at read.0 read.1) }
    ensures fault { IfErr result (IsMemoryOr (PlainFaultAt octets.now at)) }
{
    let after = plain_end(octets, at)?;
    let name = name_of(Octets::alone(alloc, &octets[at..after])?)?;
    Ok((name, after))
}

/// The octets with ASCII letters in lower case.
fn in_lower_case(alloc: Global, octets: &[u8]) -> Result<Vec<u8>, NoMemory>
    ensures { IfOk result (λ low. low.items ≡ map to_ascii_lowercase octets.now) }
{
    octets
        .iter()
        .map(|octet| octet.to_ascii_lowercase())
        .collect(alloc)
}

/// The octets of one part and then those of the other.
fn joined(alloc: Global, front: &[u8], back: &[u8]) -> Result<Vec<u8>, NoMemory>
    ensures { IfOk result (λ octets. octets.items ≡ front.now ++ back.now) }
{
    let mut octets = Vec::from_slice(alloc, front)?;
    octets.extend_from_slice(back)?;
    Ok(octets)
}

/// The name with pointers at a place, its first piece in these octets, and the place after it.
fn pointed_name<L: Ledger>(
    alloc: Global,
    first: &[u8],
    message: &[u8],
    at: usize,
    steps: &mut Steps<L>,
) -> Result<(Name, usize), NameFault>
    ensures name { IfOk result (λ read. SpellsNameIn first.now message.now at read.0 read.1) }
    ensures fault { IfErr result (IsMemoryOr (FaultIn first.now message.now at)) }
    ensures counted { CountsAll result (steps_in first.now message.now at) steps.old steps.new }
    ensures cost { CountsUpTo (at + 128) steps.old steps.new }
{
    let (spelled, after) = name_octets(alloc, first, message, at, steps)?;
    let name = name_of(spelled)?;
    Ok((name, after))
}

/// The name that a text is.
fn text_name(alloc: Global, text: &str) -> Result<Name, TextFault>
    ensures name { IfOk result (SpellsText text.now) }
    ensures form { result ≡ Err TextFault.Form → (name : Labels) → ¬ SpellsText text.now name }
    ensures only { (name : Labels) → SpellsText text.now name
        → MatchResult result (λ read. read ≡ name) (λ e. e ≡ TextFault.NoMemory) }
{
    let spelled = text_octets(alloc, text.as_bytes())?;
    Ok(name_of(Octets::from_vec(spelled))?)
}

impl Name {
    /// Reads the name at a place of a message, and the place after it. A step is one length octet or pointer that is
    /// looked at: pointers lead back and names are short, so there are at most `at + 128`, whatever the answer is.
    pub fn read<L: Ledger>(
        alloc: Global,
        message: &[u8],
        at: usize,
        steps: &mut Steps<L>,
    ) -> Result<(Name, usize), NameFault>
        // What is read stands there, and a fault is the first that is met.
        ensures name { IfOk result (λ read. SpellsNameAt message.now at read.0 read.1) }
        ensures fault { IfErr result (IsMemoryOr (FaultAt message.now at)) }
        // What stands there is read, and a fault that is met is given, unless memory runs out.
        ensures only_name { (name : Labels) (after : ℕ) →
            SpellsNameAt message.now at name after → Gives result (Ok (name, after)) }
        ensures only_fault { (fault : NameFault) →
            FaultAt message.now at fault → Gives result (Err fault) }
        // The same as a function of the message.
        ensures exact { Gives result (name_at message.now at) }
        // Each step up to the end or the first fault is counted, and never more than the bound.
        ensures counted { CountsAll result (name_steps message.now at) steps.old steps.new }
        ensures cost { CountsUpTo (at + 128) steps.old steps.new }
    {
        pointed_name(alloc, message, message, at, steps)
    }

    /// Reads the name at a place of a message, where the octets before its first pointer reach no
    /// further than `end`, as those of a name in rdata. Its steps are counted as those of `read`.
    pub fn read_up_to<L: Ledger>(
        alloc: Global,
        message: &[u8],
        end: usize,
        at: usize,
        steps: &mut Steps<L>,
    ) -> Result<(Name, usize), NameFault>
        requires { end ≤ length message.now }
        ensures name { IfOk result (λ read. SpellsNameIn (take end message.now) message.now at read.0 read.1) }
        ensures fault { IfErr result (IsMemoryOr (FaultIn (take end message.now) message.now at)) }
        // The same as a function of the message.
        ensures exact { Gives result (name_up_to end message.now at) }
        // Each step up to the end or the first fault is counted, and never more than the bound.
        ensures counted { CountsAll result (steps_up_to end message.now at) steps.old steps.new }
        ensures cost { CountsUpTo (at + 128) steps.old steps.new }
    {
        let (first, _) = message.split_at(end);
        pointed_name(alloc, first, message, at, steps)
    }

    /// Reads the name at a place, and the place after it. Each pointer is a fault.
    pub fn read_plain(alloc: Global, octets: &[u8], at: usize) -> Result<(Name, usize), NameFault>
        // What is read stands there, and a fault is the first that is met.
        ensures name { IfOk result (λ read. SpellsPlainNameAt octets.now at read.0 read.1) }
        ensures fault { IfErr result (IsMemoryOr (PlainFaultAt octets.now at)) }
        // What stands there is read, and a fault that is met is given, unless memory runs out.
        ensures only_name { (name : Labels) (after : ℕ) →
            SpellsPlainNameAt octets.now at name after → Gives result (Ok (name, after)) }
        ensures only_fault { (fault : NameFault) →
            PlainFaultAt octets.now at fault → Gives result (Err fault) }
        // The same as a function of the octets.
        ensures exact { Gives result (plain_name_at octets.now at) }
    {
        plain_name(alloc, octets, at)
    }

    /// Reads the name that a text is: its labels, each with a dot after it, or a dot alone.
    pub fn from_text(alloc: Global, text: &str) -> Result<Name, TextFault>
        ensures name { IfOk result (SpellsText text.now) }
        ensures form { result ≡ Err TextFault.Form → (name : Labels) → ¬ SpellsText text.now name }
        ensures only { (name : Labels) → SpellsText text.now name
            → MatchResult result (λ read. read ≡ name) (λ e. e ≡ TextFault.NoMemory) }
        // The same as a function of the text.
        ensures exact { GivesName result (name_of_text text.now) }
    {
        text_name(alloc, text)
    }

    /// The name's octets, as they stand in a message.
    pub fn octets(&self) -> &[u8]
        ensures octets { result.now ≡ octets self.now }
        ensures name { IsName self.now }
    {
        self.spelling.as_ref().octets.as_slice()
    }

    /// Whether no letter of the name is a capital.
    pub(crate) fn is_lower(&self) -> bool
        ensures { result ≡ true → lower self.now ≡ self.now }
    {
        self.spelling.as_ref().is_lower
    }

    /// The allocator that the octets came with.
    fn allocator(&self) -> Global {
        self.spelling.as_ref().octets.allocator()
    }

    /// Appends the name's octets.
    pub fn write_to(&self, out: &mut Vec<u8>) -> Result<(), NoMemory>
        ensures ok { OnOk result (out.new.items ≡ out.old.items ++ octets self.now) }
        ensures err { OnErr result (out.new.items ≡ out.old.items) }
    {
        out.extend_from_slice(self.octets())
    }

    /// Whether the names are one, but for upper and lower case.
    pub fn same(&self, other: &Name) -> bool
        ensures same { IsTrue result ↔ IsSame self.now other.now }
        // The same as a test of the names.
        ensures exact { result ≡ same_name self.now other.now }
    {
        let mine = self.octets();
        let others = other.octets();
        if self.is_lower() && other.is_lower() {
            return mine == others;
        }
        mine.eq_ignore_ascii_case(others)
    }

    /// Whether the last labels of the name are those of the suffix, but for upper and lower case.
    pub fn ends_in(&self, suffix: &Name) -> bool
        ensures ends { IsTrue result ↔ EndsIn self.now suffix.now }
        // The same as a test of the names.
        ensures exact { result ≡ ends_in self.now suffix.now }
    {
        spelled_ends_in(self.octets(), suffix.octets())
    }

    /// The order of a name's octets and of another's in lower case.
    pub fn compare_with_lower(&self, other: &Name) -> Ordering
        ensures { result ≡ slice_cmp nat_cmp (octets self.now) (octets (lower other.now)) }
    {
        let mine = self.octets();
        let others = other.octets();
        if other.is_lower() {
            return compare_octets(mine, others);
        }
        compare_with_lower(mine, others)
    }

    /// The name's text: its labels, each with a dot after it, or a dot alone.
    pub fn text(&self) -> Result<String, NoMemory>
        ensures { IfOk result (λ text. string_bytes text ≡ name_text self.now) }
    {
        octets_text(self.allocator(), self.octets())
    }

    /// The same name.
    pub fn copy(&self) -> Result<Name, NoMemory>
        ensures { IfOk result (λ copy. copy ≡ self.now) }
    {
        let spelling = Arc::try_clone(&self.spelling)?;
        Ok(Name { spelling })
    }

    /// The name in lower case: a copy, where it is so already.
    pub fn lower(&self) -> Result<Name, NoMemory>
        ensures { IfOk result (λ low. low ≡ lower self.now) }
    {
        if self.is_lower() {
            return self.copy();
        }
        let low = in_lower_case(self.allocator(), self.octets())?;
        name_of(Octets::from_vec(low))
    }

    /// The name with its last labels, which are `old` but for case, replaced by `new`. Nothing
    /// where that would pass 255 octets.
    pub fn swap_suffix(&self, old: &Name, new: &Name) -> Result<Option<Name>, NoMemory>
        requires { EndsIn self.now old.now }
        ensures none { IfOk result (λ swap. IsNone swap ↔ (255 < length (octets (swapped_suffix self.now old.now new.now)))) }
        ensures name { IfOk result (λ swap. IfSome swap (λ name. name ≡ swapped_suffix self.now old.now new.now)) }
    {
        let mine = self.octets();
        let last = old.octets();
        let next = new.octets();
        let front = mine.len() - last.len();
        if front + next.len() > MAX_NAME {
            return Ok(None);
        }
        let (kept, _) = mine.split_at(front);
        let alloc = self.allocator();
        let spelled = joined(alloc, kept, next)?;
        Ok(Some(name_of(Octets::from_vec(spelled))?))
    }
}
