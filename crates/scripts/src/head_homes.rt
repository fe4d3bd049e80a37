//! The homes that the lines of a head make.

ghost use Rattle.std.specs.Prelude.{◌≡◌, ◌<◌, ◌++◌, ◌∷◌, [], true, IfOk, string_bytes};
ghost use Rattle.std.specs.Vec.{vec_capacity, vec_len};
ghost use Rattle.scripts.specs.Scripts.{may_head};
ghost use Rattle.scripts.specs.KeptLines.{head_said, words_of};
ghost use Rattle.scripts.specs.HeadHomes.{no_named_homes};
ghost use Rattle.scripts.specs.Drafts.{HasLink, HasReverse, HasZone, homes_known};
ghost use Rattle.scripts.specs.declared.line.HeadLine.TheVariants as heads;

use crate::clients::{is_among, place_among};
use crate::line::{LinkLine, ReverseLine, ZoneLine};
use history::Homes;
use history::entry::HomeFault;
use push_base::NoMemory;
use std::alloc::Global;
use std::marker::Model;
use zoneupdate::{Zone, ZoneFault};

/// Zones, and links that have heard nothing, with the links' words in their order.
#[derive(Debug, Drop)]
pub struct HeadHomes {
    homes: Homes,
    words: Vec<String>,
}

impl Model for HeadHomes {
    ghost use Rattle.scripts.specs.HeadHomes.{AreNamed, NamedHomes};
    ghost use Rattle.scripts.specs.KeptLines.{words_of};

    ghost Value = { NamedHomes };

    ghost view = { λ h. record { homes = h.homes; words = words_of h.words.items } };

    ghost invariant = { λ h. AreNamed (record { homes = h.homes; words = words_of h.words.items }) };
}

/// One word more, for which room was made.
pub(crate) fn push_word(words: &mut Vec<String>, word: String)
    requires { vec_len words.old < vec_capacity words.old }
    ensures { words_of words.new.items ≡ words_of words.old.items ++ string_bytes word ∷ [] }
{
    words.push_reserved(word);
}

impl HeadHomes {
    /// No homes.
    pub(crate) fn new(alloc: Global) -> Self
        ensures { result ≡ no_named_homes }
    {
        HeadHomes {
            homes: Homes::new(alloc),
            words: Vec::new(alloc),
        }
    }

    /// The words of the links.
    pub(crate) fn words(&self) -> &[String]
        ensures { words_of result.now ≡ self.now.words }
    {
        &self.words
    }

    /// Takes a further zone, where it may stand beside the homes before it.
    pub(crate) fn take_zone(&mut self, alloc: Global, line: ZoneLine) -> Result<bool, NoMemory>
        ensures may { IfOk result (λ taken. taken ≡ may_head (homes_known self.old) (head_said (heads.Zone line))) }
        ensures grows { IfOk result (λ taken. taken ≡ true → HasZone self.old.homes line self.new.homes × (self.new.words ≡ self.old.words)) }
    {
        let zone = match Zone::new(alloc, line.apex, line.serial, line.writable) {
            Ok(zone) => zone,
            Err(ZoneFault::TooLong) => return Ok(false),
            Err(ZoneFault::NoMemory) => return Err(NoMemory),
        };
        match self.homes.add_zone(zone) {
            Ok(()) => Ok(true),
            Err(HomeFault::NoMemory) => Err(NoMemory),
            Err(HomeFault::Clash(_)) => Ok(false),
            Err(HomeFault::Many | HomeFault::Long | HomeFault::Local | HomeFault::Form) => {
                Ok(false)
            }
        }
    }

    /// Takes a further link, with a word that no link has, where it may stand beside the homes before it.
    pub(crate) fn take_link(&mut self, line: LinkLine) -> Result<bool, NoMemory>
        ensures may { IfOk result (λ taken. taken ≡ may_head (homes_known self.old) (head_said (heads.Link line))) }
        ensures grows { IfOk result (λ taken. taken ≡ true → HasLink self.old.homes line self.new.homes × (self.new.words ≡ self.old.words ++ string_bytes line.word ∷ [])) }
    {
        let LinkLine { word, domain, cap } = line;
        if is_among(&self.words, word.as_bytes()) {
            return Ok(false);
        }
        self.words.reserve(1)?;
        match self.homes.add_link(domain, cap) {
            Ok(()) => {
                push_word(&mut self.words, word);
                Ok(true)
            }
            Err(HomeFault::NoMemory) => Err(NoMemory),
            Err(HomeFault::Clash(_)) => Ok(false),
            Err(HomeFault::Many | HomeFault::Long | HomeFault::Local | HomeFault::Form) => {
                Ok(false)
            }
        }
    }

    /// Takes a further reverse domain of the link of a word, where it may stand beside the homes before it.
    pub(crate) fn take_reverse(&mut self, line: ReverseLine) -> Result<bool, NoMemory>
        ensures may { IfOk result (λ taken. taken ≡ may_head (homes_known self.old) (head_said (heads.Reverse line))) }
        ensures grows { IfOk result (λ taken. taken ≡ true → HasReverse self.old.homes self.old.words line self.new.homes × (self.new.words ≡ self.old.words)) }
    {
        let ReverseLine { word, domain } = line;
        let Some(link) = place_among(&self.words, word.as_bytes()) else {
            return Ok(false);
        };
        match self.homes.add_reverse(link, domain) {
            Ok(()) => Ok(true),
            Err(HomeFault::NoMemory) => Err(NoMemory),
            Err(HomeFault::Clash(_)) => Ok(false),
            Err(HomeFault::Many | HomeFault::Long | HomeFault::Local | HomeFault::Form) => {
                Ok(false)
            }
        }
    }

    /// The homes, and the words of the links.
    pub(crate) fn into_parts(self) -> (Homes, Vec<String>)
        ensures homes { result.0 ≡ self.homes }
        ensures words { words_of result.1.items ≡ self.words }
    {
        let HeadHomes { homes, words } = self;
        (homes, words)
    }
}
