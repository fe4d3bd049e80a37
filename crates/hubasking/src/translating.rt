//! What a link is asked for a question of a session (RFC 8766, 5.5.3).

ghost use Rattle.std.specs.Prelude.{◌≡◌, IfOk};
ghost use Rattle.dnsname.specs.Names.{SpellsName, lower};
ghost use Rattle.dnsname.specs.Octets.{labels_of};
ghost use Rattle.linkmap.specs.Translation.{local, renamed};
ghost use Rattle.history.specs.Kept.{state_of};
ghost use Rattle.hubasking.specs.Turns.{AsksLink, FitsAs};

use dnsname::{Name, NameFault};
use history::Homes;
use history::entry::Home;
use pushserver::NoMemory;
use rrset::{Question, classes};
use std::alloc::Global;

/// The octets of the domain of every link (RFC 6762, 3).
fn local_octets() -> &'static [u8]
    ensures spells { SpellsName result.now (labels_of result.now) }
    ensures labels { labels_of result.now ≡ local }
{
    b"\x05local\x00".as_slice()
}

/// The name of the domain of every link (RFC 6762, 3).
fn local_name(alloc: Global) -> Result<Name, NoMemory>
    ensures { IfOk result (λ name. name ≡ local) }
{
    match Name::read_plain(alloc, local_octets(), 0) {
        Ok((name, _)) => Ok(name),
        Err(NameFault::NoMemory) => Err(NoMemory),
        Err(_) => unreachable!(),
    }
}

/// A name in lower case with `local.` in place of a link's domain, where that makes a name.
fn name_on(alloc: Global, domain: &Name, name: &Name) -> Result<Option<Name>, NoMemory>
    ensures { IfOk result (λ found. FitsAs found (renamed domain.now local (lower name.now))) }
{
    let name = name.lower()?;
    if !name.ends_in(domain) {
        name.octets();
        return Ok(Some(name));
    }
    let local = local_name(alloc)?;
    let found = name.swap_suffix(domain, &local)?;
    Ok(found)
}

/// The link that is the home of a question's name, and what it is asked for it; nothing where its home is no link, or where
/// that makes no name.
pub(crate) fn link_question(
    alloc: Global,
    homes: &Homes,
    question: &Question,
) -> Result<Option<(usize, Question)>, NoMemory>
    ensures { IfOk result (λ found. AsksLink question.now (state_of homes.now) found) }
{
    let Some(Home::Link(link)) = homes.home(&question.name) else {
        return Ok(None);
    };
    let Some(cache) = homes.cache(link) else {
        return Ok(None);
    };
    match name_on(alloc, cache.domain(), &question.name)? {
        Some(name) => Ok(Some((
            link,
            Question {
                name,
                kind: question.kind,
                class: classes::IN,
            },
        ))),
        None => Ok(None),
    }
}
