//! The lines that links print, with their datagrams, where they go away, and with what they are asked.

ghost use Rattle.std.specs.Prelude.{◌≡◌, ◌<◌, ◌≤◌, Some, length, position, IfOk, string_bytes};
ghost use Rattle.std.specs.Str.{bytes_eq};
ghost use Rattle.push_base.specs.Limits.{max_datagram};
ghost use Rattle.replay.specs.TextWords.{by_notices};
ghost use Rattle.replay.specs.Text.{goes, hears, link_calls};
ghost use Rattle.scripts.specs.Lines.{Word, link_event};
ghost use Rattle.scripts.specs.Events.{link_at};
ghost use Rattle.scripts.specs.KeptLines.{words_of};
ghost use Rattle.replay.specs.KeptAsks.{AsksAll};
ghost use Rattle.replay.specs.KeptWorlds.{Does, RunsLine};

use crate::printed::{asks_text, gone_text, heard_text, out_line};
use crate::world::{World, make_room};
use hubasking::{Hub, HubFault};
use linkask::laws::schedule;
use push_base::limits::MAX_DATAGRAM;
use push_base::{NoMemory, front_of};
use scripts::line::LinkEvent;
use std::alloc::Global;

/// A datagram comes on the link of a number (RFC 6762, 18).
pub(crate) fn hear_line(
    alloc: Global,
    world: &mut World,
    link: usize,
    datagram: &[u8],
) -> Result<String, NoMemory>
    ensures { (w : Word) → position (bytes_eq w) (words_of world.old.links.items) ≡ Some link → IfOk result (λ text. Does (hears w datagram.now) (link_calls (LinkEvent.Hear datagram.now) w) world.old (string_bytes text) world.new) }
{
    match world.hub.hear_uncounted(link, datagram) {
        Ok(heard) => heard_text(alloc, heard),
        Err(HubFault::NoMemory) => Err(NoMemory),
    }
}

/// The link of a number goes away, with all that was heard on it.
pub(crate) fn gone_line(alloc: Global, world: &mut World, link: usize) -> Result<String, NoMemory>
    requires { link < length world.old.links.items }
    ensures { (w : Word) → position (bytes_eq w) (words_of world.old.links.items) ≡ Some link → IfOk result (λ text. Does (goes w) (link_calls LinkEvent.Gone w) world.old (string_bytes text) world.new) }
{
    match world.hub.link_gone_uncounted(link) {
        Ok(is_gone) => gone_text(alloc, link_word(&world.links, link), is_gone),
        Err(HubFault::NoMemory) => Err(NoMemory),
    }
}

// How many questions a link is asked, and a line for the datagram of each.
#[derive(Drop)]
struct AllAsked {
    count: usize,
    lines: String,
}

/// What the link of a number is asked now is told: all questions that are due, which are asked thereby (RFC 8766, 5.6).
pub(crate) fn asks_line(alloc: Global, world: &mut World, link: usize) -> Result<String, NoMemory>
    requires { link < length world.old.links.items }
    ensures { (w : Word) → position (bytes_eq w) (words_of world.old.links.items) ≡ Some link → IfOk result (λ text. RunsLine by_notices (link_event w LinkEvent.Asks) world.old (string_bytes text) world.new) }
{
    make_room(&mut world.buffer, MAX_DATAGRAM)?;
    let AllAsked { count, lines } = ask_all(
        alloc,
        &mut world.hub,
        link,
        world.buffer.as_mut_slice(),
    )?;
    let mut text = asks_text(alloc, link_word(&world.links, link), count)?;
    text.push_str(lines.as_str())?;
    Ok(text)
}

// Asks a link, by a buffer, until no question of it is due.
fn ask_all(
    alloc: Global,
    hub: &mut Hub,
    link: usize,
    buffer: &mut [u8],
) -> Result<AllAsked, NoMemory>
    requires { max_datagram ≤ length buffer.old }
    ensures { IfOk result (λ asked. AsksAll hub.old link asked.count (string_bytes asked.lines) hub.new) }
{
    schedule();
    let mut count: usize = 0;
    let mut lines = String::new(alloc);
    'questions: while let Some(size) = hub.ask(link, buffer)? {
        let line = out_line(alloc, front_of(buffer, size))?;
        lines.push_str(line.as_str())?;
        count += 1;
    }
    Ok(AllAsked { count, lines })
}

// The word of the link of a number.
fn link_word(links: &[String], link: usize) -> &str
    requires { link < length links.now }
    ensures { result.now ≡ link_at (words_of links.now) link }
{
    links[link].as_str()
}
