//! What one of several links is asked.

ghost use Rattle.std.specs.Prelude.{◌≡◌, ◌<◌, ◌≤◌, [], false, length, map, replicate, true, Some, None, IfOk, IfSome, OnOk, OnErr, slice_get, if◌then◌else◌};
ghost use Rattle.push_base.specs.Cases.{changed_at};
ghost use Rattle.push_base.specs.Limits.{max_datagram, max_moment};
ghost use Rattle.linkask.specs.Bounds.{AreBounds};
ghost use Rattle.linkreasons.specs.AllReasons.{asking_of};
ghost use Rattle.linkreasons.specs.Changing.{IsOneAsked, asked_on, doubted, heard_by, refreshed, settled, undoubted};

use crate::NoMemory;
use crate::asked_link::AskedLink;
use crate::doubted_row::DoubtedRow;
use linkcache::Cache;
use rrset::{HeardRr, Key};
use std::alloc::Global;

/// So many links that are asked nothing.
pub(crate) fn new_links(alloc: Global, links: usize) -> Result<Vec<AskedLink>, NoMemory>
    ensures { IfOk result (λ made. made.items ≡ replicate links (record { kept = []; reconfirmed = [] })) }
{
    let mut made = Vec::new(alloc);
    'links: for _ in 0..links {
        made.push(AskedLink::new(alloc))?;
    }
    Ok(made)
}

/// A row of a link was reconfirmed. Where memory runs out nothing changes.
pub(crate) fn doubt_on(
    links: &mut Vec<AskedLink>,
    link: usize,
    key: Key,
    heard: u64,
) -> Result<(), NoMemory>
    requires { link < length links.old.items }
    ensures ok { OnOk result (links.new.items ≡ changed_at link (doubted (key, heard)) links.old.items) }
    ensures err { OnErr result (links.new.items ≡ links.old.items) }
{
    let row = DoubtedRow::new(key, heard)?;
    links[link].doubt(row)
}

/// The last row of a link that was reconfirmed is taken back.
pub(crate) fn take_back_on(links: &mut Vec<AskedLink>, link: usize)
    ensures { links.new.items ≡ changed_at link undoubted links.old.items }
{
    if link < links.len() {
        links[link].take_back();
    }
}

/// The last row of a link that was reconfirmed stands for all of its key.
pub(crate) fn settle_on(links: &mut Vec<AskedLink>, link: usize)
    ensures { links.new.items ≡ changed_at link settled links.old.items }
{
    if link < links.len() {
        links[link].settle();
    }
}

/// The rows of a link go that have gone or were heard since.
pub(crate) fn refresh_on(links: &mut Vec<AskedLink>, link: usize, cache: &Cache)
    ensures { links.new.items ≡ changed_at link (refreshed cache.now.state.rows) links.old.items }
{
    if link < links.len() {
        links[link].refresh(cache);
    }
}

/// A link was heard.
pub(crate) fn hear_on(links: &mut Vec<AskedLink>, link: usize, hearing: &[HeardRr], now: u64)
    requires { now ≤ max_moment }
    ensures { links.new.items ≡ changed_at link (heard_by now hearing.now) links.old.items }
{
    if link < links.len() {
        links[link].heard(hearing, now);
    }
}

/// What is sent for the first question of a link that is due, which is asked now; false where none is due, or there is no such
/// link.
pub(crate) fn ask_on(
    links: &mut Vec<AskedLink>,
    alloc: Global,
    link: usize,
    cache: &Cache,
    now: u64,
    out: &mut Vec<u8>,
) -> Result<bool, NoMemory>
    requires bounds { IfSome (slice_get links.old.items link) (λ l. AreBounds cache.now.state.rows l.kept) }
    requires moment { now ≤ max_moment }
    ensures links { IsOneAsked cache.now.state.rows link links.old.items links.new.items }
    ensures ok { IfOk result (λ found. (if found then Some out.new.items else None, map asking_of links.new.items) ≡ asked_on cache.now.state.rows now link (map asking_of links.old.items)) }
    ensures err { OnErr result (map asking_of links.new.items ≡ map asking_of links.old.items) }
    ensures none { IfOk result (λ found. found ≡ false → out.new.items ≡ out.old.items) }
    ensures nothing { OnErr result (out.new.items ≡ out.old.items) }
    ensures size { IfOk result (λ found. found ≡ true → length out.new.items ≤ max_datagram) }
{
    if link >= links.len() {
        return Ok(false);
    }
    links[link].next(alloc, cache, now, out)
}
