//! Room for rows of a link: how many there may be, and how many octets of an owner.

ghost use Rattle.std.specs.Prelude.{◌≡◌, ◌≤◌, ◌<◌, ◌+◌, ◌^◌, ◌||◌, ◌==◌, true, false, length, sum_by, nat_le, IfOk, IfSome, IsTrue};
ghost use Rattle.push_base.specs.Limits.{max_octets_at_name};
ghost use Rattle.std.specs.List.{AllByRecursion};
ghost use Rattle.dnsname.specs.Names.{octets, same_name};
ghost use Rattle.rrset.specs.KeyedRows.{is_rising, row_at};
ghost use Rattle.rrset.specs.Kinds.{a_kind, aaaa_kind};
ghost use Rattle.rrset.specs.Records.{key_of, rr_size};
ghost use Rattle.rrset.specs.Tables.{counted};
ghost use Rattle.linkmap.specs.Translation.{local, renamed, renamed_rr};
ghost use Rattle.reversemap.specs.BothKinds.{is_used};
ghost use Rattle.linkcache.specs.Parts.{laid};
ghost use Rattle.linkcache.specs.Rows.{has_key, row_has_room, rr_of_row, size_under};
ghost use Rattle.linkcache.specs.Sound.{AreLinkRows, IsLinkRow};
ghost use Rattle.linkcache.specs.Taking.{IsTaken, IsTakenBy, owner_key};
ghost use Rattle.linkcache.specs.declared.rules.LinkRules.{LinkRules};

use crate::kinds::translated_size;
use crate::laying::{has, new_rows};
use crate::row::{HeardRow, MAX_ROWS, record_of};
use crate::rules::LinkRules;
use dnsname::Name;
use linkmap::ends_in_local;
use nametable::NameTable;
use push_base::Octets;
use push_base::limits::MAX_OCTETS_AT_NAME;
use rrset::kinds::{A, AAAA};
use rrset::{FIXED_FIELDS, HeardRr, Key, NoMemory, Table};
use std::alloc::Global;

/// The octets of `local.` (RFC 1035, 3.1).
const LOCAL_OCTETS: u64 = 7;

/// The octets of a name with a domain in place of `local.`, if it ends in that, without making it.
fn renamed_octets(domain: &Name, name: &Name) -> u64
    ensures octets { result ≡ length (octets (renamed local domain.now name.now)) }
    ensures few { result ≤ 510 }
{
    let octets = name.octets().len() as u64;
    if !ends_in_local(name) {
        return octets;
    }
    let grown = octets + domain.octets().len() as u64;
    grown - LOCAL_OCTETS
}

/// Whether rdata of a kind is an address, in which no name stands.
fn is_address(kind: u16) -> bool
    ensures { result ≡ (kind == a_kind || kind == aaaa_kind) }
{
    kind == A || kind == AAAA
}

/// The octets of an address's row under the domain, under which its owner has so many. No name is made.
fn size_of_address(rules: &LinkRules, owner: u64, key: &Key, row: &HeardRow) -> u64
    requires address { (key.now.kind == a_kind || key.now.kind == aaaa_kind) ≡ true }
    requires owner { owner ≡ length (octets (renamed local rules.now.domain row.now.shown.owner)) }
    requires few { owner ≤ 510 }
    ensures { result ≡ rr_size (renamed_rr local rules.now.domain (rr_of_row (key.now, row.now))) }
{
    let rdata = row.shown.rdata.as_slice().len() as u64;
    owner + FIXED_FIELDS + rdata
}

/// The octets of a row's record under the domain, under which its owner has so many.
fn size_of_row(
    alloc: Global,
    rules: &LinkRules,
    owner: u64,
    key: &Key,
    row: &HeardRow,
) -> Result<u64, NoMemory>
    requires row { IsLinkRow rules.now (key.now, row.now) }
    requires owner { owner ≡ length (octets (renamed local rules.now.domain row.now.shown.owner)) }
    requires few { owner ≤ 510 }
    ensures { IfOk result (λ size. size ≡ rr_size (renamed_rr local rules.now.domain (rr_of_row (key.now, row.now)))) }
{
    if is_address(key.kind) {
        return Ok(size_of_address(rules, owner, key, row));
    }
    let rr = record_of(key, row)?;
    translated_size(alloc, rules, &rr)
}

/// The octets of the records under the domain of some rows of an owner, whose own octets are counted once.
fn size_under(
    alloc: Global,
    rules: &LinkRules,
    owner: &Name,
    rows: &[(Key, HeardRow)],
) -> Result<u64, NoMemory>
    requires rows { AreLinkRows rules.now rows.now }
    requires owner { AllByRecursion (λ row. IsTrue (same_name owner.now row.0.owner)) rows.now }
    ensures { IfOk result (λ size. size ≡ counted (sum_by (λ row. rr_size (renamed_rr local rules.now.domain (rr_of_row row))) rows.now)) }
{
    let octets = renamed_octets(&rules.domain, owner);
    let mut size: u64 = 0;
    'rows: for (key, row) in rows {
        size = size.saturating_add(size_of_row(alloc, rules, octets, key, row)?);
    }
    Ok(size)
}

/// The octets of an owner's records under the domain, of a link's and of those over them.
fn size_at(
    alloc: Global,
    rules: &LinkRules,
    rows: &NameTable<HeardRow>,
    over: &Table<HeardRow>,
    owner: &Name,
) -> Result<u64, NoMemory>
    requires order { IsTrue (is_rising rows.now.rows) }
    requires rows { AreLinkRows rules.now rows.now.rows }
    requires later { AreLinkRows rules.now (laid over.now.rows rows.now.rows) }
    ensures { IfOk result (λ size. size ≡ counted (size_under rules.now owner.now (laid over.now.rows rows.now.rows))) }
{
    let _ = over.entries();
    let there = size_under(alloc, rules, owner, rows.at(owner))?;
    let new = new_rows(alloc, rows, over.at(owner))?;
    let added = size_under(alloc, rules, owner, &new)?;
    Ok(there.saturating_add(added))
}

/// Whether an owner may have so many octets, and so many more.
fn fits(taken: u64, added: u64) -> bool
    ensures { result ≡ nat_le (taken + added) max_octets_at_name }
{
    taken.saturating_add(added) <= MAX_OCTETS_AT_NAME
}

/// The key under which the octets of an owner are kept.
fn owner_key(alloc: Global, owner: &Name) -> Result<Key, NoMemory>
    ensures { IfOk result (λ key. key ≡ owner_key owner.now) }
{
    Ok(Key {
        owner: owner.lower()?,
        class: 0,
        kind: 0,
        rdata: Octets::new(alloc),
    })
}

/// What a link's rows and those over them take: how many they are, and how many octets the owners have that were asked
/// for.
#[derive(Debug, Drop)]
pub(crate) struct Taken {
    pub(crate) rows: usize,
    pub(crate) sizes: Table<u64>,
}

/// What a link's rows take, with none over them.
pub(crate) fn taken_by(alloc: Global, rows: &NameTable<HeardRow>) -> Taken
    requires { length rows.now.rows < 2 ^ 64 }
    ensures { (rules : LinkRules) → IsTaken rules rows.now.rows result.rows result.sizes.rows }
{
    Taken {
        rows: rows.len(),
        sizes: Table::new(alloc),
    }
}

/// The octets of an owner's records under the domain, of a link's and of those over them. They are counted where they
/// aren't kept.
fn size_of_owner(
    alloc: Global,
    rules: &LinkRules,
    rows: &NameTable<HeardRow>,
    over: &Table<HeardRow>,
    sizes: &Table<u64>,
    key: &Key,
    owner: &Name,
) -> Result<u64, NoMemory>
    requires order { IsTrue (is_rising rows.now.rows) }
    requires rows { AreLinkRows rules.now rows.now.rows }
    requires later { AreLinkRows rules.now (laid over.now.rows rows.now.rows) }
    requires kept { IfSome (row_at key.now sizes.now.rows) (λ size. size ≡ counted (size_under rules.now owner.now (laid over.now.rows rows.now.rows))) }
    ensures { IfOk result (λ size. size ≡ counted (size_under rules.now owner.now (laid over.now.rows rows.now.rows))) }
{
    match sizes.get(key) {
        Some(size) => Ok(*size),
        None => size_at(alloc, rules, rows, over, owner),
    }
}

/// Takes room for a record that isn't there beside the rows of a link and those over them, and says whether there is. The
/// octets of its owner are kept, so they are counted once in a hearing.
fn take_room(
    alloc: Global,
    rules: &LinkRules,
    rows: &NameTable<HeardRow>,
    over: &Table<HeardRow>,
    taken: &mut Taken,
    heard: &HeardRr,
) -> Result<bool, NoMemory>
    requires order { IsTrue (is_rising rows.now.rows) }
    requires rows { AreLinkRows rules.now rows.now.rows }
    requires later { AreLinkRows rules.now (laid over.now.rows rows.now.rows) }
    requires usable { is_used rules.now.domain rules.now.reverses heard.now.rr ≡ true }
    requires absent { has_key (key_of heard.now.rr) (laid over.now.rows rows.now.rows) ≡ false }
    requires taken { IsTaken rules.now (laid over.now.rows rows.now.rows) taken.old.rows taken.old.sizes.rows }
    ensures room { IfOk result (λ room. room ≡ row_has_room rules.now 0 (laid over.now.rows rows.now.rows) heard.now.rr) }
    ensures taken { IfOk result (λ room. IsTakenBy room rules.now (laid over.now.rows rows.now.rows) heard.now taken.new.rows taken.new.sizes.rows) }
{
    if taken.rows >= MAX_ROWS {
        return Ok(false);
    }
    let added = translated_size(alloc, rules, &heard.rr)?;
    let owner = owner_key(alloc, &heard.rr.owner)?;
    let size = size_of_owner(
        alloc,
        rules,
        rows,
        over,
        &taken.sizes,
        &owner,
        &heard.rr.owner,
    )?;
    if !fits(size, added) {
        taken.sizes.put(owner, size)?;
        return Ok(false);
    }
    taken.sizes.put(owner, size.saturating_add(added))?;
    taken.rows += 1;
    Ok(true)
}

/// Whether a record may stand: there is a row of it, or room for one, which is taken then.
pub(crate) fn may_stand(
    alloc: Global,
    rules: &LinkRules,
    rows: &NameTable<HeardRow>,
    over: &Table<HeardRow>,
    taken: &mut Taken,
    key: &Key,
    heard: &HeardRr,
) -> Result<bool, NoMemory>
    requires order { IsTrue (is_rising rows.now.rows) }
    requires rows { AreLinkRows rules.now rows.now.rows }
    requires later { AreLinkRows rules.now (laid over.now.rows rows.now.rows) }
    requires usable { is_used rules.now.domain rules.now.reverses heard.now.rr ≡ true }
    requires key { key.now ≡ key_of heard.now.rr }
    requires taken { IsTaken rules.now (laid over.now.rows rows.now.rows) taken.old.rows taken.old.sizes.rows }
    ensures may { IfOk result (λ may. may ≡ (has_key key.now (laid over.now.rows rows.now.rows) || row_has_room rules.now 0 (laid over.now.rows rows.now.rows) heard.now.rr)) }
    ensures taken { IfOk result (λ may. IsTakenBy may rules.now (laid over.now.rows rows.now.rows) heard.now taken.new.rows taken.new.sizes.rows) }
{
    if has(rows, over, key) {
        return Ok(true);
    }
    take_room(alloc, rules, rows, over, taken, heard)
}
