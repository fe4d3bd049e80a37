//! The changes of an update (RFC 2136, 3.4.2).

ghost use Rattle.std.specs.Prelude.{◌≡◌, ◌==◌, ◌||◌, Some, is_some, fold, map, IfOk, OnOk};
ghost use Rattle.rrset.specs.RecordSet.{put_rr, without, shown_at};
ghost use Rattle.rrset.specs.Records.{key_of, shown_of, counted_ttl};
ghost use Rattle.zoneupdate.specs.Updates.{changed_by, with_counted_ttl, as_class_in};
ghost use Rattle.zoneupdate.specs.Changing.{has_other_kinds, has_alias, is_newer, newer_than, is_last, replaced, rows_added, rows_taken, rows_dropped, goes};

use crate::serial::{serial_is_greater, serial_of};
use crate::sets::{any_of_rrset, any_other_kind, count_of_rrset, first_of_rrset, take_set};
use dnsname::Name;
use dnsname::name::Octets;
use rrset::classes::{ANY, IN, NONE};
use rrset::kinds::{self, CNAME, NS, SOA};
use rrset::{Key, NoMemory, Rr, Rrs, Shown, Table};

/// The first TTL with its top bit set (RFC 2181, 8).
const FIRST_TOP_BIT: u32 = 1 << 31;

/// A TTL with its top bit set counts as 0 (RFC 2181, 8).
pub(crate) fn counted_ttl(ttl: u32) -> u32
    ensures { result ≡ counted_ttl ttl }
{
    if ttl < FIRST_TOP_BIT { ttl } else { 0 }
}

/// What is shown of a record that is added.
pub(crate) fn shown_of(rr: &Rr) -> Result<Shown, NoMemory>
    ensures { IfOk result (λ shown. shown ≡ shown_of (with_counted_ttl rr.now)) }
{
    Ok(Shown {
        owner: rr.owner.copy()?,
        ttl: counted_ttl(rr.ttl),
        rdata: Octets::from_slice(rr.rdata.allocator(), rr.rdata.as_slice())?,
    })
}

/// Adds a record, or another TTL and spelling of one that is there.
fn put(work: &mut Table, rr: &Rr) -> Result<(), NoMemory>
    ensures { OnOk result (work.new.rows ≡ put_rr work.old.rows (with_counted_ttl rr.now)) }
{
    work.put(rr.key()?, shown_of(rr)?)?;
    Ok(())
}

/// Whether a record's owner has records of other kinds.
fn has_other_kinds(work: &Table, rr: &Rr) -> bool
    ensures { result ≡ has_other_kinds work.now.rows rr.now.owner rr.now.kind }
{
    any_other_kind(work.at(&rr.owner), rr.kind)
}

/// Whether a record's owner is an alias.
fn has_alias(work: &Table, rr: &Rr) -> bool
    ensures { result ≡ has_alias work.now.rows rr.now.owner }
{
    any_of_rrset(work.at(&rr.owner), &rr.owner, CNAME)
}

/// Whether the serial of SOA rdata is greater than that of the record there.
fn is_newer_than(shown: &Shown, rdata: &[u8]) -> bool
    ensures { result ≡ newer_than rdata.now (Some shown.now) }
{
    let Some(old) = serial_of(shown.rdata.as_slice()) else {
        return false;
    };
    match serial_of(rdata) {
        Some(new) => serial_is_greater(new, old),
        None => false,
    }
}

/// Whether an SOA is newer than that of its owner.
fn is_newer(work: &Table, rr: &Rr) -> bool
    ensures { result ≡ is_newer work.now.rows rr.now.owner rr.now.rdata }
{
    match first_of_rrset(work.at(&rr.owner), &rr.owner, SOA) {
        Some(shown) => is_newer_than(shown, rr.rdata.as_slice()),
        None => false,
    }
}

/// Puts a record in place of those of its owner and kind.
fn replace(work: &mut Table, rr: &Rr) -> Result<(), NoMemory>
    ensures { OnOk result (work.new.rows ≡ replaced work.old.rows (with_counted_ttl rr.now)) }
{
    take_set(work, &rr.owner, rr.kind);
    put(work, rr)
}

/// A change of class IN.
#[tactic(auto, unfolding(crate::specs::Changing::rows_added))]
fn add(work: &mut Table, rr: &Rr) -> Result<(), NoMemory>
    ensures { OnOk result (work.new.rows ≡ rows_added work.old.rows (with_counted_ttl rr.now)) }
{
    match rr.kind {
        // An alias stands alone at its name.
        CNAME if has_other_kinds(work, rr) => Ok(()),
        CNAME => replace(work, rr),
        _ if has_alias(work, rr) => Ok(()),
        // The SOA is only replaced, and only by a newer one.
        SOA if is_newer(work, rr) => replace(work, rr),
        SOA => Ok(()),
        _ => put(work, rr),
    }
}

/// Takes out what a change of class ANY names, but not what the apex keeps.
#[tactic(auto, unfolding(crate::specs::Changing::rows_taken))]
fn take(work: &mut Table, apex: &Name, rr: &Rr)
    ensures { work.new.rows ≡ rows_taken apex.now work.old.rows (with_counted_ttl rr.now) }
{
    if rr.kind == kinds::ANY {
        take_name(work, apex, &rr.owner);
    } else if !(rr.owner.same(apex) && is_kept(rr.kind)) {
        take_set(work, &rr.owner, rr.kind);
    }
}

/// Whether the apex keeps the records of a kind.
fn is_kept(kind: u16) -> bool
    ensures { result ≡ (kind == 6 || kind == 2) }
{
    kind == SOA || kind == NS
}

/// Whether a key is of an owner, and none that the apex keeps.
fn goes(apex: &Name, owner: &Name, key: &Key) -> bool
    ensures { result ≡ goes apex.now owner.now key.now }
{
    owner.same(&key.owner) && !(owner.same(apex) && is_kept(key.kind))
}

/// Takes out the records of a name, but not those that the apex keeps.
fn take_name(work: &mut Table, apex: &Name, owner: &Name)
    ensures { work.new.rows ≡ without (goes apex.now owner.now) work.old.rows }
{
    work.retain(|key| !goes(apex, owner, key));
}

/// A record's key in class IN.
pub(crate) fn key_in_zone(rr: &Rr) -> Result<Key, NoMemory>
    ensures { IfOk result (λ key. key ≡ key_of (as_class_in rr.now)) }
{
    let mut key = rr.key()?;
    key.class = IN;
    Ok(key)
}

/// Whether a table shows something of a key.
fn shows(work: &Table, key: &Key) -> bool
    ensures { result ≡ is_some (shown_at key.now work.now.rows) }
{
    work.get(key).is_some()
}

/// Whether a record is the only NS of its owner.
fn is_last(work: &Table, rr: &Rr, key: &Key) -> bool
    requires ns { rr.now.kind ≡ 2 }
    requires key { key.now ≡ key_of (as_class_in rr.now) }
    ensures { result ≡ is_last work.now.rows (with_counted_ttl rr.now) }
{
    count_of_rrset(work.at(&rr.owner), &rr.owner, NS) == 1 && shows(work, key)
}

/// Takes out the record that a change of class NONE names, but no SOA, and not the last NS of the apex.
#[tactic(auto, unfolding(crate::specs::Changing::rows_dropped))]
fn drop_record(work: &mut Table, apex: &Name, rr: &Rr) -> Result<(), NoMemory>
    ensures { OnOk result (work.new.rows ≡ rows_dropped apex.now work.old.rows (with_counted_ttl rr.now)) }
{
    if rr.kind == SOA {
        return Ok(());
    }
    let key = key_in_zone(rr)?;
    if rr.kind == NS && rr.owner.same(apex) && is_last(work, rr, &key) {
        return Ok(());
    }
    work.remove(&key);
    Ok(())
}

/// Makes one change of an accepted update (RFC 2136, 3.4.2). Where memory runs out, it may be half made.
#[tactic(auto, using(crate::proofs::ByClass::adds, crate::proofs::ByClass::takes, crate::proofs::ByClass::drops, crate::proofs::ByClass::leaves))]
fn change(work: &mut Table, apex: &Name, rr: &Rr) -> Result<(), NoMemory>
    ensures { OnOk result (work.new.rows ≡ changed_by apex.now work.old.rows (with_counted_ttl rr.now)) }
{
    match rr.class {
        IN => add(work, rr),
        ANY => {
            take(work, apex, rr);
            Ok(())
        }
        NONE => drop_record(work, apex, rr),
        // The prescan refuses any other.
        _ => Ok(()),
    }
}

/// Makes the changes of an accepted update, one after the other. Where memory runs out, some may be made, and one
/// half made.
pub(crate) fn change_all(work: &mut Table, apex: &Name, changes: &Rrs) -> Result<(), NoMemory>
    ensures { OnOk result (work.new.rows ≡ fold (changed_by apex.now) work.old.rows (map with_counted_ttl changes.now)) }
{
    let list = changes.as_slice();
    'changes: for rr in list {
        change(work, apex, rr)?;
    }
    Ok(())
}
