//! The owners of records, counted.

ghost use Rattle.std.specs.Prelude.{◌≡◌, ◌+◌, ◌<◌, ◌^◌, IfOk, OnOk, List, T, length, nat_lt};
ghost use Rattle.std.specs.List.{AllByRecursion, list_any};
ghost use Rattle.dnsname.specs.Names.{Labels, ends_in};
ghost use Rattle.rrset.specs.KeyedRows.{is_rising, rows_of};
ghost use Rattle.rrset.specs.Tables.{HasLowerOwner, HaveLowerOwners};
ghost use Rattle.recordindex.specs.Endings.{AreCounted, HasRoomFor, room_of};
ghost use Rattle.recordindex.specs.Owners.{AreOwners, HasPlacesToPut};

use crate::suffixes::Suffixes;
use dnsname::Name;
use nametable::Index;
use rrset::{Changed, Key, NoMemory, Shown};
use std::alloc::Global;

/// So many owners there may never be.
const MAX_OWNERS: usize = 0x8000_0000_0000_0000;

/// The owners of records.
pub(crate) fn count_owners(alloc: Global, rows: &[(Key, Shown)]) -> Result<Suffixes, NoMemory>
    requires { HaveLowerOwners rows.now }
    ensures { IfOk result (λ suffixes. AreOwners suffixes rows.now) }
{
    let mut suffixes = Suffixes::new(alloc);
    'rows: for row in rows {
        suffixes.reserve_for(&row.0.owner)?;
        suffixes.put(&row.0.owner);
    }
    Ok(suffixes)
}

/// All owners are in lower case, and all keys in order.
pub(crate) fn tell_order(index: &Index)
    ensures lower { HaveLowerOwners index.now.rows }
    ensures order { T (is_rising index.now.rows) }
{
    index.table().blocks();
}

/// Whether there are rows of an owner.
fn has_rows(index: &Index, owner: &Name) -> bool
    ensures { result ≡ nat_lt 0 (length (rows_of owner.now index.now.rows)) }
{
    index.table().at(owner).len() > 0
}

/// Whether the owner of a row ends in a name: properly, or it is that.
pub(crate) fn below_in(index: &Index, suffixes: &Suffixes, name: &Name) -> bool
    requires { AreOwners suffixes.now index.now.rows }
    ensures { result ≡ list_any (λ e. ends_in e.0.owner name.now) index.now.rows }
{
    // Its clauses say that all owners are in lower case.
    tell_order(index);
    suffixes.below(name) || has_rows(index, name)
}

/// Makes room for the owner of a key that a change puts.
fn reserve_owner(suffixes: &mut Suffixes, change: &Changed) -> Result<(), NoMemory>
    requires lower { HasLowerOwner change.now.key }
    ensures owners { (owners : List Labels) → AreCounted owners suffixes.old → AreCounted owners suffixes.new }
    ensures total { suffixes.new.total ≡ suffixes.old.total }
    ensures room { OnOk result ((owners : List Labels) → AreCounted owners suffixes.old → HasPlacesToPut (room_of suffixes.new.kept) change.now) }
    ensures kept { (name : Labels) → HasRoomFor name (room_of suffixes.old.kept) → HasRoomFor name (room_of suffixes.new.kept) }
{
    if change.after.is_none() {
        return Ok(());
    }
    suffixes.reserve_for(&change.key.owner)
}

/// Makes room for the owners of the keys that changes put.
pub(crate) fn reserve_owners(suffixes: &mut Suffixes, changed: &[Changed]) -> Result<(), NoMemory>
    requires lower { AllByRecursion (λ c. HasLowerOwner c.key) changed.now }
    ensures owners { (owners : List Labels) → AreCounted owners suffixes.old → AreCounted owners suffixes.new }
    ensures room { OnOk result ((owners : List Labels) → AreCounted owners suffixes.old → AllByRecursion (HasPlacesToPut (room_of suffixes.new.kept)) changed.now) }
    ensures few { OnOk result (suffixes.new.total + length changed.now < 2 ^ 63) }
{
    if suffixes.len() >= MAX_OWNERS - changed.len() {
        return Err(NoMemory);
    }
    'changes: for change in changed {
        reserve_owner(suffixes, change)?;
    }
    Ok(())
}
