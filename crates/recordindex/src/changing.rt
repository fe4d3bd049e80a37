//! The changes of an entry, made in the index of all records.

ghost use Rattle.std.specs.Prelude.{◌≡◌, ◌≤◌, ◌<◌, ◌+◌, ◌^◌, ◌∷◌, [], true, false, length, List, Some, None, is_some};
ghost use Rattle.std.specs.List.{AllByRecursion};
ghost use Rattle.dnsname.specs.Names.{lower};
ghost use Rattle.rrset.specs.Records.{same_key};
ghost use Rattle.rrset.specs.KeyedRows.{row_at};
ghost use Rattle.rrset.specs.RecordSet.{put, with_changed, with_changes, without};
ghost use Rattle.rrset.specs.Tables.{HasLowerOwner};
ghost use Rattle.rrset.specs.declared.record.Changed.{Changed};
ghost use Rattle.rrset.specs.declared.record.Key.{Key};
ghost use Rattle.rrset.specs.declared.record.Shown.{Shown};
ghost use Rattle.nametable.specs.Nodes.{HasRoomFor, keys_put};
ghost use Rattle.recordindex.specs.Endings.{HasRoomFor as HasPlacesFor, room_of};
ghost use Rattle.recordindex.specs.Owners.{AreOwners, HasPlacesToPut};

use crate::counting::tell_order;
use crate::suffixes::Suffixes;
use dnsname::Name;
use nametable::Index;
use push_base::Steps;
use rrset::{Changed, Key, Shown};
use std::sync::ledger::Ledger;

/// Shows this of a key, where there is room for it, and says whether something was shown of it. It counts one step.
fn put_in_room<L: Ledger>(index: &mut Index, key: Key, shown: Shown, steps: &mut Steps<L>) -> bool
    requires lower { HasLowerOwner key }
    requires room { HasRoomFor (key ∷ []) index.old.nodes }
    ensures found { result ≡ is_some (row_at key index.old.rows) }
    ensures rows { index.new.rows ≡ put key shown index.old.rows }
    ensures left { (others : List Key) → HasRoomFor (key ∷ others) index.old.nodes → HasRoomFor others index.new.nodes }
    ensures steps { steps.new ≡ steps.old + 1 }
{
    match index.put(key, shown, steps) {
        Ok(Some(_)) => true,
        Ok(None) => false,
        Err(_) => unreachable!(),
    }
}

/// Takes a key out, and says whether it was there. It counts one step.
fn remove_key<L: Ledger>(index: &mut Index, key: &Key, steps: &mut Steps<L>) -> bool
    ensures found { result ≡ is_some (row_at key.now index.old.rows) }
    ensures rows { index.new.rows ≡ without (same_key key.now) index.old.rows }
    ensures left { (others : List Key) → HasRoomFor others index.old.nodes → HasRoomFor others index.new.nodes }
    ensures steps { steps.new ≡ steps.old + 1 }
{
    match index.remove(key, steps) {
        Some(_) => true,
        None => false,
    }
}

/// Whether something is shown of a key.
fn is_shown(index: &Index, key: &Key) -> bool
    ensures { result ≡ is_some (row_at key.now index.now.rows) }
{
    match index.table().get(key) {
        Some(_) => true,
        None => false,
    }
}

/// Shows a key as it is now, where there is room for it, and counts its owner once more, if it is new. It counts one
/// step.
fn put_counted<L: Ledger>(
    index: &mut Index,
    suffixes: &mut Suffixes,
    owner: &Name,
    key: Key,
    shown: Shown,
    steps: &mut Steps<L>,
)
    requires same { owner.now ≡ key.owner }
    requires lower { HasLowerOwner key }
    requires room { HasRoomFor (key ∷ []) index.old.nodes }
    requires places { HasPlacesFor key.owner (room_of suffixes.old.kept) }
    requires few { suffixes.old.total < 2 ^ 63 }
    requires owners { AreOwners suffixes.old index.old.rows }
    ensures owners { AreOwners suffixes.new index.new.rows }
    ensures total { suffixes.new.total ≤ suffixes.old.total + 1 }
    ensures places { room_of suffixes.new.kept ≡ room_of suffixes.old.kept }
    ensures rows { index.new.rows ≡ put key shown index.old.rows }
    ensures left { (others : List Key) → HasRoomFor (key ∷ others) index.old.nodes → HasRoomFor others index.new.nodes }
    ensures steps { steps.new ≡ steps.old + 1 }
{
    // Its clause says that all keys are in order.
    tell_order(index);
    if put_in_room(index, key, shown, steps) {
        return;
    }
    suffixes.put(owner);
}

/// Counts the owner of a key that is put next once more, if the key is new.
fn count_ahead(index: &Index, suffixes: &mut Suffixes, key: &Key)
    requires places { HasPlacesFor key.now.owner (room_of suffixes.old.kept) }
    requires few { suffixes.old.total < 2 ^ 63 }
    requires owners { AreOwners suffixes.old index.now.rows }
    ensures owners { (shown : Shown) → AreOwners suffixes.new (put key.now shown index.now.rows) }
    ensures total { suffixes.new.total ≤ suffixes.old.total + 1 }
    ensures places { room_of suffixes.new.kept ≡ room_of suffixes.old.kept }
{
    // Its clause says that all keys are in order.
    tell_order(index);
    if is_shown(index, key) {
        return;
    }
    suffixes.put(&key.owner);
}

/// Shows a key as it is now, where there is room for it, and counts its owner once more, if it is new: where the owner
/// can't be copied, by a look-up before. It counts one step.
fn put_key<L: Ledger>(
    index: &mut Index,
    suffixes: &mut Suffixes,
    key: Key,
    shown: Shown,
    steps: &mut Steps<L>,
)
    requires lower { HasLowerOwner key }
    requires room { HasRoomFor (key ∷ []) index.old.nodes }
    requires places { HasPlacesFor key.owner (room_of suffixes.old.kept) }
    requires few { suffixes.old.total < 2 ^ 63 }
    requires owners { AreOwners suffixes.old index.old.rows }
    ensures owners { AreOwners suffixes.new index.new.rows }
    ensures total { suffixes.new.total ≤ suffixes.old.total + 1 }
    ensures places { room_of suffixes.new.kept ≡ room_of suffixes.old.kept }
    ensures rows { index.new.rows ≡ put key shown index.old.rows }
    ensures left { (others : List Key) → HasRoomFor (key ∷ others) index.old.nodes → HasRoomFor others index.new.nodes }
    ensures steps { steps.new ≡ steps.old + 1 }
{
    match key.owner.copy() {
        Ok(owner) => put_counted(index, suffixes, &owner, key, shown, steps),
        Err(_) => {
            count_ahead(index, suffixes, &key);
            put_in_room(index, key, shown, steps);
        }
    }
}

/// Takes a key out, and counts its owner once less, if it was there. It counts one step.
fn take_out<L: Ledger>(index: &mut Index, suffixes: &mut Suffixes, key: &Key, steps: &mut Steps<L>)
    requires { AreOwners suffixes.old index.old.rows }
    ensures owners { AreOwners suffixes.new index.new.rows }
    ensures total { suffixes.new.total ≤ suffixes.old.total }
    ensures places { room_of suffixes.new.kept ≡ room_of suffixes.old.kept }
    ensures rows { index.new.rows ≡ without (same_key key.now) index.old.rows }
    ensures left { (others : List Key) → HasRoomFor others index.old.nodes → HasRoomFor others index.new.nodes }
    ensures steps { steps.new ≡ steps.old + 1 }
{
    // Its clause says that all keys are in order.
    tell_order(index);
    if !remove_key(index, key, steps) {
        return;
    }
    suffixes.remove(&key.owner);
}

/// Shows a key as it is after a change, where there is room for it, and leaves the room of others. It counts one step.
fn make_change<L: Ledger>(
    index: &mut Index,
    suffixes: &mut Suffixes,
    change: Changed,
    steps: &mut Steps<L>,
)
    requires lower { HasLowerOwner change.key }
    requires room { HasRoomFor (keys_put (change ∷ [])) index.old.nodes }
    requires places { HasPlacesToPut (room_of suffixes.old.kept) change }
    requires few { suffixes.old.total < 2 ^ 63 }
    requires owners { AreOwners suffixes.old index.old.rows }
    ensures owners { AreOwners suffixes.new index.new.rows }
    ensures total { suffixes.new.total ≤ suffixes.old.total + 1 }
    ensures places { room_of suffixes.new.kept ≡ room_of suffixes.old.kept }
    ensures rows { index.new.rows ≡ with_changed index.old.rows change }
    ensures left { (others : List Changed) → HasRoomFor (keys_put (change ∷ others)) index.old.nodes → HasRoomFor (keys_put others) index.new.nodes }
    ensures steps { steps.new ≡ steps.old + 1 }
{
    let Changed {
        key,
        before: _,
        after,
    } = change;
    match after {
        Some(shown) => put_key(index, suffixes, key, shown, steps),
        None => take_out(index, suffixes, &key, steps),
    }
}

/// Makes changes, where there is room for all keys that they put. It takes no memory, and room that was made for other
/// plans may be given back. It counts a step for each.
pub(crate) fn make_all<L: Ledger>(
    index: &mut Index,
    suffixes: &mut Suffixes,
    changed: Vec<Changed>,
    steps: &mut Steps<L>,
)
    requires lower { AllByRecursion (λ c. HasLowerOwner c.key) changed.items }
    requires room { HasRoomFor (keys_put changed.items) index.old.nodes }
    requires places { AllByRecursion (HasPlacesToPut (room_of suffixes.old.kept)) changed.items }
    requires few { suffixes.old.total + length changed.items < 2 ^ 63 }
    requires owners { AreOwners suffixes.old index.old.rows }
    ensures owners { AreOwners suffixes.new index.new.rows }
    ensures rows { index.new.rows ≡ with_changes changed.items index.old.rows }
    ensures steps { steps.new ≡ steps.old + length changed.items }
{
    'changes: for change in changed {
        make_change(index, suffixes, change, steps);
    }
    index.give_back();
    suffixes.give_back();
}
