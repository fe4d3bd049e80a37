//! The changes of a plan, which take no memory.

ghost use Rattle.std.specs.Prelude.{◌≡◌, ◌∷◌, [], List};
ghost use Rattle.std.specs.List.{AllByRecursion};
ghost use Rattle.rrset.specs.RecordSet.{put, with_changed, with_changes};
ghost use Rattle.rrset.specs.Tables.{HasLowerOwner};
ghost use Rattle.rrset.specs.declared.record.Changed.{Changed};
ghost use Rattle.rrset.specs.declared.record.Key.{Key};
ghost use Rattle.nametable.specs.Nodes.{HasRoomFor, keys_put};

use nametable::NameTable;
use rrset::{Changed, Key, Shown};

/// Shows this of a key, where there is room for it.
fn put_in_room(rows: &mut NameTable, key: Key, shown: Shown)
    requires lower { HasLowerOwner key }
    requires room { HasRoomFor (key ∷ []) rows.old.nodes }
    ensures rows { rows.new.rows ≡ put key shown rows.old.rows }
    ensures left { (others : List Key) → HasRoomFor (key ∷ others) rows.old.nodes → HasRoomFor others rows.new.nodes }
{
    match rows.put(key, shown) {
        Ok(_) => {}
        Err(_) => unreachable!(),
    }
}

/// Shows a key as it is after a change, where there is room for it, and leaves the room of others.
fn make_change(rows: &mut NameTable, change: Changed)
    requires lower { HasLowerOwner change.key }
    requires room { HasRoomFor (keys_put (change ∷ [])) rows.old.nodes }
    ensures rows { rows.new.rows ≡ with_changed rows.old.rows change }
    ensures left { (others : List Changed) → HasRoomFor (keys_put (change ∷ others)) rows.old.nodes → HasRoomFor (keys_put others) rows.new.nodes }
{
    let Changed { key, after, .. } = change;
    match after {
        Some(shown) => put_in_room(rows, key, shown),
        None => {
            rows.remove(&key);
        }
    }
}

/// Makes the changes of a plan, where there is room for all keys that it puts. It takes no memory, and room that was
/// made for other plans may be given back.
pub fn make_changes(rows: &mut NameTable, changed: Vec<Changed>)
    requires lower { AllByRecursion (λ c. HasLowerOwner c.key) changed.items }
    requires room { HasRoomFor (keys_put changed.items) rows.old.nodes }
    ensures { rows.new.rows ≡ with_changes changed.items rows.old.rows }
{
    'changes: for change in changed {
        make_change(rows, change);
    }
    rows.give_back();
}
