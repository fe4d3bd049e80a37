//! The changes of a plan, which take no memory.

ghost use Rattle.std.specs.Prelude.{◌≡◌, ◌≤◌, ◌+◌, ◌∷◌, [], List, false, None, IsTrue, length, map, option_map};
ghost use Rattle.std.specs.List.{AllByRecursion};
ghost use Rattle.clockqueue.specs.Deadlines.{moment_of, without};
ghost use Rattle.nametable.specs.Nodes.{HasRoomFor};
ghost use Rattle.rrset.specs.KeyedRows.{put_row, row_at};
ghost use Rattle.rrset.specs.Records.{key_cmp};
ghost use Rattle.rrset.specs.Tables.{HasLowerOwner};
ghost use Rattle.linkcache.specs.Ends.{AreEnds, with_end, with_end_change};
ghost use Rattle.linkcache.specs.Plans.{keys_put, with_row_change, with_row_changes};
ghost use Rattle.linkcache.specs.declared.plan.RowChange.{RowChange};
ghost use Rattle.linkcache.specs.declared.row.HeardRow.{HeardRow};
ghost use Rattle.rrset.specs.declared.record.Key.{Key};

use crate::end_key::EndKey;
use crate::plan::{PlannedRow, RowChange};
use crate::row::HeardRow;
use clockqueue::Deadlines;
use nametable::NameTable;
use rrset::Key;

/// Puts a row at a key, where there is room for it, and gives the row that it had.
fn put_in_room(rows: &mut NameTable<HeardRow>, key: Key, row: HeardRow) -> Option<HeardRow>
    requires lower { HasLowerOwner key }
    requires room { HasRoomFor (key ∷ []) rows.old.nodes }
    ensures value { result ≡ row_at key rows.old.rows }
    ensures rows { rows.new.rows ≡ put_row key row rows.old.rows }
    ensures left { (others : List Key) → HasRoomFor (key ∷ others) rows.old.nodes → HasRoomFor others rows.new.nodes }
{
    match rows.put(key, row) {
        Ok(before) => before,
        Err(_) => unreachable!(),
    }
}

/// Puts or takes out the row of a key as a change has it, where there is room for it, leaves the room of others, and gives
/// the row that the key had.
fn change_row(rows: &mut NameTable<HeardRow>, change: RowChange) -> Option<HeardRow>
    requires lower { HasLowerOwner change.key }
    requires room { HasRoomFor (keys_put (change ∷ [])) rows.old.nodes }
    ensures value { result ≡ row_at change.key rows.old.rows }
    ensures rows { rows.new.rows ≡ with_row_change rows.old.rows change }
    ensures left { (others : List RowChange) → HasRoomFor (keys_put (change ∷ others)) rows.old.nodes → HasRoomFor (keys_put others) rows.new.nodes }
{
    let RowChange { key, after } = change;
    match after {
        Some(row) => put_in_room(rows, key, row),
        None => rows.remove(&key),
    }
}

/// When a row ends, if there is one.
fn end_of(row: &Option<HeardRow>) -> Option<u64>
    ensures { result ≡ option_map (λ (row : HeardRow). row.ends) row.now }
{
    match row {
        Some(row) => Some(row.ends),
        None => None,
    }
}

/// Takes out the moment of a key, if it has one.
fn take_end(ends: &mut Deadlines<EndKey>, key: &EndKey, before: Option<u64>)
    requires { moment_of key_cmp key.now ends.old.deadlines ≡ before }
    ensures deadlines { ends.new.deadlines ≡ without key_cmp key.now ends.old.deadlines }
    ensures room { ends.old.spare ≤ ends.new.spare }
{
    if let Some(moment) = before {
        ends.take_at(key, moment);
    }
}

/// Gives a key a moment, if there is one, where it has none and there is room for it.
fn put_end(ends: &mut Deadlines<EndKey>, key: EndKey, after: Option<u64>)
    requires none { moment_of key_cmp key ends.old.deadlines ≡ None }
    requires room { 1 ≤ ends.old.spare }
    ensures deadlines { ends.new.deadlines ≡ with_end ends.old.deadlines key after }
    ensures room { ends.old.spare ≤ ends.new.spare + 1 }
{
    if let Some(moment) = after {
        match ends.add(key, moment) {
            Ok(()) => {}
            Err(_) => unreachable!(),
        }
    }
}

/// Whether two moments are one, or neither is there.
fn same_end(before: Option<u64>, after: Option<u64>) -> bool
    ensures { IsTrue result → before ≡ after }
{
    match (before, after) {
        (Some(before), Some(after)) => before == after,
        (None, None) => true,
        _ => false,
    }
}

/// Changes the moment of a key from one to another, where there is room for it. Nothing is moved where the row keeps its
/// end.
fn change_end(ends: &mut Deadlines<EndKey>, key: EndKey, before: Option<u64>, after: Option<u64>)
    requires before { moment_of key_cmp key ends.old.deadlines ≡ before }
    requires room { 1 ≤ ends.old.spare }
    ensures ends { (query : Key) → moment_of key_cmp query ends.new.deadlines ≡ moment_of key_cmp query (with_end (without key_cmp key ends.old.deadlines) key after) }
    ensures room { ends.old.spare ≤ ends.new.spare + 1 }
{
    if same_end(before, after) {
        return;
    }
    take_end(ends, &key, before);
    put_end(ends, key, after);
}

/// Makes a change of a row, and of the moment at which it ends, where there is room for both. The key is looked for once:
/// when its row ended the row tells that the change gives back.
fn make_change(rows: &mut NameTable<HeardRow>, ends: &mut Deadlines<EndKey>, planned: PlannedRow)
    requires lower { HasLowerOwner planned.change.key }
    requires again { planned.again ≡ planned.change.key }
    requires ends { AreEnds ends.old.deadlines rows.old.rows }
    requires row_room { HasRoomFor (keys_put (planned.change ∷ [])) rows.old.nodes }
    requires end_room { 1 ≤ ends.old.spare }
    ensures rows { rows.new.rows ≡ with_row_change rows.old.rows planned.change }
    ensures ends { AreEnds ends.new.deadlines rows.new.rows }
    ensures left { (others : List RowChange) → HasRoomFor (keys_put (planned.change ∷ others)) rows.old.nodes → HasRoomFor (keys_put others) rows.new.nodes }
    ensures end_room { ends.old.spare ≤ ends.new.spare + 1 }
{
    let PlannedRow { change, again } = planned;
    let after = end_of(&change.after);
    let before = change_row(rows, change);
    let ended = end_of(&before);
    change_end(ends, again, ended, after);
}

/// Makes the changes of a plan, where there is room for all of its keys. It takes no memory, and room that was made for
/// other plans may be given back.
pub(crate) fn make_changes(
    rows: &mut NameTable<HeardRow>,
    ends: &mut Deadlines<EndKey>,
    changes: Vec<PlannedRow>,
)
    requires lower { AllByRecursion (λ r. HasLowerOwner r.change.key) changes.items }
    requires again { AllByRecursion (λ r. r.again ≡ r.change.key) changes.items }
    requires ends { AreEnds ends.old.deadlines rows.old.rows }
    requires row_room { HasRoomFor (keys_put (map (λ r. r.change) changes.items)) rows.old.nodes }
    requires end_room { length changes.items ≤ ends.old.spare }
    ensures rows { rows.new.rows ≡ with_row_changes (map (λ r. r.change) changes.items) rows.old.rows }
    ensures ends { AreEnds ends.new.deadlines rows.new.rows }
{
    'changes: for change in changes {
        make_change(rows, ends, change);
    }
    rows.give_back();
}
