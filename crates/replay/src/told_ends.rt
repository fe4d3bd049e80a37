//! Where first answers end, as it was told last.

ghost use Rattle.std.specs.Prelude.{◌≡◌, ◌≤◌, ◌++◌, ℕ, false, filter, length, take, OnOk};
ghost use Rattle.inflight.specs.Ends.{told_end};
ghost use Rattle.replay.specs.KeptExchanges.{has_end, not_told};

use crate::settling::drop_front;
use push_base::NoMemory;

/// What is told now goes before what was told earlier, of which only the other IDs are left. Where both begin alike, that much
/// stays: so what is told once more costs a comparison.
pub(crate) fn put_in_front(
    told: &[(u16, u64)],
    filled: &mut Vec<(u16, u64)>,
) -> Result<(), NoMemory>
    ensures { OnOk result ((id : ℕ) → told_end filled.new.items id ≡ told_end (told.now ++ filled.old.items) id) }
{
    let same = same_front(told, filled);
    if same >= told.len() {
        return Ok(());
    }
    drop_front(filled, same);
    take_out(&told[same..], filled);
    push_front(told, filled)
}

// How many ends both begin with.
fn same_front(told: &[(u16, u64)], filled: &[(u16, u64)]) -> usize
    ensures same { take result told.now ≡ take result filled.now }
    ensures within { result ≤ length told.now }
{
    let least = told.len().min(filled.len());
    'told: for place in 0..least {
        if is_other(told[place], filled[place]) {
            return place;
        }
    }
    least
}

// Whether two ends differ, or are of two IDs.
fn is_other(first: (u16, u64), second: (u16, u64)) -> bool
    ensures { result ≡ false → first ≡ second }
{
    first.0 != second.0 || first.1 != second.1
}

// Takes out the IDs that are told.
fn take_out(told: &[(u16, u64)], filled: &mut Vec<(u16, u64)>)
    ensures { filled.new.items ≡ filter (not_told told.now) filled.old.items }
{
    filled.retain(|entry| !has_end(told, entry.0));
}

// Whether the end of an ID is told.
fn has_end(told: &[(u16, u64)], id: u16) -> bool
    ensures { result ≡ has_end told.now id }
{
    told.iter().any(|entry| entry.0 == id)
}

// What is told, and then what was told earlier.
fn push_front(told: &[(u16, u64)], filled: &mut Vec<(u16, u64)>) -> Result<(), NoMemory>
    ensures { OnOk result (filled.new.items ≡ told.now ++ filled.old.items) }
{
    filled.extend_from_slice(told)?;
    filled.rotate_right(told.len());
    Ok(())
}
