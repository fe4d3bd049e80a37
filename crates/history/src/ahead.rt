//! Homes ahead of a start, to which it goes on without a plan.

ghost use Rattle.std.specs.Prelude.{◌≡◌, ◌≤◌, ◌<◌, ◌+◌, ◌&&◌, List, drop, length, nat_le, nat_lt, IfSome};
ghost use Rattle.history.specs.States.{State, state_at};
ghost use Rattle.history.specs.Kept.{at_moment};
ghost use Rattle.history.specs.Forgetting.{IsAhead};
ghost use Rattle.history.specs.declared.entry.Entry.{Entry};

use crate::homes::Homes;

/// What a start becomes by so many of the entries behind it, and the moment then.
#[derive(Debug, Drop)]
pub(crate) struct Ahead {
    pub(crate) homes: Homes,
    pub(crate) moment: u64,
    pub(crate) count: usize,
}

/// Half a journal: behind so many entries homes are copied.
const HALF_ENTRIES: usize = 32_768;

/// The most rows of homes that are copied.
const MOST_ROWS: usize = 65_536;

/// Whether homes behind so many entries, at a point, are copied, where none from the point `keep` on may go: with half a
/// journal; with more, as none were copied then, at one point of so many.
fn is_time(entries: usize, keep: u64, point: u64) -> bool {
    if keep == point {
        return false;
    }
    entries == HALF_ENTRIES || entries > HALF_ENTRIES && point % HALF_ENTRIES as u64 == 0
}

/// A copy of homes at a moment, which are behind so many entries, where it is time for it, they aren't too large, and there
/// is memory for it.
fn copied_ahead(homes: &Homes, moment: u64, count: usize, keep: u64, point: u64) -> Option<Ahead>
    ensures state { IfSome result (λ ahead. at_moment ahead.homes ahead.moment ≡ at_moment homes.now moment) }
    ensures count { IfSome result (λ ahead. ahead.count ≡ count) }
{
    if !is_time(count, keep, point) {
        return None;
    }
    if homes.rows() > MOST_ROWS {
        return None;
    }
    match homes.copy() {
        Ok(copy) => Some(Ahead {
            homes: copy,
            moment,
            count,
        }),
        Err(_) => None,
    }
}

/// Whether entries must go, and so many are enough and not too many.
fn is_between(count: usize, over: usize, most: usize) -> bool
    ensures { result ≡ (nat_lt 0 over && nat_le over count && nat_le count most) }
{
    0 < over && over <= count && count <= most
}

/// Takes homes ahead that are behind at least one entry, no fewer than must go and no more than may.
pub(crate) fn take_ahead(ahead: &mut Option<Ahead>, over: usize, most: usize) -> Option<Ahead>
    ensures least { IfSome result (λ taken. over ≤ taken.count) }
    ensures most { IfSome result (λ taken. taken.count ≤ most) }
    ensures taken { (start : State) (entries : List Entry) → IfSome ahead.old (IsAhead start entries) → IfSome result (IsAhead start entries) }
    ensures left { (start : State) (entries : List Entry) → IfSome ahead.old (IsAhead start entries) → IfSome ahead.new (IsAhead start entries) }
{
    let taken = ahead.take()?;
    if is_between(taken.count, over, most) {
        Some(taken)
    } else {
        *ahead = Some(taken);
        None
    }
}

/// Homes ahead, counted from a start that has gone on by fewer entries.
fn counted_later(ahead: Ahead, count: usize) -> Ahead
    requires { count < ahead.count }
    ensures { (start : State) (entries : List Entry) → IsAhead start entries ahead → IsAhead (state_at start entries count) (drop count entries) result }
{
    Ahead {
        homes: ahead.homes,
        moment: ahead.moment,
        count: ahead.count - count,
    }
}

/// Homes ahead of a start that has gone on by so many entries; none where it has come to them.
fn still_ahead(ahead: Option<Ahead>, count: usize) -> Option<Ahead>
    ensures { (start : State) (entries : List Entry) → IfSome ahead (IsAhead start entries) → IfSome result (IsAhead (state_at start entries count) (drop count entries)) }
{
    let kept = ahead?;
    if count < kept.count {
        Some(counted_later(kept, count))
    } else {
        None
    }
}

/// The homes ahead of a start that has gone on by so many entries and has others left behind it, up to homes at a moment and
/// a point: those that still are ahead, or else perhaps a copy of the newest.
pub(crate) fn ahead_later(
    ahead: Option<Ahead>,
    count: usize,
    left: usize,
    homes: &Homes,
    moment: u64,
    keep: u64,
    point: u64,
) -> Option<Ahead>
    ensures { (start : State) (entries : List Entry) → IfSome ahead (IsAhead start entries) → count + left ≡ length entries → at_moment homes.now moment ≡ state_at start entries (length entries) → IfSome result (IsAhead (state_at start entries count) (drop count entries)) }
{
    match still_ahead(ahead, count) {
        Some(kept) => Some(kept),
        None => copied_ahead(homes, moment, left, keep, point),
    }
}
