//! Records that are heard want their questions asked anew before they go (RFC 6762, 5.2).

ghost use Rattle.std.specs.Prelude.{◌≡◌, ◌≤◌, min, IsTrue};
ghost use Rattle.push_base.specs.Limits.{max_moment};
ghost use Rattle.linkask.specs.Asking.{asked_for};
ghost use Rattle.linkask.specs.Bounds.{all_heard, are_kept, heard_again, lowered_for};

use crate::asks::KeptAsks;
use crate::entries::search;
use dnsname::Name;
use rrset::kinds::ANY;
use rrset::{HeardRr, Question, counted_ttl};

/// What is kept of a question, with a bound no later than a moment.
fn lowered(asks: KeptAsks, moment: u64) -> KeptAsks
    ensures { result ≡ record asks { due = min asks.due moment } }
{
    KeptAsks {
        due: asks.due.min(moment),
        ..asks
    }
}

/// Lowers the bound of the question for a name and a kind, if it is there.
fn lower_bound(entries: &mut [(Question, KeptAsks)], name: &Name, kind: u16, moment: u64)
    requires { IsTrue (are_kept entries.old) }
    ensures entries { entries.new ≡ lowered_for (asked_for name.now kind) moment entries.old }
    ensures order { IsTrue (are_kept entries.new) }
{
    let Ok(place) = search(entries, name, kind) else {
        return;
    };
    let asks = entries[place].1;
    entries[place].1 = lowered(asks, moment);
}

/// Lowers the bounds of the questions that ask for a record: those with its name, and its kind or any.
fn hear_one(entries: &mut [(Question, KeptAsks)], h: &HeardRr, now: u64)
    requires order { IsTrue (are_kept entries.old) }
    requires moment { now ≤ max_moment }
    ensures entries { entries.new ≡ heard_again now entries.old h.now }
    ensures order { IsTrue (are_kept entries.new) }
{
    let ttl = counted_ttl(h.rr.ttl);
    if ttl == 0 {
        return;
    }
    let moment = now + 800 * u64::from(ttl);
    lower_bound(entries, &h.rr.owner, h.rr.kind, moment);
    lower_bound(entries, &h.rr.owner, ANY, moment);
}

/// Lowers the bounds of the questions that ask for some records.
pub(crate) fn hear_all(entries: &mut [(Question, KeptAsks)], hearing: &[HeardRr], now: u64)
    requires order { IsTrue (are_kept entries.old) }
    requires moment { now ≤ max_moment }
    ensures { entries.new ≡ all_heard now hearing.now entries.old }
{
    'hearing: for h in hearing {
        hear_one(entries, h, now);
    }
}
