//! When a question is due (RFC 6762, 5.2).

ghost use Rattle.std.specs.Prelude.{◌≡◌, ◌+◌, ◌∷◌, [], min, fold, filter, nat_lt};
ghost use Rattle.rrset.specs.Records.{matches};
ghost use Rattle.rrset.specs.Tables.{counted};
ghost use Rattle.linkask.specs.Asking.{pause_after, refreshes};
ghost use Rattle.linkask.specs.Bounds.{asks_in, due_of};

use linkcache::HeardRow;
use rrset::{Key, Question, matches};

/// The longest pause between two asks of a question, in milliseconds (RFC 6762, 5.2).
pub const LONGEST_PAUSE: u64 = 3_600_000;

/// The pauses behind the asks number 0 to 12, in milliseconds.
const PAUSES: [u64; 13] = [
    1_000, 1_000, 2_000, 4_000, 8_000, 16_000, 32_000, 64_000, 128_000, 256_000, 512_000,
    1_024_000, 2_048_000,
];

/// What is kept of a question that is wanted.
#[derive(Clone, Copy, Debug)]
pub struct KeptAsks {
    /// How often it was asked since it is wanted.
    pub count: u64,
    /// The moment of the last time, in milliseconds; 0 where it was never asked.
    pub last: u64,
    /// How many reasons there are for it.
    pub reasons: u64,
    /// Before this moment it isn't due, in milliseconds.
    pub due: u64,
}

impl KeptAsks {
    /// A question that was never asked, with one reason for it.
    pub(crate) const ONE_REASON: KeptAsks = KeptAsks {
        count: 0,
        last: 0,
        reasons: 1,
        due: 0,
    };
}

/// The pause behind so many asks, in milliseconds: a second, then twice as long each time, an hour at most.
pub(crate) fn pause_after(count: u64) -> u64
    ensures { result ≡ pause_after count }
{
    if count <= 12 {
        PAUSES[count as usize]
    } else {
        LONGEST_PAUSE
    }
}

/// The sooner of a moment and of another, so long after it was heard, where that lies behind the last ask.
fn sooner(soonest: u64, last: u64, heard: u64, wait: u64) -> u64
    ensures { result ≡ fold min soonest (filter (nat_lt last) ((heard + wait) ∷ [])) }
{
    let moment = heard.saturating_add(wait);
    if moment > last {
        soonest.min(moment)
    } else {
        soonest
    }
}

/// The soonest of a moment and of those behind the last ask at which a row is asked for anew (RFC 6762, 5.2).
pub(crate) fn soonest_of(soonest: u64, last: u64, row: &HeardRow) -> u64
    ensures { result ≡ fold min soonest (filter (nat_lt last) (refreshes row.now)) }
{
    let step = 10 * u64::from(row.shown.ttl);
    let soonest = sooner(soonest, last, row.heard, step * 80);
    let soonest = sooner(soonest, last, row.heard, step * 85);
    let soonest = sooner(soonest, last, row.heard, step * 90);
    sooner(soonest, last, row.heard, step * 95)
}

/// The least moment at which a question is due for which these are the rows of its name, or the greatest of 64 bits where
/// it is later.
pub(crate) fn due_moment(rows: &[(Key, HeardRow)], question: &Question, asks: KeptAsks) -> u64
    ensures { result ≡ counted (due_of (filter (λ row. matches question.now row.0) rows.now) (asks_in asks)) }
{
    if asks.count == 0 {
        return 0;
    }
    let mut due = asks.last.saturating_add(pause_after(asks.count));
    'rows: for (key, row) in rows {
        if matches(question, key) {
            due = soonest_of(due, asks.last, row);
        }
    }
    due
}
