//! What was heard of a record (RFC 6762, 10).

ghost use Rattle.std.specs.Prelude.{◌≡◌, min, IfOk};
ghost use Rattle.linkcache.specs.Rows.{rr_of_row};

use rrset::{Copied, Key, NoMemory, Rr, Shown};

/// The most rows of a link (this project's own).
pub const MAX_ROWS: usize = 16_384;

/// How long a record stays that was taken back, or that others have replaced, in milliseconds (RFC 6762, 10.1 and 10.2).
pub const SECOND: u64 = 1_000;

/// How long a record stays that is reconfirmed and isn't heard, in milliseconds (RFC 6762, 10.4).
pub const RECONFIRMATION: u64 = 10_000;

/// A record of a link that was heard. Its names are those of the link.
#[derive(Debug, Drop)]
pub struct HeardRow {
    /// The owner, TTL and rdata as last heard with a TTL over 0.
    pub shown: Shown,
    /// When it was last heard with a TTL over 0, in milliseconds.
    pub heard: u64,
    /// When it ends, in milliseconds.
    pub ends: u64,
}

impl Copied for HeardRow {
    fn copied(&self) -> Result<HeardRow, NoMemory> {
        Ok(HeardRow {
            shown: self.shown.copy()?,
            heard: self.heard,
            ends: self.ends,
        })
    }
}

/// A row that ends by a moment.
pub(crate) fn ended_by(mut row: HeardRow, moment: u64) -> HeardRow
    ensures { result ≡ record row { ends = min row.ends moment } }
{
    row.ends = row.ends.min(moment);
    row
}

/// The record of a row.
pub(crate) fn record_of(key: &Key, row: &HeardRow) -> Result<Rr, NoMemory>
    ensures { IfOk result (λ rr. rr ≡ rr_of_row (key.now, row.now)) }
{
    let shown = row.shown.copy()?;
    Ok(Rr {
        owner: shown.owner,
        class: key.class,
        kind: key.kind,
        ttl: shown.ttl,
        rdata: shown.rdata,
    })
}
