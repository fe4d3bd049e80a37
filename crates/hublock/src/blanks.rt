//! Ledgers that count nothing yet.

ghost use Rattle.std.specs.Prelude.{◌≡◌};
ghost use Rattle.hublock.specs.Feeds.{parts_each};

use crate::books::PARTS;
use std::sync::ledger::Blank;

/// Four ledgers that count nothing yet.
#[derive(Drop)]
pub struct Blanks {
    pub changes: Blank,
    pub heard: Blank,
    pub moments: Blank,
    pub made: Blank,
    pub ghost whole_changes: { changes.parts ≡ parts_each },
    pub ghost whole_heard: { heard.parts ≡ parts_each },
    pub ghost whole_moments: { moments.parts ≡ parts_each },
    pub ghost whole_made: { made.parts ≡ parts_each },
}

impl Blanks {
    /// Four new ledgers.
    pub fn new() -> Blanks {
        Blanks {
            changes: Blank::new(PARTS),
            heard: Blank::new(PARTS),
            moments: Blank::new(PARTS),
            made: Blank::new(PARTS),
        }
    }
}
