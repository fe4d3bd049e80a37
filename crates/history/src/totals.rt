//! How many entries of each group a history has.

ghost use Rattle.std.specs.Prelude.{◌≡◌, ◌<◌, []};
ghost use Rattle.push_base.specs.Limits.{max_number};
ghost use Rattle.history.specs.Totals.{and_one, totals};

use crate::entry::{Entry, Totals};

impl Totals {
    /// Those of no entries.
    pub(crate) fn none() -> Totals
        ensures { result ≡ totals [] }
    {
        Totals {
            changes: 0,
            heard: 0,
            moments: 0,
        }
    }

    /// Those with one entry more.
    pub(crate) fn and_one(self, entry: &Entry) -> Totals
        requires changes { self.changes < max_number }
        requires heard { self.heard < max_number }
        requires moments { self.moments < max_number }
        ensures { result ≡ and_one entry.now self }
    {
        match entry {
            Entry::Update(_) | Entry::Reconfirm(_, _) => Totals {
                changes: self.changes + 1,
                ..self
            },
            Entry::Heard(_, _) | Entry::LinkGone(_) => Totals {
                heard: self.heard + 1,
                ..self
            },
            Entry::Moment(_) => Totals {
                moments: self.moments + 1,
                ..self
            },
        }
    }
}
