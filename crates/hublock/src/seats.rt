//! How many sessions were made.

use crate::books::{Books, Sessions};
use std::marker::Model;
use std::sync::ledger::Share;

/// Every part of the ledger of sessions: so many were made.
#[derive(Drop)]
pub struct Seats<B: Books> {
    pub(crate) share: Share<Sessions<B>>,
}

impl<B: Books> Model for Seats<B> {
    ghost use Rattle.hublock.specs.Feeds.{SeatState};

    ghost Value = { SeatState };

    ghost view = { λ s. record { parts = s.share.parts; made = s.share.amount } };

    ghost use Rattle.std.specs.Prelude.{◌<◌};

    ghost invariant = { λ s. 0 < s.share.parts };
}
