//! A wish as it is kept.

ghost use Rattle.std.specs.Prelude.{◌≡◌, ◌==◌};
ghost use Rattle.std.specs.List.{list_any};
ghost use Rattle.pushclient.specs.Clients.{id_asked, id_in_use};
ghost use Rattle.pushclient.specs.Rule.{standing_of};
ghost use Rattle.pushclient.specs.Steps.{is_active, is_unanswered};

use rrset::record::Question;
use std::marker::Model;

/// How a wish stands on this connection.
#[derive(Clone, Copy, Debug, PartialEq, Eq)]
pub enum WishStatus {
    /// It is not asked.
    NotAsked,
    /// It is asked with this ID, and has no answer yet.
    Unanswered(u16),
    /// It was refused with this RCODE.
    Refused(u8),
    /// It was asked with this ID, and is answered.
    Answered(u16),
}

/// A question, whether it is wanted, and how it stands. One that was dropped before its answer isn't wanted any more.
#[derive(Debug, Drop)]
pub(crate) struct Wish {
    pub question: Question,
    pub wanted: bool,
    pub standing: WishStatus,
}

impl Model for Wish {
    ghost use Rattle.std.specs.Prelude.{[]};
    ghost use Rattle.pushclient.specs.Clients.{Wish as PlainWish};
    ghost use Rattle.pushclient.specs.Rule.{standing_of};

    ghost Value = { PlainWish };

    ghost view = { λ w. record { question = w.question; wanted = w.wanted; standing = standing_of w.standing; notices = [] } };
}

impl WishStatus {
    /// Whether it uses this ID.
    pub(crate) fn uses(self, id: u16) -> bool
        ensures { result ≡ list_any (λ u. u == id) (id_in_use (standing_of self)) }
    {
        match self {
            WishStatus::Unanswered(used) | WishStatus::Answered(used) => used == id,
            WishStatus::NotAsked | WishStatus::Refused(_) => false,
        }
    }

    /// The ID with which it is asked.
    pub(crate) fn id(self) -> Option<u16>
        ensures { result ≡ id_asked (standing_of self) }
    {
        match self {
            WishStatus::Unanswered(id) | WishStatus::Answered(id) => Some(id),
            WishStatus::NotAsked | WishStatus::Refused(_) => None,
        }
    }

    /// Whether it waits for the answer with this ID.
    pub(crate) fn awaits(self, id: u16) -> bool
        ensures { result ≡ is_unanswered id (standing_of self) }
    {
        match self {
            WishStatus::Unanswered(asked) => id == asked,
            WishStatus::NotAsked | WishStatus::Refused(_) | WishStatus::Answered(_) => false,
        }
    }

    /// Whether the client asks for something by it (RFC 8490, 6.4).
    pub(crate) fn is_active(self) -> bool
        ensures { result ≡ is_active (standing_of self) }
    {
        match self {
            WishStatus::Unanswered(_) | WishStatus::Answered(_) => true,
            WishStatus::NotAsked | WishStatus::Refused(_) => false,
        }
    }
}
