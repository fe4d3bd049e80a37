//! Laws of the plain client's steps.

ghost use Rattle.std.specs.Prelude.{◌≡◌, [], ◌∷◌, codes};
ghost use Rattle.push_base.specs.Hexadecimal.{hex};
ghost use Rattle.pushclient.specs.Worked.{asking};
ghost use Rattle.pushclient.specs.Pieces.{on_pieces, input_of, AnswersEveryCut, SameForEveryCut, SaysTheSame, HasRoomWhileItWaits};
ghost use Rattle.pushclient.specs.FittingMessages.{MeetsTheFirst, TakesWhatFits, OnlyDelayCloses, ClosesOnStranger, ClosesOnEarly};

use crate::client::Step;
use dsosession::session::CloseReason;

/// An answer in three pieces, with the first octet of what follows; and a PUSH before an answer, behind which nothing is taken.
pub fn worked_pieces()
    ensures answered { (on_pieces 100 (hex (codes "000c00") ∷ hex (codes "01b00000000000") ∷ hex (codes "0000000000") ∷ []) (asking (codes "example.com.") 6)).steps ≡ Step.Answered 1 0 ∷ [] }
    ensures rest { input_of (on_pieces 100 (hex (codes "000c00") ∷ hex (codes "01b00000000000") ∷ hex (codes "0000000000") ∷ []) (asking (codes "example.com.") 6)).client ≡ 0 ∷ [] }
    ensures closed { (on_pieces 100 (hex (codes "001000003000000000000000000000410000") ∷ hex (codes "000c") ∷ []) (asking (codes "example.com.") 6)).steps ≡ Step.Closed CloseReason.Early ∷ [] }
    ensures left { (on_pieces 100 (hex (codes "001000003000000000000000000000410000") ∷ hex (codes "000c") ∷ []) (asking (codes "example.com.") 6)).left ≡ hex (codes "000c") }
{}

/// A client that waits answers the whole messages in its octets one after the other until it closes, in whatever pieces they
/// come (RFC 7766, 8; RFC 8490, 5.4). No octet is lost, as a client that waits has room for more.
pub fn clients_answer_every_cut()
    ensures messages { AnswersEveryCut }
    ensures alike { SameForEveryCut }
    ensures said { SaysTheSame }
    ensures room { HasRoomWhileItWaits }
{}

/// What this project's server sends closes no client that waits for it, but Retry Delay; an answer that nothing waits for
/// does, and what is no answer before one came (RFC 8490, 5.1 and 5.4.1).
pub fn clients_take_what_fits()
    ensures first { MeetsTheFirst }
    ensures taken { TakesWhatFits }
    ensures only_delay { OnlyDelayCloses }
    ensures stranger { ClosesOnStranger }
    ensures early { ClosesOnEarly }
{}
