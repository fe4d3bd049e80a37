//! Laws of the worlds that scripts tell of.

ghost use Rattle.std.specs.Prelude.{ℕ, List};
ghost use Rattle.replay.specs.SessionPieces.{AnswersEveryCutIn};
ghost use Rattle.replay.specs.ClientPieces.{DeliversPieces, FeedsPieces};
ghost use Rattle.replay.specs.FedLines.{FeedsAsMessages};
ghost use Rattle.replay.specs.OneHub.{OneHubIsAnswered, OneHubIsChecked, OneHubLeaves};
ghost use Rattle.replay.specs.ScriptPieces.{OneTextForEveryCut, PiecesLeavePeers};

/// Between any two lines of a script, a session at rest answers the whole messages in its octets one after
/// the other, in whatever pieces they come, as long as no entry is made (RFC 7766, 8; RFC 8490, 5.4).
pub fn sessions_answer_every_cut()
    ensures { (script : List ℕ) → AnswersEveryCutIn script }
{}

/// Where lines of others stand between the pieces, too, as long as no entry is made: the peer is left with the session that has
/// answered all messages, or with none where that has ended; and the same octets are told the same, however they are cut and
/// whatever the others do.
pub fn pieces_tell_one_text()
    ensures left { PiecesLeavePeers }
    ensures same { OneTextForEveryCut }
{}

/// What a script delivers to a client is taken as pieces of octets are: it answers the whole messages in them, in whatever
/// pieces they come (RFC 7766, 8; RFC 8490, 5.4).
pub fn clients_take_pieces()
    ensures delivered { DeliversPieces }
    ensures fed { FeedsPieces }
{}

/// In every script of one hub a line that feeds a lone client that is connected prints all that the client has to send once it has reacted
/// to each whole message in its input and the octets, one after the other, and that it has closed, if it has.
pub fn lone_clients_react_to_each_message()
    ensures { FeedsAsMessages }
{}

/// A script of one hub is answered what the world of one hub tells, where it is run and where it is only read, and leaves that world.
pub fn one_hub_is_as_ever()
    ensures answered { OneHubIsAnswered }
    ensures checked { OneHubIsChecked }
    ensures leaves { OneHubLeaves }
{}
