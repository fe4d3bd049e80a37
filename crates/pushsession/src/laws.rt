//! Laws of what is kept of a session.

ghost use Rattle.pushsession.specs.Laws.{NotesGoBack, PiecesAreOne, EachQuestionHasItsEnd};

/// What was noted for an entry at a point goes when the point is taken back: then the session is as it was.
pub fn notes_go_back()
    ensures { NotesGoBack }
{}

/// Octets that come in two pieces are taken as if they came in one.
pub fn pieces_are_one()
    ensures { PiecesAreOne }
{}

/// Of each ID that a session asks with, the end of the first answer is known, and of no other.
pub fn each_question_has_its_end()
    ensures { EachQuestionHasItsEnd }
{}
