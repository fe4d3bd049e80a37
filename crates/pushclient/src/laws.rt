//! Laws of the client.

ghost use Rattle.pushclient.specs.SoundClients.{CallsStaySound, ClientsAreSound, QuestionsAreAskedFor};

/// After any calls a client has at most 1,024 wishes, of different questions, and no ID is in use twice (RFC 8490, 5.4.1).
/// While its connection is open each wish is asked, and only what has no answer yet is dropped and still there.
pub fn clients_stay_sound()
    ensures calls { CallsStaySound }
    ensures clients { ClientsAreSound }
{}

/// A wish is for a question that `subscribe` was given: a test that each of these passes is passed by that of each wish.
pub fn wishes_are_asked_for()
    ensures { QuestionsAreAskedFor }
{}
