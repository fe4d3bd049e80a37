//! What a session needs of the server.

use rrset::{Question, Rr};

/// What a session needs of the server to react to its first whole message, with what was read of it.
#[derive(Debug, Drop)]
pub enum Request {
    /// Nothing: it reacts by itself.
    Itself,
    /// Whether the name of a question has a home, and its records (RFC 8765, 6.2). None where the data of the
    /// SUBSCRIBE is no question.
    Subscribe(Option<Question>),
    /// The reconfirming of a record (RFC 8765, 6.5). None where the data of the RECONFIRM is no record.
    Reconfirm(Option<Rr>),
    /// The judging of the update that the message is (RFC 2136, 3).
    Update,
    /// The reply to the query that the message is (RFC 1035, 4.1).
    Query,
}
