//! What a subscriber says, and what it sends.

/// What was said, and whether an ending was among it.
#[derive(Drop)]
pub(crate) struct Said {
    /// Its lines.
    pub text: String,
    /// Whether the last one is an ending.
    pub is_over: bool,
}

/// What was said at a moment, and what is to go out.
#[derive(Drop)]
pub(crate) struct Passed {
    /// What the client has to send.
    pub octets: Vec<u8>,
    /// What was said.
    pub said: Said,
}
