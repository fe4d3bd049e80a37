//! Classes, by their numbers (RFC 1035, 3.2.4 and 3.2.5; RFC 2136, 1.3).

/// The class of the internet, of all records that are served.
pub const IN: u16 = 1;
/// The class of what an update takes out, or of what must not be there.
pub const NONE: u16 = 254;
/// Every class, in a question.
pub const ANY: u16 = 255;
