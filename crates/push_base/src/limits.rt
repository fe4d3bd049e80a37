//! Limits; where no standard is named they are this project's own.

/// The most octets of the records of one name.
pub const MAX_OCTETS_AT_NAME: u64 = 60_000;
/// The most octets of the name of a zone or a link.
pub const MAX_HOME_OCTETS: usize = 200;
/// The most octets of a datagram of a link (RFC 6762, 17).
pub const MAX_DATAGRAM: usize = 9_000;
/// The last moment, in milliseconds.
pub const MAX_MOMENT: u64 = 4_611_686_018_427_387_903;
/// The most questions of a client, and the most subscriptions of a session.
pub const MAX_QUESTIONS: usize = 1_024;
/// The most octets that one end keeps unread: a whole frame, and 4,096 more.
pub const MAX_INPUT: usize = 69_633;
/// Where numbers that only rise stop: the greatest of 64 bits.
pub const MAX_NUMBER: u64 = 18_446_744_073_709_551_615;
