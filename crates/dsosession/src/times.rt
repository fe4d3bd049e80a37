//! Spans of the timers of a session, in milliseconds (RFC 8490, 6).

/// A timer of so much never ends (RFC 8490, 6.4.2 and 6.5.2).
pub const INFINITE: u32 = 0xffff_ffff;
/// Each of the two timers until a Keepalive says otherwise (RFC 8490, 6.2).
pub const DEFAULT_TIMER: u32 = 15_000;
/// The least keepalive interval (RFC 8490, 6.5.2).
pub const LEAST_KEEPALIVE: u32 = 10_000;
/// The least span after which a session is idle (RFC 8490, 6.4.1).
pub const LEAST_IDLE: u64 = 5_000;
/// How long a client that was asked to stop keeps its connection at most (RFC 8490, 6.6.1).
pub const STOP_TIME: u64 = 5_000;
